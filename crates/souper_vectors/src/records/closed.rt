//! Outputs that are pipes which nobody reads.
use crate::checks::{equal, text};
use crate::records::support::{Command, run_to};
use souper_format::watched::Watched;
use souper_ir::ast::LeftHandSide;
use souper_records::layout::{PLAIN, Summary};
use souper_records::options::ReadOptions;
use souper_records::run::{BROKEN_PIPE, count_run, uniq_run_with};
use souper_records::seen::Seen;
use std::alloc::Global;
use std::io;
use std::io::{BufReader, ErrorKind, Write};
use std::process::Abort;

const COUNTS: Summary = Summary {
    counts: true,
    repeated: false,
};

// A pipe that is read up to this many bytes.
#[derive(Drop)]
struct Pipe {
    room: usize,
}

impl Write for Pipe {
    fn write(&mut self, buf: &[u8]) -> io::Result<usize> {
        if self.room == 0 {
            return Err(io::Error::from(ErrorKind::BrokenPipe));
        }
        let count = buf.len().min(self.room);
        self.room -= count;
        Ok(count)
    }

    fn flush(&mut self) -> io::Result<()> {
        Ok(())
    }
}

// The item between the two others is rejected.
const SOURCE: &[u8] = b"%x = var\ninfer %x\ninfer %y\n%z = var\ninfer %z\n";

const REFUSAL: &str =
    "a.opt:3:7: no value named '%y' in scope\n     |\n   3 | infer %y\n     |       ^\n";

type Reader<'a> = BufReader<&'a [u8]>;

// A run to a pipe with this much room reports this, and its status is `BROKEN_PIPE`.
fn is_told(rt: &impl Abort, alloc: Global, command: Command, room: usize, want: &str) {
    let mut reader = BufReader::with_capacity(alloc, 3, SOURCE).expect(rt, "memory");
    let mut reported = Vec::new(alloc);
    let mut out = Watched::new(Pipe { room });
    let mut err = Watched::new(&mut reported);
    let status = run_to::<LeftHandSide, Reader<'_>, Pipe, &mut Vec<u8>>(
        alloc,
        command,
        &mut reader,
        &mut out,
        &mut err,
    );
    equal(rt, (status, text(&reported)), (BROKEN_PIPE, want));
}

#[test]
fn closed_pipe_is_not_reported(rt: HostRuntime) {
    for room in 0..19 {
        is_told(&rt, rt.alloc(), Command::Each(PLAIN), room, "");
        is_told(&rt, rt.alloc(), Command::Uniq, room, "");
    }
}

#[test]
fn refusals_before_a_closed_pipe_are_reported(rt: HostRuntime) {
    for command in [Command::EachGoingOn, Command::UniqGoingOn] {
        is_told(&rt, rt.alloc(), command, 0, "");
        is_told(&rt, rt.alloc(), command, 19, REFUSAL);
    }
    let objects = Command::Objects {
        file: "a.opt",
        rename: false,
    };
    is_told(&rt, rt.alloc(), objects, 0, "");
    is_told(&rt, rt.alloc(), objects, 280, REFUSAL);
}

#[test]
fn closed_pipe_has_no_counts(rt: HostRuntime) {
    let alloc = rt.alloc();
    let mut reader = BufReader::new(alloc, b"%x = var\ninfer %x\n".as_slice()).expect(
        &rt, "memory",
    );
    let mut seen = Seen::new(alloc);
    let mut reported = Vec::new(alloc);
    let mut sink = Watched::new(io::sink());
    let mut out = Watched::new(Pipe { room: 5 });
    let mut err = Watched::new(&mut reported);
    let options = ReadOptions {
        name: "a.opt",
        recover: false,
        line_buffered: false,
        hints: None,
    };
    let first = uniq_run_with::<LeftHandSide, Reader<'_>, io::Sink, &mut Vec<u8>>(
        PLAIN,
        options,
        &mut seen,
        &mut reader,
        &mut sink,
        &mut err,
    );
    let status = count_run(alloc, PLAIN, COUNTS, &seen, &mut out, &mut err);
    equal(&rt, (first, status, text(&reported)), (0, BROKEN_PIPE, ""));
}
