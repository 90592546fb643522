//! Reads and writes that fail.
use crate::checks::{equal, text};
use crate::faulty::{BrokenReader, FaultyReader, FaultyWriter};
use crate::records::support::{Command, did, headed, run_over, run_to};
use souper_format::watched::Watched;
use souper_ir::ast::LeftHandSide;
use souper_records::layout::PLAIN;
use std::alloc::Global;
use std::io;
use std::io::{BufReader, ErrorKind, Read};
use std::process::Abort;

// How the line of a failed read begins.
const READ_ERROR: &str = "souper_items: a.opt: ";

// How the line of a failed write begins.
const WRITE_ERROR: &str = "souper_items: write error: ";

// A run over a reader that has at most this number of bytes per read, and then fails.
fn fails(rt: &impl Abort, alloc: Global, command: Command, most: usize) {
    let source = BrokenReader::new(b"%x = var\ninfer %x\n%y = var\n", most);
    let mut reader = BufReader::with_capacity(alloc, 3, source).expect(rt, "memory");
    let run = run_over::<LeftHandSide, BufReader<BrokenReader<'_>>>(alloc, command, &mut reader);
    did(rt, run, (2, "%x = var\ninfer %x\n\n", READ_ERROR));
}

#[test]
fn failed_read_is_reported(rt: HostRuntime) {
    // All 27 bytes at the first read, and 3 at each.
    for most in [27, 3] {
        fails(&rt, rt.alloc(), Command::Each(PLAIN), most);
        fails(&rt, rt.alloc(), Command::EachByLines, most);
    }
}

fn writes_before(rt: &impl Abort, alloc: Global, command: Command) {
    let source = BrokenReader::new(b"%x = var\ninfer %x\n%y = var\ninfer %y\n%z = var\n", 64);
    let mut reader = BufReader::with_capacity(alloc, 64, source).expect(rt, "memory");
    let run = run_over::<LeftHandSide, BufReader<BrokenReader<'_>>>(alloc, command, &mut reader);
    did(
        rt,
        run,
        (
            2,
            "%x = var\ninfer %x\n\n%y = var\ninfer %y\n\n",
            READ_ERROR,
        ),
    );
}

// The segments before a failed read are written.
#[test]
fn segments_are_written_before_a_failed_read(rt: HostRuntime) {
    writes_before(&rt, rt.alloc(), Command::EachGoingOn);
    writes_before(&rt, rt.alloc(), Command::EachByLines);
}

// A reader that ends once: a read after it fails.
#[derive(Drop)]
struct EndsOnce<'a> {
    rest: &'a [u8],
    ended: bool,
}

impl Read for EndsOnce<'_> {
    fn read(&mut self, buf: &mut [u8]) -> io::Result<usize> {
        if self.ended {
            return Err(io::Error::from(ErrorKind::BrokenPipe));
        }
        self.ended = self.rest.is_empty();
        self.rest.read(buf)
    }
}

fn ends_once(rt: &impl Abort, alloc: Global, command: Command, text: &str, capacity: usize) {
    let source = EndsOnce {
        rest: text.as_bytes(),
        ended: false,
    };
    let mut reader = BufReader::with_capacity(alloc, capacity, source).expect(rt, "memory");
    let run = run_over::<LeftHandSide, BufReader<EndsOnce<'_>>>(alloc, command, &mut reader);
    did(rt, run, (0, "%x = var\ninfer %x\n\n", ""));
}

#[test]
fn end_is_read_once(rt: HostRuntime) {
    for text in [
        "%x = var\ninfer %x\n",
        "%x = var\ninfer %x",
        "%x = var\ninfer %x\n; a comment\n",
    ] {
        for capacity in [3, 64] {
            ends_once(&rt, rt.alloc(), Command::Each(PLAIN), text, capacity);
            ends_once(&rt, rt.alloc(), Command::EachGoingOn, text, capacity);
            ends_once(&rt, rt.alloc(), Command::EachByLines, text, capacity);
        }
    }
}

// The status of a run that is rejected and whose report fails after this number of calls, and whether the report failed.
fn failed_report(rt: &impl Abort, alloc: Global, after: usize) -> (u8, bool) {
    let mut reader = BufReader::new(alloc, b"infer %x\n".as_slice()).expect(rt, "memory");
    let mut written = Vec::new(alloc);
    let mut out = Watched::new(&mut written);
    let mut err = Watched::new(FaultyWriter::new(5, after));
    let status = run_to::<LeftHandSide, BufReader<&[u8]>, &mut Vec<u8>, FaultyWriter>(
        alloc,
        Command::Each(PLAIN),
        &mut reader,
        &mut out,
        &mut err,
    );
    (status, err.failed())
}

// If the report cannot be written, the status still says that the input is rejected.
#[test]
fn failed_report_leaves_the_status(rt: HostRuntime) {
    for after in 0..4 {
        let found = failed_report(&rt, rt.alloc(), after);
        equal(&rt, (after, found), (after, (1, true)));
    }
}

// A run over a text whose third line is no UTF-8.
fn is_no_text(rt: &impl Abort, alloc: Global, command: Command, source: &[u8]) {
    let mut reader = BufReader::with_capacity(alloc, 5, source).expect(rt, "memory");
    let run = run_over::<LeftHandSide, BufReader<&[u8]>>(alloc, command, &mut reader);
    let found = (run.status, text(&run.err));
    equal(rt, found, (2, "a.opt:3: not UTF-8 at byte 18\n"));
}

#[test]
fn bytes_that_are_no_text_are_reported(rt: HostRuntime) {
    for command in [Command::Each(PLAIN), Command::EachByLines] {
        let last = b"%x = var\ninfer %x\n\xff".as_slice();
        is_no_text(&rt, rt.alloc(), command, last);
        let whole = b"%x = var\ninfer %x\n\xff\n%y = var\n".as_slice();
        is_no_text(&rt, rt.alloc(), command, whole);
    }
}

// A run in which one read is interrupted.
fn is_tried_again(rt: &impl Abort, alloc: Global, command: Command, capacity: usize, after: usize) {
    let source = FaultyReader::new(b"%x = var\ninfer %x\n", 5, after);
    let mut reader = BufReader::with_capacity(alloc, capacity, source).expect(rt, "memory");
    let run = run_over::<LeftHandSide, BufReader<FaultyReader<'_>>>(alloc, command, &mut reader);
    did(rt, run, (0, "%x = var\ninfer %x\n\n", ""));
}

// An interrupted read is tried again.
#[test]
fn interrupted_read_is_tried_again(rt: HostRuntime) {
    for after in 0..8 {
        is_tried_again(&rt, rt.alloc(), Command::Each(PLAIN), 3, after);
        is_tried_again(&rt, rt.alloc(), Command::EachByLines, 3, after);
    }
}

#[test]
fn interrupted_read_is_tried_again_in_recovery(rt: HostRuntime) {
    for after in 0..8 {
        is_tried_again(&rt, rt.alloc(), Command::EachGoingOn, 3, after);
        is_tried_again(&rt, rt.alloc(), Command::EachGoingOn, 64, after);
    }
}

// A run has this status, and reports a line with this head. A call of the writer fails or not.
fn writes(rt: &impl Abort, alloc: Global, after: usize, fails: bool, want: (u8, &str)) {
    let source = b"%x = var\ninfer %x\n".as_slice();
    let mut reader = BufReader::new(alloc, source).expect(rt, "memory");
    let mut reported = Vec::new(alloc);
    let mut err = Watched::new(&mut reported);
    let mut out = Watched::new(FaultyWriter::new(5, after));
    let status = run_to::<LeftHandSide, BufReader<&[u8]>, FaultyWriter, &mut Vec<u8>>(
        alloc,
        Command::Each(PLAIN),
        &mut reader,
        &mut out,
        &mut err,
    );
    let failed = out.failed();
    let found = (status, headed(&reported, want.1));
    equal(rt, (after, failed, found), (after, fails, want));
}

// The 19 bytes go in four writes, and a fifth call flushes.
#[test]
fn failed_write_is_reported(rt: HostRuntime) {
    for after in 0..5 {
        writes(&rt, rt.alloc(), after, true, (2, WRITE_ERROR));
    }
    writes(&rt, rt.alloc(), 5, false, (0, ""));
}
