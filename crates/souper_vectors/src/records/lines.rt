//! With a reader that gives a line at a time, each item is written before more is read.
use crate::checks::equal;
use souper_format::watched::Watched;
use souper_ir::ast::LeftHandSide;
use souper_records::layout::PLAIN;
use souper_records::options::ReadOptions;
use souper_records::output::Output;
use souper_records::rows::rows_run;
use souper_records::run::{each_run_with, uniq_run_with};
use souper_records::seen::Seen;
use std::alloc::Global;
use std::cell::Cell;
use std::io;
use std::io::{BufReader, ErrorKind, Read, Write};
use std::process::Abort;

// Items of two lines, of 9 bytes each. The comment alone is no line of an item.
const SOURCE: &[u8] = b"%a = var\ninfer %a\n%b = var\ninfer %b\n; 3456 8\n%c = var\ninfer %c\n";

const LINE: usize = 9;

// The number of items before each line, without the item before it, of which more may come.
const ITEMS: [usize; 8] = [0, 0, 0, 1, 1, 1, 2, 2];

// A reader that gives a line each time. It fails if it is read before the items are written that end before the last line.
#[derive(Drop)]
struct Lines<'a> {
    rest: &'a [u8],
    given: usize,
    written: &'a Cell<usize>,
}

impl Read for Lines<'_> {
    fn read(&mut self, buf: &mut [u8]) -> io::Result<usize> {
        if self.written.get() < ITEMS.get(self.given).copied().unwrap_or(0) {
            return Err(io::Error::from(ErrorKind::Other));
        }
        self.given = self.given.saturating_add(1);
        let len = buf.len().min(LINE);
        let mut line = self.rest.get(..len).unwrap_or(self.rest);
        self.rest = self.rest.get(len..).unwrap_or_default();
        line.read(buf)
    }
}

// A writer that counts the items: each has one record or one object, which is written at once.
#[derive(Drop)]
struct Items<'a> {
    written: &'a Cell<usize>,
}

impl Write for Items<'_> {
    fn write(&mut self, buf: &[u8]) -> io::Result<usize> {
        if !buf.is_empty() {
            self.written.set(self.written.get().saturating_add(1));
        }
        Ok(buf.len())
    }

    fn flush(&mut self) -> io::Result<()> {
        Ok(())
    }
}

#[derive(Clone, Copy, Debug, PartialEq)]
enum Command {
    Each,
    Objects,
    Uniq,
}

type Reader<'a> = BufReader<Lines<'a>>;

// The status of a run, and how many items were written.
fn run(rt: &impl Abort, alloc: Global, command: Command, options: ReadOptions<'_>) -> (u8, usize) {
    let written = Cell::new(0);
    let lines = Lines {
        rest: SOURCE,
        given: 0,
        written: &written,
    };
    let mut reader = BufReader::with_capacity(alloc, 64, lines).expect(rt, "memory");
    let mut out = Watched::new(Items { written: &written });
    let mut err = Watched::new(io::sink());
    let mut seen = Seen::new(alloc);
    let (reader, out, err) = (&mut reader, &mut out, &mut err);
    let status = match command {
        Command::Each => each_run_with::<LeftHandSide, Reader<'_>, Items<'_>, io::Sink>(
            alloc, PLAIN, options, reader, out, err,
        ),
        Command::Objects => {
            let output = Output::Objects { rename: false };
            rows_run::<LeftHandSide, String, Output, Reader<'_>, Items<'_>, io::Sink>(
                alloc, output, options, reader, out, err,
            )
        }
        Command::Uniq => uniq_run_with::<LeftHandSide, Reader<'_>, Items<'_>, io::Sink>(
            PLAIN, options, &mut seen, reader, out, err,
        ),
    };
    (status, written.get())
}

#[test]
fn items_are_written_line_by_line(rt: HostRuntime) {
    for command in [Command::Each, Command::Objects, Command::Uniq] {
        for recover in [false, true] {
            let options = ReadOptions {
                name: "a.opt",
                recover,
                line_buffered: true,
                hints: None,
            };
            let found = run(&rt, rt.alloc(), command, options);
            equal(&rt, (command, found), (command, (0, 3)));
        }
    }
}

#[test]
fn items_are_written_late_otherwise(rt: HostRuntime) {
    let options = ReadOptions {
        name: "a.opt",
        recover: false,
        line_buffered: false,
        hints: None,
    };
    let found = run(&rt, rt.alloc(), Command::Each, options);
    equal(&rt, found, (2, 1));
}
