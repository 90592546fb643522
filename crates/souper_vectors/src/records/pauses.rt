//! What a process has written is passed on while the process pauses: the items before the last whole line that a reader has shown.
use crate::checks::equal;
use souper_format::watched::Watched;
use souper_ir::ast::LeftHandSide;
use souper_records::layout::PLAIN;
use souper_records::options::ReadOptions;
use souper_records::run::each_run_with;
use std::alloc::Global;
use std::cell::Cell;
use std::io;
use std::io::{BufReader, ErrorKind, Read, Write};
use std::process::Abort;

const TEXT: &str = "%a = var\ninfer %a\n";

const ITEM: usize = 18;

const FIRST_LINE: usize = 9;

const COUNT: usize = 500;

// A reader that shows blocks of this many bytes. It fails if more is asked for while an item is due: not written, and the line after it was
// shown.
#[derive(Drop)]
struct Blocks<'a> {
    rest: &'a [u8],
    block: usize,
    shown: usize,
    written: &'a Cell<usize>,
}

impl Read for Blocks<'_> {
    fn read(&mut self, buf: &mut [u8]) -> io::Result<usize> {
        if self.written.get() < self.shown.saturating_sub(FIRST_LINE) / ITEM {
            return Err(io::Error::from(ErrorKind::Other));
        }
        let len = buf.len().min(self.block);
        let mut block = self.rest.get(..len).unwrap_or(self.rest);
        self.rest = self.rest.get(len..).unwrap_or_default();
        self.shown = self.shown.saturating_add(block.len());
        block.read(buf)
    }
}

// A writer that counts the items.
#[derive(Drop)]
struct Items<'a> {
    written: &'a Cell<usize>,
}

impl Write for Items<'_> {
    fn write(&mut self, buf: &[u8]) -> io::Result<usize> {
        for byte in buf {
            if *byte == b'f' {
                self.written.set(self.written.get().saturating_add(1));
            }
        }
        Ok(buf.len())
    }

    fn flush(&mut self) -> io::Result<()> {
        Ok(())
    }
}

// The status of a run, and how many items were written.
fn run(rt: &impl Abort, alloc: Global, text: &str, block: usize, recover: bool) -> (u8, usize) {
    let written = Cell::new(0);
    let blocks = Blocks {
        rest: text.as_bytes(),
        block,
        shown: 0,
        written: &written,
    };
    let options = ReadOptions {
        name: "a.opt",
        recover,
        line_buffered: true,
        hints: None,
    };
    let mut reader = BufReader::with_capacity(alloc, 8192, blocks).expect(rt, "memory");
    let mut out = Watched::new(Items { written: &written });
    let mut err = Watched::new(io::sink());
    let status = each_run_with::<LeftHandSide, BufReader<Blocks<'_>>, Items<'_>, io::Sink>(
        alloc,
        PLAIN,
        options,
        &mut reader,
        &mut out,
        &mut err,
    );
    (status, written.get())
}

#[test]
fn items_that_were_shown_do_not_wait(rt: HostRuntime) {
    let mut text = String::new(rt.alloc());
    for _ in 0..COUNT {
        text.push_str(TEXT).expect(&rt, "memory");
    }
    for block in [1, 7, 4096] {
        for recover in [false, true] {
            let found = run(&rt, rt.alloc(), text.as_str(), block, recover);
            equal(&rt, (block, found), (block, (0, COUNT)));
        }
    }
}
