//! Runs of the formatter over readers and writers in memory.
use crate::checks::{FAULT, Ran, equal, text, told};
use crate::faulty::{FaultyReader, FaultyWriter};
use souper_format::command::Kind;
use souper_format::run::format_run;
use souper_format::watched::Watched;
use std::alloc::Global;
use std::io::{Read, Write};
use std::process::Abort;

const SOURCE: &[u8] = b"%a = var\n%b = var\ninfer %b";

const FORMATTED: &str = "%b = var\ninfer %b\n\n";

// A run over the reader does this. Either its end is reached, or a read fails.
fn reads<R: Read + Drop>(rt: &impl Abort, alloc: Global, reader: R, ends: bool, want: Ran<'_>) {
    let mut written = Vec::new(alloc);
    let mut reported = Vec::new(alloc);
    let mut input = Watched::new(reader);
    let mut out = Watched::new(&mut written);
    let mut err = Watched::new(&mut reported);
    let status = format_run(alloc, Kind::Lhs, &mut input, &mut out, &mut err);
    let streams = (input.ended(), input.failed(), out.failed() || err.failed());
    let ran = (status, text(&written), told(&reported));
    equal(rt, (streams, ran), ((ends, !ends, false), want));
}

// A run over bytes that are read in one call does this.
fn runs(rt: &impl Abort, alloc: Global, source: &[u8], want: Ran<'_>) {
    reads(rt, alloc, source, true, want);
}

// A run that writes to the writer has this status, and reports this line. A call of the writer fails or not.
fn writes<W: Write + Drop>(
    rt: &impl Abort,
    alloc: Global,
    writer: W,
    fails: bool,
    want: (u8, &str),
) {
    let mut reported = Vec::new(alloc);
    let mut input = Watched::new(SOURCE);
    let mut out = Watched::new(writer);
    let mut err = Watched::new(&mut reported);
    let status = format_run(alloc, Kind::Lhs, &mut input, &mut out, &mut err);
    let failed = out.failed();
    equal(rt, (failed, (status, told(&reported))), (fails, want));
}

#[test]
fn items_are_formatted(rt: HostRuntime) {
    runs(&rt, rt.alloc(), SOURCE, (0, FORMATTED, ""));
    runs(&rt, rt.alloc(), b"", (0, "", ""));
    runs(&rt, rt.alloc(), b";;", (0, "", ""));
    let source = b"%x = var\ninfer %x\n%x = var\ninfer %x";
    let text = "%x = var\ninfer %x\n\n%x = var\ninfer %x\n\n";
    runs(&rt, rt.alloc(), source, (0, text, ""));
}

#[test]
fn refusal_is_reported(rt: HostRuntime) {
    let line =
        "unknown:1:6: no value named '%x' in scope\n     |\n   1 | infer %x\n     |      ^\n";
    runs(&rt, rt.alloc(), b"infer %x", (1, "", line));
    let source = "%bb = block 2\n%x = var\nblockpc %bb 2 %x 1\ninfer %x";
    let line =
        "unknown:3:12: predecessor 2 out of range for block '%bb'\n     |\n   3 | blockpc %bb 2 %x 1\n     |            ^\n";
    runs(&rt, rt.alloc(), source.as_bytes(), (1, "", line));
    let source = "%x = var\ninfer %x\né";
    let line = "unknown:2:9: unexpected 'é'\n     |\n   2 | infer %x\n     |         ^\n";
    runs(&rt, rt.alloc(), source.as_bytes(), (1, "", line));
}

#[test]
fn bytes_that_are_no_text_are_a_fault(rt: HostRuntime) {
    runs(&rt, rt.alloc(), b"\xff", (3, "", FAULT));
    runs(
        &rt,
        rt.alloc(),
        b"%x = var\ninfer %x\n;\xc3",
        (3, "", FAULT),
    );
    runs(&rt, rt.alloc(), b"infer %x\xff", (3, "", FAULT));
}

#[test]
fn single_bytes_are_gathered(rt: HostRuntime) {
    let reader = FaultyReader::new(SOURCE, 1, 27);
    reads(&rt, rt.alloc(), reader, true, (0, FORMATTED, ""));
}

// The 26 bytes come in three reads, and a fourth reaches the end.
#[test]
fn failed_read_is_a_fault(rt: HostRuntime) {
    for after in 0..4 {
        let reader = FaultyReader::new(SOURCE, 10, after);
        reads(&rt, rt.alloc(), reader, false, (3, "", FAULT));
    }
    let reader = FaultyReader::new(SOURCE, 10, 4);
    reads(&rt, rt.alloc(), reader, true, (0, FORMATTED, ""));
}

// The 19 bytes go in four writes, and a fifth call flushes.
#[test]
fn failed_write_is_a_fault(rt: HostRuntime) {
    for after in 0..5 {
        let writer = FaultyWriter::new(5, after);
        writes(&rt, rt.alloc(), writer, true, (3, FAULT));
    }
    writes(&rt, rt.alloc(), FaultyWriter::new(5, 5), false, (0, ""));
}

#[test]
fn write_that_takes_nothing_is_a_fault(rt: HostRuntime) {
    let mut none = [0u8; 0];
    writes(&rt, rt.alloc(), none.as_mut_slice(), true, (3, FAULT));
}

// A run over an `err` that fails after `after` calls: the status, whether `err` failed, and whether nothing is written.
fn runs_over_err(alloc: Global, source: &[u8], after: usize) -> (u8, bool, bool) {
    let mut written = Vec::new(alloc);
    let mut input = Watched::new(source);
    let mut out = Watched::new(&mut written);
    let mut err = Watched::new(FaultyWriter::new(5, after));
    let status = format_run(alloc, Kind::Lhs, &mut input, &mut out, &mut err);
    let failed = err.failed();
    (status, failed, written.is_empty())
}

#[test]
fn failed_err_keeps_the_status(rt: HostRuntime) {
    for after in 0..4 {
        let refused = runs_over_err(rt.alloc(), b"infer %x", after);
        equal(&rt, (after, refused), (after, (1, true, true)));
        let no_text = runs_over_err(rt.alloc(), b"\xff", after);
        equal(&rt, (after, no_text), (after, (3, true, true)));
        let formatted = runs_over_err(rt.alloc(), SOURCE, after);
        equal(&rt, (after, formatted), (after, (0, false, false)));
    }
}
