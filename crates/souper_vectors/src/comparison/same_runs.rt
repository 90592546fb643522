//! Comparisons of two files over writers that fail.
use crate::checks::{FAULT, equal, text, told};
use crate::comparison::files::write_files;
use crate::faulty::FaultyWriter;
use souper_format::command::Kind;
use souper_format::same_run::same_run;
use souper_format::watched::Watched;
use std::io::Write;
use std::process::Abort;
use std::rt::Files;

// The status of a comparison of two files of left-hand sides.
fn compare<R: Files + AllocGlobal, W: Write, E: Write>(
    rt: &R,
    (first, second): (&str, &str),
    out: &mut Watched<W>,
    err: &mut Watched<E>,
) -> u8 {
    same_run(rt, rt.alloc(), Kind::Lhs, first, second, out, err)
}

// A comparison with `first` has this status, and reports this line. `out` fails after `after` calls.
fn writes<R: Files + AllocGlobal + Abort>(
    rt: &R,
    path: &str,
    after: usize,
    fails: bool,
    want: (u8, &str),
) {
    let mut reported = Vec::new(rt.alloc());
    let mut out = Watched::new(FaultyWriter::new(2, after));
    let mut err = Watched::new(&mut reported);
    let status = compare(rt, ("out/first", path), &mut out, &mut err);
    let failed = out.failed();
    let ran = (status, told(&reported));
    equal(rt, (path, after, failed, ran), (path, after, fails, want));
}

// `same` and a newline go in three writes, `different` and a newline in five; a further call flushes.
#[test]
fn failed_write_is_a_fault(rt: HostRuntime) {
    write_files(&rt);
    for after in 0..4 {
        writes(&rt, "out/second", after, true, (3, FAULT));
    }
    writes(&rt, "out/second", 4, false, (0, ""));
    for after in 0..6 {
        writes(&rt, "out/third", after, true, (3, FAULT));
    }
    writes(&rt, "out/third", 6, false, (0, ""));
}

// A comparison over an `err` that fails after `after` calls: the status, whether `out` and `err` failed, and whether
// nothing is written.
fn compare_over_err<R: Files + AllocGlobal>(
    rt: &R,
    paths: (&str, &str),
    after: usize,
) -> (u8, bool, bool, bool) {
    let mut written = Vec::new(rt.alloc());
    let mut out = Watched::new(&mut written);
    let mut err = Watched::new(FaultyWriter::new(1, after));
    let status = compare(rt, paths, &mut out, &mut err);
    let (out_failed, err_failed) = (out.failed(), err.failed());
    (status, out_failed, err_failed, written.is_empty())
}

// The comparison has this status, whichever of the bytes of its line `err` fails at.
fn keeps_status<R: Files + AllocGlobal + Abort>(
    rt: &R,
    paths: (&str, &str),
    status: u8,
    bytes: usize,
) {
    for after in 0..bytes {
        let ran = compare_over_err(rt, paths, after);
        let want = (status, false, true, true);
        equal(rt, (paths, after, ran), (paths, after, want));
    }
}

// The line of a parse error has 83 bytes, and the line of a failed read begins with 10 known ones.
#[test]
fn failed_err_keeps_the_status(rt: HostRuntime) {
    write_files(&rt);
    keeps_status(&rt, ("out/refused", "absent"), 1, 83);
    keeps_status(&rt, ("out/first", "out/refused"), 1, 83);
    keeps_status(&rt, ("absent", "out/refused"), 3, 10);
    keeps_status(&rt, ("out/first", "absent"), 3, 10);
    keeps_status(&rt, ("out/first", "out/no_text"), 3, 10);
}

// A comparison over an `out` and an `err` that fail after these numbers of calls: the status, and whether each failed.
fn compare_over_both<R: Files + AllocGlobal>(
    rt: &R,
    after: usize,
    bytes: usize,
) -> (u8, bool, bool) {
    let mut out = Watched::new(FaultyWriter::new(2, after));
    let mut err = Watched::new(FaultyWriter::new(1, bytes));
    let status = compare(rt, ("out/first", "out/second"), &mut out, &mut err);
    (status, out.failed(), err.failed())
}

#[test]
fn failed_write_is_a_fault_though_err_fails(rt: HostRuntime) {
    write_files(&rt);
    for after in 0..4 {
        for bytes in 0..10 {
            let ran = compare_over_both(&rt, after, bytes);
            equal(&rt, (after, bytes, ran), (after, bytes, (3, true, true)));
        }
    }
}

// The comparison with `first` writes this, and nothing to `err`, whose first call would fail.
fn needs_no_err<R: Files + AllocGlobal + Abort>(rt: &R, path: &str, want: &str) {
    let mut written = Vec::new(rt.alloc());
    let mut out = Watched::new(&mut written);
    let mut err = Watched::new(FaultyWriter::new(1, 0));
    let status = compare(rt, ("out/first", path), &mut out, &mut err);
    let failed = err.failed();
    let ran = (status, failed, text(&written));
    equal(rt, (path, ran), (path, (0, false, want)));
}

#[test]
fn comparison_needs_no_err(rt: HostRuntime) {
    write_files(&rt);
    needs_no_err(&rt, "out/second", "same\n");
    needs_no_err(&rt, "out/third", "different\n");
}
