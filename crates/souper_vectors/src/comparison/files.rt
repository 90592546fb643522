//! Files that are read, and files that are compared.
use crate::checks::{FAULT, Ran, equal, text, told};
use souper_format::command::Kind;
use souper_format::same_run::same_run;
use souper_format::watched::Watched;
use souper_ir::parse::{
    ParseError, ParseErrorKind, parse_left_hand_sides_file, parse_replacements_file,
    parse_right_hand_sides_file,
};
use std::alloc::Global;
use std::fs;
use std::process::Abort;
use std::rt::Files;

const REFUSAL: &str = ":1:6: no value named '%x' in scope\n     |\n   1 | infer %x\n     |      ^";

// The files that are compared: the path of each, and on the next lines its text.
const COMPARED: &str = "out/first
%b = var
%a = var
%c = add %a, %b
infer %c

out/second
%a = var
%b = var
%c = add %a, %b
infer %c

out/third
%a = var
%b = var
%c = add %b, %a
infer %c

out/variable
%a = var
infer %a

out/renamed
%b = var
infer %b

out/refused
infer %x";

// Writes a file below `out`, where `rt` builds too.
fn write<R: Files + AllocGlobal + Abort>(rt: &R, path: &str, bytes: &[u8]) {
    fs::create_dir_all(rt, "out").expect(rt, path);
    fs::write(rt, path, bytes).expect(rt, path);
}

/// Writes the files that are compared.
pub fn write_files<R: Files + AllocGlobal + Abort>(rt: &R) {
    for file in COMPARED.split("\n\n") {
        let (path, text) = file.split_once('\n').expect(rt, file);
        write(rt, path, text.as_bytes());
    }
    write(rt, "out/no_text", b"\xff");
}

// This number of items was read.
fn has_items<T: Drop>(rt: &impl Abort, read: Result<Vec<T>, ParseError>, count: usize) {
    let items = read.expect(rt, "items");
    equal(rt, items.len(), count);
}

#[test]
fn items_of_files_are_read(rt: HostRuntime) {
    write(&rt, "out/lhs", b"%a = var\n%b = var\ninfer %b");
    write(&rt, "out/rep", b"cand 1-2");
    write(&rt, "out/rhs", b"result 1\nresult 2");
    has_items(
        &rt,
        parse_left_hand_sides_file(&rt, rt.alloc(), "out/lhs"),
        1,
    );
    has_items(&rt, parse_replacements_file(&rt, rt.alloc(), "out/rep"), 1);
    has_items(
        &rt,
        parse_right_hand_sides_file(&rt, rt.alloc(), "out/rhs"),
        2,
    );
}

#[test]
fn empty_file_has_no_items(rt: HostRuntime) {
    write(&rt, "out/empty", b"");
    has_items(
        &rt,
        parse_left_hand_sides_file(&rt, rt.alloc(), "out/empty"),
        0,
    );
    has_items(
        &rt,
        parse_replacements_file(&rt, rt.alloc(), "out/empty"),
        0,
    );
    has_items(
        &rt,
        parse_right_hand_sides_file(&rt, rt.alloc(), "out/empty"),
        0,
    );
}

// The left-hand sides of the file at the path are rejected.
fn is_refused<R: Files + AllocGlobal + Abort>(rt: &R, path: &str) {
    let read = parse_left_hand_sides_file(rt, rt.alloc(), path);
    let error = read.err().expect(rt, path);
    let shown = error.to_string(rt.alloc()).expect(rt, path);
    let rest = shown.as_str().strip_prefix(path);
    equal(
        rt,
        (path, error.kind(), error.offset(), rest),
        (path, ParseErrorKind::Parse, Some(6), Some(REFUSAL)),
    );
}

#[test]
fn refusal_shows_the_path(rt: HostRuntime) {
    write(&rt, "out/a file", b"infer %x");
    is_refused(&rt, "out/a file");
    is_refused(&rt, "./out/a file");
}

// The error is a failed read.
fn is_fault<T: Drop>(rt: &impl Abort, alloc: Global, read: Result<Vec<T>, ParseError>, path: &str) {
    let error = read.err().expect(rt, path);
    let shown = error.to_string(alloc).expect(rt, path);
    let is_told = shown.as_str().starts_with("IO error: ");
    equal(
        rt,
        (path, error.kind(), error.offset(), is_told),
        (path, ParseErrorKind::Io, None, true),
    );
}

#[test]
fn failed_read_is_reported(rt: HostRuntime) {
    let alloc = rt.alloc();
    write(&rt, "out/no_text", b"\xff");
    for path in ["absent", "out/no_text", "."] {
        is_fault(
            &rt,
            alloc,
            parse_left_hand_sides_file(&rt, alloc, path),
            path,
        );
        is_fault(&rt, alloc, parse_replacements_file(&rt, alloc, path), path);
        is_fault(
            &rt,
            alloc,
            parse_right_hand_sides_file(&rt, alloc, path),
            path,
        );
    }
}

// The comparison of the files does this.
fn compares<R: Files + AllocGlobal + Abort>(rt: &R, (first, second): (&str, &str), want: Ran<'_>) {
    let mut written = Vec::new(rt.alloc());
    let mut reported = Vec::new(rt.alloc());
    let mut out = Watched::new(&mut written);
    let mut err = Watched::new(&mut reported);
    let status = same_run(rt, rt.alloc(), Kind::Lhs, first, second, &mut out, &mut err);
    let ran = (status, text(&written), told(&reported));
    equal(rt, (first, second, ran), (first, second, want));
}

#[test]
fn files_are_compared(rt: HostRuntime) {
    write_files(&rt);
    compares(&rt, ("out/first", "out/first"), (0, "same\n", ""));
    compares(&rt, ("out/first", "out/second"), (0, "same\n", ""));
    compares(&rt, ("out/first", "out/third"), (0, "different\n", ""));
    compares(&rt, ("out/variable", "out/renamed"), (0, "different\n", ""));
}

#[test]
fn refusal_of_a_compared_file_is_reported(rt: HostRuntime) {
    write_files(&rt);
    let line = format!(in rt.alloc(); "out/refused{REFUSAL}\n").expect(&rt, "memory");
    let want = (1, "", line.as_str());
    compares(&rt, ("out/refused", "absent"), want);
    compares(&rt, ("out/refused", "out/refused"), want);
    compares(&rt, ("out/variable", "out/refused"), want);
}

#[test]
fn failed_read_of_a_compared_file_is_reported(rt: HostRuntime) {
    write_files(&rt);
    compares(&rt, ("absent", "out/variable"), (3, "", FAULT));
    compares(&rt, ("out/variable", "absent"), (3, "", FAULT));
    compares(&rt, ("out/variable", "."), (3, "", FAULT));
}
