//! The places of parse errors: the name of the file, lines and columns far away, and errors without a place.
use crate::checks::equal_in;
use crate::refusals::reports::{Refusal, is_refused, reports, shows};
use crate::sources::thousand;
use souper_format::command::Kind;
use souper_ir::ast::Infer;
use souper_ir::parse::{Parse, ParseError, ParseErrorKind, Parser};
use std::alloc::{AllocError, Global};
use std::io;
use std::process::Abort;

// A left-hand side of this file is rejected.
fn is_refused_in(
    rt: &impl Abort,
    alloc: Global,
    file: &str,
    (text, offset): (&str, usize),
    shown: &str,
) {
    let refusal = Refusal {
        case: text,
        kind: Kind::Lhs,
        text,
        offset,
        shown,
    };
    is_refused(rt, alloc, Some(file), &refusal);
}

#[test]
fn file_name_is_shown(rt: HostRuntime) {
    let alloc = rt.alloc();
    let text = "; hello, how are you?\n; I am good, thanks\npc 1 thats good\n";
    let shown =
        "path/to/foo.txt:3:5: expected an integer literal\n     |\n   3 | pc 1 thats good\n     |     ^";
    is_refused_in(&rt, alloc, "path/to/foo.txt", (text, 47), shown);
    let shown =
        "a file.opt:1:6: no value named '%x' in scope\n     |\n   1 | infer %x\n     |      ^";
    is_refused_in(&rt, alloc, "a file.opt", ("infer %x", 6), shown);
    let shown = ":1:6: no value named '%x' in scope\n     |\n   1 | infer %x\n     |      ^";
    is_refused_in(&rt, alloc, "", ("infer %x", 6), shown);
}

// The character, `count` times.
fn repeated(rt: &impl Abort, alloc: Global, character: char, count: u32) -> String {
    let mut text = String::new(alloc);
    for _ in 0..count {
        text.push(character).expect(rt, "memory");
    }
    text
}

#[test]
fn line_is_far_down(rt: HostRuntime) {
    let alloc = rt.alloc();
    let newlines = repeated(&rt, alloc, '\n', 12_345);
    let spaces = repeated(&rt, alloc, ' ', 70_000);
    let text = format!(in alloc; "{newlines}{spaces} x").expect(&rt, "memory");
    let shown = format!(in alloc;
        "f:12346:70001: expected 'infer'\n     |\n12346 | {spaces} x\n     | {spaces}^"
    ).expect(&rt, "memory");
    let refusal = Refusal {
        case: "a line far down",
        kind: Kind::Lhs,
        text: text.as_str(),
        offset: 82_346,
        shown: shown.as_str(),
    };
    is_refused(&rt, alloc, Some("f"), &refusal);
}

// The word is expected where an `x` is, after these spaces and one more.
fn is_expected_after(rt: &impl Abort, alloc: Global, spaces: &str, kind: Kind, wanted: &str) {
    let text = format!(in alloc; "{spaces} x").expect(rt, "memory");
    let shown = format!(in alloc;
        "unknown:1:70000: expected '{wanted}'\n     |\n   1 | {text}\n     | {spaces}^"
    ).expect(rt, "memory");
    let refusal = Refusal {
        case: "a marker far to the right",
        kind,
        text: text.as_str(),
        offset: 70_000,
        shown: shown.as_str(),
    };
    is_refused(rt, alloc, None, &refusal);
}

#[test]
fn marker_is_far_to_the_right(rt: HostRuntime) {
    let alloc = rt.alloc();
    let spaces = repeated(&rt, alloc, ' ', 69_999);
    is_expected_after(&rt, alloc, spaces.as_str(), Kind::Rhs, "result");
    is_expected_after(&rt, alloc, spaces.as_str(), Kind::Lhs, "infer");
}

#[test]
fn second_definition_among_a_thousand_is_refused(rt: HostRuntime) {
    let alloc = rt.alloc();
    let mut text = thousand(&rt, alloc);
    text.push_str("%500 = var\ninfer %999")
        .expect(&rt, "memory");
    let refusal = Refusal {
        case: "a second definition among a thousand",
        kind: Kind::Lhs,
        text: text.as_str(),
        offset: 10_890,
        // The first byte of a line is one past the text of the line before.
        shown: "unknown:1000:11: cannot redefine '%500'\n     |\n1000 | %999 = var\n     |           ^",
    };
    is_refused(&rt, alloc, None, &refusal);
}

fn has_no_source(rt: &impl Abort, alloc: Global, source: &str, offset: usize, want: &str) {
    let error = Infer::parse(&mut Parser::new(alloc, source)).err();
    let place = error.as_ref().map(|error| (error.line(), error.column()));
    equal_in(rt, place, Some((None, None)), want);
    reports(rt, alloc, error, offset, want, source);
}

#[test]
fn errors_of_no_source(rt: HostRuntime) {
    let want = "unknown:1:1: unexpected EOF\n     |\n   1 | byte offset 0\n     | ^";
    has_no_source(&rt, rt.alloc(), "", 0, want);
    let want = "unknown:1:1: no value named '%x' in scope\n     |\n   1 | byte offset 7\n     | ^";
    has_no_source(&rt, rt.alloc(), "infer  %x", 7, want);
}

// The error is of this kind, and of this fault if there is one. It has no offset.
fn has_no_text(
    rt: &impl Abort,
    alloc: Global,
    error: ParseError,
    (kind, fault): (ParseErrorKind, Option<io::ErrorKind>),
    want: &str,
) {
    equal_in(rt, (error.kind(), error.offset()), (kind, None), want);
    let found = error.io_error().map(|found| found.kind());
    equal_in(rt, found == fault, true, want);
    shows(rt, alloc, &error, want, want);
}

#[test]
fn errors_of_no_text(rt: HostRuntime) {
    let alloc = rt.alloc();
    let error = ParseError::from(AllocError);
    let kinds = (ParseErrorKind::Memory, None);
    has_no_text(&rt, alloc, error, kinds, "out of memory");
    let fault = io::Error::from(io::ErrorKind::NotFound);
    let kinds = (ParseErrorKind::Io, Some(fault.kind()));
    let want = format!(in alloc; "IO error: {fault}").expect(&rt, "memory");
    has_no_text(&rt, alloc, ParseError::from(fault), kinds, want.as_str());
}
