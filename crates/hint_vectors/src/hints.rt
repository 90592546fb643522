//! The hint of each rejected text, and of each error without a location in the text.

use crate::cases::{Case, read_case};
use crate::rejected::REJECTED;
use souper_hint::{Kind, hint_of};
use souper_ir::parse::{
    ParseError, parse_left_hand_sides_str, parse_replacements_str, parse_right_hand_sides_str,
};
use std::alloc::{AllocError, Global};
use std::process::Abort;

/// The error that reading the text gives.
pub fn parse_error(alloc: Global, kind: Kind, text: &str) -> Option<ParseError> {
    match kind {
        Kind::Lhs => parse_left_hand_sides_str(alloc, text, None).err(),
        Kind::Rhs => parse_right_hand_sides_str(alloc, text, None).err(),
        Kind::Rep => parse_replacements_str(alloc, text, None).err(),
    }
}

/// The text, which begins at this offset of the input that the error is of, has this hint.
pub fn is_hint(
    rt: &impl Abort,
    alloc: Global,
    (kind, start, text): (Kind, usize, &str),
    error: &ParseError,
    want: &str,
) {
    let hint = hint_of(alloc, kind, start, text, error).expect(rt, text);
    let shown = match hint {
        Some(hint) => hint.to_string(alloc).expect(rt, text),
        None => String::new(alloc),
    };
    assert_eq!(rt; shown.as_str(), want, "in {text}");
}

/// The text is rejected with this hint.
pub fn is_hinted(rt: &impl Abort, alloc: Global, kind: Kind, text: &str, want: &str) {
    let error = parse_error(alloc, kind, text).expect(rt, text);
    is_hint(rt, alloc, (kind, 0, text), &error, want);
}

#[test]
fn each_text_has_its_hint(rt: HostRuntime) {
    let cases = REJECTED
        .strip_prefix("\n=== ")
        .expect(&rt, "no case at the beginning");
    let cases = cases
        .strip_suffix("\n")
        .expect(&rt, "no newline at the end");
    for lines in cases.split("\n=== ") {
        let Case {
            kind,
            text,
            want,
            ..
        } = read_case(&rt, lines);
        is_hinted(&rt, rt.alloc(), kind, text, want);
    }
}

const FRONT: &str = "%x = var\ninfer %x\n\n";

const SEGMENT: &str = "%left = var\n%left = var\ninfer %left\n";

#[test]
fn segment_has_the_lines_of_the_input(rt: HostRuntime) {
    let alloc = rt.alloc();
    let text = format!(in alloc; "{FRONT}{SEGMENT}").expect(&rt, FRONT);
    let error = parse_error(alloc, Kind::Lhs, text.as_str()).expect(&rt, SEGMENT);
    let want =
        "'%left' is defined on line 4; if line 5 begins another item, the 'infer' line is missing before it";
    is_hint(&rt, alloc, (Kind::Lhs, 0, text.as_str()), &error, want);
    is_hint(&rt, alloc, (Kind::Lhs, FRONT.len(), SEGMENT), &error, want);
}

#[test]
fn error_outside_the_text_has_no_hint(rt: HostRuntime) {
    let alloc = rt.alloc();
    let error = parse_error(alloc, Kind::Lhs, SEGMENT).expect(&rt, SEGMENT);
    is_hint(&rt, alloc, (Kind::Lhs, 0, "%left"), &error, "");
    is_hint(&rt, alloc, (Kind::Lhs, 100, SEGMENT), &error, "");
    let error = ParseError::from(AllocError);
    is_hint(&rt, alloc, (Kind::Lhs, 0, SEGMENT), &error, "");
}
