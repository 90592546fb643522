//! Parse errors of texts.
use crate::cases::{Case, read_cases};
use crate::checks::{equal_in, is_text_in};
use souper_format::command::Kind;
use souper_format::items::{format_text, read_items};
use souper_ir::parse::{
    ParseError, ParseErrorKind, parse_left_hand_sides_str, parse_replacements_str,
    parse_right_hand_sides_str,
};
use std::alloc::Global;
use std::process::Abort;
use text_cases::refused::REFUSED;

/// A text that is rejected, and the error that it gives.
#[derive(Clone, Copy)]
pub struct Refusal<'a> {
    /// What a failure shows.
    pub case: &'a str,
    pub kind: Kind,
    pub text: &'a str,
    pub offset: usize,
    pub shown: &'a str,
}

/// The error shows the text. Width, fill, precision and sign are ignored.
pub fn shows(rt: &impl Abort, alloc: Global, error: &ParseError, want: &str, case: &str) {
    is_text_in(rt, error.to_string(alloc).expect(rt, case), want, case);
    let shown = format!(in alloc; "{error:?}").expect(rt, case);
    is_text_in(rt, shown, want, case);
    let thrice = format!(in alloc; "{want}{want}{want}").expect(rt, case);
    has_no_style(rt, alloc, error, thrice.as_str(), case);
}

fn has_no_style(rt: &impl Abort, alloc: Global, error: &ParseError, thrice: &str, case: &str) {
    let shown = format!(in alloc; "{error:*>300}{error:*^300}{error:300}").expect(rt, case);
    is_text_in(rt, shown, thrice, case);
    let shown = format!(in alloc; "{error:.3}{error:+}{error:+0300.0}").expect(rt, case);
    is_text_in(rt, shown, thrice, case);
    let shown = format!(in alloc; "{error:*<300?}{error:.3?}{error:+0300?}").expect(rt, case);
    is_text_in(rt, shown, thrice, case);
}

/// The error is a parse error at the offset, shows the text, and has the line and the column that the text has; without a
/// source it shows 1 for both.
pub fn reports(
    rt: &impl Abort,
    alloc: Global,
    error: Option<ParseError>,
    offset: usize,
    want: &str,
    case: &str,
) {
    let error = error.expect(rt, case);
    equal_in(rt, error.kind(), ParseErrorKind::Parse, case);
    equal_in(rt, error.offset(), Some(offset), case);
    let (line, column) = (error.line().unwrap_or(1), error.column().unwrap_or(1));
    let place = format!(in alloc; ":{line}:{column}: ").expect(rt, case);
    equal_in(rt, want.contains(place.as_str()), true, case);
    shows(rt, alloc, &error, want, case);
}

// The error that reading the text gives.
fn parse_error(alloc: Global, kind: Kind, text: &str, file: Option<&str>) -> Option<ParseError> {
    match kind {
        Kind::Lhs => parse_left_hand_sides_str(alloc, text, file).err(),
        Kind::Rhs => parse_right_hand_sides_str(alloc, text, file).err(),
        Kind::Rep => parse_replacements_str(alloc, text, file).err(),
    }
}

/// Every call that reads or formats the text, of a file of this name, gives the error.
pub fn is_refused(rt: &impl Abort, alloc: Global, file: Option<&str>, refusal: &Refusal<'_>) {
    let Refusal {
        case,
        kind,
        text,
        offset,
        shown,
    } = *refusal;
    let error = parse_error(alloc, kind, text, file);
    reports(rt, alloc, error, offset, shown, case);
    let error = read_items(alloc, kind, text, file).err();
    reports(rt, alloc, error, offset, shown, case);
    let error = format_text(alloc, kind, text, file).err();
    reports(rt, alloc, error, offset, shown, case);
}

// The parse error of the case. The offset comes after the kind.
fn refusal_of<'a>(case: &Case<'a>) -> Option<Refusal<'a>> {
    let (_kind, rest) = case.lines.split_once(' ')?;
    let (offset, _name) = rest.split_once(' ')?;
    Some(Refusal {
        case: case.lines,
        kind: case.kind,
        text: case.text,
        offset: offset.parse::<usize>().ok()?,
        shown: case.want,
    })
}

#[test]
fn each_text_is_refused(rt: HostRuntime) {
    for case in read_cases(&rt, rt.alloc(), REFUSED).iter() {
        let refusal = refusal_of(case).expect(&rt, case.lines);
        is_refused(&rt, rt.alloc(), None, &refusal);
    }
}
