//! What the tests check of parsers that are used directly.
use souper_ir::parse::{Parse, ParseError, ParseErrorKind, Parser, Peek};
use std::alloc::Global;
use std::fmt::Debug;
use std::process::Abort;

pub fn equal<T: Copy + PartialEq + Debug>(rt: &impl Abort, found: T, want: T) {
    assert_eq!(rt; found, want);
}

pub fn is_text(rt: &impl Abort, text: String, want: &str) {
    equal(rt, text.as_str(), want);
}

// The error is a parse error at the offset, with the message and without a place.
pub fn reports(
    rt: &impl Abort,
    alloc: Global,
    error: Option<ParseError>,
    offset: usize,
    message: &str,
) {
    let error = error.expect(rt, "no refusal");
    equal(
        rt,
        (error.kind(), error.offset()),
        (ParseErrorKind::Parse, Some(offset)),
    );
    let want = format!(in alloc;
        "unknown:1:1: {message}\n     |\n   1 | byte offset {offset}\n     | ^"
    ).expect(rt, "memory");
    is_text(
        rt,
        error.to_string(alloc).expect(rt, "memory"),
        want.as_str(),
    );
    is_text(
        rt,
        format!(in alloc; "{error:?}").expect(rt, "memory"),
        want.as_str(),
    );
}

// The source begins with no value: the parser rejects it so.
pub fn refuses<P: Parse + Drop>(
    rt: &impl Abort,
    alloc: Global,
    source: &str,
    offset: usize,
    message: &str,
) {
    refuses_next::<P>(rt, alloc, &mut Parser::new(alloc, source), offset, message);
}

// The parser rejects what comes next so, and then stays failed at the same offset.
pub fn refuses_next<P: Parse + Drop>(
    rt: &impl Abort,
    alloc: Global,
    parser: &mut Parser<'_>,
    offset: usize,
    message: &str,
) {
    reports(rt, alloc, P::parse(parser).err(), offset, message);
    has_failed::<P>(rt, alloc, parser, offset);
}

// The parser has failed at the offset.
pub fn has_failed<P: Parse + Drop>(
    rt: &impl Abort,
    alloc: Global,
    parser: &mut Parser<'_>,
    offset: usize,
) {
    let message = "the parser has already failed";
    reports(rt, alloc, P::parse(parser).err(), offset, message);
}

// A look ahead is rejected so.
pub fn refuses_to_peek<P: Peek>(
    rt: &impl Abort,
    alloc: Global,
    parser: &mut Parser<'_>,
    offset: usize,
    message: &str,
) {
    reports(rt, alloc, P::peek(parser).err(), offset, message);
}
