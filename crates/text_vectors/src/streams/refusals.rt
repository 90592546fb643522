//! Parse errors of streams: their places are those in the whole text, and the items before them were taken.
use crate::cases::{Case, read_cases};
use crate::checks::{equal_in, is_text_in};
use souper_format::command::Kind;
use souper_format::items::read_items;
use souper_ir::ast::{Arena, LeftHandSide, Replacement, RightHandSide, Statement};
use souper_ir::parse::{ParseError, ParseErrorKind, Sink, WholeItem};
use souper_stream::{StreamItem, read_chunks_into};
use std::alloc::{AllocError, Global};
use std::io::BufReader;
use std::process::Abort;
use text_cases::refused_streams::REFUSED_STREAMS;

// How many items were taken.
#[derive(Clone, Copy)]
struct Count {
    items: usize,
}

impl<T: WholeItem + Drop> Sink<T> for Count {
    ghost holds = { λ first count items. Unit {0} };

    fn take(&mut self, _item: T) -> Result<Option<Arena<Statement>>, AllocError> {
        self.items = self.items.saturating_add(1);
        Ok(None)
    }
}

// The number of items taken from a stream with this chunk size, and the stream's error.
fn read<T: StreamItem + Drop>(
    rt: &impl Abort,
    alloc: Global,
    source: &[u8],
    least: usize,
) -> (usize, Option<ParseError>) {
    let mut count = Count { items: 0 };
    let mut reader = BufReader::new(alloc, source).expect(rt, "memory");
    let read = read_chunks_into::<T, BufReader<&[u8]>, Count>(
        alloc,
        least,
        &mut reader,
        Some("a"),
        &mut count,
    );
    (count.items, read.err())
}

// The place of a parse error: its offset, line and column.
fn place_of(error: &ParseError) -> (Option<usize>, Option<usize>, Option<usize>) {
    (error.offset(), error.line(), error.column())
}

// The errors are parse errors with one place, and shown as one text.
fn are_same(rt: &impl Abort, alloc: Global, error: ParseError, whole: &ParseError, case: &str) {
    equal_in(rt, error.kind(), ParseErrorKind::Parse, case);
    equal_in(rt, place_of(&error), place_of(whole), case);
    let want = whole.to_string(alloc).expect(rt, case);
    let shown = error.to_string(alloc).expect(rt, case);
    is_text_in(rt, shown, want.as_str(), case);
}

// The stream is rejected as the whole text is, after this number of items.
fn is_refused<T: StreamItem + Drop>(
    rt: &impl Abort,
    alloc: Global,
    source: &str,
    want: usize,
    case: &Case<'_>,
) {
    let whole = read_items(alloc, case.kind, source, Some("a"));
    let whole = whole.err().expect(rt, case.lines);
    for least in [1, 20, 65536] {
        let (items, error) = read::<T>(rt, alloc, source.as_bytes(), least);
        let error = error.expect(rt, case.lines);
        are_same(rt, alloc, error, &whole, case.lines);
        equal_in(rt, items, want, case.lines);
    }
}

// Two items of the kind.
fn good(kind: Kind) -> &'static str {
    match kind {
        Kind::Lhs => { "%x = var ; one\n\n%y = add %x, 1\ninfer %y\n; two\n%x = var\ninfer %x\n" }
        Kind::Rhs => "result 1 ; one\n\n; two\n%x = var\nresult %x\n",
        Kind::Rep => "cand 1, 2 ; one\n\n; two\n%x = var\ninfer %x\nresult %x\n",
    }
}

// The text is rejected after this number of items, also between others.
fn is_refused_between<T: StreamItem + Drop>(rt: &impl Abort, alloc: Global, case: &Case<'_>) {
    let items = case.want.parse::<usize>().ok().expect(rt, case.lines);
    is_refused::<T>(rt, alloc, case.text, items, case);
    let mut source = String::from_str(alloc, good(case.kind)).expect(rt, case.lines);
    source.push_str(case.text).expect(rt, case.lines);
    is_refused::<T>(rt, alloc, source.as_str(), items.saturating_add(2), case);
    source.push_str(good(case.kind)).expect(rt, case.lines);
    is_refused::<T>(rt, alloc, source.as_str(), items.saturating_add(2), case);
}

#[test]
fn refusal_has_its_place_in_the_stream(rt: HostRuntime) {
    let (rt, alloc) = (&rt, rt.alloc());
    for case in read_cases(rt, alloc, REFUSED_STREAMS).iter() {
        match case.kind {
            Kind::Lhs => is_refused_between::<LeftHandSide>(rt, alloc, case),
            Kind::Rhs => is_refused_between::<RightHandSide>(rt, alloc, case),
            Kind::Rep => is_refused_between::<Replacement>(rt, alloc, case),
        }
    }
}

fn is_refused_in_segment(rt: &impl Abort, alloc: Global, source: &str, offset: usize, want: &str) {
    for least in [1, 20, 65536] {
        let (items, error) = read::<LeftHandSide>(rt, alloc, source.as_bytes(), least);
        let error = error.expect(rt, source);
        equal_in(rt, items, 0, source);
        equal_in(rt, error.offset(), Some(offset), source);
        let shown = error.to_string(alloc).expect(rt, source);
        is_text_in(rt, shown, want, source);
    }
}

// The error of a stream is the one of its first invalid segment, also where the lines after it give the whole text another.
#[test]
fn refusal_is_the_one_of_its_segment(rt: HostRuntime) {
    let (rt, alloc) = (&rt, rt.alloc());
    let source = "%0 = var\ninfer\n%1 = var\ninfer %1\n";
    let want = "a:2:5: unexpected EOF\n     |\n   2 | infer\n     |     ^";
    is_refused_in_segment(rt, alloc, source, 14, want);
    let source = "%0 = var\ninfer %0 (\n%1 = var\ninfer %1\n";
    let want = "a:2:10: unexpected EOF\n     |\n   2 | infer %0 (\n     |          ^";
    is_refused_in_segment(rt, alloc, source, 19, want);
}

// The stream is a fault and no parse error.
fn is_no_text(rt: &impl Abort, alloc: Global, source: &[u8]) {
    let (_, error) = read::<LeftHandSide>(rt, alloc, source, 1);
    let kind = error.map(|error| error.kind());
    assert_eq!(rt; kind, Some(ParseErrorKind::Io));
}

#[test]
fn bytes_that_are_no_text_are_a_fault(rt: HostRuntime) {
    is_no_text(&rt, rt.alloc(), b"%x = var\ninfer %x\n\xff\n");
    is_no_text(&rt, rt.alloc(), b"\xc3");
}
