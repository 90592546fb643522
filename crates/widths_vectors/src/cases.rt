//! Reads cases: a text of one item, and the words for its widths or its first flaw.
use souper_ir::ast::{FlawLocation, Id, Item};
use souper_ir::parse::{
    parse_left_hand_sides_str, parse_replacements_str, parse_right_hand_sides_str,
};
use souper_widths::{WidthFlaw, Widths, WidthsError, widths};
use std::alloc::Global;
use std::fmt::Write;
use std::process::Abort;

// The widths of the results, of the operands and of the last lines.
fn push_widths(rt: &impl Abort, text: &mut String, found: &Widths) {
    let results = &found.results;
    let operands = &found.operands;
    let root = found.root;
    write!(text, "{results:?} {operands:?} {root}").expect(rt, "memory");
}

// The location, in an item with this many statements.
fn push_location(rt: &impl Abort, text: &mut String, location: FlawLocation, count: usize) {
    for index in 0..count {
        if location == FlawLocation::Statement(Id::at(index)) {
            write!(text, "statement {index}").expect(rt, "memory");
        }
    }
    if location == FlawLocation::Infer {
        text.push_str("infer").expect(rt, "memory");
    }
    if location == FlawLocation::Result {
        text.push_str("result").expect(rt, "memory");
    }
    if location == FlawLocation::Cand {
        text.push_str("cand").expect(rt, "memory");
    }
}

fn push_flaw(rt: &impl Abort, text: &mut String, flaw: WidthFlaw, count: usize) {
    push_location(rt, text, flaw.location, count);
    let reason = flaw.reason;
    write!(text, " {reason:?}").expect(rt, "memory");
}

// What `widths` says of the first item.
fn said<T: Item + Drop>(rt: &impl Abort, alloc: Global, items: &[T]) -> String {
    let item = items.first().expect(rt, "an item");
    let mut text = String::new(alloc);
    match widths(item) {
        Ok(found) => push_widths(rt, &mut text, &found),
        Err(WidthsError::Flawed(flaw)) => {
            push_flaw(rt, &mut text, flaw, item.statements().len());
        }
        Err(error) => write!(text, "{error:?}").expect(rt, "memory"),
    }
    text
}

fn said_of(rt: &impl Abort, alloc: Global, kind: &str, source: &str) -> String {
    if kind == "lhs" {
        let items = parse_left_hand_sides_str(alloc, source, None).expect(rt, source);
        return said(rt, alloc, &items);
    }
    if kind == "rhs" {
        let items = parse_right_hand_sides_str(alloc, source, None).expect(rt, source);
        return said(rt, alloc, &items);
    }
    let items = parse_replacements_str(alloc, source, None).expect(rt, source);
    said(rt, alloc, &items)
}

/// Each case is a line with `===`, a kind and a name, the text of an item, a line with `---`, and what is said of it.
pub fn judge_cases(rt: &impl Abort, alloc: Global, file: &str) {
    let rest = file.strip_prefix("\n=== ").expect(rt, "no case");
    let rest = rest.strip_suffix("\n").expect(rt, "no newline at the end");
    for lines in rest.split("\n\n=== ") {
        let (head, parts) = lines.split_once('\n').expect(rt, lines);
        let (kind, _name) = head.split_once(' ').expect(rt, lines);
        let (source, want) = parts.split_once("\n---\n").expect(rt, lines);
        let found = said_of(rt, alloc, kind, source);
        assert_eq!(rt; found.as_str(), want, "in {lines}");
    }
}
