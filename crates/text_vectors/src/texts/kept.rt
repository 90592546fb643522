//! What holds of each item that is read, and of its text.
use crate::cases::Case;
use crate::checks::{equal_in, is_text_in, items};
use souper_format::command::Kind;
use souper_format::items::{Items, format_text};
use souper_ir::ast::Item;
use std::alloc::Global;
use std::fmt::Display;
use std::process::Abort;

// Appends the item's text and a newline. The item and its copy are well formed and have one text, which is shown of the item.
fn append_kept<I: Item + Display + Drop>(
    rt: &impl Abort,
    alloc: Global,
    item: &I,
    copy: I,
    out: &mut String,
    case: &str,
) {
    let text = item.to_text().expect(rt, case);
    let shown = item.to_string(alloc).expect(rt, case);
    is_text_in(rt, shown, text.as_str(), case);
    is_text_in(rt, copy.to_text().expect(rt, case), text.as_str(), case);
    equal_in(rt, item.is_well_formed().expect(rt, case), true, case);
    equal_in(rt, copy.is_well_formed().expect(rt, case), true, case);
    out.push_str(text.as_str()).expect(rt, case);
    out.push('\n').expect(rt, case);
}

// The texts of the items, with a newline after each.
fn texts_of(rt: &impl Abort, alloc: Global, items: &Items, case: &str) -> String {
    let mut texts = String::new(alloc);
    match items {
        Items::Lhs(items) => {
            for item in items.iter() {
                let copy = item.clone().expect(rt, case);
                append_kept(rt, alloc, item, copy, &mut texts, case);
            }
        }
        Items::Rhs(items) => {
            for item in items.iter() {
                let copy = item.clone().expect(rt, case);
                append_kept(rt, alloc, item, copy, &mut texts, case);
            }
        }
        Items::Rep(items) => {
            for item in items.iter() {
                let copy = item.clone().expect(rt, case);
                append_kept(rt, alloc, item, copy, &mut texts, case);
            }
        }
    }
    texts
}

/// The text is read as items with the wanted texts, a newline after each, and those are formatted as themselves.
pub fn formats(rt: &impl Abort, alloc: Global, case: Case<'_>) {
    let Case {
        lines,
        kind,
        text,
        want,
    } = case;
    let items = items(rt, alloc, kind, text, lines);
    is_text_in(rt, texts_of(rt, alloc, &items, lines), want, lines);
    for text in [text, want] {
        let formatted = format_text(alloc, kind, text, None).expect(rt, lines);
        is_text_in(rt, formatted, want, lines);
    }
}

/// The same of left-hand sides.
pub fn formats_as(rt: &impl Abort, alloc: Global, text: &str, want: &str) {
    let kind = Kind::Lhs;
    let lines = text;
    formats(
        rt,
        alloc,
        Case {
            lines,
            kind,
            text,
            want,
        },
    );
}
