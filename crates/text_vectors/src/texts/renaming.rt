//! Items that are named by their printed order.
use crate::cases::{Case, read_cases};
use crate::checks::{equal, is_text, is_text_in, items};
use souper_format::items::Items;
use souper_ir::ast::{Item, Statement};
use souper_ir::parse::parse_left_hand_sides_str;
use std::alloc::Global;
use std::process::Abort;
use text_cases::renamed::RENAMED;

fn renamed<I: Item + Drop>(rt: &impl Abort, item: &I) -> I {
    item.renamed().expect(rt, "a renamed item")
}

fn text_of<I: Item + Drop>(rt: &impl Abort, item: &I) -> String {
    item.to_text().expect(rt, "a text")
}

// The text of the renamed first item, which is well formed, and renamed to itself. The item itself, renamed in place, has this text.
fn text_of_first<I: Item + Drop>(rt: &impl Abort, mut items: Vec<I>) -> String {
    let item = items.get_mut(0).expect(rt, "an item");
    let copy = renamed(rt, &*item);
    equal(rt, copy.is_well_formed().expect(rt, "memory"), true);
    let text = text_of(rt, &copy);
    let again = renamed(rt, &copy);
    is_text(rt, text_of(rt, &again), text.as_str());
    item.rename().expect(rt, "a renamed item");
    is_text(rt, text_of(rt, &*item), text.as_str());
    text
}

// The text of the renamed first item of the case.
fn text_of_renamed(rt: &impl Abort, alloc: Global, case: &Case<'_>) -> String {
    match items(rt, alloc, case.kind, case.text, case.lines) {
        Items::Lhs(items) => text_of_first(rt, items),
        Items::Rhs(items) => text_of_first(rt, items),
        Items::Rep(items) => text_of_first(rt, items),
    }
}

#[test]
fn items_are_renamed(rt: HostRuntime) {
    for case in read_cases(&rt, rt.alloc(), RENAMED).iter() {
        let text = text_of_renamed(&rt, rt.alloc(), case);
        is_text_in(&rt, text, case.want, case.lines);
    }
}

fn name_of(statement: &Statement) -> Option<&str> {
    match statement {
        Statement::Assignment(assignment) => Some(assignment.name.as_str()),
        _ => None,
    }
}

// A statement that is not needed keeps its name and its position.
#[test]
fn unneeded_statements_stay(rt: HostRuntime) {
    let source = "%0 = var\n%used = var\ninfer %used";
    let items = parse_left_hand_sides_str(rt.alloc(), source, None).expect(&rt, source);
    let copy = renamed(&rt, items.first().expect(&rt, "an item"));
    is_text(&rt, text_of(&rt, &copy), "%0 = var\ninfer %0\n");
    equal(&rt, copy.statements.len(), 2);
    for (_, statement) in copy.statements.iter() {
        equal(&rt, name_of(statement), Some("%0"));
    }
}
