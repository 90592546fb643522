//! Printed orders of items that are read.
use crate::cases::read_cases;
use crate::checks::{equal, is_text_in, items};
use crate::sources::chain;
use souper_format::command::Kind;
use souper_format::items::Items;
use souper_format::same::same;
use souper_ir::ast::Item;
use std::alloc::Global;
use std::process::Abort;
use text_cases::orders::ORDERS;

// The number of statements in printed order, those before an infer line, and the turns, of the first item of the list.
fn counts_of_first<I: Item + Drop>(rt: &impl Abort, alloc: Global, items: &[I]) -> String {
    let first = items.first().expect(rt, "an item");
    let order = first.print_order().expect(rt, "an order");
    let (count, lead, turns) = (order.ids.len(), order.lead, order.turns);
    format!(in alloc; "{count} {lead} {turns}").expect(rt, "memory")
}

fn counts_of(rt: &impl Abort, alloc: Global, items: &Items) -> String {
    match items {
        Items::Lhs(items) => counts_of_first(rt, alloc, items),
        Items::Rhs(items) => counts_of_first(rt, alloc, items),
        Items::Rep(items) => counts_of_first(rt, alloc, items),
    }
}

#[test]
fn orders_are_counted(rt: HostRuntime) {
    for case in read_cases(&rt, rt.alloc(), ORDERS).iter() {
        let items = items(&rt, rt.alloc(), case.kind, case.text, case.lines);
        let counts = counts_of(&rt, rt.alloc(), &items);
        is_text_in(&rt, counts, case.want, case.lines);
    }
}

// The chain has these counts, and is the same as itself.
fn chain_is(rt: &impl Abort, alloc: Global, doublings: u32, counts: &str) {
    let source = chain(rt, alloc, doublings);
    equal(rt, source.as_str().lines().count(), doublings as usize + 2);
    let items = items(rt, alloc, Kind::Lhs, source.as_str(), counts);
    is_text_in(rt, counts_of(rt, alloc, &items), counts, "a chain");
    equal(rt, same(alloc, &items, &items).expect(rt, "memory"), true);
}

#[test]
fn orders_of_chains_are_counted(rt: HostRuntime) {
    chain_is(&rt, rt.alloc(), 199, "200 200 599");
    chain_is(&rt, rt.alloc(), 299_999, "300000 300000 899999");
}
