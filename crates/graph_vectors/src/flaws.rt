//! The first flaws of items: each reason, and which of two flaws is the first.
use crate::fixtures::{Graph, equal, foreign_id, number, typed};
use souper_graph::ast::{
    AssignmentRhs, Attribute, BlockId, Flaw, FlawLocation, FlawReason, Id, Infer, Item,
    LeftHandSide, RootAttribute, ValueId,
};
use std::alloc::Global;
use std::process::Abort;

// The item has this flaw first.
fn has_flaw<I: Item + Drop>(rt: &impl Abort, item: I, location: FlawLocation, reason: FlawReason) {
    let found = item.flaw().expect(rt, "memory");
    equal(rt, found, Some(Flaw { location, reason }));
    equal(rt, item.is_well_formed().expect(rt, "memory"), false);
}

// The statement at the position has this flaw, and is the first that has one.
fn is_at<I: Item + Drop>(rt: &impl Abort, item: I, position: usize, reason: FlawReason) {
    has_flaw(rt, item, FlawLocation::Statement(Id::at(position)), reason);
}

fn has_none<I: Item + Drop>(rt: &impl Abort, item: I) {
    equal(rt, item.flaw().expect(rt, "memory"), None);
    equal(rt, item.is_well_formed().expect(rt, "memory"), true);
}

fn block_of(value: ValueId) -> BlockId {
    Id::from(value).into()
}

#[test]
fn well_formed_items_have_none(rt: HostRuntime) {
    let mut graph = Graph::new(rt.alloc());
    let x = graph.typed_var(&rt, "%x", 8);
    // Unneeded statements are not checked.
    graph.var(&rt, "% y");
    graph.add(&rt, "%x", x.into(), typed(1, 0));
    has_none(&rt, graph.infer(x));
    has_none(&rt, Graph::new(rt.alloc()).result(number(1)));
    has_none(&rt, Graph::new(rt.alloc()).cand(number(1), typed(2, 65535)));
}

#[test]
fn names_are_told(rt: HostRuntime) {
    let mut graph = Graph::new(rt.alloc());
    let x = graph.var(&rt, "%x");
    let y = graph.add(&rt, "% y", x.into(), number(1));
    is_at(&rt, graph.infer(y), 1, FlawReason::InvalidName);
    let mut graph = Graph::new(rt.alloc());
    let x = graph.var(&rt, "%x");
    graph.pc(&rt, x.into(), number(1));
    let again = graph.add(&rt, "%x", x.into(), number(1));
    is_at(&rt, graph.infer(again), 2, FlawReason::DuplicateName);
}

#[test]
fn widths_are_told(rt: HostRuntime) {
    let mut graph = Graph::new(rt.alloc());
    let x = graph.typed_var(&rt, "%x", 0);
    is_at(&rt, graph.infer(x), 0, FlawReason::ZeroWidth);
    let mut graph = Graph::new(rt.alloc());
    let x = graph.var(&rt, "%x");
    let y = graph.add(&rt, "%y", x.into(), typed(1, 0));
    is_at(&rt, graph.infer(y), 1, FlawReason::ZeroWidth);
    let item = Graph::new(rt.alloc()).result(typed(1, 0));
    has_flaw(&rt, item, FlawLocation::Result, FlawReason::ZeroWidth);
    let item = Graph::new(rt.alloc()).cand(number(1), typed(1, 0));
    has_flaw(&rt, item, FlawLocation::Cand, FlawReason::ZeroWidth);
}

#[test]
fn empty_lists_of_bits_are_told(rt: HostRuntime) {
    let mut graph = Graph::new(rt.alloc());
    let mut attributes = Vec::new(rt.alloc());
    attributes
        .push(Attribute::KnownBits(Vec::new(rt.alloc())))
        .expect(&rt, "memory");
    let x = graph.assign(&rt, "%x", None, AssignmentRhs::Var, attributes);
    is_at(&rt, graph.infer(x), 0, FlawReason::EmptyBits);
}

// The left-hand side of a variable, of which no bit is demanded.
fn without_demanded_bits(rt: &impl Abort, alloc: Global) -> LeftHandSide {
    let mut graph = Graph::new(alloc);
    let value = graph.var(rt, "%x");
    let mut attributes = Vec::new(alloc);
    attributes
        .push(RootAttribute::DemandedBits(Vec::new(alloc)))
        .expect(rt, "memory");
    LeftHandSide {
        statements: graph.statements,
        infer: Infer { value, attributes },
    }
}

#[test]
fn empty_demanded_bits_are_told(rt: HostRuntime) {
    let item = without_demanded_bits(&rt, rt.alloc());
    has_flaw(&rt, item, FlawLocation::Infer, FlawReason::EmptyBits);
}

#[test]
fn uses_are_told(rt: HostRuntime) {
    let later = foreign_id(&rt, rt.alloc(), 1);
    let mut graph = Graph::new(rt.alloc());
    let x = graph.add(&rt, "%x", later.into(), number(1));
    graph.var(&rt, "%y");
    is_at(&rt, graph.infer(x), 0, FlawReason::UseBeforeDefinition);
    let mut graph = Graph::new(rt.alloc());
    graph.pc(&rt, number(1), number(1));
    let condition = foreign_id(&rt, rt.alloc(), 0);
    let x = graph.add(&rt, "%x", condition.into(), number(1));
    is_at(&rt, graph.infer(x), 1, FlawReason::NotAnAssignment);
    let item = Graph::new(rt.alloc()).infer(later);
    has_flaw(&rt, item, FlawLocation::Infer, FlawReason::NotAnAssignment);
}

#[test]
fn blocks_are_told(rt: HostRuntime) {
    let mut graph = Graph::new(rt.alloc());
    let x = graph.var(&rt, "%x");
    let p = graph.phi(&rt, "%p", block_of(x), &[number(1)]);
    is_at(&rt, graph.infer(p), 1, FlawReason::NotABlock);
    let mut graph = Graph::new(rt.alloc());
    let block = graph.block(&rt, "%b", 2);
    let p = graph.phi(&rt, "%p", block, &[number(1)]);
    is_at(&rt, graph.infer(p), 1, FlawReason::ValueCount);
    let mut graph = Graph::new(rt.alloc());
    let block = graph.block(&rt, "%b", 2);
    graph.block_pc(&rt, block, 2, number(1), number(1));
    let item = graph.result(number(1));
    is_at(&rt, item, 1, FlawReason::PredecessorOutOfRange);
}

#[test]
fn the_first_flaw_is_told(rt: HostRuntime) {
    // Of two flaws of one statement the first reason, of two statements the first, and statements come before last lines.
    let later = foreign_id(&rt, rt.alloc(), 1);
    let mut graph = Graph::new(rt.alloc());
    graph.add(&rt, "x", later.into(), typed(1, 0));
    let y = graph.add(
        &rt,
        "%y",
        foreign_id(&rt, rt.alloc(), 0).into(),
        typed(1, 0),
    );
    let item = graph.replaced(y, typed(1, 0));
    is_at(&rt, item, 0, FlawReason::InvalidName);
    // A statement that is needed only by one after it that uses no earlier one.
    let mut graph = Graph::new(rt.alloc());
    graph.typed_var(&rt, "%a", 0);
    let b = graph.add(&rt, "%b", foreign_id(&rt, rt.alloc(), 2).into(), number(1));
    graph.add(&rt, "%c", foreign_id(&rt, rt.alloc(), 0).into(), number(1));
    is_at(&rt, graph.infer(b), 0, FlawReason::ZeroWidth);
    // An infer line comes before a result line.
    let item = Graph::new(rt.alloc()).replaced(later, typed(1, 0));
    has_flaw(&rt, item, FlawLocation::Infer, FlawReason::NotAnAssignment);
}
