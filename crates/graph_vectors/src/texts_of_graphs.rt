//! Items that are built, mostly such as no text spells: their texts, the order of their statements, and whether they are well
//! formed. The others are tested with the texts that spell them, in `text_vectors`.
use crate::fixtures::{
    Graph, equal, foreign_id, has_counts, is_not_displayed, is_text, item_is, number, typed,
};
use souper_graph::ast::{
    AssignmentRhs, Attribute, BlockId, Id, Instruction, Item, LeftHandSide, LeftHandSideBuilder,
    Phi, Statement, ValueId,
};
use souper_graph::stringify::TextError;
use std::alloc::{AllocError, Global};
use std::process::Abort;

// A condition on a predecessor of a block with two or three predecessors.
fn on_a_predecessor(
    rt: &impl Abort,
    alloc: Global,
    predecessors: u32,
    predecessor: u32,
) -> LeftHandSide {
    let mut graph = Graph::new(alloc);
    let block = graph.block(rt, "%bb", predecessors);
    let x = graph.typed_var(rt, "%x", 8);
    graph.block_pc(rt, block, predecessor, x.into(), number(1));
    graph.infer(x)
}

#[test]
fn predecessor_past_the_last_is_not_well_formed(rt: HostRuntime) {
    let item = on_a_predecessor(&rt, rt.alloc(), 2, 2);
    let text = "%x:i8 = var\n%bb = block 2\nblockpc %bb 2 %x 1\ninfer %x\n";
    item_is(&rt, rt.alloc(), item, text, false);
}

// The condition is changed in the item itself, through a mutable look-up.
#[test]
fn changed_condition_is_printed(rt: HostRuntime) {
    let mut item = on_a_predecessor(&rt, rt.alloc(), 3, 0);
    let condition = foreign_id(&rt, rt.alloc(), 2);
    match item.statements.get_mut(condition.into()) {
        Some(Statement::BlockPc(block_pc)) => block_pc.predecessor = 2,
        _ => rt.abort(),
    }
    let text = "%x:i8 = var\n%bb = block 3\nblockpc %bb 2 %x 1\ninfer %x\n";
    item_is(&rt, rt.alloc(), item, text, true);
}

#[test]
fn same_names_are_not_well_formed(rt: HostRuntime) {
    let mut graph = Graph::new(rt.alloc());
    let first = graph.var(&rt, "%1");
    let second = graph.add(&rt, "%1", first.into(), number(1));
    let item = graph.infer(second);
    item_is(
        &rt,
        rt.alloc(),
        item,
        "%1 = var\n%1 = add %1, 1\ninfer %1\n",
        false,
    );
}

#[test]
fn empty_bit_lists_are_not_well_formed(rt: HostRuntime) {
    let mut graph = Graph::new(rt.alloc());
    let mut attributes = Vec::new(rt.alloc());
    attributes
        .push(Attribute::KnownBits(Vec::new(rt.alloc())))
        .expect(&rt, "memory");
    let x = graph.assign(&rt, "%x", None, AssignmentRhs::Var, attributes);
    let item = graph.infer(x);
    item_is(
        &rt,
        rt.alloc(),
        item,
        "%x = var (knownBits=)\ninfer %x\n",
        false,
    );
}

#[test]
fn phi_without_a_value_of_each_predecessor_is_not_well_formed(rt: HostRuntime) {
    let mut graph = Graph::new(rt.alloc());
    let block = graph.block(&rt, "%b", 2);
    let phi = graph.phi(&rt, "%p", block, &[]);
    let text = "%b = block 2\n%p = phi %b\ninfer %p\n";
    item_is(&rt, rt.alloc(), graph.infer(phi), text, false);
}

#[test]
fn widths_of_constant_roots_are_judged(rt: HostRuntime) {
    let item = Graph::new(rt.alloc()).result(typed(1, 0));
    item_is(&rt, rt.alloc(), item, "result 1:i0", false);
    let item = Graph::new(rt.alloc()).cand(number(1), typed(2, 65535));
    item_is(&rt, rt.alloc(), item, "cand 1 2:i65535\n", true);
}

#[test]
fn unneeded_statements_are_neither_printed_nor_judged(rt: HostRuntime) {
    let foreign = foreign_id(&rt, rt.alloc(), 9);
    let mut graph = Graph::new(rt.alloc());
    let x = graph.var(&rt, "%x");
    graph.var(&rt, "% y");
    graph.add(&rt, "%x", foreign.into(), number(1));
    let item = graph.infer(x);
    equal(&rt, item.clone().expect(&rt, "memory").statements.len(), 3);
    item_is(&rt, rt.alloc(), item, "%x = var\ninfer %x\n", true);
}

// What a rejected call leaves of the text that it appends to, and its error.
fn refused_append(
    rt: &impl Abort,
    alloc: Global,
    item: &LeftHandSide,
) -> (String, Option<TextError>) {
    let mut text = String::from_str(alloc, "before").expect(rt, "memory");
    let error = item.append_text(&mut text).err();
    (text, error)
}

// The error of an item, by each of its texts.
fn refused(rt: &impl Abort, alloc: Global, item: &LeftHandSide, want: TextError) {
    has_no_text(rt, item, &want);
    has_no_order(rt, item, &want);
    is_not_displayed(rt, alloc, item);
    equal(rt, item.is_well_formed().expect(rt, "memory"), false);
    is_not_appended(rt, alloc, item, &want);
}

fn has_no_text(rt: &impl Abort, item: &LeftHandSide, want: &TextError) {
    equal(rt, item.to_text().err(), Some(*want));
}

fn has_no_order(rt: &impl Abort, item: &LeftHandSide, want: &TextError) {
    equal(rt, item.print_order().err(), Some(*want));
}

fn is_not_appended(rt: &impl Abort, alloc: Global, item: &LeftHandSide, want: &TextError) {
    let (text, error) = refused_append(rt, alloc, item);
    equal(rt, error, Some(*want));
    is_text(rt, text, "before");
}

// Appends an unnamed assignment.
fn put(
    rt: &impl Abort,
    alloc: Global,
    builder: &mut LeftHandSideBuilder,
    value: AssignmentRhs,
) -> ValueId {
    builder
        .assignment(None, None, value, Vec::new(alloc))
        .expect(rt, "memory")
}

#[test]
fn root_out_of_range_is_reported(rt: HostRuntime) {
    let root = foreign_id(&rt, rt.alloc(), 2);
    let mut builder = LeftHandSideBuilder::new(rt.alloc());
    put(&rt, rt.alloc(), &mut builder, AssignmentRhs::Var);
    let item = builder.finish(root, Vec::new(rt.alloc()));
    refused(&rt, rt.alloc(), &item, TextError::OutOfRange(root.into()));
}

#[test]
fn root_that_is_a_condition_is_reported(rt: HostRuntime) {
    let root = foreign_id(&rt, rt.alloc(), 1);
    let mut builder = LeftHandSideBuilder::new(rt.alloc());
    let x = put(&rt, rt.alloc(), &mut builder, AssignmentRhs::Var);
    builder.pc(x.into(), number(1)).expect(&rt, "memory");
    let item = builder.finish(root, Vec::new(rt.alloc()));
    let want = TextError::NotAnAssignment(root.into());
    refused(&rt, rt.alloc(), &item, want);
}

#[test]
fn phi_over_no_block_is_reported(rt: HostRuntime) {
    let first = foreign_id(&rt, rt.alloc(), 0);
    let mut builder = LeftHandSideBuilder::new(rt.alloc());
    put(&rt, rt.alloc(), &mut builder, AssignmentRhs::Var);
    let phi = Phi {
        block: BlockId::from(Id::from(first)),
        values: Vec::new(rt.alloc()),
    };
    let root = put(&rt, rt.alloc(), &mut builder, phi.into());
    let item = builder.finish(root, Vec::new(rt.alloc()));
    refused(&rt, rt.alloc(), &item, TextError::NotABlock(first.into()));
}

#[test]
fn condition_over_a_bad_id_is_reported(rt: HostRuntime) {
    let foreign = foreign_id(&rt, rt.alloc(), 9);
    let mut graph = Graph::new(rt.alloc());
    let x = graph.var(&rt, "%0");
    graph.pc(&rt, foreign.into(), number(1));
    let item = graph.infer(x);
    refused(
        &rt,
        rt.alloc(),
        &item,
        TextError::OutOfRange(foreign.into()),
    );
}

#[test]
fn one_of_two_bad_ids_is_reported(rt: HostRuntime) {
    let foreign = foreign_id(&rt, rt.alloc(), 9);
    let root = foreign_id(&rt, rt.alloc(), 1);
    let mut graph = Graph::new(rt.alloc());
    graph.var(&rt, "%0");
    graph.pc(&rt, foreign.into(), number(1));
    let item = graph.infer(root);
    let error = item.to_text().err();
    let known = error == Some(TextError::OutOfRange(foreign.into()))
        || error == Some(TextError::NotAnAssignment(root.into()));
    equal(&rt, known, true);
}

#[test]
fn statement_that_uses_itself_has_a_text(rt: HostRuntime) {
    let first = foreign_id(&rt, rt.alloc(), 0);
    let mut builder = LeftHandSideBuilder::new(rt.alloc());
    let (a, b) = (first.into(), number(1));
    let own = Instruction::Add { a, b };
    let root = put(&rt, rt.alloc(), &mut builder, own.into());
    let item = builder.finish(root, Vec::new(rt.alloc()));
    has_counts(&rt, item.print_order().expect(&rt, "memory"), (1, 1, 3));
    item_is(&rt, rt.alloc(), item, "%0 = add %0, 1\ninfer %0\n", false);
}

// The item is not well formed; its text has this end, and its needed statements have this number.
fn ends_with(rt: &impl Abort, item: &LeftHandSide, end: &str, statements: usize) {
    equal(rt, item.is_well_formed().expect(rt, "memory"), false);
    equal(
        rt,
        item.to_text().expect(rt, "memory").as_str().ends_with(end),
        true,
    );
    equal(
        rt,
        item.print_order().expect(rt, "memory").ids.len(),
        statements,
    );
}

#[test]
fn statements_that_use_each_other_have_a_text(rt: HostRuntime) {
    let second = foreign_id(&rt, rt.alloc(), 1);
    let mut graph = Graph::new(rt.alloc());
    let a = graph.add(&rt, "%a", second.into(), number(1));
    let b = graph.add(&rt, "%b", a.into(), number(1));
    ends_with(&rt, &graph.infer(b), "infer %b\n", 2);
}
