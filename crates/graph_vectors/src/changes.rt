//! What statements use, and items whose operands change.
use crate::fixtures::{Graph, equal, has_counts, is_text, item_is, number};
use souper_graph::ast::{
    Arena, AssignmentRhs, Id, Item, LeftHandSideBuilder, Operand, ReplacementBuilder,
    RightHandSideBuilder, Statement, Use, ValueId,
};
use souper_graph::stringify::{Order, TextError};
use std::alloc::Global;
use std::process::Abort;

// A variable, a block, a phi of the variable and 1, a condition on the block, and a sum of both values.
fn branching(rt: &impl Abort, alloc: Global) -> (Graph, ValueId, ValueId) {
    let mut graph = Graph::new(alloc);
    let x = graph.var(rt, "%x");
    let block = graph.block(rt, "%b", 2);
    let phi = graph.phi(rt, "%p", block, &[x.into(), number(1)]);
    graph.block_pc(rt, block, 1, x.into(), number(0));
    let sum = graph.add(rt, "%y", phi.into(), x.into());
    (graph, x, sum)
}

fn append_uses(rt: &impl Abort, statement: &Statement, out: &mut String) {
    for used in statement.uses() {
        let (kind, id) = match used {
            Use::Value(value) => ("v", Id::from(value)),
            Use::Block(block) => ("b", Id::from(block)),
        };
        write!(out, " {kind}{}", id.index()).expect(rt, "memory");
    }
    out.push(';').expect(rt, "memory");
}

#[test]
fn uses_come_in_the_order_of_the_text(rt: HostRuntime) {
    let (graph, _, _) = branching(&rt, rt.alloc());
    let mut out = String::new(rt.alloc());
    for (_, statement) in graph.statements.iter() {
        append_uses(&rt, statement, &mut out);
    }
    is_text(&rt, out, ";; b1 v0; b1 v0; v2 v0;");
}

#[test]
fn uses_are_replaced_but_no_constant_is_inferred(rt: HostRuntime) {
    let alloc = rt.alloc();
    let (graph, x, sum) = branching(&rt, alloc);
    let mut item = graph.infer(sum);
    item.replace_uses(x, number(7));
    let want = "%b = block 2\n%p = phi %b, 7, 1\n%y = add %p, 7\nblockpc %b 1 7 0\ninfer %y\n";
    item_is(&rt, alloc, item, want, true);
    let (graph, x, _) = branching(&rt, alloc);
    let mut item = graph.replaced(x, x.into());
    item.replace_uses(x, number(7));
    let want = "%x = var\n%b = block 2\nblockpc %b 1 7 0\ninfer %x\nresult 7\n";
    item_is(&rt, alloc, item, want, true);
}

#[test]
fn value_of_an_infer_line_is_replaced(rt: HostRuntime) {
    let alloc = rt.alloc();
    let (graph, x, sum) = branching(&rt, alloc);
    let mut item = graph.infer(sum);
    item.replace_uses(sum, x.into());
    let want = "%x = var\n%b = block 2\nblockpc %b 1 %x 0\ninfer %x\n";
    item_is(&rt, alloc, item, want, true);
}

#[test]
fn uses_in_result_and_cand_lines_are_replaced(rt: HostRuntime) {
    let alloc = rt.alloc();
    let (graph, x, sum) = branching(&rt, alloc);
    let mut item = graph.result(x.into());
    item.replace_uses(x, number(7));
    let want = "%b = block 2\nblockpc %b 1 7 0\nresult 7";
    item_is(&rt, alloc, item, want, true);
    let (graph, x, _) = branching(&rt, alloc);
    let mut item = graph.cand(sum.into(), x.into());
    item.replace_uses(sum, x.into());
    let want = "%x = var\n%b = block 2\nblockpc %b 1 %x 0\ncand %x %x\n";
    item_is(&rt, alloc, item, want, true);
}

fn set_to_five(statements: &mut Arena<Statement>, id: Id<Statement>) {
    if let Some(statement) = statements.get_mut(id) {
        statement.map_operands(|_| number(5));
    }
}

#[test]
fn operands_of_one_statement_are_mapped(rt: HostRuntime) {
    let alloc = rt.alloc();
    let (graph, _, sum) = branching(&rt, alloc);
    let mut item = graph.cand(sum.into(), number(0));
    set_to_five(item.statements_mut(), sum.into());
    let want = "%y = add 5, 5\n%b = block 2\n%x = var\nblockpc %b 1 %x 0\ncand %y 0\n";
    item_is(&rt, alloc, item, want, true);
}

#[test]
fn builder_goes_on_where_an_item_ends(rt: HostRuntime) {
    let alloc = rt.alloc();
    let mut builder = RightHandSideBuilder::new(alloc);
    let var = AssignmentRhs::Var;
    let x = builder
        .assignment(None, None, var, Vec::new(alloc))
        .expect(&rt, "memory");
    let mut builder = RightHandSideBuilder::from(builder.finish(x.into()));
    builder.pc(x.into(), number(1)).expect(&rt, "memory");
    let item = builder.finish(x.into());
    let mut builder = ReplacementBuilder::from(item.statements);
    builder.pc(x.into(), number(2)).expect(&rt, "memory");
    let item = builder.finish_cand(x.into(), number(1), Vec::new(alloc));
    let want = "%0 = var\npc %0 1\npc %0 2\ncand %0 1\n";
    item_is(&rt, alloc, item, want, true);
    let item = LeftHandSideBuilder::new(alloc).finish(x, Vec::new(alloc));
    let builder = LeftHandSideBuilder::from(item);
    equal(&rt, builder.finish(x, Vec::new(alloc)).statements.len(), 0);
}

#[test]
fn order_is_used_again(rt: HostRuntime) {
    let alloc = rt.alloc();
    let mut order = Order::new(alloc);
    let (graph, x, sum) = branching(&rt, alloc);
    graph
        .infer(sum)
        .print_order_into(&mut order)
        .expect(&rt, "memory");
    let (graph, _, _) = branching(&rt, alloc);
    graph
        .infer(x)
        .print_order_into(&mut order)
        .expect(&rt, "memory");
    has_counts(&rt, order, (3, 3, 7));
}

#[test]
fn order_is_empty_after_an_error(rt: HostRuntime) {
    let alloc = rt.alloc();
    let mut order = Order::new(alloc);
    let (graph, x, _) = branching(&rt, alloc);
    let mut item = graph.result(Operand::Value(x));
    item.print_order_into(&mut order).expect(&rt, "memory");
    item.statements_mut().clear();
    equal(
        &rt,
        item.print_order_into(&mut order),
        Err(TextError::OutOfRange(x.into())),
    );
    has_counts(&rt, order, (0, 0, 0));
}
