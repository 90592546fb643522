//! Builders, and the items that they finish.
ghost use Rattle.souper_graph.specs.Building.{BeginsWithPercent};

use crate::fixtures::{equal, is_text, item_is, number, typed};
use souper_graph::ast::{
    Arena, Assignment, AssignmentRhs, Attribute, BlockId, Cand, Instruction, LeftHandSide,
    LeftHandSideBuilder, Operand, Replacement, ReplacementBuilder, RootAttribute, Type, ValueId,
};
use std::alloc::Global;
use std::fmt::Debug;
use std::process::Abort;

// The name, which begins with `%`.
fn name(rt: &impl Abort, alloc: Global, text: &str) -> Option<String>
    ensures { BeginsWithPercent result }
{
    assert!(rt; text.starts_with("%"));
    Some(String::from_str(alloc, text).expect(rt, "memory"))
}

#[test]
fn left_hand_side_is_built(rt: HostRuntime) {
    let alloc = rt.alloc();
    let mut builder = LeftHandSideBuilder::new(alloc);
    let ty = Some(Type { width: 32 });
    let x = builder
        .assignment(
            name(&rt, alloc, "%x"),
            ty,
            AssignmentRhs::Var,
            Vec::new(alloc),
        )
        .expect(&rt, "memory");
    let product = Instruction::Mul {
        a: x.into(),
        b: number(2),
    };
    let y = builder
        .assignment(
            name(&rt, alloc, "%y"),
            None,
            product.into(),
            Vec::new(alloc),
        )
        .expect(&rt, "memory");
    let item = builder.finish(y, Vec::new(alloc));
    let text = "%x:i32 = var\n%y = mul %x, 2\ninfer %y\n";
    item_is(&rt, alloc, item, text, true);
}

// The second name has a space, which no text can spell: an unneeded statement is not judged.
#[test]
fn unneeded_variable_is_built(rt: HostRuntime) {
    let alloc = rt.alloc();
    let mut builder = LeftHandSideBuilder::new(alloc);
    let [x, _] = ["%x", "% y"].map(|text| {
        let var = AssignmentRhs::Var;
        builder
            .assignment(name(&rt, alloc, text), None, var, Vec::new(alloc))
            .expect(&rt, "memory")
    });
    let item = builder.finish(x, Vec::new(alloc));
    item_is(&rt, alloc, item, "%x = var\ninfer %x\n", true);
}

// A variable and an unnamed one, which is the root, or an unnamed sum of the variable and 1.
fn unnamed_root(rt: &impl Abort, alloc: Global, is_sum: bool) -> LeftHandSide {
    let mut builder = LeftHandSideBuilder::new(alloc);
    let var = AssignmentRhs::Var;
    let first = builder
        .assignment(name(rt, alloc, "%1"), None, var, Vec::new(alloc))
        .expect(rt, "memory");
    let rhs = second_rhs(first, is_sum);
    let root = builder
        .assignment(None, None, rhs, Vec::new(alloc))
        .expect(rt, "memory");
    builder.finish(root, Vec::new(alloc))
}

// The same, replaced by 1.
fn unnamed_root_replaced(rt: &impl Abort, alloc: Global, is_sum: bool) -> Replacement {
    let mut builder = ReplacementBuilder::new(alloc);
    let var = AssignmentRhs::Var;
    let first = builder
        .assignment(name(rt, alloc, "%1"), None, var, Vec::new(alloc))
        .expect(rt, "memory");
    let rhs = second_rhs(first, is_sum);
    let root = builder
        .assignment(None, None, rhs, Vec::new(alloc))
        .expect(rt, "memory");
    builder.finish(root, number(1), Vec::new(alloc))
}

fn second_rhs(first: ValueId, is_sum: bool) -> AssignmentRhs {
    if is_sum {
        let (a, b) = (first.into(), number(1));
        Instruction::Add { a, b }.into()
    } else {
        AssignmentRhs::Var
    }
}

#[test]
fn unnamed_values_are_counted(rt: HostRuntime) {
    let alloc = rt.alloc();
    let item = unnamed_root(&rt, alloc, false);
    item_is(&rt, alloc, item, "%1 = var\ninfer %1\n", true);
    let item = unnamed_root_replaced(&rt, alloc, false);
    item_is(&rt, alloc, item, "%1 = var\ninfer %1\nresult 1\n", true);
}

#[test]
fn unnamed_value_may_take_a_name_that_is_there(rt: HostRuntime) {
    let alloc = rt.alloc();
    let item = unnamed_root(&rt, alloc, true);
    let text = "%1 = var\n%1 = add %1, 1\ninfer %1\n";
    item_is(&rt, alloc, item, text, false);
    let item = unnamed_root_replaced(&rt, alloc, true);
    let text = "%1 = var\n%1 = add %1, 1\ninfer %1\nresult 1\n";
    item_is(&rt, alloc, item, text, false);
}

#[test]
fn free_name_is_the_first_that_no_statement_has(rt: HostRuntime) {
    let alloc = rt.alloc();
    let item = unnamed_root(&rt, alloc, false);
    let mut builder = LeftHandSideBuilder::from(item);
    let free = builder.free_name().expect(&rt, "memory");
    assert_eq!(&rt; free.as_str(), "%2");
    let var = AssignmentRhs::Var;
    builder
        .assignment(name(&rt, alloc, "%4"), None, var, Vec::new(alloc))
        .expect(&rt, "memory");
    let free = builder.free_name().expect(&rt, "memory");
    assert_eq!(&rt; free.as_str(), "%3");
    let var = AssignmentRhs::Var;
    let root = builder
        .assignment(Some(free), None, var, Vec::new(alloc))
        .expect(&rt, "memory");
    let free = builder.free_name().expect(&rt, "memory");
    assert_eq!(&rt; free.as_str(), "%5");
    let item = builder.finish(root, Vec::new(alloc));
    item_is(&rt, alloc, item, "%3 = var\ninfer %3\n", true);
}

// A builder of an unnamed variable, an unnamed block, a path condition and a named block, with the variable and the blocks.
fn grown(rt: &impl Abort, alloc: Global) -> (ReplacementBuilder, ValueId, [BlockId; 2]) {
    let mut builder = ReplacementBuilder::new(alloc);
    let attributes = Vec::from_array(alloc, [Attribute::NonZero]).expect(rt, "memory");
    let x = builder
        .assignment(None, None, AssignmentRhs::Var, attributes)
        .expect(rt, "memory");
    let block = builder.block(None, 2).expect(rt, "memory");
    builder.pc(x.into(), typed(-1, 8)).expect(rt, "memory");
    let named = builder.block(name(rt, alloc, "%b"), 0).expect(rt, "memory");
    (builder, x, [block, named])
}

#[test]
fn every_growing_call_puts_its_statement(rt: HostRuntime) {
    let alloc = rt.alloc();
    let (builder, x, [block, _]) = grown(&rt, alloc);
    // A copy leaves the builder as it was.
    let _copy = builder.clone().expect(&rt, "memory");
    let item = builder.finish(x, Operand::Value(block.into()), Vec::new(alloc));
    let want = "%0 = var (nonZero)\npc %0 -1:i8\ninfer %0\n%1 = block 2\nresult %1\n";
    is_text(&rt, item.to_text().expect(&rt, "memory"), want);
}

#[test]
fn copy_of_a_builder_has_its_statements(rt: HostRuntime) {
    let alloc = rt.alloc();
    let (builder, x, [_, named]) = grown(&rt, alloc);
    let roots = Vec::from_array(alloc, [RootAttribute::HarvestedFromUse]).expect(&rt, "memory");
    let item = builder
        .clone()
        .expect(&rt, "memory")
        .finish(x, Operand::Value(named.into()), roots);
    let want =
        "%0 = var (nonZero)\npc %0 -1:i8\ninfer %0 (harvestedFromUse)\n%b = block 0\nresult %b\n";
    is_text(&rt, item.to_text().expect(&rt, "memory"), want);
}

#[test]
fn left_hand_side_builder_grows_too(rt: HostRuntime) {
    let alloc = rt.alloc();
    let mut builder = LeftHandSideBuilder::new(alloc);
    let block = builder
        .block(name(&rt, alloc, "%b"), 1)
        .expect(&rt, "memory");
    builder
        .pc(Operand::Value(block.into()), number(1))
        .expect(&rt, "memory");
    let copy = builder.clone().expect(&rt, "memory");
    let item = copy.finish(block.into(), Vec::new(alloc));
    is_text(
        &rt,
        item.to_text().expect(&rt, "memory"),
        "%b = block 1\npc %b 1\ninfer %b\n",
    );
}

// A block with two predecessors and a condition on the second.
fn conditioned(rt: &impl Abort, alloc: Global) -> LeftHandSide {
    let mut builder = LeftHandSideBuilder::new(alloc);
    let block = builder.block(name(rt, alloc, "%b"), 2).expect(rt, "memory");
    builder
        .block_pc(block, 1, number(0), number(1))
        .expect(rt, "memory");
    builder.finish(block.into(), Vec::new(alloc))
}

// The same in a replacement.
fn conditioned_replacement(rt: &impl Abort, alloc: Global) -> Replacement {
    let mut builder = ReplacementBuilder::new(alloc);
    let block = builder.block(name(rt, alloc, "%b"), 2).expect(rt, "memory");
    builder
        .block_pc(block, 1, number(0), number(1))
        .expect(rt, "memory");
    builder.finish(block.into(), number(3), Vec::new(alloc))
}

#[test]
fn conditions_on_predecessors_are_appended(rt: HostRuntime) {
    let item = conditioned(&rt, rt.alloc());
    is_text(
        &rt,
        item.to_text().expect(&rt, "memory"),
        "%b = block 2\nblockpc %b 1 0 1\ninfer %b\n",
    );
    let item = conditioned_replacement(&rt, rt.alloc());
    let text = "%b = block 2\nblockpc %b 1 0 1\ninfer %b\nresult 3\n";
    is_text(&rt, item.to_text().expect(&rt, "memory"), text);
}

// A value that was just appended is found.
fn own_name(rt: &impl Abort, alloc: Global, text: &str) -> String {
    let mut builder = LeftHandSideBuilder::new(alloc);
    let x = builder
        .assignment(
            name(rt, alloc, text),
            None,
            AssignmentRhs::Var,
            Vec::new(alloc),
        )
        .expect(rt, "memory");
    builder.get_value(x).name.clone().expect(rt, "memory")
}

// The same of a replacement.
fn own_name_in_replacement(rt: &impl Abort, alloc: Global, text: &str) -> String {
    let mut builder = ReplacementBuilder::new(alloc);
    let x = builder
        .assignment(
            name(rt, alloc, text),
            None,
            AssignmentRhs::Var,
            Vec::new(alloc),
        )
        .expect(rt, "memory");
    let item = builder.finish(x, number(1), Vec::new(alloc));
    item.assignment(x).name.clone().expect(rt, "memory")
}

// The same of a replacement by `cand`.
fn own_name_in_cand(rt: &impl Abort, alloc: Global, text: &str) -> String {
    let mut statements = Arena::new(alloc);
    let assignment = Assignment {
        name: String::from_str(alloc, text).expect(rt, "memory"),
        ty: None,
        value: AssignmentRhs::Var,
        attributes: Vec::new(alloc),
    };
    let x = ValueId::from(statements.alloc(assignment.into()).expect(rt, "memory"));
    let cand = Cand {
        lhs: x.into(),
        rhs: number(1),
        attributes: Vec::new(alloc),
    };
    let item = Replacement::Cand { statements, cand };
    item.assignment(x).name.clone().expect(rt, "memory")
}

#[test]
fn values_are_got_by_their_id(rt: HostRuntime) {
    is_text(&rt, own_name(&rt, rt.alloc(), "%x"), "%x");
    is_text(
        &rt,
        own_name_in_replacement(&rt, rt.alloc(), "%x.1"),
        "%x.1",
    );
    is_text(&rt, own_name_in_cand(&rt, rt.alloc(), "%x.2"), "%x.2");
}

// The text of `{:?}` is not specified, but it is not empty.
fn has_debug_text<T: Debug>(rt: &impl Abort, alloc: Global, value: &T) {
    let shown = format!(in alloc; "{value:?}").expect(rt, "memory");
    equal(rt, shown.is_empty(), false);
}

#[test]
fn builders_have_a_debug_text(rt: HostRuntime) {
    let alloc = rt.alloc();
    has_debug_text(&rt, alloc, &LeftHandSideBuilder::new(alloc));
    has_debug_text(&rt, alloc, &ReplacementBuilder::new(alloc));
}

#[test]
fn orders_have_a_debug_text(rt: HostRuntime) {
    let order = conditioned(&rt, rt.alloc())
        .print_order()
        .expect(&rt, "memory");
    has_debug_text(&rt, rt.alloc(), &order);
}
