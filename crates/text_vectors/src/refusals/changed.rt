//! Items that were built, or changed after they were read, and what becomes of their texts.
ghost use Rattle.souper_graph.specs.Building.{BeginsWithPercent};

use crate::checks::{equal_in, is_text};
use crate::refusals::reports::reports;
use souper_ir::ast::{
    Arena, AssignmentRhs, Attribute, Constant, Id, Instruction, LeftHandSide, LeftHandSideBuilder,
    Statement,
};
use souper_ir::parse::parse_left_hand_sides_str;
use std::alloc::Global;
use std::process::Abort;

// The name, which begins with `%`.
fn name(rt: &impl Abort, alloc: Global, text: &str) -> Option<String>
    ensures { BeginsWithPercent result }
{
    assert!(rt; text.starts_with("%"));
    Some(String::from_str(alloc, text).expect(rt, text))
}

// The item has this text, and is well formed or not.
fn is(rt: &impl Abort, alloc: Global, item: &LeftHandSide, want: &str, well_formed: bool) {
    equal_in(
        rt,
        item.is_well_formed().expect(rt, want),
        well_formed,
        want,
    );
    is_text(rt, item.to_text().expect(rt, want), want);
    is_text(rt, item.to_string(alloc).expect(rt, want), want);
}

// The text is rejected at the offset, and the error shows this.
fn is_refused(rt: &impl Abort, alloc: Global, text: &str, offset: usize, want: &str) {
    let error = parse_left_hand_sides_str(alloc, text, None).err();
    reports(rt, alloc, error, offset, want, text);
}

fn with_a_name_twice(rt: &impl Abort, alloc: Global) -> LeftHandSide {
    let mut builder = LeftHandSideBuilder::new(alloc);
    let attributes = Vec::new(alloc);
    let first = builder
        .assignment(name(rt, alloc, "%1"), None, AssignmentRhs::Var, attributes)
        .expect(rt, "memory");
    let one = Constant { value: 1, ty: None };
    let sum = Instruction::Add {
        a: first.into(),
        b: one.into(),
    };
    let attributes = Vec::new(alloc);
    let root = builder
        .assignment(None, None, sum.into(), attributes)
        .expect(rt, "memory");
    builder.finish(root, Vec::new(alloc))
}

#[test]
fn text_with_a_name_twice_is_refused(rt: HostRuntime) {
    let alloc = rt.alloc();
    let text = "%1 = var\n%1 = add %1, 1\ninfer %1\n";
    is(&rt, alloc, &with_a_name_twice(&rt, alloc), text, false);
    let want = "unknown:1:9: cannot redefine '%1'\n     |\n   1 | %1 = var\n     |         ^";
    is_refused(&rt, alloc, text, 9, want);
}

fn without_bits(rt: &impl Abort, alloc: Global) -> LeftHandSide {
    let mut builder = LeftHandSideBuilder::new(alloc);
    let mut attributes = Vec::new(alloc);
    attributes
        .push(Attribute::KnownBits(Vec::new(alloc)))
        .expect(rt, "memory");
    let root = builder
        .assignment(name(rt, alloc, "%x"), None, AssignmentRhs::Var, attributes)
        .expect(rt, "memory");
    builder.finish(root, Vec::new(alloc))
}

#[test]
fn text_without_bits_is_refused(rt: HostRuntime) {
    let alloc = rt.alloc();
    let text = "%x = var (knownBits=)\ninfer %x\n";
    is(&rt, alloc, &without_bits(&rt, alloc), text, false);
    let want =
        "unknown:1:20: expected [0|1|x]+ bit pattern for knownBits\n     |\n   1 | %x = var (knownBits=)\n     |                    ^";
    is_refused(&rt, alloc, text, 20, want);
}

// The first item of a text.
fn first(rt: &impl Abort, alloc: Global, source: &str) -> LeftHandSide {
    let items = parse_left_hand_sides_str(alloc, source, None).expect(rt, source);
    let item = items.first().expect(rt, "an item");
    item.clone().expect(rt, "memory")
}

// The place of the condition on a predecessor.
fn condition(statements: &Arena<Statement>) -> Option<Id<Statement>> {
    for (id, statement) in statements.iter() {
        if let Statement::BlockPc(_) = statement {
            return Some(id);
        }
    }
    None
}

// The item of this text, with its condition set on the third predecessor of the block.
fn on_third_predecessor(rt: &impl Abort, alloc: Global, source: &str) -> LeftHandSide {
    let mut item = first(rt, alloc, source);
    let id = condition(&item.statements).expect(rt, "a condition");
    if let Some(Statement::BlockPc(block_pc)) = item.statements.get_mut(id) {
        block_pc.predecessor = 2;
    }
    item
}

#[test]
fn text_with_a_predecessor_out_of_range_is_refused(rt: HostRuntime) {
    let alloc = rt.alloc();
    let source = "%bb = block 2\n%x:i8 = var\nblockpc %bb 0 %x 1\ninfer %x";
    let text = "%x:i8 = var\n%bb = block 2\nblockpc %bb 2 %x 1\ninfer %x\n";
    let item = on_third_predecessor(&rt, alloc, source);
    is(&rt, alloc, &item, text, false);
    let want =
        "unknown:3:12: predecessor 2 out of range for block '%bb'\n     |\n   3 | blockpc %bb 2 %x 1\n     |            ^";
    is_refused(&rt, alloc, text, 38, want);
}

#[test]
fn text_with_a_predecessor_in_range_is_read_back(rt: HostRuntime) {
    let alloc = rt.alloc();
    let source = "%bb = block 3\n%x:i8 = var\nblockpc %bb 0 %x 1\ninfer %x";
    let text = "%x:i8 = var\n%bb = block 3\nblockpc %bb 2 %x 1\ninfer %x\n";
    let item = on_third_predecessor(&rt, alloc, source);
    is(&rt, alloc, &item, text, true);
    is(&rt, alloc, &first(&rt, alloc, text), text, true);
}
