//! Builders of left-hand sides and of replacements. Each call is made when the arena is full.
use crate::cases::Cases;
use crate::growing::{Call, holds, lines, name, number};
use crate::met::Met;
use souper_ir::ast::{
    AssignmentRhs, Item, LeftHandSide, LeftHandSideBuilder, Replacement, ReplacementBuilder,
};
use std::alloc::{AllocError, Global};
use std::io;

// The item after the call, and whether the call succeeded. The builder has a block and three conditions, which fill the arena.
fn left_hand_side(alloc: Global, call: Call) -> Result<(LeftHandSide, bool), AllocError> {
    let mut builder = LeftHandSideBuilder::new(alloc);
    let block = builder.block(None, 2)?;
    builder.pc(number(1), number(1))?;
    builder.pc(number(2), number(2))?;
    builder.pc(number(3), number(3))?;
    let name = name(alloc, call.name())?;
    let (ty, var, attributes) = (call.ty(), AssignmentRhs::Var, Vec::new(alloc));
    let has_grown = match call {
        Call::NamedAssignment | Call::UnnamedAssignment => {
            builder.assignment(name, ty, var, attributes).is_ok()
        }
        Call::NamedBlock | Call::UnnamedBlock => builder.block(name, 7).is_ok(),
        Call::Condition => builder.pc(number(5), number(6)).is_ok(),
        Call::ConditionOnPredecessor => builder.block_pc(block, 1, number(5), number(6)).is_ok(),
    };
    Ok((builder.finish(block.into(), Vec::new(alloc)), has_grown))
}

// The same of a replacement.
fn replacement(alloc: Global, call: Call) -> Result<(Replacement, bool), AllocError> {
    let mut builder = ReplacementBuilder::new(alloc);
    let block = builder.block(None, 2)?;
    builder.pc(number(1), number(1))?;
    builder.pc(number(2), number(2))?;
    builder.pc(number(3), number(3))?;
    let name = name(alloc, call.name())?;
    let (ty, var, attributes) = (call.ty(), AssignmentRhs::Var, Vec::new(alloc));
    let has_grown = match call {
        Call::NamedAssignment | Call::UnnamedAssignment => {
            builder.assignment(name, ty, var, attributes).is_ok()
        }
        Call::NamedBlock | Call::UnnamedBlock => builder.block(name, 7).is_ok(),
        Call::Condition => builder.pc(number(5), number(6)).is_ok(),
        Call::ConditionOnPredecessor => builder.block_pc(block, 1, number(5), number(6)).is_ok(),
    };
    let item = builder.finish(block.into(), number(9), Vec::new(alloc));
    Ok((item, has_grown))
}

// The item, if it was built, has the statement of the call if that was appended.
fn appended<I: Item + Drop>(
    alloc: Global,
    call: Call,
    built: Result<(I, bool), AllocError>,
) -> anyhow::Result<Met> {
    match built {
        Ok((item, has_grown)) => holds(alloc, item.statements(), &lines(call), has_grown),
        Err(_) => Ok(Met::Unreached),
    }
}

fn left_hand_side_with(alloc: Global, call: Call) -> anyhow::Result<Met> {
    appended(alloc, call, left_hand_side(alloc, call))
}

fn replacement_with(alloc: Global, call: Call) -> anyhow::Result<Met> {
    appended(alloc, call, replacement(alloc, call))
}

/// The cases of left-hand sides.
pub fn left_hand_sides(cases: &mut Cases<'_>) -> io::Result<()> {
    cases.run(
        "putting_a_named_assignment_into_a_left_hand_side",
        |alloc| { left_hand_side_with(alloc, Call::NamedAssignment) },
    )?;
    cases.run(
        "putting_an_unnamed_assignment_into_a_left_hand_side",
        |alloc| { left_hand_side_with(alloc, Call::UnnamedAssignment) },
    )?;
    cases.run("putting_a_named_block_into_a_left_hand_side", |alloc| {
        left_hand_side_with(alloc, Call::NamedBlock)
    })?;
    cases.run("putting_an_unnamed_block_into_a_left_hand_side", |alloc| {
        left_hand_side_with(alloc, Call::UnnamedBlock)
    })?;
    cases.run("putting_a_condition_into_a_left_hand_side", |alloc| {
        left_hand_side_with(alloc, Call::Condition)
    })?;
    cases.run(
        "putting_a_condition_on_a_predecessor_into_a_left_hand_side",
        |alloc| { left_hand_side_with(alloc, Call::ConditionOnPredecessor) },
    )?;
    Ok(())
}

/// The cases of replacements.
pub fn replacements(cases: &mut Cases<'_>) -> io::Result<()> {
    cases.run("putting_a_named_assignment_into_a_replacement", |alloc| {
        replacement_with(alloc, Call::NamedAssignment)
    })?;
    cases.run(
        "putting_an_unnamed_assignment_into_a_replacement",
        |alloc| { replacement_with(alloc, Call::UnnamedAssignment) },
    )?;
    cases.run("putting_a_named_block_into_a_replacement", |alloc| {
        replacement_with(alloc, Call::NamedBlock)
    })?;
    cases.run("putting_an_unnamed_block_into_a_replacement", |alloc| {
        replacement_with(alloc, Call::UnnamedBlock)
    })?;
    cases.run("putting_a_condition_into_a_replacement", |alloc| {
        replacement_with(alloc, Call::Condition)
    })?;
    cases.run(
        "putting_a_condition_on_a_predecessor_into_a_replacement",
        |alloc| { replacement_with(alloc, Call::ConditionOnPredecessor) },
    )?;
    Ok(())
}
