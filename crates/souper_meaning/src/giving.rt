//! Whether a world is one of an item.

ghost use Rattle.std.specs.Prelude.{◌↔◌, ◌^◌, ◌<◌, ◌≤◌, IsTrue, MatchOption};
ghost use Rattle.souper_graph.specs.View.{view_rhs, view_statement};
ghost use Rattle.souper_graph.specs.PartsView.{view_parts};
ghost use Rattle.souper_graph.specs.Uses.{NeededIn};
ghost use Rattle.souper_widths.specs.View.{view_widths};
ghost use Rattle.souper_meaning.specs.Worlds.{IsNumberBelow, IsInput, GivesInstruction, GivesRhs, GivesStatement, GivesAt, IsWorld};
ghost use Rattle.souper_meaning.specs.View.{view_world, view_mode};
ghost use Rattle.souper_meaning.specs.Plans.{IsPlan, IsFirstWithout};

use crate::evaluation::{is_needed_at, widths_at};
use crate::plans::Plan;
use crate::worlds::{Mode, World};
use souper_graph::ast::{AssignmentRhs, Id, Instruction, Parts, Statement};
use souper_words::Outcome;

/// Whether a number has this width at most.
pub(crate) fn fits(n: u128, width: u32) -> bool
    requires { width ≤ 128 }
    ensures { IsTrue result ↔ (n < 2 ^ width) }
{
    width >= 128 || n >> width == 0
}

/// Whether a value is a number of this width at most.
fn is_number_below(value: Outcome, width: u32) -> bool
    requires { width ≤ 128 }
    ensures { IsTrue result ↔ IsNumberBelow (2 ^ width) value }
{
    match value {
        Outcome::Number(n) => fits(n, width),
        Outcome::Poison => false,
        Outcome::Undefined => false,
    }
}

/// Whether an input of this width may be the value.
fn is_input(mode: Mode, value: Outcome, width: u32) -> bool
    requires { width ≤ 128 }
    ensures { IsTrue result ↔ IsInput (view_mode mode) width value }
{
    match (mode, value) {
        (Mode::PoisonInputs, Outcome::Poison) => true,
        _ => is_number_below(value, width),
    }
}

/// Whether the instruction at a position, if it is a freeze, has a choice.
fn instruction_is_given(
    world: &World,
    position: usize,
    width: u32,
    instruction: &Instruction,
) -> bool
    requires { width ≤ 128 }
    ensures { IsTrue result ↔ GivesInstruction width (view_world world.now) position instruction.now }
{
    match instruction {
        Instruction::Freeze { .. } => fits(world.choice(position), width),
        _ => true,
    }
}

/// Whether the world gives the right side of the assignment at a position what it needs.
fn rhs_is_given(mode: Mode, world: &World, position: usize, width: u32, rhs: &AssignmentRhs) -> bool
    requires { width ≤ 128 }
    ensures { IsTrue result ↔ GivesRhs (view_mode mode) width (view_world world.now) position (view_rhs rhs.now) }
{
    match rhs {
        AssignmentRhs::Var => is_input(mode, world.value(position), width),
        AssignmentRhs::ReservedInst => is_input(mode, world.value(position), width),
        AssignmentRhs::ReservedConst => is_number_below(world.value(position), width),
        AssignmentRhs::Block(block) => world.predecessor(position) < block.predecessors,
        AssignmentRhs::Phi(_) => true,
        AssignmentRhs::Instruction(instruction) => {
            instruction_is_given(world, position, width, instruction)
        }
    }
}

/// Whether the world gives the statement at a position what it needs.
fn statement_is_given(
    mode: Mode,
    world: &World,
    position: usize,
    width: u32,
    statement: &Statement,
) -> bool
    requires { width ≤ 128 }
    ensures { IsTrue result ↔ GivesStatement (view_mode mode) width (view_world world.now) position (Some (view_statement statement.now)) }
{
    match statement {
        Statement::Assignment(assignment) => {
            rhs_is_given(mode, world, position, width, &assignment.value)
        }
        Statement::Pc(_) => true,
        Statement::BlockPc(_) => true,
    }
}

/// Whether the world gives the statement at a position what it needs, if the item needs it.
fn is_given_at(parts: &Parts<'_>, plan: &Plan, world: &World, mode: Mode, position: usize) -> bool
    requires { IsPlan (view_parts parts.now) plan.now }
    ensures { IsTrue result ↔ (NeededIn (view_parts parts.now) position → GivesAt (view_mode mode) (view_parts parts.now) (view_widths plan.now.widths) (view_world world.now) position) }
{
    let is_needed = is_needed_at(plan, position);
    if !is_needed {
        return true;
    }
    match parts.statements.get(Id::at(position)) {
        Some(statement) => {
            let widths = widths_at(plan, position);
            statement_is_given(mode, world, position, widths.result, statement)
        }
        None => true,
    }
}

/// The first statement that the item needs and the world does not give what it needs.
pub(crate) fn first_ungiven(
    parts: &Parts<'_>,
    plan: &Plan,
    world: &World,
    mode: Mode,
) -> Option<Id<Statement>>
    requires { IsPlan (view_parts parts.now) plan.now }
    ensures { MatchOption result
        (IsWorld (view_mode mode) (view_parts parts.now) (view_widths plan.now.widths) (view_world world.now))
        (λ id. IsFirstWithout (view_parts parts.now) (GivesAt (view_mode mode) (view_parts parts.now) (view_widths plan.now.widths) (view_world world.now)) id) }
{
    for position in 0..parts.statements.len() {
        let is_given = is_given_at(parts, plan, world, mode, position);
        if !is_given {
            return Some(Id::at(position));
        }
    }
    None
}

/// Whether the world gives a value to each input that the item needs, a predecessor to each block and a choice to each freeze.
pub fn is_world(parts: &Parts<'_>, plan: &Plan, world: &World, mode: Mode) -> bool
    requires { IsPlan (view_parts parts.now) plan.now }
    ensures { IsTrue result ↔ IsWorld (view_mode mode) (view_parts parts.now) (view_widths plan.now.widths) (view_world world.now) }
{
    match first_ungiven(parts, plan, world, mode) {
        Some(_) => false,
        None => true,
    }
}
