//! The worlds that a search for counterexamples tries, each in place of the one before.

ghost use Rattle.std.specs.Prelude.{◌≡◌, ◌≢◌, ◌<◌, ◌≤◌, ℕ, length, Some, slice_index_or};
ghost use Rattle.souper_graph.specs.View.{view_rhs, view_statement};
ghost use Rattle.souper_graph.specs.PartsView.{view_parts};
ghost use Rattle.souper_widths.specs.View.{view_widths};
ghost use Rattle.souper_graph.specs.Uses.{NeededIn};
ghost use Rattle.souper_meaning.specs.View.{view_world, view_mode};
ghost use Rattle.souper_meaning.specs.Numbering.{HasRhsDigit, HasStatementDigit, HasDigitAt, HasDigits};
ghost use Rattle.souper_meaning.specs.Stepping.{HasPlaces, GiveSameAt};
ghost use Rattle.souper_meaning.specs.Sampling.{output, scaled, rhs_at, statement_at, digit_at};
ghost use Rattle.souper_meaning.specs.Pins.{unsaid};
ghost use Rattle.souper_meaning.specs.Hints.{AreHints};
ghost use Rattle.souper_meaning.specs.Plans.{IsPlan};

use crate::drawing::{Try, constant_of, input_of, number_of};
use crate::evaluation::{is_needed_at, widths_at};
use crate::generator::{output_of, scaled_by};
use crate::plans::Plan;
use crate::spans::Span;
use crate::stepping::{put_choice, put_predecessor, put_value};
use crate::worlds::World;
use souper_graph::ast::{AssignmentRhs, Id, Instruction, Parts, Statement};

/// One of a block's predecessors, or 0 if it has none.
fn predecessor_of(state: u64, predecessors: u32) -> u32
    ensures { result ≡ scaled (output state 0) predecessors }
{
    scaled_by(output_of(state, 0), u64::from(predecessors)) as u32
}

/// The numbers that conditions leave of a position.
fn numbers_at(numbers: &[Span], position: usize) -> Span
    ensures { result ≡ slice_index_or numbers.now position unsaid }
{
    match numbers.get(position) {
        Some(left) => *left,
        None => Span { first: 0, end: 0 },
    }
}

/// Gives the right side of the assignment at a position of this state what the try says.
fn put_rhs(
    world: &mut World,
    position: usize,
    left: Span,
    width: u32,
    tried: &Try<'_>,
    rhs: &AssignmentRhs,
)
    requires width { width ≤ 128 }
    requires some { 0 < length tried.now.hints.now.edges.items }
    requires values { position < length world.old.values.items }
    requires predecessors { position < length world.old.predecessors.items }
    requires choices { position < length world.old.choices.items }
    ensures places { (n : ℕ) → HasPlaces n (view_world world.old) → HasPlaces n (view_world world.new) }
    ensures given { HasRhsDigit width (view_world world.new) position (rhs_at (view_mode tried.now.mode) width tried.now.hints.now.edges.items left tried.now.number (output tried.now.state position) (view_rhs rhs.now)) (view_rhs rhs.now) }
    ensures others { (p : ℕ) → p ≢ position → GiveSameAt (view_world world.old) (view_world world.new) p }
{
    let state = output_of(tried.state, position as u64);
    match rhs {
        AssignmentRhs::Var => put_value(world, position, input_of(tried, left, width, state)),
        AssignmentRhs::ReservedInst => put_value(
            world,
            position,
            input_of(tried, left, width, state),
        ),
        AssignmentRhs::ReservedConst => put_value(
            world,
            position,
            constant_of(tried, left, width, state),
        ),
        AssignmentRhs::Block(block) => {
            put_predecessor(world, position, predecessor_of(state, block.predecessors))
        }
        AssignmentRhs::Phi(_) => {}
        AssignmentRhs::Instruction(Instruction::Freeze { .. }) => {
            put_choice(world, position, number_of(tried, width, state))
        }
        AssignmentRhs::Instruction(_) => {}
    }
}

/// Gives the statement at a position of this state what the try says.
fn put_statement(
    world: &mut World,
    position: usize,
    left: Span,
    width: u32,
    tried: &Try<'_>,
    statement: &Statement,
)
    requires width { width ≤ 128 }
    requires some { 0 < length tried.now.hints.now.edges.items }
    requires values { position < length world.old.values.items }
    requires predecessors { position < length world.old.predecessors.items }
    requires choices { position < length world.old.choices.items }
    ensures places { (n : ℕ) → HasPlaces n (view_world world.old) → HasPlaces n (view_world world.new) }
    ensures given { HasStatementDigit width (view_world world.new) position
        (statement_at (view_mode tried.now.mode) width tried.now.hints.now.edges.items left tried.now.number (output tried.now.state position) (Some (view_statement statement.now))) (Some (view_statement statement.now)) }
    ensures others { (p : ℕ) → p ≢ position → GiveSameAt (view_world world.old) (view_world world.new) p }
{
    match statement {
        Statement::Assignment(assignment) => {
            put_rhs(world, position, left, width, tried, &assignment.value)
        }
        Statement::Pc(_) => {}
        Statement::BlockPc(_) => {}
    }
}

/// Gives the statement at a position what the try says, if the item needs it.
fn put_at(parts: &Parts<'_>, plan: &Plan, world: &mut World, tried: &Try<'_>, position: usize)
    requires planned { IsPlan (view_parts parts.now) plan.now }
    requires hints { AreHints (view_parts parts.now) (view_widths plan.now.widths) tried.now.hints.now }
    requires places { HasPlaces (length (view_parts parts.now).statements) (view_world world.old) }
    requires inside { position < length (view_parts parts.now).statements }
    ensures places { HasPlaces (length (view_parts parts.now).statements) (view_world world.new) }
    ensures given { NeededIn (view_parts parts.now) position → HasDigitAt (view_parts parts.now) (view_widths plan.now.widths) (view_world world.new) position
        (digit_at (view_mode tried.now.mode) (view_parts parts.now) (view_widths plan.now.widths) tried.now.number tried.now.state position) }
    ensures others { (p : ℕ) → p ≢ position → GiveSameAt (view_world world.old) (view_world world.new) p }
{
    let is_needed = is_needed_at(plan, position);
    if !is_needed {
        return;
    }
    match parts.statements.get(Id::at(position)) {
        Some(statement) => {
            let widths = widths_at(plan, position);
            let left = numbers_at(&tried.hints.numbers, position);
            put_statement(world, position, left, widths.result, tried, statement);
        }
        None => {}
    }
}

/// Makes the world that of the try.
pub(crate) fn put_try(parts: &Parts<'_>, plan: &Plan, world: &mut World, tried: &Try<'_>)
    requires planned { IsPlan (view_parts parts.now) plan.now }
    requires hints { AreHints (view_parts parts.now) (view_widths plan.now.widths) tried.now.hints.now }
    requires places { HasPlaces (length (view_parts parts.now).statements) (view_world world.old) }
    ensures places { HasPlaces (length (view_parts parts.now).statements) (view_world world.new) }
    ensures given { HasDigits (view_parts parts.now) (view_widths plan.now.widths) (view_world world.new)
        (digit_at (view_mode tried.now.mode) (view_parts parts.now) (view_widths plan.now.widths) tried.now.number tried.now.state) }
{
    for position in 0..parts.statements.len() {
        put_at(parts, plan, world, tried, position);
    }
}
