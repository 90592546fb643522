//! Worlds by number, from one to the next in place.

ghost use Rattle.std.specs.Prelude.{◌≡◌, ◌≢◌, ◌+◌, ◌<◌, ◌≤◌, ℕ, length, slice_index, slice_set, IfOk};
ghost use Rattle.souper_graph.specs.View.{view_rhs};
ghost use Rattle.souper_graph.specs.PartsView.{view_parts};
ghost use Rattle.souper_widths.specs.View.{view_widths};
ghost use Rattle.souper_graph.specs.Uses.{NeededIn};
ghost use Rattle.souper_meaning.specs.View.{view_world};
ghost use Rattle.souper_meaning.specs.Digits.{product_of, number_of};
ghost use Rattle.souper_meaning.specs.Numbering.{numbered_input, HasRhsDigit, HasDigitAt};
ghost use Rattle.souper_meaning.specs.Stepping.{HasPlaces, GiveSameAt, AllowsRhsDigit, AllowsDigitAt, AreCounts, IsNumbered, IsFirst};
ghost use Rattle.souper_meaning.specs.Plans.{IsPlan};

use crate::evaluation::{is_needed_at, widths_at};
use crate::giving::fits;
use crate::odometer::advance;
use crate::plans::Plan;
use crate::worlds::World;
use souper_graph::ast::{AssignmentRhs, Id, Instruction, Parts, Statement};
use souper_words::Outcome;
use std::alloc::{AllocError, Global};

/// A world, and the digits of its number by position.
#[derive(Drop)]
pub(crate) struct NumberedWorld {
    pub(crate) digits: Vec<u128>,
    pub(crate) world: World,
}

/// The input of this width that has the number: a value, or poison after all values.
fn numbered_input_of(number: u128, width: u32) -> Outcome
    requires { width ≤ 128 }
    ensures { result ≡ numbered_input width number }
{
    let is_value = fits(number, width);
    if is_value {
        Outcome::Number(number)
    } else {
        Outcome::Poison
    }
}

/// Gives an input its value.
pub(crate) fn put_value(world: &mut World, position: usize, value: Outcome)
    requires { position < length world.old.values.items }
    ensures values { world.new.values.items ≡ slice_set world.old.values.items position value }
    ensures predecessors { world.new.predecessors.items ≡ world.old.predecessors.items }
    ensures choices { world.new.choices.items ≡ world.old.choices.items }
{
    world.values[position] = value;
}

/// Gives a block the predecessor by which it is reached.
pub(crate) fn put_predecessor(world: &mut World, position: usize, predecessor: u32)
    requires { position < length world.old.predecessors.items }
    ensures values { world.new.values.items ≡ world.old.values.items }
    ensures predecessors { world.new.predecessors.items ≡ slice_set world.old.predecessors.items position predecessor }
    ensures choices { world.new.choices.items ≡ world.old.choices.items }
{
    world.predecessors[position] = predecessor;
}

/// Gives a freeze its choice.
pub(crate) fn put_choice(world: &mut World, position: usize, choice: u128)
    requires { position < length world.old.choices.items }
    ensures values { world.new.values.items ≡ world.old.values.items }
    ensures predecessors { world.new.predecessors.items ≡ world.old.predecessors.items }
    ensures choices { world.new.choices.items ≡ slice_set world.old.choices.items position choice }
{
    world.choices[position] = choice;
}

/// Gives the right side of the assignment at a position what the digit says.
fn put_rhs(world: &mut World, position: usize, width: u32, digit: u128, rhs: &AssignmentRhs)
    requires width { width ≤ 128 }
    requires values { position < length world.old.values.items }
    requires predecessors { position < length world.old.predecessors.items }
    requires choices { position < length world.old.choices.items }
    requires digit { AllowsRhsDigit digit (view_rhs rhs.now) }
    ensures places { (n : ℕ) → HasPlaces n (view_world world.old) → HasPlaces n (view_world world.new) }
    ensures given { HasRhsDigit width (view_world world.new) position digit (view_rhs rhs.now) }
    ensures others { (p : ℕ) → p ≢ position → GiveSameAt (view_world world.old) (view_world world.new) p }
{
    match rhs {
        AssignmentRhs::Var => put_value(world, position, numbered_input_of(digit, width)),
        AssignmentRhs::ReservedInst => put_value(world, position, numbered_input_of(digit, width)),
        AssignmentRhs::ReservedConst => put_value(world, position, numbered_input_of(digit, width)),
        AssignmentRhs::Block(_) => put_predecessor(world, position, digit as u32),
        AssignmentRhs::Phi(_) => {}
        AssignmentRhs::Instruction(Instruction::Freeze { .. }) => {
            put_choice(world, position, digit)
        }
        AssignmentRhs::Instruction(_) => {}
    }
}

/// Gives the statement at a position what the digit says, if the item needs it.
fn put_digit(parts: &Parts<'_>, plan: &Plan, world: &mut World, position: usize, digit: u128)
    requires planned { IsPlan (view_parts parts.now) plan.now }
    requires places { HasPlaces (length (view_parts parts.now).statements) (view_world world.old) }
    requires inside { position < length (view_parts parts.now).statements }
    requires digit { AllowsDigitAt (view_parts parts.now) position digit }
    ensures places { HasPlaces (length (view_parts parts.now).statements) (view_world world.new) }
    ensures given { NeededIn (view_parts parts.now) position → HasDigitAt (view_parts parts.now) (view_widths plan.now.widths) (view_world world.new) position digit }
    ensures others { (p : ℕ) → p ≢ position → GiveSameAt (view_world world.old) (view_world world.new) p }
{
    let is_needed = is_needed_at(plan, position);
    if !is_needed {
        return;
    }
    match parts.statements.get(Id::at(position)) {
        Some(Statement::Assignment(assignment)) => {
            let widths = widths_at(plan, position);
            put_rhs(world, position, widths.result, digit, &assignment.value);
        }
        Some(_) => {}
        None => {}
    }
}

/// Gives the statements below a position what their digits say.
fn put_digits(parts: &Parts<'_>, plan: &Plan, world: &mut World, digits: &[u128], end: usize)
    requires planned { IsPlan (view_parts parts.now) plan.now }
    requires places { HasPlaces (length (view_parts parts.now).statements) (view_world world.old) }
    requires size { length digits.now ≡ length (view_parts parts.now).statements }
    requires inside { end ≤ length digits.now }
    requires digits { (p : ℕ) → p < end → AllowsDigitAt (view_parts parts.now) p (slice_index digits.now p) }
    ensures places { HasPlaces (length (view_parts parts.now).statements) (view_world world.new) }
    ensures given { (p : ℕ) → p < end → NeededIn (view_parts parts.now) p
        → HasDigitAt (view_parts parts.now) (view_widths plan.now.widths) (view_world world.new) p (slice_index digits.now p) }
    ensures others { (p : ℕ) → end ≤ p → GiveSameAt (view_world world.old) (view_world world.new) p }
{
    for position in 0..end {
        put_digit(parts, plan, world, position, digits[position]);
    }
}

/// World number 0 of an item with this many statements.
pub(crate) fn first_world(alloc: Global, count: usize) -> Result<NumberedWorld, AllocError>
    ensures { IfOk result (λ numbered. IsFirst count numbered) }
{
    Ok(NumberedWorld {
        digits: vec![in alloc; 0u128; count]?,
        world: World {
            values: vec![in alloc; Outcome::Number(0); count]?,
            predecessors: vec![in alloc; 0u32; count]?,
            choices: vec![in alloc; 0u128; count]?,
        },
    })
}

/// Steps to the world with the next number, in place. After the last comes the first.
pub(crate) fn step(parts: &Parts<'_>, plan: &Plan, counts: &[u128], numbered: &mut NumberedWorld)
    requires planned { IsPlan (view_parts parts.now) plan.now }
    requires counts { AreCounts (view_parts parts.now) counts.now }
    requires numbered { IsNumbered (view_parts parts.now) (view_widths plan.now.widths) counts.now numbered.old }
    ensures numbered { IsNumbered (view_parts parts.now) (view_widths plan.now.widths) counts.now numbered.new }
    ensures next { number_of (slice_index counts.now) (slice_index numbered.old.digits.items) (length counts.now) + 1 < product_of (slice_index counts.now) (length counts.now)
        → number_of (slice_index counts.now) (slice_index numbered.new.digits.items) (length counts.now) ≡ number_of (slice_index counts.now) (slice_index numbered.old.digits.items) (length counts.now) + 1 }
{
    let end = advance(&mut numbered.digits, counts);
    put_digits(parts, plan, &mut numbered.world, &numbered.digits, end);
}
