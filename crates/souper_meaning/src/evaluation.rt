//! The outcomes of an item's statements.

ghost use Rattle.std.specs.Prelude.{◌≡◌, false, length, slice_index, slice_index_or};
ghost use Rattle.souper_graph.specs.PartsView.{view_parts};
ghost use Rattle.souper_graph.specs.Uses.{NeededIn};
ghost use Rattle.souper_widths.specs.View.{view_widths};
ghost use Rattle.souper_widths.specs.Maps.{result_width, operand_width};
ghost use Rattle.souper_meaning.specs.Worlds.{poison_inputs, IsWorld};
ghost use Rattle.souper_meaning.specs.View.{view_world};
ghost use Rattle.souper_meaning.specs.Statements.{out, AreOutcomesBelow, AreOutcomes};
ghost use Rattle.souper_meaning.specs.Plans.{IsPlan};

use crate::plans::Plan;
use crate::statements::statement_outcome_of;
use crate::worlds::World;
use souper_graph::ast::{Id, Parts};
use souper_words::{Outcome, Widths};

/// Whether the item needs the statement at a position.
pub(crate) fn is_needed_at(plan: &Plan, position: usize) -> bool
    ensures { result ≡ slice_index_or plan.now.needed.items position false }
{
    match plan.needed.get(position) {
        Some(is_needed) => *is_needed,
        None => false,
    }
}

/// The width at a position.
fn width_at(widths: &[u32], position: usize) -> u32
    ensures { result ≡ slice_index widths.now position }
{
    match widths.get(position) {
        Some(width) => *width,
        None => 0,
    }
}

/// The widths of the statement at a position.
pub(crate) fn widths_at(plan: &Plan, position: usize) -> Widths
    ensures result { result.result ≡ result_width (view_widths plan.now.widths) position }
    ensures operands { result.operands ≡ operand_width (view_widths plan.now.widths) position }
{
    let own = width_at(&plan.widths.results, position);
    let used = width_at(&plan.widths.operands, position);
    Widths {
        result: own,
        operands: used,
    }
}

/// The outcome of a needed statement, by the outcomes of the statements before it. Any other statement has no meaning.
fn needed_outcome(
    parts: &Parts<'_>,
    plan: &Plan,
    world: &World,
    done: &[Outcome],
    position: usize,
) -> Outcome
    requires planned { IsPlan (view_parts parts.now) plan.now }
    requires world { IsWorld poison_inputs (view_parts parts.now) (view_widths plan.now.widths) (view_world world.now) }
    requires before { AreOutcomesBelow (view_parts parts.now) (view_widths plan.now.widths) (view_world world.now) done.now position }
    ensures { NeededIn (view_parts parts.now) position → result ≡ out (view_parts parts.now) (view_widths plan.now.widths) (view_world world.now) position }
{
    let is_needed = is_needed_at(plan, position);
    if !is_needed {
        return Outcome::Undefined;
    }
    match parts.statements.get(Id::at(position)) {
        Some(statement) => {
            let widths = widths_at(plan, position);
            statement_outcome_of(done, widths, world, position, statement)
        }
        None => Outcome::Undefined,
    }
}

/// Writes the outcomes of an item's statements in a world, each at its position. Statements that the item does not need have
/// no meaning.
pub fn eval_into(parts: &Parts<'_>, plan: &Plan, world: &World, outcomes: &mut [Outcome])
    requires planned { IsPlan (view_parts parts.now) plan.now }
    requires world { IsWorld poison_inputs (view_parts parts.now) (view_widths plan.now.widths) (view_world world.now) }
    requires size { length outcomes.old ≡ length (view_parts parts.now).statements }
    ensures { AreOutcomes (view_parts parts.now) (view_widths plan.now.widths) (view_world world.now) outcomes.new }
{
    for position in 0..outcomes.len() {
        let outcome = needed_outcome(parts, plan, world, outcomes, position);
        outcomes[position] = outcome;
    }
}
