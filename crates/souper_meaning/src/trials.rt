//! What one world says of a replacement.

ghost use Rattle.std.specs.Prelude.{◌≡◌, ◌↔◌, length, IsTrue};
ghost use Rattle.souper_graph.specs.PartsView.{view_parts};
ghost use Rattle.souper_widths.specs.View.{view_widths};
ghost use Rattle.souper_meaning.specs.Worlds.{poison_inputs, IsWorld};
ghost use Rattle.souper_meaning.specs.View.{view_world};
ghost use Rattle.souper_meaning.specs.Statements.{out};
ghost use Rattle.souper_meaning.specs.Facts.{wanted_bits};
ghost use Rattle.souper_meaning.specs.Sound.{Meets, RefinesEnding};
ghost use Rattle.souper_meaning.specs.Trying.{root_attributes, RefinesRoots};
ghost use Rattle.souper_meaning.specs.Plans.{IsPlan};

use crate::evaluation::eval_into;
use crate::item_outcomes::{Evaluation, evaluation_by};
use crate::plans::Plan;
use crate::refining::refines;
use crate::worlds::World;
use souper_graph::ast::Parts;
use souper_words::Outcome;

/// What one world says of a replacement.
#[derive(Clone, Copy)]
pub(crate) struct Trial {
    /// Whether the world meets the facts of the inputs that the item needs, and its conditions.
    pub(crate) is_met: bool,

    /// Whether the result may stand for the replaced root.
    pub(crate) is_refined: bool,
}

impl Trial {
    /// Whether the world refutes the replacement.
    pub(crate) fn refutes(&self) -> bool
        ensures { IsTrue result ↔ IsTrue self.now.is_met × ¬ IsTrue self.now.is_refined }
    {
        self.is_met && !self.is_refined
    }
}

/// Whether the outcome on the right may stand for the one on the left, where these bits are wanted. An item that lacks a root
/// replaces nothing.
fn are_refined(wanted: u128, found: &Evaluation) -> bool
    ensures { IsTrue result ↔ RefinesRoots wanted found.now.left found.now.right }
{
    match (found.left, found.right) {
        (Some(left), Some(right)) => refines(wanted, left, right),
        _ => false,
    }
}

/// Tries one world, with room for an outcome of each statement.
pub(crate) fn trial_of(
    parts: &Parts<'_>,
    plan: &Plan,
    world: &World,
    wanted: u128,
    outcomes: &mut [Outcome],
) -> Trial
    requires planned { IsPlan (view_parts parts.now) plan.now }
    requires world { IsWorld poison_inputs (view_parts parts.now) (view_widths plan.now.widths) (view_world world.now) }
    requires wanted { wanted ≡ wanted_bits (view_widths plan.now.widths).root (root_attributes (view_parts parts.now).ending) }
    requires size { length outcomes.old ≡ length (view_parts parts.now).statements }
    ensures met { IsTrue result.is_met ↔ Meets (view_parts parts.now) (view_widths plan.now.widths) (view_world world.now) }
    ensures refined { IsTrue result.is_refined ↔ RefinesEnding (view_widths plan.now.widths) (out (view_parts parts.now) (view_widths plan.now.widths) (view_world world.now)) (view_parts parts.now).ending }
{
    eval_into(parts, plan, world, outcomes);
    let found = evaluation_by(parts, plan, world, outcomes);
    Trial {
        is_met: found.is_met,
        is_refined: are_refined(wanted, &found),
    }
}
