//! Counterexamples to replacements, by tries.

ghost use Rattle.std.specs.Prelude.{◌≡◌, ◌<◌, ℕ, IfOk, IfErr};
ghost use Rattle.souper_graph.specs.View.{view_replacement};
ghost use Rattle.souper_graph.specs.PartsView.{view_parts};
ghost use Rattle.souper_widths.specs.View.{view_widths};
ghost use Rattle.souper_meaning.specs.View.{view_mode};
ghost use Rattle.souper_meaning.specs.Numbering.{world_count as product_of_counts};
ghost use Rattle.souper_meaning.specs.Hints.{AreHints};
ghost use Rattle.souper_meaning.specs.Refutations.{IsRefutationBy, IsRefutation};
ghost use Rattle.souper_meaning.specs.Plans.{IsPlan, IsPlanError};

use crate::drawing::{Hints, Try};
use crate::edges::edges_of;
use crate::generator::output_of;
use crate::numbering::counts_of;
use crate::odometer::product;
use crate::pins::numbers_of;
use crate::planning::plan;
use crate::plans::{Plan, PlanError};
use crate::sampling::put_try;
use crate::stepping::first_world;
use crate::trials::trial_of;
use crate::wanted::wanted_of;
use crate::worlds::{Mode, World};
use souper_graph::ast::{Parts, Replacement};
use souper_words::Outcome;

/// What a search for counterexamples says of a replacement.
#[derive(Debug, Drop)]
pub enum Refutation {
    /// The first world of the tries that meets the facts and conditions and in which the result may not stand for the replaced
    /// root. Each of its lists has an entry for each statement. The entries of needed inputs, blocks and freezes count.
    Refuted(World),

    /// No try refutes the replacement, which may still be unsound. This many of the tries met the facts and conditions.
    Unrefuted(u64),
}

/// Makes each of the tries.
fn try_each(
    parts: &Parts<'_>,
    plan: &Plan,
    mode: Mode,
    hints: &Hints,
    tries: u64,
    seed: u64,
) -> Result<Refutation, PlanError>
    requires planned { IsPlan (view_parts parts.now) plan.now }
    requires hints { AreHints (view_parts parts.now) (view_widths plan.now.widths) hints.now }
    requires some { 0 < product_of_counts (view_mode mode) (view_parts parts.now) (view_widths plan.now.widths) plan.now.needed.items }
    ensures decided { IfOk result (λ found. IsRefutationBy (view_mode mode) (view_parts parts.now) (view_widths plan.now.widths) tries seed found) }
    ensures refused { IfErr result (λ error. IsPlanError (view_parts parts.now) error) }
{
    let alloc = parts.statements.allocator();
    let wanted = wanted_of(parts, plan);
    let mut outcomes = vec![in alloc; Outcome::Undefined; parts.statements.len()]?;
    let first = first_world(alloc, parts.statements.len())?;
    let mut world = first.world;
    let mut met: u64 = 0;
    for number in 0..tries {
        let state = output_of(seed, number);
        let tried = Try {
            mode,
            hints,
            number,
            state,
        };
        put_try(parts, plan, &mut world, &tried);
        let trial = trial_of(parts, plan, &world, wanted, &mut outcomes);
        if trial.refutes() {
            return Ok(Refutation::Refuted(world));
        }
        met += u64::from(trial.is_met);
    }
    Ok(Refutation::Unrefuted(met))
}

/// What the tries say of the item of the plan. An item with a block without predecessors has no worlds.
fn planned_refute(
    parts: &Parts<'_>,
    plan: &Plan,
    tries: u64,
    seed: u64,
    mode: Mode,
) -> Result<Refutation, PlanError>
    requires { IsPlan (view_parts parts.now) plan.now }
    ensures decided { IfOk result (λ found. IsRefutation (view_mode mode) (view_parts parts.now) tries seed found) }
    ensures refused { IfErr result (λ error. IsPlanError (view_parts parts.now) error) }
{
    let counts = counts_of(parts, plan, mode)?;
    let world_count = product(&counts);
    if world_count == 0 {
        return Ok(Refutation::Unrefuted(0));
    }
    let edges = edges_of(parts)?;
    let numbers = numbers_of(parts, plan)?;
    let hints = Hints { edges, numbers };
    try_each(parts, plan, mode, &hints, tries, seed)
}

/// Searches for a counterexample to a replacement by this many tries, and stops at the first. Each try is a world that the seed
/// and the try's number give.
///
/// The first tries give inputs the edges: 0, 1, -1, the constants of the item and their neighbours, powers of two and the numbers
/// below them. Later ones give edges and random numbers, and every eighth input that may be poison is so. An input that a
/// condition says to be a constant, or compares with one, gets a number that meets the condition, and no poison, if there is such a
/// number. Of several conditions it meets one at least, and all if one span of numbers does. Memory is allocated once, and none for each try.
///
/// Errors: as [`plan`] refuses the replacement, whatever the number of tries.
pub fn refute(
    replacement: &Replacement,
    tries: u64,
    seed: u64,
    mode: Mode,
) -> Result<Refutation, PlanError>
    ensures decided { IfOk result (λ found. IsRefutation (view_mode mode) (view_replacement replacement.now) tries seed found) }
    ensures refused { IfErr result (λ error. IsPlanError (view_replacement replacement.now) error) }
{
    let plan = plan(replacement)?;
    planned_refute(&replacement.parts(), &plan, tries, seed, mode)
}
