//! Verdicts on replacements by all their worlds.

ghost use Rattle.std.specs.Prelude.{◌≡◌, ◌<◌, ◌↔◌, ℕ, length, slice_index, IsTrue, IfOk, IfErr};
ghost use Rattle.souper_graph.specs.View.{view_replacement};
ghost use Rattle.souper_graph.specs.PartsView.{view_parts};
ghost use Rattle.souper_widths.specs.View.{view_widths};
ghost use Rattle.souper_meaning.specs.View.{view_mode};
ghost use Rattle.souper_meaning.specs.Numbering.{count_at, world_count as product_of_counts};
ghost use Rattle.souper_meaning.specs.Exhausted.{IsVerdictWithin, IsVerdict};
ghost use Rattle.souper_meaning.specs.Plans.{IsPlan, IsPlanError};

use crate::numbering::counts_of;
use crate::odometer::product;
use crate::planning::plan;
use crate::plans::{Plan, PlanError};
use crate::stepping::{first_world, step};
use crate::trials::trial_of;
use crate::wanted::wanted_of;
use crate::worlds::{Mode, World};
use souper_graph::ast::{Parts, Replacement};
use souper_words::Outcome;

/// What trying all worlds says of a replacement.
#[derive(Debug, Drop)]
pub enum Verdict {
    /// In each world that meets the facts and conditions the result may stand for the replaced root, and there is such a world.
    Sound,

    /// The first world that meets the facts and conditions and in which the result may not stand for the replaced root. Each of
    /// its lists has an entry for each statement. The entries of needed inputs, blocks and freezes count.
    Refuted(World),

    /// No world meets the facts and conditions.
    Vacuous,

    /// There are more worlds than the limit: their number, at most `u128::MAX`. None was tried.
    TooMany(u128),
}

/// Tries each of the item's worlds, of which there are this many.
fn try_all(
    parts: &Parts<'_>,
    plan: &Plan,
    mode: Mode,
    counts: &[u128],
    world_count: u64,
) -> Result<Verdict, PlanError>
    requires planned { IsPlan (view_parts parts.now) plan.now }
    requires size { length counts.now ≡ length (view_parts parts.now).statements }
    requires counts { (p : ℕ) → p < length (view_parts parts.now).statements
        → slice_index counts.now p ≡ count_at (view_mode mode) (view_parts parts.now) (view_widths plan.now.widths) plan.now.needed.items p }
    requires world_count { world_count ≡ product_of_counts (view_mode mode) (view_parts parts.now) (view_widths plan.now.widths) plan.now.needed.items }
    requires some { 0 < world_count }
    ensures decided { IfOk result (λ verdict. IsVerdictWithin (view_mode mode) (view_parts parts.now) (view_widths plan.now.widths) plan.now.needed.items verdict) }
    ensures refused { IfErr result (λ error. IsPlanError (view_parts parts.now) error) }
{
    let alloc = parts.statements.allocator();
    let wanted = wanted_of(parts, plan);
    let mut outcomes = vec![in alloc; Outcome::Undefined; parts.statements.len()]?;
    let mut numbered = first_world(alloc, parts.statements.len())?;
    let mut has_met = false;
    for _number in 0..world_count {
        let trial = trial_of(parts, plan, &numbered.world, wanted, &mut outcomes);
        if trial.refutes() {
            return Ok(Verdict::Refuted(numbered.world));
        }
        has_met = has_met || trial.is_met;
        step(parts, plan, counts, &mut numbered);
    }
    if has_met {
        Ok(Verdict::Sound)
    } else {
        Ok(Verdict::Vacuous)
    }
}

/// Whether the number of worlds is greater than the limit.
fn exceeds(world_count: u128, limit: u64) -> bool
    ensures { IsTrue result ↔ (limit < world_count) }
{
    world_count > u128::from(limit)
}

/// The verdict on the item of the plan.
fn planned_exhaust(
    parts: &Parts<'_>,
    plan: &Plan,
    limit: u64,
    mode: Mode,
) -> Result<Verdict, PlanError>
    requires { IsPlan (view_parts parts.now) plan.now }
    ensures decided { IfOk result (λ verdict. IsVerdict (view_mode mode) (view_parts parts.now) limit verdict) }
    ensures refused { IfErr result (λ error. IsPlanError (view_parts parts.now) error) }
{
    let counts = counts_of(parts, plan, mode)?;
    let world_count = product(&counts);
    if exceeds(world_count, limit) {
        return Ok(Verdict::TooMany(world_count));
    }
    if world_count == 0 {
        return Ok(Verdict::Vacuous);
    }
    try_all(parts, plan, mode, &counts, world_count as u64)
}

/// Tries all worlds of a replacement, if there are at most as many as the limit: all inputs, predecessors and choices of
/// freezes. Stops at the first that refutes it.
///
/// The first input, block or freeze of the text counts fastest, and an input is poison after all its values. Memory is
/// allocated once, and none for each world.
///
/// Errors: as [`plan`] refuses the replacement, whatever the limit.
pub fn exhaust(replacement: &Replacement, limit: u64, mode: Mode) -> Result<Verdict, PlanError>
    ensures decided { IfOk result (λ verdict. IsVerdict (view_mode mode) (view_replacement replacement.now) limit verdict) }
    ensures refused { IfErr result (λ error. IsPlanError (view_replacement replacement.now) error) }
{
    let plan = plan(replacement)?;
    planned_exhaust(&replacement.parts(), &plan, limit, mode)
}
