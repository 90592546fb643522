//! What an item gives in a world.

ghost use Rattle.std.specs.Prelude.{◌≡◌, ◌≤◌, option_map, IfOk, IfErr};
ghost use Rattle.souper_graph.specs.PartsView.{view_parts};
ghost use Rattle.souper_widths.specs.View.{view_widths};
ghost use Rattle.souper_widths.specs.declared.flaws.WidthsError.TheVariants.{OutOfMemory};
ghost use Rattle.souper_meaning.specs.declared.plans.PlanError.TheVariants.{Untyped};
ghost use Rattle.souper_meaning.specs.declared.item_outcomes.EvalError.TheVariants.{NoPlan};
ghost use Rattle.souper_meaning.specs.Instructions.{operand_outcome};
ghost use Rattle.souper_meaning.specs.Worlds.{poison_inputs, IsWorld};
ghost use Rattle.souper_meaning.specs.View.{view_world};
ghost use Rattle.souper_meaning.specs.Statements.{outcome_in, AreOutcomes};
ghost use Rattle.souper_meaning.specs.Plans.{IsPlan};
ghost use Rattle.souper_meaning.specs.Evaluations.{left_root, right_root, IsEvaluationBy, IsEvaluation, IsEvalError};

use crate::conditions::meets;
use crate::evaluation::eval_into;
use crate::giving::first_ungiven;
use crate::operands::operand_outcome_of;
use crate::planning::plan;
use crate::plans::{Plan, PlanError};
use crate::worlds::{Mode, World};
use souper_graph::ast::{Ending, Id, Item, Operand, Parts, Statement};
use souper_widths::WidthsError;
use souper_words::Outcome;
use std::alloc::AllocError;

/// What an item gives in a world.
#[derive(Clone, Copy, Debug, PartialEq, Eq)]
pub struct Evaluation {
    /// The outcome of the left-hand side. A right-hand side alone has none.
    pub left: Option<Outcome>,

    /// The outcome of the right-hand side. A left-hand side alone has none.
    pub right: Option<Outcome>,

    /// Whether the world meets the facts of the inputs that the item needs, and its conditions.
    pub is_met: bool,
}

/// Why an item is not evaluated in a world.
#[derive(Clone, Copy, Debug, PartialEq, Eq)]
pub enum EvalError {
    /// No world of the item is evaluated, or an allocation failed.
    NoPlan(PlanError),

    /// The world is none of the item: the first statement that the item needs and the world does not give what it needs, a
    /// value of its width, a predecessor or a choice.
    NotAWorld(Id<Statement>),
}

impl From<AllocError> for EvalError {
    ghost from_gives = { λ _ error. error ≡ NoPlan (Untyped OutOfMemory) };

    fn from(_refused: AllocError) -> EvalError {
        EvalError::NoPlan(PlanError::Untyped(WidthsError::OutOfMemory))
    }
}

impl From<PlanError> for EvalError {
    ghost from_gives = { λ refused error. error ≡ NoPlan refused };

    fn from(refused: PlanError) -> EvalError {
        EvalError::NoPlan(refused)
    }
}

/// The root of the left-hand side.
fn left_root_of(parts: &Parts<'_>) -> Option<Operand>
    ensures { result ≡ left_root (view_parts parts.now).ending }
{
    match parts.ending {
        Ending::Infer(infer) => Some(Operand::Value(infer.value)),
        Ending::Result(_) => None,
        Ending::Replaced(infer, _) => Some(Operand::Value(infer.value)),
        Ending::Cand(cand) => Some(cand.lhs),
    }
}

/// The root of the right-hand side.
fn right_root_of(parts: &Parts<'_>) -> Option<Operand>
    ensures { result ≡ right_root (view_parts parts.now).ending }
{
    match parts.ending {
        Ending::Infer(_) => None,
        Ending::Result(result) => Some(*result),
        Ending::Replaced(_, result) => Some(*result),
        Ending::Cand(cand) => Some(cand.rhs),
    }
}

/// The outcome of a root of this width.
fn root_outcome_of(done: &[Outcome], width: u32, root: Option<Operand>) -> Option<Outcome>
    requires low { 1 ≤ width }
    requires high { width ≤ 128 }
    ensures { result ≡ option_map (operand_outcome (outcome_in done.now) width) root }
{
    match root {
        Some(operand) => Some(operand_outcome_of(done, width, operand)),
        None => None,
    }
}

/// What the item gives, by the outcomes of its statements.
pub(crate) fn evaluation_by(
    parts: &Parts<'_>,
    plan: &Plan,
    world: &World,
    outcomes: &[Outcome],
) -> Evaluation
    requires planned { IsPlan (view_parts parts.now) plan.now }
    requires world { IsWorld poison_inputs (view_parts parts.now) (view_widths plan.now.widths) (view_world world.now) }
    requires outcomes { AreOutcomes (view_parts parts.now) (view_widths plan.now.widths) (view_world world.now) outcomes.now }
    ensures { IsEvaluationBy (view_parts parts.now) (view_widths plan.now.widths) (view_world world.now) result }
{
    let width = plan.widths.root;
    let left = root_outcome_of(outcomes, width, left_root_of(parts));
    let right = root_outcome_of(outcomes, width, right_root_of(parts));
    let is_met = meets(parts, plan, world, outcomes);
    Evaluation {
        left,
        right,
        is_met,
    }
}

/// What the item of the plan gives, if the world is one of it.
fn planned_eval(parts: &Parts<'_>, plan: &Plan, world: &World) -> Result<Evaluation, EvalError>
    requires { IsPlan (view_parts parts.now) plan.now }
    ensures evaluated { IfOk result (λ found. IsEvaluation (view_parts parts.now) (view_world world.now) found) }
    ensures refused { IfErr result (λ error. IsEvalError (view_parts parts.now) (view_world world.now) error) }
{
    if let Some(id) = first_ungiven(parts, plan, world, Mode::PoisonInputs) {
        return Err(EvalError::NotAWorld(id));
    }
    let alloc = parts.statements.allocator();
    let mut outcomes = vec![in alloc; Outcome::Undefined; parts.statements.len()]?;
    eval_into(parts, plan, world, &mut outcomes);
    Ok(evaluation_by(parts, plan, world, &outcomes))
}

/// The outcomes of an item's roots in a world, and whether the world meets its facts and conditions. Inputs may be poison.
///
/// Of a replacement [`refines`](crate::refines) says whether the outcome on the right may stand for the one on the left.
///
/// Errors: `NoPlan` as [`plan`] refuses the item, whatever the world; `NotAWorld`.
pub fn eval<T: Item>(item: &T, world: &World) -> Result<Evaluation, EvalError>
    ensures evaluated { IfOk result (λ found. IsEvaluation (T.view item.now) (view_world world.now) found) }
    ensures refused { IfErr result (λ error. IsEvalError (T.view item.now) (view_world world.now) error) }
{
    let plan = plan(item)?;
    planned_eval(&item.parts(), &plan, world)
}
