//! Whether a world meets the facts and conditions of an item.

ghost use Rattle.std.specs.Prelude.{◌≡◌, ◌≢◌, ◌↔◌, ◌≤◌, ◌⊎◌, map, IsTrue};
ghost use Rattle.souper_graph.specs.View.{view_attribute, view_rhs, view_statement};
ghost use Rattle.souper_graph.specs.PartsView.{view_parts};
ghost use Rattle.souper_graph.specs.Uses.{NeededIn};
ghost use Rattle.souper_widths.specs.View.{view_widths};
ghost use Rattle.souper_widths.specs.Shape.{IsInput};
ghost use Rattle.souper_meaning.specs.Worlds.{predecessor_at, poison_inputs, IsWorld};
ghost use Rattle.souper_meaning.specs.View.{view_world};
ghost use Rattle.souper_meaning.specs.Statements.{outcome_in, AreOutcomes};
ghost use Rattle.souper_meaning.specs.Evaluable.{AreTestable, IsTestableRhs, IsTestable};
ghost use Rattle.souper_meaning.specs.Sound.{MeetsFacts, MeetsRhs, AreEqual, MeetsStatement, MeetsAt, Meets};
ghost use Rattle.souper_meaning.specs.Plans.{IsPlan};

use crate::evaluation::{is_needed_at, widths_at};
use crate::facts::hold_of;
use crate::operands::operand_outcome_of;
use crate::plans::Plan;
use crate::refining::are_one_number;
use crate::worlds::World;
use souper_graph::ast::{
    Assignment, AssignmentRhs, Attribute, BlockPc, Id, Operand, Parts, Statement,
};
use souper_words::{Outcome, Widths};

/// Whether an input meets its facts. A poison one does.
fn meets_facts(attributes: &[Attribute], value: Outcome, width: u32) -> bool
    requires { AreTestable width value (map view_attribute attributes.now) }
    ensures { IsTrue result ↔ MeetsFacts width value (map view_attribute attributes.now) }
{
    match value {
        Outcome::Number(n) => hold_of(attributes, n, width),
        Outcome::Poison => true,
        Outcome::Undefined => true,
    }
}

/// Whether the right side is an input.
fn is_input_rhs(rhs: &AssignmentRhs) -> bool
    ensures { IsTrue result ↔ IsInput (view_rhs rhs.now) }
{
    match rhs {
        AssignmentRhs::Var => true,
        AssignmentRhs::ReservedInst => true,
        AssignmentRhs::ReservedConst => true,
        AssignmentRhs::Block(_) => false,
        AssignmentRhs::Phi(_) => false,
        AssignmentRhs::Instruction(_) => false,
    }
}

/// Whether an assignment of this value meets its facts.
fn assignment_is_met(assignment: &Assignment, value: Outcome, width: u32) -> bool
    requires { IsTestableRhs width value (map view_attribute assignment.now.attributes.items) (view_rhs assignment.now.value) }
    ensures { IsTrue result ↔ MeetsRhs width value (map view_attribute assignment.now.attributes.items) (view_rhs assignment.now.value) }
{
    let is_input = is_input_rhs(&assignment.value);
    if !is_input {
        return true;
    }
    meets_facts(&assignment.attributes, value, width)
}

/// Whether two operands of this width are one number.
fn are_equal(done: &[Outcome], width: u32, x: Operand, y: Operand) -> bool
    requires low { 1 ≤ width }
    requires high { width ≤ 128 }
    ensures { IsTrue result ↔ AreEqual (outcome_in done.now) width x y }
{
    let first = operand_outcome_of(done, width, x);
    let second = operand_outcome_of(done, width, y);
    are_one_number(first, second)
}

/// Whether the block is reached by the predecessor of a condition.
fn is_reached_by(world: &World, pc: &BlockPc) -> bool
    ensures { IsTrue result ↔ (predecessor_at (view_world world.now) pc.now.block ≡ pc.now.predecessor) }
{
    let block = Id::<Statement>::from(pc.block).index();
    world.predecessor(block) == pc.predecessor
}

/// Whether a condition on a predecessor is met.
fn block_condition_is_met(done: &[Outcome], width: u32, world: &World, pc: &BlockPc) -> bool
    requires low { 1 ≤ width }
    requires high { width ≤ 128 }
    ensures { IsTrue result ↔ (predecessor_at (view_world world.now) pc.now.block ≢ pc.now.predecessor) ⊎ AreEqual (outcome_in done.now) width pc.now.x pc.now.y }
{
    let is_reached = is_reached_by(world, pc);
    if !is_reached {
        return true;
    }
    are_equal(done, width, pc.x, pc.y)
}

/// Whether the facts and the condition of the statement at a position are met.
fn statement_is_met(
    done: &[Outcome],
    widths: Widths,
    world: &World,
    position: usize,
    statement: &Statement,
) -> bool
    requires { IsTestable widths.result widths.operands (view_world world.now) position (view_statement statement.now) }
    ensures { IsTrue result ↔ MeetsStatement widths.result widths.operands (view_world world.now) (outcome_in done.now) position (Some (view_statement statement.now)) }
{
    match statement {
        Statement::Assignment(assignment) => {
            assignment_is_met(assignment, world.value(position), widths.result)
        }
        Statement::Pc(pc) => are_equal(done, widths.operands, pc.x, pc.y),
        Statement::BlockPc(pc) => block_condition_is_met(done, widths.operands, world, pc),
    }
}

/// Whether the facts and the condition of the statement at a position are met, if the item needs it.
fn is_met_at(
    parts: &Parts<'_>,
    plan: &Plan,
    world: &World,
    outcomes: &[Outcome],
    position: usize,
) -> bool
    requires planned { IsPlan (view_parts parts.now) plan.now }
    requires world { IsWorld poison_inputs (view_parts parts.now) (view_widths plan.now.widths) (view_world world.now) }
    requires outcomes { AreOutcomes (view_parts parts.now) (view_widths plan.now.widths) (view_world world.now) outcomes.now }
    ensures { IsTrue result ↔ (NeededIn (view_parts parts.now) position → MeetsAt (view_parts parts.now) (view_widths plan.now.widths) (view_world world.now) position) }
{
    let is_needed = is_needed_at(plan, position);
    if !is_needed {
        return true;
    }
    match parts.statements.get(Id::at(position)) {
        Some(statement) => {
            let widths = widths_at(plan, position);
            statement_is_met(outcomes, widths, world, position, statement)
        }
        None => true,
    }
}

/// Whether the world meets the facts of the inputs that the item needs, and the conditions.
pub fn meets(parts: &Parts<'_>, plan: &Plan, world: &World, outcomes: &[Outcome]) -> bool
    requires planned { IsPlan (view_parts parts.now) plan.now }
    requires world { IsWorld poison_inputs (view_parts parts.now) (view_widths plan.now.widths) (view_world world.now) }
    requires outcomes { AreOutcomes (view_parts parts.now) (view_widths plan.now.widths) (view_world world.now) outcomes.now }
    ensures { IsTrue result ↔ Meets (view_parts parts.now) (view_widths plan.now.widths) (view_world world.now) }
{
    for position in 0..parts.statements.len() {
        let is_met = is_met_at(parts, plan, world, outcomes, position);
        if !is_met {
            return false;
        }
    }
    true
}
