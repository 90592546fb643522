//! The outcomes of statements.

ghost use Rattle.std.specs.Prelude.{◌≡◌, ◌≤◌, slice_get};
ghost use Rattle.souper_graph.specs.View.{view_rhs, view_statement};
ghost use Rattle.souper_meaning.specs.Statements.{outcome_in, executed_outcome, rhs_outcome, outcome_by};
ghost use Rattle.souper_meaning.specs.Worlds.{predecessor_at};
ghost use Rattle.souper_meaning.specs.View.{view_world};
ghost use Rattle.souper_meaning.specs.Evaluable.{IsReadyRhs, IsReadyStatement};

use crate::operands::{executed_outcome_of, instruction_outcome_of};
use crate::worlds::World;
use souper_graph::ast::{AssignmentRhs, Id, Phi, Statement};
use souper_words::{Outcome, Widths};

/// The outcome of a phi, of the operand for the predecessor by which its block is reached.
fn phi_outcome_of(done: &[Outcome], width: u32, world: &World, phi: &Phi) -> Outcome
    requires low { 1 ≤ width }
    requires high { width ≤ 128 }
    ensures { result ≡ executed_outcome (outcome_in done.now) width (slice_get phi.now.values.items (predecessor_at (view_world world.now) phi.now.block)) }
{
    let block = Id::<Statement>::from(phi.block).index();
    let predecessor = world.predecessor(block) as usize;
    executed_outcome_of(done, width, &phi.values, predecessor)
}

/// The outcome of the right side of the assignment at a position.
fn rhs_outcome_of(
    done: &[Outcome],
    widths: Widths,
    world: &World,
    position: usize,
    rhs: &AssignmentRhs,
) -> Outcome
    requires { IsReadyRhs widths.result widths.operands (outcome_in done.now) (view_rhs rhs.now) }
    ensures { result ≡ rhs_outcome widths.result widths.operands (view_world world.now) position (outcome_in done.now) (view_rhs rhs.now) }
{
    match rhs {
        AssignmentRhs::Var => world.value(position),
        AssignmentRhs::ReservedInst => world.value(position),
        AssignmentRhs::ReservedConst => world.value(position),
        AssignmentRhs::Block(_) => Outcome::Number(0),
        AssignmentRhs::Phi(phi) => phi_outcome_of(done, widths.operands, world, phi),
        AssignmentRhs::Instruction(instruction) => {
            instruction_outcome_of(done, widths, world.choice(position), instruction)
        }
    }
}

/// The outcome of the statement at a position, by those of the statements below it. A condition has the outcome 0.
pub(crate) fn statement_outcome_of(
    done: &[Outcome],
    widths: Widths,
    world: &World,
    position: usize,
    statement: &Statement,
) -> Outcome
    requires { IsReadyStatement widths.result widths.operands (outcome_in done.now) (view_statement statement.now) }
    ensures { result ≡ outcome_by widths.result widths.operands (view_world world.now) position (outcome_in done.now) (view_statement statement.now) }
{
    match statement {
        Statement::Assignment(assignment) => {
            rhs_outcome_of(done, widths, world, position, &assignment.value)
        }
        Statement::Pc(_) | Statement::BlockPc(_) => Outcome::Number(0),
    }
}
