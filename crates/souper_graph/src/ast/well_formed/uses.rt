//! The checks of a statement's uses by reason: whether each is earlier, and what is there.

ghost use Rattle.std.specs.Prelude.{◌≡◌, ◌↔◌, map, slice_get, IsTrue, MatchOption};
ghost use Rattle.std.specs.List.{AllByRecursion};
ghost use Rattle.souper_graph.specs.View.{view_statement};
ghost use Rattle.souper_graph.specs.Uses.{uses_of_operand, uses_of_operands};
ghost use Rattle.souper_graph.specs.WellFormed.{predecessors_at, IsAssigned, IsBlock, IsMet};
ghost use Rattle.souper_graph.specs.Flaws.{MeetsAlone, IsFirstFailing};
ghost use Rattle.souper_graph.specs.FlawSearch.{use_reasons};

use crate::ast::arenas::Arena;
use crate::ast::flaws::FlawReason;
use crate::ast::ids::{BlockId, ValueId};
use crate::ast::operands::Operand;
use crate::ast::statements::Statement;
use crate::ast::uses::Use;

#[tactic(auto, using(crate::proofs::Lookups::assigned_at))]
fn value_is_assigned(statements: &Arena<Statement>, value: ValueId) -> bool
    ensures { IsTrue result ↔ IsAssigned (slice_get (map view_statement statements.now) value) }
{
    statements.assignment(value).is_some()
}

fn operand_is_assigned(statements: &Arena<Statement>, operand: Operand) -> bool
    ensures { IsTrue result
        ↔ AllByRecursion (IsMet (map view_statement statements.now)) (uses_of_operand operand) }
{
    match operand {
        Operand::Value(value) => value_is_assigned(statements, value),
        Operand::Constant(_) => true,
    }
}

// Whether each operand is a constant or names an assignment.
pub(crate) fn operands_are_assigned(statements: &Arena<Statement>, operands: &[Operand]) -> bool
    ensures { IsTrue result
        ↔ AllByRecursion (IsMet (map view_statement statements.now)) (uses_of_operands operands.now) }
{
    for operand in operands {
        if !operand_is_assigned(statements, *operand) {
            return false;
        }
    }
    true
}

// The first reason that concerns the uses of a statement at the position: that one is of no lower position, or that a value
// is no assignment.
pub(crate) fn use_reason(
    statements: &Arena<Statement>,
    statement: &Statement,
    position: usize,
) -> Option<FlawReason>
    ensures { MatchOption result
        (AllByRecursion (MeetsAlone (map view_statement statements.now) position (view_statement statement.now)) use_reasons)
        (λ reason. IsFirstFailing (MeetsAlone (map view_statement statements.now) position (view_statement statement.now)) use_reasons reason) }
{
    let mut are_assigned = true;
    for used in statement.uses() {
        if used.position().index() >= position {
            return Some(FlawReason::UseBeforeDefinition);
        }
        if let Use::Value(value) = &used {
            if !value_is_assigned(statements, *value) {
                are_assigned = false;
            }
        }
    }
    if are_assigned {
        None
    } else {
        Some(FlawReason::NotAnAssignment)
    }
}

// The block's number of predecessors, or `None` if the position has no block.
#[tactic(auto, using(crate::proofs::Lookups::block_there))]
pub(crate) fn predecessors_of(statements: &Arena<Statement>, block: BlockId) -> Option<u32>
    ensures { MatchOption result (¬ IsBlock (slice_get (map view_statement statements.now) block)) (λ count. IsBlock (slice_get (map view_statement statements.now) block) × (count ≡ predecessors_at (map view_statement statements.now) block)) }
{
    Some(statements.block(block)?.predecessors)
}
