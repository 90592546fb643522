//! The names that are written for ids.

ghost use Rattle.std.specs.Prelude.{◌≡◌, ◌∷◌, [], map, OnOk, IfOk, IfErr};
ghost use Rattle.souper_graph.specs.View.{view_statement};
ghost use Rattle.souper_graph.specs.Uses.{value_use, block_use};
ghost use Rattle.souper_graph.specs.Text.{name_at};
ghost use Rattle.souper_graph.specs.Faults.{IsFaultAmong};
ghost use Rattle.souper_graph.specs.WellFormed.{IsMet};

use crate::ast::{Arena, AssignmentRhs, BlockId, Id, Statement, ValueId};
use crate::stringify::errors::TextError;

pub(crate) fn name_of_value(
    statements: &Arena<Statement>,
    value: ValueId,
) -> Result<&str, TextError>
    ensures met { OnOk result (IsMet (map view_statement statements.now) (value_use value)) }
    ensures name { IfOk result (λ name. name.now ≡ name_at (map view_statement statements.now) value) }
    ensures refused { IfErr result (λ error. IsFaultAmong (map view_statement statements.now) (value_use value ∷ []) error) }
{
    let id = Id::from(value);
    match statements.get(id) {
        None => Err(TextError::OutOfRange(id)),
        Some(Statement::Assignment(assignment)) => Ok(&assignment.name),
        Some(Statement::Pc(_)) => Err(TextError::NotAnAssignment(id)),
        Some(Statement::BlockPc(_)) => Err(TextError::NotAnAssignment(id)),
    }
}

pub(crate) fn name_of_block(
    statements: &Arena<Statement>,
    block: BlockId,
) -> Result<&str, TextError>
    ensures met { OnOk result (IsMet (map view_statement statements.now) (block_use block)) }
    ensures name { IfOk result (λ name. name.now ≡ name_at (map view_statement statements.now) block) }
    ensures refused { IfErr result (λ error. IsFaultAmong (map view_statement statements.now) (block_use block ∷ []) error) }
{
    let id = Id::from(block);
    match statements.get(id) {
        None => Err(TextError::OutOfRange(id)),
        Some(Statement::Assignment(assignment)) => match assignment.value {
            AssignmentRhs::Block(_) => Ok(&assignment.name),
            _ => Err(TextError::NotABlock(id)),
        },
        Some(Statement::Pc(_)) => Err(TextError::NotABlock(id)),
        Some(Statement::BlockPc(_)) => Err(TextError::NotABlock(id)),
    }
}
