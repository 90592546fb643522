//! The first reason for which a statement or a last line is not well formed.

ghost use Rattle.std.specs.Prelude.{◌↔◌, map, slice_get, IsTrue, MatchOption};
ghost use Rattle.std.specs.List.{AllByRecursion};
ghost use Rattle.souper_graph.specs.View.{view_root_attribute, view_statement};
ghost use Rattle.souper_graph.specs.Flaws.{HasValidName, HasValidBits, HasValidWidths, MeetsAlone, LineMeets, reasons_alone, reasons, IsFirstFailing};
ghost use Rattle.souper_graph.specs.FlawSearch.{block_reasons, MeetsBlock, StatementMeetsAlone};

use crate::ast::arenas::Arena;
use crate::ast::attributes::RootAttribute;
use crate::ast::flaws::FlawReason;
use crate::ast::ids::Id;
use crate::ast::operands::Operand;
use crate::ast::statements::{AssignmentRhs, Statement};
use crate::ast::well_formed::fitting::{
    attributes_fit, is_name, operand_fits, operands_fit, optional_type_fits, rhs_fits,
    root_attributes_fit,
};
use crate::ast::well_formed::uses::{operands_are_assigned, predecessors_of, use_reason};

fn name_is_valid(statement: &Statement) -> bool
    ensures { IsTrue result ↔ HasValidName (view_statement statement.now) }
{
    match statement {
        Statement::Assignment(assignment) => is_name(&assignment.name),
        Statement::Pc(_) | Statement::BlockPc(_) => true,
    }
}

fn bits_are_valid(statement: &Statement) -> bool
    ensures { IsTrue result ↔ HasValidBits (view_statement statement.now) }
{
    match statement {
        Statement::Assignment(assignment) => attributes_fit(&assignment.attributes),
        Statement::Pc(_) | Statement::BlockPc(_) => true,
    }
}

fn widths_are_valid(statement: &Statement) -> bool
    ensures { IsTrue result ↔ HasValidWidths (view_statement statement.now) }
{
    match statement {
        Statement::Assignment(assignment) => {
            optional_type_fits(assignment.ty) && rhs_fits(&assignment.value)
        }
        Statement::Pc(pc) => operand_fits(pc.x) && operand_fits(pc.y),
        // Any predecessor is valid by itself. The read shows the proof that it is a number of its type.
        Statement::BlockPc(pc) => {
            let _predecessor = pc.predecessor;
            operand_fits(pc.x) && operand_fits(pc.y)
        }
    }
}

// The first reason that concerns the block of the statement.
fn block_reason(statements: &Arena<Statement>, statement: &Statement) -> Option<FlawReason>
    ensures { MatchOption result
        (AllByRecursion (MeetsBlock (map view_statement statements.now) (view_statement statement.now)) block_reasons)
        (λ reason. IsFirstFailing (MeetsBlock (map view_statement statements.now) (view_statement statement.now)) block_reasons reason) }
{
    match statement {
        Statement::Assignment(assignment) => match &assignment.value {
            AssignmentRhs::Phi(phi) => match predecessors_of(statements, phi.block) {
                Some(count) if phi.values.len() == count as usize => None,
                Some(_) => Some(FlawReason::ValueCount),
                None => Some(FlawReason::NotABlock),
            },
            AssignmentRhs::Var
            | AssignmentRhs::Block(_)
            | AssignmentRhs::ReservedInst
            | AssignmentRhs::ReservedConst
            | AssignmentRhs::Instruction(_) => None,
        },
        Statement::Pc(_) => None,
        Statement::BlockPc(pc) => match predecessors_of(statements, pc.block) {
            Some(count) if pc.predecessor < count => None,
            Some(_) => Some(FlawReason::PredecessorOutOfRange),
            None => Some(FlawReason::NotABlock),
        },
    }
}

// The first reason of the statement at this position, whatever names other statements have.
fn reason_alone(
    statements: &Arena<Statement>,
    statement: &Statement,
    position: usize,
) -> Option<FlawReason>
    ensures { MatchOption result
        (AllByRecursion (MeetsAlone (map view_statement statements.now) position (view_statement statement.now)) reasons_alone)
        (λ reason. IsFirstFailing (MeetsAlone (map view_statement statements.now) position (view_statement statement.now)) reasons_alone reason) }
{
    if !name_is_valid(statement) {
        return Some(FlawReason::InvalidName);
    }
    if !bits_are_valid(statement) {
        return Some(FlawReason::EmptyBits);
    }
    if !widths_are_valid(statement) {
        return Some(FlawReason::ZeroWidth);
    }
    match use_reason(statements, statement, position) {
        Some(reason) => Some(reason),
        None => block_reason(statements, statement),
    }
}

// The first reason of the statement at the position, whatever names other statements have; `None` if there is no
// statement.
pub(crate) fn statement_reason(
    statements: &Arena<Statement>,
    id: Id<Statement>,
) -> Option<FlawReason>
    ensures { MatchOption result
        (AllByRecursion (StatementMeetsAlone (map view_statement statements.now) id (slice_get (map view_statement statements.now) id)) reasons_alone)
        (λ reason. IsFirstFailing (StatementMeetsAlone (map view_statement statements.now) id (slice_get (map view_statement statements.now) id)) reasons_alone reason) }
{
    match statements.get(id) {
        Some(statement) => reason_alone(statements, statement, id.index()),
        None => None,
    }
}

// The first reason of a last line with these operands and attributes.
pub(crate) fn line_reason(
    statements: &Arena<Statement>,
    operands: &[Operand],
    attributes: &[RootAttribute],
) -> Option<FlawReason>
    ensures { MatchOption result
        (AllByRecursion (LineMeets (map view_statement statements.now) operands.now (map view_root_attribute attributes.now)) reasons)
        (λ reason. IsFirstFailing (LineMeets (map view_statement statements.now) operands.now (map view_root_attribute attributes.now)) reasons reason) }
{
    if !root_attributes_fit(attributes) {
        return Some(FlawReason::EmptyBits);
    }
    if !operands_fit(operands) {
        return Some(FlawReason::ZeroWidth);
    }
    if !operands_are_assigned(statements, operands) {
        return Some(FlawReason::NotAnAssignment);
    }
    None
}
