//! The shape of an item: what it must be before widths are asked for.

ghost use Rattle.std.specs.Prelude.{◌↔◌, map, IsTrue, MatchOption};
ghost use Rattle.std.specs.List.{AllByRecursion};
ghost use Rattle.souper_graph.specs.View.{view_attribute, view_rhs, view_statement};
ghost use Rattle.souper_widths.specs.Table.{row_of, operands_in, written_type};
ghost use Rattle.souper_widths.specs.Shape.{IsPairRow, HasNoType, ShapedStatement, ShapedLine, shape_reasons, IsInput, IsFact, HasOwnFacts, IsBlockOperand, IsPairOperand, TakesPair, single_operands, ShapedOperands, operand_reasons};
ghost use Rattle.souper_widths.specs.Flaws.{IsFirstFailing};

use crate::flaws::WidthReason;
use crate::rows::{Row, statement_row};
use souper_graph::ast::{Arena, AssignmentRhs, Attribute, Id, Operand, Statement};

pub(crate) fn is_input(rhs: &AssignmentRhs) -> bool
    ensures { IsTrue result ↔ IsInput (view_rhs rhs.now) }
{
    match rhs {
        AssignmentRhs::Var | AssignmentRhs::ReservedInst | AssignmentRhs::ReservedConst => true,
        AssignmentRhs::Block(_) | AssignmentRhs::Phi(_) | AssignmentRhs::Instruction(_) => false,
    }
}

fn is_fact(attribute: &Attribute) -> bool
    ensures { IsTrue result ↔ IsFact (view_attribute attribute.now) }
{
    match attribute {
        Attribute::HasExternalUses => false,
        Attribute::KnownBits(_)
        | Attribute::PowerOfTwo
        | Attribute::Negative
        | Attribute::NonNegative
        | Attribute::NonZero
        | Attribute::SignBits(_)
        | Attribute::Range(_, _) => true,
    }
}

fn is_block_operand(statements: &Arena<Statement>, operand: Operand) -> bool
    ensures { IsTrue result ↔ IsBlockOperand (map view_statement statements.now) operand }
{
    match operand {
        Operand::Value(id) => match statements.get(Id::from(id)) {
            Some(statement) => match statement {
                Statement::Assignment(assignment) => match &assignment.value {
                    AssignmentRhs::Block(_) => true,
                    _ => false,
                },
                Statement::Pc(_) | Statement::BlockPc(_) => false,
            },
            None => false,
        },
        Operand::Constant(_) => false,
    }
}

pub(crate) fn is_pair(statement: &Statement) -> bool
    ensures { IsTrue result ↔ IsPairRow (row_of (view_statement statement.now)) }
{
    match statement_row(statement) {
        Row::Pair => true,
        _ => false,
    }
}

fn is_pair_operand(statements: &Arena<Statement>, operand: Operand) -> bool
    ensures { IsTrue result ↔ IsPairOperand (map view_statement statements.now) operand }
{
    match operand {
        Operand::Value(id) => match statements.get(Id::from(id)) {
            Some(statement) => is_pair(statement),
            None => false,
        },
        Operand::Constant(_) => false,
    }
}

fn has_no_block(statements: &Arena<Statement>, operands: &[Operand]) -> bool
    ensures { IsTrue result ↔ AllByRecursion (λ x. ¬ IsBlockOperand (map view_statement statements.now) x) operands.now }
{
    for operand in operands {
        if is_block_operand(statements, *operand) {
            return false;
        }
    }
    true
}

fn has_no_pair(statements: &Arena<Statement>, operands: &[Operand]) -> bool
    ensures { IsTrue result ↔ AllByRecursion (λ x. ¬ IsPairOperand (map view_statement statements.now) x) operands.now }
{
    for operand in operands {
        if is_pair_operand(statements, *operand) {
            return false;
        }
    }
    true
}

// The first operand of extractvalue is a pair.
fn takes_pair(statements: &Arena<Statement>, row: Row, operands: &[Operand]) -> bool
    ensures { IsTrue result ↔ TakesPair (map view_statement statements.now) row operands.now }
{
    match row {
        Row::Number | Row::Overflow | Row::BadPart => match operands.split_first() {
            Some((first, _)) => is_pair_operand(statements, *first),
            None => true,
        },
        _ => true,
    }
}

// The operands that may be no pair are none.
fn has_single_operands(statements: &Arena<Statement>, row: Row, operands: &[Operand]) -> bool
    ensures { IsTrue result ↔ AllByRecursion (λ x. ¬ IsPairOperand (map view_statement statements.now) x) (single_operands row operands.now) }
{
    match row {
        Row::Number | Row::Overflow | Row::BadPart => match operands.split_first() {
            Some((_, rest)) => has_no_pair(statements, rest),
            None => true,
        },
        _ => has_no_pair(statements, operands),
    }
}

// The first reason of the operands of a row. A last line has those of a path condition.
pub(crate) fn operands_reason(
    statements: &Arena<Statement>,
    row: Row,
    operands: &[Operand],
) -> Option<WidthReason>
    ensures { MatchOption result
        (AllByRecursion (ShapedOperands (map view_statement statements.now) row operands.now) operand_reasons)
        (λ reason. IsFirstFailing (ShapedOperands (map view_statement statements.now) row operands.now) operand_reasons reason) }
{
    if !has_no_block(statements, operands) {
        return Some(WidthReason::BlockAsValue);
    }
    if !has_single_operands(statements, row, operands) {
        return Some(WidthReason::PairAsValue);
    }
    if !takes_pair(statements, row, operands) {
        return Some(WidthReason::NotAPair);
    }
    match row {
        Row::BadPart => Some(WidthReason::BadIndex),
        _ => None,
    }
}

// Facts are about an input alone.
pub(crate) fn facts_are_allowed(attributes: &[Attribute], is_input: bool) -> bool
    ensures { IsTrue result ↔ AllByRecursion (λ f. IsFact f → IsTrue is_input) (map view_attribute attributes.now) }
{
    for attribute in attributes {
        if is_fact(attribute) && !is_input {
            return false;
        }
    }
    true
}

fn has_own_facts(statement: &Statement) -> bool
    ensures { IsTrue result ↔ HasOwnFacts (view_statement statement.now) }
{
    match statement {
        Statement::Assignment(assignment) => {
            let input = is_input(&assignment.value);
            facts_are_allowed(&assignment.attributes, input)
        }
        Statement::Pc(_) | Statement::BlockPc(_) => true,
    }
}

fn has_no_type(statement: &Statement) -> bool
    ensures { IsTrue result ↔ HasNoType (row_of (view_statement statement.now)) (written_type (view_statement statement.now)) }
{
    match statement {
        Statement::Assignment(assignment) => match &assignment.value {
            AssignmentRhs::Block(_) => assignment.ty.is_none(),
            _ => true,
        },
        Statement::Pc(_) | Statement::BlockPc(_) => true,
    }
}

// The first reason of the operands of the statement.
fn statement_operands_reason(
    statements: &Arena<Statement>,
    statement: &Statement,
) -> Option<WidthReason>
    ensures { MatchOption result
        (AllByRecursion (ShapedOperands (map view_statement statements.now) (row_of (view_statement statement.now)) (operands_in (view_statement statement.now))) operand_reasons)
        (λ reason. IsFirstFailing (ShapedOperands (map view_statement statements.now) (row_of (view_statement statement.now)) (operands_in (view_statement statement.now))) operand_reasons reason) }
{
    let row = statement_row(statement);
    match statement {
        Statement::Assignment(assignment) => match &assignment.value {
            AssignmentRhs::Phi(phi) => operands_reason(statements, row, &phi.values),
            AssignmentRhs::Instruction(instruction) => {
                let operands = instruction.operands();
                operands_reason(statements, row, operands.as_slice())
            }
            AssignmentRhs::Var
            | AssignmentRhs::Block(_)
            | AssignmentRhs::ReservedInst
            | AssignmentRhs::ReservedConst => None,
        },
        Statement::Pc(pc) => operands_reason(statements, row, &[pc.x, pc.y]),
        Statement::BlockPc(pc) => operands_reason(statements, row, &[pc.x, pc.y]),
    }
}

// The first reason of the statement.
pub(crate) fn shape_reason(
    statements: &Arena<Statement>,
    statement: &Statement,
) -> Option<WidthReason>
    ensures { MatchOption result
        (AllByRecursion (ShapedStatement (map view_statement statements.now) (view_statement statement.now)) shape_reasons)
        (λ reason. IsFirstFailing (ShapedStatement (map view_statement statements.now) (view_statement statement.now)) shape_reasons reason) }
{
    if !has_no_type(statement) {
        return Some(WidthReason::TypedBlock);
    }
    if !has_own_facts(statement) {
        return Some(WidthReason::FactOnComputed);
    }
    statement_operands_reason(statements, statement)
}

// The first reason of a last line with these operands.
pub(crate) fn line_shape_reason(
    statements: &Arena<Statement>,
    operands: &[Operand],
) -> Option<WidthReason>
    ensures { MatchOption result
        (AllByRecursion (ShapedLine (map view_statement statements.now) operands.now) shape_reasons)
        (λ reason. IsFirstFailing (ShapedLine (map view_statement statements.now) operands.now) shape_reasons reason) }
{
    operands_reason(statements, Row::Condition, operands)
}
