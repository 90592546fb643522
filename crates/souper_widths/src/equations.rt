//! The ties of each statement, by the table of widths.

ghost use Rattle.std.specs.Prelude.{◌≡◌, ◌+◌, ◌*◌, ◌<◌, ◌≤◌, ◌^◌, ◌++◌, flat_map, OnOk, length};
ghost use Rattle.std.specs.List.{AllByRecursion};
ghost use Rattle.souper_graph.specs.View.{view_statement};
ghost use Rattle.souper_widths.specs.Equations.{result_of, operands_at, type_equations, operand_equations};
ghost use Rattle.souper_widths.specs.Table.{row_of, row_equations, row_operands, operands_in, written_type};
ghost use Rattle.souper_widths.specs.Ties.{is_zero, tie_between, ties_of, statement_ties, operands_more, result_more, side_of, operand_tie, IsOperandBelow};

use crate::rows::{Row, statement_row};
use crate::ties::{Side, Tie};
use souper_graph::ast::{AssignmentRhs, Id, Operand, Statement, Type};
use std::alloc::AllocError;

// Appends the tie, but none if a side is 0, which is the width of no node.
#[inline(always)]
fn push_tie(ties: &mut Vec<Tie>, left: Side, right: Side, more: u16) -> Result<(), AllocError>
    ensures { OnOk result (ties.new.items ≡ ties.old.items ++ tie_between left right more) }
{
    if !side_is_zero(left) && !side_is_zero(right) {
        ties.push(Tie { left, right, more })?;
    }
    Ok(())
}

fn side_is_zero(side: Side) -> bool
    ensures { result ≡ is_zero side }
{
    match side {
        Side::Node(_) => false,
        Side::Number(number) => number == 0,
    }
}

// Appends the tie of an operand with a side.
#[inline(always)]
fn push_operand_tie(
    ties: &mut Vec<Tie>,
    operand: Operand,
    side: Side,
    more: u16,
    count: usize,
) -> Result<(), AllocError>
    requires below { IsOperandBelow count operand }
    requires fits { 2 * count < 2 ^ 64 }
    ensures { OnOk result (ties.new.items ≡ ties.old.items ++ operand_tie operand side more) }
{
    match operand {
        Operand::Value(id) => {
            let position = Id::<Statement>::from(id).index();
            push_tie(ties, Side::Node(2 * position), side, more)
        }
        Operand::Constant(constant) => match constant.ty {
            Some(ty) => {
                push_tie(
                    ties,
                    Side::Number(ty.width.saturating_sub(more)),
                    side,
                    more,
                )
            }
            None => Ok(()),
        },
    }
}

// Appends the ties of operands with a side.
#[inline(always)]
pub(crate) fn push_operand_ties(
    ties: &mut Vec<Tie>,
    operands: &[Operand],
    side: Side,
    more: u16,
    count: usize,
) -> Result<(), AllocError>
    requires below { AllByRecursion (IsOperandBelow count) operands.now }
    requires fits { 2 * count < 2 ^ 64 }
    ensures { OnOk result (ties.new.items ≡ ties.old.items ++ flat_map (λ x. operand_tie x side more) operands.now) }
{
    for operand in operands {
        push_operand_tie(ties, *operand, side, more, count)?;
    }
    Ok(())
}

// Appends the ties of a row at a position. Its operands' ties are appended elsewhere.
#[inline(always)]
fn push_row_ties(ties: &mut Vec<Tie>, position: usize, row: Row) -> Result<(), AllocError>
    requires fits { 2 * position + 1 < 2 ^ 64 }
    ensures { OnOk result (ties.new.items ≡ ties.old.items ++ flat_map (ties_of 0 row) (row_equations position row)) }
{
    let own = Side::Node(2 * position);
    let operands = Side::Node(2 * position + 1);
    match row {
        Row::Input | Row::Block | Row::Resized | Row::BadPart | Row::Condition => Ok(()),
        Row::Phi | Row::Same | Row::Select => push_tie(ties, own, operands, 0),
        Row::Pair | Row::Number => push_tie(ties, own, operands, 1),
        Row::Bit | Row::Overflow => push_tie(ties, own, Side::Number(1), 0),
    }
}

fn result_is_wider(row: Row) -> u16
    ensures { result ≡ result_more row }
{
    match row {
        Row::Pair => 1,
        _ => 0,
    }
}

// Appends the tie of a written type.
#[inline(always)]
fn push_type_tie(
    ties: &mut Vec<Tie>,
    position: usize,
    row: Row,
    ty: Option<Type>,
) -> Result<(), AllocError>
    requires fits { 2 * position + 1 < 2 ^ 64 }
    ensures { OnOk result (ties.new.items ≡ ties.old.items ++ flat_map (ties_of 0 row) (type_equations ty (result_of position))) }
{
    match ty {
        Some(ty) => {
            let more = result_is_wider(row);
            let width = Side::Number(ty.width.saturating_sub(more));
            push_tie(ties, Side::Node(2 * position), width, more)
        }
        None => Ok(()),
    }
}

// Appends the ties of the operands of a row.
#[inline(always)]
fn push_row_operands(
    ties: &mut Vec<Tie>,
    position: usize,
    row: Row,
    operands: &[Operand],
    count: usize,
) -> Result<(), AllocError>
    requires below { AllByRecursion (IsOperandBelow count) operands.now }
    requires fits { 2 * count < 2 ^ 64 }
    requires within { position < count }
    ensures { OnOk result (ties.new.items ≡ ties.old.items ++ flat_map (ties_of 0 row) (flat_map operand_equations (row_operands position row operands.now))) }
{
    let side = Side::Node(2 * position + 1);
    match row {
        Row::BadPart => Ok(()),
        Row::Number | Row::Overflow => match operands.split_first() {
            Some((pair, _)) => push_operand_tie(ties, *pair, side, 1, count),
            None => Ok(()),
        },
        Row::Select => match operands.split_first() {
            Some((condition, arms)) => {
                push_operand_tie(ties, *condition, Side::Number(1), 0, count)?;
                push_operand_ties(ties, arms, side, 0, count)
            }
            None => Ok(()),
        },
        _ => push_operand_ties(ties, operands, side, 0, count),
    }
}

#[inline(always)]
fn push_statement_operands(
    ties: &mut Vec<Tie>,
    position: usize,
    statement: &Statement,
    count: usize,
) -> Result<(), AllocError>
    requires below { AllByRecursion (IsOperandBelow count) (operands_in (view_statement statement.now)) }
    requires fits { 2 * count < 2 ^ 64 }
    requires within { position < count }
    ensures { OnOk result (ties.new.items ≡ ties.old.items ++ flat_map (ties_of 0 (row_of (view_statement statement.now))) (flat_map operand_equations (row_operands position (row_of (view_statement statement.now)) (operands_in (view_statement statement.now))))) }
{
    let row = statement_row(statement);
    match statement {
        Statement::Assignment(assignment) => match &assignment.value {
            AssignmentRhs::Phi(phi) => {
                push_row_operands(ties, position, row, &phi.values, count)
            }
            AssignmentRhs::Instruction(instruction) => {
                let operands = instruction.operands();
                push_row_operands(ties, position, row, operands.as_slice(), count)
            }
            AssignmentRhs::Var
            | AssignmentRhs::Block(_)
            | AssignmentRhs::ReservedInst
            | AssignmentRhs::ReservedConst => Ok(()),
        },
        Statement::Pc(pc) => push_row_operands(ties, position, row, &[pc.x, pc.y], count),
        Statement::BlockPc(pc) => push_row_operands(ties, position, row, &[pc.x, pc.y], count),
    }
}

pub(crate) fn type_of(statement: &Statement) -> Option<Type>
    ensures { result ≡ written_type (view_statement statement.now) }
{
    match statement {
        Statement::Assignment(assignment) => assignment.ty,
        Statement::Pc(_) | Statement::BlockPc(_) => None,
    }
}

// Appends the ties of the statement at a position: of its type, of its row, of its operands.
pub(crate) fn push_statement_ties(
    ties: &mut Vec<Tie>,
    position: usize,
    statement: &Statement,
    count: usize,
) -> Result<(), AllocError>
    requires below { AllByRecursion (IsOperandBelow count) (operands_in (view_statement statement.now)) }
    requires fits { 2 * count < 2 ^ 64 }
    requires within { position < count }
    ensures { OnOk result (ties.new.items ≡ ties.old.items ++ statement_ties position (view_statement statement.now)) }
{
    let row = statement_row(statement);
    push_type_tie(ties, position, row, type_of(statement))?;
    push_row_ties(ties, position, row)?;
    push_statement_operands(ties, position, statement, count)
}
