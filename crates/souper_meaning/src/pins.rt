//! Conditions that compare an input with a constant.

ghost use Rattle.std.specs.Prelude.{◌≡◌, ◌<◌, ℕ, length, Some, slice_get, slice_index_or, IfOk};
ghost use Rattle.souper_graph.specs.Instructions.{operands_of};
ghost use Rattle.souper_graph.specs.View.{view_rhs, view_statement};
ghost use Rattle.souper_graph.specs.PartsView.{view_parts};
ghost use Rattle.souper_widths.specs.View.{view_widths};
ghost use Rattle.souper_widths.specs.Maps.{result_width};
ghost use Rattle.souper_meaning.specs.Pins.{bits, unsaid, strictly, at_most, compared, decided, pin_at, pin_of_operands, equal_pin, pin_of_rhs as pin_by_rhs, pin_of_statement, pin_of_pc, pin_of as pin_by_statement, pinned_by, numbers_at};

use crate::evaluation::widths_at;
use crate::operands::operand_at;
use crate::plans::Plan;
use crate::spans::{Span, low_bits, sum};
use souper_graph::ast::{AssignmentRhs, Id, Instruction, Operand, Parts, Statement};
use std::alloc::AllocError;

/// What a condition says of the value at a position.
#[derive(Clone, Copy)]
pub(crate) struct Pin {
    pub(crate) position: usize,
    pub(crate) numbers: Span,
}

/// A comparison of a value with a constant.
#[derive(Clone, Copy)]
struct Comparison {
    position: usize,
    constant: i128,

    /// Whether the constant stands on the right.
    is_right: bool,
}

/// The bits of a constant.
fn bits_of(constant: i128, width: u32) -> u128
    ensures { result ≡ bits width constant }
{
    low_bits(constant.cast_unsigned(), width)
}

/// The numbers that are less than n, or greater if n stands on the left.
fn strictly_beside(least: u128, n: u128, is_right: bool, width: u32) -> Span
    ensures { result ≡ strictly width least is_right n }
{
    if is_right {
        Span {
            first: least,
            end: n,
        }
    } else {
        Span {
            first: sum(n, 1, width),
            end: least,
        }
    }
}

/// The numbers that are at most n, or at least n if n stands on the left.
fn beside(least: u128, n: u128, is_right: bool, width: u32) -> Span
    ensures { result ≡ at_most width least is_right n }
{
    if is_right {
        Span {
            first: least,
            end: sum(n, 1, width),
        }
    } else {
        Span {
            first: n,
            end: least,
        }
    }
}

/// The numbers for which the comparison with n holds.
fn compared_with(instruction: &Instruction, n: u128, is_right: bool, width: u32) -> Span
    ensures { result ≡ compared width is_right n instruction.now }
{
    let least = 1u128 << width.saturating_sub(1).min(127);
    match instruction {
        Instruction::Eq { .. } => Span {
            first: n,
            end: sum(n, 1, width),
        },
        Instruction::Ne { .. } => Span {
            first: sum(n, 1, width),
            end: n,
        },
        Instruction::Ult { .. } => strictly_beside(0, n, is_right, width),
        Instruction::Ule { .. } => beside(0, n, is_right, width),
        Instruction::Slt { .. } => strictly_beside(least, n, is_right, width),
        Instruction::Sle { .. } => beside(least, n, is_right, width),
        _ => Span { first: 0, end: 0 },
    }
}

/// The numbers, or all others.
fn decided_by(holds: bool, numbers: Span) -> Span
    ensures { result ≡ decided holds numbers }
{
    if holds {
        numbers
    } else {
        Span {
            first: numbers.end,
            end: numbers.first,
        }
    }
}

/// The pin of a comparison that is to be this constant.
fn pin_by(plan: &Plan, instruction: &Instruction, wanted: i128, comparison: Comparison) -> Pin
    ensures { result ≡ pin_at (view_widths plan.now.widths) wanted instruction.now comparison.position comparison.is_right comparison.constant }
{
    let width = widths_at(plan, comparison.position).result;
    let n = bits_of(comparison.constant, width);
    let numbers = compared_with(instruction, n, comparison.is_right, width);
    Pin {
        position: comparison.position,
        numbers: decided_by(wanted.cast_unsigned() % 2 == 1, numbers),
    }
}

/// The pin of a comparison of two operands that is to be this constant, if one is a value and the other a constant.
fn pin_of_both(
    plan: &Plan,
    instruction: &Instruction,
    wanted: i128,
    first: Operand,
    second: Operand,
) -> Option<Pin>
    ensures { result ≡ pin_of_operands (view_widths plan.now.widths) wanted instruction.now (Some first) (Some second) }
{
    match first {
        Operand::Value(id) => match second {
            Operand::Value(_) => None,
            Operand::Constant(constant) => {
                let comparison = Comparison {
                    position: Id::<Statement>::from(id).index(),
                    constant: constant.value,
                    is_right: true,
                };
                Some(pin_by(plan, instruction, wanted, comparison))
            }
        },
        Operand::Constant(constant) => match second {
            Operand::Value(id) => {
                let comparison = Comparison {
                    position: Id::<Statement>::from(id).index(),
                    constant: constant.value,
                    is_right: false,
                };
                Some(pin_by(plan, instruction, wanted, comparison))
            }
            Operand::Constant(_) => None,
        },
    }
}

/// The pin of an instruction that is to be this constant, if it compares a value with a constant.
fn pin_of_instruction(plan: &Plan, instruction: &Instruction, wanted: i128) -> Option<Pin>
    ensures { result ≡ pin_of_operands (view_widths plan.now.widths) wanted instruction.now (slice_get (operands_of instruction.now) 0) (slice_get (operands_of instruction.now) 1) }
{
    let operands = instruction.operands();
    match operand_at(operands.as_slice(), 0) {
        Some(first) => match operand_at(operands.as_slice(), 1) {
            Some(second) => pin_of_both(plan, instruction, wanted, first, second),
            None => None,
        },
        None => None,
    }
}

/// The pin of a value that is to be this constant.
fn pin_of_constant(plan: &Plan, position: usize, wanted: i128) -> Pin
    ensures { result ≡ equal_pin (view_widths plan.now.widths) position wanted }
{
    let width = widths_at(plan, position).result;
    let n = bits_of(wanted, width);
    Pin {
        position,
        numbers: Span {
            first: n,
            end: sum(n, 1, width),
        },
    }
}

/// The pin of the right side of the assignment at a position, which is to be this constant.
fn pin_of_rhs(plan: &Plan, position: usize, rhs: &AssignmentRhs, wanted: i128) -> Option<Pin>
    ensures { result ≡ pin_by_rhs (view_widths plan.now.widths) position wanted (view_rhs rhs.now) }
{
    match rhs {
        AssignmentRhs::Instruction(instruction) => pin_of_instruction(plan, instruction, wanted),
        _ => Some(pin_of_constant(plan, position, wanted)),
    }
}

/// The pin of the statement at a position, if its value is to be this constant.
fn pin_of_assigned(plan: &Plan, position: usize, statement: &Statement, wanted: i128) -> Option<Pin>
    ensures { result ≡ pin_of_statement (view_widths plan.now.widths) position wanted (Some (view_statement statement.now)) }
{
    match statement {
        Statement::Assignment(assignment) => pin_of_rhs(plan, position, &assignment.value, wanted),
        Statement::Pc(_) => None,
        Statement::BlockPc(_) => None,
    }
}

/// The pin of the value at a position, which is to be this constant.
fn pin_of_value(parts: &Parts<'_>, plan: &Plan, position: usize, wanted: i128) -> Option<Pin>
    ensures { result ≡ pin_of_statement (view_widths plan.now.widths) position wanted (slice_get (view_parts parts.now).statements position) }
{
    match parts.statements.get(Id::at(position)) {
        Some(statement) => pin_of_assigned(plan, position, statement, wanted),
        None => None,
    }
}

/// The pin of a condition.
fn pin_of_condition(parts: &Parts<'_>, plan: &Plan, x: Operand, y: Operand) -> Option<Pin>
    ensures { result ≡ pin_of_pc (view_parts parts.now) (view_widths plan.now.widths) x y }
{
    match x {
        Operand::Value(id) => match y {
            Operand::Value(_) => None,
            Operand::Constant(constant) => {
                let position = Id::<Statement>::from(id).index();
                pin_of_value(parts, plan, position, constant.value)
            }
        },
        Operand::Constant(_) => None,
    }
}

/// The pin of a statement, if it is a condition that pins a value.
fn pin_of(parts: &Parts<'_>, plan: &Plan, statement: &Statement) -> Option<Pin>
    ensures { result ≡ pin_by_statement (view_parts parts.now) (view_widths plan.now.widths) (view_statement statement.now) }
{
    match statement {
        Statement::Pc(pc) => pin_of_condition(parts, plan, pc.x, pc.y),
        Statement::Assignment(_) => None,
        Statement::BlockPc(_) => None,
    }
}

/// Narrows the numbers of the pinned position.
fn narrow(plan: &Plan, numbers: &mut [Span], pin: Option<Pin>)
    ensures { (p : ℕ) → p < length numbers.old → slice_index_or numbers.new p unsaid ≡ pinned_by (view_widths plan.now.widths) p (slice_index_or numbers.old p unsaid) pin }
{
    match pin {
        Some(pin) => {
            if pin.position < numbers.len() {
                let width = widths_at(plan, pin.position).result;
                let narrowed = numbers[pin.position].shared(pin.numbers, width);
                numbers[pin.position] = narrowed;
            }
        }
        None => {}
    }
}

/// The numbers of each position that the conditions of the item leave, as far as they pin it.
#[tactic(auto, using(crate::proofs::Pinned::pinned_among_all), unfolding(crate::proofs::Pinned::pinned_among))]
pub(crate) fn numbers_of(parts: &Parts<'_>, plan: &Plan) -> Result<Vec<Span>, AllocError>
    ensures size { IfOk result (λ numbers. length numbers.items ≡ length (view_parts parts.now).statements) }
    ensures numbers { IfOk result (λ numbers. (p : ℕ) → p < length (view_parts parts.now).statements
        → slice_index_or numbers.items p unsaid ≡ numbers_at (view_parts parts.now) (view_widths plan.now.widths) p) }
{
    let alloc = parts.statements.allocator();
    let unsaid = Span { first: 0, end: 0 };
    let mut numbers = vec![in alloc; unsaid; parts.statements.len()]?;
    for (_, statement) in parts.statements.iter() {
        let pin = pin_of(parts, plan, statement);
        narrow(plan, &mut numbers, pin);
    }
    Ok(numbers)
}
