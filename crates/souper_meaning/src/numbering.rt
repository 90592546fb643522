//! How many worlds an item has.

ghost use Rattle.std.specs.Prelude.{◌≡◌, ◌-◌, ◌^◌, ◌<◌, ◌≤◌, ℕ, length, slice_index, min, IfOk};
ghost use Rattle.souper_graph.specs.View.{view_rhs, view_statement};
ghost use Rattle.souper_graph.specs.PartsView.{view_parts};
ghost use Rattle.souper_widths.specs.View.{view_widths};
ghost use Rattle.souper_meaning.specs.View.{view_mode};
ghost use Rattle.souper_meaning.specs.Numbering.{input_count, instruction_count, rhs_count, statement_count, count_at};
ghost use Rattle.souper_meaning.specs.Plans.{IsPlan};

use crate::evaluation::{is_needed_at, widths_at};
use crate::plans::Plan;
use crate::worlds::Mode;
use souper_graph::ast::{AssignmentRhs, Id, Instruction, Parts, Statement};
use std::alloc::AllocError;

/// How many values have this width, or the greatest number if they are more.
fn value_count(width: u32) -> u128
    requires { width ≤ 128 }
    ensures { result ≡ min (2 ^ width) (2 ^ 128 - 1) }
{
    if width >= 128 { u128::MAX } else { 1 << width }
}

/// How many inputs have this width, or the greatest number if they are more.
fn input_count_of(mode: Mode, width: u32) -> u128
    requires { width ≤ 128 }
    ensures { result ≡ min (input_count (view_mode mode) width) (2 ^ 128 - 1) }
{
    match mode {
        Mode::ValueInputs => value_count(width),
        Mode::PoisonInputs => value_count(width).saturating_add(1),
    }
}

/// How many choices the instruction has, or the greatest number if they are more.
fn instruction_count_of(width: u32, instruction: &Instruction) -> u128
    requires { width ≤ 128 }
    ensures { result ≡ min (instruction_count width instruction.now) (2 ^ 128 - 1) }
{
    match instruction {
        Instruction::Freeze { .. } => value_count(width),
        _ => 1,
    }
}

/// The count of the right side of an assignment, or the greatest number if it is more.
fn rhs_count_of(mode: Mode, width: u32, rhs: &AssignmentRhs) -> u128
    requires { width ≤ 128 }
    ensures { result ≡ min (rhs_count (view_mode mode) width (view_rhs rhs.now)) (2 ^ 128 - 1) }
{
    match rhs {
        AssignmentRhs::Var => input_count_of(mode, width),
        AssignmentRhs::ReservedInst => input_count_of(mode, width),
        AssignmentRhs::ReservedConst => value_count(width),
        AssignmentRhs::Block(block) => u128::from(block.predecessors),
        AssignmentRhs::Phi(_) => 1,
        AssignmentRhs::Instruction(instruction) => instruction_count_of(width, instruction),
    }
}

/// The count of a needed statement, or the greatest number if it is more.
fn statement_count_of(mode: Mode, width: u32, statement: &Statement) -> u128
    requires { width ≤ 128 }
    ensures { result ≡ min (statement_count (view_mode mode) width (Some (view_statement statement.now))) (2 ^ 128 - 1) }
{
    match statement {
        Statement::Assignment(assignment) => rhs_count_of(mode, width, &assignment.value),
        Statement::Pc(_) => 1,
        Statement::BlockPc(_) => 1,
    }
}

/// The count of a position, or the greatest number if it is more.
fn count_of(parts: &Parts<'_>, plan: &Plan, mode: Mode, position: usize) -> u128
    requires { IsPlan (view_parts parts.now) plan.now }
    ensures { result ≡ min (count_at (view_mode mode) (view_parts parts.now) (view_widths plan.now.widths) plan.now.needed.items position) (2 ^ 128 - 1) }
{
    let is_needed = is_needed_at(plan, position);
    if !is_needed {
        return 1;
    }
    match parts.statements.get(Id::at(position)) {
        Some(statement) => {
            let widths = widths_at(plan, position);
            statement_count_of(mode, widths.result, statement)
        }
        None => 1,
    }
}

/// The count of each position, or the greatest number where it is more. The item has as many worlds as the product of the
/// counts.
pub(crate) fn counts_of(parts: &Parts<'_>, plan: &Plan, mode: Mode) -> Result<Vec<u128>, AllocError>
    requires { IsPlan (view_parts parts.now) plan.now }
    ensures size { IfOk result (λ counts. length counts.items ≡ length (view_parts parts.now).statements) }
    ensures counts { IfOk result (λ counts. (p : ℕ) → p < length (view_parts parts.now).statements
        → slice_index counts.items p ≡ min (count_at (view_mode mode) (view_parts parts.now) (view_widths plan.now.widths) plan.now.needed.items p) (2 ^ 128 - 1)) }
{
    let alloc = parts.statements.allocator();
    let mut counts = vec![in alloc; 1u128; parts.statements.len()]?;
    for position in 0..counts.len() {
        let count = count_of(parts, plan, mode, position);
        counts[position] = count;
    }
    Ok(counts)
}
