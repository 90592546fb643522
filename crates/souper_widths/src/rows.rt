//! The rows of the table of widths.

ghost use Rattle.std.specs.Prelude.{◌≡◌};
ghost use Rattle.souper_graph.specs.View.{view_rhs, view_statement};
ghost use Rattle.souper_widths.specs.Table.{part_at, instruction_row, rhs_row, row_of};

use souper_graph::ast::{AssignmentRhs, Instruction, Operand, Statement};

/// A row of the table of widths: how wide the result and the operands of a statement are.
#[derive(Clone, Copy, Debug, PartialEq, Eq)]
pub enum Row {
    /// The result has any width, and there are no operands: `var`, `reservedinst`, `reservedconst` and `hole`.
    Input,

    /// A block has no width.
    Block,

    /// The result of a phi is as wide as its values, of which there may be none.
    Phi,

    /// The result is as wide as the operands.
    Same,

    /// The result has one bit: comparisons.
    Bit,

    /// The result has a width of its own: `zext`, `sext` and `trunc`.
    Resized,

    /// The result is as wide as the operands, but for the condition, which has one bit.
    Select,

    /// The result has one bit more than the operands: the words that end in `.with.overflow`.
    Pair,

    /// The number of a pair, which has one bit less: `extractvalue` with 0.
    Number,

    /// The overflow of a pair, which is one bit: `extractvalue` with 1.
    Overflow,

    /// No part of a pair: `extractvalue` with any other index.
    BadPart,

    /// A path condition has operands alone.
    Condition,
}

// The row of `extractvalue` with this index.
#[inline(always)]
fn part_row(index: Operand) -> Row
    ensures { result ≡ part_at index }
{
    match index {
        Operand::Value(_) => Row::BadPart,
        Operand::Constant(constant) => {
            if constant.value == 0 {
                Row::Number
            } else if constant.value == 1 {
                Row::Overflow
            } else {
                Row::BadPart
            }
        }
    }
}

#[inline(always)]
fn instruction_row_of(instruction: &Instruction) -> Row
    ensures { result ≡ instruction_row instruction.now }
{
    match instruction {
        Instruction::ExtractValue { b, .. } => part_row(*b),
        Instruction::Hole => Row::Input,
        Instruction::Select { .. } => Row::Select,
        Instruction::Zext { .. } | Instruction::Sext { .. } | Instruction::Trunc { .. } =>
            Row::Resized,
        Instruction::Eq { .. }
        | Instruction::Ne { .. }
        | Instruction::Ult { .. }
        | Instruction::Slt { .. }
        | Instruction::Ule { .. }
        | Instruction::Sle { .. } => Row::Bit,
        Instruction::SaddWithOverflow { .. }
        | Instruction::UaddWithOverflow { .. }
        | Instruction::SsubWithOverflow { .. }
        | Instruction::UsubWithOverflow { .. }
        | Instruction::SmulWithOverflow { .. }
        | Instruction::UmulWithOverflow { .. } => Row::Pair,
        Instruction::Add { .. }
        | Instruction::AddNsw { .. }
        | Instruction::AddNuw { .. }
        | Instruction::AddNw { .. }
        | Instruction::Sub { .. }
        | Instruction::SubNsw { .. }
        | Instruction::SubNuw { .. }
        | Instruction::SubNw { .. }
        | Instruction::Mul { .. }
        | Instruction::MulNsw { .. }
        | Instruction::MulNuw { .. }
        | Instruction::MulNw { .. }
        | Instruction::Udiv { .. }
        | Instruction::Sdiv { .. }
        | Instruction::UdivExact { .. }
        | Instruction::SdivExact { .. }
        | Instruction::Urem { .. }
        | Instruction::Srem { .. }
        | Instruction::And { .. }
        | Instruction::Or { .. }
        | Instruction::Xor { .. }
        | Instruction::Shl { .. }
        | Instruction::ShlNsw { .. }
        | Instruction::ShlNuw { .. }
        | Instruction::ShlNw { .. }
        | Instruction::Lshr { .. }
        | Instruction::LshrExact { .. }
        | Instruction::Ashr { .. }
        | Instruction::AshrExact { .. }
        | Instruction::Ctpop { .. }
        | Instruction::Bswap { .. }
        | Instruction::BitReverse { .. }
        | Instruction::Cttz { .. }
        | Instruction::Ctlz { .. }
        | Instruction::Fshl { .. }
        | Instruction::Fshr { .. }
        | Instruction::SaddSat { .. }
        | Instruction::UaddSat { .. }
        | Instruction::SsubSat { .. }
        | Instruction::UsubSat { .. }
        | Instruction::Freeze { .. } => Row::Same,
    }
}

#[inline(always)]
pub(crate) fn rhs_row_of(rhs: &AssignmentRhs) -> Row
    ensures { result ≡ rhs_row (view_rhs rhs.now) }
{
    match rhs {
        AssignmentRhs::Var | AssignmentRhs::ReservedInst | AssignmentRhs::ReservedConst => {
            Row::Input
        }
        AssignmentRhs::Block(_) => Row::Block,
        AssignmentRhs::Phi(_) => Row::Phi,
        AssignmentRhs::Instruction(instruction) => instruction_row_of(instruction),
    }
}

#[inline(always)]
pub(crate) fn statement_row(statement: &Statement) -> Row
    ensures { result ≡ row_of (view_statement statement.now) }
{
    match statement {
        Statement::Assignment(assignment) => rhs_row_of(&assignment.value),
        Statement::Pc(_) | Statement::BlockPc(_) => Row::Condition,
    }
}
