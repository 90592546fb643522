//! Operands into which no type is to be written.

ghost use Rattle.std.specs.Prelude.{◌≡◌, IsTrue};
ghost use Rattle.souper_typed.specs.Written.{written_operand, written_instruction};

use crate::form::Form;
use souper_graph::ast::{Instruction, Operand};

// The operand stays as it is.
#[inline(always)]
fn operand_stays(form: Form, width: u32, operand: Operand) -> bool
    ensures { IsTrue result → written_operand form width operand ≡ operand }
{
    match operand {
        Operand::Value(_) => true,
        Operand::Constant(constant) => match (form, constant.ty) {
            (Form::Widths, Some(ty)) => width > 0 && u32::from(ty.width) == width,
            _ => false,
        },
    }
}

// The operands of an instruction stay.
#[inline(always)]
pub(crate) fn instruction_stays(form: Form, width: u32, instruction: &Instruction) -> bool
    ensures { IsTrue result → written_instruction form width instruction.now ≡ instruction.now }
{
    match instruction {
        Instruction::Select { a, b, c } => {
            operand_stays(form, 1, *a)
                && operand_stays(form, width, *b)
                && operand_stays(form, width, *c)
        }
        Instruction::Zext { a } | Instruction::Sext { a } | Instruction::Trunc { a } => {
            operand_stays(form, width, *a)
        }
        Instruction::Add { a, b }
        | Instruction::AddNsw { a, b }
        | Instruction::AddNuw { a, b }
        | Instruction::AddNw { a, b }
        | Instruction::Sub { a, b }
        | Instruction::SubNsw { a, b }
        | Instruction::SubNuw { a, b }
        | Instruction::SubNw { a, b }
        | Instruction::Mul { a, b }
        | Instruction::MulNsw { a, b }
        | Instruction::MulNuw { a, b }
        | Instruction::MulNw { a, b }
        | Instruction::And { a, b }
        | Instruction::Or { a, b }
        | Instruction::Xor { a, b }
        | Instruction::Shl { a, b }
        | Instruction::Lshr { a, b }
        | Instruction::Ashr { a, b }
        | Instruction::Eq { a, b }
        | Instruction::Ne { a, b }
        | Instruction::Ult { a, b }
        | Instruction::Slt { a, b }
        | Instruction::Ule { a, b }
        | Instruction::Sle { a, b } => {
            operand_stays(form, width, *a) && operand_stays(form, width, *b)
        }
        _ => false,
    }
}
