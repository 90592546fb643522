//! Operands with their types.

ghost use Rattle.std.specs.Prelude.{◌≡◌, map};
ghost use Rattle.souper_graph.specs.Instructions.{instruction_map};
ghost use Rattle.souper_typed.specs.Written.{written_operand, written_index, written_instruction};

use crate::form::Form;
use crate::numbers::{type_of_width, write_index_type, write_number};
use souper_graph::ast::{Constant, Instruction, Operand};

// A constant of this width with its type; a value stays.
pub(crate) fn write_operand(form: Form, width: u32, operand: Operand) -> Operand
    ensures { result ≡ written_operand form width operand }
{
    match operand {
        Operand::Value(_) => operand,
        Operand::Constant(constant) => Operand::Constant(Constant {
            value: write_number(form, width, constant.value),
            ty: type_of_width(width),
        }),
    }
}

// The index of extractvalue, which has no width.
fn write_index(form: Form, operand: Operand) -> Operand
    ensures { result ≡ written_index form operand }
{
    match operand {
        Operand::Value(_) => operand,
        Operand::Constant(constant) => Operand::Constant(Constant {
            value: constant.value,
            ty: write_index_type(form, constant.ty),
        }),
    }
}

// The instruction with operands of this width.
fn write_each(form: Form, width: u32, instruction: Instruction) -> Instruction
    ensures { result ≡ instruction_map (written_operand form width) instruction }
{
    instruction.map_operands(|operand| write_operand(form, width, operand))
}

// The instruction with operands of this width, but for the condition of select and the index of extractvalue.
pub(crate) fn write_instruction(form: Form, width: u32, instruction: Instruction) -> Instruction
    ensures { result ≡ written_instruction form width instruction }
{
    match instruction {
        Instruction::Select { a, b, c } => Instruction::Select {
            a: write_operand(form, 1, a),
            b: write_operand(form, width, b),
            c: write_operand(form, width, c),
        },
        Instruction::ExtractValue { a, b } => Instruction::ExtractValue {
            a: write_operand(form, width, a),
            b: write_index(form, b),
        },
        _ => write_each(form, width, instruction),
    }
}

// Operands of this width.
pub(crate) fn write_operands(form: Form, width: u32, operands: &mut [Operand])
    ensures { operands.new ≡ map (written_operand form width) operands.old }
{
    for operand in operands.iter_mut() {
        *operand = write_operand(form, width, *operand);
    }
}
