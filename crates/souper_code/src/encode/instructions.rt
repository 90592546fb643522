//! Instructions.

ghost use Rattle.std.specs.Prelude.{◌≡◌, ◌++◌, OnOk};
ghost use Rattle.souper_code.specs.Numbers.{instruction_number};
ghost use Rattle.souper_code.specs.Codes.{code_of_instruction};

use crate::encode::leaves::encode_operands;
use souper_graph::ast::Instruction;
use std::alloc::AllocError;

// The number of an instruction in the code.
fn instruction_number(instruction: &Instruction) -> u8
    ensures { result ≡ instruction_number instruction.now }
{
    match instruction {
        Instruction::Add { .. } => 0,
        Instruction::AddNsw { .. } => 1,
        Instruction::AddNuw { .. } => 2,
        Instruction::AddNw { .. } => 3,
        Instruction::Sub { .. } => 4,
        Instruction::SubNsw { .. } => 5,
        Instruction::SubNuw { .. } => 6,
        Instruction::SubNw { .. } => 7,
        Instruction::Mul { .. } => 8,
        Instruction::MulNsw { .. } => 9,
        Instruction::MulNuw { .. } => 10,
        Instruction::MulNw { .. } => 11,
        Instruction::Udiv { .. } => 12,
        Instruction::Sdiv { .. } => 13,
        Instruction::UdivExact { .. } => 14,
        Instruction::SdivExact { .. } => 15,
        Instruction::Urem { .. } => 16,
        Instruction::Srem { .. } => 17,
        Instruction::And { .. } => 18,
        Instruction::Or { .. } => 19,
        Instruction::Xor { .. } => 20,
        Instruction::Shl { .. } => 21,
        Instruction::ShlNsw { .. } => 22,
        Instruction::ShlNuw { .. } => 23,
        Instruction::ShlNw { .. } => 24,
        Instruction::Lshr { .. } => 25,
        Instruction::LshrExact { .. } => 26,
        Instruction::Ashr { .. } => 27,
        Instruction::AshrExact { .. } => 28,
        Instruction::Select { .. } => 29,
        Instruction::Zext { .. } => 30,
        Instruction::Sext { .. } => 31,
        Instruction::Trunc { .. } => 32,
        Instruction::Eq { .. } => 33,
        Instruction::Ne { .. } => 34,
        Instruction::Ult { .. } => 35,
        Instruction::Slt { .. } => 36,
        Instruction::Ule { .. } => 37,
        Instruction::Sle { .. } => 38,
        Instruction::Ctpop { .. } => 39,
        Instruction::Bswap { .. } => 40,
        Instruction::BitReverse { .. } => 41,
        Instruction::Cttz { .. } => 42,
        Instruction::Ctlz { .. } => 43,
        Instruction::Fshl { .. } => 44,
        Instruction::Fshr { .. } => 45,
        Instruction::SaddWithOverflow { .. } => 46,
        Instruction::UaddWithOverflow { .. } => 47,
        Instruction::SsubWithOverflow { .. } => 48,
        Instruction::UsubWithOverflow { .. } => 49,
        Instruction::SmulWithOverflow { .. } => 50,
        Instruction::UmulWithOverflow { .. } => 51,
        Instruction::SaddSat { .. } => 52,
        Instruction::UaddSat { .. } => 53,
        Instruction::SsubSat { .. } => 54,
        Instruction::UsubSat { .. } => 55,
        Instruction::ExtractValue { .. } => 56,
        Instruction::Hole => 57,
        Instruction::Freeze { .. } => 58,
    }
}

pub(crate) fn encode_instruction(
    instruction: &Instruction,
    out: &mut Vec<u8>,
) -> Result<(), AllocError>
    ensures { OnOk result (out.new.items ≡ out.old.items ++ code_of_instruction instruction.now) }
{
    out.push(instruction_number(instruction))?;
    encode_operands(&instruction.operands(), out)
}
