//! Instructions.

ghost use Rattle.std.specs.Prelude.{◌≡◌, ◌++◌, ◌∷◌, [], ℕ, List, Some, IfOk, IfSome};
ghost use Rattle.souper_graph.specs.declared.ast.operands.Operand.{Operand as OperandNode};
ghost use Rattle.souper_graph.specs.declared.ast.instructions.Instruction.{Instruction as InstructionNode};
ghost use Rattle.souper_graph.specs.Instructions.{operands_of};
ghost use Rattle.souper_code.specs.Numbers.{instruction_number};
ghost use Rattle.souper_code.specs.Codes.{code_of_instruction};
ghost use Rattle.souper_code.specs.Codable.{CodableInstruction};
ghost use Rattle.souper_code.specs.Reading.{Decodes};

use crate::decode::{DecodeError, Reader};
use souper_graph::ast::{Instruction, Operand};

fn nullary(number: u8) -> Option<Instruction>
    ensures read { IfSome result (λ i. (instruction_number i ≡ number) × (operands_of i ≡ [])) }
    ensures only { (i : InstructionNode) → instruction_number i ≡ number → operands_of i ≡ [] → result ≡ Some i }
{
    match number {
        57 => Some(Instruction::Hole),
        _ => None,
    }
}

fn unary(number: u8, a: Operand) -> Option<Instruction>
    ensures read { IfSome result (λ i. (instruction_number i ≡ number) × (operands_of i ≡ a ∷ [])) }
    ensures only { (i : InstructionNode) → instruction_number i ≡ number → operands_of i ≡ a ∷ [] → result ≡ Some i }
{
    match number {
        30 => Some(Instruction::Zext { a }),
        31 => Some(Instruction::Sext { a }),
        32 => Some(Instruction::Trunc { a }),
        39 => Some(Instruction::Ctpop { a }),
        40 => Some(Instruction::Bswap { a }),
        41 => Some(Instruction::BitReverse { a }),
        42 => Some(Instruction::Cttz { a }),
        43 => Some(Instruction::Ctlz { a }),
        58 => Some(Instruction::Freeze { a }),
        _ => None,
    }
}

fn binary(number: u8, a: Operand, b: Operand) -> Option<Instruction>
    ensures read { IfSome result (λ i. (instruction_number i ≡ number) × (operands_of i ≡ a ∷ b ∷ [])) }
    ensures only { (i : InstructionNode) → instruction_number i ≡ number → operands_of i ≡ a ∷ b ∷ [] → result ≡ Some i }
{
    match number {
        0 => Some(Instruction::Add { a, b }),
        1 => Some(Instruction::AddNsw { a, b }),
        2 => Some(Instruction::AddNuw { a, b }),
        3 => Some(Instruction::AddNw { a, b }),
        4 => Some(Instruction::Sub { a, b }),
        5 => Some(Instruction::SubNsw { a, b }),
        6 => Some(Instruction::SubNuw { a, b }),
        7 => Some(Instruction::SubNw { a, b }),
        8 => Some(Instruction::Mul { a, b }),
        9 => Some(Instruction::MulNsw { a, b }),
        10 => Some(Instruction::MulNuw { a, b }),
        11 => Some(Instruction::MulNw { a, b }),
        12 => Some(Instruction::Udiv { a, b }),
        13 => Some(Instruction::Sdiv { a, b }),
        14 => Some(Instruction::UdivExact { a, b }),
        15 => Some(Instruction::SdivExact { a, b }),
        16 => Some(Instruction::Urem { a, b }),
        17 => Some(Instruction::Srem { a, b }),
        18 => Some(Instruction::And { a, b }),
        19 => Some(Instruction::Or { a, b }),
        20 => Some(Instruction::Xor { a, b }),
        21 => Some(Instruction::Shl { a, b }),
        22 => Some(Instruction::ShlNsw { a, b }),
        23 => Some(Instruction::ShlNuw { a, b }),
        24 => Some(Instruction::ShlNw { a, b }),
        25 => Some(Instruction::Lshr { a, b }),
        26 => Some(Instruction::LshrExact { a, b }),
        27 => Some(Instruction::Ashr { a, b }),
        28 => Some(Instruction::AshrExact { a, b }),
        33 => Some(Instruction::Eq { a, b }),
        34 => Some(Instruction::Ne { a, b }),
        35 => Some(Instruction::Ult { a, b }),
        36 => Some(Instruction::Slt { a, b }),
        37 => Some(Instruction::Ule { a, b }),
        38 => Some(Instruction::Sle { a, b }),
        46 => Some(Instruction::SaddWithOverflow { a, b }),
        47 => Some(Instruction::UaddWithOverflow { a, b }),
        48 => Some(Instruction::SsubWithOverflow { a, b }),
        49 => Some(Instruction::UsubWithOverflow { a, b }),
        50 => Some(Instruction::SmulWithOverflow { a, b }),
        51 => Some(Instruction::UmulWithOverflow { a, b }),
        52 => Some(Instruction::SaddSat { a, b }),
        53 => Some(Instruction::UaddSat { a, b }),
        54 => Some(Instruction::SsubSat { a, b }),
        55 => Some(Instruction::UsubSat { a, b }),
        56 => Some(Instruction::ExtractValue { a, b }),
        _ => None,
    }
}

fn ternary(number: u8, a: Operand, b: Operand, c: Operand) -> Option<Instruction>
    ensures read { IfSome result (λ i. (instruction_number i ≡ number) × (operands_of i ≡ a ∷ b ∷ c ∷ [])) }
    ensures only { (i : InstructionNode) → instruction_number i ≡ number → operands_of i ≡ a ∷ b ∷ c ∷ [] → result ≡ Some i }
{
    match number {
        29 => Some(Instruction::Select { a, b, c }),
        44 => Some(Instruction::Fshl { a, b, c }),
        45 => Some(Instruction::Fshr { a, b, c }),
        _ => None,
    }
}

// The instruction with the number and the operands.
fn instruction_of(number: u8, operands: &[Operand]) -> Option<Instruction>
    ensures read { IfSome result (λ i. (instruction_number i ≡ number) × (operands_of i ≡ operands.now)) }
    ensures only { (i : InstructionNode) → instruction_number i ≡ number → operands_of i ≡ operands.now → result ≡ Some i }
{
    match operands {
        [] => nullary(number),
        [a] => unary(number, *a),
        [a, b] => binary(number, *a, *b),
        [a, b, c] => ternary(number, *a, *b, *c),
        _ => None,
    }
}

impl Reader<'_> {
    #[tactic(auto, using(crate::proofs::Few::few_operands))]
    pub(crate) fn instruction(&mut self) -> Result<Instruction, DecodeError>
        ensures read { IfOk result (λ i. CodableInstruction i × (self.old.rest.now ≡ code_of_instruction i ++ self.new.rest.now)) }
        ensures only { (i : InstructionNode) (rest : List ℕ) → CodableInstruction i → self.old.rest.now ≡ code_of_instruction i ++ rest → Decodes result (λ v. v ≡ i) self.new.rest.now rest }
    {
        let number = self.byte()?;
        let operands = self.few_operands()?;
        match instruction_of(number, operands.as_slice()) {
            Some(instruction) => Ok(instruction),
            None => Err(DecodeError::NoCode),
        }
    }
}
