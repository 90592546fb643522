//! The words of instructions.

ghost use Rattle.std.specs.Prelude.{◌≡◌};
ghost use Rattle.souper_meaning.specs.Instructions.{meaning_of};

use souper_graph::ast::Instruction;
use souper_words::Word;

/// The word of an instruction. A hole has none.
pub fn word_of(instruction: &Instruction) -> Option<Word>
    ensures { result ≡ meaning_of instruction.now }
{
    let word = match instruction {
        Instruction::Add { .. } => Word::Add,
        Instruction::AddNsw { .. } => Word::AddNsw,
        Instruction::AddNuw { .. } => Word::AddNuw,
        Instruction::AddNw { .. } => Word::AddNw,
        Instruction::Sub { .. } => Word::Sub,
        Instruction::SubNsw { .. } => Word::SubNsw,
        Instruction::SubNuw { .. } => Word::SubNuw,
        Instruction::SubNw { .. } => Word::SubNw,
        Instruction::Mul { .. } => Word::Mul,
        Instruction::MulNsw { .. } => Word::MulNsw,
        Instruction::MulNuw { .. } => Word::MulNuw,
        Instruction::MulNw { .. } => Word::MulNw,
        Instruction::Shl { .. } => Word::Shl,
        Instruction::ShlNsw { .. } => Word::ShlNsw,
        Instruction::ShlNuw { .. } => Word::ShlNuw,
        Instruction::ShlNw { .. } => Word::ShlNw,
        Instruction::Udiv { .. } => Word::Udiv,
        Instruction::Sdiv { .. } => Word::Sdiv,
        Instruction::UdivExact { .. } => Word::UdivExact,
        Instruction::SdivExact { .. } => Word::SdivExact,
        Instruction::Urem { .. } => Word::Urem,
        Instruction::Srem { .. } => Word::Srem,
        Instruction::And { .. } => Word::And,
        Instruction::Or { .. } => Word::Or,
        Instruction::Xor { .. } => Word::Xor,
        Instruction::Lshr { .. } => Word::Lshr,
        Instruction::LshrExact { .. } => Word::LshrExact,
        Instruction::Ashr { .. } => Word::Ashr,
        Instruction::AshrExact { .. } => Word::AshrExact,
        Instruction::Select { .. } => Word::Select,
        Instruction::Zext { .. } => Word::Zext,
        Instruction::Sext { .. } => Word::Sext,
        Instruction::Trunc { .. } => Word::Trunc,
        Instruction::Eq { .. } => Word::Eq,
        Instruction::Ne { .. } => Word::Ne,
        Instruction::Ult { .. } => Word::Ult,
        Instruction::Slt { .. } => Word::Slt,
        Instruction::Ule { .. } => Word::Ule,
        Instruction::Sle { .. } => Word::Sle,
        Instruction::Ctpop { .. } => Word::Ctpop,
        Instruction::Bswap { .. } => Word::Bswap,
        Instruction::BitReverse { .. } => Word::BitReverse,
        Instruction::Cttz { .. } => Word::Cttz,
        Instruction::Ctlz { .. } => Word::Ctlz,
        Instruction::Fshl { .. } => Word::Fshl,
        Instruction::Fshr { .. } => Word::Fshr,
        Instruction::SaddWithOverflow { .. } => Word::SaddWithOverflow,
        Instruction::UaddWithOverflow { .. } => Word::UaddWithOverflow,
        Instruction::SsubWithOverflow { .. } => Word::SsubWithOverflow,
        Instruction::UsubWithOverflow { .. } => Word::UsubWithOverflow,
        Instruction::SmulWithOverflow { .. } => Word::SmulWithOverflow,
        Instruction::UmulWithOverflow { .. } => Word::UmulWithOverflow,
        Instruction::SaddSat { .. } => Word::SaddSat,
        Instruction::UaddSat { .. } => Word::UaddSat,
        Instruction::SsubSat { .. } => Word::SsubSat,
        Instruction::UsubSat { .. } => Word::UsubSat,
        Instruction::ExtractValue { .. } => Word::ExtractValue,
        Instruction::Freeze { .. } => Word::Freeze,
        Instruction::Hole => return None,
    };
    Some(word)
}
