//! What words mean: opcodes, and what right sides begin with.

ghost use Rattle.std.specs.Prelude.{◌≡◌, ◌∷◌, [], Some};
ghost use Rattle.souper_ir.specs.Words.{opcode_of, two_letters_of, three_letters_of, four_letters_of, five_letters_of, six_letters_of, longer_of, rhs_keyword_of, rhs_word_of, operand_count, instruction_by};

use souper_graph::ast::{Instruction, Operand};

/// What an instruction does with its operands.
#[derive(Clone, Copy, Debug, PartialEq, Eq)]
pub(crate) enum Opcode {
    Add,
    AddNsw,
    AddNuw,
    AddNw,
    Sub,
    SubNsw,
    SubNuw,
    SubNw,
    Mul,
    MulNsw,
    MulNuw,
    MulNw,
    Udiv,
    Sdiv,
    UdivExact,
    SdivExact,
    Urem,
    Srem,
    And,
    Or,
    Xor,
    Shl,
    ShlNsw,
    ShlNuw,
    ShlNw,
    Lshr,
    LshrExact,
    Ashr,
    AshrExact,
    Eq,
    Ne,
    Ult,
    Slt,
    Ule,
    Sle,
    SaddWithOverflow,
    UaddWithOverflow,
    SsubWithOverflow,
    UsubWithOverflow,
    SmulWithOverflow,
    UmulWithOverflow,
    SaddSat,
    UaddSat,
    SsubSat,
    UsubSat,
    ExtractValue,
    Zext,
    Sext,
    Trunc,
    Ctpop,
    Bswap,
    BitReverse,
    Cttz,
    Ctlz,
    Freeze,
    Select,
    Fshl,
    Fshr,
    Hole,
}

fn two_letters(word: &str) -> Option<Opcode>
    ensures { result ≡ two_letters_of word.now }
{
    match word {
        "or" => Some(Opcode::Or),
        "eq" => Some(Opcode::Eq),
        "ne" => Some(Opcode::Ne),
        _ => None,
    }
}

fn three_letters(word: &str) -> Option<Opcode>
    ensures { result ≡ three_letters_of word.now }
{
    match word {
        "add" => Some(Opcode::Add),
        "sub" => Some(Opcode::Sub),
        "mul" => Some(Opcode::Mul),
        "and" => Some(Opcode::And),
        "xor" => Some(Opcode::Xor),
        "shl" => Some(Opcode::Shl),
        "ult" => Some(Opcode::Ult),
        "slt" => Some(Opcode::Slt),
        "ule" => Some(Opcode::Ule),
        "sle" => Some(Opcode::Sle),
        _ => None,
    }
}

fn four_letters(word: &str) -> Option<Opcode>
    ensures { result ≡ four_letters_of word.now }
{
    match word {
        "udiv" => Some(Opcode::Udiv),
        "sdiv" => Some(Opcode::Sdiv),
        "urem" => Some(Opcode::Urem),
        "srem" => Some(Opcode::Srem),
        "lshr" => Some(Opcode::Lshr),
        "ashr" => Some(Opcode::Ashr),
        "zext" => Some(Opcode::Zext),
        "sext" => Some(Opcode::Sext),
        "cttz" => Some(Opcode::Cttz),
        "ctlz" => Some(Opcode::Ctlz),
        "fshl" => Some(Opcode::Fshl),
        "fshr" => Some(Opcode::Fshr),
        "hole" => Some(Opcode::Hole),
        _ => None,
    }
}

fn five_letters(word: &str) -> Option<Opcode>
    ensures { result ≡ five_letters_of word.now }
{
    match word {
        "addnw" => Some(Opcode::AddNw),
        "subnw" => Some(Opcode::SubNw),
        "mulnw" => Some(Opcode::MulNw),
        "shlnw" => Some(Opcode::ShlNw),
        "trunc" => Some(Opcode::Trunc),
        "ctpop" => Some(Opcode::Ctpop),
        "bswap" => Some(Opcode::Bswap),
        _ => None,
    }
}

fn six_letters(word: &str) -> Option<Opcode>
    ensures { result ≡ six_letters_of word.now }
{
    match word {
        "addnsw" => Some(Opcode::AddNsw),
        "addnuw" => Some(Opcode::AddNuw),
        "subnsw" => Some(Opcode::SubNsw),
        "subnuw" => Some(Opcode::SubNuw),
        "mulnsw" => Some(Opcode::MulNsw),
        "mulnuw" => Some(Opcode::MulNuw),
        "shlnsw" => Some(Opcode::ShlNsw),
        "shlnuw" => Some(Opcode::ShlNuw),
        "freeze" => Some(Opcode::Freeze),
        "select" => Some(Opcode::Select),
        _ => None,
    }
}

fn longer(word: &str) -> Option<Opcode>
    ensures { result ≡ longer_of word.now }
{
    match word {
        "udivexact" => Some(Opcode::UdivExact),
        "sdivexact" => Some(Opcode::SdivExact),
        "lshrexact" => Some(Opcode::LshrExact),
        "ashrexact" => Some(Opcode::AshrExact),
        "sadd.with.overflow" => Some(Opcode::SaddWithOverflow),
        "uadd.with.overflow" => Some(Opcode::UaddWithOverflow),
        "ssub.with.overflow" => Some(Opcode::SsubWithOverflow),
        "usub.with.overflow" => Some(Opcode::UsubWithOverflow),
        "smul.with.overflow" => Some(Opcode::SmulWithOverflow),
        "umul.with.overflow" => Some(Opcode::UmulWithOverflow),
        "sadd.sat" => Some(Opcode::SaddSat),
        "uadd.sat" => Some(Opcode::UaddSat),
        "ssub.sat" => Some(Opcode::SsubSat),
        "usub.sat" => Some(Opcode::UsubSat),
        "extractvalue" => Some(Opcode::ExtractValue),
        "bitreverse" => Some(Opcode::BitReverse),
        _ => None,
    }
}

/// The opcode that a word names.
#[inline(never)]
pub(crate) fn opcode_named(word: &str) -> Option<Opcode>
    ensures { result ≡ opcode_of word.now }
{
    match word.len() {
        2 => two_letters(word),
        3 => three_letters(word),
        4 => four_letters(word),
        5 => five_letters(word),
        6 => six_letters(word),
        _ => longer(word),
    }
}

/// What a right side begins with.
#[derive(Clone, Copy, Debug, PartialEq, Eq)]
pub(crate) enum RhsWord {
    Var,
    Block,
    Phi,
    ReservedInst,
    ReservedConst,
    Instruction(Opcode),
}

// The right side that a word begins, if it is no instruction.
fn rhs_keyword(word: &str) -> Option<RhsWord>
    ensures { result ≡ rhs_keyword_of word.now }
{
    match word {
        "var" => Some(RhsWord::Var),
        "block" => Some(RhsWord::Block),
        "phi" => Some(RhsWord::Phi),
        "reservedinst" => Some(RhsWord::ReservedInst),
        "reservedconst" => Some(RhsWord::ReservedConst),
        _ => None,
    }
}

/// The right side that a word begins.
pub(crate) fn rhs_word_named(word: &str) -> Option<RhsWord>
    ensures { result ≡ rhs_word_of word.now }
{
    match opcode_named(word) {
        Some(opcode) => Some(RhsWord::Instruction(opcode)),
        None => rhs_keyword(word),
    }
}

impl Opcode {
    /// The number of operands that it takes.
    pub(crate) fn operand_count(self) -> usize
        ensures { result ≡ operand_count self }
    {
        match self {
            Opcode::Hole => 0,
            Opcode::Zext
            | Opcode::Sext
            | Opcode::Trunc
            | Opcode::Ctpop
            | Opcode::Bswap
            | Opcode::BitReverse
            | Opcode::Cttz
            | Opcode::Ctlz
            | Opcode::Freeze => 1,
            Opcode::Select | Opcode::Fshl | Opcode::Fshr => 3,
            _ => 2,
        }
    }

    /// The instruction without operands.
    pub(crate) fn nullary(self) -> Instruction
        requires { operand_count self ≡ 0 }
        ensures { instruction_by self ([]) ≡ Some result }
    {
        match self {
            Opcode::Hole => Instruction::Hole,
            _ => unreachable!(),
        }
    }

    /// The instruction with this operand.
    pub(crate) fn unary(self, a: Operand) -> Instruction
        requires { operand_count self ≡ 1 }
        ensures { instruction_by self (a ∷ []) ≡ Some result }
    {
        match self {
            Opcode::Zext => Instruction::Zext { a },
            Opcode::Sext => Instruction::Sext { a },
            Opcode::Trunc => Instruction::Trunc { a },
            Opcode::Ctpop => Instruction::Ctpop { a },
            Opcode::Bswap => Instruction::Bswap { a },
            Opcode::BitReverse => Instruction::BitReverse { a },
            Opcode::Cttz => Instruction::Cttz { a },
            Opcode::Ctlz => Instruction::Ctlz { a },
            Opcode::Freeze => Instruction::Freeze { a },
            _ => unreachable!(),
        }
    }

    /// The instruction with these operands, from left to right.
    pub(crate) fn binary(self, a: Operand, b: Operand) -> Instruction
        requires { operand_count self ≡ 2 }
        ensures { instruction_by self (a ∷ (b ∷ [])) ≡ Some result }
    {
        match self {
            Opcode::Add => Instruction::Add { a, b },
            Opcode::AddNsw => Instruction::AddNsw { a, b },
            Opcode::AddNuw => Instruction::AddNuw { a, b },
            Opcode::AddNw => Instruction::AddNw { a, b },
            Opcode::Sub => Instruction::Sub { a, b },
            Opcode::SubNsw => Instruction::SubNsw { a, b },
            Opcode::SubNuw => Instruction::SubNuw { a, b },
            Opcode::SubNw => Instruction::SubNw { a, b },
            Opcode::Mul => Instruction::Mul { a, b },
            Opcode::MulNsw => Instruction::MulNsw { a, b },
            Opcode::MulNuw => Instruction::MulNuw { a, b },
            Opcode::MulNw => Instruction::MulNw { a, b },
            Opcode::Udiv => Instruction::Udiv { a, b },
            Opcode::Sdiv => Instruction::Sdiv { a, b },
            Opcode::UdivExact => Instruction::UdivExact { a, b },
            Opcode::SdivExact => Instruction::SdivExact { a, b },
            Opcode::Urem => Instruction::Urem { a, b },
            Opcode::Srem => Instruction::Srem { a, b },
            Opcode::And => Instruction::And { a, b },
            Opcode::Or => Instruction::Or { a, b },
            Opcode::Xor => Instruction::Xor { a, b },
            Opcode::Shl => Instruction::Shl { a, b },
            Opcode::ShlNsw => Instruction::ShlNsw { a, b },
            Opcode::ShlNuw => Instruction::ShlNuw { a, b },
            Opcode::ShlNw => Instruction::ShlNw { a, b },
            Opcode::Lshr => Instruction::Lshr { a, b },
            Opcode::LshrExact => Instruction::LshrExact { a, b },
            Opcode::Ashr => Instruction::Ashr { a, b },
            Opcode::AshrExact => Instruction::AshrExact { a, b },
            Opcode::Eq => Instruction::Eq { a, b },
            Opcode::Ne => Instruction::Ne { a, b },
            Opcode::Ult => Instruction::Ult { a, b },
            Opcode::Slt => Instruction::Slt { a, b },
            Opcode::Ule => Instruction::Ule { a, b },
            Opcode::Sle => Instruction::Sle { a, b },
            Opcode::SaddWithOverflow => Instruction::SaddWithOverflow { a, b },
            Opcode::UaddWithOverflow => Instruction::UaddWithOverflow { a, b },
            Opcode::SsubWithOverflow => Instruction::SsubWithOverflow { a, b },
            Opcode::UsubWithOverflow => Instruction::UsubWithOverflow { a, b },
            Opcode::SmulWithOverflow => Instruction::SmulWithOverflow { a, b },
            Opcode::UmulWithOverflow => Instruction::UmulWithOverflow { a, b },
            Opcode::SaddSat => Instruction::SaddSat { a, b },
            Opcode::UaddSat => Instruction::UaddSat { a, b },
            Opcode::SsubSat => Instruction::SsubSat { a, b },
            Opcode::UsubSat => Instruction::UsubSat { a, b },
            Opcode::ExtractValue => Instruction::ExtractValue { a, b },
            _ => unreachable!(),
        }
    }

    /// The instruction with these operands, from left to right.
    pub(crate) fn ternary(self, a: Operand, b: Operand, c: Operand) -> Instruction
        requires { operand_count self ≡ 3 }
        ensures { instruction_by self (a ∷ (b ∷ (c ∷ []))) ≡ Some result }
    {
        match self {
            Opcode::Select => Instruction::Select { a, b, c },
            Opcode::Fshl => Instruction::Fshl { a, b, c },
            Opcode::Fshr => Instruction::Fshr { a, b, c },
            _ => unreachable!(),
        }
    }
}
