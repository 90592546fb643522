//! The instructions, their words and their operands.

ghost use Rattle.std.specs.Prelude.{◌≡◌, nat_eq};
ghost use Rattle.std.specs.Cmp.{partial_equiv_from_equiv, and_per, and_equiv, on_per, on_equiv};
ghost use Rattle.std.specs.Cmp.Lexicographic.{pointwise, lists_per, lists_equiv, on_texts_equal};
ghost use Rattle.std.specs.Ordering.{eq_of_both, on};
ghost use Rattle.souper_graph.specs.contracts.ast.operands.OperandPartialEq.TheImpl.Laws.{laws-law as operands_per};
ghost use Rattle.souper_graph.specs.contracts.ast.operands.OperandEq.TheImpl.Laws.{laws-law as operands_equiv};
ghost use Rattle.souper_graph.specs.Instructions.{word_of, operands_of};
ghost use Rattle.souper_graph.specs.Operands.{operands_seen};

use crate::ast::operands::Operand;
use arrayvec::ArrayVec;
use std::fmt;

/// An operation on operands. What it computes is described by the LLVM Language Reference, whose poison is called
/// undefined behaviour here; no contract states it.
#[derive(Clone, Copy)]
pub enum Instruction {
    /// The sum, which wraps around.
    Add { a: Operand, b: Operand },

    /// The sum; signed overflow is undefined behaviour.
    AddNsw { a: Operand, b: Operand },

    /// The sum; unsigned overflow is undefined behaviour.
    AddNuw { a: Operand, b: Operand },

    /// The sum; any overflow is undefined behaviour.
    AddNw { a: Operand, b: Operand },

    /// The difference, which wraps around.
    Sub { a: Operand, b: Operand },

    /// The difference; signed overflow is undefined behaviour.
    SubNsw { a: Operand, b: Operand },

    /// The difference; unsigned overflow is undefined behaviour.
    SubNuw { a: Operand, b: Operand },

    /// The difference; any overflow is undefined behaviour.
    SubNw { a: Operand, b: Operand },

    /// The product, which wraps around.
    Mul { a: Operand, b: Operand },

    /// The product; signed overflow is undefined behaviour.
    MulNsw { a: Operand, b: Operand },

    /// The product; unsigned overflow is undefined behaviour.
    MulNuw { a: Operand, b: Operand },

    /// The product; any overflow is undefined behaviour.
    MulNw { a: Operand, b: Operand },

    /// The quotient of `a` by `b`, both unsigned.
    Udiv { a: Operand, b: Operand },

    /// The quotient of `a` by `b`, both signed.
    Sdiv { a: Operand, b: Operand },

    /// The unsigned quotient; a remainder is undefined behaviour.
    UdivExact { a: Operand, b: Operand },

    /// The signed quotient; a remainder is undefined behaviour.
    SdivExact { a: Operand, b: Operand },

    /// The remainder of `a` by `b`, both unsigned.
    Urem { a: Operand, b: Operand },

    /// The remainder of `a` by `b`, both signed.
    Srem { a: Operand, b: Operand },

    /// The bits that are set in both.
    And { a: Operand, b: Operand },

    /// The bits that are set in one or in both.
    Or { a: Operand, b: Operand },

    /// The bits that are set in exactly one.
    Xor { a: Operand, b: Operand },

    /// `a` shifted left by `b` bits. A `b` that is not less than the width is undefined behaviour.
    Shl { a: Operand, b: Operand },

    /// The left shift; shifting out a bit that differs from the sign is undefined behaviour.
    ShlNsw { a: Operand, b: Operand },

    /// The left shift; shifting out a set bit is undefined behaviour.
    ShlNuw { a: Operand, b: Operand },

    /// The left shift with the conditions of both `shlnsw` and `shlnuw`.
    ShlNw { a: Operand, b: Operand },

    /// `a` shifted right by `b` bits, filled with zeros. A `b` that is not less than the width is undefined behaviour.
    Lshr { a: Operand, b: Operand },

    /// The right shift filled with zeros; shifting out a set bit is undefined behaviour.
    LshrExact { a: Operand, b: Operand },

    /// `a` shifted right by `b` bits, filled with copies of its sign.
    Ashr { a: Operand, b: Operand },

    /// The right shift filled with the sign; shifting out a set bit is undefined behaviour.
    AshrExact { a: Operand, b: Operand },

    /// `b` if `a` is 1, else `c`.
    Select { a: Operand, b: Operand, c: Operand },

    /// `a`, zero-extended.
    Zext { a: Operand },

    /// `a`, sign-extended.
    Sext { a: Operand },

    /// The low bits of `a`.
    Trunc { a: Operand },

    /// Whether `a` equals `b`.
    Eq { a: Operand, b: Operand },

    /// Whether `a` differs from `b`.
    Ne { a: Operand, b: Operand },

    /// Whether `a` is less than `b`, both unsigned.
    Ult { a: Operand, b: Operand },

    /// Whether `a` is less than `b`, both signed.
    Slt { a: Operand, b: Operand },

    /// Whether `a` is at most `b`, both unsigned.
    Ule { a: Operand, b: Operand },

    /// Whether `a` is at most `b`, both signed.
    Sle { a: Operand, b: Operand },

    /// The number of set bits of `a`.
    Ctpop { a: Operand },

    /// The bytes of `a` in reverse order: `0xddccbbaa` of `0xaabbccdd`.
    Bswap { a: Operand },

    /// The bits of `a` in reverse order.
    BitReverse { a: Operand },

    /// The number of trailing zero bits of `a`.
    Cttz { a: Operand },

    /// The number of leading zero bits of `a`.
    Ctlz { a: Operand },

    /// Funnel shift left: the high half of `a:b` (`a` is the high half) shifted left by `c` bits.
    Fshl { a: Operand, b: Operand, c: Operand },

    /// Funnel shift right: the low half of `a:b` (`a` is the high half) shifted right by `c` bits.
    Fshr { a: Operand, b: Operand, c: Operand },

    /// The signed sum, and one bit that is set if it overflowed.
    SaddWithOverflow { a: Operand, b: Operand },

    /// The unsigned sum, and one bit that is set if it overflowed.
    UaddWithOverflow { a: Operand, b: Operand },

    /// The signed difference, and one bit that is set if it overflowed.
    SsubWithOverflow { a: Operand, b: Operand },

    /// The unsigned difference, and one bit that is set if it overflowed.
    UsubWithOverflow { a: Operand, b: Operand },

    /// The signed product, and one bit that is set if it overflowed.
    SmulWithOverflow { a: Operand, b: Operand },

    /// The unsigned product, and one bit that is set if it overflowed.
    UmulWithOverflow { a: Operand, b: Operand },

    /// The signed sum, or the nearest limit if it overflows.
    SaddSat { a: Operand, b: Operand },

    /// The unsigned sum, or the greatest number if it overflows.
    UaddSat { a: Operand, b: Operand },

    /// The signed difference, or the nearest limit if it overflows.
    SsubSat { a: Operand, b: Operand },

    /// The unsigned difference, or 0 if it is less than 0.
    UsubSat { a: Operand, b: Operand },

    /// The part of `a` at index `b`.
    ExtractValue { a: Operand, b: Operand },

    /// A placeholder for an instruction that is not known yet.
    Hole,

    /// `a`, or some fixed value if `a` is poison or undefined.
    Freeze { a: Operand },
}

// The operands of an instruction, by reference.
#[derive(Clone, Copy)]
pub(crate) enum Operands<'a> {
    Zero,
    One(&'a Operand),
    Two(&'a Operand, &'a Operand),
    Three(&'a Operand, &'a Operand, &'a Operand),
}

impl Instruction {
    /// The operands, from left to right.
    pub fn operands(&self) -> ArrayVec<Operand, 3>
        ensures { result.items ≡ operands_of self.now }
    {
        let mut operands = ArrayVec::new();
        match self.operands_in_place() {
            Operands::Zero => {}
            Operands::One(a) => {
                operands.push(*a);
            }
            Operands::Two(a, b) => {
                operands.push(*a);
                operands.push(*b);
            }
            Operands::Three(a, b, c) => {
                operands.push(*a);
                operands.push(*b);
                operands.push(*c);
            }
        }
        operands
    }

    // The operands by reference, from left to right.
    #[inline(always)]
    pub(crate) fn operands_in_place(&self) -> Operands<'_>
        ensures { operands_seen result ≡ operands_of self.now }
    {
        match self {
            Instruction::Hole => Operands::Zero,
            Instruction::Zext { a }
            | Instruction::Sext { a }
            | Instruction::Trunc { a }
            | Instruction::Ctpop { a }
            | Instruction::Bswap { a }
            | Instruction::BitReverse { a }
            | Instruction::Cttz { a }
            | Instruction::Ctlz { a }
            | Instruction::Freeze { a } => Operands::One(a),
            Instruction::Add { a, b }
            | Instruction::AddNsw { a, b }
            | Instruction::AddNuw { a, b }
            | Instruction::AddNw { a, b }
            | Instruction::Sub { a, b }
            | Instruction::SubNsw { a, b }
            | Instruction::SubNuw { a, b }
            | Instruction::SubNw { a, b }
            | Instruction::Mul { a, b }
            | Instruction::MulNsw { a, b }
            | Instruction::MulNuw { a, b }
            | Instruction::MulNw { a, b }
            | Instruction::Udiv { a, b }
            | Instruction::Sdiv { a, b }
            | Instruction::UdivExact { a, b }
            | Instruction::SdivExact { a, b }
            | Instruction::Urem { a, b }
            | Instruction::Srem { a, b }
            | Instruction::And { a, b }
            | Instruction::Or { a, b }
            | Instruction::Xor { a, b }
            | Instruction::Shl { a, b }
            | Instruction::ShlNsw { a, b }
            | Instruction::ShlNuw { a, b }
            | Instruction::ShlNw { a, b }
            | Instruction::Lshr { a, b }
            | Instruction::LshrExact { a, b }
            | Instruction::Ashr { a, b }
            | Instruction::AshrExact { a, b }
            | Instruction::Eq { a, b }
            | Instruction::Ne { a, b }
            | Instruction::Ult { a, b }
            | Instruction::Slt { a, b }
            | Instruction::Ule { a, b }
            | Instruction::Sle { a, b }
            | Instruction::SaddWithOverflow { a, b }
            | Instruction::UaddWithOverflow { a, b }
            | Instruction::SsubWithOverflow { a, b }
            | Instruction::UsubWithOverflow { a, b }
            | Instruction::SmulWithOverflow { a, b }
            | Instruction::UmulWithOverflow { a, b }
            | Instruction::SaddSat { a, b }
            | Instruction::UaddSat { a, b }
            | Instruction::SsubSat { a, b }
            | Instruction::UsubSat { a, b }
            | Instruction::ExtractValue { a, b } => Operands::Two(a, b),
            Instruction::Select { a, b, c }
            | Instruction::Fshl { a, b, c }
            | Instruction::Fshr { a, b, c } => Operands::Three(a, b, c),
        }
    }

    /// The instruction's word in a text.
    pub fn instruction_name(&self) -> &'static str
        ensures { result.now ≡ word_of self.now }
    {
        match self {
            Instruction::Add { .. } => "add",
            Instruction::AddNsw { .. } => "addnsw",
            Instruction::AddNuw { .. } => "addnuw",
            Instruction::AddNw { .. } => "addnw",
            Instruction::Sub { .. } => "sub",
            Instruction::SubNsw { .. } => "subnsw",
            Instruction::SubNuw { .. } => "subnuw",
            Instruction::SubNw { .. } => "subnw",
            Instruction::Mul { .. } => "mul",
            Instruction::MulNsw { .. } => "mulnsw",
            Instruction::MulNuw { .. } => "mulnuw",
            Instruction::MulNw { .. } => "mulnw",
            Instruction::Udiv { .. } => "udiv",
            Instruction::Sdiv { .. } => "sdiv",
            Instruction::UdivExact { .. } => "udivexact",
            Instruction::SdivExact { .. } => "sdivexact",
            Instruction::Urem { .. } => "urem",
            Instruction::Srem { .. } => "srem",
            Instruction::And { .. } => "and",
            Instruction::Or { .. } => "or",
            Instruction::Xor { .. } => "xor",
            Instruction::Shl { .. } => "shl",
            Instruction::ShlNsw { .. } => "shlnsw",
            Instruction::ShlNuw { .. } => "shlnuw",
            Instruction::ShlNw { .. } => "shlnw",
            Instruction::Lshr { .. } => "lshr",
            Instruction::LshrExact { .. } => "lshrexact",
            Instruction::Ashr { .. } => "ashr",
            Instruction::AshrExact { .. } => "ashrexact",
            Instruction::Select { .. } => "select",
            Instruction::Zext { .. } => "zext",
            Instruction::Sext { .. } => "sext",
            Instruction::Trunc { .. } => "trunc",
            Instruction::Eq { .. } => "eq",
            Instruction::Ne { .. } => "ne",
            Instruction::Ult { .. } => "ult",
            Instruction::Slt { .. } => "slt",
            Instruction::Ule { .. } => "ule",
            Instruction::Sle { .. } => "sle",
            Instruction::Ctpop { .. } => "ctpop",
            Instruction::Bswap { .. } => "bswap",
            Instruction::BitReverse { .. } => "bitreverse",
            Instruction::Cttz { .. } => "cttz",
            Instruction::Ctlz { .. } => "ctlz",
            Instruction::Fshl { .. } => "fshl",
            Instruction::Fshr { .. } => "fshr",
            Instruction::SaddWithOverflow { .. } => "sadd.with.overflow",
            Instruction::UaddWithOverflow { .. } => "uadd.with.overflow",
            Instruction::SsubWithOverflow { .. } => "ssub.with.overflow",
            Instruction::UsubWithOverflow { .. } => "usub.with.overflow",
            Instruction::SmulWithOverflow { .. } => "smul.with.overflow",
            Instruction::UmulWithOverflow { .. } => "umul.with.overflow",
            Instruction::SaddSat { .. } => "sadd.sat",
            Instruction::UaddSat { .. } => "uadd.sat",
            Instruction::SsubSat { .. } => "ssub.sat",
            Instruction::UsubSat { .. } => "usub.sat",
            Instruction::ExtractValue { .. } => "extractvalue",
            Instruction::Hole => "hole",
            Instruction::Freeze { .. } => "freeze",
        }
    }
}

/// Two instructions are equal if they have the same word and equal operands.
impl PartialEq for Instruction {
    ghost eq = { eq_of_both (on word_of (pointwise nat_eq)) (on operands_of (pointwise ⟦<Operand as PartialEq>⟧.eq)) };

    ghost laws = { and_per (partial_equiv_from_equiv (on_texts_equal word_of)) (on_per operands_of (lists_per operands_per)) };

    fn eq(&self, other: &Self) -> bool {
        self.instruction_name() == other.instruction_name() && self.operands() == other.operands()
    }
}

impl Eq for Instruction {
    ghost laws = { and_equiv (on_texts_equal word_of) (on_equiv operands_of (lists_equiv operands_equiv)) };
}

/// Shows the word, and the operands as a list.
impl fmt::Debug for Instruction {
    fn fmt<W: fmt::Write>(&self, f: &mut fmt::Formatter<W>) -> fmt::Result {
        f.write_str(self.instruction_name())?;
        f.write_str(" ")?;
        fmt::Debug::fmt(&self.operands(), f)
    }
}
