//! The word of each instruction: no theorem says which variant a word is for.
use crate::fixtures::number;
use souper_graph::ast::Instruction;
use std::process::Abort;

macro_rules! one {
    ($variant:ident) => {
        Instruction::$variant { a: number(1) }
    };
}

macro_rules! two {
    ($variant:ident) => {
        Instruction::$variant {
            a: number(1),
            b: number(2),
        }
    };
}

macro_rules! three {
    ($variant:ident) => {
        Instruction::$variant {
            a: number(1),
            b: number(2),
            c: number(3),
        }
    };
}

fn word_is(rt: &impl Abort, instruction: Instruction, word: &str, operands: usize) {
    assert_eq!(rt; instruction.instruction_name(), word);
    assert_eq!(rt; instruction.operands().len(), operands);
}

#[test]
fn sums_and_products_have_their_words(rt: HostRuntime) {
    word_is(&rt, two!(Add), "add", 2);
    word_is(&rt, two!(AddNsw), "addnsw", 2);
    word_is(&rt, two!(AddNuw), "addnuw", 2);
    word_is(&rt, two!(AddNw), "addnw", 2);
    word_is(&rt, two!(Sub), "sub", 2);
    word_is(&rt, two!(SubNsw), "subnsw", 2);
    word_is(&rt, two!(SubNuw), "subnuw", 2);
    word_is(&rt, two!(SubNw), "subnw", 2);
    word_is(&rt, two!(Mul), "mul", 2);
    word_is(&rt, two!(MulNsw), "mulnsw", 2);
    word_is(&rt, two!(MulNuw), "mulnuw", 2);
    word_is(&rt, two!(MulNw), "mulnw", 2);
}

#[test]
fn quotients_and_bits_have_their_words(rt: HostRuntime) {
    word_is(&rt, two!(Udiv), "udiv", 2);
    word_is(&rt, two!(Sdiv), "sdiv", 2);
    word_is(&rt, two!(UdivExact), "udivexact", 2);
    word_is(&rt, two!(SdivExact), "sdivexact", 2);
    word_is(&rt, two!(Urem), "urem", 2);
    word_is(&rt, two!(Srem), "srem", 2);
    word_is(&rt, two!(And), "and", 2);
    word_is(&rt, two!(Or), "or", 2);
    word_is(&rt, two!(Xor), "xor", 2);
}

#[test]
fn shifts_have_their_words(rt: HostRuntime) {
    word_is(&rt, two!(Shl), "shl", 2);
    word_is(&rt, two!(ShlNsw), "shlnsw", 2);
    word_is(&rt, two!(ShlNuw), "shlnuw", 2);
    word_is(&rt, two!(ShlNw), "shlnw", 2);
    word_is(&rt, two!(Lshr), "lshr", 2);
    word_is(&rt, two!(LshrExact), "lshrexact", 2);
    word_is(&rt, two!(Ashr), "ashr", 2);
    word_is(&rt, two!(AshrExact), "ashrexact", 2);
}

#[test]
fn comparisons_have_their_words(rt: HostRuntime) {
    word_is(&rt, two!(Eq), "eq", 2);
    word_is(&rt, two!(Ne), "ne", 2);
    word_is(&rt, two!(Ult), "ult", 2);
    word_is(&rt, two!(Slt), "slt", 2);
    word_is(&rt, two!(Ule), "ule", 2);
    word_is(&rt, two!(Sle), "sle", 2);
}

#[test]
fn overflowing_operations_have_their_words(rt: HostRuntime) {
    word_is(&rt, two!(SaddWithOverflow), "sadd.with.overflow", 2);
    word_is(&rt, two!(UaddWithOverflow), "uadd.with.overflow", 2);
    word_is(&rt, two!(SsubWithOverflow), "ssub.with.overflow", 2);
    word_is(&rt, two!(UsubWithOverflow), "usub.with.overflow", 2);
    word_is(&rt, two!(SmulWithOverflow), "smul.with.overflow", 2);
    word_is(&rt, two!(UmulWithOverflow), "umul.with.overflow", 2);
    word_is(&rt, two!(SaddSat), "sadd.sat", 2);
    word_is(&rt, two!(UaddSat), "uadd.sat", 2);
    word_is(&rt, two!(SsubSat), "ssub.sat", 2);
    word_is(&rt, two!(UsubSat), "usub.sat", 2);
    word_is(&rt, two!(ExtractValue), "extractvalue", 2);
}

#[test]
fn other_instructions_have_their_words(rt: HostRuntime) {
    word_is(&rt, Instruction::Hole, "hole", 0);
    word_is(&rt, one!(Zext), "zext", 1);
    word_is(&rt, one!(Sext), "sext", 1);
    word_is(&rt, one!(Trunc), "trunc", 1);
    word_is(&rt, one!(Ctpop), "ctpop", 1);
    word_is(&rt, one!(Bswap), "bswap", 1);
    word_is(&rt, one!(BitReverse), "bitreverse", 1);
    word_is(&rt, one!(Cttz), "cttz", 1);
    word_is(&rt, one!(Ctlz), "ctlz", 1);
    word_is(&rt, one!(Freeze), "freeze", 1);
    word_is(&rt, three!(Select), "select", 3);
    word_is(&rt, three!(Fshl), "fshl", 3);
    word_is(&rt, three!(Fshr), "fshr", 3);
}
