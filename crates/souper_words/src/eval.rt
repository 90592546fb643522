//! The outcome of a word.

ghost use Rattle.std.specs.Prelude.{if◌then◌else◌, ◌≡◌, ◌-◌, ◌^◌, ◌<◌, ◌≤◌, ℕ, ◌||◌, ◌==◌};
ghost use Rattle.souper_words.specs.declared.outcome.Outcome.TheVariants.{Poison};
ghost use Rattle.souper_words.specs.Outcomes.{is_undefined, is_poison, number_or, frozen, selected};
ghost use Rattle.souper_words.specs.Words.{row, row_outcome, outcome, is_undefined_at, AreWidths};

use crate::arithmetic::{
    add, addnsw, addnuw, addnw, mul, mulnsw, mulnuw, mulnw, sub, subnsw, subnuw, subnw,
};
use crate::bits::mask;
use crate::bitwise::{and, bitreverse, bswap, ctlz, ctpop, cttz, or, xor};
use crate::comparisons::{eq, ne, sext, sle, slt, trunc, ule, ult, zext};
use crate::divisions::{divides_beyond, sdiv, sdivexact, srem, udiv, udivexact, urem};
use crate::outcome::Outcome;
use crate::overflows::{
    extractvalue, sadd_sat, sadd_with_overflow, smul_with_overflow, ssub_sat, ssub_with_overflow,
    uadd_sat, uadd_with_overflow, umul_with_overflow, usub_sat, usub_with_overflow,
};
use crate::shifts::{ashr, ashrexact, fshl, fshr, lshr, lshrexact, shl, shlnsw, shlnuw, shlnw};
use crate::words::Word;

/// The widths of a result and of the operands, in bits.
#[derive(Clone, Copy, Debug, PartialEq, Eq)]
pub struct Widths {
    pub result: u32,
    pub operands: u32,
}

/// What a word gives for numbers; of `select` and `freeze` what they give for numbers too.
fn outcome_of_numbers(word: Word, widths: Widths, a: u128, b: u128, c: u128) -> Outcome
    requires result_low { 1 ≤ widths.result }
    requires result_high { widths.result ≤ 128 }
    requires low { 1 ≤ widths.operands }
    requires high { widths.operands ≤ 128 }
    requires widths { AreWidths word widths.result widths.operands }
    requires fits_a { a < 2 ^ widths.operands }
    requires fits_b { b < 2 ^ widths.operands }
    requires fits_c { c < 2 ^ widths.operands }
    ensures { result ≡ row_outcome widths.result (row word widths.result widths.operands a b c) }
{
    let result_width = widths.result;
    let width = widths.operands;
    match word {
        Word::Add => add(a, b, width),
        Word::AddNsw => addnsw(a, b, width),
        Word::AddNuw => addnuw(a, b, width),
        Word::AddNw => addnw(a, b, width),
        Word::Sub => sub(a, b, width),
        Word::SubNsw => subnsw(a, b, width),
        Word::SubNuw => subnuw(a, b, width),
        Word::SubNw => subnw(a, b, width),
        Word::Mul => mul(a, b, width),
        Word::MulNsw => mulnsw(a, b, width),
        Word::MulNuw => mulnuw(a, b, width),
        Word::MulNw => mulnw(a, b, width),
        Word::Shl => shl(a, b, width),
        Word::ShlNsw => shlnsw(a, b, width),
        Word::ShlNuw => shlnuw(a, b, width),
        Word::ShlNw => shlnw(a, b, width),
        Word::Udiv => udiv(a, b, width),
        Word::Sdiv => sdiv(a, b, width),
        Word::UdivExact => udivexact(a, b, width),
        Word::SdivExact => sdivexact(a, b, width),
        Word::Urem => urem(a, b, width),
        Word::Srem => srem(a, b, width),
        Word::And => and(a, b, width),
        Word::Or => or(a, b, width),
        Word::Xor => xor(a, b, width),
        Word::Lshr => lshr(a, b, width),
        Word::LshrExact => lshrexact(a, b, width),
        Word::Ashr => ashr(a, b, width),
        Word::AshrExact => ashrexact(a, b, width),
        Word::Zext => zext(a, result_width),
        Word::Sext => sext(a, width, result_width),
        Word::Trunc => trunc(a, result_width),
        Word::Eq => eq(a, b),
        Word::Ne => ne(a, b),
        Word::Ult => ult(a, b),
        Word::Slt => slt(a, b, width),
        Word::Ule => ule(a, b),
        Word::Sle => sle(a, b, width),
        Word::Ctpop => ctpop(a, width),
        Word::Bswap => bswap(a, width),
        Word::BitReverse => bitreverse(a, width),
        Word::Cttz => cttz(a, width),
        Word::Ctlz => ctlz(a, width),
        Word::Fshl => fshl(a, b, c, width),
        Word::Fshr => fshr(a, b, c, width),
        Word::SaddWithOverflow => sadd_with_overflow(a, b, width),
        Word::UaddWithOverflow => uadd_with_overflow(a, b, width),
        Word::SsubWithOverflow => ssub_with_overflow(a, b, width),
        Word::UsubWithOverflow => usub_with_overflow(a, b, width),
        Word::SmulWithOverflow => smul_with_overflow(a, b, width),
        Word::UmulWithOverflow => umul_with_overflow(a, b, width),
        Word::SaddSat => sadd_sat(a, b, width),
        Word::UaddSat => uadd_sat(a, b, width),
        Word::SsubSat => ssub_sat(a, b, width),
        Word::UsubSat => usub_sat(a, b, width),
        Word::ExtractValue => extractvalue(a, b, width, result_width),
        Word::Select => trunc(if a == 1 { b } else { c }, result_width),
        Word::Freeze => trunc(a, result_width),
    }
}

/// The number, or another one for poison and undefined behaviour.
fn value_or(outcome: Outcome, other: u128) -> u128
    ensures { result ≡ number_or other outcome }
{
    match outcome {
        Outcome::Number(n) => n,
        Outcome::Poison => other,
        Outcome::Undefined => other,
    }
}

/// Whether the outcome is undefined behaviour.
fn is_without_meaning(outcome: Outcome) -> bool
    ensures { result ≡ is_undefined outcome }
{
    match outcome {
        Outcome::Number(_) => false,
        Outcome::Poison => false,
        Outcome::Undefined => true,
    }
}

/// Whether the outcome is poison.
fn is_poisoned(outcome: Outcome) -> bool
    ensures { result ≡ is_poison outcome }
{
    match outcome {
        Outcome::Number(_) => false,
        Outcome::Poison => true,
        Outcome::Undefined => false,
    }
}

/// Whether operands make a division undefined behaviour. A poison divisor may be 0, a poison dividend the least signed number.
fn is_undefined_division(word: Word, width: u32, a: Outcome, b: Outcome) -> bool
    requires low { 1 ≤ width }
    requires high { width ≤ 128 }
    ensures { (w : ℕ) → result ≡ is_undefined_at word w width a b }
{
    let divisor = value_or(b, 0);
    let dividend = value_or(a, mask(width) / 2 + 1);
    match word {
        Word::Udiv => divisor == 0,
        Word::Sdiv => divides_beyond(dividend, divisor, width),
        Word::UdivExact => divisor == 0,
        Word::SdivExact => divides_beyond(dividend, divisor, width),
        Word::Urem => divisor == 0,
        Word::Srem => divides_beyond(dividend, divisor, width),
        _ => false,
    }
}

/// The chosen arm, or poison by a poison condition.
fn select(condition: Outcome, a: Outcome, b: Outcome) -> Outcome
    ensures { result ≡ selected condition a b }
{
    match condition {
        Outcome::Number(n) => { if n == 1 { a } else { b } }
        Outcome::Poison => Outcome::Poison,
        Outcome::Undefined => Outcome::Undefined,
    }
}

/// A choice for poison.
fn freeze(choice: u128, a: Outcome) -> Outcome
    ensures { result ≡ frozen choice a }
{
    match a {
        Outcome::Number(n) => Outcome::Number(n),
        Outcome::Poison => Outcome::Number(choice),
        Outcome::Undefined => Outcome::Undefined,
    }
}

/// What a word but `select` and `freeze` gives for operands that are numbers or poison.
fn outcome_of_operands(word: Word, widths: Widths, a: Outcome, b: Outcome, c: Outcome) -> Outcome
    requires result_low { 1 ≤ widths.result }
    requires result_high { widths.result ≤ 128 }
    requires low { 1 ≤ widths.operands }
    requires high { widths.operands ≤ 128 }
    requires widths { AreWidths word widths.result widths.operands }
    requires fits_a { number_or 0 a < 2 ^ widths.operands }
    requires fits_b { number_or 0 b < 2 ^ widths.operands }
    requires fits_c { number_or 0 c < 2 ^ widths.operands }
    ensures { result ≡ (if is_poison a || is_poison b || is_poison c then Poison else row_outcome widths.result (row word widths.result widths.operands (number_or 0 a) (number_or 0 b) (number_or 0 c))) }
{
    if is_poisoned(a) || is_poisoned(b) || is_poisoned(c) {
        return Outcome::Poison;
    }
    outcome_of_numbers(word, widths, value_or(a, 0), value_or(b, 0), value_or(c, 0))
}

/// The outcome of a word, by those of its operands. A freeze of poison gives the choice. An operand that the word lacks is the
/// number 0.
pub fn outcome_of(
    word: Word,
    widths: Widths,
    choice: u128,
    a: Outcome,
    b: Outcome,
    c: Outcome,
) -> Outcome
    requires result_low { 1 ≤ widths.result }
    requires result_high { widths.result ≤ 128 }
    requires low { 1 ≤ widths.operands }
    requires high { widths.operands ≤ 128 }
    requires widths { AreWidths word widths.result widths.operands }
    requires fits_a { number_or 0 a < 2 ^ widths.operands }
    requires fits_b { number_or 0 b < 2 ^ widths.operands }
    requires fits_c { number_or 0 c < 2 ^ widths.operands }
    ensures { result ≡ outcome word widths.result widths.operands choice a b c }
{
    if is_without_meaning(a) || is_without_meaning(b) || is_without_meaning(c) {
        return Outcome::Undefined;
    }
    if is_undefined_division(word, widths.operands, a, b) {
        return Outcome::Undefined;
    }
    match word {
        Word::Select => select(a, b, c),
        Word::Freeze => freeze(choice, a),
        _ => outcome_of_operands(word, widths, a, b, c),
    }
}
