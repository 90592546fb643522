//! Comparisons, and other widths of a number.

ghost use Rattle.std.specs.Prelude.{◌≡◌, ◌^◌, ◌<◌, ◌≤◌, Bool};
ghost use Rattle.souper_words.specs.declared.outcome.Outcome.TheVariants.{Number};
ghost use Rattle.souper_words.specs.declared.words.Word.TheVariants.{Zext, Sext, Trunc, Eq, Ne, Ult, Slt, Ule, Sle};
ghost use Rattle.souper_words.specs.Numbers.{signed, bits_of};
ghost use Rattle.souper_words.specs.Words.{row, row_outcome, bit as bit_number};

use crate::bits::{low_bits, signed_bits, signed_number};
use crate::outcome::Outcome;

/// One bit: whether the test holds.
fn bit(holds: bool) -> Outcome
    ensures { result ≡ Number (bits_of 1 (bit_number holds)) }
{
    Outcome::Number(if holds { 1 } else { 0 })
}

/// `eq`
pub fn eq(a: u128, b: u128) -> Outcome
    ensures { result ≡ row_outcome 1 (row Eq 1 0 a b 0) }
{
    bit(a == b)
}

/// `ne`
pub fn ne(a: u128, b: u128) -> Outcome
    ensures { result ≡ row_outcome 1 (row Ne 1 0 a b 0) }
{
    bit(a != b)
}

/// `ult`
pub fn ult(a: u128, b: u128) -> Outcome
    ensures { result ≡ row_outcome 1 (row Ult 1 0 a b 0) }
{
    bit(a < b)
}

/// `ule`
pub fn ule(a: u128, b: u128) -> Outcome
    ensures { result ≡ row_outcome 1 (row Ule 1 0 a b 0) }
{
    bit(a <= b)
}

/// `slt`
pub fn slt(a: u128, b: u128, width: u32) -> Outcome
    requires low { 1 ≤ width }
    requires high { width ≤ 128 }
    requires fits_a { a < 2 ^ width }
    requires fits_b { b < 2 ^ width }
    ensures { result ≡ row_outcome 1 (row Slt 1 width a b 0) }
{
    bit(signed_number(a, width) < signed_number(b, width))
}

/// `sle`
pub fn sle(a: u128, b: u128, width: u32) -> Outcome
    requires low { 1 ≤ width }
    requires high { width ≤ 128 }
    requires fits_a { a < 2 ^ width }
    requires fits_b { b < 2 ^ width }
    ensures { result ≡ row_outcome 1 (row Sle 1 width a b 0) }
{
    bit(signed_number(a, width) <= signed_number(b, width))
}

/// `zext`
pub fn zext(a: u128, width: u32) -> Outcome
    requires low { 1 ≤ width }
    requires high { width ≤ 128 }
    ensures { result ≡ row_outcome width (row Zext width width a 0 0) }
{
    Outcome::Number(low_bits(a, width))
}

/// `trunc`
pub fn trunc(a: u128, width: u32) -> Outcome
    requires low { 1 ≤ width }
    requires high { width ≤ 128 }
    ensures { result ≡ row_outcome width (row Trunc width width a 0 0) }
{
    Outcome::Number(low_bits(a, width))
}

/// `sext`, from a width to another
pub fn sext(a: u128, from: u32, width: u32) -> Outcome
    requires low { 1 ≤ width }
    requires high { width ≤ 128 }
    requires from_low { 1 ≤ from }
    requires from_high { from ≤ 128 }
    requires fits { a < 2 ^ from }
    ensures { result ≡ row_outcome width (row Sext width from a 0 0) }
{
    Outcome::Number(signed_bits(signed_number(a, from), width))
}
