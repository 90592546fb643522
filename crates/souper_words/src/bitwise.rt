//! Words on the bits of a number.

ghost use Rattle.std.specs.Prelude.{◌≡◌, ◌/◌, ◌%◌, ◌^◌, ◌<◌, ◌≤◌, bit_and, bit_or, bit_xor, count_ones};
ghost use Rattle.std.specs.Int.Count.{count_leading_zeros, count_trailing_zeros};
ghost use Rattle.souper_words.specs.declared.words.Word.TheVariants.{And, Or, Xor, Ctpop, Cttz, Ctlz, Bswap, BitReverse};
ghost use Rattle.souper_words.specs.Numbers.{reversed};
ghost use Rattle.souper_words.specs.Words.{row, row_outcome};

use crate::outcome::Outcome;

/// `and`
pub fn and(a: u128, b: u128, width: u32) -> Outcome
    requires low { 1 ≤ width }
    requires high { width ≤ 128 }
    requires fits_a { a < 2 ^ width }
    requires fits_b { b < 2 ^ width }
    ensures { result ≡ row_outcome width (row And width width a b 0) }
{
    Outcome::Number(a & b)
}

/// `or`
pub fn or(a: u128, b: u128, width: u32) -> Outcome
    requires low { 1 ≤ width }
    requires high { width ≤ 128 }
    requires fits_a { a < 2 ^ width }
    requires fits_b { b < 2 ^ width }
    ensures { result ≡ row_outcome width (row Or width width a b 0) }
{
    Outcome::Number(a | b)
}

/// `xor`
pub fn xor(a: u128, b: u128, width: u32) -> Outcome
    requires low { 1 ≤ width }
    requires high { width ≤ 128 }
    requires fits_a { a < 2 ^ width }
    requires fits_b { b < 2 ^ width }
    ensures { result ≡ row_outcome width (row Xor width width a b 0) }
{
    Outcome::Number(a ^ b)
}

/// `ctpop`
pub fn ctpop(a: u128, width: u32) -> Outcome
    requires low { 1 ≤ width }
    requires high { width ≤ 128 }
    requires fits_a { a < 2 ^ width }
    ensures { result ≡ row_outcome width (row Ctpop width width a 0 0) }
{
    Outcome::Number(a.count_ones() as u128)
}

/// `cttz`
pub fn cttz(a: u128, width: u32) -> Outcome
    requires low { 1 ≤ width }
    requires high { width ≤ 128 }
    requires fits_a { a < 2 ^ width }
    ensures { result ≡ row_outcome width (row Cttz width width a 0 0) }
{
    Outcome::Number(a.trailing_zeros().min(width) as u128)
}

/// `ctlz`
pub fn ctlz(a: u128, width: u32) -> Outcome
    requires low { 1 ≤ width }
    requires high { width ≤ 128 }
    requires fits_a { a < 2 ^ width }
    ensures { result ≡ row_outcome width (row Ctlz width width a 0 0) }
{
    Outcome::Number((a.leading_zeros() - (128 - width)) as u128)
}

/// `bitreverse`
pub fn bitreverse(a: u128, width: u32) -> Outcome
    requires low { 1 ≤ width }
    requires high { width ≤ 128 }
    requires fits_a { a < 2 ^ width }
    ensures { result ≡ row_outcome width (row BitReverse width width a 0 0) }
{
    Outcome::Number(a.reverse_bits() >> (128 - width))
}

/// `bswap`
pub fn bswap(a: u128, width: u32) -> Outcome
    requires low { 1 ≤ width }
    requires high { width ≤ 128 }
    requires fits_a { a < 2 ^ width }
    requires bytes { width % 8 ≡ 0 }
    ensures { result ≡ row_outcome width (row Bswap width width a 0 0) }
{
    Outcome::Number(a.swap_bytes() >> (128 - width))
}
