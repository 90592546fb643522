//! Sums, differences and products with their overflow, and those that saturate.

ghost use Rattle.std.specs.Prelude.{◌≡◌, ◌+◌, ◌-◌, ◌*◌, ◌/◌, ◌%◌, ◌^◌, ◌<◌, ◌≤◌, min, if◌then◌else◌};
ghost use Rattle.std.specs.Int.{saturate_to_bits};
ghost use Rattle.souper_words.specs.declared.outcome.Outcome.TheVariants.{Number};
ghost use Rattle.souper_words.specs.declared.words.Word.TheVariants.{SaddWithOverflow, UaddWithOverflow, SsubWithOverflow, UsubWithOverflow, SmulWithOverflow, UmulWithOverflow, SaddSat, UaddSat, SsubSat, UsubSat, ExtractValue};
ghost use Rattle.souper_words.specs.Numbers.{bits_of};
ghost use Rattle.souper_words.specs.Words.{row, row_outcome};

use crate::arithmetic::{
    difference, product, product_wraps, signed_difference_wraps, signed_product_wraps,
    signed_sum_wraps, sum, sum_wraps,
};
use crate::bits::{low_bits, mask, signed_bits, signed_number};
use crate::outcome::Outcome;

/// The pair of a number and its overflow, which is the bit above it.
fn paired(n: u128, overflow: bool, width: u32) -> Outcome
    requires high { width ≤ 127 }
    requires fits { n < 2 ^ width }
    ensures { result ≡ Number ((n + (if overflow then 2 ^ width else 0)) % 2 ^ (width + 1)) }
{
    Outcome::Number(if overflow { n + (1 << width) } else { n })
}

/// The bits of the signed number of this width that is nearest.
fn nearest(z: i128, width: u32) -> u128
    requires low { 1 ≤ width }
    requires high { width ≤ 128 }
    ensures { result ≡ bits_of width (saturate_to_bits (width - 1) z) }
{
    let greatest = (mask(width) / 2) as i128;
    signed_bits(z.clamp(!greatest, greatest), width)
}

/// `sadd_with_overflow`
pub fn sadd_with_overflow(a: u128, b: u128, width: u32) -> Outcome
    requires low { 1 ≤ width }
    requires high { width ≤ 127 }
    requires fits_a { a < 2 ^ width }
    requires fits_b { b < 2 ^ width }
    ensures { result ≡ row_outcome (width + 1) (row SaddWithOverflow (width + 1) width a b 0) }
{
    paired(sum(a, b, width), signed_sum_wraps(a, b, width), width)
}

/// `uadd_with_overflow`
pub fn uadd_with_overflow(a: u128, b: u128, width: u32) -> Outcome
    requires low { 1 ≤ width }
    requires high { width ≤ 127 }
    ensures { result ≡ row_outcome (width + 1) (row UaddWithOverflow (width + 1) width a b 0) }
{
    paired(sum(a, b, width), sum_wraps(a, b, width), width)
}

/// `ssub_with_overflow`
pub fn ssub_with_overflow(a: u128, b: u128, width: u32) -> Outcome
    requires low { 1 ≤ width }
    requires high { width ≤ 127 }
    requires fits_a { a < 2 ^ width }
    requires fits_b { b < 2 ^ width }
    ensures { result ≡ row_outcome (width + 1) (row SsubWithOverflow (width + 1) width a b 0) }
{
    paired(
        difference(a, b, width),
        signed_difference_wraps(a, b, width),
        width,
    )
}

/// `usub_with_overflow`
pub fn usub_with_overflow(a: u128, b: u128, width: u32) -> Outcome
    requires low { 1 ≤ width }
    requires high { width ≤ 127 }
    ensures { result ≡ row_outcome (width + 1) (row UsubWithOverflow (width + 1) width a b 0) }
{
    paired(difference(a, b, width), a < b, width)
}

/// `smul_with_overflow`
pub fn smul_with_overflow(a: u128, b: u128, width: u32) -> Outcome
    requires low { 1 ≤ width }
    requires high { width ≤ 127 }
    requires fits_a { a < 2 ^ width }
    requires fits_b { b < 2 ^ width }
    ensures { result ≡ row_outcome (width + 1) (row SmulWithOverflow (width + 1) width a b 0) }
{
    paired(
        product(a, b, width),
        signed_product_wraps(a, b, width),
        width,
    )
}

/// `umul_with_overflow`
pub fn umul_with_overflow(a: u128, b: u128, width: u32) -> Outcome
    requires low { 1 ≤ width }
    requires high { width ≤ 127 }
    ensures { result ≡ row_outcome (width + 1) (row UmulWithOverflow (width + 1) width a b 0) }
{
    paired(product(a, b, width), product_wraps(a, b, width), width)
}

/// `sadd_sat`
pub fn sadd_sat(a: u128, b: u128, width: u32) -> Outcome
    requires low { 1 ≤ width }
    requires high { width ≤ 128 }
    requires fits_a { a < 2 ^ width }
    requires fits_b { b < 2 ^ width }
    ensures { result ≡ row_outcome width (row SaddSat width width a b 0) }
{
    let sum = signed_number(a, width).saturating_add(signed_number(b, width));
    Outcome::Number(nearest(sum, width))
}

/// `uadd_sat`
pub fn uadd_sat(a: u128, b: u128, width: u32) -> Outcome
    requires low { 1 ≤ width }
    requires high { width ≤ 128 }
    ensures { result ≡ row_outcome width (row UaddSat width width a b 0) }
{
    Outcome::Number(a.saturating_add(b).min(mask(width)))
}

/// `ssub_sat`
pub fn ssub_sat(a: u128, b: u128, width: u32) -> Outcome
    requires low { 1 ≤ width }
    requires high { width ≤ 128 }
    requires fits_a { a < 2 ^ width }
    requires fits_b { b < 2 ^ width }
    ensures { result ≡ row_outcome width (row SsubSat width width a b 0) }
{
    let difference = signed_number(a, width).saturating_sub(signed_number(b, width));
    Outcome::Number(nearest(difference, width))
}

/// `usub_sat`
pub fn usub_sat(a: u128, b: u128, width: u32) -> Outcome
    requires low { 1 ≤ width }
    requires high { width ≤ 128 }
    requires fits_a { a < 2 ^ width }
    ensures { result ≡ row_outcome width (row UsubSat width width a b 0) }
{
    Outcome::Number(a.saturating_sub(b))
}

/// `extractvalue`, of a pair whose number has a width
pub fn extractvalue(a: u128, b: u128, from: u32, width: u32) -> Outcome
    requires low { 1 ≤ width }
    requires high { width ≤ 128 }
    requires from_low { 1 ≤ from }
    requires from_high { from ≤ 128 }
    ensures { result ≡ row_outcome width (row ExtractValue width from a b 0) }
{
    if b != 0 {
        return Outcome::Number(low_bits(a >> (from - 1), width));
    }
    if from == 1 {
        return Outcome::Number(0);
    }
    Outcome::Number(low_bits(low_bits(a, from - 1), width))
}
