//! Quotients and rests.

ghost use Rattle.std.specs.Prelude.{◌≡◌, ◌≢◌, ◌^◌, ◌-◌, ◌%◌, ◌<◌, ◌≤◌, not, ◌==◌, false, int_div, ◌-ℤ◌, ◌*ℤ◌};
ghost use Rattle.souper_words.specs.declared.words.Word.TheVariants.{Udiv, Sdiv, UdivExact, SdivExact, Urem, Srem};
ghost use Rattle.souper_words.specs.Numbers.{signed, bits_of};
ghost use Rattle.souper_words.specs.Words.{row, row_outcome, divides_out, leaves_rest};

use crate::arithmetic::unless;
use crate::bits::{mask, signed_bits, signed_number};
use crate::outcome::Outcome;

/// Whether a signed division is by 0, or of the least number by -1.
pub fn divides_beyond(a: u128, b: u128, width: u32) -> bool
    requires low { 1 ≤ width }
    requires high { width ≤ 128 }
    ensures { result ≡ divides_out width a b }
{
    let mask = mask(width);
    b == 0 || (a == mask / 2 + 1 && b == mask)
}

/// The quotient of two signed numbers, rounded to 0.
fn signed_quotient(a: u128, b: u128, width: u32) -> u128
    requires low { 1 ≤ width }
    requires high { width ≤ 128 }
    requires fits_a { a < 2 ^ width }
    requires fits_b { b < 2 ^ width }
    requires divides { divides_out width a b ≡ false }
    ensures { result ≡ bits_of width (int_div (signed width a) (signed width b)) }
{
    signed_bits(signed_number(a, width) / signed_number(b, width), width)
}

/// The rest of a division of two signed numbers, which has the sign of the first.
fn signed_rest(a: u128, b: u128, width: u32) -> u128
    requires low { 1 ≤ width }
    requires high { width ≤ 128 }
    requires fits_a { a < 2 ^ width }
    requires fits_b { b < 2 ^ width }
    requires divides { divides_out width a b ≡ false }
    ensures { result ≡ bits_of width (signed width a -ℤ signed width b *ℤ int_div (signed width a) (signed width b)) }
{
    signed_bits(signed_number(a, width) % signed_number(b, width), width)
}

/// Whether a division of two signed numbers has a rest.
fn has_signed_rest(a: u128, b: u128, width: u32) -> bool
    requires low { 1 ≤ width }
    requires high { width ≤ 128 }
    requires fits_a { a < 2 ^ width }
    requires fits_b { b < 2 ^ width }
    requires divides { divides_out width a b ≡ false }
    ensures { result ≡ leaves_rest width a b }
{
    let rest = signed_number(a, width).unsigned_abs() % signed_number(b, width).unsigned_abs();
    rest != 0
}

/// `udiv`
pub fn udiv(a: u128, b: u128, width: u32) -> Outcome
    requires low { 1 ≤ width }
    requires high { width ≤ 128 }
    requires fits_a { a < 2 ^ width }
    ensures { result ≡ row_outcome width (row Udiv width width a b 0) }
{
    if b == 0 {
        return Outcome::Undefined;
    }
    Outcome::Number(a / b)
}

/// `sdiv`
pub fn sdiv(a: u128, b: u128, width: u32) -> Outcome
    requires low { 1 ≤ width }
    requires high { width ≤ 128 }
    requires fits_a { a < 2 ^ width }
    requires fits_b { b < 2 ^ width }
    ensures { result ≡ row_outcome width (row Sdiv width width a b 0) }
{
    if divides_beyond(a, b, width) {
        return Outcome::Undefined;
    }
    Outcome::Number(signed_quotient(a, b, width))
}

/// `udivexact`
pub fn udivexact(a: u128, b: u128, width: u32) -> Outcome
    requires low { 1 ≤ width }
    requires high { width ≤ 128 }
    requires fits_a { a < 2 ^ width }
    ensures { result ≡ row_outcome width (row UdivExact width width a b 0) }
{
    if b == 0 {
        return Outcome::Undefined;
    }
    unless(a % b != 0, a / b)
}

/// `sdivexact`
pub fn sdivexact(a: u128, b: u128, width: u32) -> Outcome
    requires low { 1 ≤ width }
    requires high { width ≤ 128 }
    requires fits_a { a < 2 ^ width }
    requires fits_b { b < 2 ^ width }
    ensures { result ≡ row_outcome width (row SdivExact width width a b 0) }
{
    if divides_beyond(a, b, width) {
        return Outcome::Undefined;
    }
    unless(has_signed_rest(a, b, width), signed_quotient(a, b, width))
}

/// `urem`
pub fn urem(a: u128, b: u128, width: u32) -> Outcome
    requires low { 1 ≤ width }
    requires high { width ≤ 128 }
    requires fits_a { a < 2 ^ width }
    ensures { result ≡ row_outcome width (row Urem width width a b 0) }
{
    if b == 0 {
        return Outcome::Undefined;
    }
    Outcome::Number(a % b)
}

/// `srem`
pub fn srem(a: u128, b: u128, width: u32) -> Outcome
    requires low { 1 ≤ width }
    requires high { width ≤ 128 }
    requires fits_a { a < 2 ^ width }
    requires fits_b { b < 2 ^ width }
    ensures { result ≡ row_outcome width (row Srem width width a b 0) }
{
    if divides_beyond(a, b, width) {
        return Outcome::Undefined;
    }
    Outcome::Number(signed_rest(a, b, width))
}
