//! Shifts and funnel shifts.

ghost use Rattle.std.specs.Prelude.{◌≡◌, ◌*◌, ◌/◌, ◌%◌, ◌^◌, ◌<◌, ◌≤◌, nat_le, not, ◌==◌, pos, ◌*ℤ◌};
ghost use Rattle.std.specs.Int.{int_shr};
ghost use Rattle.souper_words.specs.declared.words.Word.TheVariants.{Shl, ShlNsw, ShlNuw, ShlNw, Lshr, LshrExact, Ashr, AshrExact, Fshl, Fshr};
ghost use Rattle.souper_words.specs.Numbers.{signed, bits_of, is_out};
ghost use Rattle.souper_words.specs.Words.{row, row_outcome};

use crate::arithmetic::unless;
use crate::bits::{has_more_bits, low_bits, mask, signed_bits, signed_number};
use crate::outcome::Outcome;

/// The lowest bits of a number shifted left.
fn shifted_left(a: u128, b: u128, width: u32) -> u128
    requires low { 1 ≤ width }
    requires high { width ≤ 128 }
    requires within { b < width }
    ensures { result ≡ bits_of width (pos (a * 2 ^ b)) }
{
    low_bits(a << b as u32, width)
}

/// Whether a signed number has more bits once it is shifted left.
fn signed_shift_wraps(a: u128, b: u128, width: u32) -> bool
    requires low { 1 ≤ width }
    requires high { width ≤ 128 }
    requires fits { a < 2 ^ width }
    requires within { b < width }
    ensures { result ≡ is_out width (signed width a *ℤ pos (2 ^ b)) }
{
    has_more_bits(signed_number(a, width), width - b as u32)
}

/// Whether a number has more bits once it is shifted left.
fn shift_wraps(a: u128, b: u128, width: u32) -> bool
    requires high { width ≤ 128 }
    requires within { b < width }
    ensures { result ≡ nat_le (2 ^ width) (a * 2 ^ b) }
{
    mask(width - b as u32) < a
}

/// A number shifted right.
fn shifted_right(a: u128, b: u128, width: u32) -> u128
    requires high { width ≤ 128 }
    requires fits { a < 2 ^ width }
    requires within { b < width }
    ensures { result ≡ bits_of width (pos (a / 2 ^ b)) }
{
    a >> b as u32
}

/// A signed number shifted right, with copies of its top bit.
fn signed_shifted_right(a: u128, b: u128, width: u32) -> u128
    requires low { 1 ≤ width }
    requires high { width ≤ 128 }
    requires fits { a < 2 ^ width }
    requires within { b < width }
    ensures { result ≡ bits_of width (int_shr (signed width a) b) }
{
    signed_bits(signed_number(a, width) >> b as u32, width)
}

/// Whether a shift to the right loses a bit that is 1.
fn loses_bits(a: u128, b: u128) -> bool
    requires within { b < 128 }
    ensures { result ≡ not (a % 2 ^ b == 0) }
{
    (a >> b as u32) << b as u32 != a
}

/// `shl`
pub fn shl(a: u128, b: u128, width: u32) -> Outcome
    requires low { 1 ≤ width }
    requires high { width ≤ 128 }
    ensures { result ≡ row_outcome width (row Shl width width a b 0) }
{
    if width as u128 <= b {
        return Outcome::Poison;
    }
    Outcome::Number(shifted_left(a, b, width))
}

/// `shlnsw`
pub fn shlnsw(a: u128, b: u128, width: u32) -> Outcome
    requires low { 1 ≤ width }
    requires high { width ≤ 128 }
    requires fits_a { a < 2 ^ width }
    ensures { result ≡ row_outcome width (row ShlNsw width width a b 0) }
{
    if b >= width as u128 {
        return Outcome::Poison;
    }
    unless(signed_shift_wraps(a, b, width), shifted_left(a, b, width))
}

/// `shlnuw`
pub fn shlnuw(a: u128, b: u128, width: u32) -> Outcome
    requires low { 1 ≤ width }
    requires high { width ≤ 128 }
    ensures { result ≡ row_outcome width (row ShlNuw width width a b 0) }
{
    if b >= width as u128 {
        return Outcome::Poison;
    }
    unless(shift_wraps(a, b, width), shifted_left(a, b, width))
}

/// `shlnw`
pub fn shlnw(a: u128, b: u128, width: u32) -> Outcome
    requires low { 1 ≤ width }
    requires high { width ≤ 128 }
    requires fits_a { a < 2 ^ width }
    ensures { result ≡ row_outcome width (row ShlNw width width a b 0) }
{
    if b >= width as u128 {
        return Outcome::Poison;
    }
    let wraps = signed_shift_wraps(a, b, width) || shift_wraps(a, b, width);
    unless(wraps, shifted_left(a, b, width))
}

/// `lshr`
pub fn lshr(a: u128, b: u128, width: u32) -> Outcome
    requires low { 1 ≤ width }
    requires high { width ≤ 128 }
    requires fits_a { a < 2 ^ width }
    ensures { result ≡ row_outcome width (row Lshr width width a b 0) }
{
    if b >= width as u128 {
        return Outcome::Poison;
    }
    Outcome::Number(shifted_right(a, b, width))
}

/// `lshrexact`
pub fn lshrexact(a: u128, b: u128, width: u32) -> Outcome
    requires low { 1 ≤ width }
    requires high { width ≤ 128 }
    requires fits_a { a < 2 ^ width }
    ensures { result ≡ row_outcome width (row LshrExact width width a b 0) }
{
    if b >= width as u128 {
        return Outcome::Poison;
    }
    unless(loses_bits(a, b), shifted_right(a, b, width))
}

/// `ashr`
pub fn ashr(a: u128, b: u128, width: u32) -> Outcome
    requires low { 1 ≤ width }
    requires high { width ≤ 128 }
    requires fits_a { a < 2 ^ width }
    ensures { result ≡ row_outcome width (row Ashr width width a b 0) }
{
    if b >= width as u128 {
        return Outcome::Poison;
    }
    Outcome::Number(signed_shifted_right(a, b, width))
}

/// `ashrexact`
pub fn ashrexact(a: u128, b: u128, width: u32) -> Outcome
    requires low { 1 ≤ width }
    requires high { width ≤ 128 }
    requires fits_a { a < 2 ^ width }
    ensures { result ≡ row_outcome width (row AshrExact width width a b 0) }
{
    if b >= width as u128 {
        return Outcome::Poison;
    }
    unless(loses_bits(a, b), signed_shifted_right(a, b, width))
}

/// `fshl`
pub fn fshl(a: u128, b: u128, c: u128, width: u32) -> Outcome
    requires low { 1 ≤ width }
    requires high { width ≤ 128 }
    requires fits_a { a < 2 ^ width }
    requires fits_b { b < 2 ^ width }
    ensures { result ≡ row_outcome width (row Fshl width width a b c) }
{
    let k = (c % width as u128) as u32;
    if k == 0 {
        return Outcome::Number(a);
    }
    Outcome::Number(low_bits(a << k | b >> (width - k), width))
}

/// `fshr`
pub fn fshr(a: u128, b: u128, c: u128, width: u32) -> Outcome
    requires low { 1 ≤ width }
    requires high { width ≤ 128 }
    requires fits_a { a < 2 ^ width }
    requires fits_b { b < 2 ^ width }
    ensures { result ≡ row_outcome width (row Fshr width width a b c) }
{
    let k = (c % width as u128) as u32;
    if k == 0 {
        return Outcome::Number(b);
    }
    Outcome::Number(low_bits(a << (width - k) | b >> k, width))
}
