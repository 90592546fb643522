//! Sums, differences and products.

ghost use Rattle.std.specs.Prelude.{if◌then◌else◌, ◌≡◌, ◌+◌, ◌*◌, ◌^◌, ◌<◌, ◌≤◌, nat_le, nat_lt, ℕ, pos, ◌+ℤ◌, ◌-ℤ◌, ◌*ℤ◌, SomeIff};
ghost use Rattle.souper_words.specs.declared.outcome.Outcome.TheVariants.{Number, Poison};
ghost use Rattle.souper_words.specs.declared.words.Word.TheVariants.{Add, AddNsw, AddNuw, AddNw, Sub, SubNsw, SubNuw, SubNw, Mul, MulNsw, MulNuw, MulNw};
ghost use Rattle.souper_words.specs.Numbers.{signed, bits_of, is_out};
ghost use Rattle.souper_words.specs.Words.{row, row_outcome};

use crate::bits::{low_bits, mask, result_has_more_bits, signed_number};
use crate::outcome::Outcome;

/// The number, or poison.
pub fn unless(poison: bool, n: u128) -> Outcome
    ensures { result ≡ (if poison then Poison else Number n) }
{
    if poison {
        Outcome::Poison
    } else {
        Outcome::Number(n)
    }
}

/// The lowest bits of a sum.
pub fn sum(a: u128, b: u128, width: u32) -> u128
    requires low { 1 ≤ width }
    requires high { width ≤ 128 }
    ensures { result ≡ bits_of width (pos (a + b)) }
{
    low_bits(a.wrapping_add(b), width)
}

/// The lowest bits of a difference.
pub fn difference(a: u128, b: u128, width: u32) -> u128
    requires low { 1 ≤ width }
    requires high { width ≤ 128 }
    ensures { result ≡ bits_of width (pos a -ℤ pos b) }
{
    low_bits(a.wrapping_sub(b), width)
}

/// The lowest bits of a product.
pub fn product(a: u128, b: u128, width: u32) -> u128
    requires low { 1 ≤ width }
    requires high { width ≤ 128 }
    ensures { result ≡ bits_of width (pos (a * b)) }
{
    low_bits(a.wrapping_mul(b), width)
}

/// Whether a number has more bits, where `None` is one that has more than 128.
pub fn exceeds(n: Option<u128>, width: u32) -> bool
    requires low { 1 ≤ width }
    requires high { width ≤ 128 }
    ensures { (m : ℕ) → SomeIff n (m < 2 ^ 128) m → result ≡ nat_le (2 ^ width) m }
{
    match n {
        Some(m) => mask(width) < m,
        None => true,
    }
}

/// Whether the sum of two signed numbers has more bits.
pub fn signed_sum_wraps(a: u128, b: u128, width: u32) -> bool
    requires low { 1 ≤ width }
    requires high { width ≤ 128 }
    requires fits_a { a < 2 ^ width }
    requires fits_b { b < 2 ^ width }
    ensures { result ≡ is_out width (signed width a +ℤ signed width b) }
{
    let sum = signed_number(a, width).checked_add(signed_number(b, width));
    result_has_more_bits(sum, width)
}

/// Whether the difference of two signed numbers has more bits.
pub fn signed_difference_wraps(a: u128, b: u128, width: u32) -> bool
    requires low { 1 ≤ width }
    requires high { width ≤ 128 }
    requires fits_a { a < 2 ^ width }
    requires fits_b { b < 2 ^ width }
    ensures { result ≡ is_out width (signed width a -ℤ signed width b) }
{
    let difference = signed_number(a, width).checked_sub(signed_number(b, width));
    result_has_more_bits(difference, width)
}

/// Whether the product of two signed numbers has more bits.
pub fn signed_product_wraps(a: u128, b: u128, width: u32) -> bool
    requires low { 1 ≤ width }
    requires high { width ≤ 128 }
    requires fits_a { a < 2 ^ width }
    requires fits_b { b < 2 ^ width }
    ensures { result ≡ is_out width (signed width a *ℤ signed width b) }
{
    let product = signed_number(a, width).checked_mul(signed_number(b, width));
    result_has_more_bits(product, width)
}

/// Whether a sum has more bits.
pub fn sum_wraps(a: u128, b: u128, width: u32) -> bool
    requires low { 1 ≤ width }
    requires high { width ≤ 128 }
    ensures { result ≡ nat_le (2 ^ width) (a + b) }
{
    exceeds(a.checked_add(b), width)
}

/// Whether a product has more bits.
pub fn product_wraps(a: u128, b: u128, width: u32) -> bool
    requires low { 1 ≤ width }
    requires high { width ≤ 128 }
    ensures { result ≡ nat_le (2 ^ width) (a * b) }
{
    exceeds(a.checked_mul(b), width)
}

/// `add`
pub fn add(a: u128, b: u128, width: u32) -> Outcome
    requires low { 1 ≤ width }
    requires high { width ≤ 128 }
    ensures { result ≡ row_outcome width (row Add width width a b 0) }
{
    Outcome::Number(sum(a, b, width))
}

/// `addnsw`
pub fn addnsw(a: u128, b: u128, width: u32) -> Outcome
    requires low { 1 ≤ width }
    requires high { width ≤ 128 }
    requires fits_a { a < 2 ^ width }
    requires fits_b { b < 2 ^ width }
    ensures { result ≡ row_outcome width (row AddNsw width width a b 0) }
{
    unless(signed_sum_wraps(a, b, width), sum(a, b, width))
}

/// `addnuw`
pub fn addnuw(a: u128, b: u128, width: u32) -> Outcome
    requires low { 1 ≤ width }
    requires high { width ≤ 128 }
    ensures { result ≡ row_outcome width (row AddNuw width width a b 0) }
{
    unless(sum_wraps(a, b, width), sum(a, b, width))
}

/// `addnw`
pub fn addnw(a: u128, b: u128, width: u32) -> Outcome
    requires low { 1 ≤ width }
    requires high { width ≤ 128 }
    requires fits_a { a < 2 ^ width }
    requires fits_b { b < 2 ^ width }
    ensures { result ≡ row_outcome width (row AddNw width width a b 0) }
{
    let wraps = signed_sum_wraps(a, b, width) || sum_wraps(a, b, width);
    unless(wraps, sum(a, b, width))
}

/// `sub`
pub fn sub(a: u128, b: u128, width: u32) -> Outcome
    requires low { 1 ≤ width }
    requires high { width ≤ 128 }
    ensures { result ≡ row_outcome width (row Sub width width a b 0) }
{
    Outcome::Number(difference(a, b, width))
}

/// `subnsw`
pub fn subnsw(a: u128, b: u128, width: u32) -> Outcome
    requires low { 1 ≤ width }
    requires high { width ≤ 128 }
    requires fits_a { a < 2 ^ width }
    requires fits_b { b < 2 ^ width }
    ensures { result ≡ row_outcome width (row SubNsw width width a b 0) }
{
    unless(
        signed_difference_wraps(a, b, width),
        difference(a, b, width),
    )
}

/// `subnuw`
pub fn subnuw(a: u128, b: u128, width: u32) -> Outcome
    requires low { 1 ≤ width }
    requires high { width ≤ 128 }
    ensures { result ≡ row_outcome width (row SubNuw width width a b 0) }
{
    unless(a < b, difference(a, b, width))
}

/// `subnw`
pub fn subnw(a: u128, b: u128, width: u32) -> Outcome
    requires low { 1 ≤ width }
    requires high { width ≤ 128 }
    requires fits_a { a < 2 ^ width }
    requires fits_b { b < 2 ^ width }
    ensures { result ≡ row_outcome width (row SubNw width width a b 0) }
{
    let wraps = signed_difference_wraps(a, b, width) || a < b;
    unless(wraps, difference(a, b, width))
}

/// `mul`
pub fn mul(a: u128, b: u128, width: u32) -> Outcome
    requires low { 1 ≤ width }
    requires high { width ≤ 128 }
    ensures { result ≡ row_outcome width (row Mul width width a b 0) }
{
    Outcome::Number(product(a, b, width))
}

/// `mulnsw`
pub fn mulnsw(a: u128, b: u128, width: u32) -> Outcome
    requires low { 1 ≤ width }
    requires high { width ≤ 128 }
    requires fits_a { a < 2 ^ width }
    requires fits_b { b < 2 ^ width }
    ensures { result ≡ row_outcome width (row MulNsw width width a b 0) }
{
    unless(signed_product_wraps(a, b, width), product(a, b, width))
}

/// `mulnuw`
pub fn mulnuw(a: u128, b: u128, width: u32) -> Outcome
    requires low { 1 ≤ width }
    requires high { width ≤ 128 }
    ensures { result ≡ row_outcome width (row MulNuw width width a b 0) }
{
    unless(product_wraps(a, b, width), product(a, b, width))
}

/// `mulnw`
pub fn mulnw(a: u128, b: u128, width: u32) -> Outcome
    requires low { 1 ≤ width }
    requires high { width ≤ 128 }
    requires fits_a { a < 2 ^ width }
    requires fits_b { b < 2 ^ width }
    ensures { result ≡ row_outcome width (row MulNw width width a b 0) }
{
    let wraps = signed_product_wraps(a, b, width) || product_wraps(a, b, width);
    unless(wraps, product(a, b, width))
}
