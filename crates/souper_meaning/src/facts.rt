//! Whether facts hold of a number.

ghost use Rattle.std.specs.Prelude.{◌≡◌, ◌↔◌, ◌+◌, ◌-◌, ◌%◌, ◌^◌, ◌<◌, ◌≤◌, ◌⊎◌, map, length, IsTrue};
ghost use Rattle.std.specs.List.{AllByRecursion};
ghost use Rattle.souper_graph.specs.View.{view_attribute};
ghost use Rattle.souper_widths.specs.Limits.{HasBitCount, HasSignBits as KeepsSignBits};
ghost use Rattle.souper_words.specs.Numbers.{bits_of};
ghost use Rattle.souper_meaning.specs.Facts.{IsKnownBit, HasKnownBits, HasSignBits, IsInRange, HoldsOf};

use souper_graph::ast::Attribute;
use souper_words::signed_bits;

/// Whether a bit, 0 or 1, is as known.
fn is_known_bit(known: Option<bool>, bit: u128) -> bool
    ensures { IsTrue result ↔ IsKnownBit known bit }
{
    match known {
        None => true,
        Some(true) => bit == 1,
        Some(false) => bit == 0,
    }
}

/// The place of the bit at an index, if the top bit is the first.
fn place_of(count: usize, index: usize) -> u32
    requires inside { index < count }
    requires count { count ≤ 128 }
    ensures { result ≡ count - 1 - index }
{
    (count - 1 - index) as u32
}

/// Whether the bits are as known, the top bit first.
fn has_known_bits(bits: &[Option<bool>], n: u128) -> bool
    requires { length bits.now ≤ 128 }
    ensures { IsTrue result ↔ HasKnownBits bits.now n }
{
    for (index, known) in bits.iter().enumerate() {
        let place = place_of(bits.len(), index);
        let is_known = is_known_bit(*known, (n >> place) % 2);
        if !is_known {
            return false;
        }
    }
    true
}

/// The number whose lowest bits, as many as the width, are 1.
pub(crate) fn mask_of(width: u32) -> u128
    requires low { 1 ≤ width }
    requires high { width ≤ 128 }
    ensures { result ≡ 2 ^ width - 1 }
{
    u128::MAX >> (128 - width)
}

/// Whether no bit from this place on is 1.
fn is_below_place(n: u128, place: u32) -> bool
    requires { place < 128 }
    ensures { IsTrue result ↔ (n < 2 ^ place) }
{
    n >> place == 0
}

/// Whether the top bits, as many as the count, are equal.
fn has_sign_bits(count: u32, n: u128, width: u32) -> bool
    requires high { width ≤ 128 }
    requires count { count ≤ width }
    requires fits { n < 2 ^ width }
    ensures { IsTrue result ↔ HasSignBits width count n }
{
    if count == 0 {
        return true;
    }
    let mask = mask_of(count);
    let top = n >> (width - count);
    top == 0 || top == mask
}

/// How far a number of the mask's bits is above another, as it wraps after the mask.
fn distance(from: u128, to: u128, mask: u128) -> u128
    requires from { from ≤ mask }
    requires to { to ≤ mask }
    ensures { result ≡ (to + (mask + 1 - from)) % (mask + 1) }
{
    if from <= to {
        to - from
    } else {
        mask - (from - to) + 1
    }
}

/// Whether a place is within a range of this size, or the range has every number.
fn is_within(first: u128, end: u128, mask: u128, place: u128, size: u128) -> bool
    ensures { IsTrue result ↔ ((first ≡ end) × (first ≡ mask)) ⊎ (place < size) }
{
    (first == end && first == mask) || place < size
}

/// Whether the number is in a range, whose ends have this width.
fn is_in_range(low: i128, high: i128, n: u128, width: u32) -> bool
    requires low { 1 ≤ width }
    requires high { width ≤ 128 }
    requires fits { n < 2 ^ width }
    ensures { IsTrue result ↔ IsInRange width (bits_of width low) (bits_of width high) n }
{
    let mask = mask_of(width);
    let first = signed_bits(low, width);
    let end = signed_bits(high, width);
    let place = distance(first, n, mask);
    let size = distance(first, end, mask);
    is_within(first, end, mask, place, size)
}

/// Whether the fact holds of a number of this width.
fn holds_of(attribute: &Attribute, n: u128, width: u32) -> bool
    requires low { 1 ≤ width }
    requires high { width ≤ 128 }
    requires fits { n < 2 ^ width }
    requires count { HasBitCount width (view_attribute attribute.now) }
    requires sign_bits { KeepsSignBits width (view_attribute attribute.now) }
    ensures { IsTrue result ↔ HoldsOf width n (view_attribute attribute.now) }
{
    match attribute {
        Attribute::KnownBits(bits) => has_known_bits(bits, n),
        Attribute::PowerOfTwo => n.count_ones() == 1,
        Attribute::Negative => !is_below_place(n, width - 1),
        Attribute::NonNegative => is_below_place(n, width - 1),
        Attribute::NonZero => n != 0,
        Attribute::HasExternalUses => true,
        Attribute::SignBits(count) => has_sign_bits(u32::from(*count), n, width),
        Attribute::Range(low, high) => is_in_range(*low, *high, n, width),
    }
}

/// Whether all these facts hold of a number of this width.
pub(crate) fn hold_of(attributes: &[Attribute], n: u128, width: u32) -> bool
    requires low { 1 ≤ width }
    requires high { width ≤ 128 }
    requires fits { n < 2 ^ width }
    requires count { AllByRecursion (HasBitCount width) (map view_attribute attributes.now) }
    requires sign_bits { AllByRecursion (KeepsSignBits width) (map view_attribute attributes.now) }
    ensures { IsTrue result ↔ AllByRecursion (HoldsOf width n) (map view_attribute attributes.now) }
{
    for attribute in attributes {
        let holds = holds_of(attribute, n, width);
        if !holds {
            return false;
        }
    }
    true
}
