//! The numbers, widths and bit lists that words spell.

ghost use Rattle.std.specs.Prelude.{◌≡◌, ◌^◌, ◌<◌, Some, None, true, MatchResult, IfOk, IfSome, option_map};
ghost use Rattle.std.specs.Char.{is_ascii_digit};
ghost use Rattle.std.specs.List.{list_all};
ghost use Rattle.std.specs.Str.Parse.{digits_value};
ghost use Rattle.souper_graph.specs.Syntax.Numbers.{is_numeral, number_of, count_of, width_of, bit_of, known_bit_of, bits_of, known_bits_of};

use std::alloc::{AllocError, Global};
use std::num::IntErrorKind;

// The number of a word of digits alone, if a `u64` holds it.
#[inline(always)]
fn short_number(digits: &str) -> Option<u64>
    ensures numeral { IfSome result (λ _. is_numeral digits.now ≡ true) }
    ensures value { IfSome result (λ n. digits_value 10 digits.now ≡ n) }
    ensures small { IfSome result (λ n. n < 2 ^ 64) }
{
    if digits.is_empty() {
        return None;
    }
    let mut value: u64 = 0;
    for byte in digits.bytes() {
        if !byte.is_ascii_digit() {
            return None;
        }
        value = value.checked_mul(10)?.checked_add(u64::from(byte - b'0'))?;
    }
    Some(value)
}

/// The number of a word of digits, perhaps with `-` before them.
pub(crate) fn number(word: &str) -> Result<i128, IntErrorKind>
    ensures { MatchResult result (λ n. number_of word.now ≡ Some n) (λ _. number_of word.now ≡ None) }
{
    // Most numbers are short, and `i128` is slow.
    if let Some(value) = short_number(word) {
        return Ok(i128::from(value));
    }
    if let Some(digits) = word.strip_prefix('-') {
        if let Some(value) = short_number(digits) {
            return Ok(-i128::from(value));
        }
    }
    match word.parse::<i128>() {
        Ok(value) => Ok(value),
        Err(error) => Err(*error.kind()),
    }
}

// Why a number does not fit an unsigned type.
fn misfit(value: i128) -> IntErrorKind {
    if value < 0 {
        IntErrorKind::NegOverflow
    } else {
        IntErrorKind::PosOverflow
    }
}

/// The number of a word, if a `u32` holds it.
pub(crate) fn count(word: &str) -> Result<u32, IntErrorKind>
    ensures { MatchResult result (λ n. count_of (2 ^ 32) word.now ≡ Some n) (λ _. count_of (2 ^ 32) word.now ≡ None) }
{
    let value = number(word)?;
    match u32::try_from(value) {
        Ok(count) => Ok(count),
        Err(_) => Err(misfit(value)),
    }
}

/// The number of a word, if a `u8` holds it.
pub(crate) fn small_count(word: &str) -> Result<u8, IntErrorKind>
    ensures { MatchResult result (λ n. count_of (2 ^ 8) word.now ≡ Some n) (λ _. count_of (2 ^ 8) word.now ≡ None) }
{
    let value = number(word)?;
    match u8::try_from(value) {
        Ok(count) => Ok(count),
        Err(_) => Err(misfit(value)),
    }
}

fn are_digits(text: &str) -> bool
    ensures { result ≡ list_all is_ascii_digit text.now }
{
    text.bytes().all(|byte| byte.is_ascii_digit())
}

// The width of the words that most types are.
fn usual_width(word: &str) -> Option<u16>
    ensures { IfSome result (λ width. width_of word.now ≡ Some width) }
{
    match word.as_bytes() {
        b"i1" => Some(1),
        b"i8" => Some(8),
        b"i16" => Some(16),
        b"i32" => Some(32),
        b"i64" => Some(64),
        b"i128" => Some(128),
        _ => None,
    }
}

/// The width that a word spells: `i` and digits of 1 to 65535.
pub(crate) fn width(word: &str) -> Option<u16>
    ensures { result ≡ width_of word.now }
{
    if let Some(width) = usual_width(word) {
        return Some(width);
    }
    let digits = word.strip_prefix('i')?;
    if !are_digits(digits) {
        return None;
    }
    match digits.parse::<u16>() {
        Ok(0) => None,
        Ok(width) => Some(width),
        Err(_) => None,
    }
}

fn bit(byte: u8) -> Option<bool>
    ensures { result ≡ bit_of byte }
{
    match byte {
        b'0' => Some(false),
        b'1' => Some(true),
        _ => None,
    }
}

fn known_bit(byte: u8) -> Option<Option<bool>>
    ensures { result ≡ known_bit_of byte }
{
    match byte {
        b'x' => Some(None),
        b'0' => Some(Some(false)),
        b'1' => Some(Some(true)),
        _ => None,
    }
}

/// The entries of a pattern of `0` and `1`, in order, or `None` if it is empty or has another character.
pub(crate) fn bits(alloc: Global, pattern: &str) -> Result<Option<Vec<bool>>, AllocError>
    ensures { IfOk result (λ bits. option_map (λ v. v.items) bits ≡ bits_of pattern.now) }
{
    let mut bits = Vec::new(alloc);
    for byte in pattern.as_bytes() {
        match bit(*byte) {
            Some(bit) => bits.push(bit)?,
            None => return Ok(None),
        }
    }
    Ok(if bits.is_empty() { None } else { Some(bits) })
}

/// The entries of a pattern of `0`, `1` and `x`, in order, or `None` if it is empty or has another character.
pub(crate) fn known_bits(
    alloc: Global,
    pattern: &str,
) -> Result<Option<Vec<Option<bool>>>, AllocError>
    ensures { IfOk result (λ bits. option_map (λ v. v.items) bits ≡ known_bits_of pattern.now) }
{
    let mut bits = Vec::new(alloc);
    for byte in pattern.as_bytes() {
        match known_bit(*byte) {
            Some(bit) => bits.push(bit)?,
            None => return Ok(None),
        }
    }
    Ok(if bits.is_empty() { None } else { Some(bits) })
}
