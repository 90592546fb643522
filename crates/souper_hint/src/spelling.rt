//! Hints about attributes, types and numbers.
ghost use Rattle.std.specs.Prelude.{ℕ, List, ◌≤◌, IfSome};
ghost use Rattle.souper_hint.specs.Hints.{SuggestsFrom};

use crate::hints::{Hint, Rule};
use crate::scene::Scene;
use crate::slips::meant_word;
use crate::tokens::{is_number, is_type, is_word, tokens_from};
use crate::words::{ATTRIBUTES, ROOT_ATTRIBUTES, has_word};
use souper_errors::Kind;

// The attribute of the list that the word was meant to be. A letter before an attribute may be a prefix of another meaning.
fn meant_attribute(word: &str, attributes: &'static str) -> Option<&'static str> {
    let rest = word.get(1..)?;
    let is_after_letter = attributes
        .split(' ')
        .any(|attribute| attribute.eq_ignore_ascii_case(rest));
    if is_after_letter {
        return None;
    }
    meant_word(word, &[attributes])
}

/// Where the attributes of a root stand in an item of the kind.
pub(crate) fn root_rule(kind: Kind) -> Rule {
    match kind {
        Kind::Lhs => Rule::InferAttribute,
        Kind::Rhs => Rule::NoRootAttribute,
        Kind::Rep => Rule::RootAttribute,
    }
}

/// A hint at the word of an attribute of a definition.
pub(crate) fn at_attribute<'a>(scene: &Scene<'a>) -> Option<Hint<'a>>
    ensures { IfSome result (SuggestsFrom scene.now.front.now) }
{
    let word = scene.token()?;
    if has_word(ROOT_ATTRIBUTES, word) {
        return Some(Hint::Rule(root_rule(scene.kind)));
    }
    Some(Hint::Word(meant_attribute(word, ATTRIBUTES)?))
}

/// A hint at the word of an attribute of a root.
pub(crate) fn at_root_attribute<'a>(scene: &Scene<'a>) -> Option<Hint<'a>>
    ensures { IfSome result (SuggestsFrom scene.now.front.now) }
{
    let word = scene.token()?;
    if has_word(ATTRIBUTES, word) {
        return Some(Hint::Rule(Rule::Attribute));
    }
    Some(Hint::Word(meant_attribute(word, ROOT_ATTRIBUTES)?))
}

// The base of a number that begins with 0 and this letter.
fn base_of(letter: char) -> Option<u32>
    ensures { IfSome result (λ base. 2 ≤ base × (base ≤ 16)) }
{
    match letter {
        'x' | 'X' => Some(16),
        'o' => Some(8),
        'b' => Some(2),
        _ => None,
    }
}

// Whether the characters are digits of the base, between which `_` may stand.
fn are_digits(digits: &str, base: u32) -> bool
    requires { 2 ≤ base × (base ≤ 16) }
{
    for digit in digits.chars() {
        if digit != '_' && !digit.is_digit(base) {
            return false;
        }
    }
    true
}

// The value of the digits of both parts, between which `_` may stand, if it is below 2^127 as each constant is.
fn value_of(parts: [&str; 2], base: u32) -> Option<u128>
    requires { 2 ≤ base × (base ≤ 16) }
{
    let mut value = 0u128;
    for part in parts {
        for digit in part.chars() {
            if let Some(digit) = digit.to_digit(base) {
                value = value
                    .checked_mul(u128::from(base))?
                    .checked_add(u128::from(digit))?;
            }
        }
    }
    if value > u128::MAX / 2 {
        return None;
    }
    Some(value)
}

// The hint of a number of the base, which has the digits of both parts.
fn in_decimal<'a>(is_negative: bool, parts: [&str; 2], base: u32) -> Hint<'a>
    requires { 2 ≤ base × (base ≤ 16) }
    ensures { (text : List ℕ) → SuggestsFrom text result }
{
    match value_of(parts, base) {
        Some(value) => Hint::Decimal { is_negative, value },
        None => Hint::Rule(Rule::Decimal),
    }
}

// The number that the token at fault follows directly, unless it is the bits of an attribute.
fn number_before<'a>(scene: &Scene<'a>) -> Option<&'a str> {
    if !scene.is_joined() {
        return None;
    }
    let (mut attribute, mut mark, mut number) = ("", "", "");
    for token in tokens_from(scene.front, scene.marks.statement) {
        attribute = mark;
        mark = number;
        number = token.text;
    }
    if mark == "=" && matches!(attribute, "demandedBits" | "knownBits") {
        return None;
    }
    Some(number)
}

/// A hint at the rest of a number of another base, which the parser reads as a number and a word.
pub(crate) fn number_of_base<'a>(scene: &Scene<'a>) -> Option<Hint<'a>>
    ensures { IfSome result (SuggestsFrom scene.now.front.now) }
{
    let word = scene.token()?;
    let number = number_before(scene)?;
    let front = number.strip_prefix('-').unwrap_or(number);
    let is_negative = number.starts_with('-');
    if !is_word(word) || !is_number(front) {
        return None;
    }
    if let Some(digits) = word.strip_suffix('h').or(word.strip_suffix('H'))
        && are_digits(digits, 16)
    {
        return Some(in_decimal(is_negative, [front, digits], 16));
    }
    let base = base_of(word.chars().next()?)?;
    let digits = word.get(1..)?;
    if front != "0" || digits.is_empty() || !are_digits(digits, base) {
        return None;
    }
    Some(in_decimal(is_negative, [front, digits], base))
}

/// A hint where a type should come.
pub(crate) fn at_type<'a>(scene: &Scene<'a>) -> Option<Hint<'a>>
    ensures { IfSome result (SuggestsFrom scene.now.front.now) }
{
    let token = scene.token()?;
    if is_type(token) {
        return Some(Hint::Rule(Rule::Width));
    }
    let digits = match token.chars().next()? {
        'u' | 's' | 'U' | 'S' | 'I' => token.get(1..)?,
        _ => token,
    };
    if !is_number(digits) {
        return None;
    }
    match digits.parse::<u16>() {
        Ok(width) if width > 0 => Some(Hint::Lacks('i', digits)),
        _ => Some(Hint::Rule(Rule::Width)),
    }
}
