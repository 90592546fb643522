//! Hints at the first word of a right side.
ghost use Rattle.std.specs.Prelude.{ℕ, List, IfOk, IfSome};
ghost use Rattle.souper_hint.specs.Hints.{SuggestsFrom};

use crate::hints::{Hint, Rule};
use crate::scene::Scene;
use crate::slips::meant_word;
use crate::tokens::{is_after_name, is_operand, is_type, is_word};
use crate::words::{RIGHT_SIDES, has_word, is_right_side, operand_count};
use std::alloc::{AllocError, Global};

// Words of other languages, which a slip would turn into ones of another meaning.
const UNLIKE: &str =
    "addw subw mulw addn subn muln shln shrnuw shrnsw shrnw lshlexact ashlexact ash lsh set swap";

// The instruction that another language's word stands for.
fn other_name(word: &str) -> Option<&'static str> {
    match word {
        "neq" => Some("ne"),
        "ulte" => Some("ule"),
        "slte" => Some("sle"),
        "sll" | "lsl" | "sal" | "sla" => Some("shl"),
        "srl" | "ushr" => Some("lshr"),
        "sra" | "sar" | "sshr" => Some("ashr"),
        "sel" | "slct" | "ite" => Some("select"),
        "popcnt" | "popcount" => Some("ctpop"),
        "addnuwnsw" | "addnswnuw" => Some("addnw"),
        "subnuwnsw" | "subnswnuw" => Some("subnw"),
        "mulnuwnsw" | "mulnswnuw" => Some("mulnw"),
        "shlnuwnsw" | "shlnswnuw" => Some("shlnw"),
        _ => None,
    }
}

// What stands for a comparison that the grammar lacks.
fn in_place_of_comparison<'a>(word: &str) -> Option<Hint<'a>>
    ensures { (text : List ℕ) → IfSome result (SuggestsFrom text) }
{
    match word {
        "ugt" => Some(Hint::Swapped("ult")),
        "uge" | "ugte" => Some(Hint::Swapped("ule")),
        "sgt" => Some(Hint::Swapped("slt")),
        "sge" | "sgte" => Some(Hint::Swapped("sle")),
        "lt" => Some(Hint::Either("ult", "slt")),
        "le" | "lte" => Some(Hint::Either("ule", "sle")),
        "gt" => Some(Hint::EitherSwapped("ult", "slt")),
        "ge" | "gte" => Some(Hint::EitherSwapped("ule", "sle")),
        _ => None,
    }
}

// What stands for LLVM's `icmp`, which has its comparison after it, maybe after a point, or as the next token.
fn in_place_of_icmp<'a>(word: &str, next: &str) -> Option<Hint<'a>>
    ensures { (text : List ℕ) → IfSome result (SuggestsFrom text) }
{
    let rest = word.strip_prefix("icmp").unwrap_or("");
    if let Some(hint) = in_place_of_comparison(rest.strip_prefix('.').unwrap_or(rest)) {
        return Some(hint);
    }
    match in_place_of_comparison(next) {
        Some(hint) => Some(hint),
        None => Some(Hint::Rule(Rule::Comparison)),
    }
}

/// What stands for a word of LLVM or of another language, given in small letters with the token after it.
pub(crate) fn in_place_of<'a>(word: &str, next: &str) -> Option<Hint<'a>>
    ensures { (text : List ℕ) → IfSome result (SuggestsFrom text) }
{
    if word == "cmp" || word.starts_with("icmp") {
        return in_place_of_icmp(word, next);
    }
    if let Some(hint) = in_place_of_comparison(word) {
        return Some(hint);
    }
    match word {
        "not" => Some(Hint::Rule(Rule::Not)),
        "neg" => Some(Hint::Rule(Rule::Negation)),
        "true" => Some(Hint::Bit(true)),
        "false" => Some(Hint::Bit(false)),
        "div" => Some(Hint::Either("udiv", "sdiv")),
        "rem" | "mod" => Some(Hint::Either("urem", "srem")),
        "shr" => Some(Hint::Either("lshr", "ashr")),
        "ext" => Some(Hint::Either("zext", "sext")),
        "add.with.overflow" => Some(Hint::Either("uadd.with.overflow", "sadd.with.overflow")),
        "mul.with.overflow" => Some(Hint::Either("umul.with.overflow", "smul.with.overflow")),
        "add.sat" => Some(Hint::Either("uadd.sat", "sadd.sat")),
        "sub.sat" => Some(Hint::Either("usub.sat", "ssub.sat")),
        "sub.with.overflow" => Some(Hint::Either("usub.with.overflow", "ssub.with.overflow")),
        _ => match other_name(word) {
            Some(instruction) => Some(Hint::Word(instruction)),
            None => None,
        },
    }
}

// The hint of a word that is none of the grammar.
fn of_word<'a>(word: &str, next: &str) -> Option<Hint<'a>>
    ensures { (text : List ℕ) → IfSome result (SuggestsFrom text) }
{
    if let Some(hint) = in_place_of(word, next) {
        return Some(hint);
    }
    if has_word(UNLIKE, word) {
        return None;
    }
    let found = meant_word(word, &RIGHT_SIDES)?;
    match in_place_of(found, next) {
        Some(hint) => Some(hint),
        None => Some(Hint::Word(found)),
    }
}

// The hint of an operator of one character.
fn of_mark<'a>(mark: &str) -> Option<Hint<'a>>
    ensures { (text : List ℕ) → IfSome result (SuggestsFrom text) }
{
    match mark {
        "+" => Some(Hint::Infix("add")),
        "-" => Some(Hint::Infix("sub")),
        "*" => Some(Hint::Infix("mul")),
        "&" => Some(Hint::Infix("and")),
        "|" => Some(Hint::Infix("or")),
        "^" => Some(Hint::Infix("xor")),
        "=" => Some(Hint::Infix("eq")),
        "/" => Some(Hint::Either("udiv", "sdiv")),
        "%" => Some(Hint::Either("urem", "srem")),
        "<" => Some(Hint::Either("ult", "slt")),
        ">" => Some(Hint::EitherSwapped("ult", "slt")),
        _ => None,
    }
}

// The hint of an operator of two characters, of which the second one is `=`.
fn of_mark_with_equals<'a>(mark: &str) -> Option<Hint<'a>>
    ensures { (text : List ℕ) → IfSome result (SuggestsFrom text) }
{
    match mark {
        "=" => Some(Hint::Infix("eq")),
        "!" => Some(Hint::Infix("ne")),
        "<" => Some(Hint::Either("ule", "sle")),
        ">" => Some(Hint::EitherSwapped("ule", "sle")),
        _ => None,
    }
}

// The hint of an operator of one character, twice.
fn of_mark_twice<'a>(mark: &str) -> Option<Hint<'a>>
    ensures { (text : List ℕ) → IfSome result (SuggestsFrom text) }
{
    match mark {
        "<" => Some(Hint::Infix("shl")),
        ">" => Some(Hint::Either("lshr", "ashr")),
        _ => None,
    }
}

// The hint of an operator of other languages, given as its first character with the token after that.
fn of_operator<'a>(mark: &str, next: &str) -> Option<Hint<'a>>
    ensures { (text : List ℕ) → IfSome result (SuggestsFrom text) }
{
    if next == "=" {
        return of_mark_with_equals(mark);
    }
    if next == mark {
        return of_mark_twice(mark);
    }
    let is_other = matches!(next, "+" | "*" | "/" | "&" | "|" | "^" | "<" | ">");
    if is_other || mark == "=" && is_word(next) {
        return None;
    }
    of_mark(mark)
}

// The hint of an operator or of the word of an instruction between operands, given with the token after it.
fn infix<'a>(token: &'a str, next: &str) -> Option<Hint<'a>>
    ensures { (text : List ℕ) → IfSome result (SuggestsFrom text) }
{
    if is_right_side(token) && operand_count(token) == Some(2) {
        return Some(Hint::Infix(token));
    }
    if token.starts_with('-') {
        return of_operator("-", next);
    }
    of_operator(token, next)
}

// A hint at a name or a number in place of a right side.
fn at_value<'a>(scene: &Scene<'a>) -> Option<Hint<'a>>
    ensures { IfSome result (SuggestsFrom scene.now.front.now) }
{
    if scene.has_next_on_line()
        && let Some(hint) = infix(scene.token_at(1), scene.token_at(2))
    {
        return Some(hint);
    }
    Some(Hint::Rule(Rule::Operand))
}

// The token after the word, or after a flag that `icmp` has.
fn token_after_flag<'a>(scene: &Scene<'a>) -> &'a str {
    let next = scene.token_at(1);
    if next.eq_ignore_ascii_case("samesign") {
        scene.token_at(2)
    } else {
        next
    }
}

/// A hint where a right side should begin.
pub(crate) fn at_right_side<'a>(
    alloc: Global,
    scene: &Scene<'a>,
) -> Result<Option<Hint<'a>>, AllocError>
    ensures { IfOk result (λ hint. IfSome hint (SuggestsFrom scene.now.front.now)) }
{
    let Some(token) = scene.token() else {
        return Ok(None);
    };
    if scene.is_on_new_line() && scene.next_token().is_some_and(is_after_name) {
        return Ok(Some(Hint::Rule(Rule::RightSide)));
    }
    if is_operand(token) {
        return Ok(at_value(scene));
    }
    if !is_word(token) {
        return Ok(None);
    }
    if is_type(token) {
        return Ok(Some(Hint::Rule(Rule::Type)));
    }
    let word = token.to_ascii_lowercase(alloc)?;
    let next = token_after_flag(scene).to_ascii_lowercase(alloc)?;
    Ok(of_word(word.as_str(), next.as_str()))
}
