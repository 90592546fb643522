//! Hints about operands: how they are written, and how many there are.
ghost use Rattle.std.specs.Prelude.{IfSome};
ghost use Rattle.souper_hint.specs.Hints.{SuggestsFrom};

use crate::hints::{Hint, Rule};
use crate::right_sides::in_place_of;
use crate::scene::Scene;
use crate::slips::meant_word;
use crate::tokens::{is_name, is_operand, is_type, is_word};
use crate::words::{
    CONVERSIONS, FLAGS, NO_VALUES, OTHER_TYPES, RIGHT_SIDES, has_word, is_beginning, is_right_side,
    operand_count,
};

// How many operands the statement of the error takes.
fn count<'a>(scene: &Scene<'a>) -> Option<Hint<'a>>
    ensures { IfSome result (SuggestsFrom scene.now.front.now) }
{
    let statement = scene.statement();
    match statement.word {
        "phi" => Some(Hint::Values {
            block: statement.first,
            count: scene.predecessors(statement.first)?,
        }),
        word => Some(Hint::Operands {
            word,
            count: operand_count(word)?,
        }),
    }
}

/// How many operands the statement of the error takes, if it has fewer.
pub(crate) fn too_few<'a>(scene: &Scene<'a>) -> Option<Hint<'a>>
    ensures { IfSome result (SuggestsFrom scene.now.front.now) }
{
    let statement = scene.statement();
    if statement.word == "phi" && statement.first.is_empty() {
        return Some(Hint::Rule(Rule::Phi));
    }
    let wanted = scene.wanted(statement)?;
    if statement.has_attributes || statement.operands >= wanted {
        return None;
    }
    count(scene)
}

/// How many operands the statement before the error takes, if it has as many.
pub(crate) fn too_many<'a>(scene: &Scene<'a>) -> Option<Hint<'a>>
    ensures { IfSome result (SuggestsFrom scene.now.front.now) }
{
    let statement = scene.statement();
    let wanted = scene.wanted(statement)?;
    if statement.has_attributes || statement.operands != wanted {
        return None;
    }
    count(scene)
}

/// How many operands the statement before the error takes, if it has more, of which the last one was read as the name of a definition.
pub(crate) fn more_than_enough<'a>(scene: &Scene<'a>) -> Option<Hint<'a>>
    ensures { IfSome result (SuggestsFrom scene.now.front.now) }
{
    let statement = scene.statement();
    let wanted = scene.wanted(statement)?;
    if statement.has_attributes || statement.ends_on_new_line || statement.operands <= wanted {
        return None;
    }
    count(scene)
}

/// A hint at a comma after a whole statement: one before an operand too many, or at the end.
pub(crate) fn comma_after<'a>(scene: &Scene<'a>) -> Option<Hint<'a>>
    ensures { IfSome result (SuggestsFrom scene.now.front.now) }
{
    let hint = too_many(scene)?;
    match scene.next_token() {
        Some(token) if scene.has_next_on_line() && token != "(" => Some(hint),
        _ => Some(Hint::Rule(Rule::LastOperand)),
    }
}

/// Where a type stands, at a type in the statement of the error.
pub(crate) fn type_rule(scene: &Scene<'_>) -> Rule {
    match scene.statement().word {
        "block" => Rule::Block,
        word if has_word(CONVERSIONS, word) => Rule::ConversionType,
        word if has_word(OTHER_TYPES, word) => Rule::OperandType,
        _ => Rule::Type,
    }
}

/// A hint where a comma should come.
pub(crate) fn at_comma<'a>(scene: &Scene<'a>) -> Option<Hint<'a>>
    ensures { IfSome result (SuggestsFrom scene.now.front.now) }
{
    match scene.token() {
        Some(_) if scene.has_type(0) => Some(Hint::Rule(type_rule(scene))),
        Some(":") => None,
        Some(token) if is_type(token) && !scene.is_on_new_line() => {
            Some(Hint::Rule(type_rule(scene)))
        }
        Some(token) if is_operand(token) && !scene.is_on_new_line() => None,
        _ => too_few(scene),
    }
}

// Whether the word is one of LLVM's flags about wrapping.
fn is_flag(word: &str) -> bool {
    word == "nsw" || word == "nuw"
}

// The instruction of this word with a flag, which the other flag comes before or after.
fn with_both_flags(word: &str, flag: &str, next: &str) -> Option<&'static str> {
    let other = if flag == "nsw" { "nuw" } else { "nsw" };
    match word.strip_suffix(other) {
        Some(stem) => joined(stem, "nw"),
        None if next == other => joined(word, "nw"),
        None => None,
    }
}

// The word of an instruction that these two words make together, as LLVM writes it.
fn joined(front: &str, back: &str) -> Option<&'static str> {
    for words in RIGHT_SIDES {
        for word in words.split(' ') {
            if word.strip_prefix(front).unwrap_or("") == back {
                return Some(word);
            }
        }
    }
    None
}

// Whether the word is a flag of LLVM that the instruction before it lacks here. A name without its `%` ends a line or has a comma after it.
fn is_lost_flag(scene: &Scene<'_>, front: &str, word: &str) -> bool {
    let is_known = has_word(FLAGS, word) || front == "trunc" && is_flag(word);
    is_known
        && has_commas(scene)
        && scene.has_next_on_line()
        && scene.next_token().is_some_and(|next| next != ",")
}

// Whether the word is a number or a value of other languages, and no name without its `%`.
fn is_value(word: &str) -> bool {
    let digits = word.strip_suffix('h').unwrap_or("");
    is_hex(digits)
        || NO_VALUES
            .split(' ')
            .any(|other| other.eq_ignore_ascii_case(word))
}

fn is_hex(digits: &str) -> bool {
    !digits.is_empty() && digits.bytes().all(|byte| byte.is_ascii_hexdigit())
}

// Whether commas are between the operands of the statement of the error.
fn has_commas(scene: &Scene<'_>) -> bool {
    !is_beginning(scene.statement().word)
}

// The bit that the word stands for in other languages, also if it is misspelt.
fn bit(word: &str) -> Option<bool> {
    Some(meant_word(word, &["true false"])? == "true")
}

// A hint at a word in place of a name.
fn named<'a>(scene: &Scene<'a>, word: &'a str) -> Option<Hint<'a>>
    ensures { IfSome result (SuggestsFrom scene.now.front.now) }
{
    if scene.definition(word).is_some() {
        return Some(Hint::Lacks('%', word));
    }
    if is_type(word) {
        return Some(Hint::Rule(type_rule(scene)));
    }
    match word {
        "undef" | "poison" => return Some(Hint::Rule(Rule::Undefined)),
        _ if is_beginning(word) || bit(word).is_some() || is_value(word) => return None,
        _ => {}
    }
    if is_right_side(word) || in_place_of(word, "").is_some() {
        return Some(Hint::Rule(Rule::Instruction));
    }
    if scene.has_next_on_line() && scene.next_token().is_some_and(is_operand) && has_commas(scene) {
        return None;
    }
    Some(Hint::Rule(Rule::Name))
}

// A hint at a word in place of an operand, after the word of its statement.
fn at_word<'a>(scene: &Scene<'a>, front: &str, word: &'a str) -> Option<Hint<'a>>
    ensures { IfSome result (SuggestsFrom scene.now.front.now) }
{
    if is_flag(word)
        && let Some(word) = with_both_flags(front, word, scene.next_token().unwrap_or(""))
    {
        return Some(Hint::Word(word));
    }
    if let Some(word) = joined(front, word) {
        return Some(Hint::Word(word));
    }
    if scene.definition(word).is_some() {
        return Some(Hint::Lacks('%', word));
    }
    if let Some(bit) = bit(word) {
        return Some(Hint::Bit(bit));
    }
    if is_lost_flag(scene, front, word) {
        return Some(Hint::Rule(Rule::Flag));
    }
    named(scene, word)
}

// A hint at a token that shows that the word before it, of a statement or last line, was meant as a name.
fn keyword<'a>(scene: &Scene<'a>) -> Option<Hint<'a>>
    ensures { IfSome result (SuggestsFrom scene.now.front.now) }
{
    let statement = scene.statement();
    if scene.is_in_heading(0) && statement.first.is_empty() && is_beginning(statement.word) {
        Some(Hint::Lacks('%', statement.word))
    } else {
        None
    }
}

/// A hint where an operand should come.
pub(crate) fn at_operand<'a>(scene: &Scene<'a>) -> Option<Hint<'a>>
    ensures { IfSome result (SuggestsFrom scene.now.front.now) }
{
    let token = match scene.token() {
        Some(token) if !scene.is_on_new_line() => token,
        _ => return too_few(scene),
    };
    let statement = scene.statement();
    let word = statement.word;
    if let Some(hint) = keyword(scene) {
        return Some(hint);
    }
    match token {
        _ if statement.has_attributes => None,
        _ if word == "block" => Some(Hint::Rule(Rule::Block)),
        _ if word == "blockpc" && statement.operands == 1 && (is_name(token) || is_word(token)) => {
            Some(Hint::Rule(Rule::Predecessor))
        }
        _ if scene.has_type(0) => Some(Hint::Rule(type_rule(scene))),
        "," if word == "pc" || word == "blockpc" => Some(Hint::NoMark { word, mark: token }),
        ":" | "=" if word == "pc" || word == "blockpc" || word == "cand" => {
            Some(Hint::NoMark { word, mark: token })
        }
        _ if !is_word(token) => None,
        _ => at_word(scene, word, token),
    }
}

/// A hint where a name should come.
pub(crate) fn at_name<'a>(scene: &Scene<'a>) -> Option<Hint<'a>>
    ensures { IfSome result (SuggestsFrom scene.now.front.now) }
{
    match scene.token() {
        Some(token) if !scene.is_on_new_line() && is_word(token) => named(scene, token),
        Some(_) if !scene.is_on_new_line() => keyword(scene),
        _ => too_few(scene),
    }
}

/// A hint at the end of the text.
pub(crate) fn at_end<'a>(scene: &Scene<'a>) -> Option<Hint<'a>>
    ensures { IfSome result (SuggestsFrom scene.now.front.now) }
{
    if scene.is_whole() {
        return Some(Hint::MissingAtEnd(scene.last_line()));
    }
    match too_few(scene) {
        Some(hint) => Some(hint),
        None => more_than_enough(scene),
    }
}
