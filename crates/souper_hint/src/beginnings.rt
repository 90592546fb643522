//! Hints where a statement or a last line should begin.
ghost use Rattle.std.specs.Prelude.{IfSome};
ghost use Rattle.souper_hint.specs.Hints.{SuggestsFrom};

use crate::hints::{Hint, LastLine, Rule};
use crate::operands::{comma_after, too_many, type_rule};
use crate::scene::Scene;
use crate::slips::meant_word;
use crate::spelling::root_rule;
use crate::tokens::{is_number, is_operand, is_type, is_word};
use crate::words::{CONDITIONS, ROOT_ATTRIBUTES, has_word, is_beginning};
use souper_errors::Kind;

// The words that begin this last line.
fn words_of(last_line: LastLine) -> &'static str {
    match last_line {
        LastLine::Infer => "infer",
        LastLine::Result => "result",
        LastLine::InferOrCand => "infer cand",
    }
}

// The line that a replacement lacks before this last line. Right after another replacement it has no name for an infer line.
fn missing_line<'a>(scene: &Scene<'a>, word: &str) -> Option<Hint<'a>>
    ensures { IfSome result (SuggestsFrom scene.now.front.now) }
{
    if scene.kind != Kind::Rep {
        return None;
    }
    match scene.last_line() {
        LastLine::Result if word != "result" => Some(match scene.next_item() {
            Some(next) => Hint::Missing {
                last_line: LastLine::Result,
                next,
            },
            None => Hint::MissingAbove(LastLine::Result),
        }),
        LastLine::InferOrCand if word == "result" && !scene.marks.is_ended => Some(Hint::Missing {
            last_line: LastLine::Infer,
            next: scene.line,
        }),
        _ => None,
    }
}

/// A hint where a statement or a last line should begin.
pub(crate) fn at_beginning<'a>(scene: &Scene<'a>) -> Option<Hint<'a>>
    ensures { IfSome result (SuggestsFrom scene.now.front.now) }
{
    let token = scene.token()?;
    if scene.is_in_heading(1) && (is_word(token) || is_number(token)) {
        return Some(Hint::Lacks('%', token));
    }
    if token == "," {
        return comma_after(scene);
    }
    if is_operand(token) && !scene.is_on_new_line() {
        return too_many(scene);
    }
    if scene.has_type(0) {
        return Some(Hint::Rule(type_rule(scene)));
    }
    if token == "to" || is_type(token) {
        return Some(Hint::Rule(if scene.is_on_new_line() {
            Rule::Type
        } else {
            type_rule(scene)
        }));
    }
    if token == "(" && has_word(ROOT_ATTRIBUTES, scene.next_token().unwrap_or("")) {
        return Some(Hint::Rule(root_rule(scene.kind)));
    }
    if is_beginning(token) {
        return missing_line(scene, token);
    }
    let words = words_of(scene.last_line());
    Some(Hint::Word(meant_word(token, &[words, CONDITIONS])?))
}
