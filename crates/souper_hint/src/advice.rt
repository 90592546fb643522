//! The hint for a text and its error.
ghost use Rattle.std.specs.Prelude.{◌≡◌, ◌-◌, Ok, None, take, IfOk, IfSome};
ghost use Rattle.souper_errors.specs.Errors.{location_of};
ghost use Rattle.souper_errors.specs.declared.place.Location.{Location};
ghost use Rattle.souper_hint.specs.Hints.{SuggestsFrom};

use crate::beginnings::at_beginning;
use crate::hints::{Hint, Rule};
use crate::message::Message;
use crate::names::{redefinition, unknown_block, unknown_name};
use crate::operands::{at_comma, at_end, at_name, at_operand, more_than_enough};
use crate::right_sides::at_right_side;
use crate::scene::Scene;
use crate::spelling::{at_attribute, at_root_attribute, at_type, number_of_base};
use souper_errors::{Kind, ParseError};
use std::alloc::{AllocError, Global};

// A hint at a character that begins no token.
fn at_character<'a>(scene: &Scene<'a>) -> Option<Hint<'a>>
    ensures { IfSome result (SuggestsFrom scene.now.front.now) }
{
    let text = scene.back;
    if text.starts_with('#') || text.starts_with("//") || text.starts_with("/*") {
        return Some(Hint::Rule(Rule::Comment));
    }
    if text.starts_with(']') && scene.statement().has_attributes {
        return Some(Hint::Rule(Rule::Range));
    }
    if text.starts_with('\u{feff}') {
        let is_first = scene.front.is_empty() && scene.line == 1;
        return Some(Hint::Rule(if is_first {
            Rule::ByteOrderMark
        } else {
            Rule::LaterMark
        }));
    }
    None
}

fn hint_at<'a>(
    alloc: Global,
    message: Message,
    scene: &Scene<'a>,
) -> Result<Option<Hint<'a>>, AllocError>
    ensures { IfOk result (λ hint. IfSome hint (SuggestsFrom scene.now.front.now)) }
{
    if let Some(hint) = number_of_base(scene) {
        return Ok(Some(hint));
    }
    match message {
        Message::RightSide => at_right_side(alloc, scene),
        Message::Beginning => Ok(at_beginning(scene)),
        Message::Comma => Ok(at_comma(scene)),
        Message::Operand => Ok(at_operand(scene)),
        Message::Name => Ok(at_name(scene)),
        Message::Type => Ok(at_type(scene)),
        Message::Attribute => Ok(at_attribute(scene)),
        Message::RootAttribute => Ok(at_root_attribute(scene)),
        Message::UnknownName => Ok(unknown_name(scene)),
        Message::UnknownBlock => Ok(unknown_block(scene)),
        Message::Redefinition => Ok(redefinition(scene)),
        Message::Character => Ok(at_character(scene)),
        Message::Equals => Ok(more_than_enough(scene)),
        Message::End => Ok(at_end(scene)),
        Message::Other => Ok(None),
    }
}

/// The hint for a text of items of the kind, which the parser rejected with this error, or none.
///
/// The text may be part of a longer input, such as a segment of a stream. Then `start` is its offset in the input, in bytes, and the
/// location of the error and the lines in the hint are those of the input. Without a location in the text there is no hint. The error is
/// out of memory.
pub fn hint_of<'a>(
    alloc: Global,
    kind: Kind,
    start: usize,
    text: &'a str,
    error: &ParseError,
) -> Result<Option<Hint<'a>>, AllocError>
    ensures none { location_of error.now ≡ None → result ≡ Ok None }
    ensures suggested { IfSome (location_of error.now) (λ (location : Location). IfOk result (λ hint. IfSome hint (SuggestsFrom (take (location.offset - start) text.now)))) }
{
    let (Some(message), Some(location)) = (error.message(), error.location()) else {
        return Ok(None);
    };
    let Some(offset) = location.offset.checked_sub(start) else {
        return Ok(None);
    };
    match text.split_at_checked(offset) {
        Some((front, back)) => {
            let scene = Scene::new(kind, front, back, location.line);
            hint_at(alloc, Message::read(message), &scene)
        }
        None => Ok(None),
    }
}
