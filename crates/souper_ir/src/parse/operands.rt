//! Types, constants and operands.

ghost use Rattle.std.specs.Prelude.{◌≡◌, None, false, refl};
ghost use Rattle.souper_errors.specs.Errors.{widened};
ghost use Rattle.souper_ir.specs.Reading.{Gives};
ghost use Rattle.souper_graph.specs.Syntax.Spelling.{type as type_form, operand as operand_form, constant as constant_form};
ghost use Rattle.souper_ir.specs.Continuation.{constant_continues, operand_continues};
ghost use Rattle.souper_ir.specs.NodeReadings.{is_int, type_at, optional_type_at, constant_at, named_operand_at, operand_by, operand_at, next_operand_at, further_at};
ghost use Rattle.souper_ir.specs.Laws.FromReadings.{alone as one_alone};
ghost use Rattle.souper_ir.specs.Laws.Operands.{type_rule, constant_rule, constant_first, operand_rule};

use crate::parse::message::Message;
use crate::parse::numbers::width;
use crate::parse::parser::{Parser, Read, Result};
use crate::parse::tokens::{
    Mark, integer, integer_comes, mark_comes, punctuation, value_name, value_name_comes,
};
use crate::parse::traits::{Parse, Peek};
use souper_errors::widen;
use souper_graph::ast::{Constant, Operand, Type};
use souper_lexer::Token;

#[inline(always)]
#[tactic(auto, unfolding(crate::specs::NodeReadings::accept))]
pub(crate) fn type_alone(parser: &mut Parser<'_>) -> Read<Type>
    ensures { Gives (λ t. t) (widened result) (type_at parser.old) parser.old parser.new }
{
    let word = match parser.take_word() {
        Some(word) => word,
        None => match parser.token()? {
            Token::Ident(word) => word,
            _ => return Err(parser.refuse(Message::ExpectedType)),
        },
    };
    match width(word) {
        Some(width) => Ok(Type { width }),
        None => Err(parser.refuse(Message::ExpectedType)),
    }
}

/// A type after a colon, if a colon comes next.
#[tactic(auto, unfolding(crate::specs::NodeReadings::optional_type_at))]
pub(crate) fn optional_type(parser: &mut Parser<'_>) -> Read<Option<Type>>
    ensures { Gives (λ t. t) (widened result) (optional_type_at parser.old) parser.old parser.new }
{
    if !parser.take_mark(Mark::Colon) {
        if parser.comma_comes() {
            return Ok(None);
        }
        if !mark_comes(parser, Mark::Colon)? {
            return Ok(None);
        }
        punctuation(parser, Mark::Colon)?;
    }
    Ok(Some(type_alone(parser)?))
}

#[tactic(auto, unfolding(crate::specs::NodeReadings::constant_at))]
pub(crate) fn constant(parser: &mut Parser<'_>) -> Read<Constant>
    ensures { Gives (λ c. c) (widened result) (constant_at parser.old) parser.old parser.new }
{
    let value = integer(parser)?;
    let ty = optional_type(parser)?;
    Ok(Constant { value, ty })
}

// The operand of a name that has been taken.
#[inline(always)]
#[tactic(auto, unfolding(crate::specs::NodeReadings::named_operand_at))]
fn named_operand<'a>(parser: &mut Parser<'a>, name: &'a str) -> Read<Operand>
    requires { parser.old.failed ≡ None }
    ensures { Gives (λ x. x) (widened result) (named_operand_at name.now parser.old) parser.old parser.new }
{
    match parser.value_named(name) {
        Some(value) => Ok(Operand::Value(value)),
        None => Err(parser.refuse(Message::UnknownValue(name))),
    }
}

fn constant_operand(parser: &mut Parser<'_>) -> Read<Operand>
    ensures { Gives (λ x. x) (widened result) (operand_by false parser.old) parser.old parser.new }
{
    Ok(Operand::Constant(constant(parser)?))
}

#[tactic(auto, unfolding(crate::specs::NodeReadings::operand_at, crate::specs::NodeReadings::named_operand_at))]
pub(crate) fn operand(parser: &mut Parser<'_>) -> Read<Operand>
    ensures { Gives (λ x. x) (widened result) (operand_at parser.old) parser.old parser.new }
{
    if let Some(name) = parser.take_name() {
        return named_operand(parser, name);
    }
    if parser.int_comes() {
        return constant_operand(parser);
    }
    if value_name_comes(parser)? {
        let name = value_name(parser)?;
        named_operand(parser, name)
    } else {
        constant_operand(parser)
    }
}

/// An operand after a comma.
#[tactic(auto, unfolding(crate::specs::NodeReadings::next_operand_at))]
pub(crate) fn next_operand(parser: &mut Parser<'_>) -> Read<Operand>
    ensures { Gives (λ x. x) (widened result) (next_operand_at parser.old) parser.old parser.new }
{
    punctuation(parser, Mark::Comma)?;
    operand(parser)
}

/// `count` operands, each after a comma.
pub(crate) fn further(parser: &mut Parser<'_>, count: u32) -> Read<Vec<Operand>>
    requires { parser.old.failed ≡ None }
    ensures { Gives (λ v. v.items) (widened result) (further_at count parser.old) parser.old parser.new }
{
    let mut operands = Vec::new(parser.alloc());
    for _ in 0..count {
        let operand = next_operand(parser)?;
        match operands.push(operand) {
            Ok(()) => {}
            Err(_) => return Err(parser.want_memory()),
        }
    }
    Ok(operands)
}

impl Parse for Type {
    ghost Plain = { Self };

    ghost view = { λ t. t };

    ghost spells = { λ s. type_form };

    ghost continues = { λ t u. ⊥ };

    ghost alone = { one_alone type_rule };

    fn parse<'a>(parser: &mut Parser<'a>) -> Result<Self> {
        widen(type_alone(parser))
    }
}

impl Parse for Constant {
    ghost Plain = { Self };

    ghost view = { λ c. c };

    ghost spells = { λ s. constant_form };

    ghost continues = { constant_continues };

    ghost alone = { one_alone constant_rule };

    fn parse<'a>(parser: &mut Parser<'a>) -> Result<Self> {
        widen(constant(parser))
    }
}

impl Peek for Constant {
    ghost starts = { is_int };

    ghost first = { constant_first };

    ghost stays = { λ s. refl };

    fn peek<'a>(parser: &mut Parser<'a>) -> Result<bool> {
        widen(integer_comes(parser))
    }
}

/// A name must denote a value in scope.
impl Parse for Operand {
    ghost Plain = { Self };

    ghost view = { λ x. x };

    ghost spells = { operand_form };

    ghost continues = { operand_continues };

    ghost alone = { one_alone operand_rule };

    fn parse<'a>(parser: &mut Parser<'a>) -> Result<Self> {
        widen(operand(parser))
    }
}
