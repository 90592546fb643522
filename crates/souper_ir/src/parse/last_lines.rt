//! The last lines of items: `infer`, `cand` and `result`.

ghost use Rattle.std.specs.Prelude.{codes, map, refl, IfOk, IfErr};
ghost use Rattle.souper_graph.specs.Values.{PlainInfer, PlainCand};
ghost use Rattle.souper_graph.specs.View.{view_infer, view_cand, view_root_attribute};
ghost use Rattle.souper_graph.specs.Syntax.Spelling.{root_attribute as root_attribute_form, infer, cand};
ghost use Rattle.souper_errors.specs.Errors.{error_of, widened};
ghost use Rattle.souper_ir.specs.Continuation.{infer_continues, cand_continues};
ghost use Rattle.souper_ir.specs.Reading.{Gives};
ghost use Rattle.souper_ir.specs.Grammar.{Took, Refusal};
ghost use Rattle.souper_ir.specs.NodeReadings.{is_word, root_attribute_at, root_at, optional_comma_at, pair_at, result_at};
ghost use Rattle.souper_ir.specs.Stopping.{RowStops, InferStops, CandStops, Stops};
ghost use Rattle.souper_ir.specs.Laws.Attributed.{Row, OneMore};
ghost use Rattle.souper_ir.specs.Laws.Statements.{infer_alone, infer_first, cand_alone};

use crate::parse::attributes::root_attribute;
use crate::parse::message::Message;
use crate::parse::operands::operand;
use crate::parse::parser::{Parser, Read, Result};
use crate::parse::tokens::{Mark, keyword, mark_comes, punctuation, value_name, word_comes};
use crate::parse::traits::{Parse, Peek};
use souper_errors::widen;
use souper_graph::ast::{Cand, Infer, Operand, RootAttribute, ValueId};

// The value that an infer line names.
#[tactic(auto, unfolding(crate::specs::NodeReadings::root_at))]
fn root(parser: &mut Parser<'_>) -> Read<ValueId>
    ensures { Gives (λ i. i) (widened result) (root_at parser.old) parser.old parser.new }
{
    keyword(parser, "infer")?;
    let name = value_name(parser)?;
    match parser.value_named(name) {
        Some(value) => Ok(value),
        None => Err(parser.refuse(Message::NoValueNamed(name))),
    }
}

// The attributes of a last line.
fn root_attributes(parser: &mut Parser<'_>) -> Read<Vec<RootAttribute>>
    ensures ok { IfOk result (λ xs. Took (Row root_attribute_form) OneMore (λ s. s) (map view_root_attribute xs.items) parser.old parser.new) }
    ensures err { IfErr result (λ e. Refusal (Row root_attribute_form) OneMore (error_of e) parser.old parser.new) }
    ensures stops { IfErr result (λ e. Stops (RowStops root_attribute_form root_attribute_at) (error_of e) parser.old) }
{
    let mut attributes = Vec::new(parser.alloc());
    while mark_comes(parser, Mark::OpenParen)? {
        let value = root_attribute(parser)?;
        match attributes.push(value) {
            Ok(()) => {}
            Err(_) => return Err(parser.want_memory()),
        }
    }
    Ok(attributes)
}

pub(crate) fn infer(parser: &mut Parser<'_>) -> Result<Infer>
    ensures ok { IfOk result (λ i. Took infer infer_continues (λ s. s) (view_infer i) parser.old parser.new) }
    ensures err { IfErr result (λ e. Refusal infer infer_continues e parser.old parser.new) }
    ensures stops { IfErr result (λ e. Stops InferStops e parser.old) }
{
    let value = root(parser)?;
    let attributes = root_attributes(parser)?;
    Ok(Infer { value, attributes })
}

#[tactic(auto, unfolding(crate::specs::NodeReadings::optional_comma_at))]
fn optional_comma(parser: &mut Parser<'_>) -> Read<()>
    ensures { Gives (λ u. u) (widened result) (optional_comma_at parser.old) parser.old parser.new }
{
    if mark_comes(parser, Mark::Comma)? {
        punctuation(parser, Mark::Comma)?;
    }
    Ok(())
}

// The two operands of a cand line.
#[tactic(auto, unfolding(crate::specs::NodeReadings::pair_at))]
fn pair(parser: &mut Parser<'_>) -> Read<(Operand, Operand)>
    ensures { Gives (λ r. (r.0, r.1)) (widened result) (pair_at parser.old) parser.old parser.new }
{
    keyword(parser, "cand")?;
    let lhs = operand(parser)?;
    optional_comma(parser)?;
    let rhs = operand(parser)?;
    Ok((lhs, rhs))
}

pub(crate) fn cand(parser: &mut Parser<'_>) -> Result<Cand>
    ensures ok { IfOk result (λ c. Took cand cand_continues (λ s. s) (view_cand c) parser.old parser.new) }
    ensures err { IfErr result (λ e. Refusal cand cand_continues e parser.old parser.new) }
    ensures stops { IfErr result (λ e. Stops CandStops e parser.old) }
{
    let (lhs, rhs) = pair(parser)?;
    let attributes = root_attributes(parser)?;
    Ok(Cand {
        lhs,
        rhs,
        attributes,
    })
}

#[tactic(auto, unfolding(crate::specs::NodeReadings::result_at))]
pub(crate) fn result(parser: &mut Parser<'_>) -> Read<Operand>
    ensures { Gives (λ x. x) (widened result) (result_at parser.old) parser.old parser.new }
{
    keyword(parser, "result")?;
    operand(parser)
}

/// Its name must denote a value in scope.
impl Parse for Infer {
    ghost Plain = { PlainInfer };

    ghost view = { view_infer };

    ghost spells = { infer };

    ghost continues = { infer_continues };

    ghost alone = { infer_alone };

    fn parse<'a>(parser: &mut Parser<'a>) -> Result<Self> {
        infer(parser)
    }
}

impl Peek for Infer {
    ghost starts = { is_word (codes "infer") };

    ghost first = { infer_first };

    ghost stays = { λ s. refl };

    fn peek<'a>(parser: &mut Parser<'a>) -> Result<bool> {
        widen(word_comes(parser, "infer"))
    }
}

/// Each name must denote a value in scope. A comma may come between the two operands.
impl Parse for Cand {
    ghost Plain = { PlainCand };

    ghost view = { view_cand };

    ghost spells = { cand };

    ghost continues = { cand_continues };

    ghost alone = { cand_alone };

    fn parse<'a>(parser: &mut Parser<'a>) -> Result<Self> {
        cand(parser)
    }
}
