//! Statements: assignments and path conditions.

ghost use Rattle.std.specs.Prelude.{◌≡◌, codes, map, refl, IfOk, IfErr};
ghost use Rattle.souper_graph.specs.declared.ast.statements.Pc.{Pc as pc_value};
ghost use Rattle.souper_graph.specs.declared.ast.statements.BlockPc.{BlockPc as block_pc_value};
ghost use Rattle.souper_graph.specs.Values.{PlainAssignment, PlainStatement, assigned, condition, block_condition};
ghost use Rattle.souper_graph.specs.View.{view_assignment, view_attribute, view_statement};
ghost use Rattle.souper_graph.specs.Syntax.Spelling.{attribute as attribute_form, statement};
ghost use Rattle.souper_errors.specs.Errors.{error_of, widened};
ghost use Rattle.souper_ir.specs.Continuation.{assignment_continues, pc_continues, block_pc_continues, statement_continues};
ghost use Rattle.souper_ir.specs.Reading.{Gives};
ghost use Rattle.souper_ir.specs.Grammar.{Took, Refusal, peek_at};
ghost use Rattle.souper_names.specs.HashView.{name_hash};
ghost use Rattle.souper_ir.specs.NodeReadings.{is_name, is_word, attribute_at, type_and_equals_at, heading_at, pc_at, block_pc_at, starts_statement};
ghost use Rattle.souper_ir.specs.Stopping.{RowStops, Stops};
ghost use Rattle.souper_ir.specs.Laws.Attributed.{Row, OneMore};
ghost use Rattle.souper_ir.specs.Laws.FromReadings.{alone as one_alone};
ghost use Rattle.souper_ir.specs.Laws.Tokens.{word_first};
ghost use Rattle.souper_ir.specs.Laws.Statements.{assignment_laws, assignment_first, pc_rule, block_pc_rule, statement_alone, statement_first};

use crate::parse::attributes::attribute;
use crate::parse::message::Message;
use crate::parse::names::Slot;
use crate::parse::operands::{operand, optional_type};
use crate::parse::parser::{Parser, Read, Result};
use crate::parse::rhs::{block_name, rhs};
use crate::parse::tokens::{
    Mark, keyword, mark_comes, predecessor_number, punctuation, value_name, value_name_comes,
    word_comes,
};
use crate::parse::traits::{Parse, Peek};
use souper_errors::widen;
use souper_graph::ast::{Assignment, AssignmentRhs, Attribute, BlockPc, Pc, Statement, Type};
use souper_lexer::Token;

// The type of an assignment, if there is one, and the equals sign.
#[inline(always)]
#[tactic(auto, unfolding(crate::specs::NodeReadings::type_and_equals_at))]
fn type_and_equals(parser: &mut Parser<'_>) -> Read<Option<Type>>
    ensures { Gives (λ t. t) (widened result) (type_and_equals_at parser.old) parser.old parser.new }
{
    if parser.take_mark(Mark::Equals) {
        return Ok(None);
    }
    let ty = optional_type(parser)?;
    punctuation(parser, Mark::Equals)?;
    Ok(ty)
}

/// The name of an assignment, which is new, and its type, up to the equals sign.
#[tactic(auto, unfolding(crate::specs::NodeReadings::heading_at))]
fn heading<'a>(parser: &mut Parser<'a>) -> Read<(&'a str, Option<Type>)>
    ensures { Gives (λ r. (r.0.now, r.1)) (widened result) (heading_at parser.old) parser.old parser.new }
{
    let name = value_name(parser)?;
    if parser.value_named(name).is_some() {
        return Err(parser.refuse(Message::CannotRedefine(name)));
    }
    let ty = type_and_equals(parser)?;
    Ok((name, ty))
}

/// The same, of an assignment that is entered, and where its name is to be entered: its definition begins.
#[tactic(auto, unfolding(crate::specs::NodeReadings::heading_at, crate::specs::NodeReadings::new_name_at))]
pub(crate) fn entered_heading<'a>(parser: &mut Parser<'a>) -> Read<(&'a str, Slot, Option<Type>)>
    ensures heading { Gives (λ r. (r.0.now, r.2)) (widened result) (heading_at parser.old) parser.old parser.new }
    ensures hash { IfOk result (λ r. r.1.hash ≡ name_hash r.0.now) }
{
    let name = value_name(parser)?;
    let slot = parser.begin(name)?;
    let ty = type_and_equals(parser)?;
    Ok((name, slot, ty))
}

/// The attributes of an assignment.
#[inline(always)]
pub(crate) fn attributes(parser: &mut Parser<'_>) -> Read<Vec<Attribute>>
    ensures ok { IfOk result (λ xs. Took (Row attribute_form) OneMore (λ s. s) (map view_attribute xs.items) parser.old parser.new) }
    ensures err { IfErr result (λ e. Refusal (Row attribute_form) OneMore (error_of e) parser.old parser.new) }
    ensures stops { IfErr result (λ e. Stops (RowStops attribute_form attribute_at) (error_of e) parser.old) }
{
    let mut attributes = Vec::new(parser.alloc());
    if parser.name_on_next_line() {
        return Ok(attributes);
    }
    // `Vec::<Attribute>::parse` would return a large error.
    while mark_comes(parser, Mark::OpenParen)? {
        let value = attribute(parser)?;
        match attributes.push(value) {
            Ok(()) => {}
            Err(_) => return Err(parser.want_memory()),
        }
    }
    Ok(attributes)
}

/// An assignment, which is not entered into the scope.
fn assignment(parser: &mut Parser<'_>) -> Read<Assignment>
    ensures ok { IfOk result (λ a. Took (λ s a. statement s (assigned a)) assignment_continues (λ s. s) (view_assignment a) parser.old parser.new) }
    ensures err { IfErr result (λ e. Refusal (λ s a. statement s (assigned a)) assignment_continues (error_of e) parser.old parser.new) }
{
    let (name, ty) = heading(parser)?;
    let value = rhs(parser)?;
    let attributes = attributes(parser)?;
    match String::from_str(parser.alloc(), name) {
        Ok(name) => Ok(Assignment {
            name,
            ty,
            value,
            attributes,
        }),
        Err(_) => Err(parser.want_memory()),
    }
}

#[tactic(auto, unfolding(crate::specs::NodeReadings::pc_at))]
pub(crate) fn pc(parser: &mut Parser<'_>) -> Read<Pc>
    ensures { Gives (λ p. p) (widened result) (pc_at parser.old) parser.old parser.new }
{
    keyword(parser, "pc")?;
    let x = operand(parser)?;
    let y = operand(parser)?;
    Ok(Pc { x, y })
}

#[tactic(auto, unfolding(crate::specs::NodeReadings::block_pc_at))]
pub(crate) fn block_pc(parser: &mut Parser<'_>) -> Read<BlockPc>
    ensures { Gives (λ p. p) (widened result) (block_pc_at parser.old) parser.old parser.new }
{
    keyword(parser, "blockpc")?;
    let (block, predecessors, name) = block_name(parser)?;
    let predecessor = predecessor_number(parser)?;
    if predecessor >= predecessors {
        return Err(parser.refuse(Message::PredecessorOutOfRange(predecessor, name)));
    }
    let x = operand(parser)?;
    let y = operand(parser)?;
    Ok(BlockPc {
        block,
        predecessor,
        x,
        y,
    })
}

/// Called by itself, it adds no statement and no name.
impl Parse for Assignment {
    ghost Plain = { PlainAssignment };

    ghost view = { view_assignment };

    ghost spells = { λ s a. statement s (assigned a) };

    ghost continues = { assignment_continues };

    ghost alone = { assignment_laws.alone };

    fn parse<'a>(parser: &mut Parser<'a>) -> Result<Self> {
        widen(assignment(parser))
    }
}

impl Peek for Assignment {
    ghost starts = { is_name };

    ghost first = { assignment_first };

    ghost stays = { λ s. refl };

    fn peek<'a>(parser: &mut Parser<'a>) -> Result<bool> {
        widen(value_name_comes(parser))
    }
}

/// Called by itself, it adds no statement.
impl Parse for Pc {
    ghost Plain = { pc_value };

    ghost view = { λ p. p };

    ghost spells = { λ s p. statement s (condition p) };

    ghost continues = { pc_continues };

    ghost alone = { one_alone pc_rule };

    fn parse<'a>(parser: &mut Parser<'a>) -> Result<Self> {
        widen(pc(parser))
    }
}

impl Peek for Pc {
    ghost starts = { is_word (codes "pc") };

    ghost first = { λ s p ts h. word_first (codes "pc") ts h };

    ghost stays = { λ s. refl };

    fn peek<'a>(parser: &mut Parser<'a>) -> Result<bool> {
        widen(word_comes(parser, "pc"))
    }
}

/// Its name must denote a block in scope, and its number a predecessor of the block, counted from 0.
/// Called by itself, it adds no statement.
impl Parse for BlockPc {
    ghost Plain = { block_pc_value };

    ghost view = { λ p. p };

    ghost spells = { λ s p. statement s (block_condition p) };

    ghost continues = { block_pc_continues };

    ghost alone = { one_alone block_pc_rule };

    fn parse<'a>(parser: &mut Parser<'a>) -> Result<Self> {
        widen(block_pc(parser))
    }
}

impl Peek for BlockPc {
    ghost starts = { is_word (codes "blockpc") };

    ghost first = { λ s p ts h. word_first (codes "blockpc") ts h };

    ghost stays = { λ s. refl };

    fn peek<'a>(parser: &mut Parser<'a>) -> Result<bool> {
        widen(word_comes(parser, "blockpc"))
    }
}

/// Called by itself, it adds no statement and no name.
impl Parse for Statement {
    ghost Plain = { PlainStatement };

    ghost view = { view_statement };

    ghost spells = { statement };

    ghost continues = { statement_continues };

    ghost alone = { statement_alone };

    fn parse<'a>(parser: &mut Parser<'a>) -> Result<Self> {
        if word_comes(parser, "pc")? {
            Ok(pc(parser)?.into())
        } else if word_comes(parser, "blockpc")? {
            Ok(block_pc(parser)?.into())
        } else {
            Ok(assignment(parser)?.into())
        }
    }
}

impl Peek for Statement {
    ghost starts = { starts_statement };

    ghost first = { statement_first };

    ghost stays = { λ s. refl };

    #[tactic(auto, unfolding(crate::specs::Grammar::peek_at))]
    fn peek<'a>(parser: &mut Parser<'a>) -> Result<bool> {
        match parser.lookahead()? {
            Some(Token::ValName(_)) => Ok(true),
            Some(Token::Ident(word)) => Ok(word == "pc" || word == "blockpc"),
            _ => Ok(false),
        }
    }
}
