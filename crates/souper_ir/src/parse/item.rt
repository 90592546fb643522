//! Whole items.

ghost use Rattle.std.specs.Prelude.{◌≡◌, ℕ, List, length, map, false, None, IfOk, OnOk, IfErr, IsOkAnd, option_copied, is_some, []};
ghost use Rattle.std.specs.List.{AllByRecursion};
ghost use Rattle.souper_graph.specs.View.{view_left_hand_side, view_right_hand_side, view_replacement};
ghost use Rattle.souper_graph.specs.WellFormed.{WellFormed};
ghost use Rattle.souper_graph.specs.Unneeded.{EachClosed};
ghost use Rattle.souper_graph.specs.Values.{Item as PlainItem};
ghost use Rattle.souper_graph.specs.Syntax.Tokens.{Lexeme, IsTextOf, IsLastGap, IsLexeme};
ghost use Rattle.souper_graph.specs.Syntax.TokenLaws.{AreTokensOf};
ghost use Rattle.souper_graph.specs.Syntax.Spelling.{kinds, left_hand_side, right_hand_side, replacement, item_after, TextSpells, statement};
ghost use Rattle.souper_lexer.specs.TokenView.{IsCut};
ghost use Rattle.souper_errors.specs.Errors.{error_of, widened, kind_of, at_end_of};
ghost use Rattle.souper_ir.specs.Continuation.{statement_continues, item_continues};
ghost use Rattle.souper_ir.specs.Grammar.{Took, Refusal};
ghost use Rattle.souper_ir.specs.declared.parse.item.Next.{Next};
ghost use Rattle.souper_ir.specs.NextStatement.{next_at, NextIs};
ghost use Rattle.souper_ir.specs.Reading.{Gives, IfRefused, cause_of};
ghost use Rattle.souper_ir.specs.Items.{Enters, TakesStatements, StatedRefusal};
ghost use Rattle.souper_ir.specs.Laws.Items.{item_alone};
ghost use Rattle.souper_ir.specs.ItemRuns.{SpellsAll, ListRefusal};
ghost use Rattle.souper_ir.specs.Stopping.{StatementStops, StatementsStop, ItemStops, ItemsStop, TextStops, Stops};
ghost use Rattle.souper_ir.specs.Answers.{IsStrError};
ghost use Rattle.souper_ir.specs.Sinks.{TakesOver, TakesText, TakesPrefix};
ghost use Rattle.souper_ir.specs.Starts.{HasStarts, TakesFirst, Keeps, SpellEachFrom, PrefixSpellsFrom, TextSpellsFrom, TakesFrom, starts_kept, starts_of};

use crate::parse::last_lines::{cand, infer, result};
use crate::parse::memory::{Kept, Memory};
use crate::parse::parser::{Parser, Read, Result};
use crate::parse::rhs::rhs;
use crate::parse::sink::Sink;
use crate::parse::statements::{attributes, block_pc, entered_heading, pc};
use crate::parse::tokens::word_comes;
use crate::parse::traits::Parse;
use souper_errors::{ParseErrorKind, locate};
use souper_graph::ast::{
    Arena, Assignment, Item, LeftHandSide, Replacement, RightHandSide, Statement,
};
use souper_lexer::Token;
use std::alloc::Global;
use std::mem;

// What the next token begins.
#[derive(Clone, Copy)]
enum Next {
    Assignment,
    Pc,
    BlockPc,
    Other,
}

#[tactic(auto, unfolding(crate::specs::NextStatement::next_at))]
fn next_kind(parser: &mut Parser<'_>) -> Read<Next>
    ensures { Gives (λ n. n) (widened result) (next_at parser.old) parser.old parser.new }
{
    if parser.name_on_next_line() {
        return Ok(Next::Assignment);
    }
    match parser.lookahead()? {
        Some(Token::ValName(_)) => Ok(Next::Assignment),
        Some(Token::Ident("pc")) => Ok(Next::Pc),
        Some(Token::Ident("blockpc")) => Ok(Next::BlockPc),
        _ => Ok(Next::Other),
    }
}

// The next statement, a path condition, which is entered into the scope.
#[inline(never)]
fn enter_pc(parser: &mut Parser<'_>) -> Read<()>
    requires { NextIs Next.Pc parser.old }
    ensures ok { OnOk result (Enters parser.old parser.new) }
    ensures err { IfErr result (λ e. Refusal statement statement_continues (error_of e) parser.old parser.new) }
    ensures stops { IfErr result (λ e. Stops StatementStops (error_of e) parser.old) }
{
    let condition = pc(parser)?;
    parser.add(condition.into())
}

// The next statement, a path condition on a predecessor of a block, which is entered into the scope.
#[inline(never)]
fn enter_block_pc(parser: &mut Parser<'_>) -> Read<()>
    requires { NextIs Next.BlockPc parser.old }
    ensures ok { OnOk result (Enters parser.old parser.new) }
    ensures err { IfErr result (λ e. Refusal statement statement_continues (error_of e) parser.old parser.new) }
    ensures stops { IfErr result (λ e. Stops StatementStops (error_of e) parser.old) }
{
    let condition = block_pc(parser)?;
    parser.add(condition.into())
}

// The next statement, an assignment, which is entered into the scope.
#[inline(never)]
fn enter_assignment(parser: &mut Parser<'_>) -> Read<()>
    requires { NextIs Next.Assignment parser.old }
    ensures ok { OnOk result (Enters parser.old parser.new) }
    ensures err { IfErr result (λ e. Refusal statement statement_continues (error_of e) parser.old parser.new) }
    ensures stops { IfErr result (λ e. Stops StatementStops (error_of e) parser.old) }
{
    let (name, slot, ty) = entered_heading(parser)?;
    // `let value = rhs(parser)?` would copy the value twice more.
    match rhs(parser) {
        Ok(value) => {
            let attributes = attributes(parser)?;
            let Ok(text) = parser.copy_name(name) else {
                return Err(parser.want_memory());
            };
            let assignment = Assignment {
                name: text,
                ty,
                value,
                attributes,
            };
            parser.define(slot, name, assignment)
        }
        Err(error) => Err(error),
    }
}

// The next statements, which are entered into the scope.
#[tactic(auto, using(crate::proofs::Nodes::NextStatements::next_stays))]
fn statements(parser: &mut Parser<'_>) -> Read<()>
    ensures ok { OnOk result (TakesStatements parser.old parser.new) }
    ensures err { IfErr result (λ e. StatedRefusal (error_of e) parser.old parser.new) }
    ensures stops { IfErr result (λ e. Stops StatementsStop (error_of e) parser.old) }
{
    loop {
        match next_kind(parser)? {
            Next::Assignment => enter_assignment(parser)?,
            Next::Pc => enter_pc(parser)?,
            Next::BlockPc => enter_block_pc(parser)?,
            Next::Other => return Ok(()),
        }
    }
}

// The statements, in whose place none are left.
fn emptied(statements: &mut Arena<Statement>) -> Arena<Statement> {
    let alloc = statements.allocator();
    mem::replace(statements, Arena::new(alloc))
}

/// An item that is read from a text: a left-hand side, a right-hand side or a replacement.
pub trait WholeItem: Item + Sized {
    /// Takes the tokens of an item. The scope is empty after it.
    fn item(parser: &mut Parser<'_>) -> Result<Self>
        ensures ok { IfOk result (λ v. Took (item_after Self.item_type) item_continues (λ s. []) (Self.view v) parser.old parser.new) }
        ensures err { IfErr result (λ e. Refusal (item_after Self.item_type) item_continues e parser.old parser.new) }
        ensures stops { IfErr result (λ e. Stops (ItemStops Self.item_type) e parser.old) };

    /// Takes the statements out of an item that is to be dropped, if its type allows it. No clause says what is left.
    fn take_statements(&mut self) -> Option<Arena<Statement>> {
        None
    }
}

impl WholeItem for LeftHandSide {
    fn item(parser: &mut Parser<'_>) -> Result<Self> {
        statements(parser)?;
        let infer = infer(parser)?;
        let statements = parser.finish();
        Ok(LeftHandSide { statements, infer })
    }

    fn take_statements(&mut self) -> Option<Arena<Statement>> {
        Some(emptied(&mut self.statements))
    }
}

impl WholeItem for RightHandSide {
    fn item(parser: &mut Parser<'_>) -> Result<Self> {
        statements(parser)?;
        let result = result(parser)?;
        let statements = parser.finish();
        Ok(RightHandSide { statements, result })
    }

    fn take_statements(&mut self) -> Option<Arena<Statement>> {
        Some(emptied(&mut self.statements))
    }
}

impl WholeItem for Replacement {
    fn item(parser: &mut Parser<'_>) -> Result<Self> {
        statements(parser)?;
        if word_comes(parser, "infer")? {
            let lhs = infer(parser)?;
            statements(parser)?;
            let rhs = result(parser)?;
            let statements = parser.finish();
            Ok(Replacement::LhsRhs {
                statements,
                lhs,
                rhs,
            })
        } else {
            let cand = cand(parser)?;
            let statements = parser.finish();
            Ok(Replacement::Cand { statements, cand })
        }
    }

    fn take_statements(&mut self) -> Option<Arena<Statement>> {
        match self {
            Replacement::LhsRhs { statements, .. } | Replacement::Cand { statements, .. } => {
                Some(emptied(statements))
            }
        }
    }
}

/// Its statements may use the names of those before them, and of no others. The scope is empty after it.
impl Parse for LeftHandSide {
    ghost Plain = { PlainItem };

    ghost view = { view_left_hand_side };

    ghost spells = { item_after left_hand_side };

    ghost continues = { item_continues };

    ghost leaves = { λ s. [] };

    ghost alone = { item_alone left_hand_side };

    fn parse<'a>(parser: &mut Parser<'a>) -> Result<Self> {
        LeftHandSide::item(parser)
    }
}

/// Its statements may use the names of those before them, and of no others. The scope is empty after it.
impl Parse for RightHandSide {
    ghost Plain = { PlainItem };

    ghost view = { view_right_hand_side };

    ghost spells = { item_after right_hand_side };

    ghost continues = { item_continues };

    ghost leaves = { λ s. [] };

    ghost alone = { item_alone right_hand_side };

    fn parse<'a>(parser: &mut Parser<'a>) -> Result<Self> {
        RightHandSide::item(parser)
    }
}

/// Either an infer line and a result line, with further statements between them, or a cand line. The scope is empty
/// after it.
impl Parse for Replacement {
    ghost Plain = { PlainItem };

    ghost view = { view_replacement };

    ghost spells = { item_after replacement };

    ghost continues = { item_continues };

    ghost leaves = { λ s. [] };

    ghost alone = { item_alone replacement };

    fn parse<'a>(parser: &mut Parser<'a>) -> Result<Self> {
        Replacement::item(parser)
    }
}

// The next item, read into the memory of one that was dropped, if there is one.
#[inline(always)]
fn next_item<T: WholeItem>(parser: &mut Parser<'_>, dropped: Option<Arena<Statement>>) -> Result<T>
    requires { parser.old.scope ≡ [] }
    ensures ok { IfOk result (λ v. Took (item_after T.item_type) item_continues (λ s. []) (T.view v) parser.old parser.new) }
    ensures err { IfErr result (λ e. Refusal (item_after T.item_type) item_continues e parser.old parser.new) }
    ensures stops { IfErr result (λ e. Stops (ItemStops T.item_type) e parser.old) }
{
    parser.reuse(dropped);
    T::item(parser)
}

// Passes the items up to the end of the text to the sink.
#[tactic(auto, using(crate::proofs::Items::Starts::keeps_asked))]
fn items<T: WholeItem, S: Sink<T>>(
    kept: &mut Kept,
    parser: &mut Parser<'_>,
    sink: &mut S,
) -> Result<()>
    requires scope { parser.old.scope ≡ [] }
    requires lexemes { AllByRecursion IsLexeme (kinds parser.old.tokens) }
    ensures ok { OnOk result ((items : List PlainItem) × (starts : List ℕ) × SpellsAll T.item_type items parser.old × SpellEachFrom T.item_type items starts parser.old.tokens
        × TakesOver S.holds items sink.old sink.new × Keeps kept.old kept.new starts) }
    ensures err { IfErr result (λ e. ListRefusal T.item_type e parser.old parser.new) }
    ensures stops { IfErr result (λ e. Stops (ItemsStop T.item_type) e parser.old) }
    ensures first { IfErr result (λ e. IfRefused (cause_of e) (TakesFirst S.holds T.item_type (Keeps kept.old kept.new) parser.old sink.old sink.new)) }
    ensures asked { is_some (starts_kept kept.new) ≡ is_some (starts_kept kept.old) }
    // The end of the text needs no memory.
    ensures ended { (parser.old.tokens ≡ []) → (parser.old.faulty ≡ false) → (parser.old.failed ≡ None) → IsOkAnd result (λ _. sink.new ≡ sink.old) }
{
    while let Some(start) = parser.next_start()? {
        let dropped = kept.statements.take();
        let item = next_item::<T>(parser, dropped)?;
        kept.statements = match sink.take(item) {
            Ok(statements) => statements,
            Err(_) => return Err(parser.want_memory().into()),
        };
        match kept.add_start(start) {
            Ok(()) => {}
            Err(_) => return Err(parser.want_memory().into()),
        }
    }
    Ok(())
}

// Passes the items of a new parser's text to the sink.
#[inline(always)]
fn whole_text<T: WholeItem, S: Sink<T>>(
    alloc: Global,
    source: &str,
    filename: Option<&str>,
    kept: &mut Kept,
    parser: &mut Parser<'_>,
    sink: &mut S,
) -> Result<()>
    requires tokens { AreTokensOf source.now parser.old.tokens parser.old.faulty }
    requires only { (ts : List (ℕ × Lexeme)) → IsTextOf source.now ts → (parser.old.tokens ≡ ts) × (parser.old.faulty ≡ false) }
    requires cut { IsCut source.now parser.old.tokens parser.old.faulty parser.old.cut }
    requires len { parser.old.len ≡ length source.now }
    requires scope { parser.old.scope ≡ [] }
    requires live { parser.old.failed ≡ None }
    ensures taken { OnOk result (TakesText S.holds T.item_type source.now sink.old sink.new) }
    ensures starts { OnOk result (TakesFrom S.holds (TextSpellsFrom T.item_type source.now) (Keeps kept.old kept.new) sink.old sink.new) }
    ensures refused { IfErr result (λ e. IsStrError T.item_type (option_copied filename.entry) source.now e) }
    ensures stops { IfErr result (λ e. kind_of e ≡ ParseErrorKind.Parse → TextStops T.item_type source.now (at_end_of e)) }
    ensures before { IfErr result (λ e. kind_of e ≡ ParseErrorKind.Parse → TakesPrefix S.holds T.item_type source.now sink.old sink.new) }
    ensures starts_before { IfErr result (λ e. kind_of e ≡ ParseErrorKind.Parse → TakesFrom S.holds (PrefixSpellsFrom T.item_type source.now) (Keeps kept.old kept.new) sink.old sink.new) }
    ensures asked { is_some (starts_kept kept.new) ≡ is_some (starts_kept kept.old) }
    ensures gaps { IsLastGap source.now → IsOkAnd result (λ _. sink.new ≡ sink.old) }
{
    match items::<T, S>(kept, parser, sink) {
        Ok(()) => Ok(()),
        Err(error) => Err(locate(error, alloc, source, filename)),
    }
}

/// Passes the items of a text to a sink, one at a time and in order, so that they need not be in memory together.
///
/// The type of the items is [`LeftHandSide`], [`RightHandSide`] or [`Replacement`]. The file name is for the error,
/// which shows `unknown` without one. An error of the kind `Parse` says that the text spells no list of such items; the
/// sink then has taken items that the text begins with, those before the one that was rejected. The other kind is `Memory`, and
/// what the sink holds then is not specified. A text of white space and comments alone has no items.
pub fn parse_into<T: WholeItem, S: Sink<T>>(
    alloc: Global,
    source: &str,
    filename: Option<&str>,
    sink: &mut S,
) -> Result<()>
    ensures taken { OnOk result (TakesText S.holds T.item_type source.now sink.old sink.new) }
    ensures refused { IfErr result (λ e. IsStrError T.item_type (option_copied filename.entry) source.now e) }
    ensures stops { IfErr result (λ e. kind_of e ≡ ParseErrorKind.Parse → TextStops T.item_type source.now (at_end_of e)) }
    ensures before { IfErr result (λ e. kind_of e ≡ ParseErrorKind.Parse → TakesPrefix S.holds T.item_type source.now sink.old sink.new) }
    ensures gaps { IsLastGap source.now → IsOkAnd result (λ _. sink.new ≡ sink.old) }
{
    let mut parser = Parser::new(alloc, source);
    whole_text::<T, S>(
        alloc,
        source,
        filename,
        &mut Kept::none(),
        &mut parser,
        sink,
    )
}

/// [`parse_into`] for many short texts, one after the other: the items are read into the memory of items that a sink gave back before
/// ([`Sink::take`]), of this text or of those before it. A memory that is asked for them ([`Memory::with_starts`]) has the offsets of
/// the items of the text then, or, if it is rejected, those of the items before the one that was.
pub fn parse_with_memory<T: WholeItem, S: Sink<T>>(
    alloc: Global,
    memory: &mut Memory,
    source: &str,
    filename: Option<&str>,
    sink: &mut S,
) -> Result<()>
    ensures taken { OnOk result (TakesText S.holds T.item_type source.now sink.old sink.new) }
    ensures refused { IfErr result (λ e. IsStrError T.item_type (option_copied filename.entry) source.now e) }
    ensures stops { IfErr result (λ e. kind_of e ≡ ParseErrorKind.Parse → TextStops T.item_type source.now (at_end_of e)) }
    ensures before { IfErr result (λ e. kind_of e ≡ ParseErrorKind.Parse → TakesPrefix S.holds T.item_type source.now sink.old sink.new) }
    ensures starts { OnOk result (TakesFrom S.holds (TextSpellsFrom T.item_type source.now) (HasStarts memory.old memory.new) sink.old sink.new) }
    ensures starts_before { IfErr result (λ e. kind_of e ≡ ParseErrorKind.Parse → TakesFrom S.holds (PrefixSpellsFrom T.item_type source.now) (HasStarts memory.old memory.new) sink.old sink.new) }
    ensures asked { is_some (starts_of memory.new) ≡ is_some (starts_of memory.old) }
    ensures gaps { IsLastGap source.now → IsOkAnd result (λ _. sink.new ≡ sink.old) }
{
    let Memory { spare, mut kept } = mem::replace(memory, Memory::new(alloc));
    kept.restart();
    let mut parser = Parser::reusing(alloc, source, spare);
    let parsed = whole_text::<T, S>(alloc, source, filename, &mut kept, &mut parser, sink);
    *memory = parser.into_memory(kept);
    parsed
}

/// The items of a text, in order.
///
/// The type of the items is [`LeftHandSide`], [`RightHandSide`] or [`Replacement`]. The file name is for the error, which shows
/// `unknown` without one. A text that is rejected has no items: the error is of the kind `Parse` or `Memory`. A text of white space
/// and comments alone has no items, and never runs out of memory.
pub fn parse_items<T: WholeItem + Drop>(
    alloc: Global,
    source: &str,
    filename: Option<&str>,
) -> Result<Vec<T>>
    ensures spelled { IfOk result (λ v. TextSpells T.item_type source.now (map T.view v.items)) }
    ensures well_formed { IfOk result (λ v. AllByRecursion WellFormed (map T.view v.items)) }
    ensures each_closed { IfOk result (λ v. AllByRecursion EachClosed (map T.view v.items)) }
    ensures refused { IfErr result (λ e. IsStrError T.item_type (option_copied filename.entry) source.now e) }
    ensures stops { IfErr result (λ e. kind_of e ≡ ParseErrorKind.Parse → TextStops T.item_type source.now (at_end_of e)) }
    ensures gaps { IsLastGap source.now → IsOkAnd result (λ v. v.items ≡ []) }
{
    let mut items = Vec::new(alloc);
    parse_into::<T, Vec<T>>(alloc, source, filename, &mut items)?;
    Ok(items)
}

/// The left-hand sides of a text, in order.
///
/// The file name is for the error, which shows `unknown` without one. A text that is rejected has no items: the error is
/// of the kind `Parse` or `Memory`. A text of white space and comments alone has no items, and never runs out of
/// memory.
pub fn parse_left_hand_sides_str(
    alloc: Global,
    source: &str,
    filename: Option<&str>,
) -> Result<Vec<LeftHandSide>>
    ensures spelled { IfOk result (λ v. TextSpells left_hand_side source.now (map view_left_hand_side v.items)) }
    ensures well_formed { IfOk result (λ v. AllByRecursion WellFormed (map view_left_hand_side v.items)) }
    ensures each_closed { IfOk result (λ v. AllByRecursion EachClosed (map view_left_hand_side v.items)) }
    ensures refused { IfErr result (λ e. IsStrError left_hand_side (option_copied filename.entry) source.now e) }
    ensures stops { IfErr result (λ e. kind_of e ≡ ParseErrorKind.Parse → TextStops left_hand_side source.now (at_end_of e)) }
    ensures gaps { IsLastGap source.now → IsOkAnd result (λ v. v.items ≡ []) }
{
    parse_items(alloc, source, filename)
}

/// The right-hand sides of a text, in order.
///
/// The file name is for the error, which shows `unknown` without one. A text that is rejected has no items: the error is
/// of the kind `Parse` or `Memory`. A text of white space and comments alone has no items, and never runs out of
/// memory.
pub fn parse_right_hand_sides_str(
    alloc: Global,
    source: &str,
    filename: Option<&str>,
) -> Result<Vec<RightHandSide>>
    ensures spelled { IfOk result (λ v. TextSpells right_hand_side source.now (map view_right_hand_side v.items)) }
    ensures well_formed { IfOk result (λ v. AllByRecursion WellFormed (map view_right_hand_side v.items)) }
    ensures each_closed { IfOk result (λ v. AllByRecursion EachClosed (map view_right_hand_side v.items)) }
    ensures refused { IfErr result (λ e. IsStrError right_hand_side (option_copied filename.entry) source.now e) }
    ensures stops { IfErr result (λ e. kind_of e ≡ ParseErrorKind.Parse → TextStops right_hand_side source.now (at_end_of e)) }
    ensures gaps { IsLastGap source.now → IsOkAnd result (λ v. v.items ≡ []) }
{
    parse_items(alloc, source, filename)
}

/// The replacements of a text, in order.
///
/// The file name is for the error, which shows `unknown` without one. A text that is rejected has no items: the error is
/// of the kind `Parse` or `Memory`. A text of white space and comments alone has no items, and never runs out of
/// memory.
pub fn parse_replacements_str(
    alloc: Global,
    source: &str,
    filename: Option<&str>,
) -> Result<Vec<Replacement>>
    ensures spelled { IfOk result (λ v. TextSpells replacement source.now (map view_replacement v.items)) }
    ensures well_formed { IfOk result (λ v. AllByRecursion WellFormed (map view_replacement v.items)) }
    ensures each_closed { IfOk result (λ v. AllByRecursion EachClosed (map view_replacement v.items)) }
    ensures refused { IfErr result (λ e. IsStrError replacement (option_copied filename.entry) source.now e) }
    ensures stops { IfErr result (λ e. kind_of e ≡ ParseErrorKind.Parse → TextStops replacement source.now (at_end_of e)) }
    ensures gaps { IsLastGap source.now → IsOkAnd result (λ v. v.items ≡ []) }
{
    parse_items(alloc, source, filename)
}
