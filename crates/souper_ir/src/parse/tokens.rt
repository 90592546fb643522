//! Single tokens that a parser takes or looks at.

ghost use Rattle.std.specs.Prelude.{◌≡◌, ◌^◌, [], false, None, Some, IsOk};
ghost use Rattle.souper_errors.specs.Errors.{widened};
ghost use Rattle.souper_ir.specs.Reading.{Gives};
ghost use Rattle.souper_ir.specs.Grammar.{peek_at};
ghost use Rattle.souper_graph.specs.Syntax.Numbers.{number_of, count_of};
ghost use Rattle.souper_lexer.specs.TokenReading.{mark_of as mark_of_byte};
ghost use Rattle.souper_lexer.specs.TokenView.{lexeme_of};
ghost use Rattle.souper_ir.specs.MarkView.{lexeme_of_mark};
ghost use Rattle.souper_ir.specs.NodeReadings.{accept, as_name, is_name, is_any, as_mark, is_mark, is_word, as_word, is_int, int_by};

use crate::parse::message::Message;
use crate::parse::numbers::{count, number, small_count};
use crate::parse::parser::{Parser, Read};
use souper_lexer::Token;
use std::fmt;

/// A punctuation mark, a token of its own.
#[derive(Clone, Copy, Debug, PartialEq, Eq)]
pub(crate) enum Mark {
    Comma,
    Colon,
    Equals,
    OpenParen,
    CloseParen,
    OpenBracket,
}

impl fmt::Display for Mark {
    fn fmt<W: fmt::Write>(&self, f: &mut fmt::Formatter<W>) -> fmt::Result {
        match self {
            Mark::Comma => write!(f, ","),
            Mark::Colon => write!(f, ":"),
            Mark::Equals => write!(f, "="),
            Mark::OpenParen => write!(f, "("),
            Mark::CloseParen => write!(f, ")"),
            Mark::OpenBracket => write!(f, "["),
        }
    }
}

/// The byte that the mark is.
#[inline(always)]
pub(crate) fn byte_of(mark: Mark) -> u8
    ensures { mark_of_byte result ≡ Some (lexeme_of_mark mark) }
{
    match mark {
        Mark::Comma => b',',
        Mark::Colon => b':',
        Mark::Equals => b'=',
        Mark::OpenParen => b'(',
        Mark::CloseParen => b')',
        Mark::OpenBracket => b'[',
    }
}

fn is_token(mark: Mark, token: Token<'_>) -> bool
    ensures { result ≡ is_mark (lexeme_of_mark mark) (lexeme_of token.entry) }
{
    match (mark, token) {
        (Mark::Comma, Token::Comma) => true,
        (Mark::Colon, Token::Colon) => true,
        (Mark::Equals, Token::Eq) => true,
        (Mark::OpenParen, Token::OpenParen) => true,
        (Mark::CloseParen, Token::CloseParen) => true,
        (Mark::OpenBracket, Token::OpenBracket) => true,
        _ => false,
    }
}

// A mark, as a token of the lexer.
#[inline(never)]
#[tactic(auto, unfolding(crate::specs::NodeReadings::accept))]
fn next_mark(parser: &mut Parser<'_>, mark: Mark) -> Read<()>
    ensures { Gives (λ u. u) (widened result) (accept (as_mark (lexeme_of_mark mark)) parser.old) parser.old parser.new }
{
    let token = parser.token()?;
    if is_token(mark, token) {
        Ok(())
    } else {
        Err(parser.refuse(Message::ExpectedMark(mark)))
    }
}

#[inline(always)]
#[tactic(auto, unfolding(crate::specs::NodeReadings::accept))]
pub(crate) fn punctuation(parser: &mut Parser<'_>, mark: Mark) -> Read<()>
    ensures { Gives (λ u. u) (widened result) (accept (as_mark (lexeme_of_mark mark)) parser.old) parser.old parser.new }
{
    if parser.take_mark(mark) {
        return Ok(());
    }
    next_mark(parser, mark)
}

#[tactic(auto, unfolding(crate::specs::Grammar::peek_at))]
pub(crate) fn mark_comes(parser: &mut Parser<'_>, mark: Mark) -> Read<bool>
    ensures { Gives (λ b. b) (widened result) (peek_at (is_mark (lexeme_of_mark mark)) parser.old) parser.old parser.new }
{
    match parser.lookahead()? {
        Some(token) => Ok(is_token(mark, token)),
        None => Ok(false),
    }
}

// A value name, as a token of the lexer.
#[inline(never)]
#[tactic(auto, unfolding(crate::specs::NodeReadings::accept))]
fn next_value_name<'a>(parser: &mut Parser<'a>) -> Read<&'a str>
    ensures { Gives (λ name. name.now) (widened result) (accept as_name parser.old) parser.old parser.new }
{
    match parser.token()? {
        Token::ValName(name) => Ok(name),
        _ => Err(parser.refuse(Message::ExpectedValueName)),
    }
}

#[inline(always)]
#[tactic(auto, unfolding(crate::specs::NodeReadings::accept))]
pub(crate) fn value_name<'a>(parser: &mut Parser<'a>) -> Read<&'a str>
    ensures { Gives (λ name. name.now) (widened result) (accept as_name parser.old) parser.old parser.new }
{
    if let Some(name) = parser.take_name() {
        return Ok(name);
    }
    next_value_name(parser)
}

#[tactic(auto, unfolding(crate::specs::NodeReadings::accept))]
pub(crate) fn keyword(parser: &mut Parser<'_>, word: &'static str) -> Read<()>
    ensures { Gives (λ u. u) (widened result) (accept (as_word word.now) parser.old) parser.old parser.new }
{
    match parser.token()? {
        Token::Ident(other) if other == word => Ok(()),
        _ => Err(parser.refuse(Message::ExpectedWord(word))),
    }
}

/// A number within the signed numbers of 128 bits.
#[tactic(auto, unfolding(crate::specs::NodeReadings::accept))]
pub(crate) fn integer(parser: &mut Parser<'_>) -> Read<i128>
    ensures { Gives (λ n. n) (widened result) (accept (int_by number_of) parser.old) parser.old parser.new }
{
    let digits = match parser.take_int() {
        Some(digits) => digits,
        None => match parser.token()? {
            Token::Int(digits) => digits,
            _ => return Err(parser.refuse(Message::ExpectedInteger)),
        },
    };
    match number(digits) {
        Ok(value) => Ok(value),
        Err(fault) => Err(parser.refuse(Message::BadInteger(fault))),
    }
}

/// A block's number of predecessors, or the number of one of them.
#[tactic(auto, unfolding(crate::specs::NodeReadings::accept))]
pub(crate) fn predecessor_number(parser: &mut Parser<'_>) -> Read<u32>
    ensures { Gives (λ n. n) (widened result) (accept (int_by (count_of (2 ^ 32))) parser.old) parser.old parser.new }
{
    let digits = match parser.take_int() {
        Some(digits) => digits,
        None => match parser.token()? {
            Token::Int(digits) => digits,
            _ => return Err(parser.refuse(Message::ExpectedInteger)),
        },
    };
    match count(digits) {
        Ok(value) => Ok(value),
        Err(fault) => Err(parser.refuse(Message::BadInteger(fault))),
    }
}

/// A number of bits.
#[tactic(auto, unfolding(crate::specs::NodeReadings::accept))]
pub(crate) fn bit_count(parser: &mut Parser<'_>) -> Read<u8>
    ensures { Gives (λ n. n) (widened result) (accept (int_by (count_of (2 ^ 8))) parser.old) parser.old parser.new }
{
    let digits = match parser.take_int() {
        Some(digits) => digits,
        None => match parser.token()? {
            Token::Int(digits) => digits,
            _ => return Err(parser.refuse(Message::ExpectedInteger)),
        },
    };
    match small_count(digits) {
        Ok(value) => Ok(value),
        Err(fault) => Err(parser.refuse(Message::BadInteger(fault))),
    }
}

#[tactic(auto, unfolding(crate::specs::Grammar::peek_at))]
pub(crate) fn value_name_comes(parser: &mut Parser<'_>) -> Read<bool>
    ensures { Gives (λ b. b) (widened result) (peek_at is_name parser.old) parser.old parser.new }
{
    Ok(matches!(parser.lookahead()?, Some(Token::ValName(_))))
}

#[tactic(auto, unfolding(crate::specs::Grammar::peek_at))]
pub(crate) fn integer_comes(parser: &mut Parser<'_>) -> Read<bool>
    ensures { Gives (λ b. b) (widened result) (peek_at is_int parser.old) parser.old parser.new }
{
    Ok(matches!(parser.lookahead()?, Some(Token::Int(_))))
}

#[tactic(auto, unfolding(crate::specs::Grammar::peek_at))]
pub(crate) fn word_comes(parser: &mut Parser<'_>, word: &str) -> Read<bool>
    ensures { Gives (λ b. b) (widened result) (peek_at (is_word word.now) parser.old) parser.old parser.new }
{
    match parser.lookahead()? {
        Some(Token::Ident(next)) => Ok(next == word),
        _ => Ok(false),
    }
}

#[tactic(auto, unfolding(crate::specs::Grammar::peek_at))]
pub(crate) fn token_comes(parser: &mut Parser<'_>) -> Read<bool>
    ensures next { Gives (λ b. b) (widened result) (peek_at is_any parser.old) parser.old parser.new }
    // The end of the text needs no memory.
    ensures ended { parser.old.tokens ≡ [] → parser.old.faulty ≡ false → parser.old.failed ≡ None → IsOk result }
{
    Ok(parser.lookahead()?.is_some())
}
