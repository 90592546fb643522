//! Attributes.
ghost use Rattle.std.specs.Prelude.{◌≡◌, None, option_map, refl};
ghost use Rattle.souper_graph.specs.Values.{PlainAttribute, PlainRootAttribute};
ghost use Rattle.souper_graph.specs.View.{view_attribute, view_root_attribute};
ghost use Rattle.souper_graph.specs.Syntax.Spelling.{attribute as attribute_form, root_attribute as root_attribute_form};
ghost use Rattle.souper_graph.specs.Syntax.Tokens.{open_paren};
ghost use Rattle.souper_graph.specs.Syntax.Numbers.{bits_of};
ghost use Rattle.souper_errors.specs.Errors.{widened};
ghost use Rattle.souper_ir.specs.Reading.{Gives};
ghost use Rattle.souper_ir.specs.NodeReadings.{bits_kind, sign_bits_kind, range_kind, accept, is_mark, int_by, ident_by, attribute_kind_of_word, attribute_kind_of, attribute_by, attribute_at, root_kind_of_word, root_attribute_by, root_attribute_at};
ghost use Rattle.souper_ir.specs.AttributeView.{view_kind};
ghost use Rattle.souper_ir.specs.Laws.FromReadings.{alone as one_alone};
ghost use Rattle.souper_ir.specs.Laws.Attributes.{attribute_rule, attribute_first, root_attribute_rule, root_attribute_first};

use crate::parse::message::Message;
use crate::parse::numbers::{bits, known_bits};
use crate::parse::parser::{Parser, Read, Result};
use crate::parse::tokens::{Mark, bit_count, integer, mark_comes, punctuation};
use crate::parse::traits::{Parse, Peek};
use souper_errors::widen;
use souper_graph::ast::{Attribute, RootAttribute};
use souper_lexer::Token;

// What an attribute begins with.
#[derive(Clone, Copy)]
enum Kind<'a> {
    KnownBits(&'a str),
    PowerOfTwo,
    Negative,
    NonNegative,
    NonZero,
    HasExternalUses,
    SignBits,
    Range,
}

fn kind_of_word<'a>(word: &str) -> Option<Kind<'a>>
    ensures { option_map view_kind result ≡ attribute_kind_of_word word.now }
{
    match word {
        "powerOfTwo" => Some(Kind::PowerOfTwo),
        "negative" => Some(Kind::Negative),
        "nonNegative" => Some(Kind::NonNegative),
        "nonZero" => Some(Kind::NonZero),
        "hasExternalUses" => Some(Kind::HasExternalUses),
        "signBits" => Some(Kind::SignBits),
        "range" => Some(Kind::Range),
        _ => None,
    }
}

#[tactic(auto, unfolding(crate::specs::NodeReadings::accept))]
fn attribute_kind<'a>(parser: &mut Parser<'a>) -> Read<Kind<'a>>
    ensures { Gives view_kind (widened result) (accept attribute_kind_of parser.old) parser.old parser.new }
{
    let word = match parser.take_word() {
        Some(word) => word,
        None => match parser.token()? {
            Token::KnownBits(pattern) => return Ok(Kind::KnownBits(pattern)),
            Token::Ident(word) => word,
            _ => return Err(parser.refuse(Message::ExpectedAttribute)),
        },
    };
    match kind_of_word(word) {
        Some(kind) => Ok(kind),
        None => Err(parser.refuse(Message::UnknownAttribute(word))),
    }
}

// The attribute of a pattern that was taken.
fn known_bits_attribute(parser: &mut Parser<'_>, pattern: &str) -> Read<Attribute>
    requires { parser.old.failed ≡ None }
    ensures { Gives view_attribute (widened result) (attribute_by (bits_kind pattern.now) parser.old) parser.old parser.new }
{
    match known_bits(parser.alloc(), pattern) {
        Ok(Some(bits)) => Ok(Attribute::KnownBits(bits)),
        Ok(None) => Err(parser.refuse(Message::ExpectedKnownBits)),
        Err(_) => Err(parser.want_memory()),
    }
}

// `=` and the number of bits.
fn sign_bits(parser: &mut Parser<'_>) -> Read<Attribute>
    ensures { Gives view_attribute (widened result) (attribute_by sign_bits_kind parser.old) parser.old parser.new }
{
    punctuation(parser, Mark::Equals)?;
    let count = bit_count(parser)?;
    Ok(Attribute::SignBits(count))
}

// `=[`, the two numbers with a comma between them, and `)`.
fn range(parser: &mut Parser<'_>) -> Read<Attribute>
    ensures { Gives view_attribute (widened result) (attribute_by range_kind parser.old) parser.old parser.new }
{
    punctuation(parser, Mark::Equals)?;
    punctuation(parser, Mark::OpenBracket)?;
    let low = integer(parser)?;
    punctuation(parser, Mark::Comma)?;
    let high = integer(parser)?;
    punctuation(parser, Mark::CloseParen)?;
    Ok(Attribute::Range(low, high))
}

// What follows the kind, up to the closing parenthesis.
fn attribute_of_kind(parser: &mut Parser<'_>, kind: Kind<'_>) -> Read<Attribute>
    requires { parser.old.failed ≡ None }
    ensures { Gives view_attribute (widened result) (attribute_by (view_kind kind.entry) parser.old) parser.old parser.new }
{
    match kind {
        Kind::KnownBits(pattern) => known_bits_attribute(parser, pattern),
        Kind::PowerOfTwo => Ok(Attribute::PowerOfTwo),
        Kind::Negative => Ok(Attribute::Negative),
        Kind::NonNegative => Ok(Attribute::NonNegative),
        Kind::NonZero => Ok(Attribute::NonZero),
        Kind::HasExternalUses => Ok(Attribute::HasExternalUses),
        Kind::SignBits => sign_bits(parser),
        Kind::Range => range(parser),
    }
}

#[tactic(auto, unfolding(crate::specs::NodeReadings::attribute_at))]
pub(crate) fn attribute(parser: &mut Parser<'_>) -> Read<Attribute>
    ensures { Gives view_attribute (widened result) (attribute_at parser.old) parser.old parser.new }
{
    punctuation(parser, Mark::OpenParen)?;
    let kind = attribute_kind(parser)?;
    let attribute = attribute_of_kind(parser, kind)?;
    punctuation(parser, Mark::CloseParen)?;
    Ok(attribute)
}

// What a root attribute begins with.
#[derive(Clone, Copy)]
enum RootKind {
    DemandedBits,
    HarvestedFromUse,
}

#[tactic(auto, unfolding(crate::specs::NodeReadings::accept))]
fn root_kind(parser: &mut Parser<'_>) -> Read<RootKind>
    ensures { Gives (λ k. k) (widened result) (accept (ident_by root_kind_of_word) parser.old) parser.old parser.new }
{
    let word = match parser.take_word() {
        Some(word) => word,
        None => match parser.token()? {
            Token::Ident(word) => word,
            _ => return Err(parser.refuse(Message::ExpectedRootAttribute)),
        },
    };
    match word {
        "demandedBits" => Ok(RootKind::DemandedBits),
        "harvestedFromUse" => Ok(RootKind::HarvestedFromUse),
        _ => Err(parser.refuse(Message::ExpectedRootAttribute)),
    }
}

#[tactic(auto, unfolding(crate::specs::NodeReadings::accept))]
fn bit_list(parser: &mut Parser<'_>) -> Read<Vec<bool>>
    ensures { Gives (λ bits. bits.items) (widened result) (accept (int_by bits_of) parser.old) parser.old parser.new }
{
    let pattern = match parser.take_int() {
        Some(pattern) => pattern,
        None => match parser.token()? {
            Token::Int(pattern) => pattern,
            _ => return Err(parser.refuse(Message::ExpectedBits)),
        },
    };
    match bits(parser.alloc(), pattern) {
        Ok(Some(bits)) => Ok(bits),
        Ok(None) => Err(parser.refuse(Message::ExpectedBits)),
        Err(_) => Err(parser.want_memory()),
    }
}

// What follows the kind, up to the closing parenthesis.
fn root_attribute_of_kind(parser: &mut Parser<'_>, kind: RootKind) -> Read<RootAttribute>
    requires { parser.old.failed ≡ None }
    ensures { Gives view_root_attribute (widened result) (root_attribute_by kind parser.old) parser.old parser.new }
{
    match kind {
        RootKind::DemandedBits => {
            punctuation(parser, Mark::Equals)?;
            let bits = bit_list(parser)?;
            Ok(RootAttribute::DemandedBits(bits))
        }
        RootKind::HarvestedFromUse => Ok(RootAttribute::HarvestedFromUse),
    }
}

#[tactic(auto, unfolding(crate::specs::NodeReadings::root_attribute_at))]
pub(crate) fn root_attribute(parser: &mut Parser<'_>) -> Read<RootAttribute>
    ensures { Gives view_root_attribute (widened result) (root_attribute_at parser.old) parser.old parser.new }
{
    punctuation(parser, Mark::OpenParen)?;
    let kind = root_kind(parser)?;
    let attribute = root_attribute_of_kind(parser, kind)?;
    punctuation(parser, Mark::CloseParen)?;
    Ok(attribute)
}

/// An attribute of a value, between parentheses.
impl Parse for Attribute {
    ghost Plain = { PlainAttribute };

    ghost view = { view_attribute };

    ghost spells = { λ s. attribute_form };

    ghost continues = { λ a t. ⊥ };

    ghost alone = { one_alone attribute_rule };

    fn parse<'a>(parser: &mut Parser<'a>) -> Result<Self> {
        widen(attribute(parser))
    }
}

impl Peek for Attribute {
    ghost starts = { is_mark open_paren };

    ghost first = { attribute_first };

    ghost stays = { λ s. refl };

    fn peek<'a>(parser: &mut Parser<'a>) -> Result<bool> {
        widen(mark_comes(parser, Mark::OpenParen))
    }
}

/// An attribute of a root, between parentheses.
impl Parse for RootAttribute {
    ghost Plain = { PlainRootAttribute };

    ghost view = { view_root_attribute };

    ghost spells = { λ s. root_attribute_form };

    ghost continues = { λ a t. ⊥ };

    ghost alone = { one_alone root_attribute_rule };

    fn parse<'a>(parser: &mut Parser<'a>) -> Result<Self> {
        widen(root_attribute(parser))
    }
}

impl Peek for RootAttribute {
    ghost starts = { is_mark open_paren };

    ghost first = { root_attribute_first };

    ghost stays = { λ s. refl };

    fn peek<'a>(parser: &mut Parser<'a>) -> Result<bool> {
        widen(mark_comes(parser, Mark::OpenParen))
    }
}
