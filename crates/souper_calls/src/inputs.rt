//! What a text of a call gives: items, their canonical texts, or a failure.
ghost use Rattle.std.specs.Prelude.{◌≡◌, [], Some, None, Err, IsOk, IsOkAnd, IfOk, IfErr, IfSome, option_map, string_bytes};
ghost use Rattle.std.specs.Str.{IsUtf8};
ghost use Rattle.std.specs.List.{AllByRecursion};
ghost use Rattle.souper_graph.specs.WellFormed.{WellFormed};
ghost use Rattle.souper_graph.specs.Syntax.Spelling.{TextSpells};
ghost use Rattle.souper_graph.specs.Syntax.Tokens.{IsLastGap};
ghost use Rattle.souper_ir.specs.Kinds.{item_type_of};
ghost use Rattle.souper_format.specs.Kinds.{kind_of_items, view_items};
ghost use Rattle.souper_calls.specs.Kinds.{type_of_number, IsKind, OfType};
ghost use Rattle.souper_calls.specs.Outcomes.{FormatsTo};
ghost use Rattle.souper_calls.specs.Failures.{IsFailure, IsFailureOf, IsInputFailure, IsRefusalOf, outcome_of, shown_of};
ghost use Rattle.souper_calls.specs.declared.inputs.Failure.TheVariants.{NotUtf8};

use crate::outcome::{NO_KIND, NOT_UTF8, OUT_OF_MEMORY, REFUSED, SouperOutcome};
use souper_format::items::{Items, format_text, read_items};
use souper_ir::parse::{Kind, ParseError};
use std::alloc::Global;
use std::str;

/// Where a text is rejected, and the text that shows it.
#[derive(Drop)]
pub(crate) struct Refusal {
    pub(crate) offset: usize,
    pub(crate) line: usize,
    pub(crate) column: usize,
    pub(crate) shown: String,
}

/// Why a text gives no items.
#[derive(Drop)]
pub(crate) enum Failure {
    NoKind,
    NotUtf8,
    OutOfMemory,
    Refused(Refusal),
}

impl Failure {
    /// The outcome that says so of the input with that index.
    pub(crate) fn outcome(&self, input: u32) -> SouperOutcome
        ensures { result ≡ outcome_of self.now input }
    {
        match self {
            Failure::NoKind => SouperOutcome::new(NO_KIND, 0),
            Failure::OutOfMemory => SouperOutcome::new(OUT_OF_MEMORY, 0),
            Failure::NotUtf8 => SouperOutcome {
                input,
                ..SouperOutcome::new(NOT_UTF8, 0)
            },
            Failure::Refused(refusal) => SouperOutcome {
                status: REFUSED,
                input,
                length: refusal.shown.len(),
                offset: refusal.offset,
                line: refusal.line,
                column: refusal.column,
            },
        }
    }

    /// The text that shows a parse error; of another failure none.
    pub(crate) fn shown(&self) -> &str
        ensures { result.now ≡ shown_of self.now }
    {
        match self {
            Failure::Refused(refusal) => refusal.shown.as_str(),
            Failure::NoKind | Failure::NotUtf8 | Failure::OutOfMemory => "",
        }
    }
}

/// The kind with that number.
pub(crate) fn read_kind(number: u32) -> Option<Kind>
    ensures { option_map item_type_of result ≡ type_of_number number }
{
    match number {
        0 => Some(Kind::Lhs),
        1 => Some(Kind::Rhs),
        2 => Some(Kind::Rep),
        _ => None,
    }
}

/// The bytes as text.
pub(crate) fn source_of(bytes: &[u8]) -> Result<&str, Failure>
    ensures source { IfOk result (λ source. source.now ≡ bytes.now) }
    ensures failed { IfErr result (λ failure. (failure ≡ NotUtf8) × ¬ (IsUtf8 bytes.now)) }
    ensures text { IsOk result → IsUtf8 bytes.now }
{
    match str::from_utf8(bytes) {
        Ok(source) => Ok(source),
        Err(_) => Err(Failure::NotUtf8),
    }
}

/// The kind with that number, and the bytes as text.
pub(crate) fn kind_and_source(number: u32, bytes: &[u8]) -> Result<(Kind, &str), Failure>
    ensures kind { IfOk result (λ given. type_of_number number ≡ Some (item_type_of given.0)) }
    ensures source { IfOk result (λ given. given.1.now ≡ bytes.now) }
    ensures failed { IfErr result (IsInputFailure number bytes.now) }
    ensures text { IsOk result → IsUtf8 bytes.now }
    ensures accepts { IsKind number → IsUtf8 bytes.now → IsOk result }
{
    let kind = read_kind(number).ok_or(Failure::NoKind)?;
    let source = source_of(bytes)?;
    Ok((kind, source))
}

fn refusal_of(alloc: Global, error: &ParseError) -> Option<Refusal>
    ensures { IfSome result (IsRefusalOf error.now) }
{
    Some(Refusal {
        offset: error.offset()?,
        line: error.line()?,
        column: error.column()?,
        shown: error.to_string(alloc).ok()?,
    })
}

/// The failure for an error of a parser of texts.
pub(crate) fn failure_of(alloc: Global, error: &ParseError) -> Failure
    ensures { IsFailureOf error.now result }
{
    match refusal_of(alloc, error) {
        Some(refusal) => Failure::Refused(refusal),
        None => Failure::OutOfMemory,
    }
}

/// The canonical texts of the items of the kind with that number that the bytes spell, a newline after each.
pub(crate) fn canonical_text(alloc: Global, kind: u32, bytes: &[u8]) -> Result<String, Failure>
    ensures formatted { IfOk result (λ text. FormatsTo kind bytes.now (string_bytes text)) }
    ensures failed { IfErr result (IsFailure kind bytes.now) }
    ensures text { IsOk result → IsUtf8 bytes.now }
    ensures no_text { IsKind kind → ¬ (IsUtf8 bytes.now) → result ≡ Err NotUtf8 }
    ensures gaps { IsKind kind → IsUtf8 bytes.now → IsLastGap bytes.now → IsOkAnd result (λ text. string_bytes text ≡ []) }
{
    let (kind, source) = kind_and_source(kind, bytes)?;
    match format_text(alloc, kind, source, None) {
        Ok(text) => Ok(text),
        Err(error) => Err(failure_of(alloc, &error)),
    }
}

/// The items of the kind with that number that the bytes spell.
pub(crate) fn items(alloc: Global, kind: u32, bytes: &[u8]) -> Result<Items, Failure>
    ensures kind { IfOk result (λ items. type_of_number kind ≡ Some (item_type_of (kind_of_items items))) }
    ensures spelled { IfOk result (λ items. OfType kind (λ k. TextSpells k bytes.now (view_items items))) }
    ensures well_formed { IfOk result (λ items. AllByRecursion WellFormed (view_items items)) }
    ensures failed { IfErr result (IsFailure kind bytes.now) }
    ensures text { IsOk result → IsUtf8 bytes.now }
    ensures no_text { IsKind kind → ¬ (IsUtf8 bytes.now) → result ≡ Err NotUtf8 }
{
    let (kind, source) = kind_and_source(kind, bytes)?;
    match read_items(alloc, kind, source, None) {
        Ok(items) => Ok(items),
        Err(error) => Err(failure_of(alloc, &error)),
    }
}
