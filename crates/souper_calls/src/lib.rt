//! The calls of the static library `souper_c`, which exports each under its name here, and says what kinds, flags and statuses there are.
#![tactic(auto)]

mod answers;
mod codes;
mod cuts;
mod flaw;
mod hints;
mod inputs;
mod location;
mod outcome;
mod records;
mod texts;

ghost use Rattle.std.specs.Prelude.{◌≡◌, ◌≢◌, ◌<◌, ◌≤◌, ◌⊎◌, ◌↔◌, [], None, length};
ghost use Rattle.std.specs.Str.{IsUtf8};
ghost use Rattle.souper_graph.specs.Syntax.Tokens.{IsLastGap};
ghost use Rattle.souper_calls.specs.Kinds.{type_of_number, IsKind, OfType};
ghost use Rattle.souper_calls.specs.Outcomes.{HasNoPlace, FillsStart, WritesTexts, WritesCode, WritesItems, IsShortItems, outcome_place, WritesRefusal, IsShort, IsShortCode, IsShortFor, IsCanonicalSource, IsNotCanonical, Refuses, BothSpell, AreSameItems, AreNotSame, RefusesInput, IsNoTextInput, SpellsSome};
ghost use Rattle.souper_code.specs.Writing.{IsNoCode, IsNoCodeAt, IsCodeOfWellFormed, IsIllFormedAt};
ghost use Rattle.souper_calls.specs.Records.{RecordsTo, WritesRecordsTo};
ghost use Rattle.souper_calls.specs.Failures.{outcome_of, short_outcome, shown_of};
ghost use Rattle.souper_calls.specs.Answers.{WritesAnswerGroups, WritesRefusalOfOne, IsNoTextOfOne, IsShortFind};
ghost use Rattle.souper_calls.specs.FlawAnswers.{answer_without, IsFlawAnswer};
ghost use Rattle.souper_calls.specs.Hints.{WritesHint, IsShortHint};
ghost use Rattle.souper_width_calls.specs.Answers.{widths_without, IsWidthsAnswer};

use crate::answers::{answers_to, store_of};
use crate::codes::code;
pub use crate::cuts::{souper_first_segment, souper_last_cut};
pub use crate::flaw::SouperFlaw;
use crate::flaw::flaw_of_code;
use crate::hints::hint_for;
use crate::inputs::{Failure, canonical_text, items, kind_and_source, read_kind};
pub use crate::location::{SouperLocation, souper_locate};
pub use crate::outcome::SouperOutcome;
use crate::outcome::{DIFFERENT, DONE, NO_FLAGS, NO_KIND, OUT_OF_MEMORY, REFUSED, SHORT};
use crate::records::{layout_of, records};
use crate::texts::{outcome_of_stop, texts_of_code};
use souper_format::same::same;
use souper_ir::ast::{LeftHandSide, Replacement, RightHandSide};
use souper_ir::parse::Kind;
pub use souper_width_calls::SouperWidths;
use souper_width_calls::widths_of_code;
use std::alloc::Global;

// 1,000,000 times the major number, 1,000 times the minor number, and the patch number.
const VERSION: u32 = 2_000_000;

// Writes the bytes to the beginning of the buffer, if it has the room.
fn write(bytes: &[u8], outcome: SouperOutcome, out: &mut [u8]) -> SouperOutcome
    ensures written { length bytes.now ≤ length out.old → (result ≡ outcome) × FillsStart out.old out.new bytes.now }
    ensures short { length out.old < length bytes.now → (result ≡ short_outcome (length bytes.now)) × (out.new ≡ out.old) }
{
    let length = bytes.len();
    if out.len() < length {
        return SouperOutcome::new(SHORT, length);
    }
    out[..length].copy_from_slice(bytes);
    outcome
}

// Writes what the failure of the input with that index shows, as `write` does, and returns the outcome for it.
fn write_failure(failure: &Failure, input: u32, out: &mut [u8]) -> SouperOutcome
    ensures written { length (shown_of failure.now) ≤ length out.old → (result ≡ outcome_of failure.now input) × FillsStart out.old out.new (shown_of failure.now) }
    ensures short { length out.old < length (shown_of failure.now) → (result ≡ short_outcome (length (shown_of failure.now))) × (out.new ≡ out.old) }
{
    write(failure.shown().as_bytes(), failure.outcome(input), out)
}

/// Writes the canonical text of each item that `text` spells, a newline after each, to the beginning of `out`.
pub fn souper_format(alloc: Global, kind: u32, text: &[u8], out: &mut [u8]) -> SouperOutcome
    ensures known { result.status ≤ 5 }
    ensures formatted { result.status ≡ 0 → WritesTexts kind text.now result out.old out.new }
    ensures refused { result.status ≡ 1 → WritesRefusal kind text.now result out.old out.new }
    ensures no_kind { (result.status ≡ 2) ↔ (type_of_number kind ≡ None) }
    ensures no_text { (result.status ≡ 4) ↔ (IsKind kind × ¬ (IsUtf8 text.now)) }
    ensures short { result.status ≡ 5 → IsShort kind text.now result out.old }
    ensures kept { 2 ≤ result.status → out.new ≡ out.old }
    ensures no_place { (result.status ≡ 1) ⊎ HasNoPlace result }
    ensures no_length { 2 ≤ result.status → result.status ≤ 4 → result.length ≡ 0 }
    ensures first { result.input ≡ 0 }
    ensures gaps { IsKind kind → IsUtf8 text.now → IsLastGap text.now → (result.status ≡ 0) × (result.length ≡ 0) }
{
    let failure = match canonical_text(alloc, kind, text) {
        Ok(canonical) => {
            let outcome = SouperOutcome::new(DONE, canonical.len());
            return write(canonical.as_bytes(), outcome, out);
        }
        Err(failure) => failure,
    };
    let outcome = failure.outcome(0);
    match failure {
        Failure::Refused(refusal) => write(refusal.shown.as_bytes(), outcome, out),
        _ => outcome,
    }
}

/// Writes the code of the items that `text` spells to the beginning of `out`: all of their statements, in the order of the text.
pub fn souper_read(alloc: Global, kind: u32, text: &[u8], out: &mut [u8]) -> SouperOutcome
    ensures known { result.status ≤ 5 }
    ensures coded { result.status ≡ 0 → WritesCode kind text.now result out.old out.new }
    ensures refused { result.status ≡ 1 → WritesRefusal kind text.now result out.old out.new }
    ensures no_kind { (result.status ≡ 2) ↔ (type_of_number kind ≡ None) }
    ensures no_text { (result.status ≡ 4) ↔ (IsKind kind × ¬ (IsUtf8 text.now)) }
    ensures short { result.status ≡ 5 → IsShortCode kind text.now result out.old }
    ensures kept { 2 ≤ result.status → out.new ≡ out.old }
    ensures no_place { (result.status ≡ 1) ⊎ HasNoPlace result }
    ensures no_length { 2 ≤ result.status → result.status ≤ 4 → result.length ≡ 0 }
    ensures first { result.input ≡ 0 }
    ensures gaps { IsKind kind → IsUtf8 text.now → IsLastGap text.now → (result.status ≡ 0) × (result.length ≡ 0) }
{
    let failure = match code(alloc, kind, text) {
        Ok(code) => {
            let outcome = SouperOutcome::new(DONE, code.len());
            return write(&code, outcome, out);
        }
        Err(failure) => failure,
    };
    let outcome = failure.outcome(0);
    match failure {
        Failure::Refused(refusal) => write(refusal.shown.as_bytes(), outcome, out),
        Failure::NoKind | Failure::NotUtf8 | Failure::OutOfMemory => outcome,
    }
}

/// Writes the record of each item that `text` spells to the beginning of `out`: its canonical text, and a newline after it, as [`souper_format`]
/// writes them.
pub fn souper_key(
    alloc: Global,
    kind: u32,
    flags: u32,
    text: &[u8],
    out: &mut [u8],
) -> SouperOutcome
    ensures known { (result.status ≤ 5) ⊎ (result.status ≡ 9) }
    ensures recorded { result.status ≡ 0 → WritesRecordsTo flags kind text.now result out.old out.new }
    ensures refused { result.status ≡ 1 → WritesRefusal kind text.now result out.old out.new }
    ensures no_flags { (result.status ≡ 9) ↔ (8 ≤ flags) }
    ensures no_kind { (result.status ≡ 2) ↔ ((flags < 8) × (type_of_number kind ≡ None)) }
    ensures no_text { (result.status ≡ 4) ↔ ((flags < 8) × IsKind kind × ¬ (IsUtf8 text.now)) }
    ensures short { result.status ≡ 5 → IsShortFor (RecordsTo flags) kind text.now result out.old }
    ensures kept { 2 ≤ result.status → out.new ≡ out.old }
    ensures no_place { (result.status ≡ 1) ⊎ HasNoPlace result }
    ensures no_length { 2 ≤ result.status → (result.status ≡ 5) ⊎ (result.length ≡ 0) }
    ensures first { result.input ≡ 0 }
    ensures gaps { flags < 8 → IsKind kind → IsUtf8 text.now → IsLastGap text.now → (result.status ≡ 0) × (result.length ≡ 0) }
{
    let layout = match layout_of(flags) {
        Some(layout) => layout,
        None => return SouperOutcome::new(NO_FLAGS, 0),
    };
    let failure = match records(alloc, kind, layout, text) {
        Ok(records) => {
            let outcome = SouperOutcome::new(DONE, records.len());
            return write(records.as_bytes(), outcome, out);
        }
        Err(failure) => failure,
    };
    let outcome = failure.outcome(0);
    match failure {
        Failure::Refused(refusal) => write(refusal.shown.as_bytes(), outcome, out),
        Failure::NoKind | Failure::NotUtf8 | Failure::OutOfMemory => outcome,
    }
}

/// Writes the canonical text of each item whose code `code` is, a newline after each, to the beginning of `out`.
pub fn souper_write(alloc: Global, kind: u32, code: &[u8], out: &mut [u8]) -> SouperOutcome
    ensures known { (result.status ≡ 0) ⊎ (result.status ≡ 2) ⊎ (result.status ≡ 3) ⊎ (result.status ≡ 5) ⊎ (result.status ≡ 7) ⊎ (result.status ≡ 8) }
    ensures written { result.status ≡ 0 → WritesItems kind code.now result out.old out.new }
    ensures no_kind { (result.status ≡ 2) ↔ (type_of_number kind ≡ None) }
    ensures short { result.status ≡ 5 → IsShortItems kind code.now result out.old }
    ensures no_code { result.status ≡ 7 → OfType kind (λ k. IsNoCodeAt k code.now (outcome_place result)) }
    ensures no_other_code { OfType kind (λ k. IsNoCode k code.now) → (result.status ≡ 3) ⊎ (result.status ≡ 7) }
    ensures well_formed { OfType kind (λ k. IsCodeOfWellFormed k code.now) → (result.status ≡ 0) ⊎ (result.status ≡ 3) ⊎ (result.status ≡ 5) }
    ensures ill_formed { result.status ≡ 8 → OfType kind (λ k. IsIllFormedAt k code.now (outcome_place result)) }
    ensures kept { 2 ≤ result.status → out.new ≡ out.old }
    ensures no_place { (7 ≤ result.status) ⊎ HasNoPlace result }
    ensures no_length { (result.status ≡ 2) ⊎ (result.status ≡ 3) → result.length ≡ 0 }
    ensures first { (result.input ≡ 0) × (result.line ≡ 0) × (result.column ≡ 0) }
    ensures empty { IsKind kind → code.now ≡ [] → (result.status ≡ 0) × (result.length ≡ 0) }
{
    let kind = match read_kind(kind) {
        Some(kind) => kind,
        None => return SouperOutcome::new(NO_KIND, 0),
    };
    match texts_of_code(alloc, kind, code) {
        Ok(text) => {
            let outcome = SouperOutcome::new(DONE, text.len());
            write(text.as_bytes(), outcome, out)
        }
        Err(error) => outcome_of_stop(error),
    }
}

/// Where the item whose code `code` begins with is not well formed first, and why.
pub fn souper_flaw(alloc: Global, kind: u32, code: &[u8]) -> SouperFlaw
    ensures no_kind { type_of_number kind ≡ None → result ≡ answer_without 2 }
    ensures answered { IsKind kind → OfType kind (λ k. IsFlawAnswer k code.now result) }
{
    match read_kind(kind) {
        Some(Kind::Lhs) => flaw_of_code::<LeftHandSide>(alloc, code),
        Some(Kind::Rhs) => flaw_of_code::<RightHandSide>(alloc, code),
        Some(Kind::Rep) => flaw_of_code::<Replacement>(alloc, code),
        None => SouperFlaw::without(NO_KIND),
    }
}

/// Writes the widths of the item whose code `code` begins with to the beginning of `out`: of the result of each statement, and then of
/// the operands of each; or returns why it has none, and where.
pub fn souper_widths(alloc: Global, kind: u32, code: &[u8], out: &mut [u32]) -> SouperWidths
    ensures no_kind { type_of_number kind ≡ None → (result ≡ widths_without 2) × (out.new ≡ out.old) }
    ensures answered { IsKind kind → OfType kind (λ k. IsWidthsAnswer k code.now out.old result out.new) }
{
    match read_kind(kind) {
        Some(Kind::Lhs) => widths_of_code::<LeftHandSide>(alloc, code, out),
        Some(Kind::Rhs) => widths_of_code::<RightHandSide>(alloc, code, out),
        Some(Kind::Rep) => widths_of_code::<Replacement>(alloc, code, out),
        None => SouperWidths::without(NO_KIND),
    }
}

/// Whether `text` is canonical: the canonical text of each item that it spells, a newline after each.
pub fn souper_check(alloc: Global, kind: u32, text: &[u8]) -> SouperOutcome
    ensures known { (result.status ≤ 4) ⊎ (result.status ≡ 6) }
    ensures canonical { result.status ≡ 0 → IsCanonicalSource kind text.now result }
    ensures not_canonical { result.status ≡ 6 → IsNotCanonical kind text.now result }
    ensures refused { result.status ≡ 1 → Refuses kind text.now result }
    ensures no_kind { (result.status ≡ 2) ↔ (type_of_number kind ≡ None) }
    ensures no_text { (result.status ≡ 4) ↔ (IsKind kind × ¬ (IsUtf8 text.now)) }
    ensures no_place { (result.status ≡ 1) ⊎ HasNoPlace result }
    ensures no_length { 2 ≤ result.status → result.status ≤ 4 → result.length ≡ 0 }
    ensures first { result.input ≡ 0 }
    ensures gaps { IsKind kind → IsUtf8 text.now → IsLastGap text.now → result.status ≢ 3 }
{
    match canonical_text(alloc, kind, text) {
        Ok(canonical) => {
            let is_canonical = canonical.as_bytes() == text;
            let status = if is_canonical { DONE } else { DIFFERENT };
            SouperOutcome::new(status, canonical.len())
        }
        Err(failure) => failure.outcome(0),
    }
}

/// The version of the library: 1,000,000 times the major number, 1,000 times the minor number, and the patch number.
pub fn souper_version() -> u32
    ensures { result ≡ 2000000 }
{
    VERSION
}

/// Writes the hint for the parse error of `text` to the beginning of `out`: what its writer may have meant, in a line without its end.
pub fn souper_hint(
    alloc: Global,
    kind: u32,
    lines: usize,
    text: &[u8],
    out: &mut [u8],
) -> SouperOutcome
    ensures known { result.status ≤ 5 }
    ensures spelled { result.status ≡ 0 → SpellsSome kind text.now × (out.new ≡ out.old) }
    ensures hinted { result.status ≡ 1 → WritesHint kind text.now result out.old out.new }
    ensures no_kind { (result.status ≡ 2) ↔ (type_of_number kind ≡ None) }
    ensures no_text { (result.status ≡ 4) ↔ (IsKind kind × ¬ (IsUtf8 text.now)) }
    ensures short { result.status ≡ 5 → IsShortHint kind text.now result out.old }
    ensures kept { 2 ≤ result.status → out.new ≡ out.old }
    ensures no_place { HasNoPlace result × (result.input ≡ 0) }
    ensures no_length { (result.status ≡ 1) ⊎ (result.status ≡ 5) ⊎ (result.length ≡ 0) }
{
    let (kind, source) = match kind_and_source(kind, text) {
        Ok(given) => given,
        Err(failure) => return failure.outcome(0),
    };
    match hint_for(alloc, kind, lines, source) {
        Ok(Some(hint)) => {
            let outcome = SouperOutcome::new(REFUSED, hint.len());
            write(hint.as_bytes(), outcome, out)
        }
        Ok(None) => SouperOutcome::new(DONE, 0),
        Err(_) => SouperOutcome::new(OUT_OF_MEMORY, 0),
    }
}

/// Whether two texts spell lists of one length, in which each item is the same graph as the one at its index in the
/// other list.
pub fn souper_same(alloc: Global, kind: u32, a: &[u8], b: &[u8]) -> SouperOutcome
    ensures known { (result.status ≤ 4) ⊎ (result.status ≡ 6) }
    ensures same { result.status ≡ 0 → BothSpell kind a.now b.now AreSameItems }
    ensures different { result.status ≡ 6 → BothSpell kind a.now b.now AreNotSame }
    ensures refused { result.status ≡ 1 → RefusesInput kind a.now b.now result }
    ensures no_kind { (result.status ≡ 2) ↔ (type_of_number kind ≡ None) }
    ensures no_text { result.status ≡ 4 → IsNoTextInput kind a.now b.now result }
    ensures first_no_text { IsKind kind → ¬ (IsUtf8 a.now) → (result.status ≡ 4) × (result.input ≡ 0) }
    ensures second_no_text { SpellsSome kind a.now → IsUtf8 a.now → ¬ (IsUtf8 b.now) → ((result.status ≡ 4) × (result.input ≡ 1)) ⊎ (result.status ≡ 3) }
    ensures texts { (result.status ≡ 0) ⊎ (result.status ≡ 6) → IsUtf8 a.now × IsUtf8 b.now }
    ensures no_place { (result.status ≡ 1) ⊎ HasNoPlace result }
    ensures no_length { (result.status ≡ 1) ⊎ (result.length ≡ 0) }
    ensures first { (result.status ≡ 1) ⊎ (result.status ≡ 4) ⊎ (result.input ≡ 0) }
{
    let a = match items(alloc, kind, a) {
        Ok(items) => items,
        Err(failure) => return failure.outcome(0),
    };
    let b = match items(alloc, kind, b) {
        Ok(items) => items,
        Err(failure) => return failure.outcome(1),
    };
    match same(alloc, &a, &b) {
        Ok(true) => SouperOutcome::new(DONE, 0),
        Ok(false) => SouperOutcome::new(DIFFERENT, 0),
        Err(_) => SouperOutcome::new(OUT_OF_MEMORY, 0),
    }
}

/// Writes what the replacements of `store` answer for each left-hand side that `queries` spells to the beginning of `out`.
pub fn souper_find(alloc: Global, store: &[u8], queries: &[u8], out: &mut [u8]) -> SouperOutcome
    ensures known { (result.status ≤ 5) × (result.status ≢ 2) }
    ensures found { result.status ≡ 0 → WritesAnswerGroups store.now queries.now result out.old out.new }
    ensures refused { result.status ≡ 1 → WritesRefusalOfOne store.now queries.now result out.old out.new }
    ensures no_text { result.status ≡ 4 → IsNoTextOfOne store.now queries.now result }
    ensures first_no_text { ¬ (IsUtf8 store.now) → (result.status ≡ 4) × (result.input ≡ 0) }
    ensures second_no_text { SpellsSome 2 store.now → IsUtf8 store.now → ¬ (IsUtf8 queries.now) → ((result.status ≡ 4) × (result.input ≡ 1)) ⊎ (result.status ≡ 3) }
    ensures texts { result.status ≡ 0 → IsUtf8 store.now × IsUtf8 queries.now }
    ensures short { result.status ≡ 5 → IsShortFind store.now queries.now result out.old }
    ensures kept { 2 ≤ result.status → out.new ≡ out.old }
    ensures no_place { (result.status ≡ 1) ⊎ HasNoPlace result }
    ensures no_length { 2 ≤ result.status → (result.status ≡ 5) ⊎ (result.length ≡ 0) }
    ensures first { (result.status ≡ 1) ⊎ (result.status ≡ 4) ⊎ (result.input ≡ 0) }
    ensures gaps { IsUtf8 store.now → IsLastGap store.now → IsUtf8 queries.now → IsLastGap queries.now → (result.status ≡ 0) × (result.length ≡ 0) }
{
    let store = match store_of(alloc, store) {
        Ok(store) => store,
        Err(failure) => return write_failure(&failure, 0, out),
    };
    match answers_to(alloc, &store, queries) {
        Ok(answers) => {
            let outcome = SouperOutcome::new(DONE, answers.len());
            write(answers.as_bytes(), outcome, out)
        }
        Err(failure) => write_failure(&failure, 1, out),
    }
}
