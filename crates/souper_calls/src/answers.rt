//! What a store of replacements answers for the left-hand sides that a text spells.

ghost use Rattle.std.specs.Prelude.{◌≡◌, ◌++◌, [], ℕ, List, None, Err, map, IsOk, IsOkAnd, IfOk, IfErr, OnOk, string_bytes};
ghost use Rattle.std.specs.List.{AllByRecursion};
ghost use Rattle.std.specs.Str.{IsUtf8};
ghost use Rattle.souper_graph.specs.Text.{text_with_newline, texts_of};
ghost use Rattle.souper_graph.specs.View.{view_left_hand_side, view_replacement};
ghost use Rattle.souper_graph.specs.WellFormed.{WellFormed};
ghost use Rattle.souper_graph.specs.Syntax.Spelling.{left_hand_side, replacement};
ghost use Rattle.souper_graph.specs.Syntax.Tokens.{IsLastGap};
ghost use Rattle.souper_ir.specs.Answers.{IsStrError};
ghost use Rattle.souper_lookup.specs.Stored.{Entry, Stores};
ghost use Rattle.souper_calls.specs.Answers.{AreEntriesOf, IsGroup, AreGroups, AreAnswerGroups};
ghost use Rattle.souper_calls.specs.Failures.{IsFailure};
ghost use Rattle.souper_calls.specs.declared.inputs.Failure.TheVariants.{NotUtf8};

use crate::inputs::{Failure, failure_of, source_of};
use souper_ir::ast::{Arena, Item, LeftHandSide, Replacement, Statement};
use souper_ir::parse::{ParseError, Sink, WholeItem, parse_into};
use souper_ir::stringify::TextError;
use souper_lookup::find::find;
use souper_lookup::store::Store;
use std::alloc::{AllocError, Global};

// Appends the canonical text of the replacement and a newline.
fn append_text(item: &Replacement, out: &mut String) -> Result<(), TextError>
    ensures { WellFormed (view_replacement item.now) → OnOk result (string_bytes out.new ≡ string_bytes out.old ++ text_with_newline (view_replacement item.now)) }
{
    item.append_text(out)?;
    out.push('\n')?;
    Ok(())
}

// Appends the canonical text of each replacement, a newline after each.
fn append_texts(items: &[Replacement], out: &mut String) -> Result<(), TextError>
    ensures { AllByRecursion WellFormed (map view_replacement items.now) → OnOk result (string_bytes out.new ≡ string_bytes out.old ++ texts_of (map view_replacement items.now)) }
{
    for item in items {
        append_text(item, out)?;
    }
    Ok(())
}

// The groups of the left-hand sides that were taken: for each the canonical texts of its answers, a newline after each, and a byte 0.
#[derive(Drop)]
struct Groups<'s> {
    alloc: Global,
    store: &'s Store,
    out: String,
}

impl Groups<'_> {
    fn append(&mut self, query: &LeftHandSide) -> Result<(), TextError>
        ensures store { self.new.store ≡ self.old.store }
        ensures group { WellFormed (view_left_hand_side query.now) → (entries : List Entry) → Stores entries self.old.store.now
            → OnOk result ((group : List ℕ) × IsGroup entries (view_left_hand_side query.now) group × (string_bytes self.new.out ≡ string_bytes self.old.out ++ group)) }
    {
        let found = find(self.alloc, self.store, query)?;
        append_texts(&found, &mut self.out)?;
        self.out.push('\0')?;
        Ok(())
    }
}

impl Sink<LeftHandSide> for Groups<'_> {
    ghost holds = { λ first groups items. (groups.store ≡ first.store) × ((entries : List Entry) → Stores entries first.store.now → AreGroups entries items (string_bytes groups.out)) };

    fn take(&mut self, mut item: LeftHandSide) -> Result<Option<Arena<Statement>>, AllocError> {
        match self.append(&item) {
            Ok(()) => Ok(item.take_statements()),
            // A well-formed item has no bad id, so the error is out of memory.
            Err(_) => Err(AllocError),
        }
    }
}

// The groups of the left-hand sides that the source spells.
fn groups_of_source(alloc: Global, store: &Store, source: &str) -> Result<String, ParseError>
    ensures answered { (entries : List Entry) → Stores entries store.now → IfOk result (λ out. AreAnswerGroups entries source.now (string_bytes out)) }
    ensures refused { IfErr result (λ e. IsStrError left_hand_side None source.now e) }
    ensures gaps { IsLastGap source.now → IsOkAnd result (λ out. string_bytes out ≡ []) }
{
    let mut groups = Groups {
        alloc,
        store,
        out: String::new(alloc),
    };
    parse_into::<LeftHandSide, Groups<'_>>(alloc, source, None, &mut groups)?;
    Ok(groups.out)
}

/// For each left-hand side that the bytes spell, in order, the canonical texts of its answers, a newline after each, and a byte 0.
pub(crate) fn answers_to(alloc: Global, store: &Store, queries: &[u8]) -> Result<String, Failure>
    ensures answered { (entries : List Entry) → Stores entries store.now → IfOk result (λ out. AreAnswerGroups entries queries.now (string_bytes out)) }
    ensures failed { IfErr result (IsFailure 0 queries.now) }
    ensures text { IsOk result → IsUtf8 queries.now }
    ensures no_text { ¬ (IsUtf8 queries.now) → result ≡ Err NotUtf8 }
    ensures gaps { IsUtf8 queries.now → IsLastGap queries.now → IsOkAnd result (λ out. string_bytes out ≡ []) }
{
    let source = source_of(queries)?;
    match groups_of_source(alloc, store, source) {
        Ok(groups) => Ok(groups),
        Err(error) => Err(failure_of(alloc, &error)),
    }
}

// A store of the replacements that the source spells.
fn store_of_source(alloc: Global, source: &str) -> Result<Store, ParseError>
    ensures stores { IfOk result (λ store. (entries : List Entry) × AreEntriesOf source.now entries × Stores entries store) }
    ensures refused { IfErr result (λ e. IsStrError replacement None source.now e) }
    ensures gaps { IsLastGap source.now → IsOk result }
{
    let mut store = Store::new(alloc);
    parse_into::<Replacement, Store>(alloc, source, None, &mut store)?;
    Ok(store)
}

/// A store of the replacements that the bytes spell.
pub(crate) fn store_of(alloc: Global, bytes: &[u8]) -> Result<Store, Failure>
    ensures stores { IfOk result (λ store. (entries : List Entry) × AreEntriesOf bytes.now entries × Stores entries store) }
    ensures failed { IfErr result (IsFailure 2 bytes.now) }
    ensures text { IsOk result → IsUtf8 bytes.now }
    ensures no_text { ¬ (IsUtf8 bytes.now) → result ≡ Err NotUtf8 }
    ensures gaps { IsUtf8 bytes.now → IsLastGap bytes.now → IsOk result }
{
    let source = source_of(bytes)?;
    match store_of_source(alloc, source) {
        Ok(store) => Ok(store),
        Err(error) => Err(failure_of(alloc, &error)),
    }
}
