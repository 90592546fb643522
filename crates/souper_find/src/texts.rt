//! The texts that are written for a left-hand side: its row.

ghost use Rattle.std.specs.Prelude.{◌≡◌, List, map, take, IfOk};
ghost use Rattle.std.specs.List.{AllByRecursion};
ghost use Rattle.std.specs.String.{string_bytes};
ghost use Rattle.souper_graph.specs.View.{view_left_hand_side, view_replacement};
ghost use Rattle.souper_graph.specs.WellFormed.{WellFormed};
ghost use Rattle.souper_graph.specs.Renaming.{renamed};
ghost use Rattle.souper_lookup.specs.Stored.{Entry, key_of_left, answers, Stores};
ghost use Rattle.souper_records.specs.Uniques.{text_by};
ghost use Rattle.souper_find.specs.Answers.{if_unanswered, HaveTexts, AreTexts, view_texts};

use crate::search::{Choice, Search};
use souper_ir::ast::{LeftHandSide, Replacement};
use souper_ir::stringify::TextError;
use souper_lookup::find::find_by_key;
use souper_lookup::keys::key_in_place;
use souper_lookup::store::Store;
use souper_records::output::Output;
use souper_records::records::push_last_text;
use souper_records::rows::Rows;
use std::alloc::{AllocError, Global};

// The canonical text of a replacement; with `rename` the text with names by its printed order.
fn text_of(rename: bool, item: &Replacement) -> Result<String, TextError>
    ensures { WellFormed (view_replacement item.now) → IfOk result (λ text. string_bytes text ≡ text_by rename (view_replacement item.now)) }
{
    if !rename {
        return item.to_text();
    }
    let copy = item.renamed()?;
    copy.to_text()
}

// The texts of these, in order.
fn texts_of(alloc: Global, rename: bool, items: &[Replacement]) -> Result<Vec<String>, TextError>
    ensures { AllByRecursion WellFormed (map view_replacement items.now) → IfOk result (λ texts. map string_bytes texts.items ≡ map (text_by rename) (map view_replacement items.now)) }
{
    let mut texts = Vec::new(alloc);
    for item in items {
        let text = text_of(rename, item)?;
        texts.push(text)?;
    }
    Ok(texts)
}

// The texts of the first answers, at most `limit`, to a left-hand side that has this key.
fn found_texts(
    alloc: Global,
    rename: bool,
    store: &Store,
    query: &LeftHandSide,
    key: &String,
    limit: usize,
) -> Result<Vec<String>, TextError>
    ensures { WellFormed (view_left_hand_side query.now) → WellFormed (renamed (view_left_hand_side query.now)) → string_bytes key.now ≡ key_of_left (view_left_hand_side query.now)
        → (entries : List Entry) → Stores entries store.now → IfOk result (λ texts. HaveTexts rename (view_left_hand_side query.now) (take limit (answers (view_left_hand_side query.now) entries)) (map string_bytes texts.items)) }
{
    let found = find_by_key(alloc, store, query, key, limit)?;
    texts_of(alloc, rename, &found)
}

// The text of a left-hand side that has this key, and no answer, and is dropped then. `text` is for it.
fn unanswered_texts(
    alloc: Global,
    rename: bool,
    store: &Store,
    query: &mut LeftHandSide,
    key: &String,
    text: &mut String,
) -> Result<Vec<String>, TextError>
    requires { WellFormed (view_left_hand_side query.old) }
    ensures { string_bytes key.now ≡ key_of_left (view_left_hand_side query.old) → (entries : List Entry) → Stores entries store.now
        → IfOk result (λ texts. map string_bytes texts.items ≡ map (text_by rename) (if_unanswered (view_left_hand_side query.old) (answers (view_left_hand_side query.old) entries))) }
{
    let mut texts = Vec::new(alloc);
    if !store.get_by_key(key)?.is_empty() {
        return Ok(texts);
    }
    push_last_text(alloc, rename, query, text, &mut texts)?;
    Ok(texts)
}

// The texts of what is written for the left-hand side, which is dropped then. `text` is for one of them.
fn texts_for(
    alloc: Global,
    search: Search<'_>,
    query: &mut LeftHandSide,
    text: &mut String,
) -> Result<Vec<String>, TextError>
    requires { WellFormed (view_left_hand_side query.old) }
    ensures { (entries : List Entry) → Stores entries search.entry.store.now → IfOk result (λ texts. AreTexts search.entry.choice search.entry.output entries (view_left_hand_side query.old) (map string_bytes texts.items)) }
{
    let rename = search.output.renames();
    let store = search.store;
    let key = key_in_place(alloc, query)?;
    match search.choice {
        Choice::All => found_texts(alloc, rename, store, query, &key, store.stored().len()),
        Choice::First => found_texts(alloc, rename, store, query, &key, 1),
        Choice::Unanswered => unanswered_texts(alloc, rename, store, query, &key, text),
    }
}

impl Rows<LeftHandSide, Vec<String>> for Search<'_> {
    ghost output_of = { λ search. search.output };

    ghost makes = { λ search query texts. (entries : List Entry) → Stores entries search.store.now → AreTexts search.choice search.output entries query (view_texts texts) };

    fn output(&self) -> Output {
        self.output
    }

    fn make(
        &self,
        alloc: Global,
        query: &mut LeftHandSide,
        text: &mut String,
    ) -> Result<Vec<String>, AllocError> {
        match texts_for(alloc, *self, query, text) {
            Ok(texts) => Ok(texts),
            // A well-formed item has no bad id, so the error is out of memory.
            Err(_) => Err(AllocError),
        }
    }
}
