//! The search for the path conditions of a stored replacement among those of a query.

ghost use Rattle.std.specs.Prelude.{◌≡◌, ◌<◌, ◌≤◌, ◌+◌, ◌∷◌, ◌++◌, ℕ, [], List, length, true, false, None, IfOk, OnOk, IfSome, IsSomeAnd};
ghost use Rattle.std.specs.Option.{option_to_list};
ghost use Rattle.souper_graph.specs.Values.{PlainInfer};
ghost use Rattle.souper_graph.specs.Uses.{Has};
ghost use Rattle.souper_graph.specs.WellFormed.{WellFormed};
ghost use Rattle.souper_embedding.specs.declared.search.Embedding.{Embedding as EmbeddingNode};
ghost use Rattle.souper_embedding.specs.Images.{IsFirstOfEqual};
ghost use Rattle.souper_embedding.specs.Maps.{Follows};
ghost use Rattle.souper_embedding.specs.Search.{left_item, IsAtCondition, IsMet, IsTaken};
ghost use Rattle.souper_embedding.specs.States.{stored_of, query_of, IsSearch, IsState, IsNext, IsTarget, AreNext, IsFirstFrom, IsStart, AllFollow, AreSearched, AreFirstFor, work_in};

use crate::conditions::bind_condition;
use crate::walk::walk;
use souper_graph::ast::{Arena, Statement};
use std::alloc::{AllocError, Global};

/// A map by which a stored replacement embeds into a query.
#[derive(Drop)]
pub struct Embedding {
    /// For each position of the replacement the position of the query to which it goes, or `None` if the left-hand side needs no value there.
    pub map: Vec<Option<usize>>,

    /// For each path condition of the replacement, in order, the position of the query's to which it goes.
    pub images: Vec<usize>,
}

/// Embeddings of a stored replacement into a query, in their order.
#[derive(Drop)]
pub struct Embeddings {
    /// The first embeddings.
    pub found: Vec<Embedding>,

    /// There is no other: none was left out at the limit.
    pub are_all: bool,
}

// The statements of both items, and where their path conditions are.
#[derive(Drop)]
pub(crate) struct Search<'a> {
    pub(crate) stored: &'a Arena<Statement>,
    pub(crate) query: &'a Arena<Statement>,
    pub(crate) conditions: &'a [usize],
    pub(crate) given: &'a [usize],
}

// The map takes the path condition at p, and what it needs, to the one at q, if it can.
fn meet(search: &Search, to: &mut [Option<usize>], p: usize, q: usize) -> bool
    ensures met { result ≡ true → (i j : PlainInfer) (k : ℕ) → IsAtCondition (stored_of search.now) (query_of search.now) i j to.old k p
        → IsMet (stored_of search.now) (query_of search.now) i j to.old to.new k p q }
    ensures forced { (i j : PlainInfer) (k : ℕ) (f : ℕ → ℕ) → IsAtCondition (stored_of search.now) (query_of search.now) i j to.old k p
        → IsTaken (stored_of search.now) (query_of search.now) i j to.old p q f → (result ≡ true) × Follows to.new f }
{
    bind_condition(search.stored, search.query, to, p, q) && walk(search.stored, search.query, to)
}

// A copy of the map that takes the path condition at p to the one at q, if there is one.
fn met_by(
    alloc: Global,
    search: &Search,
    to: &[Option<usize>],
    p: usize,
    q: usize,
) -> Result<Option<Vec<Option<usize>>>, AllocError>
    ensures met { IfOk result (λ found. IfSome found (λ next. (i j : PlainInfer) (k : ℕ) → IsAtCondition (stored_of search.now) (query_of search.now) i j to.now k p
        → IsMet (stored_of search.now) (query_of search.now) i j to.now next.items k p q)) }
    ensures forced { IfOk result (λ found. (i j : PlainInfer) (k : ℕ) (f : ℕ → ℕ) → IsAtCondition (stored_of search.now) (query_of search.now) i j to.now k p
        → IsTaken (stored_of search.now) (query_of search.now) i j to.now p q f → IsSomeAnd found (λ next. Follows next.items f)) }
{
    let mut next = Vec::from_slice(alloc, to)?;
    if meet(search, next.as_mut_slice(), p, q) {
        return Ok(Some(next));
    }
    Ok(None)
}

// A copy of the list with one number more.
fn with_last(alloc: Global, numbers: &[usize], last: usize) -> Result<Vec<usize>, AllocError>
    ensures { IfOk result (λ copy. copy.items ≡ numbers.now ++ last ∷ []) }
{
    let mut copy = Vec::from_slice(alloc, numbers)?;
    copy.push(last)?;
    Ok(copy)
}

// The state with its next path condition, which goes to the one at q, if it can.
fn next_by(
    alloc: Global,
    search: &Search,
    state: &Embedding,
    q: usize,
) -> Result<Option<Embedding>, AllocError>
    requires { length state.now.images.items < length search.now.conditions.now }
    ensures longer { IfOk result (λ found. IfSome found (λ y. y.images.items ≡ state.now.images.items ++ q ∷ [])) }
    ensures next { IfOk result (λ found. (i j : PlainInfer) → IsSearch search.now → WellFormed (left_item (stored_of search.now) i)
        → IsState (stored_of search.now) (query_of search.now) i j state.now → IsFirstOfEqual (query_of search.now) q → IfSome found (λ y. IsNext (stored_of search.now) (query_of search.now) i j state.now q y)) }
    ensures forced { IfOk result (λ found. (i j : PlainInfer) (f : ℕ → ℕ) (images rest : List ℕ) → IsSearch search.now → WellFormed (left_item (stored_of search.now) i)
        → IsState (stored_of search.now) (query_of search.now) i j state.now → IsTarget (stored_of search.now) (query_of search.now) i j state.now.map.items f images
        → images ≡ state.now.images.items ++ q ∷ rest → IsSomeAnd found (λ y. Follows y.map.items f)) }
{
    let p = search.conditions[state.images.len()];
    let map = met_by(alloc, search, &state.map, p, q)?;
    match map {
        Some(map) => {
            let images = with_last(alloc, state.images.as_slice(), q)?;
            Ok(Some(Embedding { map, images }))
        }
        None => Ok(None),
    }
}

// Each path condition has an image.
fn is_whole(conditions: &[usize], images: &[usize]) -> bool
    ensures whole { result ≡ true → length conditions.now ≤ length images.now }
    ensures part { result ≡ false → length images.now < length conditions.now }
{
    images.len() >= conditions.len()
}

fn is_full(found: &[Embedding], limit: usize) -> bool
    ensures full { result ≡ true → limit ≤ length found.now }
    ensures part { result ≡ false → length found.now < limit }
{
    found.len() >= limit
}

// Appends the state, if there is one.
fn push_next(found: &mut Vec<Embedding>, next: Option<Embedding>) -> Result<(), AllocError>
    ensures { OnOk result (found.new.items ≡ found.old.items ++ option_to_list next) }
{
    match next {
        Some(state) => {
            found.push(state)?;
            Ok(())
        }
        None => Ok(()),
    }
}

// The states with one path condition more, the first one last.
fn expand(alloc: Global, search: &Search, state: &Embedding) -> Result<Vec<Embedding>, AllocError>
    requires { length state.now.images.items < length search.now.conditions.now }
    ensures few { IfOk result (λ ys. length ys.items ≤ length search.now.given.now) }
    ensures longer { IfOk result (λ ys. (y : EmbeddingNode) → Has ys.items y → length y.images.items ≡ length state.now.images.items + 1) }
    ensures next { IfOk result (λ ys. (i j : PlainInfer) → IsSearch search.now → WellFormed (left_item (stored_of search.now) i)
        → IsState (stored_of search.now) (query_of search.now) i j state.now → AreNext (stored_of search.now) (query_of search.now) i j search.now.given.now state.now 0 ys.items) }
{
    let mut found = Vec::new(alloc);
    let mut left = search.given.len();
    while left > 0 {
        left -= 1;
        let next = next_by(alloc, search, state, search.given[left])?;
        push_next(&mut found, next)?;
    }
    Ok(found)
}

// The first state that is reached from the start with all path conditions.
pub(crate) fn first_from(
    alloc: Global,
    search: &Search,
    start: Embedding,
) -> Result<Option<Embedding>, AllocError>
    ensures first { IfOk result (λ found. (i j : PlainInfer) → IsSearch search.now → WellFormed (left_item (stored_of search.now) i)
        → IsState (stored_of search.now) (query_of search.now) i j start → start.images.items ≡ [] → IfSome found (λ x. IsFirstFrom (stored_of search.now) (query_of search.now) i j start x)) }
    ensures none { IfOk result (λ found. found ≡ None → (i j : PlainInfer) (f : ℕ → ℕ) (images : List ℕ) → IsSearch search.now → WellFormed (left_item (stored_of search.now) i)
        → IsState (stored_of search.now) (query_of search.now) i j start → start.images.items ≡ [] → IsTarget (stored_of search.now) (query_of search.now) i j start.map.items f images → ⊥) }
{
    let mut waiting = Vec::new(alloc);
    waiting.push(start)?;
    while let Some(state) = waiting.pop() {
        if is_whole(search.conditions, state.images.as_slice()) {
            return Ok(Some(state));
        }
        let mut next = expand(alloc, search, &state)?;
        waiting.append(&mut next)?;
    }
    Ok(None)
}

// One step of the search for all: the state is expanded or found. No, if it is one too many.
fn advance(
    alloc: Global,
    search: &Search,
    state: Embedding,
    waiting: &mut Vec<Embedding>,
    found: &mut Vec<Embedding>,
    limit: usize,
) -> Result<bool, AllocError>
    ensures less { IfOk result (λ goes. goes ≡ true → work_in search.now waiting.new.items < work_in search.now (waiting.old.items ++ state ∷ [])) }
    ensures goes { IfOk result (λ goes. goes ≡ true → (i j : PlainInfer) (start : EmbeddingNode) → IsSearch search.now → WellFormed (left_item (stored_of search.now) i)
        → AreSearched (stored_of search.now) (query_of search.now) i j start found.old.items (waiting.old.items ++ state ∷ [])
        → AreSearched (stored_of search.now) (query_of search.now) i j start found.new.items waiting.new.items) }
    ensures few { IfOk result (λ goes. length found.old.items ≤ limit → length found.new.items ≤ limit) }
    ensures full { IfOk result (λ goes. goes ≡ false → (length search.now.conditions.now ≤ length state.images.items) × (limit ≤ length found.old.items) × (found.new.items ≡ found.old.items)) }
{
    if !is_whole(search.conditions, state.images.as_slice()) {
        let mut next = expand(alloc, search, &state)?;
        waiting.append(&mut next)?;
        return Ok(true);
    }
    if is_full(found, limit) {
        return Ok(false);
    }
    found.push(state)?;
    Ok(true)
}

// The embeddings that are reached from the start, at most as many as the limit.
pub(crate) fn all_from(
    alloc: Global,
    search: &Search,
    start: Embedding,
    limit: usize,
) -> Result<Embeddings, AllocError>
    ensures { IfOk result (λ x. (i j : PlainInfer) → IsSearch search.now → WellFormed (left_item (stored_of search.now) i) → IsStart (stored_of search.now) (query_of search.now) i j start
        → AllFollow (stored_of search.now) (query_of search.now) i j start.map.items → AreFirstFor (stored_of search.now) (query_of search.now) i j limit x) }
{
    let mut found = Vec::new(alloc);
    let mut waiting = Vec::new(alloc);
    waiting.push(start)?;
    while let Some(state) = waiting.pop() {
        let goes = advance(alloc, search, state, &mut waiting, &mut found, limit)?;
        if !goes {
            return Ok(Embeddings {
                found,
                are_all: false,
            });
        }
    }
    Ok(Embeddings {
        found,
        are_all: true,
    })
}
