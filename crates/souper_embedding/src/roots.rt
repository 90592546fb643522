//! The map that the roots of a stored replacement and of a query give.

ghost use Rattle.std.specs.Prelude.{◌≡◌, ◌<◌, ℕ, [], length, map, true, IfOk, IfSome, IsSomeAnd};
ghost use Rattle.souper_graph.specs.Values.{PlainInfer};
ghost use Rattle.souper_graph.specs.WellFormed.{WellFormed};
ghost use Rattle.souper_graph.specs.View.{view_statement};
ghost use Rattle.souper_embedding.specs.Embedding.{EmbedsLeft};
ghost use Rattle.souper_embedding.specs.Maps.{GoesTo, Follows, IsOneToOne, IsUnknown};
ghost use Rattle.souper_embedding.specs.Search.{left_item, IsReached};

use crate::maps::{bind, bind_value, unknown_map};
use crate::search::Embedding;
use crate::walk::walk;
use souper_graph::ast::{Arena, Statement, ValueId};
use std::alloc::{AllocError, Global};

// The map from each image to its position, written into `from`. No, if two positions go to one.
fn invert(to: &[Option<usize>], from: &mut [Option<usize>]) -> bool
    ensures sound { result ≡ true → IsOneToOne to.now }
    ensures complete { IsUnknown from.old → IsOneToOne to.now → ((p q : ℕ) → GoesTo to.now p q → q < length from.old) → result ≡ true }
{
    for p in 0..to.len() {
        if let Some(q) = to[p] {
            if !bind(from, q, p) {
                return false;
            }
        }
    }
    true
}

// No two positions go to one; `count` is the number of positions where they may go.
fn is_one_to_one(alloc: Global, to: &[Option<usize>], count: usize) -> Result<bool, AllocError>
    ensures sound { IfOk result (λ answer. answer ≡ true → IsOneToOne to.now) }
    ensures complete { IfOk result (λ answer. IsOneToOne to.now → ((p q : ℕ) → GoesTo to.now p q → q < count) → answer ≡ true) }
{
    let mut from = unknown_map(alloc, count)?;
    Ok(invert(to, from.as_mut_slice()))
}

// The map takes the root i, and what it needs, to the root j, if it can.
fn reach(
    stored: &Arena<Statement>,
    query: &Arena<Statement>,
    to: &mut [Option<usize>],
    i: ValueId,
    j: ValueId,
) -> bool
    ensures reached { result ≡ true → (x y : PlainInfer) → x.value ≡ i → y.value ≡ j → WellFormed (left_item (map view_statement stored.now) x) → IsUnknown to.old
        → length to.old ≡ length stored.now → IsOneToOne to.new → IsReached (map view_statement stored.now) (map view_statement query.now) x y to.new 0 }
    ensures images { result ≡ true → (x : PlainInfer) → x.value ≡ i → WellFormed (left_item (map view_statement stored.now) x) → IsUnknown to.old
        → (p q : ℕ) → GoesTo to.new p q → q < length query.now }
    ensures forced { (x y : PlainInfer) (f : ℕ → ℕ) → x.value ≡ i → y.value ≡ j → WellFormed (left_item (map view_statement stored.now) x) → IsUnknown to.old → length to.old ≡ length stored.now
        → EmbedsLeft (left_item (map view_statement stored.now) x) (left_item (map view_statement query.now) y) x y f → (result ≡ true) × Follows to.new f × IsOneToOne to.new }
{
    bind_value(to, i, j) && walk(stored, query, to)
}

// The state with the map that takes the root i to the root j, known at what i needs, if there is one.
pub(crate) fn root_state(
    alloc: Global,
    stored: &Arena<Statement>,
    query: &Arena<Statement>,
    i: ValueId,
    j: ValueId,
) -> Result<Option<Embedding>, AllocError>
    ensures bare { IfOk result (λ found. IfSome found (λ state. state.images.items ≡ [])) }
    ensures reached { IfOk result (λ found. IfSome found (λ state. (x y : PlainInfer) → x.value ≡ i → y.value ≡ j → WellFormed (left_item (map view_statement stored.now) x)
        → IsReached (map view_statement stored.now) (map view_statement query.now) x y state.map.items 0)) }
    ensures forced { IfOk result (λ found. (x y : PlainInfer) (f : ℕ → ℕ) → x.value ≡ i → y.value ≡ j → WellFormed (left_item (map view_statement stored.now) x)
        → EmbedsLeft (left_item (map view_statement stored.now) x) (left_item (map view_statement query.now) y) x y f → IsSomeAnd found (λ state. Follows state.map.items f)) }
{
    let mut map = unknown_map(alloc, stored.len())?;
    if !reach(stored, query, map.as_mut_slice(), i, j) {
        return Ok(None);
    }
    let is_map = is_one_to_one(alloc, &map, query.len())?;
    if is_map {
        return Ok(Some(Embedding {
            map,
            images: Vec::new(alloc),
        }));
    }
    Ok(None)
}
