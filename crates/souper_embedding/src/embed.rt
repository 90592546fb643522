//! The maps by which a stored replacement embeds into a query.

ghost use Rattle.std.specs.Prelude.{◌≡◌, ℕ, map, IfOk, IfSome, IsSomeAnd, MatchOption};
ghost use Rattle.souper_graph.specs.Values.{PlainInfer};
ghost use Rattle.souper_graph.specs.WellFormed.{WellFormed};
ghost use Rattle.souper_graph.specs.View.{view_statement, view_infer, view_left_hand_side, view_replacement};
ghost use Rattle.souper_embedding.specs.Embedding.{EmbedsLeft, Embeds};
ghost use Rattle.souper_embedding.specs.Images.{IsFirst};
ghost use Rattle.souper_embedding.specs.Listing.{AreFirst};
ghost use Rattle.souper_embedding.specs.Maps.{Follows};
ghost use Rattle.souper_embedding.specs.Search.{left_item};
ghost use Rattle.souper_embedding.specs.States.{IsStart, AllFollow, NoneEmbeds, IsFirstFor, AreFirstFor};

use crate::conditions::{conditions_of, given_of};
use crate::facts::wants_within;
use crate::roots::root_state;
use crate::search::{Search, all_from, first_from};
pub use crate::search::{Embedding, Embeddings};
use souper_graph::ast::{Arena, Infer, LeftHandSide, Replacement, Statement};
use std::alloc::{AllocError, Global};

// The state with the map of the roots, if there is one and the query demands no more bits.
fn start_of(
    alloc: Global,
    stored: &Arena<Statement>,
    infer: &Infer,
    query: &LeftHandSide,
) -> Result<Option<Embedding>, AllocError>
    ensures start { IfOk result (λ found. IfSome found (λ state. WellFormed (left_item (map view_statement stored.now) (view_infer infer.now))
        → IsStart (map view_statement stored.now) (map view_statement query.now.statements) (view_infer infer.now) (view_infer query.now.infer) state)) }
    ensures forced { IfOk result (λ found. WellFormed (left_item (map view_statement stored.now) (view_infer infer.now)) → (f : ℕ → ℕ)
        → EmbedsLeft (left_item (map view_statement stored.now) (view_infer infer.now)) (left_item (map view_statement query.now.statements) (view_infer query.now.infer)) (view_infer infer.now) (view_infer query.now.infer) f
        → IsSomeAnd found (λ state. Follows state.map.items f)) }
{
    if !wants_within(infer.attributes.as_slice(), &query.infer.attributes) {
        return Ok(None);
    }
    root_state(
        alloc,
        stored,
        &query.statements,
        infer.value,
        query.infer.value,
    )
}

// The first state that is reached from the start with all path conditions.
fn first_after(
    alloc: Global,
    stored: &Arena<Statement>,
    query: &Arena<Statement>,
    start: Embedding,
) -> Result<Option<Embedding>, AllocError>
    ensures { IfOk result (λ found. (i j : PlainInfer) → WellFormed (left_item (map view_statement stored.now) i) → IsStart (map view_statement stored.now) (map view_statement query.now) i j start
        → AllFollow (map view_statement stored.now) (map view_statement query.now) i j start.map.items
        → MatchOption found (NoneEmbeds (map view_statement stored.now) (map view_statement query.now) i j) (λ first. IsFirstFor (map view_statement stored.now) (map view_statement query.now) i j first)) }
{
    let conditions = conditions_of(alloc, stored)?;
    let given = given_of(alloc, query)?;
    let search = Search {
        stored,
        query,
        conditions: conditions.as_slice(),
        given: &given,
    };
    first_from(alloc, &search, start)
}

// The first map by which the statements with an infer line embed into the query.
fn first_of_left(
    alloc: Global,
    stored: &Arena<Statement>,
    infer: &Infer,
    query: &LeftHandSide,
) -> Result<Option<Embedding>, AllocError>
    ensures { IfOk result (λ found. WellFormed (left_item (map view_statement stored.now) (view_infer infer.now))
        → MatchOption found (NoneEmbeds (map view_statement stored.now) (map view_statement query.now.statements) (view_infer infer.now) (view_infer query.now.infer))
        (λ first. IsFirstFor (map view_statement stored.now) (map view_statement query.now.statements) (view_infer infer.now) (view_infer query.now.infer) first)) }
{
    let start = start_of(alloc, stored, infer, query)?;
    match start {
        Some(start) => first_after(alloc, stored, &query.statements, start),
        None => Ok(None),
    }
}

/// The first map by which a stored replacement embeds into a query, or `None` if it does not.
///
/// The map is known at what the left-hand side of the replacement needs. Of two maps the first is the one that takes a path condition to
/// an earlier one of the query, where they first differ. A `cand` embeds into no query: `Replacement::by_result` gives it a result.
///
/// Of a replacement that is not well formed nothing is promised. It tries at most (n + 1)^k maps, of k path conditions of the replacement
/// and n distinct ones of the query. The error is out of memory.
pub fn first_embedding(
    alloc: Global,
    stored: &Replacement,
    query: &LeftHandSide,
) -> Result<Option<Embedding>, AllocError>
    ensures { WellFormed (view_replacement stored.now) → IfOk result (λ found. MatchOption found
        ((f : ℕ → ℕ) → Embeds (view_replacement stored.now) (view_left_hand_side query.now) f → ⊥)
        (λ first. IsFirst (view_replacement stored.now) (view_left_hand_side query.now) first.map.items first.images.items)) }
{
    match stored {
        Replacement::LhsRhs {
            statements,
            lhs,
            ..
        } => first_of_left(alloc, statements, lhs, query),
        Replacement::Cand { .. } => Ok(None),
    }
}

// The embeddings that are reached from the start, at most as many as the limit.
fn list_after(
    alloc: Global,
    stored: &Arena<Statement>,
    query: &Arena<Statement>,
    start: Embedding,
    limit: usize,
) -> Result<Embeddings, AllocError>
    ensures { IfOk result (λ x. (i j : PlainInfer) → WellFormed (left_item (map view_statement stored.now) i) → IsStart (map view_statement stored.now) (map view_statement query.now) i j start
        → AllFollow (map view_statement stored.now) (map view_statement query.now) i j start.map.items → AreFirstFor (map view_statement stored.now) (map view_statement query.now) i j limit x) }
{
    let conditions = conditions_of(alloc, stored)?;
    let given = given_of(alloc, query)?;
    let search = Search {
        stored,
        query,
        conditions: conditions.as_slice(),
        given: &given,
    };
    all_from(alloc, &search, start, limit)
}

// The embeddings of the statements with an infer line into the query, at most as many as the limit.
fn list_of_left(
    alloc: Global,
    stored: &Arena<Statement>,
    infer: &Infer,
    query: &LeftHandSide,
    limit: usize,
) -> Result<Embeddings, AllocError>
    ensures { IfOk result (λ x. WellFormed (left_item (map view_statement stored.now) (view_infer infer.now))
        → AreFirstFor (map view_statement stored.now) (map view_statement query.now.statements) (view_infer infer.now) (view_infer query.now.infer) limit x) }
{
    let start = start_of(alloc, stored, infer, query)?;
    match start {
        Some(start) => list_after(alloc, stored, &query.statements, start, limit),
        None => Ok(Embeddings {
            found: Vec::new(alloc),
            are_all: true,
        }),
    }
}

/// The embeddings of a stored replacement into a query, in the order of [`first_embedding`], at most as many as the limit.
///
/// It says whether there is another. Of a replacement that is not well formed nothing is promised. The limit bounds the answers, not the
/// maps that are tried. The error is out of memory.
pub fn embeddings(
    alloc: Global,
    stored: &Replacement,
    query: &LeftHandSide,
    limit: usize,
) -> Result<Embeddings, AllocError>
    ensures { WellFormed (view_replacement stored.now) → IfOk result (λ x. AreFirst (view_replacement stored.now) (view_left_hand_side query.now) limit x.found.items x.are_all) }
{
    match stored {
        Replacement::LhsRhs {
            statements,
            lhs,
            ..
        } => list_of_left(alloc, statements, lhs, query, limit),
        Replacement::Cand { .. } => Ok(Embeddings {
            found: Vec::new(alloc),
            are_all: true,
        }),
    }
}
