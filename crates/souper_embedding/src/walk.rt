//! What follows from the position of one statement: those of all that it needs.

ghost use Rattle.std.specs.Prelude.{◌≡◌, ◌↔◌, ℕ, List, length, map, true, IsTrue};
ghost use Rattle.souper_graph.specs.Uses.{position_of, uses_of_rhs, used_at};
ghost use Rattle.souper_graph.specs.View.{view_rhs, view_assignment, view_statement};
ghost use Rattle.souper_embedding.specs.Embedding.{StandsFor};
ghost use Rattle.souper_embedding.specs.Maps.{Follows, Binds, AreBelow, StandsAt, UseBelow, KnownAreNeeded, IsWalked, EachStands};

use crate::facts::has_facts;
use crate::maps::bind_rhs;
use souper_graph::ast::{Arena, Assignment, Id, Statement, Type, ValueId};

fn same_type(x: Option<Type>, y: Option<Type>) -> bool
    ensures { IsTrue result ↔ (y ≡ x) }
{
    x == y
}

// The map takes the assignment x to y, if it can.
fn bind_assignment(to: &mut [Option<usize>], x: &Assignment, y: &Assignment) -> bool
    ensures bound { result ≡ true → Binds to.old to.new (map position_of (uses_of_rhs (view_rhs x.now.value))) }
    ensures sound { result ≡ true → (f : ℕ → ℕ) → Follows to.new f → StandsFor f (view_assignment x.now) (view_assignment y.now) }
    ensures forced { (f : ℕ → ℕ) → Follows to.old f → StandsFor f (view_assignment x.now) (view_assignment y.now)
        → AreBelow (length to.old) (map position_of (uses_of_rhs (view_rhs x.now.value))) → (result ≡ true) × Follows to.new f }
{
    same_type(x.ty, y.ty)
        && has_facts(&x.attributes, &y.attributes)
        && bind_rhs(to, &x.value, &y.value)
}

// The map takes what the statement at p uses to what the one at q uses, if this one stands for the other.
fn bind_at(
    stored: &Arena<Statement>,
    query: &Arena<Statement>,
    to: &mut [Option<usize>],
    p: usize,
    q: usize,
) -> bool
    ensures bound { result ≡ true → Binds to.old to.new (used_at (map view_statement stored.now) p) }
    ensures sound { result ≡ true → (f : ℕ → ℕ) → Follows to.new f → StandsAt (map view_statement stored.now) (map view_statement query.now) f p q }
    ensures forced { (f : ℕ → ℕ) → Follows to.old f → StandsAt (map view_statement stored.now) (map view_statement query.now) f p q
        → AreBelow (length to.old) (used_at (map view_statement stored.now) p) → (result ≡ true) × Follows to.new f }
{
    let from: ValueId = Id::at(p).into();
    let into: ValueId = Id::at(q).into();
    match stored.assignment(from) {
        Some(x) => match query.assignment(into) {
            Some(y) => bind_assignment(to, x, y),
            None => false,
        },
        None => false,
    }
}

// From the positions where the map is known, it is made known at all that these need. No, if some statement cannot stand for another.
pub(crate) fn walk(
    stored: &Arena<Statement>,
    query: &Arena<Statement>,
    to: &mut [Option<usize>],
) -> bool
    ensures walked { result ≡ true → (walks : List ℕ) → UseBelow (map view_statement stored.now) walks → KnownAreNeeded (map view_statement stored.now) walks to.old
        → IsWalked (map view_statement stored.now) (map view_statement query.now) walks to.old to.new }
    ensures forced { (walks : List ℕ) (f : ℕ → ℕ) → UseBelow (map view_statement stored.now) walks → KnownAreNeeded (map view_statement stored.now) walks to.old → Follows to.old f
        → EachStands (map view_statement stored.now) (map view_statement query.now) walks f → (result ≡ true) × Follows to.new f }
{
    let mut left = to.len();
    while left > 0 {
        left -= 1;
        if let Some(image) = to[left] {
            if !bind_at(stored, query, to, left, image) {
                return false;
            }
        }
    }
    true
}
