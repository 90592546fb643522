//! Whether two lists have pairwise the same graphs.

ghost use Rattle.std.specs.Prelude.{◌↔◌, map, IfOk, IsTrue};
ghost use Rattle.std.specs.List.{AllByRecursion, AllZip};
ghost use Rattle.souper_graph.specs.WellFormed.{WellFormed};
ghost use Rattle.souper_graph.specs.Sameness.{SameGraph};
ghost use Rattle.souper_format.specs.Kinds.{view_items, SameItems};

use crate::items::Items;
use crate::texts::are_same_graph;
use souper_ir::ast::Item;
use std::alloc::{AllocError, Global};

/// Whether both lists have one kind and one length, and each item is the same graph as the one at its index in the
/// other list.
///
/// Two items are the same graph if a one-to-one map between their needed statements keeps names, types, attributes,
/// operations, operands, the last lines and the order of the path conditions. The order of the other statements does
/// not matter, nor do statements that no root and no path condition needs. Two items are the same graph if and only if
/// they have the same canonical text, so texts are compared.
///
/// Each item must be well formed, as the items from [`read_items`](crate::items::read_items) are. The error is out of memory.
pub fn same(alloc: Global, a: &Items, b: &Items) -> Result<bool, AllocError>
    requires formed { AllByRecursion WellFormed (view_items a.now) }
    requires other_formed { AllByRecursion WellFormed (view_items b.now) }
    ensures { IfOk result (λ answer. IsTrue answer ↔ SameItems a.now b.now) }
{
    match (a, b) {
        (Items::Lhs(a), Items::Lhs(b)) => are_pairwise_same(alloc, a, b),
        (Items::Rhs(a), Items::Rhs(b)) => are_pairwise_same(alloc, a, b),
        (Items::Rep(a), Items::Rep(b)) => are_pairwise_same(alloc, a, b),
        _ => Ok(false),
    }
}

fn are_pairwise_same<T: Item>(alloc: Global, a: &[T], b: &[T]) -> Result<bool, AllocError>
    requires formed { AllByRecursion WellFormed (map T.view a.now) }
    requires other_formed { AllByRecursion WellFormed (map T.view b.now) }
    ensures { IfOk result (λ answer. IsTrue answer ↔ AllZip SameGraph (map T.view a.now) (map T.view b.now)) }
{
    if a.len() != b.len() {
        return Ok(false);
    }
    for (x, y) in a.iter().zip(b) {
        if !are_same_graph(alloc, x, y)? {
            return Ok(false);
        }
    }
    Ok(true)
}
