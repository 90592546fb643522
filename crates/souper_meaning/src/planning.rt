//! The plan of an item.

ghost use Rattle.std.specs.Prelude.{◌↔◌, ◌<◌, ℕ, length, IfOk, IfErr};
ghost use Rattle.souper_graph.specs.PartsView.{view_parts};
ghost use Rattle.souper_graph.specs.Uses.{Has, NeededIn};
ghost use Rattle.souper_graph.specs.WellFormed.{WellFormed};
ghost use Rattle.souper_widths.specs.View.{view_widths};
ghost use Rattle.souper_widths.specs.Nodes.{HaveMarks};
ghost use Rattle.souper_widths.specs.Typed.{Typed};
ghost use Rattle.souper_meaning.specs.Plans.{IsPlan, IsPlanError};

use crate::plans::{Plan, PlanError};
use crate::refusals::refusal;
use souper_graph::ast::{Id, Item, Parts, Statement};
use souper_widths::{Widths, WidthsError, widths};
use std::alloc::{AllocError, Global};

/// Marks on the statements at these positions.
fn marks_of(alloc: Global, ids: &[Id<Statement>], count: usize) -> Result<Vec<bool>, AllocError>
    requires { (i : ℕ) → Has ids.now i → i < count }
    ensures { IfOk result (λ marks. HaveMarks marks.items ids.now count) }
{
    let mut marks = vec![in alloc; false; count]?;
    for id in ids {
        marks[id.index()] = true;
    }
    Ok(marks)
}

/// A plan of the typed item that needs the statements at these positions.
fn planned(parts: &Parts<'_>, ids: &[Id<Statement>], widths: Widths) -> Result<Plan, PlanError>
    requires well_formed { WellFormed (view_parts parts.now) }
    requires typed { Typed (view_parts parts.now) (view_widths widths) }
    requires inside { (i : ℕ) → Has ids.now i → i < length (view_parts parts.now).statements }
    requires exact { (i : ℕ) → Has ids.now i ↔ NeededIn (view_parts parts.now) i }
    ensures planned { IfOk result (λ plan. IsPlan (view_parts parts.now) plan) }
    ensures refused { IfErr result (λ error. IsPlanError (view_parts parts.now) error) }
{
    let alloc = parts.statements.allocator();
    let needed = marks_of(alloc, ids, parts.statements.len())?;
    match refusal(parts, &needed, &widths) {
        Some(error) => Err(error),
        None => Ok(Plan { needed, widths }),
    }
}

/// What evaluation needs of an item.
///
/// Errors: `Untyped` as [`widths`](souper_widths::widths) refuses it; of a typed item `Hole`, then `TooWide`, then
/// `RootTooWide`.
pub fn plan<T: Item>(item: &T) -> Result<Plan, PlanError>
    ensures planned { IfOk result (λ plan. IsPlan (T.view item.now) plan) }
    ensures refused { IfErr result (λ error. IsPlanError (T.view item.now) error) }
{
    let widths = widths(item)?;
    match item.print_order() {
        Ok(order) => planned(&item.parts(), &order.ids, widths),
        // A well-formed item has no bad id, so the error is out of memory.
        Err(_) => Err(PlanError::Untyped(WidthsError::OutOfMemory)),
    }
}
