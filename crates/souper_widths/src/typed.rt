//! The widths of an item, or its first flaw.

ghost use Rattle.std.specs.Prelude.{IfOk, IfErr};
ghost use Rattle.souper_graph.specs.PartsView.{view_parts};
ghost use Rattle.souper_graph.specs.WellFormed.{WellFormed};
ghost use Rattle.souper_widths.specs.View.{view_widths};
ghost use Rattle.souper_widths.specs.Typed.{Typed};
ghost use Rattle.souper_widths.specs.Errors.{IsWidthsError};
ghost use Rattle.souper_widths.specs.Nodes.{MarkNeeded};

use crate::flaws::{WidthFlaw, WidthReason, WidthsError};
use crate::forward::forward_widths;
use crate::item_widths::{Widths, widths_by};
use crate::limit_flaws::limit_flaw;
use crate::needed::needed_marks;
use crate::places::shape_flaw;
use crate::solution::node_widths;
use crate::told::first_untold;
use souper_graph::ast::{Item, Parts};

// The widths of a well-formed item, with marks on its needed statements.
fn marked_widths(parts: &Parts<'_>, marks: &[bool]) -> Result<Widths, WidthsError>
    requires well_formed { WellFormed (view_parts parts.now) }
    requires marked { MarkNeeded (view_parts parts.now) marks.now }
    ensures typed { IfOk result (λ widths. Typed (view_parts parts.now) (view_widths widths)) }
    ensures flawed { IfErr result (λ error. IsWidthsError (view_parts parts.now) error) }
{
    if let Some(flaw) = shape_flaw(parts, marks) {
        return Err(WidthsError::Flawed(flaw));
    }
    let nodes = match node_widths(parts, marks) {
        Ok(nodes) => nodes,
        Err(error) => return Err(error),
    };
    if let Some(location) = first_untold(parts, marks, &nodes) {
        let reason = WidthReason::Undetermined;
        return Err(WidthsError::Flawed(WidthFlaw { location, reason }));
    }
    let alloc = parts.statements.allocator();
    let widths = widths_by(alloc, parts, marks, &nodes)?;
    match limit_flaw(parts, marks, &widths) {
        Some(flaw) => Err(WidthsError::Flawed(flaw)),
        None => Ok(widths),
    }
}

fn needed_widths(parts: &Parts<'_>) -> Result<Widths, WidthsError>
    requires { WellFormed (view_parts parts.now) }
    ensures typed { IfOk result (λ widths. Typed (view_parts parts.now) (view_widths widths)) }
    ensures flawed { IfErr result (λ error. IsWidthsError (view_parts parts.now) error) }
{
    let marks = needed_marks(parts)?;
    match forward_widths(parts, &marks)? {
        Some(widths) => Ok(widths),
        None => marked_widths(parts, &marks),
    }
}

/// The widths of an item that is known to be well formed, as [`widths`] returns them.
///
/// Errors: `Flawed` with the first flaw of an item that has no widths; `OutOfMemory`.
pub fn well_formed_widths<T: Item>(item: &T) -> Result<Widths, WidthsError>
    requires { WellFormed (T.view item.now) }
    ensures typed { IfOk result (λ widths. Typed (T.view item.now) (view_widths widths)) }
    ensures flawed { IfErr result (λ error. IsWidthsError (T.view item.now) error) }
{
    needed_widths(&item.parts())
}

/// The widths of an item: the one solution of the equations between them, if its shape and its limits allow one.
///
/// Errors: `NotWellFormed` with the first flaw of an item that is not well formed; `Flawed` with the first of one that
/// is, and has no widths; `OutOfMemory`.
pub fn widths<T: Item>(item: &T) -> Result<Widths, WidthsError>
    ensures well_formed { IfOk result (λ widths. WellFormed (T.view item.now)) }
    ensures typed { IfOk result (λ widths. Typed (T.view item.now) (view_widths widths)) }
    ensures flawed { IfErr result (λ error. IsWidthsError (T.view item.now) error) }
{
    match item.flaw()? {
        Some(flaw) => Err(WidthsError::NotWellFormed(flaw)),
        None => well_formed_widths(item),
    }
}
