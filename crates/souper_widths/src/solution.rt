//! The widths of all nodes, by the equations of all places.

ghost use Rattle.std.specs.Prelude.{◌≡◌, ◌+◌, ◌*◌, ◌<◌, ◌^◌, length, IfOk, IfErr, OnOk};
ghost use Rattle.souper_graph.specs.PartsView.{view_parts};
ghost use Rattle.souper_graph.specs.WellFormed.{WellFormed};
ghost use Rattle.souper_graph.specs.Flaws.{IsBefore};
ghost use Rattle.souper_graph.specs.declared.ast.flaws.FlawLocation.TheVariants.{Statement as AtStatement};
ghost use Rattle.souper_widths.specs.Shape.{HasShape};
ghost use Rattle.souper_widths.specs.Forest.{AreClasses};
ghost use Rattle.souper_widths.specs.Nodes.{MarkNeeded, ClassesOf};
ghost use Rattle.souper_widths.specs.Told.{TellsItem};
ghost use Rattle.souper_widths.specs.Errors.{IsWidthsError};

use crate::conflicts::tie_statements;
use crate::flaws::WidthsError;
use crate::last_lines::tie_lines;
use crate::solving::{first_parents, widths_of};
use souper_graph::ast::Parts;

// Ties the equations of all places. The error is the first conflict.
fn tie_places(
    parts: &Parts<'_>,
    marks: &[bool],
    parents: &mut [usize],
    numbers: &mut [u16],
) -> Result<(), WidthsError>
    requires well_formed { WellFormed (view_parts parts.now) }
    requires shape { HasShape (view_parts parts.now) }
    requires marked { MarkNeeded (view_parts parts.now) marks.now }
    requires size { length parents.old ≡ 2 * length (view_parts parts.now).statements + 1 }
    requires fits { 2 * length (view_parts parts.now).statements < 2 ^ 64 }
    requires classes { AreClasses parents.old numbers.old }
    requires before { ClassesOf (view_parts parts.now) (λ k. IsBefore k (AtStatement 0)) parents.old numbers.old }
    ensures classes { AreClasses parents.new numbers.new }
    ensures ok { OnOk result (ClassesOf (view_parts parts.now) (λ k. Unit {0}) parents.new numbers.new) }
    ensures err { IfErr result (λ error. IsWidthsError (view_parts parts.now) error) }
{
    match tie_statements(parts, marks, parents, numbers) {
        Ok(()) => tie_lines(parts, parents, numbers),
        Err(error) => Err(error),
    }
}

// The widths of all nodes, 0 for one that no equation tells.
pub(crate) fn node_widths(parts: &Parts<'_>, marks: &[bool]) -> Result<Vec<u16>, WidthsError>
    requires well_formed { WellFormed (view_parts parts.now) }
    requires shape { HasShape (view_parts parts.now) }
    requires marked { MarkNeeded (view_parts parts.now) marks.now }
    ensures ok { IfOk result (λ nodes. TellsItem (view_parts parts.now) nodes.items) }
    ensures err { IfErr result (λ error. IsWidthsError (view_parts parts.now) error) }
{
    let alloc = parts.statements.allocator();
    let Some(twice) = parts.statements.len().checked_mul(2) else {
        return Err(WidthsError::OutOfMemory);
    };
    let count = twice + 1;
    let mut parents = first_parents(alloc, count)?;
    let mut numbers = vec![in alloc; 0u16; count]?;
    match tie_places(parts, marks, &mut parents, &mut numbers) {
        Ok(()) => {
            let nodes = widths_of(alloc, &parents, &numbers)?;
            Ok(nodes)
        }
        Err(error) => Err(error),
    }
}
