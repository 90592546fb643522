//! The ties of the needed statements, and the first conflict among them.

ghost use Rattle.std.specs.Prelude.{◌≡◌, ◌+◌, ◌*◌, ◌<◌, ◌^◌, ◌↔◌, Some, length, slice_get, IsTrue, IfErr, OnOk};
ghost use Rattle.souper_graph.specs.View.{view_statement};
ghost use Rattle.souper_graph.specs.PartsView.{view_parts};
ghost use Rattle.souper_graph.specs.Uses.{NeededIn};
ghost use Rattle.souper_graph.specs.WellFormed.{WellFormed};
ghost use Rattle.souper_graph.specs.Flaws.{IsBefore};
ghost use Rattle.souper_graph.specs.declared.ast.flaws.FlawLocation.TheVariants.{Statement as AtStatement};
ghost use Rattle.souper_widths.specs.Shape.{HasShape};
ghost use Rattle.souper_widths.specs.Flaws.{HasOneBit, IsNarrowPairStatement};
ghost use Rattle.souper_widths.specs.Forest.{AreClasses};
ghost use Rattle.souper_widths.specs.Nodes.{MarkNeeded, ClassesOf};
ghost use Rattle.souper_widths.specs.Errors.{IsWidthsError};

use crate::equations::{push_statement_ties, type_of};
use crate::flaws::{WidthFlaw, WidthReason, WidthsError};
use crate::shape::is_pair;
use crate::solving::tie_all;
use crate::ties::Tie;
use souper_graph::ast::{FlawLocation, Id, Parts, Statement, Type};

fn has_one_bit(ty: Option<Type>) -> bool
    ensures { IsTrue result ↔ HasOneBit ty }
{
    match ty {
        Some(ty) => ty.width == 1,
        None => false,
    }
}

// A pair of type i1: nothing is left for its number.
fn is_narrow_pair(statement: &Statement) -> bool
    ensures { IsTrue result ↔ IsNarrowPairStatement (Some (view_statement statement.now)) }
{
    is_pair(statement) && has_one_bit(type_of(statement))
}

// Ties the equations of a needed statement. The error is a conflict.
fn tie_statement(
    ties: &mut Vec<Tie>,
    parts: &Parts<'_>,
    position: usize,
    statement: &Statement,
    parents: &mut [usize],
    numbers: &mut [u16],
) -> Result<(), WidthsError>
    requires well_formed { WellFormed (view_parts parts.now) }
    requires shape { HasShape (view_parts parts.now) }
    requires needed { NeededIn (view_parts parts.now) position }
    requires stands { slice_get (view_parts parts.now).statements position ≡ Some (view_statement statement.now) }
    requires size { length parents.old ≡ 2 * length (view_parts parts.now).statements + 1 }
    requires fits { 2 * length (view_parts parts.now).statements < 2 ^ 64 }
    requires classes { AreClasses parents.old numbers.old }
    requires before { ClassesOf (view_parts parts.now) (λ k. IsBefore k (AtStatement position)) parents.old numbers.old }
    ensures classes { AreClasses parents.new numbers.new }
    ensures ok { OnOk result (ClassesOf (view_parts parts.now) (λ k. IsBefore k (AtStatement (position + 1))) parents.new numbers.new) }
    ensures err { IfErr result (λ error. IsWidthsError (view_parts parts.now) error) }
{
    let location = FlawLocation::Statement(Id::at(position));
    if is_narrow_pair(statement) {
        let reason = WidthReason::Conflict { left: 0, right: 1 };
        return Err(WidthsError::Flawed(WidthFlaw { location, reason }));
    }
    ties.clear();
    push_statement_ties(ties, position, statement, parts.statements.len())?;
    match tie_all(parents, numbers, ties) {
        Ok(()) => Ok(()),
        Err((left, right)) => {
            let reason = WidthReason::Conflict { left, right };
            Err(WidthsError::Flawed(WidthFlaw { location, reason }))
        }
    }
}

// The same, of the statement at a position, if it is needed.
fn tie_position(
    ties: &mut Vec<Tie>,
    parts: &Parts<'_>,
    position: usize,
    is_needed: bool,
    parents: &mut [usize],
    numbers: &mut [u16],
) -> Result<(), WidthsError>
    requires well_formed { WellFormed (view_parts parts.now) }
    requires shape { HasShape (view_parts parts.now) }
    requires needed { IsTrue is_needed ↔ NeededIn (view_parts parts.now) position }
    requires size { length parents.old ≡ 2 * length (view_parts parts.now).statements + 1 }
    requires fits { 2 * length (view_parts parts.now).statements < 2 ^ 64 }
    requires classes { AreClasses parents.old numbers.old }
    requires before { ClassesOf (view_parts parts.now) (λ k. IsBefore k (AtStatement position)) parents.old numbers.old }
    ensures classes { AreClasses parents.new numbers.new }
    ensures ok { OnOk result (ClassesOf (view_parts parts.now) (λ k. IsBefore k (AtStatement (position + 1))) parents.new numbers.new) }
    ensures err { IfErr result (λ error. IsWidthsError (view_parts parts.now) error) }
{
    if !is_needed {
        return Ok(());
    }
    match parts.statements.get(Id::at(position)) {
        Some(statement) => tie_statement(ties, parts, position, statement, parents, numbers),
        None => Ok(()),
    }
}

// Ties the equations of all needed statements. The error is the first conflict.
pub(crate) fn tie_statements(
    parts: &Parts<'_>,
    marks: &[bool],
    parents: &mut [usize],
    numbers: &mut [u16],
) -> Result<(), WidthsError>
    requires well_formed { WellFormed (view_parts parts.now) }
    requires shape { HasShape (view_parts parts.now) }
    requires marked { MarkNeeded (view_parts parts.now) marks.now }
    requires size { length parents.old ≡ 2 * length (view_parts parts.now).statements + 1 }
    requires fits { 2 * length (view_parts parts.now).statements < 2 ^ 64 }
    requires classes { AreClasses parents.old numbers.old }
    requires before { ClassesOf (view_parts parts.now) (λ k. IsBefore k (AtStatement 0)) parents.old numbers.old }
    ensures classes { AreClasses parents.new numbers.new }
    ensures ok { OnOk result (ClassesOf (view_parts parts.now) (λ k. IsBefore k (AtStatement (length marks.now))) parents.new numbers.new) }
    ensures err { IfErr result (λ error. IsWidthsError (view_parts parts.now) error) }
{
    let mut ties = Vec::new(parts.statements.allocator());
    for position in 0..marks.len() {
        match tie_position(
            &mut ties,
            parts,
            position,
            marks[position],
            parents,
            numbers,
        ) {
            Ok(()) => {}
            Err(error) => return Err(error),
        }
    }
    Ok(())
}
