//! The first flaw of the shape.

ghost use Rattle.std.specs.Prelude.{ℕ, map, slice_get, IsTrue, MatchOption};
ghost use Rattle.std.specs.List.{AllByRecursion};
ghost use Rattle.souper_graph.specs.View.{view_statement};
ghost use Rattle.souper_graph.specs.PartsView.{view_parts};
ghost use Rattle.souper_graph.specs.Uses.{NeededIn};
ghost use Rattle.souper_graph.specs.declared.ast.flaws.FlawLocation.TheVariants.{Statement as AtStatement};
ghost use Rattle.souper_widths.specs.Shape.{ShapedOptional, ShapedAt, shape_reasons, HasShape};
ghost use Rattle.souper_widths.specs.Flaws.{IsFirstFailing, IsShapeFlaw};
ghost use Rattle.souper_widths.specs.Lines.{LinesShaped, IsShapeFlawOfLines};
ghost use Rattle.souper_widths.specs.Nodes.{MarkNeeded};

use crate::flaws::{WidthFlaw, WidthReason};
use crate::shape::{line_shape_reason, shape_reason};
use souper_graph::ast::{Arena, Ending, FlawLocation, Id, Operand, Parts, Statement};

// The first reason of the statement at a position, if it is needed.
fn shape_at(statements: &Arena<Statement>, position: usize, is_needed: bool) -> Option<WidthReason>
    ensures { MatchOption result
        (IsTrue is_needed → AllByRecursion (ShapedOptional (map view_statement statements.now) (slice_get (map view_statement statements.now) position)) shape_reasons)
        (λ reason. IsTrue is_needed × IsFirstFailing (ShapedOptional (map view_statement statements.now) (slice_get (map view_statement statements.now) position)) shape_reasons reason) }
{
    if !is_needed {
        return None;
    }
    match statements.get(Id::at(position)) {
        Some(statement) => shape_reason(statements, statement),
        None => None,
    }
}

// The first flaw of the shape of the needed statements.
fn statements_shape(parts: &Parts<'_>, marks: &[bool]) -> Option<WidthFlaw>
    requires { MarkNeeded (view_parts parts.now) marks.now }
    ensures { MatchOption result
        ((p : ℕ) → NeededIn (view_parts parts.now) p → AllByRecursion (ShapedAt (view_parts parts.now) (AtStatement p)) shape_reasons)
        (λ flaw. IsShapeFlaw (view_parts parts.now) flaw.location flaw.reason) }
{
    for position in 0..marks.len() {
        match shape_at(parts.statements, position, marks[position]) {
            Some(reason) => {
                let location = FlawLocation::Statement(Id::at(position));
                return Some(WidthFlaw { location, reason });
            }
            None => {}
        }
    }
    None
}

// The first flaw of the shape of the last lines.
fn lines_shape(parts: &Parts<'_>) -> Option<WidthFlaw>
    ensures { MatchOption result
        (LinesShaped (view_parts parts.now).statements (view_parts parts.now).ending)
        (λ flaw. IsShapeFlawOfLines (view_parts parts.now).statements (view_parts parts.now).ending flaw.location flaw.reason) }
{
    let statements = parts.statements;
    let (location, reason) = match parts.ending {
        Ending::Infer(lhs) => (
            FlawLocation::Infer,
            line_shape_reason(statements, &[Operand::Value(lhs.value)])?,
        ),
        Ending::Result(rhs) => (
            FlawLocation::Result,
            line_shape_reason(statements, &[*rhs])?,
        ),
        Ending::Cand(cand) => (
            FlawLocation::Cand,
            line_shape_reason(statements, &[cand.lhs, cand.rhs])?,
        ),
        Ending::Replaced(lhs, rhs) => {
            match line_shape_reason(statements, &[Operand::Value(lhs.value)]) {
                Some(reason) => (FlawLocation::Infer, reason),
                None => (
                    FlawLocation::Result,
                    line_shape_reason(statements, &[*rhs])?,
                ),
            }
        }
    };
    Some(WidthFlaw { location, reason })
}

// The first flaw of the shape.
pub(crate) fn shape_flaw(parts: &Parts<'_>, marks: &[bool]) -> Option<WidthFlaw>
    requires { MarkNeeded (view_parts parts.now) marks.now }
    ensures { MatchOption result
        (HasShape (view_parts parts.now))
        (λ flaw. IsShapeFlaw (view_parts parts.now) flaw.location flaw.reason) }
{
    match statements_shape(parts, marks) {
        Some(flaw) => Some(flaw),
        None => lines_shape(parts),
    }
}
