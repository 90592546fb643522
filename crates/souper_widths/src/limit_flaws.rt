//! The first flaw of the limits.

ghost use Rattle.std.specs.Prelude.{◌≡◌, ℕ, map, length, slice_get, IsTrue, MatchOption};
ghost use Rattle.std.specs.List.{AllByRecursion};
ghost use Rattle.souper_graph.specs.View.{view_statement};
ghost use Rattle.souper_graph.specs.PartsView.{view_parts};
ghost use Rattle.souper_graph.specs.Uses.{NeededIn};
ghost use Rattle.souper_graph.specs.declared.ast.flaws.FlawLocation.TheVariants.{Statement as AtStatement};
ghost use Rattle.souper_widths.specs.View.{view_widths};
ghost use Rattle.souper_widths.specs.Limits.{KeepsAt, limit_reasons, KeepsLimits};
ghost use Rattle.souper_widths.specs.Kept.{KeptOptional};
ghost use Rattle.souper_widths.specs.Flaws.{IsFirstFailing, IsFirstOfClass};
ghost use Rattle.souper_widths.specs.Lines.{LinesKept, IsLimitFlawOfLines};
ghost use Rattle.souper_widths.specs.Nodes.{MarkNeeded};

use crate::flaws::{WidthFlaw, WidthReason};
use crate::item_widths::Widths;
use crate::limits::{limit_reason, line_reason};
use souper_graph::ast::{Arena, Ending, FlawLocation, Id, Operand, Parts, Statement};

// The first reason of the statement at a position with a result and operands of these widths, if it is needed.
fn limit_at(
    statements: &Arena<Statement>,
    position: usize,
    is_needed: bool,
    result_width: u32,
    operand_width: u32,
) -> Option<WidthReason>
    ensures { MatchOption result
        (IsTrue is_needed → AllByRecursion (KeptOptional result_width operand_width (slice_get (map view_statement statements.now) position)) limit_reasons)
        (λ reason. IsTrue is_needed × IsFirstFailing (KeptOptional result_width operand_width (slice_get (map view_statement statements.now) position)) limit_reasons reason) }
{
    if !is_needed {
        return None;
    }
    match statements.get(Id::at(position)) {
        Some(statement) => limit_reason(statement, result_width, operand_width),
        None => None,
    }
}

// The first flaw of the limits of the needed statements.
fn statements_limit(parts: &Parts<'_>, marks: &[bool], widths: &Widths) -> Option<WidthFlaw>
    requires marked { MarkNeeded (view_parts parts.now) marks.now }
    requires results { length widths.now.results.items ≡ length marks.now }
    requires operands { length widths.now.operands.items ≡ length marks.now }
    ensures { MatchOption result
        ((p : ℕ) → NeededIn (view_parts parts.now) p → AllByRecursion (KeepsAt (view_parts parts.now) (view_widths widths.now) (AtStatement p)) limit_reasons)
        (λ flaw. IsFirstOfClass (view_parts parts.now) (KeepsAt (view_parts parts.now) (view_widths widths.now)) limit_reasons flaw.location flaw.reason) }
{
    for position in 0..marks.len() {
        match limit_at(
            parts.statements,
            position,
            marks[position],
            widths.results[position],
            widths.operands[position],
        ) {
            Some(reason) => {
                let location = FlawLocation::Statement(Id::at(position));
                return Some(WidthFlaw { location, reason });
            }
            None => {}
        }
    }
    None
}

// The first flaw of the limits of the last lines, whose operands have this width.
pub(crate) fn lines_limit(parts: &Parts<'_>, width: u32) -> Option<WidthFlaw>
    ensures { MatchOption result
        (LinesKept width (view_parts parts.now).ending)
        (λ flaw. IsLimitFlawOfLines width (view_parts parts.now).ending flaw.location flaw.reason) }
{
    let (location, reason) = match parts.ending {
        Ending::Infer(lhs) => (
            FlawLocation::Infer,
            line_reason(&[Operand::Value(lhs.value)], &lhs.attributes, width)?,
        ),
        Ending::Result(rhs) => (FlawLocation::Result, line_reason(&[*rhs], &[], width)?),
        Ending::Cand(cand) => (
            FlawLocation::Cand,
            line_reason(&[cand.lhs, cand.rhs], &cand.attributes, width)?,
        ),
        Ending::Replaced(lhs, rhs) => {
            match line_reason(&[Operand::Value(lhs.value)], &lhs.attributes, width) {
                Some(reason) => (FlawLocation::Infer, reason),
                None => (FlawLocation::Result, line_reason(&[*rhs], &[], width)?),
            }
        }
    };
    Some(WidthFlaw { location, reason })
}

// The first flaw of the limits of an item with these widths.
pub(crate) fn limit_flaw(parts: &Parts<'_>, marks: &[bool], widths: &Widths) -> Option<WidthFlaw>
    requires marked { MarkNeeded (view_parts parts.now) marks.now }
    requires results { length widths.now.results.items ≡ length marks.now }
    requires operands { length widths.now.operands.items ≡ length marks.now }
    ensures { MatchOption result
        (KeepsLimits (view_parts parts.now) (view_widths widths.now))
        (λ flaw. IsFirstOfClass (view_parts parts.now) (KeepsAt (view_parts parts.now) (view_widths widths.now)) limit_reasons flaw.location flaw.reason) }
{
    match statements_limit(parts, marks, widths) {
        Some(flaw) => Some(flaw),
        None => lines_limit(parts, widths.root),
    }
}
