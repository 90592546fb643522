//! The first place of which the nodes do not tell all widths.

ghost use Rattle.std.specs.Prelude.{◌≡◌, ◌↔◌, ◌+◌, ◌*◌, ℕ, map, length, slice_index, IsTrue, MatchOption};
ghost use Rattle.souper_graph.specs.View.{view_statement};
ghost use Rattle.souper_graph.specs.PartsView.{view_parts};
ghost use Rattle.souper_graph.specs.Uses.{NeededIn};
ghost use Rattle.souper_graph.specs.declared.ast.flaws.FlawLocation.TheVariants.{Statement as AtStatement};
ghost use Rattle.souper_widths.specs.Lines.{IsFirstLine};
ghost use Rattle.souper_widths.specs.Nodes.{row_at, MarkNeeded};
ghost use Rattle.souper_widths.specs.Told.{ShowsResult, ShowsOperands, IsToldRow, IsTold, AllTold, IsFirstUntold};

use crate::rows::{Row, statement_row};
use souper_graph::ast::{Arena, Ending, FlawLocation, Id, Parts, Statement};

fn shows_result(row: Row) -> bool
    ensures { IsTrue result ↔ ShowsResult row }
{
    match row {
        Row::Block | Row::BadPart | Row::Condition => false,
        _ => true,
    }
}

fn shows_operands(row: Row) -> bool
    ensures { IsTrue result ↔ ShowsOperands row }
{
    match row {
        Row::Input | Row::Block | Row::BadPart => false,
        _ => true,
    }
}

// The widths that the row shows are told, of its result and of its operands.
fn is_told_row(row: Row, own: u16, operands: u16) -> bool
    ensures { IsTrue result ↔ IsToldRow row own operands }
{
    if shows_result(row) && own == 0 {
        return false;
    }
    if shows_operands(row) && operands == 0 {
        return false;
    }
    true
}

// The widths of the statement at a position are told, if it is needed.
fn is_told(statements: &Arena<Statement>, position: usize, is_needed: bool, nodes: &[u16]) -> bool
    requires { length nodes.now ≡ 2 * length statements.now + 1 }
    ensures { IsTrue result
        ↔ (IsTrue is_needed → IsToldRow (row_at (map view_statement statements.now) position) (slice_index nodes.now (2 * position)) (slice_index nodes.now (2 * position + 1))) }
{
    if !is_needed {
        return true;
    }
    match statements.get(Id::at(position)) {
        Some(statement) => {
            let row = statement_row(statement);
            is_told_row(row, nodes[2 * position], nodes[2 * position + 1])
        }
        None => true,
    }
}

// The first needed statement that is not told.
fn untold_statement(parts: &Parts<'_>, marks: &[bool], nodes: &[u16]) -> Option<usize>
    requires marked { MarkNeeded (view_parts parts.now) marks.now }
    requires size { length nodes.now ≡ 2 * length (view_parts parts.now).statements + 1 }
    ensures { MatchOption result
        ((p : ℕ) → NeededIn (view_parts parts.now) p → IsTold (view_parts parts.now) nodes.now (AtStatement p))
        (λ n. IsFirstUntold (view_parts parts.now) nodes.now (AtStatement n)) }
{
    for position in 0..marks.len() {
        if !is_told(parts.statements, position, marks[position], nodes) {
            return Some(position);
        }
    }
    None
}

fn first_line(parts: &Parts<'_>) -> FlawLocation
    ensures { IsFirstLine (view_parts parts.now).ending result }
{
    match parts.ending {
        Ending::Infer(_) | Ending::Replaced(_, _) => FlawLocation::Infer,
        Ending::Result(_) => FlawLocation::Result,
        Ending::Cand(_) => FlawLocation::Cand,
    }
}

// The first place that is not told.
pub(crate) fn first_untold(parts: &Parts<'_>, marks: &[bool], nodes: &[u16]) -> Option<FlawLocation>
    requires marked { MarkNeeded (view_parts parts.now) marks.now }
    requires size { length nodes.now ≡ 2 * length (view_parts parts.now).statements + 1 }
    ensures { MatchOption result
        (AllTold (view_parts parts.now) nodes.now)
        (λ location. IsFirstUntold (view_parts parts.now) nodes.now location) }
{
    match untold_statement(parts, marks, nodes) {
        Some(position) => Some(FlawLocation::Statement(Id::at(position))),
        None => {
            if nodes[2 * parts.statements.len()] == 0 {
                Some(first_line(parts))
            } else {
                None
            }
        }
    }
}
