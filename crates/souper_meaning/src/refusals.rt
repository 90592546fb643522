//! Typed items that are not evaluated.

ghost use Rattle.std.specs.Prelude.{◌≡◌, ◌↔◌, map, length, slice_get, IsTrue, MatchOption};
ghost use Rattle.souper_graph.specs.View.{view_rhs, view_statement};
ghost use Rattle.souper_graph.specs.PartsView.{view_parts};
ghost use Rattle.souper_widths.specs.View.{view_widths};
ghost use Rattle.souper_widths.specs.Nodes.{MarkNeeded};
ghost use Rattle.souper_meaning.specs.Evaluable.{HasMeaningAt, AreNarrow, IsNarrowAt, HoldsNeeded, IsEvaluable};
ghost use Rattle.souper_meaning.specs.Sound.{IsHoleRhs, IsHole, HasNoHole};
ghost use Rattle.souper_meaning.specs.Plans.{IsFirstWithout, IsRefusal};

use crate::plans::PlanError;
use souper_graph::ast::{Arena, AssignmentRhs, Id, Instruction, Parts, Statement};
use souper_widths::Widths;

/// Whether the right side is a hole.
fn is_hole_rhs(rhs: &AssignmentRhs) -> bool
    ensures { IsTrue result ↔ IsHoleRhs (view_rhs rhs.now) }
{
    match rhs {
        AssignmentRhs::Instruction(instruction) => match instruction {
            Instruction::Hole => true,
            _ => false,
        },
        _ => false,
    }
}

/// Whether the statement is a hole.
fn is_hole(statement: &Statement) -> bool
    ensures { IsTrue result ↔ IsHole (Some (view_statement statement.now)) }
{
    match statement {
        Statement::Assignment(assignment) => is_hole_rhs(&assignment.value),
        Statement::Pc(_) | Statement::BlockPc(_) => false,
    }
}

/// Whether the statement at a position is a hole that is needed.
fn is_hole_at(statements: &Arena<Statement>, position: usize, is_needed: bool) -> bool
    ensures { IsTrue result ↔ IsTrue is_needed × IsHole (slice_get (map view_statement statements.now) position) }
{
    if !is_needed {
        return false;
    }
    match statements.get(Id::at(position)) {
        Some(statement) => is_hole(statement),
        None => false,
    }
}

/// The first hole among the needed statements.
fn first_hole(parts: &Parts<'_>, marks: &[bool]) -> Option<Id<Statement>>
    requires { MarkNeeded (view_parts parts.now) marks.now }
    ensures { MatchOption result (HasNoHole (view_parts parts.now)) (λ id. IsFirstWithout (view_parts parts.now) (HasMeaningAt (view_parts parts.now)) id) }
{
    for position in 0..marks.len() {
        let is_hole = is_hole_at(parts.statements, position, marks[position]);
        if is_hole {
            return Some(Id::at(position));
        }
    }
    None
}

/// Whether these widths have 128 bits at most, if the statement is needed.
fn are_narrow(is_needed: bool, result_width: u32, operand_width: u32) -> bool
    ensures { IsTrue result ↔ (IsTrue is_needed → AreNarrow result_width operand_width) }
{
    if !is_needed {
        return true;
    }
    result_width <= 128 && operand_width <= 128
}

/// The first needed statement of more than 128 bits.
fn first_wide(parts: &Parts<'_>, marks: &[bool], widths: &Widths) -> Option<Id<Statement>>
    requires marked { MarkNeeded (view_parts parts.now) marks.now }
    requires results { length widths.now.results.items ≡ length marks.now }
    requires operands { length widths.now.operands.items ≡ length marks.now }
    ensures { MatchOption result (HoldsNeeded (view_parts parts.now) (IsNarrowAt (view_widths widths.now))) (λ id. IsFirstWithout (view_parts parts.now) (IsNarrowAt (view_widths widths.now)) id) }
{
    for position in 0..marks.len() {
        let is_narrow = are_narrow(
            marks[position],
            widths.results[position],
            widths.operands[position],
        );
        if !is_narrow {
            return Some(Id::at(position));
        }
    }
    None
}

/// Why the typed item is not evaluated.
pub(crate) fn refusal(parts: &Parts<'_>, marks: &[bool], widths: &Widths) -> Option<PlanError>
    requires marked { MarkNeeded (view_parts parts.now) marks.now }
    requires results { length widths.now.results.items ≡ length marks.now }
    requires operands { length widths.now.operands.items ≡ length marks.now }
    ensures { MatchOption result (IsEvaluable (view_parts parts.now) (view_widths widths.now)) (λ error. IsRefusal (view_parts parts.now) (view_widths widths.now) error) }
{
    if let Some(id) = first_hole(parts, marks) {
        return Some(PlanError::Hole(id));
    }
    if let Some(id) = first_wide(parts, marks, widths) {
        return Some(PlanError::TooWide(id));
    }
    if widths.root > 128 {
        return Some(PlanError::RootTooWide);
    }
    None
}
