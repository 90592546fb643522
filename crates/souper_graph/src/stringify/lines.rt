//! Whole items, their statements in a given order, appended to a text. On an error a part of them may be left there.

ghost use Rattle.std.specs.Prelude.{◌≡◌, ◌++◌, ◌≤◌, length, map, flat_map, OnOk, IfErr};
ghost use Rattle.std.specs.String.{string_bytes};
ghost use Rattle.souper_graph.specs.Values.{replaced};
ghost use Rattle.souper_graph.specs.View.{view_statement, view_infer};
ghost use Rattle.souper_graph.specs.PartsView.{view_parts};
ghost use Rattle.souper_graph.specs.Uses.{uses_of_operand, uses_at, roots_of};
ghost use Rattle.souper_graph.specs.Text.{text_of_result, line_at, lines_of, text_in_order};
ghost use Rattle.souper_graph.specs.Faults.{IsFaultAmong};
ghost use Rattle.souper_graph.specs.WellFormed.{AreMet};

use crate::ast::{Arena, Ending, Id, Infer, Operand, Parts, Statement};
use crate::stringify::context::DisplayWithContext;
use crate::stringify::errors::TextError;

// The line of the statement at the position; nothing past the end.
fn append_line(
    statements: &Arena<Statement>,
    id: Id<Statement>,
    out: &mut String,
) -> Result<(), TextError>
    ensures ok { OnOk result (string_bytes out.new ≡ string_bytes out.old ++ line_at (map view_statement statements.now) id) }
    ensures met { OnOk result (AreMet (map view_statement statements.now) (uses_at (map view_statement statements.now) id)) }
    ensures refused { IfErr result (λ error. IsFaultAmong (map view_statement statements.now) (uses_at (map view_statement statements.now) id) error) }
{
    match statements.get(id) {
        None => Ok(()),
        Some(statement) => statement.append(statements, out),
    }
}

// The lines of the statements at these positions, in order; nothing for a position past the end.
pub(crate) fn append_lines(
    statements: &Arena<Statement>,
    ids: &[Id<Statement>],
    out: &mut String,
) -> Result<(), TextError>
    ensures ok { OnOk result (string_bytes out.new ≡ string_bytes out.old ++ lines_of (map view_statement statements.now) ids.now) }
    ensures met { OnOk result (AreMet (map view_statement statements.now) (flat_map (uses_at (map view_statement statements.now)) ids.now)) }
    ensures refused { IfErr result (λ error. IsFaultAmong (map view_statement statements.now) (flat_map (uses_at (map view_statement statements.now)) ids.now) error) }
{
    for id in ids {
        append_line(statements, *id, out)?;
    }
    Ok(())
}

// The result line, without a newline.
pub(crate) fn append_result(
    statements: &Arena<Statement>,
    operand: &Operand,
    out: &mut String,
) -> Result<(), TextError>
    ensures ok { OnOk result (string_bytes out.new ≡ string_bytes out.old ++ text_of_result (map view_statement statements.now) operand.now) }
    ensures met { OnOk result (AreMet (map view_statement statements.now) (uses_of_operand operand.now)) }
    ensures refused { IfErr result (λ error. IsFaultAmong (map view_statement statements.now) (uses_of_operand operand.now) error) }
{
    out.push_str("result ")?;
    operand.append(statements, out)
}

// A left-hand side and the result that replaces it.
fn append_lhs_rhs(
    statements: &Arena<Statement>,
    lhs: &Infer,
    rhs: &Operand,
    ids: &[Id<Statement>],
    lead: usize,
    out: &mut String,
) -> Result<(), TextError>
    requires { lead ≤ length ids.now }
    ensures ok { OnOk result (string_bytes out.new ≡ string_bytes out.old ++ text_in_order (map view_statement statements.now) (replaced (view_infer lhs.now) rhs.now) ids.now lead) }
    ensures met { OnOk result (AreMet (map view_statement statements.now) (roots_of (replaced (view_infer lhs.now) rhs.now) ++ flat_map (uses_at (map view_statement statements.now)) ids.now)) }
    ensures refused { IfErr result (λ error. IsFaultAmong (map view_statement statements.now) (roots_of (replaced (view_infer lhs.now) rhs.now) ++ flat_map (uses_at (map view_statement statements.now)) ids.now) error) }
{
    let (leading, following) = ids.split_at(lead);
    append_lines(statements, leading, out)?;
    lhs.append(statements, out)?;
    append_lines(statements, following, out)?;
    append_result(statements, rhs, out)?;
    out.push_str("\n")?;
    Ok(())
}

impl Parts<'_> {
    // Appends the statements at these positions and the last lines; an infer line that a result follows comes after the
    // first `lead` of the statements.
    pub(crate) fn append_in_order(
        &self,
        ids: &[Id<Statement>],
        lead: usize,
        out: &mut String,
    ) -> Result<(), TextError>
        requires { lead ≤ length ids.now }
        ensures ok { OnOk result (string_bytes out.new ≡ string_bytes out.old ++ text_in_order (view_parts self.now).statements (view_parts self.now).ending ids.now lead) }
        ensures met { OnOk result (AreMet (view_parts self.now).statements (roots_of (view_parts self.now).ending ++ flat_map (uses_at (view_parts self.now).statements) ids.now)) }
        ensures refused { IfErr result (λ error. IsFaultAmong (view_parts self.now).statements (roots_of (view_parts self.now).ending ++ flat_map (uses_at (view_parts self.now).statements) ids.now) error) }
    {
        let statements = self.statements;
        match self.ending {
            Ending::Infer(lhs) => {
                append_lines(statements, ids, out)?;
                lhs.append(statements, out)
            }
            Ending::Result(rhs) => {
                append_lines(statements, ids, out)?;
                append_result(statements, rhs, out)
            }
            Ending::Replaced(lhs, rhs) => append_lhs_rhs(statements, lhs, rhs, ids, lead, out),
            Ending::Cand(cand) => {
                append_lines(statements, ids, out)?;
                cand.append(statements, out)
            }
        }
    }
}
