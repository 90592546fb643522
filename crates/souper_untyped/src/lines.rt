//! The line of an item that has the flaw.

ghost use Rattle.std.specs.Prelude.{◌≡◌, ◌++◌, map, IfOk, OnOk};
ghost use Rattle.std.specs.String.{string_bytes};
ghost use Rattle.souper_graph.specs.View.{view_statement};
ghost use Rattle.souper_graph.specs.PartsView.{view_parts};
ghost use Rattle.souper_graph.specs.Text.{line_at};
ghost use Rattle.souper_untyped.specs.Lines.{infer_line, result_line, result_line_of, cand_line, line_of};

use souper_graph::ast::{Arena, Ending, FlawLocation, Id, Operand, Parts, Statement};
use souper_graph::stringify::{DisplayWithContext, TextError};

// The line of the statement; nothing past the end.
fn append_statement(
    statements: &Arena<Statement>,
    id: Id<Statement>,
    out: &mut String,
) -> Result<(), TextError>
    ensures { OnOk result (string_bytes out.new ≡ string_bytes out.old ++ line_at (map view_statement statements.now) id) }
{
    match statements.get(id) {
        None => Ok(()),
        Some(statement) => statement.append(statements, out),
    }
}

// The infer line, if there is one.
fn append_infer(parts: &Parts<'_>, out: &mut String) -> Result<(), TextError>
    ensures { OnOk result (string_bytes out.new ≡ string_bytes out.old ++ infer_line (view_parts parts.now)) }
{
    match parts.ending {
        Ending::Infer(infer) => infer.append(parts.statements, out),
        Ending::Replaced(infer, _) => infer.append(parts.statements, out),
        Ending::Result(_) => Ok(()),
        Ending::Cand(_) => Ok(()),
    }
}

// A result line.
fn append_operand(
    statements: &Arena<Statement>,
    operand: &Operand,
    out: &mut String,
) -> Result<(), TextError>
    ensures { OnOk result (string_bytes out.new ≡ string_bytes out.old ++ result_line (map view_statement statements.now) operand.now) }
{
    out.push_str("result ")?;
    operand.append(statements, out)?;
    out.push_str("\n")?;
    Ok(())
}

// The result line, if there is one.
fn append_result(parts: &Parts<'_>, out: &mut String) -> Result<(), TextError>
    ensures { OnOk result (string_bytes out.new ≡ string_bytes out.old ++ result_line_of (view_parts parts.now)) }
{
    match parts.ending {
        Ending::Result(operand) => append_operand(parts.statements, operand, out),
        Ending::Replaced(_, operand) => append_operand(parts.statements, operand, out),
        Ending::Infer(_) => Ok(()),
        Ending::Cand(_) => Ok(()),
    }
}

// The cand line, if there is one.
fn append_cand(parts: &Parts<'_>, out: &mut String) -> Result<(), TextError>
    ensures { OnOk result (string_bytes out.new ≡ string_bytes out.old ++ cand_line (view_parts parts.now)) }
{
    match parts.ending {
        Ending::Cand(cand) => cand.append(parts.statements, out),
        Ending::Infer(_) => Ok(()),
        Ending::Result(_) => Ok(()),
        Ending::Replaced(_, _) => Ok(()),
    }
}

/// The line at the location, with its newline, as the canonical text has it; nothing if the item has no such line.
pub(crate) fn line(parts: &Parts<'_>, location: FlawLocation) -> Result<String, TextError>
    ensures { IfOk result (λ text. string_bytes text ≡ line_of (view_parts parts.now) location) }
{
    let mut text = String::new(parts.statements.allocator());
    match location {
        FlawLocation::Statement(id) => append_statement(parts.statements, id, &mut text)?,
        FlawLocation::Infer => append_infer(parts, &mut text)?,
        FlawLocation::Result => append_result(parts, &mut text)?,
        FlawLocation::Cand => append_cand(parts, &mut text)?,
    }
    Ok(text)
}
