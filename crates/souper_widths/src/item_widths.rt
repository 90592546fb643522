//! The widths of an item.

ghost use Rattle.std.specs.Prelude.{◌≡◌, ◌+◌, ◌*◌, map, length, slice_index, if◌then◌else◌, IfOk};
ghost use Rattle.souper_graph.specs.View.{view_statement};
ghost use Rattle.souper_graph.specs.PartsView.{view_parts};
ghost use Rattle.souper_widths.specs.Ties.{shown_result, shown_operands};
ghost use Rattle.souper_widths.specs.Nodes.{row_at, MarkNeeded};
ghost use Rattle.souper_widths.specs.Told.{AllTold, map_told};
ghost use Rattle.souper_widths.specs.View.{view_widths};

use crate::rows::{Row, statement_row};
use souper_graph::ast::{Arena, Id, Parts, Statement};
use std::alloc::{AllocError, Global};

/// The widths of an item, in bits.
///
/// Lists are by position. An entry is 0 where there is no width, and at statements that the item does not need. Widths
/// are 65535 at most, but the width of a pair, which has one bit more than its operands.
#[derive(Debug, Drop)]
pub struct Widths {
    /// The width of each statement's result. A block and a path condition have none.
    pub results: Vec<u32>,

    /// The width of each statement's operands. The condition of `select` has one bit besides, and the index of
    /// `extractvalue` has no width.
    pub operands: Vec<u32>,

    /// The width of the operands of the last lines.
    pub root: u32,
}

// The width of a result, by the width of its node.
fn result_by(row: Row, width: u16) -> u32
    ensures { result ≡ shown_result row width }
{
    match row {
        Row::Block | Row::BadPart | Row::Condition => 0,
        Row::Pair => u32::from(width) + 1,
        _ => u32::from(width),
    }
}

// The width of operands, by the width of their node.
fn operands_by(row: Row, width: u16) -> u32
    ensures { result ≡ shown_operands row width }
{
    match row {
        Row::Input | Row::Block | Row::BadPart => 0,
        Row::Number | Row::Overflow => u32::from(width) + 1,
        _ => u32::from(width),
    }
}

// The widths of the result and of the operands of the statement at a position, if it is needed.
fn widths_at(
    statements: &Arena<Statement>,
    position: usize,
    is_needed: bool,
    nodes: &[u16],
) -> (u32, u32)
    requires { length nodes.now ≡ 2 * length statements.now + 1 }
    ensures own { result.0 ≡ (if is_needed then shown_result (row_at (map view_statement statements.now) position) (slice_index nodes.now (2 * position)) else 0) }
    ensures used { result.1 ≡ (if is_needed then shown_operands (row_at (map view_statement statements.now) position) (slice_index nodes.now (2 * position + 1)) else 0) }
{
    if !is_needed {
        return (0, 0);
    }
    match statements.get(Id::at(position)) {
        Some(statement) => {
            let row = statement_row(statement);
            (
                result_by(row, nodes[2 * position]),
                operands_by(row, nodes[2 * position + 1]),
            )
        }
        None => (0, 0),
    }
}

// The widths by those of all nodes, of which each that a place shows is told.
pub(crate) fn widths_by(
    alloc: Global,
    parts: &Parts<'_>,
    marks: &[bool],
    nodes: &[u16],
) -> Result<Widths, AllocError>
    requires marked { MarkNeeded (view_parts parts.now) marks.now }
    requires size { length nodes.now ≡ 2 * length (view_parts parts.now).statements + 1 }
    requires told { AllTold (view_parts parts.now) nodes.now }
    ensures { IfOk result (λ widths. view_widths widths ≡ map_told (view_parts parts.now).statements marks.now nodes.now) }
{
    let mut results = Vec::with_capacity(alloc, marks.len())?;
    let mut operands = Vec::with_capacity(alloc, marks.len())?;
    for position in 0..marks.len() {
        let (own, used) = widths_at(parts.statements, position, marks[position], nodes);
        results.push(own)?;
        operands.push(used)?;
    }
    let root = u32::from(nodes[2 * parts.statements.len()]);
    Ok(Widths {
        results,
        operands,
        root,
    })
}
