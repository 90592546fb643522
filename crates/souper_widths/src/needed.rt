//! Marks on the statements that a well-formed item needs.

ghost use Rattle.std.specs.Prelude.{◌≡◌, ◌+◌, ◌<◌, ℕ, false, map, length, replicate, IfOk};
ghost use Rattle.souper_graph.specs.View.{view_statement};
ghost use Rattle.souper_graph.specs.PartsView.{view_parts};
ghost use Rattle.souper_graph.specs.Uses.{Has, position_of, uses_of, is_condition, roots_of};
ghost use Rattle.souper_graph.specs.UsesView.{view_use};
ghost use Rattle.souper_graph.specs.WellFormed.{WellFormed};
ghost use Rattle.souper_widths.specs.Nodes.{MarkNeeded};
ghost use Rattle.souper_widths.specs.Marking.{AddsMarks, MarkFrom};

use souper_graph::ast::{Id, Operand, Parts, Statement, Use};
use std::alloc::AllocError;

fn used_position(used: Use) -> usize
    ensures { result ≡ position_of (view_use used) }
{
    match used {
        Use::Value(id) => Id::<Statement>::from(id).index(),
        Use::Block(id) => Id::<Statement>::from(id).index(),
    }
}

// Marks what the statement uses.
fn mark_used(marks: &mut [bool], statement: &Statement)
    requires { (i : ℕ) → Has (map position_of (uses_of (view_statement statement.now))) i → i < length marks.old }
    ensures { AddsMarks marks.old marks.new (map position_of (uses_of (view_statement statement.now))) }
{
    for used in statement.uses() {
        marks[used_position(used)] = true;
    }
}

// Marks the roots.
fn mark_roots(marks: &mut [bool], parts: &Parts<'_>)
    requires { (i : ℕ) → Has (map position_of (roots_of (view_parts parts.now).ending)) i → i < length marks.old }
    ensures { AddsMarks marks.old marks.new (map position_of (roots_of (view_parts parts.now).ending)) }
{
    for root in parts.roots().as_slice() {
        match root {
            Operand::Value(id) => marks[Id::<Statement>::from(*id).index()] = true,
            Operand::Constant(_) => {}
        }
    }
}

fn is_path_condition(statement: &Statement) -> bool
    ensures { result ≡ is_condition (view_statement statement.now) }
{
    match statement {
        Statement::Assignment(_) => false,
        Statement::Pc(_) | Statement::BlockPc(_) => true,
    }
}

// Marks the statement at the position, if it is a path condition, and what it uses, if it is marked then.
fn mark_at(marks: &mut [bool], parts: &Parts<'_>, position: usize)
    requires well_formed { WellFormed (view_parts parts.now) }
    requires later { MarkFrom (view_parts parts.now) (position + 1) marks.old }
    requires inside { position < length (view_parts parts.now).statements }
    ensures { MarkFrom (view_parts parts.now) position marks.new }
{
    match parts.statements.get(Id::at(position)) {
        Some(statement) => {
            if marks[position] || is_path_condition(statement) {
                marks[position] = true;
                mark_used(marks, statement);
            }
        }
        None => {}
    }
}

// Marks the needed statements. What uses a needed statement comes after it, so that one pass from the last to the first
// position finds them all.
fn mark_needed(marks: &mut [bool], parts: &Parts<'_>)
    requires well_formed { WellFormed (view_parts parts.now) }
    requires none { marks.old ≡ replicate (length (view_parts parts.now).statements) false }
    ensures { MarkNeeded (view_parts parts.now) marks.new }
{
    mark_roots(marks, parts);
    let mut position = marks.len();
    while position > 0 {
        position -= 1;
        mark_at(marks, parts, position);
    }
}

// Marks on the needed statements.
pub(crate) fn needed_marks(parts: &Parts<'_>) -> Result<Vec<bool>, AllocError>
    requires { WellFormed (view_parts parts.now) }
    ensures { IfOk result (λ marks. MarkNeeded (view_parts parts.now) marks.items) }
{
    let statements = parts.statements;
    let mut marks = vec![in statements.allocator(); false; statements.len()]?;
    mark_needed(&mut marks, parts);
    Ok(marks)
}
