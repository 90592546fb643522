//! The ties of the last lines.

ghost use Rattle.std.specs.Prelude.{◌≡◌, ◌+◌, ◌*◌, ◌<◌, ◌^◌, length, IfErr, OnOk};
ghost use Rattle.souper_graph.specs.PartsView.{view_parts};
ghost use Rattle.souper_graph.specs.WellFormed.{WellFormed};
ghost use Rattle.souper_graph.specs.Flaws.{IsBefore, line_operands};
ghost use Rattle.souper_graph.specs.declared.ast.flaws.FlawLocation.TheVariants.{Statement as AtStatement};
ghost use Rattle.souper_widths.specs.Shape.{HasShape};
ghost use Rattle.souper_widths.specs.Places.{IsPlace};
ghost use Rattle.souper_widths.specs.Lines.{IsLine};
ghost use Rattle.souper_widths.specs.Ties.{AddsTies};
ghost use Rattle.souper_widths.specs.Forest.{AreClasses};
ghost use Rattle.souper_widths.specs.Nodes.{ties_at, ClassesOf};
ghost use Rattle.souper_widths.specs.Errors.{IsWidthsError};

use crate::equations::push_operand_ties;
use crate::flaws::{WidthFlaw, WidthReason, WidthsError};
use crate::solving::tie_all;
use crate::ties::Side;
use souper_graph::ast::{Ending, FlawLocation, Operand, Parts};

// Ties the equations of a last line. The error is a conflict.
fn tie_line(
    parts: &Parts<'_>,
    location: FlawLocation,
    operands: &[Operand],
    parents: &mut [usize],
    numbers: &mut [u16],
) -> Result<(), WidthsError>
    requires well_formed { WellFormed (view_parts parts.now) }
    requires shape { HasShape (view_parts parts.now) }
    requires line { IsLine location }
    requires place { IsPlace (view_parts parts.now) location }
    requires own { operands.now ≡ line_operands location (view_parts parts.now).ending }
    requires size { length parents.old ≡ 2 * length (view_parts parts.now).statements + 1 }
    requires fits { 2 * length (view_parts parts.now).statements < 2 ^ 64 }
    requires classes { AreClasses parents.old numbers.old }
    requires before { ClassesOf (view_parts parts.now) (λ k. IsBefore k location) parents.old numbers.old }
    ensures classes { AreClasses parents.new numbers.new }
    ensures ok { OnOk result (AddsTies parents.old numbers.old parents.new numbers.new (ties_at (view_parts parts.now) location)) }
    ensures err { IfErr result (λ error. IsWidthsError (view_parts parts.now) error) }
{
    let count = parts.statements.len();
    let mut ties = Vec::new(parts.statements.allocator());
    push_operand_ties(&mut ties, operands, Side::Node(2 * count), 0, count)?;
    match tie_all(parents, numbers, &ties) {
        Ok(()) => Ok(()),
        Err((left, right)) => {
            let reason = WidthReason::Conflict { left, right };
            Err(WidthsError::Flawed(WidthFlaw { location, reason }))
        }
    }
}

// Ties the equations of the last lines, after those of the statements. The error is the first conflict.
pub(crate) fn tie_lines(
    parts: &Parts<'_>,
    parents: &mut [usize],
    numbers: &mut [u16],
) -> Result<(), WidthsError>
    requires well_formed { WellFormed (view_parts parts.now) }
    requires shape { HasShape (view_parts parts.now) }
    requires size { length parents.old ≡ 2 * length (view_parts parts.now).statements + 1 }
    requires fits { 2 * length (view_parts parts.now).statements < 2 ^ 64 }
    requires classes { AreClasses parents.old numbers.old }
    requires before { ClassesOf (view_parts parts.now) (λ k. IsBefore k (AtStatement (length (view_parts parts.now).statements))) parents.old numbers.old }
    ensures classes { AreClasses parents.new numbers.new }
    ensures ok { OnOk result (ClassesOf (view_parts parts.now) (λ k. Unit {0}) parents.new numbers.new) }
    ensures err { IfErr result (λ error. IsWidthsError (view_parts parts.now) error) }
{
    match parts.ending {
        Ending::Infer(lhs) => {
            let operands = [Operand::Value(lhs.value)];
            tie_line(parts, FlawLocation::Infer, &operands, parents, numbers)
        }
        Ending::Result(rhs) => {
            let operands = [*rhs];
            tie_line(parts, FlawLocation::Result, &operands, parents, numbers)
        }
        Ending::Cand(cand) => {
            let operands = [cand.lhs, cand.rhs];
            tie_line(parts, FlawLocation::Cand, &operands, parents, numbers)
        }
        Ending::Replaced(lhs, rhs) => {
            let operands = [Operand::Value(lhs.value)];
            match tie_line(parts, FlawLocation::Infer, &operands, parents, numbers) {
                Ok(()) => {
                    let operands = [*rhs];
                    tie_line(parts, FlawLocation::Result, &operands, parents, numbers)
                }
                Err(error) => Err(error),
            }
        }
    }
}
