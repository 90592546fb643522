//! Statements with their types.

ghost use Rattle.std.specs.Prelude.{◌≡◌, map, length};
ghost use Rattle.souper_graph.specs.View.{view_attribute, view_rhs, view_assignment, view_statement};
ghost use Rattle.souper_widths.specs.View.{view_widths};
ghost use Rattle.souper_typed.specs.Written.{written_attribute, written_rhs, written_assignment, written_with, written_from};

use crate::form::Form;
use crate::numbers::{type_of_width, write_number};
use crate::operands::{write_instruction, write_operand, write_operands};
use crate::unchanged::instruction_stays;
use souper_graph::ast::{Arena, Assignment, AssignmentRhs, Attribute, Id, Statement};
use souper_widths::Widths;

fn write_attribute(form: Form, width: u32, attribute: &mut Attribute)
    ensures { view_attribute attribute.new ≡ written_attribute form width (view_attribute attribute.old) }
{
    if let Attribute::Range(low, high) = *attribute {
        let first = write_number(form, width, low);
        let end = write_number(form, width, high);
        *attribute = Attribute::Range(first, end);
    }
}

fn write_attributes(form: Form, width: u32, attributes: &mut [Attribute])
    ensures { map view_attribute attributes.new ≡ map (written_attribute form width) (map view_attribute attributes.old) }
{
    for attribute in attributes.iter_mut() {
        write_attribute(form, width, attribute);
    }
}

fn write_rhs(form: Form, width: u32, rhs: &mut AssignmentRhs)
    ensures { view_rhs rhs.new ≡ written_rhs form width (view_rhs rhs.old) }
{
    match rhs {
        AssignmentRhs::Phi(phi) => write_operands(form, width, &mut phi.values),
        AssignmentRhs::Instruction(instruction) => {
            if !instruction_stays(form, width, instruction) {
                *instruction = write_instruction(form, width, *instruction);
            }
        }
        AssignmentRhs::Var => {}
        AssignmentRhs::Block(_) => {}
        AssignmentRhs::ReservedInst => {}
        AssignmentRhs::ReservedConst => {}
    }
}

// The assignment with a result of `result` bits and operands of `operands`.
fn write_assignment(form: Form, result_width: u32, operand_width: u32, assignment: &mut Assignment)
    ensures { view_assignment assignment.new ≡ written_assignment form result_width operand_width (view_assignment assignment.old) }
{
    assignment.ty = type_of_width(result_width);
    write_rhs(form, operand_width, &mut assignment.value);
    write_attributes(form, result_width, &mut assignment.attributes);
}

// The statement, if it has widths.
fn write_statement(form: Form, result_width: u32, operand_width: u32, statement: &mut Statement)
    ensures { view_statement statement.new ≡ written_with form result_width operand_width (view_statement statement.old) }
{
    if result_width == 0 && operand_width == 0 {
        return;
    }
    match statement {
        Statement::Assignment(assignment) => {
            write_assignment(form, result_width, operand_width, assignment);
        }
        Statement::Pc(pc) => {
            pc.x = write_operand(form, operand_width, pc.x);
            pc.y = write_operand(form, operand_width, pc.y);
        }
        Statement::BlockPc(pc) => {
            pc.x = write_operand(form, operand_width, pc.x);
            pc.y = write_operand(form, operand_width, pc.y);
        }
    }
}

// Each statement that has widths.
pub(crate) fn write_statements(form: Form, widths: &Widths, statements: &mut Arena<Statement>)
    requires results { length widths.now.results.items ≡ length statements.old }
    requires operands { length widths.now.operands.items ≡ length statements.old }
    ensures { map view_statement statements.new ≡ written_from form (view_widths widths.now) 0 (map view_statement statements.old) }
{
    for index in 0..statements.len() {
        let result_width = widths.results[index];
        let operand_width = widths.operands[index];
        if let Some(statement) = statements.get_mut(Id::at(index)) {
            write_statement(form, result_width, operand_width, statement);
        }
    }
}
