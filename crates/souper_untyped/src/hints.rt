//! Where a type says the width that is missing.
//!
//! At the first place whose widths nothing says, the values that it uses have widths. So the result has none, or the
//! operands are constants without a type. The result of a conversion does not say the width of its operand.

ghost use Rattle.std.specs.Prelude.{◌≡◌, map, IfOk, option_map, slice_get};
ghost use Rattle.std.specs.String.{string_bytes};
ghost use Rattle.souper_graph.specs.View.{view_statement, view_assignment};
ghost use Rattle.souper_graph.specs.PartsView.{view_parts, view_ending};
ghost use Rattle.souper_untyped.specs.Hints.{value_bits, compared, converted, given_type, with_type, first_constant, constant_hint, value_hint, operands_hint, instruction_hint, assignment_hint, statement_hint, position_hint, ending_hint, missing_hint, hint_of};

use souper_graph::ast::{
    Arena, Assignment, AssignmentRhs, Constant, Ending, FlawLocation, Id, Instruction, Operand,
    Parts, Statement, Type,
};
use souper_graph::stringify::{DisplayWithContext, TextError};
use souper_widths::{WidthFlaw, WidthReason};
use std::alloc::{AllocError, Global};

// The width of the value if its operands have 32 bits.
fn value_bits(instruction: &Instruction) -> u32
    ensures { result ≡ value_bits instruction.now }
{
    match instruction {
        Instruction::SaddWithOverflow { .. }
        | Instruction::UaddWithOverflow { .. }
        | Instruction::SsubWithOverflow { .. }
        | Instruction::UsubWithOverflow { .. }
        | Instruction::SmulWithOverflow { .. }
        | Instruction::UmulWithOverflow { .. } => 33,
        _ => 32,
    }
}

// The operands of a comparison.
fn compared(instruction: &Instruction) -> Option<(Operand, Operand)>
    ensures { result ≡ compared instruction.now }
{
    match instruction {
        Instruction::Eq { a, b } => Some((*a, *b)),
        Instruction::Ne { a, b } => Some((*a, *b)),
        Instruction::Ult { a, b } => Some((*a, *b)),
        Instruction::Slt { a, b } => Some((*a, *b)),
        Instruction::Ule { a, b } => Some((*a, *b)),
        Instruction::Sle { a, b } => Some((*a, *b)),
        _ => None,
    }
}

// The constant with a type of this width, if it has none.
fn given_type(constant: Constant, width: u16) -> Option<Constant>
    ensures { result ≡ given_type constant.value constant.ty width }
{
    match constant.ty {
        None => Some(Constant {
            value: constant.value,
            ty: Some(Type { width }),
        }),
        Some(_) => None,
    }
}

// The same of an operand.
fn with_type(operand: Operand, width: u16) -> Option<Constant>
    ensures { result ≡ with_type operand width }
{
    match operand {
        Operand::Value(_) => None,
        Operand::Constant(constant) => given_type(constant, width),
    }
}

// The constant that is converted, with a type, if it has none.
fn converted(instruction: &Instruction) -> Option<Constant>
    ensures { result ≡ converted instruction.now }
{
    match instruction {
        Instruction::Zext { a } => with_type(*a, 8),
        Instruction::Sext { a } => with_type(*a, 8),
        Instruction::Trunc { a } => with_type(*a, 64),
        _ => None,
    }
}

// The first constant without a type, with one.
fn first_constant(a: Operand, b: Operand) -> Option<Constant>
    ensures { result ≡ first_constant a b }
{
    with_type(a, 32).or(with_type(b, 32))
}

fn constant_hint(
    statements: &Arena<Statement>,
    constant: Constant,
) -> Result<Option<String>, TextError>
    ensures { IfOk result (λ hint. option_map string_bytes hint ≡ constant_hint constant) }
{
    let mut text = String::new(statements.allocator());
    text.push_str("write ")?;
    Operand::Constant(constant).append(statements, &mut text)?;
    Ok(Some(text))
}

// The name of a value with a type.
fn value_hint(alloc: Global, name: &str, bits: u32) -> Result<Option<String>, AllocError>
    ensures { IfOk result (λ hint. option_map string_bytes hint ≡ value_hint name.now bits) }
{
    Ok(Some(format!(in alloc; "write {name}:i{bits}")?))
}

fn operands_hint(
    statements: &Arena<Statement>,
    a: Operand,
    b: Operand,
) -> Result<Option<String>, TextError>
    ensures { IfOk result (λ hint. option_map string_bytes hint ≡ operands_hint a b) }
{
    match first_constant(a, b) {
        Some(constant) => constant_hint(statements, constant),
        None => Ok(None),
    }
}

// For the value of this name.
fn instruction_hint(
    statements: &Arena<Statement>,
    name: &str,
    instruction: &Instruction,
) -> Result<Option<String>, TextError>
    ensures { IfOk result (λ hint. option_map string_bytes hint ≡ instruction_hint name.now instruction.now) }
{
    match (compared(instruction), converted(instruction)) {
        (Some((a, b)), _) => operands_hint(statements, a, b),
        (None, Some(constant)) => constant_hint(statements, constant),
        (None, None) => Ok(value_hint(statements.allocator(), name, value_bits(instruction))?),
    }
}

fn assignment_hint(
    statements: &Arena<Statement>,
    assignment: &Assignment,
) -> Result<Option<String>, TextError>
    ensures { IfOk result (λ hint. option_map string_bytes hint ≡ assignment_hint (view_assignment assignment.now)) }
{
    let name = assignment.name.as_str();
    match &assignment.value {
        AssignmentRhs::Instruction(instruction) => instruction_hint(statements, name, instruction),
        AssignmentRhs::Var
        | AssignmentRhs::Block(_)
        | AssignmentRhs::Phi(_)
        | AssignmentRhs::ReservedInst
        | AssignmentRhs::ReservedConst => Ok(value_hint(statements.allocator(), name, 32)?),
    }
}

fn statement_hint(
    statements: &Arena<Statement>,
    statement: &Statement,
) -> Result<Option<String>, TextError>
    ensures { IfOk result (λ hint. option_map string_bytes hint ≡ statement_hint (view_statement statement.now)) }
{
    match statement {
        Statement::Assignment(assignment) => assignment_hint(statements, assignment),
        Statement::Pc(pc) => operands_hint(statements, pc.x, pc.y),
        Statement::BlockPc(pc) => operands_hint(statements, pc.x, pc.y),
    }
}

fn position_hint(
    statements: &Arena<Statement>,
    id: Id<Statement>,
) -> Result<Option<String>, TextError>
    ensures { IfOk result (λ hint. option_map string_bytes hint ≡ position_hint (slice_get (map view_statement statements.now) id)) }
{
    match statements.get(id) {
        Some(statement) => statement_hint(statements, statement),
        None => Ok(None),
    }
}

// The root of an infer line is a value.
fn ending_hint(
    statements: &Arena<Statement>,
    ending: Ending<'_>,
) -> Result<Option<String>, TextError>
    ensures { IfOk result (λ hint. option_map string_bytes hint ≡ ending_hint (view_ending ending.entry)) }
{
    match ending {
        Ending::Infer(_) => Ok(None),
        Ending::Result(operand) => operands_hint(statements, *operand, *operand),
        Ending::Replaced(_, operand) => operands_hint(statements, *operand, *operand),
        Ending::Cand(cand) => operands_hint(statements, cand.lhs, cand.rhs),
    }
}

// What is to be written at a location where a width is missing.
fn missing_hint(parts: &Parts<'_>, location: FlawLocation) -> Result<Option<String>, TextError>
    ensures { IfOk result (λ hint. option_map string_bytes hint ≡ missing_hint (view_parts parts.now) location) }
{
    match location {
        FlawLocation::Statement(id) => position_hint(parts.statements, id),
        FlawLocation::Infer | FlawLocation::Result | FlawLocation::Cand => {
            ending_hint(parts.statements, parts.ending)
        }
    }
}

/// What is to be written, if a width is missing: a value or a constant with a type.
pub(crate) fn hint(parts: &Parts<'_>, flaw: WidthFlaw) -> Result<Option<String>, TextError>
    ensures { IfOk result (λ hint. option_map string_bytes hint ≡ hint_of (view_parts parts.now) flaw) }
{
    match flaw.reason {
        WidthReason::Undetermined => missing_hint(parts, flaw.location),
        _ => Ok(None),
    }
}
