//! Statements.

ghost use Rattle.std.specs.Prelude.{◌≡◌, ◌++◌, map, OnOk};
ghost use Rattle.souper_graph.specs.View.{view_phi, view_rhs, view_assignment, view_statement};
ghost use Rattle.souper_code.specs.Codes.{code_of_phi, code_of_rhs, code_of_name, code_of_assignment, code_of_condition, code_of_block_condition, code_of_statement, code_of_statements};

use crate::encode::attributes::encode_attributes;
use crate::encode::instructions::encode_instruction;
use crate::encode::leaves::{encode_operand, encode_operands, encode_size, encode_type};
use souper_graph::ast::{Arena, Assignment, AssignmentRhs, BlockPc, Id, Pc, Phi, Statement};
use std::alloc::AllocError;

fn encode_phi(phi: &Phi, out: &mut Vec<u8>) -> Result<(), AllocError>
    ensures { OnOk result (out.new.items ≡ out.old.items ++ code_of_phi (view_phi phi.now)) }
{
    let block: Id<Statement> = phi.block.into();
    encode_size(block.index(), out)?;
    encode_operands(&phi.values, out)
}

#[tactic(auto, unfolding(crate::specs::Codes::code_of_u32))]
fn encode_rhs(rhs: &AssignmentRhs, out: &mut Vec<u8>) -> Result<(), AllocError>
    ensures { OnOk result (out.new.items ≡ out.old.items ++ code_of_rhs (view_rhs rhs.now)) }
{
    match rhs {
        AssignmentRhs::Var => {
            out.push(0)?;
            Ok(())
        }
        AssignmentRhs::Block(block) => {
            out.push(1)?;
            out.extend_from_slice(&block.predecessors.to_le_bytes())
        }
        AssignmentRhs::Phi(phi) => {
            out.push(2)?;
            encode_phi(phi, out)
        }
        AssignmentRhs::ReservedInst => {
            out.push(3)?;
            Ok(())
        }
        AssignmentRhs::ReservedConst => {
            out.push(4)?;
            Ok(())
        }
        AssignmentRhs::Instruction(instruction) => {
            out.push(5)?;
            encode_instruction(instruction, out)
        }
    }
}

fn encode_name(name: &str, out: &mut Vec<u8>) -> Result<(), AllocError>
    ensures { OnOk result (out.new.items ≡ out.old.items ++ code_of_name name.now) }
{
    let bytes = name.as_bytes();
    encode_size(bytes.len(), out)?;
    out.extend_from_slice(bytes)
}

fn encode_assignment(assignment: &Assignment, out: &mut Vec<u8>) -> Result<(), AllocError>
    ensures { OnOk result (out.new.items ≡ out.old.items ++ code_of_assignment (view_assignment assignment.now)) }
{
    encode_name(assignment.name.as_str(), out)?;
    encode_type(assignment.ty, out)?;
    encode_rhs(&assignment.value, out)?;
    encode_attributes(&assignment.attributes, out)
}

fn encode_pc(pc: &Pc, out: &mut Vec<u8>) -> Result<(), AllocError>
    ensures { OnOk result (out.new.items ≡ out.old.items ++ code_of_condition pc.now) }
{
    encode_operand(pc.x, out)?;
    encode_operand(pc.y, out)
}

#[tactic(auto, unfolding(crate::specs::Codes::code_of_u32))]
fn encode_block_pc(pc: &BlockPc, out: &mut Vec<u8>) -> Result<(), AllocError>
    ensures { OnOk result (out.new.items ≡ out.old.items ++ code_of_block_condition pc.now) }
{
    let block: Id<Statement> = pc.block.into();
    encode_size(block.index(), out)?;
    out.extend_from_slice(&pc.predecessor.to_le_bytes())?;
    encode_operand(pc.x, out)?;
    encode_operand(pc.y, out)
}

fn encode_statement(statement: &Statement, out: &mut Vec<u8>) -> Result<(), AllocError>
    ensures { OnOk result (out.new.items ≡ out.old.items ++ code_of_statement (view_statement statement.now)) }
{
    match statement {
        Statement::Assignment(assignment) => {
            out.push(0)?;
            encode_assignment(assignment, out)
        }
        Statement::Pc(pc) => {
            out.push(1)?;
            encode_pc(pc, out)
        }
        Statement::BlockPc(pc) => {
            out.push(2)?;
            encode_block_pc(pc, out)
        }
    }
}

// About what the code of a statement takes, in bytes, if its operands are two values.
const USUAL_LEN: usize = 48;

/// Appends the number of statements, and the statements.
#[tactic(auto, using(crate::proofs::Statements::code_among_all), unfolding(crate::proofs::Statements::code_among))]
pub(crate) fn encode_statements(
    statements: &Arena<Statement>,
    out: &mut Vec<u8>,
) -> Result<(), AllocError>
    ensures { OnOk result (out.new.items ≡ out.old.items ++ code_of_statements (map view_statement statements.now)) }
{
    // Without this room the code grows as it is written.
    let _ = out.reserve(statements.len().saturating_mul(USUAL_LEN));
    encode_size(statements.len(), out)?;
    for (_, statement) in statements.iter() {
        encode_statement(statement, out)?;
    }
    Ok(())
}
