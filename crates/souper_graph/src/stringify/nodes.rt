//! The text of each node that names statements.

ghost use Rattle.std.specs.Prelude.{◌≡◌, ◌++◌, ◌∷◌, [], List, ℕ, codes, map, OnOk, IfErr};
ghost use Rattle.std.specs.String.{string_bytes};
ghost use Rattle.souper_graph.specs.Values.{PlainStatement, phi};
ghost use Rattle.souper_graph.specs.View.{view_phi, view_rhs, view_assignment, view_statement, view_infer, view_cand};
ghost use Rattle.souper_graph.specs.Instructions.{operands_of};
ghost use Rattle.souper_graph.specs.Uses.{Use, value_use, block_use, uses_of_operand, uses_of_operands, uses_of_rhs, uses_of};
ghost use Rattle.souper_graph.specs.Text.{name_at, text_of_operand, text_of_further, text_of_instruction, text_of_phi, text_of_rhs, text_of_assignment, text_of_pc, text_of_block_pc, text_of_statement, text_of_infer, text_of_cand};
ghost use Rattle.souper_graph.specs.Faults.{IsFaultAmong};
ghost use Rattle.souper_graph.specs.WellFormed.{AreMet};

use crate::ast::{
    Arena, Assignment, AssignmentRhs, BlockId, BlockPc, Cand, Infer, Instruction, Operand,
    Operands, Pc, Phi, Statement, ValueId,
};
use crate::stringify::append::{
    append_attributes, append_constant, append_optional_type, append_root_attributes,
};
use crate::stringify::context::DisplayWithContext;
use crate::stringify::errors::TextError;
use crate::stringify::names::{name_of_block, name_of_value};

/// The name of the assignment.
impl DisplayWithContext for ValueId {
    ghost text = { λ ss id. name_at ss id };

    ghost uses = { λ id. value_use id ∷ [] };

    fn append(&self, statements: &Arena<Statement>, out: &mut String) -> Result<(), TextError> {
        out.push_str(name_of_value(statements, *self)?)?;
        Ok(())
    }
}

/// The name of the block.
impl DisplayWithContext for BlockId {
    ghost text = { λ ss id. name_at ss id };

    ghost uses = { λ id. block_use id ∷ [] };

    fn append(&self, statements: &Arena<Statement>, out: &mut String) -> Result<(), TextError> {
        out.push_str(name_of_block(statements, *self)?)?;
        Ok(())
    }
}

/// The name of the value, or the constant.
impl DisplayWithContext for Operand {
    ghost text = { λ ss operand. text_of_operand ss operand };

    ghost uses = { λ operand. uses_of_operand operand };

    fn append(&self, statements: &Arena<Statement>, out: &mut String) -> Result<(), TextError> {
        match self {
            Operand::Value(id) => id.append(statements, out),
            Operand::Constant(constant) => append_constant(constant, out),
        }
    }
}

// The operand after a space.
fn append_first(
    operand: &Operand,
    statements: &Arena<Statement>,
    out: &mut String,
) -> Result<(), TextError>
    ensures ok { OnOk result (string_bytes out.new ≡ string_bytes out.old ++ (32 ∷ text_of_operand (map view_statement statements.now) operand.now)) }
    ensures met { OnOk result (AreMet (map view_statement statements.now) (uses_of_operand operand.now)) }
    ensures refused { IfErr result (λ error. IsFaultAmong (map view_statement statements.now) (uses_of_operand operand.now) error) }
{
    out.push_str(" ")?;
    operand.append(statements, out)
}

// The operand after a comma and a space.
fn append_next(
    operand: &Operand,
    statements: &Arena<Statement>,
    out: &mut String,
) -> Result<(), TextError>
    ensures ok { OnOk result (string_bytes out.new ≡ string_bytes out.old ++ (codes ", " ++ text_of_operand (map view_statement statements.now) operand.now)) }
    ensures met { OnOk result (AreMet (map view_statement statements.now) (uses_of_operand operand.now)) }
    ensures refused { IfErr result (λ error. IsFaultAmong (map view_statement statements.now) (uses_of_operand operand.now) error) }
{
    out.push_str(", ")?;
    operand.append(statements, out)
}

// Each operand with a comma and a space before it.
fn append_further(
    operands: &[Operand],
    statements: &Arena<Statement>,
    out: &mut String,
) -> Result<(), TextError>
    ensures ok { OnOk result (string_bytes out.new ≡ string_bytes out.old ++ text_of_further (map view_statement statements.now) operands.now) }
    ensures met { OnOk result (AreMet (map view_statement statements.now) (uses_of_operands operands.now)) }
    ensures refused { IfErr result (λ error. IsFaultAmong (map view_statement statements.now) (uses_of_operands operands.now) error) }
{
    for operand in operands {
        append_next(operand, statements, out)?;
    }
    Ok(())
}

/// The word and the operands, as `add %0, 1:i8`.
impl DisplayWithContext for Instruction {
    ghost text = { λ ss instruction. text_of_instruction ss instruction };

    ghost uses = { λ instruction. uses_of_operands (operands_of instruction) };

    fn append(&self, statements: &Arena<Statement>, out: &mut String) -> Result<(), TextError> {
        out.push_str(self.instruction_name())?;
        match self.operands_in_place() {
            Operands::Zero => Ok(()),
            Operands::One(a) => append_first(a, statements, out),
            Operands::Two(a, b) => {
                append_first(a, statements, out)?;
                append_next(b, statements, out)
            }
            Operands::Three(a, b, c) => {
                append_first(a, statements, out)?;
                append_next(b, statements, out)?;
                append_next(c, statements, out)
            }
        }
    }
}

/// The word, the block and the values, as `phi %0, %1, 2:i8`.
impl DisplayWithContext for Phi {
    ghost text = { λ ss node. text_of_phi ss (view_phi node) };

    ghost uses = { λ node. uses_of_rhs (phi (view_phi node)) };

    fn append(&self, statements: &Arena<Statement>, out: &mut String) -> Result<(), TextError> {
        out.push_str("phi ")?;
        self.block.append(statements, out)?;
        append_further(&self.values, statements, out)
    }
}

/// The text after the `=`, as `var` or `add %0, 1:i8`.
impl DisplayWithContext for AssignmentRhs {
    ghost text = { λ ss rhs. text_of_rhs ss (view_rhs rhs) };

    ghost uses = { λ rhs. uses_of_rhs (view_rhs rhs) };

    fn append(&self, statements: &Arena<Statement>, out: &mut String) -> Result<(), TextError> {
        match self {
            AssignmentRhs::Var => {
                out.push_str("var")?;
                Ok(())
            }
            AssignmentRhs::Block(block) => {
                write!(out, "{block}")?;
                Ok(())
            }
            AssignmentRhs::Phi(phi) => phi.append(statements, out),
            AssignmentRhs::ReservedInst => {
                out.push_str("reservedinst")?;
                Ok(())
            }
            AssignmentRhs::ReservedConst => {
                out.push_str("reservedconst")?;
                Ok(())
            }
            AssignmentRhs::Instruction(instruction) => instruction.append(statements, out),
        }
    }
}

/// The name, the type, the right side and the attributes, as `%1:i8 = add %0, 1:i8 (nonZero)`.
impl DisplayWithContext for Assignment {
    ghost text = { λ ss assignment. text_of_assignment ss (view_assignment assignment) };

    ghost uses = { λ assignment. uses_of_rhs (view_rhs assignment.value) };

    fn append(&self, statements: &Arena<Statement>, out: &mut String) -> Result<(), TextError> {
        out.push_str(&self.name)?;
        append_optional_type(self.ty, out)?;
        out.push_str(" = ")?;
        self.value.append(statements, out)?;
        append_attributes(&self.attributes, out)
    }
}

/// The word and the two operands, as `pc %0 1:i1`.
impl DisplayWithContext for Pc {
    ghost text = { λ ss pc. text_of_pc ss pc };

    ghost uses = { λ pc. uses_of_operand pc.x ++ uses_of_operand pc.y };

    fn append(&self, statements: &Arena<Statement>, out: &mut String) -> Result<(), TextError> {
        out.push_str("pc ")?;
        self.x.append(statements, out)?;
        out.push_str(" ")?;
        self.y.append(statements, out)
    }
}

/// The word, the block, the predecessor and the two operands, as `blockpc %0 1 %2 1:i1`.
impl DisplayWithContext for BlockPc {
    ghost text = { λ ss pc. text_of_block_pc ss pc };

    ghost uses = { λ pc. block_use pc.block ∷ (uses_of_operand pc.x ++ uses_of_operand pc.y) };

    fn append(&self, statements: &Arena<Statement>, out: &mut String) -> Result<(), TextError> {
        let predecessor = self.predecessor;
        out.push_str("blockpc ")?;
        self.block.append(statements, out)?;
        write!(out, " {predecessor} ")?;
        self.x.append(statements, out)?;
        out.push_str(" ")?;
        self.y.append(statements, out)
    }
}

/// The line of the statement, with its newline.
impl DisplayWithContext for Statement {
    ghost text = { λ ss statement. text_of_statement ss (view_statement statement) };

    ghost uses = { λ statement. uses_of (view_statement statement) };

    fn append(&self, statements: &Arena<Statement>, out: &mut String) -> Result<(), TextError> {
        match self {
            Statement::Assignment(assignment) => assignment.append(statements, out)?,
            Statement::Pc(pc) => pc.append(statements, out)?,
            Statement::BlockPc(block_pc) => block_pc.append(statements, out)?,
        }
        out.push_str("\n")?;
        Ok(())
    }
}

/// The line with the value and its attributes, as `infer %0 (harvestedFromUse)`, with its newline.
impl DisplayWithContext for Infer {
    ghost text = { λ ss infer. text_of_infer ss (view_infer infer) };

    ghost uses = { λ infer. value_use infer.value ∷ [] };

    fn append(&self, statements: &Arena<Statement>, out: &mut String) -> Result<(), TextError> {
        out.push_str("infer ")?;
        self.value.append(statements, out)?;
        append_root_attributes(&self.attributes, out)?;
        out.push_str("\n")?;
        Ok(())
    }
}

/// The line with the two operands and the attributes, as `cand %0 1:i8`, with its newline.
impl DisplayWithContext for Cand {
    ghost text = { λ ss cand. text_of_cand ss (view_cand cand) };

    ghost uses = { λ cand. uses_of_operand cand.lhs ++ uses_of_operand cand.rhs };

    fn append(&self, statements: &Arena<Statement>, out: &mut String) -> Result<(), TextError> {
        out.push_str("cand ")?;
        self.lhs.append(statements, out)?;
        out.push_str(" ")?;
        self.rhs.append(statements, out)?;
        append_root_attributes(&self.attributes, out)?;
        out.push_str("\n")?;
        Ok(())
    }
}
