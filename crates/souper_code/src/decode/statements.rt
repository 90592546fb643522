//! Statements.

ghost use Rattle.std.specs.Prelude.{◌≡◌, ◌++◌, ◌∷◌, [], ℕ, List, map, IfOk, OnOk};
ghost use Rattle.std.specs.String.{string_bytes};
ghost use Rattle.souper_graph.specs.Values.{PlainPhi, PlainRhs, PlainAssignment, PlainStatement, phi, block_condition};
ghost use Rattle.souper_graph.specs.View.{view_phi, view_rhs, view_assignment, view_statement};
ghost use Rattle.souper_code.specs.Codes.{code_of_list, code_of_phi, code_of_rhs, code_of_name, code_of_assignment, code_of_condition, code_of_block_condition, code_of_statement};
ghost use Rattle.souper_code.specs.Codable.{CodablePhi, CodableRhs, CodableName, CodableAssignment, CodableCondition, CodableBlockCondition, CodableStatement, CodableList};
ghost use Rattle.souper_graph.specs.declared.ast.statements.Pc.{Pc as PcNode};
ghost use Rattle.souper_graph.specs.declared.ast.statements.BlockPc.{BlockPc as BlockPcNode};
ghost use Rattle.souper_code.specs.Reading.{Decodes};

use crate::decode::{DecodeError, Reader};
use souper_graph::ast::{Arena, Assignment, AssignmentRhs, Block, BlockPc, Id, Pc, Phi, Statement};
use std::alloc::Global;
use std::str;

// The length of the shortest code of a statement, in bytes.
const SHORTEST: usize = 19;

impl Reader<'_> {
    fn phi(&mut self, alloc: Global) -> Result<Phi, DecodeError>
        ensures read { IfOk result (λ p. CodablePhi (view_phi p) × (self.old.rest.now ≡ code_of_phi (view_phi p) ++ self.new.rest.now)) }
        ensures only { (x : PlainPhi) (rest : List ℕ) → CodablePhi x → self.old.rest.now ≡ code_of_phi x ++ rest → Decodes result (λ p. view_phi p ≡ x) self.new.rest.now rest }
    {
        let block: Id<Statement> = Id::at(self.size()?);
        let values = self.operands(alloc)?;
        Ok(Phi {
            block: block.into(),
            values,
        })
    }

    fn rhs(&mut self, alloc: Global) -> Result<AssignmentRhs, DecodeError>
        ensures read { IfOk result (λ r. CodableRhs (view_rhs r) × (self.old.rest.now ≡ code_of_rhs (view_rhs r) ++ self.new.rest.now)) }
        ensures only { (x : PlainRhs) (rest : List ℕ) → CodableRhs x → self.old.rest.now ≡ code_of_rhs x ++ rest → Decodes result (λ r. view_rhs r ≡ x) self.new.rest.now rest }
    {
        match self.byte()? {
            0 => Ok(AssignmentRhs::Var),
            1 => Ok(AssignmentRhs::Block(Block {
                predecessors: self.u32()?,
            })),
            2 => Ok(AssignmentRhs::Phi(self.phi(alloc)?)),
            3 => Ok(AssignmentRhs::ReservedInst),
            4 => Ok(AssignmentRhs::ReservedConst),
            5 => Ok(AssignmentRhs::Instruction(self.instruction()?)),
            _ => Err(DecodeError::NoCode),
        }
    }

    fn name(&mut self, alloc: Global) -> Result<String, DecodeError>
        ensures read { IfOk result (λ name. CodableName (string_bytes name) × (self.old.rest.now ≡ code_of_name (string_bytes name) ++ self.new.rest.now)) }
        ensures only { (x : List ℕ) (rest : List ℕ) → CodableName x → self.old.rest.now ≡ code_of_name x ++ rest → Decodes result (λ name. string_bytes name ≡ x) self.new.rest.now rest }
    {
        let count = self.size()?;
        if self.rest.len() < count {
            return Err(DecodeError::NoCode);
        }
        let (bytes, rest) = self.rest.split_at(count);
        self.rest = rest;
        match str::from_utf8(bytes) {
            Ok(name) => Ok(String::from_str(alloc, name)?),
            Err(_) => Err(DecodeError::NoCode),
        }
    }

    fn assignment(&mut self, alloc: Global) -> Result<Assignment, DecodeError>
        ensures read { IfOk result (λ a. CodableAssignment (view_assignment a) × (self.old.rest.now ≡ code_of_assignment (view_assignment a) ++ self.new.rest.now)) }
        ensures only { (x : PlainAssignment) (rest : List ℕ) → CodableAssignment x → self.old.rest.now ≡ code_of_assignment x ++ rest → Decodes result (λ a. view_assignment a ≡ x) self.new.rest.now rest }
    {
        let name = self.name(alloc)?;
        let ty = self.ty()?;
        // `let value = self.rhs(alloc)?` would copy the value twice more.
        match self.rhs(alloc) {
            Ok(value) => {
                let attributes = self.attributes(alloc)?;
                Ok(Assignment {
                    name,
                    ty,
                    value,
                    attributes,
                })
            }
            Err(error) => Err(error),
        }
    }

    fn pc(&mut self) -> Result<Pc, DecodeError>
        ensures read { IfOk result (λ p. CodableCondition p × (self.old.rest.now ≡ code_of_condition p ++ self.new.rest.now)) }
        ensures only { (x : PcNode) (rest : List ℕ) → CodableCondition x → self.old.rest.now ≡ code_of_condition x ++ rest → Decodes result (λ p. p ≡ x) self.new.rest.now rest }
    {
        let x = self.operand()?;
        let y = self.operand()?;
        Ok(Pc { x, y })
    }

    fn block_pc(&mut self) -> Result<BlockPc, DecodeError>
        ensures read { IfOk result (λ p. CodableBlockCondition p × (self.old.rest.now ≡ code_of_block_condition p ++ self.new.rest.now)) }
        ensures only { (x : BlockPcNode) (rest : List ℕ) → CodableBlockCondition x → self.old.rest.now ≡ code_of_block_condition x ++ rest → Decodes result (λ p. p ≡ x) self.new.rest.now rest }
    {
        let block: Id<Statement> = Id::at(self.size()?);
        let predecessor = self.u32()?;
        let x = self.operand()?;
        let y = self.operand()?;
        Ok(BlockPc {
            block: block.into(),
            predecessor,
            x,
            y,
        })
    }

    // Reads a statement to the end of the arena.
    fn statement(
        &mut self,
        alloc: Global,
        statements: &mut Arena<Statement>,
    ) -> Result<(), DecodeError>
        ensures read { OnOk result ((s : PlainStatement) × CodableStatement s × (map view_statement statements.new ≡ map view_statement statements.old ++ (s ∷ [])) × (self.old.rest.now ≡ code_of_statement s ++ self.new.rest.now)) }
        ensures only { (x : PlainStatement) (rest : List ℕ) → CodableStatement x → self.old.rest.now ≡ code_of_statement x ++ rest → Decodes result (λ _. map view_statement statements.new ≡ map view_statement statements.old ++ (x ∷ [])) self.new.rest.now rest }
    {
        match self.byte()? {
            0 => {
                let assignment = self.assignment(alloc)?;
                statements.alloc(Statement::Assignment(assignment))?;
            }
            1 => {
                let condition = self.pc()?;
                statements.alloc(Statement::Pc(condition))?;
            }
            2 => {
                let condition = self.block_pc()?;
                statements.alloc(Statement::BlockPc(condition))?;
            }
            _ => return Err(DecodeError::NoCode),
        }
        Ok(())
    }

    pub(crate) fn statements(&mut self, alloc: Global) -> Result<Arena<Statement>, DecodeError>
        ensures read { IfOk result (λ ss. CodableList CodableStatement (map view_statement ss) × (self.old.rest.now ≡ code_of_list code_of_statement (map view_statement ss) ++ self.new.rest.now)) }
        ensures only { (xs : List PlainStatement) (rest : List ℕ) → CodableList CodableStatement xs → self.old.rest.now ≡ code_of_list code_of_statement xs ++ rest → Decodes result (λ ss. map view_statement ss ≡ xs) self.new.rest.now rest }
    {
        let count = self.size()?;
        let mut statements = Arena::new(alloc);
        // A count that is too large for the code allocates no more than the code could fill.
        statements.reserve(count.min(self.rest.len() / SHORTEST))?;
        for _ in 0..count {
            self.statement(alloc, &mut statements)?;
        }
        Ok(statements)
    }
}
