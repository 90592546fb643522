//! What a statement uses: values as operands, and blocks.

ghost use Rattle.std.specs.Prelude.{◌≡◌, ◌++◌};
ghost use Rattle.std.specs.Iterator.{YieldsFirst, YieldsFirstBy, item_count};
ghost use Rattle.souper_graph.specs.View.{view_rhs, view_statement};
ghost use Rattle.souper_graph.specs.Uses.{position_of, value_use, uses_of_operands, uses_of_rhs, uses_of};
ghost use Rattle.souper_graph.specs.UsesView.{view_use, operands_left, block_left};
ghost use Rattle.souper_graph.specs.Operands.{operands_seen};

use crate::ast::ids::{BlockId, Id, ValueId};
use crate::ast::instructions::Operands;
use crate::ast::operands::Operand;
use crate::ast::statements::{AssignmentRhs, Statement};
use std::marker::Model;

/// A use of a statement by another one: of its value, or of its block.
#[derive(Clone, Copy, Debug, PartialEq, Eq)]
pub enum Use {
    /// The value is an operand.
    Value(ValueId),

    /// The block is that of a phi or of a path condition.
    Block(BlockId),
}

impl Use {
    // The position of the statement that is used.
    pub(crate) fn position(self) -> Id<Statement>
        ensures { result ≡ position_of (view_use self) }
    {
        match self {
            Use::Value(id) => id.into(),
            Use::Block(id) => id.into(),
        }
    }
}

// The operands that are left: of an instruction or a path condition, and of a phi.
#[derive(Clone, Copy)]
struct OperandsLeft<'a> {
    few: Operands<'a>,
    many: &'a [Operand],
}

impl OperandsLeft<'_> {
    fn next_operand(&mut self) -> Option<Operand>
        ensures { YieldsFirst operands_left self.old result self.new }
    {
        let (first, few) = match self.few {
            Operands::Zero => {
                let (first, many) = self.many.split_first()?;
                self.many = many;
                return Some(*first);
            }
            Operands::One(a) => (*a, Operands::Zero),
            Operands::Two(a, b) => (*a, Operands::One(b)),
            Operands::Three(a, b, c) => (*a, Operands::Two(b, c)),
        };
        self.few = few;
        Some(first)
    }

    // A constant uses nothing.
    fn next_value(&mut self) -> Option<ValueId>
        ensures { YieldsFirstBy value_use (λ left. uses_of_operands (operands_left left)) self.old result self.new }
    {
        while let Some(operand) = self.next_operand() {
            if let Operand::Value(id) = operand {
                return Some(id);
            }
        }
        None
    }
}

/// The uses of a statement, one after the other, as [`Statement::uses`] returns them.
#[derive(Drop)]
pub struct Uses<'a> {
    block: Option<BlockId>,
    operands: OperandsLeft<'a>,
}

impl<'a> Model for Uses<'a> {
    ghost use Rattle.std.specs.Prelude.{List, ◌++◌};
    ghost use Rattle.souper_graph.specs.Uses.{Use as PlainUse, uses_of_operands};
    ghost use Rattle.souper_graph.specs.UsesView.{operands_left, block_left};

    ghost Value = { List PlainUse };

    ghost view = { λ uses. block_left uses.block ++ uses_of_operands (operands_left uses.operands) };
}

impl<'a> Iterator for Uses<'a> {
    type Item = Use;

    ghost next_gives = { YieldsFirstBy view_use (λ rest. rest) };

    ghost remaining = { item_count (λ rest. rest) };

    fn next(&mut self) -> Option<Use> {
        if let Some(block) = self.block.take() {
            return Some(Use::Block(block));
        }
        Some(Use::Value(self.operands.next_value()?))
    }
}

impl Statement {
    /// What the statement uses, in the order of its text, repeats kept: the block of a phi or of a path condition first, and
    /// then each operand that is a value. It does not allocate.
    pub fn uses(&self) -> Uses<'_>
        ensures { result ≡ uses_of (view_statement self.now) }
    {
        match self {
            Statement::Assignment(assignment) => assignment.value.uses(),
            Statement::Pc(pc) => uses_of_parts(None, Operands::Two(&pc.x, &pc.y), &[]),
            Statement::BlockPc(pc) => {
                uses_of_parts(Some(pc.block), Operands::Two(&pc.x, &pc.y), &[])
            }
        }
    }
}

impl AssignmentRhs {
    /// What the right side uses, as [`Statement::uses`] says.
    pub fn uses(&self) -> Uses<'_>
        ensures { result ≡ uses_of_rhs (view_rhs self.now) }
    {
        match self {
            AssignmentRhs::Phi(phi) => {
                uses_of_parts(Some(phi.block), Operands::Zero, &phi.values)
            }
            AssignmentRhs::Instruction(instruction) => {
                uses_of_parts(None, instruction.operands_in_place(), &[])
            }
            AssignmentRhs::Var
            | AssignmentRhs::Block(_)
            | AssignmentRhs::ReservedInst
            | AssignmentRhs::ReservedConst => uses_of_parts(None, Operands::Zero, &[]),
        }
    }
}

fn uses_of_parts<'a>(block: Option<BlockId>, few: Operands<'a>, many: &'a [Operand]) -> Uses<'a>
    ensures { result ≡ block_left block ++ uses_of_operands (operands_seen few.entry ++ many.now) }
{
    let operands = OperandsLeft { few, many };
    Uses { block, operands }
}
