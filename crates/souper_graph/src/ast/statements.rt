//! Statements: assignments and path conditions.

ghost use Rattle.std.specs.Prelude.{◌≡◌};
ghost use Rattle.souper_graph.specs.declared.ast.statements.Statement.TheVariants.{Assignment as assignment_variant, Pc as pc_variant, BlockPc as block_pc_variant};
ghost use Rattle.souper_graph.specs.declared.ast.statements.AssignmentRhs.TheVariants.{Block as block_variant, Phi as phi_variant, Instruction as instruction_variant};

use crate::ast::attributes::Attribute;
use crate::ast::ids::BlockId;
use crate::ast::instructions::Instruction;
use crate::ast::operands::{Operand, Type};

/// A statement of a graph.
#[derive(Debug, Drop)]
pub enum Statement {
    /// The definition of a value.
    Assignment(Assignment),

    /// A path condition.
    Pc(Pc),

    /// A path condition on one predecessor of a block.
    BlockPc(BlockPc),
}

impl From<Assignment> for Statement {
    ghost from_gives = { λ assignment statement. statement ≡ assignment_variant assignment };

    fn from(assignment: Assignment) -> Self {
        Statement::Assignment(assignment)
    }
}

impl From<Pc> for Statement {
    ghost from_gives = { λ pc statement. statement ≡ pc_variant pc };

    fn from(pc: Pc) -> Self {
        Statement::Pc(pc)
    }
}

impl From<BlockPc> for Statement {
    ghost from_gives = { λ block_pc statement. statement ≡ block_pc_variant block_pc };

    fn from(block_pc: BlockPc) -> Self {
        Statement::BlockPc(block_pc)
    }
}

/// The definition of a value.
#[derive(Debug, Drop)]
pub struct Assignment {
    /// The name of the value, with its `%`.
    pub name: String,

    /// The type that is written after the name, if any.
    pub ty: Option<Type>,

    /// What the value is.
    pub value: AssignmentRhs,

    /// The known facts about the value, in the order in which they are written.
    pub attributes: Vec<Attribute>,
}

/// What a value is: the right side of its assignment.
#[derive(Debug, Drop)]
pub enum AssignmentRhs {
    /// An input variable: any value.
    Var,

    /// A basic block of the control flow.
    Block(Block),

    /// A value that is chosen by the predecessor from which control enters a block.
    Phi(Phi),

    /// A placeholder for an instruction that is not known yet.
    ReservedInst,

    /// A placeholder for a constant that is not known yet.
    ReservedConst,

    /// The result of an instruction.
    Instruction(Instruction),
}

impl From<Block> for AssignmentRhs {
    ghost from_gives = { λ block rhs. rhs ≡ block_variant block };

    fn from(block: Block) -> Self {
        AssignmentRhs::Block(block)
    }
}

impl From<Phi> for AssignmentRhs {
    ghost from_gives = { λ phi rhs. rhs ≡ phi_variant phi };

    fn from(phi: Phi) -> Self {
        AssignmentRhs::Phi(phi)
    }
}

impl From<Instruction> for AssignmentRhs {
    ghost from_gives = { λ instruction rhs. rhs ≡ instruction_variant instruction };

    fn from(instruction: Instruction) -> Self {
        AssignmentRhs::Instruction(instruction)
    }
}

/// An input variable with the known facts about it.
///
/// No other node has it: an input variable is [`AssignmentRhs::Var`], and its attributes are the assignment's.
#[derive(Debug, Drop)]
pub struct Var {
    /// The known facts about the variable.
    pub attributes: Vec<Attribute>,
}

/// A basic block of the control flow.
#[derive(Clone, Copy, Debug, PartialEq, Eq)]
pub struct Block {
    /// The block's number of predecessors.
    pub predecessors: u32,
}

/// A value that is chosen by the predecessor from which control enters a block.
///
/// Two phis of one block choose alike: if control comes from the block's second predecessor, each has its second value.
/// In a text a phi has one value per predecessor of its block.
#[derive(Debug, Drop)]
pub struct Phi {
    /// The block of the phi.
    pub block: BlockId,

    /// The value for each predecessor of the block, in order.
    pub values: Vec<Operand>,
}

/// A path condition: the item is about runs in which `x` equals `y`.
#[derive(Clone, Copy, Debug, PartialEq, Eq)]
pub struct Pc {
    /// What equals `y`.
    pub x: Operand,

    /// What equals `x`.
    pub y: Operand,
}

/// A path condition on one predecessor of a block: `x` equals `y` if control comes from it.
#[derive(Clone, Copy, Debug, PartialEq, Eq)]
pub struct BlockPc {
    /// The block.
    pub block: BlockId,

    /// Which predecessor of the block, counted from 0.
    pub predecessor: u32,

    /// What equals `y` then.
    pub x: Operand,

    /// What equals `x` then.
    pub y: Operand,
}
