//! Why an item is not well formed.

use crate::ast::ids::Id;
use crate::ast::statements::Statement;

/// Where an item is not well formed, and why: its first flaw.
///
/// It is the first in the order of the statements, and then of the last lines. Statements that the item does not need
/// are not checked. At one location it is the first of the reasons in the order in which [`FlawReason`] has them.
#[derive(Clone, Copy, Debug, PartialEq, Eq)]
pub struct Flaw {
    /// The statement or the last line that has the flaw.
    pub location: FlawLocation,

    /// The condition that fails there.
    pub reason: FlawReason,
}

/// A statement or a last line of an item.
#[derive(Clone, Copy, Debug, PartialEq, Eq)]
pub enum FlawLocation {
    /// The statement at this position.
    Statement(Id<Statement>),

    /// The infer line.
    Infer,

    /// The result line.
    Result,

    /// The cand line.
    Cand,
}

/// Which condition of a well-formed item fails.
#[derive(Clone, Copy, Debug, PartialEq, Eq)]
pub enum FlawReason {
    /// The name is not `%` and one or more letters, digits, `_` or `.`.
    InvalidName,

    /// The list of bits of an attribute is empty.
    EmptyBits,

    /// A width is 0: of the type of the assignment, or of a constant.
    ZeroWidth,

    /// An operand or the block is not a statement before this one.
    UseBeforeDefinition,

    /// An operand is the id of a statement that is no assignment; in a last line also an id at or past the arena's
    /// length.
    NotAnAssignment,

    /// What is used as a block is no assignment of a block.
    NotABlock,

    /// The number of values of a phi is not the number of predecessors of its block.
    ValueCount,

    /// A condition on a predecessor of a block has a number that is not below the block's number of predecessors.
    PredecessorOutOfRange,

    /// An earlier assignment that the item needs has the same name.
    DuplicateName,
}
