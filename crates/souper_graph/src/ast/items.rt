//! Whole values: left-hand sides, right-hand sides and replacements.

use crate::ast::arenas::Arena;
use crate::ast::attributes::RootAttribute;
use crate::ast::ids::ValueId;
use crate::ast::operands::Operand;
use crate::ast::statements::Statement;

/// An optimization: the pattern that it looks for, and the result that may replace it.
#[derive(Debug, Drop)]
pub enum Replacement {
    /// A left-hand side and the result that replaces it.
    LhsRhs {
        /// The statements of both graphs.
        statements: Arena<Statement>,

        /// The value that is replaced.
        lhs: Infer,

        /// What replaces it.
        rhs: Operand,
    },

    /// Two operands over one graph, of which the second may replace the first.
    Cand {
        /// The statements of the graph.
        statements: Arena<Statement>,

        /// The two operands.
        cand: Cand,
    },
}

/// Two operands of which the second may replace the first.
#[derive(Debug, Drop)]
pub struct Cand {
    /// The operand that is replaced.
    pub lhs: Operand,

    /// The operand that replaces it.
    pub rhs: Operand,

    /// The known facts about the replaced operand, in the order in which they are written.
    pub attributes: Vec<RootAttribute>,
}

/// A left-hand side: what an optimization looks for.
#[derive(Debug, Drop)]
pub struct LeftHandSide {
    /// The statements of its graph.
    pub statements: Arena<Statement>,

    /// The value that is to be replaced.
    pub infer: Infer,
}

/// The root of a left-hand side.
#[derive(Debug, Drop)]
pub struct Infer {
    /// The value that is to be replaced.
    pub value: ValueId,

    /// The known facts about that value, in the order in which they are written.
    pub attributes: Vec<RootAttribute>,
}

/// A right-hand side: what may replace a left-hand side.
#[derive(Debug, Drop)]
pub struct RightHandSide {
    /// The statements of its graph.
    pub statements: Arena<Statement>,

    /// The operand that replaces the left-hand side.
    pub result: Operand,
}
