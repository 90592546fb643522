//! Whether items are well formed.

ghost use Rattle.std.specs.Prelude.{◌↔◌, IsTrue, IfOk};
ghost use Rattle.souper_graph.specs.View.{view_left_hand_side, view_right_hand_side, view_replacement};
ghost use Rattle.souper_graph.specs.WellFormed.{WellFormed};

mod apart;
mod finding;
mod fitting;
mod reasons;
mod uses;

use crate::ast::items::{LeftHandSide, Replacement, RightHandSide};
use std::alloc::AllocError;

impl LeftHandSide {
    /// Whether the item is well formed, by the conditions of [`Replacement::is_well_formed`].
    ///
    /// The error is out of memory.
    pub fn is_well_formed(&self) -> Result<bool, AllocError>
        ensures { IfOk result
            (λ answer. IsTrue answer ↔ WellFormed (view_left_hand_side self.now)) }
    {
        self.parts().is_well_formed()
    }
}

impl RightHandSide {
    /// Whether the item is well formed, by the conditions of [`Replacement::is_well_formed`].
    ///
    /// The error is out of memory.
    pub fn is_well_formed(&self) -> Result<bool, AllocError>
        ensures { IfOk result
            (λ answer. IsTrue answer ↔ WellFormed (view_right_hand_side self.now)) }
    {
        self.parts().is_well_formed()
    }
}

impl Replacement {
    /// Whether the item is well formed: it is if and only if each of these holds.
    ///
    /// - Each root is a constant or names an assignment.
    /// - In each statement that the item needs, each use is of a lower position and names an assignment, and a use of a
    ///   block names the assignment of a block.
    /// - In these a phi has one value per predecessor of its block, and a condition on a predecessor of a block names
    ///   one that the block has.
    /// - In these and in the roots widths are above 0, and lists of bits are not empty.
    /// - The name of each needed assignment is `%` and one or more letters, digits, `_` or `.`, and the names are
    ///   distinct.
    ///
    /// Statements that the item does not need are not checked. The error is out of memory.
    pub fn is_well_formed(&self) -> Result<bool, AllocError>
        ensures { IfOk result
            (λ answer. IsTrue answer ↔ WellFormed (view_replacement self.now)) }
    {
        self.parts().is_well_formed()
    }
}
