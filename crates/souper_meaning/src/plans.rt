//! Plans: what evaluation needs of an item, worked out once.

ghost use Rattle.std.specs.Prelude.{◌≡◌};
ghost use Rattle.souper_widths.specs.declared.flaws.WidthsError.TheVariants.{OutOfMemory};
ghost use Rattle.souper_meaning.specs.declared.plans.PlanError.TheVariants.{Untyped};

use souper_graph::ast::{Id, Statement};
use souper_widths::{Widths, WidthsError};
use std::alloc::AllocError;

/// What evaluation needs of an item besides its statements.
///
/// A plan is for the item that it was made of, as long as that is unchanged.
#[derive(Debug, Drop)]
pub struct Plan {
    /// Which statements the item needs, by position.
    pub needed: Vec<bool>,

    /// The widths of its statements.
    pub widths: Widths,
}

/// Why an item is not evaluated.
#[derive(Clone, Copy, Debug, PartialEq, Eq)]
pub enum PlanError {
    /// The item has no widths, or an allocation failed.
    Untyped(WidthsError),

    /// It needs a hole, which has no meaning: the first one.
    Hole(Id<Statement>),

    /// It needs no hole, and the result or the operands of this statement have more than 128 bits. No earlier ones have.
    TooWide(Id<Statement>),

    /// Only the operands of the last lines have more than 128 bits.
    RootTooWide,
}

impl From<AllocError> for PlanError {
    ghost from_gives = { λ _ error. error ≡ Untyped OutOfMemory };

    fn from(_refused: AllocError) -> PlanError {
        PlanError::Untyped(WidthsError::OutOfMemory)
    }
}

impl From<WidthsError> for PlanError {
    ghost from_gives = { λ refused error. error ≡ Untyped refused };

    fn from(refused: WidthsError) -> PlanError {
        PlanError::Untyped(refused)
    }
}
