//! Why an item has no widths.

ghost use Rattle.std.specs.Prelude.{◌≡◌};
ghost use Rattle.souper_widths.specs.declared.flaws.WidthsError.TheVariants.{OutOfMemory};

use souper_graph::ast::{Flaw, FlawLocation};
use std::alloc::AllocError;

/// Where an item has no widths, and why: its first flaw.
///
/// Flaws are of four classes: those of the shape, from `TypedBlock` to `BadIndex`; `Conflict`; `Undetermined`; those of
/// the limits, from `NotWider` on. The first flaw is of the first class that has one. There it is at the first place, by
/// the positions of the needed statements and then the last lines, and at one place the first reason, in the order of
/// [`WidthReason`].
#[derive(Clone, Copy, Debug, PartialEq, Eq)]
pub struct WidthFlaw {
    /// The statement or the last line that has the flaw.
    pub location: FlawLocation,

    /// What is wrong there.
    pub reason: WidthReason,
}

/// Why an item has no widths.
#[derive(Clone, Copy, Debug, PartialEq, Eq)]
pub enum WidthReason {
    /// A block has a type.
    TypedBlock,

    /// A fact is about a value that is no input. Inputs are `var`, `reservedinst` and `reservedconst`; every attribute but
    /// `hasExternalUses` is a fact.
    FactOnComputed,

    /// An operand or a root is a block.
    BlockAsValue,

    /// An operand or a root is a pair, the value of a word that ends in `.with.overflow`. Only the first operand of
    /// `extractvalue` is one.
    PairAsValue,

    /// The first operand of `extractvalue` is no pair.
    NotAPair,

    /// The second operand of `extractvalue` is not the constant 0 or 1.
    BadIndex,

    /// A width has to be both of these.
    Conflict {
        /// The width of the left side of the first equation that fails.
        left: u32,

        /// The width of its right side.
        right: u32,
    },

    /// Nothing says which width it is.
    Undetermined,

    /// The result of `zext` or `sext` is not wider than its operand.
    NotWider,

    /// The result of `trunc` is not narrower than its operand.
    NotNarrower,

    /// The width of `bswap` is not a multiple of 16.
    ByteSwap,

    /// A constant does not fit its width.
    ConstantTooWide,

    /// Known bits or demanded bits are not as many as the width.
    BitCount,

    /// There are more sign bits than the width has.
    SignBits,

    /// An end of a range does not fit the width, or its ends are equal and say neither that no number is in it nor that each
    /// is.
    Range,
}

/// Why widths are not returned.
#[derive(Clone, Copy, Debug, PartialEq, Eq)]
pub enum WidthsError {
    /// The item is not well formed: its first flaw, as [`Item::flaw`](souper_graph::ast::Item::flaw) returns it.
    NotWellFormed(Flaw),

    /// The item is well formed, and has no widths: its first flaw.
    Flawed(WidthFlaw),

    /// An allocation failed.
    OutOfMemory,
}

impl From<AllocError> for WidthsError {
    ghost from_gives = { λ _ error. error ≡ OutOfMemory };

    fn from(_refused: AllocError) -> WidthsError {
        WidthsError::OutOfMemory
    }
}
