//! Positions of statements, and of the values and blocks that they define.

ghost use Rattle.std.specs.Prelude.{◌≡◌};

use crate::ast::statements::Statement;
use std::marker::{Model, PhantomData};

/// The position of a `T` in an [`Arena`](crate::ast::Arena).
///
/// Positions count from 0. An id does not say which arena it is from.
#[derive_where(Clone, Copy, Debug, PartialEq, Eq, Hash)]
pub struct Id<T> {
    index: usize,
    of: PhantomData<T>,
}

impl<T> Model for Id<T> {
    ghost use Rattle.std.specs.Prelude.{ℕ};
    ghost use Rattle.std.specs.declared.marker.PhantomData.{PhantomData};

    ghost Value = { ℕ };

    ghost view = { λ id. id.index };

    ghost inverse = { λ n. record { index = n; of = record {} } };
}

impl<T> Id<T> {
    /// The id of a position. Whether a `T` is there is checked where the id is used.
    pub fn at(index: usize) -> Self
        ensures { result ≡ index }
    {
        Id {
            index,
            of: PhantomData,
        }
    }

    /// The position.
    pub fn index(&self) -> usize
        ensures { result ≡ self.now }
    {
        self.index
    }
}

/// The id of the value that an assignment defines.
#[derive(Clone, Copy, Debug, PartialEq, Eq, Hash)]
pub struct ValueId {
    index: usize,
}

impl Model for ValueId {
    ghost use Rattle.std.specs.Prelude.{ℕ};

    ghost Value = { ℕ };

    ghost view = { λ id. id.index };

    ghost inverse = { λ n. record { index = n } };
}

/// The id of the value of an assignment whose right side is a block.
#[derive(Clone, Copy, Debug, PartialEq, Eq, Hash)]
pub struct BlockId {
    index: usize,
}

impl Model for BlockId {
    ghost use Rattle.std.specs.Prelude.{ℕ};

    ghost Value = { ℕ };

    ghost view = { λ id. id.index };

    ghost inverse = { λ n. record { index = n } };
}

impl From<ValueId> for Id<Statement> {
    ghost from_gives = { λ value id. id ≡ value };

    fn from(id: ValueId) -> Self {
        Id::at(id.index)
    }
}

impl From<BlockId> for Id<Statement> {
    ghost from_gives = { λ block id. id ≡ block };

    fn from(id: BlockId) -> Self {
        Id::at(id.index)
    }
}

impl From<BlockId> for ValueId {
    ghost from_gives = { λ block value. value ≡ block };

    fn from(id: BlockId) -> Self {
        ValueId { index: id.index }
    }
}

/// Any position may become a value's id. Whether an assignment is there is checked where the id is used.
impl From<Id<Statement>> for ValueId {
    ghost from_gives = { λ id value. value ≡ id };

    fn from(id: Id<Statement>) -> Self {
        ValueId { index: id.index() }
    }
}

/// Any position may become a block's id. Whether a block is there is checked where the id is used.
impl From<Id<Statement>> for BlockId {
    ghost from_gives = { λ id block. block ≡ id };

    fn from(id: Id<Statement>) -> Self {
        BlockId { index: id.index() }
    }
}
