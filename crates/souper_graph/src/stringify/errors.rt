//! Why an item or a node has no text.

ghost use Rattle.std.specs.Prelude.{◌≡◌, ◌++◌, codes, decimal};
ghost use Rattle.std.specs.Fmt.{WritesOnOk, WritesStyledOnOk};
ghost use Rattle.souper_graph.specs.declared.stringify.errors.TextError.TheVariants.{OutOfMemory};

use crate::ast::{Id, Statement};
use crate::stringify::numbers::write_number;
use std::alloc::{AllocError, AllocFailed};
use std::error::Error;
use std::fmt;

/// Why an item has no text.
#[derive(Clone, Copy, Debug, PartialEq, Eq)]
pub enum TextError {
    /// The id is at or past the arena's length.
    OutOfRange(Id<Statement>),

    /// The id of a value is in range, and names no assignment.
    NotAnAssignment(Id<Statement>),

    /// The id of a block is in range, and names no assignment of a block.
    NotABlock(Id<Statement>),

    /// An allocation failed.
    OutOfMemory,
}

// `statement id 3` and its fault.
#[tactic(auto, using(crate::proofs::Texts::Styled::styled_three))]
fn write_fault<W: fmt::Write>(
    id: Id<Statement>,
    fault: &str,
    f: &mut fmt::Formatter<W>,
) -> fmt::Result
    ensures writes { WritesOnOk W.write_str_gives f.old result (codes "statement id " ++ (decimal id ++ fault.now)) f.new }
    ensures styled { WritesStyledOnOk W.write_str_gives f.old result (codes "statement id " ++ (decimal id ++ fault.now)) f.new }
{
    f.write_str("statement id ")?;
    write_number(id.index(), f)?;
    f.write_str(fault)
}

impl fmt::Display for TextError {
    ghost use Rattle.std.specs.Prelude.{Some};
    ghost use Rattle.souper_graph.specs.Faults.{text_of_error};

    ghost output = { λ error. Some (text_of_error error) };

    ghost styled_output = { λ error _. Some (text_of_error error) };

    fn fmt<W: fmt::Write>(&self, f: &mut fmt::Formatter<W>) -> fmt::Result {
        match *self {
            TextError::OutOfRange(id) => write_fault(id, " is out of range", f),
            TextError::NotAnAssignment(id) => write_fault(id, " is not an assignment", f),
            TextError::NotABlock(id) => write_fault(id, " is not a block", f),
            TextError::OutOfMemory => f.write_str("out of memory"),
        }
    }
}

impl Error for TextError {}

impl From<AllocError> for TextError {
    ghost from_gives = { λ _ error. error ≡ OutOfMemory };

    fn from(_refused: AllocError) -> TextError {
        TextError::OutOfMemory
    }
}

impl<T: Drop> From<AllocFailed<T>> for TextError {
    ghost from_gives = { λ _ error. error ≡ OutOfMemory };

    fn from(_refused: AllocFailed<T>) -> TextError {
        TextError::OutOfMemory
    }
}
