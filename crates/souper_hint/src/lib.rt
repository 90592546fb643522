//! Hints for texts of Souper IR that the parser rejected: what the writer may have meant.
//!
//! Souper IR is the text format of the superoptimizer [Souper](https://github.com/google/souper), which the crate
//! `souper_ir` reads. [`hint_of`] takes such a text with its error, and gives a [`Hint`], which shows itself in one line, or none. It
//! takes linear time in the text up to the end of the item of the error, and compares a bounded number of names.
#![tactic(auto)]

mod advice;
mod beginnings;
mod headings;
mod hints;
mod marks;
mod message;
mod names;
mod operands;
mod right_sides;
mod scene;
mod slips;
mod spelling;
mod statement;
mod tokens;
mod words;

pub use advice::hint_of;
pub use hints::{Hint, LastLine, Rule};
pub use souper_errors::Kind;
