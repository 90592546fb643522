//! The errors of parses of Souper IR: why a parse failed, where a text is at fault, and the lines that show it.
//!
//! Souper IR is the text format of the superoptimizer [Souper](https://github.com/google/souper), which the crate
//! `souper_ir` reads. It re-exports what its callers need of this crate. A reader makes a [`ReadError`], which knows an offset
//! alone; [`widen`] makes it a [`ParseError`], and [`locate`] gives that its place and its location in the source.
#![tactic(auto)]

mod error;
mod kind;
pub mod laws;
mod place;
mod read;
mod unstyled;

pub use error::{Before, ParseError, ParseErrorKind, Refusal, WithLocation};
pub use kind::Kind;
pub use place::Location;
pub use read::{ReadError, locate, widen};
