//! The meaning of the words of Souper IR on numbers: what an instruction gives for a number, for poison and for undefined
//! behaviour, at widths of up to 128 bits.
#![tactic(auto)]

mod arithmetic;
mod bits;
mod bitwise;
mod comparisons;
mod divisions;
mod eval;
pub mod laws;
mod outcome;
mod overflows;
mod shifts;
mod words;

pub use bits::signed_bits;
pub use eval::{Widths, outcome_of};
pub use outcome::Outcome;
pub use words::Word;
