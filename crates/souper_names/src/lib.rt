//! A table of names: a hash table with separate chaining, whose look-ups say how many names they compared.
//!
//! The crate `souper_ir` has the names of an item in such a table. Whoever writes a text can give its names one slot: a caller
//! that has counted too many names of one slot keeps its names elsewhere.
#![tactic(auto)]

mod hash;
mod heads;
mod table;

pub use hash::hash_of;
pub use table::{Entry, NameTable};
