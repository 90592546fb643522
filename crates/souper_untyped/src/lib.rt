//! What is said of an item without widths: why it has none, on which line, and where a type may be missing.
//!
//! `souper_widths` finds the first flaw of an item; this crate has the words for it.
#![tactic(auto)]

mod hints;
mod lines;
mod messages;
mod says;

pub use says::FlawText;
