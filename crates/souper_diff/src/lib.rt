//! The difference of two texts by lines.
//!
//! [`edits::edits`] says which lines stay, which go and which come; [`unified::unified`] writes that as a unified diff, which
//! `patch` and `git apply` read. [`comparison`] finds the first line that differs, of texts that come part by part.
#![tactic(auto)]

pub mod comparison;
pub mod edits;
mod plan;
pub mod unified;
