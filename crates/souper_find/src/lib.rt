//! What a store of replacements answers for streams of left-hand sides.
//!
//! [`search::Search`] and [`keyed::Keying`] make the rows of `rows_run` of `souper_records`; [`run`] fills a store.
#![tactic(auto)]

mod hints;
pub mod keyed;
pub mod run;
pub mod search;
mod texts;
