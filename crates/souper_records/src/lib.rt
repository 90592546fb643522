//! Records of items: what a store of optimizations keeps and compares, made from streams that need not fit in memory.
//!
//! The program `souper_items` calls [`run`], [`rows::rows_run`] and [`check::check_run`].
#![tactic(auto)]

pub mod check;
pub mod counts;
pub mod each;
pub mod laws;
pub mod layout;
pub mod objects;
pub mod options;
pub mod output;
pub mod parts;
pub mod records;
pub mod rejected;
pub mod report;
pub mod rows;
pub mod run;
pub mod seen;
pub mod stop;
pub mod uniq;
