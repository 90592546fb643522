//! The functions of the formatter: it reads items of Souper IR and writes the canonical text of each.
//!
//! Souper IR is the text format of the superoptimizer [Souper](https://github.com/google/souper), which the crate
//! `souper_ir` reads. The program `souper_fmt` calls [`dispatch::run_command`]. For a caller that has texts,
//! [`items::format_text`] formats one, [`items::read_items`] reads one, and [`same::same`] compares two lists that were
//! read.
#![tactic(auto)]

pub mod command;
pub mod dispatch;
pub mod files;
pub mod items;
pub mod report;
pub mod run;
pub mod same;
pub mod same_run;
mod texts;
pub mod watched;
