//! The command line of `souper_items`: its commands and options, and what a terminal shows of errors and of long inputs.
#![tactic(auto)]

pub mod commands;
pub mod excerpt;
pub mod progress;
pub mod terminal;
