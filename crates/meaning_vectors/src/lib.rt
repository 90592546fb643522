//! Tests of evaluation: items with their outcomes in worlds, and replacements with their verdicts.
//!
//! The outcomes and verdicts were worked out by hand from the table of words.
#![tactic(auto)]

#[cfg(test)]
mod cases;
#[cfg(test)]
mod evaluated;
#[cfg(test)]
mod exhausted;
#[cfg(test)]
mod refused;
#[cfg(test)]
mod searched;
