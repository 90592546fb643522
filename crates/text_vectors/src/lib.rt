//! Tests from text to text: items that are read and printed, lists that are the same, parse errors, streams, unified diffs.
//!
//! The values of the tests were worked out by hand from the rules of the language.
#![tactic(auto)]

#[cfg(test)]
mod cases;
#[cfg(test)]
mod checks;
#[cfg(test)]
mod comparison;
#[cfg(test)]
mod differences;
#[cfg(test)]
mod refusals;
#[cfg(test)]
mod sources;
#[cfg(test)]
mod streams;
#[cfg(test)]
mod texts;
