//! Tests of the lexer and of parsers that are used directly, types of a user of the parser, and a caller that counts.
//!
//! The values of the tests were worked out by hand from the rules of the language.
#![tactic(auto)]

#[cfg(test)]
mod attributes;
#[cfg(test)]
mod checks;
pub mod counting;
pub mod pairs;
#[cfg(test)]
mod parsers;
#[cfg(test)]
mod shown;
pub mod sinks;
#[cfg(test)]
mod tokens;
