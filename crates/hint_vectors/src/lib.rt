//! Tests of hints: what they say of rejected texts, and of which they say nothing.
//!
//! The hints were worked out by hand from the rules of the language.
#![tactic(auto)]

#[cfg(test)]
mod cases;
#[cfg(test)]
mod hints;
#[cfg(test)]
mod long_texts;
#[cfg(test)]
mod rejected;
#[cfg(test)]
mod words;
