//! Tests of widths: items with all their widths, or with their first flaw.
//!
//! The values of the tests were worked out by hand from the table of widths.
#![tactic(auto)]

#[cfg(test)]
mod cases;
#[cfg(test)]
mod flawed;
#[cfg(test)]
mod said;
#[cfg(test)]
mod typed;
#[cfg(test)]
mod written;
