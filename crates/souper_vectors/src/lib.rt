//! Tests of runs: files that are read and compared, records, look-up, the functions of both programs, and the calls from C.
//!
//! The values of the tests were worked out by hand from the rules of the language.
#![tactic(auto)]

#[cfg(test)]
mod calls;
#[cfg(test)]
mod cases;
#[cfg(test)]
mod checks;
#[cfg(test)]
mod comparison;
#[cfg(test)]
mod faulty;
#[cfg(test)]
mod lookup;
#[cfg(test)]
mod program;
#[cfg(test)]
mod records;
