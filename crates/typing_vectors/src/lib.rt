//! Tests of streams whose items are written with their widths.
#![tactic(auto)]

#[cfg(test)]
mod objects;
#[cfg(test)]
mod records;
#[cfg(test)]
mod support;
