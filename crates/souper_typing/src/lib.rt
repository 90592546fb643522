//! Streams of items with their widths: records, distinct items and objects, and what is said of an item that has none.
//!
//! The program `souper_items` calls the functions of [`run`] and [`objects::write_typed_objects`].
#![tactic(auto)]

pub mod layout;
pub mod objects;
mod parts;
mod reports;
pub mod run;
mod widened;
