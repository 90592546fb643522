//! Items of Souper IR with all their widths written.
//!
//! An item with widths may leave types out. Its typed form has each, its complete form writes numbers in one way too, so
//! that items which differ in these alone have one text.
#![tactic(auto)]

mod form;
mod items;
pub mod laws;
mod numbers;
mod operands;
mod statements;
mod unchanged;
mod writing;

pub use form::Form;
pub use items::TypedItem;
pub use writing::{complete, with_widths, write_well_formed_widths, write_widths};
