//! The widths of Souper IR: of each statement's result and operands, and of the roots.
//!
//! An item has widths if the equations between them, one row for each word, have one solution. Otherwise it has a first
//! flaw.
#![tactic(auto)]

mod conflicts;
mod equations;
mod flaws;
mod forest;
mod forward;
mod item_widths;
mod last_lines;
pub mod laws;
mod limit_flaws;
mod limits;
mod needed;
mod places;
pub mod rows;
mod shape;
mod solution;
mod solving;
mod ties;
mod told;
mod typed;

pub use flaws::{WidthFlaw, WidthReason, WidthsError};
pub use item_widths::Widths;
pub use typed::{well_formed_widths, widths};
