//! The examples of `docs/GUIDE.md`: texts that are read, walked, built, changed, compared, printed and looked up.
#![tactic(auto)]

pub mod building;
pub mod changing;
pub mod comparing;
pub mod folding;
pub mod fragments;
pub mod looking_up;
pub mod reading;
pub mod round_trip;
pub mod walking;
