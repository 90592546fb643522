//! Texts that are rejected.
mod changed;
mod cuts;
mod places;
mod reports;
