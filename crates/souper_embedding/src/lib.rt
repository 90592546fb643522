//! Left-hand sides that may have more path conditions and facts than a stored replacement.
//!
//! A replacement *embeds* into a left-hand side, the query, if by one map its root needs the same graph, its path conditions and the
//! facts of its left-hand side are among the query's, and the query demands no more bits of the root. Nothing is said of whether the
//! completed query is correct.
#![tactic(auto)]

mod conditions;
pub mod embed;
mod facts;
pub mod laws;
mod maps;
mod roots;
mod search;
mod walk;
