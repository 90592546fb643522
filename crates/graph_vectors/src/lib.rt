//! Tests of graphs: arenas, builders, nodes, printed orders, texts and flaws.
//!
//! The values of the tests were worked out by hand from the rules of the language.
#![tactic(auto)]

#[cfg(test)]
mod arenas;
#[cfg(test)]
mod builders;
#[cfg(test)]
mod changes;
#[cfg(test)]
mod fixtures;
#[cfg(test)]
mod flaws;
#[cfg(test)]
mod instructions;
#[cfg(test)]
mod nodes;
#[cfg(test)]
mod styles;
#[cfg(test)]
mod texts_of_graphs;
