//! Tests of embeddings: replacements and left-hand sides, with the maps, worked out by hand.
#![tactic(auto)]

#[cfg(test)]
mod found;
