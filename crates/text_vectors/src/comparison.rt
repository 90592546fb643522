//! Lists that are the same.
mod same;
