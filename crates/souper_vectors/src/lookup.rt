//! What stores of replacements find, and what is written for streams of left-hand sides.
mod stores;
mod streams;
