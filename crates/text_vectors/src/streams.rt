//! Items that are read from streams.
mod items;
mod refusals;
