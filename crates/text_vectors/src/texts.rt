//! Texts that are read, and the texts of their items.
mod formatted;
mod kept;
mod memory;
mod names;
mod orders;
mod renaming;
