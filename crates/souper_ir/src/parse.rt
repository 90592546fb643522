//! Parsing: from texts to items.

mod attributes;
mod files;
mod item;
mod last_lines;
mod memory;
mod message;
mod names;
mod numbers;
mod operands;
mod parser;
mod recent;
mod rhs;
mod sink;
mod spare;
mod statements;
mod tokens;
mod traits;
mod words;

pub use files::{parse_left_hand_sides_file, parse_replacements_file, parse_right_hand_sides_file};
pub use item::{
    WholeItem, parse_into, parse_items, parse_left_hand_sides_str, parse_replacements_str,
    parse_right_hand_sides_str, parse_with_memory,
};
pub use memory::Memory;
pub use parser::{Parser, Result};
pub use sink::Sink;
pub use souper_errors::{Before, Kind, Location, ParseError, ParseErrorKind, WithLocation};
pub use traits::{Parse, Peek};
