//! Items of Souper IR from a stream, chunk by chunk, so that neither the whole text nor all items need be in memory.
//!
//! Souper IR is the text format of the superoptimizer [Souper](https://github.com/google/souper), which the crate
//! `souper_ir` reads.
//!
//! A stream is read in whole lines, and cut where an item ends and a line of the next begins, which the tokens of the lines say. The
//! lines between two cut points are a *segment*. [`laws::law_of_parts`] says that a text spells the items of its segments.
#![tactic(auto)]

mod buffer;
mod cuts;
mod faults;
mod item;
pub mod laws;
mod lines;
mod read;
mod reader;
mod sink;
mod starts;

pub use cuts::{last_cut, segment_len};
pub use faults::{NotUtf8, not_utf8};
pub use item::StreamItem;
pub use lines::lines_len;
pub use read::{read_chunks_into, read_into, read_with};
pub use reader::ItemReader;
pub use sink::ChunkSink;
pub use starts::Start;
