//! A sink that makes the record of each item.
ghost use Rattle.std.specs.Prelude.{◌≡◌, [], string_bytes};
ghost use Rattle.std.specs.Io.KnownBytes.{Appends};
ghost use Rattle.souper_records.specs.Outcomes.{items_of};
ghost use Rattle.souper_records.specs.Records.{records_of};

use crate::layout::Layout;
use crate::parts::{Part, PartSink};
use crate::records::{append_last_text, append_record_of_text};
use crate::rejected::Rejected;
use crate::stop::{Stop, write_text};
use souper_ir::ast::{Arena, Statement};
use souper_ir::parse::{Sink, WholeItem};
use souper_stream::{ChunkSink, StreamItem};
use souper_watched::Watched;
use std::alloc::{AllocError, Global};
use std::io::Write;

/// The records of the items that were taken. The output of a part is these records.
#[derive(Drop)]
pub struct Records {
    alloc: Global,
    layout: Layout,

    // For the text of one item.
    text: String,

    /// The records, in order.
    pub(crate) out: String,
}

impl Records {
    /// No item was taken.
    pub fn new(alloc: Global, layout: Layout) -> Self
        ensures layout { result.layout ≡ layout }
        ensures out { string_bytes result.out ≡ [] }
    {
        Records {
            alloc,
            layout,
            text: String::new(alloc),
            out: String::new(alloc),
        }
    }
}

impl<T: WholeItem + Drop> Sink<T> for Records {
    ghost holds = { λ first records items. (records.layout ≡ first.layout) × (string_bytes records.out ≡ records_of first.layout items) };

    fn take(&mut self, mut item: T) -> Result<Option<Arena<Statement>>, AllocError> {
        self.text.clear();
        append_last_text(self.layout.rename, &mut item, &mut self.text)?;
        append_record_of_text(self.alloc, self.layout, self.text.as_str(), &mut self.out)?;
        Ok(item.take_statements())
    }
}

impl<T: WholeItem + Drop> ChunkSink<T> for Records {
    fn rollback(&mut self) {
        self.out.clear();
    }
}

// Writes the records of each part, and drops them.
impl<T: StreamItem + Drop> PartSink<T> for Records {
    ghost wrote = { λ name a x b y os. (b.layout ≡ a.layout) × Appends x y (records_of a.layout (items_of os)) };

    fn write_part<W: Write>(
        &mut self,
        _part: Part<'_>,
        _refusal: Option<Rejected<'_>>,
        out: &mut Watched<W>,
    ) -> Result<(), Stop> {
        write_text(&self.out, out)?;
        self.out.clear();
        Ok(())
    }
}
