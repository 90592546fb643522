//! A sink that makes the record of the first item of each graph.
ghost use Rattle.std.specs.Prelude.{◌≡◌, [], map, OnOk, string_bytes};
ghost use Rattle.std.specs.List.{AllByRecursion};
ghost use Rattle.souper_records.specs.Outcomes.{items_of};
ghost use Rattle.souper_records.specs.Distinct.{tally_all};
ghost use Rattle.souper_records.specs.Uniques.{text_by, HasText, text_count, WritesNewDistinct};

use crate::layout::Layout;
use crate::parts::{Part, PartSink};
use crate::records::{push_last_text, records_of_texts};
use crate::rejected::Rejected;
use crate::seen::{Seen, count};
use crate::stop::{Stop, write_text};
use souper_ir::ast::{Arena, Statement};
use souper_ir::parse::{Sink, WholeItem};
use souper_stream::{ChunkSink, StreamItem};
use souper_watched::Watched;
use std::alloc::AllocError;
use std::io::Write;
use std::mem;

/// The texts of the items of a part, and of the first item of each graph before it. The output of a part is the records of its distinct items.
#[derive(Drop)]
pub struct Distinct {
    layout: Layout,

    // For the text of one item.
    text: String,
    texts: Vec<String>,

    /// The items of the parts that were written.
    pub seen: Seen,
}

impl Distinct {
    /// These items were seen, and none is taken yet.
    pub fn new(layout: Layout, seen: Seen) -> Self
        ensures layout { result.layout ≡ layout }
        ensures seen { result.seen ≡ seen }
        ensures texts { result.texts.items ≡ [] }
    {
        let alloc = seen.alloc;
        Distinct {
            layout,
            text: String::new(alloc),
            texts: Vec::new(alloc),
            seen,
        }
    }
}

impl<T: WholeItem + Drop> Sink<T> for Distinct {
    ghost holds = { λ first distinct items. (distinct.layout ≡ first.layout) × (distinct.seen ≡ first.seen) × (map string_bytes distinct.texts.items ≡ map (text_by first.layout.rename) items) × AllByRecursion (HasText T.item_type first.layout.rename) items };

    fn take(&mut self, mut item: T) -> Result<Option<Arena<Statement>>, AllocError> {
        push_last_text(
            self.seen.alloc,
            self.layout.rename,
            &mut item,
            &mut self.text,
            &mut self.texts,
        )?;
        Ok(item.take_statements())
    }
}

impl<T: WholeItem + Drop> ChunkSink<T> for Distinct {
    fn rollback(&mut self) {
        self.texts.clear();
    }
}

// Counts the items with these texts, and keeps the texts that are new.
fn see_texts(seen: &mut Seen, texts: Vec<String>) -> Result<(), AllocError>
    ensures { OnOk result (map text_count seen.new.counts.entries ≡ tally_all (map text_count seen.old.counts.entries) (map string_bytes texts.items)) }
{
    for text in texts {
        count(&mut seen.counts, text)?;
    }
    Ok(())
}

// Writes the records of the distinct items of each part, and drops the texts.
impl<T: StreamItem + Drop> PartSink<T> for Distinct {
    ghost wrote = { λ name a x b y os. (b.layout ≡ a.layout) × WritesNewDistinct T.item_type a.layout x y a.seen b.seen (items_of os) };

    fn write_part<W: Write>(
        &mut self,
        _part: Part<'_>,
        _refusal: Option<Rejected<'_>>,
        out: &mut Watched<W>,
    ) -> Result<(), Stop> {
        let alloc = self.seen.alloc;
        let start = self.seen.counts.len();
        let texts = mem::replace(&mut self.texts, Vec::new(alloc));
        see_texts(&mut self.seen, texts)?;
        let seen = self.seen.counts.keys();
        let new = &seen.as_slice()[start.min(seen.len())..];
        let text = records_of_texts(alloc, self.layout, new)?;
        write_text(&text, out)
    }
}
