//! Runs that keep a row of each item, and write the rows of each part.
ghost use Rattle.std.specs.Prelude.{◌≡◌, ℕ, [], true, List, IfOk, string_bytes};
ghost use Rattle.std.specs.List.{AllZip};
ghost use Rattle.std.specs.Io.KnownBytes.{Appends};
ghost use Rattle.souper_records.specs.Prelude.{Item, WellFormed, stream, has_failed};
ghost use Rattle.souper_records.specs.Outcomes.{input_stream, IsPartsResult};
ghost use Rattle.souper_records.specs.Outputs.{renames, outcome_text, AreRowTexts, WritesRows};
ghost use Rattle.souper_records.specs.Runs.{IsRun};
ghost use Rattle.souper_records.specs.Uniques.{text_by};

use crate::options::ReadOptions;
use crate::output::{Output, Shown, part_text};
use crate::parts::{Part, PartSink, Source, write_parts};
use crate::records::append_last_text;
use crate::rejected::Rejected;
use crate::run::end_parts;
use crate::stop::{Stop, write_text};
use souper_ir::ast::{Arena, Statement};
use souper_ir::parse::{Sink, WholeItem};
use souper_stream::{ChunkSink, StreamItem};
use souper_watched::Watched;
use std::alloc::{AllocError, Global};
use std::io::{BufRead, Write};

/// What makes the row of an item: what is kept of it until the output of its part is written.
pub trait Rows<T: WholeItem, V>: Drop {
    ghost use Rattle.souper_records.specs.declared.output.Output.{Output};

    // How the rows are written, and that a row is of an item.
    ghost output_of: { Self → Output };

    ghost makes: { Self → Item → V → Type 0 };

    /// How the rows are written.
    fn output(&self) -> Output
        ensures { result ≡ output_of self.now };

    /// The row of an item that is dropped then. `text` is for the text of one item. The error is out of memory.
    fn make(&self, alloc: Global, item: &mut T, text: &mut String) -> Result<V, AllocError>
        requires { WellFormed (T.view item.old) }
        ensures { IfOk result (λ made. makes self.now (T.view item.old) made) };
}

// The canonical text of the item; with `rename` the text with names by its printed order.
impl<T: WholeItem + Drop> Rows<T, String> for Output {
    ghost output_of = { λ output. output };

    ghost makes = { λ output item text. string_bytes text ≡ text_by (renames output) item };

    fn output(&self) -> Output {
        *self
    }

    fn make(&self, alloc: Global, item: &mut T, text: &mut String) -> Result<String, AllocError> {
        text.clear();
        append_last_text(self.renames(), item, text)?;
        Ok(String::from_str(alloc, text.as_str())?)
    }
}

/// The rows of the items that were taken, each made by the maker. The output of a part is what is written for them.
#[derive(Drop)]
pub struct RowSink<M, V: Drop> {
    alloc: Global,
    maker: M,

    // For the text of one item.
    text: String,

    /// The rows of the items of a part, in order.
    pub rows: Vec<V>,
}

impl<M, V: Drop> RowSink<M, V> {
    /// No item was taken.
    pub fn new(alloc: Global, maker: M) -> Self
        ensures maker { result.maker ≡ maker }
        ensures rows { result.rows.items ≡ [] }
    {
        RowSink {
            alloc,
            maker,
            text: String::new(alloc),
            rows: Vec::new(alloc),
        }
    }
}

impl<T: WholeItem + Drop, V: Drop, M: Rows<T, V>> Sink<T> for RowSink<M, V> {
    ghost holds = { λ first sink items. (sink.maker ≡ first.maker) × AllZip (M.makes first.maker) items sink.rows.items };

    fn take(&mut self, mut item: T) -> Result<Option<Arena<Statement>>, AllocError> {
        let made = self.maker.make(self.alloc, &mut item, &mut self.text)?;
        self.rows.push(made)?;
        Ok(item.take_statements())
    }
}

impl<T: WholeItem + Drop, V: Drop, M: Rows<T, V>> ChunkSink<T> for RowSink<M, V> {
    fn rollback(&mut self) {
        self.rows.clear();
    }
}

// Writes the rows of each part, and drops them.
impl<T: StreamItem + Drop, V: Shown, M: Rows<T, V>> PartSink<T> for RowSink<M, V> {
    ghost wrote = { λ name a x b y os. (b.maker ≡ a.maker) × (text : List ℕ) × AreRowTexts (M.makes a.maker) (outcome_text V.as_records V.as_lines (M.output_of a.maker) name) os text × Appends x y text };

    fn write_part<W: Write>(
        &mut self,
        part: Part<'_>,
        refusal: Option<Rejected<'_>>,
        out: &mut Watched<W>,
    ) -> Result<(), Stop> {
        let text = part_text(self.alloc, self.maker.output(), part, refusal, &self.rows)?;
        write_text(&text, out)?;
        self.rows.clear();
        Ok(())
    }
}

/// Writes the row of each item of the stream, in order, part by part ([`write_parts`]).
pub fn write_rows<T: StreamItem + Drop, V: Shown, M: Rows<T, V>, R: BufRead, W: Write, E: Write>(
    alloc: Global,
    maker: M,
    options: ReadOptions<'_>,
    reader: &mut R,
    out: &mut Watched<W>,
    err: &mut Watched<E>,
) -> Result<bool, Stop>
    ensures returned { let rows = WritesRows (M.makes maker) (outcome_text V.as_records V.as_lines (M.output_of maker) options.entry.name.now) T.item_type (stream W.contents out.old out.new) in
        IsPartsResult (input_stream T.item_type options.entry (R.remaining reader.old)) (R.remaining reader.new) rows rows (has_failed out.new) (stream E.contents err.old err.new) result }
    ensures stays { has_failed err.old ≡ true → has_failed err.new ≡ true }
{
    let mut sink = RowSink::new(alloc, maker);
    let source = Source::with_starts(alloc, options);
    write_parts::<T, RowSink<M, V>, R, W, E>(alloc, source, &mut sink, reader, out, err)
}

/// The same, and returns the status of the program, as [`each_run_with`](crate::run::each_run_with) does.
pub fn rows_run<T: StreamItem + Drop, V: Shown, M: Rows<T, V>, R: BufRead, W: Write, E: Write>(
    alloc: Global,
    maker: M,
    options: ReadOptions<'_>,
    reader: &mut R,
    out: &mut Watched<W>,
    err: &mut Watched<E>,
) -> u8
    ensures { let rows = WritesRows (M.makes maker) (outcome_text V.as_records V.as_lines (M.output_of maker) options.entry.name.now) T.item_type (stream W.contents out.old out.new) in
        IsRun (input_stream T.item_type options.entry (R.remaining reader.old)) (R.remaining reader.new) rows rows (stream W.contents out.old out.new) (stream E.contents err.old err.new) result }
{
    let name = options.name;
    let parts = write_rows::<T, V, M, R, W, E>(alloc, maker, options, reader, out, err);
    end_parts(alloc, name, parts, out, err)
}
