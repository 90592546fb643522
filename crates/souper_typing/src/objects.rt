//! A JSON object for each item of a stream, with its widths, and for each error.
ghost use Rattle.std.specs.Prelude.{◌≡◌, true, Option, IfOk, option_map, string_bytes};
ghost use Rattle.std.specs.List.{AllZip, list_any};
ghost use Rattle.serde_json.specs.View.{view};
ghost use Rattle.souper_watched.specs.Streams.{stream};
ghost use Rattle.souper_watched.specs.Watching.{has_failed};
ghost use Rattle.souper_untyped.specs.Says.{view_flaw_text};
ghost use Rattle.souper_records.specs.Objects.{optional_string};
ghost use Rattle.souper_records.specs.Outcomes.{input_stream};
ghost use Rattle.souper_typing.specs.Objects.{widths_data, typed_object, flaw_object, row_object, view_row, row_record, row_line, objects_of, IsRowOf, is_flawed_row, ObjectsWrote, IsTypedObjectsResult};

use serde_json::{Value, json};
use souper_ir::ast::{Arena, Statement};
use souper_ir::parse::{Sink, WholeItem};
use souper_records::layout::Layout;
use souper_records::objects::{append_line, number};
use souper_records::options::ReadOptions;
use souper_records::output::{Output, Shown};
use souper_records::parts::{Part, PartSink, Source, write_parts};
use souper_records::records::{append_last_text, append_record_of_text, key_of};
use souper_records::rejected::Rejected;
use souper_records::rows::{RowSink, Rows};
use souper_records::stop::Stop;
use souper_stream::{ChunkSink, Start, StreamItem};
use souper_typed::{Form, TypedItem, write_well_formed_widths};
use souper_untyped::FlawText;
use souper_watched::Watched;
use souper_widths::WidthsError;
use std::alloc::{AllocError, Global};
use std::io::{BufRead, Write};

/// The row of an item: its text with its widths written, and the widths of its statements; or what is said of its flaw.
#[derive(Drop)]
pub enum TypedRow {
    /// The item has widths. The text has the needed statements, in printed order. `widths` has that of the result of each statement, in the
    /// order of the source: 0 for a block, a path condition and a statement that is not needed.
    Typed { text: String, widths: Vec<u32> },

    /// It has none.
    Flawed(FlawText),
}

impl TypedRow {
    fn is_flawed(&self) -> bool
        ensures { result ≡ is_flawed_row self.now }
    {
        match self {
            TypedRow::Typed { .. } => false,
            TypedRow::Flawed(_) => true,
        }
    }
}

fn widths_value(alloc: Global, widths: &[u32]) -> Result<Value, AllocError>
    ensures { IfOk result (λ value. view value ≡ widths_data widths.now) }
{
    let mut items = Vec::new(alloc);
    for width in widths {
        items.push(Value::from(*width))?;
    }
    Ok(Value::Array(items))
}

// A text that may be missing.
fn string(alloc: Global, text: &Option<String>) -> Result<Value, AllocError>
    ensures { IfOk result (λ value. view value ≡ optional_string (option_map string_bytes text.now)) }
{
    match text {
        Some(text) => Value::try_from_str(alloc, text.as_str()),
        None => Ok(Value::Null),
    }
}

// The object of an item with widths, which begins at `start`.
fn typed_object(
    alloc: Global,
    name: &str,
    start: Start,
    text: &String,
    widths: &[u32],
) -> Result<Value, AllocError>
    ensures { IfOk result (λ value. view value ≡ typed_object name.now start (string_bytes text.now) widths.now) }
{
    let key = key_of(alloc, text.as_str())?;
    let widths = widths_value(alloc, widths)?;
    json!(in alloc; {
        "file": name,
        "key": key.as_str(),
        "line": start.line,
        "offset": start.offset,
        "text": text.as_str(),
        "widths": widths
    })
}

// The object of an item without widths, which begins at `start`.
fn flaw_object(
    alloc: Global,
    name: &str,
    start: Start,
    flaw: &FlawText,
) -> Result<Value, AllocError>
    ensures { IfOk result (λ value. view value ≡ flaw_object name.now start (view_flaw_text flaw.now)) }
{
    let hint = string(alloc, &flaw.hint)?;
    json!(in alloc; {
        "column": null,
        "file": name,
        "hint": hint,
        "line": start.line,
        "message": flaw.message.as_str(),
        "offset": start.offset,
        "source": flaw.line.as_str(),
        "statement": number(flaw.statement)
    })
}

// The object of the row of an item that begins at `start`.
fn row_object(alloc: Global, name: &str, start: Start, row: &TypedRow) -> Result<Value, AllocError>
    ensures { IfOk result (λ value. view value ≡ row_object name.now start (view_row row.now)) }
{
    match row {
        TypedRow::Typed { text, widths } => typed_object(alloc, name, start, text, widths),
        TypedRow::Flawed(flaw) => flaw_object(alloc, name, start, flaw),
    }
}

impl Shown for TypedRow {
    ghost as_records = { λ layout row. row_record layout (view_row row) };

    ghost as_lines = { λ name row. row_line name (row.0, view_row row.1) };

    fn append_records(
        &self,
        alloc: Global,
        layout: Layout,
        out: &mut String,
    ) -> Result<(), AllocError> {
        match self {
            TypedRow::Typed { text, .. } => append_record_of_text(
                alloc,
                layout,
                text.as_str(),
                out,
            ),
            TypedRow::Flawed(_) => Ok(()),
        }
    }

    fn append_lines(
        &self,
        alloc: Global,
        name: &str,
        start: Start,
        out: &mut String,
    ) -> Result<(), AllocError> {
        let object = row_object(alloc, name, start, self)?;
        append_line(alloc, &object, out)
    }
}

/// How objects of items with their widths are made.
#[derive(Clone, Copy)]
pub struct TypedObjects {
    /// How much of the widths the texts have.
    pub form: Form,

    /// Whether the names in the texts are by the printed order.
    pub rename: bool,
}

impl<T: WholeItem + TypedItem + Drop> Rows<T, TypedRow> for TypedObjects {
    ghost output_of = { λ maker. objects_of maker };

    ghost makes = { λ maker item row. IsRowOf maker item row };

    fn output(&self) -> Output {
        Output::Objects {
            rename: self.rename,
        }
    }

    fn make(&self, alloc: Global, item: &mut T, text: &mut String) -> Result<TypedRow, AllocError> {
        match write_well_formed_widths(item, self.form) {
            Ok(widths) => {
                text.clear();
                append_last_text(self.rename, item, text)?;
                Ok(TypedRow::Typed {
                    text: String::from_str(alloc, text.as_str())?,
                    widths: widths.results,
                })
            }
            Err(WidthsError::Flawed(flaw)) => {
                Ok(TypedRow::Flawed(FlawText::new(alloc, item, flaw)?))
            }
            // The item is well formed, so the error is out of memory.
            Err(_) => Err(AllocError),
        }
    }
}

fn any_flawed(rows: &[TypedRow]) -> bool
    ensures { result ≡ list_any is_flawed_row rows.now }
{
    let mut any = false;
    for row in rows {
        any |= row.is_flawed();
    }
    any
}

// The rows of the items of a part, and whether an item of the parts before has no widths.
#[derive(Drop)]
struct Objects {
    rows: RowSink<TypedObjects, TypedRow>,
    untyped: bool,
}

impl<T: WholeItem + TypedItem + Drop> Sink<T> for Objects {
    ghost holds = { λ first objects items. (objects.untyped ≡ first.untyped) × (objects.rows.maker ≡ first.rows.maker) × AllZip (IsRowOf first.rows.maker) items objects.rows.rows.items };

    fn take(&mut self, item: T) -> Result<Option<Arena<Statement>>, AllocError> {
        Sink::<T>::take(&mut self.rows, item)
    }
}

impl<T: WholeItem + TypedItem + Drop> ChunkSink<T> for Objects {
    fn rollback(&mut self) {
        ChunkSink::<T>::rollback(&mut self.rows);
    }
}

impl<T: StreamItem + TypedItem + Drop> PartSink<T> for Objects {
    ghost wrote = { λ name a x b y os. ObjectsWrote name a x b y os };

    fn write_part<W: Write>(
        &mut self,
        part: Part<'_>,
        refusal: Option<Rejected<'_>>,
        out: &mut Watched<W>,
    ) -> Result<(), Stop> {
        let flawed = any_flawed(self.rows.rows.as_slice());
        PartSink::<T>::write_part(&mut self.rows, part, refusal, out)?;
        self.untyped |= flawed;
        Ok(())
    }
}

/// Writes a JSON object for each item of the stream and each parse error, in order, as
/// [`write_rows`](souper_records::rows::write_rows) does, and fails like it. Returns whether there was an error.
///
/// The text of an item has its widths written. Its object has `widths` besides ([`TypedRow::Typed`]). An item without widths has an
/// object like that of a parse error, at its first token, with the line of the `statement` that has the flaw as `source`, and its number;
/// null at a last line. Such an item does not end reading, with recovery or without, and is not reported to `err`, as parse errors are.
pub fn write_typed_objects<T: StreamItem + TypedItem + Drop, R: BufRead, W: Write, E: Write>(
    alloc: Global,
    maker: TypedObjects,
    options: ReadOptions<'_>,
    reader: &mut R,
    out: &mut Watched<W>,
    err: &mut Watched<E>,
) -> Result<bool, Stop>
    ensures returned { IsTypedObjectsResult maker (input_stream T.item_type options.entry (R.remaining reader.old)) (R.remaining reader.new)
        (stream W.contents out.old out.new) (stream E.contents err.old err.new) result }
    ensures stays { has_failed err.old ≡ true → has_failed err.new ≡ true }
{
    let mut objects = Objects {
        rows: RowSink::new(alloc, maker),
        untyped: false,
    };
    let source = Source::with_starts(alloc, options);
    match write_parts::<T, Objects, R, W, E>(alloc, source, &mut objects, reader, out, err) {
        Ok(refused) => Ok(refused | objects.untyped),
        Err(stop) => Err(stop),
    }
}
