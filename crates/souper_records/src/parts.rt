//! The parts of a stream, whose output is written one after the other.
ghost use Rattle.std.specs.Prelude.{◌≡◌, ◌++◌, ◌∷◌, ℕ, [], List, true, Option, Some, IfOk, IfErr, IfSome, IfNone, OnOk, option_map};
ghost use Rattle.souper_records.specs.Prelude.{Line, concat, stream};
ghost use Rattle.souper_stream.specs.Parts.{HasParts, HasAll, keeps_starts, reads_eagerly};
ghost use Rattle.souper_watched.specs.Watching.{watched_inner, has_failed};
ghost use Rattle.souper_records.specs.Reports.{refusal_of};
ghost use Rattle.souper_records.specs.Stops.{IsNoInput, UnlessOutput};
ghost use Rattle.souper_records.specs.Outcomes.{Outcome, IsAtStart, WritesPart, IsPartsResult, WroteParts, input_stream};

use crate::options::ReadOptions;
use crate::rejected::{Rejected, as_text, hint_text};
use crate::report::report_line;
use crate::stop::{ReadFault, Stop, stop_of};
use souper_ir::parse::ParseErrorKind;
use souper_stream::{ChunkSink, ItemReader, Start, StreamItem};
use souper_watched::Watched;
use std::alloc::Global;
use std::io;
use std::io::{BufRead, ErrorKind, Write};

/// A part of a stream that was read.
#[derive(Clone, Copy)]
pub struct Part<'a> {
    /// The name of the stream.
    pub name: &'a str,

    /// Where the items of the part begin, if that is asked for.
    pub starts: &'a [Start],

    /// The text of the part.
    pub text: &'a [u8],
}

/// A sink whose output is written after each part of a stream.
pub trait PartSink<T: StreamItem + Drop>: ChunkSink<T> {
    /// That the output of parts with these outcomes was written, given the name of the stream, the sink and the bytes of the output
    /// before the first part, and both after the last.
    ghost wrote: { List ℕ → Self → Option (List ℕ) → Self → Option (List ℕ) → List Outcome → Type 0 };

    /// Writes the output of a part, whose items the sink holds, or the ones that it begins with if it was refused. Then it holds none.
    ///
    /// Errors: `Stop::Output` if `out` failed, or `Stop::Memory`; then nothing was written.
    fn write_part<W: Write>(
        &mut self,
        part: Part<'_>,
        refusal: Option<Rejected<'_>>,
        out: &mut Watched<W>,
    ) -> Result<(), Stop>
        ensures written { OnOk result ((first : Self) (start : Option (List ℕ)) (os : List Outcome) (before : Self) (o : Outcome) → wrote part.entry.name.now first start before (W.contents (watched_inner out.old)) os
            → Self.holds before before [] → Self.holds before self.old o.items → o.starts ≡ part.entry.starts.now → concat o.part ≡ part.entry.text.now → o.refusal ≡ option_map refusal_of refusal.entry
            → wrote part.entry.name.now first start self.new (W.contents (watched_inner out.new)) (os ++ o ∷ [])) }
        ensures none { OnOk result (Self.holds self.new self.new []) }
        ensures input { IfErr result (λ stop. IsNoInput stop) }
        ensures unwritten { IfErr result (λ stop. UnlessOutput stop (has_failed out.new) (out.new ≡ out.old)) };
}

// Bytes to read before looking for a cut point, if reading ends with the first refusal.
const CHUNK: usize = 65536;

// The chunk size of the reader.
fn min_chunk(options: ReadOptions<'_>) -> usize {
    if options.recover { 1 } else { CHUNK }
}

/// A stream that is read part by part.
#[derive(Drop)]
pub struct Source<'a> {
    options: ReadOptions<'a>,
    parts: ItemReader,

    // The number of bytes before the next part.
    passed: usize,
}

impl<'a> Source<'a> {
    /// A stream that is to be read with these options.
    ///
    /// For lines the reader is asked for no more while a part is there whole. Else a cut point is looked for after 64 KiB, or with recovery
    /// in what the reader shows; then whenever the buffer has doubled.
    pub fn new(alloc: Global, options: ReadOptions<'a>) -> Source<'a>
        ensures options { result.options ≡ options.entry }
        ensures eager { reads_eagerly result.parts ≡ options.entry.line_buffered }
        ensures begins { IsAtStart result }
    {
        Source {
            options,
            parts: ItemReader::new(alloc, min_chunk(options)).eager(options.line_buffered),
            passed: 0,
        }
    }

    /// The same, and the reader is asked where the items begin.
    pub fn with_starts(alloc: Global, options: ReadOptions<'a>) -> Source<'a>
        ensures options { result.options ≡ options.entry }
        ensures eager { reads_eagerly result.parts ≡ options.entry.line_buffered }
        ensures asked { keeps_starts result.parts ≡ true }
        ensures begins { IsAtStart result }
    {
        Source {
            options,
            parts: ItemReader::with_starts(alloc, min_chunk(options)).eager(options.line_buffered),
            passed: 0,
        }
    }
}

/// Writes the output of the next part, and reports its refusal, if it is refused. Returns whether it is refused, or none at the end of the
/// stream. It stops as [`write_parts`] does.
pub fn write_next<T: StreamItem + Drop, S: PartSink<T>, R: BufRead, W: Write, E: Write>(
    alloc: Global,
    source: &mut Source<'_>,
    sink: &mut S,
    reader: &mut R,
    out: &mut Watched<W>,
    err: &mut Watched<E>,
) -> Result<Option<bool>, Stop>
    requires none { S.holds sink.old sink.old [] }
    requires had { (start : Option (List ℕ)) × (ps : List (List Line)) × HasParts T.item_type start (R.remaining reader.old) ps source.old.parts }
    ensures options { source.new.options ≡ source.old.options }
    ensures same { keeps_starts source.new.parts ≡ keeps_starts source.old.parts }
    ensures part { IfOk result (λ more. IfSome more (λ refused. (start : Option (List ℕ)) (ps : List (List Line)) → HasParts T.item_type start (R.remaining reader.old) ps source.old.parts
        → WritesPart (input_stream T.item_type source.old.options start) (R.remaining reader.new) ps (λ o. (first : S) (before : Option (List ℕ)) (os : List Outcome) → S.wrote source.old.options.name.now first before sink.old (W.contents (watched_inner out.old)) os
        → S.wrote source.old.options.name.now first before sink.new (W.contents (watched_inner out.new)) (os ++ o ∷ [])) (stream E.contents err.old err.new) refused source.new.parts)) }
    ensures none { IfOk result (λ more. S.holds sink.new sink.new []) }
    ensures ended { IfOk result (λ more. IfNone more ((start : Option (List ℕ)) (ps : List (List Line)) → HasParts T.item_type start (R.remaining reader.old) ps source.old.parts
        → HasAll T.item_type start (R.remaining reader.new) ps)) }
    ensures quiet { IfOk result (λ more. IfNone more ((out.new ≡ out.old) × (err.new ≡ err.old) × (sink.new ≡ sink.old))) }
    ensures stays { has_failed err.old ≡ true → has_failed err.new ≡ true }
    ensures stopped { IfErr result (λ stop. err.new ≡ err.old) }
    ensures unwritten { IfErr result (λ stop. UnlessOutput stop (has_failed out.new) (out.new ≡ out.old)) }
{
    let ReadOptions { name, hints, .. } = source.options;
    let start = source.passed;
    match source
        .parts
        .read_part::<T, R, S>(alloc, reader, Some(name), sink)
    {
        Ok(true) => {
            let (starts, text) = (source.parts.starts(), source.parts.part());
            let end = start.saturating_add(text.len());
            sink.write_part(Part { name, starts, text }, None, out)?;
            source.passed = end;
            Ok(Some(false))
        }
        Ok(false) => Ok(None),
        Err(error) if error.kind() == ParseErrorKind::Parse => {
            let (starts, text) = (source.parts.starts(), source.parts.part());
            let end = start.saturating_add(text.len());
            let hint = hint_text(alloc, hints, start, text, &error)?;
            let rejected = Rejected {
                error: &error,
                hint: as_text(&hint),
            };
            let lines = rejected.lines(alloc, name, source.parts.is_at_end())?;
            sink.write_part(Part { name, starts, text }, Some(rejected), out)?;
            report_line(&lines, err);
            source.passed = end;
            Ok(Some(true))
        }
        Err(error) => Err(stop_of(&error, source.parts.not_utf8())),
    }
}

/// Writes the output of the parts of the stream, in order, and reports each refusal to `err`. Returns whether a part was refused. Without
/// recovery reading ends with the first refused part.
///
/// It stops if a read fails or bytes are not UTF-8 (`Stop::Input`), a write fails (`Stop::Output`), or memory runs out (`Stop::Memory`).
/// Unless a write failed, the output of the parts so far was written, and nothing else.
pub fn write_parts<T: StreamItem + Drop, S: PartSink<T>, R: BufRead, W: Write, E: Write>(
    alloc: Global,
    mut source: Source<'_>,
    sink: &mut S,
    reader: &mut R,
    out: &mut Watched<W>,
    err: &mut Watched<E>,
) -> Result<bool, Stop>
    requires none { S.holds sink.old sink.old [] }
    requires started { S.wrote source.options.name.now sink.old (W.contents (watched_inner out.old)) sink.old (W.contents (watched_inner out.old)) [] }
    requires begins { IsAtStart source }
    ensures returned { let wrote = λ (s : S). WroteParts T.item_type (keeps_starts source.entry.parts) (S.wrote source.entry.options.name.now sink.old (W.contents (watched_inner out.old)) s (W.contents (watched_inner out.new))) in
        IsPartsResult (input_stream T.item_type source.entry.options (R.remaining reader.old)) (R.remaining reader.new) (wrote sink.new) (λ os. (s : S) × wrote s os) (has_failed out.new) (stream E.contents err.old err.new) result }
    ensures stays { has_failed err.old ≡ true → has_failed err.new ≡ true }
{
    let mut any = false;
    for _turn in 0..u64::MAX {
        match write_next::<T, S, R, W, E>(alloc, &mut source, sink, reader, out, err) {
            Ok(Some(refused)) => {
                if refused && !source.options.recover {
                    return Ok(true);
                }
                any |= refused;
            }
            Ok(None) => return Ok(any),
            Err(stop) => return Err(stop),
        }
    }
    let fault = io::Error::from(ErrorKind::Other);
    Err(Stop::Input(ReadFault::Io(fault)))
}
