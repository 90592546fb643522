//! The parts of a stream whose items are written with their widths.
ghost use Rattle.std.specs.Prelude.{◌≡◌, ◌++◌, ℕ, List, [], true, Option};
ghost use Rattle.souper_watched.specs.Streams.{stream};
ghost use Rattle.souper_watched.specs.Watching.{watched_inner, has_failed};
ghost use Rattle.souper_records.specs.Outcomes.{Outcome, input_stream};
ghost use Rattle.souper_typing.specs.Widened.{WidenedHolds};
ghost use Rattle.souper_typing.specs.Results.{IsTypingResult};

use crate::reports::write_report;
use crate::widened::Widened;
use souper_records::options::ReadOptions;
use souper_records::parts::{PartSink, Source, write_next};
use souper_records::stop::{ReadFault, Stop};
use souper_stream::StreamItem;
use souper_typed::TypedItem;
use souper_watched::Watched;
use std::alloc::Global;
use std::io;
use std::io::{BufRead, ErrorKind, Write};

/// Writes the output of the parts of the stream, in order, and reports each parse error and each item without widths to `err`. Returns
/// whether there was one. Without recovery reading ends with the first.
///
/// It stops as [`write_parts`](souper_records::parts::write_parts) does.
pub(crate) fn write_typed<
    T: StreamItem + TypedItem + Drop,
    S: PartSink<T>,
    R: BufRead,
    W: Write,
    E: Write,
>(
    alloc: Global,
    options: ReadOptions<'_>,
    sink: &mut Widened<S>,
    reader: &mut R,
    out: &mut Watched<W>,
    err: &mut Watched<E>,
) -> Result<bool, Stop>
    requires none { WidenedHolds S.holds sink.old sink.old [] }
    requires same { sink.old.recover ≡ options.recover }
    requires begins { (s : S) (x : Option (List ℕ)) → S.wrote options.name.now s x s x [] }
    requires joins { (a b c : S) (x y z : Option (List ℕ)) (os qs : List Outcome) → S.wrote options.name.now a x b y os → S.wrote options.name.now b y c z qs → S.wrote options.name.now a x c z (os ++ qs) }
    ensures returned { let wrote = λ (s : S). S.wrote options.entry.name.now sink.old.inner (W.contents (watched_inner out.old)) s (W.contents (watched_inner out.new)) in
        IsTypingResult (input_stream T.item_type options.entry (R.remaining reader.old)) sink.old.form (R.remaining reader.new) (wrote sink.new.inner) (λ os. (s : S) × wrote s os) (has_failed out.new) (stream E.contents err.old err.new) result }
    ensures stays { has_failed err.old ≡ true → has_failed err.new ≡ true }
{
    let mut source = Source::with_starts(alloc, options);
    let mut any = false;
    for _turn in 0..u64::MAX {
        match write_next::<T, Widened<S>, R, W, E>(alloc, &mut source, sink, reader, out, err) {
            Ok(Some(refused)) => {
                write_report(&sink.report, err);
                let untyped = sink.report.is_some();
                let bad = refused | untyped;
                if bad && !options.recover {
                    return Ok(true);
                }
                any |= bad;
            }
            Ok(None) => return Ok(any),
            Err(stop) => return Err(stop),
        }
    }
    let fault = io::Error::from(ErrorKind::Other);
    Err(Stop::Input(ReadFault::Io(fault)))
}
