//! Runs over one stream, by their statuses.
ghost use Rattle.std.specs.Prelude.{List};
ghost use Rattle.souper_graph.specs.Values.{Item};
ghost use Rattle.souper_watched.specs.Streams.{stream};
ghost use Rattle.souper_records.specs.Outcomes.{input_stream};
ghost use Rattle.souper_records.specs.Uniques.{HasSeen};
ghost use Rattle.souper_typing.specs.Runs.{IsTypedRun, IsTypedUniqRun};

use crate::layout::TypedLayout;
use crate::parts::write_typed;
use crate::widened::Widened;
use souper_records::each::Records;
use souper_records::options::ReadOptions;
use souper_records::run::end_parts;
use souper_records::seen::Seen;
use souper_records::uniq::Distinct;
use souper_stream::StreamItem;
use souper_typed::TypedItem;
use souper_watched::Watched;
use std::alloc::Global;
use std::io::{BufRead, Write};
use std::mem;

/// Writes the record of each item of the stream with its widths to `out`, and returns the status of the program.
///
/// - 0: done, each part is valid and each item has widths, and nothing was written to `err`.
/// - 1: a part is rejected, or an item has no widths. Each error was written to `err`: of each part its parse error, and then those of its
///   items without widths, with the name, the line on which the item begins, why it has none, and where
///   ([`FlawText`](souper_untyped::FlawText)). Without recovery reading ended with the first, and nothing after it was written.
/// - 2, 141: as [`each_run_with`](souper_records::run::each_run_with).
///
/// If a write to `err` fails, the status is the same.
pub fn typed_run<T: StreamItem + TypedItem + Drop, R: BufRead, W: Write, E: Write>(
    alloc: Global,
    layout: TypedLayout,
    options: ReadOptions<'_>,
    reader: &mut R,
    out: &mut Watched<W>,
    err: &mut Watched<E>,
) -> u8
    ensures { IsTypedRun layout (input_stream T.item_type options.entry (R.remaining reader.old)) (R.remaining reader.new)
        (stream W.contents out.old out.new) (stream E.contents err.old err.new) result }
{
    let name = options.name;
    let records = Records::new(alloc, layout.layout);
    let mut sink = Widened::new(alloc, layout.form, options.recover, records);
    let parts = write_typed::<T, Records, R, W, E>(alloc, options, &mut sink, reader, out, err);
    end_parts(alloc, name, parts, out, err)
}

/// Writes the record of each item of the stream with its widths that is the same graph as no earlier one to `out`, and returns the status
/// of the program, as [`typed_run`] does. `seen` has the earlier ones, with their widths, as
/// [`uniq_run_with`](souper_records::run::uniq_run_with) has them.
pub fn typed_uniq_run<T: StreamItem + TypedItem + Drop, R: BufRead, W: Write, E: Write>(
    layout: TypedLayout,
    options: ReadOptions<'_>,
    seen: &mut Seen,
    reader: &mut R,
    out: &mut Watched<W>,
    err: &mut Watched<E>,
) -> u8
    ensures { (earlier : List Item) → HasSeen T.item_type layout.layout.rename earlier seen.old
        → IsTypedUniqRun layout earlier (input_stream T.item_type options.entry (R.remaining reader.old)) (R.remaining reader.new)
        (stream W.contents out.old out.new) seen.new (stream E.contents err.old err.new) result }
{
    let (alloc, name) = (seen.allocator(), options.name);
    let distinct = Distinct::new(layout.layout, mem::replace(seen, Seen::new(alloc)));
    let mut sink = Widened::new(alloc, layout.form, options.recover, distinct);
    let parts = write_typed::<T, Distinct, R, W, E>(alloc, options, &mut sink, reader, out, err);
    *seen = sink.inner.seen;
    end_parts(alloc, name, parts, out, err)
}
