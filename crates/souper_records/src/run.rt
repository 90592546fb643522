//! Runs over one stream, by their statuses.
ghost use Rattle.std.specs.Prelude.{◌≡◌, true, List};
ghost use Rattle.souper_records.specs.Prelude.{ItemType, Item, stream, has_failed};
ghost use Rattle.souper_records.specs.Uniques.{HasSeen};
ghost use Rattle.souper_records.specs.Outcomes.{input_stream};
ghost use Rattle.souper_records.specs.Runs.{EndsWithFault, IsOutputEnd, IsPartsEnd, IsRecordsRun, IsDistinctRun, IsCountRun};

use crate::counts::{Unwritten, write_counts};
use crate::each::Records;
use crate::layout::{Layout, Summary};
use crate::options::ReadOptions;
use crate::parts::{Source, write_parts};
use crate::report::{report_fault, report_memory, report_read_fault};
use crate::seen::Seen;
use crate::stop::Stop;
use crate::uniq::Distinct;
use souper_stream::StreamItem;
use souper_watched::Watched;
use std::alloc::Global;
use std::io::{BufRead, ErrorKind, Write};
use std::{io, mem};

/// The status of a run whose output is a pipe that nobody reads: as a shell shows the end of a program by SIGPIPE, 128 and its number.
pub const BROKEN_PIPE: u8 = 141;

/// Reports a fault of the output, unless it is a pipe that nobody reads, and returns the status of the program.
///
/// - 2: the fault was written to `err`, in a line.
/// - 141 ([`BROKEN_PIPE`]): the fault is a broken pipe. Nothing was written to `err`.
///
/// If a write to `err` fails, the status is the same.
pub fn report_output<E: Write>(alloc: Global, fault: &io::Error, err: &mut Watched<E>) -> u8
    ensures fault { EndsWithFault fault.now (stream E.contents err.old err.new) result }
    ensures stays { has_failed err.old ≡ true → has_failed err.new ≡ true }
{
    match fault.kind() {
        ErrorKind::BrokenPipe => BROKEN_PIPE,
        _ => {
            report_fault(alloc, "write error", fault, err);
            2
        }
    }
}

// Flushes the output and returns the status, or reports why it was not flushed.
fn end_output<W: Write, E: Write>(
    alloc: Global,
    status: u8,
    out: &mut Watched<W>,
    err: &mut Watched<E>,
) -> u8
    ensures end { IsOutputEnd status (stream W.contents out.old out.new) (stream E.contents err.old err.new) result }
    ensures out_stays { has_failed out.old ≡ true → has_failed out.new ≡ true }
    ensures stays { has_failed err.old ≡ true → has_failed err.new ≡ true }
{
    match out.flush() {
        Ok(()) => status,
        Err(fault) => report_output(alloc, &fault, err),
    }
}

/// Flushes the output after all parts were written to it ([`write_parts`](crate::parts::write_parts)), or reports why not all were.
/// Returns the status of the program, as [`each_run_with`] does.
pub fn end_parts<W: Write, E: Write>(
    alloc: Global,
    name: &str,
    parts: Result<bool, Stop>,
    out: &mut Watched<W>,
    err: &mut Watched<E>,
) -> u8
    ensures end { IsPartsEnd name.now parts (stream W.contents out.old out.new) (stream E.contents err.old err.new) result }
    ensures out_stays { has_failed out.old ≡ true → has_failed out.new ≡ true }
    ensures stays { has_failed err.old ≡ true → has_failed err.new ≡ true }
{
    match parts {
        Ok(refused) => end_output(alloc, u8::from(refused), out, err),
        Err(Stop::Input(fault)) => {
            report_read_fault(alloc, name, &fault, err);
            2
        }
        Err(Stop::Output(fault)) => report_output(alloc, &fault, err),
        Err(Stop::Memory) => {
            report_memory(err);
            2
        }
    }
}

/// Writes the record of each item of the stream to `out`, in order, part by part ([`ItemReader`](souper_stream::ItemReader)), and returns the
/// status of the program. For a refused part the records of items that it begins with are written.
///
/// - 0: done, no part was refused, and nothing was written to `err`.
/// - 1: a part was refused. Each refusal was written to `err`, in order, with a newline, and shows the name: with recovery all of the
///   stream, else the first one, and nothing after it was parsed.
/// - 2: a read or `out` failed, the input is not UTF-8, or memory ran out, and a line that says so was written to `err`, after the
///   refusals so far. Unless `out` failed, the records of the parts so far were written, and nothing else.
/// - 141 ([`BROKEN_PIPE`]): `out` failed, since it is a pipe that nobody reads. Only the refusals so far were written to `err`.
///
/// If a write to `err` fails, the status is the same. After a failed write nothing is known of the bytes written to `out`.
pub fn each_run_with<T: StreamItem + Drop, R: BufRead, W: Write, E: Write>(
    alloc: Global,
    layout: Layout,
    options: ReadOptions<'_>,
    reader: &mut R,
    out: &mut Watched<W>,
    err: &mut Watched<E>,
) -> u8
    ensures { IsRecordsRun layout (input_stream T.item_type options.entry (R.remaining reader.old)) (R.remaining reader.new)
        (stream W.contents out.old out.new) (stream E.contents err.old err.new) result }
{
    let name = options.name;
    let mut records = Records::new(alloc, layout);
    let source = Source::new(alloc, options);
    let parts = write_parts::<T, Records, R, W, E>(alloc, source, &mut records, reader, out, err);
    end_parts(alloc, name, parts, out, err)
}

/// Writes the record of each item of the stream that is the same graph as no earlier one, of this stream or of those before, to `out`: of
/// each graph the first item, in order. With a layout that renames, items that differ in names alone are the same. Returns the status of
/// the program, as [`each_run_with`] does.
///
/// `seen` is passed from stream to stream of one type and one layout: it has the texts of the items so far, in memory. After status 2 or 141
/// nothing is known of it, and it is not to be used again.
pub fn uniq_run_with<T: StreamItem + Drop, R: BufRead, W: Write, E: Write>(
    layout: Layout,
    options: ReadOptions<'_>,
    seen: &mut Seen,
    reader: &mut R,
    out: &mut Watched<W>,
    err: &mut Watched<E>,
) -> u8
    ensures { (earlier : List Item) → HasSeen T.item_type layout.rename earlier seen.old
        → IsDistinctRun layout earlier (input_stream T.item_type options.entry (R.remaining reader.old)) (R.remaining reader.new)
        (stream W.contents out.old out.new) seen.new (stream E.contents err.old err.new) result }
{
    let (alloc, name) = (seen.alloc, options.name);
    let mut distinct = Distinct::new(layout, mem::replace(seen, Seen::new(alloc)));
    let source = Source::new(alloc, options);
    let parts = write_parts::<T, Distinct, R, W, E>(alloc, source, &mut distinct, reader, out, err);
    *seen = distinct.seen;
    end_parts(alloc, name, parts, out, err)
}

/// Writes the records of the distinct items that were seen to `out` ([`write_counts`]), and returns the status of the program.
///
/// - 0: done, and nothing was written to `err`.
/// - 2: `out` failed or memory ran out, and a line that says so was written to `err`. Unless `out` failed, the records of the first ones
///   were written, and nothing else.
/// - 141 ([`BROKEN_PIPE`]): `out` failed, since it is a pipe that nobody reads. Nothing was written to `err`.
///
/// If a write to `err` fails, the status is the same.
pub fn count_run<W: Write, E: Write>(
    alloc: Global,
    layout: Layout,
    summary: Summary,
    seen: &Seen,
    out: &mut Watched<W>,
    err: &mut Watched<E>,
) -> u8
    ensures { (k : ItemType) (items : List Item) → HasSeen k layout.rename items seen.now
        → IsCountRun layout summary items (stream W.contents out.old out.new) (stream E.contents err.old err.new) result }
{
    match write_counts(alloc, layout, summary, seen, out) {
        Ok(()) => end_output(alloc, 0, out, err),
        Err(Unwritten::Output(fault)) => report_output(alloc, &fault, err),
        Err(Unwritten::Memory) => {
            report_memory(err);
            2
        }
    }
}
