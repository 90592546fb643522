//! The run that adds the replacements of a stream to a store.

ghost use Rattle.std.specs.Prelude.{List};
ghost use Rattle.souper_watched.specs.Streams.{stream};
ghost use Rattle.souper_lookup.specs.Stored.{Entry, Stores};
ghost use Rattle.souper_find.specs.Runs.{IsFillRun};

use crate::hints::report_hint;
use souper_ir::ast::Replacement;
use souper_lookup::store::Store;
use souper_records::report::report_input;
use souper_stream::{ItemReader, read_with};
use souper_watched::Watched;
use std::alloc::Global;
use std::io::{BufRead, Write};

// Bytes to read before looking for a cut point.
const CHUNK: usize = 65536;

/// Adds the replacements of the stream to the store, and returns the status of the program.
///
/// - 0: done, and nothing was written to `err`.
/// - 1: the stream does not parse. The parse error, which shows the name, was written to `err`, then a newline, then the line of its hint,
///   if there is one.
/// - 2: a read failed, the input is not UTF-8, or memory ran out. A line that says so was written to `err`.
///
/// After status 1 or 2 nothing is promised of the store. If a write to `err` fails, the status is the same.
pub fn fill_run<R: BufRead, E: Write>(
    alloc: Global,
    store: &mut Store,
    reader: &mut R,
    name: &str,
    err: &mut Watched<E>,
) -> u8
    ensures { (entries : List Entry) → Stores entries store.old
        → IsFillRun entries name.now (R.remaining reader.old) (R.remaining reader.new) store.new (stream E.contents err.old err.new) result }
{
    let mut parts = ItemReader::new(alloc, CHUNK);
    match read_with::<Replacement, R, Store>(alloc, &mut parts, reader, Some(name), store) {
        Ok(()) => 0,
        Err(error) => {
            let status = report_input(alloc, name, &error, &parts, err);
            if status != 1 {
                return status;
            }
            report_hint(alloc, parts.part(), &error, err);
            status
        }
    }
}
