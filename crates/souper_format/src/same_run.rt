//! Whether two files have pairwise the same graphs.
ghost use Rattle.std.specs.Prelude.{◌≡◌, ℕ, List, IfOk, IfErr};
ghost use Rattle.std.specs.List.{AllByRecursion};
ghost use Rattle.souper_graph.specs.WellFormed.{WellFormed};
ghost use Rattle.souper_ir.specs.Kinds.{item_type_of};
ghost use Rattle.souper_format.specs.Kinds.{kind_of_items, view_items, SameItems};
ghost use Rattle.souper_watched.specs.Streams.{stream};
ghost use Rattle.souper_format.specs.SameRuns.{FileRead, ReadSpells, ReadError, IsFilesRun, IsComparison};

use crate::command::Kind;
use crate::files::TextFiles;
use crate::items::{Items, read_items};
use crate::report::{report_error, report_fault, report_memory};
use crate::run::deliver;
use crate::same::same;
use crate::watched::Watched;
use souper_ir::parse::ParseError;
use std::alloc::{AllocError, Global};
use std::io;
use std::io::{ErrorKind, Write};
use std::rt::Files;

// The items that the text of a read spells.
fn items_of_read(
    alloc: Global,
    kind: Kind,
    read: io::Result<String>,
    path: &str,
) -> Result<Items, ParseError>
    ensures kind { IfOk result (λ items. kind_of_items items ≡ kind) }
    ensures well_formed { IfOk result (λ items. AllByRecursion WellFormed (view_items items)) }
    ensures spelled { IfOk result (λ items. ReadSpells (item_type_of kind) read (view_items items)) }
    ensures refused { IfErr result (ReadError (item_type_of kind) path.now read) }
{
    match read {
        Ok(source) => read_items(alloc, kind, source.as_str(), Some(path)),
        Err(fault) => {
            if fault.kind() == ErrorKind::OutOfMemory {
                Err(ParseError::from(AllocError))
            } else {
                Err(ParseError::from(fault))
            }
        }
    }
}

// Writes whether the lists are the same.
fn compare<W: Write, E: Write>(
    alloc: Global,
    a: &Items,
    b: &Items,
    out: &mut Watched<W>,
    err: &mut Watched<E>,
) -> u8
    requires formed { AllByRecursion WellFormed (view_items a.now) }
    requires other_formed { AllByRecursion WellFormed (view_items b.now) }
    ensures { IsComparison (SameItems a.now b.now) (stream W.contents out.old out.new) (stream E.contents err.old err.new) result }
{
    let line = match same(alloc, a, b) {
        Ok(true) => "same\n",
        Ok(false) => "different\n",
        Err(_) => {
            report_memory(err);
            return 3;
        }
    };
    match deliver(line, out) {
        Ok(()) => 0,
        Err(fault) => {
            report_fault(alloc, &fault, err);
            3
        }
    }
}

/// Reads items of the kind from the file at the first path, then from the one at the second, writes `same` or `different`
/// and a newline to `out`, and returns the status of the program. The lists are the same as by [`same`](crate::same::same).
///
/// - 0: done, and nothing was written to `err`.
/// - 1: the text of a file spells no list of such items. Nothing was written to `out`, and to `err` the parse error, which
///   shows the path, and a newline.
/// - 3: a read or `out` failed, what was read is not UTF-8, or memory ran out. A line that says so was written to
///   `err`, and nothing to `out`, unless `out` failed.
///
/// If a write to `err` fails, the status is the same.
pub fn compare_files<F: TextFiles, W: Write, E: Write>(
    files: &F,
    alloc: Global,
    kind: Kind,
    paths: (&str, &str),
    out: &mut Watched<W>,
    err: &mut Watched<E>,
) -> u8
    ensures { IsFilesRun (item_type_of kind) (F.gives files.now) paths.entry.0.now paths.entry.1.now
        (stream W.contents out.old out.new) (stream E.contents err.old err.new) result }
{
    let (a, b) = paths;
    let first = match items_of_read(alloc, kind, files.read_text(a), a) {
        Ok(items) => items,
        Err(error) => return report_error(alloc, &error, err),
    };
    let second = match items_of_read(alloc, kind, files.read_text(b), b) {
        Ok(items) => items,
        Err(error) => return report_error(alloc, &error, err),
    };
    compare(alloc, &first, &second, out, err)
}

/// [`compare_files`] over the files of the system.
pub fn same_run<R: Files + AllocGlobal, W: Write, E: Write>(
    rt: &R,
    alloc: Global,
    kind: Kind,
    a: &str,
    b: &str,
    out: &mut Watched<W>,
    err: &mut Watched<E>,
) -> u8
    ensures { IsFilesRun (item_type_of kind) (λ (path : List ℕ) (read : FileRead). Unit {0}) a.now b.now
        (stream W.contents out.old out.new) (stream E.contents err.old err.new) result }
{
    compare_files(rt, alloc, kind, (a, b), out, err)
}
