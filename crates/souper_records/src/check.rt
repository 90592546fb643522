//! Whether a stream is canonical.
ghost use Rattle.std.specs.Prelude.{◌≡◌, string_bytes};
ghost use Rattle.souper_records.specs.Prelude.{concat, all_lines, stream};
ghost use Rattle.souper_records.specs.Canonical.{ReportedOtherLine, IsCheckRun};
ghost use Rattle.souper_diff.specs.Comparisons.{IsCompared};
ghost use Rattle.souper_records.specs.Outcomes.{parts_of, items_of};
ghost use Rattle.souper_records.specs.Records.{records_of};

use crate::each::Records;
use crate::layout::PLAIN;
use crate::options::ReadOptions;
use crate::parts::{Part, PartSink, Source, write_parts};
use crate::rejected::Rejected;
use crate::report::{report_line, report_memory, report_read_fault};
use crate::stop::Stop;
use souper_diff::comparison::Comparison;
use souper_ir::ast::{Arena, Statement};
use souper_ir::parse::{Kind, Sink, WholeItem};
use souper_stream::{ChunkSink, StreamItem};
use souper_watched::Watched;
use std::alloc::{AllocError, Global};
use std::io;
use std::io::{BufRead, Write};

// Reports on which line the text of this name is not canonical, and returns the status of the program.
fn report_other_line<E: Write>(alloc: Global, name: &str, line: usize, err: &mut Watched<E>) -> u8
    ensures { ReportedOtherLine name.now line (stream E.contents err.old err.new) result }
{
    if let Ok(says) = format!(in alloc; "{name}:{line}: not canonical\n") {
        report_line(&says, err);
        return 1;
    }
    report_memory(err);
    2
}

// The records of the items of a part, and how far the stream so far is the same as the records of its items.
#[derive(Drop)]
struct Checked {
    records: Records,
    comparison: Comparison,
}

impl<T: WholeItem + Drop> Sink<T> for Checked {
    ghost holds = { λ first checked items. (checked.comparison ≡ first.comparison) × (checked.records.layout ≡ first.records.layout) × (string_bytes checked.records.out ≡ records_of first.records.layout items) };

    fn take(&mut self, item: T) -> Result<Option<Arena<Statement>>, AllocError> {
        Sink::<T>::take(&mut self.records, item)
    }
}

impl<T: WholeItem + Drop> ChunkSink<T> for Checked {
    fn rollback(&mut self) {
        ChunkSink::<T>::rollback(&mut self.records);
    }
}

// Compares each part with its records, and drops them. Nothing is written.
impl<T: StreamItem + Drop> PartSink<T> for Checked {
    ghost wrote = { λ name a x b y os. (b.records.layout ≡ a.records.layout) × IsCompared b.comparison (concat (all_lines (parts_of os))) (records_of a.records.layout (items_of os)) };

    fn write_part<W: Write>(
        &mut self,
        part: Part<'_>,
        _refusal: Option<Rejected<'_>>,
        _out: &mut Watched<W>,
    ) -> Result<(), Stop> {
        self.comparison
            .append(part.text, self.records.out.as_bytes())?;
        self.records.out.clear();
        Ok(())
    }
}

/// Reads the stream part by part, and returns the status of the program: whether it is canonical, the canonical texts of the items that it
/// spells.
///
/// - 0: it is, and nothing was written to `err`.
/// - 1: it is not, and a line was written to `err` that says so, with the name and the number of the first line that differs:
///   `NAME:LINE: not canonical`; or it is refused, and the first refusal was written, which shows the name, and a newline, and its hint, if a kind is given for
///   `hints`.
/// - 2: a read failed, the input is not UTF-8, or memory ran out. A line that says so was written to `err`.
///
/// If a write to `err` fails, the status is the same.
pub fn check_run<T: StreamItem + Drop, R: BufRead, E: Write>(
    alloc: Global,
    reader: &mut R,
    name: &str,
    hints: Option<Kind>,
    err: &mut Watched<E>,
) -> u8
    ensures { IsCheckRun T.item_type name.now hints (R.remaining reader.old) (R.remaining reader.new)
        (stream E.contents err.old err.new) result }
{
    let options = ReadOptions {
        name,
        recover: false,
        line_buffered: false,
        hints,
    };
    let source = Source::new(alloc, options);
    let mut checked = Checked {
        records: Records::new(alloc, PLAIN),
        comparison: Comparison::new(alloc),
    };
    let mut out = Watched::new(io::sink());
    match write_parts::<T, Checked, R, io::Sink, E>(
        alloc,
        source,
        &mut checked,
        reader,
        &mut out,
        err,
    ) {
        Ok(true) => 1,
        Ok(false) => match checked.comparison.differing_line() {
            None => 0,
            Some(line) => report_other_line(alloc, name, line, err),
        },
        Err(Stop::Input(fault)) => {
            report_read_fault(alloc, name, &fault, err);
            2
        }
        // Nothing is written to `out`, so memory ran out.
        Err(_) => {
            report_memory(err);
            2
        }
    }
}
