//! The records of the distinct items, after all were read.
ghost use Rattle.std.specs.Prelude.{◌≡◌, ◌++◌, List, OnOk, IfErr, string_bytes};
ghost use Rattle.souper_records.specs.Prelude.{ItemType, Item, stream, IsGiven, has_failed};
ghost use Rattle.souper_records.specs.Counts.{UnlessFailed};
ghost use Rattle.souper_records.specs.declared.counts.Unwritten.TheVariants.{Memory};
ghost use Rattle.souper_records.specs.Uniques.{HasSeen, summary_of_text, summary_of, WritesSummaryBegun};

use crate::layout::{Layout, Summary};
use crate::records::append_record_of_text;
use crate::seen::Seen;
use souper_watched::Watched;
use std::alloc::{AllocError, Global};
use std::io;
use std::io::Write;

/// Why the records of the distinct items were not all written.
#[derive(Drop)]
pub enum Unwritten {
    /// Writing failed.
    Output(io::Error),

    /// Memory ran out.
    Memory,
}

impl From<AllocError> for Unwritten {
    ghost from_gives = { λ _ fault. fault ≡ Memory };

    fn from(_refused: AllocError) -> Unwritten {
        Unwritten::Memory
    }
}

// Appends the record of a graph with this text and count, if it has one.
fn append_summary(
    alloc: Global,
    layout: Layout,
    summary: Summary,
    text: &str,
    count: u64,
    out: &mut String,
) -> Result<(), AllocError>
    ensures { OnOk result (string_bytes out.new ≡ string_bytes out.old ++ summary_of_text layout summary text.now count) }
{
    if summary.repeated && count < 2 {
        return Ok(());
    }
    if summary.counts {
        out.push_str(format!(in alloc; "; count {count}\n")?.as_str())?;
    }
    append_record_of_text(alloc, layout, text, out)
}

// Writes the records to `out`. The error is of the output.
fn write_records<W: Write>(records: &String, out: &mut Watched<W>) -> Result<(), Unwritten>
    ensures written { OnOk result (IsGiven (stream W.contents out.old out.new) (string_bytes records.now)) }
    ensures failed { IfErr result (λ fault. UnlessFailed fault (has_failed out.new) ⊥) }
{
    out.write_all(records.as_bytes()).map_err(Unwritten::Output)
}

// The size of records in bytes from which on they are written.
const CHUNK: usize = 65536;

/// Writes the record of the first item of each graph that was seen, in order; with `repeated`, of the graphs that more than one item has.
/// With `counts` each comes after a comment line that says how many items have its text, which are the items of the same graph:
/// `; count 3`. A count is at most `u64::MAX`.
///
/// The layout is that with which the items were seen. If memory runs out, records of the first ones were written. After an error of the
/// output `out` has failed, and nothing is known of the bytes written.
pub fn write_counts<W: Write>(
    alloc: Global,
    layout: Layout,
    summary: Summary,
    seen: &Seen,
    out: &mut Watched<W>,
) -> Result<(), Unwritten>
    ensures written { OnOk result ((k : ItemType) (items : List Item) → HasSeen k layout.rename items seen.now
        → IsGiven (stream W.contents out.old out.new) (summary_of layout summary items)) }
    ensures stopped { IfErr result (λ fault. UnlessFailed fault (has_failed out.new) ((k : ItemType) (items : List Item) → HasSeen k layout.rename items seen.now
        → WritesSummaryBegun layout summary items (stream W.contents out.old out.new))) }
{
    let mut records = String::new(alloc);
    for (text, count) in seen.counts.iter() {
        append_summary(alloc, layout, summary, text.as_str(), *count, &mut records)?;
        if records.len() >= CHUNK {
            write_records(&records, out)?;
            records.clear();
        }
    }
    write_records(&records, out)
}
