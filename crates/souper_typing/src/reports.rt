//! The lines that report items without widths.
ghost use Rattle.std.specs.Prelude.{◌≡◌, ◌++◌, true, map, Option, IfOk, OnOk, option_map, string_bytes};
ghost use Rattle.souper_watched.specs.Streams.{stream};
ghost use Rattle.souper_watched.specs.Watching.{has_failed};
ghost use Rattle.souper_typing.specs.Parts.{flaw_report, flaw_reports, report_if, ReportedText};

use souper_records::parts::Part;
use souper_stream::Start;
use souper_watched::Watched;
use std::alloc::{AllocError, Global};
use std::io::Write;

// Appends the lines of the error of an item that begins there, if it has one.
fn append_report(
    alloc: Global,
    name: &str,
    start: Start,
    flaw: &Option<String>,
    out: &mut String,
) -> Result<(), AllocError>
    ensures { OnOk result (string_bytes out.new ≡ string_bytes out.old ++ flaw_report name.now start (option_map string_bytes flaw.now)) }
{
    match flaw {
        Some(lines) => {
            let (line, lines) = (start.line, lines.as_str());
            let report = format!(in alloc; "{name}:{line}: {lines}")?;
            out.push_str(report.as_str())
        }
        None => Ok(()),
    }
}

// The lines of the errors of a part, of whose items these have none or the lines.
fn reports_of(alloc: Global, part: Part<'_>, flaws: &[Option<String>]) -> Result<String, AllocError>
    ensures { IfOk result (λ out. string_bytes out ≡ flaw_reports part.entry.name.now part.entry.starts.now (map (option_map string_bytes) flaws.now)) }
{
    let mut out = String::new(alloc);
    for (start, flaw) in part.starts.iter().zip(flaws) {
        append_report(alloc, part.name, *start, flaw, &mut out)?;
    }
    Ok(out)
}

/// The same, if an item has an error.
pub(crate) fn report_of(
    alloc: Global,
    any: bool,
    part: Part<'_>,
    flaws: &[Option<String>],
) -> Result<Option<String>, AllocError>
    ensures { IfOk result (λ report. option_map string_bytes report ≡ report_if any part.entry.name.now part.entry.starts.now (map (option_map string_bytes) flaws.now)) }
{
    if any {
        Ok(Some(reports_of(alloc, part, flaws)?))
    } else {
        Ok(None)
    }
}

/// Writes the report, if there is one.
pub(crate) fn write_report<E: Write>(report: &Option<String>, err: &mut Watched<E>)
    ensures reported { ReportedText (stream E.contents err.old err.new) (option_map string_bytes report.now) }
    ensures stays { has_failed err.old ≡ true → has_failed err.new ≡ true }
{
    if let Some(text) = report {
        let _ = err.write_all(text.as_bytes());
    }
}
