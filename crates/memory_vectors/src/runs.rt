//! Runs of the formatter. The writers are arrays, which do not allocate.
use crate::cases::Cases;
use crate::met::{Met, completed_if, equal};
use anyhow::{Result, anyhow};
use souper_format::command::Kind;
use souper_format::run::format_run;
use souper_format::watched::Watched;
use std::alloc::Global;
use std::io;

/// Whether these bytes, and no others, were written to the array.
pub fn holds(array: &[u8], bytes: &[u8]) -> bool {
    match array.strip_prefix(bytes) {
        Some(rest) => rest.iter().all(|byte| *byte == 0),
        None => false,
    }
}

/// An error that shows what was written to the array, if that is not these bytes and no others.
pub fn wrote(array: &[u8], bytes: &[u8]) -> Result<()> {
    if holds(array, bytes) {
        return Ok(());
    }
    let want = anyhow!("want {}", bytes.escape_ascii());
    Err(want.context(format_args!("wrote {}", array.escape_ascii())))
}

// Formats the source, which ends in this status with these bytes, or in out of memory.
fn run(alloc: Global, source: &[u8], want: u8, output: &[u8], line: &[u8]) -> Result<Met> {
    let mut written = [0u8; 100];
    let mut reported = [0u8; 100];
    let mut input = Watched::new(source);
    let mut out = Watched::new(written.as_mut_slice());
    let mut err = Watched::new(reported.as_mut_slice());
    let status = format_run(alloc, Kind::Lhs, &mut input, &mut out, &mut err);
    let met = completed_if(alloc, status == want);
    equal(input.failed(), false)?;
    equal((out.failed(), err.failed()), (false, false))?;
    if status == want {
        wrote(&written, output)?;
        wrote(&reported, line)?;
    } else {
        equal(status, 3)?;
        wrote(&written, b"")?;
        wrote(&reported, b"out of memory\n")?;
    }
    Ok(met)
}

// A text with an item.
fn item(alloc: Global) -> Result<Met> {
    let source = b"%a = var\n%b = var\ninfer %b";
    run(alloc, source, 0, b"%b = var\ninfer %b\n\n", b"")
}

// A text that is refused.
fn refusal(alloc: Global) -> Result<Met> {
    let line =
        "unknown:1:6: no value named '%x' in scope\n     |\n   1 | infer %x\n     |      ^\n";
    run(alloc, b"infer %x", 1, b"", line.as_bytes())
}

/// The cases of this file.
pub fn all(cases: &mut Cases<'_>) -> io::Result<()> {
    cases.run("formatting", item)?;
    cases.run("reporting_a_refusal", refusal)?;
    Ok(())
}
