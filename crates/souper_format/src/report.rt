//! The lines that report an error, each to a stream that may fail.
ghost use Rattle.std.specs.Prelude.{◌≡◌, string_bytes, IfOk, ℕ, List};
ghost use Rattle.souper_watched.specs.Streams.{stream};
ghost use Rattle.souper_format.specs.Reporting.{fault_line, IsDisplayLine, ReportedOutOfMemory, ReportedIoError, ErrorReported};

use crate::watched::Watched;
use souper_ir::parse::{ParseError, ParseErrorKind};
use std::alloc::{AllocError, Global};
use std::io;
use std::io::Write;

/// Reports out of memory, without allocating.
pub(crate) fn report_memory<E: Write>(err: &mut Watched<E>)
    ensures { ReportedOutOfMemory (stream E.contents err.old err.new) }
{
    let _ = err.write_all(b"out of memory\n");
}

fn line_of_fault(alloc: Global, fault: &io::Error) -> Result<String, AllocError>
    ensures { IfOk result (λ line. (shown : List ℕ) × (string_bytes line ≡ fault_line shown)) }
{
    let shown = fault.to_string(alloc)?;
    let mut line = String::new(alloc);
    line.push_str("IO error: ")?;
    line.push_str(shown.as_str())?;
    line.push('\n')?;
    Ok(line)
}

/// Reports a fault of a stream.
pub(crate) fn report_fault<E: Write>(alloc: Global, fault: &io::Error, err: &mut Watched<E>)
    ensures { ReportedIoError (stream E.contents err.old err.new) }
{
    match line_of_fault(alloc, fault) {
        Ok(line) => {
            let _ = err.write_all(line.as_bytes());
        }
        Err(_) => report_memory(err),
    }
}

/// The text that the error shows, and a newline.
pub fn line_of_error(alloc: Global, error: &ParseError) -> Result<String, AllocError>
    ensures { IfOk result (λ line. IsDisplayLine error.now (string_bytes line)) }
{
    let mut line = error.to_string(alloc)?;
    line.push('\n')?;
    Ok(line)
}

/// Reports an error of a parser, and returns the status of the program: 1 if it rejected a text, else 3.
pub(crate) fn report_error<E: Write>(alloc: Global, error: &ParseError, err: &mut Watched<E>) -> u8
    ensures { ErrorReported (stream E.contents err.old err.new) result error.now }
{
    if let Some(fault) = error.io_error() {
        report_fault(alloc, fault, err);
        return 3;
    }
    if error.kind() == ParseErrorKind::Parse
        && let Ok(line) = line_of_error(alloc, error)
    {
        let _ = err.write_all(line.as_bytes());
        return 1;
    }
    report_memory(err);
    3
}
