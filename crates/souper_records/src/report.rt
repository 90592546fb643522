//! The lines that report an error, each to a stream that may fail.
ghost use Rattle.std.specs.Prelude.{◌≡◌, ℕ, ◌-◌, ◌<◌, ◌++◌, List, length, Option, true, false, replicate, codes, decimal, string_bytes, IfOk, OnOk};
ghost use Rattle.souper_records.specs.Prelude.{ItemType, Line, kind_of, stream, IsGiven, has_failed};
ghost use Rattle.souper_watched.specs.Streams.{Reported};
ghost use Rattle.souper_errors.specs.Errors.{message_of};
ghost use Rattle.souper_errors.specs.Places.{right_aligned};
ghost use Rattle.souper_stream.specs.Parts.{HasParts};
ghost use Rattle.souper_records.specs.Reports.{IsErrorLine, IsNotUtf8Line, IsRefusalLine, IsShownLine, item_end_lines, says_end, ReportedMemory, ReportedReadFault, ReportedError, ReportedInput};

use crate::stop::{ReadFault, Stop, stop_of};
use souper_ir::parse::{Location, ParseError, ParseErrorKind};
use souper_stream::{ItemReader, NotUtf8};
use souper_watched::Watched;
use std::alloc::{AllocError, Global};
use std::fmt::Display;
use std::io::Write;

/// Reports out of memory, without allocating.
pub fn report_memory<E: Write>(err: &mut Watched<E>)
    ensures reported { ReportedMemory (stream E.contents err.old err.new) }
    ensures stays { has_failed err.old ≡ true → has_failed err.new ≡ true }
{
    let _ = err.write_all(b"souper_items: out of memory\n");
}

// The line of an error of the stream of this name.
fn fault_line<F: Display>(alloc: Global, name: &str, fault: &F) -> Result<String, AllocError>
    ensures { IfOk result (λ line. IsShownLine (F.output fault.now) name.now (string_bytes line)) }
{
    let says = fault.to_string(alloc)?;
    format!(in alloc; "souper_items: {name}: {says}\n")
}

/// Reports an error of the stream of this name, in a line with the error's text.
pub fn report_fault<F: Display, E: Write>(
    alloc: Global,
    name: &str,
    fault: &F,
    err: &mut Watched<E>,
)
    ensures reported { Reported (stream E.contents err.old err.new) (IsShownLine (F.output fault.now) name.now) }
    ensures stays { has_failed err.old ≡ true → has_failed err.new ≡ true }
{
    match fault_line(alloc, name, fault) {
        Ok(line) => report_line(&line, err),
        Err(_) => report_memory(err),
    }
}

/// Reports bytes of the stream of this name that are not UTF-8, in a line that begins with the name and the number of their line.
pub fn report_not_utf8<E: Write>(alloc: Global, name: &str, bytes: NotUtf8, err: &mut Watched<E>)
    ensures reported { Reported (stream E.contents err.old err.new) (IsNotUtf8Line bytes name.now) }
    ensures stays { has_failed err.old ≡ true → has_failed err.new ≡ true }
{
    let NotUtf8 { line, offset } = bytes;
    match format!(in alloc; "{name}:{line}: not UTF-8 at byte {offset}\n") {
        Ok(line) => report_line(&line, err),
        Err(_) => report_memory(err),
    }
}

/// Reports a fault of reading the stream of this name.
pub fn report_read_fault<E: Write>(
    alloc: Global,
    name: &str,
    fault: &ReadFault,
    err: &mut Watched<E>,
)
    ensures reported { ReportedReadFault name.now (stream E.contents err.old err.new) fault.now }
    ensures stays { has_failed err.old ≡ true → has_failed err.new ≡ true }
{
    match fault {
        ReadFault::Utf8(bytes) => report_not_utf8(alloc, name, *bytes, err),
        ReadFault::Io(fault) => report_fault(alloc, name, fault, err),
    }
}

/// The text that the error shows with its location, and a newline.
pub(crate) fn line_of_error(alloc: Global, error: &ParseError) -> Result<String, AllocError>
    ensures { IfOk result (λ line. IsErrorLine error.now (string_bytes line)) }
{
    let mut line = error.with_location().to_string(alloc)?;
    line.push('\n')?;
    Ok(line)
}

// Whether the message speaks of the end of the input.
fn says_end(error: &ParseError) -> bool
    ensures { result ≡ says_end (message_of error.now) }
{
    match error.message() {
        Some(message) => message == "unexpected EOF",
        None => false,
    }
}

// The number in four columns, or more.
fn aligned(alloc: Global, number: usize) -> Result<String, AllocError>
    ensures { IfOk result (λ text. string_bytes text ≡ right_aligned 4 (decimal number)) }
{
    format!(in alloc; "{number:>4}")
}

// Appends a caret at the column, and a newline.
fn push_caret(column: usize, out: &mut String) -> Result<(), AllocError>
    ensures { OnOk result (string_bytes out.new ≡ string_bytes out.old ++ (replicate (column - 1) 32 ++ codes "^\n")) }
{
    for _ in 1..column {
        out.push(' ')?;
    }
    out.push_str("^\n")
}

// The lines of a refusal at the end of an item after which the stream goes on. They have the form of an error's text.
fn item_end_lines(alloc: Global, name: &str, location: &Location) -> Result<String, AllocError>
    ensures { IfOk result (λ lines. string_bytes lines ≡ item_end_lines name.now location.now) }
{
    let (line, column, text) = (location.line, location.column, location.text.as_str());
    let number = aligned(alloc, line)?;
    let mut lines = format!(in alloc;
        "{name}:{line}:{column}: unexpected end of item\n     |\n{number} | {text}\n     | "
    )?;
    push_caret(column, &mut lines)?;
    Ok(lines)
}

/// The line of a refusal of the stream of this name, which ends with the refused part or goes on: the text that the error shows with its
/// location, and a newline. It does not speak of the end of the input where only an item ends.
pub(crate) fn line_of_refusal(
    alloc: Global,
    name: &str,
    is_last: bool,
    error: &ParseError,
) -> Result<String, AllocError>
    ensures { IfOk result (λ line. IsRefusalLine is_last name.now error.now (string_bytes line)) }
{
    match error.location() {
        Some(location) if !is_last && says_end(error) => item_end_lines(alloc, name, location),
        _ => line_of_error(alloc, error),
    }
}

/// Writes the line.
pub(crate) fn report_line<E: Write>(line: &String, err: &mut Watched<E>)
    ensures given { has_failed err.new ≡ false → IsGiven (stream E.contents err.old err.new) (string_bytes line.now) }
    ensures stays { has_failed err.old ≡ true → has_failed err.new ≡ true }
{
    let _ = err.write_all(line.as_bytes());
}

/// Reports why reading the stream of this name by parts ended with an error, and returns the status of the program: 1 if the stream is
/// refused, else 2.
pub fn report_input<E: Write>(
    alloc: Global,
    name: &str,
    error: &ParseError,
    parts: &ItemReader,
    err: &mut Watched<E>,
) -> u8
    requires { kind_of error.now ≡ ParseErrorKind.Parse → (k : ItemType) × (start : Option (List ℕ)) × (now : Option (List ℕ)) × (ps : List (List Line)) × (0 < length ps) × HasParts k start now ps parts.now }
    ensures reported { ReportedInput name.now parts.now (stream E.contents err.old err.new) result error.now }
    ensures stays { has_failed err.old ≡ true → has_failed err.new ≡ true }
{
    if error.kind() == ParseErrorKind::Parse {
        return match line_of_refusal(alloc, name, parts.is_at_end(), error) {
            Ok(line) => {
                report_line(&line, err);
                1
            }
            Err(_) => {
                report_memory(err);
                2
            }
        };
    }
    match stop_of(error, parts.not_utf8()) {
        Stop::Input(fault) => report_read_fault(alloc, name, &fault, err),
        _ => report_memory(err),
    }
    2
}

/// Reports an error of the text of this name, and returns the status of the program: 1 if the text is refused, else 2.
pub fn report_error<E: Write>(
    alloc: Global,
    name: &str,
    error: &ParseError,
    err: &mut Watched<E>,
) -> u8
    ensures reported { ReportedError name.now (stream E.contents err.old err.new) result error.now }
    ensures stays { has_failed err.old ≡ true → has_failed err.new ≡ true }
{
    if let Some(fault) = error.io_error() {
        report_fault(alloc, name, fault, err);
        return 2;
    }
    if error.kind() == ParseErrorKind::Parse
        && let Ok(line) = line_of_error(alloc, error)
    {
        report_line(&line, err);
        return 1;
    }
    report_memory(err);
    2
}
