//! One run of the formatter, over any reader and two writers.
ghost use Rattle.std.specs.Prelude.{◌≡◌, false, true, string_bytes, IfOk, IfErr, OnOk, OnErr};
ghost use Rattle.souper_ir.specs.Kinds.{item_type_of};
ghost use Rattle.souper_watched.specs.Watching.{watched_inner, has_failed, has_ended};
ghost use Rattle.souper_watched.specs.Streams.{stream, IsGiven};
ghost use Rattle.souper_format.specs.Reporting.{ReportedIoError};
ghost use Rattle.souper_format.specs.Runs.{ReadAll, FaultMeans, IsFormatRun, IsKnownRun};
ghost use Rattle.souper_format.specs.Dispatch.{ReportedUsage};

use crate::command::Kind;
use crate::items::format_text;
use crate::report::{report_error, report_fault, report_memory};
use crate::watched::Watched;
use std::alloc::Global;
use std::io;
use std::io::{ErrorKind, Read, Write};

// Why no text was read.
#[derive(Drop)]
enum ReadFault {
    Failed(io::Error),
    NotText,
    OutOfMemory,
}

// Reads to the end. A failed read is not tried again.
fn read_text<R: Read>(alloc: Global, input: &mut Watched<R>) -> Result<String, ReadFault>
    requires works { has_failed input.old ≡ false }
    requires begins { has_ended input.old ≡ false }
    ensures text { IfOk result (λ text. ReadAll (stream R.remaining input.old input.new) (string_bytes text)) }
    ensures fault { IfErr result (FaultMeans (stream R.remaining input.old input.new)) }
{
    let mut bytes = Vec::new(alloc);
    let mut buffer = [0u8; 32768];
    for _turn in 0..u64::MAX {
        match input.read(&mut buffer) {
            Ok(0) => {
                match String::from_utf8(bytes) {
                    Ok(text) => return Ok(text),
                    Err(_) => return Err(ReadFault::NotText),
                }
            }
            Ok(count) => {
                if bytes.extend_from_slice(&buffer[..count]).is_err() {
                    return Err(ReadFault::OutOfMemory);
                }
            }
            Err(fault) => return Err(ReadFault::Failed(fault)),
        }
    }
    // Each turn read a byte, and a vector holds fewer bytes than there were turns.
    unreachable!()
}

/// Writes the whole text and flushes.
pub(crate) fn deliver<W: Write>(text: &str, out: &mut Watched<W>) -> io::Result<()>
    ensures given { OnOk result (IsGiven (stream W.contents out.old out.new) text.now) }
    ensures works { OnOk result (has_failed out.new ≡ has_failed out.old) }
    ensures failed { OnErr result (has_failed out.new ≡ true) }
{
    out.write_all(text.as_bytes())?;
    out.flush()
}

/// Reads items of the kind to the end of `input`, writes the canonical text of each and a newline to `out`, and returns
/// the status of the program.
///
/// - 0: done, and nothing was written to `err`.
/// - 1: what was read spells no list of such items. Nothing was written to `out`, and to `err` the parse error, which shows
///   no file name, and a newline.
/// - 3: the reader or `out` failed, what was read is not UTF-8, or memory ran out. A line that says so was written to
///   `err`, and nothing to `out`, unless `out` failed.
///
/// If a write to `err` fails, the status is the same.
pub fn format_run<R: Read, W: Write, E: Write>(
    alloc: Global,
    kind: Kind,
    input: &mut Watched<R>,
    out: &mut Watched<W>,
    err: &mut Watched<E>,
) -> u8
    requires input_works { has_failed input.old ≡ false }
    requires input_begins { has_ended input.old ≡ false }
    requires out_works { has_failed out.old ≡ false }
    requires err_works { has_failed err.old ≡ false }
    ensures run { IsFormatRun (item_type_of kind)
        (stream R.remaining input.old input.new) (stream W.contents out.old out.new) (stream E.contents err.old err.new) result }
    ensures known { IsKnownRun (item_type_of kind)
        (R.remaining (watched_inner input.old)) (stream W.contents out.old out.new) result }
{
    let source = match read_text(alloc, input) {
        Ok(source) => source,
        Err(ReadFault::Failed(fault)) => {
            report_fault(alloc, &fault, err);
            return 3;
        }
        Err(ReadFault::NotText) => {
            report_fault(alloc, &io::Error::from(ErrorKind::InvalidData), err);
            return 3;
        }
        Err(ReadFault::OutOfMemory) => {
            report_memory(err);
            return 3;
        }
    };
    match format_text(alloc, kind, source.as_str(), None) {
        Ok(text) => match deliver(text.as_str(), out) {
            Ok(()) => 0,
            Err(fault) => {
                report_fault(alloc, &fault, err);
                3
            }
        },
        Err(error) => report_error(alloc, &error, err),
    }
}

/// Writes to `err` the fault that kept the program from its command, and returns the status of the program, which is 3.
pub fn report<E: Write>(alloc: Global, fault: &io::Error, err: &mut Watched<E>) -> u8
    ensures status { result ≡ 3 }
    ensures reported { ReportedIoError (stream E.contents err.old err.new) }
{
    report_fault(alloc, fault, err);
    3
}

/// Writes to `err` how the program is used, and returns the status of the program, which is 2.
pub fn usage<E: Write>(err: &mut Watched<E>) -> u8
    ensures status { result ≡ 2 }
    ensures reported { ReportedUsage (stream E.contents err.old err.new) }
{
    let _ = err.write_all(
        b"usage: souper_fmt lhs|rhs|rep\n       souper_fmt same lhs|rhs|rep PATH PATH\n",
    );
    2
}
