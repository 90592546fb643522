//! Which files are not canonical, and what would change in them.

use crate::hint::say_hint;
use crate::{failed, out_of_memory};
use souper_diff::unified::unified;
use souper_ir::parse::{Before, Kind, ParseErrorKind, WholeItem};
use souper_records::check::check_run;
use souper_records::layout::{Layout, PLAIN};
use souper_records::records::records_of_text;
use souper_records::report::{report_error, report_not_utf8};
use souper_records::run::end_parts;
use souper_records::stop::Stop;
use souper_stream::{StreamItem, not_utf8};
use souper_watched::Watched;
use std::alloc::{AllocError, Global};
use std::io::{BufRead, Write};

/// As [`check_run`], and writes the unified diff from the text to its canonical text, if it has one, to `out`.
pub(crate) fn check_diff<T: StreamItem + Drop, R: BufRead, W: Write, E: Write>(
    alloc: Global,
    reader: &mut R,
    name: &str,
    hints: Option<Kind>,
    out: &mut Watched<W>,
    err: &mut Watched<E>,
) -> u8 {
    let mut bytes = Vec::new(alloc);
    if let Err(fault) = reader.read_to_end(&mut bytes) {
        return failed(alloc, name, &fault, err);
    }
    let status = check_run::<T, &[u8], E>(alloc, &mut bytes.as_slice(), name, hints, err);
    if status != 1 {
        return status;
    }
    let source = str::from_utf8(&bytes).unwrap_or("");
    let diff = match records_of_text::<T>(alloc, PLAIN, source, Some(name)) {
        Ok(text) => unified(alloc, name, source, text.as_str()),
        Err(error) if error.kind() == ParseErrorKind::Parse => Ok(String::new(alloc)),
        Err(_) => Err(AllocError),
    };
    let Ok(diff) = diff else {
        return out_of_memory(err);
    };
    let written = out.write_all(diff.as_bytes()).map(|()| true);
    end_parts(alloc, name, written.map_err(Stop::Output), out, err)
}

/// The canonical text of the bytes, in this layout, or the status of the program if they are invalid or memory ran out, which was reported.
pub(crate) fn canonical<T: WholeItem + Drop, E: Write>(
    alloc: Global,
    layout: Layout,
    name: &str,
    hints: Option<Kind>,
    bytes: &[u8],
    err: &mut Watched<E>,
) -> Result<String, u8> {
    let Ok(source) = str::from_utf8(bytes) else {
        let before = Before { bytes: 0, lines: 0 };
        report_not_utf8(alloc, name, not_utf8(before, bytes), err);
        return Err(2);
    };
    match records_of_text::<T>(alloc, layout, source, Some(name)) {
        Ok(text) => Ok(text),
        Err(error) => {
            let status = report_error(alloc, name, &error, err);
            say_hint(alloc, hints, source, &error, err);
            Err(status)
        }
    }
}

/// Writes the name of a text that is not canonical to `out`, on a line. Returns the status of the program: 0, the text is canonical; 1, it is
/// not, or it is invalid; 2, reading or writing failed, it is not UTF-8, or memory ran out. Errors are reported to `err`.
pub(crate) fn check_list<T: StreamItem + Drop, R: BufRead, W: Write, E: Write>(
    alloc: Global,
    reader: &mut R,
    name: &str,
    hints: Option<Kind>,
    out: &mut Watched<W>,
    err: &mut Watched<E>,
) -> u8 {
    let mut bytes = Vec::new(alloc);
    if let Err(fault) = reader.read_to_end(&mut bytes) {
        return failed(alloc, name, &fault, err);
    }
    match canonical::<T, E>(alloc, PLAIN, name, hints, &bytes, err) {
        Ok(text) if text.as_bytes() == bytes.as_slice() => 0,
        Ok(_) => {
            let written = writeln!(out, "{name}").map(|()| true);
            end_parts(alloc, name, written.map_err(Stop::Output), out, err)
        }
        Err(status) => status,
    }
}
