//! Runs that write rows: by records, or by JSON objects, of which a failed read has one too.

use serde_json::{Value, json};
use souper_records::objects::number;
use souper_records::options::ReadOptions;
use souper_records::output::{Output, Shown};
use souper_records::rows::{Rows, rows_run, write_rows};
use souper_records::run::end_parts;
use souper_records::stop::{ReadFault, Stop};
use souper_stream::StreamItem;
use souper_typed::TypedItem;
use souper_typing::objects::{TypedObjects, write_typed_objects};
use souper_watched::Watched;
use std::alloc::{AllocError, Global};
use std::io;
use std::io::{BufRead, Write};

// The object of a fault of the stream of this name, with the members of a parse error's.
fn object_of(alloc: Global, name: &str, fault: &ReadFault) -> Result<Value, AllocError> {
    let (message, bytes) = match fault {
        ReadFault::Utf8(bytes) => (String::from_str(alloc, "not UTF-8")?, Some(bytes)),
        ReadFault::Io(fault) => (fault.to_string(alloc)?, None),
    };
    let line = bytes.map(|bytes| bytes.line);
    let offset = bytes.map(|bytes| bytes.offset);
    json!(in alloc; {
        "column": null,
        "file": name,
        "hint": null,
        "line": number(line),
        "message": message.as_str(),
        "offset": number(offset)
    })
}

fn write_fault<W: Write>(
    alloc: Global,
    name: &str,
    fault: &ReadFault,
    out: &mut Watched<W>,
) -> Result<(), Stop> {
    let line = object_of(alloc, name, fault)?.to_string(alloc)?;
    writeln!(out, "{line}")
        .and_then(|()| out.flush())
        .map_err(Stop::Output)
}

/// As [`end_parts`], but a failed read and bytes that are not UTF-8 have an object on `out` too.
pub(crate) fn end_objects<W: Write, E: Write>(
    alloc: Global,
    name: &str,
    parts: Result<bool, Stop>,
    out: &mut Watched<W>,
    err: &mut Watched<E>,
) -> u8 {
    if let Err(Stop::Input(fault)) = &parts
        && let Err(stop) = write_fault(alloc, name, fault, out)
    {
        return end_parts(alloc, name, Err(stop), out, err);
    }
    end_parts(alloc, name, parts, out, err)
}

/// As [`rows_run`]. If parse errors have objects, they are not reported.
pub(crate) fn rows<T: StreamItem + Drop, V: Shown, M: Rows<T, V>, R: BufRead, W: Write, E: Write>(
    alloc: Global,
    maker: M,
    options: ReadOptions<'_>,
    reader: &mut R,
    out: &mut Watched<W>,
    err: &mut Watched<E>,
) -> u8 {
    if let Output::Records(_) = maker.output() {
        return rows_run::<T, V, M, R, W, E>(alloc, maker, options, reader, out, err);
    }
    let (name, none) = (options.name, &mut Watched::new(io::sink()));
    let parts = write_rows::<T, V, M, R, W, io::Sink>(alloc, maker, options, reader, out, none);
    end_objects(alloc, name, parts, out, err)
}

/// As [`rows`] of objects, of items with their widths and of items without.
pub(crate) fn typed_objects<T: StreamItem + TypedItem + Drop, R: BufRead, W: Write, E: Write>(
    alloc: Global,
    maker: TypedObjects,
    options: ReadOptions<'_>,
    reader: &mut R,
    out: &mut Watched<W>,
    err: &mut Watched<E>,
) -> u8 {
    let (name, none) = (options.name, &mut Watched::new(io::sink()));
    let parts = write_typed_objects::<T, R, W, io::Sink>(alloc, maker, options, reader, out, none);
    end_objects(alloc, name, parts, out, err)
}
