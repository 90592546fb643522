//! The records of the stored texts, which are read as streams, compared with the stored results.
use crate::records::{Record, take_record};
use souper_format::command::Kind;
use souper_format::watched::Watched;
use souper_ir::ast::{LeftHandSide, Replacement, RightHandSide};
use souper_records::layout::PLAIN;
use souper_records::options::ReadOptions;
use souper_records::run::each_run_with;
use souper_stream::StreamItem;
use std::alloc::Global;
use std::io::BufReader;
use std::{io, str};

// So few bytes are read at a time that most items lie in several reads.
const CAPACITY: usize = 7;

// What a run over the text as a stream wrote and reported.
#[derive(Drop)]
struct Made {
    status: u8,
    out: Vec<u8>,
    err: Vec<u8>,
}

fn made_of<T: StreamItem + Drop>(alloc: Global, text: &str) -> io::Result<Made> {
    let (mut written, mut reported) = (Vec::new(alloc), Vec::new(alloc));
    let mut reader = BufReader::with_capacity(alloc, CAPACITY, text.as_bytes())?;
    let mut out = Watched::new(&mut written);
    let mut err = Watched::new(&mut reported);
    let options = ReadOptions {
        name: "unknown",
        recover: false,
        line_buffered: false,
        hints: None,
    };
    let status = each_run_with::<T, BufReader<&[u8]>, &mut Vec<u8>, &mut Vec<u8>>(
        alloc,
        PLAIN,
        options,
        &mut reader,
        &mut out,
        &mut err,
    );
    Ok(Made {
        status,
        out: written,
        err: reported,
    })
}

// What a parse error says, on its first line, after the name, the line and the column.
fn message_of(shown: &str) -> Option<&str> {
    let (_, rest) = shown.split_once(':')?;
    let (_, rest) = rest.split_once(':')?;
    let (_, rest) = rest.split_once(':')?;
    let (message, _) = rest.split_once('\n')?;
    Some(message)
}

// True if the records of the text are the stored texts, or it is rejected with the stored message. A stored error has the place that
// `ParseError` shows, a stream's error its location.
fn is_as_stored(alloc: Global, stored: &Record<'_>) -> io::Result<bool> {
    let made = match stored.kind {
        Kind::Lhs => made_of::<LeftHandSide>(alloc, stored.text)?,
        Kind::Rhs => made_of::<RightHandSide>(alloc, stored.text)?,
        Kind::Rep => made_of::<Replacement>(alloc, stored.text)?,
    };
    if stored.is_refused {
        let shown = str::from_utf8(&made.err).unwrap_or("");
        match (message_of(shown), message_of(stored.answer)) {
            (Some(message), Some(wanted)) => Ok(made.status == 1 && message == wanted),
            _ => Ok(false),
        }
    } else {
        let is_silent = made.status == 0 && made.err.is_empty();
        Ok(is_silent && made.out.as_slice() == stored.answer.as_bytes())
    }
}

/// Compares the records of each stored text, which is read as a stream, with the stored result, and prints a summary.
///
/// True if each is as stored, as far as the bytes are records.
pub fn replay_streams<R: Print + AllocGlobal>(rt: &R, bytes: &[u8]) -> io::Result<bool> {
    let mut rest = bytes;
    let mut same = 0usize;
    let mut all_same = true;
    while let Some((record, tail)) = take_record(rest) {
        if is_as_stored(rt.alloc(), &record)? {
            same = same.saturating_add(1);
        } else {
            all_same = false;
            println!(rt; "another answer to the stream {:?}", record.text)?;
        }
        rest = tail;
    }
    println!(rt; "{same} answers to streams as stored")?;
    Ok(all_same)
}
