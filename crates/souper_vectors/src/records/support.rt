//! Runs of the commands over texts that are in memory.
use crate::checks::{Ran, equal, text};
use souper_format::watched::Watched;
use souper_ir::parse::Kind;
use souper_records::layout::{Layout, PLAIN};
use souper_records::options::ReadOptions;
use souper_records::output::Output;
use souper_records::rows::rows_run;
use souper_records::run::{each_run_with, uniq_run_with};
use souper_records::seen::Seen;
use souper_stream::StreamItem;
use std::alloc::Global;
use std::io::{BufRead, BufReader, Write};
use std::process::Abort;

/// A command that reads a stream.
#[derive(Clone, Copy)]
pub(crate) enum Command {
    Each(Layout),
    EachGoingOn,
    EachByLines,
    Uniq,
    UniqGoingOn,
    Objects { file: &'static str, rename: bool },
    EachWithHints,
    ObjectsWithHints,
}

// How the command reads a stream.
fn read_options(command: Command) -> ReadOptions<'static> {
    ReadOptions {
        name: match command {
            Command::Objects { file, .. } => file,
            _ => "a.opt",
        },
        recover: matches!(
            command,
            Command::EachGoingOn
                | Command::UniqGoingOn
                | Command::Objects { .. }
                | Command::EachWithHints
                | Command::ObjectsWithHints
        ),
        line_buffered: matches!(command, Command::EachByLines),
        hints: matches!(command, Command::EachWithHints | Command::ObjectsWithHints).then_some(
            Kind::Lhs,
        ),
    }
}

/// The status of a run of the command. The file is `a.opt` if the command names none.
pub(crate) fn run_to<T: StreamItem + Drop, R: BufRead, W: Write, E: Write>(
    alloc: Global,
    command: Command,
    reader: &mut R,
    out: &mut Watched<W>,
    err: &mut Watched<E>,
) -> u8 {
    let mut seen = Seen::new(alloc);
    let options = read_options(command);
    match command {
        Command::Each(layout) => {
            each_run_with::<T, R, W, E>(alloc, layout, options, reader, out, err)
        }
        Command::EachGoingOn | Command::EachByLines | Command::EachWithHints => {
            each_run_with::<T, R, W, E>(alloc, PLAIN, options, reader, out, err)
        }
        Command::Uniq | Command::UniqGoingOn => {
            uniq_run_with::<T, R, W, E>(PLAIN, options, &mut seen, reader, out, err)
        }
        Command::Objects { rename, .. } => {
            let output = Output::Objects { rename };
            rows_run::<T, String, Output, R, W, E>(alloc, output, options, reader, out, err)
        }
        Command::ObjectsWithHints => {
            let output = Output::Objects { rename: false };
            rows_run::<T, String, Output, R, W, E>(alloc, output, options, reader, out, err)
        }
    }
}

/// What a run did.
#[derive(Drop)]
pub(crate) struct Run {
    pub(crate) status: u8,
    pub(crate) out: Vec<u8>,
    pub(crate) err: Vec<u8>,
}

/// A run of the command over a reader.
pub(crate) fn run_over<T: StreamItem + Drop, R: BufRead>(
    alloc: Global,
    command: Command,
    reader: &mut R,
) -> Run {
    let mut written = Vec::new(alloc);
    let mut reported = Vec::new(alloc);
    let mut out = Watched::new(&mut written);
    let mut err = Watched::new(&mut reported);
    let status = run_to::<T, R, &mut Vec<u8>, &mut Vec<u8>>(
        alloc, command, reader, &mut out, &mut err,
    );
    Run {
        status,
        out: written,
        err: reported,
    }
}

/// The bytes as a text, or the head alone if they are lines that begin with it. The head without a newline is no line.
pub(crate) fn headed<'a>(bytes: &'a [u8], head: &'a str) -> &'a str {
    let lines = text(bytes);
    if head.is_empty() || !lines.starts_with(head) {
        lines
    } else if lines.ends_with("\n") {
        head
    } else {
        "no newline"
    }
}

/// Asserts what the run did. Of the lines on `err` the wanted text is the head.
pub(crate) fn did(rt: &impl Abort, run: Run, want: Ran<'_>) {
    let found = (run.status, text(&run.out), headed(&run.err, want.2));
    equal(rt, found, want);
}

/// Asserts the outcome of a run of the command over a text, with this number of bytes a read. The whole report is compared.
pub(crate) fn runs<T: StreamItem + Drop>(
    rt: &impl Abort,
    alloc: Global,
    command: Command,
    (source, capacity): (&str, usize),
    want: Ran<'_>,
) {
    let bytes = source.as_bytes();
    let mut reader = BufReader::with_capacity(alloc, capacity, bytes).expect(rt, source);
    let run = run_over::<T, BufReader<&[u8]>>(alloc, command, &mut reader);
    let found = (run.status, text(&run.out), text(&run.err));
    equal(rt, found, want);
}
