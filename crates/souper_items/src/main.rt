//! Items of Souper IR for a store: their records, and whether files are canonical.
#![tactic(auto)]

mod differ;
mod folders;
mod hint;
mod input;
mod losses;
mod objects;
mod options;
mod rewrite;
mod same_file;
mod session;

use clap::ArgMatches;
use options::{Color, read_task};
use session::run_task;
use souper_cli::commands::grammar;
use souper_cli::excerpt::Style;
use souper_cli::terminal::Terminal;
use souper_records::report::{report_fault, report_memory};
use souper_records::run::report_output;
use souper_watched::Watched;
use std::alloc::Global;
use std::cell::Cell;
use std::env::{Env, FillError};
use std::io::{ErrorKind, IsTerminal, Write};
use std::process::ExitCode;
use std::{env, io};

/// Reports a fault of the stream of this name, and returns the status of the program.
pub(crate) fn failed<E: Write>(
    alloc: Global,
    name: &str,
    fault: &io::Error,
    err: &mut Watched<E>,
) -> u8 {
    report_fault(alloc, name, fault, err);
    2
}

/// Reports out of memory, and returns the status of the program.
pub(crate) fn out_of_memory<E: Write>(err: &mut Watched<E>) -> u8 {
    report_memory(err);
    2
}

// Whether the user wants colors at a terminal.
fn wants_color(rt: &HostRuntime) -> bool {
    let is_refused = env::var(rt, "NO_COLOR").is_ok_and(|value| !value.is_empty());
    let is_dumb = env::var(rt, "TERM").is_ok_and(|name| name.as_str() == "dumb");
    !is_refused && !is_dumb
}

fn style(rt: &HostRuntime, color: Color) -> Style {
    match (color, rt.stderr().is_terminal()) {
        (Color::Always, _) => Style::Color,
        (Color::Auto, true) if wants_color(rt) => Style::Color,
        (_, true) => Style::Clean,
        (_, false) => Style::Bytes,
    }
}

// Does what the matches ask for, and returns the status.
fn run_matches(rt: &HostRuntime, matches: &ArgMatches<'_>) -> u8 {
    let Some(task) = read_task(matches) else {
        return 2;
    };
    let is_shown = Cell::new(false);
    let is_refused = Cell::new(false);
    let style = style(rt, task.color);
    let mut err = match Terminal::new(rt.alloc(), rt.stderr(), style, &is_shown, &is_refused) {
        Ok(terminal) => Watched::new(terminal),
        Err(_) => return out_of_memory(&mut Watched::new(rt.stderr())),
    };
    if let Some(fault) = task.fault() {
        let _ = writeln!(err, "error: {fault}");
        return 2;
    }
    run_task(rt, task, &is_shown, &is_refused, err)
}

// The longest path of Linux, in bytes.
const PATH_MAX: usize = 4096;

// Reports an argument that is not UTF-8: the first of at most `PATH_MAX` bytes, with its other bytes as in `\xff`, or none by name.
fn report_argument(rt: &HostRuntime) -> io::Result<()> {
    let mut buf = [0; PATH_MAX];
    for index in 1..usize::MAX {
        let bytes = match rt.arg(index, &mut buf) {
            Ok(len) => &buf[..len],
            Err(FillError::NotPresent) => break,
            Err(_) => continue,
        };
        if str::from_utf8(bytes).is_err() {
            let shown = bytes.escape_ascii();
            return eprintln!(rt;
                "souper_items: argument {index} is not UTF-8: {shown}; nothing was read"
            );
        }
    }
    eprintln!(rt; "souper_items: an argument is not UTF-8; nothing was read")
}

// The words of the command line, or none if one is not UTF-8, which was reported.
fn words(rt: &HostRuntime) -> anyhow::Result<Option<Vec<String>>> {
    match env::args(rt) {
        Ok(words) => Ok(Some(words.collect(rt.alloc())?)),
        Err(fault) if fault.kind() == ErrorKind::InvalidData => {
            report_argument(rt)?;
            Ok(None)
        }
        Err(fault) => Err(fault.into()),
    }
}

// Reads the command line and does what it asks for.
fn run_words(rt: &HostRuntime) -> anyhow::Result<u8> {
    let Some(words) = words(rt)? else {
        return Ok(2);
    };
    let command = grammar(rt.alloc())?;
    Ok(match command.try_get_matches_from(words.as_slice()) {
        Ok(matches) => run_matches(rt, &matches),
        Err(error) => match error.print(rt) {
            Ok(()) => error.exit_code() as u8,
            Err(fault) => report_output(rt.alloc(), &fault, &mut Watched::new(rt.stderr())),
        },
    })
}

fn main(rt: HostRuntime) -> ExitCode {
    match run_words(&rt) {
        Ok(status) => ExitCode::from(status),
        Err(error) => {
            let _ = eprintln!(rt; "souper_items: {error}");
            ExitCode::from(2)
        }
    }
}
