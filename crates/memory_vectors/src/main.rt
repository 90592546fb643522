//! Calls in which an allocation fails.
//!
//! Each case makes a call and compares the result with those that are allowed: the one with ample memory, which is written out, or
//! out of memory with everything as before. The program runs all cases, or the one that its argument names, and prints what
//! became of each. `tools/refused-memory` runs each case with each of its allocations failing.
#![tactic(auto)]

mod builders;
mod cases;
mod files;
mod growing;
mod items;
mod met;
mod names;
mod parsers;
mod records;
mod reused;
mod runs;
mod texts;

use cases::Cases;
use met::Met;
use std::process::ExitCode;
use std::{env, io};

// The arguments after the program's name.
fn words(rt: &HostRuntime) -> io::Result<Vec<String>> {
    let mut words = Vec::new(rt.alloc());
    for word in env::args(rt)?.skip(1) {
        words.push(word)?;
    }
    Ok(words)
}

// Runs the case of that name, or all cases.
fn run(rt: &HostRuntime, only: Option<&str>) -> io::Result<ExitCode> {
    let mut cases = Cases::new(rt, only);
    builders::left_hand_sides(&mut cases)?;
    builders::replacements(&mut cases)?;
    growing::all(&mut cases)?;
    files::all(&mut cases)?;
    items::all(&mut cases)?;
    names::all(&mut cases)?;
    parsers::all(&mut cases)?;
    records::all(&mut cases)?;
    reused::all(&mut cases)?;
    runs::all(&mut cases)?;
    texts::all(&mut cases)?;
    cases.status()
}

// Runs what the arguments ask for.
fn run_words(rt: &HostRuntime, words: &[String]) -> io::Result<ExitCode> {
    match words {
        [] => run(rt, None),
        [name] => run(rt, Some(name.as_str())),
        _ => {
            eprintln!(rt; "usage: memory_vectors [CASE]")?;
            Ok(ExitCode::from(2))
        }
    }
}

fn main(rt: HostRuntime) -> io::Result<ExitCode> {
    match words(&rt) {
        Ok(words) => run_words(&rt, words.as_slice()),
        Err(fault) if fault.kind() == io::ErrorKind::OutOfMemory => {
            println!(&rt; "{}", Met::Unreached)?;
            Ok(ExitCode::SUCCESS)
        }
        Err(fault) => Err(fault),
    }
}
