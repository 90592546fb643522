//! Replays stored results: reads records from standard input, computes the result for each text, and compares, of the whole
//! text and then of the text as a stream.
//!
//! It prints a line for each record whose result is another now, and at the end how many are as stored.
#![tactic(auto)]

mod answers;
mod records;
mod streams;

use answers::replay;
use std::io;
use std::io::Read;
use std::process::ExitCode;
use streams::replay_streams;

fn main(rt: HostRuntime) -> io::Result<ExitCode> {
    let mut bytes = Vec::new(rt.alloc());
    rt.stdin().read_to_end(&mut bytes)?;
    if replay(&rt, bytes.as_slice())? && replay_streams(&rt, bytes.as_slice())? {
        Ok(ExitCode::SUCCESS)
    } else {
        Ok(ExitCode::FAILURE)
    }
}
