//! The jobs that a user of this software waits for, on inputs that are made from a seed: what `bench/run` measures.
//!
//! The words of the command line are the name of a job, the seed and a number of inputs. The program prints a digest of all results.
#![tactic(auto)]

mod awkward;
mod calls;
mod damage;
mod digest;
mod harvest;
mod large;
mod random;
mod session;
mod store;
mod texts;
mod words;

use random::Random;
use session::Session;
use std::env;
use std::process::ExitCode;

fn read_number(words: &[String], index: usize) -> Option<u64> {
    match words.get(index)?.parse::<u64>() {
        Ok(number) => Some(number),
        Err(_) => None,
    }
}

// Runs the job of that name, or all of them. Returns whether there is one.
fn run(session: &mut Session, job: &str, count: u64) -> anyhow::Result<bool> {
    match job {
        "harvest" => harvest::run(session, count)?,
        "store" => store::run(session, count)?,
        "damage" => damage::run(session, count)?,
        "large" => large::run(session, count)?,
        "calls" => calls::run(session, count)?,
        "awkward" => awkward::run(session, count)?,
        "all" => {
            harvest::run(session, count)?;
            store::run(session, count)?;
            damage::run(session, count)?;
            large::run(session, count)?;
            calls::run(session, count)?;
            awkward::run(session, count)?;
        }
        _ => return Ok(false),
    }
    Ok(true)
}

fn main(rt: HostRuntime) -> anyhow::Result<ExitCode> {
    let words: Vec<String> = env::args(&rt)?.collect(rt.alloc())?;
    let (Some(job), Some(seed), Some(count)) = (
        words.get(1),
        read_number(&words, 2),
        read_number(&words, 3),
    ) else {
        eprintln!(&rt; "usage: bench_jobs JOB SEED COUNT")?;
        return Ok(ExitCode::from(2));
    };
    let mut session = Session::new(rt.alloc(), Random::new(seed))?;
    if !run(&mut session, job.as_str(), count)? {
        eprintln!(&rt; "no such job: {job}")?;
        return Ok(ExitCode::from(2));
    }
    let digest = session.digest();
    println!(&rt; "{job} {seed} {count}: {digest:016x}")?;
    Ok(ExitCode::SUCCESS)
}
