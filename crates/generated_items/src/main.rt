//! Generated items: the laws of the library, tried on items and texts that are made at random from a seed.
//!
//! The words of the command line are the seed and the number of items of each type. The program ends at the first item that
//! breaks a law, and prints its number, the law and the item's text.
#![tactic(auto)]

mod damaged;
mod generator;
mod items;
mod law;
mod recovered;
mod segments;
mod texts;

use generator::{Generated, Generator};
use law::{Broken, law};
use souper_ir::ast::{LeftHandSide, Replacement, RightHandSide};
use std::alloc::Global;
use std::process::ExitCode;
use std::{env, io};

// How many items make a list.
const LIST: usize = 8;

// Tries the laws on that number of items of the type, and on lists of those that are well formed.
fn try_type<T: Generated>(
    alloc: Global,
    generator: &mut Generator,
    count: u64,
) -> Result<(), Broken> {
    let mut list = Vec::new(alloc);
    let mut well_formed: u64 = 0;
    for _ in 0..count {
        let item = T::generate(generator)?;
        if let Some(text) = items::check(alloc, &item)? {
            well_formed = well_formed.saturating_add(1);
            list.push(text)?;
        }
        if list.len() == LIST {
            texts::check::<T>(alloc, generator, &list)?;
            damaged::check::<T>(alloc, generator, &list)?;
            list = Vec::new(alloc);
        }
    }
    let enough = well_formed >= count / 4;
    law(alloc, enough, "a quarter of the items is well formed", "")
}

fn try_types(alloc: Global, seed: u64, count: u64) -> Result<(), Broken> {
    let mut generator = Generator::new(alloc, seed)?;
    try_type::<LeftHandSide>(alloc, &mut generator, count)?;
    try_type::<RightHandSide>(alloc, &mut generator, count)?;
    try_type::<Replacement>(alloc, &mut generator, count)
}

fn read_number(words: &[String], index: usize) -> Option<u64> {
    match words.get(index)?.parse::<u64>() {
        Ok(number) => Some(number),
        Err(_) => None,
    }
}

fn main(rt: HostRuntime) -> io::Result<ExitCode> {
    let words: Vec<String> = env::args(&rt)?.collect(rt.alloc())?;
    let (Some(seed), Some(count)) = (read_number(&words, 1), read_number(&words, 2)) else {
        eprintln!(&rt; "usage: generated_items SEED COUNT")?;
        return Ok(ExitCode::from(2));
    };
    match try_types(rt.alloc(), seed, count) {
        Ok(()) => {
            println!(&rt; "seed {seed}: {count} items of each type keep the laws")?;
            Ok(ExitCode::SUCCESS)
        }
        Err(broken) => {
            println!(&rt; "seed {seed}: {broken}")?;
            Ok(ExitCode::FAILURE)
        }
    }
}
