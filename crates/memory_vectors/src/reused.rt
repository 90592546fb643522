//! Memory that is used again: items that are renamed in place, texts that are read into the memory of the items before them, and buffers.
use crate::cases::Cases;
use crate::met::{Met, completed_if, equal};
use crate::texts::{TWO_ITEMS, TWO_TEXTS, is_out_of_memory, is_text, left_hand_side_text};
use anyhow::{Context, Result};
use souper_code::encode::Encode;
use souper_ir::ast::{Arena, Item, LeftHandSide, Statement};
use souper_ir::parse::{
    Memory, Sink, WholeItem, parse_left_hand_sides_str, parse_replacements_str, parse_with_memory,
};
use souper_ir::stringify::TextError;
use std::alloc::{AllocError, Global};
use std::io;

// Renames an item in place.
fn renaming(alloc: Global) -> Result<Met> {
    let source = "%b = var\n%a = var\n%c = add %a, %b\ninfer %c";
    let Ok(mut items) = parse_left_hand_sides_str(alloc, source, None) else {
        return Ok(Met::Unreached);
    };
    let item = items.first_mut().context("no item")?;
    match item.rename() {
        Ok(()) => {
            let met = completed_if(alloc, true);
            let want = "%0 = var\n%1 = var\n%2 = add %0, %1\ninfer %2\n";
            is_text(left_hand_side_text(item), want)?;
            Ok(met)
        }
        Err(error) => {
            equal(error, TextError::OutOfMemory)?;
            Ok(Met::Refused)
        }
    }
}

// The texts of the items, which are dropped.
#[derive(Drop)]
struct Dropped {
    text: String,
}

impl<T: WholeItem + Drop> Sink<T> for Dropped {
    ghost holds = { λ first dropped items. Unit {0} };

    fn take(&mut self, mut item: T) -> Result<Option<Arena<Statement>>, AllocError> {
        match item.append_text(&mut self.text) {
            Ok(()) => Ok(item.take_statements()),
            Err(_) => Err(AllocError),
        }
    }
}

const FIRST: &str = "%a = var\n%b = add %a, 1\ninfer %b\n\n%c = var\ninfer %c";

const FIRST_TEXTS: &str = "%a = var\n%b = add %a, 1\ninfer %b\n%c = var\ninfer %c\n";

const SECOND: &str = "%a_longer_name = var\n%d = var\n%e = add %d, %a_longer_name\ninfer %e\n";

const SECOND_TEXTS: &str =
    "%d = var\n%a_longer_name = var\n%e = add %d, %a_longer_name\ninfer %e\n";

// Reads a text with the memory, and returns whether there was memory for it.
fn read_with(alloc: Global, memory: &mut Memory, source: &str, want: &str) -> Result<bool> {
    let mut dropped = Dropped {
        text: String::new(alloc),
    };
    match parse_with_memory::<LeftHandSide, Dropped>(alloc, memory, source, None, &mut dropped) {
        Ok(()) => {
            equal(dropped.text.as_str(), want)?;
            Ok(true)
        }
        Err(error) => {
            is_out_of_memory(alloc, &error)?;
            Ok(false)
        }
    }
}

// Reads a text, and another into the memory of its items, and the first again.
fn reading_again(alloc: Global) -> Result<Met> {
    let mut memory = Memory::new(alloc);
    for (source, want) in [
        (FIRST, FIRST_TEXTS),
        (SECOND, SECOND_TEXTS),
        (FIRST, FIRST_TEXTS),
    ] {
        if !read_with(alloc, &mut memory, source, want)? {
            // What is kept when memory ran out serves the next text.
            read_with(alloc, &mut memory, SECOND, SECOND_TEXTS)?;
            return Ok(Met::Refused);
        }
    }
    Ok(completed_if(alloc, true))
}

// Encodes an item into a buffer with just the room that its code takes: no request for memory can fail the call.
fn encoding(alloc: Global) -> Result<Met> {
    let source = "%x = var\n%y = var\n%z = var\ninfer %z";
    let Ok(items) = parse_left_hand_sides_str(alloc, source, None) else {
        return Ok(Met::Unreached);
    };
    let item = items.first().context("no item")?;
    let mut code = Vec::new(alloc);
    if item.encode(&mut code).is_err() {
        return Ok(Met::Unreached);
    }
    let Ok(mut out) = Vec::with_capacity(alloc, code.len()) else {
        return Ok(Met::Unreached);
    };
    let encoded = item.encode(&mut out).is_ok();
    let met = completed_if(alloc, encoded);
    equal((encoded, out.as_slice()), (true, code.as_slice()))?;
    Ok(met)
}

// Appends a text to a buffer without memory. If it cannot be appended, the buffer has no memory still.
fn appending(alloc: Global) -> Result<Met> {
    let Ok(items) = parse_replacements_str(alloc, TWO_ITEMS, None) else {
        return Ok(Met::Unreached);
    };
    let item = items.first().context("no item")?;
    let mut out = String::new(alloc);
    match item.append_text(&mut out) {
        Ok(()) => {
            let met = completed_if(alloc, true);
            equal(out.as_str(), TWO_TEXTS[0])?;
            Ok(met)
        }
        Err(error) => {
            equal(error, TextError::OutOfMemory)?;
            equal((out.as_str(), out.capacity()), ("", 0))?;
            Ok(Met::Refused)
        }
    }
}

/// The cases of this file.
pub fn all(cases: &mut Cases<'_>) -> io::Result<()> {
    cases.run("renaming_in_place", renaming)?;
    cases.run("reading_into_memory_of_before", reading_again)?;
    cases.run("encoding_into_a_buffer_with_room", encoding)?;
    cases.run("appending_to_an_empty_buffer", appending)?;
    Ok(())
}
