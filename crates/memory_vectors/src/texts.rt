//! Texts that are read.
use crate::cases::Cases;
use crate::met::{Met, completed, equal};
use anyhow::{Result, anyhow, bail};
use souper_ir::ast::{LeftHandSide, Replacement, RightHandSide};
use souper_ir::parse::{
    ParseError, ParseErrorKind, parse_left_hand_sides_str, parse_replacements_str,
};
use souper_ir::stringify::TextError;
use std::alloc::Global;
use std::io;

/// Two items, with a condition, phis and types.
pub const TWO_ITEMS: &str =
    "%x:i32 = var\n%2lx = slt 2, %x\npc %2lx 1\n%1lx = slt 1, %x\ncand %1lx 1\n%bb = block 3\n%phi1 = phi %bb, 1:i32, 2, 3\n%phi2 = phi %bb, 2:i32, 4, 6\n%phi1x2 = mul %phi1, 2\ncand %phi2 %phi1x2\n";

/// Their texts.
pub const TWO_TEXTS: [&str; 2] = [
    "%x:i32 = var\n%1lx = slt 1, %x\n%2lx = slt 2, %x\npc %2lx 1\ncand %1lx 1\n",
    "%bb = block 3\n%phi2 = phi %bb, 2:i32, 4, 6\n%phi1 = phi %bb, 1:i32, 2, 3\n%phi1x2 = mul %phi1, 2\ncand %phi2 %phi1x2\n",
];

/// An item with attributes.
pub const ATTRIBUTES: &str =
    "%x:i4 = var (knownBits=01x1) (signBits=1)\ninfer %x (demandedBits=0011) (harvestedFromUse)";

/// Its text.
pub const ATTRIBUTES_TEXT: &str =
    "%x:i4 = var (knownBits=01x1) (signBits=1)\ninfer %x (demandedBits=0011) (harvestedFromUse)\n";

/// The replacement's text. One allocation of a run fails, so that a second try has its memory.
pub fn replacement_text(item: &Replacement) -> Result<String, TextError> {
    match item.to_text() {
        Err(TextError::OutOfMemory) => item.to_text(),
        other => other,
    }
}

/// The left-hand side's text, likewise.
pub fn left_hand_side_text(item: &LeftHandSide) -> Result<String, TextError> {
    match item.to_text() {
        Err(TextError::OutOfMemory) => item.to_text(),
        other => other,
    }
}

/// The right-hand side's text, likewise.
pub fn right_hand_side_text(item: &RightHandSide) -> Result<String, TextError> {
    match item.to_text() {
        Err(TextError::OutOfMemory) => item.to_text(),
        other => other,
    }
}

/// The text that the error shows, likewise.
pub fn shown(alloc: Global, error: &ParseError) -> Result<String> {
    match error.to_string(alloc) {
        Ok(text) => Ok(text),
        Err(_) => Ok(error.to_string(alloc)?),
    }
}

/// There is a text, which is this one.
pub fn is_text(found: Result<String, TextError>, want: &str) -> Result<()> {
    let text = found?;
    equal(text.as_str(), want)?;
    Ok(())
}

/// The error shows this text.
pub fn shows(alloc: Global, error: &ParseError, want: &str) -> Result<()> {
    let text = shown(alloc, error)?;
    equal(text.as_str(), want)?;
    Ok(())
}

/// The error is out of memory.
pub fn is_out_of_memory(alloc: Global, error: &ParseError) -> Result<Met> {
    equal(error.kind(), ParseErrorKind::Memory)?;
    equal(error.offset(), None)?;
    shows(alloc, error, "out of memory")?;
    Ok(Met::Refused)
}

/// A call just returned the two items.
pub fn are_two_items(alloc: Global, items: &[Replacement]) -> Result<Met> {
    let met = completed(alloc);
    let [first, second] = items else {
        bail!("not two items");
    };
    is_text(replacement_text(first), TWO_TEXTS[0])?;
    is_text(replacement_text(second), TWO_TEXTS[1])?;
    Ok(met)
}

/// A call just returned the item with attributes.
pub fn is_attributes(alloc: Global, item: &LeftHandSide) -> Result<Met> {
    let met = completed(alloc);
    is_text(left_hand_side_text(item), ATTRIBUTES_TEXT)?;
    Ok(met)
}

/// A call just returned the item with attributes, and no other.
pub fn are_attributes(alloc: Global, items: &[LeftHandSide]) -> Result<Met> {
    match items {
        [item] => is_attributes(alloc, item),
        _ => Err(anyhow!("not one item")),
    }
}

/// A call just returned a refusal, which is at this offset and shows this text.
pub fn is_refusal(alloc: Global, error: &ParseError, offset: usize, want: &str) -> Result<Met> {
    let met = completed(alloc);
    equal(error.offset(), Some(offset))?;
    shows(alloc, error, want)?;
    Ok(met)
}

// Reads the two items.
fn two_items(alloc: Global) -> Result<Met> {
    match parse_replacements_str(alloc, TWO_ITEMS, None) {
        Ok(items) => are_two_items(alloc, items.as_slice()),
        Err(error) => is_out_of_memory(alloc, &error),
    }
}

// Reads the item with attributes.
fn attributes(alloc: Global) -> Result<Met> {
    match parse_left_hand_sides_str(alloc, ATTRIBUTES, None) {
        Ok(items) => are_attributes(alloc, items.as_slice()),
        Err(error) => is_out_of_memory(alloc, &error),
    }
}

// Refuses a text that defines a name twice.
fn name_twice(alloc: Global) -> Result<Met> {
    let source = "%x = var\n%x = var\ninfer %x";
    match parse_left_hand_sides_str(alloc, source, None) {
        Ok(_) => Err(anyhow!("a name is defined twice")),
        Err(error) => is_name_twice(alloc, &error),
    }
}

fn is_name_twice(alloc: Global, error: &ParseError) -> Result<Met> {
    if error.kind() != ParseErrorKind::Parse {
        return is_out_of_memory(alloc, error);
    }
    let want = "unknown:1:9: cannot redefine '%x'\n     |\n   1 | %x = var\n     |         ^";
    is_refusal(alloc, error, 9, want)
}

/// The cases of this file.
pub fn all(cases: &mut Cases<'_>) -> io::Result<()> {
    cases.run("reading_two_items", two_items)?;
    cases.run("reading_attributes", attributes)?;
    cases.run("refusing_a_name_twice", name_twice)?;
    Ok(())
}
