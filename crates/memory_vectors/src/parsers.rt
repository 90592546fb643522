//! Parsers that are used directly.
use crate::cases::Cases;
use crate::met::{Met, completed_if, equal};
use crate::texts::{
    ATTRIBUTES, TWO_ITEMS, TWO_TEXTS, is_attributes, is_out_of_memory, is_text, replacement_text,
    shows,
};
use anyhow::{Context, Result, anyhow};
use souper_ir::ast::{Assignment, LeftHandSide, Replacement, Statement};
use souper_ir::parse::{Parse, ParseError, ParseErrorKind, Parser, Peek};
use std::alloc::Global;
use std::io;

// There is an error, which is out of memory.
fn fails(alloc: Global, error: Option<ParseError>) -> Result<()> {
    let error = error.context("no error")?;
    is_out_of_memory(alloc, &error)?;
    Ok(())
}

/// The parser returns out of memory from every call.
pub fn stays_failed(alloc: Global, parser: &mut Parser<'_>) -> Result<()> {
    fails(alloc, LeftHandSide::parse(parser).err())?;
    fails(alloc, Statement::peek(parser).err())?;
    fails(alloc, <Vec<Assignment>>::parse(parser).err())?;
    fails(alloc, Replacement::parse(parser).err())
}

// The item has the text, or the error is out of memory.
fn is_item(alloc: Global, found: Result<Replacement, ParseError>, want: &str) -> Result<()> {
    match found {
        Ok(item) => is_text(replacement_text(&item), want),
        Err(error) => fails(alloc, Some(error)),
    }
}

// Takes the two items.
fn two_items(alloc: Global) -> Result<Met> {
    let mut parser = Parser::new(alloc, TWO_ITEMS);
    let first = Replacement::parse(&mut parser);
    let second = Replacement::parse(&mut parser);
    let (is_first, is_second) = (first.is_ok(), second.is_ok());
    let met = completed_if(alloc, is_first && is_second);
    equal(is_first || !is_second, true)?;
    is_item(alloc, first, TWO_TEXTS[0])?;
    is_item(alloc, second, TWO_TEXTS[1])?;
    if !is_second {
        stays_failed(alloc, &mut parser)?;
    }
    Ok(met)
}

// Takes the item with attributes.
fn attributes(alloc: Global) -> Result<Met> {
    let mut parser = Parser::new(alloc, ATTRIBUTES);
    let met = is_taken(alloc, LeftHandSide::parse(&mut parser))?;
    if let Met::Refused = met {
        stays_failed(alloc, &mut parser)?;
    }
    Ok(met)
}

// A call just returned the item with attributes, or out of memory.
fn is_taken(alloc: Global, found: Result<LeftHandSide, ParseError>) -> Result<Met> {
    match found {
        Ok(item) => is_attributes(alloc, &item),
        Err(error) => is_out_of_memory(alloc, &error),
    }
}

// Whether the error is a refusal.
fn is_of_text(error: &Option<ParseError>) -> bool {
    match error {
        Some(error) => error.kind() == ParseErrorKind::Parse,
        None => false,
    }
}

// The error is a refusal at offset 6 with the message, or out of memory.
fn refuses(alloc: Global, error: Option<ParseError>, want: &str) -> Result<()> {
    match error {
        Some(error) => refuses_with(alloc, &error, want),
        None => Err(anyhow!("an item")),
    }
}

fn refuses_with(alloc: Global, error: &ParseError, want: &str) -> Result<()> {
    if error.kind() != ParseErrorKind::Parse {
        is_out_of_memory(alloc, error)?;
        return Ok(());
    }
    equal(error.offset(), Some(6))?;
    shows(alloc, error, want)
}

// Refuses a name that is not in scope, and refuses again.
fn unknown_name(alloc: Global) -> Result<Met> {
    let mut parser = Parser::new(alloc, "infer %x");
    let first = LeftHandSide::parse(&mut parser).err();
    let again = LeftHandSide::parse(&mut parser).err();
    let (is_first, is_again) = (is_of_text(&first), is_of_text(&again));
    let met = completed_if(alloc, is_first && is_again);
    equal(is_first || !is_again, true)?;
    let want = "unknown:1:1: no value named '%x' in scope\n     |\n   1 | byte offset 6\n     | ^";
    refuses(alloc, first, want)?;
    let want = "unknown:1:1: the parser has already failed\n     |\n   1 | byte offset 6\n     | ^";
    refuses(alloc, again, want)?;
    if !is_again {
        stays_failed(alloc, &mut parser)?;
    }
    Ok(met)
}

/// The cases of this file.
pub fn all(cases: &mut Cases<'_>) -> io::Result<()> {
    cases.run("taking_two_items", two_items)?;
    cases.run("taking_attributes", attributes)?;
    cases.run("refusing_an_unknown_name", unknown_name)?;
    Ok(())
}
