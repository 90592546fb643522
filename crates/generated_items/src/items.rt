//! Laws of one item.
use crate::law::{Broken, law, there};
use souper_ir::ast::Id;
use souper_ir::parse::parse_into;
use souper_ir::stringify::{Order, TextError};
use souper_stream::StreamItem;
use std::alloc::Global;

// The text, or `None` if the item has a bad id.
fn text_of<T: StreamItem + Drop>(item: &T) -> Result<Option<String>, Broken> {
    match item.to_text() {
        Ok(text) => Ok(Some(text)),
        Err(TextError::OutOfMemory) => Err(Broken::Memory),
        Err(_) => Ok(None),
    }
}

fn order_of<T: StreamItem + Drop>(item: &T) -> Result<Option<Order>, Broken> {
    match item.print_order() {
        Ok(order) => Ok(Some(order)),
        Err(TextError::OutOfMemory) => Err(Broken::Memory),
        Err(_) => Ok(None),
    }
}

fn renamed<T: StreamItem + Drop>(alloc: Global, item: &T, text: &str) -> Result<T, Broken> {
    match item.renamed() {
        Ok(copy) => Ok(copy),
        Err(TextError::OutOfMemory) => Err(Broken::Memory),
        Err(_) => there(alloc, None, "an item with a text has a renamed copy", text),
    }
}

/// The item that the text spells, which is one.
fn read<T: StreamItem + Drop>(alloc: Global, text: &str) -> Result<T, Broken> {
    let mut items: Vec<T> = Vec::new(alloc);
    let parsed = parse_into::<T, Vec<T>>(alloc, text, None, &mut items);
    law(
        alloc,
        parsed.is_ok(),
        "the text of a well-formed item is valid",
        text,
    )?;
    law(alloc, items.len() == 1, "it spells one item", text)?;
    there(alloc, items.pop(), "it spells an item", text)
}

// The statements are in printed order, and all are needed.
fn is_in_order<T: StreamItem + Drop>(
    alloc: Global,
    item: &T,
    needed: usize,
    text: &str,
) -> Result<(), Broken> {
    law(
        alloc,
        item.statements().len() == needed,
        "what is read has the needed statements",
        text,
    )?;
    let order = there(alloc, order_of(item)?, "what is read has an order", text)?;
    law(
        alloc,
        order.ids.len() == needed,
        "what is read is needed",
        text,
    )?;
    for (index, id) in order.ids.iter().enumerate() {
        law(
            alloc,
            id.index() == index,
            "what is read is in printed order",
            text,
        )?;
    }
    Ok(())
}

// A renamed copy is the same, whether the item was read from its text or not, and renaming it changes nothing.
fn is_renamed<T: StreamItem + Drop>(
    alloc: Global,
    item: &T,
    again: &T,
    text: &str,
) -> Result<(), Broken> {
    let copy = renamed(alloc, item, text)?;
    let copied = text_of(&copy)?;
    let other = text_of(&renamed(alloc, again, text)?)?;
    law(
        alloc,
        copied == other,
        "the item that is read has the same renamed copy",
        text,
    )?;
    let twice = text_of(&renamed(alloc, &copy, text)?)?;
    law(
        alloc,
        copied == twice,
        "renaming twice is renaming once",
        text,
    )
}

// The text reads back to the needed statements.
fn reads_back<T: StreamItem + Drop>(
    alloc: Global,
    item: &T,
    needed: usize,
    text: &str,
) -> Result<(), Broken> {
    let again: T = read(alloc, text)?;
    law(
        alloc,
        again.is_well_formed()?,
        "what is read is well formed",
        text,
    )?;
    let printed = there(alloc, text_of(&again)?, "what is read has a text", text)?;
    law(
        alloc,
        printed.as_str() == text,
        "what is read has the same text",
        text,
    )?;
    is_in_order(alloc, &again, needed, text)?;
    is_renamed(alloc, item, &again, text)
}

/// Tries the laws of an item. Returns its text if it is well formed.
pub(crate) fn check<T: StreamItem + Drop>(
    alloc: Global,
    item: &T,
) -> Result<Option<String>, Broken> {
    let well_formed = item.is_well_formed()?;
    let order = order_of(item)?;
    let Some(text) = text_of(item)? else {
        law(alloc, !well_formed, "a well-formed item has a text", "")?;
        law(
            alloc,
            order.is_none(),
            "an item without a text has no order",
            "",
        )?;
        return Ok(None);
    };
    let order = there(
        alloc,
        order,
        "an item with a text has an order",
        text.as_str(),
    )?;
    if !well_formed {
        return Ok(None);
    }
    reads_back(alloc, item, order.ids.len(), text.as_str())?;
    Ok(Some(text))
}
