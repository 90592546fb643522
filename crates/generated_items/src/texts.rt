//! Laws of lists of items: their texts one after the other, as a stream, and compared.
ghost use Rattle.std.specs.Prelude.{◌<◌};

use crate::generator::{Generated, Generator};
use crate::law::{Broken, law};
use souper_format::items::read_items;
use souper_format::same::same;
use souper_ir::parse::parse_into;
use souper_ir::stringify::TextError;
use souper_stream::{StreamItem, read_chunks_into};
use std::alloc::Global;
use std::io::BufReader;

/// The texts, with a newline after each.
pub(crate) fn joined(alloc: Global, texts: &[String]) -> Result<String, Broken> {
    let mut all = String::new(alloc);
    for text in texts {
        all.push_str(text.as_str())?;
        all.push_str("\n")?;
    }
    Ok(all)
}

/// The texts of the items, with a newline after each.
pub(crate) fn texts_of<T: StreamItem + Drop>(alloc: Global, items: &[T]) -> Result<String, Broken> {
    let mut all = String::new(alloc);
    for item in items {
        match item.append_text(&mut all) {
            Ok(()) => {}
            Err(TextError::OutOfMemory) => return Err(Broken::Memory),
            Err(_) => {}
        }
        all.push_str("\n")?;
    }
    Ok(all)
}

/// The texts of the items that the text spells, or `None` if it spells none.
pub(crate) fn formatted<T: StreamItem + Drop>(
    alloc: Global,
    text: &str,
) -> Result<Option<String>, Broken> {
    let mut items: Vec<T> = Vec::new(alloc);
    match parse_into::<T, Vec<T>>(alloc, text, None, &mut items) {
        Ok(()) => Ok(Some(texts_of(alloc, items.as_slice())?)),
        Err(_) => Ok(None),
    }
}

/// The same of a stream, with reads and chunks of random sizes.
pub(crate) fn streamed<T: StreamItem + Drop>(
    alloc: Global,
    generator: &mut Generator,
    text: &str,
) -> Result<Option<String>, Broken> {
    let capacity = 1 + generator.below(60);
    let min_chunk = generator.below(200);
    let mut items: Vec<T> = Vec::new(alloc);
    let mut reader = match BufReader::with_capacity(alloc, capacity, text.as_bytes()) {
        Ok(reader) => reader,
        Err(_) => return Err(Broken::Memory),
    };
    match read_chunks_into::<T, BufReader<&[u8]>, Vec<T>>(
        alloc,
        min_chunk,
        &mut reader,
        None,
        &mut items,
    ) {
        Ok(()) => Ok(Some(texts_of(alloc, items.as_slice())?)),
        Err(_) => Ok(None),
    }
}

// Two items are the same graph if and only if they have the same text.
fn compare<T: Generated>(alloc: Global, a: &str, b: &str) -> Result<(), Broken> {
    let first = match read_items(alloc, T::KIND, a, None) {
        Ok(items) => items,
        Err(_) => return law(alloc, false, "the text of a well-formed item is valid", a),
    };
    let second = match read_items(alloc, T::KIND, b, None) {
        Ok(items) => items,
        Err(_) => return law(alloc, false, "the text of a well-formed item is valid", b),
    };
    let are_same = same(alloc, &first, &second)?;
    law(
        alloc,
        are_same == (a == b),
        "the same text is the same graph",
        a,
    )
}

/// Tries the laws of a list of items that have these texts.
pub(crate) fn check<T: Generated>(
    alloc: Global,
    generator: &mut Generator,
    texts: &[String],
) -> Result<(), Broken> {
    let all = joined(alloc, texts)?;
    let whole = formatted::<T>(alloc, all.as_str())?;
    law(
        alloc,
        whole.as_deref() == Some(all.as_str()),
        "a list of texts reads back",
        all.as_str(),
    )?;
    let stream = streamed::<T>(alloc, generator, all.as_str())?;
    law(
        alloc,
        stream.as_deref() == Some(all.as_str()),
        "a stream has the items of its text",
        all.as_str(),
    )?;
    for pair in texts.windows(2) {
        if let [a, b] = pair {
            compare::<T>(alloc, a.as_str(), b.as_str())?;
            compare::<T>(alloc, a.as_str(), a.as_str())?;
        }
    }
    Ok(())
}
