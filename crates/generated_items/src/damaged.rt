//! Laws of any text: texts of items in which some characters are others.
ghost use Rattle.std.specs.Prelude.{ℕ, List, [], Option};
ghost use Rattle.souper_graph.specs.Syntax.Spelling.{ItemType};
ghost use Rattle.souper_stream.specs.Parts.{HasParts};

use crate::generator::{Generated, Generator};
use crate::law::{Broken, law};
use crate::recovered::{Recovery, recovered};
use crate::segments::by_segments;
use crate::texts::{formatted, joined, streamed};
use souper_ir::parse::parse_into;
use souper_stream::ItemReader;
use std::alloc::Global;
use std::io::BufReader;

// The bytes to insert.
const CHARACTERS: &[u8; 41] = b"%%%  \n\n=:,()[;-_.0123456789abdefiklnprsux";

fn damage(alloc: Global, generator: &mut Generator, text: &str) -> Result<String, Broken> {
    let mut damaged = String::new(alloc);
    let length = text.len().max(1);
    let first = generator.below(length);
    let second = generator.below(length);
    for (index, c) in text.char_indices() {
        if index == first || index == second {
            let other = generator.below(CHARACTERS.len());
            damaged.push(char::from(CHARACTERS[other]))?;
        } else {
            damaged.push(c)?;
        }
    }
    Ok(damaged)
}

// The offset of a parse error is within the text.
fn is_placed<T: Generated>(alloc: Global, text: &str) -> Result<(), Broken> {
    let mut items: Vec<T> = Vec::new(alloc);
    match parse_into::<T, Vec<T>>(alloc, text, None, &mut items) {
        Ok(()) => Ok(()),
        Err(error) => {
            let within = error.offset().is_some_and(|offset| offset <= text.len());
            law(
                alloc,
                within,
                "a parse error has an offset within the text",
                text,
            )
        }
    }
}

// What a text has that is read with reads of a random size.
fn recover<T: Generated>(
    alloc: Global,
    generator: &mut Generator,
    parts: ItemReader,
    text: &str,
) -> Result<Recovery, Broken>
    requires { (k : ItemType) (start : Option (List ℕ)) → HasParts k start start [] parts }
{
    let capacity = 1 + generator.below(60);
    match BufReader::with_capacity(alloc, capacity, text.as_bytes()) {
        Ok(mut reader) => recovered::<T, BufReader<&[u8]>>(alloc, parts, &mut reader),
        Err(_) => Err(Broken::Memory),
    }
}

// Reading by chunks of any size gives the items, starts and errors of the segments, and of a valid text the items of the whole.
fn recovers<T: Generated>(
    alloc: Global,
    generator: &mut Generator,
    text: &str,
    whole: Option<&str>,
) -> Result<(), Broken> {
    let segments = by_segments::<T>(alloc, text)?;
    for is_eager in [false, true] {
        let min_chunk = generator.below(300);
        let reader = ItemReader::with_starts(alloc, min_chunk).eager(is_eager);
        let chunks = recover::<T>(alloc, generator, reader, text)?;
        law(
            alloc,
            chunks.texts == segments.texts,
            "a stream has the items and errors of its segments",
            text,
        )?;
        law(
            alloc,
            chunks.starts == segments.starts,
            "the items of a stream begin where those of its segments do",
            text,
        )?;
    }
    law(
        alloc,
        whole.is_none_or(|whole| whole == segments.texts.as_str()),
        "the segments of a valid text have its items",
        text,
    )
}

/// Tries the laws of any text on a damaged list.
pub(crate) fn check<T: Generated>(
    alloc: Global,
    generator: &mut Generator,
    texts: &[String],
) -> Result<(), Broken> {
    let all = joined(alloc, texts)?;
    let text = damage(alloc, generator, all.as_str())?;
    is_placed::<T>(alloc, text.as_str())?;
    let whole = formatted::<T>(alloc, text.as_str())?;
    let stream = streamed::<T>(alloc, generator, text.as_str())?;
    law(
        alloc,
        whole == stream,
        "a stream is read as its text is",
        text.as_str(),
    )?;
    recovers::<T>(alloc, generator, text.as_str(), whole.as_deref())?;
    if let Some(once) = whole {
        let twice = formatted::<T>(alloc, once.as_str())?;
        law(
            alloc,
            twice == Some(once),
            "formatting twice is formatting once",
            text.as_str(),
        )?;
    }
    Ok(())
}
