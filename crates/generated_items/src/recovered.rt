//! A stream whose reading recovers after invalid segments.
ghost use Rattle.std.specs.Prelude.{ℕ, List, [], Option};
ghost use Rattle.souper_graph.specs.Syntax.Spelling.{ItemType};
ghost use Rattle.souper_stream.specs.Parts.{HasParts};

use crate::law::Broken;
use souper_ir::ast::{Arena, Statement};
use souper_ir::parse::{ParseError, ParseErrorKind, Sink, WholeItem};
use souper_ir::stringify::TextError;
use souper_stream::{ChunkSink, ItemReader, Start, StreamItem};
use std::alloc::{AllocError, Global};
use std::fmt::Write;
use std::io::BufRead;

/// What a stream has.
#[derive(Drop)]
pub(crate) struct Recovery {
    /// The texts of the items of each valid segment and of those that an invalid one begins with, and the errors, in order.
    pub(crate) texts: String,

    /// The offset and the line of each of these items.
    pub(crate) starts: String,
}

impl Recovery {
    pub(crate) fn new(alloc: Global) -> Recovery {
        Recovery {
            texts: String::new(alloc),
            starts: String::new(alloc),
        }
    }

    pub(crate) fn add_start(&mut self, offset: usize, line: usize) -> Result<(), Broken> {
        match write!(self.starts, "{offset}:{line} ") {
            Ok(()) => Ok(()),
            Err(_) => Err(Broken::Memory),
        }
    }

    pub(crate) fn add_error(&mut self, alloc: Global, error: &ParseError) -> Result<(), Broken> {
        self.texts.push_str(error.to_string(alloc)?.as_str())?;
        self.texts.push_str("\n")?;
        Ok(())
    }
}

// The texts of the items of a part, with a newline after each.
#[derive(Drop)]
pub(crate) struct Texts {
    pub(crate) out: String,
}

impl<T: WholeItem + Drop> Sink<T> for Texts {
    ghost holds = { λ first texts items. Unit {0} };

    fn take(&mut self, item: T) -> Result<Option<Arena<Statement>>, AllocError> {
        match item.append_text(&mut self.out) {
            Ok(()) => self.out.push_str("\n")?,
            Err(TextError::OutOfMemory) => return Err(AllocError),
            Err(_) => {}
        }
        Ok(None)
    }
}

impl<T: WholeItem + Drop> ChunkSink<T> for Texts {
    fn rollback(&mut self) {
        self.out.clear();
    }
}

// Adds the texts and starts of a part.
fn add_part(found: &mut Recovery, texts: &str, starts: &[Start]) -> Result<(), Broken> {
    found.texts.push_str(texts)?;
    for start in starts {
        found.add_start(start.offset, start.line)?;
    }
    Ok(())
}

/// Reads a stream to its end.
pub(crate) fn recovered<T: StreamItem + Drop, R: BufRead>(
    alloc: Global,
    mut parts: ItemReader,
    reader: &mut R,
) -> Result<Recovery, Broken>
    requires { (k : ItemType) (start : Option (List ℕ)) → HasParts k start start [] parts }
{
    let mut texts = Texts {
        out: String::new(alloc),
    };
    let mut found = Recovery::new(alloc);
    for _turn in 0..u64::MAX {
        texts.out.clear();
        match parts.read_part::<T, R, Texts>(alloc, reader, None, &mut texts) {
            Ok(true) => add_part(&mut found, texts.out.as_str(), parts.starts())?,
            Ok(false) => return Ok(found),
            Err(error) => match error.kind() {
                ParseErrorKind::Parse => {
                    add_part(&mut found, texts.out.as_str(), parts.starts())?;
                    found.add_error(alloc, &error)?;
                }
                _ => return Err(Broken::Memory),
            },
        }
    }
    Ok(found)
}
