//! Hints: what the writer of an invalid text may have meant, and for who gave another kind than a file has.

use souper_hint::hint_of;
use souper_ir::ast::{Arena, LeftHandSide, Replacement, RightHandSide, Statement};
use souper_ir::parse::{Kind, ParseError, Sink, WholeItem};
use souper_stream::{ChunkSink, ItemReader, StreamItem};
use souper_watched::Watched;
use std::alloc::{AllocError, Global};
use std::fs::File;
use std::io;
use std::io::{BufReader, Read, Take, Write};

/// Reports the hint for the error of a whole text, if there is one.
pub(crate) fn say_hint<E: Write>(
    alloc: Global,
    hints: Option<Kind>,
    text: &str,
    error: &ParseError,
    err: &mut Watched<E>,
) {
    if let Some(kind) = hints
        && let Ok(Some(hint)) = hint_of(alloc, kind, 0, text, error)
    {
        let _ = writeln!(err, "hint: {hint}");
    }
}

// Whether items were taken, and whether some were taken back.
#[derive(Default, Drop)]
struct Taken {
    some: bool,
    back: bool,
}

impl<T: WholeItem + Drop> Sink<T> for Taken {
    ghost holds = { λ first taken items. Unit {0} };

    fn take(&mut self, _item: T) -> Result<Option<Arena<Statement>>, AllocError> {
        self.some = true;
        Ok(None)
    }
}

impl<T: WholeItem + Drop> ChunkSink<T> for Taken {
    fn rollback(&mut self) {
        self.back = true;
    }
}

// How many bytes of a file are tried.
const TRIED: u64 = 1 << 16;

// How many bytes are asked for at a time, and from how many on a cut point is looked for: few beside those that are tried, so that one is
// looked for before they end.
const BLOCK: usize = 1 << 14;

const CHUNK: usize = 1 << 15;

// Whether the file begins with items of the type: those up to a cut point in the bytes that are tried, or all of a short file.
fn begins_with<T: StreamItem + Drop>(rt: &HostRuntime, path: &str) -> io::Result<bool> {
    let file = File::open(rt, path)?.take(TRIED);
    let mut reader = BufReader::with_capacity(rt.alloc(), BLOCK, file)?;
    let mut parts = ItemReader::new(rt.alloc(), CHUNK);
    let mut taken = Taken::default();
    let (alloc, file, sink) = (rt.alloc(), &mut reader, &mut taken);
    let read = parts.read_part::<T, BufReader<Take<File>>, Taken>(alloc, file, None, sink);
    Ok(read.is_ok() && taken.some && !taken.back)
}

// The other kind as which the file reads.
fn other_kind(rt: &HostRuntime, kind: Kind, path: &str) -> Option<&'static str> {
    if kind != Kind::Lhs && begins_with::<LeftHandSide>(rt, path).unwrap_or(false) {
        Some("lhs")
    } else if kind != Kind::Rhs && begins_with::<RightHandSide>(rt, path).unwrap_or(false) {
        Some("rhs")
    } else if kind != Kind::Rep && begins_with::<Replacement>(rt, path).unwrap_or(false) {
        Some("rep")
    } else {
        None
    }
}

/// Reports as which other kind the file reads, if its beginning does.
pub(crate) fn hint<E: Write>(rt: &HostRuntime, kind: Kind, path: &str, err: &mut Watched<E>) {
    if let Some(name) = other_kind(rt, kind, path) {
        let _ = writeln!(err, "hint: this reads as {name}");
    }
}
