//! What a canonical text leaves out of the text that it is made from: comments, and definitions that nothing uses.

use souper_ir::ast::{Arena, Item, LeftHandSide, Replacement, RightHandSide, Statement};
use souper_ir::parse::{Kind, Sink, WholeItem};
use souper_records::options::ReadOptions;
use souper_records::parts::{Part, PartSink, Source, write_parts};
use souper_records::rejected::Rejected;
use souper_records::stop::Stop;
use souper_stream::{ChunkSink, StreamItem};
use souper_watched::Watched;
use std::alloc::{AllocError, Global};
use std::fs::File;
use std::io;
use std::io::{BufRead, BufReader, Write};

// Comments and definitions of a text that its canonical text does not have.
#[derive(Default, Drop)]
struct Losses {
    comments: usize,
    definitions: usize,

    // The definitions of the items that were taken, until their part is whole.
    taken: usize,
}

// How many statements of the item nothing needs. They are definitions, since each path condition is needed.
fn unneeded<T: Item>(item: &T) -> Result<usize, AllocError> {
    match item.print_order() {
        Ok(order) => Ok(item.statements().len().saturating_sub(order.ids.len())),
        // An item that was read has no bad id, so memory ran out.
        Err(_) => Err(AllocError),
    }
}

// A comment goes from the first semicolon of a line to its end, since no token has a semicolon.
fn comments_in(text: &[u8]) -> usize {
    let mut count = 0usize;
    let mut is_comment = false;
    for byte in text {
        if *byte == b';' && !is_comment {
            count = count.saturating_add(1);
        }
        is_comment = *byte != b'\n' && (is_comment || *byte == b';');
    }
    count
}

impl<T: WholeItem + Drop> Sink<T> for Losses {
    ghost holds = { λ first losses items. Unit {0} };

    fn take(&mut self, item: T) -> Result<Option<Arena<Statement>>, AllocError> {
        self.taken = self.taken.saturating_add(unneeded(&item)?);
        Ok(None)
    }
}

impl<T: WholeItem + Drop> ChunkSink<T> for Losses {
    fn rollback(&mut self) {
        self.taken = 0;
    }
}

// Nothing is written.
impl<T: StreamItem + Drop> PartSink<T> for Losses {
    ghost wrote = { λ name a x b y os. Unit {0} };

    fn write_part<W: Write>(
        &mut self,
        part: Part<'_>,
        _refusal: Option<Rejected<'_>>,
        _out: &mut Watched<W>,
    ) -> Result<(), Stop> {
        self.comments = self.comments.saturating_add(comments_in(part.text));
        self.definitions = self.definitions.saturating_add(self.taken);
        self.taken = 0;
        Ok(())
    }
}

// Those of a text, or none if it is invalid or was not read.
fn losses_of<T: StreamItem + Drop, R: BufRead>(alloc: Global, reader: &mut R) -> Option<Losses> {
    let options = ReadOptions {
        name: "",
        recover: false,
        line_buffered: false,
        hints: None,
    };
    let mut losses = Losses::default();
    let (out, err) = (&mut Watched::new(io::sink()), &mut Watched::new(io::sink()));
    let source = Source::new(alloc, options);
    let sink = &mut losses;
    let parts = write_parts::<T, Losses, R, io::Sink, io::Sink>(
        alloc, source, sink, reader, out, err,
    );
    matches!(parts, Ok(false)).then_some(losses)
}

// The end of a noun of so many.
fn plural(count: usize) -> &'static str {
    if count == 1 { "" } else { "s" }
}

fn shown(alloc: Global, losses: &Losses) -> Result<String, AllocError> {
    let (comments, definitions) = (losses.comments, losses.definitions);
    let (c, d) = (plural(comments), plural(definitions));
    match (comments, definitions) {
        (_, 0) => format!(in alloc; "{comments} comment{c}"),
        (0, _) => format!(in alloc; "{definitions} definition{d} that nothing uses"),
        _ => format!(in alloc;
            "{comments} comment{c} and {definitions} definition{d} that nothing uses"
        ),
    }
}

// Says nothing if nothing is lost.
fn say<E: Write>(alloc: Global, name: &str, losses: &Losses, verb: &str, err: &mut Watched<E>) {
    if (losses.comments > 0 || losses.definitions > 0)
        && let Ok(lost) = shown(alloc, losses)
    {
        let _ = writeln!(err, "{name}: {lost} {verb} written");
    }
}

/// Says how many comments and unused definitions of the source were not written, when its canonical text was.
pub(crate) fn say_lost<T: StreamItem + Drop, E: Write>(
    alloc: Global,
    name: &str,
    mut source: &[u8],
    err: &mut Watched<E>,
) {
    if let Some(losses) = losses_of::<T, &[u8]>(alloc, &mut source) {
        let is_one = losses.comments.saturating_add(losses.definitions) == 1;
        let verb = if is_one { "was not" } else { "were not" };
        say(alloc, name, &losses, verb, err);
    }
}

/// Says how many `format --write` would not write, of a file that is not canonical.
pub(crate) fn say_would_be_lost<E: Write>(
    rt: &HostRuntime,
    kind: Kind,
    path: &str,
    err: &mut Watched<E>,
) {
    let alloc = rt.alloc();
    let Ok(file) = File::open(rt, path) else {
        return;
    };
    let Ok(mut reader) = BufReader::new(alloc, file) else {
        return;
    };
    let losses = match kind {
        Kind::Lhs => losses_of::<LeftHandSide, BufReader<File>>(alloc, &mut reader),
        Kind::Rhs => losses_of::<RightHandSide, BufReader<File>>(alloc, &mut reader),
        Kind::Rep => losses_of::<Replacement, BufReader<File>>(alloc, &mut reader),
    };
    if let Some(losses) = losses {
        say(alloc, path, &losses, "would not be", err);
    }
}
