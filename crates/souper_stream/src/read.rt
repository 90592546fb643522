//! Reading items from a stream.
ghost use Rattle.std.specs.Prelude.{◌≡◌, ℕ, List, [], ◌∷◌, ◌++◌, Option, IfErr, OnOk, map, option_copied};
ghost use Rattle.std.specs.List.{AllByRecursion};
ghost use Rattle.souper_stream.specs.Prelude.{WellFormed, kind_of, TakesOver};
ghost use Rattle.souper_stream.specs.Segments.{Line};
ghost use Rattle.souper_stream.specs.Parts.{HasParts};
ghost use Rattle.souper_stream.specs.Reading.{IsStreamTaken, IsStreamRefused};

use crate::item::StreamItem;
use crate::reader::ItemReader;
use crate::sink::ChunkSink;
use souper_ir::ast::{Arena, Statement};
use souper_ir::parse::{ParseError, ParseErrorKind, Result, Sink, WholeItem};
use std::alloc::{AllocError, Global};
use std::io::{BufRead, ErrorKind};
use std::{io, mem};

// Bytes to read before looking for a cut point.
const CHUNK: usize = 65536;

/// Reads the items of a stream to its end, and passes them to a sink, in order.
///
/// They are the items of its whole text ([`parse_into`](souper_ir::parse::parse_into)). The items of a part of the text are kept until
/// the whole part was parsed, and the text is buffered: at least 64 KiB, or up to twice the text between two cut points, which are after
/// the last line of an item and before a line of the next. The type of the items is [`LeftHandSide`](souper_ir::ast::LeftHandSide),
/// [`RightHandSide`](souper_ir::ast::RightHandSide) or [`Replacement`](souper_ir::ast::Replacement). The file name is for the error, which
/// shows `unknown` without one.
///
/// - `Parse`: the text read so far is not the beginning of any text that spells such items; or the stream has ended, and its text
///   spells none. The sink has then taken items that the stream begins with. The error is one of its first invalid segment, and has and
///   shows its location in the stream.
/// - `Io`: a read failed, or the bytes read are not UTF-8.
/// - `Memory`: memory ran out, or the sink returned so.
///
/// After `Io` or `Memory` the sink may have taken items.
pub fn read_into<T: StreamItem + Drop, R: BufRead, S: Sink<T>>(
    alloc: Global,
    reader: &mut R,
    filename: Option<&str>,
    sink: &mut S,
) -> Result<()>
    ensures taken { OnOk result (IsStreamTaken T.item_type (R.remaining reader.old) (R.remaining reader.new) S.holds sink.old sink.new) }
    ensures refused { IfErr result (λ e. kind_of e ≡ ParseErrorKind.Parse → IsStreamRefused T.item_type (option_copied filename.entry) (R.remaining reader.old) (R.remaining reader.new) S.holds sink.old sink.new e) }
{
    read_chunks_into::<T, R, S>(alloc, CHUNK, reader, filename, sink)
}

// The items of a part.
#[derive(Drop)]
struct Pending<T: Drop> {
    items: Vec<T>,
}

impl<T: WholeItem + Drop> Sink<T> for Pending<T> {
    ghost holds = { λ first pending items. (map T.view pending.items.items ≡ items) × AllByRecursion WellFormed items };

    fn take(&mut self, item: T) -> std::result::Result<Option<Arena<Statement>>, AllocError> {
        self.items.push(item)?;
        Ok(None)
    }
}

impl<T: WholeItem + Drop> ChunkSink<T> for Pending<T> {
    fn rollback(&mut self) {
        self.items.clear();
    }
}

// Passes the items to the sink, and leaves none.
#[tactic(auto, using(crate::proofs::Reached::passed_more))]
fn pass_on<T: WholeItem + Drop, S: Sink<T>>(
    alloc: Global,
    pending: &mut Pending<T>,
    sink: &mut S,
) -> std::result::Result<(), AllocError>
    requires { AllByRecursion WellFormed (map T.view pending.old.items.items) }
    ensures none { pending.new.items.items ≡ [] }
    ensures taken { OnOk result (TakesOver S.holds (map T.view pending.old.items.items) sink.old sink.new) }
{
    for item in mem::replace(&mut pending.items, Vec::new(alloc)) {
        sink.take(item)?;
    }
    Ok(())
}

/// [`read_into`] with an [`ItemReader`] at the start of the stream.
pub fn read_with<T: StreamItem + Drop, R: BufRead, S: Sink<T>>(
    alloc: Global,
    parts: &mut ItemReader,
    reader: &mut R,
    filename: Option<&str>,
    sink: &mut S,
) -> Result<()>
    requires begins { (start : Option (List ℕ)) → HasParts T.item_type start start [] parts.old }
    ensures taken { OnOk result (IsStreamTaken T.item_type (R.remaining reader.old) (R.remaining reader.new) S.holds sink.old sink.new) }
    ensures refused { IfErr result (λ e. kind_of e ≡ ParseErrorKind.Parse → IsStreamRefused T.item_type (option_copied filename.entry) (R.remaining reader.old) (R.remaining reader.new) S.holds sink.old sink.new e) }
    ensures had { IfErr result (λ e. kind_of e ≡ ParseErrorKind.Parse → (ps : List (List Line)) × (part : List Line) × HasParts T.item_type (R.remaining reader.old) (R.remaining reader.new) (ps ++ part ∷ []) parts.new) }
{
    let mut pending = Pending {
        items: Vec::new(alloc),
    };
    for _turn in 0..u64::MAX {
        match parts.read_part::<T, R, Pending<T>>(alloc, reader, filename, &mut pending) {
            Ok(true) => pass_on(alloc, &mut pending, sink)?,
            Ok(false) => return Ok(()),
            Err(error) => match error.kind() {
                ParseErrorKind::Parse => {
                    pass_on(alloc, &mut pending, sink)?;
                    return Err(error);
                }
                _ => return Err(error),
            },
        }
    }
    Err(ParseError::from(io::Error::from(ErrorKind::Other)))
}

/// [`read_into`] with an [`ItemReader`] of the chunk size `min_chunk`, in bytes.
pub fn read_chunks_into<T: StreamItem + Drop, R: BufRead, S: Sink<T>>(
    alloc: Global,
    min_chunk: usize,
    reader: &mut R,
    filename: Option<&str>,
    sink: &mut S,
) -> Result<()>
    ensures taken { OnOk result (IsStreamTaken T.item_type (R.remaining reader.old) (R.remaining reader.new) S.holds sink.old sink.new) }
    ensures refused { IfErr result (λ e. kind_of e ≡ ParseErrorKind.Parse → IsStreamRefused T.item_type (option_copied filename.entry) (R.remaining reader.old) (R.remaining reader.new) S.holds sink.old sink.new e) }
{
    let mut parts = ItemReader::new(alloc, min_chunk);
    read_with::<T, R, S>(alloc, &mut parts, reader, filename, sink)
}
