//! The canonical texts of the items whose code is given.

ghost use Rattle.std.specs.Prelude.{◌≡◌, ◌++◌, ◌∷◌, [], List, IfOk, IfErr, IsOkAnd, OnOk};
ghost use Rattle.std.specs.String.{string_bytes};
ghost use Rattle.souper_graph.specs.Text.{text_with_newline};
ghost use Rattle.souper_graph.specs.WellFormed.{WellFormed};
ghost use Rattle.souper_graph.specs.Values.{Item as PlainItem};
ghost use Rattle.souper_code.specs.declared.write.WriteError.TheVariants.{OutOfMemory};
ghost use Rattle.souper_code.specs.Writing.{IsWritten, IsWriteError, IsPlaceAfter};
ghost use Rattle.souper_code.specs.Judging.{Judged};

use crate::decode::{Decode, DecodeError, Reader};
use souper_graph::ast::Item;
use std::alloc::{AllocError, Global};

/// Where an item of a code is.
#[derive(Clone, Copy, Debug, PartialEq, Eq)]
pub struct Place {
    /// The number of items before it.
    pub index: usize,

    /// The number of bytes before its code.
    pub offset: usize,
}

/// Why bytes give no canonical texts.
#[derive(Clone, Copy, Debug, PartialEq, Eq, Drop)]
pub enum WriteError {
    /// The bytes are the code of no list of items of the type. At the place the code of an item is missing.
    NoCode(Place),

    /// The bytes are the code of items, and the item at the place is the first that is not well formed.
    NotWellFormed(Place),

    /// An allocation failed.
    OutOfMemory,
}

impl From<AllocError> for WriteError {
    ghost from_gives = { λ _ error. error ≡ OutOfMemory };

    fn from(_: AllocError) -> Self {
        WriteError::OutOfMemory
    }
}

// Appends the canonical text and a newline.
fn append_line<T: Item>(item: &T, out: &mut String) -> Result<(), AllocError>
    requires { WellFormed (T.view item.now) }
    ensures { OnOk result (string_bytes out.new ≡ string_bytes out.old ++ text_with_newline (T.view item.now)) }
{
    match item.append_text(out) {
        Ok(()) => {
            out.push('\n')?;
            Ok(())
        }
        // A well-formed item has no bad id, so the error is out of memory.
        Err(_) => Err(AllocError),
    }
}

// The texts of the items so far, or where the first is that is not well formed.
#[derive(Drop)]
struct Texts {
    text: String,
    ill_formed: Option<Place>,
}

impl Texts {
    fn add<T: Item>(&mut self, item: &T, place: Place) -> Result<(), AllocError>
        ensures { OnOk result ((done : List PlainItem) → IsPlaceAfter done place → Judged done self.old.ill_formed (string_bytes self.old.text)
            → Judged (done ++ (T.view item.now ∷ [])) self.new.ill_formed (string_bytes self.new.text)) }
    {
        match self.ill_formed {
            Some(_) => Ok(()),
            None => {
                if item.is_well_formed()? {
                    append_line(item, &mut self.text)
                } else {
                    self.ill_formed = Some(place);
                    Ok(())
                }
            }
        }
    }
}

// Room for the text of an item, in bytes: most need no more.
const FIRST_ROOM: usize = 1024;

/// The canonical text of each item whose code the bytes have, a newline after each.
///
/// An item is printed when it has been read, and then dropped.
pub fn write_items<T: Decode + Drop>(alloc: Global, code: &[u8]) -> Result<String, WriteError>
    ensures written { IfOk result (λ text. IsWritten T.item_type code.now (string_bytes text)) }
    ensures stopped { IfErr result (IsWriteError T.item_type code.now) }
    ensures empty { code.now ≡ [] → IsOkAnd result (λ text. string_bytes text ≡ []) }
{
    let mut reader = Reader::new(code);
    let mut texts = Texts {
        text: String::with_capacity(alloc, code.len().min(FIRST_ROOM))?,
        ill_formed: None,
    };
    let mut index = 0;
    while !reader.is_empty() {
        let place = Place {
            index,
            offset: code.len() - reader.len(),
        };
        match T::decode(&mut reader, alloc) {
            Ok(item) => texts.add(&item, place)?,
            Err(DecodeError::NoCode) => return Err(WriteError::NoCode(place)),
            Err(DecodeError::OutOfMemory) => return Err(WriteError::OutOfMemory),
        }
        index += 1;
    }
    match texts.ill_formed {
        None => Ok(texts.text),
        Some(place) => Err(WriteError::NotWellFormed(place)),
    }
}
