//! Where a text is at fault, in a form that C can read.
ghost use Rattle.std.specs.Prelude.{◌≡◌, ◌≤◌, ◌⊎◌, ◌↔◌, None};
ghost use Rattle.std.specs.Str.{IsUtf8};
ghost use Rattle.souper_ir.specs.Kinds.{item_type_of};
ghost use Rattle.souper_calls.specs.Kinds.{type_of_number, IsKind};
ghost use Rattle.souper_calls.specs.Outcomes.{SpellsSome};
ghost use Rattle.souper_calls.specs.Locations.{IsLocationOf, HasNoLocation, LocatesFault};

use crate::inputs::kind_and_source;
use crate::outcome::{DONE, OUT_OF_MEMORY, REFUSED};
use souper_format::items::read_items;
use souper_ir::parse::ParseError;
use std::alloc::Global;

/// Where a text is at fault. The numbers after the status are 0 if the status is not 1.
#[repr(C)]
#[derive(Clone, Copy, Debug, PartialEq, Eq)]
pub struct SouperLocation {
    /// 0 the text spells items; 1 rejected; 2 no kind; 3 out of memory; 4 not UTF-8.
    pub status: u32,

    /// 1 if the text ended where more is wanted, else 0.
    pub at_end: u32,

    /// Where the token at fault begins or, if the text ended, where it ends without the white space at its end: the number of bytes before
    /// it.
    pub offset: usize,

    /// Its line, from 1.
    pub line: usize,

    /// Its column, in bytes and from 1.
    pub column: usize,
}

impl SouperLocation {
    // The status alone.
    fn new(status: u32) -> SouperLocation
        ensures status { result.status ≡ status }
        ensures none { HasNoLocation result }
    {
        SouperLocation {
            status,
            at_end: 0,
            offset: 0,
            line: 0,
            column: 0,
        }
    }
}

// The location of the error; without one, memory ran out.
fn location_of(error: &ParseError) -> SouperLocation
    ensures { IsLocationOf error.now result }
{
    match error.location() {
        Some(location) => SouperLocation {
            status: REFUSED,
            at_end: u32::from(error.is_at_end()),
            offset: location.offset,
            line: location.line,
            column: location.column,
        },
        None => SouperLocation::new(OUT_OF_MEMORY),
    }
}

/// Where `text` is at fault: unlike the place that an outcome has, where the token at fault begins, or where the text ends.
pub fn souper_locate(alloc: Global, kind: u32, text: &[u8]) -> SouperLocation
    ensures known { result.status ≤ 4 }
    ensures spelled { result.status ≡ 0 → SpellsSome kind text.now }
    ensures refused { result.status ≡ 1 → LocatesFault kind text.now result }
    ensures no_kind { (result.status ≡ 2) ↔ (type_of_number kind ≡ None) }
    ensures no_text { (result.status ≡ 4) ↔ (IsKind kind × ¬ (IsUtf8 text.now)) }
    ensures no_location { (result.status ≡ 1) ⊎ HasNoLocation result }
{
    let (kind, source) = match kind_and_source(kind, text) {
        Ok(given) => given,
        Err(failure) => return SouperLocation::new(failure.outcome(0).status),
    };
    match read_items(alloc, kind, source, None) {
        Ok(_) => SouperLocation::new(DONE),
        Err(error) => location_of(&error),
    }
}
