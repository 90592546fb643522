//! The fault of bytes that are not UTF-8.
ghost use Rattle.std.specs.Prelude.{◌≡◌, ◌+◌, ◌^◌, ◌<◌, ◌++◌, ℕ, List, length, take};
ghost use Rattle.std.specs.IoError.{error_kind};
ghost use Rattle.std.specs.Str.Lossy.{utf8_valid_len};
ghost use Rattle.souper_stream.specs.Buffering.{Counts, IsFaultAfter};

use crate::buffer::newline_count;
use arrayvec::ArrayString;
use souper_ir::parse::Before;
use std::fmt::Write;
use std::io::ErrorKind;
use std::{io, str};

// The longest text of a fault that takes no memory, in bytes.
const ROOM: usize = 80;

// The numbers of bytes and lines before the first byte that is in no character, of bytes that come after others.
fn before_fault(before: Before, bytes: &[u8]) -> Before
    ensures { (text : List ℕ) → Counts before text → length (text ++ bytes.now) < 2 ^ 64 → Counts result (text ++ take (utf8_valid_len bytes.now) bytes.now) }
{
    let valid = match str::from_utf8(bytes) {
        Ok(_) => bytes,
        Err(fault) => &bytes[..fault.valid_up_to()],
    };
    Before {
        bytes: before.bytes.saturating_add(valid.len()),
        lines: before.lines.saturating_add(newline_count(valid)),
    }
}

/// Bytes of a stream that are not UTF-8.
#[derive(Clone, Copy, Debug, PartialEq, Eq)]
pub struct NotUtf8 {
    /// The line of the first byte that is in no character, counted from 1.
    pub line: usize,

    /// The number of bytes before it.
    pub offset: usize,
}

/// The first byte that is in no character, of bytes that come after others and are not UTF-8.
pub fn not_utf8(before: Before, bytes: &[u8]) -> NotUtf8
    ensures { (text : List ℕ) → Counts before text → length (text ++ bytes.now) + 1 < 2 ^ 64 → IsFaultAfter (text ++ take (utf8_valid_len bytes.now) bytes.now) result }
{
    let valid = before_fault(before, bytes);
    NotUtf8 {
        line: valid.lines.saturating_add(1),
        offset: valid.bytes,
    }
}

impl NotUtf8 {
    /// The error of a read, with the text `line L: not UTF-8 at byte N`.
    pub fn to_error(self) -> io::Error
        ensures { error_kind result ≡ ErrorKind.InvalidData }
    {
        let NotUtf8 { line, offset } = self;
        let mut says = ArrayString::<ROOM>::new();
        match write!(says, "line {line}: not UTF-8 at byte {offset}") {
            Ok(()) => io::Error::new(ErrorKind::InvalidData, says.as_str()),
            Err(_) => io::Error::from(ErrorKind::InvalidData),
        }
    }
}
