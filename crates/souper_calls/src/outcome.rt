//! What a call did, in a form that C can read.
ghost use Rattle.std.specs.Prelude.{◌≡◌};

/// The call did what it was asked for; of a question, the answer is yes.
pub(crate) const DONE: u32 = 0;

/// A text spells no list of items.
pub(crate) const REFUSED: u32 = 1;

/// The kind is no kind.
pub(crate) const NO_KIND: u32 = 2;

/// Memory ran out.
pub(crate) const OUT_OF_MEMORY: u32 = 3;

/// A text is not UTF-8.
pub(crate) const NOT_UTF8: u32 = 4;

/// The buffer is too short.
pub(crate) const SHORT: u32 = 5;

/// The answer to a question is no.
pub(crate) const DIFFERENT: u32 = 6;

/// The bytes are the code of no list of items.
pub(crate) const NO_CODE: u32 = 7;

/// The bytes are the code of items, and one of them is not well formed.
pub(crate) const NOT_WELL_FORMED: u32 = 8;

/// A flag is none.
pub(crate) const NO_FLAGS: u32 = 9;

/// What a call did. A number that is not named below for the status is 0.
#[repr(C)]
#[derive(Clone, Copy, Debug, PartialEq, Eq)]
pub struct SouperOutcome {
    /// 0 done, or yes; 1 rejected; 2 no kind; 3 out of memory; 4 not UTF-8; 5 short buffer; 6 no; 7 no code; 8 not well formed; 9 no flags.
    pub status: u32,

    /// Which text was rejected or is not UTF-8: 0 for the first, 1 for the second.
    pub input: u32,

    /// The number of bytes of what was written, or of what a buffer must have room for; with status 7 or 8, how many items are
    /// before the one that the status is about.
    pub length: usize,

    /// Where the text was rejected: how many bytes were read; with status 7 or 8, how many bytes are before the code of that item.
    pub offset: usize,

    /// The line of the last of these bytes, or of the first of the text if there is none; from 1.
    pub line: usize,

    /// The column of that byte, in bytes and from 1.
    pub column: usize,
}

impl SouperOutcome {
    /// The outcome with that status and length, and no place.
    pub(crate) fn new(status: u32, length: usize) -> SouperOutcome
        ensures { result ≡ record { status = status; input = 0; length = length; offset = 0; line = 0; column = 0 } }
    {
        SouperOutcome {
            status,
            input: 0,
            length,
            offset: 0,
            line: 0,
            column: 0,
        }
    }
}
