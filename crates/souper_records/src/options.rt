//! How a stream is read.

use souper_ir::parse::Kind;

/// The name of a stream, and how it is read.
#[derive(Clone, Copy)]
pub struct ReadOptions<'a> {
    /// The name, which refusals show.
    pub name: &'a str,

    /// Whether reading resumes after a refusal. Else it ends with the first one.
    pub recover: bool,

    /// Whether the output of a segment is written as soon as the line after it can be read. `out` should then have no buffer. Else more is
    /// read at once, in less time.
    pub line_buffered: bool,

    /// The kind of the items, if each refusal is to have a hint ([`hint_of`](souper_hint::hint_of)).
    pub hints: Option<Kind>,
}
