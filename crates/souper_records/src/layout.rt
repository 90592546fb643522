//! What a record looks like.

/// What ends a record.
#[derive(Clone, Copy, Debug, PartialEq, Eq)]
pub enum Delimiter {
    /// A newline. The text of a left-hand side or of a replacement ends in a newline itself, so an empty line is after it.
    Newline,

    /// A NUL character, which no canonical text has.
    Nul,
}

/// What a record of an item has: its canonical text, what ends it, and more as asked.
#[derive(Clone, Copy, Debug, PartialEq, Eq)]
pub struct Layout {
    /// What ends it.
    pub delimiter: Delimiter,

    /// Whether a comment line with the key of the text is before it: `; `, and the SHA-256 of the text in hexadecimal digits.
    pub key: bool,

    /// Whether the names in the text are `%0`, `%1`, and so on, by the printed order of the item
    /// ([`renamed`](souper_ir::ast::LeftHandSide::renamed)).
    pub rename: bool,
}

/// Which graphs have their records written after all items were read, and whether with counts.
#[derive(Clone, Copy, Debug, PartialEq, Eq)]
pub struct Summary {
    /// Whether a comment line before each record says how many items are the same graph: `; count 3`.
    pub counts: bool,

    /// Whether only graphs that more than one item has have a record.
    pub repeated: bool,
}

/// Canonical texts, a newline after each.
pub const PLAIN: Layout = Layout {
    delimiter: Delimiter::Newline,
    key: false,
    rename: false,
};
