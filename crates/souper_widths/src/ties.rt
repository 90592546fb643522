//! Ties between widths: two sides that have one width.

/// A side of a tie.
#[derive(Clone, Copy, Debug, PartialEq, Eq)]
pub(crate) enum Side {
    /// The width of a node.
    Node(usize),

    /// A width that is known.
    Number(u16),
}

/// Two sides that have one width, and by how much wider than that both are.
#[derive(Clone, Copy, Debug, PartialEq, Eq)]
pub(crate) struct Tie {
    pub(crate) left: Side,
    pub(crate) right: Side,
    pub(crate) more: u16,
}
