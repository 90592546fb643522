//! Attributes: the known facts about values and roots.

/// A known fact about the root of an item.
#[derive(Debug, Drop)]
pub enum RootAttribute {
    /// Which bits of the root's value are used: one entry per bit of its type, `true` if the bit is used, in the order
    /// in which a text writes them.
    ///
    /// In a text there is at least one entry.
    DemandedBits(Vec<bool>),

    /// The root was harvested from a use of the value, not from its definition.
    HarvestedFromUse,
}

/// What data-flow analysis knows of a value.
#[derive(Debug, Drop)]
pub enum Attribute {
    /// Which bits are known: one entry per bit of the value's type, `Some(true)` if the bit is set, `Some(false)` if it
    /// is not, and `None` if that is not known, in the order in which a text writes them.
    ///
    /// In a text there is at least one entry.
    KnownBits(Vec<Option<bool>>),

    /// The value is a power of two.
    PowerOfTwo,

    /// The value is less than 0.
    Negative,

    /// The value is not less than 0.
    NonNegative,

    /// The value is not 0.
    NonZero,

    /// The value is used outside of the item too.
    HasExternalUses,

    /// The value has at least this many sign bits: its top bits that equal the sign bit.
    SignBits(u8),

    /// The value is at least the first number and less than the second.
    Range(i128, i128),
}
