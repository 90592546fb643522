//! Spans of numbers of some width.

ghost use Rattle.std.specs.Prelude.{◌≡◌, ◌%◌, ◌^◌};
ghost use Rattle.souper_meaning.specs.Pins.{plus, minus, size, is_among, fewer, begun, common, shared, placed};

/// The lowest bits of a number, as many as the width.
pub(crate) fn low_bits(n: u128, width: u32) -> u128
    ensures { result ≡ n % 2 ^ width }
{
    if width >= 128 {
        n
    } else {
        n & ((1 << width) - 1)
    }
}

/// The numbers of some width from a first one to the one before the end. After the greatest comes 0. Where both are the same,
/// nothing is said.
#[derive(Clone, Copy)]
pub(crate) struct Span {
    pub(crate) first: u128,
    pub(crate) end: u128,
}

/// The sum of two numbers of this width.
pub(crate) fn sum(a: u128, b: u128, width: u32) -> u128
    ensures { result ≡ plus width a b }
{
    low_bits(a.wrapping_add(b), width)
}

/// The difference of two numbers of this width.
fn difference(a: u128, b: u128, width: u32) -> u128
    ensures { result ≡ minus width a b }
{
    low_bits(a.wrapping_sub(b), width)
}

impl Span {
    /// How many there are, or 0 if nothing is said.
    pub(crate) fn size(self, width: u32) -> u128
        ensures { result ≡ size width self }
    {
        difference(self.end, self.first, width)
    }

    /// Whether the number is one of them.
    fn has(self, number: u128, width: u32) -> bool
        ensures { result ≡ is_among width self number }
    {
        difference(number, self.first, width) < self.size(width)
    }

    /// The fewer of both.
    fn fewer(self, other: Span, width: u32) -> Span
        ensures { result ≡ fewer width self other }
    {
        if self.size(width) <= other.size(width) {
            self
        } else {
            other
        }
    }

    /// Those that are also among the others, which begin among these.
    fn begun(self, other: Span, width: u32) -> Span
        ensures { result ≡ begun width self other }
    {
        if self.has(difference(other.end, 1, width), width) {
            other
        } else {
            Span {
                first: other.first,
                end: self.end,
            }
        }
    }

    /// Those that are also among the others, if they are one span.
    fn common(self, other: Span, width: u32) -> Span
        ensures { result ≡ common width self other }
    {
        if self.has(other.first, width) {
            if other.has(self.first, width) {
                self.fewer(other, width)
            } else {
                self.begun(other, width)
            }
        } else if other.has(self.first, width) {
            other.begun(self, width)
        } else {
            self.fewer(other, width)
        }
    }

    /// Those of which both say that they may be, as far as they are one span.
    pub(crate) fn shared(self, other: Span, width: u32) -> Span
        ensures { result ≡ shared width self other }
    {
        if self.size(width) == 0 {
            other
        } else if other.size(width) == 0 {
            self
        } else {
            self.common(other, width)
        }
    }

    /// The number, or one of these in its place.
    pub(crate) fn placed(self, number: u128, width: u32) -> u128
        ensures { result ≡ placed width self number }
    {
        let size = self.size(width);
        if size == 0 {
            return number;
        }
        sum(
            self.first,
            difference(number, self.first, width) % size,
            width,
        )
    }
}
