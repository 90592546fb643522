//! Values written as `{}` writes them, whatever options the formatter has.
ghost use Rattle.std.specs.Prelude.{◌≡◌};
ghost use Rattle.std.specs.Fmt.{DisplaysOnOk, DisplaysStyledOnOk, HasWrittenStyled, IsFlush};

use std::fmt;
use std::fmt::Write as _;

// A formatter as a writer: it takes each text as it is.
#[derive(Drop)]
struct Unstyled<'a, W> {
    formatter: &'a mut fmt::Formatter<W>,
}

impl<W: fmt::Write> fmt::Write for Unstyled<'_, W> {
    ghost write_str_gives = { λ s bs t. (IsFlush s.formatter.now → HasWrittenStyled W.write_str_gives s.formatter.now bs t.formatter.now) × (t.formatter.ghost_name ≡ s.formatter.ghost_name) };

    fn write_str(&mut self, text: &str) -> fmt::Result {
        self.formatter.write_str(text)
    }
}

/// Writes the value with no width, fill, precision or sign.
pub(crate) fn write_unstyled<W: fmt::Write, D: fmt::Display + Drop>(
    f: &mut fmt::Formatter<W>,
    value: D,
) -> fmt::Result
    ensures writes { DisplaysOnOk W.write_str_gives f.old result (D.output value) f.new }
    ensures styled { DisplaysStyledOnOk W.write_str_gives f.old result (D.output value) f.new }
{
    let mut unstyled = Unstyled { formatter: f };
    unstyled.write(value)
}
