//! Numbers written to a formatter.

ghost use Rattle.std.specs.Fmt.{DisplaysOnOk, DisplaysStyledOnOk};

use arrayvec::ArrayString;
use std::fmt;
use std::fmt::Write as _;

// Writes the number as `{}` does, whatever the formatter's options. The longest, `i128::MIN`, has 40 bytes.
pub(crate) fn write_number<N: fmt::Display + Drop, W: fmt::Write>(
    number: N,
    f: &mut fmt::Formatter<W>,
) -> fmt::Result
    ensures writes { DisplaysOnOk W.write_str_gives f.old result (N.output number) f.new }
    ensures styled { DisplaysStyledOnOk W.write_str_gives f.old result (N.output number) f.new }
{
    let mut digits = ArrayString::<40>::new();
    digits.write(number)?;
    f.write_str(digits.as_str())
}
