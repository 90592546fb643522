//! Types of widths, and numbers of a width.

ghost use Rattle.std.specs.Prelude.{◌≡◌, ◌<◌, ◌^◌, negsuc, pos};
ghost use Rattle.souper_typed.specs.Numbers.{type_of, signed_number, written_number, index_type};

use crate::form::Form;
use souper_graph::ast::Type;

// The type of a width, if there is one.
pub(crate) fn type_of_width(width: u32) -> Option<Type>
    ensures { result ≡ type_of width }
{
    if 0 < width && width < 65536 {
        Some(Type {
            width: width as u16,
        })
    } else {
        None
    }
}

// The number that is this much below -1.
fn number_below(distance: u128) -> i128
    requires { distance < 2 ^ 127 }
    ensures { result ≡ negsuc distance }
{
    -1 - (distance as i128)
}

// The signed number with the bits of a number that is not negative, at a width below 128.
fn signed_by(bits: u128, width: u32) -> i128
    requires some { 0 < width }
    requires narrow { width < 128 }
    requires number { bits < 2 ^ 127 }
    ensures { result ≡ signed_number width (pos bits) }
{
    let count = 1u128 << width;
    let half = 1u128 << (width - 1);
    if half <= bits && bits < count {
        number_below(count - 1 - bits)
    } else {
        bits as i128
    }
}

// The signed number with the bits of the number. One that does not fit stays.
pub(crate) fn signed(number: i128, width: u32) -> i128
    ensures { result ≡ signed_number width number }
{
    if number < 0 {
        return number;
    }
    if width == 0 {
        return number;
    }
    if width >= 128 {
        return number;
    }
    signed_by(number as u128, width)
}

// The number in this form.
pub(crate) fn write_number(form: Form, width: u32, number: i128) -> i128
    ensures { result ≡ written_number form width number }
{
    match form {
        Form::Widths => number,
        Form::Complete => signed(number, width),
    }
}

// The type of an index in this form.
pub(crate) fn write_index_type(form: Form, ty: Option<Type>) -> Option<Type>
    ensures { result ≡ index_type form ty }
{
    match form {
        Form::Widths => ty,
        Form::Complete => Some(Type { width: 32 }),
    }
}
