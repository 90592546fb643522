//! Items with all widths written.

ghost use Rattle.std.specs.Prelude.{◌≡◌, IfOk, IfErr, OnErr};
ghost use Rattle.souper_graph.specs.WellFormed.{WellFormed};
ghost use Rattle.souper_widths.specs.Maps.{WidthMap};
ghost use Rattle.souper_widths.specs.View.{view_widths};
ghost use Rattle.souper_widths.specs.Errors.{IsWidthsError};
ghost use Rattle.souper_typed.specs.declared.form.Form.TheVariants.{Widths as widths_form, Complete as complete_form};
ghost use Rattle.souper_typed.specs.Written.{IsWritten};

use crate::form::Form;
use crate::items::TypedItem;
use souper_widths::{Widths, WidthsError, well_formed_widths, widths};

/// Writes the widths of an item into it, and returns them. After an error the item is as it was.
///
/// Needed values and constants have their types then, in the `Complete` form as [`complete`] writes them. Names, uses and
/// statements that the item does not need stay; so do attributes, but for ends of ranges in the `Complete` form.
///
/// Errors: those of [`widths`].
pub fn write_widths<T: TypedItem>(item: &mut T, form: Form) -> Result<Widths, WidthsError>
    ensures written { IfOk result (λ widths. IsWritten form (view_widths widths) (T.view item.old) (T.view item.new)) }
    ensures flawed { IfErr result (λ error. IsWidthsError (T.view item.old) error) }
    ensures kept { OnErr result (T.view item.new ≡ T.view item.old) }
{
    let found = match widths(item) {
        Ok(found) => found,
        Err(error) => return Err(error),
    };
    item.put_widths(form, &found);
    Ok(found)
}

/// Writes the widths of an item that is known to be well formed, as [`write_widths`] does.
///
/// Errors: those of [`well_formed_widths`].
pub fn write_well_formed_widths<T: TypedItem>(
    item: &mut T,
    form: Form,
) -> Result<Widths, WidthsError>
    requires { WellFormed (T.view item.old) }
    ensures written { IfOk result (λ widths. IsWritten form (view_widths widths) (T.view item.old) (T.view item.new)) }
    ensures flawed { IfErr result (λ error. IsWidthsError (T.view item.old) error) }
    ensures kept { OnErr result (T.view item.new ≡ T.view item.old) }
{
    let found = match well_formed_widths(item) {
        Ok(found) => found,
        Err(error) => return Err(error),
    };
    item.put_widths(form, &found);
    Ok(found)
}

/// A copy in which each width of a needed value and of a constant is written, but of a pair of 65536 bits.
///
/// It has the widths of the item, and is written as itself.
///
/// Errors: those of [`widths`].
pub fn with_widths<T: TypedItem>(item: &T) -> Result<T, WidthsError>
    ensures written { IfOk result (λ copy. (m : WidthMap) × IsWritten widths_form m (T.view item.now) (T.view copy)) }
    ensures flawed { IfErr result (λ error. IsWidthsError (T.view item.now) error) }
{
    written_copy(item, Form::Widths)
}

/// A copy as [`with_widths`] returns, with constants and ends of ranges as signed numbers, and indices as `i32`: of
/// `255:i8` and `-1:i8` it has the second.
///
/// Errors: those of [`widths`].
pub fn complete<T: TypedItem>(item: &T) -> Result<T, WidthsError>
    ensures written { IfOk result (λ copy. (m : WidthMap) × IsWritten complete_form m (T.view item.now) (T.view copy)) }
    ensures flawed { IfErr result (λ error. IsWidthsError (T.view item.now) error) }
{
    written_copy(item, Form::Complete)
}

fn written_copy<T: TypedItem>(item: &T, form: Form) -> Result<T, WidthsError>
    ensures written { IfOk result (λ copy. (m : WidthMap) × IsWritten form m (T.view item.now) (T.view copy)) }
    ensures flawed { IfErr result (λ error. IsWidthsError (T.view item.now) error) }
{
    let found = match widths(item) {
        Ok(found) => found,
        Err(error) => return Err(error),
    };
    let mut copy = item.copied()?;
    copy.put_widths(form, &found);
    Ok(copy)
}
