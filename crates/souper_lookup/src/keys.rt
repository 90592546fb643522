//! The keys of left-hand sides: a key is the same text for left-hand sides that are the same graph up to names.

ghost use Rattle.std.specs.Prelude.{◌≡◌, None, MatchOption, IfOk, IfErr, OnOk};
ghost use Rattle.std.specs.String.{string_bytes};
ghost use Rattle.souper_graph.specs.declared.stringify.errors.TextError.TheVariants.{OutOfMemory};
ghost use Rattle.souper_graph.specs.View.{view_left_hand_side, view_replacement};
ghost use Rattle.souper_graph.specs.WellFormed.{WellFormed};
ghost use Rattle.souper_graph.specs.Renaming.{renamed};
ghost use Rattle.souper_graph.specs.LeftSides.{infer_of};
ghost use Rattle.souper_lookup.specs.Stored.{key_of_left, IsLeftKey};

use crate::names::{names_of, put_names};
use souper_graph::ast::{Item, LeftHandSide, Replacement};
use souper_graph::stringify::TextError;
use std::alloc::Global;

/// The key of a left-hand side: its canonical text with names by its printed order.
///
/// Errors: of a well-formed left-hand side `OutOfMemory` alone.
pub fn key_of_left(left: &LeftHandSide) -> Result<String, TextError>
    ensures text { WellFormed (view_left_hand_side left.now) → IfOk result (λ key. string_bytes key ≡ key_of_left (view_left_hand_side left.now)) }
    ensures well_formed { WellFormed (view_left_hand_side left.now) → IfOk result (λ key. WellFormed (renamed (view_left_hand_side left.now))) }
    ensures memory { WellFormed (view_left_hand_side left.now) → IfErr result (λ error. error ≡ OutOfMemory) }
{
    let copy = left.renamed()?;
    let text = copy.to_text()?;
    Ok(text)
}

/// The same. The left-hand side has other names meanwhile, so that its statements are not copied; then it is as before.
///
/// After an error some names may be others.
pub fn key_in_place(alloc: Global, left: &mut LeftHandSide) -> Result<String, TextError>
    ensures text { WellFormed (view_left_hand_side left.old) → IfOk result (λ key. string_bytes key ≡ key_of_left (view_left_hand_side left.old)) }
    ensures well_formed { WellFormed (view_left_hand_side left.old) → OnOk result (WellFormed (renamed (view_left_hand_side left.old))) }
    ensures kept { WellFormed (view_left_hand_side left.old) → OnOk result (view_left_hand_side left.new ≡ view_left_hand_side left.old) }
    ensures memory { WellFormed (view_left_hand_side left.old) → IfErr result (λ error. error ≡ OutOfMemory) }
{
    let order = left.print_order()?;
    let names = names_of(alloc, &left.statements, &order.ids)?;
    left.rename()?;
    let key = left.to_text()?;
    put_names(&mut left.statements, &order.ids, &names)?;
    Ok(key)
}

/// The key of the left-hand side of the replacement, or `None` if it replaces a constant.
///
/// Errors: of a well-formed replacement `OutOfMemory` alone.
pub fn left_key(replacement: &Replacement) -> Result<Option<String>, TextError>
    ensures key { WellFormed (view_replacement replacement.now) → IfOk result (λ found. MatchOption found (infer_of (view_replacement replacement.now).ending ≡ None)
        (λ key. IsLeftKey (view_replacement replacement.now) (string_bytes key))) }
    ensures memory { WellFormed (view_replacement replacement.now) → IfErr result (λ error. error ≡ OutOfMemory) }
{
    match replacement.left_hand_side()? {
        Some(left) => Ok(Some(key_of_left(&left)?)),
        None => Ok(None),
    }
}
