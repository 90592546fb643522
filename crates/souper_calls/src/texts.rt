//! The canonical texts of the items whose code is given.

ghost use Rattle.std.specs.Prelude.{◌≡◌, [], IfOk, IfErr, IsOkAnd, string_bytes};
ghost use Rattle.souper_ir.specs.Kinds.{item_type_of};
ghost use Rattle.souper_code.specs.Writing.{IsWritten, IsWriteError};
ghost use Rattle.souper_calls.specs.Failures.{outcome_of_stop};

use crate::outcome::{NO_CODE, NOT_WELL_FORMED, OUT_OF_MEMORY, SouperOutcome};
use souper_code::write::{Place, WriteError, write_items};
use souper_ir::ast::{LeftHandSide, Replacement, RightHandSide};
use souper_ir::parse::Kind;
use std::alloc::Global;

fn outcome_at(status: u32, place: Place) -> SouperOutcome
    ensures { result ≡ record { status = status; input = 0; length = place.index; offset = place.offset; line = 0; column = 0 } }
{
    SouperOutcome {
        offset: place.offset,
        ..SouperOutcome::new(status, place.index)
    }
}

/// The outcome that says why there are no texts.
pub(crate) fn outcome_of_stop(error: WriteError) -> SouperOutcome
    ensures { result ≡ outcome_of_stop error }
{
    match error {
        WriteError::NoCode(place) => outcome_at(NO_CODE, place),
        WriteError::NotWellFormed(place) => outcome_at(NOT_WELL_FORMED, place),
        WriteError::OutOfMemory => SouperOutcome::new(OUT_OF_MEMORY, 0),
    }
}

/// The canonical texts of the items of the kind whose code the bytes are, a newline after each.
pub(crate) fn texts_of_code(alloc: Global, kind: Kind, code: &[u8]) -> Result<String, WriteError>
    ensures written { IfOk result (λ text. IsWritten (item_type_of kind) code.now (string_bytes text)) }
    ensures stopped { IfErr result (λ e. IsWriteError (item_type_of kind) code.now e) }
    ensures empty { code.now ≡ [] → IsOkAnd result (λ text. string_bytes text ≡ []) }
{
    match kind {
        Kind::Lhs => write_items::<LeftHandSide>(alloc, code),
        Kind::Rhs => write_items::<RightHandSide>(alloc, code),
        Kind::Rep => write_items::<Replacement>(alloc, code),
    }
}
