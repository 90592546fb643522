//! Why the item whose code is given is not well formed.

ghost use Rattle.std.specs.Prelude.{◌≡◌, ◌⊎◌, IfOk, IfErr};
ghost use Rattle.souper_code.specs.declared.decode.DecodeError.TheVariants.{OutOfMemory};
ghost use Rattle.souper_code.specs.Writing.{BeginsWithNone};
ghost use Rattle.souper_code.specs.FrontFlaw.{BeginsWithFlaw};

use crate::decode::{Decode, DecodeError, Reader};
use souper_graph::ast::Flaw;
use std::alloc::Global;

/// The first flaw of the item whose code the bytes begin with, or `None` if the item is well formed.
///
/// What comes after the code of the item is not read. `NoCode`: the bytes begin with the code of no item of the type.
pub fn first_flaw<T: Decode + Drop>(alloc: Global, code: &[u8]) -> Result<Option<Flaw>, DecodeError>
    ensures found { IfOk result (λ found. BeginsWithFlaw T.item_type code.now found) }
    ensures no_code { IfErr result (λ e. BeginsWithNone T.item_type code.now ⊎ (e ≡ OutOfMemory)) }
{
    let mut reader = Reader::new(code);
    let item = T::decode(&mut reader, alloc)?;
    Ok(item.flaw()?)
}
