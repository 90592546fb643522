//! The records of the items that a text spells.

ghost use Rattle.std.specs.Prelude.{◌≡◌, ◌<◌, ℕ, [], None, Err, IsOk, IsOkAnd, IfOk, IfErr, IsSome, IfSome, string_bytes};
ghost use Rattle.std.specs.Str.{IsUtf8};
ghost use Rattle.souper_graph.specs.Syntax.Tokens.{IsLastGap};
ghost use Rattle.souper_ir.specs.Answers.{IsStrError};
ghost use Rattle.souper_ir.specs.Kinds.{item_type_of};
ghost use Rattle.souper_records.specs.Records.{AreRecordsOf};
ghost use Rattle.souper_calls.specs.Kinds.{IsKind};
ghost use Rattle.souper_calls.specs.Records.{layout_of, RecordsTo};
ghost use Rattle.souper_calls.specs.Failures.{IsFailure};
ghost use Rattle.souper_calls.specs.declared.inputs.Failure.TheVariants.{NotUtf8};

use crate::inputs::{Failure, failure_of, kind_and_source};
use souper_ir::ast::{LeftHandSide, Replacement, RightHandSide};
use souper_ir::parse::{Kind, ParseError};
use souper_records::layout::{Delimiter, Layout};
use souper_records::records::records_of_text;
use std::alloc::Global;

/// The layout that the flags ask for, if each is known: 1 with the key, 2 with names by the printed order, 4 ended by NUL.
pub(crate) fn layout_of(flags: u32) -> Option<Layout>
    ensures layout { IfSome result (λ layout. layout ≡ layout_of flags) }
    ensures known { flags < 8 → IsSome result }
    ensures unknown { IsSome result → flags < 8 }
{
    if flags >= 8 {
        return None;
    }
    Some(Layout {
        delimiter: if flags / 4 % 2 == 1 {
            Delimiter::Nul
        } else {
            Delimiter::Newline
        },
        key: flags % 2 == 1,
        rename: flags / 2 % 2 == 1,
    })
}

// The records of the items of the kind that the source spells, in the layout.
fn records_of_source(
    alloc: Global,
    layout: Layout,
    kind: Kind,
    source: &str,
) -> Result<String, ParseError>
    ensures recorded { IfOk result (λ out. AreRecordsOf layout (item_type_of kind) source.now (string_bytes out)) }
    ensures refused { IfErr result (λ e. IsStrError (item_type_of kind) None source.now e) }
    ensures gaps { IsLastGap source.now → IsOkAnd result (λ out. string_bytes out ≡ []) }
{
    match kind {
        Kind::Lhs => records_of_text::<LeftHandSide>(alloc, layout, source, None),
        Kind::Rhs => records_of_text::<RightHandSide>(alloc, layout, source, None),
        Kind::Rep => records_of_text::<Replacement>(alloc, layout, source, None),
    }
}

/// The records of the items of the kind with that number that the bytes spell, in the layout. An item's record is made when it has
/// been read, and the item is dropped.
pub(crate) fn records(
    alloc: Global,
    kind: u32,
    layout: Layout,
    bytes: &[u8],
) -> Result<String, Failure>
    ensures recorded { (flags : ℕ) → layout ≡ layout_of flags → IfOk result (λ out. RecordsTo flags kind bytes.now (string_bytes out)) }
    ensures failed { IfErr result (IsFailure kind bytes.now) }
    ensures text { IsOk result → IsUtf8 bytes.now }
    ensures no_text { IsKind kind → ¬ (IsUtf8 bytes.now) → result ≡ Err NotUtf8 }
    ensures gaps { IsKind kind → IsUtf8 bytes.now → IsLastGap bytes.now → IsOkAnd result (λ out. string_bytes out ≡ []) }
{
    let (kind, source) = kind_and_source(kind, bytes)?;
    match records_of_source(alloc, layout, kind, source) {
        Ok(records) => Ok(records),
        Err(error) => Err(failure_of(alloc, &error)),
    }
}
