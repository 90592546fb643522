//! The cut points of a text of the kind with a number.
ghost use Rattle.std.specs.Prelude.{◌≡◌, ◌⊎◌, ◌↔◌, None, IfOk, IfErr};
ghost use Rattle.std.specs.Str.{IsUtf8};
ghost use Rattle.souper_ir.specs.Kinds.{item_type_of};
ghost use Rattle.souper_errors.specs.Places.{IsLines};
ghost use Rattle.souper_calls.specs.Kinds.{type_of_number, IsKind};
ghost use Rattle.souper_calls.specs.Outcomes.{HasNoPlace};
ghost use Rattle.souper_calls.specs.Cuts.{OfLines, OfWholeLines, IsLastCut, CutsLast, HasFirstSegment, HasBadStart};
ghost use Rattle.souper_stream.specs.Segments.{IsFirstSegment, HasBadLine};

use crate::inputs::{kind_and_source, read_kind};
use crate::outcome::{DONE, NO_KIND, NOT_UTF8, SouperOutcome};
use souper_ir::ast::{LeftHandSide, Replacement, RightHandSide};
use souper_ir::parse::Kind;
use souper_stream::{last_cut, lines_len, segment_len};
use std::io;

// The offset of the last cut point of whole lines.
fn last_cut_of(kind: Kind, lines: &str) -> usize
    ensures { IsLines lines.now → OfLines lines.now (IsLastCut (item_type_of kind) result) }
{
    match kind {
        Kind::Lhs => last_cut::<LeftHandSide>(lines.as_bytes()),
        Kind::Rhs => last_cut::<RightHandSide>(lines.as_bytes()),
        Kind::Rep => last_cut::<Replacement>(lines.as_bytes()),
    }
}

/// The offset of the last cut point of the whole lines that `bytes` begins with: up to its last newline. The bytes after that are passed
/// over, as more of their line may come.
pub fn souper_last_cut(kind: u32, bytes: &[u8]) -> SouperOutcome
    ensures known { (result.status ≡ 0) ⊎ (result.status ≡ 2) ⊎ (result.status ≡ 4) }
    ensures cut { result.status ≡ 0 → CutsLast kind bytes.now result.length }
    ensures no_kind { (result.status ≡ 2) ↔ (type_of_number kind ≡ None) }
    ensures no_text { (result.status ≡ 4) ↔ (IsKind kind × OfWholeLines bytes.now (λ lines. ¬ (IsUtf8 lines))) }
    ensures no_place { HasNoPlace result × (result.input ≡ 0) }
    ensures no_length { (result.status ≡ 0) ⊎ (result.length ≡ 0) }
{
    let lines = &bytes[..lines_len(bytes)];
    match kind_and_source(kind, lines) {
        Ok((kind, source)) => SouperOutcome::new(DONE, last_cut_of(kind, source)),
        Err(failure) => failure.outcome(0),
    }
}

// The length of the first segment of a text.
fn segment_len_of(kind: Kind, text: &[u8]) -> io::Result<usize>
    ensures segment { IfOk result (λ len. OfLines text.now (λ ls. IsFirstSegment (item_type_of kind) ls len)) }
    ensures failed { IfErr result (λ e. OfLines text.now (HasBadLine (item_type_of kind))) }
{
    match kind {
        Kind::Lhs => segment_len::<LeftHandSide>(text),
        Kind::Rhs => segment_len::<RightHandSide>(text),
        Kind::Rep => segment_len::<Replacement>(text),
    }
}

// The length of the first segment of the text.
fn find_first_segment(kind: u32, text: &[u8]) -> SouperOutcome
    ensures known { (result.status ≡ 0) ⊎ (result.status ≡ 2) ⊎ (result.status ≡ 4) }
    ensures segment { result.status ≡ 0 → HasFirstSegment kind text.now result.length }
    ensures no_kind { (result.status ≡ 2) ↔ (type_of_number kind ≡ None) }
    ensures no_text { result.status ≡ 4 → HasBadStart kind text.now }
    ensures no_place { HasNoPlace result × (result.input ≡ 0) }
    ensures no_length { (result.status ≡ 0) ⊎ (result.length ≡ 0) }
{
    let kind = match read_kind(kind) {
        Some(kind) => kind,
        None => return SouperOutcome::new(NO_KIND, 0),
    };
    match segment_len_of(kind, text) {
        Ok(len) => SouperOutcome::new(DONE, len),
        Err(_) => SouperOutcome::new(NOT_UTF8, 0),
    }
}

/// The length of the first segment of `text`: up to its first cut point or, if it has none, its end.
pub fn souper_first_segment(kind: u32, text: &[u8]) -> SouperOutcome
    ensures known { (result.status ≡ 0) ⊎ (result.status ≡ 2) ⊎ (result.status ≡ 4) }
    ensures segment { result.status ≡ 0 → HasFirstSegment kind text.now result.length }
    ensures no_kind { (result.status ≡ 2) ↔ (type_of_number kind ≡ None) }
    ensures no_text { result.status ≡ 4 → HasBadStart kind text.now }
    ensures text { IsKind kind → IsUtf8 text.now → result.status ≡ 0 }
    ensures no_place { HasNoPlace result × (result.input ≡ 0) }
    ensures no_length { (result.status ≡ 0) ⊎ (result.length ≡ 0) }
{
    find_first_segment(kind, text)
}
