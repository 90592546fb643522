//! Where the items of a stream begin.
ghost use Rattle.std.specs.Prelude.{◌≡◌, ◌<◌, ◌+◌, ◌^◌, ◌++◌, List, ℕ, OnOk, length};
ghost use Rattle.souper_stream.specs.Starts.{Ascend, AreStarts};
ghost use Rattle.souper_stream.specs.Buffering.{Counts};

use crate::buffer::newline_count;
use souper_ir::parse::Before;
use std::alloc::AllocError;

/// Where an item of a stream begins: where its first token is.
#[derive(Clone, Copy, Debug)]
pub struct Start {
    /// The offset in bytes.
    pub offset: usize,

    /// The 1-based line.
    pub line: usize,
}

/// Writes where the bytes at these offsets of a part are in the stream, given the numbers of bytes and lines before the part.
#[tactic(auto, using(crate::proofs::Buffers::none_told))]
pub(crate) fn starts_in(
    before: Before,
    part: &[u8],
    offsets: &[usize],
    starts: &mut Vec<Start>,
) -> Result<(), AllocError>
    requires { Ascend 0 offsets.now (length part.now) }
    ensures { OnOk result ((done : List ℕ) → Counts before done → length (done ++ part.now) + 1 < 2 ^ 64 → AreStarts done part.now offsets.now starts.new.items) }
{
    starts.clear();
    let (mut passed, mut lines) = (0, before.lines);
    for offset in offsets {
        lines = lines.saturating_add(newline_count(&part[passed..*offset]));
        passed = *offset;
        starts.push(Start {
            offset: before.bytes.saturating_add(*offset),
            line: lines.saturating_add(1),
        })?;
    }
    Ok(())
}
