//! The hint for a store that is refused.
ghost use Rattle.std.specs.Prelude.{◌≡◌, ℕ, List, true, Some, IfSome, string_bytes};
ghost use Rattle.souper_watched.specs.Streams.{stream};
ghost use Rattle.souper_watched.specs.Watching.{has_failed};
ghost use Rattle.souper_records.specs.Reports.{hint_line};
ghost use Rattle.souper_find.specs.Runs.{ReportedHint};

use souper_hint::hint_of;
use souper_ir::parse::{Kind, ParseError, parse_replacements_str};
use souper_watched::Watched;
use std::alloc::Global;
use std::io::Write;

// The hint for the parse error of a part of a stream, if there is one. The part is parsed again: where its own error is says where the part
// begins.
fn hint_text(alloc: Global, part: &[u8], error: &ParseError) -> Option<String> {
    let text = str::from_utf8(part).ok()?;
    let own = parse_replacements_str(alloc, text, None).err()?;
    let start = error
        .location()?
        .offset
        .checked_sub(own.location()?.offset)?;
    let hint = hint_of(alloc, Kind::Rep, start, text, error).ok()??;
    hint.to_string(alloc).ok()
}

// The line of the hint, if there is one.
fn line_of_hint(alloc: Global, part: &[u8], error: &ParseError) -> Option<String>
    ensures { IfSome result (λ line. (text : List ℕ) × (string_bytes line ≡ hint_line (Some text))) }
{
    let text = hint_text(alloc, part, error)?;
    format!(in alloc; "hint: {text}\n").ok()
}

/// Reports the hint for the parse error of a part of a stream, if there is one.
pub(crate) fn report_hint<E: Write>(
    alloc: Global,
    part: &[u8],
    error: &ParseError,
    err: &mut Watched<E>,
)
    ensures reported { ReportedHint (stream E.contents err.old err.new) }
    ensures stays { has_failed err.old ≡ true → has_failed err.new ≡ true }
{
    let Some(line) = line_of_hint(alloc, part, error) else {
        return;
    };
    let _ = err.write_all(line.as_bytes());
}
