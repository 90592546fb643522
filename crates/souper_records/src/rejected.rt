//! A parse error of a part of a stream, with its hint.
ghost use Rattle.std.specs.Prelude.{◌≡◌, None, IfOk, option_map, option_copied, string_bytes};
ghost use Rattle.souper_records.specs.Reports.{refusal_of, hint_line, AreRefusalLines};

use crate::report::line_of_refusal;
use souper_hint::hint_of;
use souper_ir::parse::{Kind, ParseError};
use std::alloc::{AllocError, Global};

/// A parse error of a part of a stream, with its hint.
#[derive(Clone, Copy)]
pub struct Rejected<'a> {
    /// The error.
    pub error: &'a ParseError,

    /// The hint, a line without its end, if hints are asked for and there is one.
    pub hint: Option<&'a str>,
}

/// The hint for an error in a part of a stream that has items of the kind; none if no kind is given. `start` is the offset of the part in
/// the stream, in bytes.
pub(crate) fn hint_text(
    alloc: Global,
    kind: Option<Kind>,
    start: usize,
    part: &[u8],
    error: &ParseError,
) -> Result<Option<String>, AllocError>
    ensures { IfOk result (λ hint. kind ≡ None → hint ≡ None) }
{
    let Some(kind) = kind else {
        return Ok(None);
    };
    let text = str::from_utf8(part).unwrap_or("");
    match hint_of(alloc, kind, start, text, error)? {
        Some(hint) => Ok(Some(hint.to_string(alloc)?)),
        None => Ok(None),
    }
}

/// The text of a hint.
pub(crate) fn as_text(hint: &Option<String>) -> Option<&str>
    ensures { option_copied result ≡ option_map string_bytes hint.now }
{
    match hint {
        Some(text) => Some(text.as_str()),
        None => None,
    }
}

// The line of a hint, if there is one.
fn hint_line(alloc: Global, hint: Option<&str>) -> Result<String, AllocError>
    ensures { IfOk result (λ line. string_bytes line ≡ hint_line (option_copied hint.entry)) }
{
    match hint {
        Some(text) => format!(in alloc; "hint: {text}\n"),
        None => Ok(String::new(alloc)),
    }
}

impl Rejected<'_> {
    /// The line of the error in the stream of this name, which ends with the rejected part or continues, and the line of the hint.
    pub(crate) fn lines(
        self,
        alloc: Global,
        name: &str,
        is_last: bool,
    ) -> Result<String, AllocError>
        ensures { IfOk result (λ lines. AreRefusalLines is_last name.now (refusal_of self.entry) (string_bytes lines)) }
    {
        let mut lines = line_of_refusal(alloc, name, is_last, self.error)?;
        let hint = hint_line(alloc, self.hint)?;
        lines.push_str(hint.as_str())?;
        Ok(lines)
    }
}
