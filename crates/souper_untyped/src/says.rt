//! What is said of a flaw.

ghost use Rattle.std.specs.Prelude.{◌≡◌, ◌+◌, ◌++◌, IfOk, OnOk, option_map};
ghost use Rattle.std.specs.String.{string_bytes};
ghost use Rattle.souper_untyped.specs.Hints.{hint_line};
ghost use Rattle.souper_untyped.specs.Says.{number_of, place_text, view_flaw_text, says_of, lines_of};

use crate::hints::hint;
use crate::lines::line;
use crate::messages::message;
use souper_graph::ast::{FlawLocation, Item};
use souper_widths::WidthFlaw;
use std::alloc::{AllocError, Global};

/// Why an item has no widths, and where.
#[derive(Debug, Drop)]
pub struct FlawText {
    /// Why: `no widths: `, and the reason. Of two widths that clash it names both.
    pub message: String,

    /// The number of the statement that has the flaw, from 1 and in the order of the item; none of a last line.
    pub statement: Option<usize>,

    /// The line of that statement, or the last line, as the canonical text has it, with its newline.
    pub line: String,

    /// What is to be written, if a width is missing, as `write %0:i32`.
    pub hint: Option<String>,
}

// The number of the statement. The error is that it has none below 2^64.
fn number(location: FlawLocation) -> Result<Option<usize>, AllocError>
    ensures { IfOk result (λ number. number ≡ number_of location) }
{
    match location {
        FlawLocation::Statement(id) => match id.index().checked_add(1) {
            Some(number) => Ok(Some(number)),
            None => Err(AllocError),
        },
        FlawLocation::Infer | FlawLocation::Result | FlawLocation::Cand => Ok(None),
    }
}

// What stands before the line.
fn append_place(alloc: Global, statement: Option<usize>, out: &mut String) -> Result<(), AllocError>
    ensures { OnOk result (string_bytes out.new ≡ string_bytes out.old ++ place_text statement) }
{
    match statement {
        Some(number) => {
            let place = format!(in alloc; "statement {number}: ")?;
            out.push_str(place.as_str())
        }
        None => out.push_str("last line: "),
    }
}

fn append_hint(hint: &Option<String>, out: &mut String) -> Result<(), AllocError>
    ensures { OnOk result (string_bytes out.new ≡ string_bytes out.old ++ hint_line (option_map string_bytes hint.now)) }
{
    if let Some(hint) = hint {
        out.push_str("hint: ")?;
        out.push_str(hint.as_str())?;
        out.push_str("\n")?;
    }
    Ok(())
}

impl FlawText {
    /// What is said of the first flaw of an item.
    ///
    /// The error is out of memory.
    pub fn new<T: Item>(alloc: Global, item: &T, flaw: WidthFlaw) -> Result<FlawText, AllocError>
        ensures { IfOk result (λ text. view_flaw_text text ≡ says_of (T.view item.now) flaw) }
    {
        let parts = item.parts();
        let message = message(alloc, flaw.reason)?;
        let statement = number(flaw.location)?;
        match (line(&parts, flaw.location), hint(&parts, flaw)) {
            (Ok(line), Ok(hint)) => Ok(FlawText {
                message,
                statement,
                line,
                hint,
            }),
            // A flaw of a well-formed item is at a statement without a bad id, so the error is out of memory.
            _ => Err(AllocError),
        }
    }

    /// Appends the lines of an error: the message, the line after its number, and the hint. The error is out of memory.
    pub fn append_lines(&self, alloc: Global, out: &mut String) -> Result<(), AllocError>
        ensures { OnOk result (string_bytes out.new ≡ string_bytes out.old ++ lines_of (view_flaw_text self.now)) }
    {
        out.push_str(self.message.as_str())?;
        out.push_str("\n")?;
        append_place(alloc, self.statement, out)?;
        out.push_str(self.line.as_str())?;
        append_hint(&self.hint, out)
    }
}
