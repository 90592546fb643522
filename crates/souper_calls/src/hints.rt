//! The hint for a text that a parser rejects.
ghost use Rattle.std.specs.Prelude.{◌≤◌, ◌+◌, List, length, IfOk, IfSome, IfNone};
ghost use Rattle.souper_graph.specs.Values.{Item};
ghost use Rattle.souper_graph.specs.Syntax.Spelling.{SpellsNone, TextSpells};
ghost use Rattle.souper_errors.specs.Errors.{offset_of};
ghost use Rattle.souper_ir.specs.Kinds.{item_type_of};

use souper_format::items::read_items;
use souper_hint::hint_of;
use souper_ir::parse::{Before, Kind, ParseError, ParseErrorKind};
use std::alloc::{AllocError, Global};

// The hint for the parse error of a source that this number of lines precedes; the hint counts them too. Empty if there is none.
fn text_of_hint(
    alloc: Global,
    kind: Kind,
    lines: usize,
    source: &str,
    error: ParseError,
) -> Result<String, AllocError>
    requires { IfSome (offset_of error) (λ offset. 0 + offset ≤ length source.now) }
{
    let before = Before { bytes: 0, lines };
    let located = error.locate_after(alloc, before, source, 0, None);
    if located.kind() == ParseErrorKind::Memory {
        return Err(AllocError);
    }
    match hint_of(alloc, kind, 0, source, &located)? {
        Some(hint) => hint.to_string(alloc),
        None => Ok(String::new(alloc)),
    }
}

/// The hint for the parse error of a source, a line without its end, which is empty if there is no hint; none if the source spells items of
/// the kind. In the hint the first line of the source has the number of lines before it, and 1.
pub(crate) fn hint_for(
    alloc: Global,
    kind: Kind,
    lines: usize,
    source: &str,
) -> Result<Option<String>, AllocError>
    ensures spelled { IfOk result (λ hint. IfNone hint ((xs : List Item) × TextSpells (item_type_of kind) source.now xs)) }
    ensures rejected { IfOk result (λ hint. IfSome hint (λ text. SpellsNone (item_type_of kind) source.now)) }
{
    let error = match read_items(alloc, kind, source, None) {
        Ok(_) => return Ok(None),
        Err(error) => error,
    };
    if error.kind() != ParseErrorKind::Parse {
        return Err(AllocError);
    }
    let hint = text_of_hint(alloc, kind, lines, source, error)?;
    Ok(Some(hint))
}
