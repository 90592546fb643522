//! The record of an item.
ghost use Rattle.std.specs.Prelude.{◌≡◌, ◌++◌, ◌∷◌, [], map, flat_map, IfOk, IfErr, IsOkAnd, OnOk, option_copied, string_bytes};
ghost use Rattle.souper_records.specs.Prelude.{text_of, renamed, WellFormed, IsStrError};
ghost use Rattle.souper_graph.specs.Syntax.Tokens.{IsLastGap};
ghost use Rattle.souper_records.specs.Records.{chosen, key_of, record_of_text, AreRecordsOf};
ghost use Rattle.souper_records.specs.Uniques.{text_by};

use crate::each::Records;
use crate::layout::{Delimiter, Layout};
use sha2::{Digest, Sha256};
use souper_ir::ast::Item;
use souper_ir::parse::{ParseError, WholeItem, parse_into};
use std::alloc::{AllocError, Global};

// Appends the canonical text of the item.
#[tactic(auto, using(souper_graph::proofs::Judging::Needed::well_formed_below))]
fn append_canonical<T: Item>(item: &T, out: &mut String) -> Result<(), AllocError>
    requires { WellFormed (T.view item.now) }
    ensures { OnOk result (string_bytes out.new ≡ string_bytes out.old ++ text_of (T.view item.now)) }
{
    match item.append_text(out) {
        Ok(()) => Ok(()),
        // A well-formed item has no bad id, so the error is out of memory.
        Err(_) => Err(AllocError),
    }
}

/// Appends the canonical text of an item that is dropped then; with `rename` the text with names by its printed order. The error is out of
/// memory.
#[tactic(auto, using(souper_graph::proofs::Judging::Needed::well_formed_below))]
pub fn append_last_text<T: Item + Drop>(
    rename: bool,
    item: &mut T,
    out: &mut String,
) -> Result<(), AllocError>
    requires { WellFormed (T.view item.old) }
    ensures text { OnOk result (string_bytes out.new ≡ string_bytes out.old ++ text_of (chosen rename (T.view item.old))) }
    ensures well_formed { OnOk result (WellFormed (chosen rename (T.view item.old))) }
{
    if rename {
        // The item is dropped then, so it is renamed in place.
        return match item.rename() {
            Ok(()) => append_canonical(item, out),
            Err(_) => Err(AllocError),
        };
    }
    append_canonical(item, out)
}

/// Appends the text of [`append_last_text`] to the texts. The error is out of memory.
///
/// `text` is for it, so that the text that is kept has no more room than it needs.
pub fn push_last_text<T: Item + Drop>(
    alloc: Global,
    rename: bool,
    item: &mut T,
    text: &mut String,
    texts: &mut Vec<String>,
) -> Result<(), AllocError>
    requires { WellFormed (T.view item.old) }
    ensures texts { OnOk result (map string_bytes texts.new.items ≡ map string_bytes texts.old.items ++ text_by rename (T.view item.old) ∷ []) }
    ensures well_formed { OnOk result (WellFormed (chosen rename (T.view item.old))) }
{
    text.clear();
    append_last_text(rename, item, text)?;
    match texts.push(String::from_str(alloc, text.as_str())?) {
        Ok(()) => Ok(()),
        Err(_) => Err(AllocError),
    }
}

/// The key of a canonical text in a store: its SHA-256, in 64 hexadecimal digits.
pub fn key_of(alloc: Global, text: &str) -> Result<String, AllocError>
    ensures { IfOk result (λ key. string_bytes key ≡ key_of text.now) }
{
    hex::encode(alloc, &Sha256::digest(text.as_bytes()))
}

/// Appends the record of an item whose text this is. The error is out of memory.
pub fn append_record_of_text(
    alloc: Global,
    layout: Layout,
    text: &str,
    out: &mut String,
) -> Result<(), AllocError>
    ensures { OnOk result (string_bytes out.new ≡ string_bytes out.old ++ record_of_text layout text.now) }
{
    if layout.key {
        let key = key_of(alloc, text)?;
        out.push_str("; ")?;
        out.push_str(key.as_str())?;
        out.push_str("\n")?;
    }
    out.push_str(text)?;
    match layout.delimiter {
        Delimiter::Nul => out.push_str("\0"),
        Delimiter::Newline => out.push_str("\n"),
    }
}

/// The records of items whose texts these are.
pub(crate) fn records_of_texts(
    alloc: Global,
    layout: Layout,
    texts: &[String],
) -> Result<String, AllocError>
    ensures { IfOk result (λ out. string_bytes out ≡ flat_map (record_of_text layout) (map string_bytes texts.now)) }
{
    let mut out = String::new(alloc);
    for text in texts {
        append_record_of_text(alloc, layout, text.as_str(), &mut out)?;
    }
    Ok(out)
}

/// The records of the items that a text spells, in order. An item's record is made when it has been read, and the item is dropped.
///
/// It fails like [`parse_into`]: the text spells no such items, or memory ran out. The error shows `filename` as the name of the text.
/// A text of white space and comments alone has no records, and never runs out of memory.
pub fn records_of_text<T: WholeItem + Drop>(
    alloc: Global,
    layout: Layout,
    source: &str,
    filename: Option<&str>,
) -> Result<String, ParseError>
    ensures recorded { IfOk result (λ out. AreRecordsOf layout T.item_type source.now (string_bytes out)) }
    ensures refused { IfErr result (λ e. IsStrError T.item_type (option_copied filename.entry) source.now e) }
    ensures gaps { IsLastGap source.now → IsOkAnd result (λ out. string_bytes out ≡ []) }
{
    let mut records = Records::new(alloc, layout);
    parse_into::<T, Records>(alloc, source, filename, &mut records)?;
    Ok(records.out)
}
