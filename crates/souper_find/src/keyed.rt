//! Replacements with the keys of their left-hand sides.
//!
//! The key of a left-hand side is what `key` is of it as an item with names by its printed order
//! ([`key_of`](souper_records::records::key_of)): the same for left-hand sides that are the same graph up to names. So a store on disk finds the
//! replacements of a left-hand side by its key.

ghost use Rattle.std.specs.Prelude.{◌≡◌, ◌++◌, IfOk, OnOk, Option, option_map};
ghost use Rattle.std.specs.String.{string_bytes};
ghost use Rattle.serde_json.specs.View.{view};
ghost use Rattle.souper_graph.specs.View.{view_replacement};
ghost use Rattle.souper_graph.specs.WellFormed.{WellFormed};
ghost use Rattle.souper_records.specs.Objects.{optional_string};
ghost use Rattle.souper_records.specs.Outputs.{renames};
ghost use Rattle.souper_find.specs.Keyed.{lhs_key, keyed_by, view_keyed, lhs_line, keyed_record, keyed_object, keyed_line};

use serde_json::{Value, json};
use souper_ir::ast::Replacement;
use souper_ir::stringify::TextError;
use souper_lookup::keys::left_key;
use souper_records::layout::Layout;
use souper_records::objects::append_line;
use souper_records::output::{Output, Shown};
use souper_records::records::{append_last_text, append_record_of_text, key_of};
use souper_records::rows::Rows;
use souper_stream::Start;
use std::alloc::{AllocError, Global};

/// The key of the left-hand side of the replacement, or `None` if it replaces a constant.
///
/// Errors: of a well-formed replacement `OutOfMemory` alone.
pub fn lhs_key(alloc: Global, replacement: &Replacement) -> Result<Option<String>, TextError>
    ensures { WellFormed (view_replacement replacement.now) → IfOk result (λ found. option_map string_bytes found ≡ lhs_key (view_replacement replacement.now)) }
{
    match left_key(replacement)? {
        Some(text) => Ok(Some(key_of(alloc, text.as_str())?)),
        None => Ok(None),
    }
}

/// The canonical text of a replacement, and the key of its left-hand side: the row of the replacement.
///
/// Its record has a comment line before it: `; lhs `, and the key. Its object ([`Output`]) has one member more, `lhs_key`: the key, or null.
/// The replacement of a constant has no such line, and null.
#[derive(Drop)]
pub struct Keyed {
    text: String,
    lhs_key: Option<String>,
}

fn append_lhs_line(key: &Option<String>, out: &mut String) -> Result<(), AllocError>
    ensures { OnOk result (string_bytes out.new ≡ string_bytes out.old ++ lhs_line (option_map string_bytes key.now)) }
{
    if let Some(key) = key {
        out.push_str("; lhs ")?;
        out.push_str(key.as_str())?;
        out.push_str("\n")?;
    }
    Ok(())
}

fn optional_string(alloc: Global, text: &Option<String>) -> Result<Value, AllocError>
    ensures { IfOk result (λ value. view value ≡ optional_string (option_map string_bytes text.now)) }
{
    match text {
        Some(text) => Value::try_from_str(alloc, text.as_str()),
        None => Ok(Value::Null),
    }
}

// The object of a replacement, which begins at `start`.
fn keyed_object(alloc: Global, name: &str, start: Start, item: &Keyed) -> Result<Value, AllocError>
    ensures { IfOk result (λ value. view value ≡ keyed_object name.now start (view_keyed item.now)) }
{
    let key = key_of(alloc, item.text.as_str())?;
    let lhs_key = optional_string(alloc, &item.lhs_key)?;
    json!(in alloc; {
        "file": name,
        "key": key.as_str(),
        "lhs_key": lhs_key,
        "line": start.line,
        "offset": start.offset,
        "text": item.text.as_str()
    })
}

impl Shown for Keyed {
    ghost as_records = { λ layout keyed. keyed_record layout (view_keyed keyed) };

    ghost as_lines = { λ name keyed. keyed_line name (keyed.0, view_keyed keyed.1) };

    fn append_records(
        &self,
        alloc: Global,
        layout: Layout,
        out: &mut String,
    ) -> Result<(), AllocError> {
        append_lhs_line(&self.lhs_key, out)?;
        append_record_of_text(alloc, layout, self.text.as_str(), out)
    }

    fn append_lines(
        &self,
        alloc: Global,
        name: &str,
        start: Start,
        out: &mut String,
    ) -> Result<(), AllocError> {
        let object = keyed_object(alloc, name, start, self)?;
        append_line(alloc, &object, out)
    }
}

/// How replacements are written with the keys of their left-hand sides: the rows of `rows_run` of `souper_records`, one for each
/// replacement.
#[derive(Clone, Copy)]
pub struct Keying(pub Output);

impl Rows<Replacement, Keyed> for Keying {
    ghost output_of = { λ keying. keying.0 };

    ghost makes = { λ keying item keyed. view_keyed keyed ≡ keyed_by (renames keying.0) item };

    fn output(&self) -> Output {
        self.0
    }

    fn make(
        &self,
        alloc: Global,
        item: &mut Replacement,
        text: &mut String,
    ) -> Result<Keyed, AllocError> {
        let lhs_key = match lhs_key(alloc, item) {
            Ok(key) => key,
            // A well-formed item has no bad id, so the error is out of memory.
            Err(_) => return Err(AllocError),
        };
        text.clear();
        append_last_text(self.0.renames(), item, text)?;
        let text = String::from_str(alloc, text.as_str())?;
        Ok(Keyed { text, lhs_key })
    }
}
