//! The JSON objects of items and refusals, each on a line of its own.
ghost use Rattle.std.specs.Prelude.{◌≡◌, ◌++◌, false, IfOk, OnOk, option_copied, option_map, string_bytes};
ghost use Rattle.souper_records.specs.Objects.{item_object, refusal_object, refusal_line, object_line, optional_number, optional_string};
ghost use Rattle.souper_records.specs.Reports.{refusal_of};
ghost use Rattle.serde_json.specs.View.{view};
ghost use Rattle.serde_json.specs.Written.{has_float};

use crate::records::key_of;
use crate::rejected::Rejected;
use serde_json::{Value, json};
use souper_stream::Start;
use std::alloc::{AllocError, Global};

/// A number that may be missing.
pub fn number(n: Option<usize>) -> Value
    ensures { view result ≡ optional_number n }
{
    match n {
        Some(n) => Value::from(n),
        None => Value::Null,
    }
}

// A text that may be missing.
fn string(alloc: Global, text: Option<&str>) -> Result<Value, AllocError>
    ensures { IfOk result (λ value. view value ≡ optional_string (option_copied text.entry)) }
{
    match text {
        Some(text) => Value::try_from_str(alloc, text),
        None => Ok(Value::Null),
    }
}

/// The object of an item with this text, which begins at `start` in the stream of this name ([`Output`](crate::output::Output)).
pub(crate) fn item_object(
    alloc: Global,
    name: &str,
    start: Start,
    text: &str,
) -> Result<Value, AllocError>
    ensures { IfOk result (λ value. view value ≡ item_object name.now start text.now) }
{
    let key = key_of(alloc, text)?;
    json!(in alloc; {
        "file": name,
        "key": key.as_str(),
        "line": start.line,
        "offset": start.offset,
        "text": text
    })
}

// The object of the refusal.
fn refusal_object(alloc: Global, name: &str, refusal: Rejected<'_>) -> Result<Value, AllocError>
    ensures { IfOk result (λ value. view value ≡ refusal_object name.now (refusal_of refusal.entry)) }
{
    let (error, hint) = (refusal.error, string(alloc, refusal.hint)?);
    let message = string(alloc, error.message())?;
    let (line, column) = match error.location() {
        Some(location) => (Some(location.line), Some(location.column)),
        None => (None, None),
    };
    json!(in alloc; {
        "column": number(column),
        "file": name,
        "hint": hint,
        "line": number(line),
        "message": message,
        "offset": number(error.offset())
    })
}

/// Appends the line of an object that has no number with a fraction: its text, with no space in it, and a newline. The error is out of
/// memory.
pub fn append_line(alloc: Global, object: &Value, out: &mut String) -> Result<(), AllocError>
    requires { has_float (view object.now) ≡ false }
    ensures { OnOk result (string_bytes out.new ≡ string_bytes out.old ++ object_line (view object.now)) }
{
    let line = object.to_string(alloc)?;
    out.push_str(line.as_str())?;
    out.push_str("\n")
}

/// Appends the line of the object of a refusal of the stream of this name, if there is one. The error is out of memory.
pub fn append_refusal(
    alloc: Global,
    name: &str,
    refusal: Option<Rejected<'_>>,
    out: &mut String,
) -> Result<(), AllocError>
    ensures { OnOk result (string_bytes out.new ≡ string_bytes out.old ++ refusal_line name.now (option_map refusal_of refusal.entry)) }
{
    if let Some(refusal) = refusal {
        let object = refusal_object(alloc, name, refusal)?;
        append_line(alloc, &object, out)?;
    }
    Ok(())
}
