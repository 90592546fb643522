//! How items are written: by records, or by JSON objects.
ghost use Rattle.std.specs.Prelude.{◌≡◌, ◌++◌, ℕ, List, flat_map, IfOk, OnOk, option_map, string_bytes};
ghost use Rattle.std.specs.List.{zip};
ghost use Rattle.souper_records.specs.Records.{record_of_text};
ghost use Rattle.souper_records.specs.Reports.{refusal_of};
ghost use Rattle.souper_records.specs.Objects.{text_line, refusal_line};
ghost use Rattle.souper_records.specs.Outputs.{renames, part_text};

use crate::layout::Layout;
use crate::objects::{append_line, append_refusal, item_object};
use crate::parts::Part;
use crate::records::append_record_of_text;
use crate::rejected::Rejected;
use souper_stream::Start;
use std::alloc::{AllocError, Global};

/// How items are written.
#[derive(Clone, Copy, Debug, PartialEq, Eq)]
pub enum Output {
    /// By records.
    Records(Layout),

    /// By JSON objects, each on a line of its own, also of refusals.
    ///
    /// The object of an item has its canonical `text`, the `key` of the text ([`key_of`](crate::records::key_of)), the name of the stream
    /// as `file`, and where its first token is: the `offset` in bytes, and the 1-based `line`. The object of a refusal has `file`, `offset`,
    /// `line`, `column`, `message` and `hint` (null if there is none): the line and the column are those of its location
    /// ([`ParseError::location`](souper_ir::parse::ParseError::location)). It comes after the objects of the items that its segment begins
    /// with.
    Objects {
        /// Whether the names in the texts are by the printed order.
        rename: bool,
    },
}

impl Output {
    /// Whether the names in the texts are by the printed order.
    pub fn renames(self) -> bool
        ensures { result ≡ renames self }
    {
        match self {
            Output::Records(layout) => layout.rename,
            Output::Objects { rename } => rename,
        }
    }
}

/// What a sink keeps of an item until the output of its part is written.
pub trait Shown: Drop {
    ghost use Rattle.souper_records.specs.declared.layout.Layout.{Layout};
    ghost use Rattle.souper_stream.specs.declared.starts.Start.{Start};

    // Its records, and the lines of its objects, given the name of the stream and where the item begins.
    ghost as_records: { Layout → Self → List ℕ };

    ghost as_lines: { List ℕ → Start × Self → List ℕ };

    /// Appends its records. The error is out of memory.
    fn append_records(
        &self,
        alloc: Global,
        layout: Layout,
        out: &mut String,
    ) -> Result<(), AllocError>
        ensures { OnOk result (string_bytes out.new ≡ string_bytes out.old ++ as_records layout self.now) };

    /// Appends the lines of its objects, in the stream of this name, where the item begins at `start`. The error is out of memory.
    fn append_lines(
        &self,
        alloc: Global,
        name: &str,
        start: Start,
        out: &mut String,
    ) -> Result<(), AllocError>
        ensures { OnOk result (string_bytes out.new ≡ string_bytes out.old ++ as_lines name.now (start, self.now)) };
}

// The text of an item.
impl Shown for String {
    ghost as_records = { λ layout text. record_of_text layout (string_bytes text) };

    ghost as_lines = { λ name item. text_line name (item.0, string_bytes item.1) };

    fn append_records(
        &self,
        alloc: Global,
        layout: Layout,
        out: &mut String,
    ) -> Result<(), AllocError> {
        append_record_of_text(alloc, layout, self.as_str(), out)
    }

    fn append_lines(
        &self,
        alloc: Global,
        name: &str,
        start: Start,
        out: &mut String,
    ) -> Result<(), AllocError> {
        let object = item_object(alloc, name, start, self.as_str())?;
        append_line(alloc, &object, out)
    }
}

impl<V: Shown> Shown for Vec<V> {
    ghost as_records = { λ layout items. flat_map (V.as_records layout) items.items };

    ghost as_lines = { λ name items. flat_map (λ (v : V). V.as_lines name (items.0, v)) items.1.items };

    fn append_records(
        &self,
        alloc: Global,
        layout: Layout,
        out: &mut String,
    ) -> Result<(), AllocError> {
        for item in self {
            item.append_records(alloc, layout, out)?;
        }
        Ok(())
    }

    fn append_lines(
        &self,
        alloc: Global,
        name: &str,
        start: Start,
        out: &mut String,
    ) -> Result<(), AllocError> {
        for item in self {
            item.append_lines(alloc, name, start, out)?;
        }
        Ok(())
    }
}

// The lines of the objects of a part's items.
fn part_lines<V: Shown>(alloc: Global, part: Part<'_>, items: &[V]) -> Result<String, AllocError>
    ensures { IfOk result (λ out. string_bytes out ≡ flat_map (V.as_lines part.entry.name.now) (zip part.entry.starts.now items.now)) }
{
    let mut out = String::new(alloc);
    for (start, item) in part.starts.iter().zip(items) {
        item.append_lines(alloc, part.name, *start, &mut out)?;
    }
    Ok(out)
}

/// What is written for a part: for its items, or the ones that it begins with, of which `items` is kept, and for its refusal, if it is
/// refused. The error is out of memory.
pub fn part_text<V: Shown>(
    alloc: Global,
    output: Output,
    part: Part<'_>,
    refusal: Option<Rejected<'_>>,
    items: &Vec<V>,
) -> Result<String, AllocError>
    ensures { IfOk result (λ out. string_bytes out ≡ part_text V.as_records V.as_lines output part.entry.name.now part.entry.starts.now (option_map refusal_of refusal.entry) items.now.items) }
{
    match output {
        Output::Records(layout) => {
            let mut out = String::new(alloc);
            items.append_records(alloc, layout, &mut out)?;
            Ok(out)
        }
        Output::Objects { .. } => {
            let mut out = part_lines(alloc, part, items.as_slice())?;
            append_refusal(alloc, part.name, refusal, &mut out)?;
            Ok(out)
        }
    }
}
