//! The canonical texts of items, in sequence.
ghost use Rattle.std.specs.Prelude.{◌≡◌, ◌↔◌, [], ◌++◌, IfOk, IfErr, IsOkAnd, OnOk, IsTrue, option_copied};
ghost use Rattle.std.specs.String.{string_bytes};
ghost use Rattle.souper_graph.specs.Text.{text_with_newline, texts_of};
ghost use Rattle.souper_graph.specs.Sameness.{SameGraph};
ghost use Rattle.souper_graph.specs.WellFormed.{WellFormed};
ghost use Rattle.souper_ir.specs.Answers.{IsStrError};
ghost use Rattle.souper_graph.specs.Syntax.Tokens.{IsLastGap};
ghost use Rattle.souper_format.specs.Formatted.{IsFormatted, SpellsRenumbered};

use souper_ir::ast::{Arena, Item, Statement};
use souper_ir::parse::{ParseError, Sink, WholeItem, parse_into};
use std::alloc::{AllocError, Global};

// Appends the text of the item and a newline.
fn append_item<T: Item>(item: &T, out: &mut String) -> Result<(), AllocError>
    requires { WellFormed (T.view item.now) }
    ensures { OnOk result (string_bytes out.new ≡ string_bytes out.old ++ text_with_newline (T.view item.now)) }
{
    match item.append_text(out) {
        Ok(()) => {
            out.push('\n')?;
            Ok(())
        }
        // A well-formed item has no bad id, so the error is out of memory.
        Err(_) => Err(AllocError),
    }
}

/// Whether two items are the same graph: they are if and only if their canonical texts are equal.
pub(crate) fn are_same_graph<T: Item>(alloc: Global, a: &T, b: &T) -> Result<bool, AllocError>
    requires formed { WellFormed (T.view a.now) }
    requires other_formed { WellFormed (T.view b.now) }
    ensures { IfOk result (λ answer. IsTrue answer ↔ SameGraph (T.view a.now) (T.view b.now)) }
{
    let mut text = String::new(alloc);
    append_item(a, &mut text)?;
    let mut other_text = String::new(alloc);
    append_item(b, &mut other_text)?;
    Ok(text == other_text)
}

// The canonical text of each item that was taken, a newline after each.
#[derive(Drop)]
struct Texts {
    text: String,

    // For the text of one item.
    item: String,
}

impl<T: WholeItem + Drop> Sink<T> for Texts {
    ghost holds = { λ first texts items. string_bytes texts.text ≡ texts_of items };

    fn take(&mut self, mut item: T) -> Result<Option<Arena<Statement>>, AllocError> {
        // An empty buffer takes the text of an item at once.
        self.item.clear();
        append_item(&item, &mut self.item)?;
        self.text.push_str(&self.item)?;
        Ok(item.take_statements())
    }
}

/// The canonical texts of the items of a source, a newline after each.
pub(crate) fn texts_of_source<T: WholeItem + Drop>(
    alloc: Global,
    source: &str,
    filename: Option<&str>,
) -> Result<String, ParseError>
    ensures formatted { IfOk result (λ text. IsFormatted T.item_type source.now (string_bytes text)) }
    ensures reads_back { IfOk result (λ text. SpellsRenumbered T.item_type source.now (string_bytes text)) }
    ensures again { IfOk result (λ text. IsFormatted T.item_type (string_bytes text) (string_bytes text)) }
    ensures refused { IfErr result (λ e. IsStrError T.item_type (option_copied filename.entry) source.now e) }
    ensures gaps { IsLastGap source.now → IsOkAnd result (λ text. string_bytes text ≡ []) }
{
    let mut texts = Texts {
        text: String::new(alloc),
        item: String::new(alloc),
    };
    parse_into::<T, Texts>(alloc, source, filename, &mut texts)?;
    Ok(texts.text)
}
