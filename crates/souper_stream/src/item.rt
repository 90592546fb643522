//! The types of items that are read from a stream, and the words that they end with.
ghost use Rattle.std.specs.Prelude.{◌≡◌};
ghost use Rattle.souper_stream.specs.Lines.{begins_terminator};

use souper_ir::ast::{LeftHandSide, Replacement, RightHandSide};
use souper_ir::parse::WholeItem;

/// An item that is read from a stream.
pub trait StreamItem: WholeItem {
    /// Whether the word begins a terminator: the line that an item of the type ends with.
    fn ends_with(word: &str) -> bool
        ensures { result ≡ begins_terminator Self.item_type word.now };
}

impl StreamItem for LeftHandSide {
    fn ends_with(word: &str) -> bool {
        word == "infer"
    }
}

impl StreamItem for RightHandSide {
    fn ends_with(word: &str) -> bool {
        word == "result"
    }
}

impl StreamItem for Replacement {
    fn ends_with(word: &str) -> bool {
        word == "result" || word == "cand"
    }
}
