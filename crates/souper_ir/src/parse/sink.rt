//! What takes the items of a text as they are read.
ghost use Rattle.std.specs.Prelude.{◌≡◌, ◌∷◌, ◌++◌, [], List, map, OnOk};
ghost use Rattle.souper_graph.specs.Values.{Item};
ghost use Rattle.souper_graph.specs.WellFormed.{WellFormed};

use crate::parse::item::WholeItem;
use souper_graph::ast::{Arena, Statement};
use std::alloc::AllocError;

/// What takes the items of a text one at a time, in order: a `Vec` keeps them.
///
/// An implementor states when it holds a list of items, compared with what it was at first, so that it can say which part of it
/// stays. It owes that, if it held a list and took an item, it holds the list with that item at its end.
pub trait Sink<T: WholeItem> {
    // Compared with the first sink, the second holds the items.
    ghost holds: { Self → Self → List Item → Type 0 };

    /// Takes the next item. A sink that drops it may return its statements ([`WholeItem::take_statements`]), so that the next item is read
    /// into their memory. An item that comes then and is kept may have room for up to 64 statements, and for up to 128 bytes in each name.
    ///
    /// The error is out of memory, and ends the parse; what the sink holds then is not specified.
    fn take(&mut self, item: T) -> Result<Option<Arena<Statement>>, AllocError>
        requires { WellFormed (T.view item) }
        ensures { OnOk result ((first : Self) (items : List Item) → holds first self.old items → holds first self.new (items ++ T.view item ∷ [])) };
}

impl<T: WholeItem + Drop> Sink<T> for Vec<T> {
    ghost holds = { λ first v items. map T.view v.items ≡ items };

    fn take(&mut self, item: T) -> Result<Option<Arena<Statement>>, AllocError> {
        match self.push(item) {
            Ok(()) => Ok(None),
            Err(_) => Err(AllocError),
        }
    }
}
