//! A store as a sink: it takes the replacements of a text or of a stream.

ghost use Rattle.std.specs.Prelude.{List};
ghost use Rattle.souper_lookup.specs.Stored.{Entry, AreAdded, Stores};

use crate::store::Store;
use souper_ir::ast::{Arena, Replacement, Statement};
use souper_ir::parse::Sink;
use std::alloc::AllocError;

// Each replacement is added, in order.
impl Sink<Replacement> for Store {
    ghost holds = { λ first store items. (entries : List Entry) → Stores entries first → (now : List Entry) × AreAdded items entries now × Stores now store };

    fn take(&mut self, item: Replacement) -> Result<Option<Arena<Statement>>, AllocError> {
        match self.add(item) {
            Ok(_) => Ok(None),
            // A well-formed replacement has no bad id, so the error is out of memory.
            Err(_) => Err(AllocError),
        }
    }
}
