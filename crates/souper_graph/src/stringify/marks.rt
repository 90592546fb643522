//! Marks on statements.

ghost use Rattle.std.specs.Prelude.{◌≡◌, ◌<◌, false, true, length, replicate, slice_index_or, slice_set, IfOk};

use std::alloc::{AllocError, Global};
use std::marker::Model;

/// Which statements of an arena are marked, one bit each.
#[derive(Drop)]
pub struct Marks {
    words: Vec<u64>,
    len: usize,
}

impl Model for Marks {
    ghost use Rattle.std.specs.Prelude.{List, Bool, ◌≤◌, ◌*◌, length};
    ghost use Rattle.souper_graph.specs.Marks.{marks_of};

    ghost Value = { List Bool };

    ghost view = { λ marks. marks_of marks.words.items marks.len };

    ghost invariant = { λ marks. marks.len ≤ 64 * length marks.words.items };
}

impl Marks {
    /// No marks, on `len` statements.
    pub fn none(alloc: Global, len: usize) -> Result<Self, AllocError>
        ensures { IfOk result (λ marks. marks ≡ replicate len false) }
    {
        let words = vec![in alloc; 0u64; len / 64 + 1]?;
        Ok(Marks { words, len })
    }

    /// Whether the statement is marked.
    pub fn is_marked(&self, index: usize) -> bool
        requires { index < length self.now }
        ensures { result ≡ slice_index_or self.now index false }
    {
        (self.words[index / 64] >> (index % 64)) & 1 == 1
    }

    /// Marks the statement.
    pub fn mark(&mut self, index: usize)
        requires { index < length self.old }
        ensures { self.new ≡ slice_set self.old index true }
    {
        self.words[index / 64] |= 1 << (index % 64);
    }
}
