//! The memory of items that were dropped, kept from text to text.
ghost use Rattle.std.specs.Prelude.{◌≡◌, ◌∷◌, [], None, Some, IfSome, IfNone, OnOk, option_map, is_some};
ghost use Rattle.souper_ir.specs.Starts.{Keeps, starts_kept, starts_of};

use crate::parse::spare::Spare;
use souper_graph::ast::{Arena, Statement};
use std::alloc::{AllocError, Global};

// What is kept while the items of a text are read.
#[derive(Debug, Drop)]
pub(crate) struct Kept {
    // The statements of the last item, if the sink gave them back.
    pub(crate) statements: Option<Arena<Statement>>,
    // The offsets of the first tokens of the items, if they are asked for.
    pub(crate) starts: Option<Vec<usize>>,
}

impl Kept {
    /// Nothing is kept, and no offsets are asked for.
    pub(crate) fn none() -> Kept
        ensures { starts_kept result ≡ None }
    {
        Kept {
            statements: None,
            starts: None,
        }
    }

    // Drops the offsets, for another text.
    pub(crate) fn restart(&mut self)
        ensures { starts_kept self.new ≡ option_map (λ starts. []) (starts_kept self.old) }
    {
        if let Some(starts) = &mut self.starts {
            starts.clear();
        }
    }

    /// Keeps the offset of an item, if it is asked for.
    pub(crate) fn add_start(&mut self, start: usize) -> Result<(), AllocError>
        ensures kept { OnOk result (Keeps self.old self.new (start ∷ [])) }
        ensures asked { is_some (starts_kept self.new) ≡ is_some (starts_kept self.old) }
    {
        if let Some(starts) = &mut self.starts {
            if starts.push(start).is_err() {
                return Err(AllocError);
            }
        }
        Ok(())
    }
}

/// The memory of items that a sink gave back ([`Sink::take`](crate::parse::Sink::take)):
/// [`parse_with_memory`](crate::parse::parse_with_memory) reads the items of the next text into it.
///
/// It keeps room for at most 64 statements (16 KiB), and at most 64 names of at most 64 bytes; and, if it is asked
/// ([`with_starts`](Memory::with_starts)), for the offsets of the items of a text.
#[derive(Debug, Drop)]
pub struct Memory {
    pub(crate) spare: Spare,
    pub(crate) kept: Kept,
}

impl Memory {
    /// Nothing is kept. It takes no memory.
    pub fn new(alloc: Global) -> Memory
        ensures { starts_of result ≡ None }
    {
        Memory {
            spare: Spare::new(alloc),
            kept: Kept::none(),
        }
    }

    /// Nothing is kept, and the offsets of items are asked for ([`starts`](Memory::starts)). It takes no memory.
    pub fn with_starts(alloc: Global) -> Memory
        ensures { starts_of result ≡ Some [] }
    {
        Memory {
            spare: Spare::new(alloc),
            kept: Kept {
                statements: None,
                starts: Some(Vec::new(alloc)),
            },
        }
    }

    /// The offsets in bytes of the first tokens of the items that were read last, one for each item, in order; none if they were not
    /// asked for.
    pub fn starts(&self) -> &[usize]
        ensures asked { IfSome (starts_of self.now) (λ starts. result.now ≡ starts) }
        ensures none { IfNone (starts_of self.now) (result.now ≡ []) }
    {
        match &self.kept.starts {
            Some(starts) => starts.as_slice(),
            None => &[],
        }
    }
}
