//! The memory of items that were dropped.

use souper_graph::ast::{Arena, Id, Statement};
use std::alloc::{AllocError, Global};
use std::mem;

/// Names of statements that were dropped: the next names are copied into their memory.
#[derive(Debug, Drop)]
pub(crate) struct Spare {
    names: Vec<String>,
    // Whether the last item came back.
    used: bool,
}

// The most statements whose room is kept, the most names, and the most bytes of a name. So the memory that is kept is small, whatever items
// there were.
const MOST: usize = 64;

impl Spare {
    ghost use Rattle.std.specs.Prelude.{◌≡◌, [], IfOk};
    ghost use Rattle.std.specs.String.{string_bytes};

    /// Nothing is kept. It takes no memory.
    pub(crate) fn new(alloc: Global) -> Spare {
        Spare {
            names: Vec::new(alloc),
            used: false,
        }
    }

    /// Whether the last item came back, so that the next is likely to.
    pub(crate) fn is_used(&self) -> bool {
        self.used
    }

    /// A copy of the name.
    #[inline(always)]
    pub(crate) fn copy(&mut self, alloc: Global, name: &str) -> Result<String, AllocError>
        ensures { IfOk result (λ text. string_bytes text ≡ name.now) }
    {
        match self.names.pop() {
            Some(mut text) => {
                text.clear();
                text.push_str(name)?;
                Ok(text)
            }
            None => String::from_str(alloc, name),
        }
    }

    /// Drops the statements, and returns their room, if it is small. Their names are kept.
    pub(crate) fn recycle(
        &mut self,
        alloc: Global,
        mut statements: Arena<Statement>,
    ) -> Arena<Statement>
        ensures { result ≡ [] }
    {
        self.used = true;
        if statements.capacity() > MOST {
            return Arena::new(alloc);
        }
        for index in 0..statements.len() {
            if let Some(Statement::Assignment(assignment)) = statements.get_mut(Id::at(index)) {
                let name = mem::replace(&mut assignment.name, String::new(alloc));
                self.keep(name);
            }
        }
        statements.clear();
        statements
    }

    fn keep(&mut self, name: String) {
        if name.capacity() <= MOST && self.names.len() < MOST {
            let _ = self.names.push(name);
        }
    }

    /// Gives back the names that are kept.
    pub(crate) fn clear(&mut self) {
        if self.used {
            self.names.clear();
            self.used = false;
        }
    }
}
