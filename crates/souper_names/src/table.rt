//! A table of names with their entries.
ghost use Rattle.std.specs.Prelude.{◌≡◌, ◌<◌, ◌++◌, ◌∷◌, [], length, IfOk, OnOk};
ghost use Rattle.std.specs.List.{slice_get};
ghost use Rattle.souper_names.specs.HashView.{name_hash};
ghost use Rattle.souper_names.specs.TableView.{last_entry};

use crate::hash::hash_of;
use crate::heads::Heads;
use std::alloc::{AllocError, Global};
use std::fmt;
use std::marker::Model;

/// A position and, if a block is there, its number of predecessors.
pub type Entry = (usize, Option<u32>);

// A name with its entry.
#[derive(Clone, Copy)]
struct Known<'a> {
    name: &'a str,
    entry: Entry,
    // The number of entries up to the last one before it in its slot, or 0.
    before: usize,
}

/// The entries that were put, in order: a hash table with separate chaining, in which the entries of a slot are a chain from the last to the
/// first. It grows with its entries.
#[derive(Drop)]
pub struct NameTable<'a> {
    alloc: Global,
    known: Vec<Known<'a>>,
    heads: Heads,
}

impl<'a> Model for NameTable<'a> {
    ghost use Rattle.std.specs.Prelude.{ℕ, List, Option, map};
    ghost use Rattle.souper_names.specs.TableView.{plain, IsTable};

    ghost Value = { List (List ℕ × (ℕ × Option ℕ)) };

    ghost view = { λ t. map plain t.known.items };

    ghost invariant = { IsTable };
}

/// Shows one map.
impl fmt::Debug for NameTable<'_> {
    fn fmt<W: fmt::Write>(&self, f: &mut fmt::Formatter<W>) -> fmt::Result {
        let mut map = f.debug_map();
        for known in &self.known {
            map.entry(&known.name, &known.entry);
        }
        map.finish()
    }
}

// The entries that there is room for after the first.
const ROOM: usize = 16;

// The most entries whose room is kept for the next item.
const KEPT: usize = 64;

impl<'a> NameTable<'a> {
    /// An empty table. It takes no memory.
    pub fn new(alloc: Global) -> Self
        ensures { result ≡ [] }
    {
        NameTable {
            alloc,
            known: Vec::new(alloc),
            heads: Heads::new(alloc),
        }
    }

    /// The number of entries.
    #[inline(always)]
    pub fn len(&self) -> usize
        ensures { result ≡ length self.now }
    {
        self.known.len()
    }

    /// The name and the entry at the index.
    #[inline(always)]
    pub fn nth(&self, index: usize) -> (&'a str, Entry)
        requires { index < length self.now }
        ensures { slice_get self.now index ≡ Some (result.0.now, result.1) }
    {
        let known = &self.known[index];
        (known.name, known.entry)
    }

    /// The last entry of a name, whose hash this is.
    #[inline(always)]
    pub fn get(&self, hash: u64, name: &str) -> Option<Entry>
        requires { hash ≡ name_hash name.now }
        ensures { result ≡ last_entry self.now name.now }
    {
        self.find(hash, name).0
    }

    /// The last entry of a name, whose hash this is, and the number of entries of other names that it was compared with first.
    #[inline(always)]
    pub fn find(&self, hash: u64, name: &str) -> (Option<Entry>, usize)
        requires { hash ≡ name_hash name.now }
        ensures { result.0 ≡ last_entry self.now name.now }
    {
        let mut compared: usize = 0;
        let mut count = self.heads.get(hash);
        while count > 0 {
            let known = &self.known[count - 1];
            if known.name == name {
                return (Some(known.entry), compared);
            }
            compared = compared.saturating_add(1);
            count = known.before;
        }
        (None, compared)
    }

    /// Puts an entry of a name, whose hash this is.
    #[inline(always)]
    pub fn put(&mut self, hash: u64, name: &'a str, entry: Entry) -> Result<(), AllocError>
        requires { hash ≡ name_hash name.now }
        ensures { OnOk result (self.new ≡ self.old ++ (name.now, entry) ∷ []) }
    {
        self.make_room()?;
        self.push(hash, name, entry)
    }

    // Makes room for one more entry, and for as many slots as there are entries.
    #[inline(always)]
    fn make_room(&mut self) -> Result<(), AllocError>
        ensures { self.new ≡ self.old }
    {
        match self.known.len() {
            0 => self.known.reserve(ROOM),
            entries if entries >= self.heads.len() => self.grow(),
            _ => Ok(()),
        }
    }

    // An empty table with room for this number of entries, and twice as many slots.
    fn with_room(alloc: Global, entries: usize) -> Result<Self, AllocError>
        ensures { IfOk result (λ table. table ≡ []) }
    {
        Ok(NameTable {
            alloc,
            known: Vec::with_capacity(alloc, entries)?,
            heads: Heads::with_slots(alloc, entries.saturating_mul(2))?,
        })
    }

    // Makes the table anew with four times as many slots as entries, and puts the entries into it.
    #[cold]
    #[inline(never)]
    fn grow(&mut self) -> Result<(), AllocError>
        ensures { self.new ≡ self.old }
    {
        let mut table = NameTable::with_room(self.alloc, self.known.len().saturating_mul(2))?;
        for index in 0..self.len() {
            let (name, entry) = self.nth(index);
            table.push(hash_of(name), name, entry)?;
        }
        *self = table;
        Ok(())
    }

    // Puts an entry of a name, whose hash this is, without more room for slots.
    #[inline(always)]
    fn push(&mut self, hash: u64, name: &'a str, entry: Entry) -> Result<(), AllocError>
        requires { hash ≡ name_hash name.now }
        ensures { OnOk result (self.new ≡ self.old ++ (name.now, entry) ∷ []) }
    {
        let known = Known {
            name,
            entry,
            before: self.heads.get(hash),
        };
        match self.known.push(known) {
            Ok(()) => {
                self.heads.put(hash, self.known.len());
                Ok(())
            }
            Err(_) => Err(AllocError),
        }
    }

    /// Takes all entries out. The memory of a large table is given back.
    #[inline(always)]
    pub fn clear(&mut self)
        ensures { self.new ≡ [] }
    {
        if self.known.len() > KEPT {
            *self = NameTable::new(self.alloc);
        } else if !self.known.is_empty() {
            self.known.clear();
            self.heads = Heads::new(self.alloc);
        }
    }
}
