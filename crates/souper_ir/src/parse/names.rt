//! The names of an item.

use souper_names::{Entry, NameTable, hash_of};
use std::alloc::{AllocError, Global};
use std::collections::BTreeMap;

// The most entries in a slot before a new name, in a table with this number of entries. They are few, so that no text makes a
// look-up compare many names, and names that were not made for it have fewer.
fn most(entries: usize) -> usize {
    (entries / 16).min(8) + 3
}

/// Where a name is to be entered.
#[derive(Clone, Copy)]
pub(crate) struct Slot {
    /// The hash of the name.
    pub(crate) hash: u64,
    /// Into the map: the entries are there, or too many have its slot of the table.
    pub(crate) is_for_map: bool,
}

/// Each name of an item with its entry: the position of its statement and, if that is a block, its number of predecessors.
#[derive(Debug, Drop)]
pub(crate) struct Names<'a> {
    // The entries, until a slot has too many.
    table: NameTable<'a>,
    // All entries from then on. Otherwise it is empty.
    entries: BTreeMap<&'a str, Entry>,
    // The name that was entered last into the map, with its entry.
    last: Option<(&'a str, usize, Option<u32>)>,
}

impl<'a> Names<'a> {
    ghost use Rattle.std.specs.Prelude.{◌≡◌, ℕ, List, [], Some, false, IfOk, OnOk};
    ghost use Rattle.souper_names.specs.HashView.{name_hash};
    ghost use Rattle.souper_names.specs.TableView.{last_entry};
    ghost use Rattle.souper_ir.specs.NamesView.{AreNames, IsLast, entry_in, entry_in_map, Adds, AddsToMap, Defines};

    pub(crate) fn new(alloc: Global) -> Self
        ensures { AreNames result [] }
    {
        Names {
            table: NameTable::new(alloc),
            entries: BTreeMap::new(alloc),
            last: None,
        }
    }

    /// The entry of a name in the table, and where one is to be entered.
    #[inline(always)]
    pub(crate) fn find(&self, name: &str) -> (Option<Entry>, Slot)
        ensures entry { result.0 ≡ last_entry self.now.table name.now }
        ensures hash { result.1.hash ≡ name_hash name.now }
        ensures table { result.1.is_for_map ≡ false → self.now.entries.entries ≡ [] }
    {
        let hash = hash_of(name);
        let (entry, compared) = self.table.find(hash, name);
        let slot = Slot {
            hash,
            is_for_map: compared > most(self.table.len()) || !self.entries.is_empty(),
        };
        (entry, slot)
    }

    /// The entry of a name in the table.
    pub(crate) fn in_table(&self, name: &str) -> Option<Entry>
        ensures { result ≡ last_entry self.now.table name.now }
    {
        self.table.get(hash_of(name), name)
    }

    /// The entry of a name in the map.
    pub(crate) fn in_map(&self, name: &str) -> Option<Entry>
        ensures { result ≡ entry_in_map self.now.entries name.now }
    {
        self.entries.get(name).copied()
    }

    /// Enters a name into the map, to which all entries go, and returns the entry that it had.
    #[inline(never)]
    pub(crate) fn put_into_map(
        &mut self,
        name: &'a str,
        position: usize,
        predecessors: Option<u32>,
    ) -> Result<Option<Entry>, AllocError>
        ensures replaced { IfOk result (λ replaced. replaced ≡ entry_in self.old name.now) }
        ensures table { OnOk result (self.new.table ≡ []) }
        ensures entered { OnOk result (Adds self.old self.new name.now (position, predecessors)) }
        ensures last { OnOk result (IsLast self.new.last self.new.entries) }
    {
        self.move_names()?;
        let replaced = self.insert(name, (position, predecessors))?;
        self.last = Some((name, position, predecessors));
        Ok(replaced)
    }

    // Moves the entries of the table to the map.
    fn move_names(&mut self) -> Result<(), AllocError>
        ensures empty { OnOk result (self.new.table ≡ []) }
        ensures same { OnOk result ((n : List ℕ) → entry_in self.new n ≡ entry_in self.old n) }
    {
        for index in 0..self.table.len() {
            let (name, entry) = self.table.nth(index);
            self.insert(name, entry)?;
        }
        self.table.clear();
        Ok(())
    }

    // Inserts an entry into the map, and returns the name's entry before.
    fn insert(&mut self, name: &'a str, entry: Entry) -> Result<Option<Entry>, AllocError>
        ensures replaced { IfOk result (λ replaced. replaced ≡ entry_in_map self.old.entries name.now) }
        ensures entered { OnOk result (AddsToMap self.old.entries self.new.entries name.now entry) }
        ensures table { self.new.table ≡ self.old.table }
    {
        match self.entries.insert(name, entry) {
            Ok(replaced) => Ok(replaced),
            Err(_) => Err(AllocError),
        }
    }

    /// Enters a name whose statement was added.
    #[inline(always)]
    pub(crate) fn enter(
        &mut self,
        slot: Slot,
        name: &'a str,
        position: usize,
        predecessors: Option<u32>,
    ) -> Result<(), AllocError>
        requires { slot.hash ≡ name_hash name.now }
        ensures { OnOk result (Defines self.old self.new name.now position predecessors) }
    {
        if slot.is_for_map {
            return self.enter_into_map(name, position, predecessors);
        }
        self.table.put(slot.hash, name, (position, predecessors))
    }

    // The same, into the map, which is not searched if this is what was entered last.
    #[inline(never)]
    fn enter_into_map(
        &mut self,
        name: &'a str,
        position: usize,
        predecessors: Option<u32>,
    ) -> Result<(), AllocError>
        ensures { OnOk result (Defines self.old self.new name.now position predecessors) }
    {
        if let Some((last, at, count)) = self.last {
            if at == position && count == predecessors && last == name {
                return Ok(());
            }
        }
        self.put_into_map(name, position, predecessors)?;
        Ok(())
    }

    /// Takes all names out.
    pub(crate) fn clear(&mut self)
        ensures { AreNames self.new [] }
    {
        self.table.clear();
        self.entries.clear();
        self.last = None;
    }
}
