//! The heads of the slots of a table of names.
ghost use Rattle.std.specs.Prelude.{◌≡◌, ◌<◌, length, max, IfOk, slice_index, slice_set};
ghost use Rattle.std.proofs.Math.ListN.{replicate};
ghost use Rattle.souper_names.specs.HashView.{slot};

use crate::hash::slot_of;
use std::alloc::{AllocError, Global};
use std::marker::Model;

/// For each slot, the number of entries up to the last one in it, or 0.
#[derive(Drop)]
pub(crate) struct Heads {
    // Of a small table, whose heads take no memory of their own.
    few: [usize; 64],
    // Of any other table. Otherwise it is empty.
    many: Vec<usize>,
}

impl Model for Heads {
    ghost use Rattle.std.specs.Prelude.{◌≡◌, ℕ, List, length};
    ghost use Rattle.souper_names.specs.HashView.{heads_of};

    ghost Value = { List ℕ };

    ghost view = { heads_of };

    ghost invariant = { λ h. length h.few ≡ 64 };
}

impl Heads {
    /// 64 slots without an entry. They take no memory.
    pub(crate) fn new(alloc: Global) -> Self
        ensures { result ≡ replicate 64 0 }
    {
        Heads {
            few: [0; 64],
            many: Vec::new(alloc),
        }
    }

    /// Slots without an entry: `slots`, or 64 if that is more.
    pub(crate) fn with_slots(alloc: Global, slots: usize) -> Result<Self, AllocError>
        ensures { IfOk result (λ heads. heads ≡ replicate (max slots 64) 0) }
    {
        Ok(Heads {
            few: [0; 64],
            many: Vec::from_elem(alloc, 0, slots.max(64))?,
        })
    }

    /// The number of slots.
    #[inline(always)]
    pub(crate) fn len(&self) -> usize
        ensures { result ≡ length self.now }
    {
        match self.many.len() {
            0 => 64,
            slots => slots,
        }
    }

    /// The head of the slot of a hash.
    #[inline(always)]
    pub(crate) fn get(&self, hash: u64) -> usize
        ensures { result ≡ slice_index self.now (slot hash (length self.now)) }
    {
        match self.many.len() {
            0 => self.few[slot_of(hash, 64)],
            slots => self.many[slot_of(hash, slots)],
        }
    }

    /// Makes this the head of the slot of a hash.
    #[inline(always)]
    pub(crate) fn put(&mut self, hash: u64, head: usize)
        ensures within { slot hash (length self.old) < length self.old }
        ensures put { self.new ≡ slice_set self.old (slot hash (length self.old)) head }
    {
        match self.many.len() {
            0 => self.few[slot_of(hash, 64)] = head,
            slots => self.many[slot_of(hash, slots)] = head,
        }
    }
}
