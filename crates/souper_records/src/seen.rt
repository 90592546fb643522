//! The index of the distinct items.
ghost use Rattle.std.specs.Prelude.{◌≡◌, [], Bool, OnOk, unwrap_or, string_eq};
ghost use Rattle.indexmap.specs.IndexMap.{get, insert_entry};
ghost use Rattle.souper_graph.specs.Syntax.Spelling.{ItemType};
ghost use Rattle.souper_records.specs.Distinct.{one_more};
ghost use Rattle.souper_records.specs.Uniques.{HasSeen};

use indexmap::IndexMap;
use souper_hash::Seed;
use std::alloc::{AllocError, Global};

/// Counts an item with this text.
pub(crate) fn count(
    counts: &mut IndexMap<String, u64, Seed>,
    text: String,
) -> Result<(), AllocError>
    ensures { OnOk result (counts.new.entries ≡ insert_entry string_eq counts.old.entries text (one_more (unwrap_or (get string_eq counts.old text) 0))) }
{
    let count = counts.entry(text)?.or_insert(0);
    *count = count.saturating_add(1);
    Ok(())
}

/// The distinct canonical texts of the items so far, in the order of their first items, and how many items have each.
#[derive(Drop)]
pub struct Seen {
    pub(crate) alloc: Global,

    // How many items have each text, at most `u64::MAX`.
    pub(crate) counts: IndexMap<String, u64, Seed>,
}

impl Seen {
    /// No items were seen. The seed of the index is fixed ([`with_seed`](Seen::with_seed)).
    pub fn new(alloc: Global) -> Seen
        ensures { (k : ItemType) (rename : Bool) → HasSeen k rename [] result }
    {
        Seen::with_seed(alloc, Seed::fixed())
    }

    /// No items were seen. With a seed of random bytes, no one can choose texts that make look-ups slow.
    pub fn with_seed(alloc: Global, seed: Seed) -> Seen
        ensures { (k : ItemType) (rename : Bool) → HasSeen k rename [] result }
    {
        Seen {
            alloc,
            counts: IndexMap::with_hasher(alloc, seed),
        }
    }

    /// The allocator of the index.
    pub fn allocator(&self) -> Global
        ensures { result ≡ self.now.alloc }
    {
        self.alloc
    }
}
