//! The seed of hash tables of texts.
//!
//! Whoever knows the seed of a table can choose texts whose hashes are equal, so that each look-up passes all of them. What a table finds,
//! and the order of what it has, do not depend on the seed.
#![tactic(auto)]

ghost use Rattle.std.specs.Prelude.{◌≡◌, fold};
ghost use Rattle.std.specs.Hash.{u64};
ghost use Rattle.std.specs.Hash.FoldHasher as folding;
ghost use Rattle.std.specs.Hash.DefaultHasher as sip;
ghost use Rattle.std.specs.RandomState.{initial_hasher};

use std::hash::{BuildHasher, FoldHasher, Hasher, RandomState};

/// A seed. It is a hasher that has hashed the seed's bytes, and is copied for each text.
#[derive(Clone, Copy)]
pub struct Seed {
    hasher: FoldHasher,
}

impl Seed {
    /// A seed that these keys determine, for a program that has random ones.
    pub fn new(keys: RandomState) -> Seed
        ensures { result.hasher ≡ fold folding.write folding.initial (u64 (sip.finish (fold sip.write (initial_hasher keys) (u64 0)))) }
    {
        let mut hasher = FoldHasher::default();
        hasher.write_u64(keys.hash_one(0u64));
        Seed { hasher }
    }

    /// The same seed in each run, for a caller that has no random bytes.
    pub fn fixed() -> Seed
        ensures { result.hasher ≡ folding.initial }
    {
        Seed {
            hasher: FoldHasher::default(),
        }
    }
}

impl BuildHasher for Seed {
    type Hasher = FoldHasher;

    ghost build_hasher = { λ s. s.hasher };

    fn build_hasher(&self) -> FoldHasher {
        self.hasher
    }
}
