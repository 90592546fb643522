//! Worlds: what one run gives to an item, and which inputs it may have.

ghost use Rattle.std.specs.Prelude.{◌≡◌};
ghost use Rattle.souper_meaning.specs.Worlds.{value_at, predecessor_at, choice_at};
ghost use Rattle.souper_meaning.specs.View.{view_world};

use souper_words::Outcome;

/// Which inputs a world may have.
#[derive(Clone, Copy, Debug, PartialEq, Eq)]
pub enum Mode {
    /// Inputs are values.
    ValueInputs,

    /// A `var` and a `reservedinst` may be poison too.
    PoisonInputs,
}

/// What one run gives to the inputs, blocks and freezes of an item, by position.
#[derive(Debug, Drop)]
pub struct World {
    /// What each input is: a number of its bits, or poison. Past the end inputs are poison.
    pub values: Vec<Outcome>,

    /// The predecessor by which each block is reached, counted from 0. Past the end it is 0.
    pub predecessors: Vec<u32>,

    /// What each freeze gives for poison: a number of its bits. Past the end it is 0.
    pub choices: Vec<u128>,
}

impl World {
    /// What the input at a position is.
    pub fn value(&self, position: usize) -> Outcome
        ensures { result ≡ value_at (view_world self.now) position }
    {
        match self.values.get(position) {
            Some(value) => *value,
            None => Outcome::Poison,
        }
    }

    /// The predecessor by which the block at a position is reached.
    pub fn predecessor(&self, position: usize) -> u32
        ensures { result ≡ predecessor_at (view_world self.now) position }
    {
        match self.predecessors.get(position) {
            Some(predecessor) => *predecessor,
            None => 0,
        }
    }

    /// What the freeze at a position gives for poison.
    pub fn choice(&self, position: usize) -> u128
        ensures { result ≡ choice_at (view_world self.now) position }
    {
        match self.choices.get(position) {
            Some(choice) => *choice,
            None => 0,
        }
    }
}
