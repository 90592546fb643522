//! Where two texts that come part by part differ first.
ghost use Rattle.std.specs.Prelude.{◌≡◌, ◌++◌, [], ℕ, List, take, OnOk, IfSome, IfNone};
ghost use Rattle.souper_diff.specs.Comparisons.{line_ends, AgreeUpTo, DifferFrom, IsCompared};

use std::alloc::{AllocError, Global};

// How many bytes the texts begin with that are the same, how many newlines are among these, and whether the next bytes differ. Else one
// of the texts ends there.
fn common_front(text: &[u8], other: &[u8]) -> (usize, usize, bool)
    ensures same { AgreeUpTo text.now other.now result.0 result.2 }
    ensures newlines { result.1 ≡ line_ends (take result.0 text.now) }
{
    let mut newlines = 0;
    for (index, byte) in text.iter().enumerate() {
        if index == other.len() {
            return (index, newlines, false);
        }
        if other[index] != *byte {
            return (index, newlines, true);
        }
        if *byte == b'\n' {
            newlines += 1;
        }
    }
    (text.len(), newlines, false)
}

/// Two texts that come part by part, compared as far as both came.
#[derive(Drop)]
pub struct Comparison {
    alloc: Global,

    // The line, counted from 1, after the bytes that both texts begin with.
    line: usize,

    // Whether the texts differ there.
    differs: bool,

    // What comes after these bytes, unless they differ: of one of the texts nothing.
    text: Vec<u8>,
    other: Vec<u8>,
}

impl Comparison {
    /// Two texts without bytes.
    pub fn new(alloc: Global) -> Comparison
        ensures { IsCompared result [] [] }
    {
        Comparison {
            alloc,
            line: 1,
            differs: false,
            text: Vec::new(alloc),
            other: Vec::new(alloc),
        }
    }

    /// More of both texts comes. The error is out of memory; then nothing is known of the comparison.
    pub fn append(&mut self, text: &[u8], other: &[u8]) -> Result<(), AllocError>
        ensures { OnOk result ((before others : List ℕ) → IsCompared self.old before others → IsCompared self.new (before ++ text.now) (others ++ other.now)) }
    {
        if self.differs {
            return Ok(());
        }
        self.text.extend_from_slice(text)?;
        self.other.extend_from_slice(other)?;
        let (len, newlines, differs) = common_front(&self.text, &self.other);
        self.line = self.line.saturating_add(newlines);
        self.differs = differs;
        self.text = self.text[len..].to_vec(self.alloc)?;
        self.other = self.other[len..].to_vec(self.alloc)?;
        Ok(())
    }

    /// The line, counted from 1, on which the texts first differ, or none if they are the same.
    pub fn differing_line(&self) -> Option<usize>
        ensures same { (text other : List ℕ) → IsCompared self.now text other → IfNone result (text ≡ other) }
        ensures differs { (text other : List ℕ) → IsCompared self.now text other → IfSome result (DifferFrom text other) }
    {
        if !self.differs && self.text.is_empty() && self.other.is_empty() {
            return None;
        }
        Some(self.line)
    }
}
