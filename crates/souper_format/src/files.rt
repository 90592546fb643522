//! What the texts of files are read from: the files of the system, or others.
ghost use Rattle.std.specs.Prelude.{ℕ, List};
ghost use Rattle.souper_format.specs.SameRuns.{FileRead};

use std::rt::Files;
use std::{fs, io};

/// What the texts of files are read from: the files of the system, or others.
///
/// An implementor states what the read of a path may return. Of the system's files nothing is known.
pub trait TextFiles {
    ghost gives: { Self → List ℕ → FileRead → Type 0 };

    /// Reads the file at the path.
    fn read_text(&self, path: &str) -> io::Result<String>
        ensures { gives self.now path.now result };
}

impl<R: Files + AllocGlobal> TextFiles for R {
    ghost gives = { λ rt path read. Unit {0} };

    fn read_text(&self, path: &str) -> io::Result<String> {
        fs::read_to_string(self, path)
    }
}
