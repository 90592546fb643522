//! The types of items.
ghost use Rattle.std.specs.Prelude.{◌≡◌};
ghost use Rattle.souper_errors.specs.Kinds.{kind_of_word};

/// The type of the items that a text has.
#[derive(Clone, Copy, Debug, PartialEq, Eq)]
pub enum Kind {
    /// Left-hand sides: what an optimization looks for.
    Lhs,

    /// Right-hand sides: what may replace it.
    Rhs,

    /// Replacements: both.
    Rep,
}

impl Kind {
    /// The kind that the word stands for on a command line: `lhs`, `rhs` or `rep`.
    pub fn from_word(word: &str) -> Option<Kind>
        ensures { result ≡ kind_of_word word.now }
    {
        match word {
            "lhs" => Some(Kind::Lhs),
            "rhs" => Some(Kind::Rhs),
            "rep" => Some(Kind::Rep),
            _ => None,
        }
    }
}
