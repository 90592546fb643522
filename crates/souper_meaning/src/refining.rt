//! When one outcome may stand for another.

ghost use Rattle.std.specs.Prelude.{IsTrue, ◌↔◌};
ghost use Rattle.souper_meaning.specs.Sound.{Refines, AreOneNumber};

use souper_words::Outcome;

/// Whether the second outcome may stand for the first, where these bits are wanted.
pub fn refines(wanted: u128, left: Outcome, right: Outcome) -> bool
    ensures { IsTrue result ↔ Refines wanted left right }
{
    match (left, right) {
        (Outcome::Undefined, _) => true,
        (Outcome::Poison, Outcome::Undefined) => false,
        (Outcome::Poison, _) => true,
        (Outcome::Number(m), Outcome::Number(n)) => m & wanted == n & wanted,
        (Outcome::Number(_), _) => false,
    }
}

/// Whether both outcomes are one number.
pub fn are_one_number(x: Outcome, y: Outcome) -> bool
    ensures { IsTrue result ↔ AreOneNumber x y }
{
    match (x, y) {
        (Outcome::Number(m), Outcome::Number(n)) => m == n,
        _ => false,
    }
}
