/// What a value is in one run: a number of its bits, poison, or undefined behaviour of the whole run.
#[derive(Clone, Copy, Debug, PartialEq, Eq)]
pub enum Outcome {
    Number(u128),
    Poison,
    Undefined,
}
