//! What a store is asked, and how its answers are written.

use souper_lookup::store::Store;
use souper_records::output::Output;

/// What is written for a left-hand side.
#[derive(Clone, Copy, Debug, PartialEq, Eq)]
pub enum Choice {
    /// All its answers.
    All,

    /// The first of its answers.
    First,

    /// The left-hand side itself, if it has no answer.
    Unanswered,
}

/// A store, and what is written for each left-hand side that it is asked for: the rows of `rows_run` of `souper_records`. The answers are
/// those of `find` of `souper_lookup`, in its order; the status does not say whether there are any.
#[derive(Clone, Copy)]
pub struct Search<'s> {
    /// The store.
    pub store: &'s Store,

    /// What is written.
    pub choice: Choice,

    /// How it is written. Objects have the location of the left-hand side.
    pub output: Output,
}
