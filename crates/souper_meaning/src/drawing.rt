//! The numbers of a try: edges, and random numbers.

ghost use Rattle.std.specs.Prelude.{◌≡◌, ◌+◌, ◌/◌, ◌%◌, ◌^◌, ◌<◌, ◌≤◌, length};
ghost use Rattle.souper_meaning.specs.View.{view_mode};
ghost use Rattle.souper_meaning.specs.Worlds.{poison_inputs};
ghost use Rattle.souper_meaning.specs.Numbering.{numbered_input};
ghost use Rattle.souper_meaning.specs.Sampling.{output, scaled, edge_count, power_edge, edge, random_number, number_at, pinned_at, is_poison_at, input_at};

use crate::generator::{output_of, scaled_by};
use crate::spans::{Span, low_bits};
use crate::worlds::Mode;
use souper_words::Outcome;

/// How many words there are.
const WORD_COUNT: u128 = 0x1_0000_0000_0000_0000;

/// The numbers that are tried rather than others.
#[derive(Drop)]
pub(crate) struct Hints {
    /// The edges by the constants of the item.
    pub(crate) edges: Vec<u128>,

    /// The numbers that conditions leave, by position.
    pub(crate) numbers: Vec<Span>,
}

/// A try: its number and state, and what all tries have.
#[derive(Clone, Copy)]
pub(crate) struct Try<'a> {
    pub(crate) mode: Mode,
    pub(crate) hints: &'a Hints,
    pub(crate) number: u64,
    pub(crate) state: u64,
}

/// How many edges a width has.
fn edge_count_of(edges: &[u128], width: u32) -> u64
    requires { width ≤ 128 }
    ensures { result ≡ edge_count width edges.now }
{
    edges.len() as u64 + 2 * u64::from(width)
}

/// A power of two, or the number below one.
fn power_edge_of(number: u64) -> u128
    requires { number < 256 }
    ensures { result ≡ power_edge number }
{
    (1u128 << (number / 2)) - u128::from(number % 2)
}

/// The edge of this number.
fn edge_of(edges: &[u128], width: u32, number: u64) -> u128
    requires width { width ≤ 128 }
    requires inside { number < edge_count width edges.now }
    ensures { result ≡ edge width edges.now number }
{
    let count = edges.len() as u64;
    if number < count {
        low_bits(edges[number as usize], width)
    } else {
        power_edge_of(number - count)
    }
}

/// An edge, or any number, by the generator's state.
fn random_number_of(edges: &[u128], width: u32, state: u64) -> u128
    requires width { width ≤ 128 }
    requires some { 0 < length edges.now }
    ensures { result ≡ random_number width edges.now state }
{
    let word = output_of(state, 0);
    if word % 2 == 0 {
        return edge_of(edges, width, scaled_by(word, edge_count_of(edges, width)));
    }
    let high = output_of(state, 1);
    let low = output_of(state, 2);
    low_bits(u128::from(high) * WORD_COUNT + u128::from(low), width)
}

/// The number at a position of this state.
pub(crate) fn number_of(tried: &Try<'_>, width: u32, state: u64) -> u128
    requires width { width ≤ 128 }
    requires some { 0 < length tried.now.hints.now.edges.items }
    ensures { result ≡ number_at width tried.now.hints.now.edges.items tried.now.number state }
{
    if tried.number < edge_count_of(&tried.hints.edges, width) {
        edge_of(&tried.hints.edges, width, tried.number)
    } else {
        random_number_of(&tried.hints.edges, width, state)
    }
}

/// The constant at a position of this state, of which conditions leave these numbers.
pub(crate) fn constant_of(tried: &Try<'_>, left: Span, width: u32, state: u64) -> Outcome
    requires width { width ≤ 128 }
    requires some { 0 < length tried.now.hints.now.edges.items }
    ensures { result ≡ numbered_input width (pinned_at width tried.now.hints.now.edges.items left tried.now.number state) }
{
    let number = number_of(tried, width, state);
    let chosen = left.placed(number, width);
    Outcome::Number(chosen)
}

/// Whether an input that may be poison is so.
fn is_poison(tried: &Try<'_>, left: Span, width: u32, state: u64) -> bool
    requires { width ≤ 128 }
    ensures { result ≡ is_poison_at width tried.now.hints.now.edges.items left tried.now.number state }
{
    left.size(width) == 0
        && tried.number >= edge_count_of(&tried.hints.edges, width)
        && output_of(state, 3) % 8 == 0
}

/// The input at a position of this state, of which conditions leave these numbers. It may be poison.
fn poison_or_constant_of(tried: &Try<'_>, left: Span, width: u32, state: u64) -> Outcome
    requires width { width ≤ 128 }
    requires some { 0 < length tried.now.hints.now.edges.items }
    ensures { result ≡ numbered_input width (input_at poison_inputs width tried.now.hints.now.edges.items left tried.now.number state) }
{
    let is_poison = is_poison(tried, left, width, state);
    if is_poison {
        Outcome::Poison
    } else {
        constant_of(tried, left, width, state)
    }
}

/// The input at a position of this state, of which conditions leave these numbers.
pub(crate) fn input_of(tried: &Try<'_>, left: Span, width: u32, state: u64) -> Outcome
    requires width { width ≤ 128 }
    requires some { 0 < length tried.now.hints.now.edges.items }
    ensures { result ≡ numbered_input width (input_at (view_mode tried.now.mode) width tried.now.hints.now.edges.items left tried.now.number state) }
{
    match tried.mode {
        Mode::ValueInputs => constant_of(tried, left, width, state),
        Mode::PoisonInputs => poison_or_constant_of(tried, left, width, state),
    }
}
