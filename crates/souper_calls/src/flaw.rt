//! The flaw of an item whose code is given, in a form that C can read.

ghost use Rattle.std.specs.Prelude.{◌≡◌};
ghost use Rattle.souper_calls.specs.FlawAnswers.{number_of_location, position_of_location, number_of_reason, answer_of_flaw, answer_without, IsFlawAnswer};

use crate::outcome::{DONE, NO_CODE, NOT_WELL_FORMED, OUT_OF_MEMORY};
use souper_code::decode::{Decode, DecodeError};
use souper_code::flaw::first_flaw;
use souper_ir::ast::{Flaw, FlawLocation, FlawReason};
use std::alloc::Global;

/// Where an item is not well formed, and why. A number that is not named below for the status is 0.
#[repr(C)]
#[derive(Clone, Copy, Debug, PartialEq, Eq)]
pub struct SouperFlaw {
    /// 0 well formed; 2 no kind; 3 out of memory; 7 no code; 8 not well formed.
    pub status: u32,

    /// With status 8: 1 at a statement, 2 at the infer line, 3 at the result line, 4 at the cand line.
    pub location: u32,

    /// With status 8: 1 invalid name, 2 empty list of bits, 3 width of 0, 4 use before the definition, 5 no assignment, 6 no
    /// block, 7 number of values, 8 predecessor out of range, 9 duplicate name.
    pub reason: u32,

    /// With location 1 the position of the statement, from 0.
    pub position: usize,
}

fn location_number(location: FlawLocation) -> u32
    ensures { result ≡ number_of_location location }
{
    match location {
        FlawLocation::Statement(_) => 1,
        FlawLocation::Infer => 2,
        FlawLocation::Result => 3,
        FlawLocation::Cand => 4,
    }
}

// The position of the statement; 0 for a last line.
fn position(location: FlawLocation) -> usize
    ensures { result ≡ position_of_location location }
{
    match location {
        FlawLocation::Statement(id) => id.index(),
        _ => 0,
    }
}

fn reason_number(reason: FlawReason) -> u32
    ensures { result ≡ number_of_reason reason }
{
    match reason {
        FlawReason::InvalidName => 1,
        FlawReason::EmptyBits => 2,
        FlawReason::ZeroWidth => 3,
        FlawReason::UseBeforeDefinition => 4,
        FlawReason::NotAnAssignment => 5,
        FlawReason::NotABlock => 6,
        FlawReason::ValueCount => 7,
        FlawReason::PredecessorOutOfRange => 8,
        FlawReason::DuplicateName => 9,
    }
}

impl SouperFlaw {
    fn new(flaw: Flaw) -> SouperFlaw
        ensures { result ≡ answer_of_flaw flaw }
    {
        SouperFlaw {
            status: NOT_WELL_FORMED,
            location: location_number(flaw.location),
            reason: reason_number(flaw.reason),
            position: position(flaw.location),
        }
    }

    /// The answer with that status, and no flaw.
    pub(crate) fn without(status: u32) -> SouperFlaw
        ensures { result ≡ answer_without status }
    {
        SouperFlaw {
            status,
            location: 0,
            reason: 0,
            position: 0,
        }
    }
}

/// The flaw of the item whose code the bytes begin with.
pub(crate) fn flaw_of_code<T: Decode + Drop>(alloc: Global, code: &[u8]) -> SouperFlaw
    ensures { IsFlawAnswer T.item_type code.now result }
{
    match first_flaw::<T>(alloc, code) {
        Ok(Some(flaw)) => SouperFlaw::new(flaw),
        Ok(None) => SouperFlaw::without(DONE),
        Err(DecodeError::NoCode) => SouperFlaw::without(NO_CODE),
        Err(DecodeError::OutOfMemory) => SouperFlaw::without(OUT_OF_MEMORY),
    }
}
