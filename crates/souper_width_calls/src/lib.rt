//! The widths of an item whose code is given, or its first flaw, in a form that C can read.
//!
//! `souper_calls` has the call for each kind.
#![tactic(auto)]

ghost use Rattle.std.specs.Prelude.{◌≡◌, ◌<◌, ◌≤◌, true, false, length, IfOk, OnErr};
ghost use Rattle.souper_widths.specs.View.{view_widths};
ghost use Rattle.souper_width_calls.specs.Answers.{FillsStart, number_of_location, position_of_location, number_of_reason, number_of_width_reason, left_of, right_of, widths_without, ill_formed_widths, flawed_widths, WritesWidths, AnswersItem, IsWidthsAnswer};

use souper_code::decode::{Decode, DecodeError, Reader};
use souper_graph::ast::{Flaw, FlawLocation, FlawReason, Item};
use souper_widths::{WidthFlaw, WidthReason, Widths, WidthsError, widths};
use std::alloc::{AllocError, Global};

// The statuses, as all calls from C have them.
const DONE: u32 = 0;

const OUT_OF_MEMORY: u32 = 3;

const SHORT: u32 = 5;

const NO_CODE: u32 = 7;

const NOT_WELL_FORMED: u32 = 8;

/// The item has no widths.
const NO_WIDTHS: u32 = 10;

/// The widths of an item, or its first flaw. A number that is not named below for the status is 0.
#[repr(C)]
#[derive(Clone, Copy, Debug, PartialEq, Eq)]
pub struct SouperWidths {
    /// 0 done; 2 no kind; 3 out of memory; 5 short buffer; 7 no code; 8 not well formed; 10 no widths.
    pub status: u32,

    /// With status 8 or 10: 1 at a statement, 2 at the infer line, 3 at the result line, 4 at the cand line.
    pub location: u32,

    /// With status 8 as in `SouperFlaw`. With status 10: 1 a block with a type, 2 a fact on no input, 3 a block as a
    /// value, 4 a pair as a value, 5 no pair, 6 a bad index, 7 two widths that clash, 8 a width is missing, 9 not wider, 10 not narrower, 11
    /// not a multiple of 16 bits, 12 a constant too wide, 13 number of bits, 14 sign bits, 15 a bad range.
    pub reason: u32,

    /// With reason 7 of status 10 one of the widths that clash.
    pub left: u32,

    /// With reason 7 of status 10 the other.
    pub right: u32,

    /// With status 0 or 5 the width of the operands of the last lines.
    pub root: u32,

    /// With location 1 the position of the statement, from 0.
    pub position: usize,

    /// With status 0 the number of widths that were written, with status 5 of those that a buffer must have room for: twice the number of
    /// statements.
    pub length: usize,
}

fn location_number(location: FlawLocation) -> u32
    ensures { result ≡ number_of_location location }
{
    match location {
        FlawLocation::Statement(_) => 1,
        FlawLocation::Infer => 2,
        FlawLocation::Result => 3,
        FlawLocation::Cand => 4,
    }
}

// The position of the statement; 0 for a last line.
fn position(location: FlawLocation) -> usize
    ensures { result ≡ position_of_location location }
{
    match location {
        FlawLocation::Statement(id) => id.index(),
        _ => 0,
    }
}

fn reason_number(reason: FlawReason) -> u32
    ensures { result ≡ number_of_reason reason }
{
    match reason {
        FlawReason::InvalidName => 1,
        FlawReason::EmptyBits => 2,
        FlawReason::ZeroWidth => 3,
        FlawReason::UseBeforeDefinition => 4,
        FlawReason::NotAnAssignment => 5,
        FlawReason::NotABlock => 6,
        FlawReason::ValueCount => 7,
        FlawReason::PredecessorOutOfRange => 8,
        FlawReason::DuplicateName => 9,
    }
}

fn width_reason_number(reason: WidthReason) -> u32
    ensures { result ≡ number_of_width_reason reason }
{
    match reason {
        WidthReason::TypedBlock => 1,
        WidthReason::FactOnComputed => 2,
        WidthReason::BlockAsValue => 3,
        WidthReason::PairAsValue => 4,
        WidthReason::NotAPair => 5,
        WidthReason::BadIndex => 6,
        WidthReason::Conflict { .. } => 7,
        WidthReason::Undetermined => 8,
        WidthReason::NotWider => 9,
        WidthReason::NotNarrower => 10,
        WidthReason::ByteSwap => 11,
        WidthReason::ConstantTooWide => 12,
        WidthReason::BitCount => 13,
        WidthReason::SignBits => 14,
        WidthReason::Range => 15,
    }
}

// The widths that clash.
fn sides(reason: WidthReason) -> (u32, u32)
    ensures left { result.0 ≡ left_of reason }
    ensures right { result.1 ≡ right_of reason }
{
    match reason {
        WidthReason::Conflict { left, right } => (left, right),
        _ => (0, 0),
    }
}

impl SouperWidths {
    /// The answer with that status, and no more.
    pub fn without(status: u32) -> SouperWidths
        ensures { result ≡ widths_without status }
    {
        SouperWidths {
            status,
            location: 0,
            reason: 0,
            left: 0,
            right: 0,
            root: 0,
            position: 0,
            length: 0,
        }
    }

    // Of an item that is not well formed.
    fn ill_formed(flaw: Flaw) -> SouperWidths
        ensures { result ≡ ill_formed_widths flaw }
    {
        SouperWidths {
            location: location_number(flaw.location),
            reason: reason_number(flaw.reason),
            position: position(flaw.location),
            ..SouperWidths::without(NOT_WELL_FORMED)
        }
    }

    // Of an item without widths.
    fn flawed(flaw: WidthFlaw) -> SouperWidths
        ensures { result ≡ flawed_widths flaw }
    {
        let (left, right) = sides(flaw.reason);
        SouperWidths {
            location: location_number(flaw.location),
            reason: width_reason_number(flaw.reason),
            left,
            right,
            position: position(flaw.location),
            ..SouperWidths::without(NO_WIDTHS)
        }
    }
}

// Writes the numbers to the beginning of the buffer, and returns whether it has the room.
fn fill(numbers: &[u32], out: &mut [u32]) -> bool
    ensures written { length numbers.now ≤ length out.old → (result ≡ true) × FillsStart out.old out.new numbers.now }
    ensures short { length out.old < length numbers.now → (result ≡ false) × (out.new ≡ out.old) }
{
    let length = numbers.len();
    if out.len() < length {
        return false;
    }
    out[..length].copy_from_slice(numbers);
    true
}

// Writes the widths of the results and then those of the operands. The error is out of memory; then the buffer is as it was.
fn write_widths(found: Widths, out: &mut [u32]) -> Result<SouperWidths, AllocError>
    ensures written { IfOk result (λ r. WritesWidths (view_widths found) out.old r out.new) }
    ensures kept { OnErr result (out.new ≡ out.old) }
{
    let Widths {
        results,
        operands,
        root,
    } = found;
    let mut numbers = results;
    numbers.extend_from_slice(&operands)?;
    let status = if fill(&numbers, out) { DONE } else { SHORT };
    Ok(SouperWidths {
        root,
        length: numbers.len(),
        ..SouperWidths::without(status)
    })
}

// What is said of the item, and its widths, if it has them.
fn answer<T: Item>(item: &T, out: &mut [u32]) -> SouperWidths
    ensures { AnswersItem (T.view item.now) out.old result out.new }
{
    match widths(item) {
        Ok(found) => match write_widths(found, out) {
            Ok(answer) => answer,
            Err(_) => SouperWidths::without(OUT_OF_MEMORY),
        },
        Err(WidthsError::NotWellFormed(flaw)) => SouperWidths::ill_formed(flaw),
        Err(WidthsError::Flawed(flaw)) => SouperWidths::flawed(flaw),
        Err(WidthsError::OutOfMemory) => SouperWidths::without(OUT_OF_MEMORY),
    }
}

/// The widths of the item whose code the bytes begin with, or its flaw.
///
/// - 0: done. The widths of the statements' results and then those of their operands were written to the beginning of `out`.
/// - 5: `out` has room for fewer.
/// - 8, 10: the item is not well formed, or has no widths, and the first flaw is told.
/// - 7: the bytes begin with the code of no item of the type.
/// - 3: out of memory.
///
/// The other elements of `out` stay; with another status than 0 all of them.
pub fn widths_of_code<T: Decode + Drop>(alloc: Global, code: &[u8], out: &mut [u32]) -> SouperWidths
    ensures { IsWidthsAnswer T.item_type code.now out.old result out.new }
{
    let mut reader = Reader::new(code);
    match T::decode(&mut reader, alloc) {
        Ok(item) => answer(&item, out),
        Err(DecodeError::NoCode) => SouperWidths::without(NO_CODE),
        Err(DecodeError::OutOfMemory) => SouperWidths::without(OUT_OF_MEMORY),
    }
}
