//! The outcomes of operands and of instructions.

ghost use Rattle.std.specs.Prelude.{◌≡◌, ◌^◌, ◌≤◌, slice_get};
ghost use Rattle.std.specs.List.{AllByRecursion};
ghost use Rattle.souper_words.specs.Words.{AreWidths};
ghost use Rattle.souper_meaning.specs.Instructions.{first_width, second_width, operand_outcome, optional_outcome, word_outcome, instruction_outcome};
ghost use Rattle.souper_meaning.specs.Statements.{outcome_in, executed_outcome};
ghost use Rattle.souper_meaning.specs.Evaluable.{IsValueBelow, IsReady};

use crate::instructions::word_of;
use souper_graph::ast::{Id, Instruction, Operand, Statement};
use souper_words::{Outcome, Widths, Word, outcome_of, signed_bits};

/// The outcome at a position, of those that are known.
fn outcome_at(done: &[Outcome], position: usize) -> Outcome
    ensures { result ≡ outcome_in done.now position }
{
    match done.get(position) {
        Some(outcome) => *outcome,
        None => Outcome::Undefined,
    }
}

/// The outcome of an operand of this width.
pub(crate) fn operand_outcome_of(done: &[Outcome], width: u32, operand: Operand) -> Outcome
    requires low { 1 ≤ width }
    requires high { width ≤ 128 }
    ensures { result ≡ operand_outcome (outcome_in done.now) width operand }
{
    match operand {
        Operand::Value(id) => outcome_at(done, Id::<Statement>::from(id).index()),
        Operand::Constant(constant) => Outcome::Number(signed_bits(constant.value, width)),
    }
}

/// The operand at an index, if there is one.
pub(crate) fn operand_at(operands: &[Operand], index: usize) -> Option<Operand>
    ensures { result ≡ slice_get operands.now index }
{
    match operands.get(index) {
        Some(operand) => Some(*operand),
        None => None,
    }
}

/// The outcome of the operand at an index, of this width, or 0 if there is none.
fn optional_outcome_of(done: &[Outcome], width: u32, operands: &[Operand], index: usize) -> Outcome
    requires low { 1 ≤ width }
    requires high { width ≤ 128 }
    ensures { result ≡ optional_outcome (outcome_in done.now) width (slice_get operands.now index) }
{
    match operand_at(operands, index) {
        Some(operand) => operand_outcome_of(done, width, operand),
        None => Outcome::Number(0),
    }
}

/// The outcome of the operand that a phi executes: of the one at this index.
pub(crate) fn executed_outcome_of(
    done: &[Outcome],
    width: u32,
    operands: &[Operand],
    index: usize,
) -> Outcome
    requires low { 1 ≤ width }
    requires high { width ≤ 128 }
    ensures { result ≡ executed_outcome (outcome_in done.now) width (slice_get operands.now index) }
{
    match operand_at(operands, index) {
        Some(operand) => operand_outcome_of(done, width, operand),
        None => Outcome::Undefined,
    }
}

/// The width of a word's first operand, if operands have this width.
fn first_width_of(word: Word, width: u32) -> u32
    requires { 1 ≤ width }
    ensures value { result ≡ first_width word width }
    ensures low { 1 ≤ result }
    ensures high { result ≤ width }
{
    match word {
        Word::Select => 1,
        _ => width,
    }
}

/// The width of its second.
fn second_width_of(word: Word, width: u32) -> u32
    requires { 1 ≤ width }
    ensures value { result ≡ second_width word width }
    ensures low { 1 ≤ result }
    ensures high { result ≤ width }
{
    match word {
        Word::ExtractValue => 1,
        _ => width,
    }
}

/// The outcome of a word on operands. A freeze of poison gives the choice.
fn word_outcome_of(
    done: &[Outcome],
    widths: Widths,
    choice: u128,
    word: Word,
    operands: &[Operand],
) -> Outcome
    requires result_low { 1 ≤ widths.result }
    requires result_high { widths.result ≤ 128 }
    requires low { 1 ≤ widths.operands }
    requires high { widths.operands ≤ 128 }
    requires allowed { AreWidths word widths.result widths.operands }
    requires below { AllByRecursion (IsValueBelow (outcome_in done.now) (2 ^ widths.operands)) operands.now }
    ensures { result ≡ word_outcome word widths.result widths.operands choice (outcome_in done.now) operands.now }
{
    let width = widths.operands;
    let first = first_width_of(word, width);
    let second = second_width_of(word, width);
    let a = optional_outcome_of(done, first, operands, 0);
    let b = optional_outcome_of(done, second, operands, 1);
    let c = optional_outcome_of(done, width, operands, 2);
    outcome_of(word, widths, choice, a, b, c)
}

/// The outcome of an instruction. A freeze of poison gives the choice.
pub(crate) fn instruction_outcome_of(
    done: &[Outcome],
    widths: Widths,
    choice: u128,
    instruction: &Instruction,
) -> Outcome
    requires { IsReady widths.result widths.operands (outcome_in done.now) instruction.now }
    ensures { result ≡ instruction_outcome widths.result widths.operands choice (outcome_in done.now) instruction.now }
{
    let operands = instruction.operands();
    match word_of(instruction) {
        Some(word) => word_outcome_of(done, widths, choice, word, operands.as_slice()),
        None => Outcome::Undefined,
    }
}
