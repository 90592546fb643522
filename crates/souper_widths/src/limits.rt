//! What the widths of an item must allow.

ghost use Rattle.std.specs.Prelude.{◌≡◌, ◌↔◌, ◌<◌, ◌≤◌, ◌^◌, ◌<ℤ◌, pos, negsuc, map, IsTrue, MatchOption};
ghost use Rattle.std.specs.List.{AllByRecursion};
ghost use Rattle.souper_graph.specs.Values.{assigned};
ghost use Rattle.souper_graph.specs.View.{view_attribute, view_root_attribute, view_rhs, view_assignment, view_statement};
ghost use Rattle.souper_widths.specs.Table.{rhs_row, operands_of_rhs};
ghost use Rattle.souper_widths.specs.Limits.{FitsWidth, bits_of, IsRange, OnInstruction, Widens, Narrows, HasBytePairs, HasBitCount, HasRootBitCount, HasSignBits, HasRange, FitsBits, limit_reasons};
ghost use Rattle.souper_widths.specs.Kept.{FitRow, KeptStatement, KeptLine};
ghost use Rattle.souper_widths.specs.Flaws.{IsFirstFailing};

use crate::flaws::WidthReason;
use crate::rows::{Row, rhs_row_of};
use souper_graph::ast::{
    Assignment, AssignmentRhs, Attribute, Instruction, Operand, RootAttribute, Statement,
};

// The result of zext and sext is wider than the operand.
pub(crate) fn widens(rhs: &AssignmentRhs, operand: u32, result_width: u32) -> bool
    ensures { IsTrue result ↔ OnInstruction (Widens operand result_width) (view_rhs rhs.now) }
{
    match rhs {
        AssignmentRhs::Instruction(instruction) => match instruction {
            Instruction::Zext { .. } | Instruction::Sext { .. } => operand < result_width,
            _ => true,
        },
        _ => true,
    }
}

// The result of trunc is narrower.
pub(crate) fn narrows(rhs: &AssignmentRhs, operand: u32, result_width: u32) -> bool
    ensures { IsTrue result ↔ OnInstruction (Narrows operand result_width) (view_rhs rhs.now) }
{
    match rhs {
        AssignmentRhs::Instruction(instruction) => match instruction {
            Instruction::Trunc { .. } => result_width < operand,
            _ => true,
        },
        _ => true,
    }
}

// The width of bswap is a multiple of 16.
pub(crate) fn has_byte_pairs(rhs: &AssignmentRhs, width: u32) -> bool
    ensures { IsTrue result ↔ OnInstruction (HasBytePairs width) (view_rhs rhs.now) }
{
    match rhs {
        AssignmentRhs::Instruction(instruction) => match instruction {
            Instruction::Bswap { .. } => width % 16 == 0,
            _ => true,
        },
        _ => true,
    }
}

fn has_bit_count(attribute: &Attribute, width: u32) -> bool
    ensures { IsTrue result ↔ HasBitCount width (view_attribute attribute.now) }
{
    match attribute {
        Attribute::KnownBits(bits) => bits.len() == width as usize,
        _ => true,
    }
}

fn has_root_bit_count(attribute: &RootAttribute, width: u32) -> bool
    ensures { IsTrue result ↔ HasRootBitCount width (view_root_attribute attribute.now) }
{
    match attribute {
        RootAttribute::DemandedBits(bits) => bits.len() == width as usize,
        RootAttribute::HarvestedFromUse => true,
    }
}

fn has_sign_bits(attribute: &Attribute, width: u32) -> bool
    ensures { IsTrue result ↔ HasSignBits width (view_attribute attribute.now) }
{
    match attribute {
        Attribute::SignBits(count) => u32::from(*count) <= width,
        _ => true,
    }
}

pub(crate) fn have_bit_counts(attributes: &[Attribute], width: u32) -> bool
    ensures { IsTrue result ↔ AllByRecursion (HasBitCount width) (map view_attribute attributes.now) }
{
    for attribute in attributes {
        if !has_bit_count(attribute, width) {
            return false;
        }
    }
    true
}

pub(crate) fn have_sign_bits(attributes: &[Attribute], width: u32) -> bool
    ensures { IsTrue result ↔ AllByRecursion (HasSignBits width) (map view_attribute attributes.now) }
{
    for attribute in attributes {
        if !has_sign_bits(attribute, width) {
            return false;
        }
    }
    true
}

fn have_root_bit_counts(attributes: &[RootAttribute], width: u32) -> bool
    ensures { IsTrue result ↔ AllByRecursion (HasRootBitCount width) (map view_root_attribute attributes.now) }
{
    for attribute in attributes {
        if !has_root_bit_count(attribute, width) {
            return false;
        }
    }
    true
}

// The number is below 2 to this power.
fn is_below_power(number: u128, power: u32) -> bool
    ensures { IsTrue result ↔ (number < 2 ^ power) }
{
    power >= 128 || number >> power == 0
}

// The number fits a width, as a signed or as an unsigned one.
pub(crate) fn fits_width(number: i128, width: u32) -> bool
    ensures { IsTrue result ↔ FitsWidth width number }
{
    if number >= 0 {
        is_below_power(number as u128, width)
    } else {
        is_below_power((-(number + 1)) as u128, width.saturating_sub(1))
    }
}

// How far a number is below -1.
fn below_minus_one(number: i128) -> u128
    requires { number <ℤ pos 0 }
    ensures { number ≡ negsuc result }
{
    (-(number + 1)) as u128
}

// The bits of a number that fits the width.
fn bits(number: i128, width: u32) -> u128
    requires narrow { width < 128 }
    requires fits { FitsWidth width number }
    ensures { result ≡ bits_of width number }
{
    if number >= 0 {
        number as u128
    } else {
        (1u128 << width) - 1 - below_minus_one(number)
    }
}

fn is_minus_one(number: i128) -> bool
    ensures { IsTrue result ↔ (number ≡ negsuc 0) }
{
    number == -1
}

// The same where the width has the bits of each number.
fn is_wide_range(low: i128, high: i128, width: u32) -> bool
    requires { 128 ≤ width }
    ensures { IsTrue result ↔ IsRange width (bits_of width low) (bits_of width high) }
{
    if low != high {
        return true;
    }
    if low == 0 {
        return true;
    }
    is_minus_one(low)
}

// Ends with the same bits say that no number is in the range, or every number.
fn is_range(low: i128, high: i128, width: u32) -> bool
    requires low { FitsWidth width low }
    requires high { FitsWidth width high }
    ensures { IsTrue result ↔ IsRange width (bits_of width low) (bits_of width high) }
{
    if width >= 128 {
        return is_wide_range(low, high, width);
    }
    let first = bits(low, width);
    first != bits(high, width) || first == 0 || first == (1u128 << width) - 1
}

fn has_range(attribute: &Attribute, width: u32) -> bool
    ensures { IsTrue result ↔ HasRange width (view_attribute attribute.now) }
{
    match attribute {
        Attribute::Range(low, high) => {
            fits_width(*low, width) && fits_width(*high, width) && is_range(*low, *high, width)
        }
        _ => true,
    }
}

pub(crate) fn have_ranges(attributes: &[Attribute], width: u32) -> bool
    ensures { IsTrue result ↔ AllByRecursion (HasRange width) (map view_attribute attributes.now) }
{
    for attribute in attributes {
        if !has_range(attribute, width) {
            return false;
        }
    }
    true
}

pub(crate) fn constant_fits(operand: Operand, width: u32) -> bool
    ensures { IsTrue result ↔ FitsBits width operand }
{
    match operand {
        Operand::Value(_) => true,
        Operand::Constant(constant) => fits_width(constant.value, width),
    }
}

pub(crate) fn constants_fit(operands: &[Operand], width: u32) -> bool
    ensures { IsTrue result ↔ AllByRecursion (FitsBits width) operands.now }
{
    for operand in operands {
        if !constant_fits(*operand, width) {
            return false;
        }
    }
    true
}

// The constants of a row fit: the condition of a select one bit. The index of a part has no width.
fn row_constants_fit(row: Row, operands: &[Operand], width: u32) -> bool
    ensures { IsTrue result ↔ FitRow width row operands.now }
{
    match row {
        Row::BadPart => true,
        Row::Number | Row::Overflow => match operands.split_first() {
            Some((pair, _)) => constant_fits(*pair, width),
            None => true,
        },
        Row::Select => match operands.split_first() {
            Some((condition, arms)) => constant_fits(*condition, 1) && constants_fit(arms, width),
            None => true,
        },
        _ => constants_fit(operands, width),
    }
}

fn rhs_constants_fit(rhs: &AssignmentRhs, width: u32) -> bool
    ensures { IsTrue result ↔ FitRow width (rhs_row (view_rhs rhs.now)) (operands_of_rhs (view_rhs rhs.now)) }
{
    let row = rhs_row_of(rhs);
    match rhs {
        AssignmentRhs::Phi(phi) => row_constants_fit(row, &phi.values, width),
        AssignmentRhs::Instruction(instruction) => {
            let operands = instruction.operands();
            row_constants_fit(row, operands.as_slice(), width)
        }
        AssignmentRhs::Var
        | AssignmentRhs::Block(_)
        | AssignmentRhs::ReservedInst
        | AssignmentRhs::ReservedConst => true,
    }
}

fn assignment_reason(
    assignment: &Assignment,
    result_width: u32,
    operand_width: u32,
) -> Option<WidthReason>
    ensures { MatchOption result
        (AllByRecursion (KeptStatement result_width operand_width (assigned (view_assignment assignment.now))) limit_reasons)
        (λ reason. IsFirstFailing (KeptStatement result_width operand_width (assigned (view_assignment assignment.now))) limit_reasons reason) }
{
    if !widens(&assignment.value, operand_width, result_width) {
        return Some(WidthReason::NotWider);
    }
    if !narrows(&assignment.value, operand_width, result_width) {
        return Some(WidthReason::NotNarrower);
    }
    if !has_byte_pairs(&assignment.value, result_width) {
        return Some(WidthReason::ByteSwap);
    }
    if !rhs_constants_fit(&assignment.value, operand_width) {
        return Some(WidthReason::ConstantTooWide);
    }
    if !have_bit_counts(&assignment.attributes, result_width) {
        return Some(WidthReason::BitCount);
    }
    if !have_sign_bits(&assignment.attributes, result_width) {
        return Some(WidthReason::SignBits);
    }
    if !have_ranges(&assignment.attributes, result_width) {
        return Some(WidthReason::Range);
    }
    None
}

// The first reason of a statement with a result and operands of these widths.
pub(crate) fn limit_reason(
    statement: &Statement,
    result_width: u32,
    operand_width: u32,
) -> Option<WidthReason>
    ensures { MatchOption result
        (AllByRecursion (KeptStatement result_width operand_width (view_statement statement.now)) limit_reasons)
        (λ reason. IsFirstFailing (KeptStatement result_width operand_width (view_statement statement.now)) limit_reasons reason) }
{
    let operands = match statement {
        Statement::Assignment(assignment) => {
            return assignment_reason(assignment, result_width, operand_width);
        }
        Statement::Pc(pc) => [pc.x, pc.y],
        Statement::BlockPc(pc) => [pc.x, pc.y],
    };
    if constants_fit(&operands, operand_width) {
        None
    } else {
        Some(WidthReason::ConstantTooWide)
    }
}

// The first reason of a last line with these operands and attributes.
pub(crate) fn line_reason(
    operands: &[Operand],
    attributes: &[RootAttribute],
    width: u32,
) -> Option<WidthReason>
    ensures { MatchOption result
        (AllByRecursion (KeptLine width operands.now (map view_root_attribute attributes.now)) limit_reasons)
        (λ reason. IsFirstFailing (KeptLine width operands.now (map view_root_attribute attributes.now)) limit_reasons reason) }
{
    if !constants_fit(operands, width) {
        return Some(WidthReason::ConstantTooWide);
    }
    if !have_root_bit_counts(attributes, width) {
        return Some(WidthReason::BitCount);
    }
    None
}
