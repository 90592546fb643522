//! The checks of single nodes: widths, bit lists and names.

ghost use Rattle.std.specs.Prelude.{◌≡◌, ◌↔◌, map, true, IsTrue};
ghost use Rattle.std.specs.List.{AllByRecursion};
ghost use Rattle.souper_graph.specs.Names.{is_name_char, IsName};
ghost use Rattle.souper_graph.specs.Operands.{operands_seen};
ghost use Rattle.souper_graph.specs.View.{view_attribute, view_root_attribute, view_rhs};
ghost use Rattle.souper_graph.specs.WellFormed.{FitsOptionalType, FitsOperand, FitsAttribute, FitsRootAttribute, FitsRhs};

use crate::ast::attributes::{Attribute, RootAttribute};
use crate::ast::instructions::Operands;
use crate::ast::operands::{Operand, Type};
use crate::ast::statements::AssignmentRhs;

pub(crate) fn optional_type_fits(ty: Option<Type>) -> bool
    ensures { IsTrue result ↔ FitsOptionalType ty }
{
    match ty {
        Some(ty) => ty.width > 0,
        None => true,
    }
}

pub(crate) fn operand_fits(operand: Operand) -> bool
    ensures { IsTrue result ↔ FitsOperand operand }
{
    match operand {
        Operand::Value(_) => true,
        Operand::Constant(constant) => optional_type_fits(constant.ty),
    }
}

pub(crate) fn operands_fit(operands: &[Operand]) -> bool
    ensures { IsTrue result ↔ AllByRecursion FitsOperand operands.now }
{
    for operand in operands {
        if !operand_fits(*operand) {
            return false;
        }
    }
    true
}

// As `operands_fit`, of the operands of an instruction in place.
fn few_operands_fit(operands: Operands<'_>) -> bool
    ensures { IsTrue result ↔ AllByRecursion FitsOperand (operands_seen operands.entry) }
{
    match operands {
        Operands::Zero => true,
        Operands::One(a) => operand_fits(*a),
        Operands::Two(a, b) => operand_fits(*a) && operand_fits(*b),
        Operands::Three(a, b, c) => operand_fits(*a) && operand_fits(*b) && operand_fits(*c),
    }
}

fn attribute_fits(attribute: &Attribute) -> bool
    ensures { IsTrue result ↔ FitsAttribute (view_attribute attribute.now) }
{
    match attribute {
        Attribute::KnownBits(bits) => !bits.is_empty(),
        Attribute::PowerOfTwo
        | Attribute::Negative
        | Attribute::NonNegative
        | Attribute::NonZero
        | Attribute::HasExternalUses => true,

        // Any number of its type is valid. The read shows the proof that it is one.
        Attribute::SignBits(count) => {
            let _count = *count;
            true
        }
        Attribute::Range(low, high) => {
            let (_low, _high) = (*low, *high);
            true
        }
    }
}

pub(crate) fn attributes_fit(attributes: &[Attribute]) -> bool
    ensures { IsTrue result ↔ AllByRecursion FitsAttribute (map view_attribute attributes.now) }
{
    for attribute in attributes {
        if !attribute_fits(attribute) {
            return false;
        }
    }
    true
}

fn root_attribute_fits(attribute: &RootAttribute) -> bool
    ensures { IsTrue result ↔ FitsRootAttribute (view_root_attribute attribute.now) }
{
    match attribute {
        RootAttribute::DemandedBits(bits) => !bits.is_empty(),
        RootAttribute::HarvestedFromUse => true,
    }
}

pub(crate) fn root_attributes_fit(attributes: &[RootAttribute]) -> bool
    ensures { IsTrue result
        ↔ AllByRecursion FitsRootAttribute (map view_root_attribute attributes.now) }
{
    for attribute in attributes {
        if !root_attribute_fits(attribute) {
            return false;
        }
    }
    true
}

pub(crate) fn rhs_fits(value: &AssignmentRhs) -> bool
    ensures { IsTrue result ↔ FitsRhs (view_rhs value.now) }
{
    match value {
        AssignmentRhs::Phi(phi) => operands_fit(phi.values.as_slice()),
        AssignmentRhs::Instruction(instruction) => {
            few_operands_fit(instruction.operands_in_place())
        }
        // Any count of its type is valid. The read shows the proof that it is one.
        AssignmentRhs::Block(block) => {
            let _predecessors = block.predecessors;
            true
        }
        AssignmentRhs::Var | AssignmentRhs::ReservedInst | AssignmentRhs::ReservedConst => true,
    }
}

fn is_name_byte(byte: u8) -> bool
    ensures { result ≡ is_name_char byte }
{
    byte.is_ascii_alphanumeric() || byte == b'_' || byte == b'.'
}

fn are_name_bytes(bytes: &[u8]) -> bool
    ensures { IsTrue result ↔ AllByRecursion (λ byte. is_name_char byte ≡ true) bytes.now }
{
    for byte in bytes {
        if !is_name_byte(*byte) {
            return false;
        }
    }
    true
}

pub(crate) fn is_name(name: &str) -> bool
    ensures { IsTrue result ↔ IsName name.now }
{
    match name.as_bytes().split_first() {
        Some((first, rest)) => *first == b'%' && !rest.is_empty() && are_name_bytes(rest),
        None => false,
    }
}
