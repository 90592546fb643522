//! The text of nodes that name no other.

ghost use Rattle.std.specs.Prelude.{◌≡◌, ◌∷◌, [], map, Some};
ghost use Rattle.std.specs.Fmt.{WritesOnOk, WritesStyledOnOk};
ghost use Rattle.souper_graph.specs.Leaves.{text_of_type, text_of_constant, text_of_block, text_of_known_bit, text_of_bit, text_of_attribute, text_of_root_attribute};
ghost use Rattle.souper_graph.specs.View.{view_attribute, view_root_attribute};

use crate::ast::{Attribute, Block, Constant, RootAttribute, Type};
use crate::stringify::numbers::write_number;
use std::fmt;

// `x` for a bit that is not known.
fn known_bit_text(known: Option<bool>) -> &'static str
    ensures { result.now ≡ text_of_known_bit known ∷ [] }
{
    match known {
        None => "x",
        Some(false) => "0",
        Some(true) => "1",
    }
}

fn bit_text(set: bool) -> &'static str
    ensures { result.now ≡ text_of_bit set ∷ [] }
{
    if set { "1" } else { "0" }
}

#[tactic(auto, using(crate::proofs::Texts::Styled::styled_two))]
fn write_known_bits<W: fmt::Write>(bits: &[Option<bool>], f: &mut fmt::Formatter<W>) -> fmt::Result
    ensures writes { WritesOnOk W.write_str_gives f.old result (map text_of_known_bit bits.now) f.new }
    ensures styled { WritesStyledOnOk W.write_str_gives f.old result (map text_of_known_bit bits.now) f.new }
{
    for bit in bits {
        f.write_str(known_bit_text(*bit))?;
    }
    Ok(())
}

#[tactic(auto, using(crate::proofs::Texts::Styled::styled_two))]
fn write_bits<W: fmt::Write>(bits: &[bool], f: &mut fmt::Formatter<W>) -> fmt::Result
    ensures writes { WritesOnOk W.write_str_gives f.old result (map text_of_bit bits.now) f.new }
    ensures styled { WritesStyledOnOk W.write_str_gives f.old result (map text_of_bit bits.now) f.new }
{
    for bit in bits {
        f.write_str(bit_text(*bit))?;
    }
    Ok(())
}

/// Writes `i` and the width, as `i32`.
#[tactic(auto, using(crate::proofs::Texts::Styled::styled_two))]
impl fmt::Display for Type {
    ghost output = { λ ty. Some (text_of_type ty) };

    ghost styled_output = { λ ty _. Some (text_of_type ty) };

    fn fmt<W: fmt::Write>(&self, f: &mut fmt::Formatter<W>) -> fmt::Result {
        f.write_str("i")?;
        write_number(self.width, f)
    }
}

/// Writes the number, and its type if it has one, as `-1:i32`.
#[tactic(auto, using(crate::proofs::Texts::Styled::styled_three))]
impl fmt::Display for Constant {
    ghost output = { λ constant. Some (text_of_constant constant) };

    ghost styled_output = { λ constant _. Some (text_of_constant constant) };

    fn fmt<W: fmt::Write>(&self, f: &mut fmt::Formatter<W>) -> fmt::Result {
        match self.ty {
            None => write_number(self.value, f),
            Some(ty) => {
                write_number(self.value, f)?;
                f.write_str(":")?;
                ty.fmt(f)
            }
        }
    }
}

/// Writes the word and the number of predecessors, as `block 2`.
#[tactic(auto, using(crate::proofs::Texts::Styled::styled_two))]
impl fmt::Display for Block {
    ghost output = { λ block. Some (text_of_block block) };

    ghost styled_output = { λ block _. Some (text_of_block block) };

    fn fmt<W: fmt::Write>(&self, f: &mut fmt::Formatter<W>) -> fmt::Result {
        f.write_str("block ")?;
        write_number(self.predecessors, f)
    }
}

/// Writes the attribute in its parentheses, as `(signBits=2)`.
#[tactic(auto, using(crate::proofs::Texts::Styled::styled_three, crate::proofs::Texts::Styled::styled_five))]
impl fmt::Display for Attribute {
    ghost output = { λ attribute. Some (text_of_attribute (view_attribute attribute)) };

    ghost styled_output = { λ attribute _. Some (text_of_attribute (view_attribute attribute)) };

    fn fmt<W: fmt::Write>(&self, f: &mut fmt::Formatter<W>) -> fmt::Result {
        match self {
            Attribute::KnownBits(bits) => {
                f.write_str("(knownBits=")?;
                write_known_bits(bits, f)?;
                f.write_str(")")
            }
            Attribute::PowerOfTwo => f.write_str("(powerOfTwo)"),
            Attribute::Negative => f.write_str("(negative)"),
            Attribute::NonNegative => f.write_str("(nonNegative)"),
            Attribute::NonZero => f.write_str("(nonZero)"),
            Attribute::HasExternalUses => f.write_str("(hasExternalUses)"),
            Attribute::SignBits(count) => {
                f.write_str("(signBits=")?;
                write_number(*count, f)?;
                f.write_str(")")
            }
            Attribute::Range(low, high) => {
                f.write_str("(range=[")?;
                write_number(*low, f)?;
                f.write_str(",")?;
                write_number(*high, f)?;
                f.write_str("))")
            }
        }
    }
}

/// Writes the attribute in its parentheses, as `(demandedBits=01)`.
#[tactic(auto, using(crate::proofs::Texts::Styled::styled_three))]
impl fmt::Display for RootAttribute {
    ghost output = { λ attribute. Some (text_of_root_attribute (view_root_attribute attribute)) };

    ghost styled_output = { λ attribute _. Some (text_of_root_attribute (view_root_attribute attribute)) };

    fn fmt<W: fmt::Write>(&self, f: &mut fmt::Formatter<W>) -> fmt::Result {
        match self {
            RootAttribute::DemandedBits(bits) => {
                f.write_str("(demandedBits=")?;
                write_bits(bits, f)?;
                f.write_str(")")
            }
            RootAttribute::HarvestedFromUse => f.write_str("(harvestedFromUse)"),
        }
    }
}
