//! Which bits of a root are wanted.

ghost use Rattle.std.specs.Prelude.{◌≡◌, ◌≤◌, map, length};
ghost use Rattle.std.specs.List.{AllByRecursion};
ghost use Rattle.souper_graph.specs.View.{view_root_attribute};
ghost use Rattle.souper_graph.specs.PartsView.{view_parts};
ghost use Rattle.souper_widths.specs.View.{view_widths};
ghost use Rattle.souper_widths.specs.Limits.{HasRootBitCount};
ghost use Rattle.souper_meaning.specs.Facts.{number_of_bits, wanted_bits};
ghost use Rattle.souper_meaning.specs.Trying.{root_attributes, HasFewBits, narrowed};
ghost use Rattle.souper_meaning.specs.Plans.{IsPlan};

use crate::facts::mask_of;
use crate::plans::Plan;
use souper_graph::ast::{Ending, Parts, RootAttribute};

/// The number that has the bits, the top bit first.
fn number_of_bools(bits: &[bool]) -> u128
    requires { length bits.now ≤ 128 }
    ensures { result ≡ number_of_bits bits.now }
{
    let mut number: u128 = 0;
    for bit in bits {
        number = number * 2 + u128::from(*bit);
    }
    number
}

/// The wanted bits that the attribute demands too.
fn narrowed_by(attribute: &RootAttribute, wanted: u128) -> u128
    requires { HasFewBits (view_root_attribute attribute.now) }
    ensures { result ≡ narrowed wanted (view_root_attribute attribute.now) }
{
    match attribute {
        RootAttribute::DemandedBits(bits) => wanted & number_of_bools(bits),
        RootAttribute::HarvestedFromUse => wanted,
    }
}

/// The bits of a root of this width that each of the attributes demands.
fn wanted_bits_of(attributes: &[RootAttribute], width: u32) -> u128
    requires low { 1 ≤ width }
    requires high { width ≤ 128 }
    requires bit_counts { AllByRecursion (HasRootBitCount width) (map view_root_attribute attributes.now) }
    ensures { result ≡ wanted_bits width (map view_root_attribute attributes.now) }
{
    let mut wanted = mask_of(width);
    for attribute in attributes {
        wanted = narrowed_by(attribute, wanted);
    }
    wanted
}

/// The bits that are wanted of the replaced root.
pub(crate) fn wanted_of(parts: &Parts<'_>, plan: &Plan) -> u128
    requires { IsPlan (view_parts parts.now) plan.now }
    ensures { result ≡ wanted_bits (view_widths plan.now.widths).root (root_attributes (view_parts parts.now).ending) }
{
    match parts.ending {
        Ending::Infer(infer) => wanted_bits_of(&infer.attributes, plan.widths.root),
        Ending::Result(_) => mask_of(plan.widths.root),
        Ending::Replaced(infer, _) => wanted_bits_of(&infer.attributes, plan.widths.root),
        Ending::Cand(cand) => wanted_bits_of(&cand.attributes, plan.widths.root),
    }
}
