//! Attributes.

ghost use Rattle.std.specs.Prelude.{◌≡◌, ◌++◌, map, OnOk};
ghost use Rattle.souper_graph.specs.View.{view_attribute, view_root_attribute};
ghost use Rattle.souper_code.specs.Codes.{code_of_attribute, code_of_attributes, code_of_root_attribute, code_of_root_attributes};

use crate::encode::leaves::{encode_bits, encode_known_bits, encode_number, encode_size};
use souper_graph::ast::{Attribute, RootAttribute};
use std::alloc::AllocError;

fn encode_attribute(attribute: &Attribute, out: &mut Vec<u8>) -> Result<(), AllocError>
    ensures { OnOk result (out.new.items ≡ out.old.items ++ code_of_attribute (view_attribute attribute.now)) }
{
    match attribute {
        Attribute::KnownBits(bits) => {
            out.push(0)?;
            encode_known_bits(bits, out)
        }
        Attribute::PowerOfTwo => {
            out.push(1)?;
            Ok(())
        }
        Attribute::Negative => {
            out.push(2)?;
            Ok(())
        }
        Attribute::NonNegative => {
            out.push(3)?;
            Ok(())
        }
        Attribute::NonZero => {
            out.push(4)?;
            Ok(())
        }
        Attribute::HasExternalUses => {
            out.push(5)?;
            Ok(())
        }
        Attribute::SignBits(count) => {
            out.push(6)?;
            out.push(*count)?;
            Ok(())
        }
        Attribute::Range(low, high) => {
            out.push(7)?;
            encode_number(*low, out)?;
            encode_number(*high, out)
        }
    }
}

pub(crate) fn encode_attributes(
    attributes: &[Attribute],
    out: &mut Vec<u8>,
) -> Result<(), AllocError>
    ensures { OnOk result (out.new.items ≡ out.old.items ++ code_of_attributes (map view_attribute attributes.now)) }
{
    encode_size(attributes.len(), out)?;
    for attribute in attributes {
        encode_attribute(attribute, out)?;
    }
    Ok(())
}

fn encode_root_attribute(attribute: &RootAttribute, out: &mut Vec<u8>) -> Result<(), AllocError>
    ensures { OnOk result (out.new.items ≡ out.old.items ++ code_of_root_attribute (view_root_attribute attribute.now)) }
{
    match attribute {
        RootAttribute::DemandedBits(bits) => {
            out.push(0)?;
            encode_bits(bits, out)
        }
        RootAttribute::HarvestedFromUse => {
            out.push(1)?;
            Ok(())
        }
    }
}

pub(crate) fn encode_root_attributes(
    attributes: &[RootAttribute],
    out: &mut Vec<u8>,
) -> Result<(), AllocError>
    ensures { OnOk result (out.new.items ≡ out.old.items ++ code_of_root_attributes (map view_root_attribute attributes.now)) }
{
    encode_size(attributes.len(), out)?;
    for attribute in attributes {
        encode_root_attribute(attribute, out)?;
    }
    Ok(())
}
