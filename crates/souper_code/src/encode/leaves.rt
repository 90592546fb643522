//! Numbers, types, operands and lists of bits.

ghost use Rattle.std.specs.Prelude.{◌≡◌, ◌++◌, OnOk};
ghost use Rattle.souper_code.specs.Codes.{code_of_size, code_of_list, code_of_wide, code_of_number, code_of_type, code_of_operand, code_of_operands, code_of_bit, code_of_known_bit};

use souper_graph::ast::{Id, Operand, Statement, Type};
use std::alloc::AllocError;

/// Appends a count, a length or a position.
#[tactic(auto, unfolding(crate::specs::Codes::code_of_size))]
pub(crate) fn encode_size(size: usize, out: &mut Vec<u8>) -> Result<(), AllocError>
    ensures { OnOk result (out.new.items ≡ out.old.items ++ code_of_size size) }
{
    out.extend_from_slice(&size.to_le_bytes())
}

fn encode_wide(number: u128, out: &mut Vec<u8>) -> Result<(), AllocError>
    ensures { OnOk result (out.new.items ≡ out.old.items ++ code_of_wide number) }
{
    let low = (number % 0x1_0000_0000_0000_0000) as usize;
    let high = (number / 0x1_0000_0000_0000_0000) as usize;
    encode_size(low, out)?;
    encode_size(high, out)
}

pub(crate) fn encode_number(number: i128, out: &mut Vec<u8>) -> Result<(), AllocError>
    ensures { OnOk result (out.new.items ≡ out.old.items ++ code_of_number number) }
{
    encode_wide(number.cast_unsigned(), out)
}

#[tactic(auto, unfolding(crate::specs::Codes::code_of_u16))]
pub(crate) fn encode_type(ty: Option<Type>, out: &mut Vec<u8>) -> Result<(), AllocError>
    ensures { OnOk result (out.new.items ≡ out.old.items ++ code_of_type ty) }
{
    match ty {
        None => {
            out.push(0)?;
            Ok(())
        }
        Some(ty) => {
            out.push(1)?;
            out.extend_from_slice(&ty.width.to_le_bytes())
        }
    }
}

pub(crate) fn encode_operand(operand: Operand, out: &mut Vec<u8>) -> Result<(), AllocError>
    ensures { OnOk result (out.new.items ≡ out.old.items ++ code_of_operand operand) }
{
    match operand {
        Operand::Value(id) => {
            let id: Id<Statement> = id.into();
            out.push(0)?;
            encode_size(id.index(), out)
        }
        Operand::Constant(constant) => {
            out.push(1)?;
            encode_number(constant.value, out)?;
            encode_type(constant.ty, out)
        }
    }
}

/// Appends the number of operands, and the operands.
pub(crate) fn encode_operands(operands: &[Operand], out: &mut Vec<u8>) -> Result<(), AllocError>
    ensures { OnOk result (out.new.items ≡ out.old.items ++ code_of_operands operands.now) }
{
    encode_size(operands.len(), out)?;
    for operand in operands {
        encode_operand(*operand, out)?;
    }
    Ok(())
}

fn encode_bit(bit: bool, out: &mut Vec<u8>) -> Result<(), AllocError>
    ensures { OnOk result (out.new.items ≡ out.old.items ++ code_of_bit bit) }
{
    out.push(if bit { 1 } else { 0 })?;
    Ok(())
}

fn encode_known_bit(bit: Option<bool>, out: &mut Vec<u8>) -> Result<(), AllocError>
    ensures { OnOk result (out.new.items ≡ out.old.items ++ code_of_known_bit bit) }
{
    match bit {
        None => {
            out.push(2)?;
            Ok(())
        }
        Some(bit) => encode_bit(bit, out),
    }
}

pub(crate) fn encode_bits(bits: &[bool], out: &mut Vec<u8>) -> Result<(), AllocError>
    ensures { OnOk result (out.new.items ≡ out.old.items ++ code_of_list code_of_bit bits.now) }
{
    encode_size(bits.len(), out)?;
    for bit in bits {
        encode_bit(*bit, out)?;
    }
    Ok(())
}

pub(crate) fn encode_known_bits(bits: &[Option<bool>], out: &mut Vec<u8>) -> Result<(), AllocError>
    ensures { OnOk result (out.new.items ≡ out.old.items ++ code_of_list code_of_known_bit bits.now) }
{
    encode_size(bits.len(), out)?;
    for bit in bits {
        encode_known_bit(*bit, out)?;
    }
    Ok(())
}
