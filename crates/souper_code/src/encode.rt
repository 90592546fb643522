//! The code of items that are given.

mod attributes;
mod instructions;
mod leaves;
mod statements;

ghost use Rattle.std.specs.Prelude.{◌≡◌, ◌++◌, OnOk};
ghost use Rattle.souper_graph.specs.View.{view_infer, view_cand};
ghost use Rattle.souper_code.specs.Codes.{code_of_infer, code_of_cand, code_of};

use crate::encode::attributes::encode_root_attributes;
use crate::encode::leaves::{encode_operand, encode_size};
use crate::encode::statements::encode_statements;
use souper_graph::ast::{
    Cand, Id, Infer, Item, LeftHandSide, Replacement, RightHandSide, Statement,
};
use std::alloc::AllocError;

fn encode_infer(infer: &Infer, out: &mut Vec<u8>) -> Result<(), AllocError>
    ensures { OnOk result (out.new.items ≡ out.old.items ++ code_of_infer (view_infer infer.now)) }
{
    let value: Id<Statement> = infer.value.into();
    encode_size(value.index(), out)?;
    encode_root_attributes(&infer.attributes, out)
}

fn encode_cand(cand: &Cand, out: &mut Vec<u8>) -> Result<(), AllocError>
    ensures { OnOk result (out.new.items ≡ out.old.items ++ code_of_cand (view_cand cand.now)) }
{
    encode_operand(cand.lhs, out)?;
    encode_operand(cand.rhs, out)?;
    encode_root_attributes(&cand.attributes, out)
}

/// An item that has a code: a left-hand side, a right-hand side or a replacement.
pub trait Encode: Item {
    /// Appends the code of the item. The code of a list of items is the codes of its items, one after the other.
    ///
    /// The error is out of memory, and what `out` holds then is not specified.
    fn encode(&self, out: &mut Vec<u8>) -> Result<(), AllocError>
        ensures { OnOk result (out.new.items ≡ out.old.items ++ code_of (Self.view self.now)) };
}

impl Encode for LeftHandSide {
    fn encode(&self, out: &mut Vec<u8>) -> Result<(), AllocError> {
        encode_statements(&self.statements, out)?;
        out.push(0)?;
        encode_infer(&self.infer, out)
    }
}

impl Encode for RightHandSide {
    fn encode(&self, out: &mut Vec<u8>) -> Result<(), AllocError> {
        encode_statements(&self.statements, out)?;
        out.push(1)?;
        encode_operand(self.result, out)
    }
}

impl Encode for Replacement {
    fn encode(&self, out: &mut Vec<u8>) -> Result<(), AllocError> {
        match self {
            Replacement::LhsRhs {
                statements,
                lhs,
                rhs,
            } => {
                encode_statements(statements, out)?;
                out.push(2)?;
                encode_infer(lhs, out)?;
                encode_operand(*rhs, out)
            }
            Replacement::Cand { statements, cand } => {
                encode_statements(statements, out)?;
                out.push(3)?;
                encode_cand(cand, out)
            }
        }
    }
}
