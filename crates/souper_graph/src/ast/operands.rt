//! Operands: values of earlier statements, and constants.

ghost use Rattle.std.specs.Prelude.{◌≡◌, pos, None};
ghost use Rattle.souper_graph.specs.declared.ast.operands.Operand.TheVariants.{Constant as constant_variant, Value as value_variant};

use crate::ast::ids::ValueId;
use std::default::Default;

/// The type of a value: an integer of this width.
#[derive(Clone, Copy, Debug, PartialEq, Eq)]
pub struct Type {
    /// The width in bits. In a text it is at least 1.
    pub width: u16,
}

/// A number, with its type if that is written.
#[derive(Clone, Copy, Debug, PartialEq, Eq)]
pub struct Constant {
    /// The number.
    pub value: i128,

    /// The type that is written after it, if any.
    pub ty: Option<Type>,
}

/// What an operation works on.
#[derive(Clone, Copy, Debug, PartialEq, Eq)]
pub enum Operand {
    /// The value of an earlier assignment.
    Value(ValueId),

    /// A number.
    Constant(Constant),
}

/// The constant 0 without a type.
impl Default for Operand {
    ghost is_default = { λ operand. operand ≡ constant_variant (record { value = pos 0; ty = None }) };

    fn default() -> Self {
        Operand::Constant(Constant { value: 0, ty: None })
    }
}

impl From<Constant> for Operand {
    ghost from_gives = { λ constant operand. operand ≡ constant_variant constant };

    fn from(constant: Constant) -> Self {
        Operand::Constant(constant)
    }
}

impl From<ValueId> for Operand {
    ghost from_gives = { λ value operand. operand ≡ value_variant value };

    fn from(value: ValueId) -> Self {
        Operand::Value(value)
    }
}
