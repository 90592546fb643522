//! A pass over an item: the uses of a sum of two constants become that constant.
ghost use Rattle.std.specs.Prelude.{◌≡◌, ◌≤◌, ◌^◌, ◌≤ℤ◌, ◌<ℤ◌, pos, true, false, length, IfSome, IfNone};
ghost use Rattle.souper_graph.specs.declared.ast.operands.Constant.{Constant as ConstantNode};
ghost use Rattle.souper_graph.specs.View.{view_rhs};
ghost use Rattle.examples_using.specs.Folding.{wrapped, IsWrappedSum, IsSum, IsFolded, IsKept, FoldsUpTo};

use souper_ir::ast::{AssignmentRhs, Constant, Id, Instruction, Item, Operand, ValueId};

// The number modulo 2 to the width, from 0 on. An `i128` has the sum of two such numbers.
fn wrapped(value: i128, width: u16) -> i128
    requires { width ≤ 126 }
    ensures value { result ≡ wrapped width value }
    ensures low { pos 0 ≤ℤ result }
    ensures high { result <ℤ pos (2 ^ 126) }
{
    value.rem_euclid(2_i128.pow(u32::from(width)))
}

// The sum of constants of one type, which wraps around at the width. None without types, for two types, and for a width above 126.
fn wrapped_sum(a: Constant, b: Constant) -> Option<Constant>
    ensures some { IfSome result (IsWrappedSum a b) }
    ensures none { IfNone result ((c : ConstantNode) → IsWrappedSum a b c → ⊥) }
{
    let ty = a.ty?;
    if b.ty != Some(ty) || ty.width > 126 {
        return None;
    }
    let sum = wrapped(a.value, ty.width) + wrapped(b.value, ty.width);
    Some(Constant {
        value: wrapped(sum, ty.width),
        ty: Some(ty),
    })
}

// The sum, if this is an `add` of two constants.
fn sum(rhs: &AssignmentRhs) -> Option<Constant>
    ensures some { IfSome result (IsSum (view_rhs rhs.now)) }
    ensures none { IfNone result ((c : ConstantNode) → IsSum (view_rhs rhs.now) c → ⊥) }
{
    let AssignmentRhs::Instruction(
        Instruction::Add {
            a: Operand::Constant(a),
            b: Operand::Constant(b),
        },
    ) = rhs
    else {
        return None;
    };
    wrapped_sum(*a, *b)
}

/// Puts the sum in the place of each use of the value, if it is an `add` of two constants of one type; returns whether it is.
pub fn fold_add<T: Item>(item: &mut T, value: ValueId) -> bool
    ensures folded { result ≡ true → IsFolded value (T.view item.old) (T.view item.new) }
    ensures kept { result ≡ false → IsKept value (T.view item.old) (T.view item.new) }
{
    let Some(assignment) = item.statements().assignment(value) else {
        return false;
    };
    let Some(constant) = sum(&assignment.value) else {
        return false;
    };
    item.replace_uses(value, constant.into());
    true
}

/// Does so for each value of the item, in order.
pub fn fold_adds<T: Item>(item: &mut T)
    ensures { FoldsUpTo (length (T.view item.old).statements) (T.view item.old) (T.view item.new) }
{
    for index in 0..item.statements().len() {
        fold_add(item, ValueId::from(Id::at(index)));
    }
}

#[cfg(test)]
mod tests {
    use super::*;
    use crate::reading::read_one;
    use std::test::Fail;

    #[test]
    fn sums_become_constants(rt: HostRuntime) -> Result<(), Fail> {
        let source =
            "%x:i8 = var\n%1 = add 1:i8, 2:i8\n%2 = add %1, 3:i8\n%3 = mul %x, %2\ninfer %3";
        let mut item = read_one(rt.alloc(), source)?.ok_or("not one")?;
        fold_adds(&mut item);
        assert_eq!(rt;
            item.to_text()?.as_str(),
            "%x:i8 = var\n%3 = mul %x, 6:i8\ninfer %3\n"
        );
        Ok(())
    }

    #[test]
    fn sums_wrap_around(rt: HostRuntime) -> Result<(), Fail> {
        let source =
            "%x:i8 = var\n%1 = add 200:i8, 100:i8\n%2 = add -3:i8, 1:i8\n%3 = select %x, %1, %2\ninfer %3";
        let mut item = read_one(rt.alloc(), source)?.ok_or("not one")?;
        fold_adds(&mut item);
        assert_eq!(rt;
            item.to_text()?.as_str(),
            "%x:i8 = var\n%3 = select %x, 44:i8, 254:i8\ninfer %3\n"
        );
        Ok(())
    }

    #[test]
    fn other_sums_stay(rt: HostRuntime) -> Result<(), Fail> {
        let source = "%0 = add 1:i8, 2:i16\n%1 = add 255, 1\n%2 = mul %0, %1\ninfer %2\n";
        let mut item = read_one(rt.alloc(), source)?.ok_or("not one")?;
        fold_adds(&mut item);
        assert_eq!(rt; item.to_text()?.as_str(), source);
        Ok(())
    }
}
