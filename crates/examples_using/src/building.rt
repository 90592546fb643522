//! Building an item.
ghost use Rattle.std.specs.Prelude.{◌≡◌, IfOk};
ghost use Rattle.souper_graph.specs.View.{view_replacement};
ghost use Rattle.examples_using.specs.Doubling.{untyped, doubling};

use souper_ir::ast::{
    AssignmentRhs, Constant, Instruction, Operand, Replacement, ReplacementBuilder, Type,
};
use std::alloc::{AllocError, Global};

// A number without a type.
fn number(value: i128) -> Operand
    ensures { result ≡ untyped value }
{
    Constant { value, ty: None }.into()
}

/// The replacement of twice a value by a shift of it.
pub fn doubled(alloc: Global) -> Result<Replacement, AllocError>
    ensures { IfOk result (λ item. view_replacement item ≡ doubling) }
{
    let mut builder = ReplacementBuilder::new(alloc);
    let name = String::from_str(alloc, "%x")?;
    let ty = Some(Type { width: 32 });
    let x = builder.assignment(Some(name), ty, AssignmentRhs::Var, Vec::new(alloc))?;
    let product = Instruction::Mul {
        a: x.into(),
        b: number(2),
    };
    let twice = builder.assignment(None, None, product.into(), Vec::new(alloc))?;
    let shift = Instruction::Shl {
        a: x.into(),
        b: number(1),
    };
    let shifted = builder.assignment(None, None, shift.into(), Vec::new(alloc))?;
    Ok(builder.finish(twice, shifted.into(), Vec::new(alloc)))
}

#[cfg(test)]
mod tests {
    use super::*;
    use std::test::Fail;

    #[test]
    fn replacement_is_built(rt: HostRuntime) -> Result<(), Fail> {
        let item = doubled(rt.alloc())?;
        assert!(rt; item.is_well_formed()?);
        let want = "%x:i32 = var\n%1 = mul %x, 2\ninfer %1\n%2 = shl %x, 1\nresult %2\n";
        assert_eq!(rt; item.to_text()?.as_str(), want);
        Ok(())
    }
}
