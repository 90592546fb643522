//! Changing an item that was read.
ghost use Rattle.std.specs.Prelude.{◌≡◌, IfOk, string_bytes};
ghost use Rattle.souper_graph.specs.Text.{text_of};
ghost use Rattle.souper_graph.specs.Uses.{UsesBelow};
ghost use Rattle.souper_graph.specs.View.{view_left_hand_side};
ghost use Rattle.examples_using.specs.Types.{typed_at, with_width};

use souper_ir::ast::{LeftHandSide, Statement, Type};
use souper_ir::stringify::TextError;

// Gives an assignment a type.
fn set_type(statement: &mut Statement, width: u16)
    ensures { statement.new ≡ with_width width statement.old }
{
    if let Statement::Assignment(assignment) = statement {
        assignment.ty = Some(Type { width });
    }
}

/// Writes a type after the name of the value that is to be replaced, and returns the new text.
pub fn typed(item: &mut LeftHandSide, width: u16) -> Result<String, TextError>
    ensures statements { item.new.statements ≡ typed_at width item.old.statements item.old.infer.value }
    ensures infer { item.new.infer ≡ item.old.infer }
    ensures text { UsesBelow (view_left_hand_side item.new) → IfOk result (λ text. string_bytes text ≡ text_of (view_left_hand_side item.new)) }
{
    let root = item.infer.value;
    if let Some(statement) = item.statements.get_mut(root.into()) {
        set_type(statement, width);
    }
    item.to_text()
}

#[cfg(test)]
mod tests {
    use super::*;
    use crate::reading::read_one;
    use std::test::Fail;

    #[test]
    fn root_gets_a_type(rt: HostRuntime) -> Result<(), Fail> {
        let source = "%x = var\n%y = add %x, 1\ninfer %y";
        let mut item = read_one(rt.alloc(), source)?.ok_or("not one")?;
        let text = typed(&mut item, 8)?;
        assert_eq!(rt; text.as_str(), "%x = var\n%y:i8 = add %x, 1\ninfer %y\n");
        Ok(())
    }
}
