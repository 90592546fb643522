//! Walking the statements of an item.
ghost use Rattle.std.specs.Prelude.{◌≡◌, IfOk, map, option_copied};
ghost use Rattle.souper_graph.specs.Order.{printed_order};
ghost use Rattle.souper_graph.specs.Uses.{conditions, conditions_from, UsesBelow};
ghost use Rattle.souper_graph.specs.View.{view_statement, view_left_hand_side};
ghost use Rattle.examples_using.specs.Names.{name_of_value, names_at};

use souper_ir::ast::{Arena, AssignmentRhs, Id, Item, LeftHandSide, Operand, Statement, ValueId};
use souper_ir::stringify::TextError;
use std::alloc::{AllocError, Global};

/// The name of a value.
pub fn name_of(statements: &Arena<Statement>, value: ValueId) -> Option<&str>
    ensures { option_copied result ≡ name_of_value statements.now value }
{
    Some(statements.assignment(value)?.name.as_str())
}

/// A line for each instruction: the position of its statement, its word, and what its operands refer to.
/// That the lines are these is only tested.
pub fn instructions(alloc: Global, item: &LeftHandSide) -> Result<String, AllocError> {
    let mut lines = String::new(alloc);
    for (id, statement) in item.statements.iter() {
        let Statement::Assignment(assignment) = statement else {
            continue;
        };
        let AssignmentRhs::Instruction(instruction) = &assignment.value else {
            continue;
        };
        let (index, word) = (id.index(), instruction.instruction_name());
        write!(lines, "{index}: {word}")?;
        for operand in instruction.operands().as_slice() {
            match operand {
                Operand::Value(value) => {
                    let name = name_of(&item.statements, *value).unwrap_or("nothing");
                    write!(lines, " {name}")?;
                }
                Operand::Constant(constant) => write!(lines, " {constant}")?,
            }
        }
        lines.push('\n')?;
    }
    Ok(lines)
}

/// The path conditions of an item of any type, in order.
pub fn path_conditions<T: Item>(alloc: Global, item: &T) -> Result<Vec<Id<Statement>>, AllocError>
    ensures { IfOk result (λ ids. ids.items ≡ conditions (T.view item.now)) }
{
    conditions_among(alloc, item.statements())
}

#[tactic(auto, using(crate::proofs::Conditions::all_conditions), unfolding(crate::proofs::Conditions::conditions_among))]
fn conditions_among(
    alloc: Global,
    statements: &Arena<Statement>,
) -> Result<Vec<Id<Statement>>, AllocError>
    ensures { IfOk result (λ ids. ids.items ≡ conditions_from 0 (map view_statement statements.now)) }
{
    let mut ids = Vec::new(alloc);
    for (id, statement) in statements.iter() {
        match statement {
            Statement::Assignment(_) => {}
            Statement::Pc(_) => ids.push(id)?,
            Statement::BlockPc(_) => ids.push(id)?,
        }
    }
    Ok(ids)
}

/// The names of the values that are needed, in the order in which they are printed.
pub fn needed_names<'a>(alloc: Global, item: &'a LeftHandSide) -> Result<Vec<&'a str>, TextError>
    ensures { UsesBelow (view_left_hand_side item.now) → IfOk result (λ names. map (λ name. name.now) names.items ≡ names_at item.now.statements (printed_order (view_left_hand_side item.now))) }
{
    let order = item.print_order()?;
    let mut names = Vec::new(alloc);
    for id in &order.ids {
        if let Some(name) = name_of(&item.statements, ValueId::from(*id)) {
            names.push(name)?;
        }
    }
    Ok(names)
}

#[cfg(test)]
mod tests {
    use super::*;
    use crate::reading::read_one;
    use std::test::Fail;

    #[test]
    fn statements_are_walked(rt: HostRuntime) -> Result<(), Fail> {
        let source = "%x:i8 = var\n%b = var\n%y = mul %x, 2:i8\n%a = slt 0, %y\npc %a 1\ninfer %y";
        let item = read_one(rt.alloc(), source)?.ok_or("not one")?;
        let lines = instructions(rt.alloc(), &item)?;
        assert_eq!(rt; lines.as_str(), "2: mul %x 2:i8\n3: slt 0 %y\n");
        let conditions = path_conditions(rt.alloc(), &item)?;
        assert_eq!(rt; conditions.len(), 1);
        assert_eq!(rt; conditions[0].index(), 4);
        let names = needed_names(rt.alloc(), &item)?;
        assert_eq!(rt; names.as_slice(), ["%x", "%y", "%a"].as_slice());
        Ok(())
    }
}
