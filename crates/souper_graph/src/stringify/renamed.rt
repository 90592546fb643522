//! Copies of items in which the needed statements are named by their printed order.

ghost use Rattle.std.specs.Prelude.{◌≡◌, map, IfOk, IfErr, OnOk};
ghost use Rattle.std.specs.String.{string_bytes};
ghost use Rattle.souper_graph.specs.View.{view_statement, view_left_hand_side, view_right_hand_side, view_replacement};
ghost use Rattle.souper_graph.specs.Order.{Distinct};
ghost use Rattle.souper_graph.specs.Faults.{IsFaultOf};
ghost use Rattle.souper_graph.specs.Renaming.{with_name, name_of_index, named_from, with_statements, IsRenamed};
ghost use Rattle.souper_graph.specs.PartsView.{view_parts};
ghost use Rattle.souper_graph.specs.declared.stringify.errors.TextError.TheVariants.{OutOfMemory};

use crate::ast::{Arena, Id, LeftHandSide, Parts, Replacement, RightHandSide, Statement};
use crate::stringify::errors::TextError;
use std::alloc::AllocError;

impl LeftHandSide {
    /// A copy in which the statements of the text are named `%0`, `%1`, and so on, by their index in its order.
    ///
    /// Path conditions have an index and no name. Statements keep their positions, those that are not needed their names
    /// too. Two well-formed items have the same text after this if and only if they are the same graph up to names.
    ///
    /// Fails like [`print_order`](Self::print_order).
    pub fn renamed(&self) -> Result<Self, TextError>
        ensures refused { IfErr result (λ error. IsFaultOf (view_left_hand_side self.now) error) }
        ensures named { IfOk result (λ copy. IsRenamed (view_left_hand_side self.now) (view_left_hand_side copy)) }
    {
        Ok(LeftHandSide {
            statements: self.parts().renamed_statements()?,
            infer: self.infer.clone()?,
        })
    }
}

impl RightHandSide {
    /// A copy with names by printed order, as [`LeftHandSide::renamed`] returns.
    ///
    /// Fails like [`print_order`](Self::print_order).
    pub fn renamed(&self) -> Result<Self, TextError>
        ensures refused { IfErr result (λ error. IsFaultOf (view_right_hand_side self.now) error) }
        ensures named { IfOk result (λ copy. IsRenamed (view_right_hand_side self.now) (view_right_hand_side copy)) }
    {
        Ok(RightHandSide {
            statements: self.parts().renamed_statements()?,
            result: self.result,
        })
    }
}

impl Replacement {
    /// A copy with names by printed order, as [`LeftHandSide::renamed`] returns.
    ///
    /// Fails like [`print_order`](Self::print_order).
    pub fn renamed(&self) -> Result<Self, TextError>
        ensures refused { IfErr result (λ error. IsFaultOf (view_replacement self.now) error) }
        ensures named { IfOk result (λ copy. IsRenamed (view_replacement self.now) (view_replacement copy)) }
    {
        let statements = self.parts().renamed_statements()?;
        Ok(match self {
            Replacement::LhsRhs { lhs, rhs, .. } => Replacement::LhsRhs {
                statements,
                lhs: lhs.clone()?,
                rhs: *rhs,
            },
            Replacement::Cand { cand, .. } => Replacement::Cand {
                statements,
                cand: cand.clone()?,
            },
        })
    }
}

impl Parts<'_> {
    // A copy of the statements, in which the needed statements are named by printed order.
    fn renamed_statements(&self) -> Result<Arena<Statement>, TextError>
        ensures refused { IfErr result (λ error. IsFaultOf (view_parts self.now) error) }
        ensures named { IfOk result (λ copy. IsRenamed (view_parts self.now) (with_statements (view_parts self.now) (map view_statement copy))) }
    {
        let order = self.print_order()?;
        named_statements(self.statements, &order.ids)
    }
}

// A copy of the statements. Each statement in the list has the name of its index there.
fn named_statements(
    statements: &Arena<Statement>,
    ids: &[Id<Statement>],
) -> Result<Arena<Statement>, TextError>
    ensures named { Distinct ids.now → IfOk result (λ copy. map view_statement copy ≡ named_from name_of_index ids.now 0 (map view_statement statements.now)) }
    ensures memory { IfErr result (λ error. error ≡ OutOfMemory) }
{
    let alloc = statements.allocator();
    let mut copy = statements.clone()?;
    for (index, id) in ids.iter().enumerate() {
        let name = format!(in alloc; "%{index}")?;
        if let Some(statement) = copy.get_mut(*id) {
            set_name(statement, name);
        }
    }
    Ok(copy)
}

// A path condition has no name.
fn set_name(statement: &mut Statement, name: String)
    ensures { view_statement statement.new ≡ with_name (string_bytes name) (view_statement statement.old) }
{
    if let Statement::Assignment(assignment) = statement {
        assignment.name = name;
    }
}

// Names each statement in the list by its index there, in place. The buffers of the names stay.
pub(crate) fn write_names(
    statements: &mut Arena<Statement>,
    ids: &[Id<Statement>],
) -> Result<(), TextError>
    ensures named { Distinct ids.now → OnOk result (map view_statement statements.new ≡ named_from name_of_index ids.now 0 (map view_statement statements.old)) }
    ensures memory { IfErr result (λ error. error ≡ OutOfMemory) }
{
    for (index, id) in ids.iter().enumerate() {
        if let Some(statement) = statements.get_mut(*id) {
            write_name(statement, index)?;
        }
    }
    Ok(())
}

// A path condition has no name.
fn write_name(statement: &mut Statement, index: usize) -> Result<(), AllocError>
    ensures { OnOk result (view_statement statement.new ≡ with_name (name_of_index index) (view_statement statement.old)) }
{
    if let Statement::Assignment(assignment) = statement {
        assignment.name.clear();
        write!(assignment.name, "%{index}")?;
    }
    Ok(())
}
