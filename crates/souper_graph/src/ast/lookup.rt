//! Look-ups of assignments and blocks by id.

ghost use Rattle.std.specs.Prelude.{◌≡◌, Some, map, slice_get, option_copied};
ghost use Rattle.souper_graph.specs.declared.ast.statements.Statement.TheVariants.{Assignment as assignment_variant};
ghost use Rattle.souper_graph.specs.View.{view_statement};
ghost use Rattle.souper_graph.specs.WellFormed.{IsAssigned};
ghost use Rattle.souper_graph.specs.Building.{statements_of};
ghost use Rattle.souper_graph.specs.Lookup.{assignment_of, block_of, assignment_at, block_at};

use crate::ast::arenas::Arena;
use crate::ast::ids::{BlockId, ValueId};
use crate::ast::items::Replacement;
use crate::ast::statements::{Assignment, AssignmentRhs, Block, Statement};

impl Statement {
    /// The assignment that this is, or `None` for a path condition.
    pub fn as_assignment(&self) -> Option<&Assignment>
        ensures { option_copied result ≡ assignment_of self.now }
    {
        match self {
            Statement::Assignment(assignment) => Some(assignment),
            Statement::Pc(_) | Statement::BlockPc(_) => None,
        }
    }

    /// The block that this defines, or `None` for any other statement.
    pub fn as_block(&self) -> Option<&Block>
        ensures { option_copied result ≡ block_of self.now }
    {
        match &self.as_assignment()?.value {
            AssignmentRhs::Block(block) => Some(block),
            _ => None,
        }
    }
}

impl Arena<Statement> {
    /// The assignment that defines the value, or `None` if there is none at its position.
    pub fn assignment(&self, value: ValueId) -> Option<&Assignment>
        ensures { option_copied result ≡ assignment_at self.now value }
    {
        self.get(value.into())?.as_assignment()
    }

    /// The block with its number of predecessors, or `None` if there is none at its position.
    pub fn block(&self, block: BlockId) -> Option<&Block>
        ensures { option_copied result ≡ block_at self.now block }
    {
        self.get(block.into())?.as_block()
    }
}

// The assignment with the id, where the caller knows that it is there.
pub(super) fn known_assignment(statements: &Arena<Statement>, id: ValueId) -> &Assignment
    requires { IsAssigned (slice_get (map view_statement statements.now) id) }
    ensures { slice_get statements.now id ≡ Some (assignment_variant result.now) }
{
    match statements.get(id.into()) {
        Some(Statement::Assignment(assignment)) => assignment,
        _ => unreachable!(),
    }
}

impl Replacement {
    /// The assignment that defines the value.
    ///
    /// The id must name an assignment in this item's arena, which [`Arena::get`] shows.
    pub fn assignment(&self, id: ValueId) -> &Assignment
        requires { IsAssigned (slice_get (map view_statement (statements_of self.now)) id) }
        ensures { slice_get (statements_of self.now) id ≡ Some (assignment_variant result.now) }
    {
        match self {
            Replacement::LhsRhs { statements, .. } => known_assignment(statements, id),
            Replacement::Cand { statements, .. } => known_assignment(statements, id),
        }
    }
}
