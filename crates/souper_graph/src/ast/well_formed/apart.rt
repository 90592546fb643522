//! The names of assignments by position.

ghost use Rattle.std.specs.Prelude.{◌≡◌, map, option_copied};
ghost use Rattle.souper_graph.specs.View.{view_statement};
ghost use Rattle.souper_graph.specs.Judging.{assigned_name_at};

use crate::ast::arenas::Arena;
use crate::ast::ids::Id;
use crate::ast::statements::Statement;

#[tactic(auto, using(crate::proofs::Lookups::assigned_name_is))]
pub(crate) fn name_at(statements: &Arena<Statement>, id: Id<Statement>) -> Option<&str>
    ensures { option_copied result ≡ assigned_name_at (map view_statement statements.now) id }
{
    Some(statements.assignment(id.into())?.name.as_str())
}
