//! The first flaw of an item.

ghost use Rattle.std.specs.Prelude.{◌≡◌, ◌↔◌, map, IfOk, IfSome, IsNone, IsTrue, MatchOption};
ghost use Rattle.souper_graph.specs.View.{view_statement};
ghost use Rattle.souper_graph.specs.PartsView.{view_parts};
ghost use Rattle.souper_graph.specs.WellFormed.{WellFormed};
ghost use Rattle.souper_graph.specs.Judging.{AllStand};
ghost use Rattle.souper_graph.specs.Flaws.{IsFirstFlaw};
ghost use Rattle.souper_graph.specs.FlawSearch.{IsFlawAmong, LinesStand, IsFlawOfLines};

use crate::ast::arenas::Arena;
use crate::ast::flaws::{Flaw, FlawLocation, FlawReason};
use crate::ast::ids::Id;
use crate::ast::operands::Operand;
use crate::ast::parts::{Ending, Parts};
use crate::ast::statements::Statement;
use crate::ast::well_formed::apart::name_at;
use crate::ast::well_formed::reasons::{line_reason, statement_reason};
use std::alloc::AllocError;
use std::collections::BTreeSet;

// The first flaw of the statements at these positions, in this order.
fn flaw_among(
    statements: &Arena<Statement>,
    ids: &[Id<Statement>],
) -> Result<Option<Flaw>, AllocError>
    ensures { IfOk result (λ found. MatchOption found
        (AllStand (map view_statement statements.now) ids.now)
        (λ flaw. IsFlawAmong (map view_statement statements.now) ids.now flaw)) }
{
    let mut names = BTreeSet::new(statements.allocator());
    for id in ids {
        let location = FlawLocation::Statement(*id);
        if let Some(reason) = statement_reason(statements, *id) {
            return Ok(Some(Flaw { location, reason }));
        }
        if let Some(name) = name_at(statements, *id) {
            if !names.insert(name)? {
                let reason = FlawReason::DuplicateName;
                return Ok(Some(Flaw { location, reason }));
            }
        }
    }
    Ok(None)
}

impl Parts<'_> {
    // The first flaw of the last lines.
    fn line_flaw(&self) -> Option<Flaw>
        ensures { MatchOption result
            (LinesStand (view_parts self.now).statements (view_parts self.now).ending)
            (λ flaw. IsFlawOfLines (view_parts self.now).statements (view_parts self.now).ending flaw.location flaw.reason) }
    {
        let statements = self.statements;
        let (location, reason) = match self.ending {
            Ending::Infer(lhs) => (
                FlawLocation::Infer,
                line_reason(statements, &[Operand::Value(lhs.value)], &lhs.attributes)?,
            ),
            Ending::Result(rhs) => (FlawLocation::Result, line_reason(statements, &[*rhs], &[])?),
            Ending::Cand(cand) => (
                FlawLocation::Cand,
                line_reason(statements, &[cand.lhs, cand.rhs], &cand.attributes)?,
            ),
            Ending::Replaced(lhs, rhs) => {
                match line_reason(statements, &[Operand::Value(lhs.value)], &lhs.attributes) {
                    Some(reason) => (FlawLocation::Infer, reason),
                    None => (FlawLocation::Result, line_reason(statements, &[*rhs], &[])?),
                }
            }
        };
        Some(Flaw { location, reason })
    }

    pub(crate) fn flaw(&self) -> Result<Option<Flaw>, AllocError>
        ensures none { IfOk result (λ found. IsNone found ↔ WellFormed (view_parts self.now)) }
        ensures first { IfOk result (λ found. IfSome found (IsFirstFlaw (view_parts self.now))) }
    {
        let Ok(ids) = self.needed() else {
            return Err(AllocError);
        };
        match flaw_among(self.statements, &ids)? {
            Some(flaw) => Ok(Some(flaw)),
            None => Ok(self.line_flaw()),
        }
    }

    pub(crate) fn is_well_formed(&self) -> Result<bool, AllocError>
        ensures { IfOk result (λ answer. IsTrue answer ↔ WellFormed (view_parts self.now)) }
    {
        match self.flaw() {
            Ok(Some(_)) => Ok(false),
            Ok(None) => Ok(true),
            Err(error) => Err(error),
        }
    }
}
