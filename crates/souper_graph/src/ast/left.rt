//! The left-hand side of a replacement, and a replacement by a result.

ghost use Rattle.std.specs.Prelude.{◌≡◌, map, IfOk, MatchOption, None};
ghost use Rattle.souper_graph.specs.declared.ast.operands.Operand.TheVariants.{Value};
ghost use Rattle.souper_graph.specs.View.{view_statement, view_cand, view_left_hand_side, view_replacement};
ghost use Rattle.souper_graph.specs.Values.{candidate};
ghost use Rattle.souper_graph.specs.LeftSides.{infer_of, by_result, IsLeftOf, IsByResultOf};

use crate::ast::arenas::Arena;
use crate::ast::ids::ValueId;
use crate::ast::items::{Cand, Infer, LeftHandSide, Replacement};
use crate::ast::operands::Operand;
use crate::ast::statements::Statement;
use std::alloc::AllocError;

impl Replacement {
    /// A copy of the left-hand side, or `None` if a constant is replaced. The error is out of memory.
    ///
    /// It has all statements of the replacement, also the statements that the result alone needs.
    pub fn left_hand_side(&self) -> Result<Option<LeftHandSide>, AllocError>
        ensures { IfOk result (λ found. MatchOption found (infer_of (view_replacement self.now).ending ≡ None) (λ left. IsLeftOf (view_left_hand_side left) (view_replacement self.now))) }
    {
        match self {
            Replacement::LhsRhs {
                statements,
                lhs,
                ..
            } => Ok(Some(LeftHandSide {
                statements: statements.clone()?,
                infer: lhs.clone()?,
            })),
            Replacement::Cand { statements, cand } => left_of_cand(statements, cand),
        }
    }

    /// The replacement with an infer line and a result line in place of a cand line, or `None` if a constant is replaced.
    ///
    /// A replacement that has these lines is returned as it is. The statements stay.
    pub fn by_result(self) -> Option<Replacement>
        ensures { MatchOption result (by_result (view_replacement self).ending ≡ None) (λ answer. IsByResultOf (view_replacement answer) (view_replacement self)) }
    {
        match self {
            Replacement::LhsRhs {
                statements,
                lhs,
                rhs,
            } => Some(Replacement::LhsRhs {
                statements,
                lhs,
                rhs,
            }),
            Replacement::Cand { statements, cand } => {
                let value = replaced_value(&cand)?;
                let lhs = Infer {
                    value,
                    attributes: cand.attributes,
                };
                Some(Replacement::LhsRhs {
                    statements,
                    lhs,
                    rhs: cand.rhs,
                })
            }
        }
    }
}

fn left_of_cand(
    statements: &Arena<Statement>,
    cand: &Cand,
) -> Result<Option<LeftHandSide>, AllocError>
    ensures { IfOk result (λ found. MatchOption found (infer_of (candidate (view_cand cand.now)) ≡ None)
        (λ left. IsLeftOf (view_left_hand_side left) (record { statements = map view_statement statements.now; ending = candidate (view_cand cand.now) }))) }
{
    match &cand.lhs {
        Operand::Value(value) => {
            let copy = cand.clone()?;
            Ok(Some(LeftHandSide {
                statements: statements.clone()?,
                infer: Infer {
                    value: *value,
                    attributes: copy.attributes,
                },
            }))
        }
        Operand::Constant(_) => Ok(None),
    }
}

// The value that is replaced, or `None` if it is a constant.
fn replaced_value(cand: &Cand) -> Option<ValueId>
    ensures { MatchOption result (by_result (candidate (view_cand cand.now)) ≡ None) (λ value. cand.now.lhs ≡ Value value) }
{
    match &cand.lhs {
        Operand::Value(value) => Some(*value),
        Operand::Constant(_) => None,
    }
}
