//! Items by their parts, whatever their type.

ghost use Rattle.std.specs.Prelude.{◌≡◌};
ghost use Rattle.souper_graph.specs.View.{view_left_hand_side, view_right_hand_side, view_replacement};
ghost use Rattle.souper_graph.specs.PartsView.{view_parts, root_operands};

use crate::ast::arenas::Arena;
use crate::ast::items::{Cand, Infer, LeftHandSide, Replacement, RightHandSide};
use crate::ast::operands::Operand;
use crate::ast::statements::Statement;
use arrayvec::ArrayVec;

/// The last lines of an item.
#[derive(Clone, Copy)]
pub enum Ending<'a> {
    /// The infer line of a left-hand side.
    Infer(&'a Infer),

    /// The result line of a right-hand side.
    Result(&'a Operand),

    /// The infer line and the result line of a replacement.
    Replaced(&'a Infer, &'a Operand),

    /// The cand line of a replacement.
    Cand(&'a Cand),
}

/// The statements and the last lines of an item of any type.
#[derive(Clone, Copy)]
pub struct Parts<'a> {
    /// The statements, at the positions that ids name.
    pub statements: &'a Arena<Statement>,

    /// The last lines.
    pub ending: Ending<'a>,
}

impl Parts<'_> {
    /// The operands of the last lines, in the order of the text: one, or the left-hand side and then its replacement.
    pub fn roots(&self) -> ArrayVec<Operand, 2>
        ensures { result.items ≡ root_operands (view_parts self.now).ending }
    {
        let mut roots = ArrayVec::new();
        match self.ending {
            Ending::Infer(infer) => roots.push(Operand::Value(infer.value)),
            Ending::Result(result) => roots.push(*result),
            Ending::Replaced(infer, result) => {
                roots.push(Operand::Value(infer.value));
                roots.push(*result);
            }
            Ending::Cand(cand) => {
                roots.push(cand.lhs);
                roots.push(cand.rhs);
            }
        }
        roots
    }
}

impl LeftHandSide {
    /// The statements and the infer line.
    pub fn parts(&self) -> Parts<'_>
        ensures { view_parts result ≡ view_left_hand_side self.now }
    {
        Parts {
            statements: &self.statements,
            ending: Ending::Infer(&self.infer),
        }
    }
}

impl RightHandSide {
    /// The statements and the result line.
    pub fn parts(&self) -> Parts<'_>
        ensures { view_parts result ≡ view_right_hand_side self.now }
    {
        Parts {
            statements: &self.statements,
            ending: Ending::Result(&self.result),
        }
    }
}

impl Replacement {
    /// The statements and the last lines.
    pub fn parts(&self) -> Parts<'_>
        ensures { view_parts result ≡ view_replacement self.now }
    {
        match self {
            Replacement::LhsRhs {
                statements,
                lhs,
                rhs,
            } => Parts {
                statements,
                ending: Ending::Replaced(lhs, rhs),
            },
            Replacement::Cand { statements, cand } => Parts {
                statements,
                ending: Ending::Cand(cand),
            },
        }
    }
}
