//! The canonical text of a replacement, and of its left-hand side.

ghost use Rattle.std.specs.Prelude.{◌≡◌, ◌≤◌, ◌++◌, length, map, flat_map, take, option_map, is_some, IfOk, IfErr};
ghost use Rattle.std.specs.String.{string_bytes};
ghost use Rattle.souper_graph.specs.Values.{inferred, replaced};
ghost use Rattle.souper_graph.specs.View.{view_statement, view_infer, view_replacement};
ghost use Rattle.souper_graph.specs.Uses.{uses_at, roots_of, UsesBelow};
ghost use Rattle.souper_graph.specs.Text.{text_in_order};
ghost use Rattle.souper_graph.specs.ItemText.{IsItemText};
ghost use Rattle.souper_graph.specs.Syntax.Spelling.{replacement};
ghost use Rattle.souper_graph.specs.Faults.{IsFaultAmong, IsFaultOf};
ghost use Rattle.souper_graph.specs.LeftSides.{left_text};

use crate::ast::{Arena, Infer, Operand, Replacement, Statement};
use crate::stringify::context::DisplayWithContext;
use crate::stringify::errors::TextError;
use crate::stringify::lines::{append_lines, append_result};
use crate::stringify::order::Order;

impl Replacement {
    /// The canonical text, and the text of the left-hand side with which it begins, or `None` if the last line is a cand line.
    ///
    /// Each statement is printed once. Fails like [`to_text`](Self::to_text).
    pub fn to_texts(&self) -> Result<(String, Option<String>), TextError>
        ensures refused { IfErr result (λ error. IsFaultOf (view_replacement self.now) error) }
        ensures printed { IfOk result (λ texts. IsItemText replacement (view_replacement self.now) (string_bytes texts.0)) }
        ensures form { IfOk result (λ texts. is_some texts.1 ≡ is_some (left_text (view_replacement self.now))) }
        ensures left { UsesBelow (view_replacement self.now) → IfOk result (λ texts. option_map string_bytes texts.1 ≡ left_text (view_replacement self.now)) }
    {
        match self {
            Replacement::LhsRhs {
                statements,
                lhs,
                rhs,
            } => {
                let order = self.print_order()?;
                let (text, left) = lhs_rhs_texts(statements, lhs, rhs, &order)?;
                Ok((text, Some(left)))
            }
            Replacement::Cand { .. } => Ok((self.to_text()?, None)),
        }
    }
}

// The text of a left-hand side and the result that replaces it, and the text of the left-hand side alone.
fn lhs_rhs_texts(
    statements: &Arena<Statement>,
    lhs: &Infer,
    rhs: &Operand,
    order: &Order,
) -> Result<(String, String), TextError>
    requires { order.now.lead ≤ length order.now.ids.items }
    ensures whole { IfOk result (λ texts. string_bytes texts.0 ≡ text_in_order (map view_statement statements.now) (replaced (view_infer lhs.now) rhs.now) order.now.ids.items order.now.lead) }
    ensures left { IfOk result (λ texts. string_bytes texts.1 ≡ text_in_order (map view_statement statements.now) (inferred (view_infer lhs.now)) (take order.now.lead order.now.ids.items) order.now.lead) }
    ensures refused { IfErr result (λ error. IsFaultAmong (map view_statement statements.now) (roots_of (replaced (view_infer lhs.now) rhs.now) ++ flat_map (uses_at (map view_statement statements.now)) order.now.ids.items) error) }
{
    let (leading, following) = order.ids.split_at(order.lead);
    let mut left = String::new(statements.allocator());
    append_lines(statements, leading, &mut left)?;
    lhs.append(statements, &mut left)?;
    let mut text = left.clone()?;
    append_lines(statements, following, &mut text)?;
    append_result(statements, rhs, &mut text)?;
    text.push_str("\n")?;
    Ok((text, left))
}
