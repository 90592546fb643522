//! What left-hand sides, right-hand sides and replacements have in common.

ghost use Rattle.std.specs.Prelude.{◌≡◌, ◌↔◌, true, false, List, map, refl, IfOk, IfErr, IfSome, OnOk, OnErr, IsNone, IsTrue};
ghost use Rattle.std.specs.String.{string_bytes};
ghost use Rattle.souper_graph.specs.Values.{Item as PlainItem};
ghost use Rattle.souper_graph.specs.View.{view_statement, view_left_hand_side, view_right_hand_side, view_replacement};
ghost use Rattle.std.specs.Borrow.{sem};
ghost use Rattle.souper_graph.specs.declared.ast.statements.Statement.{Statement as StatementNode};
ghost use Rattle.souper_graph.specs.Lending.{LendsStatements};
ghost use Rattle.souper_graph.specs.PartsView.{view_parts, root_operands};
ghost use Rattle.souper_graph.specs.StatementsPut.{left_hand_side_of, right_hand_side_of, replacement_of, replacement_puts};
ghost use Rattle.souper_graph.specs.Faults.{IsFaultOf};
ghost use Rattle.souper_graph.specs.PrintOrder.{IsPrintOrder, IsEmptyOrder};
ghost use Rattle.souper_graph.specs.Text.{text_of};
ghost use Rattle.souper_graph.specs.ItemText.{IsItemText};
ghost use Rattle.souper_graph.specs.Shown.{AppendsItemText};
ghost use Rattle.souper_graph.specs.Renaming.{IsRenamed, with_statements};
ghost use Rattle.souper_graph.specs.Replacing.{with_uses_replaced};
ghost use Rattle.souper_graph.specs.WellFormed.{WellFormed};
ghost use Rattle.souper_graph.specs.Flaws.{IsFirstFlaw};
ghost use Rattle.souper_graph.specs.Endings.{replacement_ending};
ghost use Rattle.souper_graph.specs.Syntax.Spelling.{ItemType, left_hand_side, right_hand_side, replacement, IsEndingOf};

use crate::ast::arenas::Arena;
use crate::ast::flaws::Flaw;
use crate::ast::ids::ValueId;
use crate::ast::items::{LeftHandSide, Replacement, RightHandSide};
use crate::ast::operands::Operand;
use crate::ast::parts::Parts;
use crate::ast::statements::Statement;
use crate::stringify::{Order, TextError, write_names};
use arrayvec::ArrayVec;
use std::alloc::AllocError;

/// A left-hand side, a right-hand side or a replacement, for functions that take any of them.
///
/// `to_text`, `print_order`, `is_well_formed`, `renamed`, `replace_uses` and `parts` are the calls that the types themselves have. The
/// others need this trait in scope.
pub trait Item {
    ghost item_type: { ItemType };

    /// The item as plain data.
    ghost view: { Self → PlainItem };

    /// The item with other statements.
    ghost put_statements: { Self → List StatementNode → Self };

    /// The statements and the last lines.
    fn parts(&self) -> Parts<'_>
        ensures { view_parts result ≡ view self.now };

    /// The statements, at the positions that ids name.
    fn statements(&self) -> &Arena<Statement>
        ensures { map view_statement result.now ≡ (view self.now).statements }
    {
        self.parts().statements
    }

    /// The statements, for writing. The last lines stay.
    fn statements_mut(&mut self) -> &mut Arena<Statement>
        ensures* writes_back { sem 𝓛 (LendsStatements Self.row put_statements self.entry result) }
        ensures value { map view_statement result.now ≡ (view self.old).statements };

    /// Puts `by` in the place of each operand that is the value `of`, as [`Replacement::replace_uses`] does.
    fn replace_uses(&mut self, of: ValueId, by: Operand)
        ensures { view self.new ≡ with_uses_replaced of by (view self.old) };

    /// The operands of the last lines, in the order of the text: one, or the left-hand side and then its replacement.
    fn roots(&self) -> ArrayVec<Operand, 2>
        ensures { result.items ≡ root_operands (view self.now).ending }
    {
        self.parts().roots()
    }

    /// The statements that the text has, in its order, as [`LeftHandSide::print_order`] returns them.
    fn print_order(&self) -> Result<Order, TextError>
        ensures refused { IfErr result (λ error. IsFaultOf (view self.now) error) }
        ensures ordered { IfOk result (λ order. IsPrintOrder (view self.now) order.ids.items order.lead order.turns) }
    {
        self.parts().print_order()
    }

    /// The order that `print_order` returns, in the memory of an earlier one.
    ///
    /// Fails like `print_order`. After an error `order` is empty, and its memory is given back.
    fn print_order_into(&self, order: &mut Order) -> Result<(), TextError>
        ensures refused { IfErr result (λ error. IsFaultOf (view self.now) error) }
        ensures ordered { OnOk result (IsPrintOrder (view self.now) order.new.ids.items order.new.lead order.new.turns) }
        ensures emptied { OnErr result (IsEmptyOrder order.new.ids.items order.new.lead order.new.turns) }
    {
        self.parts().print_order_into(order)
    }

    /// Appends to `out` the canonical text that `to_text` returns.
    ///
    /// Fails like `to_text`, and then leaves `out` unchanged.
    fn append_text(&self, out: &mut String) -> Result<(), TextError>
        ensures refused { IfErr result (λ error. IsFaultOf (view self.now) error) }
        ensures appended { OnOk result (AppendsItemText item_type (view self.now) (string_bytes out.old) (string_bytes out.new)) }
        ensures kept { OnErr result (string_bytes out.new ≡ string_bytes out.old) }
    {
        self.parts().append_text(out)
    }

    /// The canonical text, as [`LeftHandSide::to_text`] returns it.
    fn to_text(&self) -> Result<String, TextError>
        ensures refused { IfErr result (λ error. IsFaultOf (view self.now) error) }
        ensures printed { IfOk result (λ text. IsItemText item_type (view self.now) (string_bytes text)) }
    {
        self.parts().to_text()
    }

    /// The canonical text of a well-formed item. Its only error is out of memory.
    fn well_formed_text(&self) -> Result<String, AllocError>
        requires { WellFormed (view self.now) }
        ensures { IfOk result (λ text. string_bytes text ≡ text_of (view self.now)) }
    {
        match self.to_text() {
            Ok(text) => Ok(text),
            Err(error) => match error {
                TextError::OutOfMemory => Err(AllocError),
                _ => unreachable!(),
            },
        }
    }

    /// A copy that is named by its printed order, as [`LeftHandSide::renamed`] returns it.
    fn renamed(&self) -> Result<Self, TextError>
        ensures refused { IfErr result (λ error. IsFaultOf (view self.now) error) }
        ensures named { IfOk result (λ copy. IsRenamed (view self.now) (view copy)) };

    /// Names the statements of the text as `renamed` names those of its copy. The buffers of the names stay.
    ///
    /// Fails like `print_order`. After an error some names may be others.
    fn rename(&mut self) -> Result<(), TextError>
        ensures refused { IfErr result (λ error. IsFaultOf (view self.old) error) }
        ensures named { OnOk result (IsRenamed (view self.old) (view self.new)) }
    {
        let order = self.print_order()?;
        write_names(self.statements_mut(), &order.ids)
    }

    /// Whether the item is well formed, by the conditions of [`Replacement::is_well_formed`].
    fn is_well_formed(&self) -> Result<bool, AllocError>
        ensures { IfOk result (λ answer. IsTrue answer ↔ WellFormed (view self.now)) }
    {
        self.parts().is_well_formed()
    }

    /// The first flaw, or `None` if the item [is well formed](Replacement::is_well_formed).
    ///
    /// The error is out of memory.
    fn flaw(&self) -> Result<Option<Flaw>, AllocError>
        ensures none { IfOk result (λ found. IsNone found ↔ WellFormed (view self.now)) }
        ensures first { IfOk result (λ found. IfSome found (IsFirstFlaw (view self.now))) }
    {
        self.parts().flaw()
    }

    /// Other statements leave the last lines as they are.
    ghost puts: { (item : Self) (ss : List StatementNode) → view (put_statements item ss) ≡ with_statements (view item) (map view_statement ss) };

    /// The item has the last lines of its type.
    ghost ends: { (item : Self) → IsEndingOf item_type (view item).ending };
}

impl Item for LeftHandSide {
    ghost item_type = { left_hand_side };

    ghost view = { view_left_hand_side };

    ghost put_statements = { left_hand_side_of };

    ghost puts = { λ item ss. refl };

    ghost ends = { λ item. refl };

    fn parts(&self) -> Parts<'_> {
        LeftHandSide::parts(self)
    }

    fn statements_mut(&mut self) -> &mut Arena<Statement> {
        &mut self.statements
    }

    fn replace_uses(&mut self, of: ValueId, by: Operand) {
        LeftHandSide::replace_uses(self, of, by)
    }

    fn renamed(&self) -> Result<Self, TextError> {
        LeftHandSide::renamed(self)
    }
}

impl Item for RightHandSide {
    ghost item_type = { right_hand_side };

    ghost view = { view_right_hand_side };

    ghost put_statements = { right_hand_side_of };

    ghost puts = { λ item ss. refl };

    ghost ends = { λ item. refl };

    fn parts(&self) -> Parts<'_> {
        RightHandSide::parts(self)
    }

    fn statements_mut(&mut self) -> &mut Arena<Statement> {
        &mut self.statements
    }

    fn replace_uses(&mut self, of: ValueId, by: Operand) {
        RightHandSide::replace_uses(self, of, by)
    }

    fn renamed(&self) -> Result<Self, TextError> {
        RightHandSide::renamed(self)
    }
}

impl Item for Replacement {
    ghost item_type = { replacement };

    ghost view = { view_replacement };

    ghost put_statements = { replacement_of };

    ghost puts = { replacement_puts };

    ghost ends = { replacement_ending };

    fn parts(&self) -> Parts<'_> {
        Replacement::parts(self)
    }

    fn statements_mut(&mut self) -> &mut Arena<Statement> {
        match self {
            Replacement::LhsRhs { statements, .. } => statements,
            Replacement::Cand { statements, .. } => statements,
        }
    }

    fn replace_uses(&mut self, of: ValueId, by: Operand) {
        Replacement::replace_uses(self, of, by)
    }

    fn renamed(&self) -> Result<Self, TextError> {
        Replacement::renamed(self)
    }
}
