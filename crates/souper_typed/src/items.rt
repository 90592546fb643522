//! What items of each type have for their widths to be written.

ghost use Rattle.std.specs.Prelude.{◌≡◌, length, IfOk};
ghost use Rattle.souper_widths.specs.View.{view_widths};
ghost use Rattle.souper_typed.specs.Written.{written_item};

use crate::form::Form;
use crate::operands::write_operand;
use crate::statements::write_statements;
use souper_graph::ast::{Item, LeftHandSide, Replacement, RightHandSide};
use souper_widths::Widths;
use std::alloc::AllocError;

/// An item whose widths can be written: a left-hand side, a right-hand side or a replacement.
pub trait TypedItem: Item {
    /// A copy with all statements. The error is out of memory.
    fn copied(&self) -> Result<Self, AllocError>
        ensures { IfOk result (λ copy. Self.view copy ≡ Self.view self.now) };

    /// Writes these widths, of which there is one of each kind for each statement.
    fn put_widths(&mut self, form: Form, widths: &Widths)
        requires results { length widths.now.results.items ≡ length (Self.view self.old).statements }
        requires operands { length widths.now.operands.items ≡ length (Self.view self.old).statements }
        ensures { Self.view self.new ≡ written_item form (view_widths widths.now) (Self.view self.old) };
}

impl TypedItem for LeftHandSide {
    fn copied(&self) -> Result<Self, AllocError> {
        self.clone()
    }

    fn put_widths(&mut self, form: Form, widths: &Widths) {
        write_statements(form, widths, &mut self.statements);
    }
}

impl TypedItem for RightHandSide {
    fn copied(&self) -> Result<Self, AllocError> {
        self.clone()
    }

    fn put_widths(&mut self, form: Form, widths: &Widths) {
        write_statements(form, widths, &mut self.statements);
        self.result = write_operand(form, widths.root, self.result);
    }
}

impl TypedItem for Replacement {
    fn copied(&self) -> Result<Self, AllocError> {
        self.clone()
    }

    fn put_widths(&mut self, form: Form, widths: &Widths) {
        match self {
            Replacement::LhsRhs {
                statements,
                rhs,
                ..
            } => {
                write_statements(form, widths, statements);
                *rhs = write_operand(form, widths.root, *rhs);
            }
            Replacement::Cand { statements, cand } => {
                write_statements(form, widths, statements);
                cand.lhs = write_operand(form, widths.root, cand.lhs);
                cand.rhs = write_operand(form, widths.root, cand.rhs);
            }
        }
    }
}
