//! Statements and items with other operands in place of theirs.

ghost use Rattle.std.specs.Prelude.{◌≡◌, map};
ghost use Rattle.souper_graph.specs.declared.ast.operands.Operand.{Operand as OperandNode};
ghost use Rattle.souper_graph.specs.declared.ast.operands.Operand.TheVariants.{Value as OperandValue};
ghost use Rattle.souper_graph.specs.Instructions.{instruction_map};
ghost use Rattle.souper_graph.specs.View.{view_rhs, view_statement, view_left_hand_side, view_right_hand_side, view_replacement};
ghost use Rattle.souper_graph.specs.Replacing.{Computes, mapped_rhs, mapped, replaced_operand, value_or, replaced_in, with_uses_replaced};

use crate::ast::arenas::Arena;
use crate::ast::ids::{Id, ValueId};
use crate::ast::instructions::Instruction;
use crate::ast::items::{LeftHandSide, Replacement, RightHandSide};
use crate::ast::operands::Operand;
use crate::ast::statements::{AssignmentRhs, Statement};

impl Instruction {
    /// The same instruction of other operands: of what `f` returns for each.
    pub fn map_operands<F: Fn(Operand) -> Operand>(self, f: F) -> Self
        requires { F.IsAlwaysCallable f }
        ensures { (g : OperandNode → OperandNode) → Computes (F.post f) g → result ≡ instruction_map g self }
    {
        match self {
            Instruction::Add { a, b } => Instruction::Add { a: f(a), b: f(b) },
            Instruction::AddNsw { a, b } => Instruction::AddNsw { a: f(a), b: f(b) },
            Instruction::AddNuw { a, b } => Instruction::AddNuw { a: f(a), b: f(b) },
            Instruction::AddNw { a, b } => Instruction::AddNw { a: f(a), b: f(b) },
            Instruction::Sub { a, b } => Instruction::Sub { a: f(a), b: f(b) },
            Instruction::SubNsw { a, b } => Instruction::SubNsw { a: f(a), b: f(b) },
            Instruction::SubNuw { a, b } => Instruction::SubNuw { a: f(a), b: f(b) },
            Instruction::SubNw { a, b } => Instruction::SubNw { a: f(a), b: f(b) },
            Instruction::Mul { a, b } => Instruction::Mul { a: f(a), b: f(b) },
            Instruction::MulNsw { a, b } => Instruction::MulNsw { a: f(a), b: f(b) },
            Instruction::MulNuw { a, b } => Instruction::MulNuw { a: f(a), b: f(b) },
            Instruction::MulNw { a, b } => Instruction::MulNw { a: f(a), b: f(b) },
            Instruction::Udiv { a, b } => Instruction::Udiv { a: f(a), b: f(b) },
            Instruction::Sdiv { a, b } => Instruction::Sdiv { a: f(a), b: f(b) },
            Instruction::UdivExact { a, b } => Instruction::UdivExact { a: f(a), b: f(b) },
            Instruction::SdivExact { a, b } => Instruction::SdivExact { a: f(a), b: f(b) },
            Instruction::Urem { a, b } => Instruction::Urem { a: f(a), b: f(b) },
            Instruction::Srem { a, b } => Instruction::Srem { a: f(a), b: f(b) },
            Instruction::And { a, b } => Instruction::And { a: f(a), b: f(b) },
            Instruction::Or { a, b } => Instruction::Or { a: f(a), b: f(b) },
            Instruction::Xor { a, b } => Instruction::Xor { a: f(a), b: f(b) },
            Instruction::Shl { a, b } => Instruction::Shl { a: f(a), b: f(b) },
            Instruction::ShlNsw { a, b } => Instruction::ShlNsw { a: f(a), b: f(b) },
            Instruction::ShlNuw { a, b } => Instruction::ShlNuw { a: f(a), b: f(b) },
            Instruction::ShlNw { a, b } => Instruction::ShlNw { a: f(a), b: f(b) },
            Instruction::Lshr { a, b } => Instruction::Lshr { a: f(a), b: f(b) },
            Instruction::LshrExact { a, b } => Instruction::LshrExact { a: f(a), b: f(b) },
            Instruction::Ashr { a, b } => Instruction::Ashr { a: f(a), b: f(b) },
            Instruction::AshrExact { a, b } => Instruction::AshrExact { a: f(a), b: f(b) },
            Instruction::Select { a, b, c } => Instruction::Select {
                a: f(a),
                b: f(b),
                c: f(c),
            },
            Instruction::Zext { a } => Instruction::Zext { a: f(a) },
            Instruction::Sext { a } => Instruction::Sext { a: f(a) },
            Instruction::Trunc { a } => Instruction::Trunc { a: f(a) },
            Instruction::Eq { a, b } => Instruction::Eq { a: f(a), b: f(b) },
            Instruction::Ne { a, b } => Instruction::Ne { a: f(a), b: f(b) },
            Instruction::Ult { a, b } => Instruction::Ult { a: f(a), b: f(b) },
            Instruction::Slt { a, b } => Instruction::Slt { a: f(a), b: f(b) },
            Instruction::Ule { a, b } => Instruction::Ule { a: f(a), b: f(b) },
            Instruction::Sle { a, b } => Instruction::Sle { a: f(a), b: f(b) },
            Instruction::Ctpop { a } => Instruction::Ctpop { a: f(a) },
            Instruction::Bswap { a } => Instruction::Bswap { a: f(a) },
            Instruction::BitReverse { a } => Instruction::BitReverse { a: f(a) },
            Instruction::Cttz { a } => Instruction::Cttz { a: f(a) },
            Instruction::Ctlz { a } => Instruction::Ctlz { a: f(a) },
            Instruction::Fshl { a, b, c } => Instruction::Fshl {
                a: f(a),
                b: f(b),
                c: f(c),
            },
            Instruction::Fshr { a, b, c } => Instruction::Fshr {
                a: f(a),
                b: f(b),
                c: f(c),
            },
            Instruction::SaddWithOverflow { a, b } => Instruction::SaddWithOverflow {
                a: f(a),
                b: f(b),
            },
            Instruction::UaddWithOverflow { a, b } => Instruction::UaddWithOverflow {
                a: f(a),
                b: f(b),
            },
            Instruction::SsubWithOverflow { a, b } => Instruction::SsubWithOverflow {
                a: f(a),
                b: f(b),
            },
            Instruction::UsubWithOverflow { a, b } => Instruction::UsubWithOverflow {
                a: f(a),
                b: f(b),
            },
            Instruction::SmulWithOverflow { a, b } => Instruction::SmulWithOverflow {
                a: f(a),
                b: f(b),
            },
            Instruction::UmulWithOverflow { a, b } => Instruction::UmulWithOverflow {
                a: f(a),
                b: f(b),
            },
            Instruction::SaddSat { a, b } => Instruction::SaddSat { a: f(a), b: f(b) },
            Instruction::UaddSat { a, b } => Instruction::UaddSat { a: f(a), b: f(b) },
            Instruction::SsubSat { a, b } => Instruction::SsubSat { a: f(a), b: f(b) },
            Instruction::UsubSat { a, b } => Instruction::UsubSat { a: f(a), b: f(b) },
            Instruction::ExtractValue { a, b } => Instruction::ExtractValue { a: f(a), b: f(b) },
            Instruction::Hole => Instruction::Hole,
            Instruction::Freeze { a } => Instruction::Freeze { a: f(a) },
        }
    }
}

// The operands of the right side become what `f` returns for them.
fn map_rhs<F: Fn(Operand) -> Operand>(rhs: &mut AssignmentRhs, f: &F)
    requires { F.IsAlwaysCallable f.now }
    ensures { (g : OperandNode → OperandNode) → Computes (F.post f.now) g → view_rhs rhs.new ≡ mapped_rhs g (view_rhs rhs.old) }
{
    match rhs {
        AssignmentRhs::Phi(phi) => map_values(&mut phi.values, f),
        AssignmentRhs::Instruction(instruction) => *instruction = instruction.map_operands(f),
        AssignmentRhs::Var => {}
        AssignmentRhs::Block(_) => {}
        AssignmentRhs::ReservedInst => {}
        AssignmentRhs::ReservedConst => {}
    }
}

fn map_values<F: Fn(Operand) -> Operand>(values: &mut [Operand], f: &F)
    requires { F.IsAlwaysCallable f.now }
    ensures { (g : OperandNode → OperandNode) → Computes (F.post f.now) g → values.new ≡ map g values.old }
{
    for value in values.iter_mut() {
        *value = f(*value);
    }
}

impl Statement {
    /// Puts in the place of each operand what `f` returns for it. The block of a phi or of a path condition is no operand, and stays.
    pub fn map_operands<F: Fn(Operand) -> Operand>(&mut self, f: F)
        requires { F.IsAlwaysCallable f }
        ensures { (g : OperandNode → OperandNode) → Computes (F.post f) g → view_statement self.new ≡ mapped g (view_statement self.old) }
    {
        match self {
            Statement::Assignment(assignment) => map_rhs(&mut assignment.value, &f),
            Statement::Pc(pc) => {
                pc.x = f(pc.x);
                pc.y = f(pc.y);
            }
            Statement::BlockPc(pc) => {
                pc.x = f(pc.x);
                pc.y = f(pc.y);
            }
        }
    }

    /// Puts `by` in the place of each operand that is the value `of`. Nothing else changes.
    pub fn replace_uses(&mut self, of: ValueId, by: Operand)
        ensures { view_statement self.new ≡ replaced_in of by (view_statement self.old) }
    {
        self.map_operands(|operand| replaced(operand, of, &by));
    }
}

// Another operand in place of one that is the value.
fn replaced(operand: Operand, of: ValueId, by: &Operand) -> Operand
    ensures { result ≡ replaced_operand of by.now operand }
{
    match operand {
        Operand::Value(value) => { if value == of { *by } else { operand } }
        Operand::Constant(_) => operand,
    }
}

fn replace_in(statements: &mut Arena<Statement>, of: ValueId, by: &Operand)
    ensures { map view_statement statements.new ≡ map (replaced_in of by.now) (map view_statement statements.old) }
{
    for index in 0..statements.len() {
        if let Some(statement) = statements.get_mut(Id::at(index)) {
            statement.replace_uses(of, *by);
        }
    }
}

impl Arena<Statement> {
    /// Puts `by` in the place of each operand of the statements that is the value `of`. Nothing else changes.
    ///
    /// If `by` is a value whose own statement has the operand `of`, that statement is changed too, and then uses itself.
    pub fn replace_uses(&mut self, of: ValueId, by: Operand)
        ensures { map view_statement self.new ≡ map (replaced_in of by) (map view_statement self.old) }
    {
        replace_in(self, of, &by);
    }
}

// Another value in place of the value of an infer line; a constant cannot stand there.
fn replaced_value(value: ValueId, of: ValueId, by: &Operand) -> ValueId
    ensures { result ≡ value_or value (replaced_operand of by.now (OperandValue value)) }
{
    match replaced(Operand::Value(value), of, by) {
        Operand::Value(value) => value,
        Operand::Constant(_) => value,
    }
}

impl LeftHandSide {
    /// Puts `by` in the place of each operand that is the value `of`, in the last line too. Nothing else changes: the infer line keeps
    /// its value if `by` is a constant.
    ///
    /// If `by` is a value whose own statement has the operand `of`, that statement is changed too, and then uses itself.
    pub fn replace_uses(&mut self, of: ValueId, by: Operand)
        ensures { view_left_hand_side self.new ≡ with_uses_replaced of by (view_left_hand_side self.old) }
    {
        replace_in(&mut self.statements, of, &by);
        self.infer.value = replaced_value(self.infer.value, of, &by);
    }
}

impl RightHandSide {
    /// Puts `by` in the place of each operand that is the value `of`, in the last line too. Nothing else changes.
    ///
    /// If `by` is a value whose own statement has the operand `of`, that statement is changed too, and then uses itself.
    pub fn replace_uses(&mut self, of: ValueId, by: Operand)
        ensures { view_right_hand_side self.new ≡ with_uses_replaced of by (view_right_hand_side self.old) }
    {
        replace_in(&mut self.statements, of, &by);
        self.result = replaced(self.result, of, &by);
    }
}

impl Replacement {
    /// Puts `by` in the place of each operand that is the value `of`, in the last lines too. Nothing else changes: an infer line keeps
    /// its value if `by` is a constant.
    ///
    /// If `by` is a value whose own statement has the operand `of`, that statement is changed too, and then uses itself.
    pub fn replace_uses(&mut self, of: ValueId, by: Operand)
        ensures { view_replacement self.new ≡ with_uses_replaced of by (view_replacement self.old) }
    {
        match self {
            Replacement::LhsRhs {
                statements,
                lhs,
                rhs,
            } => {
                replace_in(statements, of, &by);
                lhs.value = replaced_value(lhs.value, of, &by);
                *rhs = replaced(*rhs, of, &by);
            }
            Replacement::Cand { statements, cand } => {
                replace_in(statements, of, &by);
                cand.lhs = replaced(cand.lhs, of, &by);
                cand.rhs = replaced(cand.rhs, of, &by);
            }
        }
    }
}
