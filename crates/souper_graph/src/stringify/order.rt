//! The printed order of the statements of an item.

ghost use Rattle.std.specs.Prelude.{◌≡◌, ◌<◌, ◌++◌, ◌↔◌, map, reverse, slice_get, Some, [], IfOk, IfErr, OnOk, IsTrue};
ghost use Rattle.souper_graph.specs.declared.stringify.errors.TextError.TheVariants.{OutOfMemory};
ghost use Rattle.souper_graph.specs.declared.stringify.order.Entry.TheVariants.{Trace};
ghost use Rattle.souper_graph.specs.declared.stringify.order.Target.TheVariants.{Condition};
ghost use Rattle.souper_graph.specs.Values.{Item};
ghost use Rattle.souper_graph.specs.View.{view_rhs, view_statement, view_left_hand_side, view_right_hand_side, view_replacement};
ghost use Rattle.souper_graph.specs.PartsView.{view_parts};
ghost use Rattle.souper_graph.specs.Instructions.{operands_of};
ghost use Rattle.souper_graph.specs.Uses.{uses_of_operand, uses_of_operands, uses_of_rhs, uses_of, conditions_from, first_roots, last_roots};
ghost use Rattle.souper_graph.specs.Faults.{IsFaultOf};
ghost use Rattle.souper_graph.specs.WellFormed.{IsAssigned, IsBlock};
ghost use Rattle.souper_graph.specs.Walks.{position_of_target, target_of, IsMetTarget, IsFaultAt, IsWalkedBy};
ghost use Rattle.souper_graph.specs.PrintOrder.{IsPrintOrder};

use crate::ast::{
    Arena, Assignment, AssignmentRhs, BlockId, Ending, Id, Instruction, LeftHandSide, Operand,
    Operands, Parts, Replacement, RightHandSide, Statement, ValueId,
};
use crate::stringify::errors::TextError;
use crate::stringify::marks::Marks;

/// The needed statements of an item, in the order in which its text has them.
#[derive(Debug, Drop)]
pub struct Order {
    /// The statements, each once, in printed order.
    pub ids: Vec<Id<Statement>>,

    /// How many of them come before the infer line of a [`Replacement::LhsRhs`]; in every other item all of them.
    pub lead: usize,

    /// The number of times that the work stack was popped, or `u128::MAX` if that is less.
    pub turns: u128,
}

impl LeftHandSide {
    /// The statements that the text has, in its order.
    ///
    /// Errors: `OutOfRange`, `NotAnAssignment` or `NotABlock` with a bad id of a root or of a needed statement;
    /// `OutOfMemory`.
    pub fn print_order(&self) -> Result<Order, TextError>
        ensures refused { IfErr result (λ error. IsFaultOf (view_left_hand_side self.now) error) }
        ensures ordered { IfOk result (λ order. IsPrintOrder (view_left_hand_side self.now) order.ids.items order.lead order.turns) }
    {
        self.parts().print_order()
    }
}

impl RightHandSide {
    /// The statements that the text has, in its order.
    ///
    /// Errors: `OutOfRange`, `NotAnAssignment` or `NotABlock` with a bad id of a root or of a needed statement;
    /// `OutOfMemory`.
    pub fn print_order(&self) -> Result<Order, TextError>
        ensures refused { IfErr result (λ error. IsFaultOf (view_right_hand_side self.now) error) }
        ensures ordered { IfOk result (λ order. IsPrintOrder (view_right_hand_side self.now) order.ids.items order.lead order.turns) }
    {
        self.parts().print_order()
    }
}

impl Replacement {
    /// The statements that the text has, in its order.
    ///
    /// Errors: `OutOfRange`, `NotAnAssignment` or `NotABlock` with a bad id of a root or of a needed statement;
    /// `OutOfMemory`.
    pub fn print_order(&self) -> Result<Order, TextError>
        ensures refused { IfErr result (λ error. IsFaultOf (view_replacement self.now) error) }
        ensures ordered { IfOk result (λ order. IsPrintOrder (view_replacement self.now) order.ids.items order.lead order.turns) }
    {
        self.parts().print_order()
    }
}

impl Parts<'_> {
    // The needed statements of the item.
    pub(crate) fn print_order(&self) -> Result<Order, TextError>
        ensures refused { IfErr result (λ error. IsFaultOf (view_parts self.now) error) }
        ensures ordered { IfOk result (λ order. IsPrintOrder (view_parts self.now) order.ids.items order.lead order.turns) }
    {
        self.print_order_in(Vec::new(self.statements.allocator()))
    }

    // The needed statements of the item, in the memory of an empty list.
    pub(crate) fn print_order_in(&self, ids: Vec<Id<Statement>>) -> Result<Order, TextError>
        requires { ids.items ≡ [] }
        ensures refused { IfErr result (λ error. IsFaultOf (view_parts self.now) error) }
        ensures ordered { IfOk result (λ order. IsPrintOrder (view_parts self.now) order.ids.items order.lead order.turns) }
    {
        let statements = self.statements;
        match self.ending {
            Ending::Infer(lhs) => {
                order_between(statements, &[Operand::Value(lhs.value)], &[], ids)
            }
            Ending::Result(rhs) => order_between(statements, &[*rhs], &[], ids),
            Ending::Replaced(lhs, rhs) => {
                order_between(statements, &[Operand::Value(lhs.value)], &[*rhs], ids)
            }
            Ending::Cand(cand) => order_between(statements, &[cand.lhs, cand.rhs], &[], ids),
        }
    }
}

// What a trace entry names: a use, or a path condition for its own sake.
#[derive(Clone, Copy)]
pub(crate) enum Target {
    Value(ValueId),
    Block(BlockId),
    Condition(Id<Statement>),
}

impl Target {
    pub(crate) fn position(&self) -> Id<Statement>
        ensures { result ≡ position_of_target self.now }
    {
        match self {
            Target::Value(id) => Id::from(*id),
            Target::Block(id) => Id::from(*id),
            Target::Condition(id) => *id,
        }
    }
}

// An entry of the work stack.
#[derive(Clone, Copy)]
enum Entry {
    // A target that is to be visited.
    Trace(Target),
    // A statement whose uses are in the order when the entry is popped.
    Finished(Id<Statement>),
}

// Where walks begin, and how many of them come before the infer line.
#[derive(Drop)]
struct Walks {
    targets: Vec<Target>,
    before: usize,
}

// The order of an item that has these roots before and after its path conditions, in the memory of an empty list.
fn order_between(
    statements: &Arena<Statement>,
    first: &[Operand],
    last: &[Operand],
    ids: Vec<Id<Statement>>,
) -> Result<Order, TextError>
    requires { ids.items ≡ [] }
    ensures refused { (a : Item) → a.statements ≡ map view_statement statements.now → first_roots a.ending ≡ uses_of_operands first.now → last_roots a.ending ≡ uses_of_operands last.now → IfErr result (λ error. IsFaultOf a error) }
    ensures ordered { (a : Item) → a.statements ≡ map view_statement statements.now → first_roots a.ending ≡ uses_of_operands first.now → last_roots a.ending ≡ uses_of_operands last.now → IfOk result (λ order. IsPrintOrder a order.ids.items order.lead order.turns) }
{
    let mut targets = Vec::with_capacity(statements.allocator(), 8)?;
    push_roots(&mut targets, first)?;
    push_conditions(&mut targets, statements)?;
    let before = targets.len();
    push_roots(&mut targets, last)?;
    order_of(statements, &Walks { targets, before }, ids)
}

// Appends the roots that name a value.
pub(crate) fn push_roots(targets: &mut Vec<Target>, roots: &[Operand]) -> Result<(), TextError>
    ensures ok { OnOk result (targets.new.items ≡ targets.old.items ++ map target_of (uses_of_operands roots.now)) }
    ensures err { IfErr result (λ error. error ≡ OutOfMemory) }
{
    for root in roots {
        if let Operand::Value(id) = *root {
            targets.push(Target::Value(id))?;
        }
    }
    Ok(())
}

// Appends the path conditions.
pub(crate) fn push_conditions(
    targets: &mut Vec<Target>,
    statements: &Arena<Statement>,
) -> Result<(), TextError>
    ensures ok { OnOk result (targets.new.items ≡ targets.old.items ++ map (λ i. Condition i) (conditions_from 0 (map view_statement statements.now))) }
    ensures err { IfErr result (λ error. error ≡ OutOfMemory) }
{
    for index in 0..statements.len() {
        let id = Id::at(index);
        if let Some(statement) = statements.get(id) {
            if !is_assignment(statement) {
                targets.push(Target::Condition(id))?;
            }
        }
    }
    Ok(())
}

// Walks from each target in turn, and puts each statement after all that it uses, if that is possible.
fn order_of(
    statements: &Arena<Statement>,
    walks: &Walks,
    mut ids: Vec<Id<Statement>>,
) -> Result<Order, TextError>
    requires { ids.items ≡ [] }
    ensures refused { (a : Item) → IsWalkedBy a (map view_statement statements.now) walks.now.targets.items walks.now.before → IfErr result (λ error. IsFaultOf a error) }
    ensures ordered { (a : Item) → IsWalkedBy a (map view_statement statements.now) walks.now.targets.items walks.now.before → IfOk result (λ order. IsPrintOrder a order.ids.items order.lead order.turns) }
{
    let alloc = statements.allocator();
    let mut stack: Vec<Entry> = Vec::with_capacity(alloc, 16)?;
    let mut marks = Marks::none(alloc, statements.len())?;
    ids.reserve(statements.len())?;
    let mut turns: u128 = 0;
    let mut lead = 0;
    for (k, walk) in walks.targets.iter().enumerate() {
        stack.push(Entry::Trace(*walk))?;
        while let Some(entry) = stack.pop() {
            turns = turns.saturating_add(1);
            match entry {
                Entry::Finished(id) => ids.push(id)?,
                Entry::Trace(target) => {
                    let statement = judged(statements, &target)?;
                    let id = target.position();
                    if !marks.is_marked(id.index()) {
                        marks.mark(id.index());
                        stack.push(Entry::Finished(id))?;
                        push_uses(&mut stack, statement)?;
                    }
                }
            }
        }
        if k < walks.before {
            lead = ids.len();
        }
    }
    Ok(Order { ids, lead, turns })
}

// The statement that the target names, if it is what the target asks for.
fn judged<'a>(statements: &'a Arena<Statement>, target: &Target) -> Result<&'a Statement, TextError>
    ensures there { IfOk result (λ statement. slice_get statements.now (position_of_target target.now) ≡ Some statement.now) }
    ensures met { OnOk result (IsMetTarget (map view_statement statements.now) target.now) }
    ensures err { IfErr result (λ error. IsFaultAt (map view_statement statements.now) target.now error) }
{
    let id = target.position();
    let Some(statement) = statements.get(id) else {
        return Err(TextError::OutOfRange(id));
    };
    match target {
        Target::Value(_) if !is_assignment(statement) => Err(TextError::NotAnAssignment(id)),
        Target::Block(_) if !is_block(statement) => Err(TextError::NotABlock(id)),
        _ => Ok(statement),
    }
}

fn is_assignment(statement: &Statement) -> bool
    ensures { IsTrue result ↔ IsAssigned (Some (view_statement statement.now)) }
{
    matches!(statement, Statement::Assignment(_))
}

fn is_block(statement: &Statement) -> bool
    ensures { IsTrue result ↔ IsBlock (Some (view_statement statement.now)) }
{
    matches!(
        statement,
        Statement::Assignment(Assignment {
            value: AssignmentRhs::Block(_),
            ..
        })
    )
}

// Puts a trace entry for each use of the statement on the stack, the last one first.
fn push_uses(stack: &mut Vec<Entry>, statement: &Statement) -> Result<(), TextError>
    ensures ok { OnOk result (reverse stack.new.items ≡ map (λ named. Trace (target_of named)) (uses_of (view_statement statement.now)) ++ reverse stack.old.items) }
    ensures err { IfErr result (λ error. error ≡ OutOfMemory) }
{
    match statement {
        Statement::Assignment(assignment) => push_uses_of_rhs(stack, &assignment.value),
        Statement::Pc(pc) => {
            push_operand(stack, &pc.y)?;
            push_operand(stack, &pc.x)
        }
        Statement::BlockPc(block_pc) => {
            push_operand(stack, &block_pc.y)?;
            push_operand(stack, &block_pc.x)?;
            Ok(stack.push(Entry::Trace(Target::Block(block_pc.block)))?)
        }
    }
}

fn push_uses_of_rhs(stack: &mut Vec<Entry>, rhs: &AssignmentRhs) -> Result<(), TextError>
    ensures ok { OnOk result (reverse stack.new.items ≡ map (λ named. Trace (target_of named)) (uses_of_rhs (view_rhs rhs.now)) ++ reverse stack.old.items) }
    ensures err { IfErr result (λ error. error ≡ OutOfMemory) }
{
    match rhs {
        AssignmentRhs::Var => Ok(()),
        AssignmentRhs::Block(_) => Ok(()),
        AssignmentRhs::ReservedInst => Ok(()),
        AssignmentRhs::ReservedConst => Ok(()),
        AssignmentRhs::Phi(phi) => {
            push_operands(stack, &phi.values)?;
            Ok(stack.push(Entry::Trace(Target::Block(phi.block)))?)
        }
        AssignmentRhs::Instruction(instruction) => push_operands_of(stack, instruction),
    }
}

fn push_operands_of(stack: &mut Vec<Entry>, instruction: &Instruction) -> Result<(), TextError>
    ensures ok { OnOk result (reverse stack.new.items ≡ map (λ named. Trace (target_of named)) (uses_of_operands (operands_of instruction.now)) ++ reverse stack.old.items) }
    ensures err { IfErr result (λ error. error ≡ OutOfMemory) }
{
    match instruction.operands_in_place() {
        Operands::Zero => Ok(()),
        Operands::One(a) => push_operand(stack, a),
        Operands::Two(a, b) => {
            push_operand(stack, b)?;
            push_operand(stack, a)
        }
        Operands::Three(a, b, c) => {
            push_operand(stack, c)?;
            push_operand(stack, b)?;
            push_operand(stack, a)
        }
    }
}

fn push_operands(stack: &mut Vec<Entry>, operands: &[Operand]) -> Result<(), TextError>
    ensures ok { OnOk result (reverse stack.new.items ≡ map (λ named. Trace (target_of named)) (uses_of_operands operands.now) ++ reverse stack.old.items) }
    ensures err { IfErr result (λ error. error ≡ OutOfMemory) }
{
    let mut left = operands.len();
    while left > 0 {
        left -= 1;
        push_operand(stack, &operands[left])?;
    }
    Ok(())
}

fn push_operand(stack: &mut Vec<Entry>, operand: &Operand) -> Result<(), TextError>
    ensures ok { OnOk result (reverse stack.new.items ≡ map (λ named. Trace (target_of named)) (uses_of_operand operand.now) ++ reverse stack.old.items) }
    ensures err { IfErr result (λ error. error ≡ OutOfMemory) }
{
    match operand {
        Operand::Value(id) => Ok(stack.push(Entry::Trace(Target::Value(*id)))?),
        Operand::Constant(_) => Ok(()),
    }
}
