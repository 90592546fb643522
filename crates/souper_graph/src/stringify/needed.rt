//! The statements that an item needs, whether or not its ids are good.

ghost use Rattle.std.specs.Prelude.{◌≡◌, ◌++◌, length, map, IfOk, IfErr, OnOk};
ghost use Rattle.souper_graph.specs.declared.stringify.errors.TextError.TheVariants.{OutOfMemory};
ghost use Rattle.souper_graph.specs.View.{view_statement};
ghost use Rattle.souper_graph.specs.PartsView.{view_parts, view_ending};
ghost use Rattle.souper_graph.specs.Uses.{position_of, uses_of, roots_of};
ghost use Rattle.souper_graph.specs.UsesView.{view_use};
ghost use Rattle.souper_graph.specs.Walks.{position_of_target};
ghost use Rattle.souper_graph.specs.FlawSearch.{AreReached, AreNeeded, marked_from};

use crate::ast::{Arena, Ending, Id, Operand, Parts, Statement, Use};
use crate::stringify::errors::TextError;
use crate::stringify::marks::Marks;
use crate::stringify::order::{Target, push_conditions, push_roots};

impl Parts<'_> {
    // The positions of the needed statements, ascending. The error is out of memory.
    pub(crate) fn needed(&self) -> Result<Vec<Id<Statement>>, TextError>
        ensures needed { IfOk result (λ ids. AreNeeded (view_parts self.now) ids.items) }
        ensures err { IfErr result (λ error. error ≡ OutOfMemory) }
    {
        let statements = self.statements;
        let mut targets = Vec::new(statements.allocator());
        push_ending(&mut targets, &self.ending)?;
        push_conditions(&mut targets, statements)?;
        let marks = reached(statements, targets)?;
        marked(&marks, statements)
    }
}

// Appends the roots that name a value.
fn push_ending(targets: &mut Vec<Target>, ending: &Ending) -> Result<(), TextError>
    ensures ok { OnOk result (map position_of_target targets.new.items ≡ map position_of_target targets.old.items ++ map position_of (roots_of (view_ending ending.now))) }
    ensures err { IfErr result (λ error. error ≡ OutOfMemory) }
{
    match ending {
        Ending::Infer(lhs) => push_roots(targets, &[Operand::Value(lhs.value)]),
        Ending::Result(rhs) => push_roots(targets, &[**rhs]),
        Ending::Replaced(lhs, rhs) => push_roots(targets, &[Operand::Value(lhs.value), **rhs]),
        Ending::Cand(cand) => push_roots(targets, &[cand.lhs, cand.rhs]),
    }
}

// Marks what can be reached from the targets.
fn reached(statements: &Arena<Statement>, targets: Vec<Target>) -> Result<Marks, TextError>
    ensures reached { IfOk result (λ marks. AreReached (map view_statement statements.now) (map position_of_target targets.items) marks) }
    ensures err { IfErr result (λ error. error ≡ OutOfMemory) }
{
    let mut stack = targets;
    let mut marks = Marks::none(statements.allocator(), statements.len())?;
    while let Some(target) = stack.pop() {
        let id = target.position();
        if let Some(statement) = statements.get(id) {
            if !marks.is_marked(id.index()) {
                marks.mark(id.index());
                push_used(&mut stack, statement)?;
            }
        }
    }
    Ok(marks)
}

// Appends what the statement uses.
fn push_used(targets: &mut Vec<Target>, statement: &Statement) -> Result<(), TextError>
    ensures ok { OnOk result (map position_of_target targets.new.items ≡ map position_of_target targets.old.items ++ map position_of (uses_of (view_statement statement.now))) }
    ensures err { IfErr result (λ error. error ≡ OutOfMemory) }
{
    for used in statement.uses() {
        targets.push(target(used))?;
    }
    Ok(())
}

fn target(used: Use) -> Target
    ensures { position_of_target result ≡ position_of (view_use used) }
{
    match used {
        Use::Value(value) => Target::Value(value),
        Use::Block(block) => Target::Block(block),
    }
}

// The marked positions, ascending.
fn marked(marks: &Marks, statements: &Arena<Statement>) -> Result<Vec<Id<Statement>>, TextError>
    requires { length marks.now ≡ length statements.now }
    ensures marked { IfOk result (λ ids. ids.items ≡ marked_from 0 marks.now) }
    ensures err { IfErr result (λ error. error ≡ OutOfMemory) }
{
    let mut ids = Vec::new(statements.allocator());
    for index in 0..statements.len() {
        if marks.is_marked(index) {
            ids.push(Id::at(index))?;
        }
    }
    Ok(ids)
}
