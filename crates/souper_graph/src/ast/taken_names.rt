//! Names of values that were given none.

ghost use Rattle.std.specs.Prelude.{◌≡◌, ◌≤◌, ◌<◌, ◌⊎◌, ◌^◌, ℕ, List, map, length, true, IfOk, OnOk};
ghost use Rattle.std.specs.BTreeSet.{contains_text};
ghost use Rattle.std.specs.String.{string_bytes};
ghost use Rattle.souper_graph.specs.Values.{PlainStatement};
ghost use Rattle.souper_graph.specs.View.{view_statement};
ghost use Rattle.souper_graph.specs.Text.{name_at};
ghost use Rattle.souper_graph.specs.Renaming.{name_of_index};
ghost use Rattle.souper_graph.specs.Building.{IsFirstFree};
ghost use Rattle.souper_graph.specs.TakenNames.{Knows};

use crate::ast::arenas::Arena;
use crate::ast::ids::Id;
use crate::ast::statements::Statement;
use std::alloc::{AllocError, Global};
use std::collections::BTreeSet;

// What is known of the names of statements. A name that is made is `%` and a number that is at least the number of statements: lower numbers
// need no entry.
#[derive(Debug, Drop)]
pub(crate) struct TakenNames {
    names: BTreeSet<String>,
    // How many statements were looked at.
    looked_at: usize,
    // The numbers from the number of statements on, below this one, are all taken.
    next: usize,
}

impl TakenNames {
    pub(crate) fn new(alloc: Global) -> Self
        ensures { (ss : List PlainStatement) → Knows ss result }
    {
        let names = BTreeSet::new(alloc);
        TakenNames {
            names,
            looked_at: 0,
            next: 0,
        }
    }

    // `%` and the first number, from the number of statements on, that names no statement.
    pub(crate) fn make(&mut self, statements: &Arena<Statement>) -> Result<String, AllocError>
        ensures kept { Knows (map view_statement statements.now) self.old → Knows (map view_statement statements.now) self.new }
        ensures free { Knows (map view_statement statements.now) self.old → IfOk result (λ name. IsFirstFree (map view_statement statements.now) (string_bytes name)) }
    {
        self.look_at(statements)?;
        let alloc = statements.allocator();
        for number in self.next.max(statements.len())..usize::MAX {
            let name = format!(in alloc; "%{number}")?;
            if !self.names.contains(name.as_str()) {
                self.next = number;
                return Ok(name);
            }
        }
        Err(AllocError)
    }

    // Enters the names of the statements that were not looked at.
    fn look_at(&mut self, statements: &Arena<Statement>) -> Result<(), AllocError>
        ensures kept { Knows (map view_statement statements.now) self.old → Knows (map view_statement statements.now) self.new }
        ensures all { OnOk result (length statements.now ≤ self.new.looked_at) }
    {
        let mut own = String::new(statements.allocator());
        for index in self.looked_at..statements.len() {
            write_number(&mut own, index)?;
            enter(&mut self.names, name_at(statements, index), &own)?;
            self.looked_at = index + 1;
        }
        Ok(())
    }
}

// The name of the statement at the position; empty, if it has none.
fn name_at(statements: &Arena<Statement>, position: usize) -> &str
    ensures { result.now ≡ name_at (map view_statement statements.now) position }
{
    match statements.get(Id::at(position)) {
        None => "",
        Some(Statement::Assignment(assignment)) => &assignment.name,
        Some(Statement::Pc(_)) => "",
        Some(Statement::BlockPc(_)) => "",
    }
}

fn write_number(text: &mut String, number: usize) -> Result<(), AllocError>
    ensures { OnOk result (string_bytes text.new ≡ name_of_index number) }
{
    text.clear();
    write!(text, "%{number}")?;
    Ok(())
}

// Enters the name, unless it is `own`.
fn enter(names: &mut BTreeSet<String>, name: &str, own: &String) -> Result<(), AllocError>
    ensures kept { (t : List ℕ) → contains_text names.old t ≡ true → contains_text names.new t ≡ true }
    ensures only { (t : List ℕ) → contains_text names.new t ≡ true → (contains_text names.old t ≡ true) ⊎ (t ≡ name.now) }
    ensures entered { OnOk result ((contains_text names.new name.now ≡ true) ⊎ (name.now ≡ string_bytes own.now)) }
{
    if name != own.as_str() {
        let name = String::from_str(*own.allocator(), name)?;
        names.insert(name)?;
    }
    Ok(())
}
