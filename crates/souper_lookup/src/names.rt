//! The names that an answer has: the names of a left-hand side, and then free numbers.

ghost use Rattle.std.specs.Prelude.{◌≡◌, ◌≤◌, ℕ, List, map, length, IfOk, OnOk};
ghost use Rattle.std.specs.String.{string_bytes};
ghost use Rattle.souper_graph.specs.Text.{name_at};
ghost use Rattle.souper_graph.specs.View.{view_statement};
ghost use Rattle.souper_graph.specs.Order.{Distinct};
ghost use Rattle.souper_graph.specs.Renaming.{with_name, name_in, named_from};
ghost use Rattle.souper_lookup.specs.Instance.{names_of_all, AreNamesThenFresh, AreExtended, IsSetOf, HasNumbersOf};

use souper_graph::ast::{Arena, Id, Statement};
use std::alloc::{AllocError, Global};
use std::collections::BTreeSet;

// The names of the statements at these positions, and then the first numbers, from the number of positions on, that name no statement:
// `count` names in all.
pub(crate) fn names_for(
    alloc: Global,
    statements: &Arena<Statement>,
    ids: &[Id<Statement>],
    count: usize,
) -> Result<Vec<String>, AllocError>
    ensures long { IfOk result (λ names. count ≤ length names.items) }
    ensures names { length ids.now ≤ count → IfOk result (λ names. AreNamesThenFresh (map view_statement statements.now) ids.now count (map string_bytes names.items)) }
{
    let names = names_of(alloc, statements, ids)?;
    let taken = all_names(alloc, statements)?;
    let all = add_numbers(alloc, names, &taken, count)?;
    Ok(all)
}

/// The names of the statements at these positions, in order.
pub(crate) fn names_of(
    alloc: Global,
    statements: &Arena<Statement>,
    ids: &[Id<Statement>],
) -> Result<Vec<String>, AllocError>
    ensures { IfOk result (λ names. map string_bytes names.items ≡ map (name_at (map view_statement statements.now)) ids.now) }
{
    let mut names = Vec::new(alloc);
    for id in ids {
        names.push(name_of(alloc, statements, *id)?)?;
    }
    Ok(names)
}

// The name of the assignment at a position; empty if there is none.
fn name_of(
    alloc: Global,
    statements: &Arena<Statement>,
    id: Id<Statement>,
) -> Result<String, AllocError>
    ensures { IfOk result (λ name. string_bytes name ≡ name_at (map view_statement statements.now) id) }
{
    match statements.get(id) {
        Some(statement) => match statement.as_assignment() {
            Some(assignment) => assignment.name.clone(),
            None => Ok(String::new(alloc)),
        },
        None => Ok(String::new(alloc)),
    }
}

// The names of all statements, with an empty one for path conditions.
fn all_names(alloc: Global, statements: &Arena<Statement>) -> Result<BTreeSet<String>, AllocError>
    ensures { IfOk result (λ taken. IsSetOf (names_of_all (map view_statement statements.now)) taken) }
{
    let mut taken = BTreeSet::new(alloc);
    for index in 0..statements.len() {
        taken.insert(name_of(alloc, statements, Id::at(index))?)?;
    }
    Ok(taken)
}

// Appends the first numbers, from the number of names on, that are not taken, until there are `count` names.
fn add_numbers(
    alloc: Global,
    mut names: Vec<String>,
    taken: &BTreeSet<String>,
    count: usize,
) -> Result<Vec<String>, AllocError>
    ensures long { IfOk result (λ all. count ≤ length all.items) }
    ensures numbered { (used : List (List ℕ)) → IsSetOf used taken.now → HasNumbersOf (map string_bytes names.items) used → length names.items ≤ count
        → IfOk result (λ all. AreExtended (map string_bytes names.items) used count (map string_bytes all.items)) }
{
    let first = names.len() as u64;
    for number in first..u64::MAX {
        if names.len() >= count {
            return Ok(names);
        }
        let name = format!(in alloc; "%{number}")?;
        if !taken.contains(&name) {
            names.push(name)?;
        }
    }
    Err(AllocError)
}

/// Each statement of the list gets the name at its index there. The buffers of the old names stay.
pub(crate) fn put_names(
    statements: &mut Arena<Statement>,
    ids: &[Id<Statement>],
    names: &[String],
) -> Result<(), AllocError>
    requires { length ids.now ≤ length names.now }
    ensures { Distinct ids.now → OnOk result (map view_statement statements.new ≡ named_from (name_in (map string_bytes names.now)) ids.now 0 (map view_statement statements.old)) }
{
    for (index, id) in ids.iter().enumerate() {
        if let Some(statement) = statements.get_mut(*id) {
            put_name(statement, &names[index])?;
        }
    }
    Ok(())
}

// A path condition has no name.
fn put_name(statement: &mut Statement, name: &String) -> Result<(), AllocError>
    ensures { OnOk result (view_statement statement.new ≡ with_name (string_bytes name.now) (view_statement statement.old)) }
{
    if let Statement::Assignment(assignment) = statement {
        assignment.name.clear();
        assignment.name.push_str(name.as_str())?;
    }
    Ok(())
}
