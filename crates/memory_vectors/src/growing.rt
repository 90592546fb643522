//! An arena that grows when it is full, and the calls of builders that make theirs grow.
ghost use Rattle.std.specs.Prelude.{IfOk};
ghost use Rattle.souper_graph.specs.Building.{BeginsWithPercent};

use crate::cases::Cases;
use crate::met::{Met, completed_if, equal};
use crate::texts::is_text;
use anyhow::{Context, Result};
use souper_ir::ast::{Arena, Constant, Operand, Pc, Statement, Type};
use souper_ir::stringify::{DisplayWithContext, TextError};
use std::alloc::{AllocError, Global};
use std::io;

/// A constant without a type.
pub fn number(value: i128) -> Operand {
    Constant { value, ty: None }.into()
}

/// The name, or none if the text does not begin with `%`.
pub fn name(alloc: Global, text: &str) -> Result<Option<String>, AllocError>
    ensures { IfOk result (λ name. BeginsWithPercent name) }
{
    if !text.starts_with("%") {
        return Ok(None);
    }
    Ok(Some(String::from_str(alloc, text)?))
}

// The statement's line. One allocation of a run fails, so that a second try has its memory.
fn line(
    alloc: Global,
    statements: &Arena<Statement>,
    statement: &Statement,
) -> Result<String, TextError> {
    let mut out = String::new(alloc);
    if let Err(TextError::OutOfMemory) = statement.display(statements, &mut out) {
        statement.display(statements, &mut out)?;
    }
    Ok(out)
}

/// A call just grew the arena, or did not. It has the statements with these lines, and the one of the last line if the
/// call appended it.
pub fn holds(
    alloc: Global,
    statements: &Arena<Statement>,
    lines: &[&str; 5],
    has_grown: bool,
) -> Result<Met> {
    let met = completed_if(alloc, has_grown);
    equal(statements.len(), if has_grown { 5 } else { 4 })?;
    for (id, statement) in statements.iter() {
        let want = lines.get(id.index()).context("no such line")?;
        is_text(line(alloc, statements, statement), want)?;
    }
    Ok(met)
}

/// A call of a builder that appends a statement.
#[derive(Clone, Copy)]
pub enum Call {
    NamedAssignment,
    UnnamedAssignment,
    NamedBlock,
    UnnamedBlock,
    Condition,
    ConditionOnPredecessor,
}

impl Call {
    /// The name that the call gives, or a text that is no name.
    pub fn name(self) -> &'static str {
        match self {
            Call::NamedAssignment => "%x",
            Call::NamedBlock => "%b",
            _ => "",
        }
    }

    /// The type that the call gives.
    pub fn ty(self) -> Option<Type> {
        match self {
            Call::NamedAssignment => Some(Type { width: 8 }),
            _ => None,
        }
    }
}

/// The lines of a builder of a block with two predecessors and three conditions, and the call's line.
pub fn lines(call: Call) -> [&'static str; 5] {
    let line = match call {
        Call::NamedAssignment => "%x:i8 = var\n",
        Call::UnnamedAssignment => "%4 = var\n",
        Call::NamedBlock => "%b = block 7\n",
        Call::UnnamedBlock => "%4 = block 7\n",
        Call::Condition => "pc 5 6\n",
        Call::ConditionOnPredecessor => "blockpc %0 1 5 6\n",
    };
    ["%0 = block 2\n", "pc 1 1\n", "pc 2 2\n", "pc 3 3\n", line]
}

// The condition that the number equals itself.
fn condition(value: i128) -> Statement {
    let (x, y) = (number(value), number(value));
    Pc { x, y }.into()
}

// An arena of four conditions.
fn filled(alloc: Global) -> Result<Arena<Statement>, AllocError> {
    let mut statements = Arena::new(alloc);
    for value in [0, 1, 2, 3] {
        statements.alloc(condition(value))?;
    }
    Ok(statements)
}

// Grows an arena by a statement.
fn arena(alloc: Global) -> Result<Met> {
    let Ok(mut statements) = filled(alloc) else {
        return Ok(Met::Unreached);
    };
    let has_grown = statements.alloc(condition(4)).is_ok();
    let lines = ["pc 0 0\n", "pc 1 1\n", "pc 2 2\n", "pc 3 3\n", "pc 4 4\n"];
    holds(alloc, &statements, &lines, has_grown)
}

/// The cases of this file.
pub fn all(cases: &mut Cases<'_>) -> io::Result<()> {
    cases.run("growing_an_arena", arena)?;
    Ok(())
}
