//! Path conditions: where they are, and whether one can stand for another.

ghost use Rattle.std.specs.Prelude.{◌≡◌, ◌↔◌, ◌+◌, ℕ, length, map, true, false, Some, slice_get, IfOk, OnOk, IsTrue};
ghost use Rattle.souper_graph.specs.Values.{PlainStatement, condition, block_condition};
ghost use Rattle.souper_graph.specs.Uses.{Has, position_of, uses_of, used_at, is_condition, conditions_from};
ghost use Rattle.souper_graph.specs.Sameness.{carried};
ghost use Rattle.souper_graph.specs.View.{view_statement};
ghost use Rattle.souper_embedding.specs.Given.{AreGivenTo, AreGiven};
ghost use Rattle.souper_embedding.specs.Maps.{Follows, Binds, AreBelow};

use crate::maps::{bind_block, bind_operand};
use souper_graph::ast::{Arena, BlockPc, Id, Operand, Pc, Statement};
use std::alloc::{AllocError, Global};

// The positions of the path conditions, ascending.
pub(crate) fn conditions_of(
    alloc: Global,
    statements: &Arena<Statement>,
) -> Result<Vec<usize>, AllocError>
    ensures { IfOk result (λ found. found.items ≡ conditions_from 0 (map view_statement statements.now)) }
{
    let mut found = Vec::new(alloc);
    for index in 0..statements.len() {
        if is_condition_at(statements, index) {
            found.push(index)?;
        }
    }
    Ok(found)
}

fn is_path_condition(statement: &Statement) -> bool
    ensures { result ≡ is_condition (view_statement statement.now) }
{
    match statement {
        Statement::Assignment(_) => false,
        Statement::Pc(_) | Statement::BlockPc(_) => true,
    }
}

fn is_condition_at(statements: &Arena<Statement>, index: usize) -> bool
    ensures test { (s : PlainStatement) → slice_get (map view_statement statements.now) index ≡ Some s → result ≡ is_condition s }
    ensures there { result ≡ true → (s : PlainStatement) × (slice_get (map view_statement statements.now) index ≡ Some s) × IsTrue (is_condition s) }
{
    match statements.get(Id::at(index)) {
        Some(statement) => is_path_condition(statement),
        None => false,
    }
}

fn same_operand(x: Operand, y: Operand) -> bool
    ensures { IsTrue result ↔ (x ≡ y) }
{
    x == y
}

fn same_pc(x: Pc, y: Pc) -> bool
    ensures { IsTrue result ↔ (x ≡ y) }
{
    same_operand(x.x, y.x) && same_operand(x.y, y.y)
}

fn same_block_pc(x: BlockPc, y: BlockPc) -> bool
    ensures { IsTrue result ↔ (x ≡ y) }
{
    x.block == y.block
        && x.predecessor == y.predecessor
        && same_operand(x.x, y.x)
        && same_operand(x.y, y.y)
}

fn are_same(x: &Statement, y: &Statement) -> bool
    ensures same { result ≡ true → view_statement x.now ≡ view_statement y.now }
    ensures other { view_statement x.now ≡ view_statement y.now → IsTrue (is_condition (view_statement x.now)) → result ≡ true }
{
    match x {
        Statement::Pc(pc) => match y {
            Statement::Pc(other) => same_pc(*pc, *other),
            _ => false,
        },
        Statement::BlockPc(pc) => match y {
            Statement::BlockPc(other) => same_block_pc(*pc, *other),
            _ => false,
        },
        Statement::Assignment(_) => false,
    }
}

// Whether the path conditions at both positions are the same.
fn is_same_at(statements: &Arena<Statement>, p: usize, q: usize) -> bool
    ensures same { result ≡ true → slice_get (map view_statement statements.now) p ≡ slice_get (map view_statement statements.now) q }
    ensures other { (s : PlainStatement) → slice_get (map view_statement statements.now) p ≡ Some s → slice_get (map view_statement statements.now) q ≡ Some s
        → IsTrue (is_condition s) → result ≡ true }
{
    match statements.get(Id::at(p)) {
        Some(x) => match statements.get(Id::at(q)) {
            Some(y) => are_same(x, y),
            None => false,
        },
        None => false,
    }
}

// Whether the path condition at the index is one of these.
fn is_repeated(statements: &Arena<Statement>, found: &[usize], index: usize) -> bool
    ensures repeated { result ≡ true → (g : ℕ) × Has found.now g × (slice_get (map view_statement statements.now) g ≡ slice_get (map view_statement statements.now) index) }
    ensures new { result ≡ false → (g : ℕ) (s : PlainStatement) → Has found.now g → slice_get (map view_statement statements.now) g ≡ Some s
        → slice_get (map view_statement statements.now) index ≡ Some s → IsTrue (is_condition s) → ⊥ }
{
    for position in found {
        if is_same_at(statements, *position, index) {
            return true;
        }
    }
    false
}

// Appends the index, if a path condition is there that is none of these.
fn push_given(
    statements: &Arena<Statement>,
    found: &mut Vec<usize>,
    index: usize,
) -> Result<(), AllocError>
    ensures { OnOk result (AreGivenTo (map view_statement statements.now) index found.old.items → AreGivenTo (map view_statement statements.now) (index + 1) found.new.items) }
{
    if !is_condition_at(statements, index) {
        return Ok(());
    }
    if is_repeated(statements, found, index) {
        return Ok(());
    }
    found.push(index)?;
    Ok(())
}

// The positions of the path conditions, ascending, of equal ones the first.
pub(crate) fn given_of(
    alloc: Global,
    statements: &Arena<Statement>,
) -> Result<Vec<usize>, AllocError>
    ensures { IfOk result (λ found. AreGiven (map view_statement statements.now) found.items) }
{
    let mut found = Vec::new(alloc);
    for index in 0..statements.len() {
        push_given(statements, &mut found, index)?;
    }
    Ok(found)
}

fn bind_pc(to: &mut [Option<usize>], x: Pc, y: Pc) -> bool
    ensures bound { result ≡ true → Binds to.old to.new (map position_of (uses_of (condition x))) }
    ensures sound { result ≡ true → (f : ℕ → ℕ) → Follows to.new f → condition y ≡ carried f (condition x) }
    ensures forced { (f : ℕ → ℕ) → Follows to.old f → condition y ≡ carried f (condition x) → AreBelow (length to.old) (map position_of (uses_of (condition x)))
        → (result ≡ true) × Follows to.new f }
{
    bind_operand(to, x.x, y.x) && bind_operand(to, x.y, y.y)
}

fn bind_block_pc(to: &mut [Option<usize>], x: BlockPc, y: BlockPc) -> bool
    ensures bound { result ≡ true → Binds to.old to.new (map position_of (uses_of (block_condition x))) }
    ensures sound { result ≡ true → (f : ℕ → ℕ) → Follows to.new f → x.predecessor ≡ y.predecessor → block_condition y ≡ carried f (block_condition x) }
    ensures forced { (f : ℕ → ℕ) → Follows to.old f → block_condition y ≡ carried f (block_condition x) → AreBelow (length to.old) (map position_of (uses_of (block_condition x)))
        → (result ≡ true) × Follows to.new f }
{
    let left = Pc { x: x.x, y: x.y };
    let right = Pc { x: y.x, y: y.y };
    bind_block(to, x.block, y.block) && bind_pc(to, left, right)
}

fn bind_conditions(to: &mut [Option<usize>], x: &Statement, y: &Statement) -> bool
    ensures bound { result ≡ true → Binds to.old to.new (map position_of (uses_of (view_statement x.now))) }
    ensures sound { result ≡ true → (f : ℕ → ℕ) → Follows to.new f → view_statement y.now ≡ carried f (view_statement x.now) }
    ensures forced { (f : ℕ → ℕ) → Follows to.old f → IsTrue (is_condition (view_statement x.now)) → view_statement y.now ≡ carried f (view_statement x.now)
        → AreBelow (length to.old) (map position_of (uses_of (view_statement x.now))) → (result ≡ true) × Follows to.new f }
{
    match x {
        Statement::Pc(pc) => match y {
            Statement::Pc(other) => bind_pc(to, *pc, *other),
            _ => false,
        },
        Statement::BlockPc(pc) => match y {
            Statement::BlockPc(other) => {
                pc.predecessor == other.predecessor && bind_block_pc(to, *pc, *other)
            }
            _ => false,
        },
        Statement::Assignment(_) => false,
    }
}

// The map takes the path condition at p to the one at q, if it can.
pub(crate) fn bind_condition(
    stored: &Arena<Statement>,
    query: &Arena<Statement>,
    to: &mut [Option<usize>],
    p: usize,
    q: usize,
) -> bool
    ensures bound { result ≡ true → Binds to.old to.new (used_at (map view_statement stored.now) p) }
    ensures sound { result ≡ true → (f : ℕ → ℕ) (s : PlainStatement) → Follows to.new f → slice_get (map view_statement stored.now) p ≡ Some s → slice_get (map view_statement query.now) q ≡ Some (carried f s) }
    ensures forced { (f : ℕ → ℕ) (s : PlainStatement) → Follows to.old f → slice_get (map view_statement stored.now) p ≡ Some s → IsTrue (is_condition s)
        → slice_get (map view_statement query.now) q ≡ Some (carried f s) → AreBelow (length to.old) (used_at (map view_statement stored.now) p) → (result ≡ true) × Follows to.new f }
{
    match stored.get(Id::at(p)) {
        Some(x) => match query.get(Id::at(q)) {
            Some(y) => bind_conditions(to, x, y),
            None => false,
        },
        None => false,
    }
}
