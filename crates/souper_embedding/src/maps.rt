//! Maps from the positions of one item to those of another, which are known at some positions.

ghost use Rattle.std.specs.Prelude.{◌≡◌, ◌<◌, ℕ, List, [], ◌∷◌, length, map, true, IfOk};
ghost use Rattle.souper_graph.specs.Uses.{position_of, uses_of_operand, uses_of_operands, uses_of_rhs};
ghost use Rattle.souper_graph.specs.Sameness.{carried_operand, carried_rhs};
ghost use Rattle.souper_graph.specs.View.{view_rhs};
ghost use Rattle.souper_embedding.specs.Maps.{GoesTo, Follows, Binds, AreBelow, IsUnknown};

use souper_graph::ast::{AssignmentRhs, BlockId, Id, Operand, Phi, Statement, ValueId};
use std::alloc::{AllocError, Global};

// A map of this many positions that is known nowhere.
pub(crate) fn unknown_map(alloc: Global, count: usize) -> Result<Vec<Option<usize>>, AllocError>
    ensures unknown { IfOk result (λ to. IsUnknown to.items) }
    ensures long { IfOk result (λ to. length to.items ≡ count) }
{
    let mut to = Vec::with_capacity(alloc, count)?;
    for index in 0..count {
        to.push(None)?;
    }
    Ok(to)
}

// The map takes p to q, if it is not known there yet. Whether it takes p to q now.
pub(crate) fn bind(to: &mut [Option<usize>], p: usize, q: usize) -> bool
    ensures bound { result ≡ true → Binds to.old to.new (p ∷ []) }
    ensures goes { result ≡ true → GoesTo to.new p q }
    ensures forced { (f : ℕ → ℕ) → Follows to.old f → f p ≡ q → p < length to.old → (result ≡ true) × Follows to.new f }
{
    if p >= to.len() {
        return false;
    }
    match to[p] {
        Some(r) => r == q,
        None => {
            to[p] = Some(q);
            true
        }
    }
}

pub(crate) fn bind_value(to: &mut [Option<usize>], x: ValueId, y: ValueId) -> bool
    ensures bound { result ≡ true → Binds to.old to.new (x ∷ []) }
    ensures goes { result ≡ true → GoesTo to.new x y }
    ensures forced { (f : ℕ → ℕ) → Follows to.old f → f x ≡ y → x < length to.old → (result ≡ true) × Follows to.new f }
{
    let from: Id<Statement> = x.into();
    let into: Id<Statement> = y.into();
    bind(to, from.index(), into.index())
}

pub(crate) fn bind_block(to: &mut [Option<usize>], x: BlockId, y: BlockId) -> bool
    ensures bound { result ≡ true → Binds to.old to.new (x ∷ []) }
    ensures goes { result ≡ true → GoesTo to.new x y }
    ensures forced { (f : ℕ → ℕ) → Follows to.old f → f x ≡ y → x < length to.old → (result ≡ true) × Follows to.new f }
{
    let from: Id<Statement> = x.into();
    let into: Id<Statement> = y.into();
    bind(to, from.index(), into.index())
}

// The map takes the operand x to y, if it can.
pub(crate) fn bind_operand(to: &mut [Option<usize>], x: Operand, y: Operand) -> bool
    ensures bound { result ≡ true → Binds to.old to.new (map position_of (uses_of_operand x)) }
    ensures sound { result ≡ true → (f : ℕ → ℕ) → Follows to.new f → y ≡ carried_operand f x }
    ensures forced { (f : ℕ → ℕ) → Follows to.old f → y ≡ carried_operand f x → AreBelow (length to.old) (map position_of (uses_of_operand x)) → (result ≡ true) × Follows to.new f }
{
    match x {
        Operand::Value(from) => match y {
            Operand::Value(into) => bind_value(to, from, into),
            Operand::Constant(_) => false,
        },
        Operand::Constant(c) => match y {
            Operand::Value(_) => false,
            Operand::Constant(d) => c == d,
        },
    }
}

// The map takes these operands to others, in order, if it can.
pub(crate) fn bind_operands(to: &mut [Option<usize>], xs: &[Operand], ys: &[Operand]) -> bool
    ensures bound { result ≡ true → Binds to.old to.new (map position_of (uses_of_operands xs.now)) }
    ensures sound { result ≡ true → (f : ℕ → ℕ) → Follows to.new f → ys.now ≡ map (carried_operand f) xs.now }
    ensures forced { (f : ℕ → ℕ) → Follows to.old f → ys.now ≡ map (carried_operand f) xs.now → AreBelow (length to.old) (map position_of (uses_of_operands xs.now))
        → (result ≡ true) × Follows to.new f }
{
    if xs.len() != ys.len() {
        return false;
    }
    for index in 0..xs.len() {
        if !bind_operand(to, xs[index], ys[index]) {
            return false;
        }
    }
    true
}

fn bind_phi(to: &mut [Option<usize>], x: &Phi, y: &Phi) -> bool
    ensures bound { result ≡ true → Binds to.old to.new (x.now.block ∷ map position_of (uses_of_operands x.now.values.items)) }
    ensures block { result ≡ true → (f : ℕ → ℕ) → Follows to.new f → y.now.block ≡ f x.now.block }
    ensures values { result ≡ true → (f : ℕ → ℕ) → Follows to.new f → y.now.values.items ≡ map (carried_operand f) x.now.values.items }
    ensures forced { (f : ℕ → ℕ) → Follows to.old f → y.now.block ≡ f x.now.block → y.now.values.items ≡ map (carried_operand f) x.now.values.items
        → AreBelow (length to.old) (x.now.block ∷ map position_of (uses_of_operands x.now.values.items)) → (result ≡ true) × Follows to.new f }
{
    bind_block(to, x.block, y.block) && bind_operands(to, &x.values, &y.values)
}

// The map takes the right side x of an assignment to y, if it can.
pub(crate) fn bind_rhs(to: &mut [Option<usize>], x: &AssignmentRhs, y: &AssignmentRhs) -> bool
    ensures bound { result ≡ true → Binds to.old to.new (map position_of (uses_of_rhs (view_rhs x.now))) }
    ensures sound { result ≡ true → (f : ℕ → ℕ) → Follows to.new f → view_rhs y.now ≡ carried_rhs f (view_rhs x.now) }
    ensures forced { (f : ℕ → ℕ) → Follows to.old f → view_rhs y.now ≡ carried_rhs f (view_rhs x.now) → AreBelow (length to.old) (map position_of (uses_of_rhs (view_rhs x.now)))
        → (result ≡ true) × Follows to.new f }
{
    match x {
        AssignmentRhs::Var => matches!(y, AssignmentRhs::Var),
        AssignmentRhs::ReservedInst => matches!(y, AssignmentRhs::ReservedInst),
        AssignmentRhs::ReservedConst => matches!(y, AssignmentRhs::ReservedConst),
        AssignmentRhs::Block(block) => match y {
            AssignmentRhs::Block(other) => block.predecessors == other.predecessors,
            _ => false,
        },
        AssignmentRhs::Phi(phi) => match y {
            AssignmentRhs::Phi(other) => bind_phi(to, phi, other),
            _ => false,
        },
        AssignmentRhs::Instruction(instruction) => match y {
            AssignmentRhs::Instruction(other) => {
                instruction.instruction_name() == other.instruction_name()
                    && bind_operands(to, &instruction.operands(), &other.operands())
            }
            _ => false,
        },
    }
}
