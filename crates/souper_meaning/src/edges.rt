//! The edges by an item's constants: the numbers that a search for counterexamples tries first.

ghost use Rattle.std.specs.Prelude.{◌≡◌, ◌++◌, flat_map, IfOk, OnOk};
ghost use Rattle.souper_graph.specs.View.{view_statement};
ghost use Rattle.souper_graph.specs.PartsView.{view_parts, root_operands};
ghost use Rattle.souper_meaning.specs.Sampling.{neighbours, neighbours_of_operand, neighbours_of_statement, edges_of as all_edges};

use souper_graph::ast::{AssignmentRhs, Ending, Operand, Parts, Statement};
use std::alloc::AllocError;

/// Appends a constant and its neighbours.
fn push_neighbours(edges: &mut Vec<u128>, constant: i128) -> Result<(), AllocError>
    ensures { OnOk result (edges.new.items ≡ edges.old.items ++ neighbours constant) }
{
    let bits = constant.cast_unsigned();
    edges.push(bits)?;
    edges.push(bits.wrapping_add(1))?;
    edges.push(bits.wrapping_sub(1))?;
    Ok(())
}

/// Appends the constant of an operand, if it is one, and its neighbours.
fn push_operand(edges: &mut Vec<u128>, operand: Operand) -> Result<(), AllocError>
    ensures { OnOk result (edges.new.items ≡ edges.old.items ++ neighbours_of_operand operand) }
{
    match operand {
        Operand::Value(_) => Ok(()),
        Operand::Constant(constant) => push_neighbours(edges, constant.value),
    }
}

/// Appends the constants among operands, and their neighbours.
fn push_operands(edges: &mut Vec<u128>, operands: &[Operand]) -> Result<(), AllocError>
    ensures { OnOk result (edges.new.items ≡ edges.old.items ++ flat_map neighbours_of_operand operands.now) }
{
    for operand in operands {
        push_operand(edges, *operand)?;
    }
    Ok(())
}

/// Appends the constants of a statement, and their neighbours.
fn push_statement(edges: &mut Vec<u128>, statement: &Statement) -> Result<(), AllocError>
    ensures { OnOk result (edges.new.items ≡ edges.old.items ++ neighbours_of_statement (view_statement statement.now)) }
{
    match statement {
        Statement::Assignment(assignment) => match &assignment.value {
            AssignmentRhs::Phi(phi) => push_operands(edges, &phi.values),
            AssignmentRhs::Instruction(instruction) => {
                let operands = instruction.operands();
                push_operands(edges, operands.as_slice())
            }
            _ => Ok(()),
        },
        Statement::Pc(pc) => push_operands(edges, &[pc.x, pc.y]),
        Statement::BlockPc(pc) => push_operands(edges, &[pc.x, pc.y]),
    }
}

/// Appends the constants of the last lines, and their neighbours.
fn push_ending(edges: &mut Vec<u128>, parts: &Parts<'_>) -> Result<(), AllocError>
    ensures { OnOk result (edges.new.items ≡ edges.old.items ++ flat_map neighbours_of_operand (root_operands (view_parts parts.now).ending)) }
{
    match parts.ending {
        Ending::Infer(_) => Ok(()),
        Ending::Result(result) => push_operand(edges, *result),
        Ending::Replaced(_, result) => push_operand(edges, *result),
        Ending::Cand(cand) => push_operands(edges, &[cand.lhs, cand.rhs]),
    }
}

/// 0 and its neighbours, and each constant of the item and its neighbours, in the order of the text.
#[tactic(auto, using(crate::proofs::Neighbours::neighbours_among_all), unfolding(crate::proofs::Neighbours::neighbours_among))]
pub(crate) fn edges_of(parts: &Parts<'_>) -> Result<Vec<u128>, AllocError>
    ensures { IfOk result (λ edges. edges.items ≡ all_edges (view_parts parts.now)) }
{
    let mut edges = Vec::new(parts.statements.allocator());
    push_neighbours(&mut edges, 0)?;
    for (_, statement) in parts.statements.iter() {
        push_statement(&mut edges, statement)?;
    }
    push_ending(&mut edges, parts)?;
    Ok(edges)
}
