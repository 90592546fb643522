//! Many ties at once, and the widths that they tell.

ghost use Rattle.std.specs.Prelude.{◌≡◌, length, IfErr, IfOk, OnOk};
ghost use Rattle.std.specs.List.{AllByRecursion};
ghost use Rattle.souper_widths.specs.Forest.{AreClasses, TellsWidths};
ghost use Rattle.souper_widths.specs.Ties.{AddsTies, Clashes, HasSides};
ghost use Rattle.souper_widths.specs.Nodes.{listed};

use crate::forest::tie;
use crate::ties::Tie;
use std::alloc::{AllocError, Global};

// Gives the sides of each tie one width. The error is the widths of the first tie that fails.
pub(crate) fn tie_all(
    parents: &mut [usize],
    numbers: &mut [u16],
    ties: &[Tie],
) -> Result<(), (u32, u32)>
    requires classes { AreClasses parents.old numbers.old }
    requires sides { AllByRecursion (HasSides (length parents.old)) ties.now }
    ensures classes { AreClasses parents.new numbers.new }
    ensures ok { OnOk result (AddsTies parents.old numbers.old parents.new numbers.new ties.now) }
    ensures err { IfErr result (λ e. Clashes parents.old numbers.old ties.now e.0 e.1) }
{
    for item in ties {
        let more = u32::from(item.more);
        match tie(parents, numbers, item.left, item.right) {
            Ok(()) => {}
            Err((left, right)) => return Err((u32::from(left) + more, u32::from(right) + more)),
        }
    }
    Ok(())
}

// The width of each node, or 0 if no number tells it.
pub(crate) fn widths_of(
    alloc: Global,
    parents: &[usize],
    numbers: &[u16],
) -> Result<Vec<u16>, AllocError>
    requires { AreClasses parents.now numbers.now }
    ensures { IfOk result (λ widths. TellsWidths parents.now numbers.now widths.items) }
{
    let mut widths = Vec::with_capacity(alloc, parents.len())?;
    for node in 0..parents.len() {
        let parent = parents[node];
        let width = if parent == node {
            numbers[node]
        } else {
            widths[parent]
        };
        widths.push(width)?;
    }
    Ok(widths)
}

// Each node as its own parent.
pub(crate) fn first_parents(alloc: Global, count: usize) -> Result<Vec<usize>, AllocError>
    ensures { IfOk result (λ parents. parents.items ≡ listed (λ i. i) count) }
{
    let mut parents = Vec::with_capacity(alloc, count)?;
    for node in 0..count {
        parents.push(node)?;
    }
    Ok(parents)
}
