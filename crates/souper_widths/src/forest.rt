//! Forests of nodes that have one width: union-find, with each root below the nodes of its tree.

ghost use Rattle.std.specs.Prelude.{◌≡◌, ◌≢◌, ◌<◌, ◌≤◌, ℕ, length, slice_index, IfErr, OnOk};
ghost use Rattle.souper_widths.specs.declared.ties.Side.TheVariants.{Node, Number};
ghost use Rattle.souper_widths.specs.Forest.{IsForest, Follows, SameTrees, AreClasses, AddsTie, Refuses, IsSide};

use crate::ties::Side;

// The root of the node's tree. Each node on the way gets its grandparent as its parent, so that later ways are shorter.
#[inline(always)]
fn root_of(parents: &mut [usize], node: usize) -> usize
    requires forest { IsForest parents.old }
    requires within { node < length parents.old }
    ensures forest { IsForest parents.new }
    ensures same { SameTrees parents.old parents.new }
    ensures root { slice_index parents.new result ≡ result }
    ensures below { result ≤ node }
    ensures tied { (u : ℕ → ℕ) → Follows u parents.old → u node ≡ u result }
{
    let mut at = node;
    while parents[at] != at {
        let next = parents[parents[at]];
        parents[at] = next;
        at = next;
    }
    at
}

// Puts one root below another, which gets its number.
#[inline(always)]
fn put_below(parents: &mut [usize], numbers: &mut [u16], high: usize, low: usize)
    requires classes { AreClasses parents.old numbers.old }
    requires within { high < length parents.old }
    requires order { low < high }
    requires high_root { slice_index parents.old high ≡ high }
    requires low_root { slice_index parents.old low ≡ low }
    requires alike { slice_index numbers.old high ≢ 0 → slice_index numbers.old low ≢ 0 → slice_index numbers.old high ≡ slice_index numbers.old low }
    ensures classes { AreClasses parents.new numbers.new }
    ensures tie { AddsTie parents.old numbers.old parents.new numbers.new (Node high) (Node low) }
{
    if numbers[high] != 0 {
        numbers[low] = numbers[high];
    }
    numbers[high] = 0;
    parents[high] = low;
}

// Joins the classes of two nodes. The error is the two widths, if they differ.
#[inline(always)]
fn join(parents: &mut [usize], numbers: &mut [u16], x: usize, y: usize) -> Result<(), (u16, u16)>
    requires classes { AreClasses parents.old numbers.old }
    requires x_within { x < length parents.old }
    requires y_within { y < length parents.old }
    ensures classes { AreClasses parents.new numbers.new }
    ensures ok { OnOk result (AddsTie parents.old numbers.old parents.new numbers.new (Node x) (Node y)) }
    ensures err { IfErr result (λ e. Refuses parents.old numbers.old (Node x) (Node y) e.0 e.1) }
{
    let left = root_of(parents, x);
    let right = root_of(parents, y);
    if left == right {
        return Ok(());
    }
    if numbers[left] != 0 && numbers[right] != 0 && numbers[left] != numbers[right] {
        return Err((numbers[left], numbers[right]));
    }
    if left < right {
        put_below(parents, numbers, right, left);
    } else {
        put_below(parents, numbers, left, right);
    }
    Ok(())
}

// Gives the class of a node its width. The error is its width, if that is another one.
#[inline(always)]
fn fix(parents: &mut [usize], numbers: &mut [u16], node: usize, number: u16) -> Result<(), u16>
    requires classes { AreClasses parents.old numbers.old }
    requires within { node < length parents.old }
    requires positive { 0 < number }
    ensures classes { AreClasses parents.new numbers.new }
    ensures ok { OnOk result (AddsTie parents.old numbers.old parents.new numbers.new (Node node) (Number number)) }
    ensures err { IfErr result (λ e. Refuses parents.old numbers.old (Node node) (Number number) e number) }
{
    let root = root_of(parents, node);
    let known = numbers[root];
    if known == 0 {
        numbers[root] = number;
    } else if known != number {
        return Err(known);
    }
    Ok(())
}

// Gives both sides one width. The error is their widths, if these differ.
#[inline(always)]
pub(crate) fn tie(
    parents: &mut [usize],
    numbers: &mut [u16],
    left: Side,
    right: Side,
) -> Result<(), (u16, u16)>
    requires classes { AreClasses parents.old numbers.old }
    requires left_side { IsSide (length parents.old) left }
    requires right_side { IsSide (length parents.old) right }
    ensures classes { AreClasses parents.new numbers.new }
    ensures ok { OnOk result (AddsTie parents.old numbers.old parents.new numbers.new left right) }
    ensures err { IfErr result (λ e. Refuses parents.old numbers.old left right e.0 e.1) }
{
    match (left, right) {
        (Side::Node(x), Side::Node(y)) => join(parents, numbers, x, y),
        (Side::Node(x), Side::Number(n)) => match fix(parents, numbers, x, n) {
            Ok(()) => Ok(()),
            Err(known) => Err((known, n)),
        },
        (Side::Number(n), Side::Node(y)) => match fix(parents, numbers, y, n) {
            Ok(()) => Ok(()),
            Err(known) => Err((n, known)),
        },
        (Side::Number(m), Side::Number(n)) => { if m == n { Ok(()) } else { Err((m, n)) } }
    }
}
