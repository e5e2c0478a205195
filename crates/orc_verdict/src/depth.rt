//! How deep a marked term nests, in levels: a term without parts has one, any other one more than its deepest part. `depth_of` looks at all nodes;
//! the bounds of `most_depth` and `allowed_depth` are quick. A *marked term* is what is left of the program's term after the first entries of a
//! journal. A node of it may hold a term of the program, whose levels `heights` has. A node is a `Leaf` without parts, or has `One` part or `Two`;
//! `Passed` is a node that means just its part.

ghost use Rattle.std.specs.Prelude.{◌≡◌, ◌≤◌, ◌+◌, ◌++◌, ℕ, List, IfOk, IfSome, OnOk};
ghost use Rattle.orc_rules.specs.Journal.{Place};
ghost use Rattle.orc_rules.specs.Marked.{erase};
ghost use Rattle.orc_rules.specs.Nodes.{Listing, code};
ghost use Rattle.orc_rules.specs.Refusal.{depth};
ghost use Rattle.orc_rules.specs.Timed.{Context};
ghost use Rattle.orc_checker.specs.Checker.{Spells};
ghost use Rattle.orc_term.specs.Dropping.{parts_of};
ghost use Rattle.orc_term.specs.Settling.{kind_at};
ghost use Rattle.orc_verdict.specs.Depth.{own_levels, step_down, with_levels, IsAllowed};
ghost use Rattle.orc_verdict.specs.Heights.{AreHeights, AreAtMost};

use crate::heights::Heights;
use orc_checker::Marked;
use orc_rules::limits::MOST_LEVELS;
use orc_term::arena::{Kind, Single, Tip};
use orc_term::slot::Slot;
use std::alloc::{AllocError, Global};

// The kind of node `i`; that of a node which is gone where there is no such node.
fn kind_of(nodes: &[Slot], i: usize) -> Kind
    ensures { result ≡ kind_at nodes.now i }
{
    match nodes.get(i) {
        Some(slot) => slot.node().kind,
        None => Kind::Leaf(Tip::Gone),
    }
}

// The levels of the program's term that a node holds: a token's, or that of a right side that hasn't started. Without one, 1 for a leaf, otherwise 0.
fn own_levels(heights: &Heights, kind: Kind) -> usize
    ensures { result ≡ own_levels heights.now kind }
{
    match kind {
        Kind::Leaf(Tip::Token(_, node, _)) => heights.at(node as usize),
        Kind::Leaf(_) => 1,
        Kind::One(Single::Feeds(_, right, _), _) => heights.at(right as usize),
        Kind::One(Single::Entered(_, right, _), _) => heights.at(right as usize),
        Kind::One(Single::Passed, _) => 0,
        Kind::Two(_, _, _) => 0,
    }
}

// By how many levels a node's parts, and the program's term that it holds, are deeper than the node: 0 if the node means just its part.
fn step_down(kind: Kind) -> usize
    ensures { result ≡ step_down kind }
{
    match kind {
        Kind::Leaf(_) => 0,
        Kind::One(Single::Passed, _) => 0,
        Kind::One(_, _) => 1,
        Kind::Two(_, _, _) => 1,
    }
}

// The sum. The error is an overflow, which stands for refused memory: no memory holds so many levels.
fn sum(a: usize, b: usize) -> Result<usize, AllocError>
    ensures { IfOk result (λ n. n ≡ a + b) }
{
    match a.checked_add(b) {
        Some(sum) => Ok(sum),
        None => Err(AllocError),
    }
}

// Adds the parts of a node to `left`, the list of the nodes that are left to look at. Each is added with `above`, the levels above it. The error is
// refused memory.
fn push_parts(left: &mut Vec<(usize, usize)>, kind: Kind, above: usize) -> Result<(), AllocError>
    ensures { OnOk result (left.new.items ≡ left.old.items ++ with_levels above (parts_of kind)) }
{
    match kind {
        Kind::Leaf(_) => {}
        Kind::One(_, part) => left.push((part as usize, above))?,
        Kind::Two(_, part, other) => {
            left.push((part as usize, above))?;
            left.push((other as usize, above))?;
        }
    }
    Ok(())
}

/// How many levels deep the marked term of a program nests, with the heights of the program's terms. The error is refused memory.
pub fn depth_of(alloc: Global, heights: &Heights, marked: &Marked) -> Result<usize, AllocError>
    ensures { IfOk result (λ d. (x : Context) (l : Listing) (p : Place) → AreHeights (code l) heights.now → Spells x (code l) marked.now p → d ≡ depth (erase p.marked)) }
{
    let nodes = marked.nodes();
    let mut deepest = 0;
    // What is left to look at, each node with the levels above it. Node 0 is above the whole term.
    let mut left = Vec::new(alloc);
    left.push((0, 0))?;
    // Each turn looks at one node of the term, and the turn after the last finds nothing left.
    for _step in 0..=nodes.len() {
        let Some((node, above)) = left.pop() else {
            return Ok(deepest);
        };
        let kind = kind_of(nodes, node);
        // The levels above the node's parts and above the program's term that the node holds.
        let above = sum(above, step_down(kind))?;
        deepest = deepest.max(sum(above, own_levels(heights, kind))?);
        push_parts(&mut left, kind, above)?;
    }
    // Not reached: each node is in the term at most once.
    Err(AllocError)
}

/// A bound for the levels of the marked term: the bound for how many of its nodes are one below another, plus `most`, the levels of the program's
/// deepest term. It looks at no node. None where the first bound isn't known.
pub(crate) fn most_depth(marked: &Marked, most: usize) -> Option<usize>
    ensures { IfSome result (λ d. (x : Context) (l : Listing) (p : Place) (heights : List ℕ) → AreHeights (code l) heights → AreAtMost heights most → Spells x (code l) marked.now p → depth (erase p.marked) ≤ d) }
{
    let levels = marked.levels_below()?;
    match levels.checked_add(most) {
        Some(sum) => Some(sum),
        None => None,
    }
}

// The bound of `most_depth`, if a checked term may have as many levels. None if it is over `MOST_LEVELS` or isn't known.
fn most_allowed(marked: &Marked, most: usize) -> Option<usize>
    ensures { IfSome result (λ d. IsAllowed marked.now most d) }
{
    match most_depth(marked, most) {
        Some(levels) if levels <= MOST_LEVELS => Some(levels),
        _ => None,
    }
}

/// A bound for the levels of the marked term that is at most `MOST_LEVELS`: that of `most_depth`, or, if it is too great, the smaller one after a
/// look at all nodes, which stays good for a while. None if that is too great too; the term may still be shallow enough.
pub(crate) fn allowed_depth(marked: &mut Marked, most: usize) -> Option<usize>
    ensures depth { IfSome result (λ d. IsAllowed marked.old most d) }
    ensures same { marked.new ≡ marked.old }
{
    if let Some(levels) = most_allowed(marked, most) {
        return Some(levels);
    }
    // Looks at all nodes to make the first bound as small as it can be.
    marked.renew_levels();
    most_allowed(marked, most)
}
