//! The nodes of a part of the marked term, with all that is below its node, and what dropping a part does.

ghost use Rattle.std.specs.Prelude.{◌≡◌, ◌++◌, ℕ, IfOk, OnOk, length, reverse};
ghost use Rattle.orc_term.specs.Sides.{NoNewSides};
ghost use Rattle.orc_term.specs.Dropping.{parts_of, call_of, calls_at, AreNodesOf, AreRising, IsDropped};

use crate::arena::{Kind, Node, Tip};
use crate::nodes::Nodes;
use std::alloc::{AllocError, Global};

/// Adds the numbers of a node's parts to `found`, the left part first. The error is refused memory.
fn push_parts(found: &mut Vec<u32>, kind: Kind) -> Result<(), AllocError>
    ensures { OnOk result (found.new.items ≡ found.old.items ++ parts_of kind) }
{
    match kind {
        Kind::Leaf(_) => {}
        Kind::One(_, part) => found.push(part)?,
        Kind::Two(_, left, right) => {
            found.push(left)?;
            found.push(right)?;
        }
    }
    Ok(())
}

/// The numbers of the nodes of the part of the term at node `root`: that node, and then those below it. The error is refused memory.
pub fn nodes_of(alloc: Global, nodes: &Nodes, root: u32) -> Result<Vec<u32>, AllocError>
    ensures { IfOk result (λ found. AreNodesOf nodes.now.items root found.items) }
{
    let mut found = Vec::new(alloc);
    found.push(root)?;
    // The list grows in the loop: each of its nodes adds its parts.
    for next in 0..nodes.len() {
        // Each node that was found has added its parts: no more are to come.
        if next == found.len() {
            return Ok(found);
        }
        let node = nodes.node_at(found[next] as usize);
        push_parts(&mut found, node.kind)?;
    }
    // Not reached: a part of the term has each node at most once, and never node 0, so the loop has returned before.
    Err(AllocError)
}

/// Adds to `calls` the number of the call that pends at a node of this kind, if any. The error is refused memory.
fn push_call(calls: &mut Vec<u64>, kind: Kind) -> Result<(), AllocError>
    ensures { OnOk result (calls.new.items ≡ calls.old.items ++ call_of kind) }
{
    if let Kind::Leaf(Tip::Waits(call)) = kind {
        calls.push(call)?;
    }
    Ok(())
}

/// The numbers of the calls that pend at the nodes of the list `side`, in its order. The error is refused memory.
fn pending_at(alloc: Global, nodes: &Nodes, side: &Vec<u32>) -> Result<Vec<u64>, AllocError>
    ensures { IfOk result (λ calls. calls.items ≡ calls_at nodes.now.items side.now.items) }
{
    let mut calls = Vec::new(alloc);
    for next in 0..side.len() {
        let node = nodes.node_at(side[next] as usize);
        push_call(&mut calls, node.kind)?;
    }
    Ok(calls)
}

/// The numbers of the calls that pend at the nodes of the list `side`, the greatest number first. The error is refused memory.
pub fn falling_calls(alloc: Global, nodes: &Nodes, side: &Vec<u32>) -> Result<Vec<u64>, AllocError>
    ensures { IfOk result (λ calls. AreRising (calls_at nodes.now.items side.now.items) (reverse calls.items)) }
{
    let mut calls = pending_at(alloc, nodes, side)?;
    calls.sort_unstable();
    calls.reverse();
    Ok(calls)
}

/// Makes the nodes of the list `found` gone. Each keeps its number, and all others stay as they are. No node becomes a side by it.
pub fn drop_nodes(nodes: &mut Nodes, found: &Vec<u32>)
    ensures dropped { IsDropped nodes.old.items found.now.items nodes.new.items }
    ensures len { length nodes.new.items ≡ length nodes.old.items }
    ensures sides { (n : ℕ) → NoNewSides n nodes.old.items nodes.new.items }
    ensures asked { nodes.new.asked ≡ nodes.old.asked }
{
    for next in 0..found.len() {
        let place = found[next] as usize;
        // The parent stays: hints may lead past a node that is gone.
        let parent = nodes.node_at(place).parent;
        nodes.write_node(
            place,
            Node {
                kind: Kind::Leaf(Tip::Gone),
                parent,
            },
        );
    }
}
