//! The walk of a publication, from the token upward to the `>x>` or the pruning that takes it. An *otherwise* is an entered `f ; g` (`Entered`): once
//! f has published, g never starts, and the node means just f (`Passed`). `from`, `place` and `parent` are numbers of nodes of the marked term.

ghost use Rattle.std.specs.Prelude.{◌≡◌, ℕ, List, length, IfSome, IfNone};
ghost use Rattle.orc_term.specs.Arena.{Frame, Tree};
ghost use Rattle.orc_term.specs.Rising.{pass_node, up, TakesThere, IsTaker, Rises, Passes, Stands};

use crate::arena::{Double, Kind, Node, Single};
use crate::nodes::Nodes;

/// What takes a publication.
#[derive(Clone, Copy)]
pub enum Taker {
    /// Nothing: the whole program publishes it.
    Whole,
    /// The `>x>` at this node.
    Fed(u32),
    /// The pruning of this cell, at this node: the publication is from its right side.
    Bound(u64, u32),
}

/// What a node is after a publication has gone through it: an otherwise loses its right side, and any other node stays.
#[inline(always)]
pub fn passed(node: Node) -> Node
    ensures { result ≡ pass_node node }
{
    match node.kind {
        Kind::One(Single::Entered(_, _, _), part) => Node {
            kind: Kind::One(Single::Passed, part),
            parent: node.parent,
        },
        _ => node,
    }
}

/// The node at `parent`, of kind `above`, as the taker of what the node at `place` below it publishes. None if it lets the publication through.
#[inline(always)]
pub(crate) fn taker_here(above: Kind, place: usize, parent: u32) -> Option<Taker>
    ensures { result ≡ up above place parent }
{
    match above {
        Kind::One(Single::Feeds(_, _, _), _) => Some(Taker::Fed(parent)),
        Kind::Two(Double::Side(cell), left, _) => {
            if left as usize == place {
                None
            } else {
                Some(Taker::Bound(cell, parent))
            }
        }
        _ => None,
    }
}

/// What takes a publication of the node with the number `from`. None if that node is no part of the term.
#[inline(always)]
pub fn way_up(nodes: &Nodes, from: usize) -> Option<Taker>
    ensures taker { IfSome result (IsTaker nodes.now.items from) }
    ensures none { IfNone result ((n : ℕ) (k : List Frame) (t : Tree) → Stands nodes.now.items n from k t → ⊥) }
    ensures there { IfSome result (TakesThere nodes.now.items) }
{
    let mut place = from;
    // Each step goes up at least one node, so a walk that starts in the term has returned before the loop ends.
    for _steps in 0..nodes.len() {
        // A hint leads to a node up to which nothing takes the publication or is changed by it.
        place = nodes.hint(place);
        // Node 0 is above the whole term: nothing takes the publication.
        if place == 0 {
            return Some(Taker::Whole);
        }
        let parent = nodes.node_at(place).parent;
        let above = nodes.node_at(parent as usize).kind;
        match taker_here(above, place, parent) {
            Some(taker) => return Some(taker),
            // The node above lets the publication through, or is an otherwise.
            None => place = parent as usize,
        }
    }
    None
}

/// Does to the nodes what a publication of the node at `from` does: each otherwise between that node and what takes the publication loses its right
/// side, since its left side has published. Shortens the hints on the way for later walks.
#[inline(always)]
pub fn rise(nodes: &mut Nodes, from: u32)
    ensures rises { Rises nodes.old.items from nodes.new.items }
    ensures passes { Passes nodes.old.items nodes.new.items }
    ensures room { nodes.new.room ≡ nodes.old.room }
    ensures asked { nodes.new.asked ≡ nodes.old.asked }
    ensures len { length nodes.new.items ≡ length nodes.old.items }
{
    let mut place = from;
    // The steps are those of `way_up`, and so is their bound.
    for _steps in 0..nodes.len() {
        // Up to this node nothing takes the publication or is changed by it.
        let top = nodes.hint(place as usize);
        // Node 0 is above the whole term: nothing takes the publication.
        if top == 0 {
            return;
        }
        let parent = nodes.node_at(top).parent;
        let above = nodes.node_at(parent as usize);
        match taker_here(above.kind, top, parent) {
            Some(_) => return,
            None => {
                // Nothing takes it here: the node above lets it through, or is an otherwise.
                nodes.write_node(parent as usize, passed(above));
                nodes.shorten(place);
                place = parent;
            }
        }
    }
}
