//! The parts of a marked term that are spent: they have halted, and no token stands in them. They are shown as `stop`, or left out beside a `|`. A
//! marked term is the term of a run with its tokens, made of numbered nodes; a node's `Kind` says what parts it has.

use orc_checker::Marked;
use orc_term::arena::{Kind, Tip};
use std::alloc::{AllocError, Global};

/// For each node of a marked term, in their order, whether it has halted and a token still stands in it, as one on a `stop` may.
#[derive(Drop)]
pub(crate) struct Spent {
    is_held: Vec<bool>,
}

impl Spent {
    /// Looks at all nodes of a term. The error is refused memory.
    pub(crate) fn new(alloc: Global, marked: &Marked) -> Result<Spent, AllocError> {
        let mut is_held = Vec::new(alloc);
        for _node in marked.nodes() {
            is_held.push(false)?;
        }
        let mut spent = Spent { is_held };
        for (place, slot) in marked.nodes().iter().enumerate() {
            if let Kind::Leaf(Tip::Token(_, _, _)) = slot.node().kind {
                spent.hold(marked, place);
            }
        }
        Ok(spent)
    }

    // Notes that a token stands in the node `from`, and so in the nodes above it, as far as they have halted. The climb ends at a node that is noted
    // already, since those above it are noted, too: so all calls together note each node once.
    fn hold(&mut self, marked: &Marked, from: usize) {
        let mut place = from;
        // No way up is longer than the list of nodes.
        for _node in marked.nodes() {
            let Some(is_held) = self.is_held.get_mut(place) else {
                return;
            };
            if *is_held || !marked.part_has_halted(place) {
                return;
            }
            *is_held = true;
            match marked.nodes().get(place) {
                // Node 0 is above the whole term: the climb ends there.
                Some(slot) if place != 0 => place = slot.node().parent as usize,
                _ => return,
            }
        }
    }

    /// Whether the part at the node with number `place` has halted, and no token stands in it.
    pub(crate) fn is_spent(&self, marked: &Marked, place: usize) -> bool {
        marked.part_has_halted(place) && self.is_held.get(place) == Some(&false)
    }
}
