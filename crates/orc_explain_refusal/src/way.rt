//! The way from the part of a marked term that an entry names up to the whole. Parts on the way are shown whole; those beside it are cut where they
//! are long, and what is above it isn't shown. The marked term is the term that is running, with its tokens; it is made of numbered nodes. A part is
//! spent if it has halted and no token stands in it.

use crate::named::{Named, place_of};
use crate::spent::Spent;
use orc_checker::Marked;
use orc_rules::entry::{Entry, RuleFault};
use orc_term::arena::{Double, Kind, Node, Single};
use std::alloc::{AllocError, Global};

/// How many levels above the named part are shown at most: a term may nest thousands. A node for which nothing is written is no level.
const LEVELS: usize = 12;

/// The numbers of the nodes from the named part, at place 0, upwards as far as they are shown; none where no part of the term is named.
#[derive(Drop)]
pub(crate) struct Way {
    nodes: Vec<usize>,
    /// What stands behind the carets: words, and the number that fills them. None for a side that hasn't halted, which the entry's line explains.
    pub label: Option<(&'static str, u64)>,
    /// Whether there are nodes above these that aren't shown.
    pub is_inner: bool,
}

// The number of the node of the side of which a `lost` or a `right` says that it has halted: the right side of a pruning, or the left side of an
// otherwise. None for other entries, or where there is no such side.
fn side_of(marked: &Marked, entry: &Entry) -> Option<usize> {
    let named = match entry {
        Entry::Lost(cell) => Named::Cell(*cell),
        Entry::Right(otherwise, _) => Named::Otherwise(*otherwise),
        _ => return None,
    };
    let slot = marked.nodes().get(place_of(marked, named)?)?;
    match slot.node().kind {
        Kind::Two(_, _, right) => Some(right as usize),
        Kind::One(_, left) => Some(left as usize),
        Kind::Leaf(_) => None,
    }
}

// Whether nothing is written for the node `above` but its part on the way, `part`: a node that means just its part, as an otherwise that has
// published or a pruning whose cell is bound or lost, or a `|` whose other side is spent.
fn is_silent(marked: &Marked, spent: &Spent, above: Node, part: usize) -> bool {
    match above.kind {
        Kind::One(Single::Passed, _) => true,
        Kind::Two(Double::Both, left, right) => {
            let (left, right) = (left as usize, right as usize);
            spent.is_spent(marked, if left == part { right } else { left })
        }
        _ => false,
    }
}

impl Way {
    /// The way from what a refused entry names: from its token or its call, or, for a side that hasn't halted, from that side. The error is refused
    /// memory.
    pub(crate) fn new(
        alloc: Global,
        marked: &Marked,
        spent: &Spent,
        entry: Option<&Entry>,
        named: Named,
        why: RuleFault,
    ) -> Result<Way, AllocError> {
        let label = match named {
            Named::Token(mark) => Some((" mark %", mark)),
            Named::Call(call) => Some((" call %", call)),
            Named::Cell(_) | Named::Otherwise(_) | Named::Nothing => None,
        };
        // The words behind the carets with their number, and the number of the node at which the way begins.
        let (label, place) = match (why, entry) {
            (RuleFault::Halted, Some(entry)) => (None, side_of(marked, entry)),
            _ if label.is_some() => (label, place_of(marked, named)),
            // A cell, an otherwise or nothing is named: no part is pointed at.
            _ => (None, None),
        };
        let mut way = Way {
            nodes: Vec::new(alloc),
            label,
            is_inner: false,
        };
        if let Some(place) = place {
            way.climb(marked, spent, place)?;
        }
        Ok(way)
    }

    // Notes the numbers of the nodes from node `from` up to node 0, which is above the whole term, or to the highest level that is shown. The error
    // is refused memory.
    fn climb(&mut self, marked: &Marked, spent: &Spent, from: usize) -> Result<(), AllocError> {
        let mut place = from;
        let mut levels: usize = 0;
        self.nodes.push(place)?;
        // No way up is longer than the list of nodes.
        for _node in 0..marked.nodes().len() {
            if place == 0 {
                return Ok(());
            }
            let Some(slot) = marked.nodes().get(place) else {
                return Ok(());
            };
            let parent = slot.node().parent as usize;
            // Each parent is a node, so neither this `else` nor the one above is reached.
            let Some(above) = marked.nodes().get(parent) else {
                return Ok(());
            };
            if !is_silent(marked, spent, above.node(), place) {
                // The node above would be one level too many: the way ends below it.
                if levels == LEVELS {
                    self.is_inner = true;
                    return Ok(());
                }
                levels = levels.saturating_add(1);
            }
            self.nodes.push(parent)?;
            place = parent;
        }
        Ok(())
    }

    /// Whether a part is named, so that long parts beside the way from it upwards become `..`.
    pub(crate) fn is_short(&self) -> bool {
        !self.nodes.is_empty()
    }

    /// The place on the way of the highest node that is shown. None where nothing is named.
    pub(crate) fn top(&self) -> Option<usize> {
        self.nodes.len().checked_sub(1)
    }

    /// The number of the node at this place of the way, where the named one is at 0. None above the highest that is shown.
    pub(crate) fn node(&self, place: usize) -> Option<usize> {
        self.nodes.get(place).copied()
    }
}
