//! What an entry names, and at which node of the marked term that is. The *marked term* is the term that is running, with its tokens, each by its
//! number, its *mark*. It is made of numbered nodes, whose `Kind` says what parts they have.

use orc_checker::Marked;
use orc_rules::entry::Entry;
use orc_term::arena::{Double, Kind, Single, Tip};
use orc_verdict::mark_named;

/// What an entry needs to find in the term. All numbers are from 1.
#[derive(Clone, Copy)]
pub(crate) enum Named {
    /// A token, by its mark.
    Token(u64),
    /// A pending call, by its number.
    Call(u64),
    /// The pruning of a cell, by the cell's number.
    Cell(u64),
    /// An entered otherwise, by the mark of the token that entered it.
    Otherwise(u64),
    /// No token, call, cell or otherwise, as of a `tick` and a `cancel`.
    Nothing,
}

/// What an entry names first; nothing for a `tick` and a `cancel`.
pub(crate) fn named_by(entry: &Entry) -> Named {
    if let Some(mark) = mark_named(entry) {
        return Named::Token(mark);
    }
    match entry {
        Entry::Return(call, _, _) | Entry::ReturnHalt(call) => Named::Call(*call),
        Entry::Lost(cell) => Named::Cell(*cell),
        Entry::Right(otherwise, _) => Named::Otherwise(*otherwise),
        _ => Named::Nothing,
    }
}

// Whether a node of this kind is what is named. A token is named by its mark, whether it stands on a node of the program or bears an answer.
fn is_named(kind: Kind, named: Named) -> bool {
    match (kind, named) {
        (Kind::Leaf(Tip::Token(mark, _, _)), Named::Token(token)) => mark == token,
        (Kind::Leaf(Tip::Bears(mark, _)), Named::Token(token)) => mark == token,
        (Kind::Leaf(Tip::Waits(number)), Named::Call(call)) => number == call,
        (Kind::Two(Double::Side(number), _, _), Named::Cell(cell)) => number == cell,
        (Kind::One(Single::Entered(mark, _, _), _), Named::Otherwise(other)) => {
            mark as u64 == other
        }
        _ => false,
    }
}

/// Whether the node with the number `place` is what is named.
pub(crate) fn stands_at(marked: &Marked, place: usize, named: Named) -> bool {
    match marked.nodes().get(place) {
        Some(slot) => is_named(slot.node().kind, named),
        None => false,
    }
}

/// The number of the node of the term that is what is named; None where there is none. It looks at all nodes.
pub(crate) fn place_of(marked: &Marked, named: Named) -> Option<usize> {
    for (place, slot) in marked.nodes().iter().enumerate() {
        if is_named(slot.node().kind, named) {
            return Some(place);
        }
    }
    None
}
