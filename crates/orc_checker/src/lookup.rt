//! The nodes that entries name, found by tables that have the node on which each mark, cell or call was put. That node may have become another one
//! since, so each function here asks whether it still has the name, and gives None if it hasn't. Number 0 names nothing: its place in a table has
//! node 0, which has no name. They are nodes of the *marked term*, which is what is left of the program's term after the entries before. A *mark* is
//! the number of a token. A *pruning* is an opened `f <x< g`, and its *cell* stands for x. An *otherwise* is an entered `f ; g`, whose number is the
//! mark of the token that entered it. A *scope* says what names mean.

ghost use Rattle.std.specs.Prelude.{◌≡◌, slice_get};
ghost use Rattle.orc_checker.specs.Index.{node_by, pruning_with, otherwise_with, tip_with, waits_with};

use orc_term::arena::{Double, Kind, Node, Single, Tip};
use orc_term::nodes::Nodes;

/// `places` has for each mark, or for each cell's pruning, the node on which it was put. Gives that node for the mark or cell `number`, with the
/// node's place in the marked term. None if `places` has no such number.
#[inline(always)]
pub(crate) fn node_by(nodes: &Nodes, places: &Vec<u32>, number: u64) -> Option<(u32, Node)>
    ensures { result ≡ node_by nodes.now.items (slice_get places.now.items number) }
{
    match places.get(number as usize) {
        Some(place) => match nodes.get(*place as usize) {
            Some(node) => Some((*place, node)),
            None => None,
        },
        // The number is beyond the table's end.
        None => None,
    }
}

/// The tip of a node of this kind, if the token with mark `s` is on that node: the token stands on a node of the program, or on a value. None where
/// the token isn't there, since the node has become another one.
#[inline(always)]
pub(crate) fn tip_with(kind: Kind, s: u64) -> Option<Tip>
    ensures { result ≡ tip_with kind s }
{
    match kind {
        Kind::Leaf(Tip::Token(mark, node, scope)) if mark == s => {
            Some(Tip::Token(mark, node, scope))
        }
        Kind::Leaf(Tip::Bears(mark, value)) if mark == s => Some(Tip::Bears(mark, value)),
        _ => None,
    }
}

/// Whether a node of this kind still waits for call `k`: the call that was put there may have returned since.
#[inline(always)]
pub(crate) fn waits_with(kind: Kind, k: u64) -> bool
    ensures { result ≡ waits_with kind k }
{
    match kind {
        Kind::Leaf(Tip::Waits(call)) => call == k,
        _ => false,
    }
}

/// The nodes of the left and of the right side, if a node of this kind is the pruning of cell `c`.
pub(crate) fn pruning_with(kind: Kind, c: u64) -> Option<(u32, u32)>
    ensures { result ≡ pruning_with kind c }
{
    match kind {
        Kind::Two(Double::Side(cell), left, right) if cell == c => Some((left, right)),
        _ => None,
    }
}

/// If a node of this kind is otherwise `s`: the node of its left side in the marked term, its right side's node in the program, and the scope of the
/// right side.
pub(crate) fn otherwise_with(kind: Kind, s: u64) -> Option<(u32, u32, u32)>
    ensures { result ≡ otherwise_with kind s }
{
    match kind {
        Kind::One(Single::Entered(mark, right, scope), left) if mark as u64 == s => {
            Some((left, right, scope))
        }
        _ => None,
    }
}
