//! The node that has a name, found by a look at all nodes. The marked term (`marked`) is what is left of the program's term after the first entries
//! of a journal. A *mark* is the number of a token; an entered `;` goes by the mark of the token that entered it. A *cell* stands for the variable of
//! an opened `<x<`.

ghost use Rattle.std.specs.Prelude.{◌≡◌, true, false, Some, IfSome, IfNone};
ghost use Rattle.orc_verdict.specs.Finding.{name_at as name_shown, is_leaf, is_one, Has, HasNone, LacksAt};

use orc_checker::Marked;
use orc_term::arena::{Double, Kind, Single, Tip};
use orc_term::slot::Slot;

/// What an entry names, by its number: a token or an otherwise by its mark, a call, or a cell.
#[derive(Clone, Copy, PartialEq, Eq)]
pub(crate) enum Name {
    Mark(u64),
    Call(u64),
    Cell(u64),
}

/// A node that was found: its number and its kind.
#[derive(Clone, Copy)]
pub(crate) struct Part {
    pub at: usize,
    pub kind: Kind,
}

/// The name by which an entry can name a node of this kind: a mark `s`, a call `k` or a cell `c`. None if it has none.
fn name_of(kind: Kind) -> Option<Name>
    ensures { result ≡ name_shown kind }
{
    match kind {
        Kind::Leaf(Tip::Token(s, _, _)) => Some(Name::Mark(s)),
        Kind::Leaf(Tip::Bears(s, _)) => Some(Name::Mark(s)),
        Kind::Leaf(Tip::Waits(k)) => Some(Name::Call(k)),
        Kind::One(Single::Entered(s, _, _), _) => Some(Name::Mark(s as u64)),
        Kind::Two(Double::Side(c), _, _) => Some(Name::Cell(c)),
        // `>x>`, `|`, a node that means just its part, and a leaf without a token and a call.
        _ => None,
    }
}

/// Whether a node has no parts.
pub(crate) fn is_leaf(kind: Kind) -> bool
    ensures { result ≡ is_leaf kind }
{
    match kind {
        Kind::Leaf(_) => true,
        _ => false,
    }
}

/// Whether a node has one part.
pub(crate) fn is_one(kind: Kind) -> bool
    ensures { result ≡ is_one kind }
{
    match kind {
        Kind::One(_, _) => true,
        _ => false,
    }
}

/// Whether a node of this kind has the name.
fn is_named(kind: Kind, name: Name) -> bool
    ensures yes { result ≡ true → name_shown kind ≡ Some name }
    ensures no { result ≡ false → name_shown kind ≡ Some name → ⊥ }
{
    match name_of(kind) {
        Some(shown) => shown == name,
        None => false,
    }
}

/// The node with the number `at`, if it has the name. None if it hasn't, or if there is no such node.
fn part_at(nodes: &[Slot], name: Name, at: usize) -> Option<Part>
    ensures has { IfSome result (λ f. Has nodes.now name f) }
    ensures lacks { IfNone result (LacksAt nodes.now name at) }
{
    match nodes.get(at) {
        Some(slot) => {
            let kind = slot.node().kind;
            if is_named(kind, name) {
                Some(Part { at, kind })
            } else {
                None
            }
        }
        None => None,
    }
}

/// The first node of the marked term that has the name. None if none has it. The function looks at each node up to that one.
pub(crate) fn find(marked: &Marked, name: Name) -> Option<Part>
    ensures has { IfSome result (λ f. Has marked.now.nodes name f) }
    ensures none { IfNone result (HasNone marked.now.nodes name) }
{
    let nodes = marked.nodes();
    for at in 0..nodes.len() {
        match part_at(nodes, name, at) {
            Some(found) => return Some(found),
            None => {}
        }
    }
    None
}
