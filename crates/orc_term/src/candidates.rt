//! The sides that may have halted. A *side* is the right side of an opened pruning (`<x<`), or the left side of an entered otherwise (`;`): once it
//! has halted, an entry `lost` or `right` of the journal ends it. The nodes are those of a marked term, which is what is left of a program's term;
//! `place` and `part` are their numbers.

ghost use Rattle.std.specs.Prelude.{◌≡◌, ◌∷◌, ℕ, false, [], IfOk, Some, slice_get};
ghost use Rattle.orc_term.specs.Sides.{MayBe, AreKnown, is_side, is_side_at, has_ended, is_set, HasEnded};

use crate::arena::{Double, Kind, Single};
use crate::nodes::Nodes;
use std::alloc::{AllocError, Global};
use std::collections::VecDeque;
use std::marker::Model;

/// The nodes among which a side that has halted is looked for: those of all such sides, and some other nodes. If memory for one was refused, all
/// nodes are candidates from then on.
#[derive(Drop)]
pub struct Candidates {
    /// The numbers of the nodes, in the order in which they were added.
    places: VecDeque<u32>,
    /// Whether memory for a place was refused. Then all nodes are candidates, whatever `places` has.
    all: bool,
}

// Contracts see the flag `all`, and the list of places as `listed`.
impl Model for Candidates {
    ghost use Rattle.orc_term.specs.Sides.{Places};

    ghost Value = { Places };

    ghost view = { λ c. record { all = c.all; listed = c.places.items } };
}

/// Whether node `part` is a side of a node of this kind: a left side of an otherwise or a right side of a pruning.
pub fn is_side(kind: Kind, part: usize) -> bool
    ensures { result ≡ is_side kind part }
{
    match kind {
        Kind::One(Single::Entered(_, _, _), side) => side as usize == part,
        Kind::Two(Double::Side(_), _, side) => side as usize == part,
        _ => false,
    }
}

/// Whether the node with the number `place` is a side of its parent: the right side of an opened pruning, or the left side of an entered otherwise.
pub(crate) fn is_side_at(nodes: &Nodes, place: usize) -> bool
    ensures { result ≡ is_side_at nodes.now.items place }
{
    let parent = nodes.node_at(place).parent;
    is_side(nodes.node_at(parent as usize).kind, place)
}

/// Whether the flag of the node at `place` is set, since the node has halted. False where there is no such node; `flag_at` gives true there.
fn is_set(flags: &Vec<bool>, place: usize) -> bool
    ensures { result ≡ is_set flags.now.items place }
{
    match flags.get(place) {
        Some(flag) => *flag,
        None => false,
    }
}

/// Whether the node with the number `place` is a side, and has halted by its flag.
fn has_ended(nodes: &Nodes, flags: &Vec<bool>, place: usize) -> bool
    ensures { result ≡ has_ended nodes.now.items flags.now.items place }
{
    is_set(flags, place) && is_side_at(nodes, place)
}

/// The node with the least number that is a side and has halted, looked for among all nodes. None if there is none.
fn any_ended(nodes: &Nodes, flags: &Vec<bool>) -> Option<usize>
    ensures { HasEnded nodes.now.items flags.now.items result }
{
    for place in 0..flags.len() {
        if has_ended(nodes, flags, place) {
            return Some(place);
        }
    }
    None
}

impl Candidates {
    /// No candidates.
    pub fn new(alloc: Global) -> Candidates
        ensures { result ≡ record { all = false; listed = [] } }
    {
        Candidates {
            places: VecDeque::new(alloc),
            all: false,
        }
    }

    /// A copy of the candidates. The error is refused memory.
    pub fn copy(&self, alloc: Global) -> Result<Candidates, AllocError>
        ensures { IfOk result (λ c. c ≡ self.now) }
    {
        let places = self.places.clone()?;
        Ok(Candidates {
            places,
            all: self.all,
        })
    }

    /// Adds a node that may be a side which has halted. If memory for it is refused, all nodes are candidates from then on. The clauses say that the
    /// node is a candidate now (`MayBe`), and that each earlier candidate still is one.
    pub fn add(&mut self, place: u32)
        ensures added { MayBe self.new place }
        ensures kept { (p : ℕ) → MayBe self.old p → MayBe self.new p }
    {
        if let Err(_) = self.places.try_reserve(1) {
            self.all = true;
            return;
        }
        self.places.push_back_reserved(place);
    }

    /// Whether all nodes are candidates, since memory for one was refused.
    fn are_all(&self) -> bool
        ensures { result ≡ self.now.all }
    {
        self.all
    }

    /// The listed place that was added first. None if no place is listed.
    fn first(&self) -> Option<usize>
        ensures { result ≡ slice_get self.now.listed 0 }
    {
        match self.places.front() {
            Some(place) => Some(*place as usize),
            None => None,
        }
    }

    /// Takes the place that was added first out of the list.
    fn drop_first(&mut self)
        ensures all { self.new.all ≡ self.old.all }
        ensures rest { (p : ℕ) → slice_get self.old.listed 0 ≡ Some p → self.old.listed ≡ p ∷ self.new.listed }
    {
        let _first = self.places.pop_front();
    }
}

/// The node of a side that has halted, and None if there is none: of several the one that was added first, or, where all nodes are candidates, the
/// one with the least number. `flags` says of each node whether it has halted. All sides that have halted have to be candidates (`AreKnown`), and
/// still are so afterwards. Candidates that were added before the one that is given are taken out; that one stays a candidate.
pub fn ended_side(nodes: &Nodes, flags: &Vec<bool>, candidates: &mut Candidates) -> Option<usize>
    requires { AreKnown nodes.now.items flags.now.items candidates.old }
    ensures ends { HasEnded nodes.now.items flags.now.items result }
    ensures known { AreKnown nodes.now.items flags.now.items candidates.new }
{
    // Memory for a candidate was refused once, so all nodes are looked at.
    if candidates.are_all() {
        return any_ended(nodes, flags);
    }
    while let Some(place) = candidates.first() {
        if has_ended(nodes, flags, place) {
            return Some(place);
        }
        // The place isn't a side that has halted. If it becomes one, it is added again.
        candidates.drop_first();
    }
    None
}
