//! The nodes of a marked term by their numbers, with three indexes that save time: hints, where the restless nodes are, and ranks. A node that was
//! dropped with a side (the right one of a `<x<`, the left one of a `;`) is *gone*, and keeps its number.

ghost use Rattle.std.specs.Prelude.{◌≡◌, ◌∷◌, ◌++◌, [], ◌+◌, ◌≤◌, ◌<◌, ◌^◌, List, length, slice_get, slice_set, slice_index_or, vec_len, vec_capacity, IfOk, IfSome};
ghost use Rattle.orc_term.specs.Grafting.{relink};
ghost use Rattle.orc_term.specs.Hints.{lets, lifted, IsAbove, IsHintBelow, IsBeside, CanBecome, CanWake};
ghost use Rattle.orc_term.specs.Ranks.{AreLevelsAtMost};
ghost use Rattle.orc_term.specs.Asking.{AreOfNodes, AreToAsk};
ghost use Rattle.orc_term.specs.Rising.{nowhere};

use crate::arena::{Double, Kind, Node, Single, Tip};
use crate::ranks::Ranks;
use crate::restless::{Restless, ToAsk};
use crate::room::{fits, push_within, reserve_two};
use crate::slot::Slot;
use std::alloc::{AllocError, Global};
use std::marker::Model;

/// The nodes of a marked term. Their numbers count from 0, and a node keeps its number.
#[derive(Drop)]
pub struct Nodes {
    /// The nodes, those that are gone too.
    items: Vec<Slot>,
    /// Each node's *hint*: the node itself, or a node above it such that this one and all between let through what is published below them, and don't
    /// change by it. A walk upward goes from hint to hint, so that its cost doesn't grow with the number of `|` on its way.
    hints: Vec<u32>,
    /// Where the *restless* nodes are, those with a token, which can move now or later, and which of them were asked whether they can
    /// (`restless.rt`). The question whether a token can move looks at the others and at new nodes alone, so that tokens that wait cost it nothing.
    restless: Restless,
    /// Numbers that grow downwards. They bound how deep the nodes nest (`ranks.rt`).
    ranks: Ranks,
}

// Contracts see the nodes, `room`: how many more `push_within` can add, `wakes`: how many more can get a token by `wake`, and `asked`: the kinds of
// the nodes that needn't be asked again. The invariant says that hints, restless nodes and ranks are as the fields' comments say.

impl Model for Nodes {
    ghost use Rattle.std.specs.Prelude.{◌-◌, ◌^◌, min, vec_len, vec_capacity};
    ghost use Rattle.orc_term.specs.Hints.{Stock, AreHints};
    ghost use Rattle.orc_term.specs.Asking.{asked_kinds, AreNoted};
    ghost use Rattle.orc_term.specs.Ranks.{AreKept};

    ghost Value = { Stock };

    ghost view = { λ n. record { items = n.items.items; room = min (2 ^ 32 - 1 - vec_len n.items) (min (vec_capacity n.items - vec_len n.items) (vec_capacity n.hints - vec_len n.hints)); wakes = vec_capacity n.restless.woken - vec_len n.restless.woken; asked = asked_kinds n.restless } };

    ghost invariant = { λ n. AreHints n.items.items n.hints.items × AreNoted n.items.items n.restless × AreKept n.items.items n.ranks };
}

/// The node of that number; where there is none, one that is gone, with parent 0.
#[inline(always)]
pub fn item(items: &Vec<Slot>, i: usize) -> Node
    ensures { result ≡ slice_index_or items.now.items i nowhere }
{
    match items.get(i) {
        Some(slot) => slot.node(),
        None => Node {
            kind: Kind::Leaf(Tip::Gone),
            parent: 0,
        },
    }
}

// Writes node `i`. Where there is no such node nothing changes.
#[inline(always)]
fn set_item(items: &mut Vec<Slot>, i: usize, node: Node)
    ensures items { items.new.items ≡ slice_set items.old.items i node }
    ensures len { vec_len items.new ≡ vec_len items.old }
    ensures capacity { vec_capacity items.new ≡ vec_capacity items.old }
{
    if let Some(slot) = items.get_mut(i) {
        *slot = Slot::new(node);
    }
}

// Whether what a node's part publishes goes through the node and leaves it as it is. A node that is gone has no parts; the answer true for it keeps
// the hints right that lead past a node when it becomes gone.
#[inline(always)]
fn lets_through(kind: Kind, part: u32) -> bool
    ensures { result ≡ lets kind part }
{
    match kind {
        Kind::Leaf(Tip::Gone) => true,
        // A `Passed` node means just its part, and `Both` is a `|`.
        Kind::One(Single::Passed, _) => true,
        Kind::Two(Double::Both, _, _) => true,
        // What the right side publishes is bound to the cell.
        Kind::Two(Double::Side(_), left, _) => left == part,
        // A `>x>` takes what its part publishes, an otherwise loses its right side by it, and a node without parts has none that publishes.
        _ => false,
    }
}

// The hint of node `i`: the node itself, or one above it up to which nothing takes or is changed by what the node publishes. `i` where there is no
// such node.
#[inline(always)]
fn hint_at(hints: &Vec<u32>, i: usize) -> usize
    ensures { result ≡ slice_index_or hints.now.items i i }
{
    match hints.get(i) {
        Some(hint) => *hint as usize,
        None => i,
    }
}

// The hint of node `i` in the 32 bits in which it is stored; `i` itself where there is no such node.
#[inline(always)]
fn stored_hint(hints: &Vec<u32>, i: u32) -> u32
    ensures { result ≡ slice_index_or hints.now.items i i }
{
    match hints.get(i as usize) {
        Some(hint) => *hint,
        None => i,
    }
}

// Writes the hint of node `i`: the number of that node itself or of one above it. Where there is no such node nothing changes.
#[inline(always)]
fn set_hint(hints: &mut Vec<u32>, i: u32, hint: u32)
    ensures items { hints.new.items ≡ slice_set hints.old.items i hint }
    ensures len { vec_len hints.new ≡ vec_len hints.old }
    ensures capacity { vec_capacity hints.new ≡ vec_capacity hints.old }
{
    if let Some(slot) = hints.get_mut(i as usize) {
        *slot = hint;
    }
}

// The hint of node `i` below `parent`: that of the parent where the parent lets through what the node publishes, otherwise the node itself.
#[inline(always)]
fn hint_below(items: &Vec<Slot>, hints: &Vec<u32>, i: u32, parent: u32) -> u32
    ensures { IsHintBelow items.now.items hints.now.items i parent result }
{
    match items.get(parent as usize) {
        Some(above) if lets_through(above.node().kind, i) => stored_hint(hints, parent),
        _ => i,
    }
}

/// A node's kind with `to` in place of its part `from`, which one of its parts is.
fn relinked(kind: Kind, from: u32, to: u32) -> Kind
    ensures { result ≡ relink kind from to }
{
    match kind {
        // Not reached: a leaf has no part.
        Kind::Leaf(_) => kind,
        Kind::One(single, _) => Kind::One(single, to),
        Kind::Two(double, left, right) => {
            if left == from {
                Kind::Two(double, to, right)
            } else {
                Kind::Two(double, left, to)
            }
        }
    }
}

impl Nodes {
    /// No nodes, with room for two: a marked term begins with node 0 and its root. The error is refused memory.
    pub fn new(alloc: Global) -> Result<Nodes, AllocError>
        ensures items { IfOk result (λ n. n.items ≡ []) }
        ensures room { IfOk result (λ n. 2 ≤ n.room) }
        ensures asked { IfOk result (λ n. n.asked ≡ []) }
    {
        let items = Vec::with_capacity(alloc, 2)?;
        let hints = Vec::with_capacity(alloc, 2)?;
        let restless = Restless::new(alloc);
        Ok(Nodes {
            items,
            hints,
            restless,
            ranks: Ranks::new(alloc),
        })
    }

    /// A copy of the nodes with their indexes. It may have no room for more. The error is refused memory.
    pub fn copy(&self, alloc: Global) -> Result<Nodes, AllocError>
        ensures items { IfOk result (λ n. n.items ≡ self.now.items) }
        ensures asked { IfOk result (λ n. n.asked ≡ self.now.asked) }
    {
        let items = Vec::from_slice(alloc, &self.items)?;
        let hints = Vec::from_slice(alloc, &self.hints)?;
        let restless = self.restless.copy(alloc)?;
        let ranks = self.ranks.copy(alloc)?;
        Ok(Nodes {
            items,
            hints,
            restless,
            ranks,
        })
    }

    /// Where the nodes' memory comes from.
    pub fn allocator(&self) -> Global {
        *self.items.allocator()
    }

    /// How many nodes there are, with those that are gone: fewer than 2^63.
    pub fn len(&self) -> usize
        ensures count { result ≡ length self.now.items }
        ensures fits { result < 2 ^ 63 }
    {
        self.items.len()
    }

    /// The number that the next node gets. Room for two nodes has to be reserved, so this number and the one after it fit 32 bits.
    pub fn next_number(&self) -> u32
        requires { 2 ≤ self.now.room }
        ensures count { result ≡ length self.now.items }
        ensures fits { result + 1 < 2 ^ 32 }
    {
        self.items.len() as u32
    }

    /// The nodes in the order of their numbers, with those that are gone.
    pub fn items(&self) -> &[Slot]
        ensures { result.now ≡ self.now.items }
    {
        &self.items
    }

    /// The node of that number. None if there is no such node.
    #[inline(always)]
    pub fn get(&self, i: usize) -> Option<Node>
        ensures { result ≡ slice_get self.now.items i }
    {
        match self.items.get(i) {
            Some(slot) => Some(slot.node()),
            None => None,
        }
    }

    /// The node of that number, one that is gone where there is none.
    #[inline(always)]
    pub fn node_at(&self, i: usize) -> Node
        ensures { result ≡ slice_index_or self.now.items i nowhere }
    {
        item(&self.items, i)
    }

    /// A node's hint: the node itself, or one above it up to which nothing takes a publication of the node or is changed by it.
    #[inline(always)]
    pub fn hint(&self, i: usize) -> usize
        ensures { IsAbove self.now.items i result }
    {
        hint_at(&self.hints, i)
    }

    /// Moves a node's hint further up, to the hint of the node above it, if that node lets through what comes from below. Walks that call it at each
    /// hint on their way halve the way for later ones, as in a union-find. Callers see no change.
    pub(crate) fn shorten(&mut self, i: u32)
        ensures { self.new ≡ self.old }
    {
        let hint = stored_hint(&self.hints, i);
        if let Some(node) = self.get(hint as usize) {
            let further = hint_below(&self.items, &self.hints, hint, node.parent);
            set_hint(&mut self.hints, i, further);
        }
    }

    /// The nodes whose tokens have to be asked whether they can move: all with a token but those whose kinds are in `asked`. Some of the nodes have
    /// no token, and a number may come twice.
    pub fn to_ask(&self) -> ToAsk<'_>
        ensures { AreToAsk self.now.items self.now.asked result.waiting.now result.woken.now result.first_new }
    {
        self.restless.to_ask()
    }

    /// Notes that all tokens were asked: none of them is asked again until `forget_asked`, or until its node gets another token by `wake`. If memory
    /// is refused, all are asked again. The nodes stay.
    pub fn note_asked(&mut self)
        ensures items { self.new.items ≡ self.old.items }
        ensures asked { AreOfNodes self.new.items self.new.asked }
    {
        self.restless.note_asked(&self.items);
    }

    /// Has all tokens asked again. The nodes stay.
    pub fn forget_asked(&mut self)
        ensures items { self.new.items ≡ self.old.items }
        ensures asked { self.new.asked ≡ [] }
    {
        self.restless.forget_asked();
    }

    /// A bound on how many nodes are one below another under node 0: the greatest rank, since each node has a greater rank than its parent. None
    /// where the ranks aren't kept, as after memory or a rank was refused, until they are renewed.
    pub fn levels_below(&self) -> Option<usize>
        ensures { IfSome result (AreLevelsAtMost self.now.items) }
    {
        if self.ranks.are_kept {
            Some(self.ranks.most as usize)
        } else {
            None
        }
    }

    /// Looks at all nodes to give them the least ranks (numbers that grow downwards), so that `levels_below` is as small as ranks can make it. If
    /// memory is refused, `levels_below` is None. The nodes stay.
    pub fn renew_ranks(&mut self)
        ensures { self.new ≡ self.old }
    {
        self.ranks.renew(&self.items);
    }

    /// If the nodes that wait are asked again, takes those out of their list that have no token any more. The nodes stay.
    pub fn tidy(&mut self)
        ensures items { self.new.items ≡ self.old.items }
        ensures asked { self.new.asked ≡ self.old.asked }
    {
        self.restless.tidy(&self.items);
    }

    /// Reserves memory for two more nodes, whose numbers have 32 bits. The error is refused memory, or that 32 bits are too few. The nodes stay.
    #[inline(always)]
    pub fn reserve(&mut self) -> Result<(), AllocError>
        ensures items { self.new.items ≡ self.old.items }
        ensures asked { self.new.asked ≡ self.old.asked }
        ensures room { IfOk result (λ _. 2 ≤ self.new.room) }
    {
        // The numbers of both new nodes have to fit 32 bits.
        fits(self.items.len() + 2)?;
        reserve_two(&mut self.items)?;
        reserve_two(&mut self.hints)?;
        Ok(())
    }

    /// Reserves memory for one node that gets a token by `wake`. The error is refused memory. The nodes stay.
    #[inline(always)]
    pub fn reserve_wake(&mut self) -> Result<(), AllocError>
        ensures items { self.new.items ≡ self.old.items }
        ensures asked { self.new.asked ≡ self.old.asked }
        ensures room { IfOk result (λ _. 1 ≤ self.new.wakes) }
    {
        self.restless.reserve(&self.items)
    }

    /// Adds a node at the end, with the number `next_number`. Room for it has to be reserved, and is used up. Refused memory for its rank is no
    /// error: then `levels_below` is None until `renew_ranks`.
    #[inline(always)]
    pub fn push_within(&mut self, node: Node)
        requires { 1 ≤ self.old.room }
        ensures items { self.new.items ≡ self.old.items ++ node ∷ [] }
        ensures asked { self.new.asked ≡ self.old.asked }
        ensures room { self.old.room ≤ self.new.room + 1 }
    {
        let number = self.items.len() as u32;
        let hint = hint_below(&self.items, &self.hints, number, node.parent);
        // The rank comes first: `add` asks for the nodes without the new one.
        self.ranks.add(&self.items, node);
        // Each of these calls is of the function in `room.rt` that adds an item to one list.
        push_within(&mut self.items, Slot::new(node));
        push_within(&mut self.hints, hint);
        // Nothing is noted in `restless`: a new node is asked in any case.
    }

    /// Replaces a node. The new one has the same parent, lets through all that the old one let through, and has no token, or the one that was there:
    /// so the hints stay right, and no restless node is missed.
    #[inline(always)]
    pub fn write_node(&mut self, i: usize, node: Node)
        requires { CanBecome self.old.items i node }
        ensures items { self.new.items ≡ slice_set self.old.items i node }
        ensures asked { self.new.asked ≡ self.old.asked }
        ensures room { self.new.room ≡ self.old.room }
    {
        // No rank changes. `write` notes whether the ranks still fit the parts of the new node.
        self.ranks.write(&self.items, i, node);
        set_item(&mut self.items, i, node);
    }

    /// Replaces a node as `write_node` does, but the new one may have a token that the old one hadn't. Room for that has to be reserved
    /// (`reserve_wake`).
    #[inline(always)]
    pub fn wake(&mut self, i: u32, node: Node)
        requires room { 1 ≤ self.old.wakes }
        requires node { CanWake self.old.items i node }
        ensures items { self.new.items ≡ slice_set self.old.items i node }
        ensures asked { self.new.asked ≡ self.old.asked }
    {
        // No rank changes. `write` notes whether the ranks still fit the parts of the new node.
        self.ranks.write(&self.items, i as usize, node);
        set_item(&mut self.items, i as usize, node);
        self.restless.wake(i);
    }

    /// Puts the `|` with the number `both` in the place of node `i`, and node `i` with all that is below it under the `|`. The `|` is newer than node
    /// `i`, has node `i` as its left part and the next node, `both` + 1, as its right part, and has the same parent as node `i`. No hint changes,
    /// since a `|` lets everything through.
    #[inline(always)]
    pub fn lift(&mut self, i: u32, both: u32)
        requires { IsBeside self.old.items i both }
        ensures items { self.new.items ≡ lifted self.old.items i both }
        ensures asked { self.new.asked ≡ self.old.asked }
        ensures room { self.new.room ≡ self.old.room }
    {
        let node = item(&self.items, i as usize);
        // Node `i` goes below the `|`.
        set_item(
            &mut self.items,
            i as usize,
            Node {
                kind: node.kind,
                parent: both,
            },
        );
        // The node that was above node `i` gets the `|` as its part in place of node `i`.
        let above = item(&self.items, node.parent as usize);
        set_item(
            &mut self.items,
            node.parent as usize,
            Node {
                kind: relinked(above.kind, i, both),
                parent: above.parent,
            },
        );
        // The `|` may have no rank between those of its parent and node `i`: then the nodes below it get greater ones.
        self.ranks.lift(&self.items, i as usize, both as usize, node.parent as usize);
    }
}
