//! Where the nodes with tokens are, and which of them need not be asked again.
//!
//! To *ask* a token is to find out whether it can move. At each tick of a journal none can, and a token that waits often can't at the next tick
//! either. So the checker notes that it has asked all tokens (`note_asked`), and later asks only those on nodes that came since or got a token since.
//! Once a token that waits may be able to move, the checker has all of them asked again (`forget_asked`). `items` has the nodes of the marked term by
//! their numbers; `place` and `i` are such numbers. A node's *kind* says what it is, and which parts it has.

ghost use Rattle.std.specs.Prelude.{◌≡◌, ◌<◌, ◌≤◌, [], true, ℕ, List, vec_len, vec_capacity, IfOk, slice_set};
ghost use Rattle.orc_term.specs.Hints.{restless};
ghost use Rattle.orc_term.specs.Asking.{asked_kinds, AreNoted, AreOfNodes, AreToAsk, IsListed, StayListed};
ghost use Rattle.orc_term.specs.Settling.{kind_at};
ghost use Rattle.orc_term.specs.declared.arena.Node.{Node as NodeOf};

use crate::arena::{Kind, Tip};
use crate::asked::{Asked, kinds_again, kinds_of, pick_kinds};
use crate::nodes::item;
use crate::room::{fits, push_within};
use crate::slot::Slot;
use std::alloc::{AllocError, Global};

/// Where the nodes with tokens are: each of them is new, or in one of two lists.
#[derive(Drop)]
pub struct Restless {
    /// The number of the first node that came after all tokens were asked last. Nodes with this number or a greater one are new.
    pub first_new: usize,
    /// The older nodes that got a token since then. Some have none any more. They are in no order, and a number may come twice.
    pub woken: Vec<u32>,
    /// The older nodes that had a token then. Some have none any more. They are in no order, and a number may come twice.
    pub waiting: Vec<u32>,
    /// Whether the tokens of `waiting` need not be asked again. False at first, after `forget_asked`, and once memory was refused to `note_asked`.
    pub are_still: bool,
    /// The kinds of all nodes when the tokens were asked last.
    pub asked: Asked,
}

/// The nodes whose tokens have to be asked.
#[derive(Clone, Copy)]
pub struct ToAsk<'a> {
    /// Nodes that had a token when all were asked last; none where those need not be asked again.
    pub waiting: &'a [u32],
    /// Nodes that got a token since.
    pub woken: &'a [u32],
    /// The number of the first node that came since. All from there on have to be asked.
    pub first_new: usize,
}

/// Whether a node has a token, which can move now or later; `Bears` is a token with the answer of a call.
#[inline(always)]
pub fn is_restless(kind: Kind) -> bool
    ensures { result ≡ restless kind }
{
    match kind {
        Kind::Leaf(Tip::Token(_, _, _)) | Kind::Leaf(Tip::Bears(_, _)) => true,
        _ => false,
    }
}

// Takes out of a list of node numbers those whose nodes have no token any more. The list loses its order.
fn keep_restless(items: &Vec<Slot>, list: &mut Vec<u32>)
    ensures { StayListed items.now.items list.old.items list.new.items }
{
    let mut next = 0;
    // Not a `for`: the list shrinks, and its last number comes to the place of one that is taken out.
    while next < list.len() {
        if is_restless(item(items, list[next] as usize).kind) {
            next += 1;
        } else {
            let _number = list.swap_remove(next);
        }
    }
}

// Makes room for one more in a list of nodes. A full list first drops the nodes without a token, and grows only if half of its room or more stays
// taken. So half of it is filled between two looks at all of it. The error is refused memory.
fn reserve_listed(items: &Vec<Slot>, list: &mut Vec<u32>) -> Result<(), AllocError>
    ensures listed { StayListed items.now.items list.old.items list.new.items }
    ensures room { IfOk result (λ _. vec_len list.new < vec_capacity list.new) }
{
    // One more fits already.
    if list.len() < list.capacity() {
        return Ok(());
    }
    keep_restless(items, list);
    let len = list.len();
    if len < list.capacity() / 2 {
        // Less than half of the room is taken, so one more fits.
        return Ok(());
    }
    // Room for as many more as the list has now; an empty list gets room for one.
    list.try_reserve(len.max(1))
}

// Adds to `list` the number of node `place`, if the node has a token. The error is refused memory.
#[inline(always)]
fn push_restless(items: &Vec<Slot>, list: &mut Vec<u32>, place: u32) -> Result<(), AllocError>
    ensures kept { (i : ℕ) → IsListed i list.old.items → IsListed i list.new.items }
    ensures added { IfOk result (λ _. restless (kind_at items.now.items place) ≡ true → IsListed place list.new.items) }
{
    if is_restless(item(items, place as usize).kind) {
        list.push(place)?;
    }
    Ok(())
}

// Adds to `list` the nodes of `woken` that have a token. The error is refused memory.
fn push_woken(items: &Vec<Slot>, list: &mut Vec<u32>, woken: &Vec<u32>) -> Result<(), AllocError>
    ensures kept { (i : ℕ) → IsListed i list.old.items → IsListed i list.new.items }
    ensures added { IfOk result (λ _. StayListed items.now.items woken.now.items list.new.items) }
{
    for index in 0..woken.len() {
        push_restless(items, list, woken[index])?;
    }
    Ok(())
}

// Adds to `list` the nodes from number `first` on that have a token. The error is refused memory, or a number of over 32 bits.
fn push_new(items: &Vec<Slot>, list: &mut Vec<u32>, first: usize) -> Result<(), AllocError>
    ensures kept { (i : ℕ) → IsListed i list.old.items → IsListed i list.new.items }
    ensures added { IfOk result (λ _. (i : ℕ) → first ≤ i → restless (kind_at items.now.items i) ≡ true → IsListed i list.new.items) }
{
    fits(items.len())?;
    for place in first..items.len() {
        push_restless(items, list, place as u32)?;
    }
    Ok(())
}

impl Restless {
    /// What is noted of no nodes.
    pub fn new(alloc: Global) -> Restless
        ensures noted { AreNoted [] result }
        ensures asked { asked_kinds result ≡ [] }
    {
        Restless {
            first_new: 0,
            woken: Vec::new(alloc),
            waiting: Vec::new(alloc),
            are_still: false,
            asked: pick_kinds(),
        }
    }

    /// A copy. The error is refused memory.
    pub fn copy(&self, alloc: Global) -> Result<Restless, AllocError>
        ensures noted { IfOk result (λ r. (nodes : List NodeOf) → AreNoted nodes self.now → AreNoted nodes r) }
        ensures asked { IfOk result (λ r. asked_kinds r ≡ asked_kinds self.now) }
    {
        let woken = Vec::from_slice(alloc, &self.woken)?;
        let waiting = Vec::from_slice(alloc, &self.waiting)?;
        Ok(Restless {
            first_new: self.first_new,
            woken,
            waiting,
            are_still: self.are_still,
            asked: kinds_again(&self.asked),
        })
    }

    /// Makes room for one node that gets a token. The error is refused memory.
    #[inline(always)]
    pub fn reserve(&mut self, items: &Vec<Slot>) -> Result<(), AllocError>
        ensures noted { AreNoted items.now.items self.old → AreNoted items.now.items self.new }
        ensures asked { asked_kinds self.new ≡ asked_kinds self.old }
        ensures room { IfOk result (λ _. vec_len self.new.woken < vec_capacity self.new.woken) }
    {
        reserve_listed(items, &mut self.woken)
    }

    /// Node `i` is about to become another one, which may have a token that node `i` hasn't. Room for it has to be reserved.
    #[inline(always)]
    pub fn wake(&mut self, i: u32)
        requires { vec_len self.old.woken < vec_capacity self.old.woken }
        ensures noted { (nodes : List NodeOf) (node : NodeOf) → AreNoted nodes self.old → AreNoted (slice_set nodes i node) self.new }
        ensures asked { asked_kinds self.new ≡ asked_kinds self.old }
    {
        // A new node is asked in any case.
        if (i as usize) < self.first_new {
            push_within(&mut self.woken, i);
        }
    }

    /// If the nodes that wait are asked again, takes those out of their list that have no token any more.
    pub fn tidy(&mut self, items: &Vec<Slot>)
        ensures noted { AreNoted items.now.items self.old → AreNoted items.now.items self.new }
        ensures asked { asked_kinds self.new ≡ asked_kinds self.old }
        ensures woken { self.new.woken ≡ self.old.woken }
    {
        if !self.are_still {
            keep_restless(items, &mut self.waiting);
        }
    }

    /// The nodes whose tokens have to be asked: all but those that were asked before and stand as they did.
    pub fn to_ask(&self) -> ToAsk<'_>
        ensures { (nodes : List NodeOf) → AreNoted nodes self.now → AreToAsk nodes (asked_kinds self.now) result.waiting.now result.woken.now result.first_new }
    {
        let waiting: &[u32] = if self.are_still { &[] } else { &self.waiting };
        ToAsk {
            waiting,
            woken: &self.woken,
            first_new: self.first_new,
        }
    }

    /// Notes that all tokens were asked: none of them is asked again until `forget_asked`, or until its node gets another token. If memory is
    /// refused, all are asked again.
    pub fn note_asked(&mut self, items: &Vec<Slot>)
        ensures noted { AreNoted items.now.items self.old → AreNoted items.now.items self.new }
        ensures asked { AreOfNodes items.now.items (asked_kinds self.new) }
    {
        let first = self.first_new;
        self.are_still = false;
        match push_woken(items, &mut self.waiting, &self.woken) {
            Ok(()) => {}
            // The nodes of `woken` are asked again, and so are those that wait.
            Err(_) => return,
        }
        match push_new(items, &mut self.waiting, first) {
            Ok(()) => {
                self.woken.clear();
                self.first_new = items.len();
                self.asked = kinds_of(items);
                self.are_still = true;
            }
            // All are asked again.
            Err(_) => {}
        }
    }

    /// Has all tokens asked again.
    pub fn forget_asked(&mut self)
        ensures noted { (nodes : List NodeOf) → AreNoted nodes self.old → AreNoted nodes self.new }
        ensures asked { asked_kinds self.new ≡ [] }
        ensures woken { self.new.woken ≡ self.old.woken }
    {
        self.are_still = false;
    }
}
