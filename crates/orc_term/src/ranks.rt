//! Ranks of the nodes: each node has a greater one than its parent, so that the greatest rank is a bound for the levels below node 0. The nodes are
//! those of a marked term, and `items` has them by their numbers. The ranks are *kept* while each is known to be greater than that of the parent;
//! `settle` and `settle_part` make them so, and have nothing to do with halted nodes.

ghost use Rattle.std.specs.Prelude.{◌≡◌, ◌<◌, ◌≤◌, ◌∷◌, ◌++◌, [], true, ℕ, List, length, Some, slice_get, slice_set, slice_index_or, IfOk, IfSome};
ghost use Rattle.orc_term.specs.Hints.{lifted, Follows};
ghost use Rattle.orc_term.specs.Ranks.{rank, AreKept, AreLevelsAtMost, AreRankedBut, IsIn, IsPart, IsRankedBelow, StandsApart};
ghost use Rattle.orc_term.specs.Rising.{nowhere};
ghost use Rattle.orc_term.specs.Settling.{kind_at};
ghost use Rattle.orc_term.specs.declared.arena.Node.{Node as NodeOf};

use crate::arena::{Double, Kind, Node};
use crate::nodes::item;
use crate::slot::Slot;
use orc_rules::limits::MOST_LEVELS;
use std::alloc::{AllocError, Global};

/// The ranks of all nodes. A node that is put between two others takes a free rank between theirs; if there is none, those below get greater ranks.
#[derive(Drop)]
pub struct Ranks {
    /// Each node's rank, by the node's number.
    pub numbers: Vec<u32>,
    /// At least as great as every rank.
    pub most: u32,
    /// False once memory or a rank of over 32 bits was refused, or a test of `add`, `write` or `lift` failed. Then nothing is known of the ranks
    /// until `renew`.
    pub are_kept: bool,
}

// How many ranks are left free above a node that comes below another. A `send`, by which a value enters a `>x>`, puts a `|` there: the first such `|`
// takes the free rank, and no other rank has to grow.
const FREE: u32 = 1;

// The most `|` above a node that `queue_above` counts: no checked term has more levels.
const LONGEST_QUEUE: u32 = MOST_LEVELS as u32;

// How much greater a new node's rank is than that of the node above it. The only new node with two parts is the `|` of a send, which takes the free
// rank.
fn step_below(kind: Kind) -> u32
    ensures { 0 < result }
{
    match kind {
        Kind::Two(_, _, _) => 1,
        _ => FREE + 1,
    }
}

// The rank of node `i`; 0 where there is no such node.
#[inline(always)]
fn rank_at(numbers: &Vec<u32>, i: usize) -> u32
    ensures { result ≡ rank numbers.now.items i }
{
    match numbers.get(i) {
        Some(rank) => *rank,
        None => 0,
    }
}

// Writes the rank of node `i`. Where there is no such node nothing changes.
fn set_rank(numbers: &mut Vec<u32>, i: usize, rank: u32)
    ensures { numbers.new.items ≡ slice_set numbers.old.items i rank }
{
    if let Some(slot) = numbers.get_mut(i) {
        *slot = rank;
    }
}

// A rank for a new node, greater than that of the node above it. None if it would have over 32 bits.
#[inline(always)]
fn rank_below(numbers: &Vec<u32>, node: Node) -> Option<u32>
    ensures { IfSome result (λ r. rank numbers.now.items (NodeOf.parent node) < r) }
{
    rank_at(numbers, node.parent as usize).checked_add(step_below(node.kind))
}

// Whether `part`, a part of node `number`, which is added next, doesn't name that node as its parent yet. Only then may the new node get any rank:
// the part gets a greater one when it is added or lifted.
#[inline(always)]
fn stands_apart(items: &Vec<Slot>, number: usize, part: usize) -> bool
    ensures { result ≡ true → StandsApart items.now.items number part }
{
    if part == number {
        return false;
    }
    match items.get(part) {
        Some(slot) => slot.node().parent as usize != number,
        None => true,
    }
}

// Whether all parts of node `number`, which is added next and has this kind, stand apart: none is that node or names it as its parent yet.
#[inline(always)]
fn stand_apart(items: &Vec<Slot>, number: usize, kind: Kind) -> bool
    ensures { result ≡ true → (i : ℕ) → IsPart kind i → StandsApart items.now.items number i }
{
    match kind {
        Kind::Leaf(_) => true,
        Kind::One(_, part) => stands_apart(items, number, part as usize),
        Kind::Two(_, left, right) => {
            stands_apart(items, number, left as usize)
                && stands_apart(items, number, right as usize)
        }
    }
}

// Whether `part`, a part of node `above`, has a greater rank than that node. True also if it doesn't name node `above` as its parent.
#[inline(always)]
fn is_ranked_below(items: &Vec<Slot>, numbers: &Vec<u32>, above: usize, part: usize) -> bool
    ensures { result ≡ true → IsRankedBelow items.now.items numbers.now.items above part }
{
    match items.get(part) {
        Some(slot) if slot.node().parent as usize == above => {
            rank_at(numbers, above) < rank_at(numbers, part)
        }
        // It has another parent, or isn't there: nothing is asked of its rank.
        _ => true,
    }
}

// Whether each part of node `above`, which gets this kind, has a greater rank than that node, if it names that node as its parent.
#[inline(always)]
fn are_ranked_below(items: &Vec<Slot>, numbers: &Vec<u32>, above: usize, kind: Kind) -> bool
    ensures { result ≡ true → (i : ℕ) → IsPart kind i → IsRankedBelow items.now.items numbers.now.items above i }
{
    match kind {
        Kind::Leaf(_) => true,
        Kind::One(_, part) => is_ranked_below(items, numbers, above, part as usize),
        Kind::Two(_, left, right) => {
            is_ranked_below(items, numbers, above, left as usize)
                && is_ranked_below(items, numbers, above, right as usize)
        }
    }
}

// How many `|` are directly above node `at`, each the left part of the next one, `LONGEST_QUEUE` at most: sends to one `>x>` make such a queue.
fn queue_above(items: &Vec<Slot>, at: usize) -> u32 {
    let mut place = at;
    for count in 0..LONGEST_QUEUE {
        let above = item(items, place).parent as usize;
        match item(items, above).kind {
            Kind::Two(Double::Both, left, _) if left as usize == place => place = above,
            // The queue ends here.
            _ => return count,
        }
    }
    LONGEST_QUEUE
}

// Which free ranks are left while ranks grow: some right above one node, for the `|` that later sends put there.
#[derive(Clone, Copy)]
struct Gap {
    // The number of the node right above which they are left; 0 for no gap, since node 0 is no part.
    below: usize,
    // By how much this node's rank is to exceed that of the node above it.
    step: u32,
}

// By how much a part's rank is to exceed the rank of the node above it: by 1, but by the gap's `step` for the node of the gap. No gap has a step
// of 0: `max` shows that to the prover.
#[inline(always)]
fn step_to(part: usize, gap: Gap) -> u32
    ensures { 0 < result }
{
    if part == gap.below {
        gap.step.max(1)
    } else {
        1
    }
}

// Adds rank 0 for each of `len` nodes to `numbers`, which is empty before, and the numbers of all nodes to `late`, the list of the nodes whose parts
// may need greater ranks. Node 0 is added once more as the last one, since `settle` begins with the last. The error is refused memory.
fn push_all(numbers: &mut Vec<u32>, late: &mut Vec<usize>, len: usize) -> Result<(), AllocError>
    ensures len { IfOk result (λ _. numbers.old.items ≡ [] → length numbers.new.items ≡ len) }
    ensures none { IfOk result (λ _. numbers.old.items ≡ [] → (i : ℕ) → rank numbers.new.items i ≡ 0) }
    ensures each { IfOk result (λ _. (i : ℕ) → i < len → IsIn i late.new.items) }
{
    for i in 0..len {
        numbers.push(0)?;
        late.push(i)?;
    }
    late.push(0)?;
    Ok(())
}

impl Ranks {
    /// Ranks of no nodes.
    pub fn new(alloc: Global) -> Ranks
        ensures { AreKept [] result }
    {
        Ranks {
            numbers: Vec::new(alloc),
            most: 0,
            are_kept: true,
        }
    }

    /// A copy of the ranks. The error is refused memory.
    pub fn copy(&self, alloc: Global) -> Result<Ranks, AllocError>
        ensures { IfOk result (λ r. (nodes : List NodeOf) → AreKept nodes self.now → AreKept nodes r) }
    {
        let numbers = Vec::from_slice(alloc, &self.numbers)?;
        Ok(Ranks {
            numbers,
            most: self.most,
            are_kept: self.are_kept,
        })
    }

    /// Gives a rank to `node`, which the caller adds behind the others (`items`) right afterwards. The ranks aren't kept from then on (nothing is
    /// known of them) if memory or a rank is refused, or if a part of the node is that node itself or names it as its parent already.
    #[inline(always)]
    pub fn add(&mut self, items: &Vec<Slot>, node: Node)
        ensures { AreKept items.now.items self.old → AreKept (items.now.items ++ node ∷ []) self.new }
    {
        let were_kept = self.are_kept;
        // Set to true once the node has its rank, so that each early return leaves it false.
        self.are_kept = false;
        // The new node's number is how many nodes there are before it.
        if !were_kept || !stand_apart(items, items.len(), node.kind) {
            return;
        }
        let Some(rank) = rank_below(&self.numbers, node) else {
            return;
        };
        match self.numbers.push(rank) {
            Ok(()) => {
                self.most = self.most.max(rank);
                self.are_kept = true;
            }
            // Ranks aren't kept from now on.
            Err(_) => {}
        }
    }

    /// Node `i` is about to become `node`, below the same parent. No rank changes. If a part of `node` doesn't have a greater rank than node `i`, the
    /// ranks aren't kept any longer: nothing is known of them until `renew`.
    #[inline(always)]
    pub fn write(&mut self, items: &Vec<Slot>, i: usize, node: Node)
        ensures { ((x : NodeOf) → slice_get items.now.items i ≡ Some x → Follows x node) → AreKept items.now.items self.old → AreKept (slice_set items.now.items i node) self.new }
    {
        if self.are_kept {
            self.are_kept = are_ranked_below(items, &self.numbers, i, node.kind);
        }
    }

    /// Node `i` went below node `both`, a `|` that took its place below `parent`. Ranks below `both` grow if there was no free one for `both`. The
    /// ranks aren't kept any longer (nothing is known of them) if memory or a rank is refused, or if the rank of `both` isn't greater than that of
    /// `parent`.
    #[inline(always)]
    pub fn lift(&mut self, items: &Vec<Slot>, i: usize, both: usize, parent: usize)
        ensures { (nodes : List NodeOf) → parent ≡ NodeOf.parent (slice_index_or nodes i nowhere) → items.now.items ≡ lifted nodes i both → AreKept nodes self.old → AreKept items.now.items self.new }
    {
        if !self.are_kept {
            return;
        }
        // Set to true again once the ranks are right.
        self.are_kept = false;
        let rank = rank_at(&self.numbers, both);
        if rank_at(&self.numbers, parent) < rank {
            // The rank of `both` is between those of its parent and node `i`: no rank has to grow.
            if rank < rank_at(&self.numbers, i) {
                self.are_kept = true;
            } else {
                self.make_room(items, i, both);
            }
        }
    }

    // Gives greater ranks to the nodes below `both` that need them. If memory or a rank is refused, the ranks aren't kept any longer. Above node `i`
    // it leaves as many ranks free as there are `|` above it: the room doubles each time, so many sends to one `>x>` seldom come here.
    fn make_room(&mut self, items: &Vec<Slot>, i: usize, both: usize)
        ensures { AreRankedBut items.now.items self.old.numbers.items self.old.most (both ∷ []) → AreKept items.now.items self.new }
    {
        self.are_kept = false;
        // The nodes whose parts may need greater ranks: at first `both` alone.
        let mut late = Vec::new(*self.numbers.allocator());
        if late.push(both).is_ok() {
            let gap = Gap {
                below: i,
                // `queue_above` counts the `|` above `both`. One more is for `both` itself, and one since a step leaves one rank less free than it is
                // long.
                step: queue_above(items, both).saturating_add(2),
            };
            self.are_kept = self.settle(items, late, gap);
        }
    }

    // Makes the rank of `part` greater than that of node `above`: by the gap's step if the part is the gap's node, and else by 1. If the rank has to
    // grow, the part is put on the list `late`, of the nodes whose parts may need greater ranks. False if memory or a rank is refused, or if node
    // `above` is a part of itself, for which no rank would do.
    #[inline(always)]
    fn settle_part(
        &mut self,
        items: &Vec<Slot>,
        late: &mut Vec<usize>,
        above: usize,
        part: usize,
        gap: Gap,
    ) -> bool
        ensures above { result ≡ true → rank self.new.numbers.items above ≡ rank self.old.numbers.items above }
        ensures part { result ≡ true → part < length self.new.numbers.items → rank self.new.numbers.items above < rank self.new.numbers.items part }
        ensures grows { result ≡ true → (i : ℕ) → rank self.old.numbers.items i ≤ rank self.new.numbers.items i }
        ensures kept { result ≡ true → (nodes : List NodeOf) → AreRankedBut nodes self.old.numbers.items self.old.most (above ∷ late.old.items) → AreRankedBut nodes self.new.numbers.items self.new.most (above ∷ late.new.items) }
    {
        if part == above {
            return false;
        }
        // The part's rank has to be greater than this one.
        let low = rank_at(&self.numbers, above);
        if low < rank_at(&self.numbers, part) {
            return true;
        }
        let Some(rank) = low.checked_add(step_to(part, gap)) else {
            return false;
        };
        match late.push(part) {
            Ok(()) => {}
            Err(_) => return false,
        }
        set_rank(&mut self.numbers, part, rank);
        self.most = self.most.max(rank);
        true
    }

    // Makes the ranks of all parts of node `above`, which has this kind, greater than that of node `above`. Parts whose ranks grow are put on the
    // list `late`, of the nodes whose parts may need greater ranks; `gap` says above which node ranks are left free. False if memory or a rank is
    // refused, or if the node is a part of itself.
    #[inline(always)]
    fn settle_parts(
        &mut self,
        items: &Vec<Slot>,
        late: &mut Vec<usize>,
        above: usize,
        kind: Kind,
        gap: Gap,
    ) -> bool
        ensures { result ≡ true → (nodes : List NodeOf) → kind_at nodes above ≡ kind → AreRankedBut nodes self.old.numbers.items self.old.most (above ∷ late.old.items) → AreRankedBut nodes self.new.numbers.items self.new.most late.new.items }
    {
        match kind {
            Kind::Leaf(_) => true,
            Kind::One(_, part) => self.settle_part(items, late, above, part as usize, gap),
            Kind::Two(_, left, right) => {
                self.settle_part(items, late, above, left as usize, gap)
                    && self.settle_part(items, late, above, right as usize, gap)
            }
        }
    }

    // Makes the ranks of the parts of all nodes on the list `late` greater than the ranks of these nodes, the last node first, and so for the parts
    // that this adds to the list. `gap` says above which node ranks are left free. False if memory or a rank is refused, or if the nodes are no tree.
    fn settle(&mut self, items: &Vec<Slot>, late: Vec<usize>, gap: Gap) -> bool
        ensures { result ≡ true → AreRankedBut items.now.items self.old.numbers.items self.old.most late.items → AreRankedBut items.now.items self.new.numbers.items self.new.most [] }
    {
        let mut late = late;
        // A node has at most two turns: one as the list has it, and one when its rank has grown, which is after those above it grew. One step more
        // finds the list empty. A vector has fewer than 2^63 items, so twice their number doesn't overflow.
        for _step in 0..=2 * items.len() {
            let Some(above) = late.pop() else {
                return true;
            };
            let kind = item(items, above).kind;
            if !self.settle_parts(items, &mut late, above, kind, gap) {
                return false;
            }
        }
        // The turns weren't enough, so the nodes are no tree.
        false
    }

    /// Gives all nodes the least ranks, whether ranks were kept or not: each is one greater than that of the node above. If memory is refused, they
    /// aren't kept.
    pub(crate) fn renew(&mut self, items: &Vec<Slot>)
        ensures { AreKept items.now.items self.new }
    {
        self.are_kept = false;
        self.numbers.clear();
        self.most = 0;
        let mut late = Vec::new(*self.numbers.allocator());
        match push_all(&mut self.numbers, &mut late, items.len()) {
            Ok(()) => {
                // No gap: node 0 is no part, and each step is 1.
                let gap = Gap { below: 0, step: 1 };
                self.are_kept = self.settle(items, late, gap);
            }
            // Ranks aren't kept from now on.
            Err(_) => {}
        }
    }
}
