//! Flags of the nodes that have halted, by their numbers. A flag that is set stays set. Node 0, above the whole term, has a flag too, and is its own
//! parent. The nodes are those of a marked term, which is what is left of a program's term; `place` and `i` are their numbers. A node *has halted* if
//! no call pends in its part of the term, no token waits there, and nothing is left but moves of marks and `lost`.

ghost use Rattle.std.specs.Prelude.{◌≡◌, vec_len, [], ◌<◌, ◌≤◌, ◌∷◌, ◌++◌, ℕ, ◌&&◌, ◌⊎◌, true, false, List, Bool, length, slice_set, vec_capacity, IfSome, IfNone, slice_index_or};
ghost use Rattle.orc_term.specs.Settling.{flag, inner_flag, HaltsNext, EndsAt, Settles};
ghost use Rattle.orc_term.specs.Rising.{nowhere};
ghost use Rattle.orc_term.specs.Sides.{is_side_at, MayBe, AreFlagged};

use crate::arena::{Kind, Single};
use crate::candidates::{Candidates, is_side_at};
use crate::nodes::Nodes;
use crate::room::push_within;

/// Whether node `i` has halted, by its flag. True where there is no such node.
#[inline(always)]
pub fn flag_at(flags: &Vec<bool>, i: usize) -> bool
    ensures { result ≡ flag flags.now.items i }
{
    match flags.get(i) {
        Some(flag) => *flag,
        None => true,
    }
}

/// Writes the flag of node `i`. Where there is no such node nothing changes. The room that the list has reserved stays.
#[inline(always)]
pub fn write_flag(flags: &mut Vec<bool>, i: usize, flag: bool)
    ensures items { flags.new.items ≡ slice_set flags.old.items i flag }
    ensures capacity { vec_capacity flags.new ≡ vec_capacity flags.old }
{
    if let Some(slot) = flags.get_mut(i) {
        *slot = flag;
    }
}

/// Whether a node with parts has halted, by the flags of its parts.
#[inline(always)]
fn inner_halts(flags: &Vec<bool>, kind: Kind) -> bool
    ensures { result ≡ inner_flag flags.now.items kind }
{
    match kind {
        // A leaf has no part by which it could halt.
        Kind::Leaf(_) => false,
        // An entered otherwise doesn't halt with its left side: its right side starts in its place.
        Kind::One(Single::Entered(_, _, _), _) => false,
        // A `>x>` halts with its left side, and a `Passed` node, which means just its part, with that part.
        Kind::One(_, part) => flag_at(flags, part as usize),
        Kind::Two(_, left, right) => {
            flag_at(flags, left as usize) && flag_at(flags, right as usize)
        }
    }
}

/// Whether both parts of a node have halted, by their flags `left` and `right`.
pub fn both(left: bool, right: bool) -> bool
    ensures { result ≡ (left && right) }
{
    left && right
}

/// The node above the one at `place`, which has just halted, if its flag isn't set yet and it has halted by the flags of its parts. None otherwise:
/// then nothing above halts by this.
#[inline(always)]
fn halts_next(nodes: &Nodes, flags: &Vec<bool>, place: u32) -> Option<u32>
    ensures next { IfSome result (λ p. HaltsNext nodes.now.items flags.now.items place p) }
    ensures last { IfNone result (EndsAt nodes.now.items flags.now.items place) }
{
    let parent = nodes.node_at(place as usize).parent;
    if flag_at(flags, parent as usize) {
        return None;
    }
    let kind = nodes.node_at(parent as usize).kind;
    if inner_halts(flags, kind) {
        Some(parent)
    } else {
        None
    }
}

/// Adds the flag of the new node with the number `place` at the end, for which room has to be reserved. If the flag is set, the node becomes a
/// candidate: a node that may be a side which has halted. Candidates stay so.
#[inline(always)]
pub fn push_flag(flags: &mut Vec<bool>, candidates: &mut Candidates, place: u32, flag: bool)
    requires { vec_len flags.old < vec_capacity flags.old }
    ensures items { flags.new.items ≡ flags.old.items ++ flag ∷ [] }
    ensures capacity { vec_capacity flags.old ≤ vec_capacity flags.new }
    ensures known { flag ≡ true → MayBe candidates.new place }
    ensures kept { (p : ℕ) → MayBe candidates.old p → MayBe candidates.new p }
{
    push_within(flags, flag);
    if flag {
        candidates.add(place);
    }
}

/// Sets the flag of the node with the number `place`, which has halted. If the node is a side (the right side of an opened pruning or the left side
/// of an entered otherwise), it becomes a candidate: the search for halted sides looks at it.
#[inline(always)]
fn set_flag(nodes: &Nodes, flags: &mut Vec<bool>, candidates: &mut Candidates, place: u32)
    ensures items { flags.new.items ≡ slice_set flags.old.items place true }
    ensures capacity { vec_capacity flags.new ≡ vec_capacity flags.old }
    ensures known { is_side_at nodes.now.items place ≡ true → MayBe candidates.new place }
    ensures kept { (p : ℕ) → MayBe candidates.old p → MayBe candidates.new p }
{
    write_flag(flags, place as usize, true);
    if is_side_at(nodes, place as usize) {
        candidates.add(place);
    }
}

/// If `halted` is true, sets the flag of node `from`, which hadn't halted, and of each node above it that halts with it, so that the flags of the
/// whole term are right again (`Settles`). Sides among these nodes become candidates: the search for halted sides looks at them. If `halted` is
/// false, nothing changes.
#[inline(always)]
pub fn settle(
    nodes: &Nodes,
    flags: &mut Vec<bool>,
    candidates: &mut Candidates,
    from: u32,
    halted: bool,
)
    ensures known { AreFlagged nodes.now.items flags.old.items flags.new.items candidates.new }
    ensures kept { (p : ℕ) → MayBe candidates.old p → MayBe candidates.new p }
    ensures settles { Settles nodes.now.items flags.old.items from halted flags.new.items }
    ensures len { length flags.new.items ≡ length flags.old.items }
    ensures capacity { vec_capacity flags.new ≡ vec_capacity flags.old }
{
    if halted {
        set_flag(nodes, flags, candidates, from);
        let mut place = from;
        // Each turn sets a flag that wasn't set, so the loop ends.
        while let Some(above) = halts_next(nodes, flags, place) {
            set_flag(nodes, flags, candidates, above);
            place = above;
        }
    }
}
