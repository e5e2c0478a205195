//! What the calls of a ledger answer. A *token* marks a part of the program's term that runs. A *cell* stands for the x of an opened `f <x< g`, a
//! pruning: it is *bound* to the first value of g, or *void* if g halts without one. An otherwise is an `f ; g`. A call of a site *pends* until it is
//! answered.

ghost use Rattle.std.specs.Prelude.{◌≡◌};
ghost use Rattle.orc_ledger_spec.specs.Passing.{goes};

use orc_rules::value::{Args, Value};

/// What a move of a token has done. A group is what runs inside one right side of a `<x<`, one left side of a `;`, or the whole program. If a group
/// may have lost its last member by the move, the answer names that group, so that the caller can halt it. A slot is the place of a token in the
/// table of tokens.
#[derive(Clone, Copy, Debug, PartialEq, Eq)]
pub enum Moved {
    /// The token was replaced: its successor is in its slot.
    On,
    /// The token has two successors: one is in its slot, the other in this slot.
    Forked(usize),
    /// A `>x>` took the token's value, and a token on the right side stands in its slot. The group that the old token was in has this number, and may
    /// have no member any more.
    Sent(u32),
    /// The token is gone, out of this group, which may have no member any more.
    Gone(u32),
    /// This cell is bound, and all inside its right side is gone. The group around the pruning has this number, and may have no member any more.
    Bound(u64, u32),
    /// The token is at a call of a site whose arguments have values. The caller makes the call by another function (`call`): nothing has changed.
    Calls,
    /// The token waits for a cell, or for what never comes (no checked program has such a token): nothing has changed.
    Waits,
}

/// What became of a call of a site that a token has made.
#[derive(Clone, Copy)]
pub enum Called {
    /// The call pends, with this number, and the token that made it is gone.
    Pends(u64),
    /// The call was answered at once with this value: a token on it stands in the slot of the one that made the call.
    Answered(Value),
    /// The call halted at once, and the token that made it is gone, out of the group with this number, which may have no member any more.
    Halted(u32),
}

/// What has become of a token that moves, or that enters the left side of a `>x>` and makes the call there in one go. Up to `Waits` each is the
/// [`Moved`] of the same name. A slot is the place of a token in the table of tokens, a group what runs inside one right side of a `<x<`, one left
/// side of a `;`, or the whole program.
#[derive(Clone, Copy)]
pub enum Passed {
    /// The token was replaced: its successor is in its slot.
    On,
    /// The token has two successors: one is in its slot, the other in this slot.
    Forked(usize),
    /// A `>x>` took the token's value: a token on the right side stands in its slot. This group, which the old token was in, may have no member now.
    Sent(u32),
    /// The token is gone, out of this group, which may have no member any more.
    Gone(u32),
    /// This cell is bound. The group around the pruning has this number, and may have no member any more.
    Bound(u64, u32),
    /// The token is at a call of a site whose arguments have values, which the caller makes: nothing has changed.
    Calls,
    /// The token waits, for a cell or for what never comes: nothing has changed.
    Waits,
    /// The call pends, with this number, and the slot is free.
    Pends(u64),
    /// The call was answered at once: a token on the answer stands in the slot, still inside the left side.
    Answered,
    /// The call halted at once, in this group, which may have no member any more.
    Halted(u32),
    /// The call was answered at once, and the `>x>` took the answer: a token on the right side stands in the slot, in its group.
    Through,
}

impl Moved {
    /// This outcome of a move as the [`Passed`] of the same name.
    #[inline(always)]
    pub fn passed(self) -> Passed
        ensures { result ≡ goes self }
    {
        match self {
            Moved::On => Passed::On,
            Moved::Forked(slot) => Passed::Forked(slot),
            Moved::Sent(group) => Passed::Sent(group),
            Moved::Gone(group) => Passed::Gone(group),
            Moved::Bound(cell, group) => Passed::Bound(cell, group),
            Moved::Calls => Passed::Calls,
            Moved::Waits => Passed::Waits,
        }
    }
}

/// What a pending call of a site asks.
#[derive(Drop)]
pub struct Request {
    /// The number of the site in the program's table.
    pub site: u32,
    /// The values with which the site is called.
    pub args: Args,
    /// When the call was made, in logical time.
    pub made_at: u64,
    /// Which call of this site with these arguments it is, from 1; 1 where no script answers the site.
    pub nth: u64,
}

/// What has become of a group that halted: of a right side of a `<x<` or a left side of a `;` without members.
#[derive(Clone, Copy, Debug, PartialEq, Eq)]
pub enum Halted {
    /// The right side's cell, which has the first number, has become void; the group around its pruning has the second number, and may have no member
    /// any more.
    Lost(u64, u32),
    /// The otherwise starts its right side: a token on it is in this slot.
    Resumed(usize),
    /// The otherwise had published: its group went without an entry. The group around the otherwise has this number, and may have no member any more.
    Closed(u32),
}

/// What comes next in a run.
#[derive(Clone, Copy, Debug, PartialEq, Eq)]
pub enum Next {
    /// Something can be done at this time: a token can move, a group has no members, or a call is due.
    Work,
    /// A tick to this time, in logical units.
    Ticks(u64),
    /// Nothing comes any more: no token can move, and no call is ever due.
    Quiet,
}
