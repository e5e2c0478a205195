//! Why the calls of a ledger are refused. A *token* marks a part of the program's term that runs; a call of a site *pends* until it is answered. A
//! *cancel* is the entry with which a pending call goes, since the cell whose right side it is in was bound.

ghost use Rattle.std.specs.Prelude.{◌≡◌};

use std::alloc::AllocError;

/// Why a call of a ledger's function is refused; nothing has changed then. If there are several causes, it is the first in this order.
#[derive(Clone, Copy, Debug, PartialEq, Eq)]
pub enum LedgerFault {
    /// There would be over `MOST_TOKENS` tokens and pending calls, `MOST_GROUPS` groups (with the program's own), or `MOST_FRAMES` left sides of a
    /// `>x>` around a token, counted out to the innermost right side of a `<x<`.
    Full,
    /// The journal has as many entries as its limit, cancels not counted.
    Limit,
    /// Memory was refused.
    Memory,
    /// The call came with a claim (what another worker may have won first), asked it when nothing else was in its way, and the claim was lost.
    Unclaimed,
}

impl From<AllocError> for LedgerFault {
    ghost use Rattle.orc_ledger_spec.specs.declared.faults.LedgerFault.TheVariants.{Memory};

    ghost from_gives = { λ _ fault. fault ≡ Memory };

    // The allocator's error tells nothing more: memory was refused.
    fn from(_error: AllocError) -> LedgerFault {
        LedgerFault::Memory
    }
}

/// Why an answer of a call of a site is refused; nothing has changed then. If there are several causes, it is the first in this order.
#[derive(Clone, Copy, Debug, PartialEq, Eq)]
pub enum ReturnFault {
    /// No call with this number pends: it was answered or cancelled, or never made.
    Gone,
    /// The table of sites has another answer for the call, or another due time, or none.
    Wrong,
    /// The journal has as many entries as its limit, cancels not counted.
    Limit,
    /// Memory was refused.
    Memory,
}

/// Why a group doesn't halt; nothing has changed then. If there are several causes, it is the first in this order.
#[derive(Clone, Copy, Debug, PartialEq, Eq)]
pub enum HaltFault {
    /// No open group (right side of a `<x<`, left side of a `;`) has this number.
    Gone,
    /// The group has members: a token, a pending call or a group is in it.
    Live,
    /// The entry with which the group would end is refused, for this reason.
    Refused(LedgerFault),
}
