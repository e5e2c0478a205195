//! Where and why a replay of a journal stops, by calls of the ledger or of the book.

use orc_book::{BookFault, Refused};
use orc_ledger::LedgerFault;

/// Why the replay of an entry fails. A *side* is the right side of a `<x<` or the left side of a `;`.
#[derive(Clone, Copy, Debug, PartialEq, Eq)]
pub(crate) enum Mismatch {
    /// No such token is there or is out, no such call pends, no such side is open, or another bind has killed the group before.
    Gone,
    /// By the ledger: the token does something else next than the entry says, or waits.
    Word,
    /// The side that the entry ends still has a token, a call, a group or a pass. By the rules it may have halted even so, if all that is left to be
    /// written there are ends of tokens, or of sides within it: ledger and book refuse to end the side before these. By the book also: a pass still
    /// names the word that the entry's new group would take.
    Live,
    /// The call has another answer, or is due at another time. By the book also: the token does something else next.
    Wrong,
    /// The entry is a tick, and something else comes next than this tick.
    Time,
    /// The ledger or the book has done something else than the entry says. Of a whole replay also: a text can't be read, or the journal is of the
    /// first version.
    Other,
    /// A limit is reached: of entries, tokens, groups, or left sides of a `>x>` around a token.
    Limit,
    /// Memory was refused, or the supply of passes is empty.
    Memory,
}

impl From<LedgerFault> for Mismatch {
    // Full (too many tokens, groups or left sides of a `>x>`) and Limit (too many entries) are both Limit here.
    fn from(fault: LedgerFault) -> Mismatch {
        match fault {
            LedgerFault::Full | LedgerFault::Limit => Mismatch::Limit,
            LedgerFault::Memory => Mismatch::Memory,
            // A claim is what another worker may have won first. The one that `advance` makes always succeeds, so this fault doesn't occur.
            LedgerFault::Unclaimed => Mismatch::Other,
        }
    }
}

impl From<BookFault> for Mismatch {
    // What a fault of the book's comes to here, in the replay of an entry.
    fn from(fault: BookFault) -> Mismatch {
        match fault {
            BookFault::Gone => Mismatch::Gone,
            BookFault::Wrong => Mismatch::Wrong,
            BookFault::Live => Mismatch::Live,
            BookFault::Full | BookFault::Limit => Mismatch::Limit,
            // The replay lends what a move needs, and so lacks a pass only where its supply is empty.
            BookFault::Memory | BookFault::Short => Mismatch::Memory,
        }
    }
}

impl<X: Drop> From<Refused<X>> for Mismatch {
    // A replay ends at its first error, so what a refused call gives back is dropped.
    fn from(refused: Refused<X>) -> Mismatch {
        Mismatch::from(refused.why)
    }
}

/// The entry at which a replay fails, and why.
#[derive(Clone, Copy, PartialEq, Eq)]
pub(crate) struct Stop {
    /// The entry's place, from 1, cancels counted; 0 if nothing was replayed.
    pub at: usize,
    /// Why it fails.
    pub why: Mismatch,
}

/// Nothing was replayed: a text can't be read, or the journal is of the first version.
pub(crate) const UNREAD: Stop = Stop {
    at: 0,
    why: Mismatch::Other,
};

/// Nothing was replayed, since memory was refused for the graph, the words, or the ledger or book.
pub(crate) const REFUSED: Stop = Stop {
    at: 0,
    why: Mismatch::Memory,
};
