//! Sides that have halted, and when calls are due. The *marked term* is what is left of the program's term after the first entries of a journal, as
//! numbered nodes. A *pruning* is `f <x< g`, an *otherwise* `f ; g`. A call *pends* until it returns or is dropped.
//!
//! In contracts `Spells x code m p` says that the marked term m stands at the place p of a journal.

ghost use Rattle.std.specs.Prelude.{◌≡◌, IfSome};
ghost use Rattle.orc_rules.specs.Journal.{Place};
ghost use Rattle.orc_rules.specs.Nodes.{Listing, code};
ghost use Rattle.orc_rules.specs.Timed.{Context};
ghost use Rattle.orc_checker.specs.Checker.{Spells};
ghost use Rattle.orc_checker.specs.Over.{side_of, FindsSide, LeftIs, PendsUntil, RightIs};

use crate::marked::Marked;
use orc_calls::due_time;
use orc_rules::laws::program_is_source;
use orc_rules::value::{Answer, Found};
use orc_term::arena::{Double, Kind, Single};
use orc_term::candidates::ended_side;

/// A side: the part of an opened pruning or of an entered otherwise that an entry drops once it has halted.
#[derive(Clone, Copy)]
pub enum Side {
    /// The right side of the pruning of this cell: `lost` drops it.
    Right(u64),
    /// The left side of the otherwise of this number: `right` drops it.
    Left(u64),
}

// The side that node `part` of the marked term is, where `above` is the kind of the node above it. None if the node is no side: neither the right
// part of an opened pruning nor the left part of an entered otherwise.
fn side_of(above: Kind, part: usize) -> Option<Side>
    ensures { result ≡ side_of above part }
{
    match above {
        Kind::Two(Double::Side(cell), _, right) if right as usize == part => {
            Some(Side::Right(cell))
        }
        Kind::One(Single::Entered(otherwise, _, _), left) if left as usize == part => {
            Some(Side::Left(otherwise as u64))
        }
        _ => None,
    }
}

impl Marked {
    /// The answer of the call of number `call` and the time at which it is due, in units of logical time. None where no such call pends, or it is
    /// never due.
    pub fn due(&self, call: u64) -> Option<(Answer, u64)>
        ensures { IfSome result (λ d. (x : Context) (l : Listing) (p : Place) → Spells x (code l) self.now p → PendsUntil x p call d) }
    {
        // A law that the prover is shown; nothing runs.
        program_is_source();
        // None if no call of this number pends.
        let pending = self.find_call(call)?;
        // If the answer isn't `After`, the table says that the call never returns.
        let Found::After(answer, _) = pending.called.found else {
            return None;
        };
        match due_time(pending.called.found, pending.called.at) {
            Some(time) => Some((answer, time)),
            None => None,
        }
    }

    /// Whether the right side of the pruning `f <x< g` of this cell, which is g, has halted, so that the cell can be lost. None where there is no
    /// such pruning any more.
    pub fn right_has_halted(&self, cell: u64) -> Option<bool>
        ensures { IfSome result (λ b. (x : Context) (l : Listing) (p : Place) → Spells x (code l) self.now p → RightIs p cell b) }
    {
        let pruning = self.find_pruning(cell)?;
        Some(self.part_has_halted(pruning.right as usize))
    }

    /// Whether the left side of the otherwise `f ; g` of this number, which is f, has halted, so that g can start. None where there is no such
    /// otherwise any more, or it has published.
    pub fn left_has_halted(&self, otherwise: u64) -> Option<bool>
        ensures { IfSome result (λ b. (x : Context) (l : Listing) (p : Place) → Spells x (code l) self.now p → LeftIs p otherwise b) }
    {
        let entered = self.find_otherwise(otherwise)?;
        Some(self.part_has_halted(entered.left as usize))
    }

    /// A side that has halted, and None where none has. Sides that may have halted are listed as candidates. Of several that have halted the answer
    /// is the first that became a candidate, or the one whose node has the least number where memory for candidates was refused. The term stays the
    /// same: only the list of candidates gets shorter.
    pub fn halted_side(&mut self) -> Option<Side>
        ensures side { (x : Context) (l : Listing) (p : Place) → Spells x (code l) self.old p → FindsSide p result }
        ensures same { self.new ≡ self.old }
    {
        let Some(place) = ended_side(&self.nodes, &self.flags, &mut self.candidates) else {
            return None;
        };
        // The node above the side is its pruning or otherwise.
        let parent = self.nodes.node_at(place).parent;
        side_of(self.nodes.node_at(parent as usize).kind, place)
    }
}
