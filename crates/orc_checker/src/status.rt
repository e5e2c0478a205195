//! What has halted. A *marked term* is what is left of the program's term after the first entries of a journal, as numbered nodes; `Marked` has it
//! with a flag for each node. *Moves of marks* are the entries `end`, `fork`, `seq` and `other`, which use no rule of Orc. The entry `lost` drops the
//! right side of an opened `<x<` that has halted without a value.
//!
//! In contracts `Spells x code m p` says that the marked term m stands at the place p of a journal.

ghost use Rattle.std.specs.Prelude.{◌≡◌};
ghost use Rattle.orc_rules.specs.Journal.{Place};
ghost use Rattle.orc_rules.specs.Marked.{erase};
ghost use Rattle.orc_rules.specs.Timed.{Context};
ghost use Rattle.orc_rules.specs.Idle.{has_halted};
ghost use Rattle.orc_rules.specs.Nodes.{Listing, code};
ghost use Rattle.orc_checker.specs.Checker.{Spells};
ghost use Rattle.orc_term.specs.Settling.{flag};

use crate::marked::Marked;
use orc_term::flags::flag_at;

impl Marked {
    /// Whether the whole marked term has halted: no call pends in it, no token waits, and no step is left but moves of marks and `lost`. A flag of
    /// that is kept, so nothing is searched.
    pub fn has_halted(&self) -> bool
        ensures { (x : Context) (l : Listing) (p : Place) → Spells x (code l) self.now p → result ≡ has_halted (erase p.marked) }
    {
        // Node 0, above the whole term, has halted exactly if the term has.
        flag_at(&self.flags, 0)
    }

    /// Whether the part of the marked term whose topmost node has the number `node` has halted, by the flag that is kept for it; true where there is
    /// no such node.
    pub fn part_has_halted(&self, node: usize) -> bool
        ensures { result ≡ flag self.now.flags node }
    {
        flag_at(&self.flags, node)
    }
}
