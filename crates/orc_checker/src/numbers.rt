//! The numbers that new entries must give out next, and the time. The lists of marks and of cells have an item for number 0, which names nothing, so
//! their lengths are the next numbers. `Marked` is the checker's state at one place of a journal.
//!
//! In contracts `Spells x code m p` says that the marked term m stands at the place p of a journal.

ghost use Rattle.std.specs.Prelude.{◌≡◌, ◌+◌, length, slice_get};
ghost use Rattle.orc_rules.specs.Journal.{Place};
ghost use Rattle.orc_rules.specs.Timed.{Context};
ghost use Rattle.orc_rules.specs.Nodes.{Listing, code};
ghost use Rattle.orc_checker.specs.Checker.{Spells};

use crate::marked::Marked;

impl Marked {
    /// The next mark, from 2 on: the number that the next new token must have. Token 1 is there from the beginning. `marks` has an item for 0, too,
    /// so its length is the next mark.
    pub fn new_mark(&self) -> u64
        ensures { result ≡ length self.now.marks }
    {
        self.marks.len() as u64
    }

    /// The number, from 1 on, that the next pruning to be opened must give its cell. `cells` has an item for 0, too, so its length is the next cell.
    pub fn new_cell(&self) -> u64
        ensures { result ≡ length self.now.cells }
    {
        self.cells.len() as u64
    }

    /// The number, from 1 on, that the next call of a site must have. The list of calls has no item for 0.
    pub fn new_call(&self) -> u64
        ensures { result ≡ length self.now.rest.calls + 1 }
    {
        self.rest.calls.len() as u64 + 1
    }

    /// The least number of a call whose cancel is due, which the next entry has to cancel. None where no cancel is due.
    pub fn next_cancel(&self) -> Option<u64>
        ensures { result ≡ slice_get self.now.rest.to_cancel 0 }
    {
        self.rest.next_cancel()
    }

    /// The time to which the journal's entries have come, in units of logical time.
    pub fn now(&self) -> u64
        ensures { (x : Context) (l : Listing) (p : Place) → Spells x (code l) self.now p → result ≡ p.now }
    {
        self.rest.time
    }
}
