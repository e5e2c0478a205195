//! The entry `cancel`: a call that a bind has dropped is cancelled. A *bind* gives the cell of an opened `f <x< g`, which stands for x in f, the
//! value that g publishes, and drops g with the calls that pend there. `Marked` is the checker's state at one place of a journal.
//!
//! In contracts `Enters` says that the entry leads from the old state to the new one, and `IsRightlyRefused`, here for every table of sites (`t`),
//! that the fault is Memory or names a condition that the entry breaks.

ghost use Rattle.std.specs.Prelude.{◌≡◌, IfOk, IfErr, OnErr};
ghost use Rattle.orc_rules.specs.Nodes.{code};
ghost use Rattle.orc_checker.specs.Checker.{Enters};
ghost use Rattle.orc_rules.specs.declared.entry.Entry.TheVariants as entry;
ghost use Rattle.orc_checker.specs.Refusing.{IsRightlyRefused};
ghost use Rattle.orc_rules.specs.Sites.{Table};

use crate::marked::Marked;
use orc_rules::entry::RuleFault;
use orc_rules::program::Program;

impl Marked {
    /// The entry `cancel K`: a bind dropped call `k` while it was pending, so the cancel of `k` was due; after this entry it isn't any longer. The
    /// error is Cancel: another call's cancel is the next one, or none is due; nothing has changed then. `program` is there for the contract alone.
    pub(crate) fn cancel(&mut self, program: &Program, k: u64) -> Result<(), RuleFault>
        ensures done { IfOk result (λ _. Enters (code program.now) (entry.Cancel k) self.old self.new) }
        ensures refused { OnErr result (self.new ≡ self.old) }
        ensures reason { IfErr result (λ r. (t : Table) → IsRightlyRefused program.now t (entry.Cancel k) self.old r) }
    {
        // `rest` keeps the list of the cancels that are due; this takes `k` off it.
        self.rest.cancel(k)
    }
}
