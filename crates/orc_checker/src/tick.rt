//! The entry `tick`: the time goes on. `rest` has the time, the calls made and the cancels due, and `due` notes when calls are due. A *side* is the
//! right one of an opened `<x<`, or the left one of an entered `;`. `Marked` is the checker's state at one place of a journal.
//!
//! In contracts `Applies` says that the entry leads from the old state to the new one, and `IsRightlyRefused` that the fault is Memory or names a
//! condition that the entry breaks.

ghost use Rattle.std.specs.Prelude.{◌≡◌, IfOk, IfErr, OnErr};
ghost use Rattle.orc_rules.specs.Sites.{Table};
ghost use Rattle.orc_rules.specs.declared.entry.Entry.TheVariants as entry;
ghost use Rattle.orc_checker.specs.Checker.{Applies};
ghost use Rattle.orc_checker.specs.Refusing.{IsRightlyRefused};

use crate::marked::Marked;
use orc_rules::entry::RuleFault;
use orc_rules::laws::{program_is_source, tests_are_right};
use orc_rules::program::Program;

impl Marked {
    /// `tick T`: the time becomes `t`, in units of logical time. The errors: Cancel where a cancel is due, and Time where no pending call is ever
    /// due, `t` isn't the least due time or isn't later than now, or something else can happen now. `Applies` promises that the entry leads from the
    /// old state to the new one. After an error nothing has changed, and the error names a condition that the entry breaks.
    pub(crate) fn tick(&mut self, program: &Program, t: u64) -> Result<(), RuleFault>
        ensures done { IfOk result (λ _. (sites : Table) → Applies program.now sites (entry.Tick t) self.old self.new) }
        ensures refused { OnErr result (self.new ≡ self.old) }
        ensures reason { IfErr result (λ r. (sites : Table) → IsRightlyRefused program.now sites (entry.Tick t) self.old r) }
    {
        // Laws that the prover is shown; nothing runs.
        program_is_source();
        tests_are_right();
        // While a cancel is due no other entry is allowed.
        if self.rest.has_cancels() {
            return Err(RuleFault::Cancel);
        }
        // The least time at which a pending call is due. None if no pending call is ever due: then the time can't go on.
        let Some(due) = self.rest.next_due(&self.nodes, &mut self.due) else {
            return Err(RuleFault::Time);
        };
        // A call that is due now returns before the time goes on.
        if due != t || due <= self.rest.time() {
            return Err(RuleFault::Time);
        }
        // A move of a token, or a side that has halted, comes before the time goes on.
        if self.can_move(program) {
            return Err(RuleFault::Time);
        }
        // All tokens were asked, and none can move. The next tick need not ask those again that stand as they do now.
        self.nodes.note_asked();
        self.rest.set_time(t);
        Ok(())
    }
}
