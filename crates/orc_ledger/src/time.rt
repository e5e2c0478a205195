//! Time: which calls are due, and ticks. A call of a site *pends* until it is answered, and is *due* at the time at which the table of sites answers
//! it, if ever. A *tick* is the entry that sets the time. `P` names the run: `P.listing` is its program and `P.sites` the table of its sites.

ghost use Rattle.std.specs.Prelude.{◌≡◌, ◌≤◌, ◌+◌, ◌++◌, ◌∷◌, [], ℕ, Some, MatchOption, IfErr, OnOk, OnErr};
ghost use Rattle.orc_rules.specs.Timed.{IsIn};
ghost use Rattle.orc_rules.specs.declared.entry.Entry.TheVariants.{Tick};
ghost use Rattle.orc_tables.specs.PendingCalls.{due_of, next_due};
ghost use Rattle.orc_tables.specs.PendingCalls.{IsDueBeyond, IsLeastBeyond};
ghost use Rattle.orc_tables.specs.declared.records.Call.{Call as Its};
ghost use Rattle.orc_ledger_spec.specs.Answers.{IsDueNow, MayTick, IsStopped, Pends};

use crate::ledger::{Ledger, write};
use orc_ledger_spec::LedgerFault;
use orc_log::Run;
use orc_rules::entry::Entry;
use orc_rules::value::{Answer, Found};
use orc_tables::Call;

impl<P: Run> Ledger<P> {
    /// The least number over `number` (0 for all calls) of a pending call that is due now: the call's number in the journal. None where no such call
    /// is due. No record changes: `&mut` is for the notes of due times, of which the function drops those whose calls are gone.
    #[inline(always)]
    pub fn due_beyond(&mut self, number: u64) -> Option<u64>
        ensures due { MatchOption result ((k : ℕ) → IsDueBeyond self.old.calls number self.old.now k → ⊥) (IsLeastBeyond self.old.calls number self.old.now) }
        ensures same { self.new ≡ self.old }
    {
        self.calls.due_beyond(self.time, number)
    }

    /// The call with the least number of those that are due now, and the answer that the table gives. None where no call is due, and then none is
    /// overdue. No record changes: `&mut` is for the notes of due times, of which the function drops those whose calls are gone.
    #[inline(always)]
    pub fn due(&mut self) -> Option<(Call, Answer)>
        ensures due { MatchOption result ((c : Its) (t : ℕ) → IsIn c self.old.calls → due_of c ≡ Some t → t ≤ self.old.now → ⊥) (λ d. Pends self.old d.0.number d.0 × IsDueNow P.listing P.sites self.old d.0.number d.1 × IsLeastBeyond self.old.calls 0 self.old.now d.0.number) }
        ensures same { self.new ≡ self.old }
    {
        // Shows the prover the invariant, by which no call is overdue; nothing runs.
        let _time = &self.time;
        // 0: each number of a call is over it. None: no call is due.
        let Some(number) = self.due_beyond(0) else {
            return None;
        };
        // `due_beyond` gives the number of a call that pends.
        let Some(call) = self.pending(number) else {
            unreachable!()
        };
        // A call that the table never answers is never due.
        let Found::After(answer, _) = call.found else {
            unreachable!()
        };
        Some((call, answer))
    }

    /// The least due time of the pending calls, in logical units. None where none is ever due. No record changes: `&mut` is for the notes of due
    /// times, of which the function drops those whose calls are gone.
    pub fn next_due(&mut self) -> Option<u64>
        ensures due { result ≡ next_due self.old.calls }
        ensures same { self.new ≡ self.old }
    {
        self.calls.next_due()
    }

    /// Sets the time to `time`, in logical units, and writes the tick. The rules have to allow the tick (`MayTick`): no rule can be used now, and
    /// `time` is the least due time of the pending calls, later than now. Limit where the journal has as many entries as its limit, else Memory;
    /// nothing has changed then.
    #[inline(always)]
    pub fn tick(&mut self, time: u64) -> Result<(), LedgerFault>
        requires { MayTick P.listing P.sites self.old time }
        ensures done { OnOk result (self.new ≡ record self.old { journal = self.old.journal ++ Tick time ∷ []; entries = self.old.entries + 1; now = time }) }
        ensures refused { OnErr result (self.new ≡ self.old) }
        ensures why { IfErr result (λ fault. IsStopped self.old fault) }
    {
        // A tick brings no token and no group, so the journal's limit alone is asked.
        if self.entries >= self.limit {
            return Err(LedgerFault::Limit);
        }
        write(&mut self.journal, &Entry::Tick(time))?;
        self.entries += 1;
        self.time = time;
        Ok(())
    }
}
