//! Work for a worker that has no token: a call that is due, a tick, or none. A *tick* is the entry by which time goes on; a call is *due* once time
//! is that of its answer. `pending` has, by their numbers, the calls that no worker is polling, that is, asking for their answers. `inputs` has the
//! program and the table of what sites answer. A worker *rests* while it waits for work of others. `C` is the sites' own type of a call, which is
//! polled.

ghost use Rattle.std.specs.Prelude.{◌≡◌};

use crate::shared::{OutsideWork, Shared, stop_of};
use orc_book::Next;
use orc_ledger::Inputs;
use orc_log::Run;
use orc_scheduler::Stop;
use orc_word::Naming;

impl<P: Run + Naming, C: Drop> Shared<P, C> {
    /// Looks for work for a worker that has no token, no pass to leave and no group to close: a call that is due, else a tick, by which time goes on
    /// to the next due time. The work is Rest if other workers have all that is left, and Over if the run has stopped. The caller has the lock.
    pub(crate) fn look(&mut self, inputs: &Inputs<'_, P>) -> OutsideWork<C> {
        if self.is_over() {
            return OutsideWork::Over;
        }
        if let Some(work) = self.take_due() {
            return work;
        }
        match self.book.next(inputs) {
            // Time has gone on, and a call is due now. The worker takes it when it looks again.
            Ok(Next::Ticked) => OutsideWork::None,
            // Something comes before time can go on: another worker has a token or a call, or is about to close a group.
            Ok(Next::Work) => OutsideWork::Rest,
            // Nothing can come any more, though the term hasn't halted: the run ends so.
            Ok(Next::Quiet) => {
                self.stop(Stop::Quiet);
                OutsideWork::Over
            }
            Err(why) => {
                self.stop(stop_of(why));
                OutsideWork::Over
            }
        }
    }

    /// Looks for work for the last worker that isn't at rest. If there is none, no worker has what is left, and the run stops. The work is never
    /// Rest.
    pub(crate) fn look_last(&mut self, inputs: &Inputs<'_, P>) -> OutsideWork<C> {
        match self.look(inputs) {
            OutsideWork::Rest => {
                // No worker has what is left. `Scheduler::finish` finds whether the term has in fact halted, and answers Broken if not.
                self.stop(Stop::Halted);
                OutsideWork::Over
            }
            work => work,
        }
    }

    /// Takes a pending call that is due, to be polled again. None if there is none, or if other workers have them all.
    pub(crate) fn take_due(&mut self) -> Option<OutsideWork<C>> {
        let number = self.find_due()?;
        // The map has it: `find_due` has just looked.
        let call = self.pending.remove(&number)?;
        Some(OutsideWork::Ask(number, self.book.now(), call))
    }

    /// The least number of a call that is due and that no worker has (it is in `pending`); None if there is no such call. On the way the book drops
    /// its notes of due times of calls that don't pend any more.
    pub(crate) fn find_due(&mut self) -> Option<u64> {
        let mut number = 0;
        // The prover asks for a bound; the numbers rise, so there are fewer rounds than calls.
        for _ in 0..u64::MAX {
            // The next number of a call that is due, in rising order, from 1.
            number = self.book.due_beyond(number)?;
            // A call that isn't in `pending` is with a worker, which polls it.
            if self.pending.contains_key(&number) {
                return Some(number);
            }
        }
        None
    }
}
