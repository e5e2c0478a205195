//! What comes next if no token is runnable: the answer of a call that is due, or a tick, or what the ledger finds. Calls that are due at the same
//! time are answered in the order of their numbers. An error of type `Stop` is the reason why the run stops. In contracts the type `P` names the run,
//! `P.listing` is its program, `Advances` says that the run has come nearer to its end, and `Stops` that it stops for a reason that it has. The
//! ledger has the run's records: tokens in their *slots*, pending calls, and *groups*: a group is what runs in the right side of a `<x<`, in the left
//! side of a `;`, or in the whole program. `inputs` are the program's nodes and the table that answers its calls.

ghost use Rattle.std.specs.Prelude.{◌≡◌, ◌≤◌, true, false, IfOk, IfErr};
ghost use Rattle.std.specs.VecDeque.{deque_len};
ghost use Rattle.orc_rules.specs.Nodes.{code, definitions};
ghost use Rattle.orc_frames.specs.Doing.{is_wait};
ghost use Rattle.orc_tables.specs.Tokens.{IsHeld};
ghost use Rattle.orc_ledger_spec.specs.Answers.{IsDueNow, Pends};
ghost use Rattle.orc_ledger_spec.specs.Doing.{what_of};
ghost use Rattle.orc_scheduler.specs.Stops.{Advances, NoneIsDue, IsAtWork, Stops};

use crate::scheduler::{Scheduler, Step, Stop};
use orc_ledger::{Call, Inputs, LedgerFault, Next, ReturnFault, Run, Token};
use orc_rules::value::Answer;

impl<P: Run> Scheduler<P> {
    /// Goes on with a run in which no token is runnable: by an answer that is due, by the table, else by a tick (logical time passes), else by a
    /// token or an empty group that the ledger finds. The error is why the run stops: nothing can come next, say.
    pub(crate) fn rest(&mut self, inputs: &Inputs<'_, P>) -> Result<(), Stop>
        ensures advances { IfOk result (λ _. Advances self.old.ledger self.new.ledger) }
        ensures stops { IfErr result (λ stop. Stops P.listing self.new.ledger stop) }
    {
        if self.answer_due()? {
            return Ok(());
        }
        if self.pass_time(inputs)? {
            // A call is due at this time. In a run with an order the order draws which one is answered first, in a turn of its own.
            if !self.ready.is_ordered() {
                self.answer_due()?;
            }
            return Ok(());
        }
        self.recover(inputs)
    }

    // Finds work in the ledger: a token that can move, or an open group (of a side) without members, which is to end. Something is left, but the run
    // queue is empty. The contract asks that no call is due, and that the ledger says that there is work: so such a token or group is found. No run
    // is known to come here but one to which `append_sub_run` was refused memory for the queue; no contract says that each token that can move is in
    // the queue.
    #[inline(never)]
    fn recover(&mut self, inputs: &Inputs<'_, P>) -> Result<(), Stop>
        requires due { NoneIsDue self.old.ledger }
        requires work { IsAtWork P.listing self.old.ledger }
        ensures advances { IfOk result (λ _. Advances self.old.ledger self.new.ledger) }
        ensures stops { IfErr result (λ stop. Stops P.listing self.new.ledger stop) }
    {
        if let Some((slot, token)) = self.ledger.movable(inputs) {
            return self.set_going(inputs, slot, token);
        }
        match self.ledger.empty_group() {
            Some(group) => self.close_from(group),
            // By the clauses *due* and *work*: no call is due and no token can move, so a group is empty.
            None => unreachable!(),
        }
    }

    // The token in this slot, which doesn't wait, moves, and its turn comes again. The error is why the run stops.
    fn set_going(&mut self, inputs: &Inputs<'_, P>, slot: usize, token: Token) -> Result<(), Stop>
        requires held { IsHeld self.old.ledger.slots slot token }
        requires moves { is_wait (what_of (code P.listing) (definitions P.listing) self.old.ledger token) ≡ false }
        ensures advances { IfOk result (λ _. Advances self.old.ledger self.new.ledger) }
        ensures stops { IfErr result (λ stop. Stops P.listing self.new.ledger stop) }
    {
        match self.step(inputs, slot, token)? {
            Step::On(next) => self.join_held(next),
            Step::Done => Ok(()),
            // In a program that the scope check accepted each call of a definition has its arguments, so a token that doesn't wait moves.
            Step::Waits => Err(Stop::Broken),
        }
    }

    /// Answers the due call with the least number, by the table. False if no call is due. The error is why the run stops.
    pub(crate) fn answer_due(&mut self) -> Result<bool, Stop>
        ensures advances { IfOk result (λ answered. answered ≡ true → Advances self.old.ledger self.new.ledger) }
        ensures none { IfOk result (λ answered. answered ≡ false → (self.new.ledger ≡ self.old.ledger) × NoneIsDue self.old.ledger) }
        ensures fewer { IfOk result (λ answered. answered ≡ false → deque_len self.new.ready.handles ≤ deque_len self.old.ready.handles) }
        ensures stops { IfErr result (λ stop. Stops P.listing self.new.ledger stop) }
    {
        // The due call with the least number, and its answer by the table; None if no call is due.
        let Some((call, answer)) = self.ledger.due() else {
            return Ok(false);
        };
        self.answer_pending(call, answer)?;
        Ok(true)
    }

    // Records this answer of this pending call, and puts the token on the answer, if it is a value, into the run queue. The error is why the run
    // stops.
    fn answer_pending(&mut self, call: Call, answer: Answer) -> Result<(), Stop>
        ensures advances { IfOk result (λ _. Advances self.old.ledger self.new.ledger) }
        ensures stops { IfErr result (λ stop. Pends self.old.ledger call.number call → IsDueNow P.listing P.sites self.old.ledger call.number answer → Stops P.listing self.new.ledger stop) }
    {
        if let Some(slot) = self.answer(call, answer)? {
            self.join_held(slot)?;
        }
        Ok(())
    }

    // Records this answer of this pending call, and gives the slot of the token on the answer. None if the call halts; then the call's group ends if
    // it has no members any more. The error is why the run stops.
    fn answer(&mut self, call: Call, answer: Answer) -> Result<Option<usize>, Stop>
        ensures advances { IfOk result (λ _. Advances self.old.ledger self.new.ledger) }
        ensures stops { IfErr result (λ stop. Pends self.old.ledger call.number call → IsDueNow P.listing P.sites self.old.ledger call.number answer → Stops P.listing self.new.ledger stop) }
    {
        match self.ledger.returned(call.number, answer) {
            Ok(Some(slot)) => Ok(Some(slot)),
            Ok(None) => {
                let group = self.ledger.group_of_call(&call);
                self.close(group)?;
                Ok(None)
            }
            Err(ReturnFault::Limit) => Err(Stop::Refused(LedgerFault::Limit)),
            Err(ReturnFault::Memory) => Err(Stop::Refused(LedgerFault::Memory)),
            // Neither comes up: the ledger's `due` gave the call, which pends, and the table's answer.
            Err(ReturnFault::Wrong) => Err(Stop::Site(call.number)),
            Err(ReturnFault::Gone) => Err(Stop::Broken),
        }
    }

    /// Ticks to the time at which the next call is due, if no token can move and no call is due now. False, with the ledger unchanged, if another
    /// entry comes next. The error is why the run stops: if nothing can come next it is Halted or Quiet.
    pub(crate) fn pass_time(&mut self, inputs: &Inputs<'_, P>) -> Result<bool, Stop>
        ensures advances { IfOk result (λ passed. passed ≡ true → Advances self.old.ledger self.new.ledger) }
        ensures work { IfOk result (λ passed. passed ≡ false → (self.new.ledger ≡ self.old.ledger) × IsAtWork P.listing self.old.ledger) }
        ensures stops { IfErr result (λ stop. Stops P.listing self.new.ledger stop) }
    {
        let next = self.ledger.next(inputs);
        // A law: it shows the prover what the journal is, for the clause *stops*. Nothing runs.
        self.ledger.is_whole();
        match next {
            Next::Ticks(time) => match self.ledger.tick(time) {
                Ok(()) => {
                    // In a run with an order the calls that are due at this time get turns.
                    self.note_due()?;
                    Ok(true)
                }
                Err(fault) => Err(Stop::Refused(fault)),
            },
            Next::Quiet => Err(Stop::Quiet),
            // The ledger says Work, too, where nothing is left of the program: the run has halted.
            Next::Work if self.ledger.has_halted() => Err(Stop::Halted),
            // A token can move, a group can end, or a call is due.
            Next::Work => Ok(false),
        }
    }
}
