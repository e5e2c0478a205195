//! How a run has ended, and the result that its caller gets. The ledger has the run's records and its journal, and `inputs` are the program's nodes
//! and the table that answers its calls. A `Stop` is why the scheduler goes no further; an `End` is how the run has ended by that. In contracts the
//! type `P` names the run: `P.listing` is its program, and `P.keeps` says whether its journal is kept. `Stops` says that the run has cause to stop
//! so, `HasEnded` that it has ended so, `IsPlayed` that a result is that of such a run, and `IsOwn` that a fault is the engine's.

ghost use Rattle.std.specs.Prelude.{◌≡◌, true, false, is_some, IfOk, IfErr, IfSome, MatchOption};
ghost use Rattle.orc_rules.specs.Nodes.{definitions, source};
ghost use Rattle.orc_rules.specs.Program.{IsProgram};
ghost use Rattle.orc_outcome.specs.Outcome.{IsPlayed};
ghost use Rattle.orc_scheduler.specs.Ends.{HasEnded};
ghost use Rattle.orc_scheduler.specs.Faults.{IsOwn};
ghost use Rattle.orc_scheduler.specs.Stops.{Stops};

use crate::fault::EngineFault;
use crate::quiet::is_quiet_at;
use crate::scheduler::{Scheduler, Stop};
use crate::sizes::is_crowded;
use crate::summary::played;
use orc_ledger::{Inputs, LedgerFault, Next, Run};
use orc_outcome::{End, Played};
use orc_rules::program::Program;

impl<P: Run> Scheduler<P> {
    /// The result of a run that stops for this reason. None if only a journal can show how the run ended, and the run keeps none.
    ///
    /// The fault is Memory if memory was refused for the result, Broken if the reason is Broken or Unclaimed or the records contradict it, and Site
    /// if the reason is Site. If `go` gave the reason, and the scope check accepted the program, no fault but Memory comes.
    pub fn finish(
        mut self,
        program: &Program,
        inputs: &Inputs<'_, P>,
        stop: Stop,
    ) -> Result<Option<Played>, EngineFault>
        requires program { program.now ≡ P.listing }
        ensures played { IfOk result (λ played. IfSome played (λ p. IsPlayed P.listing inputs.now.answers.now P.limit p.summary p.published.items p.journal)) }
        ensures kept { IfOk result (λ played. P.keeps ≡ true → MatchOption played ⊥ (λ p. is_some p.journal ≡ true)) }
        ensures range { IfErr result (λ fault. fault ≡ EngineFault.Range → ⊥) }
        ensures sound { IfErr result (λ fault. IsOwn fault → Stops P.listing self.ledger stop → IsProgram (definitions P.listing) (source P.listing) → ⊥) }
    {
        // None: only a journal could show the end.
        let Some(end) = self.end(program, inputs, stop)? else {
            return Ok(None);
        };
        let alloc = self.alloc;
        let keeps = self.keeps;
        match played(alloc, self.into_ledger(), inputs, keeps, end) {
            Ok(played) => Ok(Some(played)),
            Err(_) => Err(EngineFault::Memory),
        }
    }

    // How a run has ended that stops for this reason. None if only a journal can show it, and the run keeps none. The fault is Broken if the reason
    // is Broken or Unclaimed or the records contradict it, and Site if the reason is Site. By *sound* such a fault means that the reason wasn't true
    // of the run, or that the scope check doesn't accept the program.
    fn end(
        &mut self,
        program: &Program,
        inputs: &Inputs<'_, P>,
        stop: Stop,
    ) -> Result<Option<End>, EngineFault>
        requires program { program.now ≡ P.listing }
        ensures ended { IfOk result (λ end. MatchOption end (P.keeps ≡ false) (HasEnded P.listing inputs.now.answers.now self.new.ledger)) }
        ensures range { IfErr result (λ fault. fault ≡ EngineFault.Range → ⊥) }
        ensures sound { IfErr result (λ fault. IsOwn fault → Stops P.listing self.old.ledger stop → IsProgram (definitions P.listing) (source P.listing) → ⊥) }
    {
        match stop {
            Stop::Halted => self.halted(inputs),
            Stop::Quiet => self.quiet(inputs),
            Stop::Refused(LedgerFault::Memory) => Ok(Some(End::Memory)),
            Stop::Refused(LedgerFault::Full) => self.crowded(inputs),
            Stop::Refused(LedgerFault::Limit) => self.cut(program, inputs),
            // Only a move that asks a claim has this fault, where another worker has won the claim. A scheduler's claims are always got (`Always`).
            Stop::Refused(LedgerFault::Unclaimed) => Err(EngineFault::Broken),
            Stop::Broken => Err(EngineFault::Broken),
            Stop::Site(number) => Err(EngineFault::Site(number)),
        }
    }

    // How a run ends whose term is said to have halted. The fault is Broken where it hasn't. Never None, here and in `quiet`: the type is that of
    // `end`.
    fn halted(&self, inputs: &Inputs<'_, P>) -> Result<Option<End>, EngineFault>
        ensures ended { IfOk result (λ end. MatchOption end (P.keeps ≡ false) (HasEnded P.listing inputs.now.answers.now self.now.ledger)) }
        ensures range { IfErr result (λ fault. fault ≡ EngineFault.Range → ⊥) }
        ensures sound { IfErr result (λ _. Stops P.listing self.now.ledger Stop.Halted → ⊥) }
    {
        if self.ledger.has_halted() {
            Ok(Some(End::Halted))
        } else {
            Err(EngineFault::Broken)
        }
    }

    // How a run has ended that stops as Quiet: nothing can come next. The fault is Broken if something can.
    fn quiet(&mut self, inputs: &Inputs<'_, P>) -> Result<Option<End>, EngineFault>
        ensures ended { IfOk result (λ end. MatchOption end (P.keeps ≡ false) (HasEnded P.listing inputs.now.answers.now self.new.ledger)) }
        ensures range { IfErr result (λ fault. fault ≡ EngineFault.Range → ⊥) }
        ensures sound { IfErr result (λ _. Stops P.listing self.old.ledger Stop.Quiet → ⊥) }
    {
        match self.ledger.next(inputs) {
            Next::Quiet => Ok(Some(End::Quiet)),
            // Something can come next: a move, a group's end or an answer now, or a tick to a later time. Or the run has halted, which is Work, too.
            Next::Work | Next::Ticks(_) => Err(EngineFault::Broken),
        }
    }

    // How a run has ended that stops as Full: a limit of the engine (tokens, groups, frames) was reached. The journal shows whether one can have
    // been; the fault is Broken if none can. None if the run keeps no journal.
    fn crowded(&mut self, inputs: &Inputs<'_, P>) -> Result<Option<End>, EngineFault>
        ensures ended { IfOk result (λ end. MatchOption end (P.keeps ≡ false) (HasEnded P.listing inputs.now.answers.now self.new.ledger)) }
        ensures range { IfErr result (λ fault. fault ≡ EngineFault.Range → ⊥) }
        ensures sound { IfErr result (λ _. Stops P.listing self.old.ledger (Stop.Refused LedgerFault.Full) → ⊥) }
    {
        if !self.keeps {
            return Ok(None);
        }
        if is_crowded(self.ledger.journal()) {
            Ok(Some(End::Full))
        } else {
            Err(EngineFault::Broken)
        }
    }

    // How a run has ended whose journal has as many entries as the limit: Limit, or Quiet if nothing could come next. The ledger mostly knows which;
    // if only moves of marks (entries that no rule of Orc has) may be left, the journal is replayed by the rules. None if the run keeps no journal
    // then.
    fn cut(&mut self, program: &Program, inputs: &Inputs<'_, P>) -> Result<Option<End>, EngineFault>
        requires program { program.now ≡ P.listing }
        ensures ended { IfOk result (λ end. MatchOption end (P.keeps ≡ false) (HasEnded P.listing inputs.now.answers.now self.new.ledger)) }
        ensures range { IfErr result (λ fault. fault ≡ EngineFault.Range → ⊥) }
        ensures sound { IfErr result (λ _. Stops P.listing self.old.ledger (Stop.Refused LedgerFault.Limit) → ⊥) }
    {
        let next = self.ledger.next(inputs);
        // The journal has room: this doesn't come up, since the ledger refuses an entry as Limit only where there is none.
        if self.ledger.entries() < self.ledger.limit() {
            return Err(EngineFault::Broken);
        }
        // A law: it shows the prover what the journal is, for the clause *ended*. Nothing runs.
        self.ledger.is_whole();
        match next {
            Next::Quiet => return Ok(Some(End::Quiet)),
            // A tick, which has no room, would come next.
            Next::Ticks(_) => return Ok(Some(End::Limit)),
            // A token can move, a group can end or a call is due. Whether a rule of Orc can be used is still to be found.
            Next::Work => {}
        }
        if self.ledger.can_use_rule(inputs) {
            return Ok(Some(End::Limit));
        }
        if !self.keeps {
            return Ok(None);
        }
        match is_quiet_at(self.alloc, program, inputs.answers, self.ledger.journal()) {
            Some(true) => Ok(Some(End::Quiet)),
            Some(false) => Ok(Some(End::Limit)),
            None => Ok(Some(End::Memory)),
        }
    }
}
