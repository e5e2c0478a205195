//! What comes next in a run: workers ask it when none of them has a token that can move. If it is a tick, the book makes it. A *tick* is the entry by
//! which logical time goes on to the next answer of a call. Tokens are *out* while workers have them, and *kept* while they wait in the book. A
//! *word* counts a group's passes, each of which stands for a token, a call or a group in it. `inputs` has the program and the table of what sites
//! answer. `P` names the run and its table of words, for contracts alone.

ghost use Rattle.std.specs.Prelude.{◌≡◌, ◌+◌, ◌++◌, ◌∷◌, [], IfOk, IfErr, OnOk, OnErr};
ghost use Rattle.orc_rules.specs.declared.entry.Entry.TheVariants.{Tick};
ghost use Rattle.orc_ledger_spec.specs.Answers.{MayTick};
ghost use Rattle.orc_book.specs.Coming.{SaysNext};
ghost use Rattle.orc_book.specs.Held.{KeepsWords};
ghost use Rattle.orc_book.specs.Refusals.{IsRefusedNext, IsRefusedTick};

use crate::book::Book;
use crate::token::{BookFault, fault_of};
use orc_ledger::{Inputs, Next as Comes};
use orc_log::Run;
use orc_word::Naming;

/// What comes next in a run.
#[derive(Clone, Copy)]
pub enum Next {
    /// Something else comes before time goes on: a token can move, a group can end, or a call is due.
    Work,
    /// Only time could go on, and it has: a call is due now.
    Ticked,
    /// Nothing any more: the run is quiet.
    Quiet,
}

impl<P: Run + Naming> Book<P> {
    /// What comes next in the run, whether its tokens are out with workers or kept by the book. If it is a tick, the tick is made. The faults are
    /// Limit, if the journal has as many entries as the limit, and Memory; both come of a tick alone, and then nothing has changed.
    ///
    /// In the contract `SaysNext` says that the answer is what comes next by the rules, and that a tick was made, `KeepsWords` that each word stands
    /// for what it did and the same tokens are kept.
    pub fn next(&mut self, inputs: &Inputs<'_, P>) -> Result<Next, BookFault>
        ensures says { IfOk result (λ n. SaysNext P.listing P.sites self.old.ledger n self.new.ledger) }
        ensures posts { self.new.posts ≡ self.old.posts }
        ensures stands { KeepsWords self.old self.new }
        ensures refused { OnErr result (self.new ≡ self.old) }
        ensures why { IfErr result (λ why. IsRefusedNext P.listing self.old.ledger why) }
    {
        let next = self.ledger.next(inputs);
        // A law: it shows the prover that the journal is a run by Orc's rules, which the clause *says* rests on. Nothing runs.
        self.ledger.is_whole();
        match next {
            Comes::Work => Ok(Next::Work),
            Comes::Quiet => Ok(Next::Quiet),
            Comes::Ticks(time) => {
                self.tick(time)?;
                Ok(Next::Ticked)
            }
        }
    }

    // Time goes on to `time`, in logical units, of which the ledger's `next` has said that a tick may set it. The faults are Limit, if the journal
    // has as many entries as the limit, and Memory. In the contract `KeepsWords` says that each word stands for what it did and the same tokens are
    // kept.
    fn tick(&mut self, time: u64) -> Result<(), BookFault>
        requires { MayTick P.listing P.sites self.old.ledger time }
        ensures done { OnOk result (self.new.ledger ≡ record self.old.ledger { journal = self.old.ledger.journal ++ Tick time ∷ []; entries = self.old.ledger.entries + 1; now = time }) }
        ensures posts { self.new.posts ≡ self.old.posts }
        ensures stands { KeepsWords self.old self.new }
        ensures refused { OnErr result (self.new ≡ self.old) }
        ensures why { IfErr result (λ why. IsRefusedTick self.old.ledger why) }
    {
        match self.ledger.tick(time) {
            Ok(()) => Ok(()),
            Err(fault) => Err(fault_of(fault)),
        }
    }
}
