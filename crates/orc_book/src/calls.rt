//! Calls of sites: a token makes one, and it is answered. A token that is *out* is with a worker, with a *pass*: that stands for a token or a pending
//! call in its group (what runs in one right side of a `<x<`, one left side of a `;`, or the whole program), whose *word*, an atomic counter, counts
//! the passes. The book *keeps* the tokens that wait for a cell. `inputs` has the program and the table of what sites answer. `P` names the run and
//! its table of words, for contracts alone. A pass that is *left* is counted no more.

ghost use Rattle.std.specs.Prelude.{◌≡◌, ◌≤◌, ◌<◌, ◌+◌, ◌⊎◌, ℕ, List, length, true, Some, IfOk, IfErr, IfSome, MatchOption, OnOk, OnErr};
ghost use Rattle.orc_rules.specs.Timed.{IsIn};
ghost use Rattle.orc_tables.specs.declared.records.Token.{Token as Its};
ghost use Rattle.orc_tables.specs.declared.records.Call.{Call as ItsCall};
ghost use Rattle.orc_tables.specs.Steps.{group_at};
ghost use Rattle.orc_ledger_spec.specs.Answers.{Pends};
ghost use Rattle.orc_ledger_spec.specs.Requests.{IsMade};
ghost use Rattle.orc_word.specs.declared.view.View.{View};
ghost use Rattle.orc_word.specs.Views.{group_of};
ghost use Rattle.orc_book.specs.Held.{IsUnkept, KeepsWords, HasStayed, word_at};
ghost use Rattle.orc_book.specs.Answered.{IsAnswered, in_answered};
ghost use Rattle.orc_book.specs.Passes.{in_book};
ghost use Rattle.orc_book.specs.Refusals.{IsRefusedCall, IsRefusedAnswer};

use crate::book::Book;
use crate::post::{hand_out_at, out_in, put_back_at, reserve_at, take_at};
use crate::token::{BookFault, Refused, Token, fault_of};
use orc_ledger::{Action, Inputs, stands};
use orc_ledger_spec::ReturnFault;
use orc_log::Run;
use orc_rules::value::{Answer, Args};
use orc_word::{Naming, Pass};

/// What has become of a call that was answered.
#[derive(Drop)]
pub enum Answered<P: Naming> {
    /// The answer is a value: a token that stands at it is out, in the call's group.
    Token(Token<P>),
    /// The call halted without a value: its pass is to be left.
    Halted(Pass<P>),
}

impl<P: Run + Naming> Book<P> {
    /// Makes the call of a site at which this token is, whose operands have values: the call pends in the token's place. The book takes the token's
    /// pass, which counts the call as a member of the group from here on. Gives the call's number, from 1. `args` is lent: it has the call's
    /// arguments afterwards, and what it held is lost. Refused as Gone if the token isn't out with a worker, as Wrong if it does something else next,
    /// as Full or Limit if the entry is over such a limit, else as Memory.
    ///
    /// In the contract `IsUnkept` says that `t` is the token's record and the book doesn't keep the token, `IsMade` that the call `c` pends in its
    /// place, `KeepsWords` that each word stands for what it did and the same tokens are kept, `HasStayed` that nothing has changed but room for
    /// passes.
    pub fn call(
        &mut self,
        inputs: &Inputs<'_, P>,
        token: Token<P>,
        args: &mut Args,
    ) -> Result<u64, Refused<Token<P>>>
        ensures done { IfOk result (λ k. (t : Its) × (c : ItsCall) × IsUnkept self.old token.slot token.serial token.pass t × (c.number ≡ k) × IsMade P.listing P.sites self.old.ledger t c self.new.ledger) }
        ensures stands { KeepsWords self.old self.new }
        ensures refused { IfErr result (λ r. HasStayed self.old self.new × (r.back ≡ token)) }
        ensures why { IfErr result (λ r. IsRefusedCall P.listing self.old token r.why) }
    {
        let found = match self.find(inputs, &token) {
            Ok(found) => found,
            Err(why) => return Err(Refused { why, back: token }),
        };
        let Action::Call = found.what else {
            let why = BookFault::Wrong;
            return Err(Refused { why, back: token });
        };
        // Room in the ledger for one entry, with no token, group or left side of a `>x>` more. It is asked before memory, so that Limit is the fault
        // where both are lacking.
        if let Err(fault) = self.ledger.within(0, 0, 0) {
            return Err(Refused {
                why: fault_of(fault),
                back: token,
            });
        }
        // Room for the call's pass in the *post* of its group, which is what the book has of the group. Once the ledger has made the call nothing is
        // refused.
        if reserve_at(&mut self.posts, found.group).is_err() {
            return Err(Refused {
                why: BookFault::Memory,
                back: token,
            });
        }
        // A law: it shows the prover that the journal leads to a term, which the records describe. Nothing runs.
        stands(&self.ledger);
        match self.ledger.call(inputs, token.slot, found.its, args) {
            Ok(call) => {
                // `put_back_at` puts the token's pass into the post of its group, for the call, and notes that one token fewer of the group is out.
                // The token was out, so `found.out` is 1 at least.
                put_back_at(&mut self.posts, found.group, found.out - 1, token.pass);
                Ok(call.number)
            }
            Err(fault) => Err(Refused {
                why: fault_of(fault),
                back: token,
            }),
        }
    }
}

impl<P: Run + Naming> Book<P> {
    /// Answers the pending call with this `number`, from 1, if the table of sites gives this answer and it is due now. If the answer is a value, a
    /// token on it is out, with a pass to the call's group; if the call halts, the pass that the book held for it comes back, to be left by the
    /// caller. Refused as Gone if no call pends with the number, as Wrong if the answer isn't due now, as Limit if the journal has as many entries as
    /// the limit, else as Memory.
    ///
    /// In the contract `Pends` says that `c` is the call with the number, `IsAnswered` that it is gone, and that its token is out, or it halted and
    /// the pass names its group's word, `KeepsWords` that each word stands for what it did and the same tokens are kept. The clause *passes* gives
    /// each pass any weight `f`: what the book has no more, the answer has.
    pub fn returned(&mut self, number: u64, answer: Answer) -> Result<Answered<P>, BookFault>
        ensures done { IfOk result (λ a. (c : ItsCall) × Pends self.old.ledger number c × IsAnswered self.old c answer a self.new) }
        ensures stands { KeepsWords self.old self.new }
        ensures passes { IfOk result (λ a. (f : View → ℕ) → in_answered f a + in_book f self.new ≡ in_book f self.old) }
        ensures refused { OnErr result (self.new ≡ self.old) }
        ensures why { IfErr result (λ why. IsRefusedAnswer P.listing P.sites self.old.ledger number answer why) }
    {
        let Some(call) = self.ledger.pending(number) else {
            return Err(BookFault::Gone);
        };
        // The number of the call's group, and how many of that group's tokens are out.
        let group = self.ledger.group_of_call(&call);
        let out = out_in(&self.posts, group);
        // A law: it shows the prover that the journal leads to a term, which the records describe. Nothing runs.
        stands(&self.ledger);
        match self.ledger.returned(number, answer) {
            Ok(Some(slot)) => {
                // For the prover alone: the number of all tokens, the new one too, is a `usize`, and no more are out. So `out + 1` doesn't overflow.
                let _tokens = self.ledger.token_count();
                // The book holds a pass for each pending call. `hand_out_at` takes one out for the new token, and notes that one more of the group's
                // tokens is out.
                let Some(pass) = hand_out_at(&mut self.posts, group, out + 1) else {
                    unreachable!()
                };
                Ok(Answered::Token(self.born(slot, pass)))
            }
            Ok(None) => {
                // The call pended, so the book holds a pass for it. `take_at` takes that out.
                let Some(pass) = take_at(&mut self.posts, group) else {
                    unreachable!()
                };
                Ok(Answered::Halted(pass))
            }
            Err(ReturnFault::Gone) => Err(BookFault::Gone),
            Err(ReturnFault::Wrong) => Err(BookFault::Wrong),
            Err(ReturnFault::Limit) => Err(BookFault::Limit),
            Err(ReturnFault::Memory) => Err(BookFault::Memory),
        }
    }
}
