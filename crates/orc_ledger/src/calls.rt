//! The answers of pending calls: a call returns a value, or halts. A call *pends* from its own entry on, in the place of the token that made it: a
//! *token* marks a part of the program's term that runs. A call's or a token's step is the innermost entry around it into the right side of a `<x<`,
//! or into the left side of a `;` or a `>x>`, 0 for none, and `self.steps` tells by that its group. `found` is what the table of sites says of a
//! call: an answer after a delay from `made_at` on, or none ever. `P` names the run: `P.listing` is its program and `P.sites` the table of its sites.

ghost use Rattle.std.specs.Prelude.{◌≡◌, ◌<◌, Some, None, IfOk, IfErr, OnOk, OnErr};
ghost use Rattle.orc_rules.specs.Timed.{IsIn};
ghost use Rattle.orc_rules.specs.declared.value.Answer.TheVariants.{Value as Gives, Halt};
ghost use Rattle.orc_calls.specs.Due.{DueNow};
ghost use Rattle.orc_ledger_spec.specs.Answers.{IsReturned, IsUnanswered, Pends};
ghost use Rattle.orc_tables.specs.declared.records.Call.{Call as Its};
ghost use Rattle.orc_ledger.specs.Others.{KeepsAll};

use crate::ledger::{Ledger, write};
use orc_calls::check_due;
use orc_ledger_spec::{LedgerFault, ReturnFault};
use orc_log::Run;
use orc_rules::entry::Entry;
use orc_rules::value::{Answer, Value};
use orc_tables::{Call, Standing, Token};

impl<P: Run> Ledger<P> {
    /// Answers the call that pends with this number, the call's in the journal, if the table of sites gives this answer and the answer is due now. If
    /// the answer is a value, a token on the value comes in the call's place, and the token's slot is given; if the call halts, None is given. Each
    /// other token stays in its slot. Gone if no such call pends, Wrong if the table says otherwise or the call isn't due now, Limit if the journal
    /// has as many entries as its limit, else Memory. Nothing has changed then.
    #[inline(always)]
    pub fn returned(&mut self, number: u64, answer: Answer) -> Result<Option<usize>, ReturnFault>
        ensures done { IfOk result (λ slot. (c : Its) × Pends self.old number c × IsReturned self.old c answer slot self.new) }
        ensures others { OnOk result (KeepsAll self.old.slots self.new.slots) }
        ensures refused { OnErr result (self.new ≡ self.old) }
        ensures why { IfErr result (λ fault. IsUnanswered P.listing P.sites self.old number answer fault) }
    {
        let call = match self.calls.get(number) {
            Some(call) => call,
            None => return Err(ReturnFault::Gone),
        };
        // The error of `check_due`: the table gives another answer, or this one at another time.
        match check_due(call.found, call.made_at, answer, self.time) {
            Ok(()) => {}
            Err(_) => return Err(ReturnFault::Wrong),
        }
        if self.entries >= self.limit {
            return Err(ReturnFault::Limit);
        }
        match answer {
            // `give` and `give_up` are refused for want of memory alone: the limit has been asked.
            Answer::Value(value) => match self.give(call, value) {
                Ok(slot) => Ok(Some(slot)),
                Err(_) => Err(ReturnFault::Memory),
            },
            Answer::Halt => match self.give_up(call) {
                Ok(()) => Ok(None),
                Err(_) => Err(ReturnFault::Memory),
            },
        }
    }

    // Answers a call, which is due now, with a value. Gives the slot of the token on the value, which comes in the call's place. The error is refused
    // memory, and then nothing changes. `due` and `room` ask what `returned` has tested.
    #[inline(always)]
    fn give(&mut self, call: Call, value: Value) -> Result<usize, LedgerFault>
        requires pends { IsIn call self.old.calls }
        requires due { DueNow call.made_at call.found (Gives value) self.old.now }
        requires room { self.old.entries < self.old.limit }
        ensures done { IfOk result (λ slot. IsReturned self.old call (Gives value) (Some slot) self.new) }
        ensures others { OnOk result (KeepsAll self.old.slots self.new.slots) }
        ensures refused { OnErr result (self.new ≡ self.old) }
    {
        // `within` isn't asked: tokens and calls are limited together, and the token comes for the call. Nor does a group change its size.
        self.tokens.reserve()?;
        // The mark by which the journal names the token on the value.
        let mark = self.next_mark;
        write(&mut self.journal, &Entry::Return(call.number, mark, value))?;
        self.entries += 1;
        self.next_mark = mark + 1;
        self.calls.take(call.number);
        // The token is in the group in which the call was: the innermost right side of a `<x<` or left side of a `;` around it, or the program.
        let group = self.steps.group_at(call.step);
        let slot = self.tokens.add(
            Token {
                serial: mark,
                standing: Standing::On(value),
                step: call.step,
            },
            group,
        );
        Ok(slot)
    }

    // Answers a call, which is due now, with a halt. The error is refused memory, and then nothing changes. `due` and `room` ask what `returned` has
    // tested.
    #[inline(always)]
    fn give_up(&mut self, call: Call) -> Result<(), LedgerFault>
        requires pends { IsIn call self.old.calls }
        requires due { DueNow call.made_at call.found Halt self.old.now }
        requires room { self.old.entries < self.old.limit }
        ensures done { IfOk result (λ _. IsReturned self.old call Halt None self.new) }
        ensures others { OnOk result (KeepsAll self.old.slots self.new.slots) }
        ensures refused { OnErr result (self.new ≡ self.old) }
    {
        // The group in which the call pends: the innermost right side of a `<x<` or left side of a `;` around it, or the program.
        let group = self.steps.group_at(call.step);
        write(&mut self.journal, &Entry::ReturnHalt(call.number))?;
        self.entries += 1;
        self.calls.take(call.number);
        // The call was a member of the group, and no token comes for it: one member less.
        self.groups.leave(group);
        Ok(())
    }
}
