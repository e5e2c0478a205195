//! Calls that the table of sites answers at once: the call and its answer in one go. A *token* marks a part of the program's term that runs: it is in
//! a *slot* of the table of tokens, and on a value, or at a node in a *scope* (by number, what the names there stand for). Its mark, or serial, is
//! its number in the journal; its step is the innermost entry around it into the right side of a `<x<`, or into the left side of a `;` or a `>x>`, 0
//! for none. *Operands* are names and values; the arguments are the values that they stand for. [`Called`] says what has become of a call: it pends,
//! with its number; it was answered, with the value; or it halted, out of the group with that number, which may have no member any more.
//!
//! Of the clauses `held` says that the token is in the slot, `at` or `form` what it is on, `done` what becomes of the records, `others` which tokens
//! stay in their slots, `refused` that a refused call changes nothing, and `why` its cause.
//!
//! `within(t, g, d)` asks whether the limits allow an entry that brings t tokens and g groups more, and a token inside d left sides of a `>x>` (0
//! where it enters none). `IsRefused` has the same three numbers. Full means that the tokens with the pending calls, the groups, or the left sides of
//! a `>x>` around one token would be too many, Limit that the journal has as many entries as it may, Memory that memory was refused. `P` names the
//! run: `P.listing` is its program, where `code` gives the term of a node, and `P.sites` the table of its sites.

ghost use Rattle.std.specs.Prelude.{◌≡◌, ◌++◌, ◌∷◌, [], map, slice_index_or, IfOk, IfErr, IfSome, IfNone, OnOk, OnErr};
ghost use Rattle.orc_rules.specs.Nodes.{code, definitions, param_of};
ghost use Rattle.orc_rules.specs.Term.{site as calls_site};
ghost use Rattle.orc_rules.specs.declared.entry.Entry.TheVariants.{Call as Calls};
ghost use Rattle.orc_rules.specs.declared.value.Found.TheVariants.{After};
ghost use Rattle.orc_calls.specs.Counting.{CountsCall};
ghost use Rattle.orc_ledger_spec.specs.AtOnce.{IsCalled};
ghost use Rattle.orc_ledger_spec.specs.Calls.{IsRefused};
ghost use Rattle.orc_log.specs.Logs.{log_with};
ghost use Rattle.orc_subrun.specs.Moved.{IsSilent};
ghost use Rattle.orc_frames.specs.Doing.{IsCall};
ghost use Rattle.orc_ledger_spec.specs.Doing.{term_of, what_of};
ghost use Rattle.orc_ledger_spec.specs.Moves.{StandsAt};
ghost use Rattle.orc_tables.specs.Tokens.{IsHeld};
ghost use Rattle.orc_ledger.specs.Others.{KeepsOthers};

use crate::inputs::Inputs;
use crate::ledger::Ledger;
use crate::requests::CallNumbers;
use orc_calls::Counts;
use orc_frames::Action;
use orc_ledger_spec::{Called, Halted, LedgerFault};
use orc_log::{Log, Run};
use orc_rules::entry::Entry;
use orc_rules::value::{Answer, Args, Found};
use orc_tables::{Call, Standing, Token};

// The answer that the table of sites gives with delay 0, at the time of the call itself; None if the table gives an answer later or never. `found` is
// what the table says of the call.
fn answer_at_once(found: Found) -> Option<Answer>
    ensures { IfSome result (λ answer. found ≡ After answer 0) }
{
    match found {
        Found::After(answer, delay) => { if delay == 0 { Some(answer) } else { None } }
        Found::Never => None,
    }
}

// Writes a call and its answer, and counts in `counts` a call of the site with these arguments, if a script answers the site. `answer` is the entry
// of the return, which publishes nothing (`silent`). Where memory is refused nothing changes.
#[inline(always)]
fn write_answered<P: Run>(
    journal: &mut Log<P>,
    counts: &mut Counts,
    inputs: &Inputs<'_, P>,
    numbers: CallNumbers,
    args: &Args,
    answer: &Entry,
) -> Result<(), LedgerFault>
    requires silent { IsSilent answer.now }
    ensures added { OnOk result (journal.new ≡ log_with (log_with journal.old (Calls numbers.token numbers.call numbers.site args.now ∷ [])) (answer.now ∷ [])) }
    ensures counted { OnOk result (CountsCall inputs.now.answers.now.sites numbers.site args.now counts.old counts.new) }
    ensures refused { OnErr result ((journal.new ≡ journal.old) × (counts.new ≡ counts.old)) }
    ensures why { IfErr result (λ fault. fault ≡ LedgerFault.Memory) }
{
    let CallNumbers { token, call, site } = numbers;
    // The journal's length before both entries, to which it is cut if the answer's entry or the counting is refused.
    let entries = journal.len();
    if journal
        .push_call(inputs.answers, token, call, site, args.as_slice())
        .is_err()
    {
        return Err(LedgerFault::Memory);
    }
    // The journal's length with the call alone, to which it is cut below.
    let called = journal.len();
    if journal.push(answer).is_err() {
        journal.truncate(entries);
        return Err(LedgerFault::Memory);
    }
    match counts.add(inputs.answers, site, args) {
        Ok(()) => Ok(()),
        Err(_) => {
            // One entry after the other, since `truncate` asks for a proof that what goes publishes nothing. The second call alone would do the work.
            journal.truncate(called);
            journal.truncate(entries);
            Err(LedgerFault::Memory)
        }
    }
}

impl<P: Run> Ledger<P> {
    /// Makes the call of a site at which this token is, which is in the slot `slot`; the call's operands have values, as the clause `calls` asks. If
    /// the table answers it at once, and the limit allows both entries, the answer is recorded, too; else the call pends. `args` is lent for the
    /// arguments: it has them afterwards. Full, Limit or Memory if the entry is refused; then nothing changes but `args`. Tokens in other slots stay
    /// there.
    pub fn call_through(
        &mut self,
        inputs: &Inputs<'_, P>,
        slot: usize,
        token: Token,
        args: &mut Args,
    ) -> Result<Called, LedgerFault>
        requires held { IsHeld self.old.slots slot token }
        requires calls { what_of (code P.listing) (definitions P.listing) self.old token ≡ Action.Call }
        ensures done { IfOk result (λ called. IsCalled P.listing P.sites self.old slot token called self.new) }
        ensures others { OnOk result (KeepsOthers self.old.slots slot self.new.slots) }
        ensures refused { OnErr result (self.new ≡ self.old) }
        ensures why { IfErr result (λ fault. IsRefused self.old 0 0 0 fault) }
    {
        // `ask` gives the number of the site, and writes the arguments over `args`.
        let site = self.ask(inputs, token, args);
        self.answer_through(inputs, slot, token, site, args)
    }

    /// Makes the call at which this token is, of the site with the number `site` with the operands of list `list`, which are read in the scope with
    /// the number `scope`, and records the answer, too, if the table gives it at once and the limit allows both entries. The function looks at the
    /// operands only once. None, and nothing changes, if an operand has no value. `args` is lent for the arguments. Full, Limit or Memory if the
    /// entry is refused; then nothing changes but `args`. Tokens in other slots stay there.
    #[inline(always)]
    pub fn call_at(
        &mut self,
        inputs: &Inputs<'_, P>,
        slot: usize,
        token: Token,
        scope: usize,
        site: u32,
        list: u32,
        args: &mut Args,
    ) -> Result<Option<Called>, LedgerFault>
        requires held { IsHeld self.old.slots slot token }
        requires at { StandsAt P.listing token scope (calls_site site (map param_of (slice_index_or P.listing.lists list []))) }
        ensures done { IfOk result (λ called. IfSome called (λ c. IsCalled P.listing P.sites self.old slot token c self.new)) }
        ensures none { IfOk result (λ called. IfNone called (self.new ≡ self.old)) }
        ensures others { OnOk result (KeepsOthers self.old.slots slot self.new.slots) }
        ensures refused { OnErr result (self.new ≡ self.old) }
        ensures why { IfErr result (λ fault. IsRefused self.old 0 0 0 fault) }
    {
        // `take_values` writes the operands' values over `args`, and is false if one has none.
        if self.take_values(inputs.graph.operands(list as usize), scope, args) {
            return match self.answer_through(inputs, slot, token, site, args) {
                Ok(called) => Ok(Some(called)),
                Err(fault) => Err(fault),
            };
        }
        Ok(None)
    }

    /// Makes the call at which this token is, of this site with these arguments: the call is answered at once if the table does so and the limit
    /// allows both entries, else the call pends. `asks` says that the token's term is this call. Full, Limit or Memory if the entry is refused; then
    /// nothing changes. Tokens in other slots stay there.
    #[inline(always)]
    pub(crate) fn answer_through(
        &mut self,
        inputs: &Inputs<'_, P>,
        slot: usize,
        token: Token,
        site: u32,
        args: &Args,
    ) -> Result<Called, LedgerFault>
        requires held { IsHeld self.old.slots slot token }
        requires asks { IsCall site args.now (term_of (code P.listing) self.old token) }
        ensures done { IfOk result (λ called. IsCalled P.listing P.sites self.old slot token called self.new) }
        ensures others { OnOk result (KeepsOthers self.old.slots slot self.new.slots) }
        ensures refused { OnErr result (self.new ≡ self.old) }
        ensures why { IfErr result (λ fault. IsRefused self.old 0 0 0 fault) }
    {
        // The pending call, or the token on the answer, takes the token's place: no token or call more, and no group.
        self.within(0, 0, 0)?;
        // The call's record, with its number and the table's answer. Nothing is written yet.
        let call = self.next_call(inputs, token, site, args);
        // An answer at once takes two entries, the call's and its own. If the limit has room for one alone, the call pends.
        let answer = match answer_at_once(call.found) {
            Some(answer) if self.limit - self.entries >= 2 => answer,
            _ => {
                // The call is written without an answer, and pends in the token's place.
                self.pend(inputs, slot, token, site, args, call)?;
                return Ok(Called::Pends(call.number));
            }
        };
        let number = call.number;
        let numbers = CallNumbers {
            token: token.serial,
            call: number,
            site,
        };
        // The call never pends: all that the table of calls gets is its number, for which there has to be room.
        match self.calls.reserve_number() {
            Ok(()) => {}
            Err(_) => return Err(LedgerFault::Memory),
        }
        // The number of the group that the token is a member of: the innermost right side of a `<x<` or left side of a `;` around it, or 0, the
        // program.
        let group = self.steps.group_at(token.step);
        match answer {
            // A token on the value comes into the slot of the token that made the call, in the same group: nothing more is reserved.
            Answer::Value(value) => {
                // The mark by which the journal names the token on the answer.
                let mark = self.next_mark;
                write_answered(
                    &mut self.journal,
                    &mut self.counts,
                    inputs,
                    numbers,
                    args,
                    &Entry::Return(number, mark, value),
                )?;
                self.entries += 2;
                self.next_mark = mark + 1;
                // The call's number is used up, though the call never pends.
                self.calls.skip_number();
                self.tokens.replace(
                    slot,
                    Token {
                        serial: mark,
                        standing: Standing::On(value),
                        step: token.step,
                    },
                    group,
                );
                Ok(Called::Answered(value))
            }
            // The call halts: the token goes, out of its group, and no token comes for it.
            Answer::Halt => {
                write_answered(
                    &mut self.journal,
                    &mut self.counts,
                    inputs,
                    numbers,
                    args,
                    &Entry::ReturnHalt(number),
                )?;
                self.entries += 2;
                // The call's number is used up, though the call never pends.
                self.calls.skip_number();
                self.tokens.remove(slot);
                self.groups.leave(group);
                Ok(Called::Halted(group))
            }
        }
    }
}
