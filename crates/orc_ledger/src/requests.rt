//! Calls of sites: a token makes one, and it pends; what it asks. A *token* marks a part of the program's term that runs: it is in a *slot* of the
//! table of tokens, and at a node in a *scope* (by number, what the names there stand for). Its mark, or serial, is its number in the journal. Its
//! step is the innermost entry around it into the right side of a `<x<`, or into the left side of a `;` or a `>x>`, 0 for none, and the call keeps
//! that step. *Operands* are names and values; the arguments are the values that they stand for.
//!
//! Of the clauses `held` says that the token is in the slot, `at` or `form` what it is on, `done` what becomes of the records, `others` which tokens
//! stay in their slots, `refused` that a refused call changes nothing, and `why` its cause.
//!
//! `within(t, g, d)` asks whether the limits allow an entry that brings t tokens and g groups more, and a token inside d left sides of a `>x>` (0
//! where it enters none). `IsRefused` has the same three numbers. Full means that the tokens with the pending calls, the groups, or the left sides of
//! a `>x>` around one token would be too many, Limit that the journal has as many entries as it may, Memory that memory was refused.
//!
//! `P` names the run: `P.listing` is its program and `P.sites` the table of its sites. `IsMade` says that the call's entry is written and counted,
//! and that the call pends in the token's place.

ghost use Rattle.std.specs.Prelude.{◌≡◌, ◌<◌, ◌++◌, ◌∷◌, [], ℕ, true, Some, IfOk, IfErr, MatchOption, OnOk, OnErr, length};
ghost use Rattle.orc_rules.specs.Nodes.{code, definitions};
ghost use Rattle.orc_rules.specs.declared.entry.Entry.TheVariants.{Call as Calls};
ghost use Rattle.orc_calls.specs.Counting.{CountsCall};
ghost use Rattle.orc_ledger_spec.specs.Answers.{Pends};
ghost use Rattle.orc_ledger_spec.specs.Calls.{IsRefused};
ghost use Rattle.orc_log.specs.Logs.{log_with};
ghost use Rattle.orc_tables.specs.PendingCalls.{has_number};
ghost use Rattle.orc_frames.specs.Doing.{IsCall};
ghost use Rattle.orc_ledger_spec.specs.Doing.{term_of, what_of};
ghost use Rattle.orc_ledger_spec.specs.Requests.{IsAsked, IsMade, IsNextCall};
ghost use Rattle.orc_indexes.specs.Same.{weight};
ghost use Rattle.orc_tables.specs.Tokens.{IsHeld};
ghost use Rattle.orc_ledger.specs.Others.{KeepsOthers};

use crate::inputs::Inputs;
use crate::ledger::Ledger;
use orc_calls::Counts;
use orc_frames::Action;
use orc_graph::Node;
use orc_ledger_spec::{LedgerFault, Request};
use orc_log::{Log, Run};
use orc_rules::entry::Entry;
use orc_rules::value::Args;
use orc_tables::{Call, Standing, Token};

// The numbers in the entry of a call.
#[derive(Clone, Copy)]
pub(crate) struct CallNumbers {
    // The mark of the token that makes the call.
    pub(crate) token: u64,
    // The call's own number, from 1.
    pub(crate) call: u64,
    // The number of the site.
    pub(crate) site: u32,
}

// Writes the entry of a call. If a script answers the site, it counts the call too, since the script may answer the next one with these arguments
// otherwise. Where memory is refused nothing changes.
#[inline(always)]
fn write_call<P: Run>(
    journal: &mut Log<P>,
    counts: &mut Counts,
    inputs: &Inputs<'_, P>,
    numbers: CallNumbers,
    args: &Args,
) -> Result<(), LedgerFault>
    ensures added { OnOk result (journal.new ≡ log_with journal.old (Calls numbers.token numbers.call numbers.site args.now ∷ [])) }
    ensures counted { OnOk result (CountsCall inputs.now.answers.now.sites numbers.site args.now counts.old counts.new) }
    ensures refused { OnErr result ((journal.new ≡ journal.old) × (counts.new ≡ counts.old)) }
    ensures why { IfErr result (λ fault. fault ≡ LedgerFault.Memory) }
{
    let CallNumbers { token, call, site } = numbers;
    // The journal's length before the call, to which it is cut if the counting is refused.
    let entries = journal.len();
    match journal.push_call(inputs.answers, token, call, site, args.as_slice()) {
        Ok(()) => {}
        Err(_) => return Err(LedgerFault::Memory),
    }
    match counts.add(inputs.answers, site, args) {
        Ok(()) => Ok(()),
        Err(_) => {
            journal.truncate(entries);
            Err(LedgerFault::Memory)
        }
    }
}

impl<P: Run> Ledger<P> {
    // The number of the site that a token calls. The arguments are written over `args`. The token's action is `Call`, as the clause asks: so the
    // token is at a node, that node is a call of a site, and all operands have values. No `unreachable!` is met.
    #[inline(always)]
    pub(crate) fn ask(&self, inputs: &Inputs<'_, P>, token: Token, args: &mut Args) -> u32
        requires calls { what_of (code P.listing) (definitions P.listing) self.now token ≡ Action.Call }
        ensures { IsCall result args.new (term_of (code P.listing) self.now token) }
    {
        let Standing::At(node, scope) = token.standing else {
            unreachable!()
        };
        let Node::Site(site, list) = inputs.graph.node(node as usize) else {
            unreachable!()
        };
        // `take_values` writes the operands' values over `args`, and is false if one has none.
        if !self.take_values(inputs.graph.operands(list as usize), scope, args) {
            unreachable!()
        }
        site
    }

    // The record of the call that a token makes next, of a site with these arguments: its number, the table's answer, the place of its entry (`row`),
    // which is the next one in the journal, and which call with these arguments it is (`nth`; 1 where no script answers the site). The function looks
    // into the counts of calls once at most, and changes nothing.
    #[inline(always)]
    pub(crate) fn next_call(
        &self,
        inputs: &Inputs<'_, P>,
        token: Token,
        site: u32,
        args: &Args,
    ) -> Call
        ensures { IsNextCall P.listing P.sites self.now token site args.now result }
    {
        // The table's answer (`found`), and which call of the site with these arguments this one is (`nth`).
        let next = self.counts.next_call(inputs.answers, site, args);
        Call {
            number: self.calls.next_number(),
            found: next.found,
            made_at: self.time,
            step: token.step,
            row: self.journal.len(),
            nth: next.nth,
        }
    }

    // Makes this call, which `next_call` gave: it pends in the place of the token in the slot `slot`, and the slot is free. The limits were asked
    // before (the clause `room`). The only fault is `Memory`, and then nothing changes. Tokens in other slots stay there.
    pub(crate) fn pend(
        &mut self,
        inputs: &Inputs<'_, P>,
        slot: usize,
        token: Token,
        site: u32,
        args: &Args,
        call: Call,
    ) -> Result<(), LedgerFault>
        requires held { IsHeld self.old.slots slot token }
        requires asks { IsCall site args.now (term_of (code P.listing) self.old token) }
        requires room { self.old.entries < self.old.limit }
        requires next { IsNextCall P.listing P.sites self.old token site args.now call }
        ensures done { OnOk result (IsMade P.listing P.sites self.old token call self.new) }
        ensures others { OnOk result (KeepsOthers self.old.slots slot self.new.slots) }
        ensures refused { OnErr result (self.new ≡ self.old) }
        ensures why { IfErr result (λ fault. fault ≡ LedgerFault.Memory) }
    {
        // Makes room for the call, and notes when it is due. The error is refused memory.
        match self.calls.reserve(call) {
            Ok(()) => {}
            Err(_) => return Err(LedgerFault::Memory),
        }
        let numbers = CallNumbers {
            token: token.serial,
            call: call.number,
            site,
        };
        write_call(&mut self.journal, &mut self.counts, inputs, numbers, args)?;
        self.entries += 1;
        // A group is what runs inside one right side of a `<x<`, one left side of a `;`, or the whole program. The call is a member of the token's
        // group in the token's place: no group changes its number of members.
        self.tokens.remove(slot);
        let group = self.steps.group_at(call.step);
        // The table of calls takes the group as a hint for later searches.
        self.calls.add(call, group);
        Ok(())
    }

    /// Makes the call of a site at which this token is, which is in the slot `slot`. The clause `calls` asks that all operands of the call have
    /// values. Then the call pends in the token's place, and the slot is free. Gives the call's record. `args` is lent for the arguments: it has them
    /// afterwards, and what it held is lost. Full, Limit or Memory if the entry is refused; then nothing changes but `args`. Tokens in other slots
    /// stay there.
    pub fn call(
        &mut self,
        inputs: &Inputs<'_, P>,
        slot: usize,
        token: Token,
        args: &mut Args,
    ) -> Result<Call, LedgerFault>
        requires held { IsHeld self.old.slots slot token }
        requires calls { what_of (code P.listing) (definitions P.listing) self.old token ≡ Action.Call }
        ensures done { IfOk result (λ c. IsMade P.listing P.sites self.old token c self.new) }
        ensures args { IfOk result (λ _. (m : ℕ) × IsCall m args.new (term_of (code P.listing) self.old token)) }
        ensures others { OnOk result (KeepsOthers self.old.slots slot self.new.slots) }
        ensures refused { OnErr result (self.new ≡ self.old) }
        ensures why { IfErr result (λ fault. IsRefused self.old 0 0 0 fault) }
    {
        // The call takes the token's place: no token or call more, and no group.
        self.within(0, 0, 0)?;
        // `ask` gives the number of the site, and writes the arguments over `args`.
        let site = self.ask(inputs, token, args);
        let call = self.next_call(inputs, token, site, args);
        self.pend(inputs, slot, token, site, args, call)?;
        Ok(call)
    }

    /// What the call that pends with this number (the call's in the journal, from 1) asks: site, arguments, and when it was made. None where no such
    /// call pends; and if the run doesn't keep its journal, since the call's entry is read.
    pub fn request(&self, number: u64) -> Option<Request>
        ensures { MatchOption result (P.keeps ≡ true → weight (has_number number) self.now.calls ≡ 0) (IsAsked P.listing P.sites self.now number) }
    {
        let Some(call) = self.calls.get(number) else {
            return None;
        };
        // A run that doesn't keep its journal has no entry to read.
        let Some(entry) = self.journal.get(call.row) else {
            return None;
        };
        // `row` is the place of the call's own entry.
        let Entry::Call(_, _, site, args) = entry else {
            unreachable!()
        };
        Some(Request {
            site,
            args,
            made_at: call.made_at,
            nth: call.nth,
        })
    }

    /// The record of the call that pends with this number, the call's in the journal, from 1; None if no such call pends.
    #[inline(always)]
    pub fn pending(&self, number: u64) -> Option<Call>
        ensures { MatchOption result (weight (has_number number) self.now.calls ≡ 0) (Pends self.now number) }
    {
        self.calls.get(number)
    }

    /// How many calls of sites pend: they were made and have no answer yet.
    pub fn pending_count(&self) -> usize
        ensures { result ≡ length self.now.calls }
    {
        self.calls.len()
    }
}
