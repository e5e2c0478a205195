//! What the checker keeps of a journal besides the marked term: the time, the calls made, and the cancels due. A *cancel* is the entry which says
//! that a bind has dropped a pending call. The table of sites (`answers`) says what each call is answered, and after which delay. A `Kept` is a call
//! as it is stored.

ghost use Rattle.std.specs.Prelude.{◌≡◌, ◌∷◌, List, [], true, false, reverse, length, slice_get, ℕ, Some, IfOk, IfErr, IfSome, IfNone, OnOk, OnErr};
ghost use Rattle.orc_calls.specs.Counting.{CountsCall, NextFound};
ghost use Rattle.orc_calls.specs.Due.{IsNotDue};
ghost use Rattle.orc_checker.specs.Calls.{Rest as Aside, AddsCall, IsCall, IsDueNow};
ghost use Rattle.orc_checker.specs.Index.{call_place};
ghost use Rattle.orc_rules.specs.declared.entry.RuleFault.TheVariants as reason;

use crate::kept::Kept;
use orc_calls::{Counts, check_due};
use orc_rules::answers::Answers;
use orc_rules::entry::RuleFault;
use orc_rules::value::{Answer, Args, Found};
use orc_term::room::{push_within, reserve_one};
use std::alloc::{AllocError, Global};
use std::marker::Model;

/// A call that was made.
#[derive(Clone, Copy)]
pub struct Called {
    /// What the table of sites says of it: an answer with a delay, or never.
    pub found: Found,
    /// When it was made, in units of logical time.
    pub at: u64,
    /// The node of the marked term where it was put.
    pub node: u32,
}

/// What is kept of a journal beside its term.
#[derive(Drop)]
pub struct Rest {
    /// All calls by their numbers; call k is at k - 1.
    pub(crate) calls: Vec<Kept>,
    /// How often each call of a site that a script answers was made: the n-th one gets the script's n-th answer.
    pub(crate) counts: Counts,
    /// The time now, in units of logical time.
    pub(crate) time: u64,
    /// The calls whose cancel is due, the least last, since that is the next one.
    pub(crate) to_cancel: Vec<u64>,
    /// Whether the journal records cancels: only then do they come due.
    pub(crate) cancels: bool,
}

// In contracts a `Rest` is the record of its fields, with the cancels in the order in which they come.
impl Model for Rest {
    ghost Value = { Aside };

    ghost view = { λ r. record { calls = r.calls.items; counts = r.counts; time = r.time; to_cancel = reverse r.to_cancel.items; cancels = r.cancels } };
}

// Counts a call of `site` with these arguments, if a script answers the site. The error is Memory; no count changes then.
#[inline(always)]
fn count(counts: &mut Counts, answers: &Answers, site: u32, args: &Args) -> Result<(), RuleFault>
    ensures added { OnOk result (CountsCall answers.now.sites site args.now counts.old counts.new) }
    ensures refused { OnErr result (counts.new ≡ counts.old) }
    ensures why { IfErr result (λ r. r ≡ reason.Memory) }
{
    match counts.add(answers, site, args) {
        Ok(()) => Ok(()),
        Err(_) => Err(RuleFault::Memory),
    }
}

impl Rest {
    /// Time 0 and no calls; `cancels` says whether the journal records cancels.
    pub(crate) fn new(alloc: Global, cancels: bool) -> Rest
        ensures { result ≡ record { calls = []; counts = []; time = 0; to_cancel = []; cancels = cancels } }
    {
        Rest {
            calls: Vec::new(alloc),
            counts: Counts::new(alloc),
            time: 0,
            to_cancel: Vec::new(alloc),
            cancels,
        }
    }

    /// A copy of all that is kept. The error is refused memory.
    pub(crate) fn copy(&self, alloc: Global) -> Result<Rest, AllocError>
        ensures { IfOk result (λ r. r ≡ self.now) }
    {
        let calls = Vec::from_slice(alloc, &self.calls)?;
        let to_cancel = Vec::from_slice(alloc, &self.to_cancel)?;
        let counts = self.counts.copy()?;
        Ok(Rest {
            calls,
            counts,
            time: self.time,
            to_cancel,
            cancels: self.cancels,
        })
    }

    /// What the table of sites, `answers`, says of the next call of `site` with these arguments: an answer with a delay, or never.
    #[inline(always)]
    pub(crate) fn found(&self, answers: &Answers, site: u32, args: &Args) -> Found
        ensures { NextFound answers.now.sites self.now.counts site args.now result }
    {
        self.counts.next_call(answers, site, args).found
    }

    /// Adds `called`, a call of `site` with these arguments, behind the calls made, and counts it. The error is Memory; nothing changes then.
    #[inline(always)]
    pub(crate) fn add(
        &mut self,
        called: Called,
        answers: &Answers,
        site: u32,
        args: &Args,
    ) -> Result<(), RuleFault>
        ensures added { OnOk result (AddsCall answers.now.sites called site args.now self.old self.new) }
        ensures refused { OnErr result (self.new ≡ self.old) }
        ensures why { IfErr result (λ r. r ≡ reason.Memory) }
    {
        // The room comes first, so that no call is counted that can't be added.
        reserve_one(&mut self.calls).map_err(|_| RuleFault::Memory)?;
        count(&mut self.counts, answers, site, args)?;
        push_within(&mut self.calls, Kept::new(called));
        Ok(())
    }

    /// The call of that number, from 1. None if there is no such call.
    pub(crate) fn call(&self, k: u64) -> Option<Called>
        ensures made { IfSome result (λ c. IsCall self.now k c) }
        ensures missing { IfNone result ((i : ℕ) → call_place self.now.calls k ≡ Some i → ⊥) }
    {
        if k == 0 {
            return None;
        }
        Some(self.calls.get((k - 1) as usize)?.called())
    }

    /// How many calls were made.
    pub(crate) fn calls_made(&self) -> usize
        ensures { result ≡ length self.now.calls }
    {
        self.calls.len()
    }

    /// The time to which the journal's entries have come, in units of logical time.
    pub(crate) fn time(&self) -> u64
        ensures { result ≡ self.now.time }
    {
        self.time
    }

    /// Whether a cancel is due: a bind has dropped a pending call, and the entry that says so hasn't come. Only a `cancel` is allowed then.
    pub(crate) fn has_cancels(&self) -> bool
        ensures free { result ≡ false → self.now.to_cancel ≡ [] }
        ensures due { result ≡ true → self.now.to_cancel ≡ [] → ⊥ }
    {
        !self.to_cancel.is_empty()
    }

    /// The least number of a call whose cancel is due: the list has the least last. None where no cancel is due.
    pub(crate) fn next_cancel(&self) -> Option<u64>
        ensures { result ≡ slice_get self.now.to_cancel 0 }
    {
        self.to_cancel.last().copied()
    }

    /// Makes the cancels of the calls with these numbers due, that of the list's last call first. They replace those that were due.
    pub(crate) fn set_cancels(&mut self, calls: Vec<u64>)
        ensures { self.new ≡ record self.old { to_cancel = reverse calls.items } }
    {
        self.to_cancel = calls;
    }

    /// Takes the cancel of call `k` off those that are due. The error is Cancel: another cancel is next, or none is due; nothing changes then.
    pub(crate) fn cancel(&mut self, k: u64) -> Result<(), RuleFault>
        ensures done { OnOk result (self.old ≡ record self.new { to_cancel = k ∷ self.new.to_cancel }) }
        ensures refused { OnErr result (self.new ≡ self.old) }
        ensures why { IfErr result (λ r. (r ≡ reason.Cancel) × (slice_get self.old.to_cancel 0 ≡ Some k → ⊥)) }
    {
        match self.to_cancel.last() {
            Some(next) if *next == k => {}
            // Another cancel is next, or none is due.
            _ => return Err(RuleFault::Cancel),
        }
        let _cancelled = self.to_cancel.pop();
        Ok(())
    }
}

/// Checks that a call's answer is `answer` and is due at `time`, in units of logical time. The errors: Answer where the table says another answer or
/// never, Time where the answer is due at another time or past the greatest time.
pub(crate) fn is_due_now(called: Called, answer: Answer, time: u64) -> Result<(), RuleFault>
    ensures due { IfOk result (λ _. IsDueNow called answer time) }
    ensures not_due { IfErr result (λ r. IsNotDue called.at called.found answer time r) }
{
    check_due(called.found, called.at, answer, time)
}
