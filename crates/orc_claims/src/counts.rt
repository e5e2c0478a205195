//! Claims on how many happenings there are, in all or at once. An event is that one of its alternatives happens: a publication, or something that
//! becomes of a call (its `Phase`). A `Bound` is a variable of an event with the value that it got from a happening.
//!
//! In contracts `first_bad good [] list` is the place, from 0, of the first happening of the list that isn't as `good` asks.

ghost use Rattle.std.specs.Prelude.{◌≡◌, ◌≤◌, ◌<◌, ◌+◌, ◌^◌, [], IfOk};
ghost use Rattle.orc_claims.specs.Claims.{counts, is_counted, is_uncrowded, number, out_after, up_to};
ghost use Rattle.orc_claims.specs.Verdicts.{first_bad};

use crate::claim::Event;
use crate::event_match::Bound;
use crate::happening::{Happening, Occurrence, Phase};
use std::alloc::{AllocError, Global};

/// Whether a number or a time is at most `most`; true if `most` is None.
pub(crate) fn up_to(most: Option<u64>, number: u64) -> bool
    ensures { result ≡ up_to most number }
{
    match most {
        Some(most) => number <= most,
        None => true,
    }
}

impl Event {
    // Whether a happening counts: it meets the event (is what the event describes), at the time `by` at the latest, where None is no bound. `found`
    // is scratch memory: what is in it before and after doesn't matter. The error is refused memory.
    fn counts(
        &self,
        by: Option<u64>,
        happening: &Happening,
        found: &mut Vec<Bound>,
    ) -> Result<bool, AllocError>
        ensures { IfOk result (λ one. one ≡ counts self.now by happening.now) }
    {
        if !self.is_met(happening, found)? {
            return Ok(false);
        }
        Ok(up_to(by, happening.time))
    }

    /// How many happenings meet the event (are what it describes), at the time `by` at the latest, in units of logical time, where None is no bound.
    /// The error is refused memory.
    pub(crate) fn number(
        &self,
        alloc: Global,
        by: Option<u64>,
        happenings: &[Happening],
    ) -> Result<u64, AllocError>
        ensures { IfOk result (λ n. n ≡ number self.now by happenings.now) }
    {
        // Scratch memory for the values that the event's variables get.
        let mut found = Vec::new(alloc);
        let mut number: u64 = 0;
        for at in 0..happenings.len() {
            // The happening meets the event in time.
            if self.counts(by, &happenings[at], &mut found)? {
                number += 1;
            }
        }
        Ok(number)
    }

    /// The place, from 0, of the happening that is one too many: of those up to the time `by` that meet the event, the one behind the first `most`.
    /// None as `most` or `by` is no bound. None if there is no such happening. The error is refused memory.
    #[tactic(auto, using(crate::proofs::Placed::goes_on, crate::proofs::Placed::stops, crate::proofs::Placed::done))]
    pub(crate) fn first_too_many(
        &self,
        alloc: Global,
        most: Option<u64>,
        by: Option<u64>,
        happenings: &[Happening],
    ) -> Result<Option<usize>, AllocError>
        ensures { IfOk result (λ place. place ≡ first_bad (is_counted self.now most by) [] happenings.now) }
    {
        // Scratch memory for the values that the event's variables get.
        let mut found = Vec::new(alloc);
        let mut number: u64 = 0;
        for at in 0..happenings.len() {
            if self.counts(by, &happenings[at], &mut found)? {
                number += 1;
                if !up_to(most, number) {
                    return Ok(Some(at));
                }
            }
        }
        Ok(None)
    }

    // How many calls that meet the event are pending after the happening, if `out` of them were pending before it. The clause asks that the sum
    // doesn't overflow. `found` is scratch memory. The error is refused memory.
    fn out_after(
        &self,
        out: u64,
        happening: &Happening,
        found: &mut Vec<Bound>,
    ) -> Result<u64, AllocError>
        requires { out + 1 < 2 ^ 64 }
        ensures count { IfOk result (λ n. n ≡ out_after self.now out happening.now) }
        ensures most { IfOk result (λ n. n ≤ out + 1) }
    {
        // A publication doesn't change how many calls pend.
        let Occurrence::Call(site, args, phase) = &happening.what else {
            return Ok(out);
        };
        // The call is made, and pends from now on.
        if *phase == Phase::Called {
            return Ok(if self.is_met(happening, found)? {
                out + 1
            } else {
                out
            });
        }
        // The call ends by this happening. Was it one of those that count? The event asks for calls that are made, so it is asked as if it were made
        // now.
        let called = Happening {
            time: happening.time,
            what: Occurrence::Call(*site, args.copied(), Phase::Called),
        };
        Ok(if self.is_met(&called, found)? {
            // The journal has the call's beginning too, so the call was counted, and the subtraction doesn't saturate.
            out.saturating_sub(1)
        } else {
            out
        })
    }

    /// The place, from 0, of the first call by which more than `most` calls that meet the event are pending at one moment; None if there is none. The
    /// error is refused memory.
    pub(crate) fn first_crowd(
        &self,
        alloc: Global,
        most: u64,
        happenings: &[Happening],
    ) -> Result<Option<usize>, AllocError>
        ensures { IfOk result (λ place. place ≡ first_bad (is_uncrowded self.now most) [] happenings.now) }
    {
        // Scratch memory for the values that the event's variables get.
        let mut found = Vec::new(alloc);
        // How many calls that meet the event are pending after the happenings so far.
        let mut out: u64 = 0;
        for at in 0..happenings.len() {
            out = self.out_after(out, &happenings[at], &mut found)?;
            if out > most {
                return Ok(Some(at));
            }
        }
        Ok(None)
    }
}
