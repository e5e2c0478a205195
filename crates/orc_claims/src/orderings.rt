//! Claims on what comes before and behind what: `only after`, `no .. after` and `each .. then`. The order is that of the journal, also at one time. A
//! `Bound` is a variable of an event with the value that it got from a happening.
//!
//! In contracts `first_bad good [] list` is the place, from 0, of the first happening of the list that isn't as `good` asks.

ghost use Rattle.std.specs.Prelude.{◌≡◌, [], IfOk, OnOk};
ghost use Rattle.orc_claims.specs.Claims.{any_forbids, any_meets, is_allowed, is_followed, is_met_with, is_prepared};
ghost use Rattle.orc_claims.specs.Known.{AreMet};
ghost use Rattle.orc_claims.specs.Verdicts.{first_bad};

use crate::claim::Event;
use crate::counts::up_to;
use crate::event_match::{Bound, is_known};
use crate::happening::Happening;
use std::alloc::{AllocError, Global};

impl Event {
    /// Whether one of these happenings meets the event (is what it describes), where variables have the values `given`, and at most `most` units
    /// after the time `since`; `most` as None is no bound. A happening before `since` counts, too; no caller has one. `found` is scratch memory: what
    /// is in it before and after doesn't matter. The error is refused memory.
    pub(crate) fn any_meets(
        &self,
        given: &[Bound],
        since: u64,
        most: Option<u64>,
        happenings: &[Happening],
        found: &mut Vec<Bound>,
    ) -> Result<bool, AllocError>
        ensures { IfOk result (λ any. any ≡ any_meets self.now given.now since most happenings.now) }
    {
        let mut rest = happenings;
        loop {
            match rest {
                [] => return Ok(false),
                [happening, more @ ..] => {
                    if self.meets(happening, given, found)?
                        && up_to(most, happening.time.saturating_sub(since))
                    {
                        return Ok(true);
                    }
                    rest = more;
                }
            }
        }
    }

    // Whether a happening is as `E only after F` asks, where E is this event and F is `other`: the happening doesn't meet E, or one in `before` met F
    // with the same values of the variables. `known` lists values with which an earlier happening met F, as the clause `AreMet` asks; values that are
    // found are added, so that they aren't looked for again. The error is refused memory.
    fn is_prepared(
        &self,
        alloc: Global,
        known: &mut Vec<Vec<Bound>>,
        other: &Event,
        before: &[Happening],
        happening: &Happening,
    ) -> Result<bool, AllocError>
        requires known { AreMet other.now before.now known.old.items }
        ensures good { IfOk result (λ good. good ≡ is_prepared self.now other.now before.now happening.now []) }
        ensures known { OnOk result (AreMet other.now before.now known.new.items) }
    {
        let mut given = Vec::new(alloc);
        // `given` gets the values with which the happening meets this event.
        if !self.meets(happening, &[], &mut given)? {
            return Ok(true);
        }
        // An earlier happening met the other event with these values; that was found before.
        if is_known(known.as_slice(), given.as_slice()) {
            return Ok(true);
        }
        // Scratch memory of `any_meets`.
        let mut found = Vec::new(alloc);
        // An earlier happening may have met the other event at any time: from 0 on, without a bound.
        if !other.any_meets(given.as_slice(), 0, None, before, &mut found)? {
            return Ok(false);
        }
        known.push(given)?;
        Ok(true)
    }

    /// The place, from 0, of the first happening that breaks `E only after F`, where E is this event and F is `other`: it meets E, though none before
    /// it met F with the same values of the variables; None if there is no such happening. The error is refused memory.
    #[tactic(auto, using(crate::proofs::Placed::goes_on, crate::proofs::Placed::stops, crate::proofs::Placed::done, crate::proofs::Known::still_met))]
    pub(crate) fn first_unprepared(
        &self,
        alloc: Global,
        other: &Event,
        happenings: &[Happening],
    ) -> Result<Option<usize>, AllocError>
        ensures { IfOk result (λ place. place ≡ first_bad (is_prepared self.now other.now) [] happenings.now) }
    {
        // Values with which a happening so far met the other event: `is_prepared` adds those that it finds.
        let mut known = Vec::new(alloc);
        for at in 0..happenings.len() {
            let before = &happenings[..at];
            if !self.is_prepared(alloc, &mut known, other, before, &happenings[at])? {
                return Ok(Some(at));
            }
        }
        Ok(None)
    }

    // Whether a happening breaks `no E after F`, where E is this event and F is `other`: one of the happenings in `before` met F with values with
    // which `happening` meets E. The error is refused memory.
    fn any_forbids(
        &self,
        alloc: Global,
        happening: &Happening,
        other: &Event,
        before: &[Happening],
    ) -> Result<bool, AllocError>
        ensures { IfOk result (λ any. any ≡ any_forbids self.now happening.now other.now before.now) }
    {
        // The values with which an earlier happening meets the other event; and scratch memory.
        let mut given = Vec::new(alloc);
        let mut found = Vec::new(alloc);
        let mut rest = before;
        loop {
            match rest {
                [] => return Ok(false),
                [earlier, more @ ..] => {
                    // The earlier happening gives the variables their values; this one has to meet the event with the same.
                    if other.meets(earlier, &[], &mut given)?
                        && self.meets(happening, given.as_slice(), &mut found)?
                    {
                        return Ok(true);
                    }
                    rest = more;
                }
            }
        }
    }

    /// The place, from 0, of the first happening that breaks `no E after F`, where E is this event and F is `other`: it meets E with the values with
    /// which one before it met F. None if there is none. The error is refused memory.
    #[tactic(auto, using(crate::proofs::Placed::goes_on, crate::proofs::Placed::stops, crate::proofs::Placed::done))]
    pub(crate) fn first_forbidden(
        &self,
        alloc: Global,
        other: &Event,
        happenings: &[Happening],
    ) -> Result<Option<usize>, AllocError>
        ensures { IfOk result (λ place. place ≡ first_bad (is_allowed self.now other.now) [] happenings.now) }
    {
        for at in 0..happenings.len() {
            if self.any_forbids(alloc, &happenings[at], other, &happenings[..at])? {
                return Ok(Some(at));
            }
        }
        Ok(None)
    }

    // Whether a happening is as `each E then F within N` asks, where E is this event, F is `other` and N is `within` (None: no bound): the happening
    // doesn't meet E, or one in `behind` meets F with the same values of the variables, at most N units later. The error is refused memory.
    fn is_followed(
        &self,
        alloc: Global,
        other: &Event,
        within: Option<u64>,
        happening: &Happening,
        behind: &[Happening],
    ) -> Result<bool, AllocError>
        ensures { IfOk result (λ good. good ≡ is_followed self.now other.now within [] happening.now behind.now) }
    {
        let mut given = Vec::new(alloc);
        // `given` gets the values with which the happening meets this event.
        if !self.meets(happening, &[], &mut given)? {
            return Ok(true);
        }
        // Scratch memory of `any_meets`.
        let mut found = Vec::new(alloc);
        // The other event has to be met at most `within` units after the time of this happening.
        other.any_meets(given.as_slice(), happening.time, within, behind, &mut found)
    }

    /// The place, from 0, of the first happening that breaks `each E then F within N`, where E is this event, F is `other` and N is `within` (None:
    /// no bound): it meets E, though none behind it meets F with the same values of the variables, at most N units later; None if there is no such
    /// happening. The error is refused memory.
    #[tactic(auto, using(crate::proofs::Placed::goes_on, crate::proofs::Placed::stops, crate::proofs::Placed::done))]
    pub(crate) fn first_unfollowed(
        &self,
        alloc: Global,
        other: &Event,
        within: Option<u64>,
        happenings: &[Happening],
    ) -> Result<Option<usize>, AllocError>
        ensures { IfOk result (λ place. place ≡ first_bad (is_followed self.now other.now within) [] happenings.now) }
    {
        for at in 0..happenings.len() {
            let behind = &happenings[at + 1..];
            if !self.is_followed(alloc, other, within, &happenings[at], behind)? {
                return Ok(Some(at));
            }
        }
        Ok(None)
    }
}
