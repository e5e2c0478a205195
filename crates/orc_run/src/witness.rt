//! A run that breaks a claim as a search through all schedules says that one does. An *occurrence* is what an observer sees of a run: a call, its
//! answer or its halt, or a publication. A *position* is where a run stands during the search for one.

ghost use Rattle.std.specs.Prelude.{IfOk, IfSome};
ghost use Rattle.orc_outcome.specs.Outcome.{IsPlayed};

use orc_claims::happening::{Occurrence, Phase};
use orc_load::Loaded;
use orc_outcome::{End, PlayFault, Played};
use orc_reference::{Happened, Wanted, find};
use orc_rules::builtin::{are_same, is_same};
use orc_rules::value::{Answer, Args};
use orc_schedules::{Seen, Watch};
use orc_tally::ClaimSite;
use std::alloc::{AllocError, Global};

/// What a claim is to see of a run, and how that run is to end. As [`Wanted`], by which a search is told what run it looks for, it counts in `seen`
/// the occurrences that were met so far, in order.
#[derive(Clone, Copy)]
pub(crate) struct Sighting<'o> {
    /// What the claim depends on.
    pub(crate) watch: &'o Watch,
    /// The sites that claims name, each at the place, from 0, that is its number in claims.
    pub(crate) sites: &'o [ClaimSite],
    /// The occurrences, in order, and the end.
    pub(crate) seen: &'o Seen,
}

// Whether the same happened to the same site, or the same value was published. When it happened isn't compared.
fn is_alike(one: &Occurrence, other: &Occurrence) -> bool {
    match (one, other) {
        (Occurrence::Call(site, args, phase), Occurrence::Call(called, values, became)) => {
            *site == *called && *phase == *became && are_same(args.as_slice(), values.as_slice())
        }
        (Occurrence::Published(value), Occurrence::Published(published)) => {
            is_same(*value, *published)
        }
        _ => false,
    }
}

impl Sighting<'_> {
    // How many occurrences are met after this one, `seen` of them before. One that the claim doesn't name changes nothing; one that it names has to
    // be the next of those that the search saw, at its time. None: the run isn't the one that is looked for.
    fn after_what(&self, seen: usize, time: u64, what: &Occurrence) -> Option<usize> {
        if !self.watch.names(what) {
            return Some(seen);
        }
        match self.seen.happened.get(seen) {
            Some(next) if next.time == time && is_alike(&next.what, what) => {
                Some(seen.saturating_add(1))
            }
            _ => None,
        }
    }

    // How many occurrences are met, `seen` of them before, after a call of a site with these arguments came to `phase`: it was made, or answered.
    // None: the run isn't the one that is looked for. `site` is the site's number in the program's table; `number` becomes the one by which claims
    // name it, and a site that no claim names gets a number behind those of the claims.
    fn after_call(
        &self,
        seen: usize,
        time: u64,
        site: u32,
        args: &Args,
        phase: Phase,
    ) -> Option<usize> {
        let mut number = 0_u32;
        for known in self.sites {
            if known.site == site && known.arguments == args.as_slice().len() {
                break;
            }
            number = number.saturating_add(1);
        }
        self.after_what(seen, time, &Occurrence::Call(number, args.copied(), phase))
    }
}

impl Wanted for Sighting<'_> {
    // Times from the latest on that the claim tells apart are one time to the search.
    fn time(&self, now: u64) -> u64 {
        now.min(self.watch.latest())
    }

    // How many occurrences are met once this happened, `seen` of them before. None: the run isn't the one that is looked for.
    fn after(&self, seen: usize, time: u64, happened: Happened<'_>) -> Option<usize> {
        match happened {
            Happened::Called(site, args) => {
                self.after_call(seen, time, site, args, Phase::Called)
            }
            Happened::Answered(site, args, Answer::Value(value)) => {
                self.after_call(seen, time, site, args, Phase::Answered(value))
            }
            Happened::Answered(site, args, Answer::Halt) => {
                self.after_call(seen, time, site, args, Phase::Halted)
            }
            Happened::Published(value) => {
                self.after_what(seen, time, &Occurrence::Published(value))
            }
        }
    }

    // All occurrences are met (`seen` counts them, `self.seen` is what the search saw), and the run ends at the time and in the way that the search
    // saw. From the latest time on that the claim tells apart, all times are that one, here as in the search (`time`).
    fn is_met(&self, seen: usize, time: u64, end: End) -> bool {
        seen == self.seen.happened.len() && time == self.seen.now && end == self.seen.end
    }
}

/// A run of which a claim sees what `sighting` says, looked for through so many positions at most (`places`). None where none is found within the
/// limit of entries. The error is refused memory.
pub(crate) fn witness(
    alloc: Global,
    loaded: &Loaded,
    sighting: &Sighting<'_>,
    places: usize,
    limit: u64,
) -> Result<Option<Played>, AllocError>
    ensures { IfOk result (λ found. IfSome found (λ p. IsPlayed loaded.now.program loaded.now.answers limit p.summary p.published.items p.journal)) }
{
    match find(
        alloc,
        &loaded.program,
        &loaded.answers,
        sighting,
        places,
        limit,
    ) {
        Ok(found) => Ok(found),
        Err(PlayFault::Memory) => Err(AllocError),
        // Not expected: the rules refuse the run that was found.
        Err(PlayFault::Broken) => Ok(None),
    }
}
