//! The search through all schedules of the ways in which a test's claims held.
//!
//! It begins with the claims that failed in no run (`Searched::Whole`), and goes through the ways of the cases one after another. A claim stays whole
//! as long as no schedule of a way breaks it (`Breaks`) and no search has to give up (`No`). An `Explorer` makes one search of a way's program after
//! another, and keeps what they share.
//!
//! A *state* of a search is a term without numbers, with the calls that were made and what was seen so far (`orc_schedules`). `most` is how many
//! states a search looks at, at most, and `left` how many are left to all searches. A claim's *section* is the place of its case, from 0, or None
//! below `always`. A *place* of type `Broken` is a way in its case.

ghost use Rattle.std.specs.Prelude.{◌≡◌, ◌⊎◌, IfOk, IfSome, OnOk, Some, false, suc, true};
ghost use Rattle.std.specs.List.{slice_get};
ghost use Rattle.orc_claims.specs.declared.claim.Claim.{Claim as AClaim};
ghost use Rattle.orc_schedules.specs.Claimed.{IsClaimSearched};
ghost use Rattle.orc_tally.specs.Table.{are_full, section_of};
ghost use Rattle.orc_run.specs.Details.{IsSighted};
ghost use Rattle.orc_run.specs.Whole.{AreAfter, AreSaid, AreSoFar, Explores, IsAfter, IsUnwanted, IsWay, said_of};

use crate::scripts::CaseScripts;
use orc_claims::claim::Claim;
use orc_load::{Loaded, load};
use orc_orders::{Trials, claim_sites};
use orc_schedules::{ClaimSearched, Explorer, Seen, Watch, search_claim};
use orc_tally::{Broken, CaseReport, ClaimSite, Searched, is_held, is_open};
use orc_ways::test::Test;
use std::alloc::{AllocError, Global};

/// All searches of a command together look at so many times as many states as one of them may at most. This bounds the command's time, however many
/// claims and ways the test has; docs/orc.md, *Limits*, has the number.
const SEARCHES: u64 = 20;

/// A way, which is one choice of what the services of a case answer, with its program loaded: the source with the way's script.
pub(crate) struct Way<'w> {
    /// The way's script.
    pub(crate) script: &'w [u8],
    /// The program, and the table that the script makes.
    pub(crate) loaded: Loaded,
    /// The sites that claims name, by their numbers in the program's table.
    pub(crate) sites: Vec<ClaimSite>,
}

// Written out, so that a caller's proof sees one call and not the drop of each field. In the pattern `_` drops a field.
impl Drop for Way<'_> {
    fn drop(self) {
        let Way {
            script: _,
            loaded: _,
            sites: _,
        } = self;
    }
}

impl<'w> Way<'w> {
    /// The way of a script: the source of `trials` is loaded with it (`IsWay`). Runs of this way were made before, so the error is refused memory.
    pub(crate) fn load(
        alloc: Global,
        trials: &Trials<'_, '_>,
        script: &'w [u8],
    ) -> Result<Way<'w>, AllocError>
        ensures way { IfOk result (IsWay trials.now) }
        ensures script { IfOk result (λ w. w.script.now ≡ script.now) }
    {
        let Ok(loaded) = load(alloc, trials.source, script) else {
            return Err(AllocError);
        };
        let sites = claim_sites(alloc, &loaded.answers, trials.sites)?;
        Ok(Way {
            script,
            loaded,
            sites,
        })
    }

    // Searches the schedules of the way (all orders that the rules leave free), through `most` states at most, for a run that breaks a claim; that
    // none does is said of runs of at most `limit` entries. `explorer` is that of this way's program (`Explores`), before and after: it keeps what
    // one search has found out for the next claim. The error is refused memory.
    fn search_on(
        &self,
        alloc: Global,
        explorer: &mut Explorer<'_>,
        claim: &Claim,
        most: usize,
        limit: u64,
    ) -> Result<ClaimSearched, AllocError>
        requires { Explores self.now explorer.old }
        ensures searched { IfOk result (IsClaimSearched self.now.loaded.program self.now.loaded.answers self.now.sites.items claim.now limit) }
        ensures ready { OnOk result (Explores self.now explorer.new) }
    {
        let found = explorer.search_claim(alloc, self.sites.as_slice(), claim, most, limit)?;
        Ok(found)
    }

    /// Searches as `search_on` does, and keeps nothing for another search. The error is refused memory.
    pub(crate) fn search(
        &self,
        alloc: Global,
        claim: &Claim,
        most: usize,
        limit: u64,
    ) -> Result<ClaimSearched, AllocError>
        ensures { IfOk result (IsClaimSearched self.now.loaded.program self.now.loaded.answers self.now.sites.items claim.now limit) }
    {
        search_claim(
            alloc,
            &self.loaded.program,
            &self.loaded.answers,
            self.sites.as_slice(),
            claim,
            most,
            limit,
        )
    }
}

// What is said of a claim, which no schedule of the ways before has broken, after a search in the way at this place (its case, and its number there):
// `Whole` if no schedule of this way breaks it, `Breaks` if one does, and `No` where the search gave up, or can't watch for the claim.
fn said_of(place: Broken, found: &ClaimSearched) -> Searched
    ensures { result ≡ said_of place found.now }
{
    match found {
        ClaimSearched::Holds(_) => Searched::Whole,
        ClaimSearched::Fails(_) => Searched::Breaks(place),
        ClaimSearched::TooMany | ClaimSearched::TooLong | ClaimSearched::NotWatched => {
            Searched::No
        }
    }
}

// About how many of the states that it may look at, `most`, a search has looked at. Only one that ends with `Holds` says how many; one that can't
// watch for its claim looks at none, and each other one counts as if it had looked at all.
fn cost_of(found: &ClaimSearched, most: usize) -> u64 {
    match found {
        ClaimSearched::Holds(states) => *states as u64,
        ClaimSearched::NotWatched => 0,
        ClaimSearched::Fails(_) | ClaimSearched::TooMany | ClaimSearched::TooLong => most as u64,
    }
}

/// What is searched, and how far.
#[derive(Drop)]
pub(crate) struct Searcher<'s, 'a> {
    /// Where memory comes from.
    pub(crate) alloc: Global,
    /// The program, the claims, and the limit of each run.
    pub(crate) trials: &'s Trials<'s, 'a>,
    /// The test, whose lines say to which case a claim belongs.
    pub(crate) test: &'s Test<'a>,
    /// The scripts of the tried ways of each case.
    pub(crate) cases: &'s [CaseScripts],
    /// What the trials came to in each case, in the order of the cases.
    pub(crate) reports: &'s [CaseReport],
    /// How many states one search looks at, at most; 0 for no search.
    pub(crate) most: u64,
}

/// What a search sees of a run that breaks a claim.
#[derive(Drop)]
pub struct Sighted {
    /// The occurrences that the claim names, in order with their times, and how and when the run ended.
    pub seen: Seen,
    /// All times from this one on are the same to the claim; 0 where it asks for no time.
    pub latest: u64,
}

impl Searcher<'_, '_> {
    // The claim's section: the place, from 0, of the case in which the claim stands. None for one below `always`, and for the claim that runs end,
    // which has no line.
    fn section(&self, claim: usize) -> Option<usize>
        ensures { result ≡ section_of (slice_get self.now.test.now.claim_lines.items claim) }
    {
        match self.test.claim_lines.get(claim) {
            Some(line) => line.case,
            None => None,
        }
    }

    // What is said of a claim, at its place in the test from 0, before the first search: `Whole` if searches are asked for and may still say more
    // (`is_open`), since it failed in no run, all ways of its cases were tried (`are_full`), and no run was cut. Otherwise it isn't searched for
    // (`No`).
    #[tactic(auto, using(crate::proofs::Schedules::open_is_full))]
    fn begun(&self, claim: usize) -> Searched
        ensures { (result ≡ Searched.No) ⊎ ((result ≡ Searched.Whole) × (are_full (section_of (slice_get self.now.test.now.claim_lines.items claim)) 0 self.now.reports.now ≡ true)) }
    {
        if self.most > 0 && is_open(self.reports, self.section(claim), claim) {
            return Searched::Whole;
        }
        Searched::No
    }

    // What is said of each claim before the first search, which is true (`AreSoFar`). The claim that runs end by themselves is the last one; it has
    // no line in the test, and isn't searched for. The error is refused memory.
    #[tactic(auto, using(crate::proofs::Schedules::none_begun))]
    fn begin(&self) -> Result<Vec<Searched>, AllocError>
        ensures { IfOk result (λ all. AreSoFar self.now 0 0 all.items) }
    {
        let mut all = Vec::new(self.alloc);
        for claim in 0..self.test.claim_lines.len() {
            all.push(self.begun(claim))?;
        }
        Ok(all)
    }

    // Whether the case at this place needs a search: whether a claim that is `Whole`, so that no schedule so far breaks it, is one of this case or
    // below `always` (`is_held`). If none is, the contract says so (`IsUnwanted`).
    fn wants(&self, case: usize, said: &[Searched]) -> bool
        ensures { result ≡ false → IsUnwanted self.now case said.now }
    {
        for claim in 0..said.len() {
            if let Searched::Whole = said[claim] {
                if is_held(self.section(claim), case) {
                    return true;
                }
            }
        }
        false
    }

    // In how many of the tried ways of this case and of the cases behind it a claim of this section is judged (`is_held`). `section` is the place of
    // the claim's own case, from 0, or None below `always`.
    fn ways_from(&self, case: usize, section: Option<usize>) -> u64 {
        let mut number: u64 = 0;
        for at in case..self.cases.len() {
            if is_held(section, at) {
                number = number.saturating_add(self.cases[at].scripts.len() as u64);
            }
        }
        number
    }

    // Whether a search of so many `states` in each way that is to come, this one among them, would need more than the `left` ones. It can be true
    // at the first way of a case alone: so a claim is given up at once, and not after the states have been spent on some of its ways. `section` is
    // the place of the claim's own case, from 0, or None below `always`.
    fn is_too_much(&self, place: Broken, section: Option<usize>, states: usize, left: u64) -> bool {
        place.way == 0
            && self
                .ways_from(place.case, section)
                .saturating_mul(states as u64)
                > left
    }

    // Searches the way at this place (its case, and its number there) for a run that breaks this claim of this section (the place of its case, or
    // None below `always`), and takes the states at which it looked from those that are `left`. `explorer` is that of this way's program
    // (`Explores`), before and after. A claim that holds in the way is given up too (`TooMany`) if the other ways would need too many states. The
    // error is refused memory.
    fn find(
        &self,
        way: &Way<'_>,
        explorer: &mut Explorer<'_>,
        place: Broken,
        section: Option<usize>,
        claim: &Claim,
        left: &mut u64,
    ) -> Result<ClaimSearched, AllocError>
        requires { Explores way.now explorer.old }
        ensures searched { IfOk result (IsClaimSearched way.now.loaded.program way.now.loaded.answers way.now.sites.items claim.now self.now.trials.now.limit) }
        ensures ready { OnOk result (Explores way.now explorer.new) }
    {
        // This search may look at no more states than are left for all.
        let most = self.most.min(*left) as usize;
        let limit = self.trials.limit;
        let found = way.search_on(self.alloc, explorer, claim, most, limit)?;
        let before = *left;
        *left = before.saturating_sub(cost_of(&found, most));
        if let ClaimSearched::Holds(states) = &found {
            // With what was left before this search, since the ways that are counted include this one.
            if self.is_too_much(place, section, *states, before) {
                return Ok(ClaimSearched::TooMany);
            }
        }
        Ok(found)
    }

    // Gives what is said of a claim after a way. `claim` is the claim's place in the test, from 0, and `place` is the way's: its case, and its number
    // there. Before that way the claim was `Whole`: no schedule broke it. It stays so if it is one of another case. The answer is true of this way
    // (`IsAfter`). `explorer` is that of this way's program. `left` is how many states all searches may still look at; this search takes those at
    // which it looked. The error is refused memory, here and in the functions that call this one.
    #[tactic(auto, using(crate::proofs::Schedules::untouched_word, crate::proofs::Schedules::unknown_word))]
    fn say_again(
        &self,
        way: &Way<'_>,
        explorer: &mut Explorer<'_>,
        place: Broken,
        claim: usize,
        left: &mut u64,
    ) -> Result<Searched, AllocError>
        requires way { IsWay self.now.trials.now way.now }
        requires ready { Explores way.now explorer.old }
        ensures ready { OnOk result (Explores way.now explorer.new) }
        ensures said { IfOk result (λ s. (c : AClaim) → slice_get self.now.trials.now.claims.now claim ≡ Some c → IsAfter self.now.trials.now (section_of (slice_get self.now.test.now.claim_lines.items claim)) c place way.now.script.now Searched.Whole s) }
    {
        let section = self.section(claim);
        if !is_held(section, place.case) {
            return Ok(Searched::Whole);
        }
        match self.trials.claims.get(claim) {
            Some(claim) => {
                let found = self.find(way, explorer, place, section, claim, left)?;
                Ok(said_of(place, &found))
            }
            // Not reached: the test has a claim for each of its lines.
            None => Ok(Searched::No),
        }
    }

    // Gives what is said of a claim after a way, where `before` was said of it. `claim` is the claim's place in the test, from 0, and `place` is the
    // way's: its case, and its number there. What is new in the answer is true of this way (`IsAfter`). Once a schedule broke the claim, or a search
    // gave it up, no search changes what is said. `left` is how many states all searches may still look at.
    #[tactic(auto, using(crate::proofs::Schedules::untouched_word))]
    fn say(
        &self,
        way: &Way<'_>,
        explorer: &mut Explorer<'_>,
        place: Broken,
        claim: usize,
        before: Searched,
        left: &mut u64,
    ) -> Result<Searched, AllocError>
        requires way { IsWay self.now.trials.now way.now }
        requires ready { Explores way.now explorer.old }
        ensures ready { OnOk result (Explores way.now explorer.new) }
        ensures said { IfOk result (λ s. (c : AClaim) → slice_get self.now.trials.now.claims.now claim ≡ Some c → IsAfter self.now.trials.now (section_of (slice_get self.now.test.now.claim_lines.items claim)) c place way.now.script.now before s) }
    {
        match before {
            Searched::No | Searched::Breaks(_) => Ok(before),
            Searched::Whole => self.say_again(way, explorer, place, claim, left),
        }
    }

    // What is said of each claim after the way that is loaded here, at this place (its case, and its number there). `explorer`, that of the way's
    // program, serves all of these searches. `before` is what was said before this way; what is new is true of this way (`AreAfter`). `left` is how
    // many states all searches may still look at.
    #[tactic(auto, using(crate::proofs::Schedules::nothing_said))]
    fn say_of_claims(
        &self,
        way: &Way<'_>,
        explorer: &mut Explorer<'_>,
        place: Broken,
        before: Vec<Searched>,
        left: &mut u64,
    ) -> Result<Vec<Searched>, AllocError>
        requires way { IsWay self.now.trials.now way.now }
        requires ready { Explores way.now explorer.old }
        ensures { IfOk result (λ after. AreAfter self.now place way.now.script.now before.items after.items) }
    {
        let mut after = Vec::new(self.alloc);
        for claim in 0..before.len() {
            let said = self.say(way, explorer, place, claim, before[claim], left)?;
            after.push(said)?;
        }
        Ok(after)
    }

    // What is said of each claim after the way of this script, at this place (its case, and its number there). The way is loaded only if a claim is
    // to be searched for in it. `before` is what was said before this way; what is new is true of this way (`AreAfter`). `left` is how many states
    // all searches may still look at.
    #[tactic(auto, using(crate::proofs::Schedules::all_untouched))]
    fn say_of_way(
        &self,
        place: Broken,
        script: &[u8],
        before: Vec<Searched>,
        left: &mut u64,
    ) -> Result<Vec<Searched>, AllocError>
        ensures { IfOk result (λ after. AreAfter self.now place script.now before.items after.items) }
    {
        if !self.wants(place.case, before.as_slice()) {
            return Ok(before);
        }
        let way = Way::load(self.alloc, self.trials, script)?;
        let mut explorer = Explorer::new(self.alloc, &way.loaded.program, &way.loaded.answers)?;
        let after = self.say_of_claims(&way, &mut explorer, place, before, left)?;
        Ok(after)
    }

    // What is said of each claim after the ways of the case at this place, from 0. `ways` has the scripts of that case's tried ways. `before` is what
    // was said before this case, which has to be true (`AreSoFar`), as the answer then is. `left` is how many states all searches may still look at.
    fn say_of_case(
        &self,
        case: usize,
        ways: &CaseScripts,
        before: Vec<Searched>,
        left: &mut u64,
    ) -> Result<Vec<Searched>, AllocError>
        requires ways { slice_get self.now.cases.now case ≡ Some ways.now }
        requires so_far { AreSoFar self.now case 0 before.items }
        ensures { IfOk result (λ after. AreSoFar self.now (suc case) 0 after.items) }
    {
        let mut said = before;
        for way in 0..ways.scripts.len() {
            let place = Broken {
                case,
                way: way as u64,
            };
            said = self.say_of_way(place, ways.scripts[way].as_slice(), said, left)?;
        }
        Ok(said)
    }

    /// What is said of each claim of the test's lines after all searches, all of it true (`AreSaid`): every schedule keeps the claim, one breaks it,
    /// or nothing is known. The error is refused memory.
    pub(crate) fn search(&self) -> Result<Vec<Searched>, AllocError>
        ensures { IfOk result (λ said. AreSaid self.now.trials.now self.now.test.now.claim_lines.items self.now.cases.now self.now.reports.now said.items) }
    {
        // How many states all searches together may still look at. It is 0 where no search is asked for; then `begin` says `No` of each claim.
        let mut left = self.most.saturating_mul(SEARCHES);
        let mut said = self.begin()?;
        for case in 0..self.cases.len() {
            said = self.say_of_case(case, &self.cases[case], said, &mut left)?;
        }
        Ok(said)
    }

    /// What a search alone sees of a run that breaks the claim at this place in the test, from 0, in the way of this script. None where it finds no
    /// such run, where there is no such claim, or where a search can't watch for it. The error is refused memory.
    pub(crate) fn see(&self, script: &[u8], claim: usize) -> Result<Option<Sighted>, AllocError>
        ensures { IfOk result (λ found. IfSome found (IsSighted self.now.trials.now script.now claim)) }
    {
        let Some(broken) = self.trials.claims.get(claim) else {
            return Ok(None);
        };
        // What a search has to watch in a run to judge the claim.
        let known = Watch::of_claim(self.alloc, broken)?;
        let Some(watch) = known else {
            return Ok(None);
        };
        let way = Way::load(self.alloc, self.trials, script)?;
        let found = way.search(self.alloc, broken, self.most as usize, self.trials.limit)?;
        match found {
            ClaimSearched::Fails(seen) => Ok(Some(Sighted {
                seen,
                latest: watch.latest(),
            })),
            // The claim holds, or the search gave up.
            _ => Ok(None),
        }
    }
}
