//! The verdict on a claim: whether it holds of a run, and else where it fails. A happening is a publication, or what became of a call, with its time.
//! A claim is a plain one (`Plain`) behind conditions, each of which asks whether an event happens.

ghost use Rattle.std.specs.Prelude.{◌≡◌, IfOk, map};
ghost use Rattle.orc_claims.specs.Claims.{come_true, ends_so, holds};
ghost use Rattle.orc_claims.specs.Verdicts.{is_kept, is_none_at_all, judged, place, says_so, tests_plain, verdict_plain};

use crate::claim::{Claim, Condition, Plain};
use crate::counts::up_to;
use crate::happening::Happening;
use crate::publications::{are_in_order, are_same_in_any_order, is_one_of, published};
use orc_rules::entry::State;
use std::alloc::{AllocError, Global};

/// Whether a claim holds of a run.
#[derive(Clone, Copy, PartialEq, Eq, Debug)]
pub enum Verdict {
    /// It holds.
    Holds,
    /// It fails at the happening at this place, from 0.
    FailsAt(usize),
    /// It fails, but at no happening: too few happened, or the run ended otherwise, or published something else.
    FailsAtEnd,
}

/// What one run says of a claim.
#[derive(Clone, Copy, PartialEq, Eq, Debug)]
pub struct Judged {
    pub verdict: Verdict,
    /// Whether the run put the claim to the test: something happened that it is about. A claim that holds untested may have a typing mistake.
    pub tested: bool,
}

// Whether a run that ended as `end` says ended in an allowed way: `halted` allows Halted, `quiet` allows Quiet. A run that was cut is Running, which
// is never allowed.
fn ends_so(halted: bool, quiet: bool, end: State) -> bool
    ensures { result ≡ ends_so halted quiet end }
{
    match end {
        State::Halted => halted,
        State::Quiet => quiet,
        State::Running => false,
    }
}

// Whether the greatest number of a claim's count is 0: the claim is that something never happens. False if there is no greatest number (None).
fn is_none_at_all(most: Option<u64>) -> bool
    ensures { result ≡ is_none_at_all most }
{
    match most {
        Some(most) => most == 0,
        None => false,
    }
}

impl Plain {
    // The place, from 0, of the first happening at which this claim (without its conditions) fails; None if it fails at none, though perhaps at the
    // end of the run. The error is refused memory.
    fn place(&self, alloc: Global, happenings: &[Happening]) -> Result<Option<usize>, AllocError>
        ensures { IfOk result (λ at. at ≡ place self.now happenings.now) }
    {
        match self {
            Plain::Count(event, _, most, by) => event.first_too_many(alloc, *most, *by, happenings),
            Plain::AtOnce(event, most) => event.first_crowd(alloc, *most, happenings),
            Plain::OnlyAfter(event, other) => event.first_unprepared(alloc, other, happenings),
            Plain::NoneAfter(event, other) => event.first_forbidden(alloc, other, happenings),
            Plain::EachThen(event, other, within) => {
                event.first_unfollowed(alloc, other, *within, happenings)
            }
            // A claim on the end or on all publications fails at no happening: `is_kept` judges it.
            _ => Ok(None),
        }
    }

    // Whether the run as a whole is as the claim asks: enough happenings, its end, all that it published. Other claims ask nothing of the whole.
    // `end` is how the run ended, and `now` when. The error is refused memory.
    fn is_kept(
        &self,
        alloc: Global,
        happenings: &[Happening],
        end: State,
        now: u64,
    ) -> Result<bool, AllocError>
        ensures { IfOk result (λ kept. kept ≡ is_kept self.now happenings.now end now) }
    {
        match self {
            Plain::Count(event, low, _, by) => {
                let number = event.number(alloc, *by, happenings)?;
                Ok(*low <= number)
            }
            Plain::Ends(halted, quiet, by) => Ok(ends_so(*halted, *quiet, end) && up_to(*by, now)),
            Plain::InOrder(wanted) => {
                let values = published(alloc, happenings)?;
                Ok(are_in_order(wanted.as_slice(), values.as_slice()))
            }
            Plain::InAnyOrder(wanted) => {
                let values = published(alloc, happenings)?;
                Ok(are_same_in_any_order(wanted.as_slice(), values.as_slice()))
            }
            Plain::OneOf(wanted) => {
                let values = published(alloc, happenings)?;
                Ok(is_one_of(wanted.as_slice(), values.as_slice()))
            }
            // The other claims on events fail at a happening or not at all: `place` judges them.
            _ => Ok(true),
        }
    }

    // The verdict on this claim, whose conditions are met: it holds, or where it fails. `end` is how the run ended, and `now` when. The error is
    // refused memory.
    fn verdict(
        &self,
        alloc: Global,
        happenings: &[Happening],
        end: State,
        now: u64,
    ) -> Result<Verdict, AllocError>
        ensures { IfOk result (λ v. v ≡ verdict_plain self.now happenings.now end now) }
    {
        // A happening breaks the claim.
        if let Some(at) = self.place(alloc, happenings)? {
            return Ok(Verdict::FailsAt(at));
        }
        if self.is_kept(alloc, happenings, end, now)? {
            return Ok(Verdict::Holds);
        }
        Ok(Verdict::FailsAtEnd)
    }

    // Whether the run puts a claim, whose conditions are met, to the test: something happened that the claim is about. Every run tests a claim that
    // something never happens, one on the end, and one on all publications. The error is refused memory.
    fn is_tested(&self, alloc: Global, happenings: &[Happening]) -> Result<bool, AllocError>
        ensures { IfOk result (λ tested. tested ≡ tests_plain self.now happenings.now) }
    {
        // Scratch memory of `any_meets`, which is asked with no values of variables, from time 0 on.
        let mut found = Vec::new(alloc);
        match self {
            Plain::Count(event, _, most, by) => {
                if is_none_at_all(*most) {
                    return Ok(true);
                }
                // `any_meets` takes a time and the longest wait from it on: counted from time 0, `by` is a wait as well as a time.
                event.any_meets(&[], 0, *by, happenings, &mut found)
            }
            // Tested if the claim's first event happens, at any time.
            Plain::AtOnce(event, _) | Plain::OnlyAfter(event, _) | Plain::EachThen(event, _, _) => {
                event.any_meets(&[], 0, None, happenings, &mut found)
            }
            // `no E after F` is tested if an F happens.
            Plain::NoneAfter(_, other) => other.any_meets(&[], 0, None, happenings, &mut found),
            // A claim on the end or on all publications.
            _ => Ok(true),
        }
    }
}

// Whether all conditions are met in the run: the event of each happens, or with `no` doesn't happen. The error is refused memory.
fn come_true(
    alloc: Global,
    conditions: &[Condition],
    happenings: &[Happening],
) -> Result<bool, AllocError>
    ensures { IfOk result (λ all. all ≡ come_true conditions.now happenings.now) }
{
    // Scratch memory of `any_meets`.
    let mut found = Vec::new(alloc);
    let mut rest = conditions;
    loop {
        match rest {
            [] => return Ok(true),
            [condition, more @ ..] => {
                let event = &condition.event;
                // The event of a condition may be met at any time and with any values.
                if event.any_meets(&[], 0, None, happenings, &mut found)? != condition.happens {
                    return Ok(false);
                }
                rest = more;
            }
        }
    }
}

impl Claim {
    // What the run says of the claim, which holds untested if a condition isn't met. `end` is how the run ended, and `now` when. The error is refused
    // memory.
    fn judge(
        &self,
        alloc: Global,
        happenings: &[Happening],
        end: State,
        now: u64,
    ) -> Result<Judged, AllocError>
        ensures { IfOk result (λ j. j ≡ judged self.now happenings.now end now) }
    {
        // A condition isn't met, so the claim asks nothing of this run.
        if !come_true(alloc, self.conditions.as_slice(), happenings)? {
            return Ok(Judged {
                verdict: Verdict::Holds,
                tested: false,
            });
        }
        let verdict = self.plain.verdict(alloc, happenings, end, now)?;
        let tested = self.plain.is_tested(alloc, happenings)?;
        Ok(Judged { verdict, tested })
    }
}

/// What a run says of each of these claims, in their order: `happenings` is all that happened in it, `end` how it ended (a run that was cut is
/// Running), and `now` when. The error is refused memory.
///
/// A count, a number at once and the end take one pass over the happenings. A claim on what is before or behind takes a pass for each happening that
/// meets its first event, and `NoneAfter` one for each happening. Values in any order take the time of their number squared.
pub fn judge(
    alloc: Global,
    claims: &[Claim],
    happenings: &[Happening],
    end: State,
    now: u64,
) -> Result<Vec<Judged>, AllocError>
    ensures judged { IfOk result (λ all. all.items ≡ map (λ c. judged c happenings.now end now) claims.now) }
    ensures holds { IfOk result (λ all. map (λ j. says_so j.verdict) all.items ≡ map (λ c. holds c happenings.now end now) claims.now) }
{
    let mut all = Vec::new(alloc);
    for claim in claims {
        all.push(claim.judge(alloc, happenings, end, now)?)?;
    }
    Ok(all)
}
