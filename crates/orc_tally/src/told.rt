//! What is reported of a claim over many trials. A loop that matches on the rest of a list is no `for`, since its invariant speaks of that rest.

ghost use Rattle.std.specs.Prelude.{◌≡◌, map, IfOk, IfSome};
ghost use Rattle.orc_tally.specs.Told.{first_of, joined, joined_all, noted, noted_all, nothing};

use orc_claims::claim::Claim;
use orc_claims::{Judged, Verdict};
use std::alloc::{AllocError, Global};

/// A trial in which a claim fails: a run in some way (one choice of what the services answer) and some order of its turns.
#[derive(Clone, Copy, PartialEq, Eq, Debug)]
pub struct Failure {
    /// The number of the way in its case, from 0.
    pub way: u64,
    /// The number of the order in which the run was made, from 0.
    pub order: u64,
    /// Where in the run the claim fails. It is never `Holds`.
    pub verdict: Verdict,
}

/// What is reported of a claim over the trials of some ways of a case.
#[derive(Clone, Copy, PartialEq, Eq, Debug)]
pub struct Told {
    /// In how many ways the claim fails in some order: a way counts once.
    pub failing: u64,
    /// The first failure: the claim fails in no earlier way, and in no earlier order of the same way.
    pub first: Option<Failure>,
    /// Whether the claim was put to the test in some trial: something happened that it is about. A claim that holds and wasn't may be mistyped.
    pub tested: bool,
}

/// What is reported of a claim before the first trial.
const NOTHING: Told = Told {
    failing: 0,
    first: None,
    tested: false,
};

// The failure `one` if there is one, and otherwise `other`, which may be None, too.
fn first_of(one: Option<Failure>, other: Option<Failure>) -> Option<Failure>
    ensures { result ≡ first_of one other }
{
    match one {
        Some(failure) => Some(failure),
        None => other,
    }
}

impl Told {
    // What is reported of a claim over one way, with one trial more of that way, in this order. `self` is what the orders before gave, and `judged`
    // what the new run says of the claim.
    fn noted(self, way: u64, order: u64, judged: Judged) -> Told
        ensures { result ≡ noted way order self judged }
    {
        let tested = self.tested || judged.tested;
        match judged.verdict {
            // The claim holds in this run: only `tested` may change.
            Verdict::Holds => Told {
                failing: self.failing,
                first: self.first,
                tested,
            },
            // The way counts as 1, in however many orders the claim fails in it.
            verdict => Told {
                failing: 1,
                first: first_of(
                    self.first,
                    Some(Failure {
                        way,
                        order,
                        verdict,
                    }),
                ),
                tested,
            },
        }
    }

    // What is reported of a claim over some ways (`self`) and over others behind these together. None if 2^64 ways or more fail.
    fn joined(self, others: Told) -> Option<Told>
        ensures { IfSome result (λ t. t ≡ joined self others) }
    {
        let failing = self.failing.checked_add(others.failing)?;
        Some(Told {
            failing,
            first: first_of(self.first, others.first),
            tested: self.tested || others.tested,
        })
    }
}

/// What is reported of claims before the first trial, for each claim. The error is refused memory.
pub fn nothing_told(alloc: Global, claims: &[Claim]) -> Result<Vec<Told>, AllocError>
    ensures { IfOk result (λ all. all.items ≡ map (λ c. nothing) claims.now) }
{
    let mut all = Vec::new(alloc);
    for _claim in claims {
        all.push(NOTHING)?;
    }
    Ok(all)
}

/// What is reported of each claim over one way with one trial more of it: `told` is what the orders before gave, and `judged` what the claims say of
/// the run in this order, claim by claim up to the end of the shorter list. Way and order are counted from 0. The error is refused memory.
pub fn noted(
    alloc: Global,
    way: u64,
    order: u64,
    told: &[Told],
    judged: &[Judged],
) -> Result<Vec<Told>, AllocError>
    ensures { IfOk result (λ all. all.items ≡ noted_all way order told.now judged.now) }
{
    let mut all = Vec::new(alloc);
    let mut rest = told;
    let mut others = judged;
    loop {
        match rest {
            [] => return Ok(all),
            [one, more @ ..] => match others {
                [] => return Ok(all),
                [said, behind @ ..] => {
                    all.push(one.noted(way, order, *said))?;
                    rest = more;
                    others = behind;
                }
            },
        }
    }
}

/// What is reported of each claim over some ways (`told`) and over those behind them (`others`) together, claim by claim up to the end of the shorter
/// list. The error is refused memory.
pub fn joined(alloc: Global, told: &[Told], others: &[Told]) -> Result<Vec<Told>, AllocError>
    ensures { IfOk result (λ all. all.items ≡ joined_all told.now others.now) }
{
    let mut all = Vec::new(alloc);
    let mut rest = told;
    let mut added = others;
    loop {
        match rest {
            [] => return Ok(all),
            [one, more @ ..] => match added {
                [] => return Ok(all),
                [other, behind @ ..] => {
                    let Some(sum) = one.joined(*other) else {
                        // Not reached: no machine makes 2^64 runs.
                        return Err(AllocError);
                    };
                    all.push(sum)?;
                    rest = more;
                    added = behind;
                }
            },
        }
    }
}
