//! In which ways of a test's case a claim fails. A *way* is one choice of what the services of the case answer, written as a script. The claim fails
//! in it if it fails in the run in one of the *orders*, which are numbers that decide whose turn comes.

use orc_claims::claim::Claim;
use orc_orders::{CaseTold, Trials, try_ways};
use std::alloc::{AllocError, Global};
use std::thread::Threads;

/// How many ways are tried at once. Only the number of those in which the claim fails is known then: if it is neither none nor all, each is tried
/// alone.
const BATCH: usize = 64;

/// How a claim is judged on the ways of a case. `trials` has this one claim alone, and `workers` threads make the runs.
#[derive(Drop)]
struct Held<'s, 'a, R> {
    rt: &'s R,
    alloc: Global,
    trials: Trials<'s, 'a>,
    workers: usize,
}

impl<R: Threads + Sync> Held<'_, '_, R> {
    // In how many of the ways that have these scripts the claim fails. All of these runs were made before, so the error is refused memory.
    fn count(&self, scripts: &[Vec<u8>]) -> Result<u64, AllocError> {
        let mut told = CaseTold::new(self.alloc, self.trials.claims)?;
        let tried = try_ways(
            self.rt,
            self.alloc,
            &self.trials,
            self.workers,
            scripts,
            &mut told,
        );
        // The report on the one claim says in how many ways it fails.
        match (tried, told.told.first()) {
            (Ok(()), Some(told)) => Ok(told.failing),
            // Memory was refused; or there is no claim, which `failing_ways` answers as that.
            _ => Err(AllocError),
        }
    }

    // Adds for each of these ways, in their order, whether the claim fails in it: so many values to `fails`. The error is refused memory.
    fn add(&self, scripts: &[Vec<u8>], fails: &mut Vec<bool>) -> Result<(), AllocError> {
        let failing = self.count(scripts)?;
        // Whether it is the same for all of these ways, so that no way need be tried alone.
        let ways_agree = failing == 0 || failing == scripts.len() as u64;
        // Each piece is a list of one way, as `count` takes it.
        for way in scripts.chunks(1) {
            let does_fail = if ways_agree {
                failing > 0
            } else {
                self.count(way)? > 0
            };
            fails.push(does_fail)?;
        }
        Ok(())
    }
}

/// For each of the ways of a case that were tried, whose scripts these are, whether the claim fails in it. `claim` has this one claim; if it is
/// empty, the error is the same as with refused memory. The source, the sites, the orders and the limit are those of `tried`, and `workers` threads
/// make the runs.
pub fn failing_ways<R: Threads + Sync>(
    rt: &R,
    alloc: Global,
    tried: &Trials<'_, '_>,
    workers: usize,
    claim: &[Claim],
    scripts: &[Vec<u8>],
) -> Result<Vec<bool>, AllocError> {
    let held = Held {
        rt,
        alloc,
        trials: Trials {
            source: tried.source,
            sites: tried.sites,
            claims: claim,
            orders: tried.orders,
            limit: tried.limit,
        },
        workers,
    };
    let mut fails = Vec::new(alloc);
    for some in scripts.chunks(BATCH) {
        held.add(some, &mut fails)?;
    }
    Ok(fails)
}
