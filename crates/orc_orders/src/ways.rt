//! Tries the ways of a case. A way is one script by which the services of the case may answer; a trial is the program's run with it in one order. A
//! *case* is a part of a test; its services are sites whose answers the test says. An order is a number that decides what comes first in a run where
//! the rules leave it free. A *claim* of a test says what must hold of a run, and a `Told` is what is reported of a claim over many trials. In
//! contracts `texts` are the scripts as lists of bytes, `Adds` says that the verdicts of these scripts' ways are added, and `Breaks` that for this
//! fault not all of the ways could be tried.

ghost use Rattle.std.specs.Prelude.{◌≡◌, ◌<◌, ◌+◌, ◌^◌, ◌↔◌, ℕ, List, [], Err, length, IfOk, IfErr, OnOk};
ghost use Rattle.orc_engine.specs.Ranges.{IsInRange};
ghost use Rattle.orc_ways.specs.Claims.{Site};
ghost use Rattle.orc_orders.specs.Trials.{texts, Adds, AreTold};
ghost use Rattle.orc_orders.specs.TrialFaults.{Breaks};
ghost use Rattle.orc_orders.specs.Trying.{AreTried, IsJoined, IsTriedAt};

use crate::trials::{TrialFault, Trials, WayTold, try_way};
use orc_claims::claim::Claim;
use orc_engine::EngineFault;
use orc_rules::limits::{MOST_ENTRIES, MOST_WORKERS};
use orc_tally::{Told, joined, nothing_told};
use std::alloc::{AllocError, Global};
use std::thread;
use std::thread::Threads;

/// How many ways (scripts by which services may answer) a batch has; with more workers than this number a batch has as many ways as workers. The
/// verdicts are joined once all of its ways were tried.
const BATCH: usize = 64;

/// Threads share the ways of a batch if the runs of these ways have at least this many journal entries in all, by the mean of the batch before. A
/// thread that begins may wait longer for a processor than a shorter batch takes.
const WORTH: u64 = 20_000;

/// The verdicts on a case's claims in the ways that were tried so far: in how many ways each claim fails, and where first (`orc_tally`).
#[derive(Drop)]
pub struct CaseTold {
    /// How many ways were tried, from way 0 on.
    pub ways: u64,
    /// The verdicts on each claim, in the order of the claims.
    pub told: Vec<Told>,
    /// How many runs were cut, by the limit of entries or by a limit of the engine.
    pub cut: u64,
}

impl CaseTold {
    /// The verdicts before the first way: none was tried, so no claim fails yet. The error is refused memory.
    #[tactic(auto, using(crate::proofs::Telling::no_way_yet))]
    pub fn new(alloc: Global, claims: &[Claim]) -> Result<CaseTold, AllocError>
        ensures { IfOk result (λ t. (source : List ℕ) (sites : List Site) (orders limit : ℕ) → AreTold source sites claims.now orders limit [] t) }
    {
        Ok(CaseTold {
            ways: 0,
            told: nothing_told(alloc, claims)?,
            cut: 0,
        })
    }

    // Adds the verdicts of one more way (the runs with one script), which has to be the way with the number `ways`. The clause asks that the count of
    // ways doesn't overflow. If memory is refused nothing changes.
    fn join(&mut self, alloc: Global, way: &WayTold) -> Result<(), AllocError>
        requires { self.old.ways + 1 < 2 ^ 64 }
        ensures { OnOk result (IsJoined self.old way.now self.new) }
    {
        let Some(cut) = self.cut.checked_add(way.cut) else {
            // No machine makes 2^64 runs.
            return Err(AllocError);
        };
        self.told = joined(alloc, self.told.as_slice(), way.told.as_slice())?;
        self.cut = cut;
        self.ways += 1;
        Ok(())
    }
}

/// The result of a way's trials, at its place in a batch.
#[derive(Drop)]
struct Tried {
    // The way's verdicts, or why its trials couldn't be made; the fault Memory until the way was tried.
    came: Result<WayTold, TrialFault>,
}

// Places for the results of `number` ways, in which threads write. A place says that memory was refused until its way was tried. The error is refused
// memory.
fn places(alloc: Global, number: usize) -> Result<Vec<Tried>, AllocError>
    ensures { IfOk result (λ places. length places.items ≡ number) }
{
    let mut places = Vec::new(alloc);
    for _place in 0..number {
        places.push(Tried {
            came: Err(TrialFault::Engine(EngineFault::Memory)),
        })?;
    }
    Ok(places)
}

// Ways whose numbers follow one another from `first` on, by their scripts: that of way `first` comes first. They are tried together.
#[derive(Drop)]
struct Batch<'t, 'a, 's> {
    // From where memory is taken, and what is tried in each way.
    alloc: Global,
    trials: &'t Trials<'t, 'a>,
    // The number of the first way, from 0.
    first: u64,
    // The script of each way, in the order of the ways.
    scripts: &'s [Vec<u8>],
}

impl Batch<'_, '_, '_> {
    // Tries each way of the batch on one of `threads` threads, and gives the results in the order of the ways. The clauses ask for one thread at
    // least, and that the ways' numbers don't overflow. The error is refused memory.
    fn run<R: Threads + Sync>(&self, rt: &R, threads: usize) -> Result<Vec<Tried>, AllocError>
        requires threads { 0 < threads }
        requires room { self.now.first + length self.now.scripts.now < 2 ^ 64 }
        ensures all { IfOk result (λ tried. length tried.items ≡ length self.now.scripts.now) }
        ensures tried { IfOk result (λ tried. AreTried self.now tried.items) }
    {
        let mut tried = places(self.alloc, self.scripts.len())?;
        // The threads share the places among them: each place gets the result of its way.
        thread::for_each_mut(
            rt,
            &mut tried,
            threads,
            &|at: usize, place: &mut Tried|
                requires { (at < length self.now.scripts.now) × (self.now.first + at < 2 ^ 64) }
                ensures { IsTriedAt self.entry.now at place.exit.now }
            {
                // The place `at`, from 0, is that of the way with this number.
                let way = self.first + at as u64;
                place.came = try_way(self.alloc, self.trials, way, self.scripts[at].as_slice());
            },
        );
        Ok(tried)
    }

    // Tries the ways of the batch, which begins where `told` ends (`first`), and adds the verdicts of each to `told`. Gives the mean, over these
    // ways, of the entries that all runs of a way have, and 0 if there are no ways. From it `try_ways` decides whether the next batch is worth
    // threads; no contract speaks of it. The fault is that of the first way with one, or Memory; the verdicts of the ways before it are added then.
    #[tactic(auto, using(crate::proofs::Adding::none_added, crate::proofs::Adding::all_added))]
    fn tell<R: Threads + Sync>(
        &self,
        rt: &R,
        threads: usize,
        told: &mut CaseTold,
    ) -> Result<u64, TrialFault>
        requires threads { 0 < threads }
        requires first { told.old.ways ≡ self.now.first }
        requires room { self.now.first + length self.now.scripts.now < 2 ^ 64 }
        ensures told { OnOk result (Adds self.now.trials.now (texts self.now.scripts.now) told.old told.new) }
        ensures ways { OnOk result (told.new.ways ≡ told.old.ways + length self.now.scripts.now) }
        ensures cause { IfErr result (Breaks self.now.trials.now (texts self.now.scripts.now) told.old) }
        ensures range { IfErr result (λ f. f ≡ TrialFault.Engine EngineFault.Range → IsInRange 1 self.now.trials.now.limit → ⊥) }
    {
        let tried = self.run(rt, threads)?;
        let mut entries: u64 = 0;
        for at in 0..self.scripts.len() {
            let way = match &tried[at].came {
                Ok(way) => way,
                // The way's trials couldn't be made; the ways before it are in `told`.
                Err(fault) => return Err(*fault),
            };
            told.join(self.alloc, way)?;
            entries = entries.saturating_add(way.entries);
        }
        // With no ways the divisor is 1, and the mean 0.
        Ok(entries / (self.scripts.len() as u64).max(1))
    }
}

/// Tries the next ways of a case, whose scripts these are, and adds their verdicts to `told`. A way is one script by which the case's services may
/// answer, and is run in each order of `trials`. `workers` threads make the runs, and the calling one is one of them; the verdicts are the same on
/// any number.
///
/// The fault is Range exactly if there are no workers or over `MOST_WORKERS`, or the limit is 0 or over `MOST_ENTRIES`. It is `Load` with the fault
/// of the first way with whose script the source doesn't load, or Memory if memory was refused. After a fault the verdicts of some of the ways may be
/// added.
#[tactic(auto, using(crate::proofs::Adding::none_added, crate::proofs::Adding::all_added))]
pub fn try_ways<'t, 'a, R: Threads + Sync>(
    rt: &R,
    alloc: Global,
    trials: &'t Trials<'t, 'a>,
    workers: usize,
    scripts: &[Vec<u8>],
    told: &mut CaseTold,
) -> Result<(), TrialFault>
    ensures told { OnOk result (Adds trials.now (texts scripts.now) told.old told.new) }
    ensures cause { IfErr result (Breaks trials.now (texts scripts.now) told.old) }
    ensures range { result ≡ Err (TrialFault.Engine EngineFault.Range) ↔ (IsInRange workers trials.now.limit → ⊥) }
{
    // What the engine doesn't take: so `Range` is asked before any run.
    if workers < 1 || workers > MOST_WORKERS || trials.limit < 1 || trials.limit > MOST_ENTRIES {
        return Err(TrialFault::Engine(EngineFault::Range));
    }
    if told.ways.checked_add(scripts.len() as u64).is_none() {
        // No machine tries 2^64 ways.
        return Err(TrialFault::Engine(EngineFault::Memory));
    }
    // How many of the scripts were tried.
    let mut next = 0;
    // How many ways the next batch has at most. The first way alone shows how long the runs are.
    let mut number = 1;
    let mut threads = 1;
    // Each round tries one way at least, so the loop ends.
    while next < scripts.len() {
        number = number.min(scripts.len() - next);
        let batch = Batch {
            alloc,
            trials,
            // Ways are numbered from 0, and so many were tried.
            first: told.ways,
            scripts: &scripts[next..next + number],
        };
        // `tell` adds the verdicts to `told`, and gives how many entries all runs of a way have, on average over the batch.
        let mean = batch.tell(rt, threads, told)?;
        next += number;
        // One way at least for each worker.
        number = BATCH.max(workers);
        // Several threads only where a batch of so many ways is likely to have `WORTH` entries or more, even if fewer ways are left.
        threads = if mean.saturating_mul(number as u64) < WORTH {
            1
        } else {
            workers
        };
    }
    Ok(())
}
