//! A program's runs in many orders, in batches whose runs several threads share. The *outcome* of a run is how it ended and what it published. An
//! *order* is a number that decides what comes first in a run where the rules leave it free.

ghost use Rattle.std.specs.Prelude.{◌≡◌, ◌≤◌, ◌<◌, ◌+◌, ◌^◌, ◌↔◌, length, Err, IfOk, IfErr, OnOk};
ghost use Rattle.std.specs.List.{All};
ghost use Rattle.orc_rules.specs.Nodes.{definitions, source};
ghost use Rattle.orc_rules.specs.Program.{IsProgram};
ghost use Rattle.orc_scheduler.specs.Faults.{IsOwn};
ghost use Rattle.orc_engine.specs.Ranges.{IsInRange};
ghost use Rattle.orc_orders.specs.Survey.{Came, Counts, IsOfRun, IsSurvey};
ghost use Rattle.orc_orders.specs.Tried.{IsTried};

use crate::seen::{Outcomes, Seen};
use orc_engine::{EngineFault, run_alone};
use orc_outcome::{End, Played};
use orc_rules::answers::Answers;
use orc_rules::limits::{MOST_ENTRIES, MOST_WORKERS};
use orc_rules::program::Program;
use std::alloc::{AllocError, Global};
use std::thread;
use std::thread::Threads;

/// The most orders in a batch; their outcomes are counted once all of them were run.
const BATCH: u64 = 1_024;

/// Threads share the runs of a batch if these runs have at least this many journal entries in all, by the mean of the batch before. A thread that
/// begins may wait longer for a processor than a shorter batch takes.
const WORTH: u64 = 50_000;

/// The most entries that the runs of a batch should have in all, by the mean of the batch before: what the runs publish is held until it is counted.
const ROOM: u64 = 4_000_000;

/// The result of the run in an order.
#[derive(Drop)]
struct Trial {
    // What the run came to, or its fault; the fault Memory until the order was run.
    came: Result<Played, EngineFault>,
}

// Places for the results of `number` orders, one for each in turn. A place says that memory was refused until its order was run. The error is refused
// memory.
fn places(alloc: Global, number: u64) -> Result<Vec<Trial>, AllocError>
    ensures { IfOk result (λ trials. length trials.items ≡ number) }
{
    let mut trials = Vec::new(alloc);
    for _place in 0..number {
        trials.push(Trial {
            came: Err(EngineFault::Memory),
        })?;
    }
    Ok(trials)
}

// What all runs have in common: the program, the table that answers its calls, and the most entries of a run's journal, cancels not counted.
#[derive(Drop)]
struct Surveyor<'s, R> {
    // Starts the threads.
    rt: &'s R,
    // From where memory is taken.
    alloc: Global,
    // The program that is run, and the table that answers its calls.
    program: &'s Program,
    answers: &'s Answers,
    // The most entries of a run's journal, cancels not counted.
    limit: u64,
}

impl<R: Threads + Sync> Surveyor<'_, R> {
    // Runs the program in `number` orders from `first` on, on `threads` threads, and gives the results in the order of the orders. If a run fails,
    // its place has the fault. The error is refused memory.
    #[tactic(auto, using(crate::proofs::Lent::filled))]
    fn run(&self, threads: usize, first: u64, number: u64) -> Result<Vec<Trial>, AllocError>
        requires threads { 0 < threads }
        ensures all { IfOk result (λ trials. length trials.items ≡ number) }
        ensures tried { IfOk result (λ trials. All (IsTried self.now.program.now self.now.answers.now self.now.limit) trials.items) }
    {
        let mut trials = places(self.alloc, number)?;
        // The threads share the places among them: each place gets the result of its order.
        thread::for_each_mut(
            self.rt,
            &mut trials,
            threads,
            &|at: usize, trial: &mut Trial|
                ensures { IsTried self.entry.now.program.now self.entry.now.answers.now self.entry.now.limit trial.exit.now }
            {
                // The place `at`, from 0, is that of this order. `go` asks for room, so this never wraps; this function has no such clause.
                let order = first.wrapping_add(at as u64);
                // Without a journal (`false`): the outcome needs none.
                trial.came = run_alone(
                    self.alloc,
                    self.program,
                    self.answers,
                    Some(order),
                    false,
                    self.limit,
                );
            },
        );
        Ok(trials)
    }

    // Counts in `seen` the outcome of the run in the order with this number, and gives how many entries the run's journal had. A run that ended
    // because memory was refused shows no outcome of the program, so it is a fault.
    fn count(&self, trial: &Trial, order: u64, seen: &mut Outcomes) -> Result<u64, EngineFault>
        requires tried { IsTried self.now.program.now self.now.answers.now self.now.limit trial.now }
        ensures counted { OnOk result ((c : Came) × IsOfRun self.now.program.now self.now.answers.now self.now.limit c × Counts order c seen.old seen.new) }
        ensures range { IfErr result (λ fault. fault ≡ EngineFault.Range → IsInRange 1 self.now.limit → ⊥) }
        ensures sound { IfErr result (λ fault. IsOwn fault → IsProgram (definitions self.now.program.now) (source self.now.program.now) → ⊥) }
    {
        // The run, or the fault for which it wasn't made.
        let played = match &trial.came {
            Ok(played) => played,
            Err(fault) => return Err(*fault),
        };
        let end = played.summary.end;
        let values = played.published.as_slice();
        if end == End::Memory || seen.count(self.alloc, order, end, values).is_err() {
            return Err(EngineFault::Memory);
        }
        Ok(played.summary.entries)
    }

    // Runs the program in `number` orders from `first` on, and counts their outcomes in `seen`. Gives how many journal entries a run had on average.
    // The clauses ask for a thread and an order at least, and that the orders' numbers don't overflow. The fault is that of the first run with one,
    // or Memory; outcomes before it are counted then.
    #[tactic(auto, using(crate::proofs::Counting::one_order_more))]
    fn go(
        &self,
        threads: usize,
        first: u64,
        number: u64,
        seen: &mut Outcomes,
    ) -> Result<u64, EngineFault>
        requires threads { 0 < threads }
        requires some { 0 < number }
        requires room { first + number < 2 ^ 64 }
        ensures counted { OnOk result (IsSurvey self.now.program.now self.now.answers.now self.now.limit first seen.old → IsSurvey self.now.program.now self.now.answers.now self.now.limit (first + number) seen.new) }
        ensures range { IfErr result (λ fault. fault ≡ EngineFault.Range → IsInRange 1 self.now.limit → ⊥) }
        ensures sound { IfErr result (λ fault. IsOwn fault → IsProgram (definitions self.now.program.now) (source self.now.program.now) → ⊥) }
    {
        let Ok(trials) = self.run(threads, first, number) else {
            return Err(EngineFault::Memory);
        };
        let mut entries: u64 = 0;
        for order in first..first + number {
            // The result of this order, by its place in the batch.
            let trial = &trials[(order - first) as usize];
            // The sum only decides on batches and threads; it can't overflow, which the prover isn't told.
            entries = entries.saturating_add(self.count(trial, order, seen)?);
        }
        // By `requires` there is one order at least.
        Ok(entries / number)
    }
}

/// Runs a program in the orders from 0 up to `orders`, and gives each outcome (how a run ended, and what it published) once, sorted by the first
/// order that came to it. `answers` is the table that answers the program's calls of sites. The journal of each run has at most `limit` entries,
/// cancels not counted. `workers` threads make the runs, and the calling one is one of them; the result is the same on any number.
///
/// The fault is Range exactly if there are no workers or over `MOST_WORKERS`, or the limit is 0 or over `MOST_ENTRIES`; and Memory if memory was
/// refused. No other fault comes if the scope check accepts the program.
#[tactic(auto, using(crate::proofs::Counting::none_yet))]
pub fn survey<R: Threads + Sync>(
    rt: &R,
    alloc: Global,
    program: &Program,
    answers: &Answers,
    workers: usize,
    orders: u64,
    limit: u64,
) -> Result<Vec<Seen>, EngineFault>
    ensures surveyed { IfOk result (λ seen. IsSurvey program.now answers.now limit orders seen.items) }
    ensures range { result ≡ Err EngineFault.Range ↔ (IsInRange workers limit → ⊥) }
    ensures sound { IfErr result (λ fault. IsOwn fault → IsProgram (definitions program.now) (source program.now) → ⊥) }
{
    if workers < 1 || workers > MOST_WORKERS || limit < 1 || limit > MOST_ENTRIES {
        return Err(EngineFault::Range);
    }
    let surveyor = Surveyor {
        rt,
        alloc,
        program,
        answers,
        limit,
    };
    let mut seen = Outcomes::new(alloc);
    // How many orders were run.
    let mut next = 0;
    // How many orders the next batch has at most. The first batch is one run, which shows how long the runs are.
    let mut batch = 1;
    let mut threads = 1;
    // Each round runs one order at least, so the loop ends.
    while next < orders {
        let number = batch.min(orders - next);
        // `go` counts the outcomes in `seen`, and gives how many entries a run had on average.
        let mean = surveyor.go(threads, next, number, &mut seen)?;
        next += number;
        // As many orders as `ROOM` allows, but at least one for each worker, and `BATCH` at most.
        batch = (ROOM / mean.max(1)).clamp(workers as u64, BATCH);
        // Several threads only where the next batch is likely to have `WORTH` entries or more.
        threads = if mean.saturating_mul(batch.min(orders - next)) < WORTH {
            1
        } else {
            workers
        };
    }
    Ok(seen.into_seen())
}
