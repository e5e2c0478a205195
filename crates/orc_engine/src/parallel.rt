//! One run on several threads. If many tokens stand at calls of definitions, the threads run these calls side by side, each as a sub-run, and the
//! calling thread merges the results in a fixed order. So the journal depends neither on which thread is quicker nor on how many there are. An error
//! of type `Stop` is the reason why the run stops.
//!
//! A *job* is one of these calls. A job *races* if its token's side had other members when the jobs were listed, and has *won* if its call yields a
//! value, or may (`SubRunJob::has_won`): the jobs behind it are in vain then. The first jobs of a list are *samples*, whose runs show whether the
//! others are worth a thread. Counts are added with saturation only because the prover isn't told how small they are. A token is a place of the
//! program at which the run can go on; a *side* is the right side of an opened `<x<`, or the left side of an entered `;`, with its members: tokens,
//! calls and inner sides. The scheduler has the run: its records and journal (the *ledger*) and the *run queue* of tokens whose turn comes. The graph
//! is the program in packed nodes, `answers` is the table of what each site answers and when, and `Inputs` has both.

ghost use Rattle.std.specs.Prelude.{◌≡◌, ◌≤◌, ◌<◌, ◌^◌, ◌↔◌, Err, is_some, IfOk, IfErr, IfSome, true, MatchOption};
ghost use Rattle.std.specs.VecDeque.{deque_len};
ghost use Rattle.orc_rules.specs.declared.limits.TheConstants.{MOST_ENTRIES};
ghost use Rattle.orc_rules.specs.Nodes.{definitions, source};
ghost use Rattle.orc_rules.specs.Program.{IsProgram};
ghost use Rattle.orc_outcome.specs.Outcome.{IsPlayed};
ghost use Rattle.orc_scheduler.specs.Faults.{IsOwn};
ghost use Rattle.orc_engine.specs.Ranges.{IsInRange};
ghost use Rattle.orc_scheduler.specs.Stops.{HasSpread, IsNearer, Stops};

use crate::batch::{Dealt, Won, deal, forget_losers};
use orc_graph::Graph;
use orc_ledger::{Inputs, Ledger, Run};
use orc_outcome::Played;
use orc_pool::WorkerQueue;
use orc_rules::answers::Answers;
use orc_rules::limits::{MOST_ENTRIES, MOST_WORKERS};
use orc_rules::program::Program;
use orc_scheduler::{EngineFault, Scheduler, Stop, SubRunJob, SubRunResult};
use std::alloc::Global;
use std::marker::Brand;
use std::thread;
use std::thread::Threads;

/// How many entries one worker makes before the first attempt to share work, and between a successful attempt and the next. After an attempt that
/// ended as `Few` it makes ten times as many.
const PATIENCE: usize = 5_000;

/// How many runnable tokens an attempt needs. The calls at which they stand are run side by side.
const READY_TOKENS: usize = 128;

/// How many runnable tokens an attempt needs after samples that were too long: then tokens stand at calls deeper in the tree of calls, which have
/// shorter runs.
const READY_TOKENS_IF_LONG: usize = 1_000;

/// How many calls run first as samples, to show how long the sub-runs of the others will be.
const SAMPLES: usize = 16;

/// How many of the samples run first if the calls race each other: once one of them yields a value, the others would be run in vain.
const RACERS: usize = 4;

/// The most entries of a sample's run. The tables of a run of so many entries fit a processor's own cache.
const MOST_SAMPLE_ENTRIES: usize = 20_000;

/// The mean number of entries from which sub-runs are worth making: to begin one costs as much as a hundred entries.
const LEAST_MEAN_ENTRIES: usize = 512;

/// How many calls run side by side before their results are merged. A thread that begins may wait some milliseconds for a processor, so a batch has
/// to be worth more than that.
const BATCH: usize = 256;

/// The limit of a sub-run is this many times the mean of the entries of those before it, but `MOST_RUN_ENTRIES` at most.
const TIMES_MEAN: usize = 8;

/// The most entries of any sub-run.
const MOST_RUN_ENTRIES: usize = 1_000_000;

/// The threads that make a run.
#[derive(Drop)]
pub(crate) struct WorkerThreads<'c, R> {
    /// The runtime starts them.
    rt: &'c R,
    /// They take memory from this allocator.
    alloc: Global,
    /// How many threads run calls of definitions, at least 1. The calling thread is one of them while it has no results to merge.
    workers: usize,
}

/// How an attempt to run calls of definitions side by side has gone.
#[derive(Clone, Copy)]
enum Trial {
    /// Too few tokens were runnable, or one of the calls that were tried first has won a race: it yields a value, or may, so that those behind it may
    /// be in vain.
    Few,
    /// More sub-runs stopped at their limit than gave a result.
    Long,
    /// It isn't worth the threads: there were too few calls, no room for entries or no memory, or sub-runs were too short or mostly gave no result.
    Vain,
    /// At least half of the sub-runs gave a result, and these had this many entries on average.
    Good(usize),
}

// When the next attempt comes.
#[derive(Clone, Copy)]
struct Plan {
    // The number of entries of the run at which it comes.
    entries: usize,
    // How many entries the sub-runs of the last attempt had on average; 0 if samples are to show it.
    mean: usize,
}

// Counts of the results of some jobs.
#[derive(Clone, Copy)]
struct Tally {
    // How many jobs there were.
    count: usize,
    // How many sub-runs gave a result (`SubRunResult::Over`).
    over: usize,
    // How many sub-runs stopped at their limit.
    long: usize,
    // The entries of all sub-runs that gave a result.
    entries: usize,
    // Whether a job has won a race: its call yields a value, or may, so that the jobs behind it may be in vain.
    is_won: bool,
}

impl Tally {
    // How many entries a sub-run that gave a result has on average; 0 if none did.
    fn mean(&self) -> usize {
        self.entries / self.over.max(1)
    }
}

/// Runs a program as [`run_alone`](crate::run_alone) does, on the calling thread, and calls of definitions apart on `workers` threads; the calling
/// thread is one of them while it has no results to merge. The table answers all calls of sites. The journal is the same on any number of workers,
/// and has at most `limit` entries, cancels not counted. The result has the journal if `keeps`, and sometimes if not.
///
/// The fault is Range exactly if there are no workers or over `MOST_WORKERS`, or the limit is 0 or over `MOST_ENTRIES`. It is Memory if memory was
/// refused before the run began, or for its result. No other fault comes if the scope check accepts the program.
pub fn run_parallel<R: Threads + Sync>(
    rt: &R,
    alloc: Global,
    program: &Program,
    answers: &Answers,
    workers: usize,
    keeps: bool,
    limit: u64,
) -> Result<Played, EngineFault>
    ensures played { IfOk result (λ p. IsPlayed program.now answers.now limit p.summary p.published.items p.journal) }
    ensures kept { IfOk result (λ p. keeps ≡ true → is_some p.journal ≡ true) }
    ensures range { result ≡ Err EngineFault.Range ↔ (IsInRange workers limit → ⊥) }
    ensures sound { IfErr result (λ fault. IsOwn fault → IsProgram (definitions program.now) (source program.now) → ⊥) }
{
    if workers < 1 || workers > MOST_WORKERS || limit < 1 || limit > MOST_ENTRIES {
        return Err(EngineFault::Range);
    }
    let Ok(graph) = Graph::build(alloc, program) else {
        // Memory was refused, or a number of the program takes more than 32 bits.
        return Err(EngineFault::Memory);
    };
    let threads = WorkerThreads { rt, alloc, workers };
    run_graph(&threads, program, &graph, answers, keeps, limit as usize)
}

/// Runs a program whose graph is built, as [`run_parallel`] does, with a limit and workers in range. The fault is Memory if memory was refused before
/// the run began, or for its result. No other fault comes if the scope check accepts the program.
pub(crate) fn run_graph<R: Threads + Sync>(
    threads: &WorkerThreads<'_, R>,
    program: &Program,
    graph: &Graph,
    answers: &Answers,
    keeps: bool,
    limit: usize,
) -> Result<Played, EngineFault>
    requires workers { 1 ≤ threads.now.workers }
    requires limit { (1 ≤ limit) × (limit ≤ MOST_ENTRIES) }
    requires graph { graph.now ≡ program.now }
    ensures played { IfOk result (λ p. IsPlayed program.now answers.now limit p.summary p.published.items p.journal) }
    ensures kept { IfOk result (λ p. keeps ≡ true → is_some p.journal ≡ true) }
    ensures range { IfErr result (λ fault. fault ≡ EngineFault.Range → ⊥) }
    ensures sound { IfErr result (λ fault. IsOwn fault → IsProgram (definitions program.now) (source program.now) → ⊥) }
{
    if !keeps {
        match run_named::<Brand, R>(threads, program, graph, answers, false, limit) {
            Ok(Some(played)) => return Ok(played),
            // Only a journal can show how the run ended: it is made again below.
            Ok(None) => {}
            Err(fault) => return Err(fault),
        }
    }
    // The caller wants the journal, or only the journal can show how the run ended.
    match run_named::<Brand, R>(threads, program, graph, answers, true, limit) {
        Ok(Some(played)) => Ok(played),
        // By the clause *kept* a run that keeps its journal is always told of.
        Ok(None) => unreachable!(),
        Err(fault) => Err(fault),
    }
}

// Runs a program whose graph is built, and keeps its journal or only counts its entries. None if it keeps no journal, but only a journal can show how
// the run ended. The type P names the run, whose program and sites the caller picks. The fault is Memory if memory was refused before the run began,
// or for its result. No other fault comes if the scope check accepts the program.
fn run_named<P, R>(
    threads: &WorkerThreads<'_, R>,
    program: &Program,
    graph: &Graph,
    answers: &Answers,
    keeps: bool,
    limit: usize,
) -> Result<Option<Played>, EngineFault>
where
    P: Run + Send + Sync,
    R: Threads + Sync,
    requires workers { 1 ≤ threads.now.workers }
    requires limit { (1 ≤ limit) × (limit ≤ MOST_ENTRIES) }
    requires named { limit ≡ P.limit }
    requires program { program.now ≡ P.listing }
    requires graph { graph.now ≡ P.listing }
    requires answers { answers.now.sites ≡ P.sites }
    requires keeps { keeps ≡ P.keeps }
    ensures played { IfOk result (λ played. IfSome played (λ p. IsPlayed program.now answers.now limit p.summary p.published.items p.journal)) }
    ensures kept { IfOk result (λ played. keeps ≡ true → MatchOption played ⊥ (λ p. is_some p.journal ≡ true)) }
    ensures range { IfErr result (λ fault. fault ≡ EngineFault.Range → ⊥) }
    ensures sound { IfErr result (λ fault. IsOwn fault → IsProgram (definitions program.now) (source program.now) → ⊥) }
{
    let WorkerThreads { rt, alloc, workers } = *threads;
    let Ok(ledger) = Ledger::<P>::begin(alloc, keeps, limit, graph.root()) else {
        return Err(EngineFault::Memory);
    };
    let mut scheduler = Scheduler::new(alloc, ledger, keeps);
    let inputs = Inputs::new(graph, answers);
    let run = ParallelRun::<P, R> {
        rt,
        alloc,
        inputs: &inputs,
        workers,
        keeps,
    };
    let stop = run.play(&mut scheduler);
    scheduler.finish(program, &inputs, stop)
}

// The threads that run one program, and the inputs of the run. `rt` starts the threads, which take memory from `alloc`; `workers` of them run calls
// of definitions, at least 1.
#[derive(Drop)]
struct ParallelRun<'c, P: Run, R> {
    rt: &'c R,
    alloc: Global,
    inputs: &'c Inputs<'c, P>,
    workers: usize,
    // Whether the run's journal is kept, and so those of its sub-runs.
    keeps: bool,
    ghost its_keeping: { keeps ≡ P.keeps },
    ghost has_some: { 1 ≤ workers },
}

impl<P, R> ParallelRun<'_, P, R>
where
    P: Run + Send + Sync,
    R: Threads + Sync,
{
    // Gives the run one turn after another until it stops, and says why it stops. Each turn brings the run nearer its end: it makes an entry, closes
    // a group, or takes a token out of the run queue. So the loop ends.
    fn play(&self, scheduler: &mut Scheduler<P>) -> Stop
        ensures stops { Stops P.listing scheduler.new.ledger result }
    {
        if let Err(stop) = scheduler.begin() {
            return stop;
        }
        // The first attempt to share work comes after `PATIENCE` entries, and begins with samples.
        let mut plan = Plan {
            entries: PATIENCE,
            mean: 0,
        };
        loop {
            match self.go(scheduler, plan) {
                Ok(next) => plan = next,
                Err(stop) => return stop,
            }
        }
    }

    // Makes an attempt to share work if one is planned for now, and then gives a turn, so that each call brings the run nearer its end. Gives the
    // plan of the next attempt; the error is why the run stops.
    fn go(&self, scheduler: &mut Scheduler<P>, plan: Plan) -> Result<Plan, Stop>
        ensures nearer { IfOk result (λ _. IsNearer scheduler.old.ledger (deque_len scheduler.old.ready.handles) scheduler.new.ledger (deque_len scheduler.new.ready.handles)) }
        ensures within { IfOk result (λ _. scheduler.new.ledger.entries ≤ scheduler.new.ledger.limit) }
        ensures few { deque_len scheduler.new.ready.handles < 2 ^ 64 }
        ensures stops { IfErr result (λ stop. Stops P.listing scheduler.new.ledger stop) }
    {
        // `share` makes the attempt, if one is due. `scheduler.go` gives the next token its turn, or does what else comes next.
        let next = self.share(scheduler, plan)?;
        match scheduler.go(self.inputs) {
            Ok(()) => Ok(next),
            Err(stop) => Err(stop),
        }
    }

    // Makes an attempt if one is planned for now: it spreads tokens and runs the calls at which they stand side by side. If their runs turn out too
    // long it spreads more tokens and tries once more, with samples. Gives the plan of the next attempt; the error is why the run stops. Afterwards
    // the run is further, by entries or by groups that are closed, or it is unchanged and its run queue isn't longer (`HasSpread`).
    #[inline(never)]
    fn share(&self, scheduler: &mut Scheduler<P>, plan: Plan) -> Result<Plan, Stop>
        ensures spread { IfOk result (λ _. HasSpread scheduler.old.ledger (deque_len scheduler.old.ready.handles) scheduler.new.ledger (deque_len scheduler.new.ready.handles)) }
        ensures stops { IfErr result (λ stop. Stops P.listing scheduler.new.ledger stop) }
    {
        // The next attempt is not due yet, so the plan stays.
        if scheduler.entries() < plan.entries {
            return Ok(plan);
        }
        let mut trial = self.attempt(scheduler, READY_TOKENS, plan.mean)?;
        if matches!(trial, Trial::Long) {
            trial = self.attempt(scheduler, READY_TOKENS_IF_LONG, 0)?;
        }
        let now = scheduler.entries();
        let (entries, mean) = match trial {
            Trial::Good(mean) => (now.saturating_add(PATIENCE), mean),
            // Ten times as long, as `PATIENCE` says; the last mean stays.
            Trial::Few => (now.saturating_add(10 * PATIENCE), plan.mean),
            // If sharing doesn't pay, the next attempt comes once the run has 16 times as many entries.
            Trial::Long | Trial::Vain => (now.saturating_mul(16), 0),
        };
        Ok(Plan { entries, mean })
    }

    // Spreads tokens, that is, moves them on to their next calls of definitions, until `wanted` of them are runnable, and runs the calls at which
    // they stand side by side. `mean` is how many entries the sub-runs of the last attempt had on average; if it is 0, samples show it first. Few if
    // fewer become runnable, or if a sample wins a race. The error is why the run stops.
    fn attempt(
        &self,
        scheduler: &mut Scheduler<P>,
        wanted: usize,
        mean: usize,
    ) -> Result<Trial, Stop>
        ensures spread { IfOk result (λ _. HasSpread scheduler.old.ledger (deque_len scheduler.old.ready.handles) scheduler.new.ledger (deque_len scheduler.new.ready.handles)) }
        ensures stops { IfErr result (λ stop. Stops P.listing scheduler.new.ledger stop) }
    {
        // Moves tokens on to their next calls of definitions, until so many tokens are runnable or a bound of entries is reached.
        scheduler.spread(self.inputs, wanted)?;
        if scheduler.ready_count() < wanted {
            return Ok(Trial::Few);
        }
        self.run_side_by_side(scheduler, mean)
    }

    // Runs the calls at which tokens stand side by side, and merges their results. If `mean` is 0, samples first show how many entries the sub-runs
    // have on average, and whether the others are worth it. It considers calls that race, whose token's side has other members, only if there are too
    // few others, and these always begin with samples. The error is why the run stops.
    fn run_side_by_side(&self, scheduler: &mut Scheduler<P>, mean: usize) -> Result<Trial, Stop>
        ensures spread { IfOk result (λ _. HasSpread scheduler.old.ledger (deque_len scheduler.old.ready.handles) scheduler.new.ledger (deque_len scheduler.new.ready.handles)) }
        ensures stops { IfErr result (λ stop. Stops P.listing scheduler.new.ledger stop) }
    {
        // First calls that race nobody, then those that do. Where memory for their list is refused, the run makes them itself.
        let Ok(mut jobs) = scheduler.jobs(self.inputs, false) else {
            return Ok(Trial::Vain);
        };
        if jobs.len() >= SAMPLES {
            // All samples are run before their results are looked at.
            return self.run_jobs(scheduler, mean, SAMPLES, &mut jobs);
        }
        let Ok(mut jobs) = scheduler.jobs(self.inputs, true) else {
            return Ok(Trial::Vain);
        };
        if jobs.len() >= SAMPLES {
            // A mean of 0 has samples show it; the first `RACERS` of them are run before the others, since one of them may win.
            return self.run_jobs(scheduler, 0, RACERS, &mut jobs);
        }
        Ok(Trial::Vain)
    }

    // Does the jobs, each of which runs one call, and merges their results. If `mean`, the average of entries so far, is 0, samples come first, and
    // the `first` of these before the other samples. If a sample wins a race, so that the jobs behind it may be in vain, the results up to its own
    // are merged, and the run makes the other calls itself. The error is why the run stops.
    fn run_jobs(
        &self,
        scheduler: &mut Scheduler<P>,
        mean: usize,
        first: usize,
        jobs: &mut [SubRunJob<P>],
    ) -> Result<Trial, Stop>
        ensures spread { IfOk result (λ _. HasSpread scheduler.old.ledger (deque_len scheduler.old.ready.handles) scheduler.new.ledger (deque_len scheduler.new.ready.handles)) }
        ensures stops { IfErr result (λ stop. Stops P.listing scheduler.new.ledger stop) }
    {
        // How many more entries the run may have.
        let room = scheduler.room();
        // The limit has room for no entry of a sub-run.
        if room == 0 {
            return Ok(Trial::Vain);
        }
        // The last attempt has shown how long the sub-runs are.
        if mean > 0 {
            return self.run_batches(scheduler, mean, 0, jobs);
        }
        let tally = self.run_samples(MOST_SAMPLE_ENTRIES.min(room), first, jobs);
        // A sample has won a race.
        if tally.is_won {
            take_all(self.inputs, scheduler, jobs)?;
            return Ok(Trial::Few);
        }
        match self.trial_of(tally) {
            Trial::Good(mean) => self.run_batches(scheduler, mean, SAMPLES, jobs),
            // Too long or in vain: the results of the samples are dropped, and the run makes their calls itself.
            trial => Ok(trial),
        }
    }

    // Does the samples, each with `limit` entries at most: the `first` ones, and the others if none of these has won a race. Counts the results of
    // those that it did.
    fn run_samples(&self, limit: usize, first: usize, jobs: &mut [SubRunJob<P>]) -> Tally
        requires limit { (1 ≤ limit) × (limit ≤ MOST_ENTRIES) }
    {
        let (samples, _) = jobs.split_at_mut(SAMPLES.min(jobs.len()));
        let (early, late) = samples.split_at_mut(first.min(samples.len()));
        self.run_all(limit, early);
        let tally = tally_of(early);
        if tally.is_won || late.is_empty() {
            return tally;
        }
        self.run_all(limit, late);
        tally_of(samples)
    }

    // Whether more such sub-runs are worth a thread, judged by the counts of the results of some: Long, Vain, or Good with their mean of entries.
    fn trial_of(&self, tally: Tally) -> Trial {
        let mean = tally.mean();
        if tally.long > tally.over {
            Trial::Long
        } else if tally.over < tally.count.saturating_sub(tally.over)
            || mean < LEAST_MEAN_ENTRIES.max(self.inputs.graph.len())
        {
            // Most of them gave no result, or those that did were too short. A sub-run begins with a copy of the program's graph, whose length is its
            // number of nodes, so it has to have more entries than that.
            Trial::Vain
        } else {
            Trial::Good(mean)
        }
    }

    // Does the jobs in batches, without the first `done` ones, the samples. While threads do a batch, this one merges the results of the jobs before
    // it. `mean` is how many entries the sub-runs so far have had on average, and each batch gives the next one its own. The function goes on as long
    // as batches are worth it (`trial_of`), no job has won a race, and the limit has room for the next batch. Gives how the last batch has gone in
    // which no job won a race, or Good with `mean` if there was none; the error is why the run stops.
    fn run_batches(
        &self,
        scheduler: &mut Scheduler<P>,
        mean: usize,
        done: usize,
        jobs: &mut [SubRunJob<P>],
    ) -> Result<Trial, Stop>
        ensures spread { IfOk result (λ _. HasSpread scheduler.old.ledger (deque_len scheduler.old.ready.handles) scheduler.new.ledger (deque_len scheduler.new.ready.handles)) }
        ensures stops { IfErr result (λ stop. Stops P.listing scheduler.new.ledger stop) }
    {
        let mut mean = mean;
        let mut trial = Trial::Good(mean);
        for from in (done..jobs.len()).step_by(BATCH) {
            // How many more entries the run may have.
            let room = scheduler.room();
            // `from` is the place of the batch's first job. It is under the length already; the prover isn't told so by `step_by`.
            let from = from.min(jobs.len());
            // Jobs whose result was merged have none any more, so `before` may have them too.
            let (before, behind) = jobs.split_at_mut(from);
            let count = BATCH.min(behind.len());
            // The limit has to have room for all of the batch, if its runs are as long as the mean. `count` is never 0: that test is for the prover.
            if count == 0 || room == 0 || room / count < mean {
                break;
            }
            // The most entries of each sub-run of this batch.
            let limit = mean
                .saturating_mul(TIMES_MEAN)
                .clamp(1, MOST_RUN_ENTRIES)
                .min(room);
            let batch = &mut behind[..count];
            self.run_beside(scheduler, limit, before, batch)?;
            let tally = tally_of(batch);
            // A job has won a race: those behind it may be in vain.
            if tally.is_won {
                break;
            }
            trial = self.trial_of(tally);
            // Further batches aren't worth their threads.
            let Trial::Good(next) = trial else {
                break;
            };
            mean = next;
        }
        // The results of the last batch, and what the loop hasn't merged before it ended.
        take_all(self.inputs, scheduler, jobs)?;
        Ok(trial)
    }

    // Merges the results of the jobs `before`, while `workers` other threads do those of the batch, each with `limit` entries at most. With one
    // worker, or if `before` has no more jobs than the samples, it merges first. The error is why the run stops.
    fn run_beside(
        &self,
        scheduler: &mut Scheduler<P>,
        limit: usize,
        before: &mut [SubRunJob<P>],
        batch: &mut [SubRunJob<P>],
    ) -> Result<(), Stop>
        requires limit { (1 ≤ limit) × (limit ≤ MOST_ENTRIES) }
        ensures spread { IfOk result (λ _. HasSpread scheduler.old.ledger (deque_len scheduler.old.ready.handles) scheduler.new.ledger (deque_len scheduler.new.ready.handles)) }
        ensures stops { IfErr result (λ stop. Stops P.listing scheduler.new.ledger stop) }
    {
        let inputs = self.inputs;
        if self.workers == 1 || before.len() <= SAMPLES {
            take_all(inputs, scheduler, before)?;
            self.run_all(limit, batch);
            return Ok(());
        }
        // The batch in one closure, the scheduler in the other: they share nothing that changes.
        let (_ran, taken) = thread::join_mut(
            self.rt,
            &mut ||
                requires { (1 ≤ limit) × (limit ≤ MOST_ENTRIES) }
            { self.run_all(limit, batch) },
            &mut || take_all(inputs, scheduler, before),
        );
        taken
    }

    // Has the threads do the jobs, each job once and with `limit` entries at most, but none behind a job that is known to have won a race: it may be
    // in vain. If memory for the queues is refused it does none.
    fn run_all(&self, limit: usize, jobs: &mut [SubRunJob<P>])
        requires limit { (1 ≤ limit) × (limit ≤ MOST_ENTRIES) }
    {
        // The place of a job that has won, for all threads to see.
        let won = Won::new();
        let count = jobs.len();
        let Ok(mut worker_queues) = deal(self.alloc, jobs, self.workers) else {
            return;
        };
        thread::for_each_mut(
            self.rt,
            &mut worker_queues,
            self.workers,
            &|_: usize, worker_queue: &mut WorkerQueue<Dealt<P>>|
                requires { (1 ≤ limit) × (limit ≤ MOST_ENTRIES) }
            { self.work(limit, count, &won, worker_queue) },
        );
        // The queues hold the jobs by reference, so they go first.
        drop(worker_queues);
        // Which of the jobs behind a winner were done depends on the threads: their results are dropped.
        forget_losers(jobs);
    }

    // One thread's part: it does jobs, each with `limit` entries at most, until its queue and those of the others are empty. `count` jobs were dealt
    // out in all; `won` has the place of a job that has won a race.
    fn work(&self, limit: usize, count: usize, won: &Won, worker_queue: &mut WorkerQueue<Dealt<P>>)
        requires limit { (1 ≤ limit) × (limit ≤ MOST_ENTRIES) }
    {
        // No worker does more jobs than were dealt out.
        for _job in 0..count {
            let Some(dealt) = worker_queue.next() else {
                return;
            };
            let Dealt { place, job } = dealt;
            // A job before this one has won, so this one is in vain.
            if won.is_before(place) {
                continue;
            }
            job.run(self.alloc, self.inputs, self.keeps, limit);
            if job.has_won() {
                won.note(place);
            }
        }
    }
}

// Counts the results of the jobs: how many sub-runs gave one, how many stopped at their limit, and whether a job has won a race.
fn tally_of<P: Run>(jobs: &[SubRunJob<P>]) -> Tally {
    let mut tally = Tally {
        count: jobs.len(),
        over: 0,
        long: 0,
        entries: 0,
        is_won: false,
    };
    for job in jobs {
        tally.is_won = tally.is_won || job.has_won();
        match job.result() {
            SubRunResult::Over(part) => {
                tally.over = tally.over.saturating_add(1);
                tally.entries = tally.entries.saturating_add(part.len());
            }
            SubRunResult::Long => tally.long = tally.long.saturating_add(1),
            // Its job is in `count` alone.
            SubRunResult::Nothing => {}
        }
    }
    tally
}

// Merges the results of the jobs that still have one into the run, in the order of the jobs, and takes them out. The error is why the run stops.
// Afterwards the run is further, by entries or by groups that are closed, or it is unchanged and its run queue isn't longer (`HasSpread`).
fn take_all<P: Run>(
    inputs: &Inputs<'_, P>,
    scheduler: &mut Scheduler<P>,
    jobs: &mut [SubRunJob<P>],
) -> Result<(), Stop>
    ensures spread { IfOk result (λ _. HasSpread scheduler.old.ledger (deque_len scheduler.old.ready.handles) scheduler.new.ledger (deque_len scheduler.new.ready.handles)) }
    ensures stops { IfErr result (λ stop. Stops P.listing scheduler.new.ledger stop) }
{
    for job in jobs {
        take_one(inputs, scheduler, job)?;
    }
    Ok(())
}

// Merges the result of a job into the run, if the job still has one, and takes it out. The error is why the run stops. Afterwards the run is further,
// by entries or by groups that are closed, or it is unchanged and its run queue isn't longer (`HasSpread`).
fn take_one<P: Run>(
    inputs: &Inputs<'_, P>,
    scheduler: &mut Scheduler<P>,
    job: &mut SubRunJob<P>,
) -> Result<(), Stop>
    ensures spread { IfOk result (λ _. HasSpread scheduler.old.ledger (deque_len scheduler.old.ready.handles) scheduler.new.ledger (deque_len scheduler.new.ready.handles)) }
    ensures stops { IfErr result (λ stop. Stops P.listing scheduler.new.ledger stop) }
{
    // A job whose result was merged already has Nothing left. Else, if the sub-run is not over (Nothing, or Long), the run makes the call itself.
    let SubRunResult::Over(part) = job.take() else {
        return Ok(());
    };
    // A call whose result isn't merged goes on as a token of the run.
    let _taken = scheduler.append_sub_run(inputs, job.handle(), &part)?;
    Ok(())
}
