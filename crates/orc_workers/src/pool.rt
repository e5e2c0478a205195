//! Runs a program on several workers: the calling thread, and others beside it. A worker has tokens, the places of a program at which its run can go
//! on. The graph is the program in packed nodes, `answers` is the table of what each site answers and when. `sites` makes the calls, and each call
//! first passes the `gate`, which may hold its worker. A *pass* stands for one token, pending call or group in its group (what runs in one right side
//! of a `<x<`, one left side of a `;`, or the whole program); the group's *word*, an atomic counter, counts the passes. The `supply` has the passes
//! that name no group yet. `rt` is the runtime, by which threads start and wait; `R`, `S` and `G` are the types of runtime, sites and gate.

ghost use Rattle.std.specs.Prelude.{◌≡◌, ◌≤◌, ◌*◌, ◌↔◌, true, Err, is_some, IfOk, IfErr};
ghost use Rattle.orc_rules.specs.declared.limits.TheConstants.{MOST_ENTRIES, MOST_GROUPS, MOST_WORKERS};
ghost use Rattle.orc_outcome.specs.Outcome.{IsPlayed};
ghost use Rattle.orc_rules.specs.Nodes.{definitions, source};
ghost use Rattle.orc_rules.specs.Program.{IsProgram};
ghost use Rattle.orc_scheduler.specs.Faults.{IsOwn};
ghost use Rattle.orc_engine.specs.Ranges.{IsInRange};

use crate::context::Context;
use crate::local::Local;
use crate::setup::Setup;
use crate::shared::Shared;
use crate::stopper::Stopper;
use crate::worker::Worker;
use orc_book::{Book, Token};
use orc_cell::Cell;
use orc_engine::run_parallel;
use orc_graph::Graph;
use orc_ledger::Inputs;
use orc_log::Run;
use orc_outcome::Played;
use orc_pool::{WorkerQueue, worker_queues};
use orc_rules::answers::Answers;
use orc_rules::limits::{MOST_ENTRIES, MOST_GROUPS, MOST_WORKERS};
use orc_rules::program::Program;
use orc_scheduler::{EngineFault, Scheduler, Stop};
use orc_site::{Gate, Sites};
use orc_word::{Groups, Naming, Supply, Unnamed};
use std::alloc::Global;
use std::marker::Brand;
use std::sync::atomic::AtomicU64;
use std::sync::{Condvar, Mutex, Wait};
use std::thread;
use std::thread::{Scope, Threads};

/// How many words of groups there are: one for each group that may be open, and as many for killed groups whose last passes aren't left yet.
const WORDS: u32 = 2 * MOST_GROUPS as u32;

/// How many passes each worker has: twice what the entries of a run can need, since a move takes two at most (`needs_of`). Those of 16 workers
/// together are under 2^31, as `Unnamed::new` requires.
const PASSES: u32 = 4 * MOST_ENTRIES as u32;

/// How a run is made.
#[derive(Clone, Copy)]
pub struct RunOptions {
    /// How many threads hold the run's tokens, 1 to `MOST_WORKERS`. The calling thread is one of them.
    pub workers: usize,
    /// Whether the caller wants the run's journal.
    pub keeps: bool,
    /// The most entries that the journal may have, 1 to `MOST_ENTRIES`, cancels not counted.
    pub limit: u64,
}

/// Runs a program on the calling thread and `options.workers - 1` more, which hold its tokens; a thread that can't be started is left out. The result
/// is that of a run as [`run_alone`](orc_engine::run_alone) makes it, in any schedule of the workers.
///
/// Each call passes `gate`, and `sites` makes it; the worker polls it outside every lock, and tells `sites` which calls are cancelled. Then the
/// journal is kept, whatever `options.keeps` says. If the sites go by the table and the gate is open, neither is asked, and the run is one of
/// [`run_parallel`](orc_engine::run_parallel).
///
/// The fault is Range exactly if there are no workers or over `MOST_WORKERS`, or the limit is 0 or over `MOST_ENTRIES`. It is Site if the sites
/// answered a call otherwise than the table says, or not when it was due; Broken if something is left that no worker has; Memory as of `run_alone`.
/// If neither sites nor gate are asked, the faults are those of `run_parallel`.
pub fn run_pool<R, S, G>(
    rt: &R,
    alloc: Global,
    program: &Program,
    answers: &Answers,
    sites: &S,
    gate: &G,
    options: RunOptions,
) -> Result<Played, EngineFault>
where
    R: Threads + Wait + Sync,
    S: Sites + Sync,
    S::Call: Send,
    G: Gate + Sync,
    ensures played { IfOk result (λ p. IsPlayed program.now answers.now options.limit p.summary p.published.items p.journal) }
    ensures kept { IfOk result (λ p. options.keeps ≡ true → is_some p.journal ≡ true) }
    ensures range { result ≡ Err EngineFault.Range ↔ (IsInRange options.workers options.limit → ⊥) }
    ensures sound { S.by_table sites.now → G.holds_nobody gate.now → IfErr result (λ fault. IsOwn fault → IsProgram (definitions program.now) (source program.now) → ⊥) }
{
    let RunOptions {
        workers,
        keeps,
        limit,
    } = options;
    if workers < 1 || workers > MOST_WORKERS || limit < 1 || limit > MOST_ENTRIES {
        return Err(EngineFault::Range);
    }
    if sites.goes_by_table() && gate.is_open() {
        return run_parallel(rt, alloc, program, answers, workers, keeps, limit);
    }
    let Ok(graph) = Graph::build(alloc, program) else {
        return Err(EngineFault::Memory);
    };
    let pool = Pool {
        rt,
        alloc,
        workers,
        sites,
        gate,
    };
    pool.run_graph(program, &graph, answers, limit as usize)
}

// The workers of a run before it begins, and whom they call.
#[derive(Drop)]
struct Pool<'h, R, S, G> {
    // Starts their threads.
    rt: &'h R,
    // They take memory from this allocator.
    alloc: Global,
    // How many there are. The calling thread is one of them.
    workers: usize,
    // They make the calls.
    sites: &'h S,
    // Each call passes it before it is made.
    gate: &'h G,
}

impl<R, S, G> Pool<'_, R, S, G>
where
    R: Threads + Wait + Sync,
    S: Sites + Sync,
    S::Call: Send,
    G: Gate + Sync,
{
    // Runs a program whose graph is built, with workers and a limit in range, and asks the sites and the gate. The journal is kept. By the clause
    // *played* the result is the outcome of a run of the program. The faults are those of `run_pool` but Range.
    fn run_graph(
        &self,
        program: &Program,
        graph: &Graph,
        answers: &Answers,
        limit: usize,
    ) -> Result<Played, EngineFault>
        requires workers { (1 ≤ self.now.workers) × (self.now.workers ≤ MOST_WORKERS) }
        requires limit { (1 ≤ limit) × (limit ≤ MOST_ENTRIES) }
        requires graph { graph.now ≡ program.now }
        ensures played { IfOk result (λ p. IsPlayed program.now answers.now limit p.summary p.published.items p.journal) }
        ensures kept { IfOk result (λ p. is_some p.journal ≡ true) }
        ensures range { IfErr result (λ fault. fault ≡ EngineFault.Range → ⊥) }
    {
        // `PASSES` for each worker, and one for the program's first token. The error is refused memory.
        let Ok(words) = Unnamed::new(self.alloc, WORDS, PASSES * self.workers as u32 + 1) else {
            return Err(EngineFault::Memory);
        };
        self.run_named::<Brand>(words, program, graph, answers, limit)
    }

    // Runs a program with workers, once its graph is built and the words of the groups are made (a group's word counts the passes to it). In
    // contracts `P` stands for the run, with its program and sites, and for the table of words; the caller picks it, and the clauses ask that all of
    // these are those of `P`. The faults are those of `run_pool` but Range.
    fn run_named<P: Run + Naming + Send + Sync>(
        &self,
        words: Unnamed,
        program: &Program,
        graph: &Graph,
        answers: &Answers,
        limit: usize,
    ) -> Result<Played, EngineFault>
        requires limit { (1 ≤ limit) × (limit ≤ MOST_ENTRIES) }
        requires named { limit ≡ P.limit }
        requires program { program.now ≡ P.listing }
        requires graph { graph.now ≡ P.listing }
        requires answers { answers.now.sites ≡ P.sites }
        requires kept { P.keeps ≡ true }
        requires table { words.table.shared.table_id ≡ P.table }
        requires words { words.table.shared.table_id.words ≡ 2 * MOST_GROUPS }
        ensures played { IfOk result (λ p. IsPlayed program.now answers.now limit p.summary p.published.items p.journal) }
        ensures kept { IfOk result (λ p. is_some p.journal ≡ true) }
        ensures range { IfErr result (λ fault. fault ≡ EngineFault.Range → ⊥) }
    {
        // The words of the groups, and all passes, of which each worker gets a part.
        let (groups, mut supply) = words.named::<P>();
        let Some(idle) = supply.take(&groups) else {
            // Never so: the supply is new, and so is word 0 below. No contract says so.
            return Err(EngineFault::Broken);
        };
        // The first token is in the program's own group, whose word is 0.
        let Ok(pass) = groups.open(idle, 0) else {
            return Err(EngineFault::Broken);
        };
        let inputs = Inputs::new(graph, answers);
        // The book keeps the journal (`true`): the workers read a call's request there.
        let Ok((book, token)) = Book::<P>::new(self.alloc, &inputs, true, limit, WORDS, pass) else {
            return Err(EngineFault::Memory);
        };
        let setup = Setup {
            inputs: &inputs,
            groups: &groups,
        };
        // The cell that is bound to the reason once the run stops.
        let Ok(why) = Cell::new(self.alloc) else {
            return Err(EngineFault::Memory);
        };
        let Ok(stopper) = Stopper::new(self.alloc, &why) else {
            return Err(EngineFault::Memory);
        };
        let shared = Mutex::new(Shared::new(self.alloc, book, stopper));
        self.play(setup, supply, token, &shared, &why)?;
        // `play` has waited for all threads, so nobody else has the lock.
        let (book, stop) = shared.into_inner().into_book();
        // This scheduler gives no turn: it finds from the records how the run ended.
        let scheduler = Scheduler::new(self.alloc, book.into_ledger(), true);
        match scheduler.finish(program, &inputs, stop) {
            Ok(Some(played)) => Ok(played),
            // The journal is kept, so the end can be told.
            Ok(None) => unreachable!(),
            Err(fault) => Err(fault),
        }
    }

    // Lets all workers work until the run has stopped. The first worker, on the calling thread, begins with `token`, the run's first. `supply` has
    // the passes of all workers. `why` is bound once the run stops, to the reason. The fault is Memory if memory for the workers was refused, or
    // Broken if there are too few passes or no workers.
    fn play<P: Run + Naming + Send + Sync>(
        &self,
        setup: Setup<'_, P>,
        supply: Supply<P>,
        token: Token<P>,
        shared: &Mutex<Shared<P, S::Call>>,
        why: &Cell<Stop>,
    ) -> Result<(), EngineFault>
        ensures range { IfErr result (λ fault. fault ≡ EngineFault.Range → ⊥) }
    {
        let Ok(mut queues) = worker_queues::<Token<P>>(self.alloc, self.workers) else {
            return Err(EngineFault::Memory);
        };
        // The first worker's queue. It is there, since each worker has a queue and there is one worker at least. The others' queues stay in the list.
        let Some(queue) = queues.pop() else {
            return Err(EngineFault::Broken);
        };
        let mut supply = supply;
        let mut local = local_of(self.alloc, setup.groups, &mut supply)?;
        // The first worker begins with the run's first token.
        local.hold(token);
        let wakeups = Condvar::new();
        let idle = AtomicU64::new(0);
        let context = Context {
            alloc: self.alloc,
            setup,
            shared,
            why,
            wakeups: &wakeups,
            idle: &idle,
            sites: self.sites,
            gate: self.gate,
            // Whether a call may wait for what another thread does: then a worker hands over all that others may need before it makes one.
            may_wait: self.sites.may_wait() || self.gate.may_wait(),
        };
        let first = Worker {
            rt: self.rt,
            context: &context,
            queue,
            local,
            is_first: true,
        };
        let others = others_of(self.rt, &context, &mut supply, queues)?;
        run_all(self.rt, first, others);
        Ok(())
    }
}

// What a worker has at first: `PASSES` passes, taken out of the run's supply. Broken if the supply has too few, which doesn't come up: it was made
// with `PASSES` for each worker.
fn local_of<P: Naming>(
    alloc: Global,
    groups: &Groups<P>,
    supply: &mut Supply<P>,
) -> Result<Local<P>, EngineFault>
    ensures range { IfErr result (λ fault. fault ≡ EngineFault.Range → ⊥) }
{
    // Moves passes of the run's supply into one of the worker's own.
    match supply.part(groups, PASSES) {
        Some(part) => Ok(Local::new(alloc, part)),
        None => Err(EngineFault::Broken),
    }
}

// The workers beside the first one, each with one of these queues and a part of the supply. The fault is Memory if memory is refused, else Broken as
// of `local_of`: too few passes.
fn others_of<'h, P: Run + Naming, R: Wait, S: Sites, G: Gate>(
    rt: &'h R,
    context: &'h Context<'h, P, S, G>,
    supply: &mut Supply<P>,
    queues: Vec<WorkerQueue<Token<P>>>,
) -> Result<Vec<Worker<'h, P, R, S, G>>, EngineFault>
    ensures range { IfErr result (λ fault. fault ≡ EngineFault.Range → ⊥) }
{
    let mut others = Vec::new(context.alloc);
    for queue in queues {
        let local = local_of(context.alloc, context.setup.groups, supply)?;
        let worker = Worker {
            rt,
            context,
            queue,
            local,
            is_first: false,
        };
        if others.push(worker).is_err() {
            return Err(EngineFault::Memory);
        }
    }
    Ok(others)
}

// Has all workers work, and waits until each has returned. The first worker's thread is the calling one. Another that can't be started is left out.
fn run_all<'h, P, R, S, G>(
    rt: &R,
    first: Worker<'h, P, R, S, G>,
    others: Vec<Worker<'h, P, R, S, G>>,
)
where
    P: Run + Naming + Send + Sync,
    R: Threads + Wait + Sync,
    S: Sites + Sync,
    S::Call: Send,
    G: Gate + Sync,
{
    thread::scope(thread::scope_env(), rt, move |scope| {
        for other in others {
            start(scope, other);
        }
        first.work();
    });
}

// Starts a thread for a worker. If the thread can't be started its worker is dropped, and the others have the work.
fn start<'s, 'h: 's, E, P, R, S, G>(scope: &Scope<'s, E>, worker: Worker<'h, P, R, S, G>)
where
    P: Run + Naming + Send + Sync + 's,
    R: Wait + Sync,
    S: Sites + Sync,
    S::Call: Send,
    G: Gate + Sync,
{
    let _left_out = scope.spawn(move || worker.work());
}
