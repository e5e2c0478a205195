//! A run whose tokens (the places at which it can go on) several workers hold, over one journal: `orc run --unordered`. A worker passes a *gate*
//! before each call of a site, and may be held there.

ghost use Rattle.std.specs.Prelude.{◌≡◌, ◌↔◌, Err, true, is_some, IfOk, IfErr};
ghost use Rattle.orc_rules.specs.Nodes.{definitions, source};
ghost use Rattle.orc_rules.specs.Program.{IsProgram};
ghost use Rattle.orc_outcome.specs.Outcome.{IsPlayed};
ghost use Rattle.orc_scheduler.specs.Faults.{IsOwn};
ghost use Rattle.orc_engine.specs.Ranges.{IsInRange};

use orc_engine::{EngineFault, run_alone};
use orc_outcome::Played;
use orc_rules::answers::Answers;
use orc_rules::program::Program;
use orc_site::{Gate, Scripted};
use orc_workers::{RunOptions, run_pool};
use std::alloc::Global;
use std::sync::Wait;
use std::thread::Threads;

// A gate that holds no call back, but doesn't say so (`is_open`): with an open gate `run_pool` would make the run in its fixed order. And since a
// call may be held, as far as the workers know, each new token finds a worker soon, so that tokens race even in a short run.
#[derive(Clone, Copy)]
struct Unheld;

impl Gate for Unheld {
    // Each call goes on at once.
    fn pass(&self, _number: u64) {}

    // The gate doesn't say that it is open: `run_pool` would make the run in its fixed order then.
    fn is_open(&self) -> bool {
        false
    }
}

/// Runs a program on workers, each on a thread of its own, that take the run's tokens as they come and share one journal. Where the rules leave it
/// free, what a thread gets to first comes first, so that another run may go otherwise. The table answers all calls of sites. The run has at most
/// `limit` entries, cancels not counted. If `keeps`, the result has its journal.
///
/// The fault is Range where there are no workers or over `MOST_WORKERS`, or the limit is 0 or over `MOST_ENTRIES`, and then alone; or Memory as of
/// [`run_alone`]. No other comes, if the program is one that the scope check takes: a run that the workers bring to no end is made again on one.
pub(crate) fn run_unordered<R: Threads + Wait + Sync>(
    rt: &R,
    alloc: Global,
    program: &Program,
    answers: &Answers,
    workers: usize,
    keeps: bool,
    limit: u64,
) -> Result<Played, EngineFault>
    ensures played { IfOk result (λ p. IsPlayed program.now answers.now limit p.summary p.published.items p.journal) }
    ensures kept { IfOk result (λ p. keeps ≡ true → is_some p.journal ≡ true) }
    ensures range { result ≡ Err EngineFault.Range ↔ (IsInRange workers limit → ⊥) }
    ensures sound { IfErr result (λ fault. IsOwn fault → IsProgram (definitions program.now) (source program.now) → ⊥) }
{
    let sites = Scripted::new(answers);
    let options = RunOptions {
        workers,
        keeps,
        limit,
    };
    match run_pool(rt, alloc, program, answers, &sites, &Unheld, options) {
        Ok(played) => Ok(played),
        // The workers brought the run to no end, so one worker makes it again: they found nothing to do where something was left, or the sites
        // answered a call otherwise than the table says.
        Err(EngineFault::Broken | EngineFault::Site(_)) => {
            // None: in the scheduler's own order.
            run_alone(alloc, program, answers, None, keeps, limit)
        }
        Err(fault) => Err(fault),
    }
}
