//! Sub-runs: a call of a definition runs apart from the run that makes it, with a scheduler and a ledger of its own, on any thread. A *token* marks a
//! part of the program's term that runs, and a `Handle` names it; the ledger, which has a run's records, keeps it in a *slot*. A *side* is the right
//! one of a `<x<` or the left one of a `;`. `inputs` are the program's nodes and the table that answers its calls. In contracts the type `P` names
//! the run, and `P.keeps` says whether its journal is kept.

ghost use Rattle.std.specs.Prelude.{◌≡◌, ◌≤◌, IfSome};
ghost use Rattle.orc_rules.specs.declared.limits.TheConstants.{MOST_ENTRIES};
ghost use Rattle.orc_rules.specs.Nodes.{definitions, source};
ghost use Rattle.orc_ledger_spec.specs.Parts.{call_of};

use crate::ready::Handle;
use crate::scheduler::{Scheduler, Stop};
use orc_graph::Graph;
use orc_ledger::{Inputs, Ledger, LedgerFault, Run, SubRun, SubRunTask};
use orc_rules::answers::Answers;
use std::alloc::Global;
use std::marker::Brand;
use std::mem;

/// The result of a call's sub-run.
#[derive(Drop)]
pub enum SubRunResult<P: Run> {
    /// No result: nobody has run the call, its sub-run can't replace it in the run, or memory was refused.
    Nothing,
    /// The sub-run stopped at its limit of entries.
    Long,
    /// The sub-run is over. That of an *outermost* call, whose publications are the program's, has published all that the call does. Any other has
    /// yielded one value or none, and can replace the call.
    Over(SubRun<P>),
}

/// A call at which a token stands, and the result of its sub-run.
#[derive(Drop)]
pub struct SubRunJob<P: Run> {
    // The handle of the token that stands at the call; the token may be gone by now.
    handle: Handle,
    // The call: the definition's number and the arguments.
    task: SubRunTask,
    // Whether the token's side had other members when the job was listed. The first value of a pruning's side drops them, and the work done for them
    // is in vain.
    races: bool,
    // The result of its sub-run; Nothing until it was run, and once `take` has taken it.
    result: SubRunResult<P>,
}

impl<P: Run> SubRunJob<P> {
    /// A job that nobody has done: the call `task`, at which the token of `handle` stands. `races` says whether the token's side had other members.
    pub(crate) fn new(handle: Handle, task: SubRunTask, races: bool) -> SubRunJob<P> {
        SubRunJob {
            handle,
            task,
            races,
            result: SubRunResult::Nothing,
        }
    }

    /// The handle of the token that stands at the call, or stood there, if it is gone by now.
    pub fn handle(&self) -> Handle {
        self.handle
    }

    /// The result of its sub-run.
    pub fn result(&self) -> &SubRunResult<P> {
        &self.result
    }

    /// Whether the call races others, and to run those behind it may be in vain: its sub-run has yielded a value, or it has no result, so that nobody
    /// knows whether the call will yield one.
    pub fn has_won(&self) -> bool {
        self.races
            && match &self.result {
                SubRunResult::Over(part) => part.has_value(),
                // It was cut at its limit of entries, so no value came of it.
                SubRunResult::Long => false,
                // Nobody knows, so those behind the call may be in vain.
                SubRunResult::Nothing => true,
            }
    }

    /// Takes the result out of the job, and leaves `Nothing` there.
    pub fn take(&mut self) -> SubRunResult<P> {
        mem::replace(&mut self.result, SubRunResult::Nothing)
    }

    /// Runs the call apart, with at most `limit` entries (1 to `MOST_ENTRIES`), and keeps the result; `keeps` says whether the sub-run's
    /// journal is kept, as that of the run is.
    pub fn run(&mut self, alloc: Global, inputs: &Inputs<'_, P>, keeps: bool, limit: usize)
        requires keeps { keeps ≡ P.keeps }
        requires limit { (1 ≤ limit) × (limit ≤ MOST_ENTRIES) }
    {
        self.result = result_of(alloc, inputs, keeps, self.task.copied(), limit);
    }
}

// Makes the sub-run of a task: its program is the call alone, with the definitions of the run's program. It has at most `limit` entries, and `keeps`
// says whether its journal is kept. `Nothing` if it can't replace the call in the run, or memory is refused.
fn result_of<P: Run>(
    alloc: Global,
    inputs: &Inputs<'_, P>,
    keeps: bool,
    task: SubRunTask,
    limit: usize,
) -> SubRunResult<P>
    requires keeps { keeps ≡ P.keeps }
    requires limit { (1 ≤ limit) × (limit ≤ MOST_ENTRIES) }
{
    let Ok(own) = inputs
        .graph
        .for_call(alloc, task.definition, task.args.as_slice())
    else {
        return SubRunResult::Nothing;
    };
    // `Brand` is a name for the sub-run: the proof of this call says that its program is `own`.
    run_apart::<Brand, P>(alloc, &own, inputs.answers, keeps, task, limit)
}

// Makes the sub-run over its graph, and says what came of it, as `SubRunResult` does. The type Q names the sub-run, whose program is `graph`, and P
// the run to which it belongs. The clauses ask that both have the same sites and definitions, and keep their journals or don't, and that the program
// of the sub-run is the task's call.
fn run_apart<Q: Run, P: Run>(
    alloc: Global,
    graph: &Graph,
    answers: &Answers,
    keeps: bool,
    task: SubRunTask,
    limit: usize,
) -> SubRunResult<P>
    requires keeps { keeps ≡ P.keeps }
    requires limit { (1 ≤ limit) × (limit ≤ MOST_ENTRIES) }
    requires named { limit ≡ Q.limit }
    requires kept { Q.keeps ≡ P.keeps }
    requires graph { graph.now ≡ Q.listing }
    requires answers { answers.now.sites ≡ Q.sites }
    requires sites { Q.sites ≡ P.sites }
    requires definitions { definitions Q.listing ≡ definitions P.listing }
    requires call { source Q.listing ≡ call_of task.definition task.args }
{
    let Ok(ledger) = Ledger::<Q>::begin(alloc, keeps, limit, graph.root()) else {
        return SubRunResult::Nothing;
    };
    let mut scheduler = Scheduler::new(alloc, ledger, keeps);
    // What an outermost call publishes, the program publishes. The value of any other call goes to what encloses the call, so it is held back here.
    if !task.is_outermost {
        scheduler.holding.begin();
    }
    let inputs = Inputs::new(graph, answers);
    if run_until_cut(&mut scheduler, &inputs) {
        return SubRunResult::Long;
    }
    // The slot of the one token that may be left.
    let last = scheduler.holding.last();
    match scheduler
        .into_ledger()
        .into_sub_run::<P>(&inputs, task, last)
    {
        Some(part) => SubRunResult::Over(part),
        None => SubRunResult::Nothing,
    }
}

// Gives turns until no token is runnable, the sub-run stops, or it can't replace its call any more. True if its limit of entries has stopped it.
fn run_until_cut<Q: Run>(scheduler: &mut Scheduler<Q>, inputs: &Inputs<'_, Q>) -> bool {
    // Memory was refused. The sub-run's first token is left then, so that its ledger gives no result.
    if scheduler.begin().is_err() {
        return false;
    }
    loop {
        match scheduler.go_now(inputs) {
            // Each time round is nearer the end (`IsNearer`), so the loop ends.
            Ok(true) if !scheduler.holding.is_unusable() => {}
            Err(Stop::Refused(LedgerFault::Limit)) => return true,
            // No token is runnable, the sub-run can't replace its call, or something else stops it. Whether there is a result the ledger says.
            Ok(_) | Err(_) => return false,
        }
    }
}
