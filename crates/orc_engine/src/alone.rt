//! One worker, which holds all tokens and waits for nobody. A token is a place of the program at which a run can go on. The *scheduler* has a run:
//! the *ledger*, with its records and its journal, the *run queue* of tokens whose turn comes, and the tokens that wait. The graph is the program in
//! packed nodes, `answers` is the table of what each site answers and when, and `Inputs` has both. A bind of a variable drops pending calls; each
//! gets an entry `cancel`.

ghost use Rattle.std.specs.Prelude.{◌≡◌, ◌≤◌, ◌↔◌, Err, is_some, IfOk, IfErr, IfSome, true, MatchOption};
ghost use Rattle.orc_rules.specs.declared.limits.TheConstants.{MOST_ENTRIES};
ghost use Rattle.orc_rules.specs.Nodes.{definitions, source};
ghost use Rattle.orc_rules.specs.Program.{IsProgram};
ghost use Rattle.orc_outcome.specs.Outcome.{IsPlayed};
ghost use Rattle.orc_scheduler.specs.Faults.{IsOwn};
ghost use Rattle.orc_engine.specs.Ranges.{IsInRange};
ghost use Rattle.orc_scheduler.specs.Stops.{Stops};

use orc_graph::Graph;
use orc_ledger::{Inputs, Ledger, Run};
use orc_outcome::Played;
use orc_rules::answers::Answers;
use orc_rules::limits::MOST_ENTRIES;
use orc_rules::program::Program;
use orc_scheduler::{EngineFault, Scheduler, Stop};
use std::alloc::Global;
use std::marker::Brand;

/// Runs a program: entries that the rules allow, one after another, until nothing can come next or the journal has `limit` of them, cancels not
/// counted. The cancels of a bind follow it at once. The result has the journal if `keeps`, and sometimes if not.
///
/// `order` says which of the orders that the rules leave free the run takes: each number draws one, and none is the scheduler's own. The same `order`
/// gives the same run every time.
///
/// The fault is Range exactly if the limit is 0 or over `MOST_ENTRIES`. It is Memory if memory was refused before the run began, or for its result.
/// No other fault comes if the scope check accepts the program.
pub fn run_alone(
    alloc: Global,
    program: &Program,
    answers: &Answers,
    order: Option<u64>,
    keeps: bool,
    limit: u64,
) -> Result<Played, EngineFault>
    ensures played { IfOk result (λ p. IsPlayed program.now answers.now limit p.summary p.published.items p.journal) }
    ensures kept { IfOk result (λ p. keeps ≡ true → is_some p.journal ≡ true) }
    ensures range { result ≡ Err EngineFault.Range ↔ (IsInRange 1 limit → ⊥) }
    ensures sound { IfErr result (λ fault. IsOwn fault → IsProgram (definitions program.now) (source program.now) → ⊥) }
{
    if limit < 1 || limit > MOST_ENTRIES {
        return Err(EngineFault::Range);
    }
    let Ok(graph) = Graph::build(alloc, program) else {
        // Memory was refused, or a number of the program takes more than 32 bits.
        return Err(EngineFault::Memory);
    };
    let limit = limit as usize;
    // A run that only counts its entries is faster. `Brand` names the run, whose program and sites are picked at this call.
    if !keeps {
        match run_graph::<Brand>(alloc, program, &graph, answers, order, false, limit) {
            Ok(Some(played)) => return Ok(played),
            // Only a journal can show how the run ended: it is made again below.
            Ok(None) => {}
            Err(fault) => return Err(fault),
        }
    }
    // The caller wants the journal, or only the journal can show how the run ended. The same order gives the same run again.
    match run_graph::<Brand>(alloc, program, &graph, answers, order, true, limit) {
        Ok(Some(played)) => Ok(played),
        // By the clause *kept* a run that keeps its journal is always told of.
        Ok(None) => unreachable!(),
        Err(fault) => Err(fault),
    }
}

// Runs a program whose graph is built, with a limit in range. None if the run keeps no journal, but only a journal can show how it ended. The fault
// is Memory if memory was refused before the run began, or for its result. No other fault comes if the scope check accepts the program. In contracts
// `P` stands for the run; the clauses ask that program, graph, sites, limit and `keeps` are those of `P`.
fn run_graph<P: Run>(
    alloc: Global,
    program: &Program,
    graph: &Graph,
    answers: &Answers,
    order: Option<u64>,
    keeps: bool,
    limit: usize,
) -> Result<Option<Played>, EngineFault>
    requires limit { (1 ≤ limit) × (limit ≤ MOST_ENTRIES) }
    requires named { limit ≡ P.limit }
    requires program { program.now ≡ P.listing }
    requires graph { graph.now ≡ P.listing }
    requires answers { answers.now.sites ≡ P.sites }
    requires keeps { keeps ≡ P.keeps }
    ensures played { IfOk result (λ played. IfSome played (λ p. IsPlayed program.now answers.now limit p.summary p.published.items p.journal)) }
    ensures kept { IfOk result (λ played. keeps ≡ true → MatchOption played ⊥ (λ p. is_some p.journal ≡ true)) }
    ensures range { IfErr result (λ fault. fault ≡ EngineFault.Range → ⊥) }
    ensures sound { IfErr result (λ fault. IsOwn fault → IsProgram (definitions program.now) (source program.now) → ⊥) }
{
    let Ok(ledger) = Ledger::<P>::begin(alloc, keeps, limit, graph.root()) else {
        return Err(EngineFault::Memory);
    };
    let mut scheduler = Scheduler::new(alloc, ledger, keeps);
    if let Some(number) = order {
        scheduler.follow(number);
    }
    let inputs = Inputs::new(graph, answers);
    let stop = play(&mut scheduler, &inputs);
    scheduler.finish(program, &inputs, stop)
}

// Gives the run one turn after another until it stops, and says why it stops. Each turn brings the run nearer its end: it makes an entry, closes a
// group, or takes a token out of the run queue. So the loop ends.
fn play<P: Run>(scheduler: &mut Scheduler<P>, inputs: &Inputs<'_, P>) -> Stop
    ensures stops { Stops P.listing scheduler.new.ledger result }
{
    // Puts the first token into the run queue.
    if let Err(stop) = scheduler.begin() {
        return stop;
    }
    loop {
        if let Err(stop) = scheduler.go(inputs) {
            return stop;
        }
    }
}
