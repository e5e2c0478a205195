//! The trials of a way: its runs in many orders, and the verdicts on claims in them. A claim of a test is judged by what an observer sees of a run
//! from outside, its *happenings*. A `Told` is what is reported of a claim over many trials. A *case* is a part of a test; its *services* are sites
//! whose answers the test says, and a *way* is one script by which they may answer. An *order* is a number that decides what comes first in a run
//! where the rules leave it free.

ghost use Rattle.std.specs.Prelude.{◌≡◌, ◌≤◌, ◌<◌, ◌+◌, ◌^◌, ℕ, List, cond, IfOk, IfErr};
ghost use Rattle.orc_rules.specs.Nodes.{definitions, source};
ghost use Rattle.orc_rules.specs.Program.{IsProgram};
ghost use Rattle.orc_load.specs.Loading.{IsProgramOf};
ghost use Rattle.orc_site.specs.Script.{Says};
ghost use Rattle.orc_ways.specs.Values.{sites_of};
ghost use Rattle.orc_orders.specs.Trials.{claim_sites, is_running, state_at, IsMade, IsMadeAgain};
ghost use Rattle.orc_orders.specs.Trying.{IsNoted, IsToldOfWay};
ghost use Rattle.orc_orders.specs.TrialFaults.{IsFaultOfWay};

use crate::sites::claim_sites;
use orc_claims::claim::Claim;
use orc_claims::{Happenings, judge};
use orc_engine::{EngineFault, run_alone};
use orc_load::{LoadFault, Loaded, load};
use orc_outcome::{End, Played};
use orc_rules::entry::State;
use orc_tally::{ClaimSite, Told, happenings_of, noted, nothing_told};
use orc_ways::test::SiteName;
use std::alloc::{AllocError, Global};

/// What is tried in each way. A way is a script by which the services of a test's case may answer; a trial is the program's run with it in one order.
#[derive(Clone, Copy)]
pub struct Trials<'t, 'a> {
    /// The program, as it is written.
    pub source: &'t [u8],
    /// The sites that the claims name. In a claim a site's number is its place in this list, from 0.
    pub sites: &'t [SiteName<'a>],
    /// The claims of the test, which are judged in each run.
    pub claims: &'t [Claim],
    /// Each way is run in the orders from 0 up to this number, that one left out.
    pub orders: u64,
    /// The most entries of a run's journal, cancels not counted.
    pub limit: u64,
}

/// Why the trials of a way (the runs with its script) couldn't be made.
#[derive(Clone, Copy, Debug, PartialEq, Eq)]
pub enum TrialFault {
    /// With the way's script the source doesn't load.
    Load(LoadFault),
    /// A run wasn't brought to its end by the engine.
    Engine(EngineFault),
}

// Refused memory is the engine's fault Memory, wherever it was asked for.
impl From<AllocError> for TrialFault {
    ghost use Rattle.orc_scheduler.specs.declared.fault.EngineFault.TheVariants.{Memory};
    ghost use Rattle.orc_orders.specs.declared.trials.TrialFault.TheVariants.{Engine};

    ghost from_gives = { λ error f. f ≡ Engine Memory };

    // The allocator's error tells nothing more: memory was refused.
    fn from(_error: AllocError) -> TrialFault {
        TrialFault::Engine(EngineFault::Memory)
    }
}

/// A run, and what an observer sees of it, by which claims are judged.
pub struct Run {
    /// The run's result, with its journal.
    pub played: Played,
    /// What an observer sees of the run. Sites have the numbers by which claims name them.
    pub happenings: Happenings,
}

// Written out, so that a caller's proof sees one call and not the drop of each field.
impl Drop for Run {
    fn drop(self) {
        let Run {
            played: _,
            happenings: _,
        } = self;
    }
}

/// Where a run stands at its end: it has halted, it waits for ever (Quiet), or it still runs, since it was cut.
pub fn state_at(end: End) -> State
    ensures { result ≡ state_at end }
{
    match end {
        End::Halted => State::Halted,
        End::Quiet => State::Quiet,
        // The run was cut by a limit or by refused memory: it isn't known to have ended by itself.
        End::Limit | End::Full | End::Memory => State::Running,
    }
}

// 1 for a run that was cut (it still runs at its end), 0 for any other: what the run adds to the count of those that were cut.
fn cut_at(state: State) -> u64
    ensures value { result ≡ cond (is_running state) 1 0 }
    ensures most { result ≤ 1 }
{
    match state {
        State::Running => 1,
        _ => 0,
    }
}

/// The verdicts of a way's trials: of the runs with one script, in many orders.
#[derive(Drop)]
pub(crate) struct WayTold {
    /// The verdicts on each claim, in the order of the claims.
    pub(crate) told: Vec<Told>,
    /// How many of the way's runs were cut by a limit.
    pub(crate) cut: u64,
    /// How many entries the runs had in all, or the greatest number if they had more.
    pub(crate) entries: u64,
}

// A way (one script for the services of a case) whose program is loaded.
struct Way<'w, 'a> {
    alloc: Global,
    // What is tried: the program, the claims, the orders and the limit.
    trials: &'w Trials<'w, 'a>,
    // The program, and the table that answers its calls by the way's script.
    loaded: Loaded,
    // The sites that the claims name, by their numbers in the table of `loaded`.
    sites: Vec<ClaimSite>,
}

// Written out, so that a caller's proof sees one call and not the drop of each field.
impl Drop for Way<'_, '_> {
    fn drop(self) {
        let Way {
            alloc: _,
            trials: _,
            loaded: _,
            sites: _,
        } = self;
    }
}

impl<'w, 'a> Way<'w, 'a> {
    // Loads the program of `trials` with the script of a way, and finds the sites that the claims name. The fault is that of loading, or Memory. The
    // clauses say that the answer's table is the script's, and its program the source's.
    fn load(
        alloc: Global,
        trials: &'w Trials<'w, 'a>,
        script: &[u8],
    ) -> Result<Way<'w, 'a>, TrialFault>
        ensures says { IfOk result (λ w. Says script.now w.loaded.answers) }
        ensures spells { IfOk result (λ w. IsProgramOf trials.now.source.now w.loaded.answers w.loaded.program) }
        ensures sites { IfOk result (λ w. w.sites.items ≡ claim_sites w.loaded.answers (sites_of trials.now.sites.now)) }
        ensures trials { IfOk result (λ w. w.trials.now ≡ trials.now) }
        ensures fault { IfErr result (IsFaultOfWay trials.now.source.now script.now trials.now.limit) }
    {
        let loaded = match load(alloc, trials.source, script) {
            Ok(loaded) => loaded,
            Err(fault) => return Err(TrialFault::Load(fault)),
        };
        let sites = claim_sites(alloc, &loaded.answers, trials.sites)?;
        Ok(Way {
            alloc,
            trials,
            loaded,
            sites,
        })
    }

    // Makes the run of the way's program in the order with this number, from 0. A run that ended because memory was refused shows nothing of the
    // program, so it is a fault. Faults are the engine's and none is a LoadFault, so the clause on them holds for any source and script.
    fn run(&self, order: u64) -> Result<Run, TrialFault>
        requires program { IsProgram (definitions self.now.loaded.program) (source self.now.loaded.program) }
        ensures made { IfOk result (IsMade self.now.loaded.program self.now.loaded.answers self.now.sites.items self.now.trials.now.limit) }
        ensures fault { (source : List ℕ) (script : List ℕ) → IfErr result (IsFaultOfWay source script self.now.trials.now.limit) }
    {
        // `Some(order)`: the scheduler follows this order. `true`: the run keeps its journal, from which the happenings are read below.
        let played = match run_alone(
            self.alloc,
            &self.loaded.program,
            &self.loaded.answers,
            Some(order),
            true,
            self.trials.limit,
        ) {
            Ok(played) => played,
            Err(fault) => return Err(TrialFault::Engine(fault)),
        };
        // Not a fault of `run_alone`: it answers with a run that was cut.
        if played.summary.end == End::Memory {
            return Err(TrialFault::Engine(EngineFault::Memory));
        }
        let happenings = match &played.journal {
            Some(journal) => happenings_of(self.alloc, self.sites.as_slice(), journal)?,
            // The run was asked to keep its journal.
            None => unreachable!(),
        };
        Ok(Run { played, happenings })
    }

    // Makes the trial in this order, and gives `told`, the verdicts of the way with the number `way` in the orders before, with those of this run
    // added. `few` asks that the count of cut runs doesn't overflow. The fault is the engine's, or Memory.
    fn note(&self, way: u64, order: u64, told: &WayTold) -> Result<WayTold, TrialFault>
        requires program { IsProgram (definitions self.now.loaded.program) (source self.now.loaded.program) }
        requires few { told.now.cut + 1 < 2 ^ 64 }
        ensures noted { IfOk result (IsNoted self.now.loaded.program self.now.loaded.answers self.now.sites.items self.now.trials.now.claims.now self.now.trials.now.limit way order told.now) }
        ensures fault { (source : List ℕ) (script : List ℕ) → IfErr result (IsFaultOfWay source script self.now.trials.now.limit) }
    {
        let run = self.run(order)?;
        let summary = run.played.summary;
        let state = state_at(summary.end);
        let happenings = run.happenings.as_slice();
        // What the run says of each claim: `state` is how the run ended, and `summary.now` when.
        let judged = judge(
            self.alloc,
            self.trials.claims,
            happenings,
            state,
            summary.now,
        )?;
        Ok(WayTold {
            // The verdicts of the orders before, with this run's.
            told: noted(
                self.alloc,
                way,
                order,
                told.told.as_slice(),
                judged.as_slice(),
            )?,
            // By the clause *few* this doesn't overflow.
            cut: told.cut + cut_at(state),
            entries: told.entries.saturating_add(summary.entries),
        })
    }
}

/// Makes the trials of the way with this number, from 0, and this script: one run in each order, from order 0 on. Gives the verdicts. The fault is
/// that of loading the source with the script, or the first of a run.
#[tactic(auto, using(crate::proofs::Telling::no_order_yet, crate::proofs::Telling::one_trial_more, crate::proofs::Telling::few))]
pub(crate) fn try_way(
    alloc: Global,
    trials: &Trials<'_, '_>,
    way: u64,
    script: &[u8],
) -> Result<WayTold, TrialFault>
    ensures told { IfOk result (IsToldOfWay trials.now.source.now (sites_of trials.now.sites.now) trials.now.claims.now trials.now.orders trials.now.limit way script.now) }
    ensures fault { IfErr result (IsFaultOfWay trials.now.source.now script.now trials.now.limit) }
{
    // The program is loaded once for all orders of the way.
    let its = Way::load(alloc, trials, script)?;
    // No verdicts yet: no order was tried.
    let mut told = WayTold {
        told: nothing_told(alloc, trials.claims)?,
        cut: 0,
        entries: 0,
    };
    for order in 0..trials.orders {
        told = its.note(way, order, &told)?;
    }
    Ok(told)
}

/// Makes a trial again: the run of this order in the way of this script, with its journal.
///
/// The fault is that of loading the source with the script; or the engine's: Range if the limit is 0 or over `MOST_ENTRIES`, and Memory if memory was
/// refused.
pub fn try_again(
    alloc: Global,
    trials: &Trials<'_, '_>,
    script: &[u8],
    order: u64,
) -> Result<Run, TrialFault>
    ensures made { IfOk result (IsMadeAgain trials.now.source.now (sites_of trials.now.sites.now) trials.now.limit script.now) }
    ensures fault { IfErr result (IsFaultOfWay trials.now.source.now script.now trials.now.limit) }
{
    let its = Way::load(alloc, trials, script)?;
    its.run(order)
}
