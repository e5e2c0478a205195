//! From a source text to the journal of a run that has one of the program's outcomes. An *outcome* is how a run ended and what it published, and an
//! *order* a number that decides whose turn comes. `seen` has the outcomes of the runs in many orders. `loaded` is the program with the table that
//! answers its calls, and `played` a run that has ended. A *state* of a search is a term with the calls that were made and what was published so far.
//! In the contracts a clause *cause* says what a fault comes of, *fault* what was written then (or, with `IsOther`, which faults come), *sound* that
//! the engine itself is never to blame, and *range* that a number is out of range only where the options have such a one.

ghost use Rattle.std.specs.Prelude.{◌≡◌, IfErr, IfOk, IfSome, OnOk, true};
ghost use Rattle.orc_engine.specs.Ranges.{IsInRange};
ghost use Rattle.orc_outcome.specs.Outcome.{IsPlayed};
ghost use Rattle.orc_rules.specs.Nodes.{definitions, source};
ghost use Rattle.orc_rules.specs.Program.{IsProgram};
ghost use Rattle.orc_rules.specs.Timed.{IsIn};
ghost use Rattle.orc_run.specs.Running.{IsOther, IsOwnOf};
ghost use Rattle.orc_run.specs.Searched.{IsUnseen};
ghost use Rattle.orc_run.specs.Shown.{HasShown, HasWritten, IsOwnUnshown, IsUnshownBy, IsUnshownFor, IsUnwrittenBy, LeavesUnseen, LeavesUnshown, LeavesUnwritten, WritesUnseen};

use crate::faults::RunFault;
use crate::outcomes::{found_of, surveyed};
use orc_cli::ShowOptions;
use orc_engine::{EngineFault, run_alone};
use orc_load::Loaded;
use orc_orders::{Seen, are_same, place_of};
use orc_outcome::{End, PlayFault, Played};
use orc_output::write_journal;
use orc_reference::{Happened, Wanted, find};
use orc_rules::value::Value;
use orc_schedules::{Ended, search};
use std::alloc::Global;
use std::io::Write;
use std::thread::Threads;

/// How many positions a search for one run (`orc_reference`) may look at for each state that a search through all schedules (`orc_schedules`) may.
/// Positions tell apart more than states do, so there are more of them. How many more isn't known; the number bounds the search.
pub(crate) const PLACES_A_STATE: usize = 16;

/// Memory for a search was refused: status 5.
const NO_MEMORY: Unshown = Unshown::Fault(RunFault::Engine(EngineFault::Memory));

/// Why no outcome is shown.
#[derive(Clone, Copy, Debug, PartialEq, Eq)]
pub enum Unshown {
    /// A text is at fault, no run could be made, or the output wasn't taken whole.
    Fault(RunFault),
    /// Fewer outcomes are known than this number, which counts from 1: a search that gave up gives none.
    NoOutcome(u64),
    /// There is an outcome with this number, but no run was found that has it.
    NoRun(u64),
}

// How a run is to end, and what it is to publish, in order.
#[derive(Clone, Copy)]
struct Outcome<'o> {
    end: End,
    values: &'o [Value],
}

// A search for a run asks these three functions. `seen` counts the values that the run has published so far, each as wanted. The search gives up a
// run where `after` gives None.
impl Wanted for Outcome<'_> {
    // An outcome says nothing of times, so they are all one time to the search.
    fn time(&self, _now: u64) -> u64 {
        0
    }

    // How many values were published as wanted, once this happened. A value that isn't the next wanted one must not come. Calls and answers count for
    // nothing: an outcome has none.
    fn after(&self, seen: usize, _time: u64, happened: Happened<'_>) -> Option<usize> {
        let Happened::Published(value) = happened else {
            return Some(seen);
        };
        match self.values.get(seen) {
            Some(next) if *next == value => Some(seen.saturating_add(1)),
            _ => None,
        }
    }

    // Whether the run that ends so has the outcome: all values were published, and it ends as is wanted.
    fn is_met(&self, seen: usize, _time: u64, end: End) -> bool {
        seen == self.values.len() && end == self.end
    }
}

// Whether a run has this outcome: it ended so, and published these values in this order.
fn has(played: &Played, outcome: Outcome<'_>) -> bool
    ensures end { result ≡ true → played.now.summary.end ≡ outcome.entry.end }
    ensures values { result ≡ true → played.now.published.items ≡ outcome.entry.values.now }
{
    played.summary.end == outcome.end && are_same(played.published.as_slice(), outcome.values)
}

// The outcome at this place, from 0, among those that a search found and no order came to. None if there are fewer.
fn unseen_at<'f>(seen: &[Seen], found: &'f [Ended], place: usize) -> Option<&'f Ended>
    ensures found { IfSome result (λ e. IsIn e.now found.now) }
    ensures unseen { IfSome result (λ e. IsUnseen seen.now e.now) }
{
    // How many of these outcomes still come before the one that is looked for.
    let mut left = place;
    for ended in found {
        if place_of(seen, ended.end, ended.values.as_slice()).is_none() {
            if left == 0 {
                return Some(ended);
            }
            left -= 1;
        }
    }
    None
}

// A run that has an outcome, looked for through so many positions at most (`places`); None if none is found. No limit of entries holds: an outcome of
// the search may need more of them than the command's limit. The error is refused memory.
fn found_run(
    alloc: Global,
    loaded: &Loaded,
    outcome: &Outcome<'_>,
    places: usize,
) -> Result<Option<Played>, EngineFault>
    ensures played { IfOk result (λ found. IfSome found (λ p. IsPlayed loaded.now.program loaded.now.answers 18446744073709551615 p.summary p.published.items p.journal)) }
    ensures memory { IfErr result (λ f. f ≡ EngineFault.Memory) }
{
    match find(
        alloc,
        &loaded.program,
        &loaded.answers,
        outcome,
        places,
        u64::MAX,
    ) {
        Ok(found) => Ok(found),
        Err(PlayFault::Memory) => Err(EngineFault::Memory),
        // Not expected: the rules refuse the run that was found, so there is no run to show.
        Err(PlayFault::Broken) => Ok(None),
    }
}

// Writes the journal of a run, if it has this outcome, whose number is `number`, from 1; if not, the fault is `NoRun`. This function compares run and
// outcome, since the search that finds a run doesn't promise the run's outcome. The other fault is one of the output; a prefix was written then.
fn write_shown<W: Write>(
    alloc: Global,
    loaded: &Loaded,
    played: &Played,
    outcome: Outcome<'_>,
    number: u64,
    out: &mut W,
) -> Result<(), Unshown>
    ensures ok { OnOk result (HasWritten loaded.now.program loaded.now.answers played.now outcome.entry.end outcome.entry.values.now (W.contents out.old) (W.contents out.new)) }
    ensures err { IfErr result (LeavesUnwritten loaded.now.program loaded.now.answers played.now outcome.entry.end outcome.entry.values.now (W.contents out.old) (W.contents out.new)) }
    ensures cause { IfErr result (IsUnwrittenBy number) }
{
    if !has(played, outcome) {
        return Err(Unshown::NoRun(number));
    }
    // Not reached: each caller's run keeps its journal.
    let Some(journal) = &played.journal else {
        return Err(Unshown::NoRun(number));
    };
    match write_journal(alloc, journal, &loaded.answers, out) {
        Ok(()) => Ok(()),
        Err(fault) => Err(Unshown::Fault(RunFault::Write(fault))),
    }
}

// Makes the run in the order with this number, from 0, again, and keeps its journal (`true`). The fault is the engine's (`IsOther`: neither a text
// nor the output is at fault), also where memory is refused once the run has begun.
fn run_in_order(alloc: Global, loaded: &Loaded, order: u64, limit: u64) -> Result<Played, RunFault>
    ensures played { IfOk result (λ p. IsPlayed loaded.now.program loaded.now.answers limit p.summary p.published.items p.journal) }
    ensures fault { IfErr result IsOther }
    ensures range { IfErr result (λ f. f ≡ RunFault.Engine EngineFault.Range → IsInRange 1 limit → ⊥) }
    ensures sound { IfErr result (λ f. IsOwnOf f → IsProgram (definitions loaded.now.program) (source loaded.now.program) → ⊥) }
{
    let run = run_alone(
        alloc,
        &loaded.program,
        &loaded.answers,
        Some(order),
        true,
        limit,
    );
    let played = match run {
        Ok(played) => played,
        Err(fault) => return Err(RunFault::Engine(fault)),
    };
    // Memory was refused once the run had begun, so it isn't the whole run of this order.
    if played.summary.end == End::Memory {
        return Err(RunFault::Engine(EngineFault::Memory));
    }
    Ok(played)
}

// Writes the journal of a run that has an outcome to which no order came. `number` is the outcome's, from 1, and `seen` has the outcomes of the
// orders. Those that only the search finds have the numbers that follow, in the order in which a search through so many states at most finds them. It
// finds those of all runs of at most `limit` entries, and may find others. The fault is that none is known with this number, as where the search gave
// up, that no run was found that has it, refused memory, or one of the output.
fn show_unseen<W: Write>(
    alloc: Global,
    loaded: &Loaded,
    seen: &[Seen],
    states: usize,
    limit: u64,
    number: u64,
    out: &mut W,
) -> Result<(), Unshown>
    ensures ok { OnOk result (WritesUnseen loaded.now.program loaded.now.answers seen.now (W.contents out.old) (W.contents out.new)) }
    ensures err { IfErr result (LeavesUnseen loaded.now.program loaded.now.answers seen.now (W.contents out.old) (W.contents out.new)) }
    ensures cause { IfErr result (IsUnshownBy loaded.now.program loaded.now.answers seen.now number) }
{
    // Counted from 0, behind the outcomes of the orders; the number counts from 1.
    let place = (number as usize)
        .saturating_sub(seen.len())
        .saturating_sub(1);
    let Ok(found) = search(alloc, &loaded.program, &loaded.answers, states, limit) else {
        return Err(NO_MEMORY);
    };
    // `found_of` gives no outcomes if the search gave up.
    let Some(ended) = unseen_at(seen, found_of(&found), place) else {
        return Err(Unshown::NoOutcome(number));
    };
    let outcome = Outcome {
        end: ended.end,
        values: ended.values.as_slice(),
    };
    let places = states.saturating_mul(PLACES_A_STATE);
    match found_run(alloc, loaded, &outcome, places) {
        Ok(Some(played)) => write_shown(alloc, loaded, &played, outcome, number, out),
        Ok(None) => Err(Unshown::NoRun(number)),
        Err(fault) => Err(Unshown::Fault(RunFault::Engine(fault))),
    }
}

/// Writes the journal of a run of the program that a source spells, with the built-in sites and those of a script, that has the outcome with this
/// number, from 1: of those that [`survey_text`](crate::survey_text) writes, and where the options say how many states are searched, of those that
/// [`search_text`](crate::search_text) writes behind them.
///
/// The faults are those of `survey_text`, and `Engine` comes also where memory is refused to a search. Without a fault there may be no outcome with
/// this number (`NoOutcome`), or there is one and no run is found that has it (`NoRun`). Nothing is written then, but at a fault of the output a
/// prefix of the journal's text.
pub fn show_text<R: Threads + Sync, W: Write>(
    rt: &R,
    alloc: Global,
    source: &[u8],
    script: &[u8],
    options: &ShowOptions,
    out: &mut W,
) -> Result<(), Unshown>
    ensures shown { OnOk result (HasShown source.now script.now options.now.survey.orders options.now.survey.limit options.now.number (W.contents out.old) (W.contents out.new)) }
    ensures fault { IfErr result (LeavesUnshown source.now script.now options.now.survey.orders options.now.survey.limit options.now.number (W.contents out.old) (W.contents out.new)) }
    ensures cause { IfErr result (IsUnshownFor source.now script.now options.now.survey.orders options.now.survey.limit options.now.number) }
    ensures range { IfErr result (λ u. u ≡ Unshown.Fault (RunFault.Engine EngineFault.Range) → IsInRange options.now.survey.workers options.now.survey.limit → ⊥) }
    ensures sound { IfErr result (λ u. IsOwnUnshown u → ⊥) }
{
    let (loaded, seen) = surveyed(rt, alloc, source, script, &options.survey)?;
    let seen = seen.as_slice();
    // The number counts from 1, the list from 0. An outcome that came up in some orders is shown by the run in the first of these.
    if let Some(one) = seen.get((options.number as usize).saturating_sub(1)) {
        let played = run_in_order(alloc, &loaded, one.first, options.survey.limit)?;
        let outcome = Outcome {
            end: one.end,
            values: one.values.as_slice(),
        };
        return write_shown(alloc, &loaded, &played, outcome, options.number, out);
    }
    match options.states {
        // No search is asked for, so there are no outcomes but those of the orders.
        None => Err(Unshown::NoOutcome(options.number)),
        Some(states) => show_unseen(
            alloc,
            &loaded,
            seen,
            states as usize,
            options.survey.limit,
            options.number,
            out,
        ),
    }
}

impl From<RunFault> for Unshown {
    ghost use Rattle.orc_run.specs.declared.shown.Unshown.TheVariants.{Fault};

    ghost from_gives = { λ fault u. u ≡ Fault fault };

    // A fault of the texts or of the orders' runs, which `?` hands on.
    fn from(fault: RunFault) -> Unshown {
        Unshown::Fault(fault)
    }
}
