//! From a source text to what came of its program in many orders, and to what may come of it in all schedules. An *outcome* is how a run ended and
//! what it published, and an *order* a number that decides whose turn comes in a run. The options say in how many orders the program is run, by how
//! many workers (threads), and how many entries a run's journal may have. In the contracts a clause *cause* says what a fault comes of, *fault* what
//! was written then, *sound* that the engine itself is never to blame, and *range* that a number is out of range only where the options have such a
//! one.
//!
//! A *state* of a search through all schedules is a term without numbers, with the calls that were made and what was published so far
//! (`orc_schedules`).

ghost use Rattle.std.specs.Prelude.{◌≡◌, ◌++◌, List, IfOk, IfErr, OnOk};
ghost use Rattle.orc_engine.specs.Ranges.{IsInRange};
ghost use Rattle.orc_load.specs.Loading.{IsProgramOf};
ghost use Rattle.orc_orders.specs.Lines.{lines};
ghost use Rattle.orc_orders.specs.Survey.{IsSurvey};
ghost use Rattle.orc_schedules.specs.declared.ended.Ended.{Ended as AnEnd};
ghost use Rattle.orc_site.specs.Script.{Says};
ghost use Rattle.orc_run.specs.Running.{IsFaultOf, IsOwnOf};
ghost use Rattle.orc_run.specs.Searched.{AreMore, HasSearched, LeavesUnsearched, found_of, last_line, line_of_all, says_all, unseen_lines};
ghost use Rattle.orc_run.specs.Surveyed.{HasSurveyed, IsUnwritten, LeavesUnsurveyed};

use crate::faults::RunFault;
use orc_cli::{SearchOptions, SurveyOptions};
use orc_engine::EngineFault;
use orc_load::{Loaded, load};
use orc_orders::{Seen, lines_of, place_of, survey, write_unseen};
use orc_output::{WriteFault, write_text};
use orc_schedules::{Ended, Schedules, search};
use std::alloc::{AllocError, Global};
use std::io::Write;
use std::thread::Threads;

// Loads the program that a source spells, with the built-in sites and those of a script, and runs it in all orders that the options ask for. The
// result is the program, and each outcome once, by the least of its orders' numbers. The fault is one of the texts, or of the engine, as
// `survey_text` has them; nothing is written here (`IsUnwritten`).
pub(crate) fn surveyed<R: Threads + Sync>(
    rt: &R,
    alloc: Global,
    source: &[u8],
    script: &[u8],
    options: &SurveyOptions,
) -> Result<(Loaded, Vec<Seen>), RunFault>
    ensures says { IfOk result (λ r. Says script.now r.0.answers) }
    ensures spells { IfOk result (λ r. IsProgramOf source.now r.0.answers r.0.program) }
    ensures survey { IfOk result (λ r. IsSurvey r.0.program r.0.answers options.now.limit options.now.orders r.1.items) }
    ensures unwritten { IfErr result IsUnwritten }
    ensures cause { IfErr result (IsFaultOf source.now script.now) }
    ensures range { IfErr result (λ f. f ≡ RunFault.Engine EngineFault.Range → IsInRange options.now.workers options.now.limit → ⊥) }
    ensures sound { IfErr result (λ f. IsOwnOf f → ⊥) }
{
    let loaded = load(alloc, source, script)?;
    match survey(
        rt,
        alloc,
        &loaded.program,
        &loaded.answers,
        options.workers as usize,
        options.orders,
        options.limit,
    ) {
        Ok(seen) => Ok((loaded, seen)),
        Err(fault) => Err(RunFault::Engine(fault)),
    }
}

/// Runs the program that a source spells in many orders, with the built-in sites and those of a script, and writes each outcome that came up, a line
/// each: `order 3 (43 of 100) Halted: 41` tells the first order that came to it, how many did, how they ended, and what they published.
///
/// The faults are those of a run: of the source's text, of the script and of the source's names, in this order; `Engine` where the number of workers
/// or the limit is out of range, or memory is refused in one of the runs; and `Write` where memory for the text is refused or the output isn't taken
/// whole. Nothing is written then, but at a fault of the output a prefix of the text.
#[tactic(auto, using(crate::proofs::Searching::unsurveyed_before))]
pub fn survey_text<R: Threads + Sync, W: Write>(
    rt: &R,
    alloc: Global,
    source: &[u8],
    script: &[u8],
    options: &SurveyOptions,
    out: &mut W,
) -> Result<(), RunFault>
    ensures surveyed { OnOk result (HasSurveyed source.now script.now options.now.orders options.now.limit (W.contents out.old) (W.contents out.new)) }
    ensures fault { IfErr result (LeavesUnsurveyed source.now script.now options.now.orders options.now.limit (W.contents out.old) (W.contents out.new)) }
    ensures cause { IfErr result (IsFaultOf source.now script.now) }
    ensures range { IfErr result (λ f. f ≡ RunFault.Engine EngineFault.Range → IsInRange options.now.workers options.now.limit → ⊥) }
    ensures sound { IfErr result (λ f. IsOwnOf f → ⊥) }
{
    let (_loaded, seen) = surveyed(rt, alloc, source, script, options)?;
    let Ok(text) = lines_of(alloc, options.orders, seen.as_slice()) else {
        return Err(RunFault::Write(WriteFault));
    };
    match write_text(out, text.as_slice()) {
        Ok(()) => Ok(()),
        Err(fault) => Err(RunFault::Write(fault)),
    }
}

/// The outcomes that a search found; none where it gave up, since it keeps none then.
pub(crate) fn found_of(found: &Schedules) -> &[Ended]
    ensures { result.now ≡ found_of found.now }
{
    match found {
        // The outcomes, and how many states there are.
        Schedules::All(ends, _) => ends.as_slice(),
        Schedules::TooMany | Schedules::TooLong => &[],
    }
}

// Whether a search found all outcomes. If not, it gave up.
fn says_all(found: &Schedules) -> bool
    ensures { result ≡ says_all found.now }
{
    match found {
        Schedules::All(..) => true,
        Schedules::TooMany | Schedules::TooLong => false,
    }
}

// Adds a line for each outcome that a search found (`found`) and that came up in none of the `orders` orders, whose outcomes are `seen`. The error is
// refused memory.
fn write_more(
    alloc: Global,
    text: &mut Vec<u8>,
    orders: u64,
    seen: &[Seen],
    found: &[Ended],
) -> Result<(), AllocError>
    ensures { OnOk result ((more : List AnEnd) × AreMore seen.now found.now more × (text.new.items ≡ text.old.items ++ unseen_lines orders more)) }
{
    for ended in found {
        let values = ended.values.as_slice();
        // No order came to this outcome.
        if place_of(seen, ended.end, values).is_none() {
            write_unseen(alloc, text, orders, ended.end, values)?;
        }
    }
    Ok(())
}

// The last line where a search found all outcomes, looking at so many states. A program may have none: each of its runs goes on for ever. The error
// is refused memory.
fn line_of_all(alloc: Global, found: &[Ended], states: usize) -> Result<Vec<u8>, AllocError>
    ensures { IfOk result (λ t. t.items ≡ line_of_all found.now states) }
{
    let line = if found.is_empty() {
        format!(in alloc; "all: no run ends by itself ({states} states)\n")?
    } else {
        format!(in alloc;
            "all: every run that ends by itself has one of these outcomes ({states} states)\n"
        )?
    };
    Ok(line.into_bytes())
}

// The last line: whether a search through `most` states at most found all outcomes, and where not, why. The error is refused memory.
fn last_line(alloc: Global, most: u64, found: &Schedules) -> Result<Vec<u8>, AllocError>
    ensures { IfOk result (λ t. t.items ≡ last_line most found.now) }
{
    match found {
        Schedules::All(ends, states) => line_of_all(alloc, ends.as_slice(), *states),
        Schedules::TooMany => {
            let line = format!(in alloc; "not all: there are over {most} states\n")?;
            Ok(line.into_bytes())
        }
        Schedules::TooLong => {
            let line = format!(in alloc; "not all: delays may add up to 2^64 or more\n")?;
            Ok(line.into_bytes())
        }
    }
}

// The whole text: what came up in so many orders (`seen`), the other outcomes that a search through `most` states at most found, and the last line.
// The error is refused memory.
fn text_of(
    alloc: Global,
    orders: u64,
    seen: &[Seen],
    most: u64,
    found: &Schedules,
) -> Result<Vec<u8>, AllocError>
    ensures { IfOk result (λ t. (more : List AnEnd) × AreMore seen.now (found_of found.now) more × (t.items ≡ lines orders seen.now ++ (unseen_lines orders more ++ last_line most found.now))) }
{
    let mut text = lines_of(alloc, orders, seen)?;
    write_more(alloc, &mut text, orders, seen, found_of(found))?;
    let last = last_line(alloc, most, found)?;
    text.extend_from_slice(last.as_slice())?;
    Ok(text)
}

/// Does what [`survey_text`] does, and searches all schedules of the program too, through as many states at most as the options say. Behind the
/// outcomes that came up it writes a line for each other one that the search found, `no order (0 of 100) Halted: 43`, and a last line. That says that
/// each run that ends by itself has one of these outcomes, be it halted or quiet; or why it isn't known: there are more states, as where a loop goes
/// on publishing, or delays within the limit of entries may add up to a time of over 64 bits. A run that its limit cut has a line if it came up in an
/// order; nothing is said of other such runs. Answers whether the search found all outcomes.
///
/// The faults are those of [`survey_text`]; `Engine` comes also where memory is refused to the search.
#[tactic(auto, using(crate::proofs::Searching::unsearched_before))]
pub fn search_text<R: Threads + Sync, W: Write>(
    rt: &R,
    alloc: Global,
    source: &[u8],
    script: &[u8],
    options: &SearchOptions,
    out: &mut W,
) -> Result<bool, RunFault>
    ensures searched { IfOk result (HasSearched source.now script.now options.now.survey.orders options.now.survey.limit options.now.states (W.contents out.old) (W.contents out.new)) }
    ensures fault { IfErr result (LeavesUnsearched source.now script.now options.now.survey.orders options.now.survey.limit options.now.states (W.contents out.old) (W.contents out.new)) }
    ensures cause { IfErr result (IsFaultOf source.now script.now) }
    ensures range { IfErr result (λ f. f ≡ RunFault.Engine EngineFault.Range → IsInRange options.now.survey.workers options.now.survey.limit → ⊥) }
    ensures sound { IfErr result (λ f. IsOwnOf f → ⊥) }
{
    let (loaded, seen) = surveyed(rt, alloc, source, script, &options.survey)?;
    let Ok(found) = search(
        alloc,
        &loaded.program,
        &loaded.answers,
        options.states as usize,
        options.survey.limit,
    ) else {
        return Err(RunFault::Engine(EngineFault::Memory));
    };
    let Ok(text) = text_of(
        alloc,
        options.survey.orders,
        seen.as_slice(),
        options.states,
        &found,
    ) else {
        return Err(RunFault::Write(WriteFault));
    };
    match write_text(out, text.as_slice()) {
        Ok(()) => Ok(says_all(&found)),
        Err(fault) => Err(RunFault::Write(fault)),
    }
}
