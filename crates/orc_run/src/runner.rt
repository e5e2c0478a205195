//! From a source text to what its run published. `loaded` is the program with the table that answers its calls. The options say in which *order*
//! turns come, and what is wanted of the run: its values, its values with their times, or its journal. In the contracts a clause *cause* says what a
//! fault comes of, *fault* what was written then (or, with `IsOther`, which faults come), *sound* that the engine itself is never to blame, and
//! *range* that a number is out of range only where the options have such a one.

ghost use Rattle.std.specs.Prelude.{◌≡◌, ◌↔◌, List, true, is_some, Err, IfOk, IfErr, OnOk, OnErr};
ghost use Rattle.std.specs.Io.KnownBytes.{Appends};
ghost use Rattle.orc_rules.specs.declared.entry.Entry.{Entry};
ghost use Rattle.orc_journal.specs.declared.journal.Version.TheVariants.{Two};
ghost use Rattle.orc_journal_text.specs.Texts.{AreOf};
ghost use Rattle.orc_rules.specs.Nodes.{definitions, source};
ghost use Rattle.orc_rules.specs.Program.{IsProgram};
ghost use Rattle.orc_outcome.specs.Outcome.{IsPlayed};
ghost use Rattle.orc_scheduler.specs.Faults.{IsOwn};
ghost use Rattle.orc_engine.specs.Ranges.{IsInRange};
ghost use Rattle.orc_output.specs.Output.{AppendsPrefix};
ghost use Rattle.orc_run.specs.Running.{Ran, LeavesAtFault, IsFaultOf, IsOther, IsOwnOf, Shows, written};
ghost use Rattle.orc_cli.specs.Wanted.{keeps_journal};
ghost use Rattle.orc_cli.specs.declared.job.Wanted.TheVariants as what;

use crate::faults::RunFault;
use crate::times::write_times;
use crate::unordered::run_unordered;
use orc_cli::{Order, RunOptions, Wanted};
// The engine that runs programs. Another one with the same contract takes its place here.
use orc_engine::{EngineFault, run_alone, run_parallel};
use orc_load::{Loaded, load};
use orc_outcome::{Played, Summary};
use orc_output::{WriteFault, write_journal, write_values};
use orc_rules::answers::Answers;
use std::alloc::Global;
use std::io::Write;
use std::sync::Wait;
use std::thread::Threads;

// Runs a program, in the order and on so many workers as the options say. The journal is kept where what is wanted of the run asks for it, or where
// `keeps` does. An order's number is for one worker; the command line asks for no other. The fault is as `run_text` says.
fn play<R: Threads + Wait + Sync>(
    rt: &R,
    alloc: Global,
    loaded: &Loaded,
    options: &RunOptions,
    keeps: bool,
) -> Result<Played, EngineFault>
    ensures ran { IfOk result (λ p. IsPlayed loaded.now.program loaded.now.answers options.now.limit p.summary p.published.items p.journal) }
    ensures kept { IfOk result (λ p. keeps_journal options.now.wanted ≡ true → is_some p.journal ≡ true) }
    ensures range { result ≡ Err EngineFault.Range ↔ (IsInRange options.now.workers options.now.limit → ⊥) }
    ensures sound { IfErr result (λ fault. IsOwn fault → IsProgram (definitions loaded.now.program) (source loaded.now.program) → ⊥) }
{
    let keeps = if options.wanted.keeps_journal() {
        true
    } else {
        keeps
    };
    let (program, answers, limit) = (&loaded.program, &loaded.answers, options.limit);
    let workers = options.workers as usize;
    // The number of the order, and None for the fixed one. A run without an order is made by `run_unordered`, whose workers share its tokens, the
    // places at which it can go on.
    let number = match options.order {
        Order::Unordered => {
            return run_unordered(rt, alloc, program, answers, workers, keeps, limit);
        }
        Order::Numbered(number) => Some(number),
        Order::Fixed => None,
    };
    // One worker takes the numbered order or its own. Several run calls of definitions apart, and take an order that is the same for any number of
    // them.
    if options.workers == 1 {
        return run_alone(alloc, program, answers, number, keeps, limit);
    }
    run_parallel(rt, alloc, program, answers, workers, keeps, limit)
}

// Runs a program with these options. The journal is kept where what is wanted of the run asks for it, or where `keeps` does. The fault is the
// engine's (`IsOther`: neither a text nor the output is at fault).
fn run_program<R: Threads + Wait + Sync>(
    rt: &R,
    alloc: Global,
    loaded: &Loaded,
    options: &RunOptions,
    keeps: bool,
) -> Result<Played, RunFault>
    ensures ran { IfOk result (λ p. IsPlayed loaded.now.program loaded.now.answers options.now.limit p.summary p.published.items p.journal) }
    ensures kept { IfOk result (λ p. keeps_journal options.now.wanted ≡ true → is_some p.journal ≡ true) }
    ensures fault { IfErr result IsOther }
    ensures range { IfErr result (λ f. f ≡ RunFault.Engine EngineFault.Range → IsInRange options.now.workers options.now.limit → ⊥) }
    ensures sound { IfErr result (λ f. IsOwnOf f → IsProgram (definitions loaded.now.program) (source loaded.now.program) → ⊥) }
{
    play(rt, alloc, loaded, options, keeps).map_err(RunFault::Engine)
}

/// Writes what is wanted of a run: its values, its values with their times, or its journal. If the run kept no journal, it writes the values,
/// whatever is wanted. The error is refused memory for the text, or the output's; a prefix was written then. In the clauses `es` are the entries of
/// the run.
pub(crate) fn write_run<W: Write>(
    alloc: Global,
    answers: &Answers,
    played: &Played,
    wanted: Wanted,
    out: &mut W,
) -> Result<(), WriteFault>
    ensures ok { OnOk result ((es : List Entry) → Shows wanted played.now.published.items played.now.journal es → Appends (W.contents out.old) (W.contents out.new) (written wanted answers.now.names es)) }
    ensures fits { OnOk result ((es : List Entry) → Shows wanted played.now.published.items played.now.journal es → wanted ≡ what.Journal → AreOf answers.now.names Two es) }
    ensures err { OnErr result ((es : List Entry) → Shows wanted played.now.published.items played.now.journal es → AppendsPrefix (W.contents out.old) (W.contents out.new) (written wanted answers.now.names es)) }
{
    let Some(journal) = &played.journal else {
        return write_values(alloc, played.published.as_slice(), out);
    };
    match wanted {
        Wanted::Values => write_values(alloc, played.published.as_slice(), out),
        Wanted::Times => write_times(alloc, journal, out),
        Wanted::Journal => write_journal(alloc, journal, answers, out),
    }
}

/// Runs the program of a source and writes what is wanted of the run, as [`run_text`] does with the same faults; answers the program with its run,
/// whose journal is kept where `keeps`.
pub(crate) fn run_source<R: Threads + Wait + Sync, W: Write>(
    rt: &R,
    alloc: Global,
    source: &[u8],
    script: &[u8],
    options: &RunOptions,
    keeps: bool,
    out: &mut W,
) -> Result<(Loaded, Played), RunFault>
    ensures ran { IfOk result (λ r. Ran source.now script.now options.now (W.contents out.old) (W.contents out.new) r.1.summary) }
    ensures fault { IfErr result (LeavesAtFault source.now script.now options.now (W.contents out.old) (W.contents out.new)) }
    ensures cause { IfErr result (IsFaultOf source.now script.now) }
    ensures range { IfErr result (λ f. f ≡ RunFault.Engine EngineFault.Range → IsInRange options.now.workers options.now.limit → ⊥) }
    ensures sound { IfErr result (λ f. IsOwnOf f → ⊥) }
{
    let loaded = load(alloc, source, script)?;
    let played = run_program(rt, alloc, &loaded, options, keeps)?;
    match write_run(alloc, &loaded.answers, &played, options.wanted, out) {
        Ok(()) => Ok((loaded, played)),
        Err(fault) => Err(RunFault::Write(fault)),
    }
}

/// Runs the program that a source spells, with the built-in sites and those of a script, and writes what is wanted of the run once it has ended,
/// whichever way it ends: what it published, a line each, with the time of each or without it, or its journal.
///
/// A fault is answered where the source's text, the script or the source's names are at fault, in this order; then
/// `Engine` where the engine brings the run to no end (the number of workers or the limit is out of range, or memory is refused before the run begins
/// or for what it published; no other fault of the engine comes); and `Write` where memory for the text is refused or the output isn't taken whole.
/// Nothing is written then, but at `Write` a prefix of the text. A run for which memory is refused once it has begun ends so, and what it has
/// published is written.
pub fn run_text<R: Threads + Wait + Sync, W: Write>(
    rt: &R,
    alloc: Global,
    source: &[u8],
    script: &[u8],
    options: &RunOptions,
    out: &mut W,
) -> Result<Summary, RunFault>
    ensures ran { IfOk result (Ran source.now script.now options.now (W.contents out.old) (W.contents out.new)) }
    ensures fault { IfErr result (LeavesAtFault source.now script.now options.now (W.contents out.old) (W.contents out.new)) }
    ensures cause { IfErr result (IsFaultOf source.now script.now) }
    ensures range { IfErr result (λ f. f ≡ RunFault.Engine EngineFault.Range → IsInRange options.now.workers options.now.limit → ⊥) }
    ensures sound { IfErr result (λ f. IsOwnOf f → ⊥) }
{
    // `false`: nobody asks for the journal besides the options.
    match run_source(rt, alloc, source, script, options, false, out) {
        Ok((_loaded, played)) => Ok(played.summary),
        Err(fault) => Err(fault),
    }
}
