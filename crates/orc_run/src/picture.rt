//! From a journal's text to its picture. A `Judged` is a journal that a check accepted, and an `Ast` the tree of a source.

ghost use Rattle.std.specs.Prelude.{◌≡◌, IfOk, IfErr, OnOk, List, ℕ};
ghost use Rattle.orc_outcome.specs.declared.end.Summary.{Summary};
ghost use Rattle.orc_run.specs.Checked.{IsOfRun};
ghost use Rattle.orc_run.specs.Drawn.{Draws, DrawsRun, IsBeyondDrawing, IsOwnUndrawn, IsRangeOf, IsRunUndrawnFor, IsUndrawable, IsUndrawnFor, IsUnrunFor, LeavesUndrawn, LeavesUndrawnRun, with_journal};
ghost use Rattle.orc_run.specs.Running.{Runs};

use crate::faults::RunFault;
use crate::judge::{Judged, judge};
use crate::runner::run_source;
use orc_cli::{DrawRunOptions, RunOptions, Wanted};
use orc_draw::{DrawFault, Options, Subject, draw};
use orc_engine::EngineFault;
use orc_outcome::End;
use orc_output::{WriteFault, write_text};
use orc_syntax::{Ast, parse};
use std::alloc::Global;
use std::io::Write;
use std::sync::Wait;
use std::thread::Threads;

/// Why no picture was written.
#[derive(Clone, Copy, Debug, PartialEq, Eq)]
pub enum Undrawn {
    /// The source, the script or the journal is at fault, or the output.
    Fault(RunFault),
    /// The picture would have too many rows.
    Rows,
}

// The picture of a journal that was checked, with `name` as its title. Refused memory is a fault of the output, as it is of each text that was to be
// written.
fn picture_of<'a>(
    alloc: Global,
    name: &'a str,
    source: &'a [u8],
    ast: Ast<'a>,
    judged: Judged,
    options: Options,
) -> Result<String, Undrawn>
    ensures { IfErr result IsUndrawable }
{
    // The table of sites, the journal, and where the run stands at the journal's end. A picture doesn't need the time.
    let Judged {
        answers,
        journal,
        state,
        time: _,
    } = judged;
    let subject = Subject {
        name,
        source,
        ast,
        answers,
        journal,
        state,
    };
    draw(alloc, &subject, options).map_err(|fault| match fault {
        DrawFault::Rows => Undrawn::Rows,
        DrawFault::Memory => Undrawn::Fault(RunFault::Write(WriteFault)),
    })
}

/// Draws a journal's text, which is first checked against the program that a source spells, with the built-in sites and those of a script, and writes
/// the picture, whose title is `name`.
///
/// A fault is answered where `check_text` answers it, and the same one; where memory for the picture is refused or the output isn't taken whole; and
/// where the picture would have over `MOST_ROWS` rows. Nothing is written then, but at a fault of the output a prefix of a picture.
pub fn draw_text<W: Write>(
    alloc: Global,
    name: &str,
    source: &[u8],
    script: &[u8],
    journal: &[u8],
    options: Options,
    out: &mut W,
) -> Result<(), Undrawn>
    ensures drawn { OnOk result (Draws source.now script.now journal.now (W.contents out.old) (W.contents out.new)) }
    ensures undrawn { IfErr result (LeavesUndrawn source.now script.now journal.now (W.contents out.old) (W.contents out.new)) }
    ensures cause { IfErr result (IsUndrawnFor source.now script.now journal.now) }
    // What a run of this source and script wrote as its journal is drawn, unless it is beyond a limit or the picture would have too many rows.
    ensures beyond { (s : Summary) → IsOfRun source.now script.now journal.now s → IfErr result IsBeyondDrawing }
{
    let judged = match judge(alloc, source, script, journal) {
        Ok(judged) => judged,
        Err(fault) => return Err(Undrawn::Fault(fault)),
    };
    // The check parsed the source too, but kept no tree. So the fault here is refused memory.
    let ast = match parse(alloc, source) {
        Ok(ast) => ast,
        Err(fault) => return Err(Undrawn::Fault(RunFault::Syntax(fault))),
    };
    let picture = picture_of(alloc, name, source, ast, judged, options)?;
    match write_text(out, picture.as_str().as_bytes()) {
        Ok(()) => Ok(()),
        Err(fault) => Err(Undrawn::Fault(RunFault::Write(fault))),
    }
}

// The options of a run, with its journal as what is wanted of it, whatever was wanted before.
fn with_journal(options: &RunOptions) -> RunOptions
    ensures { result ≡ with_journal options.now }
{
    RunOptions {
        workers: options.workers,
        order: options.order,
        limit: options.limit,
        wanted: Wanted::Journal,
    }
}

// The text of the journal of a run with these options. A run for which memory was refused once it had begun is a fault here, so that no part of a run
// is drawn as the whole; so is refused memory for the text. By `IsUnrunFor` the fault is one that the source or the script has, one of the engine, or
// refused memory for the text; by `range` a number is out of range only where the options have such a one. The engine itself is never to blame
// (`sound`).
fn journal_of<R: Threads + Wait + Sync>(
    rt: &R,
    alloc: Global,
    source: &[u8],
    script: &[u8],
    run: &RunOptions,
) -> Result<Vec<u8>, Undrawn>
    ensures ran { IfOk result (λ text. (s : Summary) × Runs source.now script.now (with_journal run.now) s text.items) }
    ensures cause { IfErr result (IsUnrunFor source.now script.now) }
    ensures range { IfErr result (IsRangeOf run.now) }
    ensures sound { IfErr result (λ u. IsOwnUndrawn u → ⊥) }
{
    let mut text = Vec::new(alloc);
    // `false`: no explanation asks for the journal. It is kept since it is what is wanted of the run.
    match run_source(
        rt,
        alloc,
        source,
        script,
        &with_journal(run),
        false,
        &mut text,
    ) {
        // The program isn't needed here.
        Ok((_loaded, played)) => {
            if played.summary.end == End::Memory {
                return Err(Undrawn::Fault(RunFault::Engine(EngineFault::Memory)));
            }
            Ok(text)
        }
        Err(fault) => Err(Undrawn::Fault(fault)),
    }
}

/// Runs the program that a source spells as [`run_text`](crate::run_text) does, and draws the run's journal as [`draw_text`] does.
///
/// A fault is answered where either of them answers it, and the same one; and `Engine` where memory was refused in the run. Nothing is written
/// then, but at a fault of the output a prefix of a picture.
#[tactic(auto, using(crate::proofs::Drawing::undrawn_after, crate::proofs::Drawing::undrawn_still, crate::proofs::Sound::journal_sound))]
pub fn draw_run<R: Threads + Wait + Sync, W: Write>(
    rt: &R,
    alloc: Global,
    name: &str,
    source: &[u8],
    script: &[u8],
    options: &DrawRunOptions,
    out: &mut W,
) -> Result<(), Undrawn>
    ensures drawn { OnOk result (DrawsRun source.now script.now options.now.run (W.contents out.old) (W.contents out.new)) }
    ensures undrawn { IfErr result (LeavesUndrawnRun (W.contents out.old) (W.contents out.new)) }
    ensures cause { IfErr result (IsRunUndrawnFor source.now script.now options.now.run) }
    ensures range { IfErr result (IsRangeOf options.now.run) }
    ensures sound { IfErr result (λ u. IsOwnUndrawn u → ⊥) }
{
    let journal = match journal_of(rt, alloc, source, script, &options.run) {
        Ok(journal) => journal,
        Err(undrawn) => return Err(undrawn),
    };
    match draw_text(
        alloc,
        name,
        source,
        script,
        journal.as_slice(),
        options.drawing,
        out,
    ) {
        Ok(()) => Ok(()),
        Err(undrawn) => Err(undrawn),
    }
}
