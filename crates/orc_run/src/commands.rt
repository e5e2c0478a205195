//! What a command line does, over the files and the streams that it is given.
//!
//! Each job has a function here that answers the process's status, or the [`Failure`] that `perform` reports. It hands a fault of a text or of a run
//! to `explained` itself, since a `Failure` doesn't keep the bytes of the files. After a failure nothing was written, but where the output failed a
//! prefix. `program` has the paths of the source and of the script, `files` reads files, and `rt` starts threads. `out` is standard output.
//! `explained` keeps the explanation, where one is asked for. An *outcome* is how a run ended and what it published, an *order* a number that decides
//! whose turn comes in a run, and a *schedule* any sequence of moves that the rules allow. In the contracts *done* says what was written and which
//! status comes, *undone* what was written after a failure, *cause* what the failure comes of, and *sound* that its status is 7 only where numbers
//! are out of range.
//!
//! What standard error doesn't take changes no status, so the results of writing to it are dropped (`let _`).

ghost use Rattle.std.specs.Prelude.{◌≡◌, ◌≢◌, ◌<◌, ◌⊎◌, ℕ, List, IfOk, IfErr, cond, nat_eq, option_map};
ghost use Rattle.std.specs.Io.KnownBytes.{Keeps};
ghost use Rattle.orc_outcome.specs.declared.end.End.TheVariants as ends;
ghost use Rattle.orc_outcome.specs.declared.end.Summary.{Summary};
ghost use Rattle.orc_run.specs.Checked.{Accepts};
ghost use Rattle.orc_cli.specs.Ranges.{AreInRange};
ghost use Rattle.orc_engine.specs.Ranges.{IsInRange};
ghost use Rattle.orc_run.specs.Failures.{failure_status, is_asked};
ghost use Rattle.orc_run.specs.Inputs.{IsHeld, IsRead};
ghost use Rattle.orc_run.specs.Causes.{ComesTo, HasCause, IsAcceptedOr, IsCheckUndone, IsClaimUndone, IsDrawRunUndone, IsDrawUndone, IsPrintUndone, IsRunUndone, IsShowUndone, IsTakenOr, IsTestUndone, IsUndone};
ghost use Rattle.orc_run.specs.Commands.{ChecksRun, HasDrawn, HasDrawnRun, HasEnded, HasHeld, HasJudged, HasPrinted, HasRun, HasShownOf, HasTested, HasTold, HasToldAll, HoldsRun, IsDone, IsUnread, LeavesUndone, MayBeRefused, MayBeUntaken, TakesJournal, TellsNotAll, TellsOfFailures, WasCut};

use crate::call::Names;
use crate::claims::claims_text;
use crate::explained::{Explained, subject_of, subject_with_journal};
use crate::failures::{Failure, report};
use crate::faults::RunFault;
use crate::inputs::{Files, ReadFault, title_of};
use crate::judge::{Unchecked, check_read, check_text};
use crate::outcomes::{search_text, survey_text};
use crate::picture::{Undrawn, draw_run, draw_text};
use crate::printer::print_text;
use crate::runner::run_source;
use crate::shown::{Unshown, show_text};
use crate::test_command::{TestInputs, TestTexts, Untested, test_text};
use clap::error::ErrorKind;
use orc_cli::{
    ArgumentTexts, Asked, DrawRunOptions, Job, ProgramPaths, RunOptions, SearchOptions,
    ShowOptions, SurveyOptions, TestOptions, read_words,
};
use orc_explain_fault::Unread;
use orc_output::WriteFault;
use orc_report::{Document, Subject};
use std::alloc::Global;
use std::convert::AsStr;
use std::io::Write;
use std::path::Path;
use std::sync::Wait;
use std::thread::Threads;

/// Reports a command line that asks for help or for the version, or was refused, and gives the status: 0 where help or version was written, 2 where
/// the line was refused, 5 where memory was, 6 where standard output failed. `clap` hands over all of these as an error. `out` is standard output and
/// `err` standard error. A line that was refused (status 2) leaves standard output as it was.
fn refuse<W: Write, V: Write>(error: &clap::Error, out: &mut W, err: &mut V) -> u8
    ensures status { result < 7 × result ≢ 1 × result ≢ 3 × result ≢ 4 }
    ensures refused { result ≡ 2 → Keeps (W.contents out.old) (W.contents out.new) }
{
    if error.kind() == ErrorKind::OutOfMemory {
        // The line of refused memory names no path.
        let memory = Failure::Unread("", ReadFault::Memory);
        let _ = writeln!(err, "{memory}");
        return 5;
    }
    // A refused command line. Help and the version go to standard output.
    if error.use_stderr() {
        let _ = write!(err, "{error}");
        return 2;
    }
    match write!(out, "{error}") {
        Ok(()) => 0,
        Err(_) => {
            let fault = RunFault::Write(WriteFault);
            let _ = writeln!(err, "{fault}");
            6
        }
    }
}

// All bytes of the file at a path. If the file can't be read, the failure names the path. What the files hold stays as it was; where that is known,
// the bytes are those (`IsHeld`).
fn read<'a, F: Files>(path: &'a str, files: &mut F) -> Result<Vec<u8>, Failure<'a>>
    ensures held { IfOk result (λ bytes. IsHeld (F.holds files.old path.now) bytes.items) }
    ensures unread { IfErr result IsUnread }
    ensures same { (at : List ℕ) → F.holds files.new at ≡ F.holds files.old at }
{
    match files.read(path) {
        Ok(bytes) => Ok(bytes),
        Err(fault) => Err(Failure::Unread(path, fault)),
    }
}

// The bytes of the script at a path. None is that the command line names no script: then there are no bytes, which read as a script without lines. If
// the file can't be read, the failure names the path.
fn read_script_text<'a, F: Files>(
    alloc: Global,
    path: Option<&'a str>,
    files: &mut F,
) -> Result<Vec<u8>, Failure<'a>>
    ensures held { IfOk result (λ bytes. IsRead (F.holds files.old) (option_map (λ p. p.now) path.entry) bytes.items) }
    ensures unread { IfErr result IsUnread }
{
    match path {
        Some(path) => read(path, files),
        None => Ok(Vec::new(alloc)),
    }
}

// `orc run`: runs the program of a file and writes what the options want of the run. The result is the status that says how the run ended. The
// failure is a file that can't be read, or a fault of the texts, the engine or the output; the failure's status is 7, which blames the engine, only
// if the options' numbers are out of range. `explained` gets the fault, or how the run ended, with the names and texts of the files (`subject`).
#[tactic(auto, using(crate::proofs::Statuses::unread, crate::proofs::Causing::unread_run, crate::proofs::Statuses::cut_or_kept, crate::proofs::Sound::unread_sound))]
fn run_file<'a, R: Threads + Wait + Sync, F: Files, W: Write>(
    rt: &R,
    alloc: Global,
    program: ProgramPaths<'a>,
    options: &RunOptions,
    files: &mut F,
    out: &mut W,
    explained: &mut Explained,
) -> Result<u8, Failure<'a>>
    ensures done { IfOk result (HasRun (F.holds files.old) program.entry.file.now (option_map (λ p. p.now) program.entry.script) options.now (W.contents out.old) (W.contents out.new)) }
    ensures undone { IfErr result (λ f. LeavesUndone f (W.contents out.old) (W.contents out.new)) }
    ensures cause { IfErr result (IsRunUndone (F.holds files.old) program.entry.file.now (option_map (λ p. p.now) program.entry.script)) }
    ensures sound { IfErr result (λ f. IsInRange options.now.workers options.now.limit → failure_status f ≢ 7) }
{
    let source = read(program.file, files)?;
    let script_text = read_script_text(alloc, program.script, files)?;
    // If an explanation is asked for, the run keeps its journal, since the explanation reads that.
    match run_source(
        rt,
        alloc,
        source.as_slice(),
        script_text.as_slice(),
        options,
        explained.is_asked(),
        out,
    ) {
        Ok((loaded, played)) => {
            // `loaded` is the program, and `played` its run.
            let subject = subject_of(program, source.as_slice(), script_text.as_slice());
            explained.ended(alloc, &subject, &loaded, &played);
            Ok(played.summary.end.status())
        }
        Err(fault) => {
            let subject = subject_of(program, source.as_slice(), script_text.as_slice());
            explained.fault(alloc, &subject, fault);
            Err(Failure::Fault(fault))
        }
    }
}

// `orc outcomes`: runs the program of a file in many orders, and writes each outcome that came up. The status is 0. The failure is a file that can't
// be read, or a fault of the texts, the engine or the output; the failure's status is 7, which blames the engine, only if the options' numbers are
// out of range. `explained` gets the fault, with the names and texts of the files (`subject`).
#[tactic(auto, using(crate::proofs::Statuses::unread, crate::proofs::Causing::unread_run, crate::proofs::Statuses::cut_or_kept, crate::proofs::Sound::unread_sound))]
fn survey_file<'a, R: Threads + Sync, F: Files, W: Write>(
    rt: &R,
    alloc: Global,
    program: ProgramPaths<'a>,
    options: &SurveyOptions,
    files: &mut F,
    out: &mut W,
    explained: &mut Explained,
) -> Result<u8, Failure<'a>>
    ensures done { IfOk result (HasTold (F.holds files.old) program.entry.file.now (option_map (λ p. p.now) program.entry.script) options.now.orders options.now.limit (W.contents out.old) (W.contents out.new)) }
    ensures undone { IfErr result (λ f. LeavesUndone f (W.contents out.old) (W.contents out.new)) }
    ensures cause { IfErr result (IsRunUndone (F.holds files.old) program.entry.file.now (option_map (λ p. p.now) program.entry.script)) }
    ensures sound { IfErr result (λ f. IsInRange options.now.workers options.now.limit → failure_status f ≢ 7) }
{
    let source = read(program.file, files)?;
    let script_text = read_script_text(alloc, program.script, files)?;
    match survey_text(
        rt,
        alloc,
        source.as_slice(),
        script_text.as_slice(),
        options,
        out,
    ) {
        Ok(()) => Ok(0),
        Err(fault) => {
            let subject = subject_of(program, source.as_slice(), script_text.as_slice());
            explained.fault(alloc, &subject, fault);
            Err(Failure::Fault(fault))
        }
    }
}

// The status of a search through all schedules: 0 if it found all outcomes, 4 (cut) if not.
fn search_status(all: bool) -> u8
    ensures { result ≡ cond all 0 4 }
{
    if all { 0 } else { 4 }
}

// `orc outcomes --all`: runs the program of a file in many orders, searches all its schedules through so many states at most as the options say, and
// writes each outcome. The status says whether the search found all outcomes. The failure is a file that can't be read, or a fault of the texts, the
// engine or the output; the failure's status is 7, which blames the engine, only if the options' numbers are out of range. `explained` gets the
// fault, with the names and texts of the files (`subject`).
#[tactic(auto, using(crate::proofs::Statuses::unread, crate::proofs::Causing::unread_run, crate::proofs::Statuses::cut_or_kept, crate::proofs::Sound::unread_sound))]
fn search_file<'a, R: Threads + Sync, F: Files, W: Write>(
    rt: &R,
    alloc: Global,
    program: ProgramPaths<'a>,
    options: &SearchOptions,
    files: &mut F,
    out: &mut W,
    explained: &mut Explained,
) -> Result<u8, Failure<'a>>
    ensures done { IfOk result (HasToldAll (F.holds files.old) program.entry.file.now (option_map (λ p. p.now) program.entry.script) options.now.survey.orders options.now.survey.limit options.now.states (W.contents out.old) (W.contents out.new)) }
    ensures undone { IfErr result (λ f. LeavesUndone f (W.contents out.old) (W.contents out.new)) }
    ensures cause { IfErr result (IsRunUndone (F.holds files.old) program.entry.file.now (option_map (λ p. p.now) program.entry.script)) }
    ensures sound { IfErr result (λ f. IsInRange options.now.survey.workers options.now.survey.limit → failure_status f ≢ 7) }
{
    let source = read(program.file, files)?;
    let script_text = read_script_text(alloc, program.script, files)?;
    match search_text(
        rt,
        alloc,
        source.as_slice(),
        script_text.as_slice(),
        options,
        out,
    ) {
        Ok(all) => Ok(search_status(all)),
        Err(fault) => {
            let subject = subject_of(program, source.as_slice(), script_text.as_slice());
            explained.fault(alloc, &subject, fault);
            Err(Failure::Fault(fault))
        }
    }
}

// `orc outcomes --show`: writes the journal of a run that has the outcome with the number in the options, from 1. Without a search only outcomes that
// came up in an order have a number. The failure is a file that can't be read, a fault, that there is no such outcome, or that no run was found that
// has it. `explained` gets a fault, with the names and texts of the files (`subject`).
#[tactic(auto, using(crate::proofs::Statuses::unread, crate::proofs::Causing::unread_show, crate::proofs::Statuses::cut_or_kept, crate::proofs::Sound::unread_sound))]
fn show_file<'a, R: Threads + Sync, F: Files, W: Write>(
    rt: &R,
    alloc: Global,
    program: ProgramPaths<'a>,
    options: &ShowOptions,
    files: &mut F,
    out: &mut W,
    explained: &mut Explained,
) -> Result<u8, Failure<'a>>
    ensures done { IfOk result (HasShownOf (F.holds files.old) program.entry.file.now (option_map (λ p. p.now) program.entry.script) options.now.survey.orders options.now.survey.limit options.now.number (W.contents out.old) (W.contents out.new)) }
    ensures undone { IfErr result (λ f. LeavesUndone f (W.contents out.old) (W.contents out.new)) }
    ensures cause { IfErr result (IsShowUndone (F.holds files.old) program.entry.file.now (option_map (λ p. p.now) program.entry.script) options.now.survey.orders options.now.survey.limit options.now.number) }
    ensures sound { IfErr result (λ f. IsInRange options.now.survey.workers options.now.survey.limit → failure_status f ≢ 7) }
{
    let source = read(program.file, files)?;
    let script_text = read_script_text(alloc, program.script, files)?;
    match show_text(
        rt,
        alloc,
        source.as_slice(),
        script_text.as_slice(),
        options,
        out,
    ) {
        Ok(()) => Ok(0),
        Err(Unshown::Fault(fault)) => {
            let subject = subject_of(program, source.as_slice(), script_text.as_slice());
            explained.fault(alloc, &subject, fault);
            Err(Failure::Fault(fault))
        }
        Err(Unshown::NoOutcome(number)) => Err(Failure::NoOutcome(number)),
        Err(Unshown::NoRun(number)) => Err(Failure::NoRun(number)),
    }
}

// `orc check`: checks the journal of a file. `check_read` reads the journal piece by piece; but where an explanation is asked for, `lines` has its
// text, so that `explained` can show a fault in it. `subject` has the names and texts of the files, the journal too. The status is 0 if the check
// accepts the journal. The failure is a file that can't be read, or a fault.
#[tactic(auto, using(crate::proofs::Statuses::unread, crate::proofs::Causing::unread_check, crate::proofs::Statuses::cut_or_kept, crate::proofs::Sound::unread_sound, crate::proofs::Statuses::unread_refused))]
fn check_file<'a, F: Files, W: Write>(
    alloc: Global,
    program: ProgramPaths<'a>,
    journal: &'a str,
    files: &mut F,
    out: &mut W,
    explained: &mut Explained,
) -> Result<u8, Failure<'a>>
    ensures done { IfOk result (HasJudged (F.holds files.old) program.entry.file.now journal.entry.now (option_map (λ p. p.now) program.entry.script) (W.contents out.old) (W.contents out.new)) }
    ensures undone { IfErr result (λ f. LeavesUndone f (W.contents out.old) (W.contents out.new)) }
    ensures cause { IfErr result (IsCheckUndone (F.holds files.old) program.entry.file.now journal.entry.now (option_map (λ p. p.now) program.entry.script)) }
    ensures sound { IfErr result (λ f. failure_status f ≢ 7) }
    // What a run of this source and script wrote as its journal is accepted, unless that journal is beyond a limit.
    ensures accepted { (s : Summary) → HoldsRun (F.holds files.old) program.entry journal.entry.now s → IfOk result (λ status. Accepts s (W.contents out.old) (W.contents out.new)) }
    ensures beyond { (s : Summary) → HoldsRun (F.holds files.old) program.entry journal.entry.now s → IfErr result MayBeRefused }
{
    let source = read(program.file, files)?;
    if !explained.is_asked() {
        // The journal is opened before the script is read: if neither can be, the journal is named.
        let reader = match files.open(journal) {
            Ok(reader) => reader,
            Err(fault) => return Err(Failure::Unread(journal, fault)),
        };
        let script_text = read_script_text(alloc, program.script, files)?;
        return match check_read(
            alloc,
            source.as_slice(),
            script_text.as_slice(),
            reader,
            out,
        ) {
            Ok(()) => Ok(0),
            Err(Unchecked::Fault(fault)) => Err(Failure::Fault(fault)),
            // The failure's line names the journal alone. The reader's error doesn't say its cause, which only an explanation would name; none is
            // asked for here.
            Err(Unchecked::Unread) => {
                Err(Failure::Unread(journal, ReadFault::Failed(Unread::Other)))
            }
        };
    }
    let lines = read(journal, files)?;
    let script_text = read_script_text(alloc, program.script, files)?;
    match check_text(
        alloc,
        source.as_slice(),
        script_text.as_slice(),
        lines.as_slice(),
        out,
    ) {
        Ok(()) => Ok(0),
        Err(fault) => {
            let lines = lines.as_slice();
            let subject = subject_with_journal(
                program,
                source.as_slice(),
                script_text.as_slice(),
                journal,
                lines,
            );
            explained.fault(alloc, &subject, fault);
            Err(Failure::Fault(fault))
        }
    }
}

// The status of a test: 0 if none of its claims fails, in a program's runs or on a journal; else 1. `failing` is how many fail.
fn claims_status(failing: usize) -> u8
    ensures { result ≡ cond (nat_eq failing 0) 0 1 }
{
    if failing == 0 { 0 } else { 1 }
}

// `orc check --claims`: checks the journal of a file and judges on it the claims of a test that stand below `always`: no journal says of which case
// it is. The status says whether these all hold. `lines` is the journal's text, and `claims` the test's. The failure is a file that can't be read, or
// a fault. `explained` gets the fault, with the names and texts of the files (`subject`).
#[tactic(auto, using(crate::proofs::Statuses::unread, crate::proofs::Causing::unread_claim, crate::proofs::Statuses::cut_or_kept, crate::proofs::Sound::unread_sound, crate::proofs::Statuses::unread_untaken))]
fn claims_file<'a, F: Files, W: Write>(
    alloc: Global,
    program: ProgramPaths<'a>,
    journal: &'a str,
    test: &'a str,
    files: &mut F,
    out: &mut W,
    explained: &mut Explained,
) -> Result<u8, Failure<'a>>
    ensures done { IfOk result (HasHeld (F.holds files.old) program.entry.file.now journal.now (option_map (λ p. p.now) program.entry.script) test.now (W.contents out.old) (W.contents out.new)) }
    ensures undone { IfErr result (λ f. LeavesUndone f (W.contents out.old) (W.contents out.new)) }
    ensures cause { IfErr result (IsClaimUndone (F.holds files.old) program.entry.file.now journal.now (option_map (λ p. p.now) program.entry.script) test.now) }
    ensures sound { IfErr result (λ f. failure_status f ≢ 7) }
    // What a run of this source and script wrote as its journal is judged, unless it is beyond a limit or the claims are no test.
    ensures beyond { (s : Summary) → HoldsRun (F.holds files.old) program.entry journal.now s → IfErr result MayBeUntaken }
{
    let source = read(program.file, files)?;
    let lines = read(journal, files)?;
    let claims = read(test, files)?;
    let script_text = read_script_text(alloc, program.script, files)?;
    match claims_text(
        alloc,
        source.as_slice(),
        claims.as_slice(),
        script_text.as_slice(),
        lines.as_slice(),
        out,
    ) {
        Ok(failing) => Ok(claims_status(failing)),
        // `Explained::test` shows the fault in the test's text, which a `Subject` doesn't have.
        Err(RunFault::Test(fault)) => {
            let document = Document {
                name: title_of(test),
                text: claims.as_slice(),
            };
            explained.test(alloc, &document, script_text.as_slice(), fault);
            Err(Failure::Fault(RunFault::Test(fault)))
        }
        Err(fault) => {
            let lines = lines.as_slice();
            let subject = subject_with_journal(
                program,
                source.as_slice(),
                script_text.as_slice(),
                journal,
                lines,
            );
            explained.fault(alloc, &subject, fault);
            Err(Failure::Fault(fault))
        }
    }
}

// The title of a picture of a file's program: the file's name without its folders, or the whole path where it has no such name, as `..`. Of standard
// input it is `standard input`.
fn picture_title(path: &str) -> &str {
    let title = title_of(path);
    Path::new(title).file_name().unwrap_or(title)
}

// `orc draw` with a JOURNAL: draws the journal of a file, once the check accepts it. `text` is the journal's. The status is 0. The failure is a file
// that can't be read, a fault, or that the picture would have too many rows. `explained` gets a fault, with the names and texts of the files
// (`subject`).
#[tactic(auto, using(crate::proofs::Statuses::unread, crate::proofs::Causing::unread_draw, crate::proofs::Statuses::cut_or_kept, crate::proofs::Sound::unread_sound, crate::proofs::Statuses::undrawn_rows, crate::proofs::Statuses::unread_untaken))]
fn draw_file<'a, F: Files, W: Write>(
    alloc: Global,
    program: ProgramPaths<'a>,
    journal: &'a str,
    options: orc_draw::Options,
    files: &mut F,
    out: &mut W,
    explained: &mut Explained,
) -> Result<u8, Failure<'a>>
    ensures done { IfOk result (HasDrawn (F.holds files.old) program.entry.file.now journal.now (option_map (λ p. p.now) program.entry.script) (W.contents out.old) (W.contents out.new)) }
    ensures undone { IfErr result (λ f. LeavesUndone f (W.contents out.old) (W.contents out.new)) }
    ensures cause { IfErr result (IsDrawUndone (F.holds files.old) program.entry.file.now journal.now (option_map (λ p. p.now) program.entry.script)) }
    ensures sound { IfErr result (λ f. failure_status f ≢ 7) }
    // What a run of this source and script wrote as its journal is drawn, unless it is beyond a limit or the picture would have too many rows.
    ensures beyond { (s : Summary) → HoldsRun (F.holds files.old) program.entry journal.now s → IfErr result MayBeUntaken }
{
    let source = read(program.file, files)?;
    let text = read(journal, files)?;
    let script_text = read_script_text(alloc, program.script, files)?;
    match draw_text(
        alloc,
        picture_title(program.file),
        source.as_slice(),
        script_text.as_slice(),
        text.as_slice(),
        options,
        out,
    ) {
        Ok(()) => Ok(0),
        Err(Undrawn::Fault(fault)) => {
            let text = text.as_slice();
            let subject = subject_with_journal(
                program,
                source.as_slice(),
                script_text.as_slice(),
                journal,
                text,
            );
            explained.fault(alloc, &subject, fault);
            Err(Failure::Fault(fault))
        }
        Err(Undrawn::Rows) => Err(Failure::Rows),
    }
}

// `orc draw` without a JOURNAL: runs a file's program, and draws that run's journal. The status is 0. The failure is a file that can't be read, a
// fault, or that the picture would have too many rows. The failure's status is 7, which blames the engine, only if the options' numbers are out of
// range. `explained` gets a fault, with the names and texts of the files (`subject`).
#[tactic(auto, using(crate::proofs::Statuses::unread, crate::proofs::Causing::unread_draw_run, crate::proofs::Statuses::cut_or_kept, crate::proofs::Sound::unread_sound))]
fn draw_run_of<'a, R: Threads + Wait + Sync, F: Files, W: Write>(
    rt: &R,
    alloc: Global,
    program: ProgramPaths<'a>,
    options: &DrawRunOptions,
    files: &mut F,
    out: &mut W,
    explained: &mut Explained,
) -> Result<u8, Failure<'a>>
    ensures done { IfOk result (HasDrawnRun (F.holds files.old) program.entry.file.now (option_map (λ p. p.now) program.entry.script) options.now.run (W.contents out.old) (W.contents out.new)) }
    ensures undone { IfErr result (λ f. LeavesUndone f (W.contents out.old) (W.contents out.new)) }
    ensures cause { IfErr result (IsDrawRunUndone (F.holds files.old) program.entry.file.now (option_map (λ p. p.now) program.entry.script) options.now.run) }
    ensures sound { IfErr result (λ f. IsInRange options.now.run.workers options.now.run.limit → failure_status f ≢ 7) }
{
    let source = read(program.file, files)?;
    let script_text = read_script_text(alloc, program.script, files)?;
    match draw_run(
        rt,
        alloc,
        picture_title(program.file),
        source.as_slice(),
        script_text.as_slice(),
        options,
        out,
    ) {
        Ok(()) => Ok(0),
        Err(Undrawn::Fault(fault)) => {
            let subject = subject_of(program, source.as_slice(), script_text.as_slice());
            explained.fault(alloc, &subject, fault);
            Err(Failure::Fault(fault))
        }
        Err(Undrawn::Rows) => Err(Failure::Rows),
    }
}

// `orc print`: prints the program of a file. The status is 0. The failure is that the file can't be read, or a fault of its text or of the output.
// `explained` gets the fault, with the source's name and text (`subject`).
#[tactic(auto, using(crate::proofs::Statuses::unread, crate::proofs::Causing::unread_print, crate::proofs::Statuses::cut_or_kept, crate::proofs::Sound::unread_sound))]
fn print_file<'a, F: Files, W: Write>(
    alloc: Global,
    file: &'a str,
    files: &mut F,
    out: &mut W,
    explained: &mut Explained,
) -> Result<u8, Failure<'a>>
    ensures done { IfOk result (HasPrinted (F.holds files.old) file.now (W.contents out.old) (W.contents out.new)) }
    ensures undone { IfErr result (λ f. LeavesUndone f (W.contents out.old) (W.contents out.new)) }
    ensures cause { IfErr result (IsPrintUndone (F.holds files.old) file.now) }
    ensures sound { IfErr result (λ f. failure_status f ≢ 7) }
{
    let source = read(file, files)?;
    match print_text(alloc, source.as_slice(), out) {
        Ok(()) => Ok(0),
        Err(fault) => {
            let subject = Subject::of_source(title_of(file), source.as_slice());
            explained.fault(alloc, &subject, fault);
            Err(Failure::Fault(fault))
        }
    }
}

// `orc test`: judges the claims of a test on runs of a file's program. The status says whether all hold. `names` has the paths of the files, which
// the table repeats, and `claims` is the test's text. The failure is a file that can't be read, a fault, or that what is to be shown isn't there
// (`NoFailure`, `NoJournal`). `explained` gets a fault, with the names and texts of the files, or what looks like a mistake in the test.
#[tactic(auto, using(crate::proofs::Statuses::unread, crate::proofs::Causing::unread_test, crate::proofs::Statuses::cut_or_kept, crate::proofs::Sound::unread_sound))]
fn test_file<'a, R: Threads + Sync, F: Files, W: Write>(
    rt: &R,
    alloc: Global,
    names: Names<'a>,
    options: &TestOptions,
    files: &mut F,
    out: &mut W,
    explained: &mut Explained,
) -> Result<u8, Failure<'a>>
    ensures done { IfOk result (HasTested (F.holds files.old) names.entry.program.file.now names.entry.test.now (option_map (λ p. p.now) names.entry.program.script) options.now (is_asked explained.old) (W.contents out.old) (W.contents out.new)) }
    ensures undone { IfErr result (λ f. LeavesUndone f (W.contents out.old) (W.contents out.new)) }
    ensures cause { IfErr result (IsTestUndone (F.holds files.old) names.entry.program.file.now names.entry.test.now (option_map (λ p. p.now) names.entry.program.script) options.now) }
    ensures sound { IfErr result (λ f. IsInRange options.now.workers options.now.limit → failure_status f ≢ 7) }
{
    let Names { program, test } = names;
    let source = read(program.file, files)?;
    let claims = read(test, files)?;
    let script_text = read_script_text(alloc, program.script, files)?;
    let texts = TestTexts {
        source: source.as_slice(),
        test: claims.as_slice(),
        script: script_text.as_slice(),
    };
    let inputs = TestInputs {
        names: &names,
        texts: &texts,
        options,
    };
    match test_text(rt, alloc, &inputs, out, explained) {
        // `failing` is how many claims fail.
        Ok(failing) => Ok(claims_status(failing)),
        // `Explained::test` shows the fault in the test's text, which a `Subject` doesn't have.
        Err(Untested::Fault(RunFault::Test(fault))) => {
            let document = Document {
                name: title_of(test),
                text: claims.as_slice(),
            };
            explained.test(alloc, &document, script_text.as_slice(), fault);
            Err(Failure::Fault(RunFault::Test(fault)))
        }
        Err(Untested::Fault(fault)) => {
            let subject = subject_of(program, source.as_slice(), script_text.as_slice());
            explained.fault(alloc, &subject, fault);
            Err(Failure::Fault(fault))
        }
        Err(Untested::NoFailure(number)) => Err(Failure::NoFailure(number)),
        Err(Untested::NoJournal(number)) => Err(Failure::NoJournal(number)),
    }
}

// Does what a command line asks for, and gives the process's status. Numbers of options that are out of range are a failure here, and only at such a
// failure the status may be 7; `read_words` refuses them before. A job that takes the journal of a run of its own source and script is done, unless a
// file can't be read, memory is refused, the output fails, the journal is beyond a limit, the picture has too many rows, or the claims are no test
// (clauses *accepted*, *beyond*, *untaken*).
fn do_job<'a, R: Threads + Wait + Sync, F: Files, W: Write>(
    rt: &R,
    alloc: Global,
    job: Job<'a>,
    files: &mut F,
    out: &mut W,
    explained: &mut Explained,
) -> Result<u8, Failure<'a>>
    ensures done { IfOk result (IsDone (F.holds files.old) (is_asked explained.old) job.entry (W.contents out.old) (W.contents out.new)) }
    ensures undone { IfErr result (λ f. LeavesUndone f (W.contents out.old) (W.contents out.new)) }
    ensures cause { IfErr result (IsUndone (F.holds files.old) job.entry) }
    ensures sound { IfErr result (λ f. AreInRange job.entry → failure_status f ≢ 7) }
    ensures accepted { (s : Summary) → ChecksRun (F.holds files.old) job.entry s → IfOk result (λ status. Accepts s (W.contents out.old) (W.contents out.new)) }
    ensures beyond { (s : Summary) → ChecksRun (F.holds files.old) job.entry s → IfErr result MayBeRefused }
    ensures untaken { (s : Summary) → TakesJournal (F.holds files.old) job.entry s → IfErr result MayBeUntaken }
{
    match job {
        Job::Run { program, options } => {
            run_file(rt, alloc, program, &options, files, out, explained)
        }
        Job::Outcomes { program, options } => {
            survey_file(rt, alloc, program, &options, files, out, explained)
        }
        Job::Search { program, options } => {
            search_file(rt, alloc, program, &options, files, out, explained)
        }
        Job::Show { program, options } => {
            show_file(rt, alloc, program, &options, files, out, explained)
        }
        Job::Check { program, journal } => {
            check_file(alloc, program, journal, files, out, explained)
        }
        Job::Claims {
            program,
            journal,
            test,
        } => claims_file(alloc, program, journal, test, files, out, explained),
        Job::Draw {
            program,
            journal,
            options,
        } => draw_file(alloc, program, journal, options, files, out, explained),
        Job::DrawRun { program, options } => {
            draw_run_of(rt, alloc, program, &options, files, out, explained)
        }
        Job::Print { file } => print_file(alloc, file, files, out, explained),
        Job::Test {
            program,
            test,
            options,
        } => {
            let names = Names { program, test };
            test_file(rt, alloc, names, &options, files, out, explained)
        }
    }
}

/// Does what a command line asks for, and gives the process's status.
///
/// FILE, JOURNAL, TEST and the script are read in this order, before anything else; but where no explanation is asked for, a JOURNAL that is to be
/// checked is only opened then, and read while it is checked. Standard output is `out`, standard error `err`; what standard error doesn't
/// take changes no status. Either the job was done, and both what was written and the status say what came of it; or it wasn't, and the status is
/// that of the failure. Then nothing was written to standard output, unless that was at fault itself. The status is 7, which blames the engine, only
/// where the numbers of workers or of entries are out of range.
pub fn perform<R, F, W, V>(
    rt: &R,
    alloc: Global,
    asked: Asked<'_>,
    files: &mut F,
    out: &mut W,
    err: &mut V,
) -> u8
where
    R: Threads + Wait + Sync,
    F: Files,
    W: Write,
    V: Write,
    ensures done { ComesTo (F.holds files.old) asked.entry (W.contents out.old) (W.contents out.new) result }
    ensures sound { AreInRange asked.entry.job → result ≢ 7 }
    // The journal that a run of its source and script wrote is accepted by `orc check`, unless it is beyond a limit.
    ensures accepted { (s : Summary) → ChecksRun (F.holds files.old) asked.entry.job s → IsAcceptedOr s (W.contents out.old) (W.contents out.new) result }
    // It is also drawn by `orc draw` and judged by `orc check --claims`, unless the picture would have too many rows or the claims are no test.
    ensures taken { (s : Summary) → TakesJournal (F.holds files.old) asked.entry.job s → IsTakenOr (F.holds files.old) asked.entry (W.contents out.old) (W.contents out.new) result }
{
    let Asked { job, explain } = asked;
    let mut explained = Explained::new(explain);
    match do_job(rt, alloc, job, files, out, &mut explained) {
        Ok(status) => {
            // The explanation of how a run ended, or of what looks like a mistake in a test; nothing if it isn't asked for. What standard error
            // doesn't take changes no status, so the result is dropped.
            let _ = explained.write(err);
            status
        }
        Err(failure) => {
            // The failure's line and its explanation go to standard error, which changes no status either.
            explained.failure(alloc, &failure);
            let _ = report(err, &failure, &explained);
            failure.status()
        }
    }
}

/// Does one command line, whose first word is the program's name, as [`perform`] does it, and gives the process's status, 0 to 6.
///
/// - 1: the job wasn't done, since a file's text is at fault, or what is to be shown isn't there or has too many rows, and nothing was written to
///   standard output; or what was written reports claims that fail.
/// - 2: the command line was refused. Nothing was written to standard output.
/// - 3: the whole text of a run that ended quiet was written.
/// - 4: the whole text of a run that was cut, by its limit or one of the engine's, was written; or that of a search that didn't find all outcomes.
///
/// docs/orc.md, *Statuses*, has the others.
#[tactic(auto, using(crate::proofs::Coming::kept_at_two, crate::proofs::Coming::failed_or_kept, crate::proofs::Coming::ended_quiet, crate::proofs::Coming::ended_cut))]
pub fn command<R, S, F, W, V>(
    rt: &R,
    alloc: Global,
    words: &[S],
    files: &mut F,
    out: &mut W,
    err: &mut V,
) -> u8
where
    R: Threads + Wait + Sync,
    S: AsStr,
    F: Files,
    W: Write,
    V: Write,
    ensures status { result < 7 }
    ensures fault { result ≡ 1 → (Keeps (W.contents out.old) (W.contents out.new) × HasCause (F.holds files.old) 1) ⊎ TellsOfFailures (W.contents out.old) (W.contents out.new) }
    ensures refused { result ≡ 2 → Keeps (W.contents out.old) (W.contents out.new) }
    ensures quiet { result ≡ 3 → HasEnded ends.Quiet (W.contents out.old) (W.contents out.new) }
    ensures cut { result ≡ 4 → WasCut (W.contents out.old) (W.contents out.new) ⊎ TellsNotAll (W.contents out.old) (W.contents out.new) }
{
    // `clap` borrows the texts of the options' ranges and defaults, so these are held here until the job is done.
    let texts = match ArgumentTexts::new(alloc) {
        // Memory was refused for these texts.
        Err(error) => return refuse(&clap::Error::from(error), out, err),
        Ok(texts) => texts,
    };
    match read_words(alloc, words, &texts) {
        // The words ask for help or the version, are wrong, or memory was refused for them.
        Err(error) => refuse(&error, out, err),
        Ok(asked) => perform(rt, alloc, asked, files, out, err),
    }
}
