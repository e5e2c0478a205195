//! From a journal's text to the verdict on it.

ghost use Rattle.std.specs.Prelude.{◌≡◌, List, ℕ, length, Some, IfOk, IfErr, OnOk};
ghost use Rattle.orc_journal_text.specs.Pieces.{MayCome};
ghost use Rattle.orc_run.specs.Checked.{verdict_line, Accepts, Judges, LeavesUnchecked, LeavesUnjudged, IsBeyond, IsCheckFault, IsJudged, IsJudgedAt, IsOfRun, IsRefusal, IsUnchecked, IsUnjudged, MayFail, StandsSo};
ghost use Rattle.orc_run.specs.Running.{of_load};
ghost use Rattle.orc_run.specs.declared.judge.Unchecked.TheVariants.{Fault};
ghost use Rattle.orc_journal.specs.Written.{Written};
ghost use Rattle.orc_outcome.specs.declared.end.Summary.{Summary as RunSummary};

use crate::faults::RunFault;
use orc_journal::Journal;
use orc_journal_text::{JournalFault, read_journal};
use orc_load::{LoadFault, load};
use orc_output::{WriteFault, write_text};
use orc_rules::answers::Answers;
use orc_rules::entry::State;
use orc_verdict::{TextFault, check_journal, check_lines};
use std::alloc::{AllocError, Global};
use std::io::{Read, Write};

/// The line that a check writes of an accepted journal: `ok N STATE`, with the number of its entries, cancels counted, and where the run stands. The
/// error is refused memory.
pub(crate) fn line_of(alloc: Global, entries: usize, state: State) -> Result<Vec<u8>, AllocError>
    ensures { IfOk result (λ t. t.items ≡ verdict_line entries state) }
{
    let word = state.word();
    let line = format!(in alloc; "ok {entries} {word}\n")?;
    Ok(line.into_bytes())
}

/// A journal that was checked, the table that answered its calls, and the state and the logical time of the run behind its last entry.
#[derive(Drop)]
pub struct Judged {
    pub answers: Answers,
    pub journal: Journal,
    pub state: State,
    pub time: u64,
}

/// The verdict on a journal's text, by the program that a source spells, with the built-in sites and those of a script. The fault is the
/// first that there is, in this order: of the source's text, the script, the source's names, the journal's text, its entries.
pub fn judge(
    alloc: Global,
    source: &[u8],
    script: &[u8],
    journal: &[u8],
) -> Result<Judged, RunFault>
    ensures judged { IfOk result (λ j. IsJudgedAt source.now script.now journal.now j.answers j.journal j.state j.time) }
    ensures cause { IfErr result (IsRefusal source.now script.now journal.now) }
    // What a run of this source and script wrote as its journal has this verdict, unless that journal is beyond a limit.
    ensures accepted { (s : RunSummary) → IsOfRun source.now script.now journal.now s → IfOk result (λ j. StandsSo s.end j.state × (length j.journal.entries ≡ s.entries)) }
    ensures beyond { (s : RunSummary) → IsOfRun source.now script.now journal.now s → IfErr result IsBeyond }
{
    let loaded = load(alloc, source, script)?;
    // Shows the prover that the table's names differ, as reading a journal needs. At run time it does nothing.
    loaded.answers.are_apart();
    let journal = match read_journal(alloc, journal, &loaded.answers) {
        Ok(journal) => journal,
        Err(fault) => return Err(RunFault::Journal(fault)),
    };
    match check_journal(alloc, &loaded.program, &loaded.answers, &journal) {
        Ok(verdict) => Ok(Judged {
            answers: loaded.into_answers(),
            journal,
            state: verdict.state,
            time: verdict.now,
        }),
        Err(fault) => Err(RunFault::Check(fault)),
    }
}

// How many entries a checked journal has, and the state of the run behind the last of them.
#[derive(Clone, Copy)]
struct Brought {
    entries: usize,
    state: State,
}

/// Why a journal that is read piece by piece has no verdict.
#[derive(Clone, Copy, Debug, PartialEq, Eq)]
pub enum Unchecked {
    /// The source, the script or the journal is at fault, or the output.
    Fault(RunFault),
    /// The journal couldn't be read.
    Unread,
}

// A fault of loading, which `?` hands on.
impl From<LoadFault> for Unchecked {
    ghost from_gives = { λ fault f. f ≡ Fault (of_load fault) };

    fn from(fault: LoadFault) -> Unchecked {
        Unchecked::Fault(RunFault::from(fault))
    }
}

// The verdict of `judge` on a journal that is read piece by piece, of which nothing is kept. The fault is one of those of `judge`, or that the
// journal couldn't be read to its end. In the clauses `text` is what the reader may give (`MayCome`); of one whose bytes are known it is these. By
// `IsJudged` it is the text of the journal `j`, whose entries the rules allow one after another, and which leads to this state.
fn judge_lines<R: Read + Drop>(
    alloc: Global,
    source: &[u8],
    script: &[u8],
    journal: R,
) -> Result<Brought, Unchecked>
    ensures judged { IfOk result (λ b. (text : List ℕ) × MayCome (R.remaining journal) text × ((j : Written) × IsJudged source.now script.now text j b.state × (b.entries ≡ length j.entries))) }
    ensures cause { IfErr result (λ f. (text : List ℕ) × MayCome (R.remaining journal) text × IsUnjudged source.now script.now text f) }
    ensures accepted { (text : List ℕ) (s : RunSummary) → R.remaining journal ≡ Some text → IsOfRun source.now script.now text s → IfOk result (λ b. StandsSo s.end b.state × (b.entries ≡ s.entries)) }
    ensures beyond { (text : List ℕ) (s : RunSummary) → R.remaining journal ≡ Some text → IsOfRun source.now script.now text s → IfErr result MayFail }
{
    let loaded = load(alloc, source, script)?;
    // Shows the prover that the table's names differ, as reading a journal needs. At run time it does nothing.
    loaded.answers.are_apart();
    match check_lines(alloc, &loaded.program, &loaded.answers, journal) {
        Ok(checked) => Ok(Brought {
            entries: checked.entries,
            state: checked.verdict.state,
        }),
        // A fault of the journal's text, a refused entry, or that the journal couldn't be read.
        Err(TextFault::Journal(fault)) => Err(Unchecked::Fault(RunFault::Journal(fault))),
        Err(TextFault::Check(fault)) => Err(Unchecked::Fault(RunFault::Check(fault))),
        Err(TextFault::Unread) => Err(Unchecked::Unread),
    }
}

/// Checks a journal's text against the program that a source spells, with the built-in sites and those of a script, and writes `ok N STATE`
/// with the number of entries and where the run stands. The text is read piece by piece, and nothing of it is kept.
///
/// A fault is answered where the source's text, the script, the source's names, the journal's text or one of its entries is at fault, in
/// this order; where the journal couldn't be read to its end; and where the output isn't taken whole or memory for the line is refused. Nothing is
/// written then, but at a fault of the output a prefix of the line.
pub fn check_read<R: Read + Drop, W: Write>(
    alloc: Global,
    source: &[u8],
    script: &[u8],
    journal: R,
    out: &mut W,
) -> Result<(), Unchecked>
    ensures judged { OnOk result ((text : List ℕ) × MayCome (R.remaining journal) text × Judges source.now script.now text (W.contents out.old) (W.contents out.new)) }
    ensures fault { IfErr result (λ f. (text : List ℕ) × MayCome (R.remaining journal) text × LeavesUnchecked source.now script.now text (W.contents out.old) (W.contents out.new) f) }
    ensures cause { IfErr result (λ f. (text : List ℕ) × MayCome (R.remaining journal) text × IsUnchecked source.now script.now text f) }
    // What a run of this source and script wrote as its journal is accepted, unless that journal is beyond a limit.
    ensures accepted { (text : List ℕ) (s : RunSummary) → R.remaining journal ≡ Some text → IsOfRun source.now script.now text s → OnOk result (Accepts s (W.contents out.old) (W.contents out.new)) }
    ensures beyond { (text : List ℕ) (s : RunSummary) → R.remaining journal ≡ Some text → IsOfRun source.now script.now text s → IfErr result MayFail }
{
    let brought = judge_lines(alloc, source, script, journal)?;
    let Ok(line) = line_of(alloc, brought.entries, brought.state) else {
        return Err(Unchecked::Fault(RunFault::Write(WriteFault)));
    };
    match write_text(out, line.as_slice()) {
        Ok(()) => Ok(()),
        Err(fault) => Err(Unchecked::Fault(RunFault::Write(fault))),
    }
}

/// Checks a journal's text in memory against the program that a source spells, with the built-in sites and those of a script, and writes `ok N STATE`
/// with the number of entries and where the run stands.
///
/// A fault is answered where the source's text, the script, the source's names, the journal's text or one of its entries is at fault, in
/// this order; and where the output isn't taken whole or memory for the line is refused. Nothing is written then, but at a fault of the output a
/// prefix of the line.
pub fn check_text<W: Write>(
    alloc: Global,
    source: &[u8],
    script: &[u8],
    journal: &[u8],
    out: &mut W,
) -> Result<(), RunFault>
    ensures judged { OnOk result (Judges source.now script.now journal.now (W.contents out.old) (W.contents out.new)) }
    ensures fault { IfErr result (LeavesUnjudged source.now script.now journal.now (W.contents out.old) (W.contents out.new)) }
    ensures cause { IfErr result (IsCheckFault source.now script.now journal.now) }
    // What a run of this source and script wrote as its journal is accepted, unless that journal is beyond a limit.
    ensures accepted { (s : RunSummary) → IsOfRun source.now script.now journal.now s → OnOk result (Accepts s (W.contents out.old) (W.contents out.new)) }
    ensures beyond { (s : RunSummary) → IsOfRun source.now script.now journal.now s → IfErr result IsBeyond }
{
    match check_read(alloc, source, script, journal, out) {
        Ok(()) => Ok(()),
        Err(Unchecked::Fault(fault)) => Err(fault),
        // Doesn't come: bytes in memory can always be read to their end.
        Err(Unchecked::Unread) => Err(RunFault::Journal(JournalFault::Memory)),
    }
}
