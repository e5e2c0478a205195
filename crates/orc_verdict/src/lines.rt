//! The verdict on a journal's text, whose entries are taken as they are read. A `Lines` is such a text whose first entries were read. The marked term
//! (`marked`) is what is left of the program's term after the entries that were taken, and `heights` says how many levels deep each of the program's
//! terms nests. A *cancel* is due where a `bind` has dropped a pending call.

ghost use Rattle.std.specs.Prelude.{◌≡◌, ◌++◌, List, ℕ, length, IfOk, IfErr};
ghost use Rattle.orc_rules.specs.declared.entry.Entry.{Entry as EntryOf};
ghost use Rattle.orc_rules.specs.Nodes.{Listing, source};
ghost use Rattle.orc_rules.specs.Verdict.{IsVerdict};
ghost use Rattle.orc_checker.specs.Checker.{context};
ghost use Rattle.orc_journal_text.specs.Lines.{HasRead};
ghost use Rattle.orc_journal_text.specs.Pieces.{MayCome};
ghost use Rattle.orc_journal.specs.Written.{Written};
ghost use Rattle.orc_journal_text.specs.Texts.{IsJournal};
ghost use Rattle.orc_verdict.specs.Lines.{IsRefusedAt, IsTextFault, text_fault_of};
ghost use Rattle.orc_verdict.specs.Verdicts.{records_cancels};

use crate::heights::Heights;
use crate::verdict::{CheckFault, Taken, Verdict, records_cancels, state_of, take};
use orc_checker::Marked;
use orc_journal_text::{JournalFault, Lines, LinesFault};
use orc_rules::answers::Answers;
use orc_rules::entry::{Entry, RuleFault};
use orc_rules::program::Program;
use std::alloc::Global;
use std::io::Read;

/// Why a text has no verdict. If the text has a fault and its journal has one, the text's is given, even if it comes later.
#[derive(Clone, Copy, PartialEq, Eq, Debug)]
pub enum TextFault {
    /// It is not the text of a journal.
    Journal(JournalFault),
    /// The journal is refused.
    Check(CheckFault),
    /// It couldn't be read.
    Unread,
}

impl From<LinesFault> for TextFault {
    ghost from_gives = { λ fault f. f ≡ text_fault_of fault };

    // A fault of the lines as one of the text.
    fn from(fault: LinesFault) -> TextFault {
        match fault {
            LinesFault::Text(fault) => TextFault::Journal(fault),
            LinesFault::Unread => TextFault::Unread,
        }
    }
}

/// What a check found of a text that is accepted.
#[derive(Clone, Copy, PartialEq, Eq, Debug)]
pub struct Checked {
    /// How many entries its journal has, cancels too.
    pub entries: usize,
    /// The verdict on its journal.
    pub verdict: Verdict,
}

// The fault of a text whose journal is refused for `fault`. The function reads the lines that are left: a fault in them is given instead.
fn refused<R: Read + Drop>(lines: &mut Lines<R>, answers: &Answers, fault: CheckFault) -> TextFault
    ensures { (l : Listing) (text : List ℕ) (es : List EntryOf) → HasRead answers.now.names text lines.old es → ((more : List EntryOf) → IsRefusedAt l answers.now lines.old.version (es ++ more) fault) → (piece : List ℕ) × MayCome lines.old.coming.left piece × IsTextFault l answers.now (text ++ piece) result }
{
    match lines.finish(answers) {
        Ok(()) => TextFault::Check(fault),
        Err(fault) => TextFault::from(fault),
    }
}

/// The verdict on the journal in a text, that of `check_journal` on what `read_journal` reads. The text is read piece by piece: no more of it is kept
/// than a piece and the longest line, and none of the entries, so that a check needs memory for the marked term and that piece alone. The error is
/// the fault of the text, otherwise that of the journal, or that the text couldn't be read. A refused journal's text is still read to its end.
pub fn check_lines<R: Read + Drop>(
    alloc: Global,
    program: &Program,
    answers: &Answers,
    text: R,
) -> Result<Checked, TextFault>
    ensures verdict { IfOk result (λ c. (whole : List ℕ) × MayCome (R.remaining text) whole × ((j : Written) × IsJournal answers.now.names whole j × (c.entries ≡ length j.entries) × IsVerdict (context program.now answers.now (records_cancels j.version)) (source program.now) j.entries c.verdict.state c.verdict.now)) }
    ensures fault { IfErr result (λ f. (whole : List ℕ) × MayCome (R.remaining text) whole × IsTextFault program.now answers.now whole f) }
{
    let mut lines = match Lines::new(alloc, text) {
        Ok(lines) => lines,
        Err(fault) => return Err(TextFault::from(fault)),
    };
    // The journal's fault where memory is refused before its first entry.
    let none = CheckFault {
        at: 0,
        why: RuleFault::Memory,
    };
    let Ok(heights) = Heights::new(alloc, program) else {
        return Err(refused(&mut lines, answers, none));
    };
    let Ok(marked) = Marked::new(alloc, program, records_cancels(lines.version())) else {
        return Err(refused(&mut lines, answers, none));
    };
    // No term of the program has more levels than this.
    let most = heights.most();
    // The marked term is the program's main term at first, so these are its levels.
    let levels = heights.at(program.source());
    let mut taken = Taken { marked, levels };
    // Overwritten with each entry that is read.
    let mut entry = Entry::Tick(0);
    while lines.next(answers, &mut entry)? {
        match take(alloc, program, answers, &heights, most, &mut taken, &entry) {
            Ok(()) => {}
            Err(why) => {
                // The refused entry is the last one that was read.
                let at = lines.read() as u64;
                return Err(refused(&mut lines, answers, CheckFault { at, why }));
            }
        }
    }
    // No entry is left: a cancel that is due now is missing.
    match taken.marked.next_cancel() {
        Some(_) => Err(TextFault::Check(CheckFault {
            // One past the last entry.
            at: lines.read() as u64 + 1,
            why: RuleFault::Cancel,
        })),
        None => {
            let state = state_of(program, &mut taken.marked);
            let now = taken.marked.now();
            Ok(Checked {
                entries: lines.read(),
                verdict: Verdict { state, now },
            })
        }
    }
}
