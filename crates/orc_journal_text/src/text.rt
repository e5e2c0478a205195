//! The text of a whole journal: read into memory, and written from it. `answers` is the table of sites, which has their names. A *cancel* is the
//! entry with which a pending call goes, since a `bind` has dropped the right side of a `<x<` in which it was.

ghost use Rattle.std.specs.Prelude.{◌≡◌, ◌++◌, ◌+◌, ◌<◌, ◌^◌, if◌then◌else◌, List, ℕ, true, false, IfOk, IfErr, IfSome, Some, OnOk, MatchResult};
ghost use Rattle.orc_rules.specs.declared.entry.Entry.{Entry as EntryOf};
ghost use Rattle.orc_rules.specs.Digits.{Gives};
ghost use Rattle.orc_rules.specs.Named.{AreNamed};
ghost use Rattle.orc_rules.specs.Text.{line, Fits, IsNamed};
ghost use Rattle.orc_journal.specs.declared.journal.Version.TheVariants.{Two};
ghost use Rattle.orc_journal_text.specs.declared.text.JournalFault.TheVariants.{Memory as MemoryFault};
ghost use Rattle.orc_journal_text.specs.Faults.{journal_fault_of, journal_line, journal_status};
ghost use Rattle.orc_journal_text.specs.Reading.{header_at};
ghost use Rattle.orc_journal.specs.Written.{Written, counts};
ghost use Rattle.orc_journal_text.specs.Texts.{header, is_of, journal_text, AreOf, IsJournal, IsFault};

use crate::fit::has_line;
use crate::lines::{Lines, LinesFault, is_known};
use crate::writer::write_entry;
use orc_journal::{Journal, Version};
use orc_rules::answers::Answers;
use orc_rules::entry::Entry;
use std::alloc::{AllocError, Global};
use std::error::Error;
use std::fmt;

/// Why a text isn't read as a journal: the J faults of docs/orc.md, *Faults*.
#[derive(Clone, Copy, PartialEq, Eq, Debug)]
pub enum JournalFault {
    /// J1: the first line is no header.
    Header,
    /// J2: the first line that isn't one of an entry. Lines count from 1, and the header is line 1.
    Line(usize),
    /// J3: over `LONGEST_JOURNAL` bytes, or over `MOST_ENTRIES` entries besides the cancels.
    Long,
    /// J4: memory was refused.
    Memory,
}

// The code, and for J2 the line.
impl fmt::Display for JournalFault {
    ghost output = { λ f. Some (journal_line f) };

    fn fmt<W: fmt::Write>(&self, f: &mut fmt::Formatter<W>) -> fmt::Result {
        match *self {
            JournalFault::Header => write!(f, "J1"),
            JournalFault::Line(number) => write!(f, "J2 at line {number}"),
            JournalFault::Long => write!(f, "J3"),
            JournalFault::Memory => write!(f, "J4"),
        }
    }
}

impl Error for JournalFault {}

impl JournalFault {
    /// The process's status at this fault: 5 for refused memory, 1 for a fault of the text.
    pub fn status(self) -> u8
        ensures { result ≡ journal_status self }
    {
        match self {
            JournalFault::Memory => 5,
            _ => 1,
        }
    }
}

/// Appends the first line of a journal. The error is refused memory.
pub fn write_header(out: &mut Vec<u8>, version: Version) -> Result<(), AllocError>
    ensures { OnOk result (out.new.items ≡ out.old.items ++ header version) }
{
    match version {
        Version::One => out.extend_from_slice(b"orc-journal 1\n"),
        Version::Two => out.extend_from_slice(b"orc-journal 2\n"),
    }
}

// The fault of a text in memory. Such a text can always be read, so `Unread` never comes; it becomes J4, which claims nothing of the text.
fn fault_of(fault: LinesFault) -> JournalFault
    ensures { result ≡ journal_fault_of fault }
{
    match fault {
        LinesFault::Text(fault) => fault,
        LinesFault::Unread => JournalFault::Memory,
    }
}

/// Reads a journal from its text, with the sites that the table names. The fault is the first that the text has: J1, J2 or J3; or J4, refused memory.
pub fn read_journal(alloc: Global, text: &[u8], answers: &Answers) -> Result<Journal, JournalFault>
    // The text is that of the journal.
    ensures read { IfOk result (λ j. IsJournal answers.now.names text.now j) }
    // The text has the fault.
    ensures fault { IfErr result (λ f. IsFault answers.now.names text.now f) }
    // The text of a journal is read as that journal, unless memory is refused.
    ensures only { (j : Written) → IsJournal answers.now.names text.now j → MatchResult result (λ k. k ≡ j) (λ f. f ≡ MemoryFault) }
{
    // For the prover: no two sites have one name, so a text is that of one journal at most.
    answers.are_apart();
    let mut lines = match Lines::new(alloc, text) {
        Ok(lines) => lines,
        Err(fault) => return Err(fault_of(fault)),
    };
    let mut journal = Journal::new(alloc, lines.version());
    // A placeholder, which `next` overwrites.
    let mut entry = Entry::Tick(0);
    loop {
        match lines.next(answers, &mut entry) {
            Ok(true) => {}
            Ok(false) => return Ok(journal),
            Err(fault) => return Err(fault_of(fault)),
        }
        if journal.push(&entry).is_err() {
            return Err(JournalFault::Memory);
        }
    }
}

// Whether an entry has a line in a journal of that version.
fn is_written(version: Version, entry: &Entry, answers: &Answers) -> bool
    ensures fits { result ≡ true → Fits answers.now.names entry.now × (is_of version entry.now ≡ true) }
    ensures named { result ≡ true → IsNamed answers.now.names entry.now }
    ensures other { result ≡ false → Fits answers.now.names entry.now → is_of version entry.now ≡ true → ⊥ }
    ensures unnamed { result ≡ false → IsNamed answers.now.names entry.now → is_of version entry.now ≡ true → ⊥ }
{
    is_known(version, entry) && has_line(entry, answers)
}

/// Appends the text of a journal. Ok(false) if one of its entries has no line: it calls a site that isn't in the table, or is a cancel in the first
/// version; then the lines before it were appended. The error is refused memory; some lines may be appended by then.
pub fn write_journal(
    journal: &Journal,
    answers: &Answers,
    out: &mut Vec<u8>,
) -> Result<bool, AllocError>
    ensures written { IfOk result (λ whole. whole ≡ true → out.new.items ≡ out.old.items ++ journal_text answers.now.names journal.now) }
    ensures each { IfOk result (λ whole. whole ≡ true → AreOf answers.now.names journal.now.version journal.now.entries) }
    ensures lacking { IfOk result (λ whole. whole ≡ false → AreOf answers.now.names journal.now.version journal.now.entries → ⊥) }
    // In the second version each entry has a line where the sites of all calls have names.
    ensures unnamed { IfOk result (λ whole. whole ≡ false → journal.now.version ≡ Two → AreNamed answers.now.names journal.now.entries → ⊥) }
{
    write_header(out, journal.version())?;
    // A placeholder, which `read` overwrites.
    let mut entry = Entry::Tick(0);
    for at in 0..journal.len() {
        // There is an entry at each place below the length, so `read` is always true.
        if journal.read(at, &mut entry) {
            if !is_written(journal.version(), &entry, answers) {
                return Ok(false);
            }
            write_entry(&entry, answers, out)?;
        }
    }
    Ok(true)
}
