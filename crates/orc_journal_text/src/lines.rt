//! The entries of a journal's text, read one after another from any reader. Of the text 64 KiB are in memory at most, or about twice the longest line
//! if a site's name makes that more. `answers` is the table of sites, which has their names. A *cancel* is the entry with which a pending call goes,
//! since a `bind` has dropped the right side of a `<x<` in which it was.

ghost use Rattle.std.specs.Prelude.{◌≡◌, ◌<◌, ◌^◌, ◌+◌, ◌-◌, ◌++◌, ◌∷◌, [], if◌then◌else◌, List, ℕ, true, false, IfOk, IfErr, IfSome, OnErr, Some};
ghost use Rattle.std.specs.Io.KnownBytes.{Consumes};
ghost use Rattle.orc_rules.specs.Digits.{Gives};
ghost use Rattle.orc_rules.specs.Text.{line, Fits};
ghost use Rattle.orc_rules.specs.declared.entry.Entry.{Entry as EntryOf};
ghost use Rattle.orc_journal_text.specs.Lines.{HasRead, HasTooMany, IsLinesFault, to_read};
ghost use Rattle.orc_journal_text.specs.Pieces.{MayCome};
ghost use Rattle.orc_journal_text.specs.Reading.{header_at};
ghost use Rattle.orc_journal.specs.Written.{counts};
ghost use Rattle.orc_journal_text.specs.Texts.{is_of, IsJournal, NoLine};
ghost use Rattle.orc_journal_text.specs.declared.lines.LinesFault.TheVariants.{Text};
ghost use Rattle.orc_journal_text.specs.declared.text.JournalFault.TheVariants.{Line, Long};

use crate::longest::is_longest;
use crate::pieces::Pieces;
use crate::reader::{after, read_entry};
use crate::text::JournalFault;
use orc_journal::Version;
use orc_rules::answers::Answers;
use orc_rules::entry::Entry;
use orc_rules::limits::MOST_ENTRIES;
use std::alloc::Global;
use std::io::Read;
use std::marker::Model;

/// How many bytes the first line has, in either version.
const HEADER: usize = 14;

/// Why the entries of a text can't be read to its end.
#[derive(Clone, Copy, PartialEq, Eq, Debug)]
pub enum LinesFault {
    /// The text isn't that of a journal (J1 to J3), or memory was refused (J4).
    Text(JournalFault),
    /// The reader failed.
    Unread,
}

/// A journal's text whose first entries were read. It is read piece by piece, and only the bytes that have come and aren't used are kept.
#[derive(Drop)]
pub struct Lines<R: Read + Drop> {
    version: Version,
    // What has come of the text and isn't used, and the reader.
    pieces: Pieces<R>,
    // How many entries were read.
    read: usize,
    // How many of them count for `MOST_ENTRIES`: all but the cancels.
    counted: u64,
}

// Each entry that was read had one byte at least, so no more were read than bytes came: `read` can't overflow.
impl<R: Read + Drop> Model for Lines<R> {
    ghost use Rattle.std.specs.Prelude.{◌≤◌, ◌<◌, ◌+◌, ◌^◌, length};
    ghost use Rattle.orc_rules.specs.declared.limits.TheConstants.{LONGEST_JOURNAL, MOST_ENTRIES};
    ghost use Rattle.orc_journal_text.specs.Lines.{Left};

    ghost Value = { Left };

    // `coming` is what has come of the text and isn't used, with what the reader still has.
    ghost view = { λ l. record { version = l.version; coming = l.pieces; read = l.read; counted = l.counted } };

    ghost invariant = { λ l. (l.read + length l.pieces.rest ≤ l.pieces.came) × (l.pieces.came < LONGEST_JOURNAL + 2 ^ 63) × (l.counted ≤ MOST_ENTRIES) };
}

// The version that the first line names, and what follows the line. None if no header is at the front.
fn read_header(text: &[u8]) -> Option<(Version, &[u8])>
    ensures { Gives (λ x. (x.0, x.1.now)) result (header_at text.now) }
{
    if let Some(rest) = after(b"orc-journal 1\n", text) {
        return Some((Version::One, rest));
    }
    let rest = after(b"orc-journal 2\n", text)?;
    Some((Version::Two, rest))
}

/// Whether a journal of that version may have the entry: the first version has no cancels.
pub(crate) fn is_known(version: Version, entry: &Entry) -> bool
    ensures { result ≡ is_of version entry.now }
{
    !matches!((version, entry), (Version::One, Entry::Cancel(_)))
}

// How many entries count for `MOST_ENTRIES`, with this one, where `counted` did before it: a cancel doesn't count.
fn count_with(counted: u64, entry: &Entry) -> u64
    requires { counted < 2 ^ 63 }
    ensures { result ≡ (if counts entry.now then counted + 1 else counted) }
{
    if matches!(entry, Entry::Cancel(_)) {
        counted
    } else {
        counted + 1
    }
}

// The fault (J2) of the line that follows the header and the lines of `read` entries. Lines count from 1, and line 1 is the header.
fn line_fault(read: usize) -> LinesFault
    requires { read < 2 ^ 64 - 2 }
    ensures { result ≡ Text (Line (read + 2)) }
{
    LinesFault::Text(JournalFault::Line(read + 2))
}

// Puts the entry whose line is at the front into `entry`, and gives the bytes behind the line. None if no line of an entry of that version is there.
fn next_entry<'a>(
    version: Version,
    bytes: &'a [u8],
    answers: &Answers,
    entry: &mut Entry,
) -> Option<&'a [u8]>
    // The bytes read are the entry's line.
    ensures found { IfSome result (λ r. (bytes.now ≡ line answers.now.names entry.new ++ r.now) × Fits answers.now.names entry.new × (is_of version entry.new ≡ true)) }
    // If the line of an entry of that version is at the front, that entry is read.
    ensures only { (e : EntryOf) (rest : List ℕ) → Fits answers.now.names e → is_of version e ≡ true → bytes.now ≡ line answers.now.names e ++ rest → Gives {Y = EntryOf × List ℕ} (λ r. (entry.new, r.now)) result (Some (e, rest)) }
{
    let rest = read_entry(bytes, answers, entry)?;
    if is_known(version, entry) {
        Some(rest)
    } else {
        None
    }
}

impl<R: Read + Drop> Lines<R> {
    /// Begins to read a text: reads its header, and no entry. The fault is J1 if there is no header, or J3 if the text is also longer than a journal
    /// may be; J4 if memory is refused; or `Unread`.
    pub fn new(alloc: Global, source: R) -> Result<Lines<R>, LinesFault>
        // One piece of the text has come, and none of its entries was read.
        ensures begun { IfOk result (λ l. (piece : List ℕ) × Consumes (R.remaining source) l.coming.left piece × ((names : List (List ℕ)) → HasRead names piece l [])) }
        // The fault is that of the whole text, whatever names the sites have.
        ensures fault { IfErr result (λ f. (names : List (List ℕ)) → IsLinesFault names (R.remaining source) [] f) }
    {
        let Ok(mut pieces) = Pieces::new(alloc, source) else {
            return Err(LinesFault::Text(JournalFault::Memory));
        };
        loop {
            if let Some((version, rest)) = read_header(pieces.rest()) {
                // The header is used: only the bytes behind it are kept.
                let left = rest.len();
                pieces.keep_last(left);
                return Ok(Lines {
                    version,
                    pieces,
                    read: 0,
                    counted: 0,
                });
            }
            if pieces.rest().len() >= HEADER {
                // The header is wrong. The rest of the text is counted: if it is too long, the fault is J3 and not J1.
                pieces.skip()?;
                return Err(LinesFault::Text(JournalFault::Header));
            }
            // Too few bytes have come to tell.
            if !pieces.fill()? {
                return Err(LinesFault::Text(JournalFault::Header));
            }
        }
    }

    /// The version of the text.
    pub fn version(&self) -> Version
        ensures { result ≡ self.now.version }
    {
        self.version
    }

    /// How many entries were read, cancels too.
    pub fn read(&self) -> usize
        ensures count { result ≡ self.now.read }
        ensures fits { result < 2 ^ 64 - 1 }
    {
        self.read
    }

    // Puts the entry whose line is at the front of what has come into `entry`. Ok(false) if none is there, perhaps because its end hasn't come; then
    // nothing is used, but `entry` may have become another one. The fault is J3: the entry is one too many.
    fn take_line(&mut self, answers: &Answers, entry: &mut Entry) -> Result<bool, LinesFault>
        ensures version { self.new.version ≡ self.old.version }
        // It reads nothing from the reader.
        ensures left { self.new.coming.left ≡ self.old.coming.left }
        // true: after the entries that were read so far this one was read.
        ensures more { IfOk result (λ some. some ≡ true → (text : List ℕ) (es : List EntryOf) → HasRead answers.now.names text self.old es → HasRead answers.now.names text self.new (es ++ entry.new ∷ [])) }
        // Fewer bytes are left to read: a loop that calls it ends.
        ensures less { IfOk result (λ some. some ≡ true → to_read self.new < to_read self.old) }
        ensures none { IfOk result (λ some. some ≡ false → (self.new ≡ self.old) × NoLine answers.now.names self.old.version self.old.coming.rest) }
        ensures same { OnErr result (self.new ≡ self.old) }
        ensures fault { IfErr result (λ f. (f ≡ Text Long) × ((text : List ℕ) (es : List EntryOf) → HasRead answers.now.names text self.old es → HasTooMany answers.now.names text self.old.version)) }
    {
        let Some(behind) = next_entry(self.version, self.pieces.rest(), answers, entry) else {
            // No whole line of an entry of this text's version is at the front.
            return Ok(false);
        };
        let left = behind.len();
        let counted = count_with(self.counted, entry);
        if counted > MOST_ENTRIES {
            return Err(LinesFault::Text(JournalFault::Long));
        }
        // Drops the line: only the bytes behind it are kept.
        self.pieces.keep_last(left);
        self.read += 1;
        self.counted = counted;
        Ok(true)
    }

    /// Puts the next entry into `entry`. Ok(false) at the end of the text. The fault is that of the whole text: J2 if its next line is none of an
    /// entry, or calls a site that the table doesn't have; J3 if there are more entries or bytes than a journal may have; J4 if memory is refused; or
    /// `Unread`. At a fault `entry` may have become another one.
    pub fn next(&mut self, answers: &Answers, entry: &mut Entry) -> Result<bool, LinesFault>
        ensures version { self.new.version ≡ self.old.version }
        // true: a piece more of the text has come, perhaps an empty one, and of all that has come one entry more was read.
        ensures more { IfOk result (λ some. some ≡ true → (piece : List ℕ) × Consumes self.old.coming.left self.new.coming.left piece × ((text : List ℕ) (es : List EntryOf) → HasRead answers.now.names text self.old es → HasRead answers.now.names (text ++ piece) self.new (es ++ entry.new ∷ []))) }
        ensures less { IfOk result (λ some. some ≡ true → to_read self.new < to_read self.old) }
        ensures same { IfOk result (λ some. some ≡ false → self.new.read ≡ self.old.read) }
        // false: with what has come by then, the text is that of the journal of the entries read.
        ensures end { IfOk result (λ some. some ≡ false → (piece : List ℕ) × MayCome self.old.coming.left piece × ((text : List ℕ) (es : List EntryOf) → HasRead answers.now.names text self.old es → IsJournal answers.now.names (text ++ piece) (record { version = self.old.version; entries = es }))) }
        ensures fault { IfErr result (λ f. (text : List ℕ) (es : List EntryOf) → HasRead answers.now.names text self.old es → IsLinesFault answers.now.names self.old.coming.left text f) }
    {
        while !self.take_line(answers, entry)? {
            // As much has come as the longest line has, so no more bytes will make a line of it. The rest is counted: too long a text is J3, not J2.
            if is_longest(self.pieces.rest(), answers) {
                self.pieces.skip()?;
                return Err(line_fault(self.read));
            }
            if !self.pieces.fill()? {
                if self.pieces.rest().is_empty() {
                    // The text has ended, and all of it was used.
                    return Ok(false);
                }
                // What is left is no line, or only the beginning of one.
                return Err(line_fault(self.read));
            }
        }
        Ok(true)
    }

    /// Reads the entries that are left and keeps none of them: only whether the text is a journal's is asked. The fault is that of `next`.
    pub fn finish(&mut self, answers: &Answers) -> Result<(), LinesFault>
        // The text is that of a journal that begins with the entries read so far.
        ensures end { IfOk result (λ _. (piece : List ℕ) × MayCome self.old.coming.left piece × ((text : List ℕ) (es : List EntryOf) → HasRead answers.now.names text self.old es → (more : List EntryOf) × IsJournal answers.now.names (text ++ piece) (record { version = self.old.version; entries = es ++ more }))) }
        ensures fault { IfErr result (λ f. (text : List ℕ) (es : List EntryOf) → HasRead answers.now.names text self.old es → IsLinesFault answers.now.names self.old.coming.left text f) }
    {
        // A placeholder, which `next` overwrites.
        let mut entry = Entry::Tick(0);
        while self.next(answers, &mut entry)? {}
        Ok(())
    }
}
