//! Writing the text of a journal in pieces, so that not all of it is in memory at one time.

ghost use Rattle.std.specs.Prelude.{◌≡◌, OnOk, OnErr};
ghost use Rattle.std.specs.Io.KnownBytes.{Appends};
ghost use Rattle.orc_journal.specs.declared.journal.Version.TheVariants.{Two};
ghost use Rattle.orc_journal_text.specs.Texts.{AreOf, journal_text};
ghost use Rattle.orc_output.specs.Output.{AppendsPrefix};

use crate::output::{WriteFault, write_text};
use orc_journal::Journal;
use orc_journal_text::{has_line, write_entry, write_header};
use orc_rules::answers::Answers;
use orc_rules::entry::Entry;
use std::alloc::Global;
use std::io::Write;

/// A piece is written as soon as it has so many bytes: the output is asked seldom, and a piece takes little memory.
const PIECE: usize = 65_536;

/// Writes the text of a journal; no more than a piece of it is in memory at one time. The contract promises the whole text for the second version
/// alone (the first one, an older form, has no lines of cancels). The fault is that the output failed or took nothing, that memory for a piece was
/// refused, or that a call's site has no name in the table; then a prefix of the text was written.
pub fn write_journal<W: Write>(
    alloc: Global,
    journal: &Journal,
    answers: &Answers,
    out: &mut W,
) -> Result<(), WriteFault>
    ensures ok { OnOk result (journal.now.version ≡ Two → Appends (W.contents out.old) (W.contents out.new) (journal_text answers.now.names journal.now)) }
    ensures each { OnOk result (journal.now.version ≡ Two → AreOf answers.now.names Two journal.now.entries) }
    ensures err { OnErr result (AppendsPrefix (W.contents out.old) (W.contents out.new) (journal_text answers.now.names journal.now)) }
{
    let mut piece = Vec::new(alloc);
    if write_header(&mut piece, journal.version()).is_err() {
        return Err(WriteFault);
    }
    // A placeholder, which `read` overwrites.
    let mut entry = Entry::Tick(0);
    for at in 0..journal.len() {
        // There is an entry at each place below the length.
        if !journal.read(at, &mut entry) {
            unreachable!()
        }
        // An entry has no line if it calls a site that has no name in the table.
        if !has_line(&entry, answers) {
            return Err(WriteFault);
        }
        if write_entry(&entry, answers, &mut piece).is_err() {
            return Err(WriteFault);
        }
        if piece.len() >= PIECE {
            write_text(out, piece.as_slice())?;
            piece.clear();
        }
    }
    write_text(out, piece.as_slice())
}
