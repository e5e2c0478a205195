//! The texts of journals, which are compared once a replay is over.

use orc_journal::Journal;
use orc_journal_text::write_journal;
use orc_rules::answers::Answers;
use std::alloc::Global;

/// Whether two journals have the same text, by the table of sites `answers`, which has the sites' names. None if memory is refused. False also if an
/// entry of one has no line.
pub(crate) fn are_same(
    alloc: Global,
    answers: &Answers,
    one: &Journal,
    other: &Journal,
) -> Option<bool> {
    let mut text = Vec::new(alloc);
    let mut other_text = Vec::new(alloc);
    // `write_journal` answers false if an entry has no line, since the table lacks its site, or it is a cancel in a journal of the first version.
    let whole = write_journal(one, answers, &mut text).ok()?;
    let other_whole = write_journal(other, answers, &mut other_text).ok()?;
    Some(whole && other_whole && text.as_slice() == other_text.as_slice())
}
