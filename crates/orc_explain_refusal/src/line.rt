//! Entries as lines of a journal.

use orc_journal_text::{has_line, write_entry};
use orc_report::Page;
use orc_rules::answers::Answers;
use orc_rules::entry::Entry;
use std::alloc::{AllocError, Global};

/// The line of an entry, without its LF; empty where there is no entry, or `answers` has no name for its site. The error is refused memory.
pub(crate) fn line_of(
    alloc: Global,
    answers: &Answers,
    entry: Option<&Entry>,
) -> Result<Vec<u8>, AllocError> {
    let mut line = Vec::new(alloc);
    if let Some(entry) = entry {
        if has_line(entry, answers) {
            write_entry(entry, answers, &mut line)?;
        }
    }
    // `write_entry` ends a line with its LF; an empty line has none.
    let _line_feed = line.pop();
    Ok(line)
}

/// Writes the line of an entry, without its LF. `answers` has the names of the sites.
pub(crate) fn say_entry(page: &mut Page, alloc: Global, answers: &Answers, entry: &Entry) {
    match line_of(alloc, answers, Some(entry)) {
        Ok(line) => {
            for byte in line.iter() {
                page.byte(*byte);
            }
        }
        Err(_) => page.refuse(),
    }
}
