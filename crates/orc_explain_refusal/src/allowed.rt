//! The entries that are allowed at a place of a run, in words. Where a `bind` drops the right side of a `<x<`, a `cancel` is due for each call that
//! was pending in it.

use crate::line::say_entry;
use orc_report::{Fill, Page};
use orc_rules::answers::Answers;
use orc_rules::entry::Entry;
use orc_verdict::Allowed;
use std::alloc::Global;

/// The number, from 1, of the call whose `cancel` has to come next, if one is due: that is the only entry that is allowed then. None where no cancel
/// is due.
pub(crate) fn cancel_in(allowed: &Allowed) -> Option<u64> {
    match allowed.entries().first() {
        Some(Entry::Cancel(call)) => Some(*call),
        _ => None,
    }
}

/// Writes the line of the first entries that are allowed, and how many more are; `answers` has the names of their sites. If none is, it says that the
/// term has halted (`has_halted`), or else that it has gone quiet: nothing can happen any more.
pub(crate) fn say_allowed(
    page: &mut Page,
    alloc: Global,
    answers: &Answers,
    allowed: &Allowed,
    has_halted: bool,
) {
    let entries = allowed.entries();
    page.note("allowed here: ");
    if entries.is_empty() {
        page.say("nothing: the term has ");
        page.say(if has_halted { "halted" } else { "gone quiet" });
    }
    for (place, entry) in entries.iter().enumerate() {
        if place > 0 {
            page.say(", ");
        }
        say_entry(page, alloc, answers, entry);
    }
    // `entries` has the first allowed entries alone, and `count` counts all.
    let more = allowed.count().saturating_sub(entries.len() as u64);
    if more > 0 {
        page.tell(" and % more", &[Fill::Number(more)]);
    }
    page.say("\n");
}
