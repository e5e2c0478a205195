//! Whether one of the engine's limits (tokens, groups, frames) can have ended a run. The ledger has only the records that are left, so the entries of
//! the journal are counted: a run that is full has at least as many entries that bring a token, open a side or enter a `>x>` as the limit says.

ghost use Rattle.std.specs.Prelude.{◌≡◌, ◌≤◌, ◌↔◌, true};
ghost use Rattle.orc_journal.specs.Sizes.{brings, feeds, opens, total, IsCrowded};

use orc_journal::Journal;
use orc_rules::entry::Entry;
use orc_rules::limits::{MOST_FRAMES, MOST_GROUPS, MOST_TOKENS};

// How many entries of a journal add a token (`brought`), open a side (`opened`), and enter the left side of a `>x>` (`fed`).
#[derive(Clone, Copy)]
struct Sizes {
    brought: usize,
    opened: usize,
    fed: usize,
}

// 1 where the entry brings a token more: a fork, an opened `<x<`, or a right side of a `;` that starts; else 0.
fn brings(entry: &Entry) -> usize
    ensures brings { result ≡ brings entry.now }
    ensures one { result ≤ 1 }
{
    match entry {
        Entry::Fork(_, _, _) | Entry::Open(_, _, _, _) | Entry::Right(_, _) => 1,
        _ => 0,
    }
}

// 1 where the entry opens a side (the right one of a `<x<`, or the left one of a `;`), which makes a group; else 0.
fn opens(entry: &Entry) -> usize
    ensures opens { result ≡ opens entry.now }
    ensures one { result ≤ 1 }
{
    match entry {
        Entry::Open(_, _, _, _) | Entry::Other(_, _) => 1,
        _ => 0,
    }
}

// 1 where the entry enters the left side of a `>x>`, which makes a frame around the token; else 0.
fn feeds(entry: &Entry) -> usize
    ensures feeds { result ≡ feeds entry.now }
    ensures one { result ≤ 1 }
{
    match entry {
        Entry::Seq(_, _) => 1,
        _ => 0,
    }
}

// Counts the entries of a journal that bring a token, open a side, and enter the left side of a `>x>`.
fn sizes_of(journal: &Journal) -> Sizes
    ensures brought { result.brought ≡ total brings journal.now.entries }
    ensures opened { result.opened ≡ total opens journal.now.entries }
    ensures fed { result.fed ≡ total feeds journal.now.entries }
{
    let mut brought = 0;
    let mut opened = 0;
    let mut fed = 0;
    // Each adds at most 1 for an entry, so none overflows.
    for at in 0..journal.len() {
        if let Some(entry) = journal.get(at) {
            brought += brings(&entry);
            opened += opens(&entry);
            fed += feeds(&entry);
        }
    }
    Sizes {
        brought,
        opened,
        fed,
    }
}

/// Whether one of the engine's limits can have ended a run with this journal: true is no proof that one has.
pub(crate) fn is_crowded(journal: &Journal) -> bool
    ensures { result ≡ true ↔ IsCrowded journal.now.entries }
{
    let sizes = sizes_of(journal);
    // A run begins with one token, and one of the groups is the program's own.
    sizes.brought >= MOST_TOKENS - 1 || sizes.opened >= MOST_GROUPS - 1 || sizes.fed >= MOST_FRAMES
}
