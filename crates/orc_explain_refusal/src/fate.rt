//! What has become of what a refused entry names, if that isn't in the term any more. `Named` is what an entry names: a token, a call, a cell or an
//! otherwise, by its number. The *marked term* (`marked`) is the term that is running, with its tokens, each by its number, its mark. A side is the
//! right side of an opened `<x<` or the left side of an entered `;`: where an entry drops it, all in it is gone. `page.tell` writes words, with the
//! fills in place of their `%` in turn.

use crate::named::{Named, named_by, place_of, stands_at};
use orc_checker::Marked;
use orc_report::{Fill, Page};
use orc_rules::entry::Entry;
use orc_term::arena::{Kind, Single};
use orc_verdict::numbers_of;

/// What has become of a token, a call, a cell or an otherwise, with the number of the entry, from 1, by which it left the term.
#[derive(Clone, Copy)]
pub(crate) enum Fate {
    /// Nothing: it is there, or never was.
    Nothing,
    /// An entry named it, and that used it up.
    UsedUp(u64),
    /// The call has returned.
    Returned(u64),
    /// The call was cancelled, by the `cancel` behind the bind that dropped its side.
    Cancelled(u64),
    /// A `bind` dropped the side in which it stood.
    Bound(u64),
    /// A `lost` or a `right` dropped the side in which it stood.
    Ended(u64),
    /// The left side of the otherwise has published, so its right side can't start any more and no entry can name the otherwise.
    Left(u64),
}

/// What an entry names, watched while the entries before it are applied.
#[derive(Clone, Copy)]
pub(crate) struct Watch {
    /// What is watched.
    pub named: Named,
    /// What has become of it so far.
    pub fate: Fate,
    // The number of its node, which stays the same as long as it stands. None until an entry has made it.
    place: Option<usize>,
}

// Whether an entry makes what is named: its number is among the entry's new ones, or, for an otherwise, the entry is the `other` of its mark.
fn is_brought(named: Named, entry: &Entry) -> bool {
    let new = numbers_of(entry);
    match named {
        Named::Token(mark) => new.mark == Some(mark) || new.second == Some(mark),
        Named::Call(call) => new.call == Some(call),
        Named::Cell(cell) => new.cell == Some(cell),
        Named::Otherwise(mark) => matches!(entry, Entry::Other(number, _) if *number == mark),
        Named::Nothing => false,
    }
}

// Whether an entry uses up what is named, since the entry names the same. A `bind` uses up its token and its cell.
fn is_used(named: Named, entry: &Entry) -> bool {
    match (named, named_by(entry)) {
        (Named::Token(mark), Named::Token(used)) => mark == used,
        (Named::Call(call), Named::Call(used)) => call == used,
        (Named::Cell(cell), Named::Cell(used)) => cell == used,
        (Named::Otherwise(mark), Named::Otherwise(used)) => mark == used,
        (Named::Cell(cell), Named::Token(_)) => {
            matches!(entry, Entry::Bind(_, bound, _) if *bound == cell)
        }
        _ => false,
    }
}

impl Watch {
    /// Watches what is named from the beginning of a run on. `marked` is the run's term before its first entry.
    pub(crate) fn new(named: Named, marked: &Marked) -> Watch {
        Watch {
            named,
            fate: Fate::Nothing,
            place: place_of(marked, named),
        }
    }

    /// Takes note of the entry with this number, from 1, which has just been applied; `marked` is the term behind that entry.
    pub(crate) fn note(&mut self, marked: &Marked, entry: &Entry, number: u64) {
        // A bind drops a pending call first; the `cancel` behind the bind says of the call itself that it was cancelled.
        match (self.named, self.fate, entry) {
            (Named::Call(call), Fate::Bound(_), Entry::Cancel(cancelled)) if *cancelled == call => {
                self.fate = Fate::Cancelled(number);
            }
            // Only the cancel of a call that a bind dropped says more of a fate that is known.
            _ => {}
        }
        match self.place {
            // What is named wasn't in the term before this entry, which makes it: from here on it has a node.
            None if is_brought(self.named, entry) => self.place = place_of(marked, self.named),
            // What is named was at that node, and isn't any more: this entry took it away, or, if its fate is known already, an earlier one did.
            Some(place) if !stands_at(marked, place, self.named) => {
                if let Fate::Nothing = self.fate {
                    self.fate = self.ended_by(marked, place, entry, number);
                }
            }
            // What is named isn't made yet, or it still stands.
            _ => {}
        }
    }

    // The fate of what is named. It was at the node with the number `place` until the entry with this number was applied; `marked` is the term behind
    // that entry.
    fn ended_by(&self, marked: &Marked, place: usize, entry: &Entry, number: u64) -> Fate {
        if is_used(self.named, entry) {
            return match self.named {
                Named::Call(_) => Fate::Returned(number),
                _ => Fate::UsedUp(number),
            };
        }
        if let Some(slot) = marked.nodes().get(place) {
            // An otherwise that has published becomes a node that means its left side alone.
            if let Kind::One(Single::Passed, _) = slot.node().kind {
                return Fate::Left(number);
            }
        }
        match entry {
            Entry::Bind(_, _, _) => Fate::Bound(number),
            // A `lost` or a `right`: no other entry drops a side.
            _ => Fate::Ended(number),
        }
    }

    /// Whether what is named is in the term.
    pub(crate) fn stands(&self) -> bool {
        match (self.place, self.fate) {
            (Some(_), Fate::Nothing) => true,
            _ => false,
        }
    }

    /// Writes that what is named isn't in the term `marked`, and why: the entry that took it away, or that it never was there.
    pub(crate) fn say(&self, marked: &Marked, page: &mut Page) {
        // The word for what is named, its number, and the next number of its kind.
        let (kind, number, next) = match self.named {
            Named::Token(mark) => ("mark", mark, marked.new_mark()),
            Named::Call(call) => ("call", call, marked.new_call()),
            Named::Cell(cell) => ("cell", cell, marked.new_cell()),
            Named::Otherwise(mark) => ("otherwise", mark, marked.new_mark()),
            // Not reached: an entry that names nothing isn't refused for what it names.
            Named::Nothing => ("mark", 0, 1),
        };
        // How many of its kind there have been: they are numbered from 1.
        let last = next.saturating_sub(1);
        // The words for why it isn't there, and the number that stands for their `%`; 0 if they have none.
        let (why, other) = match self.fate {
            Fate::UsedUp(entry) => (": entry % used it up", entry),
            Fate::Returned(entry) => (": it has returned at entry %", entry),
            Fate::Cancelled(entry) => (": it was cancelled at entry %", entry),
            Fate::Bound(entry) => (": the bind at entry % dropped it", entry),
            Fate::Ended(entry) => (": the end of its side at entry % dropped it", entry),
            Fate::Left(entry) => (": the publication at entry % left it", entry),
            // It has never stood in the term.
            Fate::Nothing if last == 0 => (": there was none before", 0),
            Fate::Nothing if number == 0 => (": numbers begin with 1", 0),
            Fate::Nothing if number > last => (": numbers go up to %", last),
            Fate::Nothing => (": no otherwise was entered by this mark", 0),
        };
        page.tell("no % % now", &[Fill::Text(kind), Fill::Number(number)]);
        page.tell(why, &[Fill::Number(other)]);
        page.say("\n");
    }
}
