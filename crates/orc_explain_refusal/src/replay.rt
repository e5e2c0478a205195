//! A journal's entries applied again, up to the one that was refused. A `Watch` follows what an entry names (`Named`): a token, a call, a cell or an
//! otherwise. The *marked term* is the term that is running, with its tokens, each by its number, its *mark*.

use crate::fate::Watch;
use crate::named::{Named, named_by};
use orc_checker::Marked;
use orc_journal::{Journal, Version};
use orc_rules::answers::Answers;
use orc_rules::entry::Entry;
use orc_rules::program::Program;
use std::alloc::{AllocError, Global};

/// The marked term before the refused entry, and what the entries before it have done to what that one names.
pub(crate) struct Replay {
    /// The term before the refused entry, with its marks.
    pub marked: Marked,
    /// For each call, call 1 first, the place of its entry, from 0.
    calls: Vec<usize>,
    /// What the refused entry names first, and what has become of it.
    pub first: Watch,
    /// The cell that a `bind` names beside its token, and what has become of it. It names nothing if the refused entry is no `bind`.
    pub second: Watch,
}

// Written out, so that a caller's proof sees one call and not the drop of each field.
impl Drop for Replay {
    fn drop(self) {
        let Replay {
            marked: _,
            calls: _,
            first: _,
            second: _,
        } = self;
    }
}

impl Replay {
    /// Applies the entries before a place, from 0, which the checker has taken before; so the error is refused memory.
    pub(crate) fn new(
        alloc: Global,
        program: &Program,
        answers: &Answers,
        journal: &Journal,
        place: usize,
    ) -> Result<Replay, AllocError> {
        // Journals of the first version don't record the cancels of a bind, so the checker doesn't ask for them.
        let cancels = matches!(journal.version(), Version::Two);
        let marked = Marked::new(alloc, program, cancels)?;
        let (first, second) = match journal.get(place) {
            Some(Entry::Bind(mark, cell, _)) => (Named::Token(mark), Named::Cell(cell)),
            Some(entry) => (named_by(&entry), Named::Nothing),
            // A cancel is due behind the last entry.
            None => (Named::Nothing, Named::Nothing),
        };
        let first = Watch::new(first, &marked);
        let second = Watch::new(second, &marked);
        let mut replay = Replay {
            marked,
            calls: Vec::new(alloc),
            first,
            second,
        };
        for at in 0..place {
            if let Some(entry) = journal.get(at) {
                replay.apply(program, answers, &entry, at)?;
            }
        }
        Ok(replay)
    }

    // Applies the entry at place `at`, from 0, and notes what it does to what is watched. The checker has taken the entry before, so the error is
    // refused memory.
    fn apply(
        &mut self,
        program: &Program,
        answers: &Answers,
        entry: &Entry,
        at: usize,
    ) -> Result<(), AllocError> {
        if self.marked.step(program, answers, entry).is_err() {
            return Err(AllocError);
        }
        if let Entry::Call(_, _, _, _) = entry {
            self.calls.push(at)?;
        }
        // Explanations count entries from 1.
        let number = (at as u64).saturating_add(1);
        self.first.note(&self.marked, entry, number);
        self.second.note(&self.marked, entry, number);
        Ok(())
    }

    /// The entry in which the call with this number, from 1, was made. None where it wasn't made before the refused entry. `journal` is to be the one
    /// that was applied.
    pub(crate) fn call(&self, journal: &Journal, call: u64) -> Option<Entry> {
        let at = *self.calls.get(call.checked_sub(1)? as usize)?;
        journal.get(at)
    }
}
