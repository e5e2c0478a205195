//! When calls are due: notes of due times with the numbers of the calls. A call of a site *pends* until it is answered, and is *due* at the time at
//! which the table of sites answers it.

ghost use Rattle.std.specs.Prelude.{◌≡◌, ◌<◌, ℕ, [], List, length, true, false, OnOk, MatchOption};
ghost use Rattle.orc_indexes.specs.Dues.{IsNoted, IsBefore, IsEarliest, IsLeastFrom, KeepsBut};

use std::alloc::{AllocError, Global};
use std::collections::BTreeSet;
use std::marker::Model;

/// Notes of the logical times at which calls are due, the earliest first: each is the time and then the call's number. A note may outlive its call,
/// so a caller tests each.
#[derive(Drop)]
pub struct Dues {
    // The earliest note is kept beside the tree of the others: if one call pends at a time, the tree stays empty and costs nothing.
    first: Option<(u64, u64)>,
    // All notes but the earliest.
    others: BTreeSet<(u64, u64)>,
}

// Contracts see one list of all notes. The first one is before all others, and without it there are no others. `IsNoted` says that a note is there,
// `IsEarliest` and `IsLeastFrom` which one `first` and `first_at` give, and `KeepsBut` that all notes stay but one, which may go.
impl Model for Dues {
    ghost use Rattle.std.specs.Prelude.{ℕ, List};
    ghost use Rattle.orc_indexes.specs.Dues.{notes_of, IsFirst};

    ghost Value = { List (ℕ × ℕ) };

    ghost view = { λ d. notes_of d.first d.others.keys };

    ghost invariant = { λ d. IsFirst d.first d.others.keys };
}

// Whether a note comes before another: at an earlier time, or at the same time with a lesser number of the call.
#[inline(always)]
fn is_before(one: (u64, u64), other: (u64, u64)) -> bool
    ensures before { result ≡ true → IsBefore one other }
    ensures not { result ≡ false → IsBefore one other → ⊥ }
{
    one.0 < other.0 || (one.0 == other.0 && one.1 < other.1)
}

impl Dues {
    /// No notes.
    pub fn new(alloc: Global) -> Dues
        ensures { result ≡ [] }
    {
        Dues {
            first: None,
            others: BTreeSet::new(alloc),
        }
    }

    /// Notes that the call with this number is due at this logical time. To repeat a note changes nothing. The error is refused memory, and then
    /// nothing changes.
    pub fn note(&mut self, time: u64, number: u64) -> Result<(), AllocError>
        ensures noted { OnOk result (IsNoted self.new time number) }
        ensures kept { (t k : ℕ) → IsNoted self.old t k → IsNoted self.new t k }
    {
        let note = (time, number);
        match self.first {
            // There are no notes yet.
            None => self.first = Some(note),
            // The earlier of the two is kept as the first, and the other one goes into the tree. If both are the same, nothing changes.
            Some(first) => {
                if is_before(note, first) {
                    self.others.insert(first)?;
                    self.first = Some(note);
                } else if is_before(first, note) {
                    self.others.insert(note)?;
                }
            }
        }
        Ok(())
    }

    /// The earliest note: the time, and the number of a call. None if there are no notes.
    pub fn first(&self) -> Option<(u64, u64)>
        ensures { MatchOption result (self.now ≡ []) (IsEarliest self.now) }
    {
        self.first
    }

    /// The least number of a call, `from` or more, that is noted with exactly this time. None if there is none.
    #[inline(always)]
    pub fn first_at(&self, time: u64, from: u64) -> Option<u64>
        ensures { MatchOption result ((k : ℕ) → IsNoted self.now time k → k < from) (IsLeastFrom self.now time from) }
    {
        // Without a first note there are no notes.
        let first = self.first?;
        // No note has an earlier time than the first.
        if first.0 > time {
            return None;
        }
        if first.0 == time && first.1 >= from {
            return Some(first.1);
        }
        // The earliest of the other notes that isn't before this time and number. It counts if it has this time.
        match self.others.range((time, from)..).next() {
            Some(next) if next.0 == time => Some(next.1),
            // The next note has a later time, or there is none.
            _ => None,
        }
    }

    /// Takes a note out, if it is there, so that there are fewer. The others stay.
    #[inline(always)]
    pub fn forget(&mut self, time: u64, number: u64)
        ensures kept { KeepsBut self.old self.new time number }
        ensures gone { IsNoted self.old time number → length self.new < length self.old }
    {
        match self.first {
            // The earliest of the others takes its place.
            Some(first) if first.0 == time && first.1 == number => {
                self.first = self.others.pop_first();
            }
            // Removing a note that isn't there changes nothing.
            _ => {
                self.others.remove(&(time, number));
            }
        }
    }
}
