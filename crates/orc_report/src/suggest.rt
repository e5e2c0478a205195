//! The name that may have been meant, among those that exist, by how few edits lead to it.

ghost use Rattle.std.specs.Prelude.{◌≤◌};

use crate::page::Page;
use std::alloc::{AllocError, Global};
use std::marker::Model;
use strsim::osa_distance;

/// The longest name, in bytes, for which another one is looked for.
const LONGEST: usize = 64;

/// A name of at least so many bytes may be two edits away from the one that was meant; a shorter one, one edit.
const LONG: usize = 6;

/// The search for the name, among some that exist, that is nearest to the one that was written. The caller shows the existing names to the search one
/// by one; the last one that the search takes is the nearest.
#[derive(Drop)]
pub struct Near<'n> {
    alloc: Global,
    name: &'n [u8],
    // A name is taken only if it is at most so many edits away. Each name that is taken lowers this to one less than that name's edits.
    most: usize,
    // Whether any name may still be taken. False for a name that is too long, once one that differs in capitals alone was taken, and after refused
    // memory.
    is_open: bool,
    // Whether memory was refused to a comparison.
    is_refused: bool,
}

impl<'n> Model for Near<'n> {
    ghost use Rattle.std.specs.Prelude.{ℕ};

    // The most edits of a name that is still to be taken.
    ghost Value = { ℕ };

    ghost view = { λ n. n.most };
}

// Whether two names are the same but for capital letters.
fn are_alike(a: &[u8], b: &[u8]) -> bool {
    a.len() == b.len()
        && a.iter()
            .zip(b.iter())
            .all(|(x, y)| x.to_ascii_lowercase() == y.to_ascii_lowercase())
}

// How many edits lead from one name to the other: a letter put in, taken out or changed, or two that change places. None where one of
// them is no UTF-8. The error is refused memory.
fn edits(alloc: Global, a: &[u8], b: &[u8]) -> Result<Option<usize>, AllocError> {
    match (str::from_utf8(a), str::from_utf8(b)) {
        (Ok(a), Ok(b)) => Ok(Some(osa_distance(alloc, a, b)?)),
        _ => Ok(None),
    }
}

impl<'n> Near<'n> {
    /// Begins the search for what this name may have meant. It takes a name that differs in capitals alone, or is at most two edits away; one edit if
    /// `name` has 2 to 5 bytes, and none if it has one byte. Nothing is near a name of over 64 bytes.
    pub fn new(alloc: Global, name: &'n [u8]) -> Near<'n>
        ensures { result ≤ 2 }
    {
        // How many edits away a name may be, by the length of `name` in bytes.
        let most = match name.len() {
            0 | 1 => 0,
            LONG..=LONGEST => 2,
            // From 2 bytes up to 5. A name of over 64 bytes has 1 too, but the search isn't open for it.
            _ => 1,
        };
        Near {
            alloc,
            name,
            most,
            is_open: name.len() <= LONGEST,
            is_refused: false,
        }
    }

    /// Shows one more name to the search. True if the search takes the name: it is near enough, and nearer than all that were taken before. A name
    /// that differs in capitals alone is the nearest, so it is the last one taken. After refused memory the search takes nothing more.
    pub fn takes(&mut self, candidate: &[u8]) -> bool
        ensures { self.new ≤ self.old }
    {
        // The name itself is no suggestion.
        if !self.is_open || candidate == self.name {
            return false;
        }
        if are_alike(self.name, candidate) {
            // No other name can be nearer, so the search ends.
            self.is_open = false;
            return true;
        }
        // Each edit changes the length by one at most, so a name whose length differs by more edits than are allowed needn't be compared; nor any, if
        // no edit is allowed.
        if self.most == 0 || self.name.len().abs_diff(candidate.len()) > self.most {
            return false;
        }
        self.take_if_near(candidate)
    }

    // Takes the name `candidate` if few enough edits lead to it, and says whether it was taken. From then on only nearer names are taken. Where
    // memory is refused the search ends.
    fn take_if_near(&mut self, candidate: &[u8]) -> bool
        ensures { self.new ≤ self.old }
    {
        match edits(self.alloc, self.name, candidate) {
            Ok(Some(edits)) if edits <= self.most => {
                self.most = edits.saturating_sub(1);
                true
            }
            // Too many edits, or no UTF-8.
            Ok(_) => false,
            Err(_) => {
                self.is_open = false;
                self.is_refused = true;
                false
            }
        }
    }
}

impl Page {
    /// If memory was refused to the search for a name, notes this as refused here, too: this text is to say what was found.
    pub fn heed_search(&mut self, near: &Near) {
        if near.is_refused {
            self.refuse();
        }
    }
}
