//! What each group is, by the number of its word: the whole program, the right side of a cell, or the left side of an otherwise (`;`). The replay
//! notes this beside the book, to know which entry ends a group, or that none does.
//!
//! A group's *word* counts its passes, and goes to another group once this one is closed and no pass names it; here a word is meant by its number.
//! Words are numbers below the number of words. For any other one the program's own group is answered, and nothing is noted.

use orc_rules::limits::MOST_GROUPS;
use std::alloc::{AllocError, Global};

/// What a group is.
#[derive(Clone, Copy, PartialEq, Eq)]
pub(crate) enum Side {
    /// The program's own group.
    Whole,
    /// The right side of the pruning that opened this cell.
    Right(u64),
    /// The left side of an otherwise, which the mark of the token that entered it names.
    Left(u64),
}

/// A group.
#[derive(Clone, Copy)]
struct Group {
    // What it is.
    side: Side,
    // The word of the group outside it. That one keeps its word until this one is closed.
    parent: u32,
    // Whether a publication has left it, so that it ends without an entry.
    is_left: bool,
    // Whether a bind, the entry that gives a cell its value and drops the right side, has dropped this very group. The groups inside aren't marked.
    is_killed: bool,
}

// The program's own group. Nothing is outside it, so its `parent` isn't looked at.
const WHOLE: Group = Group {
    side: Side::Whole,
    parent: 0,
    is_left: false,
    is_killed: false,
};

/// The groups by their words. The program's own has word 0.
#[derive(Drop)]
pub(crate) struct Sides {
    // The group that has each word, or had it last; the program's own for a word that no group has had.
    groups: Vec<Group>,
}

impl Sides {
    /// `words` is how many words there are, 1 at least. A word that no side was entered with has the program's group in its place.
    pub(crate) fn new(alloc: Global, words: u32) -> Result<Sides, AllocError> {
        let mut groups = Vec::new(alloc);
        for _word in 0..words {
            groups.push(WHOLE)?;
        }
        Ok(Sides { groups })
    }

    // The group that has this word, or had it last.
    fn group(&self, word: u32) -> Group {
        match self.groups.get(word as usize) {
            Some(group) => *group,
            None => WHOLE,
        }
    }

    /// Whether the group with this word is this side, which an entry ends; or, if no side is named, whether the group ends without an entry.
    pub(crate) fn ends_by(&self, word: u32, side: Option<Side>) -> bool {
        match side {
            Some(side) => self.group(word).side == side,
            None => self.goes_silently(word),
        }
    }

    /// Notes that a side was entered: its group has the word `word`, and is inside the group with the word `parent`.
    pub(crate) fn enter(&mut self, word: u32, side: Side, parent: u32) {
        if let Some(group) = self.groups.get_mut(word as usize) {
            *group = Group {
                side,
                parent,
                is_left: false,
                is_killed: false,
            };
        }
    }

    /// Notes that a publication has left the left sides from the group `from` outwards, up to the group `to`, which it doesn't leave. False if one of
    /// them is a right side, whose cell would have taken the publication, or if `to` isn't outside `from`; the left sides before that are noted even
    /// so. Open groups are nested at most `MOST_GROUPS` deep, so the loop reaches `to`.
    pub(crate) fn leave(&mut self, from: u32, to: u32) -> bool {
        let mut word = from;
        for _outwards in 0..MOST_GROUPS {
            if word == to {
                return true;
            }
            let Some(group) = self.groups.get_mut(word as usize) else {
                return false;
            };
            if !matches!(group.side, Side::Left(_)) {
                return false;
            }
            group.is_left = true;
            word = group.parent;
        }
        false
    }

    /// The word of the right side of `cell`, if that is the group `from` or only left sides are between them. None otherwise: a publication from
    /// there goes to another cell, or to none.
    pub(crate) fn right_side(&self, from: u32, cell: u64) -> Option<u32> {
        let mut word = from;
        for _outwards in 0..MOST_GROUPS {
            let group = self.group(word);
            match group.side {
                Side::Right(c) if c == cell => return Some(word),
                Side::Left(_) => word = group.parent,
                _ => return None,
            }
        }
        None
    }

    /// Notes that a bind has dropped the group with this word, and with it all groups inside it.
    pub(crate) fn kill(&mut self, word: u32) {
        if let Some(group) = self.groups.get_mut(word as usize) {
            group.is_killed = true;
        }
    }

    // Whether a group ends without an entry: it has published, or it or an enclosing one was killed. Each enclosing group has a word of its own, so
    // the loop reaches the program's group, with word 0, after `2 * MOST_GROUPS` groups at most: no run has more words (`WORDS`).
    fn goes_silently(&self, word: u32) -> bool {
        if self.group(word).is_left {
            return true;
        }
        let mut word = word;
        for _outwards in 0..2 * MOST_GROUPS {
            let group = self.group(word);
            if group.is_killed {
                return true;
            }
            if word == 0 {
                return false;
            }
            word = group.parent;
        }
        false
    }
}
