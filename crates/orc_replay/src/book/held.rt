//! What a replay by calls of the book has beside the book: tokens that are out, passes that no record has, and notes on the groups. A token is out
//! while the replay has it. A token's *mark*, or serial, is its number from 1. A *group* is what runs in one right side of a `<x<`, one left side of
//! a `;`, or the whole program. A *pass* stands for one record (a token, a pending call, an inner group) in its group, and the group's *word* counts
//! its passes; an *idle* one names no group, and to *leave* a pass makes it idle. A bind *kills* the groups of its cell's right side: their words
//! are in use until all their passes are left.
//!
//! Loops that end by `break` go over `0..u64::MAX`, so that the prover sees an end.

ghost use Rattle.std.specs.Prelude.{⊤};

use crate::book::passes::Passes;
use crate::book::sides::{Side, Sides};
use crate::stop::Mismatch;
use orc_book::Token;
use orc_word::{Groups, Last, Naming, Pass};
use std::alloc::{AllocError, Global};
use std::marker::Model;
use std::mem;

/// A killed group uses its word until its last pass is left. If killed groups use this many words, the replay looks through all slots for tokens that
/// went with a killed group, and leaves their passes (`Replay::sweep`). With more slots it waits until more words are in use, so that each bind pays
/// for few looks.
const FEW_DYING: usize = 64;

/// However many slots there are, it looks through them once killed groups use this many words: half of the words that can't be taken by open groups
/// (`WORDS`).
const MOST_DYING: usize = 512;

/// A *slot* is the place at which the book has a token's record. Of a slot the replay notes the token that is *out* there (the replay has that token
/// and its pass), if one is, and whether the slot is in `listed`, among those that are still to be looked at.
#[derive(Drop)]
struct Place<P: Naming> {
    // The token that is out in the slot, if one is.
    token: Option<Token<P>>,
    // Whether `listed` has the slot.
    is_listed: bool,
}

/// The tokens and passes that a book has given out, and what each group is.
pub(crate) struct Held<P: Naming> {
    // The passes that no record has, and the groups that are still to be closed.
    pub passes: Passes<P>,
    // What each group is, by the number of its word: which entry ends it, or that none does.
    pub sides: Sides,
    // The tokens that are out, by their slots. A token that went with a killed group stays here until its slot is looked at or taken again.
    out: Vec<Place<P>>,
    // The slot of each token, by its mark. Item 0 stands for no token: there is no mark 0.
    slots: Vec<usize>,
    // The slots in which a token may wait that the book doesn't keep yet.
    listed: Vec<usize>,
    // The numbers of the calls that the last bind has cancelled, in rising order.
    pub cancelled: Vec<u64>,
    // How many of these cancels the journal's entries haven't named yet.
    pub owed: usize,
    // Passes that no record has any more: `Replay::settle` leaves them after each entry.
    pub leave: Vec<Pass<P>>,
}

// Contracts see nothing of it: no caller's proof has to carry its lists.
impl<P: Naming> Model for Held<P> {
    ghost Value = { ⊤ };

    ghost view = { λ _. tt };
}

// Written out, so that each exit of a function that has one drops it by one call.
impl<P: Naming> Drop for Held<P> {
    fn drop(self) {
        let Held {
            passes,
            sides,
            out,
            slots,
            listed,
            cancelled,
            owed: _,
            leave,
        } = self;
        drop(passes);
        drop(sides);
        drop(out);
        drop(slots);
        drop(listed);
        drop(cancelled);
        drop(leave);
    }
}

impl<P: Naming> Held<P> {
    /// No token, and no passes but these. `words` is how many words the book has for its groups. The error is refused memory.
    pub(crate) fn new(alloc: Global, passes: Passes<P>, words: u32) -> Result<Held<P>, AllocError> {
        let sides = Sides::new(alloc, words)?;
        let mut slots = Vec::new(alloc);
        // For the mark 0, which no token has.
        slots.push(0)?;
        Ok(Held {
            passes,
            sides,
            out: Vec::new(alloc),
            slots,
            listed: Vec::new(alloc),
            cancelled: Vec::new(alloc),
            owed: 0,
            leave: Vec::new(alloc),
        })
    }

    /// Takes out the token with this mark. None if it isn't out, after which all is as it was.
    pub(crate) fn take(&mut self, mark: u64) -> Option<Token<P>> {
        let slot = self.slots.get(mark as usize).copied()?;
        let place = self.out.get_mut(slot)?;
        let token = place.token.take()?;
        if token.serial == mark {
            return Some(token);
        }
        // A later token has this slot: it stays.
        place.token = Some(token);
        None
    }

    /// Takes in a new token, which is out from now on. It has to have the next mark: else the error is Other. It is Memory if memory is refused.
    pub(crate) fn stand(&mut self, token: Token<P>) -> Result<(), Mismatch> {
        // `slots` has an item for mark 0 too, so its length is the next mark.
        if token.serial != self.slots.len() as u64 {
            return Err(Mismatch::Other);
        }
        if self.slots.push(token.slot).is_err() {
            return Err(Mismatch::Memory);
        }
        self.hold(token)
    }

    /// Takes a token that is out, new or not, into its slot. If another token stands in that slot, that one went with a killed group, and its pass
    /// goes among those to be left. The error is Memory.
    pub(crate) fn hold(&mut self, token: Token<P>) -> Result<(), Mismatch> {
        let slot = token.slot;
        if self.reach(slot).is_err() {
            return Err(Mismatch::Memory);
        }
        // Not refused: `reach` has made the place.
        let Some(place) = self.out.get_mut(slot) else {
            return Err(Mismatch::Memory);
        };
        if !place.is_listed {
            if self.listed.push(slot).is_err() {
                return Err(Mismatch::Memory);
            }
            place.is_listed = true;
        }
        match mem::replace(&mut place.token, Some(token)) {
            Some(gone) => self.drop_pass(gone.pass),
            None => Ok(()),
        }
    }

    // Has `out` reach up to this slot: adds places without a token where there are none. The error is refused memory.
    fn reach(&mut self, slot: usize) -> Result<(), AllocError> {
        for _ in 0..u64::MAX {
            if slot < self.out.len() {
                break;
            }
            self.out.push(Place {
                token: None,
                is_listed: false,
            })?;
        }
        Ok(())
    }

    /// A slot into which a token has come since it was looked at last; it isn't among these slots any more. None if there is none.
    pub(crate) fn next_listed(&mut self) -> Option<usize> {
        let slot = self.listed.pop()?;
        if let Some(place) = self.out.get_mut(slot) {
            place.is_listed = false;
        }
        Some(slot)
    }

    /// One more than the greatest slot into which a token has come; 0 if there is none.
    pub(crate) fn slots_used(&self) -> usize {
        self.out.len()
    }

    /// Takes out the token that is out in this slot, if one is.
    pub(crate) fn lift(&mut self, slot: usize) -> Option<Token<P>> {
        let place = self.out.get_mut(slot)?;
        place.token.take()
    }

    /// Puts a token back that `lift` took out of its slot.
    pub(crate) fn put_back(&mut self, token: Token<P>) {
        if let Some(place) = self.out.get_mut(token.slot) {
            place.token = Some(token);
        }
    }

    /// Leaves the passes that are to be left, but keeps some (`Passes::keep_warm`). The error is refused memory: the passes before the one at which
    /// it was refused are still to be left.
    pub(crate) fn leave_all(&mut self, groups: &Groups<P>) -> Result<(), AllocError> {
        self.passes.leave_all(groups, &mut self.leave)
    }

    /// Adds a pass, which no record has any more, to those to be left. The error is Memory.
    pub(crate) fn drop_pass(&mut self, pass: Pass<P>) -> Result<(), Mismatch> {
        match self.leave.push(pass) {
            Ok(()) => Ok(()),
            Err(_) => Err(Mismatch::Memory),
        }
    }

    /// Notes that a side was entered: its group has the word `word`, and is inside the group with the word `around`. None is a pass that names no
    /// group, which no token of the book has: the error is Other.
    pub(crate) fn enter_side(
        &mut self,
        word: Option<u32>,
        side: Side,
        around: Option<u32>,
    ) -> Result<(), Mismatch> {
        match (word, around) {
            (Some(word), Some(around)) => {
                self.sides.enter(word, side, around);
                Ok(())
            }
            _ => Err(Mismatch::Other),
        }
    }

    /// Notes that a publication has left the left sides from the group `from` outwards, up to the group `to`, which it doesn't leave. Other if a
    /// right side is among them: a publication binds its cell and doesn't leave it.
    pub(crate) fn leave_sides(
        &mut self,
        from: Option<u32>,
        to: Option<u32>,
    ) -> Result<(), Mismatch> {
        match (from, to) {
            (Some(from), Some(to)) if self.sides.leave(from, to) => Ok(()),
            _ => Err(Mismatch::Other),
        }
    }

    /// The word of this cell's right side, in which a token is whose group has the word `inside`: directly, or in left sides within that right side.
    /// None if the token isn't there, or `inside` is None, of an idle pass, which no token of the book has.
    pub(crate) fn right_side(&self, inside: Option<u32>, cell: u64) -> Option<u32> {
        self.sides.right_side(inside?, cell)
    }

    /// Notes that a bind has dropped the side whose group has this word, and has cancelled the calls in `cancelled`: from now on that group and those
    /// inside it end without an entry, and the journal's next entries have to be these cancels.
    pub(crate) fn kill(&mut self, word: u32) {
        self.sides.kill(word);
        self.owed = self.cancelled.len();
    }

    /// How many words killed groups may use before a bind sweeps: as many as a 16th of the slots, so that a sweep looks at 16 slots for each of them;
    /// but from `FEW_DYING` to `MOST_DYING`.
    pub(crate) fn most_dying(&self) -> usize {
        let most = self.out.len() / 16;
        if most < FEW_DYING {
            FEW_DYING
        } else if most > MOST_DYING {
            MOST_DYING
        } else {
            most
        }
    }

    /// Compares a `cancel` entry with the next of the calls that the last bind has cancelled. Other if it is another one, or no more follow.
    pub(crate) fn cancel(&mut self, number: u64) -> Result<(), Mismatch> {
        // `at` is the place of the first cancel that the journal still owes. It never owes more cancels than there are.
        let Some(at) = self.cancelled.len().checked_sub(self.owed) else {
            return Err(Mismatch::Other);
        };
        // If none is owed, nothing is at that place either; `owed < 1` shows the prover that the subtraction below doesn't wrap.
        if self.owed < 1 || self.cancelled.get(at) != Some(&number) {
            return Err(Mismatch::Other);
        }
        self.owed -= 1;
        Ok(())
    }

    /// Takes a group out of `lasts`, the groups whose last pass was left, so that the caller can close it: the group of this side, or one that ends
    /// without an entry if no side is named. None if no such group is there: it still has a pass, or isn't open.
    pub(crate) fn take_last(&mut self, side: Option<Side>) -> Option<Last<P>> {
        let sides = &self.sides;
        let place = self
            .passes
            .lasts
            .iter()
            .position(|last| sides.ends_by(last.group(), side))?;
        Some(self.passes.lasts.swap_remove(place))
    }

    /// The slot into which the token with this mark has come. None of a mark that no token has.
    pub(crate) fn slot_of(&self, mark: u64) -> Option<usize> {
        self.slots.get(mark as usize).copied()
    }

    /// Whether the token with this mark is out. False of a mark that no token has, too.
    pub(crate) fn is_out(&self, mark: u64) -> bool {
        let Some(slot) = self.slot_of(mark) else {
            return false;
        };
        match self.out.get(slot) {
            Some(place) => match &place.token {
                Some(token) => token.serial == mark,
                None => false,
            },
            None => false,
        }
    }
}
