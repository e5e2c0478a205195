//! What a replay by calls of the ledger notes beside it: where each token is, and which groups are open. A *group* is the members (tokens, pending
//! calls, inner groups) of a *side*: the right side of a `<x<`, or the left side of a `;`.

ghost use Rattle.std.specs.Prelude.{◌<◌, IfSome, vec_len};

use crate::stop::Mismatch;
use orc_rules::limits::MOST_GROUPS;
use std::alloc::{AllocError, Global};

/// What an open group is.
#[derive(Clone, Copy, PartialEq, Eq)]
pub(crate) enum Side {
    /// The right side of the pruning that opened this cell.
    Right(u64),
    /// The left side of an otherwise. Its number is the mark of the token that entered it.
    Left(u64),
}

/// An open group.
#[derive(Clone, Copy)]
pub(crate) struct OpenGroup {
    /// The ledger's number of the group; 0 is the program's own, which isn't noted.
    pub number: u32,
    /// The side that the group is.
    pub side: Side,
    /// The number of the group outside this one; 0 for the program's own.
    pub parent: u32,
    /// Whether a publication has left the group. Then the group ends without an entry once it has no members.
    pub has_published: bool,
}

/// Where each token is, and which groups are open.
#[derive(Drop)]
pub(crate) struct Notes {
    // The slot in which the ledger keeps each token, by the token's serial (its mark in the journal); there is no serial 0.
    slots: Vec<usize>,
    /// The open groups, in any order.
    pub groups: Vec<OpenGroup>,
}

impl Notes {
    /// The notes on a run that has begun: token 1 is in slot 0. The error is refused memory.
    pub(crate) fn new(alloc: Global) -> Result<Notes, AllocError> {
        let mut slots = Vec::new(alloc);
        // No token has serial 0. The first token, whose serial is 1, is in slot 0.
        for _serial in 0..2 {
            slots.push(0)?;
        }
        Ok(Notes {
            slots,
            groups: Vec::new(alloc),
        })
    }

    /// Makes room for the notes on an entry: two tokens and a group, the most that one entry brings (`open`). So no memory is refused for the notes
    /// once the ledger has moved. The error is refused memory.
    pub(crate) fn make_room(&mut self) -> Result<(), AllocError> {
        self.slots.try_reserve(2)?;
        self.groups.try_reserve(1)
    }

    /// The slot in which the ledger keeps the token with this serial, or kept it last. None if there was no such token.
    pub(crate) fn slot_of(&self, serial: u64) -> Option<usize> {
        self.slots.get(serial as usize).copied()
    }

    /// Notes that the newest token, with this serial, is in this slot. Other if the serial isn't the next one, Memory if memory is refused.
    pub(crate) fn stand(&mut self, serial: u64, slot: usize) -> Result<(), Mismatch> {
        // `slots` has an item for serial 0 too, so its length is the next serial.
        if serial != self.slots.len() as u64 {
            return Err(Mismatch::Other);
        }
        match self.slots.push(slot) {
            Ok(()) => Ok(()),
            Err(_) => Err(Mismatch::Memory),
        }
    }

    /// Notes that the group with this number was opened for a side, inside the group with the number `parent` (0 is the program's own). No
    /// publication has left it yet. The error is Memory.
    pub(crate) fn open(&mut self, number: u32, side: Side, parent: u32) -> Result<(), Mismatch> {
        let group = OpenGroup {
            number,
            side,
            parent,
            has_published: false,
        };
        match self.groups.push(group) {
            Ok(()) => Ok(()),
            Err(_) => Err(Mismatch::Memory),
        }
    }

    // The index in `groups` of the group with this number. None if that group isn't open, or is the program's own.
    fn place_of(&self, number: u32) -> Option<usize> {
        self.groups.iter().position(|open| open.number == number)
    }

    /// Notes that a publication has left the left sides from the group with the number `from` outwards, up to the group with the number `to`, which
    /// the publication doesn't leave. Other if one of them isn't open, or is a right side, which no publication leaves. At most `MOST_GROUPS` groups
    /// are nested, so the loop reaches `to`.
    pub(crate) fn leave(&mut self, from: u32, to: u32) -> Result<(), Mismatch> {
        // The number of the group that the publication leaves next.
        let mut number = from;
        for _outwards in 0..MOST_GROUPS {
            if number == to {
                return Ok(());
            }
            let Some(open) = self.groups.iter_mut().find(|open| open.number == number) else {
                return Err(Mismatch::Other);
            };
            if let Side::Right(_) = open.side {
                return Err(Mismatch::Other);
            }
            open.has_published = true;
            // The publication goes on to the group outside.
            number = open.parent;
        }
        Err(Mismatch::Other)
    }

    /// Drops the group of a cell's right side, which a bind has ended, and all groups inside it: each turn drops one whose parent (the group outside
    /// it) isn't there any more. No more than `MOST_GROUPS` are open, so the loop ends by `return`. Other if the cell has no open right side.
    pub(crate) fn drop_side(&mut self, cell: u64) -> Result<(), Mismatch> {
        let Some(place) = self
            .groups
            .iter()
            .position(|open| open.side == Side::Right(cell))
        else {
            return Err(Mismatch::Other);
        };
        // The right side's own group.
        self.groups.swap_remove(place);
        for _inwards in 0..MOST_GROUPS {
            // None: no group without its parent is left.
            let Some(place) = self.orphan() else {
                return Ok(());
            };
            self.groups.swap_remove(place);
        }
        Err(Mismatch::Other)
    }

    // The index in `groups` of a group whose parent, the group outside it, isn't there. None if there is no such group.
    fn orphan(&self) -> Option<usize>
        ensures { IfSome result (λ place. place < vec_len self.now.groups) }
    {
        self.groups.iter().position(|open| open.parent != 0 && self.place_of(open.parent).is_none())
    }
}
