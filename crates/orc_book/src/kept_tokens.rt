//! Which tokens the book keeps while they wait for cells. Contracts call the serial of the token that is kept in a slot the slot's *mark*. All other
//! tokens are *out*, with workers. A *cell* stands for the x of an opened `f <x< g`; tokens wait for it until g gives it a value or can't any more.

ghost use Rattle.std.specs.Prelude.{◌≡◌, ◌<◌, ◌≤◌, ℕ, [], length, true, false, OnOk, OnErr};
ghost use Rattle.orc_book.specs.Held.{IsMarked, mark_at};

use std::alloc::{AllocError, Global};
use std::marker::Model;

/// A token by its slot and its serial, which begins with 1: a slot is used again, a serial never.
#[derive(Clone, Copy)]
pub(crate) struct Handle {
    pub slot: usize,
    pub serial: u64,
}

// A link of a cell's chain: a token that waits for the cell, and the place of the next link. Places in `links` count from 1; 0 is none.
#[derive(Clone, Copy)]
struct Link {
    handle: Handle,
    next: u32,
}

/// Which tokens are kept, and for each cell a chain of those that wait for it. The chains are hints: a token may be in several, and one that is out
/// or gone may still be in some.
#[derive(Drop)]
pub(crate) struct Keeping {
    // The serial of the token that is kept in each slot; 0 for none.
    kept: Vec<u64>,
    // By cell: the place of its first link, from 1; 0 for none.
    heads: Vec<u32>,
    // The links of all chains, with those that are free.
    links: Vec<Link>,
    // The place of the first link that is free, from 1; 0 for none. The free ones are a chain too.
    free: u32,
}

impl Model for Keeping {
    ghost use Rattle.std.specs.Prelude.{ℕ, List};

    // Contracts see the marks alone: by slots, the serial of the token that is kept there, 0 for none.
    ghost Value = { List ℕ };

    ghost view = { λ k. k.kept.items };
}

impl Keeping {
    /// No token is kept.
    pub(crate) fn new(alloc: Global) -> Keeping
        ensures { result ≡ [] }
    {
        Keeping {
            kept: Vec::new(alloc),
            heads: Vec::new(alloc),
            links: Vec::new(alloc),
            free: 0,
        }
    }

    /// How many links there are, in chains or free.
    pub(crate) fn len(&self) -> usize {
        self.links.len()
    }

    // The link with this place, which counts from 1; None for place 0, or one past the links.
    fn link_at(&self, place: u32) -> Option<Link> {
        if place == 0 {
            return None;
        }
        self.links.get((place - 1) as usize).copied()
    }

    // The place of a cell's first link; 0 where the cell's chain is empty.
    fn head_at(&self, cell: usize) -> u32 {
        match self.heads.get(cell) {
            Some(head) => *head,
            None => 0,
        }
    }

    // Puts a link into a free place, or else behind the others, and gives its place, from 1. Refused if the place takes over 32 bits, or if memory
    // is. No mark changes.
    fn put(&mut self, link: Link) -> Result<u32, AllocError>
        ensures { self.new ≡ self.old }
    {
        let place = self.free;
        if let Some(free) = self.link_at(place) {
            self.free = free.next;
            // A place with a link is over 0, so this is the link's index. The prover isn't told so.
            if let Some(there) = self.links.get_mut(place.saturating_sub(1) as usize) {
                *there = link;
            }
            return Ok(place);
        }
        let place = self.links.len() + 1;
        if place > u32::MAX as usize {
            return Err(AllocError);
        }
        self.links.push(link)?;
        Ok(place as u32)
    }

    // Puts a token that waits for this cell in front of the cell's chain, the list of the tokens that may wait for it. The error is that of `put` or
    // refused memory; the chain is as it was then. No mark changes.
    fn add(&mut self, cell: u64, handle: Handle) -> Result<(), AllocError>
        ensures { self.new ≡ self.old }
    {
        let cell = cell as usize;
        // Cells have small numbers; the prover isn't told so.
        let Some(len) = cell.checked_add(1) else {
            return Err(AllocError);
        };
        if len > self.heads.len() {
            self.heads.resize(len, 0)?;
        }
        // The new link is the first of the chain, and what was first comes next.
        let next = self.head_at(cell);
        let place = self.put(Link { handle, next })?;
        if let Some(head) = self.heads.get_mut(cell) {
            *head = place;
        }
        Ok(())
    }

    // Makes `kept` long enough for this slot. Slots that it adds keep no token. The error is refused memory.
    fn reach(&mut self, slot: usize) -> Result<(), AllocError>
        ensures same { (i : ℕ) → mark_at self.new i ≡ mark_at self.old i }
        ensures there { OnOk result (slot < length self.new) }
        ensures refused { OnErr result (self.new ≡ self.old) }
    {
        // Slots have small numbers; the prover isn't told so.
        let Some(len) = slot.checked_add(1) else {
            return Err(AllocError);
        };
        if len <= self.kept.len() {
            return Ok(());
        }
        self.kept.resize(len, 0)
    }

    /// Keeps a token, by its slot and serial, that waits for these cells. If memory is refused, it isn't kept.
    pub(crate) fn keep(&mut self, cells: &[u64], handle: Handle) -> Result<(), AllocError>
        ensures kept { OnOk result (IsMarked self.old handle.slot handle.serial self.new) }
        ensures refused { OnErr result (self.new ≡ self.old) }
    {
        for cell in cells {
            self.add(*cell, handle)?;
        }
        // The token is kept only once `kept` has its serial, below. Links that were added before a refusal stay, and do no harm.
        self.reach(handle.slot)?;
        // By `reach` the slot is there.
        let Some(kept) = self.kept.get_mut(handle.slot) else {
            unreachable!()
        };
        *kept = handle.serial;
        Ok(())
    }

    /// The serial of the token that is kept in a slot; 0 for none.
    pub(crate) fn serial_at(&self, slot: usize) -> u64
        ensures { result ≡ mark_at self.now slot }
    {
        match self.kept.get(slot) {
            Some(kept) => *kept,
            None => 0,
        }
    }

    /// Takes the first token out of the chain of this cell; None where the chain is empty. No mark changes. Perhaps the token isn't kept any more:
    /// `release` tells.
    pub(crate) fn pop(&mut self, cell: u64) -> Option<Handle>
        ensures { self.new ≡ self.old }
    {
        let cell = cell as usize;
        let place = self.head_at(cell);
        let link = self.link_at(place)?;
        if let Some(head) = self.heads.get_mut(cell) {
            *head = link.next;
        }
        // The link that was taken out becomes the first free one. Places count from 1, so the link's index is `place - 1`.
        if let Some(there) = self.links.get_mut(place.saturating_sub(1) as usize) {
            there.next = self.free;
        }
        self.free = place;
        Some(link.handle)
    }

    /// Keeps this token no longer. False, and nothing changes, where its slot keeps another token or none.
    pub(crate) fn release(&mut self, handle: Handle) -> bool
        ensures kept { result ≡ true → (mark_at self.old handle.slot ≡ handle.serial) × IsMarked self.old handle.slot 0 self.new }
        ensures other { result ≡ false → self.new ≡ self.old }
    {
        match self.kept.get_mut(handle.slot) {
            Some(kept) if *kept == handle.serial => {
                *kept = 0;
                true
            }
            // Another token is kept in the slot, or none, or `kept` doesn't reach it.
            _ => false,
        }
    }
}
