//! A hash table from hashes to numbers. It has no contract: a caller compares what it finds, so a wrong number would cost time and nothing else.

use std::alloc::{AllocError, Global};
use std::mem::replace;

/// The number in a free slot.
const FREE: u32 = u32::MAX;

/// How many slots there are at first: a power of two, as the mask asks, which `grow` doubles.
const FEWEST: usize = 16;

/// A number with the two halves of its hash, so that a slot takes twelve bytes.
#[derive(Clone, Copy)]
struct Slot {
    high: u32,
    low: u32,
    // The number, or `FREE`.
    at: u32,
}

/// For each hash the number that was kept for it last. Open addressing: a hash is looked for from the slot of its low bits on, up to a free one.
pub struct Places {
    // None at first, and then as many as a power of two.
    slots: Vec<Slot>,
    // How many slots aren't free.
    used: usize,
    alloc: Global,
}

// Written out, so that a caller's proof sees one call and not the drop of each field.
impl Drop for Places {
    fn drop(self) {
        let Places {
            slots: _,
            used: _,
            alloc: _,
        } = self;
    }
}

impl Slot {
    // The slot of this hash, with this number.
    fn new(hash: u64, at: u32) -> Slot {
        Slot {
            high: (hash >> 32) as u32,
            low: (hash & 0xFFFF_FFFF) as u32,
            at,
        }
    }

    // Whether no number is kept in this slot.
    fn is_free(self) -> bool {
        self.at == FREE
    }

    // Whether both have the same hash.
    fn is_of(self, other: Slot) -> bool {
        self.low == other.low && self.high == other.high
    }
}

impl Places {
    /// No numbers.
    pub fn new(alloc: Global) -> Places {
        Places {
            slots: Vec::new(alloc),
            used: 0,
            alloc,
        }
    }

    /// The number that was kept for this hash last; None if there is none.
    pub fn get(&self, hash: u64) -> Option<usize> {
        // Only its hash is compared; the number says nothing.
        let wanted = Slot::new(hash, FREE);
        // Without slots the loop has no turn, whatever the mask is.
        let mask = self.slots.len().wrapping_sub(1);
        // The low bits of the hash say at which slot the search begins.
        let mut place = wanted.low as usize & mask;
        for _slot in 0..self.slots.len() {
            let slot = self.slots.get(place)?;
            if slot.is_free() {
                return None;
            }
            if slot.is_of(wanted) {
                let Slot { at, .. } = *slot;
                return Some(at as usize);
            }
            place = place.wrapping_add(1) & mask;
        }
        None
    }

    // Puts a number with its hash into the first slot, from that of the hash's low bits on, that is free or has the same hash. Without
    // one nothing is kept; `insert` sees to it that some are free.
    fn put(&mut self, new: Slot) {
        // There are as many slots as a power of two, so the mask makes a place of the hash's low bits. Without slots the loop has no turn.
        let mask = self.slots.len().wrapping_sub(1);
        let mut place = new.low as usize & mask;
        for _slot in 0..self.slots.len() {
            // Never None: the mask keeps the place below the length, a power of two.
            let Some(slot) = self.slots.get_mut(place) else {
                return;
            };
            if slot.is_free() {
                *slot = new;
                self.used = self.used.wrapping_add(1);
                return;
            }
            if slot.is_of(new) {
                *slot = new;
                return;
            }
            place = place.wrapping_add(1) & mask;
        }
    }

    // Makes twice as many slots, or the first `FEWEST`, and puts all numbers into them. The error is refused memory, and then nothing changes.
    fn grow(&mut self) -> Result<(), AllocError> {
        // A slot that has `FREE` in place of a number; its hash says nothing.
        let free = Slot::new(0, FREE);
        let many = self.slots.len().saturating_mul(2).max(FEWEST);
        let before = replace(&mut self.slots, Vec::from_elem(self.alloc, free, many)?);
        // `put` counts them again.
        self.used = 0;
        for slot in before.as_slice() {
            if !slot.is_free() {
                self.put(*slot);
            }
        }
        Ok(())
    }

    /// Keeps this number for this hash, in place of another one that it had. A number of 2^32 - 1 (`FREE`) or more isn't kept: a slot has four bytes
    /// for a number. The error is refused memory, and then nothing changes.
    pub fn insert(&mut self, hash: u64, at: usize) -> Result<(), AllocError> {
        if at >= FREE as usize {
            return Ok(());
        }
        // A quarter of the slots stays free, so that a search for a hash that isn't there is short. Without slots both sides are 0.
        if self.used >= self.slots.len() / 4 * 3 {
            self.grow()?;
        }
        self.put(Slot::new(hash, at as u32));
        Ok(())
    }
}
