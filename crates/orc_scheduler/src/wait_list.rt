//! The tokens that wait for cells, in a chain of links for each cell. A *cell* is the variable of an opened `f <x< g`: a token that needs its value
//! waits until the cell is bound (it gets a value) or lost (it never will). A `Handle` names a token. `Ready` is the run queue: the tokens whose turn
//! comes.

use crate::ready::{Handle, Ready};
use std::alloc::{AllocError, Global};

// A token that waits for a cell, and the place of the next link in the cell's chain. Places count from 1 in `links`; 0 is none.
#[derive(Clone, Copy)]
struct Link {
    handle: Handle,
    next: u32,
}

/// The tokens that wait, in a chain for each cell. A token may stand in several chains, and one that is gone may stand there still.
pub(crate) struct Waiting {
    // By cell: the place of its chain's first link, from 1; 0 if its chain is empty.
    heads: Vec<u32>,
    // The links of all chains, with those that are free.
    links: Vec<Link>,
    // The place of the first link that is free, from 1; 0 for none. The free ones are a chain too.
    free: u32,
}

// Written out, so that a caller's proof sees one call and not the drop of each field.
impl Drop for Waiting {
    fn drop(self) {
        let Waiting {
            heads: _,
            links: _,
            free: _,
        } = self;
    }
}

impl Waiting {
    /// No token waits.
    pub(crate) fn new(alloc: Global) -> Waiting {
        Waiting {
            heads: Vec::new(alloc),
            links: Vec::new(alloc),
            free: 0,
        }
    }

    // The link at this place, from 1; None for place 0, or one past the links.
    fn link_at(&self, place: u32) -> Option<Link> {
        if place == 0 {
            return None;
        }
        self.links.get((place - 1) as usize).copied()
    }

    // Stores a link in a free place, else behind the others, and gives its place, from 1. The error is refused memory, or that a new place needs more
    // than 32 bits.
    fn put(&mut self, link: Link) -> Result<u32, AllocError> {
        // 0 if no place is free: `link_at` gives None then.
        let place = self.free;
        if let Some(free) = self.link_at(place) {
            self.free = free.next;
            // A place with a link is over 0, so this is the link's index. The prover isn't told so, here and in `wake`.
            if let Some(there) = self.links.get_mut(place.saturating_sub(1) as usize) {
                *there = link;
            }
            return Ok(place);
        }
        let place = self.links.len() + 1;
        if place > u32::MAX as usize {
            return Err(AllocError);
        }
        self.links.push(link)?;
        Ok(place as u32)
    }

    /// A token waits for a cell: it comes first in the cell's chain. The error is refused memory, or that the place of its link needs more than 32
    /// bits.
    pub(crate) fn add(&mut self, cell: u64, handle: Handle) -> Result<(), AllocError> {
        let cell = cell as usize;
        // Cells without a chain so far get an empty one, up to this cell.
        for _ in self.heads.len()..cell.saturating_add(1) {
            self.heads.push(0)?;
        }
        let next = match self.heads.get(cell) {
            Some(head) => *head,
            None => 0,
        };
        let place = self.put(Link { handle, next })?;
        if let Some(head) = self.heads.get_mut(cell) {
            *head = place;
        }
        Ok(())
    }

    /// Moves the tokens that wait for a cell into the run queue, and frees their links. The error is refused memory; the run stops then, since the
    /// cell's chain still begins at links that are free.
    pub(crate) fn wake(&mut self, cell: u64, ready: &mut Ready) -> Result<(), AllocError> {
        let cell = cell as usize;
        let mut place = match self.heads.get(cell) {
            Some(head) => *head,
            // Nobody has ever waited for this cell or a later one.
            None => 0,
        };
        // No chain is longer than there are links.
        for _ in 0..self.links.len() {
            let Some(link) = self.link_at(place) else {
                break;
            };
            ready.push(link.handle)?;
            // The link becomes the first of the free ones. Its index is its place less 1.
            if let Some(there) = self.links.get_mut(place.saturating_sub(1) as usize) {
                there.next = self.free;
            }
            self.free = place;
            place = link.next;
        }
        if let Some(head) = self.heads.get_mut(cell) {
            *head = 0;
        }
        Ok(())
    }
}
