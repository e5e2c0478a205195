//! The words after the end: the table is closed, and one thread reads them. A word counts the passes to one group. A table of the kit may also have
//! *slots*, places for values; this one has none.
ghost use Rattle.std.specs.Prelude.{◌≡◌, ◌<◌, ℕ, List, length, slice_index};
ghost use Rattle.std.specs.Slots.{slots_items, slots_len, IsFull};

use atomic_table::Closed;
use std::alloc::Global;
use std::marker::Model;

/// The words that a table closed with, at the numbers of their groups, from 0. To a contract it is their list.
pub struct Words {
    // The table after its end, on which no thread makes exchanges any more.
    pub(crate) closed: Closed<(), Global>,
}

// Contracts see the list of the words. Each of them is there, and the table had no slot.
impl Model for Words {
    ghost Value = { List ℕ };

    ghost view = { λ w. slots_items w.closed.words };

    ghost invariant = { λ w. IsFull w.closed.words × (slots_len w.closed.slots ≡ 0) };
}

impl Words {
    /// The word of the group with this number, from 0: its count of passes in bits 0 to 31, published in bit 32, killed in bit 33.
    pub fn word(&self, group: u32) -> u64
        requires { group < length self.now }
        ensures { result ≡ slice_index self.now group }
    {
        self.closed.word(group as usize)
    }
}

// Written out, since a table that was closed is to be freed by a call of its own.
impl Drop for Words {
    fn drop(self) {
        let Words { closed } = self;
        closed.free();
    }
}
