//! The times that a picture shows, and the slots of the entries among them.

ghost use Rattle.std.specs.Prelude.{◌≤◌};

/// A time that a picture shows, in units of logical time, and how many slots it has: one for each of its entries that are drawn. A cancel (the entry
/// that says that a call was dropped) shares the slot before it, if the time has one.
#[derive(Clone, Copy)]
pub struct Instant {
    pub time: u64,
    pub slots: u64,
}

/// The slot of an entry, whose number is from 1: the place of its instant among all, from 0, and the place of the slot in that, from 0.
#[derive(Clone, Copy)]
pub struct Slot {
    pub entry: u64,
    pub instant: usize,
    pub place: u64,
}

impl Instant {
    /// How many slots wide its band is: one without slots is as wide as one.
    pub fn width(&self) -> u64
        ensures { 1 ≤ result }
    {
        self.slots.max(1)
    }
}
