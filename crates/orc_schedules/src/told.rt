//! Ends that were found, each as how it ended and a number.

ghost use Rattle.std.specs.Prelude.{◌≡◌, true};

use crate::once::Hashed;
use orc_outcome::End;
use orc_search::node::mix;

/// An end: how a run ended, and the number of the list of what was seen in it, of the publications, say (`Lists` gives the list).
#[derive(Clone, Copy, PartialEq, Eq)]
pub struct Told {
    /// Halted (all that ran has come to `stop`), or Quiet (something still waits, for what never happens).
    pub end: End,
    /// The number of the list of what was seen.
    pub seen: usize,
}

impl Hashed for Told {
    // The hash by which an equal end is looked for, of the number of the end's status and the list's. The seed, 1, is arbitrary.
    fn hash(&self) -> u64 {
        mix(mix(1, self.end.status() as u64), self.seen as u64)
    }

    // Whether both ended alike and have the same list.
    fn is_same(&self, other: &Told) -> bool {
        *self == *other
    }
}
