//! The states of a search, each as three numbers.

ghost use Rattle.std.specs.Prelude.{◌≡◌, true};

use crate::once::Hashed;
use orc_search::node::mix;

/// A state: a term, the calls that were made on a path to it, and what was seen there, each by its number. Two paths that differ in what was seen
/// lead to two states.
#[derive(Clone, Copy, PartialEq, Eq)]
pub struct Key {
    /// The number of its term (`Terms`).
    pub term: usize,
    /// The number of the list of calls that were made (`Counts`).
    pub made: usize,
    /// The number of the list of what was seen (`Lists`).
    pub seen: usize,
}

impl Hashed for Key {
    // The hash by which an equal state is looked for. The seed, 1, is arbitrary.
    fn hash(&self) -> u64 {
        mix(
            mix(mix(1, self.term as u64), self.made as u64),
            self.seen as u64,
        )
    }

    // Whether all three numbers are equal.
    fn is_same(&self, other: &Key) -> bool {
        *self == *other
    }
}
