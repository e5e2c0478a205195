//! What a search for a claim comes to.

use orc_claims::happening::Happening;
use orc_outcome::End;

/// How and when a run ended, and what of it was seen. Times are told apart as far as the claim does: all later ones are the latest that it tells
/// apart.
#[derive(Drop)]
pub struct Seen {
    /// Halted (all that ran has come to `stop`), or Quiet (something still waits, for what never happens).
    pub end: End,
    /// What happened in it of what the claim names, in order, with times.
    pub happened: Vec<Happening>,
    /// When it ended.
    pub now: u64,
}

/// What a search for a claim came to.
#[derive(Drop)]
pub enum ClaimSearched {
    /// The claim holds in each run within the limit of entries that ends by itself, halted or quiet; how many states there are.
    Holds(usize),
    /// It fails in this run, of however many entries.
    Fails(Seen),
    /// There are more states than the search was to look at, and the claim fails at none of the ends that it found.
    TooMany,
    /// A run within the limit of entries, or one to a state that was found, may come to a time of more than 64 bits, which the rules don't allow.
    TooLong,
    /// The claim asks for a cancel, or counts the calls that are pending at once: a search can't watch for that.
    NotWatched,
}
