//! Pseudo-random orders of turns, one for each number: `--order N` runs a program in order N.

ghost use Rattle.std.specs.Prelude.{◌<◌};

use orc_ledger::Standing;
use rand_xoshiro::SplitMix64;
use rand_xoshiro::rand_core::{Rng, SeedableRng};
use std::alloc::{AllocError, Global};

/// How many rivals an odd order draws for a turn, beside the first candidate: of all these the one with the highest rank has the turn.
const RIVALS: u32 = 7;

/// A bit that sets the name of a slot apart from the name of a node, which is under 2^32. Ranks are computed from such names.
const ON_VALUE: u64 = 1 << 32;

/// How many turns that nobody outside sees may follow one another before an order draws one.
const UNSEEN: u32 = 64;

/// An order in which turns come: a sequence of pseudo-random numbers says whose turn is next.
///
/// A token whose next move nobody outside sees goes on without a draw, since such a move commutes with all others. So an order draws among the tokens
/// that publish, bind or call a script's site next, and the calls that are due. In an even order all of them have the same chance, so their moves
/// mix. In an odd order each node of the program and each call has a rank. The order draws eight candidates, and the one with the highest rank goes
/// on, so that one part of the program may be far ahead of another. One turn in sixteen changes all ranks. This follows Burckhardt, Kothari,
/// Musuvathi and Nagarakatte (2010), who show that few changes of priorities find most bugs that depend on an order.
#[derive(Drop)]
pub(crate) struct Order {
    // The generator of pseudo-random numbers, whose seed is the order's number.
    numbers: SplitMix64,
    // The pseudo-random number that was drawn last, of 64 bits; 0 before the first draw.
    last: u64,
    // The seed from which ranks are computed.
    ranks: u64,
    // Whether ranks count: in odd orders.
    is_ranked: bool,
    // How many tokens at the front of the run queue are *settled*: known to have a next move that somebody outside sees.
    pub(crate) settled: usize,
    // How many turns that nobody outside sees have followed one another.
    unseen: u32,
    // The numbers of the calls that came due and weren't drawn yet, of which some may have been answered or cancelled.
    pub(crate) calls: Vec<u64>,
}

impl Order {
    /// The order that has this number.
    pub(crate) fn new(alloc: Global, number: u64) -> Order {
        Order {
            numbers: SplitMix64::seed_from_u64(number),
            last: 0,
            ranks: number,
            is_ranked: number % 2 == 1,
            settled: 0,
            unseen: 0,
            calls: Vec::new(alloc),
        }
    }

    /// Draws a place among `count` candidates, from 0 to `count` - 1; 0 if `count` is 0.
    pub(crate) fn draw(&mut self, count: usize) -> usize
        ensures { 0 < count → result < count }
    {
        self.last = self.numbers.next_u64();
        // 1 if there is no candidate, so that nothing is divided by 0.
        let most = count.max(1) as u64;
        (self.last % most) as usize
    }

    /// How many rivals are drawn for this turn, beside the first candidate: none in an even order. In one turn of sixteen the call also changes all
    /// ranks.
    pub(crate) fn rivals(&mut self) -> u32 {
        if !self.is_ranked {
            return 0;
        }
        // High bits of the last number choose the one turn in sixteen, since its low bits have chosen the place.
        if (self.last >> 32) % 16 == 0 {
            self.ranks = self.last;
        }
        RIVALS
    }

    /// The rank of a token: by the node at which it stands, or by its slot where it stands on a value.
    pub(crate) fn rank(&self, slot: usize, standing: Standing) -> u64 {
        match standing {
            Standing::At(node, _) => self.rank_of(node as u64),
            Standing::On(_) => self.rank_of(ON_VALUE ^ slot as u64),
        }
    }

    /// The rank of the call in a place, from 0, among those that came due; 0 if there is none.
    pub(crate) fn rank_of_call(&self, place: usize) -> u64 {
        match self.calls.get(place) {
            // From the other end of the numbers, so that no call has the name of a node or a slot.
            Some(number) => self.rank_of(u64::MAX - *number),
            None => 0,
        }
    }

    // The rank of what has this name, a number for a node, a slot or a call: a pseudo-random number that depends on the name and on `ranks` alone.
    fn rank_of(&self, name: u64) -> u64 {
        SplitMix64::seed_from_u64(self.ranks ^ name).next_u64()
    }

    /// Whether the newest of the `count` tokens in the run queue goes on without a draw: it does if nobody outside sees its next move. After `UNSEEN`
    /// such turns in a row one is drawn all the same, so that a token whose moves nobody ever sees doesn't starve the others. A true
    /// answer counts as one more such turn, and a false one begins the count anew.
    pub(crate) fn goes_unseen(&mut self, count: usize) -> bool {
        if self.settled < count && self.unseen < UNSEEN {
            self.unseen += 1;
            return true;
        }
        self.unseen = 0;
        false
    }

    /// Takes the number of the call in a place, from 0, among those that came due; None if there is none. The last one gets its place.
    pub(crate) fn take_call(&mut self, place: usize) -> Option<u64> {
        if place < self.calls.len() {
            Some(self.calls.swap_remove(place))
        } else {
            None
        }
    }

    /// The call with this number came due, and may be drawn. The error is refused memory.
    pub(crate) fn note_call(&mut self, number: u64) -> Result<(), AllocError> {
        self.calls.push(number)?;
        Ok(())
    }
}
