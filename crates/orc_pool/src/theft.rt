//! The right to steal from a queue. In contracts `theft_view` is what the holder of the right knows of the queue's history. A queue's history is its
//! pushes, pops and thefts, in order; the `guest` of a clause is a thief, who doesn't own the queue.
ghost use Rattle.std.specs.Prelude.{◌≡◌, false};
ghost use Rattle.crossbeam_deque.specs.Handles.{view, IsPassOf, stealer_deque};

use crate::history::{OneHistory, Thefts, View};
use crossbeam_deque::{Pass, Steal, Stealer};
use std::alloc::Global;

// The end of a queue from which others steal: an end of a deque of `crossbeam_deque`, whose history follows the rule `OneHistory`.
pub(crate) type StealingEnd<T> = Stealer<T, Global, View<T>, OneHistory>;

/// How often `steal` tries again if another call took a task from the queue meanwhile. The number is so great that the bound only shows the prover
/// that the loop ends: each time another theft or pop has had success.
const TRIES: u32 = 1_048_576;

/// The right to steal from a queue.
#[derive(Drop)]
pub struct Theft<T: Drop> {
    // The end of the queue from which `steal` takes.
    pub(crate) stealer: StealingEnd<T>,
    // What the holder of this right knows of the queue's history. `crossbeam_deque` calls it a pass; it has nothing to do with the passes to a group
    // in other crates.
    pub(crate) pass: Pass<T, View<T>>,
    ghost of: { IsPassOf (stealer_deque stealer) pass },
    ghost guest: { (view pass).owns ≡ false },
}

impl<T: Drop> Theft<T> {
    ghost use Rattle.std.specs.Prelude.{[], ◌∷◌, MatchOption};
    ghost use Rattle.orc_pool.specs.History.{IsTheft, view_of};
    ghost use Rattle.orc_pool.specs.Words.{theft_view};

    /// A right to steal that has stolen nothing.
    pub(crate) fn by(stealer: StealingEnd<T>) -> Theft<T>
        ensures { (stealer_deque result.stealer ≡ stealer_deque stealer) × (theft_view result ≡ view_of false [] []) }
    {
        let pass = stealer.pass();
        Theft { stealer, pass }
    }

    /// The task that was pushed first of those in the queue. None where the queue was empty, or where others were at it all the time. By the contract
    /// (`IsTheft`) the theft is a later event of the history, and its task stood first.
    pub fn steal(&mut self) -> Option<T>
        ensures { MatchOption result (theft_view self.new ≡ theft_view self.old) (λ task. IsTheft (theft_view self.old) (task ∷ []) (theft_view self.new)) }
    {
        for _ in 0..TRIES {
            // `Thefts` is for the prover: it says how the history goes on.
            match self.stealer.steal_as::<Thefts>(&mut self.pass) {
                Steal::Success(task) => return Some(task),
                Steal::Empty => return None,
                // Another call was quicker: the next try.
                Steal::Retry => {}
            }
        }
        None
    }
}
