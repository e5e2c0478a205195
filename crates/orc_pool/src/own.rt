//! The end of a queue that its worker owns. It pushes and pops at this end; thieves take from the other one.
//!
//! In contracts `own_view` is what the owner knows of the queue's history, `pushed` is how many tasks were pushed and not popped again (those that
//! were stolen among them), and `slots` for how many there is room. The clause `rule` says how the history goes on. A history is the pushes, pops and
//! thefts, in order; a *port* is who has access to the queue, its owner or a thief.
ghost use Rattle.std.specs.Prelude.{◌≡◌, true};
ghost use Rattle.crossbeam_deque.specs.Handles.{worker_view, worker_flavor};

use crate::history::{OneHistory, Pops, Pushes, View};
use crossbeam_deque::Worker;
use std::alloc::Global;

// The owner's end of one of the kit's deques, whose history follows the rule `OneHistory`.
pub(crate) type Deque<T> = Worker<T, Global, View<T>, OneHistory>;

/// The end of a queue that its worker owns.
#[derive(Drop)]
pub struct Own<T: Drop> {
    // The kit's deque, at the end where the last task stands.
    pub(crate) worker: Deque<T>,
    // Its port is the owner's; and it pops what was pushed last (1 is the flavor of `lifo_as`).
    ghost owns: { (worker_view worker).owns ≡ true },
    ghost lifo: { worker_flavor worker ≡ 1 },
}

impl<T: Drop> Own<T> {
    ghost use Rattle.std.specs.Prelude.{◌≤◌, ◌+◌, [], ◌∷◌, MatchResult, MatchOption};
    ghost use Rattle.orc_pool.specs.History.{IsPush, IsPop, WasEmpty};
    ghost use Rattle.orc_pool.specs.Words.{own_view, slots, pushed};

    /// The end of this deque, which has to be the owner's and to pop what was pushed last, as `lifo_as` makes it.
    pub(crate) fn of(worker: Deque<T>) -> Own<T>
        requires { ((worker_view worker).owns ≡ true) × (worker_flavor worker ≡ 1) }
        ensures { result.worker ≡ worker }
    {
        Own { worker }
    }

    /// Pushes a task. Gives it back, and changes nothing, where the queue could not grow: so only where as many tasks were pushed and not popped
    /// again as there are slots. Tasks that were stolen count, too. By the clause `rule` the history goes on with some thefts, and then this push.
    pub fn push(&mut self, task: T) -> Result<(), T>
        ensures rule { MatchResult result (λ _. IsPush (own_view self.old) (task ∷ []) (own_view self.new)) (λ back. (back ≡ task) × (own_view self.new ≡ own_view self.old)) }
        ensures counted { MatchResult result (λ _. pushed self.new ≡ pushed self.old + 1) (λ _. (slots self.old ≤ pushed self.old) × (pushed self.new ≡ pushed self.old)) }
        ensures slots { slots self.old ≤ slots self.new }
    {
        // The kit's push. `Pushes` is for the prover: it says how the history goes on.
        self.worker.push_as::<Pushes>(task)
    }

    /// The task that was pushed last of those in the queue. None only where the queue was empty at one moment of the call. By the clause `rule` the
    /// history goes on with some thefts, and then this pop.
    pub fn pop(&mut self) -> Option<T>
        ensures rule { MatchOption result ((own_view self.new ≡ own_view self.old) × WasEmpty (own_view self.old)) (λ task. IsPop (own_view self.old) (task ∷ []) (own_view self.new)) }
        ensures slots { (pushed self.new ≤ pushed self.old) × (slots self.old ≤ slots self.new) }
    {
        // The kit's pop. `Pops` is for the prover: it says how the history goes on.
        self.worker.pop_as::<Pops>()
    }
}
