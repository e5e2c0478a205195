//! The queues of all workers, before each takes its own end and its rights to steal. In contracts `names` are the queues, in order, and `free` says
//! of each whether its end was not taken yet.
ghost use Rattle.std.specs.Prelude.{◌≡◌, ◌≤◌, true, []};
ghost use Rattle.std.specs.Option.{ForSome};
ghost use Rattle.crossbeam_deque.specs.Handles.{worker_view, worker_deque, worker_capacity, worker_index, stealer_deque};
ghost use Rattle.orc_pool.specs.History.{view_of};

use crate::own::{Deque, Own};
use crate::theft::{StealingEnd, Theft};
use std::alloc::{AllocError, Global};

/// The slots that a queue begins with: so many tasks fit before it has to grow, which takes memory. The contracts that say 64 mean these.
const SLOTS: usize = 64;

/// One queue: the owner's end, until its worker takes that (then None), and the end from which others steal, of which each right to steal has a copy.
#[derive(Drop)]
pub struct Lane<T: Drop> {
    pub(crate) own: Option<Own<T>>,
    pub(crate) stealing_end: StealingEnd<T>,
    // Both ends are of one deque, on which nothing was done yet, with 64 slots at least.
    ghost paired: { ForSome own (λ o. (worker_deque o.worker ≡ stealer_deque stealing_end) × (worker_view o.worker ≡ view_of true [] []) × (64 ≤ worker_capacity o.worker) × (worker_index o.worker ≡ 0)) },
}

impl<T: Drop> Lane<T> {
    ghost use Rattle.std.specs.Prelude.{IfOk, is_some};

    // A queue that is empty. The error is refused memory.
    fn new(alloc: Global) -> Result<Lane<T>, AllocError>
        ensures { IfOk result (λ lane. is_some lane.own ≡ true) }
    {
        // A deque with so many slots, from which the owner pops what was pushed last.
        let worker = Deque::<T>::lifo_as(alloc, SLOTS)?;
        let stealing_end = worker.stealer()?;
        let own = Some(Own::of(worker));
        Ok(Lane { own, stealing_end })
    }
}

/// Queues, one for each of a number of workers.
#[derive(Drop)]
pub struct Queues<T: Drop> {
    // By the number of the worker, from 0.
    pub(crate) lanes: Vec<Lane<T>>,
}

impl<T: Drop> Queues<T> {
    ghost use Rattle.std.specs.Prelude.{false, Some, IfSome, MatchOption, IfOk, length, replicate, slice_get, slice_set};
    ghost use Rattle.orc_pool.specs.Words.{own_view, slots, pushed, theft_view, own_name, theft_name, names, free};

    /// As many queues as are asked for, all empty. The error is refused memory.
    pub fn new(alloc: Global, count: usize) -> Result<Queues<T>, AllocError>
        ensures free { IfOk result (λ queues. free queues ≡ replicate count true) }
        ensures names { IfOk result (λ queues. length (names queues) ≡ count) }
    {
        let mut lanes = Vec::with_capacity(alloc, count)?;
        for _ in 0..count {
            lanes.push(Lane::new(alloc)?)?;
        }
        Ok(Queues { lanes })
    }

    /// The end of the queue `at`, counted from 0, for its owner: once for each queue. None where there are not so many, or where it was taken before.
    pub fn own(&mut self, at: usize) -> Option<Own<T>>
        ensures same { names self.new ≡ names self.old }
        ensures own { MatchOption result ((free self.new ≡ free self.old) × ¬ (slice_get (free self.old) at ≡ Some true)) (λ own. (slice_get (free self.old) at ≡ Some true) × (free self.new ≡ slice_set (free self.old) at false) × (slice_get (names self.old) at ≡ Some (own_name own)) × (own_view own ≡ view_of true [] [])) }
        ensures room { IfSome result (λ own. (64 ≤ slots own) × (pushed own ≡ 0)) }
    {
        if at >= self.lanes.len() {
            return None;
        }
        // The end is taken out of the lane, so that a later call finds None.
        let lane = &mut self.lanes[at];
        lane.own.take()
    }

    /// A new right to steal from the queue `at`, counted from 0. None exactly where there are not so many; the error is refused memory.
    pub fn theft(&self, at: usize) -> Result<Option<Theft<T>>, AllocError>
        ensures theft { IfOk result (λ found. MatchOption found (length (names self.now) ≤ at) (λ theft. (slice_get (names self.now) at ≡ Some (theft_name theft)) × (theft_view theft ≡ view_of false [] []))) }
    {
        let Some(lane) = self.lanes.get(at) else {
            return Ok(None);
        };
        let stealer = lane.stealing_end.clone()?;
        Ok(Some(Theft::by(stealer)))
    }
}
