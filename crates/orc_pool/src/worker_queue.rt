//! A worker's side of the queues: the end of its own one, and the rights to steal from all of them. It has one to steal from its own too, since only
//! a theft takes what was pushed first.
//!
//! In contracts `own_view` is what the worker knows of its own queue's history, `stolen_views` what it knows of each queue as a thief, `pushed` is
//! how many tasks were pushed to its own queue and not popped again (those that were stolen among them), and `slots` for how many there is room. The
//! clause `rule` says how a history goes on.
ghost use Rattle.std.specs.Prelude.{◌≡◌, ◌≤◌, ◌+◌, [], ◌∷◌, length, map, IfOk, MatchResult, MatchOption};
ghost use Rattle.orc_pool.specs.History.{IsPush, WasEmpty};
ghost use Rattle.orc_pool.specs.Words.{own_view, names, pushed, slots, theft_name};
ghost use Rattle.orc_pool.specs.WorkerQueues.{AreDealt, IsStolen, IsTaken, stolen_views};

use crate::own::Own;
use crate::queues::Queues;
use crate::theft::Theft;
use std::alloc::{AllocError, Global};

/// A worker's side of the queues: it pushes to and pops from its own, and steals from the others.
#[derive(Drop)]
pub struct WorkerQueue<T: Drop> {
    // Which queue is its own, from 0.
    at: usize,
    pub(crate) own: Own<T>,
    // One for each queue, in order.
    pub(crate) thefts: Vec<Theft<T>>,
}

impl<T: Drop> WorkerQueue<T> {
    /// Pushes a task to its own queue. Gives it back, and changes nothing, where the queue could not grow: so only where as many tasks were pushed
    /// and not popped again as there are slots. Tasks that were stolen count, too. By the clause `rule` the history goes on with some thefts, and
    /// then this push.
    pub fn push(&mut self, task: T) -> Result<(), T>
        ensures rule { MatchResult result (λ _. IsPush (own_view self.old.own) (task ∷ []) (own_view self.new.own)) (λ back. (back ≡ task) × (own_view self.new.own ≡ own_view self.old.own)) }
        ensures counted { MatchResult result (λ _. pushed self.new.own ≡ pushed self.old.own + 1) (λ _. (slots self.old.own ≤ pushed self.old.own) × (pushed self.new.own ≡ pushed self.old.own)) }
        ensures slots { slots self.old.own ≤ slots self.new.own }
        ensures others { self.new.thefts ≡ self.old.thefts }
    {
        self.own.push(task)
    }

    /// The task that was pushed first of those in its own queue. None where the queue was empty, or where others were at it all the time. The
    /// contract (`IsStolen`) promises only that the task stood first in one of the queues, not in which.
    pub fn oldest(&mut self) -> Option<T>
        ensures own { self.new.own ≡ self.old.own }
        ensures theft { MatchOption result (stolen_views self.new ≡ stolen_views self.old) (λ task. IsStolen self.old task self.new) }
    {
        // It doesn't happen: there is a right to steal from each queue, though the type doesn't say it.
        if self.at >= self.thefts.len() {
            return None;
        }
        // From its own queue: only a theft takes what was pushed first.
        if let Some(task) = self.thefts[self.at].steal() {
            return Some(task);
        }
        None
    }

    /// The next task: the one that was pushed last of those in its own queue, or else the first one of another queue, of which the next one is asked
    /// first. None only where its own queue was empty at one moment of the call. `IsTaken` says that the task stood last in its own queue, or, where
    /// that was empty at one moment, first in one of the queues.
    pub fn next(&mut self) -> Option<T>
        ensures rule { MatchOption result (WasEmpty (own_view self.old.own) × (own_view self.new.own ≡ own_view self.old.own) × (stolen_views self.new ≡ stolen_views self.old)) (λ task. IsTaken self.old task self.new) }
        ensures slots { (pushed self.new.own ≤ pushed self.old.own) × (slots self.old.own ≤ slots self.new.own) }
    {
        if let Some(task) = self.own.pop() {
            return Some(task);
        }
        // Each worker begins with the queue behind its own, so that not all steal from the same one.
        let count = self.thefts.len();
        for step in 1..count {
            // `at` is below `count`, so `at % count` is `at`: the remainder only shows the prover that the sum doesn't overflow.
            if let Some(task) = self.thefts[(self.at % count + step) % count].steal() {
                return Some(task);
            }
        }
        None
    }
}

/// A worker queue for each of `count` workers, all empty, with room for 64 tasks each before it has to grow. Each worker has the right to steal from
/// all queues. The error is refused memory.
pub fn worker_queues<T: Drop>(
    alloc: Global,
    count: usize,
) -> Result<Vec<WorkerQueue<T>>, AllocError>
    ensures { IfOk result (λ worker_queues. AreDealt count worker_queues.items) }
{
    let mut queues = Queues::new(alloc, count)?;
    // Own ends and rights are there for each `at` under `count`, so neither of the calls below gives none.
    let mut worker_queues = Vec::with_capacity(alloc, count)?;
    for at in 0..count {
        let thefts = thefts_of(alloc, &queues, count)?;
        let Some(own) = queues.own(at) else {
            unreachable!();
        };
        worker_queues.push(WorkerQueue { at, own, thefts })?;
    }
    Ok(worker_queues)
}

// The right to steal from each of the queues, of which there are `count`, in order. The error is refused memory.
fn thefts_of<T: Drop>(
    alloc: Global,
    queues: &Queues<T>,
    count: usize,
) -> Result<Vec<Theft<T>>, AllocError>
    requires { length (names queues.now) ≡ count }
    ensures { IfOk result (λ thefts. map theft_name thefts.items ≡ names queues.now) }
{
    let mut thefts = Vec::with_capacity(alloc, count)?;
    for from in 0..count {
        // There are `count` queues.
        let Some(theft) = queues.theft(from)? else {
            unreachable!();
        };
        thefts.push(theft)?;
    }
    Ok(thefts)
}
