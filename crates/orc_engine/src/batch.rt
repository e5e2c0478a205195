//! A batch of jobs, dealt out to several threads. Each thread has a queue of jobs, and steals from the queues of the others when its own is empty. A
//! *job* is a call of a definition that a thread runs by itself, as a *sub-run* with a result. It *races* if it stands in a side (the right one of a
//! `<x<`, the left one of a `;`) that has other members, and not so that the program itself publishes its value. `P` names the run, for contracts
//! alone.

use orc_ledger::Run;
use orc_pool::{WorkerQueue, worker_queues};
use orc_scheduler::SubRunJob;
use std::alloc::{AllocError, Global};
use std::sync::atomic::{AtomicUsize, Ordering};

/// A job that was dealt out, and its place in the batch, from 0.
#[derive(Drop)]
pub(crate) struct Dealt<'j, P: Run> {
    pub place: usize,
    pub job: &'j mut SubRunJob<P>,
}

/// Deals jobs out in turn to the queues of `workers` workers, or of fewer if there are fewer jobs. Each queue gives its first job first. A job for
/// which memory is refused goes to nobody: it stays without a result, and the run makes its call itself. The error is refused memory for the queues.
pub(crate) fn deal<'j, P: Run>(
    alloc: Global,
    jobs: &'j mut [SubRunJob<P>],
    workers: usize,
) -> Result<Vec<WorkerQueue<Dealt<'j, P>>>, AllocError> {
    // At least one queue, even where there is no job.
    let count = workers.min(jobs.len()).max(1);
    let mut worker_queues = worker_queues(alloc, count)?;
    // The last ones first, since a worker takes what was pushed last.
    for (place, job) in jobs.iter_mut().enumerate().rev() {
        if let Some(worker_queue) = worker_queues.get_mut(place % count) {
            // A refused push gives the reference to the job back; the job itself stays in `jobs`.
            let _refused = worker_queue.push(Dealt { place, job });
        }
    }
    Ok(worker_queues)
}

/// The place of a job that has won a race: the call yields a value, or may, so that the jobs behind it may be in vain. If several win at the same
/// time it may be the place of any of them: it only saves work, and no result depends on it.
#[derive(Drop)]
pub(crate) struct Won {
    // The place of a job that has won; `usize::MAX` for none.
    place: AtomicUsize,
}

impl Won {
    /// No job has won: the greatest number stands for no place.
    pub fn new() -> Won {
        Won {
            place: AtomicUsize::new(usize::MAX),
        }
    }

    /// Whether a job before this place has won.
    pub fn is_before(&self, place: usize) -> bool {
        self.place.load(Ordering::Relaxed) < place
    }

    /// Notes that the job at this place has won, unless an earlier one has. Of two that are noted at the same time the later place may stay; then
    /// threads do more jobs in vain.
    pub fn note(&self, place: usize) {
        if !self.is_before(place) {
            self.place.store(place, Ordering::Relaxed);
        }
    }
}

/// Drops the results of the jobs behind the first one that has won a race, since it depends on the threads which of these jobs were done.
pub(crate) fn forget_losers<P: Run>(jobs: &mut [SubRunJob<P>]) {
    let mut is_won = false;
    for job in jobs {
        if is_won {
            let _lost = job.take();
        }
        is_won = is_won || job.has_won();
    }
}
