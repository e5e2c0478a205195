//! Queues of tasks for workers: each worker owns one, pushes to it and pops from it, and steals from those of the others.
//!
//! A queue has one history of pushes, pops and thefts. Its owner knows all of it but the thefts, and each thief knows its own thefts. So what the
//! owner pops was pushed and stood last, what a thief steals was pushed and stood first, and each task comes out at most once
//! ([`laws::each_once`]). No call waits.
//!
//! That a thief finds nothing is no evidence that a queue is empty.
#![tactic(auto)]

mod history;
pub mod laws;
mod own;
mod queues;
mod theft;
mod worker_queue;

pub use history::{Event, View};
pub use own::Own;
pub use queues::Queues;
pub use theft::Theft;
pub use worker_queue::{WorkerQueue, worker_queues};
