//! Workers that hold the tokens of a run, over one book under a lock.
//!
//! A *pass* stands for one record in a group. The group's *word*, an atomic counter outside the lock, counts the passes (`orc_word`). A token that is
//! *out* is with a worker, which also has the token's pass; the book has the passes of all other records. The worker that leaves a group's last pass
//! closes the group under the lock.
//!
//! Each worker has tokens, passes to their groups, and a queue of its own. Outside the lock are also the cell with the reason why the run stops, and
//! the words. The workers choose what moves, and when. Whatever they choose, the rules allow each entry: that is the book's own invariant.
//!
//! In its *turn* a worker holds the lock, closes groups and moves tokens (`Shared::work`). Outside the lock it makes and *polls* calls: it asks one
//! for its answer. A worker without a token that finds no work is *idle*, and *rests* once it waits on the condition variable. To *offer* is to say
//! under the lock that there is work again. A *birth* is a token or group that comes of a move; for it the worker has passes ready before the move.
//!
//! Counts are added with saturation only because the prover isn't told how small they are.
#![tactic(auto)]

mod context;
mod local;
mod moves;
mod poller;
mod pool;
mod rest;
mod setup;
mod shared;
mod shift;
mod stopper;
mod worker;

pub use orc_scheduler::EngineFault;
pub use pool::{RunOptions, run_pool};
