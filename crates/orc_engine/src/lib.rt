//! The engine for runs in which the table answers all calls of sites: on one worker, or on several that run calls of definitions in parallel.
//!
//! This crate and `orc_scheduler` choose what moves, and when. Whatever they choose, the rules allow each entry: that is the ledger's own invariant.
//! So constants of this crate bear on speed and on which run is made, never on whether it is right.
#![tactic(auto)]

mod alone;
mod batch;
mod parallel;

pub use alone::run_alone;
pub use orc_scheduler::EngineFault;
pub use parallel::run_parallel;
