//! A search through all schedules of a program: every outcome that its runs can end with, and whether a claim fails in one of them.
//!
//! A state (`states`) is three numbers: of its term, of the list of the calls that were made, and of the list of what was seen, as far as `sieve`
//! keeps it. `counts` and `lists` give such lists their numbers. `once` keeps states, ends (`told`) and what became of calls (`calls`) in the order
//! in which they were found. `tables` looks at each state once, after `ahead` has taken the steps of it that nobody sees; `listed` keeps what terms
//! may do. `watch` says what a claim depends on, and `judging` holds a claim against an end. `exploration` has the calls for other crates.
#![tactic(auto)]

mod ahead;
mod calls;
mod claimed;
mod counts;
mod ended;
mod exploration;
mod judging;
mod laws;
mod listed;
mod lists;
mod once;
mod sieve;
mod states;
mod tables;
mod told;
mod watch;

pub use claimed::{ClaimSearched, Seen};
pub use ended::Ended;
pub use exploration::{Explorer, Schedules, search, search_claim};
pub use judging::fails_by;
pub use laws::{all_are_found, found_are_of_runs, holds_by_watched};
pub use watch::Watch;
