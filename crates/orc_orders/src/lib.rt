//! Many runs of a program: its outcomes in many orders (`orc outcomes`), and the verdicts on a test's claims in many ways and orders (`orc test`).
//!
//! An *order* is a number from which the scheduler draws whose turn comes, as far as the rules leave that free (`orc_scheduler`). A *way* is one of
//! the scripts by which the services of a test's case may answer (`orc_cases`). The ways of a case are numbered from 0.
#![tactic(auto)]

mod exploration;
mod lines;
mod seen;
mod sites;
mod trials;
mod ways;

pub use exploration::survey;
pub use lines::{lines_of, write_unseen};
pub use seen::{Seen, are_same, place_of};
pub use sites::claim_sites;
pub use trials::{Run, TrialFault, Trials, state_at, try_again};
pub use ways::{CaseTold, try_ways};
