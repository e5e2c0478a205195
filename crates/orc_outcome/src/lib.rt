//! How a run ends, and what every engine promises its callers of a whole run.
//!
//! `specs/Outcome` defines what a run is. An engine is a function with the parameters and the contract of `orc_engine::run_alone`: it
//! returns the outcome of a run of the program with these sites within the limit (`IsPlayed`).
#![tactic(auto)]

mod end;
mod played;

pub use end::{End, Summary};
pub use played::{PlayFault, Played};
