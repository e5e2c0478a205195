//! The journal of a run, kept whole or only counted.
#![tactic(auto)]

mod ghost_list;
mod log;
mod run;

pub use ghost_list::{GhostList, ghost_list_of};
pub use log::Log;
pub use run::Run;
