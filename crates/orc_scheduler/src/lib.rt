//! The scheduler of a run that one worker holds: the run's ledger, a queue of the tokens that can move, and the tokens that wait for cells. It
//! chooses which token moves next, answers calls and passes time if none can move, and finds how the run ended. It also lists calls of definitions
//! that other threads may run *apart*, each as a *sub-run* with a ledger of its own, and merges their results.
//!
//! A token whose *turn comes* is runnable: its handle is in the run queue. In its turn it moves up to 64 times. A *side* is the right side of an
//! opened `<x<` or the left side of an entered `;`. Its *group* has the tokens, pending calls and groups in it as members. Group 0 is the program's
//! own.
//!
//! The scheduler and its caller choose what moves, and when. Whatever they choose, the rules allow each entry: that is the ledger's own invariant.
#![tactic(auto)]

mod drawn;
mod end;
mod fault;
mod held_output;
mod idle;
mod offload;
mod order;
mod quiet;
mod ready;
mod scheduler;
mod sizes;
mod sub_runs;
mod summary;
mod wait_list;

pub use fault::EngineFault;
pub use ready::{Handle, Ready};
pub use scheduler::{Scheduler, Stop};
pub use sub_runs::{SubRunJob, SubRunResult};
