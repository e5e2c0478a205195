//! What the records of a run describe, what each call does to them, and what that promises of Orc's rules: the definitions and laws on which a ledger
//! rests, without its code.
#![tactic(auto)]

mod faults;
mod laws;
mod parts;
mod results;

pub use faults::{HaltFault, LedgerFault, ReturnFault};
pub use laws::{
    next_is_quiet, next_ticks, none_is_lost, quiet_is_next, root_has_halted, tick_is_next,
    wait_is_still, word_is_allowed, word_is_offered, work_has_cause, work_is_allowed,
};
pub use parts::Yield;
pub use results::{Called, Halted, Moved, Next, Passed, Request};
