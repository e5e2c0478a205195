//! The state of a run, as records with one invariant: the journal leads, by Orc's rules, from the program's term to exactly the term that the records
//! describe.
//!
//! Of the clauses `held` says that the token is in the slot, `at` or `form` what it is on, `done` what becomes of the records, `others` which tokens
//! stay in their slots, `refused` that a refused call changes nothing, and `why` its cause.
#![tactic(auto)]

mod at_once;
mod calls;
mod claim;
mod definitions;
mod halts;
mod inputs;
mod laws;
mod ledger;
mod marks;
mod moves;
mod next;
mod onward;
mod publications;
mod requests;
mod rules;
mod sides;
mod sub_runs;
mod time;
mod view;
mod waits;

pub use claim::{Always, Claim};
pub use inputs::Inputs;
pub use laws::{calls_fit, offered, stands};
pub use ledger::Ledger;
pub use onward::Sequence;
pub use orc_frames::{Action, Taker};
pub use orc_ledger_spec::{
    Called, HaltFault, Halted, LedgerFault, Moved, Next, Passed, Request, ReturnFault,
};
pub use orc_log::Run;
pub use orc_tables::{Call, Frame, Group, Side, Standing, Step, Token};
pub use sub_runs::{SubRun, SubRunTask};
