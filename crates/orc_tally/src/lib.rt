//! What claims see of a run, what is reported of them over many runs, and the table that a test prints.
//!
//! A *trial* is one run in some way and some order. `Told` is what is reported of one claim over trials: it grows trial by trial (`noted`) and way by
//! way (`joined`), and `Report` makes rows of it and of what a search through all schedules found.
#![tactic(auto)]

pub mod laws;
mod shell;
mod sight;
mod table;
mod text;
mod told;

pub use shell::write_word;
pub use sight::{ClaimSite, claim_number, happenings_of};
pub use table::{
    Broken, CaseReport, Counterexample, Report, Row, Searched, Shown, failing, failure_at, is_held,
    is_open,
};
pub use text::{Call, claim_text, note, write_sum};
pub use told::{Failure, Told, joined, noted, nothing_told};
