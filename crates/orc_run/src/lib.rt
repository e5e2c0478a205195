//! The program `orc` as a library: its commands, its statuses and its texts.
//!
//! `commands` reads files and calls the function of a command, whose name mostly ends with `_text`: it takes texts and writes to a stream. A
//! clause has the same name throughout. On success one like `ran`, `tested` or `done` says what was answered and written. At a fault `fault`,
//! `err` or `undone` says what was written all the same, `cause` why this fault comes, `range` that a number is out of range if the fault says
//! so, and `sound` that the fault isn't one of the engine's own, or in `commands` that a failure hasn't the status of one if the numbers are in
//! range. `accepted` says that a check accepts the journal of a run, and `beyond` why it may not all the same, or why a picture or claims may not
//! take it. `W.contents out.old` and `W.contents out.new` are what a stream holds before and after, where that is known.
//!
//! A fault is often handed on by a `match` where `map_err` would do: a closure is proved as functions of its own.
//!
//! - Every command: `commands`, `inputs`, `failures`, `faults`, `explained`.
//! - `orc run`: `runner`, `unordered`, `times`, `run_end`.
//! - `orc outcomes`: `outcomes`; with `--show` `shown`.
//! - `orc check`: `judge`; with `--claims` `claims`. `orc draw`: `picture`. `orc print`: `printer`.
//! - `orc test`: `test_command` over `scripts`, which has the ways, and `searched`, which searches all schedules. Below a failure: `details`,
//!   `counterexample`, `call`. The journal of a failure: `failing_run`, `witness`. Explanations alone: `failing_ways`, `asked`, `unanswered`.
//!
//! Files whose functions have no clauses (`asked`, `unanswered`, `failing_ways`, most of `explained`) make explanations, on which no promise rests.
#![tactic(auto)]

mod asked;
mod call;
mod claims;
mod commands;
mod counterexample;
mod details;
mod explained;
mod failing_run;
mod failing_ways;
mod failures;
mod faults;
mod inputs;
mod judge;
mod outcomes;
mod picture;
mod printer;
mod run_end;
mod runner;
mod scripts;
mod searched;
mod shown;
mod test_command;
mod times;
mod unanswered;
mod unordered;
mod witness;

pub use call::Names;
pub use claims::claims_text;
pub use commands::{command, perform};
pub use explained::Explained;
pub use failures::{Failure, report};
pub use faults::RunFault;
pub use inputs::{Files, ReadFault};
pub use judge::{Unchecked, check_read, check_text};
pub use orc_cli::{
    Asked, DrawRunOptions, Job, Order, ProgramPaths, RunOptions, STANDARD_INPUT, SearchOptions,
    ShowOptions, Shown, SurveyOptions, TestOptions, Wanted,
};
pub use orc_explain_fault::Unread;
pub use orc_outcome::{End, Summary};
pub use orc_output::{WriteFault, write_text};
pub use outcomes::{search_text, survey_text};
pub use picture::{Undrawn, draw_run, draw_text};
pub use printer::print_text;
pub use runner::run_text;
pub use shown::{Unshown, show_text};
pub use test_command::{TestInputs, TestTexts, Untested, test_text};
