//! The words of the command line: which there are, what the help says of them, and what they ask for.
//!
//! [`read_words`] reads a whole line. It gives the [`Job`] that it asks for, or the error of `clap` that asks for help, asks for the version, or
//! refuses it.
#![tactic(auto)]

mod arguments;
mod commands;
mod job;
mod words;

pub use arguments::{DEFAULT_STATES, DEFAULT_TRIALS, DEFAULT_WAYS};
pub use commands::ArgumentTexts;
pub use job::{
    Asked, DrawRunOptions, Job, Order, ProgramPaths, RunOptions, STANDARD_INPUT, SearchOptions,
    ShowOptions, Shown, SurveyOptions, TestOptions, Wanted,
};
pub use words::read_words;
