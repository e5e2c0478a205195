//! What is claimed of a run, held against what happened in it. A *happening* is something that those outside a run see, with its time; an *event* of
//! a claim describes some of them, and a happening *meets* it or doesn't.
//!
//! A claim on two events, such as `E only after F`, is a method of E; F is the parameter `other`. `given` are values that variables have already;
//! `most` is the greatest number or the longest wait that is allowed, `within` a longest wait, `by` a last time, all times in units of logical time;
//! None is no bound.
//!
//! The definitions go through a list from its front, and so do the loops here that are no `for`: `rest` is what is left of the list, which their
//! invariants speak of. `#[tactic(..)]` before a function names the lemmas of its proof.
#![tactic(auto)]

pub mod claim;
mod counts;
mod event_match;
pub mod happening;
mod happenings;
mod orderings;
mod publications;
mod verdict;

pub use happenings::Happenings;
pub use verdict::{Judged, Verdict, judge};
