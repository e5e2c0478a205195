//! The calls of a run: how many there were of each site with the same arguments, what the table of sites answers to the next one, and when a call is
//! due.
//!
//! What is inlined and what isn't follows measurements (docs/speed.md).
#![tactic(auto)]

mod bare;
mod counts;
mod due;
mod key;

pub use counts::{Counts, NextCall};
pub use due::{check_due, due_time};
