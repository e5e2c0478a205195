//! Texts on claims of a test and single runs: what the claims below `always` say of one run (`find`), and what stands below a claim that fails in the
//! table of `orc test` (`write_way`, `Ended`).
#![tactic(auto)]

mod counterexample;
mod course;
mod findings;
mod happening;

pub use counterexample::{Ended, write_each, write_way};
pub use findings::{Findings, Seen, find};
pub use happening::{write_happening, write_occurrence, write_published};
