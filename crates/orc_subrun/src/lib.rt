//! A call of a definition with values is a program of its own, and can be run by itself: that run is a *part* of the enclosing run. Its marks, calls
//! and cells count from 1. `Numbering` gives the numbers that they have in the enclosing run, and `part_is_grafted` says that the part's entries
//! under these numbers continue the enclosing run's journal.
#![tactic(auto)]

mod laws;
mod numbers;

pub use laws::{part_is_grafted, program_is_still};
pub use numbers::Numbering;
