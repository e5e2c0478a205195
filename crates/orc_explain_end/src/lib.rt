//! How a run has ended, said to a person: which calls never return and who waits for them, or what could go on; or, where it has halted, what looks
//! like a mistake.
//!
//! `explain_end` takes a run that has ended, with its journal. The journal is replayed twice at once, by the checker's marked term, which knows
//! what can come next, and on the program's sketch, which knows where it stands. It never recurs, and takes time in proportion to the journal.
//!
//! No promise of a run rests on this crate, so it is written to need few proofs: sums saturate, a look-up of what isn't there gives a default, and a
//! loop that ends by a condition is a `for` with a bound that it never reaches.
#![tactic(auto)]

mod ended;
mod ends;
mod moves;
mod remarks;
mod replay;
mod scene;
mod script_lines;

pub use ended::Ended;
pub use ends::{explain_end, explain_refused_memory};
