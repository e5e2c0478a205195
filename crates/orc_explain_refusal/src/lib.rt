//! Why an entry of a journal is refused, said to a person.
//!
//! `explain_refusal` takes a journal that was refused, with its program and its script, and gives the text that follows the fault's own line:
//! the entry with the one before it, what is wrong under its place, the term before it with its marks, and the entries that are allowed there.
//! The journal is applied again up to that entry, by the checker that refused it, and what is allowed is what it would take. It never recurs, and
//! takes time in proportion to the journal up to the entry.
//!
//! No promise of a run rests on this crate, so it is written to need few proofs: sums saturate, a look-up of what isn't there gives a default, and a
//! loop that ends by a condition is a `for` with a bound that it never reaches.
#![tactic(auto)]

mod allowed;
mod fate;
mod line;
mod named;
mod names;
mod reason;
mod refusal;
mod replay;
mod show;
mod sign;
mod spent;
mod strip;
mod task;
mod term;
mod way;

pub use refusal::explain_refusal;
