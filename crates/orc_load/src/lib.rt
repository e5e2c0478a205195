//! From a source and a script to a program and what answers its calls.
//!
//! [`load`] is the one way in which runs, checks and tests get their program. `specs/Loading` says what it gives: the program that the source
//! spells with the script's sites, in which nothing is too deep; or the first of a fault of the source's text, one of the script and one of the
//! source's names.
#![tactic(auto)]

mod fault;
mod loader;

pub use fault::LoadFault;
pub use loader::{Loaded, load};
