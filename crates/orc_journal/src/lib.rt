//! Journals in memory, an entry in 16 bytes. Nothing here asks whether an entry is allowed.
//!
//! A *part* is a call of a definition that was run by itself. Its journal has marks, calls and cells of its own, which count from 1; `sub_journal`
//! and `shift` append it to the journal of the enclosing run under the numbers that follow there.
#![tactic(auto)]

mod journal;
mod room;
mod rows;
mod shift;
mod sub_journal;

pub use journal::{Journal, Version};
