//! Cells that are bound once, and notes of what a reader has read.
//!
//! Threads share a [`Cell`], and one of them binds it to a value, without a lock and without memory. A [`Note`] remembers what its reader has read:
//! from then on it reads the same for good, and notes of one cell that have read have read the same, in whatever threads they are. A [`Reader`] is a
//! cell together with a note of it.
#![tactic(auto)]

mod cell;
mod note;
mod reader;

pub use cell::Cell;
pub use note::Note;
pub use reader::Reader;
