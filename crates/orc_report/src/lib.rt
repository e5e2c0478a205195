//! A text for people that is written piece by piece, with the lines of other texts in it and carets under their places.
//!
//! A `Page` notes that memory was refused and writes no more, so that a text of a hundred pieces has one exit. It shows a line of a `Document` in
//! ASCII, 100 columns of it at most, with carets under what is meant. `Page::tell` writes a sentence and what fills its places. `place_of` gives the
//! line and the column of a byte. The documents that a command line names are its `Subject`. A `Window` says which columns of a long line are shown,
//! and `Near` finds the name that may have been meant.
//!
//! No promise of a run rests on this crate, so most of it is written to need few proofs: sums saturate, and a look-up of what isn't there gives a
//! default.
#![tactic(auto)]

mod document;
mod frame;
mod page;
mod place;
mod sentence;
mod subject;
mod suggest;
mod window;

pub use document::{Document, part_at};
pub use frame::{digits, left_out};
pub use page::Page;
pub use place::{Place, begins_character, place_of};
pub use sentence::Fill;
pub use subject::Subject;
pub use suggest::Near;
pub use window::Window;
