//! The verdict on a whole journal; why an entry is refused, exactly, and how deep a marked term nests.
//!
//! `orc_checker` applies an entry quickly and refuses it for one of its reasons, not always the first. This crate finds the first one when it has to,
//! by a look at all nodes. A *place* is the marked term with its numbers, its calls and the time, after the first entries of a journal. A question
//! that takes `&mut Marked` shortens indexes of the term, and leaves the term itself as it is.
//!
//! In entries s, a, b are marks, c is a cell, k a call, v a value, t a time, as in docs/orc.md, *Journals*. `most` is a bound for the levels of each
//! of the program's terms.
//!
//! A `match` that passes an option or a result on as it is names its cases for the proof.
#![tactic(auto)]

mod allowed;
mod application;
mod depth;
mod due;
mod finder;
mod heights;
mod lines;
mod moves;
mod numbers;
mod position;
mod reasons;
mod ticks;
mod verdict;

pub use allowed::{Allowed, entry_of};
pub use application::apply;
pub use depth::depth_of;
pub use heights::Heights;
pub use lines::{Checked, TextFault, check_lines};
pub use moves::{return_entry, side_entry, token_entry};
pub use numbers::{Numbers, numbers_of};
pub use position::mark_named;
pub use reasons::first_reason;
pub use verdict::{CheckFault, Verdict, check_journal};
