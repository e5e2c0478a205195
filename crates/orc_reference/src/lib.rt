//! The reference engine: it makes a run entry by entry, and applies each to the checker's marked term by the rules. The crate also searches for a run
//! in which given things happen.
//!
//! An *entry* is a line of a journal, and a *mark* is the number by which a journal names a token of the term (docs/orc.md, *Journals*). No proof
//! speaks of how the engine chooses the next entry: the marked term refuses an entry that the rules don't allow.
#![tactic(auto)]

mod agenda;
mod finder;
mod form;
mod history;
mod reference;

pub use finder::{Happened, Wanted, find};
pub use reference::play;
