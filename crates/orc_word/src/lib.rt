//! Group words: each counts the passes that name its group, and has two bits that are set at most once between two openings. A *group* is what runs
//! in one branch of a program: a right side of `<x<`, a left side of `;`, or the whole program.
//!
//! [`Unnamed::new`] makes the words and as many passes as there will ever be, all in one [`Supply`]; it is the one call that takes memory. A [`Pass`]
//! is idle or names a group. [`Groups::open`] lets an idle pass name a group that no pass names, [`Groups::enter`] lets it name the group
//! of another pass, and [`Groups::leave`] makes it idle again and says who was last. Threads share the words without a lock: each call makes at
//! most two exchanges on one word, and none waits.
//!
//! Of the words nothing is known but a rule, which holds between any two exchanges: a word's count is the number of passes that name its group, what
//! a pass has seen of the bits is set, each set bit was won by one pass at most, and idle, naming and supplied passes together are those that were
//! made. And each pass has *deeds*, which nothing undoes: the groups that it opened, those that it was the last to leave, the marks that it won. The
//! words are in balance with the deeds of all, so that a call that was last, or that won, can't say that it wasn't. [`laws`] has what follows over
//! all lists of such calls.
//!
//! A pass that is dropped, and not left, counts for good.
#![tactic(auto)]

mod bits;
mod groups;
mod last;
pub mod laws;
mod naming;
mod pass;
mod plays;
mod supply;
mod unnamed;
mod view;
mod words;

pub use bits::{Bit, Bits};
pub use groups::Groups;
pub use last::{Last, Left};
pub use naming::Naming;
pub use pass::Pass;
pub use supply::Supply;
pub use unnamed::Unnamed;
pub use view::{Deed, Plan, Stance, View};
pub use words::Words;
