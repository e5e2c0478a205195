//! What is kept beside a table, so that a record is found without a search: the places of each group's members, the tokens that wait for each cell,
//! the calls by the times at which they are due. And lists that reserve room before something is added.
//!
//! What is inlined and what isn't follows measurements (docs/speed.md).
#![tactic(auto)]

mod chains;
mod dues;
mod memory;
mod wait_index;

pub use chains::Chains;
pub use dues::Dues;
pub use memory::{push_within, reserve};
pub use wait_index::{Note, Parking};
