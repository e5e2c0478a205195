//! What the names of a running program mean. A *scope* has one name more than the scope that it extends; scopes are numbered, and scope 0 has no
//! names. A *cell* is the variable of an opened `f <x< g`: the table of cells says, by a cell's number, what has become of it.
#![tactic(auto)]

mod names;
mod stored;

pub use names::{Bound, Scope, are_arguments, meaning};
pub use stored::{StoredScope, outer_number};
