//! Reads the text of a test: how the services of a program may behave, and what has to hold whatever they do. docs/testing.md has its grammar.
#![tactic(auto)]

mod claims;
mod draft;
mod events;
pub mod fault;
mod kind;
pub mod limits;
mod mentions;
mod reading;
mod scope;
mod services;
mod slots;
pub mod test;
mod token;

pub use reading::read_test;
