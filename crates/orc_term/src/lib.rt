//! The numbered nodes of a marked term: what stands above what, which have halted, which can move, and how deep they nest.
//!
//! A *marked term* is what is left of a program's term after the first entries of a journal. A *token* is on each part that can move; its number is a
//! *mark*. An entry uses up the mark that it names and gives out new ones.
//!
//! In this crate `place`, `i`, `part` and `parent` are numbers of nodes of the marked term. Lists are by these numbers: `items` has the nodes,
//! `hints`, `flags` and `numbers` (the ranks) have something of each. Nodes keep them in 32 bits.
#![tactic(auto)]

pub mod arena;
mod asked;
pub mod candidates;
pub mod flags;
pub mod nodes;
mod ranks;
mod restless;
pub mod room;
pub mod side;
pub mod slot;
pub mod walk;
