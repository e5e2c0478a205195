//! The scope check: what each name of a program means, and the program's terms written out.
//!
//! [`check`] refuses a program in which a name means nothing that fits its use, with the fault that stands first. It gives
//! every other program as the numbered nodes of terms: `val`, `>>`, `<<` and arguments that are expressions are written out,
//! and names are numbers. In these terms no name is free but a definition's parameters in its body, each call of a definition
//! has its number of arguments, and each site is one of the table (specs/Checking.antt says all of it exactly).
//!
//! The check walks the nodes of the tree in loops and looks names up in hash tables, so its time grows with the source and its
//! stack doesn't.
#![tactic(auto)]

mod checker;
mod definitions;
pub mod fault;
mod finder;
mod known;
pub mod laws;
mod names;
mod nodes;
mod numbers;
mod writer;

pub use checker::check;
pub use definitions::variables;
pub use fault::{FaultKind, ScopeFault};
pub use names::Names;
