//! Orc's definitions, their laws, and what all other crates share.
//!
//! `specs/` says what a term and its rules are, what a timed run is, what each entry of a journal asks and does, why one
//! is refused, and what a journal's verdict is. `laws` proves what follows from them: every journal of a program is a
//! timed run, nothing that the rules allow is lost, a journal has one verdict. The other modules are values, operands,
//! programs as numbered nodes, entries and their kinds, the table of sites with the lines of those that a script answers, each
//! as the definitions have it, and the limits.
//!
//! Words that all crates use: a *mark* is the number of a token, or of an `f ; g` whose left side runs. A *cell* stands for x in an `f <x< g` whose
//! sides run, until x has a value or can't get one any more. A *side* without left or right is the right side of such a pruning, or the left side of
//! such an `f ; g`.
#![tactic(auto)]

pub mod answers;
pub mod builtin;
pub mod digits;
pub mod entry;
pub mod kind;
pub mod laws;
pub mod limits;
pub mod lines;
pub mod param;
pub mod program;
pub mod value;
