//! The checker: a marked term that takes a journal's entries, one after another.
//!
//! Each entry has a method of its own. It first tests the entry's condition and reserves memory, and then makes the entry's effect, so that a refused
//! entry changes nothing. The table in docs/orc.md, *Journals*, has the conditions and effects, and its letters are the parameters here: s, a, b are
//! marks, c is a cell, k a call, v a value, t a time. `orc_term` explains marks, tokens and nodes.
//!
//! The nodes of the marked term and those of the program are numbered apart. In the entries' methods `at`, `parent` and `n` are numbers of the
//! former, `f`, `g` and the `node` of a `Spot` of the latter, and x is the number of a name.
//!
//! An effect writes the nodes (`write_node`, `wake`, `push_within`), the tables that find a node by a mark, cell or call (`marks`, `prunings`,
//! `calls`), and the flags, which say which nodes have halted: `push_flag` adds that of a new node, and `settle` sets that of a changed one. Once a
//! cell is bound or lost, tokens that waited for it may be able to move, and `forget_asked` has the next tick ask every token.
//!
//! A `match` that passes an option or a result on as it is names its cases for the proof.
#![tactic(auto)]

mod cancel;
mod due;
mod feed;
pub mod halts;
pub mod kept;
mod label;
mod levels;
mod lookup;
pub mod marked;
mod marks;
pub mod next;
mod numbers;
mod otherwise;
mod pending;
mod pruning;
mod publish;
mod queries;
mod quiet;
pub mod rest;
mod routines;
mod scopes;
pub mod sides;
mod site_calls;
mod status;
mod stillness;
mod tick;
mod void;

pub use marked::Marked;
pub use next::Next;
pub use sides::Side;
