//! The syntax of a program: its tree, and how a text is read as one.
//!
//! `parse` answers the program that a text spells, with its places; a text that spells none is refused with its first
//! fault. The grammar stands in specs/Grammar.antt as the ways in which programs are written, and specs/Text.antt says what
//! a text spells and what is wrong with one that spells nothing. No text spells two programs
//! (`one_source`), and the parts of one stand inside their wholes (`parts_inside`). What is printed of a program spells it
//! again, but for its places (`print`, `printed_again`).
#![tactic(auto)]

mod depth;
pub mod fault;
mod printer;
mod reader;
mod source;
pub mod tree;

pub use fault::SyntaxFault;
pub use orc_lex::token::{Plain, Span, What};
pub use printer::{print, printed_again};
pub use source::{one_source, only_limits, parse, parts_inside};
pub use tree::{Ast, Definition, Expr, Name, Node, Operator, Part};
