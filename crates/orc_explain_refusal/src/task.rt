//! What is still to be written of a term. `Strip` keeps these tasks on a stack, the next one on top, so that writing a term doesn't recur. A scope
//! says what the names in a node of the program mean; it goes by its number. The marked term is the term that is running, with its tokens.

use crate::sign::Sign;
use orc_rules::param::Operand;

/// A part of a term that is still to be written, or what is done between parts. A level says how tightly a part has to bind to need no brackets at
/// its place (`Sign::levels`); at level 0 no part needs any.
#[derive(Clone, Copy)]
pub(crate) enum Task {
    /// The node of the marked term with this number; its level.
    Node(usize, usize),
    /// The node at this place of the way, which leads up from the node that the refused entry names, at place 0; its level.
    Way(usize, usize),
    /// The node of the program with this number, in a scope; its level.
    Source(usize, usize, usize),
    /// An argument in a scope.
    Operand(Operand, usize),
    /// The sign between two parts.
    Sign(Sign),
    /// These words.
    Say(&'static str),
    /// A part begins that becomes `..` where it is long.
    Open,
    /// That part ends.
    Close,
    /// What the refused entry names ends here; it began in this column of the line, from 0.
    Underline(usize),
    /// Here begins a part in which a sign of the term binds this name: it is written as a variable there, and not looked up in a scope.
    Bind(u32),
    /// Here ends the part in which the last `Bind` binds its name.
    Unbind,
}
