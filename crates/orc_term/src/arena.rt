//! A marked term, which is what is left of a program's term after the entries of a journal, as numbered nodes: each names its parts, which are nodes
//! too, and its parent, the node that it is a part of.
//!
//! Node 0 is above the whole term and is its own parent. Nodes of the *program* (`TermNode`) have numbers of their own. A *scope* is the number
//! of a list of names with what is bound to them (`orc_env`); 0 has no names.

ghost use Rattle.std.specs.Prelude.{◌≡◌};

use orc_rules::value::Value;

/// A node without parts. Each but `Gone` is a part of the term: a `stop` without a token, a token, or a pending call.
#[derive(Clone, Copy)]
pub enum Tip {
    /// No part of the term: the node was dropped with a side, as with the right side of a `<x<` that has published. No other node gets its number.
    Gone,
    /// A `stop` without a token: a token has ended here, or a call has halted.
    Ended,
    /// A token: its mark (the number by which entries name it), the node of the program on which it stands, and the scope that says what the names
    /// mean there.
    Token(u64, u32, u32),
    /// A token that bears the answer of a call: its mark, and the value.
    Bears(u64, Value),
    /// A pending call, by its number. No token is on it until it returns.
    Waits(u64),
}

/// A node with one part. Right sides that haven't started are no parts: they are nodes of the program in a scope.
#[derive(Clone, Copy)]
pub enum Single {
    /// `f >x> g`, whose part f feeds its publications to copies of g: the name x, the node of the program for g, and g's scope.
    Feeds(u32, u32, u32),
    /// `f ; g`, whose part f was entered and hasn't published: the mark of the token that entered it, which is the otherwise's number, the node of
    /// the program for g, and g's scope.
    Entered(u32, u32, u32),
    /// A node that means just its part: an otherwise whose left side has published, a pruning whose right side was dropped by `bind` or `lost` (its
    /// cell is bound or lost), or node 0.
    Passed,
}

/// A node with two parts.
#[derive(Clone, Copy)]
pub enum Double {
    /// `f | g`
    Both,
    /// `f <x< g`, opened, so that both are its parts: the cell that stands for x in f. Its right part g is a *side*.
    Side(u64),
}

/// A node's kind with the numbers of its parts, the left one first.
#[derive(Clone, Copy)]
pub enum Kind {
    /// No parts.
    Leaf(Tip),
    /// One part, by its number.
    One(Single, u32),
    /// Two parts, by their numbers.
    Two(Double, u32, u32),
}

/// A node, with the number of the one that it is a part of; 0 for node 0.
#[derive(Clone, Copy)]
pub struct Node {
    pub kind: Kind,
    pub parent: u32,
}
