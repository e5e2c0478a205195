//! The tree of a program, as a list of nodes.
//!
//! The nodes of an expression stand in postorder: each behind its parts, so the last one is the whole. No pointers and no recursion are needed: a
//! loop from the front meets parts before wholes, and a loop from the back wholes before parts. A `Span` is a place in the text: its first byte, from
//! 0, and the one behind its last.

use orc_lex::token::{Plain, Span};

/// A name as it stands in the text.
#[derive(Clone, Copy, Debug)]
pub struct Name<'a> {
    pub text: &'a [u8],
    pub span: Span,
}

/// What joins two expressions, with its variable where it has one.
#[derive(Clone, Copy, Debug)]
pub enum Operator<'a> {
    /// `>x>`, or `>>` where there is no name.
    Seq(Option<Name<'a>>),
    /// `|`
    Par,
    /// `<x<`, or `<<` where there is no name.
    Prune(Option<Name<'a>>),
    /// `;`
    Other,
}

/// What stands at a node. The nodes of its parts stand directly before it, those of the left part first.
#[derive(Clone, Copy, Debug)]
pub enum Part<'a> {
    /// A literal or `stop`: no parts.
    Plain(Plain),
    /// A name without a bracket behind it: no parts.
    Variable(Name<'a>),
    /// A call of this name; its parts are so many arguments.
    Call(Name<'a>, usize),
    /// An operator with its two sides.
    Operation(Operator<'a>),
    /// `val x = G F`, with x: its parts are the expressions G, then F.
    Val(Name<'a>),
}

/// A node with the place of all that it stands for, without brackets that only group it.
#[derive(Clone, Copy, Debug)]
pub struct Node<'a> {
    pub part: Part<'a>,
    pub span: Span,
}

/// An expression: its nodes, each behind those of its parts. What `parse` gives has one node or more.
#[derive(Drop)]
pub struct Expr<'a> {
    pub nodes: Vec<Node<'a>>,
}

/// A definition: `def name(parameters) = body`.
#[derive(Drop)]
pub struct Definition<'a> {
    pub name: Name<'a>,
    pub parameters: Vec<Name<'a>>,
    pub body: Expr<'a>,
}

/// A program as it is written: its definitions in order, and the main expression behind them.
#[derive(Drop)]
pub struct Ast<'a> {
    pub definitions: Vec<Definition<'a>>,
    pub main: Expr<'a>,
}
