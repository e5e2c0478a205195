//! The records of a run. A *token* marks a part of the program's term that runs. A *side* is a branch that ends as a whole: the right side of a
//! `<x<`, or the left side of a `;`. A *group* is an open side with its members: the tokens, pending calls and inner groups directly in it. A *step*
//! is the entry into a side or into the left side of a `>x>`: from a token's innermost step outwards they are what is around it. A *cell* stands for
//! the x of an opened `f <x< g`, and its right side is g. An otherwise is an `f ; g`; its number is the mark (the number in the journal) of the token
//! that entered it. A *scope* says by number what names stand for.

use orc_rules::value::{Found, Value};

/// What a token is on. A token marks a part of the program's term that runs.
#[derive(Clone, Copy)]
pub enum Standing {
    /// The node of the program with this number, in the scope with this number; scope 0 has no names.
    At(u32, usize),
    /// A value that a call of a site has answered, or that a call of a definition which was run by itself has yielded.
    On(Value),
}

/// A token: it marks a part of the program's term that runs.
#[derive(Clone, Copy)]
pub struct Token {
    /// The token's mark in the journal, from 1. In a slot that is free it is 0.
    pub serial: u64,
    /// What the token is on: a node, or a value.
    pub standing: Standing,
    /// The number of the innermost step around the token (the entry into a side or into the left side of a `>x>`); 0 is the program as a whole.
    pub step: usize,
}

/// A call of a site that pends.
#[derive(Clone, Copy)]
pub struct Call {
    /// The call's number in the journal, from 1.
    pub number: u64,
    /// What the table of sites says of the call: an answer after a delay from `made_at` on, or none ever.
    pub found: Found,
    /// When the call was made, in logical time.
    pub made_at: u64,
    /// The number of the innermost step around the call, which was that of the token that made it; 0 is the program as a whole.
    pub step: usize,
    /// The place of its `call` entry in the journal, from 0; cancels count.
    pub row: usize,
    /// Which call of its site with the same arguments this one is, from 1; 1 where no script answers the site.
    pub nth: u64,
}

/// What a step enters: a left or right side of a term. A step is the record of such an entry.
#[derive(Clone, Copy)]
pub enum Frame {
    /// The left side of a `>x>`: the number of its name `x`, the node of its right side, and the scope in which the whole `f >x> g` is.
    SeqLeft(u32, u32, usize),
    /// The right side of this cell.
    PruneRight(u64),
    /// The left side of the otherwise (`f ; g`) with this number.
    OtherwiseLeft(u64),
}

/// The entry into a side or into the left side of a `>x>`: one step inwards from another one.
#[derive(Clone, Copy)]
pub struct Step {
    /// What the step enters.
    pub entered: Frame,
    /// The number of the step around this one, which is less than its own; 0 is the program as a whole.
    pub outer: usize,
    /// The number of the group (the innermost open side) of a token whose innermost step this is; the program's own group is 0.
    pub group: u32,
    /// How many left sides of a `>x>` are around a token whose innermost step this is, out to the innermost right side of a cell.
    pub depth: u32,
    /// Whether the left side of an otherwise that the step enters has published, so that the right side never runs. False for other steps.
    pub published: bool,
}

/// A side that is open: a branch that ends as a whole.
#[derive(Clone, Copy)]
pub enum Side {
    /// The right side of this cell.
    Right(u64),
    /// The left side of the otherwise with this number; the node of its right side, and the scope in which the whole `f ; g` is.
    Left(u64, u32, usize),
}

/// An open group: a side that runs, with its members, the tokens, pending calls and inner groups directly in it.
#[derive(Clone, Copy)]
pub struct Group {
    /// The side whose members the group has.
    pub side: Side,
    /// The number of the step around the whole `f <x< g` or `f ; g`, not the one into the side.
    pub outer: usize,
    /// The group's number, from 1; 0 is the program's own group, which has no record.
    pub number: u32,
}
