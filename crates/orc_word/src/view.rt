//! What a seat of the table knows. A *seat* is that by which the table's rule knows a pass or a supply; contracts speak of it by its view. A *pass*
//! is idle or names a group, whose *word* counts it and has two bits; a *supply* has idle passes, to be taken out.
use crate::bits::{Bit, Bits};
use std::collections::LinkedList;

/// What a seat of the table stands for: a supply of passes, or one pass. No value of it is made: contracts alone speak of it.
pub enum Stance {
    /// A supply that can give so many passes.
    Supplies(u32),
    /// A supply that keeps the first number of passes and is about to part with the second.
    Parting(u32, u32),
    /// A pass that names no group.
    Idle,
    /// A pass that names the group, with the bits that it has seen set and those that it has won, which means that it set them itself.
    Names(u32, Bits, Bits),
    /// A pass that was taken back into a supply: this seat stands for nothing any more.
    Spent,
}

/// What a seat, by which the table knows a pass, did that nothing undoes. No value of it is made: contracts alone speak of it.
pub enum Deed {
    /// It opened the group, whose word had these bits, and cleared them.
    Opened(u32, Bits),
    /// It came to name the group, and found that nobody did.
    Found(u32),
    /// It was the last to leave the group.
    Ended(u32),
    /// It set the bit of the group, which was clear.
    Won(u32, Bit),
}

/// What a seat (by which the table knows a pass or a supply) stands for, and all that it did for good, in order. No value of it is made.
pub struct View {
    pub stance: Stance,
    pub deeds: LinkedList<Deed>,
}

/// How many words (one for each group) and passes were made. A table is planned for so many.
#[derive(Clone, Copy)]
pub struct Plan {
    pub groups: u32,
    pub passes: u32,
}
