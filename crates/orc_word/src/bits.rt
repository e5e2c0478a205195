//! The two bits of a group's word. Who sets a bit that was clear wins it; only an opening of the group clears them. A group is what runs in one right
//! side of a `<x<`, one left side of a `;`, or the whole program. Its word, an atomic counter, counts the passes that name the group, and has these
//! bits.

/// A bit of a group's word. Once set, it stays so until the group is opened anew.
#[derive(Clone, Copy)]
pub enum Bit {
    /// The group has published.
    Published,
    /// The group is killed: to an engine, a bind has dropped what runs in it.
    Killed,
}

/// Both bits of a group's word, at one moment.
#[derive(Clone, Copy)]
pub struct Bits {
    pub published: bool,
    pub killed: bool,
}
