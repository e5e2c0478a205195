//! What a leave gives: the pass, idle, and to the last one the duty to close the group. A group is what runs in one right side of a `<x<`, one left
//! side of a `;`, or the whole program. A *pass* is idle or names a group, whose *word*, an atomic counter, counts it.
ghost use Rattle.std.specs.Prelude.{◌≡◌};

use crate::naming::Naming;
use crate::pass::Pass;
use std::marker::PhantomData;

/// Says that its group was left by the last pass that named it. Who has this value closes the group.
#[derive(Drop)]
pub struct Last<J: Naming> {
    // The number of the group's word.
    pub(crate) group: u32,
    // Names the table in the type; it takes no memory.
    pub(crate) of: PhantomData<J>,
}

impl<J: Naming> Last<J> {
    /// The number of the group that was left.
    pub fn group(&self) -> u32
        ensures { result ≡ self.now.group }
    {
        self.group
    }
}

/// What a leave gives: the pass, which is idle, and `last`, if it was the last one that named its group; None if other passes name it still.
#[derive(Drop)]
pub struct Left<J: Naming> {
    pub pass: Pass<J>,
    pub last: Option<Last<J>>,
}
