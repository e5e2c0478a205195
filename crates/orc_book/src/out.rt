//! What a worker lends to a book's calls: passes for new records, and room for what comes out. A *group* is what runs in one right side of a `<x<`,
//! one left side of a `;`, or the whole program; its members are tokens, pending calls and groups right inside it, and an *idle* pass names no group.
//! `P` names the table of words, for contracts alone.

ghost use Rattle.std.specs.Prelude.{◌≡◌, ◌+◌, ◌≤◌, ◌++◌, ◌∷◌, [], None, vec_len, vec_capacity, IfNone, OnOk, MatchOption};
ghost use Rattle.orc_word.specs.Views.{group_of};
ghost use Rattle.orc_book.specs.Refusals.{HasNone};

use crate::token::Token;
use orc_word::{Naming, Pass};
use std::alloc::{AllocError, Global};

/// Passes that a worker lends for the records that a step makes; a *pass* counts one member of a group. What the step doesn't use stays here.
#[derive(Drop)]
pub struct Births<P: Naming> {
    /// Passes to the group of the token that moves; the last one is used first.
    pub same: Vec<Pass<P>>,
    /// Idle passes, which name no group; the last one is used first.
    pub idle: Vec<Pass<P>>,
}

/// Lists for what comes of a book's calls. The calls add to `born` and `leave`; to `cancelled` their caller adds.
pub struct StepOut<P: Naming> {
    /// Tokens that have come out, for the worker to move.
    pub born: Vec<Token<P>>,
    /// Passes to be left, that is, no longer counted, once the book's lock is given up.
    pub leave: Vec<Pass<P>>,
    /// The numbers of calls that binds have cancelled. `bind` writes them over another list, which its caller lends; no call of a book adds to this
    /// one.
    pub cancelled: Vec<u64>,
}

// Written out, so that each exit of a function that has one drops it by one call.
impl<P: Naming> Drop for StepOut<P> {
    fn drop(self) {
        let StepOut {
            born,
            leave,
            cancelled,
        } = self;
        drop(born);
        drop(leave);
        drop(cancelled);
    }
}

impl<P: Naming> Births<P> {
    /// No passes.
    pub fn new(alloc: Global) -> Births<P>
        ensures { (result.same.items ≡ []) × (result.idle.items ≡ []) }
    {
        Births {
            same: Vec::new(alloc),
            idle: Vec::new(alloc),
        }
    }

    // Takes the last pass of `same`, if it names this `group`: the number of a group's word, None for no group. None, and nothing is taken, if there
    // is no pass or the last one names another group.
    pub(crate) fn take_same(&mut self, group: Option<u32>) -> Option<Pass<P>>
        ensures pass { MatchOption result (self.new ≡ self.old) (λ pass. (group_of pass ≡ group) × (self.old.same.items ≡ self.new.same.items ++ pass ∷ [])) }
        ensures room { MatchOption result (self.new ≡ self.old) (λ _. vec_len self.new.same + 1 ≤ vec_capacity self.new.same) }
        ensures none { IfNone result (HasNone self.old.same.items group) }
        ensures idle { self.new.idle ≡ self.old.idle }
    {
        match self.same.last() {
            Some(pass) if pass.group() == group => self.same.pop(),
            _ => None,
        }
    }

    // Takes the last pass of `idle`, if it names no group. None, and nothing is taken, if there is no pass or the last one names a group.
    pub(crate) fn take_idle(&mut self) -> Option<Pass<P>>
        ensures pass { MatchOption result (self.new ≡ self.old) (λ pass. (group_of pass ≡ None) × (self.old.idle.items ≡ self.new.idle.items ++ pass ∷ [])) }
        ensures room { MatchOption result (self.new ≡ self.old) (λ _. vec_len self.new.idle + 1 ≤ vec_capacity self.new.idle) }
        ensures none { IfNone result (HasNone self.old.idle.items None) }
        ensures same { self.new.same ≡ self.old.same }
    {
        match self.idle.last() {
            Some(pass) if pass.group().is_none() => self.idle.pop(),
            _ => None,
        }
    }
}

impl<P: Naming> StepOut<P> {
    /// Nothing has come out.
    pub fn new(alloc: Global) -> StepOut<P>
        ensures { (result.born.items ≡ []) × (result.leave.items ≡ []) × (result.cancelled.items ≡ []) }
    {
        StepOut {
            born: Vec::new(alloc),
            leave: Vec::new(alloc),
            cancelled: Vec::new(alloc),
        }
    }

    // Makes room for what a step brings out at most: two tokens and a pass. The error is refused memory.
    pub(crate) fn reserve(&mut self) -> Result<(), AllocError>
        ensures born { self.new.born.items ≡ self.old.born.items }
        ensures leave { self.new.leave.items ≡ self.old.leave.items }
        ensures cancelled { self.new.cancelled ≡ self.old.cancelled }
        ensures tokens { OnOk result (vec_len self.new.born + 2 ≤ vec_capacity self.new.born) }
        ensures passes { OnOk result (vec_len self.new.leave + 1 ≤ vec_capacity self.new.leave) }
    {
        self.born.try_reserve(2)?;
        self.leave.try_reserve(1)
    }
}
