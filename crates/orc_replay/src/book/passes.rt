//! Passes that no record has: for tokens to come, or to be left. A pass stands for one record in its group; an idle one names no group. A *group* is
//! what runs in one right side of a `<x<`, one left side of a `;`, or the whole program. `groups` has a *word* for each, which counts the passes that
//! name the group; the program's own has word 0. To *leave* a pass makes it idle.
//!
//! Loops that end by `break` go over `0..u64::MAX`, so that the prover sees an end.

ghost use Rattle.std.specs.Prelude.{◌≡◌, None, IfSome};
ghost use Rattle.orc_word.specs.Views.{group_of};

use orc_word::{Groups, Last, Naming, Pass, Supply};
use std::alloc::{AllocError, Global};

/// Passes that no record has, and the groups that are still to be closed.
pub(crate) struct Passes<P: Naming> {
    // The idle passes.
    supply: Supply<P>,
    // The groups whose last pass was left, and which the book hasn't closed yet.
    pub lasts: Vec<Last<P>>,
    // Passes to the program's own group, kept for the next records there: that saves the atomic exchanges by which passes leave and enter.
    warm: Vec<Pass<P>>,
    // How many passes `warm` may have.
    most_warm: usize,
}

// Written out, so that each exit of a function that has passes drops them by one call.
impl<P: Naming> Drop for Passes<P> {
    fn drop(self) {
        let Passes {
            supply,
            lasts,
            warm,
            most_warm: _,
        } = self;
        drop(supply);
        drop(lasts);
        drop(warm);
    }
}

impl<P: Naming> Passes<P> {
    /// No passes but those of the supply. Each pass that comes back is left at once.
    pub(crate) fn new(alloc: Global, supply: Supply<P>) -> Passes<P> {
        Passes {
            supply,
            lasts: Vec::new(alloc),
            warm: Vec::new(alloc),
            most_warm: 0,
        }
    }

    /// From now on keeps up to `most` passes to the program's own group, until `leave_warm`.
    pub(crate) fn keep_warm(&mut self, most: usize) {
        self.most_warm = most;
    }

    /// An idle pass. None if the supply is empty.
    pub(crate) fn idle(&mut self, groups: &Groups<P>) -> Option<Pass<P>>
        ensures { IfSome result (λ pass. group_of pass ≡ None) }
    {
        self.supply.take(groups)
    }

    /// Another pass to the group that `with` names. None if `with` is idle or the supply is empty.
    pub(crate) fn same(&mut self, groups: &Groups<P>, with: &Pass<P>) -> Option<Pass<P>>
        ensures { IfSome result (λ pass. group_of pass ≡ group_of with.now) }
    {
        // `enter` requires that `with` names a group.
        if with.group().is_none() {
            return None;
        }
        if let Some(pass) = self.warm_as(with) {
            return Some(pass);
        }
        let idle = self.supply.take(groups)?;
        Some(groups.enter(with, idle))
    }

    // One of the passes in `warm`, if `with` names the program's own group too. None else, or if none is there.
    fn warm_as(&mut self, with: &Pass<P>) -> Option<Pass<P>>
        ensures { IfSome result (λ pass. group_of pass ≡ group_of with.now) }
    {
        match self.warm.last() {
            Some(pass) if pass.group() == with.group() => self.warm.pop(),
            _ => None,
        }
    }

    /// Leaves a pass, which goes back into the supply. True if it was the last one to its group, which is among `lasts` then and has to be closed. An
    /// idle pass is the last one of none. The error is refused memory: the pass is left all the same, but nobody is told that its group has to be
    /// closed.
    pub(crate) fn leave(&mut self, groups: &Groups<P>, pass: Pass<P>) -> Result<bool, AllocError> {
        if pass.group().is_none() {
            self.supply.give(groups, pass);
            return Ok(false);
        }
        let left = groups.leave(pass);
        self.supply.give(groups, left.pass);
        // `last` is there if no other pass names the group any more.
        match left.last {
            Some(last) => match self.lasts.push(last) {
                Ok(()) => Ok(true),
                Err(_) => Err(AllocError),
            },
            None => Ok(false),
        }
    }

    // Keeps a pass to the program's own group as long as `warm` has fewer than `most_warm`, and leaves any other one. The error is refused memory.
    // Then a pass that was to be kept is lost, and its word counts it for good; of any other `leave` says what has become.
    fn put_away(&mut self, groups: &Groups<P>, pass: Pass<P>) -> Result<(), AllocError> {
        if pass.group() == Some(0) && self.warm.len() < self.most_warm {
            return match self.warm.push(pass) {
                Ok(()) => Ok(()),
                Err(_) => Err(AllocError),
            };
        }
        self.leave(groups, pass)?;
        Ok(())
    }

    /// Empties a list of passes: leaves them, but keeps those to the program's own group as long as fewer are kept than `keep_warm` allows. The error
    /// is refused memory: the passes before the one at which it was refused stay in the list.
    pub(crate) fn leave_all(
        &mut self,
        groups: &Groups<P>,
        passes: &mut Vec<Pass<P>>,
    ) -> Result<(), AllocError> {
        for _ in 0..u64::MAX {
            let Some(pass) = passes.pop() else { break };
            self.put_away(groups, pass)?;
        }
        Ok(())
    }

    /// Leaves the passes that are kept warm, and keeps no more. The error is refused memory: those before the one at which it was refused stay kept.
    pub(crate) fn leave_warm(&mut self, groups: &Groups<P>) -> Result<(), AllocError> {
        self.most_warm = 0;
        for _ in 0..u64::MAX {
            let Some(pass) = self.warm.pop() else { break };
            self.leave(groups, pass)?;
        }
        Ok(())
    }
}
