//! What a worker has for itself: tokens, and passes for *births*, that is for the tokens and groups that its moves bring. A *pass* is idle or names a
//! group (what runs in one right side of a `<x<`, one left side of a `;`, or the whole program); it stands for one record in the group, whose *word*,
//! an atomic counter, counts the passes. To *leave* a pass makes it idle. Who leaves the last pass of a group gets a `Last`, and has to close the
//! group under the lock. `Groups` has the words. `StepOut` has the lists for what comes of the book's calls, `Births` the passes that they use.

use orc_book::{Births, Needs, StepOut, Token};
use orc_word::{Groups, Last, Naming, Pass, Supply};
use std::alloc::Global;

/// How many passes to the group of the token that it moved last a worker keeps, for the next forks there.
const MOST_NEAR: usize = 64;

/// The tokens that are *out* with a worker (the book has their records, the worker the tokens) and in no queue, the one that moves next last; the
/// passes that the worker has to leave and the calls of whose cancels it has to tell the sites; passes for *births*, the tokens and groups that its
/// moves bring; and the groups that it was the last to leave.
pub(crate) struct Local<P: Naming> {
    // Its tokens, the passes to leave and the cancelled calls. The book's calls add tokens and passes to it.
    pub out: StepOut<P>,
    // The passes that it lends to the book's `step`.
    pub births: Births<P>,
    // The word of the group *in which the worker is*, that of the token that it moved last, if any. All passes in `births.same` name it.
    word: Option<u32>,
    // Idle passes.
    supply: Supply<P>,
    // The groups that it was the last to leave, and has to close.
    lasts: Vec<Last<P>>,
    // Whether memory was refused for a token, a pass or a group. A token, a group, and a pass that was to be left are lost then, so the run stops.
    was_refused_memory: bool,
}

// Written out, so that each exit of a function that has one drops it by one call.
impl<P: Naming> Drop for Local<P> {
    fn drop(self) {
        let Local {
            out,
            births,
            word: _,
            supply,
            lasts,
            was_refused_memory: _,
        } = self;
        drop(out);
        drop(births);
        drop(supply);
        drop(lasts);
    }
}

impl<P: Naming> Local<P> {
    /// A worker that has a supply of passes, and no token.
    pub(crate) fn new(alloc: Global, supply: Supply<P>) -> Local<P> {
        Local {
            out: StepOut::new(alloc),
            births: Births::new(alloc),
            word: None,
            supply,
            lasts: Vec::new(alloc),
            was_refused_memory: false,
        }
    }

    /// Takes a token that is out with the worker from now on, and moves next. It is lost if memory is refused (`was_refused_memory`).
    pub(crate) fn hold(&mut self, token: Token<P>) {
        if self.out.born.push(token).is_err() {
            self.was_refused_memory = true;
        }
    }

    /// Takes out the token that moves next; None if the worker has none.
    pub(crate) fn take_token(&mut self) -> Option<Token<P>> {
        self.out.born.pop()
    }

    /// Takes a pass that no record has any more, which the worker has to leave. It is lost if memory is refused (`was_refused_memory`).
    pub(crate) fn put(&mut self, pass: Pass<P>) {
        if self.out.leave.push(pass).is_err() {
            self.was_refused_memory = true;
        }
    }

    /// The worker goes on in the group of this word, or in none where `word` is None. If that is another one than before, it has to leave the passes
    /// for births in the old one: they are put among those to leave.
    pub(crate) fn go_to(&mut self, word: Option<u32>) {
        if self.word == word {
            return;
        }
        // The prover asks for a bound. Each round takes a pass.
        for _ in 0..u64::MAX {
            match self.births.same.pop() {
                Some(pass) => self.put(pass),
                None => break,
            }
        }
        self.word = word;
    }

    /// Gets the passes that the births of a move need (the tokens and groups that it brings), if the worker has none; no move needs more than one of
    /// a kind. `needs` says how many passes to the token's group it needs (`same`), and how many that name no group (`idle`). `with` is the pass of
    /// the token that moves, in the worker's group. If the supply is empty the move lacks a pass, and the book refuses it as Short.
    pub(crate) fn prepare(&mut self, groups: &Groups<P>, needs: Needs, with: &Pass<P>) {
        if needs.same > 0 && self.births.same.is_empty() {
            let same = self.same(groups, with);
            self.add_same(same);
        }
        if needs.idle > 0 && self.births.idle.is_empty() {
            let idle = self.supply.take(groups);
            self.add_idle(idle);
        }
    }

    // A pass to the group of `with`: the last of the passes that are to be left, if it names that group, which takes no exchange on the word; else a
    // new one that enters it. None if `with` names no group or the supply is empty.
    fn same(&mut self, groups: &Groups<P>, with: &Pass<P>) -> Option<Pass<P>> {
        let word = with.group();
        if word.is_none() {
            return None;
        }
        if let Some(pass) = self.out.leave.pop() {
            // A pass to the token's group, left by another record, does for the new one.
            if pass.group() == word {
                return Some(pass);
            }
            // It names another group, and stays among those to be left.
            self.put(pass);
        }
        let idle = self.supply.take(groups)?;
        Some(groups.enter(with, idle))
    }

    // Keeps a pass for a birth in the same group, if there is one. Where memory is refused the pass is to be left, and the run stops: the move lacks
    // it.
    fn add_same(&mut self, pass: Option<Pass<P>>) {
        if let Some(pass) = pass
            && let Err(refused) = self.births.same.push(pass)
        {
            self.was_refused_memory = true;
            self.put(refused.value);
        }
    }

    // Keeps an idle pass for a birth, if there is one. Where memory is refused the pass is to be left, and the run stops: the move lacks it.
    fn add_idle(&mut self, pass: Option<Pass<P>>) {
        if let Some(pass) = pass
            && let Err(refused) = self.births.idle.push(pass)
        {
            self.was_refused_memory = true;
            self.put(refused.value);
        }
    }

    /// Leaves the passes that are to be left, but keeps some to the group in which the worker is, up to `MOST_NEAR`: they are for births. No lock is
    /// needed.
    pub(crate) fn settle(&mut self, groups: &Groups<P>) {
        // The prover asks for a bound. Each round takes a pass.
        for _ in 0..u64::MAX {
            match self.out.leave.pop() {
                Some(pass) => self.settle_one(groups, pass),
                None => break,
            }
        }
    }

    // Keeps a pass to the group in which the worker is for births, or leaves it. Where memory to keep it is refused it is left: no move has asked for
    // it yet.
    fn settle_one(&mut self, groups: &Groups<P>, pass: Pass<P>) {
        if pass.group() != self.word || self.births.same.len() >= MOST_NEAR {
            self.leave(groups, pass);
        } else if let Err(refused) = self.births.same.push(pass) {
            self.leave(groups, refused.value);
        }
    }

    // Leaves a pass: its group's word counts one less, and the pass, idle then, goes back into the supply. A group that the worker was the last to
    // leave is noted.
    fn leave(&mut self, groups: &Groups<P>, pass: Pass<P>) {
        // An idle pass is in no group that it could leave.
        if pass.group().is_none() {
            self.supply.give(groups, pass);
            return;
        }
        let left = groups.leave(pass);
        self.supply.give(groups, left.pass);
        if let Some(last) = left.last
            && self.lasts.push(last).is_err()
        {
            self.was_refused_memory = true;
        }
    }

    /// Takes out a group that the worker was the last to leave, which is to be closed under the lock; None if there is none.
    pub(crate) fn take_last(&mut self) -> Option<Last<P>> {
        self.lasts.pop()
    }

    /// Whether no pass is to be left and no group is to be closed.
    pub(crate) fn is_settled(&self) -> bool {
        self.out.leave.is_empty() && self.lasts.is_empty()
    }

    /// Whether the worker has no token, no pass to leave and no group to close, and so nothing to do under the lock.
    pub(crate) fn is_empty(&self) -> bool {
        self.out.born.is_empty() && self.is_settled()
    }

    /// Whether memory was refused for a token, for a pass, or for a group that is to be closed: such a group never ends.
    pub(crate) fn was_refused_memory(&self) -> bool {
        self.was_refused_memory
    }
}
