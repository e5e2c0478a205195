//! Moves of a worker's tokens, by the book's calls. The *book* keeps the records of a run. A token that is *out* is with a worker, which also has its
//! *pass*: that stands for the token in its group (what runs in one right side of a `<x<`, one left side of a `;`, or the whole program), whose
//! *word*, an atomic counter, counts the passes. To *leave* a pass means that the word counts it no more. A *birth* is a token or group that comes of
//! a move. `setup` has the program, the table of what sites answer and the words; `local` has what is this worker's own: its tokens, passes for
//! births, passes to leave. A *cell* stands for the x of an opened `<x<`. `C` is the sites' own type of a call.

ghost use Rattle.std.specs.Prelude.{◌≡◌};

use crate::local::Local;
use crate::setup::Setup;
use crate::shared::{Shared, stop_of};
use orc_book::{Answered, BookFault, Token};
use orc_ledger::Action;
use orc_log::Run;
use orc_rules::limits::MOST_GROUPS;
use orc_rules::value::Answer;
use orc_scheduler::Stop;
use orc_word::Naming;

/// What a move of a token has come to.
#[derive(Clone, Copy)]
pub(crate) enum Step {
    /// The move was made, or the token is there no more, or the run has stopped.
    On,
    /// The call with this number was recorded, and is to be made.
    Calls(u64),
    /// Something is full, perhaps as the words of killed groups leave none for a group that the move opens. The token is still with the worker.
    Full,
}

impl<P: Run + Naming, C: Drop> Shared<P, C> {
    /// One move of a token that is out with a worker. The worker gets the tokens and passes that come of it. The caller has the lock.
    pub(crate) fn step(
        &mut self,
        setup: &Setup<'_, P>,
        local: &mut Local<P>,
        token: Token<P>,
    ) -> Step {
        let view = self.book.view(setup.inputs, token.slot, token.serial);
        // The view says what the token does next. Without one a bind has dropped its record meanwhile: the worker has to leave the pass.
        let Some(view) = view else {
            local.put(token.pass);
            return Step::On;
        };
        // From here on passes for births have to name this token's group; the worker leaves those to another group.
        local.go_to(token.pass.group());
        match view.what {
            Action::Publish(_) => self.publish(setup, local, token),
            Action::Bind(cell, _) => self.bind(setup, local, token, cell),
            Action::Call => self.call(setup, local, token),
            Action::Wait(_) => self.wait(setup, local, token),
            // Any other move may bring tokens or a group, for which the worker needs passes.
            what => {
                local.prepare(setup.groups, view.needs, &token.pass);
                // The token is dropped: the run has stopped.
                if local.was_refused_memory() {
                    self.stop_for_memory();
                    return Step::On;
                }
                let step = self.move_on(setup, local, token);
                // The token that moves next is the last in the list: after a fork that is to be the left side's.
                if let Action::Fork = what {
                    turn_last_two(local);
                }
                step
            }
        }
    }

    // A move by the book's `step`: it makes no call and binds no cell. The passes for its births were prepared. The book adds the tokens and the
    // passes to leave that come of it to `local.out`.
    fn move_on(&mut self, setup: &Setup<'_, P>, local: &mut Local<P>, token: Token<P>) -> Step {
        match self.book.step(
            setup.groups,
            setup.inputs,
            token,
            &mut local.births,
            &mut local.out,
        ) {
            Ok(()) => Step::On,
            Err(refused) => self.refused(local, refused.why, refused.back),
        }
    }

    // What comes of a token whose move the book has refused for the reason `why`.
    fn refused(&mut self, local: &mut Local<P>, why: BookFault, token: Token<P>) -> Step {
        match why {
            // The book finds no such token out, as where `step` finds no record: the worker drops it, and has to leave its pass.
            BookFault::Gone => {
                local.put(token.pass);
                Step::On
            }
            // Full may mean that no word is free for a group. That is so only if killed groups use this many words, which are to be freed then.
            BookFault::Full if self.book.dying() >= MOST_GROUPS => {
                local.hold(token);
                Step::Full
            }
            // The run stops: a limit is reached, memory was refused, or the worker has called the book wrongly.
            why => {
                self.stop(stop_of(why));
                Step::On
            }
        }
    }

    // A publication of the program. The token ends with it, and the worker has to leave its pass.
    fn publish(&mut self, setup: &Setup<'_, P>, local: &mut Local<P>, token: Token<P>) -> Step {
        match self.book.publish(setup.inputs, token) {
            Ok(pass) => {
                local.put(pass);
                Step::On
            }
            Err(refused) => self.refused(local, refused.why, refused.back),
        }
    }

    // Binds a cell: the tokens and calls of the pruning's right side are dropped, and the tokens that wait for the cell go on.
    fn bind(
        &mut self,
        setup: &Setup<'_, P>,
        local: &mut Local<P>,
        token: Token<P>,
        cell: u64,
    ) -> Step {
        // The book adds the passes of all that goes to `leave`, and writes the numbers of the calls that go over `cancelled`.
        let leave = &mut local.out.leave;
        let cancelled = &mut self.cancelled;
        match self
            .book
            .bind(setup.groups, setup.inputs, token, leave, cancelled)
        {
            Ok(()) => {
                self.drop_cancelled(local);
                self.wake(local, cell);
                Step::On
            }
            Err(refused) => self.refused(local, refused.why, refused.back),
        }
    }

    // Drops the calls that the last bind has cancelled, and notes that the worker has to tell the sites. A call that a worker polls outside isn't in
    // `pending`: its result is dropped later, since the call doesn't pend.
    fn drop_cancelled(&mut self, local: &mut Local<P>) {
        for number in self.cancelled.iter() {
            self.pending.remove(number);
        }
        let cancelled = self.cancelled.as_slice();
        if local.out.cancelled.extend_from_slice(cancelled).is_err() {
            self.stop_for_memory();
        }
    }

    /// The tokens that wait for a cell, which is bound or lost, go on, with this worker.
    pub(crate) fn wake(&mut self, local: &mut Local<P>, cell: u64) {
        if self.book.wake(cell, &mut local.out.born).is_err() {
            self.stop_for_memory();
        }
    }

    // A call of a site: it is recorded here, and made outside the lock.
    fn call(&mut self, setup: &Setup<'_, P>, local: &mut Local<P>, token: Token<P>) -> Step {
        // The book writes the call's arguments over `args`. Nobody reads them here: `request` gives them again.
        let args = &mut self.args;
        match self.book.call(setup.inputs, token, args) {
            // The worker makes the call with this number outside the lock.
            Ok(number) => Step::Calls(number),
            Err(refused) => self.refused(local, refused.why, refused.back),
        }
    }

    // The book keeps a token that waits for a cell.
    fn wait(&mut self, setup: &Setup<'_, P>, local: &mut Local<P>, token: Token<P>) -> Step {
        match self.book.wait(setup.inputs, token) {
            Ok(()) => Step::On,
            Err(refused) => self.refused(local, refused.why, refused.back),
        }
    }

    /// Enters the answer of the call with this number, if it still pends. This worker gets the token that stands on the value, or, if the call has
    /// halted, its pass to leave.
    pub(crate) fn answer(&mut self, local: &mut Local<P>, number: u64, answer: Answer) {
        match self.book.returned(number, answer) {
            Ok(Answered::Token(token)) => local.hold(token),
            Ok(Answered::Halted(pass)) => local.put(pass),
            // The call was cancelled meanwhile.
            Err(BookFault::Gone) => {}
            // The table has another answer, or not at this time: the site is to blame.
            Err(BookFault::Wrong) => self.stop(Stop::Site(number)),
            Err(why) => self.stop(stop_of(why)),
        }
    }
}

// After a fork, has the left side of `f | g` move first: the last token in the list moves next. Of a pruning the right side moves first, so that its
// group may be gone before the left side opens more.
fn turn_last_two<P: Naming>(local: &mut Local<P>) {
    let count = local.out.born.len();
    if count >= 2 {
        local.out.born.swap(count - 2, count - 1);
    }
}
