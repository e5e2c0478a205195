//! What the workers share under their one lock. The *book* keeps the records of a run: tokens, pending calls and groups. A *group* is what runs in
//! one right side of a `<x<`, one left side of a `;`, or the whole program. A worker has tokens, each with a *pass* that stands for it in its group;
//! who leaves the last pass of a group closes the group. A *tick* is the entry by which time goes on. `setup` has the program, the table of what
//! sites answer (`answers`), and the groups' *words*, which count the passes; `local` has what is one worker's own: its tokens and passes. A worker
//! *rests* while it waits until others have work for it. In contracts `P` stands for the run and its table of words.

use crate::local::Local;
use crate::moves::Step;
use crate::setup::Setup;
use crate::stopper::Stopper;
use orc_book::{Book, BookFault, Ended};
use orc_ledger_spec::LedgerFault;
use orc_log::Run;
use orc_rules::answers::Answers;
use orc_rules::value::{Answer, Args};
use orc_scheduler::Stop;
use orc_site::{Due, Request, due_after};
use orc_word::{Last, Naming};
use std::alloc::Global;
use std::collections::BTreeMap;
use std::mem;

/// The most moves in a turn under the lock, if another worker is awake: it may wait for the lock.
const MOVES: u32 = 16;

/// The most moves in a turn, if all other workers rest.
const MOVES_ALONE: u32 = 64;

/// The result of a call that a worker has made or polled outside the lock. `C` is the sites' own type of a call, which is polled for its answer.
#[derive(Drop)]
pub(crate) enum CallEvent<C: Drop> {
    /// The worker has made and polled no call since its last turn.
    None,
    /// The call with this number has this answer.
    Answered(u64, Answer),
    /// The call with this number has no answer yet, and says when it is due.
    Waits(u64, Due, Box<C>),
    /// The call with this number was due and didn't answer.
    Late(u64),
    /// Memory was refused.
    Refused,
}

/// What a worker has to do outside the lock.
#[derive(Drop)]
pub(crate) enum OutsideWork<C: Drop> {
    /// Nothing: the worker goes on with its next turn.
    None,
    /// To make this call, which the book has recorded.
    Make(Request),
    /// To poll the call with this number (the first one) again: it is due now, at this time (the second one).
    Ask(u64, u64, Box<C>),
    /// To free words of groups: a token opens a group, and those of killed groups leave no room for it.
    MakeRoom,
    /// There is nothing to do until another worker has something for it.
    Rest,
    /// The run has stopped, and the worker's shift ends.
    Over,
}

/// The book of a run, the calls that wait until they are due, why the run has stopped, and how many workers there are and rest.
pub(crate) struct Shared<P: Run + Naming, C: Drop> {
    // The run.
    pub(crate) book: Book<P>,
    // The calls that wait until they are due, by their numbers. A call that a worker is polling isn't here, but with that worker.
    pub(crate) pending: BTreeMap<u64, Box<C>>,
    // Lent to the book: for the arguments of a call, and for the numbers of the calls that a bind has cancelled.
    pub(crate) args: Args,
    pub(crate) cancelled: Vec<u64>,
    // Why the run has stopped, if it has.
    stopper: Stopper,
    // How often workers at rest have been asked to look for work again.
    pub(crate) offers: u64,
    // How many workers have begun, those that rest too. A thread that wasn't started isn't among them.
    pub(crate) working: u32,
    // Of the working: those that rest.
    pub(crate) resting: u32,
}

// Written out, so that each exit of a function that has one drops it by one call.
impl<P: Run + Naming, C: Drop> Drop for Shared<P, C> {
    fn drop(self) {
        let Shared {
            book,
            pending,
            args,
            cancelled,
            stopper,
            offers: _,
            working: _,
            resting: _,
        } = self;
        drop(book);
        drop(pending);
        drop(args);
        drop(cancelled);
        drop(stopper);
    }
}

impl<P: Run + Naming, C: Drop> Shared<P, C> {
    /// A run at its beginning. The first worker, with the first token, is at work.
    pub(crate) fn new(alloc: Global, book: Book<P>, stopper: Stopper) -> Shared<P, C> {
        Shared {
            book,
            pending: BTreeMap::new(alloc),
            args: Args::new(),
            cancelled: Vec::new(alloc),
            stopper,
            offers: 0,
            working: 1,
            resting: 0,
        }
    }

    /// The book, and why the run has stopped. The first worker returns only once the run has stopped, so `Broken` doesn't come from here.
    pub(crate) fn into_book(self) -> (Book<P>, Stop) {
        let Shared {
            book,
            pending,
            args,
            cancelled,
            stopper,
            offers: _,
            working: _,
            resting: _,
        } = self;
        drop(pending);
        drop(args);
        drop(cancelled);
        (book, stopper.reason().unwrap_or(Stop::Broken))
    }

    /// Whether the run has stopped.
    pub(crate) fn is_over(&self) -> bool {
        self.stopper.reason().is_some()
    }

    /// The run stops for this reason, if it hasn't yet. Whoever has the lock then has to wake those at rest before it leaves it.
    pub(crate) fn stop(&mut self, reason: Stop) {
        self.stopper.stop(reason);
    }

    /// The run stops for want of memory.
    pub(crate) fn stop_for_memory(&mut self) {
        self.stop(Stop::Refused(LedgerFault::Memory));
    }

    /// Whether all other workers rest. The worker that asks doesn't rest, and has the lock.
    pub(crate) fn is_alone(&self) -> bool {
        self.working <= self.resting.saturating_add(1)
    }

    /// A worker's turn: it reports `event`, the result of the call that it made or polled last, and closes the groups that it was the last to leave.
    /// Then its tokens move until it has work outside the lock or has made its moves. If this turn begins a round (`begins_round`), a call that is
    /// due comes before its tokens. The work is None if the worker has no token left or has made its moves.
    pub(crate) fn work(
        &mut self,
        setup: &Setup<'_, P>,
        local: &mut Local<P>,
        event: CallEvent<C>,
        begins_round: bool,
    ) -> OutsideWork<C> {
        self.take_call_event(setup.inputs.answers, local, event);
        self.close_groups(local);
        if begins_round
            && !self.is_over()
            && let Some(work) = self.take_due()
        {
            return work;
        }
        // How many moves the turn has at most: more if nobody waits for the lock.
        let moves = if self.is_alone() { MOVES_ALONE } else { MOVES };
        for _move in 0..moves {
            // The last move may have lost a token, a pass or a group.
            if local.was_refused_memory() {
                self.stop_for_memory();
            }
            if self.is_over() {
                return OutsideWork::Over;
            }
            let Some(token) = local.take_token() else {
                return OutsideWork::None;
            };
            match self.step(setup, local, token) {
                // On to the next move.
                Step::On => {}
                // The token is at a call, which the book has recorded and the worker makes outside the lock.
                Step::Calls(number) => return self.make(number),
                Step::Full => return OutsideWork::MakeRoom,
            }
        }
        OutsideWork::None
    }

    // Enters the result of the call that a worker made or polled last into the book. Once the run has stopped the result is dropped.
    fn take_call_event(&mut self, answers: &Answers, local: &mut Local<P>, event: CallEvent<C>) {
        if self.is_over() {
            return;
        }
        match event {
            // There is nothing to report.
            CallEvent::None => {}
            CallEvent::Answered(number, answer) => self.answer(local, number, answer),
            CallEvent::Waits(number, due, call) => self.park(answers, number, due, call),
            CallEvent::Late(number) => {
                // Sites that were told of the call's cancel need not answer it. A call that still pends is theirs to answer.
                if self.book.request(number).is_some() {
                    self.stop(Stop::Site(number));
                }
            }
            CallEvent::Refused => self.stop_for_memory(),
        }
    }

    // Keeps a call that waits until it is due, if it still pends. `number` is the call's, `due` when it is due as the call says.
    fn park(&mut self, answers: &Answers, number: u64, due: Due, call: Box<C>) {
        // A call that doesn't pend was cancelled meanwhile, and is dropped.
        let Some(request) = self.request(number) else {
            return;
        };
        // What the table says of this call. The call says itself when it is due (`due`), and that has to be when the table has it answered.
        let found = answers.find(request.site, &request.args, request.nth);
        if due != due_after(request.made_at, found) {
            self.stop(Stop::Site(number));
            return;
        }
        if self.pending.insert(number, call).is_err() {
            self.stop_for_memory();
        }
    }

    // The work of making a call that the book has recorded, with what it asks. `number` is the call's.
    fn make(&mut self, number: u64) -> OutsideWork<C> {
        match self.request(number) {
            Some(request) => OutsideWork::Make(request),
            // This doesn't come up: the call was recorded in this turn, and its `nth` counts from 1.
            None => {
                self.stop(Stop::Broken);
                OutsideWork::Over
            }
        }
    }

    // What the call with this number asks (its site, its arguments, which of such calls it is, from 1, and when it was made); None if it doesn't
    // pend.
    fn request(&self, number: u64) -> Option<Request> {
        let asked = self.book.request(number)?;
        // `nth` counts from 1, as a `Request` asks. That it does isn't in the book's contract, so it is tested here.
        if asked.nth < 1 {
            return None;
        }
        Some(Request {
            number,
            site: asked.site,
            args: asked.args.copied(),
            nth: asked.nth,
            made_at: asked.made_at,
        })
    }

    /// Closes the groups that a worker was the last to leave; none once the run has stopped.
    pub(crate) fn close_groups(&mut self, local: &mut Local<P>) {
        // The prover asks for a bound. Each round closes a group.
        for _ in 0..u64::MAX {
            if self.is_over() {
                return;
            }
            match local.take_last() {
                Some(last) => self.close(local, last),
                None => return,
            }
        }
    }

    // Closes a group that the worker was the last to leave. The worker gets the tokens that this sets free: one that starts a right side, or those
    // that wait for a cell that is lost.
    fn close(&mut self, local: &mut Local<P>, last: Last<P>) {
        match self.book.halt(last, &mut local.out.leave) {
            // It was the program's own group, so the term has halted.
            Ok(Ended::Run) => self.stop(Stop::Halted),
            Ok(Ended::Token(token)) => local.hold(token),
            // The right side of this cell has ended without a value.
            Ok(Ended::Lost(cell)) => self.wake(local, cell),
            // Nothing follows. The pass to the enclosing group is in `leave`.
            Ok(Ended::Group) => {}
            Err(refused) => self.stop(stop_of(refused.why)),
        }
    }

    /// Drops those of a worker's tokens that have no record any more, since a bind has killed their group. The worker has to leave their passes.
    pub(crate) fn drop_gone(&mut self, alloc: Global, setup: &Setup<'_, P>, local: &mut Local<P>) {
        let tokens = mem::replace(&mut local.out.born, Vec::new(alloc));
        for token in tokens {
            match self.book.view(setup.inputs, token.slot, token.serial) {
                Some(_) => local.hold(token),
                None => local.put(token.pass),
            }
        }
    }
}

/// The reason why a run stops if the book refuses a move of a token that still has its record, an answer, a tick or the close of a group. Full says
/// that the most tokens and calls, groups, or left sides of a `>x>` round one token are reached, or that no word is free; Limit that the journal has
/// as many entries as it may.
pub(crate) fn stop_of(why: BookFault) -> Stop {
    match why {
        BookFault::Full => Stop::Refused(LedgerFault::Full),
        BookFault::Limit => Stop::Refused(LedgerFault::Limit),
        BookFault::Memory => Stop::Refused(LedgerFault::Memory),
        // The worker is to blame: it has called the book wrongly, or has lent it too few passes.
        BookFault::Gone | BookFault::Short | BookFault::Live | BookFault::Wrong => Stop::Broken,
    }
}
