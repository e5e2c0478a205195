//! Workers at work. A *shift* is all that one worker does for a run: turns under the lock, and between them its work outside the lock. In a *turn*
//! its tokens move; between turns it makes calls of sites, each behind the `gate`, and *polls* them: it asks for their answers. A *pass* stands for
//! one record in its group (what runs in one right side of a `<x<`, one left side of a `;`, or the whole program), and the group's *word* counts the
//! passes. A worker *leaves* the passes of records that have gone; who leaves a group's last pass closes the group. A bind *kills* groups: their
//! words are in use until all passes are left. A worker that finds no work *rests* until others *offer* some.

ghost use Rattle.std.specs.Prelude.{◌≡◌, false, None};
ghost use Rattle.orc_cell.specs.Readers.{has_read};

use crate::context::Context;
use crate::local::Local;
use crate::poller::{Polled, Poller};
use crate::shared::{CallEvent, OutsideWork};
use orc_book::Token;
use orc_cell::Reader;
use orc_ledger_spec::LedgerFault;
use orc_log::Run;
use orc_pool::WorkerQueue;
use orc_rules::limits::MOST_TOKENS;
use orc_scheduler::Stop;
use orc_site::{Gate, Request, Sites};
use orc_word::Naming;
use std::sync::Wait;
use std::sync::atomic::Ordering;
use std::{mem, thread};

/// How many turns a round has. Between two rounds the worker takes a call that is due, and then the token that has waited longest in its queue.
const ROUND: u32 = 64;

/// If neither sites nor gate ever wait: how often in a row a worker puts tokens into its queue and has over `SPARE` there before it wakes another.
const PATIENCE: u32 = 16;

/// A worker with more queued tokens than this can spare some for others.
const SPARE: usize = 4;

/// A worker at work.
pub(crate) struct Shift<'h, P: Run + Naming, R: Wait, S: Sites, G: Gate> {
    // By it the worker takes the lock and waits.
    rt: &'h R,
    // What it shares with the others.
    context: &'h Context<'h, P, S, G>,
    // Reads the reason why the run stops, without the lock.
    why: Reader<'h, Stop>,
    // Its own side of the queues, from which others may steal.
    queue: WorkerQueue<Token<P>>,
    // At least the number of tokens in its queue: the worker doesn't learn which of them others steal.
    queued: usize,
    // What it has for itself: tokens that are in no queue, and passes.
    local: Local<P>,
    // Polls calls outside the lock.
    poller: Poller,
    // The result of its last call, which the next turn reports under the lock.
    event: CallEvent<S::Call>,
    // Its turns in this round, `ROUND` at most.
    turns: u32,
    // How many times in a row it has put tokens into its queue and had more than `SPARE` there, since it last woke another worker.
    rich: u32,
}

// Written out, so that each exit of a function that has one drops it by one call.
impl<P: Run + Naming, R: Wait, S: Sites, G: Gate> Drop for Shift<'_, P, R, S, G> {
    fn drop(self) {
        let Shift {
            rt: _,
            context: _,
            why,
            queue,
            queued: _,
            local,
            poller,
            event,
            turns: _,
            rich: _,
        } = self;
        drop(why);
        drop(queue);
        drop(local);
        drop(poller);
        drop(event);
    }
}

impl<'h, P: Run + Naming, R: Wait, S: Sites, G: Gate> Shift<'h, P, R, S, G> {
    /// A worker that has done nothing yet.
    pub(crate) fn new(
        rt: &'h R,
        context: &'h Context<'h, P, S, G>,
        queue: WorkerQueue<Token<P>>,
        local: Local<P>,
        poller: Poller,
    ) -> Shift<'h, P, R, S, G> {
        Shift {
            rt,
            context,
            why: Reader::new(context.why),
            queue,
            queued: 0,
            local,
            poller,
            event: CallEvent::None,
            turns: 0,
            rich: 0,
        }
    }

    /// Gives the work that the worker has to do outside the lock next, after a turn under the lock or a look for work. The call blocks while other
    /// workers have all that is left.
    pub(crate) fn next_work(&mut self) -> OutsideWork<S::Call> {
        // If memory was refused since the last turn, the run stops here.
        self.tell_lost();
        if self.finds_end() {
            OutsideWork::Over
        } else if self.take_turn() {
            self.turn()
        } else {
            self.rest()
        }
    }

    // Reads, without the lock, whether the run has stopped. Once it reads so it always does, and the worker polls no waiting call any more. By the
    // clause a false answer means that `why`, the worker's reader, has read no reason yet.
    fn finds_end(&mut self) -> bool
        ensures { result ≡ false → has_read self.new.why ≡ None }
    {
        self.why.read().is_some()
    }

    // Whether the worker has something for a turn: a token, the result of a call, a pass to leave or a group to close. If it has none of these it
    // takes a token from its queue, or steals one.
    fn take_turn(&mut self) -> bool {
        // The result of the last call is to be reported, or there is something to do under the lock.
        if !matches!(&self.event, CallEvent::None) || !self.local.is_empty() {
            return true;
        }
        match self.queue.next() {
            // A stolen token wasn't counted in `queued`. The worker's own queue is empty then, so the count is still not too small.
            Some(token) => {
                self.queued = self.queued.saturating_sub(1);
                self.local.hold(token);
                true
            }
            // Its own queue is empty, and it has found nothing to steal.
            None => {
                self.queued = 0;
                false
            }
        }
    }

    // A turn under the lock, in which the worker's tokens move. Gives the work that it has to do outside the lock.
    fn turn(&mut self) -> OutsideWork<S::Call> {
        let begins_round = self.turns >= ROUND;
        if begins_round {
            self.turns = 0;
            self.take_oldest();
        }
        self.turns = self.turns.saturating_add(1);
        // The result of the last call, which this turn reports.
        let event = mem::replace(&mut self.event, CallEvent::None);
        let context = self.context;
        let mut shared = context.shared.lock(self.rt);
        let work = shared.work(&context.setup, &mut self.local, event, begins_round);
        // Wakes workers at rest: all if the run has stopped, and one for a due call if this worker goes outside and may wait there.
        context.tell(&mut shared, &work);
        work
    }

    // Puts all its tokens into its queue, and takes out the one that has waited longest in the queue, which moves next. If others have stolen them
    // all, or steal all the time that it tries, the worker has none then.
    fn take_oldest(&mut self) {
        self.share(0);
        if let Some(token) = self.queue.oldest() {
            self.queued = self.queued.saturating_sub(1);
            self.local.hold(token);
        }
    }

    /// Does this work outside the lock, and before it what each turn leaves to do: it leaves passes and tells the sites of cancels. Says whether the
    /// run is over.
    pub(crate) fn do_work(&mut self, work: OutsideWork<S::Call>) -> bool {
        self.settle();
        self.cancel();
        match work {
            // The tokens go into the queue, but the one that moves next stays with the worker.
            OutsideWork::None | OutsideWork::Rest => self.share(1),
            OutsideWork::MakeRoom => self.make_room(),
            OutsideWork::Make(request) => {
                self.go_outside();
                self.event = self.make(request);
            }
            OutsideWork::Ask(number, now, call) => {
                self.go_outside();
                // Once the run has stopped the call is dropped and not polled.
                if !self.finds_end() {
                    self.event = self.ask(number, now, call);
                }
            }
            OutsideWork::Over => return true,
        }
        // No run has so many tokens as `queued` says. So others have stolen some of them, or some have no record any more and keep words of killed
        // groups in use.
        if self.queued > MOST_TOKENS {
            self.make_room();
        }
        false
    }

    // Leaves the passes that no record needs any more, but some that the worker keeps for its next moves in the same group.
    fn settle(&mut self) {
        let context = self.context;
        let groups = context.setup.groups;
        self.local.settle(groups);
    }

    // Tells the sites which calls were cancelled.
    fn cancel(&mut self) {
        for number in self.local.out.cancelled.iter() {
            self.context.sites.cancel(*number);
        }
        self.local.out.cancelled.clear();
    }

    // Moves its tokens into its queue, where others may steal them, but not the last `keep` ones, which move next, and offers them to workers at
    // rest. A push is refused only for want of memory: the run stops then, and tokens may be dropped.
    fn share(&mut self, keep: usize) {
        let count = self.local.out.born.len().saturating_sub(keep);
        if count == 0 {
            return;
        }
        let mut refused = None;
        for token in self.local.out.born.drain(..count) {
            if let Err(token) = self.queue.push(token) {
                refused = Some(token);
            }
        }
        // One of the refused tokens goes back to the worker, and the run stops.
        if let Some(token) = refused {
            self.local.hold(token);
            self.stop_for_memory();
        }
        self.queued = self.queued.saturating_add(count);
        self.offer(count);
    }

    // Offers `count` tokens, which were put into its queue, to workers at rest. If neither sites nor gate ever wait, it wakes one only once there
    // have been enough tokens at `PATIENCE` offers in a row, since a wake-up takes longer than a few moves.
    fn offer(&mut self, count: usize) {
        if self.context.may_wait {
            self.context.offer(self.rt, count);
            return;
        }
        if self.queued <= SPARE {
            self.rich = 0;
            return;
        }
        self.rich = self.rich.saturating_add(1);
        if self.rich >= PATIENCE {
            self.rich = 0;
            self.context.offer(self.rt, 1);
        }
    }

    // Stops the run if the worker has lost a token, a pass or a group because memory for it was refused.
    fn tell_lost(&self) {
        if self.local.was_refused_memory() {
            self.stop_for_memory();
        }
    }

    // Stops the run, since memory was refused, and wakes the workers at rest. It takes the lock.
    fn stop_for_memory(&self) {
        self.context
            .stop(self.rt, Stop::Refused(LedgerFault::Memory));
    }

    // Hands over all that others may need, before the worker makes or polls a call outside the lock and may wait there: its tokens, and the groups
    // that it can close.
    fn go_outside(&mut self) {
        // Neither the sites nor the gate wait, so the worker is back soon and keeps its passes and the token that moves next.
        if !self.context.may_wait {
            self.share(1);
            return;
        }
        self.leave_groups();
        self.share(0);
        self.tell_lost();
    }

    // Leaves all its passes that no token has, and closes under the lock the groups that it is the last to leave.
    fn leave_groups(&mut self) {
        // In no group from now on: the passes for births are put among those to leave.
        self.local.go_to(None);
        // The prover asks for a bound. To close a group may give passes to leave, so this is repeated.
        for _ in 0..u64::MAX {
            self.settle();
            if self.local.is_settled() || self.finds_end() {
                return;
            }
            let context = self.context;
            let mut shared = context.shared.lock(self.rt);
            shared.close_groups(&mut self.local);
            context.wake_at_end(&shared);
        }
    }

    // Frees words: a killed group uses its word until the tokens that were in it have left. The worker takes all tokens that it finds in the queues,
    // its own and others', and drops those that have no record any more.
    fn make_room(&mut self) {
        // The prover asks for a bound. Each round takes a token from some queue.
        for _ in 0..u64::MAX {
            match self.queue.next() {
                Some(token) => self.local.hold(token),
                None => break,
            }
        }
        self.queued = 0;
        self.drop_gone();
        self.leave_groups();
        self.share(0);
        // Other workers have tokens of killed groups too, and are to drop them.
        thread::yield_now();
    }

    // Drops those of its tokens that have no record any more: a bind has killed their group. It takes the lock.
    fn drop_gone(&mut self) {
        let context = self.context;
        let mut shared = context.shared.lock(self.rt);
        shared.drop_gone(context.alloc, &context.setup, &mut self.local);
    }

    // Makes a call once it has passed the gate, and polls it once at the time at which it is made. Gives what the next turn reports. A call that was
    // recorded is made even if the run has stopped meanwhile: the journal has it.
    fn make(&self, request: Request) -> CallEvent<S::Call> {
        self.context.gate.pass(request.number);
        let Ok(mut call) = self.context.sites.call(&request) else {
            return CallEvent::Refused;
        };
        match self.poller.ask(&mut call, request.made_at) {
            Polled::Answered(answer) => CallEvent::Answered(request.number, answer),
            Polled::Late => CallEvent::Late(request.number),
            Polled::Waits(due) => match Box::new(self.context.alloc, call) {
                Ok(call) => CallEvent::Waits(request.number, due, call),
                Err(_) => CallEvent::Refused,
            },
        }
    }

    // Polls the call with this number again, which is due at the time `now`. It has to answer: if it waits even so, it is late. The clause asks that
    // the run hadn't stopped when the worker last looked.
    fn ask(&self, number: u64, now: u64, mut call: Box<S::Call>) -> CallEvent<S::Call>
        requires { has_read self.now.why ≡ None }
    {
        match self.poller.ask(&mut *call, now) {
            Polled::Answered(answer) => CallEvent::Answered(number, answer),
            Polled::Late | Polled::Waits(_) => CallEvent::Late(number),
        }
    }

    // The worker has no token. It leaves its passes and looks under the lock for work. If there is none it counts itself idle, looks into the queues
    // once more, so that it misses no token that was put there meanwhile, and rests.
    fn rest(&mut self) -> OutsideWork<S::Call> {
        self.local.go_to(None);
        self.settle();
        // The worker was the last to leave a group, or a pass is to be left. The next turn closes the group.
        if !self.local.is_settled() {
            return OutsideWork::None;
        }
        // `seen` is the number of offers so far: an offer after this look keeps the worker from resting.
        let (work, seen) = self.context.look(self.rt);
        if !matches!(&work, OutsideWork::Rest) {
            return work;
        }
        self.context.idle.fetch_add(1, Ordering::SeqCst);
        let work = if self.take_turn() {
            OutsideWork::None
        } else {
            self.context.rest(self.rt, seen)
        };
        self.context.idle.fetch_sub(1, Ordering::SeqCst);
        work
    }
}
