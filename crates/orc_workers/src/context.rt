//! What each worker knows of the others and of the run. `rt` is the runtime, by which a worker takes the lock and waits. A worker that finds no work
//! *rests*: it waits on the condition variable. To *offer* is to say under the lock that there may be work again; `offers` counts that, `working` the
//! workers that have begun, `resting` those of them that rest. A call is *due* once its answer's time has come. `OutsideWork` is work outside the
//! lock: `Make` makes a call of a site, `Ask` polls one again. `P` stands for the run and its table of words, in contracts alone.

use crate::setup::Setup;
use crate::shared::{OutsideWork, Shared};
use orc_cell::Cell;
use orc_log::Run;
use orc_scheduler::Stop;
use orc_site::{Gate, Sites};
use orc_word::Naming;
use std::alloc::Global;
use std::sync::atomic::{AtomicU64, Ordering};
use std::sync::{Condvar, Mutex, Wait};

/// What all workers of a run share: the run under its lock, the condition variable that wakes workers at rest, and the sites and the gate.
#[derive(Drop)]
pub(crate) struct Context<'h, P: Run + Naming, S: Sites, G: Gate> {
    // Where memory comes from.
    pub alloc: Global,
    // The program and the words of its groups, which need no lock.
    pub setup: Setup<'h, P>,
    // The run, under the one lock.
    pub shared: &'h Mutex<Shared<P, S::Call>>,
    // Has the reason why the run stops. It is bound under the lock, and read without it.
    pub why: &'h Cell<Stop>,
    // On it workers rest; it goes with the lock of `shared`.
    pub wakeups: &'h Condvar,
    // How many workers have found no work, and look into the workers' queues a last time or rest.
    pub idle: &'h AtomicU64,
    // They make the calls.
    pub sites: &'h S,
    // Each call passes it before it is made; it may hold the call's worker for some time.
    pub gate: &'h G,
    // Whether the sites or the gate may wait for what another worker does.
    pub may_wait: bool,
}

impl<P: Run + Naming, S: Sites, G: Gate> Context<'_, P, S, G> {
    /// One worker more is at work: it counts in `working` before it looks for anything, so that no other takes itself for the last one. It takes the
    /// lock for that.
    pub(crate) fn join<R: Wait>(&self, rt: &R) {
        let mut shared = self.shared.lock(rt);
        shared.working = shared.working.saturating_add(1);
    }

    /// The run stops for this reason, if it hasn't stopped yet, and all workers at rest wake. It takes the lock.
    pub(crate) fn stop<R: Wait>(&self, rt: &R, stop: Stop) {
        let mut shared = self.shared.lock(rt);
        shared.stop(stop);
        self.wakeups.notify_all();
    }

    /// Has `count` workers at rest, or all if fewer rest, look for work again. The caller has the lock.
    pub(crate) fn wake(&self, shared: &mut Shared<P, S::Call>, count: usize) {
        // A worker that has looked before compares this number before it sleeps, and looks again if it differs. A wrap would need 2^64 offers in
        // between.
        shared.offers = shared.offers.wrapping_add(1);
        for _ in 0..count.min(shared.resting as usize) {
            self.wakeups.notify_one();
        }
    }

    /// Wakes workers at rest for `count` tokens that were put into a queue. A worker that finds nothing adds itself to `idle` before it looks into
    /// the queues once more. So either it sees the tokens, or this call sees the worker in `idle`.
    pub(crate) fn offer<R: Wait>(&self, rt: &R, count: usize) {
        // With nobody in `idle` nobody is to be woken, and the lock isn't needed.
        if self.idle.load(Ordering::SeqCst) > 0 {
            let mut shared = self.shared.lock(rt);
            self.wake(&mut shared, count);
        }
    }

    // Wakes one worker at rest for a call that is due and that no worker has, if there is one, before this worker goes outside the lock and may wait
    // there.
    fn leave_due(&self, shared: &mut Shared<P, S::Call>) {
        if self.may_wait && shared.find_due().is_some() {
            self.wake(shared, 1);
        }
    }

    /// Looks under the lock for work for a worker without a token, and gives that work and the number of offers so far: how often workers at rest
    /// were asked to look again. A later `rest` compares this number.
    pub(crate) fn look<R: Wait>(&self, rt: &R) -> (OutsideWork<S::Call>, u64) {
        let mut shared = self.shared.lock(rt);
        let work = shared.look(self.setup.inputs);
        self.tell(&mut shared, &work);
        (work, shared.offers)
    }

    /// Wakes all workers at rest if the run has stopped. A worker calls this before it leaves a lock under which it may have stopped the run. Workers
    /// that read of the end without the lock wake nobody.
    pub(crate) fn wake_at_end(&self, shared: &Shared<P, S::Call>) {
        if shared.is_over() {
            self.wakeups.notify_all();
        }
    }

    /// Wakes workers at rest before this worker leaves the lock with this work: all of them if the run has stopped, and one for a call that is due if
    /// this worker goes outside, where it may wait. The caller has the lock.
    pub(crate) fn tell(&self, shared: &mut Shared<P, S::Call>, work: &OutsideWork<S::Call>) {
        self.wake_at_end(shared);
        match work {
            OutsideWork::Make(_) | OutsideWork::Ask(_, _, _) => self.leave_due(shared),
            // With any other work the worker doesn't wait outside, and looks for due calls again itself.
            _ => {}
        }
    }

    /// Has a worker without work rest until something was offered since `seen`, the number of offers when this worker last looked, or the run is
    /// over. The answer is None then: the worker looks again. The last worker that isn't at rest doesn't rest: if it finds nothing either, no worker
    /// has what is left, and the run stops.
    pub(crate) fn rest<R: Wait>(&self, rt: &R, seen: u64) -> OutsideWork<S::Call> {
        let mut shared = self.shared.lock(rt);
        // Something was offered meanwhile: the worker looks again.
        if shared.offers != seen {
            return OutsideWork::None;
        }
        // All other workers rest.
        if shared.is_alone() {
            let work = shared.look_last(self.setup.inputs);
            self.tell(&mut shared, &work);
            return work;
        }
        shared.resting = shared.resting.saturating_add(1);
        // It gives up the lock while it waits, and has it again afterwards.
        let mut shared = self.wakeups.wait_while(rt, shared, |shared| {
            shared.offers == seen && !shared.is_over()
        });
        shared.resting = shared.resting.saturating_sub(1);
        OutsideWork::None
    }
}
