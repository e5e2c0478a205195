//! Workers before their work begins. A worker's work is a *shift*: turns under the lock, in which its tokens move, and work outside the lock between
//! them. A *poller* asks calls of sites for their answers. `working` counts, under the lock, the workers that have begun.

use crate::context::Context;
use crate::local::Local;
use crate::poller::Poller;
use crate::shift::Shift;
use orc_book::Token;
use orc_ledger_spec::LedgerFault;
use orc_log::Run;
use orc_pool::WorkerQueue;
use orc_scheduler::Stop;
use orc_site::{Gate, Sites};
use orc_word::Naming;
use std::sync::Wait;

/// A worker before its work begins.
#[derive(Drop)]
pub(crate) struct Worker<'h, P: Run + Naming, R: Wait, S: Sites, G: Gate> {
    // By it the worker takes the lock and waits.
    pub rt: &'h R,
    // What it shares with the others.
    pub context: &'h Context<'h, P, S, G>,
    // Its own side of the queues, from which others may steal.
    pub queue: WorkerQueue<Token<P>>,
    // What it has for itself.
    pub local: Local<P>,
    // Whether it works on the calling thread. That one has the run's first token.
    pub is_first: bool,
}

impl<P: Run + Naming, R: Wait, S: Sites, G: Gate> Worker<'_, P, R, S, G> {
    /// Works until the run is over. If memory for the poller is refused before that begins, the first worker stops the run, since it has the first
    /// token, and any other is left out.
    pub(crate) fn work(self) {
        let Worker {
            rt,
            context,
            queue,
            local,
            is_first,
        } = self;
        let Ok(poller) = Poller::new(context.alloc) else {
            if is_first {
                context.stop(rt, Stop::Refused(LedgerFault::Memory));
            }
            return;
        };
        // `working` counts the first worker from the beginning on, each other one from here.
        if !is_first {
            context.join(rt);
        }
        let mut shift = Shift::new(rt, context, queue, local, poller);
        for _ in rt.forever() {
            let work = shift.next_work();
            // `do_work` says that the run is over.
            if shift.do_work(work) {
                return;
            }
        }
    }
}
