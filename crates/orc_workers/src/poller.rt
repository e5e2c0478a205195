//! Polls of calls by hand, with no runtime. A call of a site is a future (`SiteFuture`), and to *poll* it is to ask it once for its answer. It is
//! *due* at the logical time at which it is answered; that is a number which the run counts, and no clock.

ghost use Rattle.std.specs.Prelude.{IfSome, IfNone};

use futures::Future;
use futures::task::{Doorbell, Poll, Solo};
use orc_rules::value::Answer;
use orc_site::{Due, SiteFuture};
use std::alloc::Global;
use std::io;
use std::random::RandomSource;

// Gives bytes that are always the same, where a random source is asked for: a queue of one task needs no name that others can't guess.
#[derive(Drop)]
struct Fixed;

impl RandomSource for Fixed {
    // The bytes are all 0. No error comes.
    fn fill_bytes(&self, buf: &mut [u8]) -> io::Result<()> {
        buf.fill(0);
        Ok(())
    }
}

/// What came of a poll of a call.
#[derive(Clone, Copy)]
pub(crate) enum Polled {
    /// The call has this answer.
    Answered(Answer),
    /// The call has no answer yet, and says when it is due.
    Waits(Due),
    /// The call is due and has no answer: its site is to blame if the call still pends.
    Late,
}

/// Polls calls by hand, and waits for nothing.
#[derive(Drop)]
pub(crate) struct Poller {
    // One task, with which each call is polled in turn. Nobody waits for it to be woken: `due` tells when a call is polled again.
    solo: Solo,
}

impl Poller {
    /// A poller with a task of its own. The error is refused memory.
    pub(crate) fn new(alloc: Global) -> io::Result<Poller> {
        Ok(Poller {
            solo: Solo::new(&(Fixed, alloc), Doorbell::parking())?,
        })
    }

    // Polls a future once: its output, or None where it is pending. The clauses ask that the future may be polled, and promise that a pending one may
    // be polled again.
    fn poll<F: Future>(&self, future: &mut F) -> Option<F::Output>
        requires { F.can_poll future.old }
        ensures some { IfSome result (F.gives future.old) }
        ensures none { IfNone result (F.can_poll future.new) }
    {
        // A poll has a context, which would wake the task; here nobody waits for that.
        let mut cx = self.solo.begin();
        let polled = future.poll(&mut cx);
        cx.end(&polled);
        match polled {
            Poll::Ready(output) => Some(output),
            Poll::Pending => None,
        }
    }

    /// Hands the logical time `now` to a call and polls the call once. Late if the call doesn't answer though it is due by then.
    pub(crate) fn ask<C: SiteFuture>(&self, call: &mut C, now: u64) -> Polled {
        call.at(now);
        match self.poll(call) {
            Some(answer) => Polled::Answered(answer),
            None => match call.due() {
                // It was due at `now` or before.
                Due::At(time) if time <= now => Polled::Late,
                // It is due later, or never.
                due => Polled::Waits(due),
            },
        }
    }
}
