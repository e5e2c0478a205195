//! Sites of one's own: a clerk on another thread serves each call. The engine makes each call by `Sites::call`, from a `Request`, and polls what it
//! gets (a `SiteFuture`) by hand. `Due` says when the call is answered, in logical time, which the engine hands in.

use crossbeam_channel::{Receiver, Sender, bounded};
use futures::Future;
use futures::task::{Context, Poll, Source, Waker};
use orc_rules::answers::Answers;
use orc_rules::value::Answer;
use orc_site::{Due, Request, SiteCall, SiteFuture, Sites};
use std::alloc::{AllocError, Global};
use std::sync::Wait;
use std::sync::atomic::{AtomicU64, Ordering};
use std::thread;
use std::time::{Clock, Duration};

/// What the clerk gets for a call: the channel by which to say that the call was served. None says that no more calls come.
pub type Job = Option<Sender<(), Global>>;

/// The clerk's work: serves calls until no more come, a millisecond each, and gives how many there were. A call that was cancelled meanwhile is
/// served all the same.
pub fn serve<R: Wait + Clock>(rt: &R, jobs: &Receiver<Job, Global>) -> u64 {
    let mut served = 0u64;
    for job in jobs.iter(rt) {
        // None says that no more calls come.
        let Some(done) = job else {
            return served;
        };
        thread::sleep(rt, Duration::from_millis(1));
        served = served.saturating_add(1);
        // This fails if the call was dropped: then nobody waits for it.
        let _ = done.send(rt, ());
    }
    served
}

/// Sites that hand each call to the clerk, and answer it as the script says.
#[derive(Drop)]
pub struct Office<'a, R: Wait> {
    /// The runtime, which the channel needs.
    pub rt: &'a R,
    /// Where the channels of the calls get their memory.
    pub alloc: Global,
    /// What the script answers, and when.
    pub answers: &'a Answers,
    /// By this channel the clerk gets the calls.
    pub jobs: &'a Sender<Job, Global>,
    /// How many calls were cancelled.
    pub cancelled: AtomicU64,
}

impl<'a, R: Wait> Sites for Office<'a, R> {
    type Call = Errand<'a, R>;

    // Hands the call to the clerk. The error is refused memory, or that the clerk is gone. The channel `done` has room for the clerk's one message,
    // so the clerk never waits.
    fn call(&self, request: &Request) -> Result<Errand<'a, R>, AllocError> {
        let (tell, done) = bounded(self.alloc, 1)?;
        if self.jobs.send(self.rt, Some(tell)).is_err() {
            return Err(AllocError);
        }
        Ok(Errand {
            rt: self.rt,
            call: SiteCall::new(self.answers, request.copied()),
            now: request.made_at,
            done,
            source: Source::new(),
            waker: None,
        })
    }

    // The engine reports that a call was cancelled.
    fn cancel(&self, _number: u64) {
        self.cancelled.fetch_add(1, Ordering::SeqCst);
    }

    // The answers are the table's, but the clerk has to get each call: if this were true the engine might make none.
    fn goes_by_table(&self) -> bool {
        false
    }
}

/// A call that was made and has no answer yet. A poll of a call that is due blocks until the clerk has served the call or dropped it.
#[derive(Drop)]
pub struct Errand<'a, R: Wait> {
    rt: &'a R,
    // Knows from the script when the call is due, and its answer.
    call: SiteCall<'a>,
    // The latest logical time that was handed in, at first that at which the call was made.
    now: u64,
    // By this channel the clerk says that it has served the call.
    done: Receiver<(), Global>,
    // Where a call that the clerk has dropped waits, and who polled it. Nothing wakes it.
    source: Source,
    waker: Option<Waker>,
}

// The lines that begin with `ghost` are for the prover: the answer is the script's (`gives`).
impl<R: Wait> Future for Errand<'_, R> {
    ghost use Rattle.orc_site.specs.Call.{IsReply};

    type Output = Answer;

    ghost gives = { λ errand. IsReply errand.call };

    // Before the call is due it pends. When it is due the poll waits for the clerk, and gives the script's answer.
    fn poll(&mut self, cx: &mut Context<'_>) -> Poll<Answer> {
        if let Due::At(time) = self.call.due()
            && time <= self.now
            && self.done.recv(self.rt).is_err()
        {
            // The clerk has dropped the call unserved, so it has no answer.
            return cx.register(&self.source, &mut self.waker);
        }
        self.call.poll(cx)
    }
}

// For the prover: which time was handed in last (`moment`), when the call is due (`when`), that any errand may be polled (`always`, proved by `tt`
// since `poll` requires nothing), and that an errand answers only when it is due (`early`).
impl<R: Wait> SiteFuture for Errand<'_, R> {
    ghost use Rattle.orc_site.specs.Call.{due_of};

    ghost moment = { λ errand. errand.call.moment };

    ghost when = { λ errand. due_of errand.call };

    ghost always = { λ _. tt };

    ghost early = { λ errand answer is. is.0 };

    // The engine hands in the logical time by `at`. When the call is due the script says.
    fn at(&mut self, now: u64) {
        self.now = self.now.max(now);
        self.call.at(now);
    }

    fn due(&self) -> Due {
        self.call.due()
    }
}
