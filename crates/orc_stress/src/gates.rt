//! Gates and sites for runs: they hold calls, or sleep, or only say that they may. A call passes the run's gate before a site makes it. If the gate
//! says that it is open, and the sites that they go by the table, the engine calls neither; so these say no to at least one of both.

use orc_rules::answers::Answers;
use orc_site::{Gate, Request, Scripted, SiteCall, Sites};
use std::alloc::AllocError;
use std::sync::atomic::{AtomicU64, Ordering};
use std::thread;
use std::time::{Clock, Duration};

/// How often a gate looks before it gives up: some seconds, so that a run with a lost call ends.
const LOOKS: u64 = 2_000_000_000;

/// A gate that holds no call, but doesn't say so. So `run_pool` asks it for each call, and runs the program on its workers.
#[derive(Drop)]
pub struct Slow;

impl Gate for Slow {
    // Returns at once: the gate holds no call.
    fn pass(&self, _number: u64) {}

    // False: then `run_pool` passes the gate with each call.
    fn is_open(&self) -> bool {
        false
    }
}

/// Holds each call until `wanted` calls are in the gate, so that `wanted` workers have to make a call at the same time.
#[derive(Drop)]
pub struct Turnstile {
    // How many calls have to come before the gate lets one go on.
    wanted: u64,
    // How many calls have come to the gate.
    entered: AtomicU64,
    // How many of them gave up before there were `wanted`.
    ran_out: AtomicU64,
}

impl Turnstile {
    /// A gate for one run, to which no call has come.
    pub fn new(wanted: u64) -> Turnstile {
        Turnstile {
            wanted,
            entered: AtomicU64::new(0),
            ran_out: AtomicU64::new(0),
        }
    }

    /// Whether each call that came was held until the others had come, and none gave up.
    pub fn held_all(&self) -> bool {
        self.ran_out.load(Ordering::SeqCst) == 0
    }
}

impl Gate for Turnstile {
    // Counts the call, and returns once `wanted` calls have come, or gives up after `LOOKS` looks at how many have.
    fn pass(&self, _number: u64) {
        self.entered.fetch_add(1, Ordering::SeqCst);
        for _ in 0..LOOKS {
            if self.entered.load(Ordering::SeqCst) >= self.wanted {
                return;
            }
        }
        // Too few calls have come: this one gives up, and goes on.
        self.ran_out.fetch_add(1, Ordering::SeqCst);
    }

    // False: then `run_pool` passes the gate with each call.
    fn is_open(&self) -> bool {
        false
    }
}

/// Sites that answer by the table; each call of `Ask` sleeps first, on the worker that makes it.
#[derive(Drop)]
pub struct Sleepy<'a, R: Clock> {
    // The runtime, in which calls sleep.
    rt: &'a R,
    // What answers all calls.
    scripted: Scripted<'a>,
    // The number of the site `Ask`. None if the table has no such site: then no call sleeps.
    site: Option<u32>,
    // How long a call sleeps, in microseconds.
    sleep: u64,
}

impl<'a, R: Clock> Sleepy<'a, R> {
    /// Sites whose calls of `Ask` sleep for `sleep` microseconds.
    pub fn new(rt: &'a R, answers: &'a Answers, sleep: u64) -> Sleepy<'a, R> {
        Sleepy {
            rt,
            scripted: Scripted::new(answers),
            site: answers.site_named(b"Ask"),
            sleep,
        }
    }
}

impl<'a, R: Clock> Sites for Sleepy<'a, R> {
    type Call = SiteCall<'a>;

    // Begins a call as the table answers it. The worker's thread sleeps first, if the site is `Ask`.
    fn call(&self, request: &Request) -> Result<SiteCall<'a>, AllocError> {
        if self.site == Some(request.site) {
            thread::sleep(self.rt, Duration::from_micros(self.sleep));
        }
        self.scripted.call(request)
    }

    // A call that is cancelled has nothing to stop: it has slept already, or will.
    fn cancel(&self, _number: u64) {}

    // False: then `run_pool` makes each call by these sites.
    fn goes_by_table(&self) -> bool {
        false
    }
}
