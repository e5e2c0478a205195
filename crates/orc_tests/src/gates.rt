//! Gates and sites for the tests of `run_pool`: they hold calls, answer otherwise than they should, or note what the engine reports to them. A call
//! passes the gate once, before a site makes it. Sites and gates whose `goes_by_table` and `is_open` are both true aren't called; so each of these
//! says no to one of them.
//!
//! The lines that begin with `ghost` are for the prover: which time was handed in last, when a call is due, and what it may answer.

use futures::Future;
use futures::task::{Context, Poll, Source, Waker};
use orc_rules::answers::Answers;
use orc_rules::value::{Answer, Args, Value};
use orc_site::{Due, Gate, Request, Scripted, SiteCall, SiteFuture, Sites};
use std::alloc::{AllocError, Global};
use std::sync::atomic::{AtomicU64, Ordering};

/// How often a gate looks before it gives up: some seconds, so that a run with a lost call ends.
pub(crate) const LOOKS: u64 = 2_000_000_000;

/// Holds the calls with the numbers from `first` to `last` until `wanted` calls, held or not, have come to the gate, or until a call has looked for
/// that `looks` times.
#[derive(Drop)]
pub(crate) struct Turnstile {
    first: u64,
    last: u64,
    wanted: u64,
    looks: u64,
    // How many calls have come to the gate, held or not.
    entered: AtomicU64,
    // How many of the held ones gave up.
    ran_out: AtomicU64,
}

impl Turnstile {
    /// A turnstile that gives up after `LOOKS` looks.
    pub(crate) fn new(first: u64, last: u64, wanted: u64) -> Turnstile {
        Turnstile::that_looks(first, last, wanted, LOOKS)
    }

    /// A turnstile that gives up after `looks` looks.
    pub(crate) fn that_looks(first: u64, last: u64, wanted: u64, looks: u64) -> Turnstile {
        Turnstile {
            first,
            last,
            wanted,
            looks,
            entered: AtomicU64::new(0),
            ran_out: AtomicU64::new(0),
        }
    }

    /// Whether no call gave up waiting.
    pub(crate) fn held_all(&self) -> bool {
        self.ran_out.load(Ordering::SeqCst) == 0
    }
}

impl Gate for Turnstile {
    // The call with this `number`, from 1, comes to the gate: it is counted, and held if its number is one of `first` to `last`.
    fn pass(&self, number: u64) {
        self.entered.fetch_add(1, Ordering::SeqCst);
        if number < self.first || number > self.last {
            return;
        }
        // The call waits until `wanted` calls have come. It gives up after `looks` looks.
        for _ in 0..self.looks {
            if self.entered.load(Ordering::SeqCst) >= self.wanted {
                return;
            }
        }
        self.ran_out.fetch_add(1, Ordering::SeqCst);
    }

    // False: then `run_pool` passes the gate with each call.
    fn is_open(&self) -> bool {
        false
    }
}

/// A gate that holds no call, but doesn't say so. So `run_pool` passes it with each call, and its workers hold the run's tokens.
#[derive(Drop)]
pub(crate) struct Slow;

impl Gate for Slow {
    // Each call passes at once.
    fn pass(&self, _number: u64) {}

    // False: then `run_pool` passes the gate with each call.
    fn is_open(&self) -> bool {
        false
    }
}

/// How the sites `Twisted` differ from sites that go by the table, which has the script's answers and those of built-in sites.
#[derive(Clone, Copy)]
pub(crate) enum Twist<'a> {
    /// They hold each call at this gate while it is made.
    Held(&'a Turnstile),
    /// They answer as if the call had no arguments: to a built-in site that is a halt.
    Value,
    /// They answer as if the call had been made two units later.
    Time,
    /// They answer as if the call had been made at the greatest time, so that it is never due after a delay.
    Never,
    /// They are refused memory for the call with this number.
    Refused(u64),
}

/// Sites that answer each call as if it were another one, or hold it, or are refused memory for one.
#[derive(Drop)]
pub(crate) struct Twisted<'a> {
    /// The sites that answer each call by the table.
    pub(crate) scripted: Scripted<'a>,
    /// In what they differ here.
    pub(crate) twist: Twist<'a>,
}

impl<'a> Sites for Twisted<'a> {
    type Call = SiteCall<'a>;

    // Makes a call, which is answered as the twist says. The error is refused memory; with `Refused` the call with that number gets it.
    fn call(&self, request: &Request) -> Result<SiteCall<'a>, AllocError> {
        // The request that the table answers in the place of this one; a twist may change it.
        let mut other = request.copied();
        match self.twist {
            Twist::Held(gate) => gate.pass(request.number),
            Twist::Value => other.args = Args::new(),
            Twist::Time => other.made_at = other.made_at.saturating_add(2),
            Twist::Never => other.made_at = u64::MAX,
            Twist::Refused(number) => {
                if request.number == number {
                    return Err(AllocError);
                }
            }
        }
        self.scripted.call(&other)
    }

    // These sites don't care whether a call is cancelled.
    fn cancel(&self, _number: u64) {}

    // True where a call may wait for what another thread does, as one that is held does. With `Refused` none waits; sites may say so all the same.
    fn may_wait(&self) -> bool {
        matches!(self.twist, Twist::Held(_) | Twist::Refused(_))
    }

    // False: then the engine makes each call by these sites, and doesn't go by the table.
    fn goes_by_table(&self) -> bool {
        false
    }
}

/// What a call answers when it is due.
#[derive(Clone, Copy)]
pub(crate) enum Manner {
    /// 0, whatever the table says.
    Zero,
    /// It stays pending.
    Nothing,
}

/// A call that is due when the table says so, and answers otherwise.
#[derive(Drop)]
pub(crate) struct OddCall<'a> {
    // The call as the table answers it: it knows when the call is due.
    call: SiteCall<'a>,
    // What is answered in the place of the table's answer.
    manner: Manner,
    // Where a call that stays pending waits, and who polled it. Nothing wakes it.
    source: Source,
    waker: Option<Waker>,
}

// The lines that begin with `ghost` are for the prover: the call answers only when it is due (`gives`).
impl Future for OddCall<'_> {
    ghost use Rattle.std.specs.Prelude.{◌≡◌, true};
    ghost use Rattle.orc_site.specs.Call.{due_of};
    ghost use Rattle.orc_site.specs.Time.{is_due};

    type Output = Answer;

    ghost gives = { λ odd _. is_due (due_of odd.call) odd.call.moment ≡ true };

    // Answers 0 when the call is due, or stays pending forever, as the manner says.
    fn poll(&mut self, cx: &mut Context<'_>) -> Poll<Answer> {
        match self.manner {
            // The call stays pending: nothing wakes the waker that is registered here.
            Manner::Nothing => cx.register(&self.source, &mut self.waker),
            // It is ready when the table's answer is, and answers 0 in its place.
            Manner::Zero => match self.call.poll(cx) {
                Poll::Ready(_) => Poll::Ready(Answer::Value(Value::Number(0))),
                Poll::Pending => Poll::Pending,
            },
        }
    }
}

// For the prover: which time was handed in last (`moment`), when the call is due (`when`), that it may be polled at any time (`always`), and that it
// answers only when it is due (`early`).
impl SiteFuture for OddCall<'_> {
    ghost use Rattle.orc_site.specs.Call.{due_of};

    ghost moment = { λ odd. odd.call.moment };

    ghost when = { λ odd. due_of odd.call };

    ghost always = { λ _. tt };

    ghost early = { λ odd answer is. is };

    // The engine hands in the logical time.
    fn at(&mut self, now: u64) {
        self.call.at(now);
    }

    // When the table says that the call is due, whatever it answers then.
    fn due(&self) -> Due {
        self.call.due()
    }
}

/// Sites that answer all calls in one of these manners.
#[derive(Drop)]
pub(crate) struct Odd<'a> {
    /// The table, which says when a call is due.
    pub(crate) answers: &'a Answers,
    /// What each call answers then.
    pub(crate) manner: Manner,
}

impl<'a> Sites for Odd<'a> {
    type Call = OddCall<'a>;

    // Makes a call that is due when the table says so. It never fails.
    fn call(&self, request: &Request) -> Result<OddCall<'a>, AllocError> {
        Ok(OddCall {
            call: SiteCall::new(self.answers, request.copied()),
            manner: self.manner,
            source: Source::new(),
            waker: None,
        })
    }

    // These sites don't care whether a call is cancelled.
    fn cancel(&self, _number: u64) {}

    // False: then the engine makes each call by these sites, and doesn't go by the table.
    fn goes_by_table(&self) -> bool {
        false
    }
}

// What is noted of a call: how often it passed the gate, was made, and was cancelled.
#[derive(Drop)]
struct Note {
    passed: AtomicU64,
    made: AtomicU64,
    cancelled: AtomicU64,
}

/// How often a call has passed the gate, was made, and was cancelled, up to one moment.
#[derive(Clone, Copy, PartialEq, Eq)]
pub(crate) struct Counts {
    pub(crate) passed: u64,
    pub(crate) made: u64,
    pub(crate) cancelled: u64,
}

/// Notes how often each call passes the gate, is made and is cancelled.
#[derive(Drop)]
pub(crate) struct Board {
    // The note at place n is that of the call with the number n; no call has number 0. The last one is for all greater numbers, too.
    notes: Vec<Note>,
    // How many of the calls that `hold` held gave up before they were cancelled.
    ran_out: AtomicU64,
}

impl Board {
    /// A board with a note for each number up to `calls`. The error is refused memory.
    pub(crate) fn new(alloc: Global, calls: u64) -> Result<Board, AllocError> {
        let mut notes = Vec::new(alloc);
        for _ in 0..calls.saturating_add(1) {
            notes.push(Note {
                passed: AtomicU64::new(0),
                made: AtomicU64::new(0),
                cancelled: AtomicU64::new(0),
            })?;
        }
        Ok(Board {
            notes,
            ran_out: AtomicU64::new(0),
        })
    }

    // The note on the call with this number, or the last one for a number past it. There is at least one note, so None doesn't come.
    fn note(&self, number: u64) -> Option<&Note> {
        let last = self.notes.len().saturating_sub(1);
        self.notes.get(last.min(number as usize))
    }

    /// What is noted of the call with this number so far.
    pub(crate) fn counts(&self, number: u64) -> Counts {
        match self.note(number) {
            Some(note) => Counts {
                passed: note.passed.load(Ordering::SeqCst),
                made: note.made.load(Ordering::SeqCst),
                cancelled: note.cancelled.load(Ordering::SeqCst),
            },
            // It doesn't come: there is a note for each number.
            None => Counts {
                passed: 0,
                made: 0,
                cancelled: 0,
            },
        }
    }

    // Whether the cancel of the call with this number was reported.
    fn is_gone(&self, number: u64) -> bool {
        self.counts(number).cancelled > 0
    }

    // Waits until the cancel of the call with this number is reported, or gives up after `LOOKS` looks.
    fn hold(&self, number: u64) {
        for _ in 0..LOOKS {
            if self.is_gone(number) {
                return;
            }
        }
        self.ran_out.fetch_add(1, Ordering::SeqCst);
    }

    /// Whether each call that was held was cancelled before it gave up.
    pub(crate) fn held_all(&self) -> bool {
        self.ran_out.load(Ordering::SeqCst) == 0
    }
}

/// Where call 1 is held until its cancel is reported.
#[derive(Clone, Copy, PartialEq, Eq)]
pub(crate) enum Hold {
    /// It isn't held.
    Nowhere,
    /// While it passes the gate.
    Gate,
    /// While it is made.
    Call,
    /// While it is polled, after it was made, if it is due then.
    Poll,
}

/// Sites and a gate that note on a board what the engine does with each call.
#[derive(Drop)]
pub(crate) struct Noting<'a> {
    /// The table, by which calls are answered.
    pub(crate) answers: &'a Answers,
    /// Where it is noted what the engine does with each call.
    pub(crate) board: &'a Board,
    /// Where call 1 is held until its cancel is reported.
    pub(crate) hold: Hold,
    /// Whether a cancelled call still answers. Otherwise it stays pending.
    pub(crate) answers_late: bool,
}

impl Gate for Noting<'_> {
    // Notes that the call with this `number`, from 1, passes. Call 1 waits here for its cancel if the hold is `Gate`.
    fn pass(&self, number: u64) {
        if let Some(note) = self.board.note(number) {
            note.passed.fetch_add(1, Ordering::SeqCst);
        }
        if self.hold == Hold::Gate && number == 1 {
            self.board.hold(number);
        }
    }

    // False: then `run_pool` passes the gate with each call.
    fn is_open(&self) -> bool {
        false
    }
}

impl<'a> Sites for Noting<'a> {
    type Call = NotedCall<'a>;

    // Notes that the call is made. Call 1 waits here for its cancel if the hold is `Call`; if it is `Poll`, its polls are to wait. It never fails.
    fn call(&self, request: &Request) -> Result<NotedCall<'a>, AllocError> {
        if let Some(note) = self.board.note(request.number) {
            note.made.fetch_add(1, Ordering::SeqCst);
        }
        if self.hold == Hold::Call && request.number == 1 {
            self.board.hold(request.number);
        }
        Ok(NotedCall {
            call: SiteCall::new(self.answers, request.copied()),
            number: request.number,
            board: self.board,
            holds: self.hold == Hold::Poll && request.number == 1,
            answers_late: self.answers_late,
            now: request.made_at,
            source: Source::new(),
            waker: None,
        })
    }

    // Notes that the engine reports the cancel of the call with this number. A call that is held for its cancel goes on then.
    fn cancel(&self, number: u64) {
        if let Some(note) = self.board.note(number) {
            note.cancelled.fetch_add(1, Ordering::SeqCst);
        }
    }

    // False: then the engine makes each call by these sites, and doesn't go by the table.
    fn goes_by_table(&self) -> bool {
        false
    }
}

/// A call that may be held when it is due, and may forget its answer when it is cancelled.
#[derive(Drop)]
pub(crate) struct NotedCall<'a> {
    // The call as the table answers it.
    call: SiteCall<'a>,
    // The call's number, from 1.
    number: u64,
    // Where the engine's cancel of the call is noted.
    board: &'a Board,
    // Whether a poll of the call, once it is due, waits until its cancel is reported.
    holds: bool,
    // Whether the call still answers if it was cancelled. Otherwise it stays pending.
    answers_late: bool,
    // The latest logical time that was handed in, at first that at which the call was made.
    now: u64,
    // Where a call that stays pending waits, and who polled it. Nothing wakes it.
    source: Source,
    waker: Option<Waker>,
}

impl NotedCall<'_> {
    // Whether the call is due at the latest time that was handed in.
    fn is_due(&self) -> bool {
        match self.call.due() {
            Due::At(time) => time <= self.now,
            Due::Never => false,
        }
    }
}

// The lines that begin with `ghost` are for the prover: the call answers what the table says, and only when it is due (`gives`).
impl Future for NotedCall<'_> {
    ghost use Rattle.orc_site.specs.Call.{IsReply};

    type Output = Answer;

    ghost gives = { λ noted. IsReply noted.call };

    // Answers what the table says when the call is due, after it was held, if it is to be. A cancelled call may stay pending in its place.
    fn poll(&mut self, cx: &mut Context<'_>) -> Poll<Answer> {
        // A worker polls it once when it was made, and again when it is due: only a poll that would answer it is held.
        if self.holds && self.is_due() {
            self.board.hold(self.number);
        }
        // A cancelled call that doesn't answer late stays pending: nothing wakes the waker that is registered here.
        if !self.answers_late && self.board.is_gone(self.number) {
            return cx.register(&self.source, &mut self.waker);
        }
        self.call.poll(cx)
    }
}

// For the prover: which time was handed in last (`moment`), when the call is due (`when`), that it may be polled at any time (`always`), and that it
// answers only when it is due (`early`).
impl SiteFuture for NotedCall<'_> {
    ghost use Rattle.orc_site.specs.Call.{due_of};

    ghost moment = { λ noted. noted.call.moment };

    ghost when = { λ noted. due_of noted.call };

    ghost always = { λ _. tt };

    ghost early = { λ noted answer is. is.0 };

    // The engine hands in the logical time. An earlier one than the latest so far is ignored.
    fn at(&mut self, now: u64) {
        self.now = self.now.max(now);
        self.call.at(now);
    }

    // When the table says that the call is due.
    fn due(&self) -> Due {
        self.call.due()
    }
}
