//! What an engine asks of the sites of a program: to make calls, to say when they are due, and to be polled.

ghost use Rattle.std.specs.Prelude.{◌≡◌, ℕ, max, true};
ghost use Rattle.orc_site.specs.declared.due.Due.{Due as DueTime};
ghost use Rattle.orc_rules.specs.declared.value.Answer.{Answer as Reply};
ghost use Rattle.orc_site.specs.Time.{is_due};

use crate::due::Due;
use crate::request::Request;
use futures::Future;
use orc_rules::value::Answer;
use std::alloc::AllocError;

/// A call that is under way, polled by hand. It has no clock: whoever polls it hands in the moment first, in logical time.
pub trait SiteFuture: Future<Output = Answer> {
    // The greatest moment that was handed in; the first is the one at which the call was made.
    ghost moment: { Self → ℕ };

    // When the call is answered, as `due` says it.
    ghost when: { Self → DueTime };

    /// Hands in a moment, in logical time. One that is earlier than the greatest so far is ignored.
    fn at(&mut self, now: u64)
        ensures moment { moment self.new ≡ max (moment self.old) now }
        ensures when { when self.new ≡ when self.old };

    /// When the call is answered, in logical time. It says the same whenever it is asked.
    fn due(&self) -> Due
        ensures { result ≡ when self.now };

    // The call may be polled at any time.
    ghost always: { (call : Self) → Self.can_poll call };

    // Where the call may answer, it is due.
    ghost early: { (call : Self) (answer : Reply) → Self.gives call answer → is_due (when call) (moment call) ≡ true };
}

/// Makes the calls of a program. Several workers (threads of the run) may ask it at the same time.
pub trait Sites {
    /// A call that is under way.
    type Call: SiteFuture;

    // What a caller may know of sites: that they go by the table, so that `goes_by_table` answers true. By default nothing is known.
    ghost by_table: { Self → Type 0 } = { λ _. ⊥ };

    /// Begins a call. Its first moment is the time of the request. The error is refused memory.
    fn call(&self, request: &Request) -> Result<Self::Call, AllocError>;

    /// The engine tells the sites that a bind has cancelled the call of this number, from 1. That may happen before the call is made.
    fn cancel(&self, number: u64);

    /// Whether a call, a poll or a cancel may wait for something that another thread does. Then no other work waits behind a call or a poll; behind a
    /// cancel the tokens of its worker wait. The default is true.
    fn may_wait(&self) -> bool {
        true
    }

    /// Whether each call is answered just as the table of sites says, and nobody notices whether it is made. Then an engine need not make it.
    fn goes_by_table(&self) -> bool
        ensures { by_table self.now → result ≡ true };
}
