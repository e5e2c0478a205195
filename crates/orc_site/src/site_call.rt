//! A call that the table of sites answers, as a future in logical time. A poll of a future is ready with the answer, or it is *pending*: then it
//! keeps the waker from the context `cx`, which wakes the task that polled it. The *moment* is the time that the future's owner hands in. A `Source`
//! of `futures` is what a pending poll waits for.

ghost use Rattle.std.specs.Prelude.{◌≡◌, true, None};
ghost use Rattle.orc_site.specs.Time.{found, due_from, answer_of, is_due};
ghost use Rattle.orc_site.specs.declared.site_call.State.TheVariants.{Waiting, Never as StateNever, Done};
ghost use Rattle.orc_site.specs.declared.due.Due.TheVariants.{At, Never as DueNever};

use crate::due::{Due, due_after};
use crate::request::Request;
use crate::sites::SiteFuture;
use futures::Future;
use futures::task::{Context, Poll, Source, Waker};
use orc_rules::answers::Answers;
use orc_rules::value::{Answer, Found};

// In contracts `IsReply call answer` says that the call is due and has this answer, `IsExact` that a poll is ready exactly then, and `IsSameCall`
// that table, request and source stay. Of `futures`, `Covers` says that this source will wake the task, and `Keeps` that what the context has noted
// before stays.

/// How far a call has come.
#[derive(Clone, Copy, Debug, PartialEq, Eq)]
pub enum State {
    /// It was not polled yet, so the table wasn't asked.
    Fresh,
    /// It is due at this time.
    Waiting(u64),
    /// It is never due.
    Never,
    /// A poll has given this answer.
    Done(Answer),
}

/// A call that has been made, as a future. A task that polls it before its due time leaves a waker, which wakes the task once that time has come.
#[derive(Drop)]
pub struct SiteCall<'a> {
    /// The table of sites, which says when the call is answered and with what.
    answers: &'a Answers,
    /// The call: its site, its arguments and the time at which it was made.
    request: Request,
    /// The greatest moment that was handed in.
    moment: u64,
    /// How far the call has come.
    state: State,
    /// What a pending poll registers with: it stands for the coming of the due time.
    source: Source,
    /// The waker of the last task whose poll was pending. To drop it wakes that task.
    waker: Option<Waker>,
    // The state says what the table says of the request; an answer was given only when it was due, and no waker is kept from then on.
    ghost waiting: { (time : _) → state ≡ Waiting time → due_from request.made_at (found answers.now request) ≡ At time },
    ghost never: { state ≡ StateNever → due_from request.made_at (found answers.now request) ≡ DueNever },
    ghost done: { (answer : _) → state ≡ Done answer → (answer ≡ answer_of (found answers.now request)) × (is_due (due_from request.made_at (found answers.now request)) moment ≡ true) },
    ghost woken: { is_due (due_from request.made_at (found answers.now request)) moment ≡ true → waker ≡ None },
}

impl<'a> SiteCall<'a> {
    /// A call that the table answers. Its first moment is the time of the request.
    pub fn new(answers: &'a Answers, request: Request) -> SiteCall<'a>
        ensures { (result.answers.now ≡ answers.now) × (result.request ≡ request) × (result.moment ≡ request.made_at) }
    {
        let moment = request.made_at;
        SiteCall {
            answers,
            request,
            moment,
            state: State::Fresh,
            source: Source::new(),
            waker: None,
        }
    }
}

// The answer in what the table has found for a call. For a call that is never answered it is halt, but nobody asks for that.
fn reply(found: Found) -> Answer
    ensures { result ≡ answer_of found }
{
    match found {
        Found::After(answer, _) => answer,
        Found::Never => Answer::Halt,
    }
}

impl SiteCall<'_> {
    ghost use Rattle.futures.specs.Poll.{OnPending};
    ghost use Rattle.futures.specs.Task.{Covers, Keeps};
    ghost use Rattle.orc_site.specs.Call.{IsExact, IsSameCall};
    ghost use Rattle.orc_site.specs.declared.site_call.State.TheVariants.{Fresh as StateFresh};

    // What the table of sites says of this call: its answer and the delay, or never.
    fn find(&self) -> Found
        ensures { result ≡ found self.now.answers.now self.now.request }
    {
        self.answers
            .find(self.request.site, &self.request.args, self.request.nth)
    }

    // Asks the table when the call is due, and keeps that as the state, which isn't `Fresh` then. Table, request, source and moment stay.
    fn begin(&mut self)
        ensures same { IsSameCall self.old self.new × (self.new.moment ≡ self.old.moment) }
        ensures begun { ¬ (self.new.state ≡ StateFresh) }
    {
        self.state = match due_after(self.request.made_at, self.find()) {
            Due::At(time) => State::Waiting(time),
            Due::Never => State::Never,
        };
    }

    // Ready with the table's answer from the due time on. Before it the task leaves its waker, to be woken when that time comes. `begin` has come
    // first, so the state isn't `Fresh`. Table, request, source and moment stay, and so does what the context noted before.
    fn advance(&mut self, cx: &mut Context<'_>) -> Poll<Answer>
        requires { ¬ (self.old.state ≡ StateFresh) }
        ensures same { IsSameCall self.old self.new × (self.new.moment ≡ self.old.moment) }
        ensures exact { IsExact result self.old }
        ensures registered { OnPending result (Covers cx.new (λ source. source ≡ self.new.source.id)) }
        ensures kept { Keeps cx.old cx.new }
    {
        match self.state {
            State::Done(answer) => Poll::Ready(answer),
            State::Waiting(time) if time <= self.moment => {
                let answer = reply(self.find());
                self.state = State::Done(answer);
                Poll::Ready(answer)
            }
            // Not due yet, or never: `register` keeps the task's waker in `self.waker`. `Fresh` doesn't come: `begin` has ended it.
            State::Fresh | State::Waiting(_) | State::Never => {
                cx.register(&self.source, &mut self.waker)
            }
        }
    }
}

impl Future for SiteCall<'_> {
    ghost use Rattle.std.specs.Prelude.{⊤};
    ghost use Rattle.futures.specs.Poll.{IfReady, OnPending};
    ghost use Rattle.futures.specs.Task.{Covers, Keeps};
    ghost use Rattle.orc_site.specs.Call.{IsReply, IsExact, IsSameCall};

    type Output = Answer;

    // For the prover: a pending poll needs that the call's own source wakes the task, and a ready one gives the table's answer to a call that is due.
    ghost needs = { λ call source. source ≡ call.source.id };

    ghost gives = { IsReply };

    /// Ready exactly where the due time isn't later than the greatest moment that was handed in, with the table's answer, and again so at each later
    /// poll. Where it pends it has registered, to be woken when that time comes, and it may be polled again. Table, request, source and moment stay.
    fn poll(&mut self, cx: &mut Context<'_>) -> Poll<Answer>
        ensures value { IfReady result (IsReply self.old) }
        ensures again { OnPending result ⊤ }
        ensures same { OnPending result ((x : _) → IsReply self.new x → IsReply self.old x) }
        ensures registered { OnPending result (Covers cx.new (λ source. source ≡ self.new.source.id)) }
        ensures kept { Keeps cx.old cx.new }
        ensures exact { IsExact result self.old }
        ensures call { IsSameCall self.old self.new × (self.new.moment ≡ self.old.moment) }
    {
        if self.state == State::Fresh {
            self.begin();
        }
        self.advance(cx)
    }
}

impl SiteFuture for SiteCall<'_> {
    ghost use Rattle.std.specs.Prelude.{max};
    ghost use Rattle.orc_site.specs.Call.{due_of, IsSameCall};

    // What the trait asks, for the prover: the moment, the due time, that the call may be polled at any time, and that it answers only once it is
    // due.
    ghost moment = { λ call. call.moment };

    ghost when = { due_of };

    ghost always = { λ _. tt };

    ghost early = { λ call answer is. is.0 };

    // Takes `now` as the moment if it is later than all before. If the due time has come then, the waker is dropped, which wakes its task.
    fn at(&mut self, now: u64)
        ensures moment { self.new.moment ≡ max self.old.moment now }
        ensures when { due_of self.new ≡ due_of self.old }
        ensures same { IsSameCall self.old self.new }
    {
        let moment = self.moment.max(now);
        if let Due::At(time) = self.due()
            && time <= moment
        {
            self.waker = None;
        }
        self.moment = moment;
    }

    // The due time by the table, counted from the time at which the call was made.
    fn due(&self) -> Due {
        due_after(self.request.made_at, self.find())
    }
}
