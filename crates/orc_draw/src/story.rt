//! What happened in a run: its calls, prunings and otherwises, from when to when, one inside the other.
//!
//! Each of them is a span. The journal is followed on the program's sketch (`orc_source_map`): the step of a token says in which pruning or otherwise
//! a new span stands. A `bind`, a `lost` or a `right` ends a span and drops all in it. In entries `s` is the mark of a token or an otherwise, `k` the
//! number of a call and `c` that of a cell; a `Place` is a part of the source, in bytes. A `Shape` is what stands at a spot of the sketch, and the
//! `Way` of a step says into which side it leads. `answers` is the table of sites. A token is a place at which the run can go on, and its mark is its
//! number. A cell is what an opened pruning puts for its variable: it gets a value by a `bind`, or is lost.
//!
//! The journal was checked, so the tokens, steps and cells that it names are there: the branch for one that isn't only spares a proof. Only a call
//! that isn't shown has no span.

use crate::fault::DrawFault;
use orc_calls::{Counts, due_time};
use orc_journal::Journal;
use orc_lex::token::Span as Place;
use orc_rules::answers::Answers;
use orc_rules::entry::Entry;
use orc_rules::limits::MOST_ROWS;
use orc_rules::value::{Args, Value};
use orc_source_map::{Purpose, Shape, Sketch, Trail, Way};
use std::alloc::Global;
use std::collections::HashMap;

/// An entry of the journal, counted from 1, and the logical time at it, from 0.
#[derive(Clone, Copy, PartialEq, Eq)]
pub(crate) struct Moment {
    pub time: u64,
    pub entry: u64,
}

/// A call that is shown.
#[derive(Clone, Copy)]
pub(crate) struct Called {
    /// Its number in the journal, from 1.
    pub number: u64,
    /// The place of its entry in the journal, from 0.
    pub at: usize,
    /// The logical time at which it is due; None where it is never due.
    pub due: Option<u64>,
    /// Whether it is a call of Rwait.
    pub is_pause: bool,
}

/// Whether a span is a call, a pruning or an otherwise, and what a picture shows of it.
#[derive(Clone, Copy)]
pub(crate) enum Kind<'a> {
    Call(Called),
    /// A pruning, with what its value is for.
    Pruning(Purpose<'a>),
    /// An otherwise, with the part of the source that is its left side.
    Otherwise(Place),
}

/// How a span ends.
#[derive(Clone, Copy)]
pub(crate) enum End {
    /// A call is answered.
    Answered(Value),
    /// A call ends without a value.
    Halted,
    /// A call is dropped with the side in which it stands.
    Cancelled,
    /// A pruning's cell is bound to this value; with the place, among the story's spans, of the call whose answer the value is, if that is shown.
    Bound(Value, Option<usize>),
    /// A pruning's right side has halted without a value.
    Lost,
    /// The right side of an otherwise begins.
    Resumed,
    /// The left side of an otherwise has published, so that its right side never begins.
    Left,
    /// A pruning or an otherwise is dropped with the side in which it stands.
    Dropped,
}

/// A call, a pruning or an otherwise, from the entry that began it on.
#[derive(Clone, Copy)]
pub(crate) struct Span<'a> {
    pub kind: Kind<'a>,
    pub began: Moment,
    /// None as long as it hasn't ended.
    pub end: Option<(End, Moment)>,
    /// The place, among the story's spans, of the innermost one that it stands in: of a pruning, in its right side, or of an otherwise. None where it
    /// stands in none.
    pub outer: Option<usize>,
    // The spans directly in this one are a linked list from the newest back: `newest` is the list's head, and `before` links this span to the one
    // before it in the list of its outer span. Dropped spans are taken out of their list.
    newest: Option<usize>,
    before: Option<usize>,
}

/// What a picture shows of an entry.
#[derive(Clone, Copy)]
pub(crate) enum Shown {
    /// That the call at this place among the story's spans begins, or that the span at it ends. The beginnings of prunings and otherwises aren't
    /// events.
    Span(usize),
    /// A publication of the whole program.
    Publication(Value),
    /// The cancel of a call.
    Cancel,
}

/// An entry of which a picture shows something.
#[derive(Clone, Copy)]
pub(crate) struct Event {
    pub shown: Shown,
    pub at: Moment,
}

/// What a journal tells: its spans, in the order in which they began, and its events, in the order of their entries.
pub(crate) struct Story<'a> {
    pub spans: Vec<Span<'a>>,
    pub events: Vec<Event>,
    /// The logical time after the last entry that was read.
    pub now: u64,
    /// How many calls aren't shown, all of built-in sites that take no time.
    pub small: u64,
    // How many calls are shown so far. `read` gives up once they are over `MOST_ROWS`.
    calls: u64,
    // Whether all calls are shown, also those of built-in sites that take no time.
    is_whole: bool,
    // How often each site of the script was called with the same arguments: the table's answer to a call may depend on that.
    counts: Counts,
    // Which tokens there are, on which part of the program each one stands, and in which step.
    trail: Trail,
    // The places in `spans` of the calls that are shown, by their numbers; of the prunings whose cells are neither bound nor lost,
    // by these cells; and of all otherwises, by their marks.
    shown: HashMap<u64, usize>,
    cells: HashMap<u64, usize>,
    others: HashMap<u64, usize>,
    // The places of the spans that `drop_inside` has still to drop. Empty between two entries.
    dropping: Vec<usize>,
    // Whether memory was refused while an entry was noted. `read` ends with that entry.
    is_refused: bool,
}

// Written out, so that a caller's proof sees one call and not the drop of each field.
impl Drop for Story<'_> {
    fn drop(self) {
        let Story {
            spans: _,
            events: _,
            now: _,
            small: _,
            calls: _,
            is_whole: _,
            counts: _,
            trail: _,
            shown: _,
            cells: _,
            others: _,
            dropping: _,
            is_refused: _,
        } = self;
    }
}

impl<'a> Story<'a> {
    /// Follows a journal that was checked against the program of a sketch and a table of sites. `is_whole` asks for all calls, also those of built-in
    /// sites that take no time. A fault is refused memory, or over `MOST_ROWS` calls to show.
    pub(crate) fn new(
        alloc: Global,
        sketch: &Sketch<'a>,
        answers: &Answers,
        journal: &Journal,
        is_whole: bool,
    ) -> Result<Story<'a>, DrawFault> {
        let mut story = Story {
            spans: Vec::new(alloc),
            events: Vec::new(alloc),
            now: 0,
            small: 0,
            calls: 0,
            is_whole,
            counts: Counts::new(alloc),
            trail: Trail::new(alloc, sketch)?,
            shown: HashMap::new(alloc),
            cells: HashMap::new(alloc),
            others: HashMap::new(alloc),
            dropping: Vec::new(alloc),
            is_refused: false,
        };
        story.read(sketch, answers, journal)?;
        Ok(story)
    }

    // Follows all entries. What an entry says of its token is noted before the trail, which says where each token stands, takes the token away. The
    // faults are those of `new`.
    fn read(
        &mut self,
        sketch: &Sketch<'a>,
        answers: &Answers,
        journal: &Journal,
    ) -> Result<(), DrawFault> {
        for at in 0..journal.len() {
            // Never None: `at` is a place of the journal.
            let Some(entry) = journal.get(at) else {
                return Ok(());
            };
            let moment = Moment {
                time: self.now,
                entry: (at as u64).saturating_add(1),
            };
            if let Entry::Call(s, k, site, args) = &entry {
                self.call(answers, *s, *k, *site, args, moment);
            } else {
                self.tell(sketch, &entry, moment);
            }
            // Each call that is shown has a row, so the picture would have too many.
            if self.calls > MOST_ROWS {
                return Err(DrawFault::Rows);
            }
            if self.is_refused {
                return Err(DrawFault::Memory);
            }
            self.trail.follow(sketch, &entry)?;
        }
        Ok(())
    }

    // Notes what an entry other than a call begins, ends or shows, and sets the time. In the entries `s` is the mark of a token or an otherwise, `k`
    // the number of a call, and `c` that of a cell. Where memory is refused the function sets `is_refused`.
    fn tell(&mut self, sketch: &Sketch<'a>, entry: &Entry, at: Moment) {
        match entry {
            Entry::Tick(time) => {
                self.now = *time;
            }
            Entry::Open(s, c, _, _) => {
                // The token stands on a pruning, whose shape on the sketch says what the value is for.
                if let Shape::Prune(_, _, purpose) = self.trail.shape(sketch, *s) {
                    let span = self.begin(Kind::Pruning(purpose), *s, at);
                    self.is_refused = self.cells.insert(*c, span).is_err() || self.is_refused;
                }
            }
            Entry::Other(s, _) => {
                // The token stands on an otherwise, whose shape on the sketch has the place of its left side in the source.
                if let Shape::Other(_, _, place) = self.trail.shape(sketch, *s) {
                    let span = self.begin(Kind::Otherwise(place), *s, at);
                    self.is_refused = self.others.insert(*s, span).is_err() || self.is_refused;
                }
            }
            // A `>x>` takes a value that the token publishes. `leave` ends each otherwise whose left side the value leaves on its way.
            Entry::Send(s, _, _) => self.leave(*s, at),
            // A call that isn't shown has no span (None), and then `close` does nothing.
            Entry::Return(k, _, value) => {
                let span = self.shown.get(k).copied();
                self.close(span, End::Answered(*value), at)
            }
            Entry::ReturnHalt(k) => {
                let span = self.shown.get(k).copied();
                self.close(span, End::Halted, at)
            }
            Entry::Bind(s, c, value) => {
                self.leave(*s, at);
                // The call on whose answer the token stands. None where it stands on another value, or that call isn't shown.
                let answered = self.trail.token(*s).and_then(|token| token.call);
                let answer = answered.and_then(|call| self.shown.get(&call).copied());
                let span = self.cells.remove(c);
                self.close(span, End::Bound(*value, answer), at)
            }
            Entry::Lost(c) => {
                let span = self.cells.remove(c);
                self.close(span, End::Lost, at)
            }
            Entry::Right(s, _) => {
                // The otherwise stays among `others`: what the right side makes stands in its span.
                let span = self.others.get(s).copied();
                self.close(span, End::Resumed, at)
            }
            Entry::Publish(s, value) => {
                self.leave(*s, at);
                self.note(Shown::Publication(*value), at)
            }
            // The bind before this entry has ended the call's span as cancelled. The end is moved to the cancel; a journal of version 1 has no
            // cancels, so there it stays at the bind.
            Entry::Cancel(k) => {
                if let Some(span) = self.shown.get(k).copied() {
                    self.set_end(span, End::Cancelled, at);
                }
                self.note(Shown::Cancel, at)
            }
            // `end`, `fork`, `seq`, `def` and `void` only move tokens, which a picture doesn't show. Of a `call` `read` takes care.
            _ => {}
        }
    }

    // Begins the span of a call, if it is shown, and finds when it is due. `mark` is that of the token that makes it. A call that isn't shown isn't
    // added to `counts`: no answer of a built-in site depends on how often it was called.
    fn call(
        &mut self,
        answers: &Answers,
        mark: u64,
        number: u64,
        site: u32,
        args: &Args,
        at: Moment,
    ) {
        let is_pause = answers
            .name(site)
            .is_some_and(|name| name == b"Rwait".as_slice());
        // A call of a built-in site that takes no time is only counted, unless all calls are to be shown.
        if !self.is_whole && !is_pause && !answers.is_scripted(site) {
            self.small = self.small.saturating_add(1);
            return;
        }
        self.calls = self.calls.saturating_add(1);
        // What the table answers to this call. It is asked before the call is counted: `next_call` speaks of the one after those that were counted.
        let found = self.counts.next_call(answers, site, args).found;
        self.is_refused = self.counts.add(answers, site, args).is_err() || self.is_refused;
        // A moment counts entries from 1, the place in the journal from 0.
        let called = Called {
            number,
            at: (at.entry as usize).saturating_sub(1),
            due: due_time(found, self.now),
            is_pause,
        };
        let span = self.begin(Kind::Call(called), mark, at);
        self.is_refused = self.shown.insert(number, span).is_err() || self.is_refused;
        self.note(Shown::Span(span), at)
    }

    // ---- steps

    // The number of the step in which the token with this mark stands, 0 where it stands in none. A step leads into one side of a running `>x>`,
    // pruning or otherwise.
    fn step_of(&self, mark: u64) -> usize {
        self.trail.token(mark).map_or(0, |token| token.step)
    }

    // Notes a publication, at the moment `at`, of the token with this mark: it goes outwards to the nearest `>x>` or right side of a pruning, or out
    // of the whole. On the way it ends each otherwise whose left side it leaves. Each turn of the loop goes one step outwards, so there are no more
    // turns than steps.
    fn leave(&mut self, mark: u64, at: Moment) {
        let mut number = self.step_of(mark);
        for _step in 0..self.trail.steps().len() {
            // There is no step 0: the publication leaves the whole.
            let Some(step) = self.trail.step(number) else {
                return;
            };
            match step.way {
                Way::SeqLeft(_) | Way::PruneRight(_) => return,
                // The right side stands in the place of its otherwise, whose span has ended.
                Way::Then(_) => {}
                // This mark is the otherwise's.
                Way::OtherwiseLeft(mark) => {
                    match self.others.get(&mark).copied() {
                        Some(span) if self.end_of(span).is_none() => {
                            self.set_end(span, End::Left, at);
                        }
                        // An earlier publication has ended it.
                        _ => {}
                    }
                }
            }
            number = step.outer;
        }
    }

    // The place of the innermost span in which the step of the number `from` stands, None where it stands in none. An otherwise whose left side has
    // published doesn't count: what is left of that side stands in the span that encloses the otherwise. Each turn goes outwards.
    fn span_round(&self, from: usize) -> Option<usize> {
        let mut number = from;
        for _step in 0..self.trail.steps().len() {
            // The home of a step is the innermost step into a pruning or an otherwise, which may be this one. Neither step 0 nor a step without a
            // home has a span round it.
            let home = self.trail.step(self.trail.step(number)?.home)?;
            let span = match home.way {
                Way::PruneRight(cell) => self.cells.get(&cell).copied(),
                Way::OtherwiseLeft(mark) | Way::Then(mark) => self.others.get(&mark).copied(),
                // Never: a home doesn't lead into the left side of a `>x>`.
                Way::SeqLeft(_) => None,
            };
            match (home.way, span) {
                (Way::OtherwiseLeft(_), Some(span))
                    if matches!(self.end_of(span), Some(End::Left)) => {
                    number = home.outer;
                }
                _ => return span,
            }
        }
        None
    }

    // ---- spans

    // How the span at this place has ended; None where it hasn't.
    fn end_of(&self, span: usize) -> Option<End> {
        let (end, _at) = self.spans.get(span)?.end?;
        Some(end)
    }

    // Begins a span where the token with this mark stands, at the moment `began`, and gives the place of the span. Where memory is refused it sets
    // `is_refused`.
    fn begin(&mut self, kind: Kind<'a>, mark: u64, began: Moment) -> usize {
        let span = self.spans.len();
        let outer = self.span_round(self.step_of(mark));
        let new = Span {
            kind,
            began,
            end: None,
            outer,
            newest: None,
            before: None,
        };
        self.is_refused = self.spans.push(new).is_err() || self.is_refused;
        if let Some(round) = outer {
            let before = self.set_newest(round, Some(span));
            if let Some(new) = self.spans.get_mut(span) {
                new.before = before;
            }
        }
        span
    }

    // Makes `newest` the head of the list of the spans directly in the span at the place `span`, and gives the head that was. None is the empty list.
    fn set_newest(&mut self, span: usize, newest: Option<usize>) -> Option<usize> {
        match self.spans.get_mut(span) {
            Some(outer) => {
                let before = outer.newest;
                outer.newest = newest;
                before
            }
            None => None,
        }
    }

    // Sets how and when the span at this place ended, also where it had ended before.
    fn set_end(&mut self, span: usize, end: End, at: Moment) {
        if let Some(span) = self.spans.get_mut(span) {
            span.end = Some((end, at));
        }
    }

    // Adds an event. Where memory is refused it sets `is_refused`.
    fn note(&mut self, shown: Shown, at: Moment) {
        self.is_refused = self.events.push(Event { shown, at }).is_err() || self.is_refused;
    }

    // Ends the span at this place with an event, and drops all spans in it. None is the span of a call that isn't shown: nothing is done.
    fn close(&mut self, span: Option<usize>, end: End, at: Moment) {
        if let Some(span) = span {
            self.drop_inside(span, at);
            self.set_end(span, end, at);
            self.note(Shown::Span(span), at);
        }
    }

    // Drops all spans in the span at this place, at whatever depth, with a stack (`dropping`) in place of a recursion.
    fn drop_inside(&mut self, span: usize, at: Moment) {
        // The span's list becomes empty, and the list's head is to be dropped. Each dropped span leads on to the head of its own list and to the span
        // before it.
        let newest = self.set_newest(span, None);
        self.drop_later(newest);
        // A span is taken out once at most, since nothing leads to it then, so there are no more turns than spans.
        for _span in 0..self.spans.len() {
            let Some(dropped) = self.dropping.pop() else {
                return;
            };
            let newest = self.set_newest(dropped, None);
            self.drop_later(newest);
            let before = self.drop_one(dropped, at);
            self.drop_later(before);
        }
    }

    // Puts a span, if there is one, among those that are still to be dropped.
    fn drop_later(&mut self, span: Option<usize>) {
        if let Some(span) = span {
            self.is_refused = self.dropping.push(span).is_err() || self.is_refused;
        }
    }

    // Ends a span as cancelled or dropped, unless it has ended, takes it out of its list, and gives the one before it there. None at the list's end.
    fn drop_one(&mut self, span: usize, at: Moment) -> Option<usize> {
        let dropped = self.spans.get_mut(span)?;
        if dropped.end.is_none() {
            let end = match dropped.kind {
                Kind::Call(_) => End::Cancelled,
                _ => End::Dropped,
            };
            dropped.end = Some((end, at));
        }
        let before = dropped.before;
        dropped.before = None;
        before
    }
}
