//! What a search watches for, so that it can tell whether a claim holds: what the claim's events name, and times up to the latest that it tells
//! apart. A claim is a plain one (`Plain`) behind conditions, each of which asks whether an event happens. An event is that one of its alternatives
//! (`Simple`) happens: a publication, or what is wanted (`Wanted`) to become of a call. A `Slot` stands in the place of a value there: it is a value,
//! a variable, or any value.
//!
//! In contracts `NameSame` says that two lists name the same occurrences, and `all_seen` that none of a list names a cancel.
//!
//! A loop that matches on the rest of a list is no `for`, since its invariant speaks of that rest.

ghost use Rattle.std.specs.Prelude.{◌≡◌, ◌++◌, ◌∷◌, [], IfOk, OnOk};
ghost use Rattle.orc_claims.specs.declared.happening.Occurrence.{Occurrence as What};
ghost use Rattle.orc_schedules.specs.Watch.{all_seen, counts_none_out, is_named, is_same_phase, is_seen, is_watchable, last_time, latest_by, latest_of_plain, latest_within, names_it, sees, watched, watched_conditions, watched_plain, IsWatchOf, NameSame};

use orc_claims::claim::{Claim, Condition, Event, Plain, Simple, Slot, Wanted};
use orc_claims::happening::{Occurrence, Phase};
use std::alloc::{AllocError, Global};
use std::marker::Model;

/// What a search keeps for a claim. If the claim has `A(7) answered 1`, the search keeps every answer of A, whatever the arguments and the value, but
/// neither its calls nor its halts; and if the claim names a publication, the search keeps all of them.
#[derive(Drop)]
pub struct Watch {
    // What the claim's events name, one after another, without what they ask of the arguments.
    names: Vec<Simple>,
    // The latest time that is told apart: every later one counts as this one.
    latest: u64,
}

// Contracts see both fields.
impl Model for Watch {
    ghost use Rattle.orc_schedules.specs.Watch.{Watched};

    ghost Value = { Watched };

    ghost view = { λ w. record { names = w.names.items; latest = w.latest } };
}

// Whether `phase`, what became of a call, is what a claim wants (`wanted`), whatever the value. Never for a cancel, which a search doesn't see.
fn is_same_phase(wanted: Wanted, phase: Phase) -> bool
    ensures { result ≡ is_same_phase wanted phase }
{
    match (wanted, phase) {
        (Wanted::Called, Phase::Called) => true,
        (Wanted::Answered(_), Phase::Answered(_)) => true,
        (Wanted::Halted, Phase::Halted) => true,
        // They differ, or are both a cancel.
        _ => false,
    }
}

// Whether this name, from a claim's event, names what happened, whatever the arguments and the value. A call's site has the number that claims have
// for it.
fn names_it(name: &Simple, what: &Occurrence) -> bool
    ensures { result ≡ names_it name.now what.now }
{
    match (name, what) {
        (Simple::Call(site, _, wanted), Occurrence::Call(called, _, phase)) => {
            *site == *called && is_same_phase(*wanted, *phase)
        }
        (Simple::Published(_), Occurrence::Published(_)) => true,
        // One is a call, the other a publication.
        _ => false,
    }
}

// Whether a search can see what this name, from a claim's event, names: it isn't a cancel.
fn sees(name: &Simple) -> bool
    ensures { result ≡ sees name.now }
{
    match name {
        Simple::Call(_, _, Wanted::Cancelled) => false,
        _ => true,
    }
}

// Whether a search can see all that these names, from a claim's events, name: none is a cancel.
fn all_seen(names: &[Simple]) -> bool
    ensures { result ≡ all_seen names.now }
{
    let mut rest = names;
    loop {
        match rest {
            [] => return true,
            [name, more @ ..] => {
                if !sees(name) {
                    return false;
                }
                rest = more;
            }
        }
    }
}

// Whether a claim is another one than `at most .. at once`, for which a search would have to keep which calls are pending.
fn counts_none_out(plain: &Plain) -> bool
    ensures { result ≡ counts_none_out plain.now }
{
    match plain {
        Plain::AtOnce(_, _) => false,
        _ => true,
    }
}

// The latest time that a `by` tells apart: the first one after it, since all later times are too late alike. Without a `by` it is 0: no times are
// told apart.
fn latest_by(by: Option<u64>) -> u64
    ensures { result ≡ latest_by by }
{
    match by {
        Some(by) => by.saturating_add(1),
        None => 0,
    }
}

// The latest time that a `within` tells apart: all are told apart, since it may count from any of them. Without a `within` it is 0.
fn latest_within(within: Option<u64>) -> u64
    ensures { result ≡ latest_within within }
{
    match within {
        Some(_) => u64::MAX,
        None => 0,
    }
}

// The latest time that a claim tells apart; 0 for a claim without a time. Its conditions ask for no time.
fn latest_of(plain: &Plain) -> u64
    ensures { result ≡ latest_of_plain plain.now }
{
    match plain {
        Plain::Count(_, _, _, by) => latest_by(*by),
        Plain::EachThen(_, _, within) => latest_within(*within),
        Plain::Ends(_, _, by) => latest_by(*by),
        // No other claim asks for a time.
        _ => 0,
    }
}

// A copy of a name without what it asks of the arguments and of a published value, at which a watch doesn't look: the copy names the same for a
// watch. Its empty vector needs no memory.
fn outline(alloc: Global, name: &Simple) -> Simple
    ensures names { (w : What) → names_it result w ≡ names_it name.now w }
    ensures seen { sees result ≡ sees name.now }
{
    match name {
        Simple::Call(site, _, wanted) => Simple::Call(*site, Vec::new(alloc), *wanted),
        Simple::Published(_) => Simple::Published(Slot::Any),
    }
}

impl Watch {
    // A watch that keeps nothing.
    fn nothing(alloc: Global) -> Watch
        ensures { result.names ≡ [] }
    {
        Watch {
            names: Vec::new(alloc),
            latest: 0,
        }
    }

    // Has the watch tell times apart up to `latest`: every later time counts as this one.
    fn tell_until(&mut self, latest: u64)
        ensures { self.new ≡ record { names = self.old.names; latest = latest } }
    {
        self.latest = latest;
    }

    // Has the watch also keep what this name names. By the contract its names then name the same as before with this one (`NameSame`), and a search
    // sees all of them exactly if it sees those (`all_seen`). The error is refused memory.
    fn add(&mut self, alloc: Global, name: &Simple) -> Result<(), AllocError>
        ensures names { OnOk result (NameSame self.new.names (self.old.names ++ name.now ∷ [])) }
        ensures seen { OnOk result (all_seen self.new.names ≡ all_seen (self.old.names ++ name.now ∷ [])) }
    {
        self.names.push(outline(alloc, name))?;
        Ok(())
    }

    // Has the watch also keep what any of an event's alternatives names: the event is that one of these happens. By the contract its names then name
    // the same as before with these (`NameSame`), and a search sees all of them exactly if it sees those (`all_seen`). The error is refused memory.
    fn add_event(&mut self, alloc: Global, event: &Event) -> Result<(), AllocError>
        ensures names { OnOk result (NameSame self.new.names (self.old.names ++ event.now.alternatives.items)) }
        ensures seen { OnOk result (all_seen self.new.names ≡ all_seen (self.old.names ++ event.now.alternatives.items)) }
    {
        let mut rest = event.alternatives.as_slice();
        loop {
            match rest {
                [] => return Ok(()),
                [name, more @ ..] => {
                    self.add(alloc, name)?;
                    rest = more;
                }
            }
        }
    }

    // Has the watch also keep what two events name. The error is refused memory.
    fn add_events(&mut self, alloc: Global, event: &Event, other: &Event) -> Result<(), AllocError>
        ensures names { OnOk result (NameSame self.new.names (self.old.names ++ (event.now.alternatives.items ++ other.now.alternatives.items))) }
        ensures seen { OnOk result (all_seen self.new.names ≡ all_seen (self.old.names ++ (event.now.alternatives.items ++ other.now.alternatives.items))) }
    {
        self.add_event(alloc, event)?;
        self.add_event(alloc, other)?;
        Ok(())
    }

    // Has the watch also keep what a claim without its conditions names. The error is refused memory. A claim on values needs all publications, one
    // on the end nothing. `AtOnce` has its event kept, though `of_claim` gives no watch for it.
    fn add_plain(&mut self, alloc: Global, plain: &Plain) -> Result<(), AllocError>
        ensures names { OnOk result (NameSame self.new.names (self.old.names ++ watched_plain plain.now)) }
        ensures seen { OnOk result (all_seen self.new.names ≡ all_seen (self.old.names ++ watched_plain plain.now)) }
    {
        match plain {
            Plain::Count(event, _, _, _) | Plain::AtOnce(event, _) => self.add_event(alloc, event),
            Plain::OnlyAfter(event, other)
            | Plain::NoneAfter(event, other)
            | Plain::EachThen(event, other, _) => self.add_events(alloc, event, other),
            Plain::Ends(_, _, _) => Ok(()),
            Plain::InOrder(_) | Plain::InAnyOrder(_) | Plain::OneOf(_) => {
                self.add(alloc, &Simple::Published(Slot::Any))
            }
        }
    }

    // Has the watch also keep what the events of these conditions name. The error is refused memory.
    fn add_conditions(&mut self, alloc: Global, conditions: &[Condition]) -> Result<(), AllocError>
        ensures names { OnOk result (NameSame self.new.names (self.old.names ++ watched_conditions conditions.now)) }
        ensures seen { OnOk result (all_seen self.new.names ≡ all_seen (self.old.names ++ watched_conditions conditions.now)) }
    {
        let mut rest = conditions;
        loop {
            match rest {
                [] => return Ok(()),
                [condition, more @ ..] => {
                    self.add_event(alloc, &condition.event)?;
                    rest = more;
                }
            }
        }
    }

    // A watch for all that a claim names, be it something that a search can see or not. The error is refused memory.
    fn of_all(alloc: Global, claim: &Claim) -> Result<Watch, AllocError>
        ensures names { IfOk result (λ w. NameSame w.names (watched claim.now)) }
        ensures seen { IfOk result (λ w. all_seen w.names ≡ all_seen (watched claim.now)) }
        ensures latest { IfOk result (λ w. w.latest ≡ latest_of_plain claim.now.plain) }
    {
        let mut watch = Watch::nothing(alloc);
        watch.add_plain(alloc, &claim.plain)?;
        watch.add_conditions(alloc, claim.conditions.as_slice())?;
        watch.tell_until(latest_of(&claim.plain));
        Ok(watch)
    }

    // Whether a search can see all that the watch keeps: nothing of it is a cancel.
    fn sees_all(&self) -> bool
        ensures { result ≡ all_seen self.now.names }
    {
        all_seen(self.names.as_slice())
    }

    /// A watch for all on which it depends whether a claim holds; None if a search can't watch for that: the claim asks for a cancel, or counts the
    /// calls that are pending at once. The error is refused memory.
    pub fn of_claim(alloc: Global, claim: &Claim) -> Result<Option<Watch>, AllocError>
        ensures { IfOk result (IsWatchOf claim.now) }
    {
        let watch = Watch::of_all(alloc, claim)?;
        // The first test is for a claim that counts the calls pending at once, the second for one that names a cancel.
        if !counts_none_out(&claim.plain) || !watch.sees_all() {
            return Ok(None);
        }
        Ok(Some(watch))
    }

    /// The latest time that the watch tells apart: every later one counts as this one.
    pub fn latest(&self) -> u64
        ensures { result ≡ self.now.latest }
    {
        self.latest
    }

    /// Whether the watch keeps this: what became of a call, whatever the arguments, or a publication. Sites have the numbers that claims have for
    /// them.
    pub fn names(&self, what: &Occurrence) -> bool
        ensures { result ≡ is_named self.now.names what.now }
    {
        let mut rest = self.names.as_slice();
        loop {
            match rest {
                [] => return false,
                [name, more @ ..] => {
                    if names_it(name, what) {
                        return true;
                    }
                    rest = more;
                }
            }
        }
    }
}
