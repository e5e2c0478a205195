//! Lists of what was seen on the paths to states, by their numbers. Each list is a shorter one with one thing behind it, so that paths which begin
//! alike share their beginning. A list is named by its number (`at`, `before`, `to`), from 0. A `Happening` is what a step shows. Claims have it as
//! an `Occurrence`, a publication or what became of a call (its `Phase`), and with its time as a `Happened`. The sieve says which of these a search
//! keeps.
//!
//! In contracts `lists` is the list of all of them by their numbers, `list_at` is one, `nothing_yet` the empty one, `list_of` what a `Longer` makes,
//! and `Grows` says that those which were there stay. `kept_by`, `names_of` and `named` say what the sieve keeps, `seen_now` and `seen_after` put it
//! behind a list.

ghost use Rattle.std.specs.Prelude.{◌≡◌, ◌<◌, ◌++◌, ◌∷◌, [], length, option_to_list, true, Some, slice_get, IfSome, IfNone, IfOk, OnOk, OnErr};
ghost use Rattle.orc_rules.specs.declared.value.Value.{Value as Datum};
ghost use Rattle.orc_claims.specs.declared.happening.Occurrence.{Occurrence as Event};
ghost use Rattle.orc_search.specs.Moving.{happening_of};
ghost use Rattle.orc_search.specs.States.{happens, waits};
ghost use Rattle.orc_schedules.specs.Growing.{Grows};
ghost use Rattle.orc_schedules.specs.Lists.{list_at, lists, list_of, what_of, IsMade};
ghost use Rattle.orc_schedules.specs.Seen.{becomes, kept_by, names_of, nothing_yet, phase_of, seen_after, seen_now, sites_of, values_of};
ghost use Rattle.orc_claims.specs.Claims.{published as all_published};
ghost use Rattle.orc_schedules.specs.Watch.{all_at, named};

use crate::calls::copied_at;
use crate::once::Once;
use crate::sieve::Sieve;
use orc_claims::happening::{Happening as Happened, Occurrence, Phase};
use orc_rules::value::{Answer, Value};
use orc_search::node::{mix, mix_value};
use orc_search::places::Places;
use orc_search::successor::Happening;
use std::alloc::{AllocError, Global};
use std::marker::Model;

/// What was seen last.
#[derive(Clone, Copy, PartialEq, Eq)]
pub enum What {
    /// A publication.
    Published(Value),
    /// What became of a call, by its place in `Lists::calls`, from 0.
    Call(usize),
    /// Only time passed.
    Nothing,
}

/// A list that isn't the empty one: a shorter list with one thing behind it.
#[derive(Clone, Copy, PartialEq, Eq)]
pub struct Longer {
    /// The number of the list to which one thing was added.
    pub before: usize,
    /// The time at the end of the list, in logical units and as far as the sieve tells times apart.
    pub now: u64,
    /// What was added to that list.
    pub what: What,
}

/// Lists of what was seen by their numbers, each with the time to which it comes; the empty list at time 0 has the number 0. A list that is asked for
/// again has the same number again, unless one with an equal hash came between.
pub struct Lists {
    // What became of calls, each once. A list names it by its place here, from 0.
    calls: Once<Occurrence>,
    // The list of number n is at place n - 1. The empty one, of number 0, is at none.
    longer: Vec<Longer>,
    // The number of the list last made with a hash. Nothing is promised of it: what is found there is compared.
    places: Places,
}

// Written out, so that a caller's proof sees one call and not the drop of each field.
impl Drop for Lists {
    fn drop(self) {
        let Lists {
            calls: _,
            longer: _,
            places: _,
        } = self;
    }
}

// Contracts see what became of calls and the longer lists. Each list is longer than one with a lower number, and names only calls that are there.
impl Model for Lists {
    ghost use Rattle.orc_schedules.specs.Lists.{AreBehind, AreMade, Linked};

    ghost Value = { Linked };

    ghost view = { λ l. record { calls = l.calls; longer = l.longer.items } };

    ghost invariant = { λ l. AreBehind l.longer.items × AreMade l.calls l.longer.items };
}

// The longer list at that place, from 0; None if there is none.
fn longer_at(longer: &[Longer], at: usize) -> Option<Longer>
    ensures { result ≡ slice_get longer.now at }
{
    match longer.get(at) {
        Some(longer) => Some(*longer),
        None => None,
    }
}

// The hash by which an equal list is looked for. Each kind of `What` mixes in a number of its own (1 to 3). Only a wait mixes in the time: what else
// is seen has that of the list before.
fn hash_of(longer: Longer) -> u64 {
    match longer.what {
        What::Published(value) => mix_value(mix(1, longer.before as u64), value),
        What::Call(number) => mix(mix(2, longer.before as u64), number as u64),
        What::Nothing => mix(mix(3, longer.before as u64), longer.now),
    }
}

// What became of a call that was answered so.
fn phase_of(answer: Answer) -> Phase
    ensures { result ≡ phase_of answer }
{
    match answer {
        Answer::Value(value) => Phase::Answered(value),
        Answer::Halt => Phase::Halted,
    }
}

impl Lists {
    /// The empty list alone.
    pub fn new(alloc: Global) -> Lists
        ensures { result ≡ record { calls = []; longer = [] } }
    {
        Lists {
            calls: Once::new(alloc),
            longer: Vec::new(alloc),
            places: Places::new(alloc),
        }
    }

    // How many lists there are, the empty one counted.
    fn len(&self) -> usize
        ensures { result ≡ length (lists self.now) }
    {
        self.longer.len() + 1
    }

    // What the list of that number is made of: the list before, the time and what was added. None for the empty one, and if there is no such list.
    fn made_of(&self, at: usize) -> Option<Longer>
        ensures some { IfSome result (λ x. (x.before < at) × (slice_get (lists self.now) at ≡ Some (list_of self.now.calls (lists self.now) x))) }
        ensures none { IfNone result (list_at (lists self.now) at ≡ nothing_yet) }
    {
        if at == 0 {
            return None;
        }
        // The empty list has the number 0 and no place, so each other one stands a place before its number.
        longer_at(&self.longer, at - 1)
    }

    // What was seen last, as claims have it; None where only time passed.
    fn occurrence(&self, what: What) -> Option<Occurrence>
        ensures { option_to_list result ≡ what_of self.now.calls what }
    {
        match what {
            What::Published(value) => Some(Occurrence::Published(value)),
            What::Call(number) => Some(copied_at(self.calls.as_slice(), number)),
            What::Nothing => None,
        }
    }

    /// The time to which the list of that number comes; 0 if there is no such list.
    pub fn now(&self, at: usize) -> u64
        ensures { result ≡ (list_at (lists self.now) at).now }
    {
        match self.made_of(at) {
            Some(longer) => longer.now,
            None => 0,
        }
    }

    // Pushes what was seen last in this list, with its time, unless only time passed. In clauses `what_of` gives that as claims have it, in a list of
    // one or none, and `all_at` gives it the time. The error is refused memory.
    fn push(&self, happened: &mut Vec<Happened>, longer: Longer) -> Result<(), AllocError>
        ensures { OnOk result (happened.new.items ≡ happened.old.items ++ all_at longer.now (what_of self.now.calls longer.what)) }
    {
        match self.occurrence(longer.what) {
            Some(what) => {
                happened.push(Happened {
                    time: longer.now,
                    what,
                })?;
                Ok(())
            }
            None => Ok(()),
        }
    }

    /// All that was seen in the list of that number, in order and with times; nothing if there is no such list. The error is refused memory.
    pub fn happened(&self, alloc: Global, at: usize) -> Result<Vec<Happened>, AllocError>
        ensures { IfOk result (λ v. v.items ≡ (list_at (lists self.now) at).happened) }
    {
        // From the end to the beginning, since a list knows the one before it; `rest` is the list that is left.
        let mut happened = Vec::new(alloc);
        let mut rest = at;
        while let Some(longer) = self.made_of(rest) {
            self.push(&mut happened, longer)?;
            rest = longer.before;
        }
        happened.reverse();
        Ok(happened)
    }

    // Pushes the value that was seen last in this list, if that is a publication (`all_published`). The error is refused memory.
    fn push_value(&self, values: &mut Vec<Value>, longer: Longer) -> Result<(), AllocError>
        ensures { OnOk result (values.new.items ≡ values.old.items ++ all_published (all_at longer.now (what_of self.now.calls longer.what))) }
    {
        match self.occurrence(longer.what) {
            Some(Occurrence::Published(value)) => {
                values.push(value)?;
                Ok(())
            }
            // What became of a call, or a wait: neither publishes.
            _ => Ok(()),
        }
    }

    /// The values that were published in the list of that number, in order. The error is refused memory.
    pub fn values(&self, alloc: Global, at: usize) -> Result<Vec<Value>, AllocError>
        ensures { IfOk result (λ v. v.items ≡ values_of (list_at (lists self.now) at)) }
    {
        // From the end to the beginning, since a list knows the one before it; `rest` is the list that is left.
        let mut values = Vec::new(alloc);
        let mut rest = at;
        while let Some(longer) = self.made_of(rest) {
            self.push_value(&mut values, longer)?;
            rest = longer.before;
        }
        values.reverse();
        Ok(values)
    }

    // Whether the list of that number, `at`, is this one, `longer`; never for the empty list, nor where there is no such list.
    fn stands_at(&self, at: usize, longer: Longer) -> bool
        ensures { result ≡ true → slice_get (lists self.now) at ≡ Some (list_of self.now.calls (lists self.now) longer) }
    {
        match self.made_of(at) {
            Some(found) => found == longer,
            None => false,
        }
    }

    // Adds a list behind the others, and gives its number. The list before it, and the call that it names, have to be there (`IsMade`). The error is
    // refused memory, and then nothing changes.
    fn add(&mut self, longer: Longer) -> Result<usize, AllocError>
        requires before { longer.before < length (lists self.old) }
        requires made { IsMade (length self.old.calls) longer.what }
        ensures number { IfOk result (λ at. at ≡ length (lists self.old)) }
        ensures added { OnOk result (self.new ≡ record { calls = self.old.calls; longer = self.old.longer ++ longer ∷ [] }) }
        ensures refused { OnErr result (self.new ≡ self.old) }
    {
        let number = self.len();
        self.longer.push(longer)?;
        Ok(number)
    }

    // The number of the list that was last made with this hash; None if none is known. Another list may have the same hash.
    fn place_of(&self, hash: u64) -> Option<usize> {
        self.places.get(hash)
    }

    // Notes that the list of that number has this hash. The error is refused memory.
    fn remember(&mut self, hash: u64, at: usize) -> Result<(), AllocError>
        ensures { self.new ≡ self.old }
    {
        self.places.insert(hash, at)
    }

    // The place of what became of a call among those that the lists name, which is added if it isn't there. The error is refused memory. The lists
    // stay, in both cases.
    fn number_of(&mut self, what: Occurrence) -> Result<usize, AllocError>
        ensures number { IfOk result (λ n. slice_get self.new.calls n ≡ Some what) }
        ensures kept { lists self.new ≡ lists self.old }
    {
        self.calls.place(what)
    }

    // The number of a longer list: that of an equal list, or else of a new one. The list before it, and the call that it names, have to be there
    // (`IsMade`). The error is refused memory. The lists that were there stay (`Grows`), in both cases.
    fn find(&mut self, longer: Longer) -> Result<usize, AllocError>
        requires before { longer.before < length (lists self.old) }
        requires made { IsMade (length self.old.calls) longer.what }
        ensures number { IfOk result (λ at. slice_get (lists self.new) at ≡ Some (list_of self.old.calls (lists self.old) longer)) }
        ensures kept { Grows (lists self.old) (lists self.new) }
    {
        let hash = hash_of(longer);
        if let Some(at) = self.place_of(hash) {
            if self.stands_at(at, longer) {
                return Ok(at);
            }
        }
        let at = self.add(longer)?;
        self.remember(hash, at)?;
        Ok(at)
    }

    // The number of the list `at` with a publication of this value behind it: `at` itself if the sieve doesn't keep the publication. The error is
    // refused memory. The lists that were there stay, in both cases.
    fn after_value(&mut self, at: usize, sieve: &Sieve, value: Value) -> Result<usize, AllocError>
        requires { at < length (lists self.old) }
        ensures there { IfOk result (λ to. to < length (lists self.new)) }
        // The new list is the old one with this publication behind it, if it is named.
        ensures list { IfOk result (λ to. list_at (lists self.new) to ≡ seen_now (list_at (lists self.old) at) (named (names_of sieve.now) (Event.Published value ∷ []))) }
        ensures kept { Grows (lists self.old) (lists self.new) }
    {
        if !sieve.keeps_value(value) {
            return Ok(at);
        }
        let to = self.find(Longer {
            before: at,
            now: self.now(at),
            what: What::Published(value),
        })?;
        Ok(to)
    }

    // The number of the list `at` with what became of a call behind it: `at` itself if the sieve doesn't keep that. `site` is the site's number in
    // the program's table, `args` the call's arguments, `phase` what became of the call. The error is refused memory, or one of `Sieve::call`: too
    // many arguments or sites. The lists that were there stay, in both cases.
    fn after_call(
        &mut self,
        at: usize,
        sieve: &Sieve,
        site: u32,
        args: &[Value],
        phase: Phase,
    ) -> Result<usize, AllocError>
        requires { at < length (lists self.old) }
        ensures there { IfOk result (λ to. to < length (lists self.new)) }
        // The new list is the old one with this behind it, if it is named.
        ensures list { IfOk result (λ to. list_at (lists self.new) to ≡ seen_now (list_at (lists self.old) at) (named (names_of sieve.now) (becomes (sites_of sieve.now) site args.now phase ∷ []))) }
        ensures kept { Grows (lists self.old) (lists self.new) }
    {
        let Some(what) = sieve.call(site, args, phase)? else {
            return Ok(at);
        };
        // A list names what became of a call by its place in `calls`.
        let number = self.number_of(what)?;
        let to = self.find(Longer {
            before: at,
            now: self.now(at),
            what: What::Call(number),
        })?;
        Ok(to)
    }

    /// The number of the list after the list `at` and `by` more units of logical time: `at` itself if the sieve doesn't tell the two times apart. All
    /// times past the latest that the sieve tells apart count as that one. The error is refused memory. The lists that were there stay, in both
    /// cases.
    pub(crate) fn wait(&mut self, at: usize, sieve: &Sieve, by: u64) -> Result<usize, AllocError>
        requires { at < length (lists self.old) }
        ensures there { IfOk result (λ to. to < length (lists self.new)) }
        // The new list is the old one at the later time, as far as times are told apart.
        ensures list { IfOk result (λ to. list_at (lists self.new) to ≡ seen_after (kept_by sieve.now) (list_at (lists self.old) at) (waits by)) }
        ensures kept { Grows (lists self.old) (lists self.new) }
    {
        // The time to which the list `at` comes.
        let before = self.now(at);
        // The sum may saturate: the search answers `TooLong` if waits can add up to 2^64.
        let now = before.saturating_add(by).min(sieve.latest());
        if now == before {
            return Ok(at);
        }
        let to = self.find(Longer {
            before: at,
            now,
            what: What::Nothing,
        })?;
        Ok(to)
    }

    /// The number of the list after the list `at` and this happening: one with the happening behind it if the sieve keeps it, and else `at` itself.
    /// The sieve says what the search keeps: publications, or what a claim names. The error is refused memory, or that a call has too many arguments
    /// or the test names 2^32 sites (`Sieve::call`). The lists that were there stay, in both cases.
    pub(crate) fn after(
        &mut self,
        at: usize,
        sieve: &Sieve,
        happening: &Happening,
    ) -> Result<usize, AllocError>
        requires { at < length (lists self.old) }
        ensures there { IfOk result (λ to. to < length (lists self.new)) }
        // The new list is the old one with what the sieve keeps of the happening behind it.
        ensures list { IfOk result (λ to. list_at (lists self.new) to ≡ seen_after (kept_by sieve.now) (list_at (lists self.old) at) (happens (happening_of happening.now))) }
        ensures kept { Grows (lists self.old) (lists self.new) }
    {
        match happening {
            Happening::Published(value) => self.after_value(at, sieve, *value),
            Happening::Called(site, args) => {
                self.after_call(at, sieve, *site, args, Phase::Called)
            }
            Happening::Answered(site, args, answer) => {
                self.after_call(at, sieve, *site, args, phase_of(*answer))
            }
            // A step that shows nothing, as where a definition's body comes in a call's place.
            Happening::Unseen => Ok(at),
        }
    }
}
