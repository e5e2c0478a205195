//! Lists of calls that were made, by their numbers. An *entry* (`Made`) of a list is a site with arguments, and how often it was called so, as far as
//! later calls are answered otherwise because of it (`called`). Here `answers` is the table that answers the program's calls, and a `Happening` is
//! what a step shows: a call, an answer, a publication or nothing. Lists are named by their numbers (`at`, `to`), from 0.
//!
//! In contracts `made_at` is the list of a number, `count_of` an entry as the definitions have it, and `Grows` says that the lists which were there
//! stay.

ghost use Rattle.std.specs.Prelude.{◌≡◌, ◌<◌, ◌≤◌, ◌++◌, ◌∷◌, [], ℕ, List, length, map, true, false, Some, slice_get, IfSome, IfOk, OnOk, OnErr};
ghost use Rattle.orc_rules.specs.declared.value.Value.{Value as Datum};
ghost use Rattle.orc_search.specs.Asked.{times_of, coming_of_made};
ghost use Rattle.orc_search.specs.Moving.{happening_of};
ghost use Rattle.orc_search.specs.States.{coming_after, without_next};
ghost use Rattle.orc_search.specs.declared.made.Made.{Made as Entry};
ghost use Rattle.orc_schedules.specs.Growing.{Grows};
ghost use Rattle.orc_schedules.specs.Counts.{count_of, made_at, is_kind, raised, times_with};

use orc_rules::answers::Answers;
use orc_rules::builtin::are_same;
use orc_rules::limits::MOST_ARGUMENTS;
use orc_rules::value::{Args, Value};
use orc_search::made::{Made, times_of};
use orc_search::node::{mix, mix_value};
use orc_search::places::Places;
use orc_search::successor::Happening;
use std::alloc::{AllocError, Global};
use std::marker::Model;

/// Lists of calls that were made by their numbers; the empty list has the number 0. A list that is asked for again has the same number again, unless
/// one with an equal hash came between. A list has one entry at most for a site with arguments.
pub struct Counts {
    // The lists by their numbers, from 0.
    lists: Vec<Vec<Made>>,
    // Where the list last made with a hash stands. Nothing is promised of it: what is found there is compared.
    places: Places,
}

// Written out, so that a caller's proof sees one call and not the drop of each field.
impl Drop for Counts {
    fn drop(self) {
        let Counts {
            lists: _,
            places: _,
        } = self;
    }
}

// Contracts see the lists by their numbers, and nothing of the places.
impl Model for Counts {
    ghost use Rattle.std.specs.Prelude.{List, map};
    ghost use Rattle.orc_search.specs.declared.made.Made.{Made};

    ghost Value = { List (List Made) };

    ghost view = { λ c. map (λ v. v.items) c.lists.items };
}

// Where a list has its entry for some calls (a site with arguments), or is to get it.
#[derive(Clone, Copy)]
struct Place {
    // The place in the list: from 0, the list's length at most.
    at: usize,
    // Whether an entry for the same calls is at this place, which the new one replaces; if not, the new one is to be put before what is there.
    again: bool,
}

// Whether both entries are for the same calls (the same site with the same arguments), however many.
fn is_kind(one: &Made, other: &Made) -> bool
    ensures { result ≡ is_kind (count_of one.now) (count_of other.now) }
{
    one.site == other.site && are_same(&one.args, &other.args)
}

// Whether both entries are equal: for the same calls, and as many. Only true is promised to mean it.
fn is_same(one: &Made, other: &Made) -> bool
    ensures { result ≡ true → count_of one.now ≡ count_of other.now }
{
    if !is_kind(one, other) {
        return false;
    }
    one.times == other.times
}

// The hash of the calls that an entry is for (a site with arguments), without how many they are. The seeds, 2 here and 3 for a list, are arbitrary.
fn hash_of_kind(calls: &Made) -> u64 {
    let mut mixed = mix(2, calls.site as u64);
    for arg in &calls.args {
        mixed = mix_value(mixed, *arg);
    }
    mixed
}

// The hash by which an equal list is looked for.
fn hash_of(made: &[Made]) -> u64 {
    let mut mixed = 3;
    for calls in made {
        mixed = mix(mix(mixed, hash_of_kind(calls)), calls.times);
    }
    mixed
}

// Where a list has its entry for the calls of `calls`, or is to get it. The entries of a list are in the order of their hashes, so that it is the
// same list whichever calls were made first. Nothing is promised of that order: in another one the search would find more states.
fn place_of(made: &[Made], calls: &Made) -> Place
    ensures within { result.at ≤ length made.now }
    // No entry before the place is for these calls.
    ensures before { (i : ℕ) (e : Entry) → i < result.at → slice_get made.now i ≡ Some e → is_kind (count_of e) (count_of calls.now) ≡ false }
    // With `again` the entry at the place is.
    ensures again { result.again ≡ true → (e : Entry) × (slice_get made.now result.at ≡ Some e) × (is_kind (count_of e) (count_of calls.now) ≡ true) }
{
    let hash = hash_of_kind(calls);
    for at in 0..made.len() {
        let entry = &made[at];
        if is_kind(entry, calls) {
            return Place { at, again: true };
        }
        // The list is in the order of the hashes, so no later entry is for these calls.
        if hash < hash_of_kind(entry) {
            return Place { at, again: false };
        }
    }
    Place {
        at: made.len(),
        again: false,
    }
}

// A copy of an entry. The error is refused memory.
fn copy_of(alloc: Global, calls: &Made) -> Result<Made, AllocError>
    ensures { IfOk result (λ m. count_of m ≡ count_of calls.now) }
{
    Ok(Made {
        site: calls.site,
        args: Vec::from_slice(alloc, &calls.args)?,
        times: calls.times,
    })
}

// Pushes copies of entries. The error is refused memory.
fn push_copies(alloc: Global, list: &mut Vec<Made>, made: &[Made]) -> Result<(), AllocError>
    ensures { OnOk result (map count_of list.new.items ≡ map count_of list.old.items ++ map count_of made.now) }
{
    for calls in made {
        let copy = copy_of(alloc, calls)?;
        list.push(copy)?;
    }
    Ok(())
}

// A copy of the list with the entry `calls` at that place: in place of the entry for the same calls if `place.again` says that it is there, else
// before what is there. The error is refused memory.
fn raised(alloc: Global, made: &[Made], place: Place, calls: Made) -> Result<Vec<Made>, AllocError>
    requires within { place.at ≤ length made.now }
    requires again { place.again ≡ true → place.at < length made.now }
    ensures { IfOk result (λ v. map count_of v.items ≡ raised (count_of calls) place.at place.again (map count_of made.now)) }
{
    // Where the entries begin that stay behind this one.
    let rest = if place.again { place.at + 1 } else { place.at };
    let mut list = Vec::new(alloc);
    push_copies(alloc, &mut list, &made[..place.at])?;
    list.push(calls)?;
    push_copies(alloc, &mut list, &made[rest..])?;
    Ok(list)
}

// Whether two lists have the same entries in the same order. Only true is promised to mean it. The loop is no `for`, since its invariant speaks of
// what is left of both lists.
fn are_same_counts(one: &[Made], other: &[Made]) -> bool
    ensures { result ≡ true → map count_of one.now ≡ map count_of other.now }
{
    let mut rest = one;
    let mut others = other;
    loop {
        match rest {
            [] => return others.is_empty(),
            [calls, more @ ..] => match others {
                [] => return false,
                [other_calls, more_others @ ..] => {
                    if !is_same(calls, other_calls) {
                        return false;
                    }
                    rest = more;
                    others = more_others;
                }
            },
        }
    }
}

// The arguments of a call as an array without memory of its own; None if there are more than `MOST_ARGUMENTS`.
pub(crate) fn in_place(args: &[Value]) -> Option<Args>
    ensures { IfSome result (λ a. a ≡ args.now) }
{
    let mut placed = Args::new();
    if args.len() > MOST_ARGUMENTS {
        return None;
    }
    for arg in args {
        placed.push(*arg);
    }
    Some(placed)
}

impl Counts {
    /// The empty list alone. The error is refused memory.
    pub fn new(alloc: Global) -> Result<Counts, AllocError>
        ensures { IfOk result (λ c. c ≡ [] ∷ []) }
    {
        let mut lists = Vec::new(alloc);
        // The empty list gets the number 0. It isn't noted in `places`: a list that is looked for has an entry.
        lists.push(Vec::new(alloc))?;
        Ok(Counts {
            lists,
            places: Places::new(alloc),
        })
    }

    /// The list of that number; the empty one if there is no such list.
    pub fn made(&self, at: usize) -> &[Made]
        ensures { result.now ≡ made_at self.now at }
    {
        match self.lists.get(at) {
            Some(made) => made,
            None => &[],
        }
    }

    // Adds a list behind the others: its number. Where memory is refused nothing changes.
    fn push(&mut self, list: Vec<Made>) -> Result<usize, AllocError>
        ensures number { IfOk result (λ at. at ≡ length self.old) }
        ensures added { OnOk result (self.new ≡ self.old ++ list.items ∷ []) }
        ensures refused { OnErr result (self.new ≡ self.old) }
    {
        let at = self.lists.len();
        self.lists.push(list)?;
        Ok(at)
    }

    // The number of the list that was last made with this hash; None if none is known. Another list may have the same hash.
    fn place_of(&self, hash: u64) -> Option<usize> {
        self.places.get(hash)
    }

    // Notes that the list of that number has this hash. The error is refused memory.
    fn remember(&mut self, hash: u64, at: usize) -> Result<(), AllocError>
        ensures { self.new ≡ self.old }
    {
        self.places.insert(hash, at)
    }

    // Whether the list of that number is there and has the same entries. Only true is promised to mean it.
    fn stands_at(&self, at: usize, list: &[Made]) -> bool
        ensures { result ≡ true → (at < length self.now) × (map count_of (made_at self.now at) ≡ map count_of list.now) }
    {
        at < self.lists.len() && are_same_counts(self.made(at), list)
    }

    // The number of a list with these entries: that of one that is found, or else that of the list itself, which is then added behind the others. The
    // error is refused memory. The lists that were there stay, in both cases.
    fn number_of(&mut self, list: Vec<Made>) -> Result<usize, AllocError>
        ensures there { IfOk result (λ at. at < length self.new) }
        ensures counts { IfOk result (λ at. map count_of (made_at self.new at) ≡ map count_of list.items) }
        ensures kept { Grows self.old self.new }
    {
        let hash = hash_of(&list);
        if let Some(at) = self.place_of(hash) {
            if self.stands_at(at, &list) {
                return Ok(at);
            }
        }
        let at = self.push(list)?;
        self.remember(hash, at)?;
        Ok(at)
    }

    // The number of the list `at` with this entry for its calls, in place of the one that it had for them, if it had one. That may be a new list. The
    // error is refused memory. The lists that were there stay, in both cases.
    fn raised(&mut self, alloc: Global, at: usize, calls: Made) -> Result<usize, AllocError>
        requires { at < length self.old }
        ensures there { IfOk result (λ to. to < length self.new) }
        // In the new list the calls have this entry's count, and all others the count that they had.
        ensures times { IfOk result (λ to. (m : ℕ) (args : List Datum) → times_of (made_at self.new to) m args ≡ times_with (count_of calls) (times_of (made_at self.old at)) m args) }
        ensures kept { Grows self.old self.new }
    {
        let made = self.made(at);
        let place = place_of(made, &calls);
        let list = raised(alloc, made, place, calls)?;
        let to = self.number_of(list)?;
        Ok(to)
    }

    /// The number of the list after the list `at` and one call more of the site with these arguments: calls to come are answered as before, but for
    /// the next one of such calls, which is made now. A count goes no higher than to where all later calls are answered alike, so that a loop comes
    /// back to the same list. The error is refused memory, or that no call can have so many arguments. The lists that were there stay, in both cases.
    pub fn called(
        &mut self,
        alloc: Global,
        answers: &Answers,
        at: usize,
        site: u32,
        args: &[Value],
    ) -> Result<usize, AllocError>
        requires { at < length self.old }
        ensures there { IfOk result (λ to. to < length self.new) }
        // What the table says of the calls to come, after the new list, is what it said after the old one, without the next such call.
        ensures coming { IfOk result (λ to. coming_of_made answers.now.sites (made_at self.new to) ≡ without_next site args.now (coming_of_made answers.now.sites (made_at self.old at))) }
        ensures kept { Grows self.old self.new }
    {
        let Some(placed) = in_place(args) else {
            return Err(AllocError);
        };
        // After so many calls all further ones are answered alike: a script's last answer comes again and again.
        let last = answers.last_answer(site, &placed);
        // How often the list says that such calls were made.
        let times = times_of(self.made(at), site, args);
        if times >= last {
            return Ok(at);
        }
        // The entry of these calls, which counts one more.
        let calls = Made {
            site,
            args: Vec::from_slice(alloc, args)?,
            times: times + 1,
        };
        let to = self.raised(alloc, at, calls)?;
        Ok(to)
    }

    /// The number of the list after the list `at` and this happening: after a call that of the list with the call counted (`called`), and `at` itself
    /// after anything else. The error is refused memory, or that no call can have so many arguments. The lists that were there stay, in both cases.
    pub fn after(
        &mut self,
        alloc: Global,
        answers: &Answers,
        at: usize,
        happening: &Happening,
    ) -> Result<usize, AllocError>
        requires { at < length self.old }
        ensures there { IfOk result (λ to. to < length self.new) }
        // What the table says of the calls to come, after the new list, is what it said after the old one and this happening.
        ensures coming { IfOk result (λ to. coming_of_made answers.now.sites (made_at self.new to) ≡ coming_after (happening_of happening.now) (coming_of_made answers.now.sites (made_at self.old at))) }
        ensures kept { Grows self.old self.new }
    {
        match happening {
            Happening::Called(site, args) => {
                let called = self.called(alloc, answers, at, *site, args)?;
                Ok(called)
            }
            // Nothing else counts as a call that is made.
            _ => Ok(at),
        }
    }
}
