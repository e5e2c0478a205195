//! The calls that pend, found by their numbers, which count from 1 in the order in which calls are made. A *place* is one in the list of pending
//! calls, from 0. A *group* is an open right side of a `<x<`, or left side of a `;`, or the program, with the tokens, calls and groups directly in
//! it. A *step* is the entry into such a side, or into the left side of a `>x>`: a call has the number of the innermost one around it, and `steps`
//! tells by that its group. A call is *cancelled* if the right side of a `<x<` in which it pends goes.
//!
//! In contracts `weight w items` is the sum of w over the items: an equation for every w says which items there are, in any order. `but p w` leaves
//! out those that pass p. `made` is how many calls were made. `ArePlaced` says that `places` leads to each call, `HaveNotes` that each is noted with
//! its due time, if it has one.

ghost use Rattle.std.specs.Prelude.{◌≡◌, ◌+◌, ◌≤◌, ◌<◌, ◌-◌, ◌⊎◌, ◌^◌, [], ℕ, Some, None, true, false, IfSome, IfNone, MatchOption, IfOk, OnOk, OnErr, length, vec_len, slice_get, slice_set};
ghost use Rattle.orc_rules.specs.Timed.{IsIn};
ghost use Rattle.orc_indexes.specs.Same.{weight, but};
ghost use Rattle.orc_tables.specs.PendingCalls.{has_number};
ghost use Rattle.orc_tables.specs.Crowd.{is_listed};
ghost use Rattle.orc_tables.specs.Inside.{stands_inside};
ghost use Rattle.orc_tables.specs.PendingCalls.{due_of, next_due};
ghost use Rattle.orc_indexes.specs.Same.{is_this};
ghost use Rattle.orc_indexes.specs.Dues.{IsNoted};
ghost use Rattle.orc_tables.specs.OpenGroups.{HaveLeft, calls_in};
ghost use Rattle.orc_tables.specs.PendingCalls.{ArePlaced, HasNote, HaveNotes, is_numbered, IsDueBeyond, IsLeastBeyond};
ghost use Rattle.orc_tables.specs.declared.records.Call.{Call as Its};

use crate::groups::Groups;
use crate::records::Call;
use crate::steps::Steps;
use orc_calls::due_time;
use orc_indexes::{Chains, Dues, push_within};
use std::alloc::{AllocError, Global};
use std::marker::Model;

/// The pending calls, in no order, with the number of calls that were made, and notes of when the pending ones are due.
pub struct Pending {
    // The calls that pend, in no order.
    items: Vec<Call>,
    // By the number of a call, less 1: its place in `items`. If the call doesn't pend any more, this may be another call's place.
    places: Vec<usize>,
    // When each call is due, if it ever is. A note may stay when its call is gone, so each is tested.
    dues: Dues,
    // The places in `items` of the calls in each group. They are hints.
    chains: Chains,
}

// Written out, so that a caller's proof sees one call and not the drop of each field.
impl Drop for Pending {
    fn drop(self) {
        let Pending {
            items: _,
            places: _,
            dues: _,
            chains: _,
        } = self;
    }
}

// What contracts see of the table: the calls, how many were made, for how many more there is room, and the notes. By the invariant `places` leads to
// each call, and each call that is ever due is noted with its due time.
impl Model for Pending {
    ghost use Rattle.std.specs.Prelude.{◌-◌, ◌^◌, min, length, vec_len, vec_capacity};
    ghost use Rattle.orc_tables.specs.PendingCalls.{Pendings, ArePlaced, HaveNotes};

    ghost Value = { Pendings };

    ghost view = { λ p. record { items = p.items.items; made = length p.places.items; room = min (vec_capacity p.items - vec_len p.items) (vec_capacity p.places - vec_len p.places); notes = p.dues } };

    ghost invariant = { λ p. ArePlaced p.items.items p.places.items × HaveNotes p.dues p.items.items };
}

// A pending call, and its place in the list of pending calls, from 0.
#[derive(Clone, Copy)]
struct Spot {
    // Where the call is in the list, from 0.
    place: usize,
    call: Call,
}

// When a call is due, in logical time: when it was made, and the delay of its answer. None if the call is never answered.
fn due_of(call: Call) -> Option<u64>
    ensures { result ≡ due_of call }
{
    due_time(call.found, call.made_at)
}

// The place, in the list of pending calls, of the call with this number, by the table `places`; if the call doesn't pend any more, the answer may be
// any place. None for 0 and for a number that no call was given.
fn place_at(places: &Vec<usize>, number: u64) -> Option<usize>
    ensures there { IfSome result (λ k. (1 ≤ number) × (slice_get places.now.items (number - 1) ≡ Some k)) }
    ensures none { IfNone result (1 ≤ number → slice_get places.now.items (number - 1) ≡ None) }
{
    // Numbers count from 1, so 0 is no call's.
    if number == 0 {
        return None;
    }
    match places.get((number - 1) as usize) {
        Some(place) => Some(*place),
        None => None,
    }
}

// Writes into `places` that the call with this number, 1 at least, is at `place` in the list of pending calls. If no call was given the number,
// nothing changes.
fn set_place(places: &mut Vec<usize>, number: u64, place: usize)
    requires { 1 ≤ number }
    ensures { places.new.items ≡ slice_set places.old.items (number - 1) place }
{
    if let Some(slot) = places.get_mut((number - 1) as usize) {
        *slot = place;
    }
}

// The call at a place of the list of pending calls, from 0; None past the end.
fn call_at(items: &Vec<Call>, place: usize) -> Option<Call>
    ensures there { IfSome result (λ c. slice_get items.now.items place ≡ Some c) }
    ensures none { IfNone result (slice_get items.now.items place ≡ None) }
{
    match items.get(place) {
        Some(call) => Some(*call),
        None => None,
    }
}

// The call with this number, and its place; None if the call doesn't pend. The clause `none` promises that only if `places` leads to each call
// (`ArePlaced`).
#[inline(always)]
fn find(items: &Vec<Call>, places: &Vec<usize>, number: u64) -> Option<Spot>
    ensures found { IfSome result (λ s. (slice_get items.now.items s.place ≡ Some s.call) × (s.call.number ≡ number)) }
    ensures none { IfNone result (ArePlaced items.now.items places.now.items → (k : ℕ) (c : Its) → slice_get items.now.items k ≡ Some c → c.number ≡ number → ⊥) }
{
    let place = match place_at(places, number) {
        Some(place) => place,
        // None: no call was given this number.
        None => return None,
    };
    let call = match call_at(items, place) {
        Some(call) => call,
        None => return None,
    };
    // The place of a number whose call is gone may be another call's.
    if call.number == number {
        Some(Spot { place, call })
    } else {
        None
    }
}

// Removes the call at this place of `items`, the list of pending calls, and gives that call; the last one takes its place. `places` leads to each
// call before and after (`ArePlaced`), so that calls are found by their numbers. Those before it stay where they are (`before`), so a loop can go on.
#[inline(always)]
fn remove_at(
    items: &mut Vec<Call>,
    places: &mut Vec<usize>,
    chains: &mut Chains,
    place: usize,
) -> Call
    requires placed { ArePlaced items.old.items places.old.items }
    requires there { place < vec_len items.old }
    ensures call { slice_get items.old.items place ≡ Some result }
    ensures len { vec_len items.new + 1 ≡ vec_len items.old }
    ensures before { (k : ℕ) (c : Its) → k < place → slice_get items.new.items k ≡ Some c → slice_get items.old.items k ≡ Some c }
    ensures placed { ArePlaced items.new.items places.new.items }
    ensures made { length places.new.items ≡ length places.old.items }
    ensures rest { (w : Its → ℕ) → weight w items.new.items + w result ≡ weight w items.old.items }
    ensures others { (c : Its) → IsIn c items.new.items → IsIn c items.old.items × (c.number ≡ result.number → ⊥) }
{
    // The last call comes to `place`.
    let call = items.swap_remove(place);
    // `chains` lists the places of a group's calls: the place goes, and the last place becomes `place`. The list of calls is shorter by one now, so
    // its length is where the last call was.
    chains.swap_take(place, items.len());
    match call_at(items, place) {
        // The removed call was the last itself.
        None => call,
        // The last call is at `place` now: `places` has to lead there.
        Some(moved) => {
            set_place(places, moved.number, place);
            call
        }
    }
}

// Takes the note of when this call is due out of `dues`, if the call is ever due. Other calls keep their notes.
#[inline(always)]
fn forget(dues: &mut Dues, call: Call)
    ensures { (t k : ℕ) → IsNoted dues.old t k → IsNoted dues.new t k ⊎ (k ≡ call.number) }
{
    if let Some(time) = due_of(call) {
        dues.forget(time, call.number);
    }
}

// Removes the calls inside the right side of a `<x<`, whose cell has the number `cell`, at any depth, from the lists and from their groups. The
// function looks at each call. `placed` and `noted` ask and promise that calls are found by number, and that each is noted with its due time.
fn drop_inside(
    items: &mut Vec<Call>,
    places: &mut Vec<usize>,
    dues: &mut Dues,
    chains: &mut Chains,
    groups: &mut Groups,
    steps: &Steps,
    cell: u64,
)
    requires placed { ArePlaced items.old.items places.old.items }
    requires noted { HaveNotes dues.old items.old.items }
    ensures placed { ArePlaced items.new.items places.new.items }
    ensures noted { HaveNotes dues.new items.new.items }
    ensures made { length places.new.items ≡ length places.old.items }
    ensures rest { (w : Its → ℕ) → weight w items.new.items ≡ weight (but (λ (k : Its). stands_inside cell steps.now.items k.step) w) items.old.items }
    ensures groups { groups.new.items ≡ groups.old.items }
    ensures sizes { HaveLeft groups.old.sizes groups.new.sizes (calls_in steps.now.items items.old.items) (calls_in steps.now.items items.new.items) }
{
    // The place that is looked at.
    let mut i = 0;
    while i < items.len() {
        let step = items[i].step;
        if steps.is_inside(step, cell) {
            let gone = remove_at(items, places, chains, i);
            forget(dues, gone);
            // The group that the call was in has one member less.
            groups.leave(steps.group_at(gone.step));
            // The last call has come to place `i`, and is looked at next.
        } else {
            i += 1;
        }
    }
}

// Whether the call with this number pends and is due at this time. `places` has to lead to each call (`ArePlaced`), or a call could be missed.
#[inline(always)]
fn is_due(items: &Vec<Call>, places: &Vec<usize>, time: u64, number: u64) -> bool
    requires { ArePlaced items.now.items places.now.items }
    ensures due { result ≡ true → (c : Its) × IsIn c items.now.items × (c.number ≡ number) × (due_of c ≡ Some time) }
    ensures other { result ≡ false → (c : Its) → IsIn c items.now.items → c.number ≡ number → due_of c ≡ Some time → ⊥ }
{
    match find(items, places, number) {
        None => false,
        // The call pends, but its due time may differ from that of a note.
        Some(spot) => match due_of(spot.call) {
            // The call is never due: it pends until it is cancelled.
            None => false,
            Some(due) => due == time,
        },
    }
}

// The least due time of the pending calls; None if none is ever due. The notes in `dues` are looked at by time. Those before the answer whose calls
// are gone are dropped, so the loop ends. The clauses ask that `places` leads to each call, and that each call is noted with its due time: else one
// could be missed.
fn next_due(items: &Vec<Call>, places: &Vec<usize>, dues: &mut Dues) -> Option<u64>
    requires placed { ArePlaced items.now.items places.now.items }
    requires noted { HaveNotes dues.old items.now.items }
    ensures due { result ≡ next_due items.now.items }
    ensures noted { HaveNotes dues.new items.now.items }
{
    // The earliest note that is left: a time, and the number of a call.
    while let Some((time, number)) = dues.first() {
        // The note's call still pends: its time is the least.
        if is_due(items, places, time, number) {
            return Some(time);
        }
        dues.forget(time, number);
    }
    None
}

// The least number over `beyond` whose call is due at exactly this time; None if there is none. Notes in between whose calls are gone are dropped, so
// the loop ends. The clauses ask that `places` leads to each call, and that each call is noted with its due time; `fits` that `beyond + 1` doesn't
// overflow.
#[inline(always)]
fn due_beyond(
    items: &Vec<Call>,
    places: &Vec<usize>,
    dues: &mut Dues,
    time: u64,
    beyond: u64,
) -> Option<u64>
    requires placed { ArePlaced items.now.items places.now.items }
    requires noted { HaveNotes dues.old items.now.items }
    requires fits { beyond + 1 < 2 ^ 64 }
    ensures due { MatchOption result ((k : ℕ) → IsDueBeyond items.now.items beyond time k → ⊥) (IsLeastBeyond items.now.items beyond time) }
    ensures noted { HaveNotes dues.new items.now.items }
{
    // The least number over `beyond` that is noted with this time.
    while let Some(number) = dues.first_at(time, beyond + 1) {
        // The note's call still pends: its number is the least.
        if is_due(items, places, time, number) {
            return Some(number);
        }
        dues.forget(time, number);
    }
    None
}

impl Pending {
    /// No calls, and none made. The error is refused memory.
    pub fn begin(alloc: Global) -> Result<Pending, AllocError>
        ensures items { IfOk result (λ p. p.items ≡ []) }
        ensures made { IfOk result (λ p. p.made ≡ 0) }
    {
        // The lists of the calls of each group, which are only hints.
        let chains = Chains::begin(alloc)?;
        Ok(Pending {
            items: Vec::new(alloc),
            places: Vec::new(alloc),
            dues: Dues::new(alloc),
            chains,
        })
    }

    /// How many calls pend: they were made and have no answer yet.
    pub fn len(&self) -> usize
        ensures { result ≡ length self.now.items }
    {
        self.items.len()
    }

    /// The number that the next call gets in the journal; the first call gets 1.
    pub fn next_number(&self) -> u64
        ensures { result ≡ self.now.made + 1 }
    {
        // `places` has an item for each number that was given out. A slice has fewer than 2^63 items, so one more fits.
        let places = self.places.as_slice();
        places.len() as u64 + 1
    }

    /// The pending call with this number, its number in the journal, from 1. None if no such call pends.
    #[inline(always)]
    pub fn get(&self, number: u64) -> Option<Call>
        ensures { MatchOption result (weight (has_number number) self.now.items ≡ 0) (λ c. IsIn c self.now.items × (c.number ≡ number)) }
    {
        match find(&self.items, &self.places, number) {
            None => None,
            Some(spot) => Some(spot.call),
        }
    }

    /// Makes room for a call, and notes when it is due, which takes memory, too. The error is refused memory. The calls stay either way: a note whose
    /// call isn't added after all is dropped by later searches.
    pub fn reserve(&mut self, call: Call) -> Result<(), AllocError>
        ensures items { self.new.items ≡ self.old.items }
        ensures made { self.new.made ≡ self.old.made }
        ensures room { OnOk result (1 ≤ self.new.room) }
        ensures noted { OnOk result (HasNote self.new.notes call) }
    {
        self.items.try_reserve(1)?;
        self.places.try_reserve(1)?;
        self.chains.reserve()?;
        // A call that is never answered has no due time, and no note.
        if let Some(time) = due_of(call) {
            self.dues.note(time, call.number)?;
        }
        Ok(())
    }

    /// Adds a call, for which `reserve` was called; its number has to be `next_number`. `group` is the number of the group in which the call pends, a
    /// hint for later searches: it is the caller who counts the call as a member there.
    pub fn add(&mut self, call: Call, group: u32)
        requires number { call.number ≡ self.old.made + 1 }
        requires room { 1 ≤ self.old.room }
        requires noted { HasNote self.old.notes call }
        ensures made { self.new.made ≡ self.old.made + 1 }
        ensures added { (w : Its → ℕ) → weight w self.new.items ≡ weight w self.old.items + w call }
    {
        // The call comes last: its place is the length before.
        let place = self.items.len();
        push_within(&mut self.items, call);
        push_within(&mut self.places, place);
        // Notes for later searches that this place has a call of this group.
        self.chains.put(place, group);
    }

    /// Makes room for the number of a call that won't pend, since it is answered at once. The error is refused memory. The calls stay either way.
    #[inline(always)]
    pub fn reserve_number(&mut self) -> Result<(), AllocError>
        ensures items { self.new.items ≡ self.old.items }
        ensures made { self.new.made ≡ self.old.made }
        ensures room { OnOk result (1 ≤ self.new.room) }
    {
        // `room` counts both lists, though only `places` is to grow.
        self.items.try_reserve(1)?;
        self.places.try_reserve(1)?;
        Ok(())
    }

    /// Gives the next number to a call that doesn't pend, since it was answered at once. There has to be room (`reserve_number`).
    pub fn skip_number(&mut self)
        requires room { 1 ≤ self.old.room }
        ensures items { self.new.items ≡ self.old.items }
        ensures made { self.new.made ≡ self.old.made + 1 }
    {
        // No pending call has this number, so the place 0 is never used.
        push_within(&mut self.places, 0);
    }

    /// Gives the next `count` numbers to calls that don't pend: those of a sub-run (a call of a definition that was run by itself), all answered. The
    /// error is refused memory, and then nothing changes.
    pub fn skip_numbers(&mut self, count: u64) -> Result<(), AllocError>
        ensures items { self.new.items ≡ self.old.items }
        ensures made { OnOk result (self.new.made ≡ self.old.made + count) }
        ensures refused { OnErr result (self.new.made ≡ self.old.made) }
    {
        let Some(len) = self.places.len().checked_add(count as usize) else {
            // No memory has room for so many.
            return Err(AllocError);
        };
        // No pending call has these numbers, so the places 0 are never used.
        self.places.resize(len, 0)
    }

    /// Removes the pending call with this number, and gives it; None, and nothing changes, where no such call pends. The number stays given out
    /// (`made`).
    #[inline(always)]
    pub fn take(&mut self, number: u64) -> Option<Call>
        ensures made { self.new.made ≡ self.old.made }
        ensures taken { (w : Its → ℕ) → weight w self.new.items ≡ weight (but (is_numbered number) w) self.old.items }
        ensures call { MatchOption result (weight (has_number number) self.old.items ≡ 0) (λ c. IsIn c self.old.items × (c.number ≡ number)) }
        ensures one { (c : Its) → IsIn c self.old.items → c.number ≡ number → (w : Its → ℕ) → weight w self.new.items + w c ≡ weight w self.old.items }
    {
        match find(&self.items, &self.places, number) {
            None => None,
            Some(spot) => {
                let call = remove_at(
                    &mut self.items,
                    &mut self.places,
                    &mut self.chains,
                    spot.place,
                );
                forget(&mut self.dues, call);
                Some(call)
            }
        }
    }

    /// Writes the places, in the list of pending calls, of the calls in the group with this number over `places`, each once. They are hints: some may
    /// be missing or wrong, so the caller tests each.
    pub(crate) fn list(&self, group: u32, places: &mut Vec<usize>)
        ensures once { (k : ℕ) → weight (is_this k) places.new.items ≤ 1 }
    {
        self.chains.list(group, places);
    }

    /// The calls that pend, in no order. An item's index is its place.
    pub(crate) fn items(&self) -> &Vec<Call>
        ensures { result.now.items ≡ self.now.items }
    {
        &self.items
    }

    /// Removes the calls inside the right side of a `<x<`, whose cell has the number `cell`, at any depth, from the table and from their groups. The
    /// function looks at each call.
    pub(crate) fn drop_inside(&mut self, groups: &mut Groups, steps: &Steps, cell: u64)
        ensures made { self.new.made ≡ self.old.made }
        ensures rest { (w : Its → ℕ) → weight w self.new.items ≡ weight (but (λ (k : Its). stands_inside cell steps.now.items k.step) w) self.old.items }
        ensures groups { groups.new.items ≡ groups.old.items }
        ensures sizes { HaveLeft groups.old.sizes groups.new.sizes (calls_in steps.now.items self.old.items) (calls_in steps.now.items self.new.items) }
    {
        drop_inside(
            &mut self.items,
            &mut self.places,
            &mut self.dues,
            &mut self.chains,
            groups,
            steps,
            cell,
        );
    }

    /// Removes the calls with these numbers, which have to be those inside the right side of a `<x<`, whose cell has the number `cell`, from the
    /// table and from their groups. `steps` tells in which group a call is.
    pub(crate) fn drop_listed(
        &mut self,
        groups: &mut Groups,
        steps: &Steps,
        cell: u64,
        numbers: &Vec<u64>,
    )
        requires listed { (c : Its) → IsIn c self.old.items → is_listed numbers.now.items c.number ≡ stands_inside cell steps.now.items c.step }
        ensures made { self.new.made ≡ self.old.made }
        ensures rest { (w : Its → ℕ) → weight w self.new.items ≡ weight (but (λ (k : Its). stands_inside cell steps.now.items k.step) w) self.old.items }
        ensures groups { groups.new.items ≡ groups.old.items }
        ensures sizes { HaveLeft groups.old.sizes groups.new.sizes (calls_in steps.now.items self.old.items) (calls_in steps.now.items self.new.items) }
    {
        for number in numbers {
            // `listed` speaks of calls that pend: any other number is passed over.
            if let Some(gone) = self.take(*number) {
                groups.leave(steps.group_at(gone.step));
            }
        }
    }

    /// The least due time of the pending calls, in logical time; None if none is ever due. Notes whose calls are gone are dropped, up to the first
    /// one whose call pends: hence `&mut`. The calls stay.
    pub fn next_due(&mut self) -> Option<u64>
        ensures items { self.new.items ≡ self.old.items }
        ensures made { self.new.made ≡ self.old.made }
        ensures due { result ≡ next_due self.old.items }
    {
        next_due(&self.items, &self.places, &mut self.dues)
    }

    /// The least number over `beyond` whose call is due at exactly this time; None if there is none. With `beyond` 0 it is the first such call. Notes
    /// in between whose calls are gone are dropped: hence `&mut`. The calls stay.
    #[inline(always)]
    pub fn due_beyond(&mut self, time: u64, beyond: u64) -> Option<u64>
        ensures items { self.new.items ≡ self.old.items }
        ensures made { self.new.made ≡ self.old.made }
        ensures due { MatchOption result ((k : ℕ) → IsDueBeyond self.old.items beyond time k → ⊥) (IsLeastBeyond self.old.items beyond time) }
    {
        // No number over `beyond` was given out. With the test `beyond + 1` doesn't overflow below.
        if beyond >= self.places.len() as u64 {
            return None;
        }
        due_beyond(&self.items, &self.places, &mut self.dues, time, beyond)
    }
}
