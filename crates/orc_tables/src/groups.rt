//! The open groups, each found by its number, and how many members each group has. A *step* is the entry into the right side of a `<x<`, or into the
//! left side of a `;` or a `>x>`; a group's `outer` is the number of the innermost step around the whole `f <x< g` or `f ; g`, 0 for none.
//!
//! In contracts `weight w items` is the sum of w over the items: an equation for every w says which items there are, in any order. `is_this i n` is 1
//! if both numbers are the same, else 0. `size_of sizes i` is how many members number i has. `LeadTo` says that `places` leads to each group.

ghost use Rattle.std.specs.Prelude.{◌≡◌, [], ◌∷◌, ◌++◌, ◌+◌, ◌-◌, ◌^◌, ◌≤◌, ◌<◌, ℕ, Some, cond, length, nat_eq, IfNone, IfOk, OnOk, OnErr, MatchOption, slice_get, slice_set, vec_len, vec_capacity};
ghost use Rattle.orc_rules.specs.Timed.{IsIn};
ghost use Rattle.orc_rules.specs.declared.limits.TheConstants.{MOST_GROUPS};
ghost use Rattle.orc_indexes.specs.Same.{weight, None};
ghost use Rattle.orc_indexes.specs.Same.{is_this};
ghost use Rattle.orc_tables.specs.OpenGroups.{IsOpen, LeadTo, is_named, is_none, empty_in, size_of};
ghost use Rattle.orc_tables.specs.declared.records.Group.{Group as Its};

use crate::records::{Group, Side};
use orc_indexes::{Chains, push_within, reserve};
use std::alloc::{AllocError, Global};
use std::marker::Model;

/// The open groups, found by their numbers. A *group* is a right side of a `<x<` or a left side of a `;` that runs; its *members* are the tokens,
/// pending calls and groups directly in it. Number 0 is the program's own group, which has no record here. The number of a group that is gone is
/// given out again, so that all numbers stay below `MOST_GROUPS`.
pub struct Groups {
    // The open groups, in no order.
    items: Vec<Group>,
    // By number, 0 included: where its group is among the items, if it is open.
    places: Vec<usize>,
    // By number, 0 included: how many members the group has.
    sizes: Vec<u32>,
    // By number: the step into the side of the group, as `open` was told. A hint, which callers test.
    hints: Vec<usize>,
    // The numbers that were given out and that no open group has now; the last one is given out next.
    free: Vec<u32>,
    // The places in `items` of the groups in each group. They are hints: some may be missing or wrong.
    chains: Chains,
    // How many of the open groups have no members.
    empty: usize,
}

// Written out, so that a caller's proof sees one call and not the drop of each field.
impl Drop for Groups {
    fn drop(self) {
        let Groups {
            items: _,
            places: _,
            sizes: _,
            hints: _,
            free: _,
            chains: _,
            empty: _,
        } = self;
    }
}

// What contracts see of the table: the groups, the sizes by number, and for how many more groups there is room. By the invariant `places` leads to
// each group, each number is one group's or free, and `empty` is right.
impl Model for Groups {
    ghost use Rattle.std.specs.Prelude.{◌≡◌, ◌-◌, ◌+◌, ◌≤◌, min, length, vec_len, vec_capacity};
    ghost use Rattle.orc_tables.specs.OpenGroups.{GroupTable, AreNumbered, empty_in};

    ghost Value = { GroupTable };

    ghost view = { λ g. record { items = g.items.items; sizes = g.sizes.items; room = min (vec_capacity g.items - vec_len g.items) (vec_len g.free) } };

    ghost invariant = { λ g. AreNumbered g.items.items g.places.items g.free.items × (length g.sizes.items ≡ length g.places.items) × (length g.places.items ≤ vec_capacity g.free + 1) × (g.empty ≡ empty_in g.sizes.items g.items.items) };
}

// How many members the group with this number has, by the list `sizes`; 0 for a number that was never given out.
#[inline(always)]
fn size_at(sizes: &Vec<u32>, number: u32) -> u32
    ensures { result ≡ size_of sizes.now.items number }
{
    match sizes.get(number as usize) {
        Some(size) => *size,
        None => 0,
    }
}

// Writes into `sizes` how many members the group with this number has. For a number that was never given out nothing changes.
#[inline(always)]
fn set_size(sizes: &mut Vec<u32>, number: u32, size: u32)
    ensures { sizes.new.items ≡ slice_set sizes.old.items number size }
{
    if let Some(slot) = sizes.get_mut(number as usize) {
        *slot = size;
    }
}

// What an open group with this number adds to `empty`, the count of open groups without members: 1 if it has no members, else 0.
fn none_at(sizes: &Vec<u32>, number: u32) -> usize
    ensures { result ≡ is_none (size_of sizes.now.items number) }
{
    match size_at(sizes, number) {
        0 => 1,
        _ => 0,
    }
}

// Writes into `places` where the group with this number is in the list of open groups, from 0. For a number that was never given out nothing changes.
fn set_place(places: &mut Vec<usize>, number: u32, place: usize)
    ensures { places.new.items ≡ slice_set places.old.items number place }
{
    if let Some(slot) = places.get_mut(number as usize) {
        *slot = place;
    }
}

// Where the group with this number is in the list of open groups, from 0, if it is open; else any place. None for a number that was never given out.
fn place_at(places: &Vec<usize>, number: u32) -> Option<usize>
    ensures { result ≡ slice_get places.now.items number }
{
    places.get(number as usize).copied()
}

// The group at a place of the list of open groups, from 0; None past the end.
fn group_in(items: &Vec<Group>, place: usize) -> Option<Group>
    ensures { result ≡ slice_get items.now.items place }
{
    items.get(place).copied()
}

// Where the open group with this number is among the items, from 0; None if no open group has this number. `lead` asks that `places` leads to each
// group: else one could be missed.
fn place_of(items: &Vec<Group>, places: &Vec<usize>, number: u32) -> Option<usize>
    requires lead { LeadTo items.now.items places.now.items }
    ensures found { MatchOption result ((k : ℕ) (g : Its) → slice_get items.now.items k ≡ Some g → g.number ≡ number → ⊥) (λ k. (g : Its) × (slice_get items.now.items k ≡ Some g) × (g.number ≡ number)) }
{
    let place = place_at(places, number)?;
    let group = group_in(items, place)?;
    // The place of a number that is free may be another group's.
    if group.number == number {
        Some(place)
    } else {
        None
    }
}

// How many open groups have this number: 0 or 1, and 0 for number 0. `lead` asks that `places` leads to each group, `once` that no two have one
// number. Not inlined, since only a group's first join and its last leave need it.
#[cold]
#[inline(never)]
fn count_at(items: &Vec<Group>, places: &Vec<usize>, number: u32) -> usize
    requires lead { LeadTo items.now.items places.now.items }
    requires once { weight (is_named number) items.now.items ≤ 1 }
    ensures { result ≡ weight (is_named number) items.now.items }
{
    match place_of(items, places, number) {
        Some(_) => 1,
        None => 0,
    }
}

// If `asked`, how many open groups have this number, 0 or 1; else 0. `join` subtracts that from `empty`, the count of open groups without members,
// and `leave` adds it: so the program's own group isn't counted.
#[inline(always)]
fn count_if(asked: bool, items: &Vec<Group>, places: &Vec<usize>, number: u32) -> usize
    requires lead { LeadTo items.now.items places.now.items }
    requires once { weight (is_named number) items.now.items ≤ 1 }
    ensures { result ≡ cond asked (weight (is_named number) items.now.items) 0 }
{
    if asked {
        count_at(items, places, number)
    } else {
        0
    }
}

// Adds a number that was never given out, with an item in each list by numbers, and puts it into `free`, the list of the numbers that no open group
// has. If memory is refused, the contents of the lists stay. `none` asks that no number is free, `few` that one more is below `MOST_GROUPS`.
fn add_number(
    places: &mut Vec<usize>,
    sizes: &mut Vec<u32>,
    hints: &mut Vec<usize>,
    free: &mut Vec<u32>,
) -> Result<(), AllocError>
    requires some { 1 ≤ vec_len places.old }
    requires few { vec_len places.old < MOST_GROUPS }
    requires none { vec_len free.old ≡ 0 }
    ensures places { OnOk result (places.new.items ≡ places.old.items ++ 0 ∷ []) }
    ensures sizes { OnOk result (sizes.new.items ≡ sizes.old.items ++ 0 ∷ []) }
    ensures free { OnOk result (free.new.items ≡ vec_len places.old ∷ []) }
    ensures room { OnOk result (vec_len places.new ≤ vec_capacity free.new + 1) }
    ensures capacity { vec_capacity free.old ≤ vec_capacity free.new }
    ensures same { OnErr result ((places.new.items ≡ places.old.items) × (sizes.new.items ≡ sizes.old.items) × (free.new.items ≡ free.old.items)) }
{
    reserve(places)?;
    reserve(sizes)?;
    reserve(hints)?;
    let number = places.len();
    // Room for the numbers 1 to `number`, so that `remove` can put each back without asking for memory. None is in the list now.
    if free.try_reserve(number).is_err() {
        return Err(AllocError);
    }
    push_within(free, number as u32);
    // The zeros stand for no group yet: `open` writes the place and the hint once it gives the number to one.
    push_within(places, 0);
    push_within(sizes, 0);
    push_within(hints, 0);
    Ok(())
}

// Takes the last number out of `free`, the list of the numbers that no open group has. There has to be one.
fn take_free(free: &mut Vec<u32>) -> u32
    requires { 1 ≤ vec_len free.old }
    ensures taken { free.old.items ≡ free.new.items ++ result ∷ [] }
    ensures capacity { vec_capacity free.new ≡ vec_capacity free.old }
{
    match free.pop() {
        Some(number) => number,
        // Not reached: the caller makes sure that there is a number.
        None => 0,
    }
}

// Removes the group at this place of `items`, the list of open groups, and gives that group; the last one takes its place. `places` leads to each
// group before and after (`lead`), so that groups are found by their numbers. Those before it stay where they are (`before`), so a loop can go on.
fn remove_at(
    items: &mut Vec<Group>,
    places: &mut Vec<usize>,
    chains: &mut Chains,
    place: usize,
) -> Group
    requires lead { LeadTo items.old.items places.old.items }
    requires there { place < vec_len items.old }
    ensures group { slice_get items.old.items place ≡ Some result }
    ensures len { vec_len items.new + 1 ≡ vec_len items.old }
    ensures before { (k : ℕ) (g : Its) → k < place → slice_get items.new.items k ≡ Some g → slice_get items.old.items k ≡ Some g }
    ensures lead { LeadTo items.new.items places.new.items }
    ensures size { length places.new.items ≡ length places.old.items }
    ensures rest { (w : Its → ℕ) → weight w items.new.items + w result ≡ weight w items.old.items }
{
    let group = items.swap_remove(place);
    // `chains` lists the places of the groups in each group: the place goes, and the last place becomes `place`. The list of groups is shorter by one
    // now, so its length is where the last group was.
    chains.swap_take(place, items.len());
    match group_in(items, place) {
        // The removed group was the last itself.
        None => group,
        // The last group is at `place` now: `places` has to lead there.
        Some(moved) => {
            set_place(places, moved.number, place);
            group
        }
    }
}

impl Groups {
    /// No open groups, and no members in the program's own. The error is refused memory.
    pub fn begin(alloc: Global) -> Result<Groups, AllocError>
        ensures items { IfOk result (λ t. t.items ≡ []) }
        ensures sizes { IfOk result (λ t. (i : ℕ) → size_of t.sizes i ≡ 0) }
    {
        let chains = Chains::begin(alloc)?;
        let mut places = Vec::new(alloc);
        let mut sizes = Vec::new(alloc);
        let mut hints = Vec::new(alloc);
        reserve(&mut places)?;
        reserve(&mut sizes)?;
        reserve(&mut hints)?;
        // Number 0 is the program's own group: it has a size, and leads to no item.
        push_within(&mut places, 0);
        push_within(&mut sizes, 0);
        push_within(&mut hints, 0);
        Ok(Groups {
            items: Vec::new(alloc),
            places,
            sizes,
            hints,
            free: Vec::new(alloc),
            chains,
            empty: 0,
        })
    }

    /// How many groups (right sides of a `<x<`, left sides of a `;`) are open, the program's own left out.
    pub fn len(&self) -> usize
        ensures { result ≡ length self.now.items }
    {
        self.items.len()
    }

    /// How many of the open groups have no members (no token, no pending call and no group directly in them), the program's own left out.
    #[inline(always)]
    pub fn empty(&self) -> usize
        ensures { result ≡ empty_in self.now.sizes self.now.items }
    {
        self.empty
    }

    /// The open groups, in no order. An item's index is its place, not its number.
    pub fn items(&self) -> &Vec<Group>
        ensures { result.now.items ≡ self.now.items }
    {
        &self.items
    }

    /// The group at this place among `items`, from 0, which has to be there.
    pub(crate) fn at(&self, place: usize) -> Group
        requires { place < length self.now.items }
        ensures { slice_get self.now.items place ≡ Some result }
    {
        self.items[place]
    }

    /// Writes the places, in the list of open groups, of the groups directly in the group with the number `parent` over `places`, each once. They are
    /// hints: some may be missing or wrong, so the caller tests each.
    pub(crate) fn list(&self, parent: u32, places: &mut Vec<usize>)
        ensures once { (k : ℕ) → weight (is_this k) places.new.items ≤ 1 }
    {
        self.chains.list(parent, places);
    }

    /// How many members (tokens, pending calls and groups directly in it) are counted for the group with this number; 0 for a number that was never
    /// given out.
    #[inline(always)]
    pub fn size(&self, number: u32) -> u32
        ensures { result ≡ size_of self.now.sizes number }
    {
        size_at(&self.sizes, number)
    }

    /// Makes room for one more group. At most 1,022 may be open before (`MOST_GROUPS` less the program's own and the new one). The error is refused
    /// memory. The groups and their sizes stay either way.
    pub fn reserve(&mut self) -> Result<(), AllocError>
        requires few { length self.old.items ≤ 1022 }
        ensures items { self.new.items ≡ self.old.items }
        ensures sizes { (i : ℕ) → size_of self.new.sizes i ≡ size_of self.old.sizes i }
        ensures room { OnOk result (1 ≤ self.new.room) }
    {
        // Room for the group in the list, and for its place in the lists of the groups in each group.
        reserve(&mut self.items)?;
        if self.chains.reserve().is_err() {
            return Err(AllocError);
        }
        // Without a free number each one but 0 is an open group's, so fewer than `MOST_GROUPS` were given out, as `add_number` asks.
        if self.free.len() == 0 {
            add_number(
                &mut self.places,
                &mut self.sizes,
                &mut self.hints,
                &mut self.free,
            )?;
        }
        Ok(())
    }

    /// The step into the side of the group with this number, as `open` was told; 0 for a number that was never given out. The step is a hint: nothing
    /// is promised, and callers test it.
    pub fn hint(&self, number: u32) -> usize {
        match self.hints.get(number as usize) {
            Some(step) => *step,
            None => 0,
        }
    }

    /// Opens a group for `side`, and gives its number, which was free: from 1, below `MOST_GROUPS`. `outer` is the number of the step around the
    /// side's whole term. There has to be room (`reserve`). The sizes stay: it is the caller who counts the group as a member of its parent. `hint`,
    /// the step into the side, and `parent`, the number of the group around this one, only make later searches short.
    pub fn open(&mut self, side: Side, outer: usize, hint: usize, parent: u32) -> u32
        requires room { 1 ≤ self.old.room }
        ensures items { self.new.items ≡ self.old.items ++ record { side = side; outer = outer; number = result } ∷ [] }
        ensures free { (1 ≤ result) × None (λ (g : Its). nat_eq result g.number) self.old.items }
        ensures few { result < MOST_GROUPS }
        ensures sizes { self.new.sizes ≡ self.old.sizes }
    {
        let number = take_free(&mut self.free);
        // The group comes last in the list: its place is the length before.
        let place = self.items.len();
        set_place(&mut self.places, number, place);
        // `hints` is a list by numbers as `places` is, so the same function writes it.
        set_place(&mut self.hints, number, hint);
        push_within(
            &mut self.items,
            Group {
                side,
                outer,
                number,
            },
        );
        // Notes for later searches that this place has a group directly in `parent`.
        self.chains.put(place, parent);
        // The new group may have no members, so it may count as empty. Nothing in this table says that the members of the group that had the number
        // before are gone, so its size is asked.
        self.empty += none_at(&self.sizes, number);
        number
    }

    /// Counts one more member of the group with this number, which is open or the program's own (`open`).
    #[inline(always)]
    pub fn join(&mut self, number: u32)
        requires open { IsOpen self.old.items number }
        requires fits { size_of self.old.sizes number + 1 < 2 ^ 32 }
        ensures items { self.new.items ≡ self.old.items }
        ensures room { self.new.room ≡ self.old.room }
        ensures sizes { (i : ℕ) → size_of self.new.sizes i ≡ size_of self.old.sizes i + is_this i number }
    {
        let size = size_at(&self.sizes, number);
        set_size(&mut self.sizes, number, size + 1);
        // With its first member the group isn't empty any more: if it is open, it leaves the count of the empty ones.
        self.empty -= count_if(size == 0, &self.items, &self.places, number);
    }

    /// Counts one member less of the group with this number, if it has one.
    #[inline(always)]
    pub fn leave(&mut self, number: u32)
        ensures items { self.new.items ≡ self.old.items }
        ensures room { self.new.room ≡ self.old.room }
        ensures sizes { (i : ℕ) → size_of self.new.sizes i ≡ size_of self.old.sizes i - is_this i number }
    {
        let size = size_at(&self.sizes, number);
        set_size(&mut self.sizes, number, size.saturating_sub(1));
        // Without its last member the group is empty: if it is open, it comes to the count of the empty ones.
        self.empty += count_if(size == 1, &self.items, &self.places, number);
    }

    /// Removes the group at this place among `items`, which has to be there; the last one takes its place. The removed group's number is free then.
    /// The sizes stay.
    pub(crate) fn remove(&mut self, place: usize) -> Group
        requires there { place < length self.old.items }
        ensures is { slice_get self.old.items place ≡ Some result }
        ensures before { (k : ℕ) (g : Its) → k < place → slice_get self.new.items k ≡ Some g → slice_get self.old.items k ≡ Some g }
        ensures rest { (w : Its → ℕ) → weight w self.new.items + w result ≡ weight w self.old.items }
        ensures sizes { self.new.sizes ≡ self.old.sizes }
    {
        let group = remove_at(&mut self.items, &mut self.places, &mut self.chains, place);
        // `add_number` has made room in `free` for each number.
        push_within(&mut self.free, group.number);
        // The group isn't open any more, so it doesn't count among the open ones without members.
        self.empty -= none_at(&self.sizes, group.number);
        group
    }

    /// The open group with this number; None if no open group has it, as for 0, the program's own group.
    pub fn get(&self, number: u32) -> Option<Group>
        ensures { MatchOption result ((g : Its) → IsIn g self.now.items → g.number ≡ number → ⊥) (λ g. IsIn g self.now.items × (g.number ≡ number)) }
    {
        // None: no open group has this number.
        let place = place_of(&self.items, &self.places, number)?;
        group_in(&self.items, place)
    }

    /// Removes the open group with this number, and gives it; None, and nothing changes, where no open group has this number. The sizes stay: the
    /// caller counts one member less for the group around it.
    pub fn take(&mut self, number: u32) -> Option<Group>
        ensures group { MatchOption result ((g : Its) → IsIn g self.old.items → g.number ≡ number → ⊥) (λ g. IsIn g self.old.items × (g.number ≡ number)) }
        ensures one { (g : Its) → IsIn g self.old.items → g.number ≡ number → (w : Its → ℕ) → weight w self.new.items + w g ≡ weight w self.old.items }
        ensures none { IfNone result (self.new.items ≡ self.old.items) }
        ensures sizes { self.new.sizes ≡ self.old.sizes }
    {
        // None: no open group has this number.
        let place = place_of(&self.items, &self.places, number)?;
        Some(self.remove(place))
    }
}
