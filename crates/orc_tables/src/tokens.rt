//! The tokens, each in a slot: a place in a list that a token keeps while it lives. A token is *parked* if it is known to wait, and noted with each
//! cell for which it does. A *cell* stands for the x of an opened `f <x< g`: it is bound to the first value of g, or lost if g halts without one. A
//! token's `standing` is a value, or a node in a scope; its `step` is the number of the innermost entry around it into the right side of a `<x<`, or
//! into the left side of a `;` or a `>x>`. A *group* is what runs in a right side of a `<x<`, a left side of a `;`, or the whole program.
//!
//! In contracts `live` are the tokens of the slots that aren't free, and `weight w items` is the sum of w over the items: an equation for every w
//! says which items there are, in any order. `IsHeld slots k t` says that token t is in slot k. `StayParked` says that each token that is known to
//! wait was so before, and has kept its notes; `StayBut` excepts the notes of one cell, `StayWith` the token in one slot.

ghost use Rattle.std.specs.Prelude.{◌≡◌, [], ◌∷◌, ◌+◌, ◌≤◌, ◌<◌, ℕ, true, false, Some, None, length, IfSome, IfNone, IfOk, OnOk, slice_get, slice_set, vec_len, vec_capacity};
ghost use Rattle.orc_rules.specs.Timed.{IsIn};
ghost use Rattle.orc_indexes.specs.Same.{weight};
ghost use Rattle.orc_indexes.specs.Same.{is_this};
ghost use Rattle.orc_indexes.specs.Parking.{is_set, notes_at, IsNoted};
ghost use Rattle.orc_tables.specs.Tokens.{live, IsHeld, StayParked, StayBut, StayWith};
ghost use Rattle.orc_tables.specs.declared.records.Token.{Token as Its};

use crate::records::{Standing, Token};
use orc_indexes::{Chains, Note, Parking, reserve};
use std::alloc::{AllocError, Global};
use std::marker::Model;

/// The tokens in slots. A token marks a part of the program's term that runs, and its serial is its mark in the journal, from 1. A slot whose token
/// has serial 0 is free, and is used again: a token is found by its slot, and its serial tells whether it is still the one that was put there.
pub struct Tokens {
    // The slots, from 0: the token in each, or what `nobody` gives for a free one.
    slots: Vec<Token>,
    // The first of the list of free slots: the slot that became free last, or `NO_SLOT`. The `step` of a free slot names the next slot of that list.
    // It isn't proved that the slots of the list are free, so each is tested when it is taken.
    free: usize,
    // How many slots hold a token.
    count: usize,
    // Which slots hold a parked token (one that is known to wait: its flag is set), and which tokens are noted with each cell, since they wait for
    // it.
    parking: Parking,
    // The slots of the tokens in each group. They are hints: some may be missing or wrong.
    chains: Chains,
}

// Written out, so that a caller's proof sees one call and not the drop of each field.
impl Drop for Tokens {
    fn drop(self) {
        let Tokens {
            slots: _,
            free: _,
            count: _,
            parking: _,
            chains: _,
        } = self;
    }
}

// What contracts see of the table: the slots, for how many more there is room, and the notes of parked tokens. By the invariant `count` is right, and
// a slot whose flag is set holds a token.
impl Model for Tokens {
    ghost use Rattle.std.specs.Prelude.{◌≡◌, ◌-◌, length, vec_len, vec_capacity};
    ghost use Rattle.orc_tables.specs.Tokens.{Slots, AreHeld, live};

    ghost Value = { Slots };

    ghost view = { λ t. record { items = t.slots.items; room = vec_capacity t.slots - vec_len t.slots; parked = t.parking } };

    ghost invariant = { λ t. (t.count ≡ length (live t.slots.items)) × AreHeld t.slots.items t.parking.flags };
}

// No slot has this number: it ends the list of free slots.
const NO_SLOT: usize = usize::MAX;

// What a free slot holds: the serial 0, and in `step` the next slot of the list of free ones, `free`. The `standing` of a free slot is never read.
fn nobody(free: usize) -> Token
    ensures { result.serial ≡ 0 }
{
    Token {
        serial: 0,
        standing: Standing::At(0, 0),
        step: free,
    }
}

// Writes `token` into the slot with this number, if there is such a slot; else nothing changes.
#[inline(always)]
fn put(slots: &mut Vec<Token>, slot: usize, token: Token)
    ensures items { slots.new.items ≡ slice_set slots.old.items slot token }
    ensures len { vec_len slots.new ≡ vec_len slots.old }
    ensures capacity { vec_capacity slots.new ≡ vec_capacity slots.old }
{
    if let Some(place) = slots.get_mut(slot) {
        *place = token;
    }
}

// Takes the slot that became free last from the list of free ones, and gives it; None if no slot is free. `free` is the first of that list, and
// becomes the next one.
#[inline(always)]
fn free_slot(slots: &Vec<Token>, free: &mut usize) -> Option<usize>
    ensures { IfSome result (λ slot. (free : Its) × (slice_get slots.now.items slot ≡ Some free) × (free.serial ≡ 0)) }
{
    let slot = *free;
    match slots.get(slot) {
        // The slot is free: its `step` names the next free slot.
        Some(token) if token.serial == 0 => {
            *free = token.step;
            Some(slot)
        }
        // There is no free slot (`NO_SLOT`), or the list is wrong; nothing changes.
        _ => None,
    }
}

// Whether the token of a note (a slot and a serial) is still in its slot. The slot may be free by now, or hold another token.
fn is_there(slots: &Vec<Token>, note: Note) -> bool
    ensures { result ≡ false → (t : Its) → slice_get slots.now.items note.slot ≡ Some t → t.serial ≡ note.serial → ⊥ }
{
    match slots.get(note.slot) {
        Some(token) => token.serial == note.serial,
        None => false,
    }
}

// Clears the flag that says that a note's token is parked, if that token is still in its slot. The clauses promise that no flag is newly set, and
// that the note's token isn't parked any more.
fn rouse(slots: &Vec<Token>, parking: &mut Parking, note: Note)
    ensures flags { (k : ℕ) → is_set parking.new.flags k ≡ true → is_set parking.old.flags k ≡ true }
    ensures gone { (t : Its) → slice_get slots.now.items note.slot ≡ Some t → t.serial ≡ note.serial → is_set parking.new.flags note.slot ≡ true → ⊥ }
    ensures notes { parking.new.notes ≡ parking.old.notes }
{
    if !is_there(slots, note) {
        return;
    }
    parking.clear(note.slot);
}

// Takes out all notes of the cell with this number, and clears the flags of the tokens that the notes name: these tokens aren't parked (known to
// wait) any more. Notes of other cells stay.
fn wake(slots: &Vec<Token>, parking: &mut Parking, cell: u64)
    ensures flags { (k : ℕ) → is_set parking.new.flags k ≡ true → is_set parking.old.flags k ≡ true }
    ensures gone { (k : ℕ) (t : Its) → IsHeld slots.now.items k t → is_set parking.new.flags k ≡ true → IsNoted parking.old cell k t.serial → ⊥ }
    ensures others { (c : ℕ) → (c ≡ cell → ⊥) → notes_at parking.new.notes c ≡ notes_at parking.old.notes c }
{
    while let Some(note) = parking.take(cell) {
        rouse(slots, parking, note);
    }
}

// Notes the token with this serial in this slot with each of these cells, for which it waits. Flags stay. The error is refused memory: then some of
// the notes may be there.
fn note_all(
    parking: &mut Parking,
    slot: usize,
    serial: u64,
    cells: &Vec<u64>,
) -> Result<(), AllocError>
    ensures flags { parking.new.flags ≡ parking.old.flags }
    ensures kept { (c k n : ℕ) → IsNoted parking.old c k n → IsNoted parking.new c k n }
    ensures noted { OnOk result ((c : ℕ) → IsIn c cells.now.items → IsNoted parking.new c slot serial) }
{
    for cell in cells {
        parking.note(*cell, Note { slot, serial })?;
    }
    Ok(())
}

impl Tokens {
    /// One token, which is put into slot 0, in the program's own group; it isn't parked. The error is refused memory.
    pub fn begin(alloc: Global, token: Token) -> Result<Tokens, AllocError>
        requires { 1 ≤ token.serial }
        ensures items { IfOk result (λ t. t.items ≡ token ∷ []) }
        ensures parked { IfOk result (λ t. t.parked ≡ record { flags = []; notes = [] }) }
    {
        let mut chains = Chains::begin(alloc)?;
        // Slot 0 has a token of group 0, the program's own.
        chains.put(0, 0);
        let mut slots = Vec::new(alloc);
        if slots.push(token).is_err() {
            return Err(AllocError);
        }
        Ok(Tokens {
            slots,
            free: NO_SLOT,
            count: 1,
            parking: Parking::new(alloc),
            chains,
        })
    }

    /// The content of each slot, from slot 0 on; a slot whose serial is 0 is free.
    pub fn slots(&self) -> &[Token]
        ensures { result.now ≡ self.now.items }
    {
        &self.slots
    }

    /// How many tokens there are: slots that aren't free.
    #[inline(always)]
    pub fn len(&self) -> usize
        ensures { result ≡ length (live self.now.items) }
    {
        self.count
    }

    /// How many slots there are, the free ones too.
    pub(crate) fn slot_count(&self) -> usize
        ensures { result ≡ length self.now.items }
    {
        self.slots.len()
    }

    /// What is in the slot with this number, from 0, which has to be there; the serial is 0 if the slot is free.
    #[inline(always)]
    pub(crate) fn at(&self, slot: usize) -> Token
        requires { slot < length self.now.items }
        ensures { slice_get self.now.items slot ≡ Some result }
    {
        self.slots[slot]
    }

    /// The token with this serial (its mark in the journal), which isn't 0, if it is in this slot; None if the token isn't there any more.
    #[inline(always)]
    pub fn get(&self, slot: usize, serial: u64) -> Option<Token>
        requires { 1 ≤ serial }
        ensures held { IfSome result (λ t. IsHeld self.now.items slot t × (t.serial ≡ serial)) }
        ensures none { IfNone result ((t : Its) → IsHeld self.now.items slot t → t.serial ≡ serial → ⊥) }
    {
        match self.slots.get(slot) {
            Some(token) if token.serial == serial => Some(*token),
            // The slot is free, holds another token, or isn't there.
            _ => None,
        }
    }

    /// The token in this slot; None if the slot is free or isn't there.
    #[inline(always)]
    pub fn held(&self, slot: usize) -> Option<Token>
        ensures held { IfSome result (λ t. IsHeld self.now.items slot t) }
        ensures none { IfNone result ((t : Its) → IsHeld self.now.items slot t → ⊥) }
    {
        match self.slots.get(slot) {
            Some(token) if token.serial > 0 => Some(*token),
            _ => None,
        }
    }

    /// Makes room for one more token. The error is refused memory. The tokens stay either way.
    pub fn reserve(&mut self) -> Result<(), AllocError>
        ensures items { self.new.items ≡ self.old.items }
        ensures parked { self.new.parked ≡ self.old.parked }
        ensures room { OnOk result (1 ≤ self.new.room) }
    {
        reserve(&mut self.slots)?;
        self.chains.reserve()
    }

    /// Puts a token into a free slot or a new one, and gives the slot; `group` is the number of the token's group, a hint for later searches. There
    /// has to be room (`reserve`). `parked` promises that no token is known to wait afterwards that wasn't before.
    #[inline(always)]
    pub fn add(&mut self, token: Token, group: u32) -> usize
        requires room { 1 ≤ self.old.room }
        requires serial { 1 ≤ token.serial }
        ensures held { IsHeld self.new.items result token }
        ensures others { (k : ℕ) (t : Its) → IsHeld self.old.items k t → IsHeld self.new.items k t }
        ensures added { (w : Its → ℕ) → weight w (live self.new.items) ≡ weight w (live self.old.items) + w token }
        ensures parked { StayParked self.old self.new }
    {
        // The slot that the token gets if none is free: one behind the last.
        let end = self.slots.len();
        self.count += 1;
        match free_slot(&self.slots, &mut self.free) {
            Some(slot) => {
                put(&mut self.slots, slot, token);
                self.chains.put(slot, group);
                slot
            }
            None => {
                self.slots.push_reserved(token);
                self.chains.put(end, group);
                end
            }
        }
    }

    /// Replaces the token in this slot, which has to hold one, by another one; `group` is the number of the new token's group, a hint for later
    /// searches. The new token isn't known to wait.
    #[inline(always)]
    pub fn replace(&mut self, slot: usize, token: Token, group: u32)
        requires held { (t : Its) × IsHeld self.old.items slot t }
        requires serial { 1 ≤ token.serial }
        ensures items { self.new.items ≡ slice_set self.old.items slot token }
        ensures room { self.new.room ≡ self.old.room }
        ensures parked { StayParked self.old self.new }
    {
        // The new token isn't parked, whatever the old one was.
        self.parking.clear(slot);
        put(&mut self.slots, slot, token);
        self.chains.put(slot, group);
    }

    /// Writes the slots of the tokens in the group with this number over `slots`, each once. They are hints, since nothing else is proved of chains:
    /// some may be missing, as where memory is refused, or wrong. So the caller tests each slot, and compares how many members it has found with the
    /// group's size.
    pub(crate) fn list(&self, group: u32, slots: &mut Vec<usize>)
        ensures once { (k : ℕ) → weight (is_this k) slots.new.items ≤ 1 }
    {
        self.chains.list(group, slots);
    }

    /// Removes the token in this slot, which has to hold one. The slot is free then. A token that is parked afterwards (known to wait) was so before,
    /// and has kept its notes: that is the clause `parked`.
    #[inline(always)]
    pub fn remove(&mut self, slot: usize)
        requires { (t : Its) × IsHeld self.old.items slot t }
        ensures items { (free : Its) × (free.serial ≡ 0) × (self.new.items ≡ slice_set self.old.items slot free) }
        ensures room { self.new.room ≡ self.old.room }
        ensures parked { StayParked self.old self.new }
    {
        // No flag says any more that the slot's token is parked.
        self.parking.clear(slot);
        // The slot comes first in the list of free slots, and names the one that was first before.
        put(&mut self.slots, slot, nobody(self.free));
        self.free = slot;
        // The slot isn't listed for its group any more.
        self.chains.take(slot);
        self.count -= 1;
    }

    /// Whether each token is parked: known to wait. The contract promises that of `true` alone.
    pub fn all_wait(&self) -> bool
        ensures { result ≡ true → (k : ℕ) (t : Its) → IsHeld self.now.items k t → is_set self.now.parked.flags k ≡ true }
    {
        // Only slots with a token have a set flag: if there are as many flags as tokens, each token has one.
        self.parking.len() == self.count
    }

    /// Parks the token with this serial, which has to be in this slot: notes that it waits until one of these cells is bound or lost (`wake`). The
    /// error is refused memory, and then the token isn't newly known to wait. `parked` promises that a token that is parked afterwards was so before,
    /// or is this one, noted with each of the cells.
    pub fn park(&mut self, slot: usize, serial: u64, cells: &Vec<u64>) -> Result<(), AllocError>
        requires { (t : Its) × IsHeld self.old.items slot t × (t.serial ≡ serial) }
        ensures items { self.new.items ≡ self.old.items }
        ensures parked { StayWith slot serial cells.now.items self.old self.new }
    {
        // `reach` gives the slot a flag, if it has none. The flag is set last, when the token is noted with each of its cells: a token whose flag is
        // set and that lacks a note would miss its cell.
        self.parking.reach(slot)?;
        note_all(&mut self.parking, slot, serial, cells)?;
        self.parking.set(slot);
        Ok(())
    }

    /// Forgets of each token that waits for this cell that it waits: the cell has been bound or lost, so the token has to be looked at again. The
    /// tokens stay in their slots; `parked` promises that no token is parked for this cell any more.
    pub fn wake(&mut self, cell: u64)
        ensures items { self.new.items ≡ self.old.items }
        ensures parked { StayBut cell self.old self.new }
    {
        wake(&self.slots, &mut self.parking, cell);
    }
}
