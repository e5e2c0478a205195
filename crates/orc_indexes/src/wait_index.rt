//! Which slots hold a token that is known to wait, and the tokens that wait for each cell. A *token* marks a part of the program's term that runs;
//! its *slot* is its place in the table of tokens, and its *serial* its number in the journal. A *cell* stands for the x of an opened `f <x< g`: a
//! token may wait for its value.

ghost use Rattle.std.specs.Prelude.{◌≡◌, ◌++◌, ◌∷◌, [], ◌<◌, ℕ, length, map, true, false, vec_len, vec_items, OnOk, MatchOption, slice_set};
ghost use Rattle.orc_indexes.specs.Same.{weight};
ghost use Rattle.orc_rules.specs.Timed.{IsIn};
ghost use Rattle.orc_indexes.specs.Parking.{is_set, notes_at, one};
ghost use Rattle.orc_indexes.specs.declared.wait_index.Note.{Note as Its};

use std::alloc::{AllocError, Global};
use std::marker::Model;

/// A token that waits for a cell. Each cell has a list of such notes.
#[derive(Clone, Copy)]
pub struct Note {
    /// The token's slot, that is the place of its record, in which another token may stand later.
    pub slot: usize,
    /// The token's serial, which tells whether the token is still the one in the slot.
    pub serial: u64,
}

/// Which tokens are known to wait (are *parked*): a flag for each slot, and for each cell notes of the tokens that wait for it. A note may outlive
/// its token: the serial tells.
pub struct Parking {
    // Where memory comes from.
    alloc: Global,
    // By slot: whether the token there is known to wait. A slot without a flag has no such token.
    flags: Vec<bool>,
    // How many flags are set.
    count: usize,
    // By the number of the cell: its notes, the latest last.
    notes: Vec<Vec<Note>>,
}

// Written out, so that a caller's proof sees one call and not the drop of each field.
impl Drop for Parking {
    fn drop(self) {
        let Parking {
            alloc: _,
            flags: _,
            count: _,
            notes: _,
        } = self;
    }
}

// Contracts see the flags, and by cell the notes. `count` is how many flags are set.
impl Model for Parking {
    ghost use Rattle.std.specs.Prelude.{◌≡◌, map, vec_items};
    ghost use Rattle.orc_indexes.specs.Same.{weight};
    ghost use Rattle.orc_indexes.specs.Parking.{Parked, one};

    ghost Value = { Parked };

    ghost view = { λ p. record { flags = p.flags.items; notes = map vec_items p.notes.items } };

    ghost invariant = { λ p. p.count ≡ weight one p.flags.items };
}

// Whether the flag of a slot is set: the token there is known to wait. False for a slot without a flag.
#[inline(always)]
fn is_set(flags: &Vec<bool>, slot: usize) -> bool
    ensures { result ≡ is_set flags.now.items slot }
{
    match flags.get(slot) {
        Some(flag) => *flag,
        None => false,
    }
}

// Writes the flag of a slot: whether the token there is known to wait. For a slot without a flag nothing changes.
#[inline(always)]
fn write_flag(flags: &mut Vec<bool>, slot: usize, value: bool)
    ensures { flags.new.items ≡ slice_set flags.old.items slot value }
{
    if let Some(flag) = flags.get_mut(slot) {
        *flag = value;
    }
}

// Gives each slot up to this one a flag. New flags aren't set, so those that are set stay the same. The error is refused memory; some of the slots
// may have a flag then.
fn reach_slot(flags: &mut Vec<bool>, slot: usize) -> Result<(), AllocError>
    ensures same { (k : ℕ) → is_set flags.new.items k ≡ is_set flags.old.items k }
    ensures count { weight one flags.new.items ≡ weight one flags.old.items }
    ensures there { OnOk result (slot < vec_len flags.new) }
{
    while flags.len() <= slot {
        match flags.push(false) {
            Ok(()) => {}
            Err(_) => return Err(AllocError),
        }
    }
    Ok(())
}

// Gives each cell up to this one a list of notes. New lists are empty, so each cell's notes are as before. The error is refused memory; some of the
// cells may have a list then.
fn reach_cell(alloc: Global, notes: &mut Vec<Vec<Note>>, cell: usize) -> Result<(), AllocError>
    ensures same { (c : ℕ) → notes_at (map vec_items notes.new.items) c ≡ notes_at (map vec_items notes.old.items) c }
    ensures there { OnOk result (cell < vec_len notes.new) }
{
    while notes.len() <= cell {
        if notes.push(Vec::new(alloc)).is_err() {
            return Err(AllocError);
        }
    }
    Ok(())
}

// Adds a note to the list of the cell with this number; the list has to be there. The error is refused memory. The notes that were there stay either
// way.
fn write_note(notes: &mut Vec<Vec<Note>>, cell: usize, note: Note) -> Result<(), AllocError>
    requires there { cell < vec_len notes.old }
    ensures noted { OnOk result (IsIn note (notes_at (map vec_items notes.new.items) cell)) }
    ensures kept { (c : ℕ) (n : Its) → IsIn n (notes_at (map vec_items notes.old.items) c) → IsIn n (notes_at (map vec_items notes.new.items) c) }
{
    let list = &mut notes[cell];
    match list.push(note) {
        Ok(()) => Ok(()),
        Err(_) => Err(AllocError),
    }
}

// Takes the last note out of the list of the cell with this number; the other cells' notes stay. None if the cell has no note or no list.
fn take_note(notes: &mut Vec<Vec<Note>>, cell: usize) -> Option<Note>
    ensures note { MatchOption result (notes_at (map vec_items notes.old.items) cell ≡ []) (λ n. notes_at (map vec_items notes.old.items) cell ≡ notes_at (map vec_items notes.new.items) cell ++ n ∷ []) }
    ensures others { (c : ℕ) → (c ≡ cell → ⊥) → notes_at (map vec_items notes.new.items) c ≡ notes_at (map vec_items notes.old.items) c }
{
    match notes.get_mut(cell) {
        Some(list) => list.pop(),
        None => None,
    }
}

impl Parking {
    /// No token is known to wait.
    pub fn new(alloc: Global) -> Parking
        ensures { result ≡ record { flags = []; notes = [] } }
    {
        Parking {
            alloc,
            flags: Vec::new(alloc),
            count: 0,
            notes: Vec::new(alloc),
        }
    }

    /// How many tokens are known to wait.
    pub fn len(&self) -> usize
        ensures { result ≡ weight one self.now.flags }
    {
        self.count
    }

    /// Whether the token in this slot is known to wait.
    pub fn is_set(&self, slot: usize) -> bool
        ensures { result ≡ is_set self.now.flags slot }
    {
        is_set(&self.flags, slot)
    }

    /// Notes that the token in this slot is not known to wait. For a slot without a flag nothing changes.
    #[inline(always)]
    pub fn clear(&mut self, slot: usize)
        ensures flags { self.new.flags ≡ slice_set self.old.flags slot false }
        ensures notes { self.new.notes ≡ self.old.notes }
    {
        // The flag isn't set, or there is none.
        if !is_set(&self.flags, slot) {
            return;
        }
        self.count -= 1;
        write_flag(&mut self.flags, slot, false);
    }

    /// Notes that the token in this slot is known to wait. The slot needs a flag (`reach`).
    pub fn set(&mut self, slot: usize)
        requires there { slot < length self.old.flags }
        ensures flags { self.new.flags ≡ slice_set self.old.flags slot true }
        ensures notes { self.new.notes ≡ self.old.notes }
    {
        let len = self.flags.len();
        // Shows the prover that the flag is there.
        prove!(slot < len);
        // The flag is set already, and counted.
        if is_set(&self.flags, slot) {
            return;
        }
        self.count += 1;
        write_flag(&mut self.flags, slot, true);
    }

    /// Gives the slots up to this one a flag each. New flags aren't set. The error is refused memory; which flags are set stays as it was.
    pub fn reach(&mut self, slot: usize) -> Result<(), AllocError>
        ensures flags { (k : ℕ) → is_set self.new.flags k ≡ is_set self.old.flags k }
        ensures notes { self.new.notes ≡ self.old.notes }
        ensures there { OnOk result (slot < length self.new.flags) }
    {
        reach_slot(&mut self.flags, slot)
    }

    /// Notes that a token waits for the cell with this number. The error is refused memory. The notes that were there stay either way.
    pub fn note(&mut self, cell: u64, note: Note) -> Result<(), AllocError>
        ensures flags { self.new.flags ≡ self.old.flags }
        ensures noted { OnOk result (IsIn note (notes_at self.new.notes cell)) }
        ensures kept { (c : ℕ) (n : Its) → IsIn n (notes_at self.old.notes c) → IsIn n (notes_at self.new.notes c) }
    {
        reach_cell(self.alloc, &mut self.notes, cell as usize)?;
        write_note(&mut self.notes, cell as usize, note)
    }

    /// Takes one of a cell's notes out, the latest first. The other cells' notes and the flags stay. None if the cell has no note.
    pub fn take(&mut self, cell: u64) -> Option<Note>
        ensures flags { self.new.flags ≡ self.old.flags }
        ensures note { MatchOption result (notes_at self.old.notes cell ≡ []) (λ n. notes_at self.old.notes cell ≡ notes_at self.new.notes cell ++ n ∷ []) }
        ensures others { (c : ℕ) → (c ≡ cell → ⊥) → notes_at self.new.notes c ≡ notes_at self.old.notes c }
    {
        take_note(&mut self.notes, cell as usize)
    }
}
