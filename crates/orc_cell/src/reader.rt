//! Readers of cells: a reader is a cell together with its own note of it. A note is what one reader has read of a cell; it is for proofs. A cell is
//! bound to a value at most once. In contracts `identity` says which cell it is, `subject` of which cell a note is, and `has_read` what a reader has
//! read; by `Knows` a value is known from now on, and what was known before is the same.

ghost use Rattle.std.specs.Prelude.{◌≡◌};
ghost use Rattle.orc_cell.specs.Words.{identity, subject};

use crate::cell::Cell;
use crate::note::Note;

/// A cell and a note of it, so that a contract of a reader's calls need not speak of notes.
#[derive(Drop)]
pub struct Reader<'c, T: Drop> {
    cell: &'c Cell<T>,
    note: Note<T>,
    // The note is of this cell.
    ghost its_note: { subject note ≡ identity cell.now },
}

impl<'c, T: Drop> Reader<'c, T> {
    ghost use Rattle.std.specs.Prelude.{None, MatchOption};
    ghost use Rattle.orc_cell.specs.Words.{Knows};
    ghost use Rattle.orc_cell.specs.Readers.{has_read};

    /// A reader that has read nothing.
    pub fn new(cell: &'c Cell<T>) -> Reader<'c, T>
        ensures cell { result.cell.now ≡ cell.now }
        ensures unread { has_read result ≡ None }
    {
        let note = cell.note();
        Reader { cell, note }
    }

    /// What the cell is bound to; None where it is not bound yet. Who has read a value reads it again for good.
    pub fn read(&mut self) -> Option<&'c T>
        ensures cell { self.new.cell ≡ self.old.cell }
        ensures value { MatchOption result ((has_read self.old ≡ None) × (has_read self.new ≡ None)) (λ value. Knows (has_read self.old) (has_read self.new) value.now) }
    {
        self.cell.read(&mut self.note)
    }
}
