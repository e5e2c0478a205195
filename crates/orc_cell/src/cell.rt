//! Cells, which are bound once. In contracts `identity` says which cell it is, `subject` of which cell a note is, and `known` what a note has read.
//! `Knows` and `HasRead` say that a value is known from now on, and that what was known before is the same. A *note* is what one reader has read of a
//! cell; it is for proofs, and holds no value. Each `Cell` is a *name* of a cell, and `share` makes another. The kit is the library that comes with
//! Rattle; its `OnceBox` is the cell itself.

ghost use Rattle.std.specs.Prelude.{◌≡◌, None, Some, IfOk, MatchResult, MatchOption, ⊤};
ghost use Rattle.orc_cell.specs.Words.{identity, subject, known, Knows, HasRead};

use crate::note::Note;
use once_cell::race::OnceBox;
use std::alloc::{AllocError, Global};
use std::sync::Arc;

/// A cell that many threads may name. It is bound to a value at most once.
#[derive(Drop)]
pub struct Cell<T: Drop> {
    // The kit's cell, which all names of this one share.
    shared: Arc<OnceBox<T>, Global>,
}

impl<T: Drop> Cell<T> {
    /// A new cell, which is not bound. The error is refused memory.
    pub fn new(alloc: Global) -> Result<Cell<T>, AllocError> {
        let shared = Arc::new(alloc, OnceBox::new(alloc))?;
        Ok(Cell { shared })
    }

    /// Another name of the same cell. The error is that the cell has as many names as an `Arc` can count.
    pub fn share(&self) -> Result<Cell<T>, AllocError>
        ensures { IfOk result (λ cell. identity cell ≡ identity self.now) }
    {
        let shared = Arc::try_clone(&self.shared)?;
        Ok(Cell { shared })
    }

    /// A note of this cell that has read nothing.
    pub fn note(&self) -> Note<T>
        ensures { (subject result ≡ identity self.now) × (known result ≡ None) }
    {
        let sight = self.shared.note();
        Note { sight }
    }

    /// Binds the cell, if no other call has bound it; else the call gives the box back, and the cell stays as it is. The call takes no memory.
    pub fn bind(&self, value: Box<T>) -> Result<(), Box<T>>
        ensures { MatchResult result (λ _. ⊤) (λ back. back.value ≡ value.value) }
    {
        self.shared.set(value)
    }

    /// Binds the cell, if no other call has bound it; else the call gives the box back. Either way the note, which has to be of this cell, has then
    /// read the cell's value. A note that had read a value before always gets its box back, since the cell was bound by then. It takes no memory.
    pub fn bind_and_note(&self, value: Box<T>, note: &mut Note<T>) -> Result<(), Box<T>>
        requires { subject note.old ≡ identity self.now }
        ensures subject { subject note.new ≡ subject note.old }
        ensures read { HasRead (known note.old) (known note.new) }
        ensures value { MatchResult result (λ _. (known note.old ≡ None) × (known note.new ≡ Some value.value)) (λ back. back.value ≡ value.value) }
    {
        // The kit's call that binds. It also notes in `sight` what the cell is bound to then.
        self.shared.set_as(value, &mut note.sight)
    }

    /// What the cell is bound to; None where it is not bound yet. The note has to be of this cell. If there is a value, the note has then read it. By
    /// the contract a note that had read a value before finds the same one.
    pub fn read<'a>(&'a self, note: &mut Note<T>) -> Option<&'a T>
        requires { subject note.old ≡ identity self.now }
        ensures subject { subject note.new ≡ subject note.old }
        ensures value { MatchOption result ((known note.old ≡ None) × (known note.new ≡ None)) (λ value. Knows (known note.old) (known note.new) value.now) }
    {
        // The kit's call that reads. It also notes in `sight` the value that it has found.
        self.shared.get_as(&mut note.sight)
    }
}
