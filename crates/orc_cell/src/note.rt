//! Notes: what a reader knows of a cell. A note is for proofs; it holds no value. A cell is bound to a value at most once. The kit is the library
//! that comes with Rattle: its `OnceBox` is the cell itself, and its note says what was read. In contracts `subject` says of which cell a note is,
//! and `known` what it has read.

ghost use Rattle.std.specs.Prelude.{◌≡◌, IfSome};
ghost use Rattle.once_cell.specs.Once.{Agrees};
ghost use Rattle.orc_cell.specs.Words.{subject, known};

use once_cell::race::Note as Sight;

/// What one reader knows of one cell: that it has read nothing, or which value it has read.
#[derive(Drop)]
pub struct Note<T: Drop> {
    // The kit's note of the kit's cell (`Cell::shared`).
    pub(crate) sight: Sight<T>,
}

impl<T: Drop> Note<T> {
    /// A law, for two notes of one cell: if both have read, they have read the same. It changes nothing.
    pub fn agree(&mut self, other: Note<T>)
        requires { subject other ≡ subject self.old }
        ensures same { self.new ≡ self.old }
        ensures agree { IfSome (known other) (Agrees (known self.old)) }
    {
        self.sight.compare(other.sight);
    }
}
