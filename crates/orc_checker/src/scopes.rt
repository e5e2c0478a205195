//! What is read of the names in a marked term. A *marked term* is what is left of the program's term after the first entries of a journal; `Marked`
//! has it with its scopes and cells. A *cell* stands for the x of an opened `f <x< g`, which is its *pruning*.

ghost use Rattle.std.specs.Prelude.{◌≡◌};

use crate::marked::Marked;
use orc_env::StoredScope;

impl Marked {
    /// The scopes, scope 1 first; a scope is a name with its meaning and the number of the scope that it extends. A scope whose name stands for a
    /// cell keeps the cell's number when the cell is bound or lost. The first scope with a cell is that of the cell's pruning; later ones are of
    /// parameters to which the cell was passed on.
    pub fn scopes(&self) -> &[StoredScope]
        ensures { result.now ≡ self.now.scopes }
    {
        &self.scopes
    }
}
