//! The numbers of a part's own run in the enclosing run. `own` is a number in the part, counted from 1. A *mark* is the number of a token, which
//! marks a part of the program's term that runs. A *cell* stands for the x of an opened `f <x< g`.

ghost use Rattle.std.specs.Prelude.{◌≡◌, ◌+◌, IfSome};
ghost use Rattle.orc_subrun.specs.Moved.{cell_in, mark_in};

/// How a part's own run is numbered in the enclosing run; a *part* is a call of a definition that is run by itself. The part's mark 1 is that of the
/// token which stood there; its marks from 2 on are the enclosing run's next marks; its calls and cells are counted on behind those that the
/// enclosing run made and opened.
#[derive(Clone, Copy)]
pub struct Numbering {
    /// The mark of the token that stood where the part is.
    pub token: u64,
    /// The next mark of the enclosing run, at least 2: the part's mark 2.
    pub mark: u64,
    /// How many calls the enclosing run made before the part.
    pub calls: u64,
    /// How many cells the enclosing run opened before the part.
    pub cells: u64,
}

impl Numbering {
    /// The mark in the enclosing run for the mark `own` of the part, counted from 1. None if `mark + own` doesn't fit 64 bits or is under 2.
    #[inline(always)]
    pub fn mark_of(&self, own: u64) -> Option<u64>
        ensures { IfSome result (λ mark. mark ≡ mark_in self.now own) }
    {
        if own == 1 {
            return Some(self.token);
        }
        // The part's mark 2 becomes `mark`.
        let sum = self.mark.checked_add(own)?;
        sum.checked_sub(2)
    }

    /// The number in the enclosing run for the part's call `own`, both from 1. None if it doesn't fit 64 bits.
    #[inline(always)]
    pub fn call_of(&self, own: u64) -> Option<u64>
        ensures { IfSome result (λ call. call ≡ self.now.calls + own) }
    {
        self.calls.checked_add(own)
    }

    /// The number in the enclosing run for the part's cell `own`, both from 1. None if it doesn't fit 64 bits.
    #[inline(always)]
    pub fn cell_of(&self, own: u64) -> Option<u64>
        ensures { IfSome result (λ cell. cell ≡ cell_in self.now own) }
    {
        self.cells.checked_add(own)
    }
}
