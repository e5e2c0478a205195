//! The signs between the two parts of an operation in a term, and when a part needs brackets.

/// What joins two parts: `|`, `;`, `>x>` and `<x<` with the number of the variable x, or an opened pruning with the number of its cell.
#[derive(Clone, Copy)]
pub(crate) enum Sign {
    Par,
    Other,
    Seq(u32),
    Prune(u32),
    Opened(u64),
}

/// How tightly a sign binds; a greater number binds more tightly.
#[derive(Clone, Copy)]
pub(crate) struct Levels {
    /// The sign's own level.
    pub own: usize,
    /// The least level at which its left part needs no brackets.
    pub left: usize,
    /// The least level at which its right part needs no brackets.
    pub right: usize,
    /// The number of the variable that the sign binds in its left part. None if it binds none there.
    pub bound_left: Option<u32>,
    /// The number of the variable that it binds in its right part. None if it binds none there.
    pub bound_right: Option<u32>,
}

impl Sign {
    /// How tightly the sign and its parts have to bind. The levels follow the grammar of sources: `;` 1, `<x<` 2, `|` 3 and `>x>` 4. All but `>x>`
    /// group to the left, so their right part needs a level more.
    pub(crate) fn levels(self) -> Levels {
        // In this order: the sign's own level, the least levels of its left and right part, and the variables that it binds in these.
        let (own, left, right, bound_left, bound_right) = match self {
            Sign::Other => (1, 1, 2, None, None),
            // The variable of an opened pruning has become a cell, so the sign binds none.
            Sign::Opened(_) => (2, 2, 3, None, None),
            Sign::Prune(name) => (2, 2, 3, Some(name), None),
            Sign::Par => (3, 3, 4, None, None),
            Sign::Seq(name) => (4, 5, 4, None, Some(name)),
        };
        Levels {
            own,
            left,
            right,
            bound_left,
            bound_right,
        }
    }
}
