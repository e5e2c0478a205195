//! How many nodes of a marked term are one below another, which bounds how deep it nests. A *marked term* is what is left of the program's term after
//! the first entries of a journal; `Marked` has it with what goes with it. Depth is known by *ranks*: each node has a number greater than that of the
//! node above.

ghost use Rattle.std.specs.Prelude.{◌≡◌, IfSome};
ghost use Rattle.orc_term.specs.Ranks.{AreLevelsAtMost};

use crate::marked::Marked;

impl Marked {
    /// A bound on the depth of the marked term: at most so many nodes are one below another under node 0, which is above the whole term. None while
    /// that isn't known: after memory, or a rank of over 32 bits, was refused, until `renew_levels`.
    pub fn levels_below(&self) -> Option<usize>
        ensures { IfSome result (AreLevelsAtMost self.now.nodes) }
    {
        self.nodes.levels_below()
    }

    /// Looks at all nodes to make `levels_below` as small as it can be. If memory for that is refused, `levels_below` is None then. Nothing of the
    /// term changes, and contracts see no rank.
    pub fn renew_levels(&mut self)
        ensures { self.new ≡ self.old }
    {
        self.nodes.renew_ranks();
    }
}
