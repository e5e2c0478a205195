//! What is read of a marked term by one who judges its entries. A *marked term* is what is left of the program's term after the first entries of a
//! journal. A `Slot` is a node of it as it is stored, and a `Kept` a call with what the table of sites says of it. A *scope* says what names mean,
//! and a *cell* stands for the x of an opened `f <x< g`: it is bound to a value, lost (void), or neither.

ghost use Rattle.std.specs.Prelude.{◌≡◌, ℕ, List, IfSome, IfNone};
ghost use Rattle.orc_rules.specs.Nodes.{param_of};
ghost use Rattle.orc_term.specs.Arena.{Frame, Tree};
ghost use Rattle.orc_env.specs.Scopes.{close_param, env_of};
ghost use Rattle.orc_env.specs.Names.{AreOrdered};
ghost use Rattle.orc_term.specs.Rising.{takes, Stands};

use crate::kept::Kept;
use crate::marked::Marked;
use orc_env::{Bound, meaning};
use orc_rules::param::{Operand, Param};
use orc_term::slot::Slot;
use orc_term::walk::{Taker, way_up};

impl Marked {
    /// All nodes of the marked term, node 0 first, and among them those that were dropped: they are gone, but keep their numbers.
    pub fn nodes(&self) -> &[Slot]
        ensures { result.now ≡ self.now.nodes }
    {
        self.nodes.items()
    }

    /// The calls that were made, call 1 first, whether they pend or not.
    pub fn calls(&self) -> &[Kept]
        ensures { result.now ≡ self.now.rest.calls }
    {
        &self.rest.calls
    }

    /// What an operand (a value or a name) means in scope `scope`: a value, a cell that is neither bound nor lost, or void. A name that the scope
    /// doesn't have means itself.
    pub fn param(&self, operand: Operand, scope: usize) -> Param
        ensures { AreOrdered self.now.scopes → close_param (env_of self.now.cells self.now.scopes scope) (param_of operand) ≡ result }
    {
        match meaning(&self.scopes, &self.cells, operand, scope) {
            Some(Bound::Is(value)) => Param::Is(value),
            Some(Bound::Cell(cell)) => Param::Cell(cell),
            Some(Bound::Void) => Param::Void,
            None => match operand {
                // Not reached: a value means itself in each scope.
                Operand::Is(value) => Param::Is(value),
                Operand::Name(name) => Param::Name(name),
            },
        }
    }

    /// What takes a publication of the node of number `place` in the marked term: a `>x>`, a pruning, or nothing, so that the whole program publishes
    /// it. None where no such node is part of the term.
    pub fn taker(&self, place: usize) -> Option<Taker>
        ensures taker { IfSome result (λ w. (n : ℕ) (k : List Frame) (t : Tree) → Stands self.now.nodes n place k t → w ≡ takes k) }
        ensures none { IfNone result ((n : ℕ) (k : List Frame) (t : Tree) → Stands self.now.nodes n place k t → ⊥) }
    {
        way_up(&self.nodes, place)
    }
}
