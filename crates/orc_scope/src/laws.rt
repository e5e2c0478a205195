//! Laws of the scope check: a law is a function whose contract says it, and whose body does nothing. Proofs cite it.

ghost use Rattle.orc_scope.specs.Shallow.{ShallowTrees};

/// A source whose text has no bracket, `val` or operator too many spells a tree that has none too many: no more operators than `MOST_OPERATORS`, no
/// more calls and `val` within one another than `MOST_BRACKETS`. So what `check` promises of the depth of written-out terms holds of every source
/// that `parse` takes.
pub fn shallow_trees()
    ensures { ShallowTrees }
{}
