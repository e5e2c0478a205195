//! Two statements that are proved of the definitions alone: their functions have no body, and nobody calls them. A *way* of a case takes, of each of
//! its services (sites whose answers a test says), one thing that it may do.

ghost use Rattle.orc_cases.specs.Laws.{EachMaximal, EachOnce};

/// `ways` lists each combination of what the services of a case may do exactly as often as `combinations` (the same list before it is put in order)
/// has it: no way is left out or added.
pub fn each_once()
    ensures { EachOnce }
{}

/// The `intervals` (each from a first to a last number, both included) of sorted numbers contain exactly these numbers, ascend, and leave a gap
/// between any two, so each is as long as it can be.
pub fn each_maximal()
    ensures { EachMaximal }
{}
