//! Laws of the definitions: each function's contract is one. A function has no body, since its proof is in `proofs/`. A *state* is a term, which is
//! what is left to run, with what the calls to come are answered; a search knows that by the calls that were made. What was *seen* is what a search
//! keeps of what happened on the path to the state.

ghost use Rattle.orc_schedules.specs.Ends.{FoundAreOfRuns};
ghost use Rattle.orc_schedules.specs.Found.{AllAreFound};
ghost use Rattle.orc_schedules.specs.Watch.{HoldsByWatched};

/// Take states that were all looked at, the first one among them, each with what was seen on a path to it: what may follow a state is among them,
/// too. If waits are so short that no run within a limit of entries reaches the time 2^64, the ends of these states include the end of each run
/// within the limit that ends by itself.
pub fn all_are_found()
    ensures { AllAreFound }
{}

/// If each state is the first one or was found from one before it, and no path to one of them reaches the time 2^64, each end that a state says is
/// the end of a run of the program.
pub fn found_are_of_runs()
    ensures { FoundAreOfRuns }
{}

/// Whether a claim that a search can watch for holds in a run depends only on what its events name, in its order, and on the times that it
/// tells apart.
pub fn holds_by_watched()
    ensures { HoldsByWatched }
{}
