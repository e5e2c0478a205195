//! Claims held against what a search saw.

ghost use Rattle.std.specs.Prelude.{◌≡◌, not, IfOk};
ghost use Rattle.orc_claims.specs.Claims.{holds};
ghost use Rattle.orc_schedules.specs.Watch.{state_of_end};

use orc_claims::claim::Claim;
use orc_claims::happening::Happening;
use orc_claims::{Verdict, judge};
use orc_outcome::End;
use orc_rules::entry::State;
use std::alloc::{AllocError, Global};
use std::slice::from_ref;

// The state of a run that ended so, as claims ask for it. One that was cut is still running; a search finds no such end.
fn state_of_end(end: End) -> State
    ensures { result ≡ state_of_end end }
{
    match end {
        End::Halted => State::Halted,
        End::Quiet => State::Quiet,
        End::Limit | End::Full | End::Memory => State::Running,
    }
}

/// Whether a claim fails in a run that ended by `end` at the logical time `now`, of which `seen` is what was seen, in order and with times. The error
/// is refused memory.
pub fn fails_by(
    alloc: Global,
    claim: &Claim,
    end: End,
    seen: &[Happening],
    now: u64,
) -> Result<bool, AllocError>
    ensures { IfOk result (λ fails. fails ≡ not (holds claim.now seen.now (state_of_end end) now)) }
{
    let judged = judge(alloc, from_ref(claim), seen, state_of_end(end), now)?;
    match judged.first() {
        // By any other verdict the claim doesn't hold, and so fails.
        Some(one) => Ok(one.verdict != Verdict::Holds),
        // `judge` answers one for each claim, and one was handed in.
        None => unreachable!(),
    }
}
