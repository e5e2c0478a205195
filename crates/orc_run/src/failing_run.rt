//! The journal of a run in which a claim of a test fails. A *claim* says what must hold of a run, and is given by its place in the test. `trials` has
//! the source, the claims, and the limit of a run's entries; a `Way` has the program, loaded with the script of a way. A search looks at *states*,
//! each a term with the calls that were made and with what was seen so far. A `Watch` says what it keeps of a run for a claim. In the contracts a
//! clause *cause* says what a fault comes of, and *sound* that the engine itself is never to blame.

ghost use Rattle.std.specs.Prelude.{◌≡◌, IfErr, IfOk, IfSome, OnOk, Some, false, true};
ghost use Rattle.std.specs.Io.KnownBytes.{Keeps};
ghost use Rattle.orc_claims.specs.Verdicts.{says_so};
ghost use Rattle.orc_claims.specs.declared.verdict.Verdict.{Verdict as AVerdict};
ghost use Rattle.orc_outcome.specs.Outcome.{IsPlayed};
ghost use Rattle.orc_run.specs.FailingRuns.{FailsIn, HasShownFailure};
ghost use Rattle.orc_run.specs.Tested.{IsOwnFault, LeavesUntested};
ghost use Rattle.orc_run.specs.TestFaults.{IsUnshown};
ghost use Rattle.orc_run.specs.Whole.{IsWay};

use crate::faults::RunFault;
use crate::searched::Way;
use crate::shown::PLACES_A_STATE;
use crate::test_command::{NO_MEMORY, Untested};
use crate::witness::{Sighting, witness};
use orc_claims::Verdict;
use orc_claims::claim::Claim;
use orc_engine::run_alone;
use orc_findings::Seen;
use orc_journal::Journal;
use orc_orders::{Trials, state_at};
use orc_outcome::{End, Played, Summary};
use orc_output::write_journal;
use orc_schedules::{ClaimSearched, Watch};
use orc_tally::happenings_of;
use std::alloc::{AllocError, Global};
use std::io::Write;

// Whether a claim fails by this verdict. None is the verdict of a claim that isn't there.
fn is_failing(verdict: Option<Verdict>) -> bool
    ensures { result ≡ true → (v : AVerdict) × (verdict ≡ Some v) × (says_so v ≡ false) }
{
    match verdict {
        Some(Verdict::FailsAt(_)) | Some(Verdict::FailsAtEnd) => true,
        Some(Verdict::Holds) | None => false,
    }
}

// Whether the claim at this place, from 0, fails in a run of a way (one choice of what the services of a case answer) that has this journal and ended
// so; false also if there is no such claim. The error is refused memory.
fn fails_in(
    alloc: Global,
    trials: &Trials<'_, '_>,
    way: &Way<'_>,
    journal: &Journal,
    summary: Summary,
    claim: usize,
) -> Result<bool, AllocError>
    requires { IsWay trials.now way.now }
    ensures { IfOk result (λ fails. fails ≡ true → FailsIn trials.now way.now.loaded.answers claim journal.now.entries summary.end summary.now) }
{
    let sites = way.sites.as_slice();
    // What claims see of the run: what happened in it, where it stands at its end, and when that is.
    let happenings = happenings_of(alloc, sites, journal)?;
    let happened = happenings.as_slice();
    let state = state_at(summary.end);
    let seen = Seen {
        happenings: happened,
        state,
        time: summary.now,
    };
    let verdict = seen.verdict(alloc, trials.claims, claim)?;
    Ok(is_failing(verdict))
}

// Writes the journal of a run of the way of this script (one choice of what the services answer), if the claim at this place, from 0, fails in it,
// and answers whether it does. If not, nothing is written. `script` is the way's, and only the contract names it. The fault is refused memory, and
// then nothing was written, or one of the output, and then a prefix was (`LeavesUntested`).
fn write_failing<W: Write>(
    alloc: Global,
    trials: &Trials<'_, '_>,
    script: &[u8],
    way: &Way<'_>,
    played: &Played,
    claim: usize,
    out: &mut W,
) -> Result<bool, Untested>
    requires way { IsWay trials.now way.now }
    requires script { way.now.script.now ≡ script.now }
    requires played { IsPlayed way.now.loaded.program way.now.loaded.answers trials.now.limit played.now.summary played.now.published.items played.now.journal }
    ensures shown { IfOk result (λ shown. shown ≡ true → HasShownFailure trials.now script.now claim (W.contents out.old) (W.contents out.new)) }
    ensures none { IfOk result (λ shown. shown ≡ false → Keeps (W.contents out.old) (W.contents out.new)) }
    ensures err { IfErr result (LeavesUntested (W.contents out.old) (W.contents out.new)) }
    ensures cause { IfErr result (IsUnshown trials.now.source.now 1 trials.now.limit script.now) }
    ensures sound { IfErr result (λ f. IsOwnFault f → ⊥) }
{
    // Not reached: each caller's run keeps its journal.
    let Some(journal) = &played.journal else {
        return Ok(false);
    };
    let Ok(fails) = fails_in(alloc, trials, way, journal, played.summary, claim) else {
        return Err(NO_MEMORY);
    };
    if !fails {
        return Ok(false);
    }
    match write_journal(alloc, journal, &way.loaded.answers, out) {
        Ok(()) => Ok(true),
        Err(fault) => Err(Untested::Fault(RunFault::Write(fault))),
    }
}

/// Writes the journal of the run in this order in which the claim at this place, from 0, fails, in the way of this script (one choice of what the
/// services answer). That run was made before, and is the same each time, so the fault is refused memory, or one of the output.
pub(crate) fn write_in_order<W: Write>(
    alloc: Global,
    trials: &Trials<'_, '_>,
    order: u64,
    script: &[u8],
    claim: usize,
    out: &mut W,
) -> Result<(), Untested>
    ensures shown { OnOk result (HasShownFailure trials.now script.now claim (W.contents out.old) (W.contents out.new)) }
    ensures err { IfErr result (LeavesUntested (W.contents out.old) (W.contents out.new)) }
    ensures cause { IfErr result (IsUnshown trials.now.source.now 1 trials.now.limit script.now) }
    ensures sound { IfErr result (λ f. IsOwnFault f → ⊥) }
{
    let Ok(way) = Way::load(alloc, trials, script) else {
        return Err(NO_MEMORY);
    };
    // `true`: the run keeps its journal.
    let Ok(played) = run_alone(
        alloc,
        &way.loaded.program,
        &way.loaded.answers,
        Some(order),
        true,
        trials.limit,
    ) else {
        return Err(NO_MEMORY);
    };
    // A run that memory cut short isn't the one that was made before.
    if played.summary.end == End::Memory {
        return Err(NO_MEMORY);
    }
    // The same run is made again, so false isn't answered. The prover doesn't know that, and the contract allows this fault (refused memory).
    match write_failing(alloc, trials, script, &way, &played, claim, out) {
        Ok(true) => Ok(()),
        Ok(false) => Err(NO_MEMORY),
        Err(fault) => Err(fault),
    }
}

// A run of at most `limit` entries that breaks a claim. First a search through the schedules of the way (one choice of what the services answer),
// through `most` states at most, says what the claim sees of such a run (`seen`), and then a run is looked for of which the claim sees just that.
// None where either finds none. The error is refused memory.
fn witness_in(
    alloc: Global,
    way: &Way<'_>,
    claim: &Claim,
    most: usize,
    limit: u64,
) -> Result<Option<Played>, AllocError>
    ensures { IfOk result (λ found. IfSome found (λ p. IsPlayed way.now.loaded.program way.now.loaded.answers limit p.summary p.published.items p.journal)) }
{
    // Without `Fails` the search found no run that breaks the claim.
    let ClaimSearched::Fails(seen) = way.search(alloc, claim, most, limit)? else {
        return Ok(None);
    };
    // Not reached: a search that can't watch for this claim has found nothing above.
    let Some(watch) = Watch::of_claim(alloc, claim)? else {
        return Ok(None);
    };
    let sighting = Sighting {
        watch: &watch,
        sites: way.sites.as_slice(),
        seen: &seen,
    };
    // `witness` looks at positions, of which there are more than states.
    let places = most.saturating_mul(PLACES_A_STATE);
    witness(alloc, &way.loaded, &sighting, places, limit)
}

/// Writes the journal of a run in which the claim at this place, from 0, fails, in the way of this script (one choice of what the services answer),
/// and answers whether one was found. The search for what the claim sees of such a run looks at `most` states at most. Where none was found, or there
/// is no such claim, nothing is written. Runs of the way were made before, so that it loads: the fault is refused memory, or one of the output.
pub(crate) fn write_witness<W: Write>(
    alloc: Global,
    trials: &Trials<'_, '_>,
    most: u64,
    script: &[u8],
    claim: usize,
    out: &mut W,
) -> Result<bool, Untested>
    ensures shown { IfOk result (λ shown. shown ≡ true → HasShownFailure trials.now script.now claim (W.contents out.old) (W.contents out.new)) }
    ensures none { IfOk result (λ shown. shown ≡ false → Keeps (W.contents out.old) (W.contents out.new)) }
    ensures err { IfErr result (LeavesUntested (W.contents out.old) (W.contents out.new)) }
    ensures cause { IfErr result (IsUnshown trials.now.source.now 1 trials.now.limit script.now) }
    ensures sound { IfErr result (λ f. IsOwnFault f → ⊥) }
{
    let Some(broken) = trials.claims.get(claim) else {
        return Ok(false);
    };
    let Ok(way) = Way::load(alloc, trials, script) else {
        return Err(NO_MEMORY);
    };
    let Ok(found) = witness_in(alloc, &way, broken, most as usize, trials.limit) else {
        return Err(NO_MEMORY);
    };
    let Some(played) = found else {
        return Ok(false);
    };
    write_failing(alloc, trials, script, &way, &played, claim, out)
}
