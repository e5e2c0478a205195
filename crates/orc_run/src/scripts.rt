//! The ways of a test's cases, and their scripts.
//!
//! A way is one choice among all that a case's services may do: for each service, or each of its first calls, one of its alternatives, and in that
//! one number of each range. It is written as a script, so that a run of it is a run with that script. A `Ways` numbers the ways of one case, from 0.
//! A `Counterexample` is what shows a failure: a run in an order, or a schedule that a search found. In the contracts a clause *cause* says what a
//! fault comes of, and *sound* that the engine itself is never to blame.

ghost use Rattle.std.specs.Prelude.{◌≡◌, IfOk, IfErr, length};
ghost use Rattle.std.specs.List.{AllZip};
ghost use Rattle.orc_ways.specs.Drafting.{test_of};
ghost use Rattle.orc_run.specs.Details.{unusual_lines};
ghost use Rattle.orc_run.specs.Tested.{AreScripts, AreWays, IsOwnFault, IsScript};
ghost use Rattle.orc_run.specs.TestFaults.{all_texts, IsAmong, IsNoMemory, IsNoText, IsUncounted};

use crate::test_command::{NO_MEMORY, NO_TEXT, Untested, unread};
use orc_cases::Ways;
use orc_tally::Counterexample;
use orc_ways::fault::TestFault;
use orc_ways::test::Test;
use std::alloc::Global;

/// The scripts of the ways of a case that are tried: the first ones, in the order of the ways.
#[derive(Drop)]
pub struct CaseScripts {
    /// How many ways the case has, with those that aren't tried.
    pub count: u64,
    /// One for each way that is tried; way 0 is at place 0.
    pub scripts: Vec<Vec<u8>>,
}

/// The ways of each case, in the order of the cases. The fault is that of the first case with more ways than `orc_cases` numbers (its `MOST_WAYS`),
/// or refused memory; both are given as faults of the test's text (`unread`).
#[tactic(auto, using(crate::proofs::Scripting::one_case, crate::proofs::Untold::first_many))]
pub(crate) fn ways_of(alloc: Global, test: &Test<'_>) -> Result<Vec<Ways>, Untested>
    ensures ways { IfOk result (λ ws. AreWays (test_of test.now) 0 ws.items × (length ws.items ≡ length test.now.cases.items)) }
    ensures cause { IfErr result (IsUncounted (test_of test.now)) }
    ensures sound { IfErr result (λ f. IsOwnFault f → ⊥) }
{
    let mut all = Vec::new(alloc);
    // The place of the case.
    let mut at = 0;
    // Not a `for`: the loop's invariant speaks of the rest of the list.
    let mut rest = test.cases.as_slice();
    loop {
        match rest {
            [] => return Ok(all),
            [_case, more @ ..] => {
                let Ok(found) = Ways::of_case(alloc, test, at) else {
                    return Err(unread(TestFault::Memory));
                };
                // There are too many ways. The fault names the line of the case.
                let Some(ways) = found else {
                    return Err(unread(TestFault::Ways(test.cases[at].line)));
                };
                if all.push(ways).is_err() {
                    return Err(unread(TestFault::Memory));
                }
                at += 1;
                rest = more;
            }
        }
    }
}

// The scripts of a case's first ways, `most` at most, each with the lines `behind` after its own: those of the script beside the test. The fault is
// refused memory.
fn scripts_of(alloc: Global, ways: &Ways, most: u64, behind: &[u8]) -> Result<CaseScripts, Untested>
    ensures scripts { IfOk result (AreScripts most behind.now ways.now) }
    ensures cause { IfErr result IsNoMemory }
    ensures sound { IfErr result (λ f. IsOwnFault f → ⊥) }
{
    match ways.scripts(alloc, most, behind) {
        Ok(scripts) => Ok(CaseScripts {
            count: ways.count(),
            scripts,
        }),
        Err(_) => Err(NO_MEMORY),
    }
}

/// The scripts of each case's first ways, `most` of a case at most, each with the lines `behind` after its own. The fault is refused memory.
#[tactic(auto, using(crate::proofs::Scripting::one_written))]
pub(crate) fn all_scripts(
    alloc: Global,
    ways: &[Ways],
    most: u64,
    behind: &[u8],
) -> Result<Vec<CaseScripts>, Untested>
    ensures scripts { IfOk result (λ ss. AllZip (AreScripts most behind.now) ways.now ss.items) }
    ensures cause { IfErr result IsNoMemory }
    ensures sound { IfErr result (λ f. IsOwnFault f → ⊥) }
{
    let mut all = Vec::new(alloc);
    // Not a `for`: the loop's invariant speaks of the rest of the list.
    let mut rest = ways;
    loop {
        match rest {
            [] => return Ok(all),
            [ways, more @ ..] => {
                let scripts = scripts_of(alloc, ways, most, behind)?;
                if all.push(scripts).is_err() {
                    return Err(NO_MEMORY);
                }
                rest = more;
            }
        }
    }
}

/// The script of the way (one choice of what the services answer) in which a failure is (`IsScript`); it is one of those that `cases` has. A failure
/// is always in a way that was tried, so the fault, `NO_TEXT`, doesn't come.
pub(crate) fn script_at(cases: &[CaseScripts], found: Counterexample) -> Result<&[u8], Untested>
    ensures script { IfOk result (λ text. IsScript cases.now found text.now) }
    ensures among { IfOk result (λ text. IsAmong (all_texts cases.now) text.now) }
    ensures cause { IfErr result IsNoText }
    ensures sound { IfErr result (λ f. IsOwnFault f → ⊥) }
{
    let Some(case) = cases.get(found.case()) else {
        return Err(NO_TEXT);
    };
    match case.scripts.get(found.way() as usize) {
        Some(script) => Ok(script.as_slice()),
        None => Err(NO_TEXT),
    }
}

/// The lines that tell a failure's way (one choice of what the services answer) from other ways of its case: those where a call takes another
/// alternative than the first, or one with a range. Empty for a case that isn't there, though a failure's case always is. The fault is refused
/// memory.
pub(crate) fn unusual_lines(
    alloc: Global,
    ways: &[Ways],
    found: Counterexample,
) -> Result<Vec<u8>, Untested>
    ensures lines { IfOk result (λ text. text.items ≡ unusual_lines ways.now found) }
    ensures cause { IfErr result IsNoText }
    ensures sound { IfErr result (λ f. IsOwnFault f → ⊥) }
{
    let Some(ways) = ways.get(found.case()) else {
        return Ok(Vec::new(alloc));
    };
    match ways.unusual(alloc, found.way()) {
        Ok(lines) => Ok(lines),
        Err(_) => Err(NO_TEXT),
    }
}
