//! What stands below each failure of a test.
//!
//! A run in an order shows a failure (`Trial`), or only the search through all schedules found it (`Schedule`). What is shown is made again from the
//! failure's script and order: the runs of the trials aren't kept. A `Tester` has the trials and the options. `shown` (a `Failing`) names the way,
//! the order, and where in the run the claim fails. A *way* is one choice of what the services of a case answer, a *schedule* any sequence of moves
//! that the rules allow.
//!
//! In the functions here `cases` has the scripts of each case's tried ways, and `ways` all ways of each case. `script` is that of the failure's way,
//! `lines` are the unusual lines of that way (`unusual_lines`), and `ranges` those with the numbers of a range with which the claim fails
//! (`ranges_of`). `number` is the failure's, from 1, and `claim` the claim's place among the test's, from 0. `rows` are the lines of the test's
//! table. `NO_TEXT` says that memory for what is to be written was refused, `NO_MEMORY` that memory for what is tried was. In the contracts a clause
//! *cause* says what a fault comes of, and *sound* that the engine itself is never to blame.

ghost use Rattle.std.specs.Prelude.{◌≡◌, [], IfErr, IfOk, false};
ghost use Rattle.orc_orders.specs.Trials.{IsMadeAgain, texts};
ghost use Rattle.orc_ways.specs.Values.{sites_of};
ghost use Rattle.orc_run.specs.Details.{AreDetails, FailsAt, IsDetail, IsScheduleDetail, IsTrialDetail};
ghost use Rattle.orc_run.specs.Tested.{IsOwnFault};
ghost use Rattle.orc_run.specs.TestFaults.{all_texts, AreUnshown, IsNoMemory, IsNoText, IsUnshown};

use crate::counterexample::{schedule_text, trial_text, write_picture};
use crate::failing_ways::failing_ways;
use crate::scripts::{CaseScripts, script_at, unusual_lines};
use crate::searched::Searcher;
use crate::test_command::{NO_MEMORY, NO_TEXT, Tester, Untested, run_fault};
use orc_cases::Ways;
use orc_findings::{Seen, write_each};
use orc_orders::{Run, state_at, try_again};
use orc_tally::{Counterexample, Row, Shown as Failing};
use orc_ways::test::Test;
use std::alloc::AllocError;
use std::thread::Threads;

impl<R: Threads + Sync> Tester<'_, '_, R> {
    // Makes the run again that shows a failure: in the way of `script` (one choice of what the services answer), in the order that `shown` names. The
    // fault is that of the run, or refused memory, but never one of the engine's own (`sound`).
    #[tactic(auto, using(crate::proofs::Untold::unmade_again))]
    fn run_again(&self, script: &[u8], shown: Failing) -> Result<Run, Untested>
        ensures made { IfOk result (IsMadeAgain self.now.trials.now.source.now (sites_of self.now.trials.now.sites.now) self.now.trials.now.limit script.now) }
        ensures cause { IfErr result (IsUnshown self.now.trials.now.source.now 1 self.now.trials.now.limit script.now) }
        ensures sound { IfErr result (λ f. IsOwnFault f → ⊥) }
    {
        match try_again(self.alloc, self.trials, script, shown.failure.order) {
            Ok(run) => Ok(run),
            Err(fault) => Err(Untested::Fault(run_fault(fault))),
        }
    }

    // Of the way (one choice of what the services answer) that `shown` names the lines that have a range of delays, each with the numbers of the
    // range with which the claim fails. `cases` has the scripts of each case's tried ways, `ways` all ways of each case, and `claim` is the claim's
    // place in the test, from 0. Empty if failures aren't explained, or there is no such case, which doesn't come. The error is refused memory.
    fn ranges_of(
        &self,
        cases: &[CaseScripts],
        ways: &[Ways],
        claim: usize,
        shown: Failing,
    ) -> Result<Vec<u8>, Untested>
        ensures cause { IfErr result IsNoMemory }
        ensures sound { IfErr result (λ f. IsOwnFault f → ⊥) }
    {
        let (true, Some(case), Some(ways)) = (
            // The case and its ways, if failures are explained.
            self.explains,
            cases.get(shown.case),
            ways.get(shown.case),
        ) else {
            return Ok(Vec::new(self.alloc));
        };
        match self.failing_ranges(case, ways, claim, shown.failure.way) {
            Ok(lines) => Ok(lines),
            Err(_) => Err(NO_MEMORY),
        }
    }

    // The lines of the way with this number in its case, from 0, that have a range, each with the numbers with which the claim fails. To see in which
    // ways it fails, each way that was tried is run again with this claim alone. `case` has the scripts of these ways, and `claim` is the claim's
    // place in the test, from 0. Empty if no line of the way has a range. The error is refused memory.
    fn failing_ranges(
        &self,
        case: &CaseScripts,
        ways: &Ways,
        claim: usize,
        way: u64,
    ) -> Result<Vec<u8>, AllocError> {
        if !ways.has_range(way) {
            return Ok(Vec::new(self.alloc));
        }
        // This claim alone, as a list; empty if there is no such claim, and then `failing_ways` gives an error.
        let claims = self
            .trials
            .claims
            .get(claim..claim.saturating_add(1))
            .unwrap_or(&[]);
        let scripts = case.scripts.as_slice();
        // Whether the claim fails, for each way that was tried: all but the claims is as in the trials. `Ways::failing_ranges` then writes the lines.
        let fails = failing_ways(
            self.rt,
            self.alloc,
            self.trials,
            self.options.workers as usize,
            claims,
            scripts,
        )?;
        ways.failing_ranges(self.alloc, way, fails.as_slice())
    }

    // What explains a failure: the lines of `ranges`, which `ranges_of` gives, and the picture of the run that shows the failure. `script` is that of
    // the run's way. Empty if failures aren't explained, as the clause *unasked* says. The error is refused memory.
    fn explanation(&self, script: &[u8], ranges: &[u8], run: Run) -> Result<Vec<u8>, Untested>
        ensures unasked { IfOk result (λ text. self.now.explains ≡ false → text.items ≡ []) }
        ensures cause { IfErr result IsNoText }
        ensures sound { IfErr result (λ f. IsOwnFault f → ⊥) }
    {
        let mut text = Vec::new(self.alloc);
        if !self.explains {
            return Ok(text);
        }
        // Each of these lines is written behind `fails with`.
        if write_each(b"         fails with ", ranges, &mut text).is_err() {
            return Err(NO_TEXT);
        }
        match write_picture(self.alloc, self.trials.source, script, run, &mut text) {
            Ok(()) => Ok(text),
            Err(_) => Err(NO_TEXT),
        }
    }

    // Makes the run again that shows that a claim fails, and judges the claim on it. `script` is that of the way, and `claim` the claim's place in
    // the test, from 0; `shown` has the order, and the verdict that the trial came to. The run of an order is the same each time, so the claim fails
    // where it did; if it didn't, that would be answered as refused memory. The fault is that of the run, or refused memory, but never one of the
    // engine's own (`sound`).
    fn fail_again(&self, script: &[u8], claim: usize, shown: Failing) -> Result<Run, Untested>
        ensures fails { IfOk result (FailsAt self.now.trials.now script.now claim shown.failure.verdict) }
        ensures cause { IfErr result (IsUnshown self.now.trials.now.source.now 1 self.now.trials.now.limit script.now) }
        ensures sound { IfErr result (λ f. IsOwnFault f → ⊥) }
    {
        let run = self.run_again(script, shown)?;
        // What claims see of the run.
        let seen = Seen {
            happenings: run.happenings.as_slice(),
            state: state_at(run.played.summary.end),
            time: run.played.summary.now,
        };
        // None would be that the test has no such claim.
        let Ok(Some(verdict)) = seen.verdict(self.alloc, self.trials.claims, claim) else {
            return Err(NO_MEMORY);
        };
        if verdict == shown.failure.verdict {
            Ok(run)
        } else {
            Err(NO_MEMORY)
        }
    }

    // What stands below the failure with this `number`, from 1, if the run of an order shows it: the unusual `lines` of its way, where the claim
    // fails in the run, and what explains it (`ranges` and a picture). `script` is that of the way, and `claim` the claim's place in the test, from
    // 0. The error is that of the run, or refused memory.
    #[tactic(auto, using(crate::proofs::Untold::text_unshown))]
    fn details_of_trial(
        &self,
        script: &[u8],
        lines: &[u8],
        ranges: &[u8],
        number: usize,
        claim: usize,
        shown: Failing,
    ) -> Result<Vec<u8>, Untested>
        ensures below { IfOk result (λ text. IsTrialDetail self.now.trials.now self.now.explains script.now lines.now number claim shown.failure text.items) }
        ensures cause { IfErr result (IsUnshown self.now.trials.now.source.now 1 self.now.trials.now.limit script.now) }
        ensures sound { IfErr result (λ f. IsOwnFault f → ⊥) }
    {
        let run = self.fail_again(script, claim, shown)?;
        let Ok(mut text) = trial_text(self.alloc, self.trials, number, lines, &run, shown.failure)
        else {
            return Err(NO_TEXT);
        };
        let more = self.explanation(script, ranges, run)?;
        if text.extend_from_slice(more.as_slice()).is_err() {
            return Err(NO_TEXT);
        }
        Ok(text)
    }

    // What stands below the failure with this `number`, from 1, if a schedule breaks the claim which no order showed: the unusual `lines` of its way,
    // and what the claim saw there. `script` is that of the way, and `claim` the claim's place in the test, from 0. The error is refused memory.
    fn details_of_schedule(
        &self,
        test: &Test<'_>,
        script: &[u8],
        lines: &[u8],
        number: usize,
        claim: usize,
    ) -> Result<Vec<u8>, Untested>
        ensures below { IfOk result (λ text. IsScheduleDetail self.now.trials.now script.now lines.now number claim text.items) }
        ensures cause { IfErr result (IsUnshown self.now.trials.now.source.now 1 self.now.trials.now.limit script.now) }
        ensures sound { IfErr result (λ f. IsOwnFault f → ⊥) }
    {
        // `see` searches one way for one claim, without the cases and the reports. `found` is None if it finds no run that breaks the claim; then
        // only the lines are written.
        let searcher = Searcher {
            alloc: self.alloc,
            trials: self.trials,
            test,
            cases: &[],
            reports: &[],
            most: self.options.states,
        };
        let Ok(found) = searcher.see(script, claim) else {
            return Err(NO_MEMORY);
        };
        match schedule_text(self.alloc, self.trials, number, lines, found) {
            Ok(text) => Ok(text),
            Err(_) => Err(NO_TEXT),
        }
    }

    // What stands below the failure with this `number`, from 1, which `found` shows: a run in an order, or a schedule that the search found. `claim`
    // is the place in the test, from 0, of the claim that fails. `cases` has the scripts of each case's tried ways, and `ways` all ways of each case.
    // The error is that of a run that is made again, or refused memory.
    #[tactic(auto, using(crate::proofs::Untold::of_script, crate::proofs::Untold::memory_unshown, crate::proofs::Untold::texts_unshown))]
    fn details_of(
        &self,
        test: &Test<'_>,
        cases: &[CaseScripts],
        ways: &[Ways],
        number: usize,
        claim: usize,
        found: Counterexample,
    ) -> Result<Vec<u8>, Untested>
        ensures detail { IfOk result (λ text. IsDetail self.now.trials.now self.now.explains ways.now cases.now number claim found text.items) }
        ensures cause { IfErr result (AreUnshown self.now.trials.now.source.now self.now.trials.now.limit (all_texts cases.now)) }
        ensures sound { IfErr result (λ f. IsOwnFault f → ⊥) }
    {
        let unusual = unusual_lines(self.alloc, ways, found)?;
        let lines = unusual.as_slice();
        let script = script_at(cases, found)?;
        match found {
            Counterexample::Trial(shown) => {
                let ranges = self.ranges_of(cases, ways, claim, shown)?;
                let text = self.details_of_trial(
                    script,
                    lines,
                    ranges.as_slice(),
                    number,
                    claim,
                    shown,
                )?;
                Ok(text)
            }
            Counterexample::Schedule(_) => {
                // `found` has only the case and the number of the way, so `details_of_schedule` searches the way again for the schedule.
                let text = self.details_of_schedule(test, script, lines, number, claim)?;
                Ok(text)
            }
        }
    }

    /// What stands below each failure, in the order of the rows: one text for each row that fails. `cases` has the scripts of each case's tried ways,
    /// and `ways` all ways of each case. The error is a fault of a run that is made again, or refused memory.
    #[tactic(auto, using(crate::proofs::Untold::texts_unshown))]
    pub(crate) fn all_details(
        &self,
        test: &Test<'_>,
        cases: &[CaseScripts],
        ways: &[Ways],
        rows: &[Row],
    ) -> Result<Vec<Vec<u8>>, Untested>
        ensures details { IfOk result (λ all. AreDetails self.now.trials.now self.now.explains ways.now cases.now 1 rows.now (texts all.items)) }
        ensures cause { IfErr result (AreUnshown self.now.trials.now.source.now self.now.trials.now.limit (all_texts cases.now)) }
        ensures sound { IfErr result (λ f. IsOwnFault f → ⊥) }
    {
        let mut all = Vec::new(self.alloc);
        // Not a `for`: the loop's invariant speaks of the rest of the list.
        let mut rest = rows;
        loop {
            match rest {
                [] => return Ok(all),
                [row, more @ ..] => {
                    if let Row::Fails(claim, found) = row {
                        // Failures are numbered from 1, in the order of the rows.
                        let number = all.len() + 1;
                        let details = self.details_of(test, cases, ways, number, *claim, *found)?;
                        if all.push(details).is_err() {
                            return Err(NO_TEXT);
                        }
                    }
                    rest = more;
                }
            }
        }
    }
}
