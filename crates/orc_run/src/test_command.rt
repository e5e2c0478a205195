//! From a test's text to the table of its claims, or to the script or the journal that shows one failure.
//!
//! A trial is a run in one way and one order. All trials come first; then all schedules are searched for the claims that failed in none of them. A
//! *case* says how the services of the test, which are sites, may answer; a *way* is one such choice, written as a script, and an *order* a number
//! that decides whose turn comes. `reports` has what came of the trials of each case. A `Report` is all that the table is made of, and `rows` are its
//! lines. A *schedule* is any sequence of moves that the rules allow.
//!
//! In the functions here `cases` has the scripts of each case's tried ways, and `ways` all ways of each case. A claim is its place among the test's,
//! from 0. In the contracts a clause *cause* says what a fault comes of, *sound* that the engine itself is never to blame, and *err* or *fault*
//! (`LeavesUntested`) that nothing was written then, or at a fault of the output a prefix.

ghost use Rattle.std.specs.Prelude.{◌≡◌, List, ℕ, Some, IfOk, IfErr, OnOk, length};
ghost use Rattle.std.specs.List.{AllZip};
ghost use Rattle.std.specs.Io.KnownBytes.{Appends};
ghost use Rattle.orc_tally.specs.Table.{failing, failure_at, rows as rows_of};
ghost use Rattle.orc_tally.specs.declared.table.Report.{Report};
ghost use Rattle.orc_tally.specs.declared.table.Counterexample.{Counterexample as Example};
ghost use Rattle.orc_tally.specs.declared.table.Counterexample.TheVariants as example;
ghost use Rattle.orc_rules.specs.Sites.{Table};
ghost use Rattle.orc_site.specs.Script.{Says};
ghost use Rattle.orc_syntax.specs.Tree.{Source};
ghost use Rattle.orc_load.specs.Loading.{SpellsTree};
ghost use Rattle.orc_orders.specs.Trials.{texts};
ghost use Rattle.orc_ways.specs.Drafting.{test_of};
ghost use Rattle.orc_ways.specs.declared.test.Test.{Test as ATest};
ghost use Rattle.orc_ways.specs.Finishing.{Says as SaysTest};
ghost use Rattle.orc_cli.specs.declared.job.Shown.TheVariants as what;
ghost use Rattle.orc_run.specs.Whole.{AreSaid};
ghost use Rattle.orc_run.specs.Called.{named_of};
ghost use Rattle.orc_run.specs.Details.{AreDetails};
ghost use Rattle.orc_run.specs.FailingRuns.{HasShownFailure};
ghost use Rattle.orc_run.specs.Failures.{is_asked};
ghost use Rattle.orc_run.specs.Tested.{AreWays, HasFailing, IsJudged, IsOwnFault, IsScript, IsTried, LeavesUntested, Writes, failing_claim, of_trial, table_of};
ghost use Rattle.orc_run.specs.TestFaults.{all_texts, AreUnshown, AreUntold, AreUntried, AreUnwritten, IsNoMemory, IsNoScript, IsNoTest, IsNoText, IsUnfound, IsUnshown, IsUntestedFor};

use crate::asked::services_never_asked;
use crate::call::{Names, options_text};
use crate::explained::Explained;
use crate::failing_run::{write_in_order, write_witness};
use crate::faults::RunFault;
use crate::scripts::{CaseScripts, all_scripts, script_at, ways_of};
use crate::searched::Searcher;
use crate::unanswered::calls_never_answered;
use orc_cases::Ways;
use orc_claims::claim::{Claim, Plain};
use orc_cli::{Shown, TestOptions};
use orc_engine::EngineFault;
use orc_orders::{CaseTold, TrialFault, Trials, try_ways};
use orc_output::{WriteFault, write_text};
use orc_report::Page;
use orc_rules::answers::Answers;
use orc_site::read_script;
use orc_syntax::parse;
use orc_tally::{Call, CaseReport, Counterexample, Report, Row, Searched, failing, failure_at};
use orc_ways::fault::TestFault;
use orc_ways::read_test;
use orc_ways::test::Test;
use std::alloc::{AllocError, Global};
use std::io::Write;
use std::thread::Threads;

/// Why a test's table, or what shows one of its failures, was not written. Failures have numbers from 1, in the order of the table's rows.
#[derive(Clone, Copy, Debug, PartialEq, Eq)]
pub enum Untested {
    /// A text is at fault, no run could be made, or the output wasn't taken whole.
    Fault(RunFault),
    /// The failure with this number was to be shown, and there are fewer.
    NoFailure(u64),
    /// The journal of the failure with this number was to be shown; no order showed it, and no run of it was found.
    NoJournal(u64),
}

/// The texts of a test: the program's source, the test, and the script of the sites that the test doesn't name; it is empty where there is none.
#[derive(Clone, Copy)]
pub struct TestTexts<'t> {
    pub source: &'t [u8],
    pub test: &'t [u8],
    pub script: &'t [u8],
}

/// What `test_text` gets: the names of a test's files, which the table's title and commands repeat, the texts of these files, and the options.
#[derive(Clone, Copy)]
pub struct TestInputs<'t> {
    pub names: &'t Names<'t>,
    pub texts: &'t TestTexts<'t>,
    pub options: &'t TestOptions,
}

/// Memory for what is to be written was refused: status 6, as if the output had failed.
pub(crate) const NO_TEXT: Untested = Untested::Fault(RunFault::Write(WriteFault));

/// Memory for what is tried was refused: status 5.
pub(crate) const NO_MEMORY: Untested = Untested::Fault(RunFault::Engine(EngineFault::Memory));

/// What is tried, how, and what is written of it.
#[derive(Drop)]
pub(crate) struct Tester<'s, 'a, R> {
    /// The runtime, which starts the threads.
    pub(crate) rt: &'s R,
    /// Where memory comes from.
    pub(crate) alloc: Global,
    /// The names of the files, for the table's title and the commands that it shows.
    names: &'s Names<'s>,
    /// The program, the claims, and the orders and the limit of each run.
    pub(crate) trials: &'s Trials<'s, 'a>,
    /// The options: how many threads make the runs of the trials, how many states a search looks at, what is to be written, and what the commands
    /// of the table repeat. The orders and the limit are those of `trials`.
    pub(crate) options: &'s TestOptions,
    /// Whether failures are explained: the numbers of ranges that fail, and a picture of the run that shows it.
    pub(crate) explains: bool,
}

// A fault of the test's text, as the reason why nothing is written of the test.
pub(crate) fn unread(fault: TestFault) -> Untested
    ensures { result ≡ Untested.Fault (RunFault.Test fault) }
{
    Untested::Fault(RunFault::Test(fault))
}

/// The fault of a trial (a run in one way and one order) as that of a run: either the program isn't loaded with the way's script, or the engine is at
/// fault.
pub(crate) fn run_fault(fault: TrialFault) -> RunFault
    ensures { result ≡ of_trial fault }
{
    match fault {
        TrialFault::Load(fault) => RunFault::from(fault),
        TrialFault::Engine(fault) => RunFault::Engine(fault),
    }
}

impl<R: Threads + Sync> Tester<'_, '_, R> {
    // Tries the ways of a case that have these scripts (a way is one choice of what the case's services answer), each in all orders of `trials`. The
    // report says how many ways the case has, how many were tried, how many runs were cut, and what came of each claim. The fault is that of the
    // first script with which the source isn't loaded, or one of the engine: a number is out of range or memory was refused, but the engine itself is
    // never to blame (`sound`).
    fn try_case(&self, scripts: &CaseScripts) -> Result<CaseReport, Untested>
        ensures tried { IfOk result (IsTried self.now.trials.now scripts.now) }
        ensures cause { IfErr result (AreUntried self.now.trials.now.source.now self.now.options.now.workers self.now.trials.now.limit (texts scripts.now.scripts.items)) }
        ensures sound { IfErr result (λ f. IsOwnFault f → ⊥) }
    {
        let Ok(mut told) = CaseTold::new(self.alloc, self.trials.claims) else {
            return Err(NO_MEMORY);
        };
        if let Err(fault) = try_ways(
            self.rt,
            self.alloc,
            self.trials,
            self.options.workers as usize,
            scripts.scripts.as_slice(),
            &mut told,
        ) {
            return Err(Untested::Fault(run_fault(fault)));
        }
        // How many ways were tried, the report on each claim, and how many runs were cut before they ended by themselves.
        let CaseTold {
            ways: tried,
            told: claims,
            cut,
        } = told;
        Ok(CaseReport {
            ways: scripts.count,
            tried,
            cut,
            told: claims,
        })
    }

    // Tries the ways of each case (choices of what its services answer): `cases` has their scripts. The result has a report for each case, in their
    // order. The faults are those of `try_case`.
    #[tactic(auto, using(crate::proofs::Testing::one_tried, crate::proofs::Untold::memory_untried, crate::proofs::Untold::untried_case))]
    fn try_cases(&self, cases: &[CaseScripts]) -> Result<Vec<CaseReport>, Untested>
        ensures tried { IfOk result (λ reports. AllZip (IsTried self.now.trials.now) cases.now reports.items) }
        ensures cause { IfErr result (AreUntried self.now.trials.now.source.now self.now.options.now.workers self.now.trials.now.limit (all_texts cases.now)) }
        ensures sound { IfErr result (λ f. IsOwnFault f → ⊥) }
    {
        let mut reports = Vec::new(self.alloc);
        // Not a `for`: the loop's invariant speaks of the rest of the list.
        let mut rest = cases;
        loop {
            match rest {
                [] => return Ok(reports),
                [scripts, more @ ..] => {
                    let report = self.try_case(scripts)?;
                    if reports.push(report).is_err() {
                        return Err(NO_MEMORY);
                    }
                    rest = more;
                }
            }
        }
    }

    // Searches all schedules for runs that break a claim which failed in no trial; `reports` says which claims failed. The result has what is found
    // of each claim of the test's lines, and all of it is true (`AreSaid`). The fault is refused memory.
    fn search_all(
        &self,
        test: &Test<'_>,
        cases: &[CaseScripts],
        reports: &[CaseReport],
    ) -> Result<Vec<Searched>, Untested>
        ensures said { IfOk result (λ said. AreSaid self.now.trials.now test.now.claim_lines.items cases.now reports.now said.items) }
        ensures cause { IfErr result IsNoMemory }
        ensures sound { IfErr result (λ f. IsOwnFault f → ⊥) }
    {
        let searcher = Searcher {
            alloc: self.alloc,
            trials: self.trials,
            test,
            cases,
            reports,
            most: self.options.states,
        };
        match searcher.search() {
            Ok(searched) => Ok(searched),
            Err(_) => Err(NO_MEMORY),
        }
    }
}

// Writes a text. The fault is one of the output (`IsNoText`); a prefix of the text was written then (`LeavesUntested`).
fn write_whole<W: Write>(out: &mut W, text: &[u8]) -> Result<(), Untested>
    ensures ok { OnOk result (Appends (W.contents out.old) (W.contents out.new) text.now) }
    ensures err { IfErr result (LeavesUntested (W.contents out.old) (W.contents out.new)) }
    ensures cause { IfErr result IsNoText }
    ensures sound { IfErr result (λ f. IsOwnFault f → ⊥) }
{
    match write_text(out, text) {
        Ok(()) => Ok(()),
        Err(fault) => Err(Untested::Fault(RunFault::Write(fault))),
    }
}

// The place, from 0, of the claim that fails in the failure with this number, from 1. It is 0 too if there is no such failure: a caller asks
// `failure_at` first whether there is.
fn failing_claim(rows: &[Row], number: u64) -> usize
    ensures { result ≡ failing_claim number rows.now }
{
    // The number, from 1, of the failure that is looked for, among the rows that are left.
    let mut number = number;
    // Not a `for`: the loop's invariant speaks of the rest of the list.
    let mut rest = rows;
    loop {
        match rest {
            [] => return 0,
            [row, more @ ..] => {
                if let Row::Fails(claim, _) = row {
                    if number == 1 {
                        return *claim;
                    }
                    number = number.saturating_sub(1);
                }
                rest = more;
            }
        }
    }
}

impl<R: Threads + Sync> Tester<'_, '_, R> {
    // Writes the table of a test: its rows, below each failure what shows it, and the commands that show the first failure. `cases` has the scripts
    // of each case's tried ways, `ways` all ways of each case, and `rows` are those of `report`. The fault is that of a run that is made again,
    // refused memory, or one of the output. Nothing was written then, but at one of the output a prefix.
    #[tactic(auto, using(crate::proofs::Testing::unwritten, crate::proofs::Untold::texts_unshown))]
    fn write_table<W: Write>(
        &self,
        cases: &[CaseScripts],
        ways: &[Ways],
        report: &Report<'_, '_>,
        rows: &[Row],
        out: &mut W,
    ) -> Result<(), Untested>
        ensures ok { OnOk result ((details : List (List ℕ)) × AreDetails self.now.trials.now self.now.explains ways.now cases.now 1 rows.now details × Appends (W.contents out.old) (W.contents out.new) (table_of (named_of self.now.names.now) self.now.options.now report.now details)) }
        ensures err { IfErr result (LeavesUntested (W.contents out.old) (W.contents out.new)) }
        ensures cause { IfErr result (AreUnshown self.now.trials.now.source.now self.now.trials.now.limit (all_texts cases.now)) }
        ensures sound { IfErr result (λ f. IsOwnFault f → ⊥) }
    {
        // One text for each failure, in the order of the rows: it stands below the failure.
        let details = self.all_details(report.test, cases, ways, rows)?;
        let names = self.names;
        // The script's name and the options on which failures depend, which the commands repeat.
        let Ok(repeated) = options_text(self.alloc, names.program.script, self.options) else {
            return Err(NO_TEXT);
        };
        // `Call` (of `orc_tally`) says how the commands that the text shows name the files and the options. It is no call of a site.
        let call = Call {
            source: names.program.file,
            test: names.test,
            options: repeated.as_slice(),
        };
        // The whole table, in which `call` gives the commands that show the first failure.
        let Ok(text) = report.table(self.alloc, &call, details.as_slice()) else {
            return Err(NO_TEXT);
        };
        write_whole(out, text.as_slice())
    }

    // Writes the script of the way (one choice of what the services answer) in which the claim of a failure fails. `number` is the failure's, from 1,
    // `cases` has the scripts of each case's tried ways, and `rows` the failures. The fault is that there is no such failure, or one of the output.
    // Nothing was written then, but at one of the output a prefix.
    #[tactic(auto, using(crate::proofs::Testing::unwritten, crate::proofs::Untold::texts_unshown, crate::proofs::Untold::unshown_unwritten))]
    fn write_script<W: Write>(
        &self,
        cases: &[CaseScripts],
        rows: &[Row],
        number: u64,
        out: &mut W,
    ) -> Result<(), Untested>
        ensures ok { OnOk result ((x : Example) × (text : List ℕ) × (failure_at number rows.now ≡ Some x) × IsScript cases.now x text × Appends (W.contents out.old) (W.contents out.new) text) }
        ensures err { IfErr result (LeavesUntested (W.contents out.old) (W.contents out.new)) }
        ensures cause { IfErr result (AreUnwritten self.now.trials.now.source.now self.now.trials.now.limit (all_texts cases.now) (what.Script number) rows.now) }
        ensures sound { IfErr result (λ f. IsOwnFault f → ⊥) }
    {
        // What shows the failure: a run in an order, or a schedule that the search found. None is that there are fewer failures.
        let Some(found) = failure_at(rows, number) else {
            return Err(Untested::NoFailure(number));
        };
        let script = script_at(cases, found)?;
        write_whole(out, script)?;
        Ok(())
    }

    // Writes the journal of a run that breaks a claim, where a search says that a schedule does and no order showed it. `script` is that of the
    // failure's way, `claim` the claim's place in the test, from 0, and `number` the failure's, from 1. The fault is that no such run is found, which
    // names the failure's number; refused memory; or one of the output.
    fn write_found<W: Write>(
        &self,
        script: &[u8],
        claim: usize,
        number: u64,
        out: &mut W,
    ) -> Result<(), Untested>
        ensures ok { OnOk result (HasShownFailure self.now.trials.now script.now claim (W.contents out.old) (W.contents out.new)) }
        ensures err { IfErr result (LeavesUntested (W.contents out.old) (W.contents out.new)) }
        ensures cause { IfErr result (IsUnfound self.now.trials.now.source.now self.now.trials.now.limit script.now number) }
        ensures sound { IfErr result (λ f. IsOwnFault f → ⊥) }
    {
        // `write_witness` answers whether it found such a run, and then has written its journal.
        if write_witness(
            self.alloc,
            self.trials,
            self.options.states,
            script,
            claim,
            out,
        )? {
            Ok(())
        } else {
            Err(Untested::NoJournal(number))
        }
    }

    // Writes the journal of the run that shows the failure with this number, from 1. `cases` has the scripts of each case's tried ways, and `rows`
    // the failures. The fault is that there is no such failure, or no run of it is found; refused memory; or one of the output. Nothing was written
    // then, but at one of the output a prefix.
    #[tactic(auto, using(crate::proofs::Testing::unwritten, crate::proofs::Untold::of_script, crate::proofs::Untold::texts_unshown, crate::proofs::Untold::unshown_unwritten))]
    fn write_journal<W: Write>(
        &self,
        cases: &[CaseScripts],
        rows: &[Row],
        number: u64,
        out: &mut W,
    ) -> Result<(), Untested>
        ensures ok { OnOk result ((x : Example) × (script : List ℕ) × (failure_at number rows.now ≡ Some x) × IsScript cases.now x script × HasShownFailure self.now.trials.now script (failing_claim number rows.now) (W.contents out.old) (W.contents out.new)) }
        ensures err { IfErr result (LeavesUntested (W.contents out.old) (W.contents out.new)) }
        ensures cause { IfErr result (AreUnwritten self.now.trials.now.source.now self.now.trials.now.limit (all_texts cases.now) (what.Journal number) rows.now) }
        ensures sound { IfErr result (λ f. IsOwnFault f → ⊥) }
    {
        // What shows the failure: a run in an order, or a schedule that the search found. None is that there are fewer failures.
        let Some(found) = failure_at(rows, number) else {
            return Err(Untested::NoFailure(number));
        };
        let script = script_at(cases, found)?;
        // The place of the claim that fails, from 0.
        let claim = failing_claim(rows, number);
        match found {
            // The run of this order shows the failure, and is made again.
            Counterexample::Trial(shown) => {
                let order = shown.failure.order;
                write_in_order(self.alloc, self.trials, order, script, claim, out)
            }
            // Only the search found the failure, and it keeps no run. So a run is looked for in which the claim fails.
            Counterexample::Schedule(_) => self.write_found(script, claim, number, out),
        }
    }

    // Writes what the options want of a test whose ways were tried: the table, or the script or the journal of one failure. `cases` has the scripts
    // of each case's tried ways, `ways` all ways of each case, and `rows` are those of `report`. The fault is that there is no failure with the
    // number that the options have, or no run of it is found; that of a run that is made again; refused memory; or one of the output. Nothing was
    // written then, but at one of the output a prefix.
    #[tactic(auto, using(crate::proofs::Untold::unshown_unwritten))]
    fn write_shown<W: Write>(
        &self,
        cases: &[CaseScripts],
        ways: &[Ways],
        report: &Report<'_, '_>,
        rows: &[Row],
        out: &mut W,
    ) -> Result<(), Untested>
        requires rows { rows.now ≡ rows_of report.now }
        ensures ok { OnOk result (Writes self.now.trials.now self.now.explains ways.now (named_of self.now.names.now) self.now.options.now cases.now report.now self.now.options.now.shown (W.contents out.old) (W.contents out.new)) }
        ensures err { IfErr result (LeavesUntested (W.contents out.old) (W.contents out.new)) }
        ensures cause { IfErr result (AreUnwritten self.now.trials.now.source.now self.now.trials.now.limit (all_texts cases.now) self.now.options.now.shown rows.now) }
        ensures sound { IfErr result (λ f. IsOwnFault f → ⊥) }
    {
        match self.options.shown {
            Shown::Table => self.write_table(cases, ways, report, rows, out),
            Shown::Script(number) => self.write_script(cases, rows, number, out),
            Shown::Journal(number) => self.write_journal(cases, rows, number, out),
        }
    }

    // Writes what the options want of a test whose ways were tried, the table or what shows one failure, and answers how many claims fail. `cases`
    // has the scripts of each case's tried ways, and `ways` all ways of each case. The fault is that there is no failure with the number that the
    // options have, or no run of it is found; that of a run that is made again; refused memory; or one of the output. Nothing was written then, but
    // at one of the output a prefix.
    #[tactic(auto, using(crate::proofs::Testing::unwritten))]
    fn write_test<W: Write>(
        &self,
        cases: &[CaseScripts],
        ways: &[Ways],
        report: &Report<'_, '_>,
        out: &mut W,
    ) -> Result<usize, Untested>
        ensures ok { IfOk result (λ n. Writes self.now.trials.now self.now.explains ways.now (named_of self.now.names.now) self.now.options.now cases.now report.now self.now.options.now.shown (W.contents out.old) (W.contents out.new)) }
        ensures number { IfOk result (λ n. n ≡ failing (rows_of report.now)) }
        ensures err { IfErr result (LeavesUntested (W.contents out.old) (W.contents out.new)) }
        ensures cause { IfErr result (AreUnwritten self.now.trials.now.source.now self.now.trials.now.limit (all_texts cases.now) self.now.options.now.shown (rows_of report.now)) }
        ensures sound { IfErr result (λ f. IsOwnFault f → ⊥) }
    {
        let Ok(all) = report.rows(self.alloc) else {
            return Err(NO_TEXT);
        };
        let rows = all.as_slice();
        self.write_shown(cases, ways, report, rows, out)?;
        // The number of rows of a claim that fails.
        Ok(failing(rows))
    }

    // The text on what looks like a mistake in a test: services that no run asked, and calls that no line answers. It is empty if nothing does.
    // `script` is the script beside the test, and `cases` has the scripts of each case's tried ways, whose runs are made again. The error is refused
    // memory.
    fn remarks(
        &self,
        test: &Test<'_>,
        cases: &[CaseScripts],
        script: &[u8],
    ) -> Result<String, AllocError> {
        let workers = self.options.workers as usize;
        let services = services_never_asked(
            self.rt,
            self.alloc,
            self.trials,
            test,
            cases,
            workers,
        )?;
        let calls = calls_never_answered(self.alloc, self.trials, test, cases, script)?;
        let mut page = Page::new(self.alloc);
        page.say(services.as_str());
        page.say(calls.as_str());
        page.finish()
    }

    // Explains what looks like a mistake, where the table is wanted and explanations are asked for; else it does nothing. It makes the test's runs
    // again. `script` is the script beside the test, and `cases` has the scripts of each case's tried ways.
    fn tell_remarks(
        &self,
        test: &Test<'_>,
        cases: &[CaseScripts],
        script: &[u8],
        explained: &mut Explained,
    ) {
        match self.options.shown {
            Shown::Table if self.explains => {
                explained.remarks(self.remarks(test, cases, script));
            }
            // A script or a journal is wanted, or no explanation is asked for.
            _ => {}
        }
    }

    // Tries the ways of a test's cases (choices of what their services answer), searches all schedules, writes what is wanted of the test, and
    // answers how many claims fail. `cases` has the scripts of the ways that are tried, and `ways` all ways of each case. The trials and the options
    // have the same limit of entries. The fault is that of a run, refused memory, one of the output, or that what is to be shown isn't there; the
    // engine itself is never to blame (`sound`).
    #[tactic(auto, using(crate::proofs::Testing::unwritten, crate::proofs::Untold::untried_untold, crate::proofs::Untold::memory_untold))]
    fn try_and_write<W: Write>(
        &self,
        test: &Test<'_>,
        cases: &[CaseScripts],
        ways: &[Ways],
        out: &mut W,
    ) -> Result<usize, Untested>
        requires limit { self.now.trials.now.limit ≡ self.now.options.now.limit }
        ensures tested { IfOk result (λ n. (r : Report) × (r.test.now ≡ test.now) × AllZip (IsTried self.now.trials.now) cases.now r.cases.now × (r.orders ≡ self.now.options.now.orders) × AreSaid self.now.trials.now r.test.now.claim_lines.items cases.now r.cases.now r.searched.now × Writes self.now.trials.now self.now.explains ways.now (named_of self.now.names.now) self.now.options.now cases.now r self.now.options.now.shown (W.contents out.old) (W.contents out.new) × (n ≡ failing (rows_of r))) }
        ensures fault { IfErr result (LeavesUntested (W.contents out.old) (W.contents out.new)) }
        ensures cause { IfErr result (AreUntold self.now.trials.now test.now self.now.options.now cases.now) }
        ensures sound { IfErr result (λ f. IsOwnFault f → ⊥) }
    {
        // What the trials came to in each case, and what the search found of each claim.
        let reports = self.try_cases(cases)?;
        let tried = reports.as_slice();
        let searched = self.search_all(test, cases, tried)?;
        let found = searched.as_slice();
        let report = Report {
            test,
            cases: tried,
            orders: self.options.orders,
            searched: found,
        };
        let number = self.write_test(cases, ways, &report, out)?;
        Ok(number)
    }
}

// Adds the claim that a run ends by itself, halted (the first `true`) or quiet (the second), at whatever time (None). It has no line in the test, so
// it comes last: the others keep the places of their lines. The error is refused memory.
fn add_end(alloc: Global, test: &mut Test<'_>) -> Result<(), AllocError>
    ensures { OnOk result (IsJudged test.old test.new) }
{
    let end = Claim {
        conditions: Vec::new(alloc),
        plain: Plain::Ends(true, true, None),
    };
    test.claims.push(end)?;
    Ok(())
}

// Judges the claims of a test that was read, to which `add_end` has added the one that a run ends by itself, in the first of these ways of its cases,
// as many of a case as the options say, and answers how many fail. The remarks on what looks like a mistake come last, once the table has been
// written. The fault is that of a run, refused memory, one of the output, or that what is to be shown isn't there. The clauses *tested* and *cause*
// hold of each text that says this test beside the script of `inputs`.
#[tactic(auto, using(crate::proofs::Testing::unwritten))]
fn hold<'t, 'a, R: Threads + Sync, W: Write>(
    rt: &'t R,
    alloc: Global,
    inputs: &'t TestInputs<'t>,
    test: &'t Test<'a>,
    ways: &[Ways],
    out: &mut W,
    explained: &mut Explained,
) -> Result<usize, Untested>
    ensures tested { IfOk result (λ n. (text : List ℕ) (others : Table) (read : ATest) → Says inputs.now.texts.now.script.now others → SaysTest text others (test_of read) → IsJudged read test.now → AreWays (test_of read) 0 ways.now → (length ways.now ≡ length read.cases.items) → HasFailing inputs.now.texts.now.source.now text inputs.now.texts.now.script.now (named_of inputs.now.names.now) inputs.now.options.now (is_asked explained.old) (W.contents out.old) (W.contents out.new) n) }
    ensures fault { IfErr result (LeavesUntested (W.contents out.old) (W.contents out.new)) }
    ensures cause { (text : List ℕ) (others : Table) (s : Source) (read : ATest) → SpellsTree inputs.now.texts.now.source.now s → Says inputs.now.texts.now.script.now others → SaysTest text others (test_of read) → IsJudged read test.now → AreWays (test_of read) 0 ways.now → (length ways.now ≡ length read.cases.items) → IfErr result (IsUntestedFor inputs.now.texts.now.source.now text inputs.now.texts.now.script.now inputs.now.options.now) }
    ensures sound { IfErr result (λ f. IsOwnFault f → ⊥) }
{
    let options = inputs.options;
    let texts = inputs.texts;
    // The scripts of each case's first ways, as many of a case as the options say.
    let cases = all_scripts(alloc, ways, options.ways, texts.script)?;
    let sites = test.sites.as_slice();
    let claims = test.claims.as_slice();
    let trials = Trials {
        source: texts.source,
        sites,
        claims,
        orders: options.orders,
        limit: options.limit,
    };
    let scripts = cases.as_slice();
    let explains = explained.is_asked();
    let tester = Tester {
        rt,
        alloc,
        names: inputs.names,
        trials: &trials,
        options,
        explains,
    };
    let number = tester.try_and_write(test, scripts, ways, out)?;
    tester.tell_remarks(test, scripts, texts.script, explained);
    Ok(number)
}

// The table of the built-in sites and those of the script beside the test. The fault is one of the script's text (`IsNoScript`).
fn others_of(alloc: Global, script: &[u8]) -> Result<Answers, Untested>
    ensures says { IfOk result (Says script.now) }
    ensures cause { IfErr result (IsNoScript script.now) }
    ensures sound { IfErr result (λ f. IsOwnFault f → ⊥) }
{
    match read_script(alloc, script) {
        Ok(others) => Ok(others),
        Err(fault) => Err(Untested::Fault(RunFault::Script(fault))),
    }
}

// The test that a text says, beside the sites `others`: the built-in ones and those of a script, which need no service in the test. The fault is one
// of the test's text (`IsNoTest`).
fn known_of<'a>(alloc: Global, text: &'a [u8], others: &Answers) -> Result<Test<'a>, Untested>
    ensures says { IfOk result (λ t. SaysTest text.now others.now (test_of t)) }
    ensures cause { IfErr result (IsNoTest text.now others.now) }
    ensures sound { IfErr result (λ f. IsOwnFault f → ⊥) }
{
    match read_test(alloc, text, others) {
        Ok(test) => Ok(test),
        Err(fault) => Err(unread(fault)),
    }
}

/// Judges the claims of a test on the program that a source spells, with the built-in sites, those of the test and those of a script: each case in
/// its first ways, as many as the options say, each way in as many orders as they say; and then, for a claim that failed in none of these runs, all
/// schedules of each way. Writes the names of the program and the test, a line for each claim, below one that fails what shows it, and the commands
/// that show the first failure; or instead the script or the journal that shows one failure. That runs end by themselves is claimed in each case in
/// which no claim says how they end, and has a line where it fails. Answers how many claims fail. Where explanations are asked for, the ranges'
/// numbers with which a claim fails and the picture of the run stand below each failure that a run showed; and with the table `explained` gets which
/// services no run asked, and which calls no line answers.
///
/// The faults are those of the source's text, of the script, of the test and of the source's names, in this order; `Engine` where the number of
/// workers or the limit is out of range, or memory is refused for what is tried; `Write` where memory for the text is refused or the output isn't
/// taken whole; `NoFailure` where there are fewer failures than the number of the one that is to be shown; and `NoJournal` where the journal is
/// wanted of a failure that no order showed, and no run of it is found. Nothing is written then, but at a fault of the output a prefix of the text.
#[tactic(auto, using(crate::proofs::Testing::unwritten, crate::proofs::Untold::unscripted_for, crate::proofs::Untold::unread_for))]
pub fn test_text<'t, R: Threads + Sync, W: Write>(
    rt: &'t R,
    alloc: Global,
    inputs: &'t TestInputs<'t>,
    out: &mut W,
    explained: &mut Explained,
) -> Result<usize, Untested>
    ensures tested { IfOk result (HasFailing inputs.now.texts.now.source.now inputs.now.texts.now.test.now inputs.now.texts.now.script.now (named_of inputs.now.names.now) inputs.now.options.now (is_asked explained.old) (W.contents out.old) (W.contents out.new)) }
    ensures fault { IfErr result (LeavesUntested (W.contents out.old) (W.contents out.new)) }
    ensures cause { IfErr result (IsUntestedFor inputs.now.texts.now.source.now inputs.now.texts.now.test.now inputs.now.texts.now.script.now inputs.now.options.now) }
    ensures sound { IfErr result (λ f. IsOwnFault f → ⊥) }
{
    let texts = inputs.texts;
    // The tree isn't used: each way's program is loaded from the text. But a fault of the source's text comes before those of the script and the
    // test.
    if let Err(fault) = parse(alloc, texts.source) {
        return Err(Untested::Fault(RunFault::Syntax(fault)));
    }
    // The built-in sites and those of the script beside the test; the test that the text says; and all ways of each of its cases.
    let others = others_of(alloc, texts.script)?;
    let mut known = known_of(alloc, texts.test, &others)?;
    let counted = ways_of(alloc, &known)?;
    // Behind the claims of the test's lines stands one more: that each run halts or goes quiet, so isn't cut.
    let Ok(()) = add_end(alloc, &mut known) else {
        return Err(NO_MEMORY);
    };
    let ways = counted.as_slice();
    let number = hold(rt, alloc, inputs, &known, ways, out, explained)?;
    Ok(number)
}
