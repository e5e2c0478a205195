//! The rows of the table that `orc test` prints of a test. A claim's *section* is the place of its case, or None for `always`. Cases and claims are
//! named by their places in the test, from 0. The claims of a case are held against its own runs, those of `always` against the runs of each case. A
//! `ClaimLine` is the line of a claim: its text and its section. `Told` is what is reported of a claim over many runs, and a `Failure` is a run in
//! which it fails.
//!
//! A loop that matches on the rest of a list is no `for`, since its invariant speaks of that rest.

ghost use Rattle.std.specs.Prelude.{◌≡◌, ◌++◌, IfOk, OnOk};
ghost use Rattle.std.specs.List.{slice_get};
ghost use Rattle.orc_tally.specs.Table.{are_full, case_of, case_rows, claim_rows, claims_told, end_rows, failing, failure_at, failure_of, found_of, has_end, is_end, is_full, is_held, is_of_end, is_open, is_same, is_tested, lines, row_of, rows, shown_in, tested_in, told_here, unshown, way_of};

use crate::told::{Failure, Told};
use orc_claims::claim::{Claim, Plain};
use orc_ways::test::{ClaimLine, Test};
use std::alloc::{AllocError, Global};

/// What is reported of a case of a test. A *way* is one choice of answers for the services of the case.
#[derive(Drop)]
pub struct CaseReport {
    /// How many ways the case has.
    pub ways: u64,
    /// How many of the ways were tried, the first ones.
    pub tried: u64,
    /// How many of the case's runs didn't end by themselves: the limit of entries cut them, or a limit of the engine.
    pub cut: u64,
    /// What is reported of each claim of the test, claims of other cases too, over the ways that were tried: at the claim's place. There may be one
    /// more behind those that have a line in the test: `ends Halted or Quiet`.
    pub told: Vec<Told>,
}

/// A trial (a run in some way and some order) in which a claim fails.
#[derive(Clone, Copy)]
pub struct Shown {
    /// The place of the trial's case, from 0.
    pub case: usize,
    /// The trial's way and order in that case, and where in the run the claim fails.
    pub failure: Failure,
}

/// A way (one choice of what the services answer) in which a search found a schedule that breaks a claim: an order of moves after which the claim
/// fails.
#[derive(Clone, Copy, PartialEq, Eq, Debug)]
pub struct Broken {
    /// The place of the way's case, from 0.
    pub case: usize,
    /// The number of the way in the case, from 0.
    pub way: u64,
}

/// What came of the search through all schedules for a claim.
#[derive(Clone, Copy, PartialEq, Eq, Debug)]
pub enum Searched {
    /// Nothing: the search wasn't made, or stopped before it had looked at all states.
    No,
    /// Every schedule of every way keeps the claim: it holds in each run that ends by itself.
    Whole,
    /// A schedule breaks the claim, in this way.
    Breaks(Broken),
}

/// What shows that a claim fails.
#[derive(Clone, Copy)]
pub enum Counterexample {
    /// A run in some order.
    Trial(Shown),
    /// A schedule that a search found; none of the orders that were tried took it.
    Schedule(Broken),
}

impl Counterexample {
    /// The place of the counterexample's case in the test, from 0.
    pub fn case(&self) -> usize
        ensures { result ≡ case_of self.now }
    {
        match self {
            Counterexample::Trial(shown) => shown.case,
            Counterexample::Schedule(broken) => broken.case,
        }
    }

    /// The number of the counterexample's way in the case, from 0.
    pub fn way(&self) -> u64
        ensures { result ≡ way_of self.now }
    {
        match self {
            Counterexample::Trial(shown) => shown.failure.way,
            Counterexample::Schedule(broken) => broken.way,
        }
    }
}

/// A line of the table. A claim is its place in the test, from 0; the one at the place behind the last line of a claim is `ends Halted or Quiet`.
#[derive(Clone, Copy)]
pub enum Row {
    /// The claims of the case at this place begin.
    Case(usize),
    /// The claims that stand below `always` begin.
    Always,
    /// The claim at this place failed in no run, and no search found a schedule that breaks it.
    Holds {
        claim: usize,
        /// Whether the claim was put to the test in some run: something happened that it is about.
        tested: bool,
        /// Whether a search through all schedules has found that every one keeps the claim.
        whole: bool,
    },
    /// The claim at this place failed.
    Fails(usize, Counterexample),
}

/// All that the table of a test is made of.
#[derive(Clone, Copy)]
pub struct Report<'r, 'a> {
    /// The test, whose claims, cases and their lines the table shows.
    pub test: &'r Test<'a>,
    /// What is reported of each case, in the order of the test.
    pub cases: &'r [CaseReport],
    /// In how many orders each way was run.
    pub orders: u64,
    /// What a search found for each claim, at the claim's place. For claims behind the last of these no search was made.
    pub searched: &'r [Searched],
}

/// Whether a claim of this section (its case, or None for `always`) is held against the runs of the case at the place `case`: one of that case
/// itself, or of `always`, is.
pub fn is_held(section: Option<usize>, case: usize) -> bool
    ensures { result ≡ is_held section case }
{
    match section {
        Some(own) => own == case,
        None => true,
    }
}

// Whether both sections are the same case, or both `always`, which is None.
fn is_same(section: Option<usize>, other: Option<usize>) -> bool
    ensures { result ≡ is_same section other }
{
    match (section, other) {
        (Some(one), Some(other)) => one == other,
        (None, None) => true,
        _ => false,
    }
}

// What `report` says of a claim over the case at the place `case`; None if the claim isn't held against the runs of that case, or nothing is reported
// of the claim. `section` is the claim's: its case, or None for `always`.
pub(crate) fn told_here(
    section: Option<usize>,
    claim: usize,
    case: usize,
    report: &CaseReport,
) -> Option<Told>
    ensures { result ≡ told_here section claim case report.now }
{
    if is_held(section, case) {
        report.told.get(claim).copied()
    } else {
        None
    }
}

// The first failure of a claim, by what is reported of it; None if nothing is reported, or there is no failure.
fn failure_of(told: Option<Told>) -> Option<Failure>
    ensures { result ≡ failure_of told }
{
    match told {
        Some(told) => told.first,
        None => None,
    }
}

// Whether a claim was put to the test, by what is reported of it; false if nothing is reported.
fn is_tested(told: Option<Told>) -> bool
    ensures { result ≡ is_tested told }
{
    match told {
        Some(told) => told.tested,
        None => false,
    }
}

// The first failure of the claim at the place `claim`, in the first of these cases that has one; None if no trial shows one. `section` is the
// claim's: its case, or None for `always`. In the loop `rest` are the reports on the cases from the place `case` on.
fn shown_in(section: Option<usize>, claim: usize, cases: &[CaseReport]) -> Option<Shown>
    ensures { result ≡ shown_in section claim 0 cases.now }
{
    let mut case = 0;
    let mut rest = cases;
    loop {
        match rest {
            [] => return None,
            [report, more @ ..] => {
                if let Some(failure) = failure_of(told_here(section, claim, case, report)) {
                    return Some(Shown { case, failure });
                }
                case += 1;
                rest = more;
            }
        }
    }
}

// Whether the claim at the place `claim` was put to the test in some case. `section` is the claim's: its case, or None for `always`. In the loop
// `rest` are the reports on the cases from the place `case` on.
fn tested_in(section: Option<usize>, claim: usize, cases: &[CaseReport]) -> bool
    ensures { result ≡ tested_in section claim 0 cases.now }
{
    let mut case = 0;
    let mut rest = cases;
    loop {
        match rest {
            [] => return false,
            [report, more @ ..] => {
                if is_tested(told_here(section, claim, case, report)) {
                    return true;
                }
                case += 1;
                rest = more;
            }
        }
    }
}

// Whether all ways of a case were tried, and no run was cut by a limit: then a search through all schedules may show that a claim always holds.
fn is_full(report: &CaseReport) -> bool
    ensures { result ≡ is_full report.now }
{
    report.tried == report.ways && report.cut == 0
}

// Whether all ways were tried and no run was cut, in each case against which a claim of this section (a case, or None for `always`) is held. In the
// loop `rest` are the reports on the cases from the place `case` on.
fn are_full(section: Option<usize>, cases: &[CaseReport]) -> bool
    ensures { result ≡ are_full section 0 cases.now }
{
    let mut case = 0;
    let mut rest = cases;
    loop {
        match rest {
            [] => return true,
            [report, more @ ..] => {
                if is_held(section, case) && !is_full(report) {
                    return false;
                }
                case += 1;
                rest = more;
            }
        }
    }
}

/// Whether a search through all schedules may still say more of a claim: it failed in no trial, all ways of the cases against which it is held were
/// tried, and no run was cut. `section` is the claim's case, or None for `always`, and `claim` its place in the test, from 0.
pub fn is_open(cases: &[CaseReport], section: Option<usize>, claim: usize) -> bool
    ensures { result ≡ is_open cases.now section claim }
{
    shown_in(section, claim, cases).is_none() && are_full(section, cases)
}

// What came of the search through all schedules for the claim at this place; `No` if none was made.
fn found_of(searched: &[Searched], claim: usize) -> Searched
    ensures { result ≡ found_of (slice_get searched.now claim) }
{
    match searched.get(claim) {
        Some(found) => *found,
        None => Searched::No,
    }
}

// The row of a claim that failed in no trial, by what came of the search through all schedules. `tested` says that the claim was put to the test.
fn unshown(claim: usize, tested: bool, searched: Searched) -> Row
    ensures { result ≡ unshown claim tested searched }
{
    match searched {
        Searched::No => Row::Holds {
            claim,
            tested,
            whole: false,
        },
        Searched::Whole => Row::Holds {
            claim,
            tested,
            whole: true,
        },
        Searched::Breaks(broken) => Row::Fails(claim, Counterexample::Schedule(broken)),
    }
}

// The row of the claim at the place `claim`, which is of this section (a case, or None for `always`). If a trial shows that it fails the row has that
// trial; a schedule that breaks the claim stands there only if none does.
fn row_of(cases: &[CaseReport], searched: &[Searched], section: Option<usize>, claim: usize) -> Row
    ensures { result ≡ row_of cases.now searched.now section claim }
{
    match shown_in(section, claim, cases) {
        Some(shown) => Row::Fails(claim, Counterexample::Trial(shown)),
        None => unshown(
            claim,
            tested_in(section, claim, cases),
            found_of(searched, claim),
        ),
    }
}

// Pushes the rows of those claims that are in the section: a case, or `always` if it is None. `claims` has the lines of all claims of the test; in
// the loop `rest` are those from the place `claim` on. The error is refused memory.
fn add_claims(
    cases: &[CaseReport],
    searched: &[Searched],
    section: Option<usize>,
    claims: &[ClaimLine<'_>],
    rows: &mut Vec<Row>,
) -> Result<(), AllocError>
    ensures { OnOk result (rows.new.items ≡ rows.old.items ++ claim_rows cases.now searched.now section 0 claims.now) }
{
    let mut claim = 0;
    let mut rest = claims;
    loop {
        match rest {
            [] => return Ok(()),
            [line, more @ ..] => {
                if is_same(line.case, section) {
                    rows.push(row_of(cases, searched, section, claim))?;
                }
                claim += 1;
                rest = more;
            }
        }
    }
}

// Whether this claim, of which the conditions are left out, says how a run ends, as `ends Halted` does.
fn is_of_end(plain: &Plain) -> bool
    ensures { result ≡ is_of_end plain.now }
{
    match plain {
        Plain::Ends(_, _, _) => true,
        _ => false,
    }
}

// Whether a claim says how a run ends, under no condition on what happens in the run.
fn is_end(claim: &Claim) -> bool
    ensures { result ≡ is_end claim.now }
{
    claim.conditions.len() == 0 && is_of_end(&claim.plain)
}

// Whether one of these claims says how the runs of the case at this place end. `lines` has the line of each claim, in the same order, and so as many;
// in the loop `rest` are the claims that are left, and `behind` their lines.
fn has_end(case: usize, claims: &[Claim], lines: &[ClaimLine<'_>]) -> bool
    ensures { result ≡ has_end case claims.now lines.now }
{
    let mut rest = claims;
    let mut behind = lines;
    loop {
        match rest {
            [] => return false,
            [claim, more @ ..] => match behind {
                // It doesn't come: there are as many lines as claims.
                [] => return false,
                [line, others @ ..] => {
                    if is_held(line.case, case) && is_end(claim) {
                        return true;
                    }
                    rest = more;
                    behind = others;
                }
            },
        }
    }
}

// Pushes the row of `ends Halted or Quiet` for the case at this place, if no claim says how its runs end, and one of its runs was cut by a limit.
// That claim has no line in the test. The error is refused memory.
fn add_end(
    cases: &[CaseReport],
    claims: &[Claim],
    lines: &[ClaimLine<'_>],
    case: usize,
    rows: &mut Vec<Row>,
) -> Result<(), AllocError>
    ensures { OnOk result (rows.new.items ≡ rows.old.items ++ end_rows cases.now claims.now lines.now case) }
{
    if has_end(case, claims, lines) {
        return Ok(());
    }
    // The place of `ends Halted or Quiet`, which comes after the claims that have a line.
    let claim = lines.len();
    match shown_in(Some(case), claim, cases) {
        Some(shown) => {
            rows.push(Row::Fails(claim, Counterexample::Trial(shown)))?;
            Ok(())
        }
        // The claim fails in no run of the case, so none was cut; and it is shown only where it fails.
        None => Ok(()),
    }
}

impl Report<'_, '_> {
    // The rows of the cases: of each its own row, then those of its claims. In the loop `case` counts the cases. The error is refused memory.
    fn case_rows(&self, alloc: Global) -> Result<Vec<Row>, AllocError>
        ensures { IfOk result (λ rows. rows.items ≡ case_rows self.now.cases.now self.now.searched.now self.now.test.now.claims.items self.now.test.now.claim_lines.items 0 self.now.cases.now) }
    {
        let mut rows = Vec::new(alloc);
        let claims = self.test.claims.as_slice();
        let lines = self.test.claim_lines.as_slice();
        let mut case = 0;
        let mut rest = self.cases;
        loop {
            match rest {
                [] => return Ok(rows),
                [_, more @ ..] => {
                    rows.push(Row::Case(case))?;
                    add_claims(self.cases, self.searched, Some(case), lines, &mut rows)?;
                    add_end(self.cases, claims, lines, case, &mut rows)?;
                    case += 1;
                    rest = more;
                }
            }
        }
    }

    /// The rows of the table: those of each case, and those of `always`. The error is refused memory.
    pub fn rows(&self, alloc: Global) -> Result<Vec<Row>, AllocError>
        ensures { IfOk result (λ all. all.items ≡ rows self.now) }
    {
        let mut rows = self.case_rows(alloc)?;
        rows.push(Row::Always)?;
        add_claims(
            self.cases,
            self.searched,
            None,
            self.test.claim_lines.as_slice(),
            &mut rows,
        )?;
        Ok(rows)
    }
}

/// How many rows are of a claim that fails.
pub fn failing(rows: &[Row]) -> usize
    ensures { result ≡ failing rows.now }
{
    let mut number = 0;
    let mut rest = rows;
    loop {
        match rest {
            [] => return number,
            [row, more @ ..] => {
                if let Row::Fails(_, _) = row {
                    number += 1;
                }
                rest = more;
            }
        }
    }
}

// How many rows are of a claim, whether it holds or fails; the others are headings.
pub(crate) fn claims_told(rows: &[Row]) -> usize
    ensures { result ≡ claims_told rows.now }
{
    let mut number = 0;
    let mut rest = rows;
    loop {
        match rest {
            [] => return number,
            [row, more @ ..] => {
                if let Row::Holds { .. } | Row::Fails(_, _) = row {
                    number += 1;
                }
                rest = more;
            }
        }
    }
}

/// What shows the failure with this number, from 1 and in the order of the rows; None if there are fewer. This is the K of `--fail K`.
pub fn failure_at(rows: &[Row], number: u64) -> Option<Counterexample>
    ensures { result ≡ failure_at number rows.now }
{
    let mut number = number;
    let mut rest = rows;
    loop {
        match rest {
            [] => return None,
            [row, more @ ..] => {
                if let Row::Fails(_, found) = row {
                    // `number` counts down the failures that are still to come.
                    if number == 1 {
                        return Some(*found);
                    }
                    // 0 is the number of no failure. It stays 0, so that none is found.
                    number = number.saturating_sub(1);
                }
                rest = more;
            }
        }
    }
}
