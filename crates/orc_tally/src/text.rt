//! The text of the table that `orc test` prints of a test.
//!
//! The loops over lists aren't `for` loops, since their invariants speak of the rest of the list. Each error is refused memory. A claim's *section*
//! is the place of its case, or None for `always`; cases and claims are named by their places in the test, from 0. A `Report` has all that the table
//! is made of, and a `Row` is a line of it. A way is one choice of what the services of a case answer; each way is run in some orders. `Told` is what
//! is reported of a claim over the runs of a case, and a `Counterexample` is what shows that it fails: a run, or a schedule that a search found.

ghost use Rattle.std.specs.Prelude.{◌≡◌, ◌++◌, IfOk, IfSome, OnOk, Some, codes, map, true};
ghost use Rattle.std.specs.List.{slice_get};
ghost use Rattle.orc_tally.specs.Table.{all_tried, all_ways, always_text, before_comment, call_text, case_text, case_ways, claim_at, comma, commands_text, failing, failing_in, fails_text, hint_text, holds_text, is_grouped, lines, name_at, note, number_text, orders_text, row_text, rows, schedule_text, section_in, share, share_text, shares, sum_text, table, title_text, trimmed, ways_text, whole_note};

use crate::shell::write_word;
use crate::table::{CaseReport, Counterexample, Report, Row, claims_told, failing, told_here};
use crate::told::Told;
use orc_ways::test::ClaimLine;
use std::alloc::{AllocError, Global};

/// How the command line names its files, for the commands that the table shows.
#[derive(Clone, Copy)]
pub struct Call<'c> {
    /// The name of the program's file.
    pub source: &'c str,
    /// The name of the test's file.
    pub test: &'c str,
    /// The options on which the failures depend, each behind a blank, as a shell takes them.
    pub options: &'c [u8],
}

// The part of a line before its comment, which begins with `--`.
fn before_comment(text: &[u8]) -> &[u8]
    ensures { result.now ≡ before_comment text.now }
{
    let mut end = 0;
    let mut rest = text;
    loop {
        match rest {
            [] => return text,
            [b'-', b'-', ..] => return &text[..end],
            [_, more @ ..] => {
                end += 1;
                rest = more;
            }
        }
    }
}

// A text without the blanks at its beginning and its end.
fn trimmed(text: &[u8]) -> &[u8]
    ensures { result.now ≡ trimmed text.now }
{
    text.trim_ascii()
}

/// A claim as its line has it, without a comment and without the blanks at its beginning and its end.
pub fn claim_text<'a>(line: &ClaimLine<'a>) -> &'a [u8]
    ensures { result.now ≡ claim_at (Some line.now) }
{
    trimmed(before_comment(line.text))
}

impl Report<'_, '_> {
    // Appends the name of the case at this place; nothing if there is none.
    fn write_name(&self, case: usize, text: &mut Vec<u8>) -> Result<(), AllocError>
        ensures { OnOk result (text.new.items ≡ text.old.items ++ name_at (slice_get self.now.test.now.cases.items case)) }
    {
        match self.test.cases.get(case) {
            Some(case) => text.extend_from_slice(case.name),
            None => Ok(()),
        }
    }

    // Appends the text of the claim at this place in the test. The claim at the place behind the last line is `ends Halted or Quiet`.
    fn write_claim(&self, claim: usize, text: &mut Vec<u8>) -> Result<(), AllocError>
        ensures { OnOk result (text.new.items ≡ text.old.items ++ claim_at (slice_get self.now.test.now.claim_lines.items claim)) }
    {
        match self.test.claim_lines.get(claim) {
            Some(line) => text.extend_from_slice(claim_text(line)),
            None => text.extend_from_slice(b"ends Halted or Quiet"),
        }
    }

    // Appends how many ways the case at this place has, and how many of them were tried if not all; nothing if nothing is reported of the case.
    fn write_ways(&self, alloc: Global, case: usize, text: &mut Vec<u8>) -> Result<(), AllocError>
        ensures { OnOk result (text.new.items ≡ text.old.items ++ case_ways (slice_get self.now.cases.now case)) }
    {
        let Some(report) = self.cases.get(case) else {
            return Ok(());
        };
        write_ways(alloc, report.ways, report.tried, text)
    }

    // Appends the line of the case at this place: `case slow: 378 ways, 20 orders each`. A way is one choice of answers of the services.
    fn write_case(&self, alloc: Global, case: usize, text: &mut Vec<u8>) -> Result<(), AllocError>
        ensures { OnOk result (text.new.items ≡ text.old.items ++ case_text self.now case) }
    {
        text.extend_from_slice(b"case ")?;
        self.write_name(case, text)?;
        self.write_ways(alloc, case, text)?;
        write_orders(alloc, self.orders, text)?;
        text.push(b'\n')?;
        Ok(())
    }

    // Appends the line above the claims of `always`, which has the ways of all cases: `always: 2,107 ways`
    fn write_always(&self, alloc: Global, text: &mut Vec<u8>) -> Result<(), AllocError>
        ensures { OnOk result (text.new.items ≡ text.old.items ++ always_text self.now) }
    {
        let (Some(ways), Some(tried)) = (all_ways(self.cases), all_tried(self.cases)) else {
            // Not reached: a test has at most `MOST_CASES` cases of `MOST_WAYS` ways each.
            return Err(AllocError);
        };
        text.extend_from_slice(b"always")?;
        write_ways(alloc, ways, tried, text)?;
        text.push(b'\n')?;
        Ok(())
    }

    // Appends `27 of 378 ways of slow`, where a claim fails in `failing` ways, 27, of the 378 that were `tried` in the case at the place `case`.
    fn write_one(
        &self,
        alloc: Global,
        failing: u64,
        tried: u64,
        case: usize,
        text: &mut Vec<u8>,
    ) -> Result<(), AllocError>
        ensures { OnOk result (text.new.items ≡ text.old.items ++ share failing tried (name_at (slice_get self.now.test.now.cases.items case))) }
    {
        write_number(alloc, failing, text)?;
        text.extend_from_slice(b" of ")?;
        write_number(alloc, tried, text)?;
        text.extend_from_slice(b" ways of ")?;
        self.write_name(case, text)
    }

    // Appends in how many ways a claim fails, for each case in which it does: `27 of 378 ways of slow, 5 of 48 ways of anything`. `section` is the
    // claim's: its case, or None for `always`.
    fn write_shares(
        &self,
        alloc: Global,
        section: Option<usize>,
        claim: usize,
        text: &mut Vec<u8>,
    ) -> Result<(), AllocError>
        ensures { OnOk result (text.new.items ≡ text.old.items ++ shares self.now.test.now.cases.items section claim true 0 self.now.cases.now) }
    {
        // No comma stands before the first case that is shown. `rest` are the reports on the cases from the place `case` on.
        let mut is_first = true;
        let mut case = 0;
        let mut rest = self.cases;
        loop {
            match rest {
                [] => return Ok(()),
                [report, more @ ..] => {
                    let failing = failing_in(told_here(section, claim, case, report));
                    if failing > 0 {
                        text.extend_from_slice(comma(is_first).as_bytes())?;
                        self.write_one(alloc, failing, report.tried, case, text)?;
                        is_first = false;
                    }
                    case += 1;
                    rest = more;
                }
            }
        }
    }

    // Appends `a way of slow, in a schedule that no order showed`, for the case at this place: a search through all schedules has found it.
    fn write_schedule(&self, case: usize, text: &mut Vec<u8>) -> Result<(), AllocError>
        ensures { OnOk result (text.new.items ≡ text.old.items ++ schedule_text self.now case) }
    {
        text.extend_from_slice(b"a way of ")?;
        self.write_name(case, text)?;
        text.extend_from_slice(b", in a schedule that no order showed")?;
        Ok(())
    }

    // Appends where the claim at this place fails, by what shows it: in how many ways of which cases, or in a schedule.
    fn write_share(
        &self,
        alloc: Global,
        claim: usize,
        found: &Counterexample,
        text: &mut Vec<u8>,
    ) -> Result<(), AllocError>
        ensures { OnOk result (text.new.items ≡ text.old.items ++ share_text self.now claim found.now) }
    {
        match found {
            Counterexample::Trial(shown) => {
                self.write_shares(alloc, self.section(claim, shown.case), claim, text)
            }
            Counterexample::Schedule(broken) => self.write_schedule(broken.case, text),
        }
    }

    // Appends the line of the claim at this place, which fails as `found` shows: `  FAILS  no A()    27 of 378 ways of slow`
    fn write_failure(
        &self,
        alloc: Global,
        claim: usize,
        found: &Counterexample,
        text: &mut Vec<u8>,
    ) -> Result<(), AllocError>
        ensures { OnOk result (text.new.items ≡ text.old.items ++ fails_text self.now claim found.now) }
    {
        text.extend_from_slice(b"  FAILS  ")?;
        self.write_claim(claim, text)?;
        text.extend_from_slice(b"    ")?;
        self.write_share(alloc, claim, found, text)?;
        text.push(b'\n')?;
        Ok(())
    }

    // The section (a case, or None for `always`) of the claim at this place, which fails in the case `case`. The one without a line, `ends Halted or
    // Quiet`, is held against each case by itself, so its section is that case.
    fn section(&self, claim: usize, case: usize) -> Option<usize>
        ensures { result ≡ section_in case (slice_get self.now.test.now.claim_lines.items claim) }
    {
        match self.test.claim_lines.get(claim) {
            Some(line) => line.case,
            None => Some(case),
        }
    }

    // Appends the line of the claim at this place, which holds: `  ok     no A()    (every schedule)`. `tested` says that it was put to the test,
    // `whole` that every schedule keeps it.
    fn write_success(
        &self,
        claim: usize,
        tested: bool,
        whole: bool,
        text: &mut Vec<u8>,
    ) -> Result<(), AllocError>
        ensures { OnOk result (text.new.items ≡ text.old.items ++ holds_text self.now claim tested whole) }
    {
        text.extend_from_slice(b"  ok     ")?;
        self.write_claim(claim, text)?;
        let note = if whole {
            whole_note(tested)
        } else {
            note(tested)
        };
        text.extend_from_slice(note.as_bytes())
    }

    // Appends the line of a row.
    fn write_row(&self, alloc: Global, row: Row, text: &mut Vec<u8>) -> Result<(), AllocError>
        ensures { OnOk result (text.new.items ≡ text.old.items ++ row_text self.now row) }
    {
        match row {
            Row::Case(case) => self.write_case(alloc, case, text),
            Row::Always => self.write_always(alloc, text),
            Row::Holds {
                claim,
                tested,
                whole,
            } => self.write_success(claim, tested, whole, text),
            Row::Fails(claim, found) => self.write_failure(alloc, claim, &found, text),
        }
    }

    // Appends the lines of rows, each failure with its details below it. `details` has whole lines for each failure, in the order of the rows; a
    // failure past the end of `details` has none.
    fn write_rows(
        &self,
        alloc: Global,
        details: &[Vec<u8>],
        rows: &[Row],
        text: &mut Vec<u8>,
    ) -> Result<(), AllocError>
        ensures { OnOk result (text.new.items ≡ text.old.items ++ lines self.now (map (λ d. d.items) details.now) rows.now) }
    {
        // The details that weren't written yet.
        let mut shown = details;
        let mut rest = rows;
        loop {
            match rest {
                [] => return Ok(()),
                [row, more @ ..] => {
                    self.write_row(alloc, *row, text)?;
                    if let Row::Fails(_, _) = row {
                        if let [detail, behind @ ..] = shown {
                            text.extend_from_slice(detail.as_slice())?;
                            shown = behind;
                        }
                    }
                    rest = more;
                }
            }
        }
    }

    /// The text of the table: a line that names the test and its program; a line for each row, below each failure its details; a line that says how
    /// many claims fail; and, if some do, the commands that show the first failure. `details` has whole lines for each failure, in the order of the
    /// rows; one that is missing is left out. The error is refused memory.
    pub fn table(
        &self,
        alloc: Global,
        call: &Call<'_>,
        details: &[Vec<u8>],
    ) -> Result<Vec<u8>, AllocError>
        ensures { IfOk result (λ text. text.items ≡ table call.now.source.now call.now.test.now call.now.options.now self.now (map (λ d. d.items) details.now)) }
    {
        let all = self.rows(alloc)?;
        let rows = all.as_slice();
        // How many rows are of a claim that fails.
        let number = failing(rows);
        let mut text = Vec::new(alloc);
        call.write_title(&mut text)?;
        self.write_rows(alloc, details, rows, &mut text)?;
        write_sum(alloc, number, claims_told(rows), &mut text)?;
        call.write_hint(number, &mut text)?;
        Ok(text)
    }
}

impl Call<'_> {
    // Appends the table's first line, which names the two files: `charge.test, on charge.orc`
    fn write_title(&self, text: &mut Vec<u8>) -> Result<(), AllocError>
        ensures { OnOk result (text.new.items ≡ text.old.items ++ title_text self.now.source.now self.now.test.now) }
    {
        text.extend_from_slice(self.test.as_bytes())?;
        text.extend_from_slice(b", on ")?;
        text.extend_from_slice(self.source.as_bytes())?;
        text.push(b'\n')?;
        Ok(())
    }

    // Appends the command that writes the script of the first failure: `orc test charge.orc charge.test --fail 1`
    fn write_call(&self, text: &mut Vec<u8>) -> Result<(), AllocError>
        ensures { OnOk result (text.new.items ≡ text.old.items ++ call_text self.now.source.now self.now.test.now self.now.options.now) }
    {
        text.extend_from_slice(b"orc test ")?;
        write_word(self.source.as_bytes(), text)?;
        text.push(b' ')?;
        write_word(self.test.as_bytes(), text)?;
        text.extend_from_slice(self.options)?;
        text.extend_from_slice(b" --fail 1")
    }

    // Appends two lines with the commands that show the first failure: one writes its script into a file, the other, below it, draws its run.
    fn write_commands(&self, text: &mut Vec<u8>) -> Result<(), AllocError>
        ensures { OnOk result (text.new.items ≡ text.old.items ++ commands_text self.now.source.now self.now.test.now self.now.options.now) }
    {
        text.extend_from_slice(b"[1] is shown by: ")?;
        self.write_call(text)?;
        text.extend_from_slice(b" > way.script\n                 ")?;
        self.write_call(text)?;
        text.extend_from_slice(b" --journal | orc draw ")?;
        write_word(self.source.as_bytes(), text)?;
        text.extend_from_slice(b" - --script way.script --text\n")?;
        Ok(())
    }

    // Appends the last lines: the commands that show the first failure, or nothing if no claim fails. `failing` is the number of those that do.
    fn write_hint(&self, failing: usize, text: &mut Vec<u8>) -> Result<(), AllocError>
        ensures { OnOk result (text.new.items ≡ text.old.items ++ hint_text self.now.source.now self.now.test.now self.now.options.now failing) }
    {
        if failing == 0 {
            return Ok(());
        }
        self.write_commands(text)
    }
}

// Whether a comma stands before the last `digits` digits of a number.
fn is_grouped(digits: usize) -> bool
    ensures { result ≡ is_grouped digits }
{
    digits > 0 && digits % 3 == 0
}

// Writes a number with a comma before each three of its digits. The error is refused memory.
fn write_number(alloc: Global, number: u64, text: &mut Vec<u8>) -> Result<(), AllocError>
    ensures { OnOk result (text.new.items ≡ text.old.items ++ number_text number) }
{
    let digits = format!(in alloc; "{number}")?;
    let mut rest = digits.as_bytes();
    loop {
        match rest {
            [] => return Ok(()),
            [digit, more @ ..] => {
                text.push(*digit)?;
                // As many digits are left as `more` has.
                if is_grouped(more.len()) {
                    text.push(b',')?;
                }
                rest = more;
            }
        }
    }
}

// Appends in how many orders each way was run, where that isn't 1: `, 20 orders each`
fn write_many(alloc: Global, orders: u64, text: &mut Vec<u8>) -> Result<(), AllocError>
    ensures { OnOk result (text.new.items ≡ text.old.items ++ (codes ", " ++ (number_text orders ++ codes " orders each"))) }
{
    text.extend_from_slice(b", ")?;
    write_number(alloc, orders, text)?;
    text.extend_from_slice(b" orders each")?;
    Ok(())
}

// Appends in how many orders each way was run: `, 1 order`, or `, 20 orders each`.
fn write_orders(alloc: Global, orders: u64, text: &mut Vec<u8>) -> Result<(), AllocError>
    ensures { OnOk result (text.new.items ≡ text.old.items ++ orders_text orders) }
{
    if orders == 1 {
        return text.extend_from_slice(b", 1 order");
    }
    write_many(alloc, orders, text)
}

// Appends how many ways there are, `: 48 ways`, and how many of them were tried if not all: `: 2 of 1,728 ways`
fn write_ways(alloc: Global, ways: u64, tried: u64, text: &mut Vec<u8>) -> Result<(), AllocError>
    ensures { OnOk result (text.new.items ≡ text.old.items ++ ways_text ways tried) }
{
    text.extend_from_slice(b": ")?;
    if tried < ways {
        write_number(alloc, tried, text)?;
        text.extend_from_slice(b" of ")?;
        write_number(alloc, ways, text)?;
        return text.extend_from_slice(b" ways");
    }
    if ways == 1 {
        return text.extend_from_slice(b"1 way");
    }
    write_number(alloc, ways, text)?;
    text.extend_from_slice(b" ways")
}

// How many ways all cases have together; None if 2^64 or more.
fn all_ways(cases: &[CaseReport]) -> Option<u64>
    ensures { IfSome result (λ n. n ≡ all_ways cases.now) }
{
    let mut number: u64 = 0;
    let mut rest = cases;
    loop {
        match rest {
            [] => return Some(number),
            [report, more @ ..] => {
                number = number.checked_add(report.ways)?;
                rest = more;
            }
        }
    }
}

// How many ways of all cases were tried; None if 2^64 or more.
fn all_tried(cases: &[CaseReport]) -> Option<u64>
    ensures { IfSome result (λ n. n ≡ all_tried cases.now) }
{
    let mut number: u64 = 0;
    let mut rest = cases;
    loop {
        match rest {
            [] => return Some(number),
            [report, more @ ..] => {
                number = number.checked_add(report.tried)?;
                rest = more;
            }
        }
    }
}

// In how many ways a claim fails, by what is reported of it over a case; 0 if nothing is reported.
fn failing_in(told: Option<Told>) -> u64
    ensures { result ≡ failing_in told }
{
    match told {
        Some(told) => told.failing,
        None => 0,
    }
}

// What stands before an item of a list, by whether it is the first one.
fn comma(is_first: bool) -> &'static str
    ensures { result.now ≡ comma is_first }
{
    if is_first { "" } else { ", " }
}

/// The end of the line of a claim that held in each run, with its LF: the LF alone if the claim was put to the test, else first a remark that it
/// wasn't.
pub fn note(tested: bool) -> &'static str
    ensures { result.now ≡ note tested }
{
    if tested {
        "\n"
    } else {
        "    (never put to the test)\n"
    }
}

// The end of the line of a claim that every schedule keeps, with its LF. `tested` says that the claim was put to the test in some run.
fn whole_note(tested: bool) -> &'static str
    ensures { result.now ≡ whole_note tested }
{
    if tested {
        "    (every schedule)\n"
    } else {
        "    (every schedule; never put to the test)\n"
    }
}

/// Writes the line that says how many of so many claims fail: `fails: 1 of 2 claims`, or `ok: 2 claims`. The error is refused memory.
pub fn write_sum(
    alloc: Global,
    failing: usize,
    claims: usize,
    text: &mut Vec<u8>,
) -> Result<(), AllocError>
    ensures { OnOk result (text.new.items ≡ text.old.items ++ sum_text failing claims) }
{
    if failing == 0 {
        text.extend_from_slice(b"ok: ")?;
        write_number(alloc, claims as u64, text)?;
        return text.extend_from_slice(b" claims\n");
    }
    text.extend_from_slice(b"fails: ")?;
    write_number(alloc, failing as u64, text)?;
    text.extend_from_slice(b" of ")?;
    write_number(alloc, claims as u64, text)?;
    text.extend_from_slice(b" claims\n")
}
