//! What the claims of a test that stand below `always` say of one run, whoever made it: the answer of `orc check --claims`. Such a claim belongs to
//! no case of the test.
//!
//! The loops aren't `for` loops, since their invariants speak of the rest of the lists. Where a loop goes over lines and verdicts, `rest` are the
//! lines that are left and `others` their verdicts, as many. `sites` are those of the test, whose places are the sites' numbers. A `ClaimLine` is the
//! line of a claim, and a `SiteName` a site that the test names. `Judged` is what a run says of a claim: its verdict, which says where the claim
//! fails, and whether the run put it to the test.

ghost use Rattle.std.specs.Prelude.{◌≡◌, ◌++◌, IfOk, OnOk, length};
ghost use Rattle.std.specs.List.{count_by, slice_get};
ghost use Rattle.orc_claims.specs.Verdicts.{says_so};
ghost use Rattle.orc_findings.specs.Course.{place_text};
ghost use Rattle.orc_findings.specs.Findings.{failing, findings_text, first_verdict, is_always, row_text, rows_text, sight_of, standing_of, unsaid, verdict_in};

use crate::course::{Course, Standing};
use orc_claims::claim::Claim;
use orc_claims::happening::Happening;
use orc_claims::{Judged, Verdict, judge};
use orc_outcome::End;
use orc_rules::entry::State;
use orc_tally::{claim_text, note, write_sum};
use orc_ways::test::{ClaimLine, SiteName, Test};
use std::alloc::{AllocError, Global};

/// A run as claims see it, up to where its journal ends.
#[derive(Clone, Copy)]
pub struct Seen<'s> {
    /// What happened, where sites have the numbers that claims have for them.
    pub happenings: &'s [Happening],
    /// The state of the run at the end of the journal: Halted, Quiet or still Running.
    pub state: State,
    /// The time at the end of the journal, in logical units.
    pub time: u64,
}

/// What the claims of a test that stand below `always` say of a run.
#[derive(Drop)]
pub struct Findings {
    /// A line for each claim, below each that fails a line that says where, and last a line that says how many fail.
    pub text: Vec<u8>,
    /// How many of them fail.
    pub failing: usize,
}

// Whether the claim of this line stands below `always`: it has no case then.
fn is_always(line: &ClaimLine<'_>) -> bool
    ensures { result ≡ is_always line.now }
{
    match line.case {
        None => true,
        Some(_) => false,
    }
}

// Whether a claim with this verdict holds.
fn says_so(verdict: Verdict) -> bool
    ensures { result ≡ says_so verdict }
{
    match verdict {
        Verdict::Holds => true,
        Verdict::FailsAt(_) | Verdict::FailsAtEnd => false,
    }
}

// How many of the claims below `always` fail. Each claim of the test has a line in `lines` and a verdict in `judged`, in the same order.
fn count_failing(lines: &[ClaimLine<'_>], judged: &[Judged]) -> usize
    ensures { result ≡ unsaid lines.now judged.now }
{
    let mut number = 0;
    let mut rest = lines;
    let mut others = judged;
    loop {
        match rest {
            [] => return number,
            [line, more @ ..] => match others {
                // It doesn't come: there are as many verdicts as lines.
                [] => return number,
                [one, behind @ ..] => {
                    if is_always(line) && !says_so(one.verdict) {
                        number += 1;
                    }
                    rest = more;
                    others = behind;
                }
            },
        }
    }
}

// How many claims stand below `always`.
fn count_always(lines: &[ClaimLine<'_>]) -> usize
    ensures { result ≡ count_by is_always lines.now }
{
    let mut number = 0;
    let mut rest = lines;
    loop {
        match rest {
            [] => return number,
            [line, more @ ..] => {
                if is_always(line) {
                    number += 1;
                }
                rest = more;
            }
        }
    }
}

// How a run in this state stands, as texts say it: it has ended, Halted or Quiet, or it hasn't.
fn standing_of(state: State) -> Standing
    ensures { result ≡ standing_of state }
{
    match state {
        State::Halted => Standing::Ended(End::Halted),
        State::Quiet => Standing::Ended(End::Quiet),
        State::Running => Standing::Running,
    }
}

// The verdict on the first claim that was judged; None if none was.
fn first_verdict(judged: &[Judged]) -> Option<Verdict>
    ensures { result ≡ first_verdict judged.now }
{
    match judged {
        [] => None,
        [one, ..] => Some(one.verdict),
    }
}

impl Seen<'_> {
    /// The verdict of the run on the claim at this place, from 0, be it one of `always` or of a case; None if there is no such claim. The error is
    /// refused memory.
    #[tactic(auto, using(crate::proofs::Placed::none_there))]
    pub fn verdict(
        &self,
        alloc: Global,
        claims: &[Claim],
        claim: usize,
    ) -> Result<Option<Verdict>, AllocError>
        ensures { IfOk result (λ v. v ≡ verdict_in (slice_get claims.now claim) (sight_of self.now)) }
    {
        if claim >= claims.len() {
            return Ok(None);
        }
        // `judge` takes a list: that of this claim alone.
        let judged = judge(
            alloc,
            &claims[claim..claim + 1],
            self.happenings,
            self.state,
            self.time,
        )?;
        Ok(first_verdict(judged.as_slice()))
    }

    // Appends where in the run a claim with this verdict fails: at a happening, or at the end. `sites` are those of the test. The error is refused
    // memory, here and below.
    fn write_place(
        &self,
        alloc: Global,
        sites: &[SiteName<'_>],
        verdict: Verdict,
        text: &mut Vec<u8>,
    ) -> Result<(), AllocError>
        ensures { OnOk result (text.new.items ≡ text.old.items ++ place_text sites.now (standing_of self.now.state) self.now.happenings.now self.now.time verdict) }
    {
        let course = Course {
            happenings: self.happenings,
            standing: standing_of(self.state),
            time: self.time,
        };
        course.write_place(alloc, sites, verdict, text)
    }

    // Appends the line of a claim, and below one that fails the line that says where, which begins below the claim's text. `line` has the claim's
    // text, and `judged` says what the claim says of the run. The line of a claim that holds ends with a remark (`note`) if the run didn't put it to
    // the test.
    fn write_row(
        &self,
        alloc: Global,
        sites: &[SiteName<'_>],
        line: &ClaimLine<'_>,
        judged: Judged,
        text: &mut Vec<u8>,
    ) -> Result<(), AllocError>
        ensures { OnOk result (text.new.items ≡ text.old.items ++ row_text sites.now (sight_of self.now) line.now judged) }
    {
        if says_so(judged.verdict) {
            text.extend_from_slice(b"  ok     ")?;
            text.extend_from_slice(claim_text(line))?;
            return text.extend_from_slice(note(judged.tested).as_bytes());
        }
        text.extend_from_slice(b"  FAILS  ")?;
        text.extend_from_slice(claim_text(line))?;
        text.extend_from_slice(b"\n         ")?;
        self.write_place(alloc, sites, judged.verdict, text)?;
        text.push(b'\n')?;
        Ok(())
    }

    // Appends the lines of each claim below `always`. The line and the verdict of each claim of the test are handed in, in the same order.
    fn write_rows(
        &self,
        alloc: Global,
        sites: &[SiteName<'_>],
        lines: &[ClaimLine<'_>],
        judged: &[Judged],
        text: &mut Vec<u8>,
    ) -> Result<(), AllocError>
        ensures { OnOk result (text.new.items ≡ text.old.items ++ rows_text sites.now (sight_of self.now) lines.now judged.now) }
    {
        let mut rest = lines;
        let mut others = judged;
        loop {
            match rest {
                [] => return Ok(()),
                [line, more @ ..] => match others {
                    // It doesn't come: there are as many verdicts as lines.
                    [] => return Ok(()),
                    [one, behind @ ..] => {
                        if is_always(line) {
                            self.write_row(alloc, sites, line, *one, text)?;
                        }
                        rest = more;
                        others = behind;
                    }
                },
            }
        }
    }
}

/// Holds the claims of a test that stand below `always` against a run, of which `seen` is what claims see; the claims of the test's cases are left
/// out. The error is refused memory.
pub fn find(alloc: Global, test: &Test<'_>, seen: &Seen<'_>) -> Result<Findings, AllocError>
    ensures text { IfOk result (λ f. f.text.items ≡ findings_text test.now (sight_of seen.now)) }
    ensures failing { IfOk result (λ f. f.failing ≡ failing test.now (sight_of seen.now)) }
{
    // A verdict for each claim of the test, those of cases too, which are skipped below.
    let judged = judge(
        alloc,
        test.claims.as_slice(),
        seen.happenings,
        seen.state,
        seen.time,
    )?;
    let lines = test.claim_lines.as_slice();
    let failing = count_failing(lines, judged.as_slice());
    let mut text = Vec::new(alloc);
    seen.write_rows(
        alloc,
        test.sites.as_slice(),
        lines,
        judged.as_slice(),
        &mut text,
    )?;
    write_sum(alloc, failing, count_always(lines), &mut text)?;
    Ok(Findings { text, failing })
}
