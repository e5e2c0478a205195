//! From a journal's text to what the claims of a test say of its run. A *claim* says what must hold of a run. It is judged by what an observer sees
//! of the run, its *happenings*.

ghost use Rattle.std.specs.Prelude.{◌≡◌, ◌++◌, List, ℕ, length, IfOk, IfErr};
ghost use Rattle.orc_rules.specs.Sites.{Table};
ghost use Rattle.orc_site.specs.Script.{Says};
ghost use Rattle.orc_ways.specs.Drafting.{test_of};
ghost use Rattle.orc_ways.specs.Finishing.{Says as SaysTest};
ghost use Rattle.orc_findings.specs.Findings.{failing, findings_text};
ghost use Rattle.orc_outcome.specs.declared.end.Summary.{Summary};
ghost use Rattle.orc_run.specs.Checked.{IsOfRun, verdict_line};
ghost use Rattle.orc_run.specs.Claimed.{HasClaimed, IsBeyondClaims, IsUnclaimedFor, IsUnreadTest, LeavesUnclaimed, sight_at};

use crate::faults::RunFault;
use crate::judge::{Judged, judge, line_of};
use orc_findings::{Findings, Seen, find};
use orc_orders::claim_sites;
use orc_output::{WriteFault, write_text};
use orc_site::read_script;
use orc_syntax::parse;
use orc_tally::happenings_of;
use orc_ways::read_test;
use orc_ways::test::Test;
use std::alloc::{AllocError, Global};
use std::io::Write;

// The test that a text says. The sites of `others`, the built-in ones and those of the script, need no service in it. The fault is that of the
// source's text, of the script or of the test, the first in this order.
fn test_beside<'a>(
    alloc: Global,
    source: &[u8],
    test: &'a [u8],
    script: &[u8],
) -> Result<Test<'a>, RunFault>
    ensures says { IfOk result (λ t. (others : Table) × Says script.now others × SaysTest test.now others (test_of t)) }
    ensures cause { IfErr result (IsUnreadTest source.now test.now script.now) }
{
    // The tree isn't used. It is made because a fault of the source's text comes before one of the script or the test.
    let _ast = match parse(alloc, source) {
        Ok(ast) => ast,
        Err(fault) => return Err(RunFault::Syntax(fault)),
    };
    let others = match read_script(alloc, script) {
        Ok(others) => others,
        Err(fault) => return Err(RunFault::Script(fault)),
    };
    match read_test(alloc, test, &others) {
        Ok(test) => Ok(test),
        Err(fault) => Err(RunFault::Test(fault)),
    }
}

// What the claims below `always` say of a journal that was checked, and how many of them fail. Claims of a case are left out: no journal says of
// which case it is. The error is refused memory.
fn findings_of(alloc: Global, test: &Test<'_>, judged: &Judged) -> Result<Findings, AllocError>
    ensures text { IfOk result (λ f. f.text.items ≡ findings_text test.now (sight_at test.now judged.now.answers judged.now.journal judged.now.state judged.now.time)) }
    ensures failing { IfOk result (λ f. f.failing ≡ failing test.now (sight_at test.now judged.now.answers judged.now.journal judged.now.state judged.now.time)) }
{
    // The sites that claims name, by their numbers in the table that answered the run's calls.
    let sites = claim_sites(alloc, &judged.answers, test.sites.as_slice())?;
    let happenings = happenings_of(alloc, sites.as_slice(), &judged.journal)?;
    let seen = Seen {
        happenings: happenings.as_slice(),
        state: judged.state,
        time: judged.time,
    };
    find(alloc, test, &seen)
}

// The whole text: the line of the check, and what the claims say. The error is refused memory.
fn text_of(alloc: Global, judged: &Judged, findings: &Findings) -> Result<Vec<u8>, AllocError>
    ensures { IfOk result (λ t. t.items ≡ verdict_line (length judged.now.journal.entries) judged.now.state ++ findings.now.text.items) }
{
    let mut text = line_of(alloc, judged.journal.len(), judged.state)?;
    text.extend_from_slice(findings.text.as_slice())?;
    Ok(text)
}

/// Checks a journal's text as [`check_text`](crate::check_text) does, and judges the claims of a test that stand below `always` on its run.
/// Writes the line of the check, a line for each claim, below each that fails where it does, and a last one that says how many fail. Answers how
/// many fail.
///
/// A fault is answered where the source's text, the script, the test, the source's names, the journal's text or one of its entries is at fault, in
/// this order; and where memory for what is written is refused or the output isn't taken whole. Nothing is written then, but at a fault of the
/// output a prefix of the text.
#[tactic(auto, using(crate::proofs::Claiming::unread_for, crate::proofs::Claiming::unread_leaves, crate::proofs::Claiming::refused_for, crate::proofs::Claiming::refused_leaves))]
pub fn claims_text<W: Write>(
    alloc: Global,
    source: &[u8],
    test: &[u8],
    script: &[u8],
    journal: &[u8],
    out: &mut W,
) -> Result<usize, RunFault>
    ensures claimed { IfOk result (HasClaimed source.now test.now script.now journal.now (W.contents out.old) (W.contents out.new)) }
    ensures fault { IfErr result (LeavesUnclaimed source.now test.now script.now journal.now (W.contents out.old) (W.contents out.new)) }
    ensures cause { IfErr result (IsUnclaimedFor source.now test.now script.now journal.now) }
    // What a run of this source and script wrote as its journal is judged, unless it is beyond a limit or the text of the claims is no test.
    ensures beyond { (s : Summary) → IsOfRun source.now script.now journal.now s → IfErr result IsBeyondClaims }
{
    let known = match test_beside(alloc, source, test, script) {
        Ok(known) => known,
        Err(fault) => return Err(fault),
    };
    let judged = match judge(alloc, source, script, journal) {
        Ok(judged) => judged,
        Err(fault) => return Err(fault),
    };
    let Ok(findings) = findings_of(alloc, &known, &judged) else {
        return Err(RunFault::Write(WriteFault));
    };
    let Ok(text) = text_of(alloc, &judged, &findings) else {
        return Err(RunFault::Write(WriteFault));
    };
    match write_text(out, text.as_slice()) {
        Ok(()) => Ok(findings.failing),
        Err(fault) => Err(RunFault::Write(fault)),
    }
}
