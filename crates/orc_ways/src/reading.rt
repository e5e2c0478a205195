//! Reading a test: its lines one after the other, and then the checks of the whole. A service is a site whose answers a test says. A case is a part
//! of the test with services and claims of its own. A *way* is one script by which a case's services may answer.
//!
//! In contracts `Says` says that the text says this test, and `IsDraftFault` and `IsFault` that the fault is one of the text.

ghost use Rattle.std.specs.Prelude.{◌≡◌, ◌≤◌, IfOk, IfErr, length};
ghost use Rattle.std.specs.List.{list_any};
ghost use Rattle.orc_rules.specs.declared.limits.TheConstants.{LONGEST_SOURCE};
ghost use Rattle.orc_ways.specs.Drafts.{read_text, says};
ghost use Rattle.orc_ways.specs.Drafting.{draft_of, test_of, service_lines_of};
ghost use Rattle.orc_ways.specs.Finishing.{test_said, serves_site, unknown_line, Says, IsFault};
ghost use Rattle.orc_ways.specs.ReadingText.{IsDraftFault};
ghost use Rattle.orc_ways.specs.Values.{site_of, sites_of};

use crate::draft::{Draft, LineEnd};
use crate::fault::TestFault;
use crate::test::{Case, ServiceLine, SiteName, Test};
use orc_rules::answers::Answers;
use orc_rules::limits::LONGEST_SOURCE;
use orc_site::split_line;
use std::alloc::{AllocError, Global};

// The draft (what the lines say of a test) that all lines of a text make. The faults are T1 (no line of a test, or one that names one site too many)
// and T4 (not allowed there) of the first line that has one, and refused memory.
fn read_draft<'a>(alloc: Global, text: &'a [u8]) -> Result<Draft<'a>, TestFault>
    requires { length text.now ≤ LONGEST_SOURCE }
    ensures read { IfOk result (λ d. read_text text.now ≡ says (draft_of d)) }
    ensures fault { IfErr result (IsDraftFault text.now) }
{
    let mut draft = Draft::new(alloc);
    let mut rest = text;
    let mut number = 1;
    loop {
        // `behind` is the text behind the line's LF, and None at the last line.
        let (line, behind) = split_line(rest);
        match draft.read_line(alloc, number, line) {
            Err(_) => return Err(TestFault::Memory),
            Ok(LineEnd::NoLine) => return Err(TestFault::Line(number)),
            Ok(LineEnd::NoPlace) => return Err(TestFault::Place(number)),
            Ok(LineEnd::Read) => {}
        }
        let Some(behind) = behind else {
            return Ok(draft);
        };
        rest = behind;
        number += 1;
    }
}

// The test of a draft whose lines are all read: one without a case gets the case `given`, which begins at the line of `given`, or at line 1. The
// error is refused memory.
fn finish(draft: Draft<'_>) -> Result<Test<'_>, AllocError>
    ensures { IfOk result (λ t. test_of t ≡ test_said (draft_of draft.entry)) }
{
    let Draft {
        mut test,
        given,
        has_always: _,
        part: _,
    } = draft;
    if test.cases.is_empty() {
        test.cases.push(Case {
            name: b"given",
            line: given.unwrap_or(1),
        })?;
    }
    Ok(test)
}

// Whether one of the test's lines of services, `lines`, is for this site: it has the site's name and as many patterns as the site has arguments.
fn is_served(site: &SiteName<'_>, lines: &[ServiceLine<'_>]) -> bool
    ensures { result ≡ list_any (serves_site (site_of site.now)) (service_lines_of lines.now) }
{
    for line in lines {
        if site.name == line.service.name && site.arguments == line.service.patterns.len() {
            return true;
        }
    }
    false
}

// The number of the line that names the first site for which the test has no service, and whose name isn't among `others`, the sites that need no
// service. None if there is no such site.
fn unknown(others: &Answers, lines: &[ServiceLine<'_>], sites: &[SiteName<'_>]) -> Option<usize>
    ensures { result ≡ unknown_line others.now (service_lines_of lines.now) (sites_of sites.now) }
{
    for site in sites {
        if !is_served(site, lines) && others.site_named(site.name).is_none() {
            return Some(site.line);
        }
    }
    None
}

/// The test that a text says. `others` are the sites that need no service in it: the built-in ones, and those of the script that the caller puts
/// behind the lines of each way.
///
/// The error is `Long` for over `LONGEST_SOURCE` bytes; else `Line` or `Place` of the first line that is none of a test, names one site too many or
/// isn't allowed there; else `Unknown` of the line of the first site that neither a service nor the others have; or `Memory` at any of these steps.
/// It is never `Ways`.
pub fn read_test<'a>(alloc: Global, text: &'a [u8], others: &Answers) -> Result<Test<'a>, TestFault>
    ensures read { IfOk result (λ t. Says text.now others.now (test_of t)) }
    ensures fault { IfErr result (IsFault text.now others.now) }
{
    if text.len() > LONGEST_SOURCE {
        return Err(TestFault::Long);
    }
    let draft = match read_draft(alloc, text) {
        Ok(draft) => draft,
        Err(fault) => return Err(fault),
    };
    // The draft becomes the test; the only error is refused memory.
    let Ok(test) = finish(draft) else {
        return Err(TestFault::Memory);
    };
    // Each site that the test names has to be a service of the test or one of `others`.
    if let Some(line) = unknown(others, test.services.as_slice(), test.sites.as_slice()) {
        return Err(TestFault::Unknown(line));
    }
    Ok(test)
}
