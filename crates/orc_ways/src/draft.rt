//! The draft of a test: what its lines so far say, and whether the next line is allowed behind them. A service is a site whose answers a test says,
//! and a claim is what has to hold of a run. A case has services and claims of its own; services below `given` and claims below `always` are for all
//! cases. A `ServiceLine` has a service with its case, a `ClaimLine` the case and the text of a claim.
//!
//! In contracts `IsPlaced (with_NAME ..) new good` says that the draft becomes what the definition with_NAME gives, and that the answer is false
//! where that gives nothing.

ghost use Rattle.std.specs.Prelude.{◌≡◌, ◌≤◌, length, IfOk, OnOk, option_map, Option, Some, None};
ghost use Rattle.orc_rules.specs.Digits.{Gives};
ghost use Rattle.orc_rules.specs.declared.limits.TheConstants.{LONGEST_SOURCE};
ghost use Rattle.orc_ways.specs.Drafts.{empty, has_case, case_of_service, case_of_claim, placed, with_given, with_always, with_case, with_service, with_claim, read_line};
ghost use Rattle.orc_ways.specs.Drafting.{kind_of, cases_of, test_of, draft_of, IsPlaced, IsRead};
ghost use Rattle.orc_ways.specs.Values.{service_of, claim_of};

use crate::kind::Kind;
use crate::limits::{MOST_CASES, MOST_CLAIMS, MOST_SERVICES, MOST_SITES};
use crate::mentions::add_mentions;
use crate::scope::Scope;
use crate::test::{Case, ClaimLine, Service, ServiceLine, Test};
use crate::token::cut_line;
use orc_claims::claim::Claim;
use orc_site::line::is_built_in_name;
use std::alloc::{AllocError, Global};

/// The section of a test in which a line stands.
#[derive(Clone, Copy, PartialEq, Eq, Debug)]
pub enum Part {
    /// Before any section.
    Nowhere,
    /// Below `given`, where services stand.
    Given,
    /// Below `always`, where claims stand.
    Always,
    /// Below a line `case`, where services and claims stand.
    Case,
}

/// What became of a line.
#[derive(Clone, Copy, PartialEq, Eq, Debug)]
pub enum LineEnd {
    /// The draft has it.
    Read,
    /// It is no line of a test, or names one site too many.
    NoLine,
    /// It is a line of a test, but isn't allowed where it stands.
    NoPlace,
}

/// A test so far.
#[derive(Drop)]
pub struct Draft<'a> {
    /// What the lines so far say.
    pub test: Test<'a>,
    /// The number of the line `given`, from 1, if there was one.
    pub given: Option<usize>,
    /// Whether there was a line `always`.
    pub has_always: bool,
    /// The section in which the next line stands.
    pub part: Part,
}

// Whether one of these cases has this name.
fn has_case_named(cases: &[Case<'_>], name: &[u8]) -> bool
    ensures { result ≡ has_case (cases_of cases.now) name.now }
{
    for case in cases {
        if case.name == name {
            return true;
        }
    }
    false
}

impl<'a> Draft<'a> {
    /// The draft before any line: everything is empty, and no section has begun.
    pub fn new(alloc: Global) -> Draft<'a>
        ensures { draft_of result ≡ empty }
    {
        Draft {
            test: Test {
                sites: Vec::new(alloc),
                services: Vec::new(alloc),
                claims: Vec::new(alloc),
                claim_lines: Vec::new(alloc),
                cases: Vec::new(alloc),
            },
            given: None,
            has_always: false,
            part: Part::Nowhere,
        }
    }

    // Begins the section `given` at the line of this number; false if there was one, and then nothing changes. After true `IsPlaced` says what the
    // draft is; after false it says nothing of the draft.
    fn begin_given(&mut self, number: usize) -> bool
        ensures { IsPlaced (with_given (draft_of self.old) number) (draft_of self.new) result }
    {
        if self.given.is_some() {
            return false;
        }
        self.given = Some(number);
        self.part = Part::Given;
        true
    }

    // Begins the section `always`; false if there was one, and then nothing changes. After true `IsPlaced` says what the draft is; after false it
    // says nothing of the draft.
    fn begin_always(&mut self) -> bool
        ensures { IsPlaced (with_always (draft_of self.old)) (draft_of self.new) result }
    {
        if self.has_always {
            return false;
        }
        self.has_always = true;
        self.part = Part::Always;
        true
    }

    // Begins a case at the line of this number; false if one has that name or there are too many, and then nothing changes. The error is refused
    // memory.
    fn begin_case(&mut self, number: usize, name: &'a [u8]) -> Result<bool, AllocError>
        ensures { IfOk result (λ good. IsPlaced (with_case (draft_of self.old) number name.now) (draft_of self.new) good) }
    {
        if MOST_CASES <= self.test.cases.len() {
            return Ok(false);
        }
        if has_case_named(self.test.cases.as_slice(), name) {
            return Ok(false);
        }
        self.test.cases.push(Case { name, line: number })?;
        self.part = Part::Case;
        Ok(true)
    }

    // The place, from 0, of the case to which a service in the section of the next line belongs; Some(None) below `given`, where a service belongs to
    // all cases, and None where no service is allowed.
    fn case_of_service(&self) -> Option<Option<usize>>
        ensures { result ≡ case_of_service self.now.part (test_of self.now.test) }
    {
        match self.part {
            Part::Given => Some(None),
            // The section `Case` begins with a case, so there is at least one, and the subtraction doesn't saturate.
            Part::Case => Some(Some(self.test.cases.len().saturating_sub(1))),
            // Before any section, or below `always`.
            _ => None,
        }
    }

    // The place, from 0, of the case to which a claim in the section of the next line belongs; Some(None) below `always`, where a claim is asked of
    // all cases, and None where no claim is allowed.
    fn case_of_claim(&self) -> Option<Option<usize>>
        ensures { result ≡ case_of_claim self.now.part (test_of self.now.test) }
    {
        match self.part {
            Part::Always => Some(None),
            // The last case: the section `Case` begins with a case, so there is at least one, and the subtraction doesn't saturate.
            Part::Case => Some(Some(self.test.cases.len().saturating_sub(1))),
            // Before any section, or below `given`.
            _ => None,
        }
    }

    // Adds a service to the section of the next line; false if no service is allowed here, there are too many, or its name is that of a built-in
    // site, and then nothing changes. The error is refused memory.
    fn add_service(&mut self, service: Service<'a>) -> Result<bool, AllocError>
        ensures { IfOk result (λ good. IsPlaced (with_service (draft_of self.old) (service_of service.entry) (case_of_service self.old.part (test_of self.old.test))) (draft_of self.new) good) }
    {
        // `case` is the place of the section's case, and None below `given`.
        let Some(case) = self.case_of_service() else {
            return Ok(false);
        };
        if MOST_SERVICES <= self.test.services.len() {
            return Ok(false);
        }
        if is_built_in_name(service.name) {
            return Ok(false);
        }
        self.test.services.push(ServiceLine { case, service })?;
        Ok(true)
    }

    // Adds a claim to the section of the next line: `number` is the number of its line, from 1, and `line` the text of its line. False if no claim is
    // allowed here or there are too many, and then nothing changes. The error is refused memory.
    fn add_claim(&mut self, number: usize, line: &'a [u8], claim: Claim) -> Result<bool, AllocError>
        ensures { IfOk result (λ good. IsPlaced (with_claim (draft_of self.old) number line.now (claim_of claim) (case_of_claim self.old.part (test_of self.old.test))) (draft_of self.new) good) }
    {
        // `case` is the place of the section's case, and None below `always`.
        let Some(case) = self.case_of_claim() else {
            return Ok(false);
        };
        if MOST_CLAIMS <= self.test.claims.len() {
            return Ok(false);
        }
        self.test.claims.push(claim)?;
        self.test.claim_lines.push(ClaimLine {
            case,
            line: number,
            text: line,
        })?;
        Ok(true)
    }

    // Adds a line to the draft: `kind` says what it is, `number` is its number, from 1, and `line` its text. False if the line isn't allowed at this
    // place of the test, and then nothing changes. The error is refused memory.
    #[tactic(auto, unfolding(crate::specs::Drafts::placed))]
    fn place(&mut self, number: usize, line: &'a [u8], kind: Kind<'a>) -> Result<bool, AllocError>
        ensures { IfOk result (λ good. IsPlaced (placed (draft_of self.old) number line.now (kind_of kind.entry)) (draft_of self.new) good) }
    {
        match kind {
            // A line without a token is allowed anywhere, and adds nothing.
            Kind::Blank => Ok(true),
            Kind::Given => Ok(self.begin_given(number)),
            Kind::Always => Ok(self.begin_always()),
            Kind::Case(name) => self.begin_case(number, name),
            Kind::Service(service) => self.add_service(service),
            Kind::Claim(claim) => self.add_claim(number, line, claim),
        }
    }

    /// Reads one line more: `number` is its number, from 1, and `line` its text without the LF. The error is refused memory. After an error, `NoLine`
    /// and `NoPlace` the draft may have some of what the line names, so it is of no further use.
    #[tactic(auto, unfolding(crate::specs::Drafts::read_line))]
    pub fn read_line(
        &mut self,
        alloc: Global,
        number: usize,
        line: &'a [u8],
    ) -> Result<LineEnd, AllocError>
        requires { length line.now ≤ LONGEST_SOURCE }
        ensures { IfOk result (λ end. IsRead number (read_line (draft_of self.old) number line.now) (draft_of self.new) end) }
    {
        // Without the blanks and the comment. None if the line isn't made of tokens.
        let Some(tokens) = cut_line(alloc, line)? else {
            return Ok(LineEnd::NoLine);
        };
        // The sites that the line names are added before it is read, since a claim has the places of its sites among these.
        add_mentions(&mut self.test.sites, number, tokens.as_slice())?;
        // The one site over the limit is there if the line names one too many.
        if MOST_SITES < self.test.sites.len() {
            return Ok(LineEnd::NoLine);
        }
        // What the readers of the line look names up in.
        let scope = Scope {
            sites: self.test.sites.as_slice(),
            line: tokens.as_slice(),
        };
        // What the line is: without a token, a section's beginning, a service or a claim. None if it is none of these.
        let Some(kind) = scope.kind(alloc)? else {
            return Ok(LineEnd::NoLine);
        };
        // True if the line is allowed here.
        if self.place(number, line, kind)? {
            Ok(LineEnd::Read)
        } else {
            Ok(LineEnd::NoPlace)
        }
    }
}
