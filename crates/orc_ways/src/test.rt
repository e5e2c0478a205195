//! A test as it was read. Names and lines are slices of its text. A service is a site whose answers the test says; a claim is what has to hold of
//! each run. A case is a part of the test with services and claims of its own; services below the line `given` and claims below the line `always` are
//! for all cases.

use orc_claims::claim::{Claim, Slot};
use orc_rules::value::Answer;

/// What a service may answer to one call.
#[derive(Clone, Copy, PartialEq, Eq, Debug)]
pub enum Reply {
    /// This answer after a delay, in units of logical time, from the first number to the second, both included. `after 5` is 5 to 5.
    Between(Answer, u64, u64),
    /// It never answers.
    Never,
}

/// A site that a test names. The same name with another number of arguments is another site.
#[derive(Clone, Copy)]
pub struct SiteName<'a> {
    pub name: &'a [u8],
    /// How many arguments it is named with.
    pub arguments: usize,
    /// The number of the line that names it first, from 1.
    pub line: usize,
}

/// How a service may answer calls that its patterns match.
#[derive(Drop)]
pub struct Service<'a> {
    pub name: &'a [u8],
    /// One for each argument: a value, or `Any` for `_`, which any value fits; never a variable.
    pub patterns: Vec<Slot>,
    /// What it may do, the usual alternative first. Each has an answer for the first call, the second one and so on; its last one answers all further
    /// calls.
    pub alternatives: Vec<Vec<Reply>>,
    /// The N of `in each of N calls`, 2 to `MOST_CALLS`: each of the first N calls with the same arguments takes an alternative of its own, which is
    /// one answer then. Without it 1: the line takes one alternative for all its calls.
    pub calls: usize,
}

/// A line of a service.
#[derive(Drop)]
pub struct ServiceLine<'a> {
    /// The place of its case among the cases, from 0; None below `given`.
    pub case: Option<usize>,
    pub service: Service<'a>,
}

/// Where a claim stands.
#[derive(Clone, Copy)]
pub struct ClaimLine<'a> {
    /// The place of its case among the cases, from 0; None below `always`.
    pub case: Option<usize>,
    /// The number of its line, from 1.
    pub line: usize,
    /// Its whole line without the LF, with the blanks around it and a comment, if it has any: a table shows it without them.
    pub text: &'a [u8],
}

/// A case of a test.
#[derive(Clone, Copy)]
pub struct Case<'a> {
    pub name: &'a [u8],
    /// The number of the line with which it begins, from 1.
    pub line: usize,
}

/// What the text of a test says.
pub struct Test<'a> {
    /// The sites in the order in which they are named first. A call in a claim has the place of its site here, from 0.
    pub sites: Vec<SiteName<'a>>,
    /// The lines of services, in the order of the text.
    pub services: Vec<ServiceLine<'a>>,
    /// The claims, in the order of the text.
    pub claims: Vec<Claim>,
    /// One for each claim, in the same order.
    pub claim_lines: Vec<ClaimLine<'a>>,
    /// In the order of the text. A test without a case has one that is called `given`, so there is one at least.
    pub cases: Vec<Case<'a>>,
}

// Written out, so that a caller's proof sees one call and not the drop of each field. In the pattern `_` drops a field.
impl Drop for Test<'_> {
    fn drop(self) {
        let Test {
            sites: _,
            services: _,
            claims: _,
            claim_lines: _,
            cases: _,
        } = self;
    }
}
