//! The limits of a test's text. A *service* is a site whose answers a test says, a *case* a part of a test with services of its own, a *claim* what
//! has to hold of a run. A *way* is one script by which a case's services may answer.

/// The most cases of a test.
pub const MOST_CASES: usize = 256;

/// The most claims of a test.
pub const MOST_CLAIMS: usize = 1_024;

/// The most lines of services of a test.
pub const MOST_SERVICES: usize = 1_024;

/// The most sites that a test names, each with a number of arguments.
pub const MOST_SITES: usize = 1_024;

/// The most alternatives in one line of a service.
pub const MOST_ALTERNATIVES: usize = 64;

/// The greatest N of `in each of N calls`: the most calls that take alternatives of their own.
pub const MOST_CALLS: usize = 4;

/// The most ways of a case. A way takes one alternative of each line of a service, or one for each of its N calls, and one number of each range of
/// delays in what it takes.
pub const MOST_WAYS: u64 = 1_000_000;
