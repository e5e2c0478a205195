//! Cases with too many ways (T6). A way is one choice among all that the case's services may do. A test without a case has one that is called
//! `given`. Functions take a case by its place in the test, from 0; the `case` of a service is None if it stands below `given`, where it is one of
//! each case that has no service of its own with the same name and patterns. `document` is the test's file, its name and its text: `page.point` shows
//! the line of a span of it with carets, and what is said next stands behind them.

use crate::script::Line;
use crate::test_place::span_of;
use orc_report::{Document, Page};
use orc_rules::answers::Answers;
use orc_ways::read_test;
use orc_ways::test::{Reply, Service, ServiceLine, Test};
use std::alloc::Global;

// How many answers, each with its time, a reply stands for: a range of delays is one for each of its numbers.
fn times(reply: Reply) -> u64 {
    match reply {
        Reply::Between(_, low, high) => high.saturating_sub(low).saturating_add(1),
        Reply::Never => 1,
    }
}

// How many ways a service has by itself: the ways of all its alternatives, added up, to the power of the number of calls that each take an
// alternative of their own. The replies of an alternative answer one call after the other, so its ways are the times of its replies, multiplied. If
// the result is over 64 bits, the greatest number of 64 bits.
fn ways_of(service: &Service) -> u64 {
    let mut all: u64 = 0;
    for replies in service.alternatives.iter() {
        let mut ways: u64 = 1;
        for reply in replies.iter() {
            ways = ways.saturating_mul(times(*reply));
        }
        all = all.saturating_add(ways);
    }
    let mut ways: u64 = 1;
    for _call in 0..service.calls {
        ways = ways.saturating_mul(all);
    }
    ways
}

// Whether a service is one of the case at place `case`, from 0: its line stands in the case, or below `given`, and then no line in the case has the
// same name and patterns.
fn is_of(test: &Test, case: Option<usize>, line: &ServiceLine) -> bool {
    if line.case.is_some() {
        return line.case == case;
    }
    for other in test.services.iter() {
        if other.case.is_some() && other.case == case && is_same(&other.service, &line.service) {
            return false;
        }
    }
    true
}

// Whether two services have the same name and the same patterns, so that the one of a case replaces the other.
fn is_same(one: &Service, other: &Service) -> bool {
    one.name == other.name && one.patterns.as_slice() == other.patterns.as_slice()
}

// The name of the service that has most ways by itself (combinations of its answers and their times), of those of the case at place `case`, from 0;
// and how many ways it has. None where no service has more than one.
fn widest<'a>(test: &Test<'a>, case: Option<usize>) -> Option<(&'a [u8], u64)> {
    let mut found = None;
    // A service with one way has no choice, so it isn't looked for.
    let mut most: u64 = 1;
    for line in test.services.iter() {
        let ways = ways_of(&line.service);
        if ways > most && is_of(test, case, line) {
            most = ways;
            found = Some((line.service.name, ways));
        }
    }
    found
}

/// Writes that the case which begins in the line with this number, from 1, has too many ways, and which of its services has most. `others` is the
/// table of the built-in sites and the script, beside which the test was read.
pub(crate) fn say_ways(
    page: &mut Page,
    alloc: Global,
    document: &Document,
    others: &Answers,
    number: usize,
) {
    let Ok(line) = Line::new(alloc, document.text, document.line(number)) else {
        // Memory was refused, so the page isn't given out.
        page.refuse();
        return;
    };
    page.point(document, span_of(line.pieces.as_slice()));
    // The number is `MOST_WAYS`.
    page.say("this case has over 1,000,000 ways\n");
    // The test was read before this fault was found: only memory can be refused here.
    let Ok(test) = read_test(alloc, document.text, others) else {
        page.refuse();
        return;
    };
    // The place of the case among all cases, from 0. There is one, since the fault names the line of a case.
    let case = test.cases.iter().position(|case| case.line == number);
    if let Some((name, ways)) = widest(&test, case) {
        // Begins a line ` = `.
        page.note("");
        page.say_word("`", name, "` alone has ");
        page.number(ways);
        page.say("\n");
    }
    page.help(
        "the ways of services multiply, and a range has one for each of its numbers: give a case fewer ranges, or shorter ones",
    );
}
