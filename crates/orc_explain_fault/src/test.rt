//! Faults of a test's text (T1 to T6), each explained in the file of its kind.

use crate::syntax::{say_long, say_refused};
use crate::test_line::say_line;
use crate::test_place::say_place;
use crate::test_site::say_unknown;
use crate::test_ways::say_ways;
use orc_report::{Document, Page};
use orc_rules::answers::Answers;
use orc_rules::limits::LONGEST_SOURCE;
use orc_ways::fault::TestFault;
use std::alloc::{AllocError, Global};

// Writes the explanation of a fault at the end of the page. `document` is the test's file, its name and its text. `others` is the table of the
// built-in sites and the script beside which the test was read. A fault names lines by their numbers, from 1.
fn say_test(
    page: &mut Page,
    alloc: Global,
    document: &Document,
    others: &Answers,
    fault: TestFault,
) {
    match fault {
        TestFault::Line(number) => say_line(page, alloc, document, number),
        TestFault::Memory => say_refused(page, "the test was read"),
        TestFault::Long => say_long(page, document, LONGEST_SOURCE as u64),
        TestFault::Place(number) => say_place(page, alloc, document, number),
        TestFault::Unknown(number) => say_unknown(page, alloc, document, others, number),
        TestFault::Ways(number) => say_ways(page, alloc, document, others, number),
    }
}

/// The text that explains a fault of a test, below its own line. `others` is the table of the built-in sites and the script beside which the test was
/// read. The error is refused memory.
pub fn explain_test(
    alloc: Global,
    test: &Document,
    others: &Answers,
    fault: TestFault,
) -> Result<String, AllocError> {
    let mut page = Page::new(alloc);
    say_test(&mut page, alloc, test, others, fault);
    page.finish()
}
