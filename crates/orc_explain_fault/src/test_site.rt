//! Sites in a claim for which no service of the test answers, nor the script beside it (T5).
//!
//! A function `say_..` writes what its comment names at the end of `page`, and `page.heed_search` refuses the page if a search for a name was refused
//! memory. `document` is the test's file, its name and its text: `page.point` shows the line of a span of it with carets, and what is said next
//! stands behind them. `others` is the table of the built-in sites and the script. A service is a site whose answers the test says. The outline of a
//! test says what each line is by its first words (`Head`).

use crate::outline::{Head, Outline, arguments};
use crate::scope::near_site;
use crate::script::Line;
use orc_report::{Document, Near, Page};
use orc_rules::answers::Answers;
use std::alloc::Global;

// Whether a service has this name and so many arguments, or a site of the script or a built-in one has this name: those take any number.
fn is_known(outline: &Outline, others: &Answers, name: &[u8], count: usize) -> bool {
    for line in outline.lines.iter() {
        if let Head::Service(other, arguments) = line.head {
            if other == name && arguments == count {
                return true;
            }
        }
    }
    others.site_named(name).is_some()
}

/// Explains the first site in the line with this number, from 1, that isn't known. `others` is the table of the built-in sites and the script.
pub(crate) fn say_unknown(
    page: &mut Page,
    alloc: Global,
    document: &Document,
    others: &Answers,
    number: usize,
) {
    let Ok(outline) = Outline::new(alloc, document.text) else {
        // Memory was refused, so the page isn't given out.
        page.refuse();
        return;
    };
    let Ok(line) = Line::new(alloc, document.text, document.line(number)) else {
        page.refuse();
        return;
    };
    // A piece that is a name with brackets behind it is a site, and `arguments` counts what stands in them. The fault says that one of the sites
    // isn't known.
    for (at, piece) in line.pieces.iter().enumerate() {
        let pieces = line.pieces.get(at..).unwrap_or(&[]);
        if let Some(count) = arguments(pieces) {
            if !is_known(&outline, others, piece.text, count) {
                page.point(document, piece.span);
                say_no_service(page, alloc, &outline, others, piece.text, count);
                return;
            }
        }
    }
}

// The name that is nearest to `name`, of the sites of the script, the built-in ones and the services of the test; empty where none is near.
fn near_service<'a>(
    page: &mut Page,
    alloc: Global,
    outline: &Outline<'a>,
    others: &'a Answers,
    name: &[u8],
) -> &'a [u8] {
    let mut near = Near::new(alloc, name);
    // Sites of the table are shown to the search first, and services then.
    let mut meant = near_site(&mut near, others).unwrap_or(b"");
    for line in outline.lines.iter() {
        if let Head::Service(other, _) = line.head {
            // The search takes only nearer names than it took before, so the last one that it takes is the nearest.
            if near.takes(other) {
                meant = other;
            }
        }
    }
    // If the search was refused memory, the page isn't given out.
    page.heed_search(&near);
    meant
}

// Writes with how many arguments the first service of a name stands in the test, and in which line. False if there is none, and then nothing is
// written.
fn say_other_arguments(page: &mut Page, outline: &Outline, name: &[u8]) -> bool {
    let Some((line, count)) = outline.service(name) else {
        return false;
    };
    // Begins a line ` = `.
    page.note("");
    page.say_word("`", name, "` has ");
    page.count(count as u64, "argument");
    page.say_number(" in line ", line as u64, "\n");
    true
}

// Writes, behind the carets, that no service has the name `name` and `count` arguments, and what may have been meant.
fn say_no_service(
    page: &mut Page,
    alloc: Global,
    outline: &Outline,
    others: &Answers,
    name: &[u8],
    count: usize,
) {
    page.say_word("no service is called `", name, "` with ");
    page.count(count as u64, "argument");
    page.say("\n");
    if say_other_arguments(page, outline, name) {
        return;
    }
    let meant = near_service(page, alloc, outline, others, name);
    page.note("help: ");
    if meant.is_empty() {
        page.say("a service of the test has to answer its calls, below `given` or a case\n");
    } else {
        page.say_word("did you mean `", meant, "`?\n");
    }
}
