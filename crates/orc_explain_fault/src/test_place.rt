//! Lines of a test that can't stand where they do (T4): in the wrong section, a second section of a name, or one line too many.
//!
//! A function `say_..` writes what its comment names at the end of `page`. `document` is the test's file, its name and its text: `page.point` shows
//! the line of a span of it with carets, and what is said next stands behind them. The numbers of lines too many are one more than those of
//! `orc_ways::limits`. The outline of a test says what each line is by its first words (`Head`): `given`, `always` or `case`, which begin a section,
//! a service or a claim.

use crate::outline::{Head, Outline, Outlined};
use crate::script::{Line, Piece};
use orc_lex::token::Span;
use orc_report::{Document, Page};
use orc_site::line::is_built_in_name;
use std::alloc::Global;

/// In which sections services stand.
const SERVICES: &str = "services stand below `given` or a case";

/// In which sections claims stand.
const CLAIMS: &str = "claims stand below `always` or a case";

/// How many services and claims there may be: `MOST_SERVICES` and `MOST_CLAIMS`.
const FEWER: &str = "a test has at most 1,024 services and 1,024 claims: make two tests of it";

/// Explains why the line with this number, from 1, can't stand where it does.
pub(crate) fn say_place(page: &mut Page, alloc: Global, document: &Document, number: usize) {
    let Ok(outline) = Outline::new(alloc, document.text) else {
        // Memory was refused, so the page isn't given out.
        page.refuse();
        return;
    };
    // Not None: a blank line has no fault.
    let Some(head) = outline.at(number) else {
        return;
    };
    let Ok(line) = Line::new(alloc, document.text, document.line(number)) else {
        page.refuse();
        return;
    };
    page.point(document, span_of(line.pieces.as_slice()));
    match head {
        Head::Service(name, _) if is_built_in_name(name) => {
            page.say_word("`", name, "` is built in, and a test can't answer for it\n");
            page.help("take another name");
        }
        Head::Service(..) | Head::Claim => say_misplaced(page, head, outline.section(number)),
        // `given`, `always` or a case.
        _ => say_second_section(page, &outline, number, head),
    }
}

/// The bytes of a line's pieces, from the first to the last; an empty span at the text's beginning where there are none.
pub(crate) fn span_of(pieces: &[Piece]) -> Span {
    match pieces {
        [only] => only.span,
        [first, .., last] => Span {
            start: first.span.start,
            end: last.span.end,
        },
        [] => Span { start: 0, end: 0 },
    }
}

// Two texts: why a service or a claim can't stand in a section, and what to do. `section` is None for a line before the first section. If the line
// can stand in the section, there are too many of its kind.
fn misplaced(head: Head, section: Option<Head>) -> (&'static str, &'static str) {
    match (head, section) {
        (Head::Claim, None) => ("a claim can't stand before the first section", CLAIMS),
        (Head::Claim, Some(Head::Given)) => ("a claim can't stand below `given`", CLAIMS),
        (Head::Claim, Some(_)) => ("the 1,025th claim", FEWER),
        (_, None) => ("a service can't stand before the first section", SERVICES),
        (_, Some(Head::Always)) => ("a service can't stand below `always`", SERVICES),
        // Below `given` or a case.
        _ => ("the 1,025th service", FEWER),
    }
}

// Says why a service or a claim can't stand in its section, None before the first one, and in which line the section begins.
fn say_misplaced(page: &mut Page, head: Head, section: Option<Outlined>) {
    let (words, help) = misplaced(head, section.map(|section| section.head));
    page.say(words);
    page.say("\n");
    if let Some(section) = section {
        page.note("its section begins in line ");
        page.number(section.number as u64);
        page.say("\n");
    }
    page.help(help);
}

// Says that the line with this number, from 1, which begins the section `head`, is the second of its name, if an earlier line begins the same
// section; otherwise that it is a case too many.
fn say_second_section(page: &mut Page, outline: &Outline, number: usize, head: Head) {
    match outline.first(head) {
        Some(first) if first < number => {
            page.say("a second section of this name\n");
            page.note("the first one stands in line ");
            page.number(first as u64);
            page.say("\n");
        }
        // No earlier line begins this section, so there are too many cases: over 256.
        _ => page.say("the 257th case\n"),
    }
}
