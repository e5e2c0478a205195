//! Lines of a test that have none of its forms (T1). `grammar.rt` finds where such a line goes wrong. A piece is a name, a number or a sign, and
//! `here` is the one that is looked at. A `Walk` went over the pieces, up to its `place` in the grammar.
//!
//! A function `say_..` writes what its comment names at the end of `page`, and `page.heed_search` refuses the page if a search for a name was refused
//! memory. `document` is the test's file, its name and its text: `page.point` shows the line of a span of it with carets, and what is said next
//! stands behind them.

use crate::grammar::{Place, Walk};
use crate::script::{COMMENT, Kind, Line, Piece, is_in_range, number_advice};
use crate::syntax::say_out_of_range;
use crate::words::said_of;
use orc_lex::token::Span;
use orc_report::{Document, Near, Page};
use orc_rules::digits::digits_at;
use std::alloc::Global;

/// The form of a range.
const RANGE: &str = "a range is `0..5`: two numbers with two dots between them";

/// What a variable is.
const VARIABLE: &str = "a variable begins with a small letter";

/// What events may stand with `at once`.
const ONCE: &str = "`at once` counts calls, so each event is `NAME(..)` alone";

/// What is said of a word or a sign of another language, where it can't stand.
const WORDS: [(&[u8], &str); 13] = [
    (b"#", COMMENT),
    (b"/", COMMENT),
    (
        b"not",
        "`no` says that something doesn't happen: `no Pay(_)`",
    ),
    (
        b"never",
        "`no` says that something never happens: `no Pay(_)`",
    ),
    (
        b"and",
        "there is no `and`: each line is a claim, and all of them have to hold",
    ),
    (
        b"before",
        "`A only after B` says that B comes before each A",
    ),
    (
        b"unless",
        "`if no A then ..` says what holds where A doesn't happen",
    ),
    (b"when", "`if A then ..` says what holds where A happens"),
    (b"max", "`at most 1 Pay(_)`"),
    (b"min", "`at least 1 Pay(_)`"),
    (b"to", RANGE),
    (
        b"once",
        "`exactly 1` counts, and `at most 1 .. at once` counts calls that are out together",
    ),
    (b"returned", "`answered` says that a call has its answer"),
];

/// Explains what is wrong with the line with this number, from 1.
pub(crate) fn say_line(page: &mut Page, alloc: Global, document: &Document, number: usize) {
    let span = document.line(number);
    let Ok(mut line) = Line::new(alloc, document.text, span) else {
        // Memory was refused, so the page isn't given out.
        page.refuse();
        return;
    };
    // The walk leaves the line at the first piece that can't stand where it does, if there is one.
    match Walk::over(&mut line) {
        Some(walk) => say_stop(page, alloc, document, &line, walk),
        None => say_whole(page, document, &line),
    }
}

// Says that the piece at which the walk over the line has stopped can't stand where it does.
fn say_stop(page: &mut Page, alloc: Global, document: &Document, line: &Line, walk: Walk) {
    let here = line.here();
    if here.kind == Kind::Number && !is_in_range(here.text) {
        say_out_of_range(page, document, here.span);
        return;
    }
    page.point(document, here.span);
    match here.kind {
        Kind::End => page.say("the line ends here\n"),
        _ => page.say_word("`", here.text, "` can't stand here\n"),
    }
    say_wanted(page, alloc, line, walk);
}

// Writes what may stand where the walk has stopped, and what may have been meant. `before` has the words for the place that the walk left without a
// piece.
fn say_wanted(page: &mut Page, alloc: Global, line: &Line, walk: Walk) {
    let here = line.here();
    let (before, wanted) = walk.wanted();
    page.note("expected: ");
    page.say(before);
    page.say(wanted);
    page.say("\n");
    let mut near = Near::new(alloc, here.text);
    // The word that may stand here and is nearest to the one that does; empty if none is near. If the search was refused memory, `heed_search`
    // refuses the page.
    let word = walk.near_word(&mut near);
    page.heed_search(&near);
    if !word.is_empty() {
        page.note("help: ");
        page.say_word("did you mean `", word, "`?\n");
    } else if let Some(words) = advice(line, walk) {
        page.help(words);
    }
}

// What to write instead of the piece at which the walk has stopped: by a number before the piece, by the place, or else by the piece itself. None
// where that isn't known.
fn advice(line: &Line, walk: Walk) -> Option<&'static str> {
    let here = line.here();
    // A `.` is left to the place, which knows whether a range was meant.
    if line.lengthens_number() && !here.text.starts_with(b".") {
        return Some(number_advice(here));
    }
    // The walk went on from `Answered` without a value, so a name with a capital letter was meant as a variable.
    if let (Some(Place::Answered), [b'A'..=b'Z', ..]) = (walk.before, here.text) {
        return Some(VARIABLE);
    }
    if let Some(words) = place_advice(here, walk.place) {
        return Some(words);
    }
    said_of(here.text, WORDS.as_slice())
}

// What to write instead of the piece `here` at a place of the grammar where it can't stand. None where the place says nothing of it.
fn place_advice(here: Piece, place: Place) -> Option<&'static str> {
    match place {
        Place::Bracket => Some(
            "a line with a `=` is a service, `NAME(pattern, ..) = ANSWER`; claims and sections have no `=`",
        ),
        Place::Answer if here.is(b"=") => Some("a service has one `=`: `Pay(_) = 1 after 3`"),
        Place::AnswerEnd | Place::RangeEnd | Place::Time if is_of_range(here) => Some(RANGE),
        Place::AnswerEnd if here.is(b"after") => {
            Some("`never` takes no `after`, and an answer takes one")
        }
        Place::Patterns | Place::Pattern if here.kind == Kind::Name => {
            Some("variables stand in claims alone; in a service `_` stands for any value")
        }
        Place::Slots | Place::Slot | Place::Published if here.kind == Kind::Name => Some(VARIABLE),
        Place::Only => Some(
            "a line that begins with a site is a service, `Pay(_) = 1 after 3`, or a claim, `Pay(_) only after Ask(_)`",
        ),
        Place::CountEnd if here.is(b"at") => Some("`at once` stands behind `at most`"),
        Place::CaseName | Place::CaseEnd => {
            Some("a case's name is one word of letters, digits and `_`")
        }
        Place::Event if here.kind == Kind::Name => {
            Some("a site has brackets, with `_` for each argument that may be any: `Pay(_)`")
        }
        _ => None,
    }
}

// Whether the piece `here` looks like a part of a range in another form: `...`, `-5`. A range is `0..5`.
fn is_of_range(here: Piece) -> bool {
    match here.text {
        [b'.', ..] | [b'-', ..] => true,
        _ => false,
    }
}

// Where the first range stands whose second number is less than its first, as `5..0`. None if there is no such range.
fn backwards(pieces: &[Piece]) -> Option<Span> {
    for at in 0..pieces.len() {
        if let [low, dots, high, ..] = pieces.get(at..).unwrap_or(pieces) {
            if dots.is(b"..") && is_less(high.text, low.text) {
                return Some(Span {
                    start: low.span.start,
                    end: high.span.end,
                });
            }
        }
    }
    None
}

// Whether a number is less than another, both as digits. False if one of them takes over 64 bits.
fn is_less(one: &[u8], other: &[u8]) -> bool {
    match (digits_at(one), digits_at(other)) {
        (Some((one, _)), Some((other, _))) => one < other,
        _ => false,
    }
}

// The first piece that is this word or sign. None where there is none.
fn first_of<'a>(line: &Line<'a>, word: &[u8]) -> Option<Piece<'a>> {
    for piece in line.pieces.iter() {
        if piece.is(word) {
            return Some(*piece);
        }
    }
    None
}

/// Two words that may not stand in one line, each of which may by itself, and a help that says why; the carets go under the second word. `once` is
/// that of `at once`, `order` that of `in any order`, and `calls` that of `in each of N calls`.
const APART: [(&[u8], &[u8], &str); 6] = [
    (b"once", b"answered", ONCE),
    (b"once", b"halted", ONCE),
    (b"once", b"cancelled", ONCE),
    (b"once", b"published", ONCE),
    (b"order", b"_", "in any order there are values alone"),
    (
        b"calls",
        b"then",
        "where `in each of` stands each alternative is one answer",
    ),
];

// A line each of whose pieces can stand where it does, so that something else is wrong: a range goes backwards, two words don't go together, or there
// is too much of something.
fn say_whole(page: &mut Page, document: &Document, line: &Line) {
    if let Some(span) = backwards(line.pieces.as_slice()) {
        page.point(document, span);
        page.say("this range has no number\n");
        page.help("the smaller number stands first");
        return;
    }
    for (with, word, words) in APART.iter() {
        if first_of(line, *with).is_some() {
            if let Some(piece) = first_of(line, *word) {
                page.point(document, piece.span);
                page.say_word("`", piece.text, "` can't stand in this line\n");
                page.help(words);
                return;
            }
        }
    }
    if let Some(piece) = line.pieces.first() {
        page.point(document, piece.span);
        page.say("this line has too much\n");
        // The numbers are `MOST_ARGUMENTS`, `MOST_ALTERNATIVES`, `MOST_ANSWERS` and `MOST_SITES`.
        page.expected(
            "at most 16 arguments, 64 alternatives and 1,024 answers; and 1,024 sites in a test",
        );
    }
}
