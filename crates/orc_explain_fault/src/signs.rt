//! Characters that begin no token (S2).
//!
//! A function `say_..` writes what its comment names at the end of `page`. A place `at` is a byte of the text, from 0. `document` is the file with
//! the fault, its name and its text.

use crate::hint::{Hint, say_hint};
use orc_lex::token::Span;
use orc_report::{Document, Page, begins_character};

/// How a comment is written in a source.
const COMMENT: &str = "a comment is `-- ..` to the end of the line, or `{- .. -}`";

/// What is said of a `*`, which other languages have for products.
const NO_PRODUCT: &str = "there is no product: a script can answer for a site of your own";

/// What is said of a `/`, which other languages have for quotients.
const NO_QUOTIENT: &str = "there is no quotient: a script can answer for a site of your own";

/// What is said of a `[` or a `]`.
const NO_LISTS: &str = "there are no lists";

/// What is said of a `{` or a `}`.
const BRACKETS: &str = "brackets are `(` and `)`; a comment is `{- .. -}`";

/// The bytes of a byte order mark, which some editors put first into a file.
pub(crate) const ORDER_MARK: &[u8] = b"\xEF\xBB\xBF";

/// What to do about a byte order mark.
pub(crate) const NO_ORDER_MARK: &str =
    "this is a byte order mark: save the file as UTF-8 without one";

// What is said of a place where the text goes on with these bytes. The first entry that fits is taken, so an entry for two signs is before one for
// the first alone.
const HINTS: [(&[u8], &str); 22] = [
    (ORDER_MARK, NO_ORDER_MARK),
    (b"//", COMMENT),
    (b"/*", COMMENT),
    (b"#", COMMENT),
    (
        b"&&",
        "there is no sign for \"and\": `Ift(a) >> Ift(b) >> ..` goes on where both are true",
    ),
    (
        b"&",
        "both side by side is `f | g`; to wait for both is `val a = f val b = g ..`",
    ),
    (b"+", "`Add(a, b)` is a sum"),
    (b"->", "`f >x> g` hands the values of f on to g"),
    (
        b"-",
        "`Sub(a, b)` is a difference; a `-` belongs to a number where a digit follows",
    ),
    (b"*", NO_PRODUCT),
    (b"/", NO_QUOTIENT),
    (
        b"\"",
        "there are no texts: values are whole numbers, `true`, `false` and `signal`",
    ),
    (b"'", "there are no texts, and no `'` in names"),
    (b"[", NO_LISTS),
    (b"]", NO_LISTS),
    (b"{", BRACKETS),
    (b"}", BRACKETS),
    (b"!", "`Iff(b)` goes on where b is false"),
    (b".", "numbers are whole, and there are no fields"),
    (b":=", "a value is named with `val x = g f`"),
    (b":", "there are no types, and no records"),
    (b"_", "a name begins with a letter"),
];

// Two signs that are one in other languages, so that the carets go under both.
const SIGN_PAIRS: [&[u8]; 5] = [b"//", b"/*", b"&&", b"->", b":="];

// Whether a pair of `SIGN_PAIRS` begins at this byte.
fn is_pair(text: &[u8], at: usize) -> bool {
    let rest = text.get(at..).unwrap_or(b"");
    SIGN_PAIRS.iter().any(|pair| rest.starts_with(*pair))
}

// The end of the character that begins at this byte: the next byte that begins one, or the text's end.
fn character_end(text: &[u8], at: usize) -> usize {
    let rest = text.get(at..).unwrap_or(b"");
    let more = rest.get(1..).unwrap_or(b"");
    let length = match more.iter().position(|byte| begins_character(*byte)) {
        Some(end) => end,
        None => more.len(),
    };
    at.saturating_add(1).saturating_add(length).min(text.len())
}

// The number of the character that these bytes begin with. None where they aren't UTF-8.
fn code(bytes: &[u8]) -> Option<u32> {
    match str::from_utf8(bytes) {
        Ok(text) => text.chars().next().map(|sign| sign as u32),
        Err(_) => None,
    }
}

// What is said of the text at byte `at`: the first entry of `HINTS` that fits, or words on characters outside ASCII. None where nothing helpful is
// known.
fn hint(text: &[u8], at: usize) -> Option<&'static str> {
    let rest = text.get(at..).unwrap_or(b"");
    for (signs, said) in HINTS.iter() {
        if rest.starts_with(*signs) {
            return Some(*said);
        }
    }
    match rest.first() {
        Some(128..=255) => Some(
            "signs and names are ASCII; a text that was copied may hold other quotes, dashes or blanks",
        ),
        _ => None,
    }
}

// Writes a character: printable ASCII, 33 to 126, as itself, and any other by its number. `bytes` are those of the character, or of a pair of signs.
fn say_character(page: &mut Page, bytes: &[u8]) {
    match bytes {
        [33..=126, ..] => page.say_word("`", bytes, "`"),
        _ => say_unshown(page, bytes),
    }
}

// Writes the number of a character that isn't printable ASCII.
fn say_unshown(page: &mut Page, bytes: &[u8]) {
    match code(bytes) {
        Some(code) if code < 128 => page.say_number("the control character ", code as u64, ""),
        Some(code) => {
            page.say("the character U+");
            page.code(code);
        }
        // Bytes that aren't UTF-8 have no number.
        None => page.say("this character"),
    }
}

/// Explains a character, at byte `at` of the text, that begins no token.
pub(crate) fn say_stray(page: &mut Page, document: &Document, at: usize) {
    let end = if is_pair(document.text, at) {
        at.saturating_add(2)
    } else {
        character_end(document.text, at)
    };
    let span = Span { start: at, end };
    page.point(document, span);
    say_character(page, document.part(span));
    page.say(" begins nothing that a program is made of\n");
    if let Some(words) = hint(document.text, at) {
        say_hint(page, document, Hint::plain(words));
    }
}
