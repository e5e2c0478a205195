//! Faults of a source's text (S1 to S8).
//!
//! A function `say_..` writes what its comment names at the end of `page`. A place `at` is a byte of the text, from 0. `document` is the file with
//! the fault, its name and its text: `page.point` shows the line of a span of it with carets, and what is said next stands behind them.

use crate::hint::say_hint;
use crate::signs::say_stray;
use crate::tokens::{Tokens, say_token, span_at};
use crate::wanted::hint_of;
use orc_lex::token::{Kind, Side, Span, Token, What};
use orc_report::{Document, Page};
use orc_rules::limits::LONGEST_SOURCE;
use orc_syntax::SyntaxFault;
use std::alloc::Global;

/// Which numbers are values, in words: those of 64 bits with a sign.
pub(crate) const VALUES: &str = "-9223372036854775808 to 9223372036854775807";

// What the parser expected, in words. For the second sign of an operator with a variable (`Arrow`) the first sign says which way it points: that sign
// is two tokens before the place, since the name stands between.
fn wanted(what: What, tokens: &Tokens) -> &'static str {
    match what {
        What::Expression => "an expression",
        What::Name => "a name",
        What::Paren => "`(`",
        What::Close => "`)`",
        What::CommaOrClose => "`,` or `)`",
        What::Assign => "`=`",
        What::Arrow => match tokens.back(2) {
            Some(
                Token {
                    kind: Kind::Arrow(Side::Left),
                    ..
                },
            ) => "`<`, the second sign of the operator",
            _ => "`>`, the second sign of the operator",
        },
        What::End => "an operator (`|`, `>x>`, `>>`, `<x<`, `<<` or `;`) or the end of the text",
    }
}

/// Explains a fault of a source's text, which is that of the document.
pub(crate) fn say_syntax(page: &mut Page, alloc: Global, document: &Document, fault: SyntaxFault) {
    match fault {
        SyntaxFault::Encoding(at) => say_encoding(page, document, at),
        SyntaxFault::Character(at) => say_stray(page, document, at),
        SyntaxFault::Number(span) => say_out_of_range(page, document, span),
        SyntaxFault::Expected(at, what) => say_unexpected(page, alloc, document, at, what),
        SyntaxFault::Deep(at) => say_deep(page, document, at),
        SyntaxFault::Long => say_long(page, document, LONGEST_SOURCE as u64),
        SyntaxFault::Comment(at) => say_comment(page, document, at),
        SyntaxFault::Memory => say_refused(page, "the source was read as a program"),
    }
}

// Fault S1: the bytes from `at` on, from 0, aren't UTF-8.
fn say_encoding(page: &mut Page, document: &Document, at: usize) {
    let end = at.saturating_add(1);
    page.point(document, Span { start: at, end });
    page.say("from here on the bytes aren't UTF-8\n");
    page.help("save the file as UTF-8; outside comments only ASCII is allowed");
}

/// Points at a number that is out of range, and says so (S3).
pub(crate) fn say_out_of_range(page: &mut Page, document: &Document, span: Span) {
    page.point(document, span);
    page.say("this number is out of range\n");
    page.expected(VALUES);
}

// Fault S7: the `{-` at byte `at`, from 0, isn't closed. The carets go under its two bytes.
fn say_comment(page: &mut Page, document: &Document, at: usize) {
    let end = at.saturating_add(2);
    page.point(document, Span { start: at, end });
    page.say("this comment isn't closed\n");
    page.expected("one `-}` for each `{-`, the ones inside it too");
}

// Fault S4: the program can't go on with the token at byte `at`, from 0, or the text ends there. Below stand what was expected, and a hint.
fn say_unexpected(page: &mut Page, alloc: Global, document: &Document, at: usize, what: What) {
    let Ok(tokens) = Tokens::new(alloc, document.text, at) else {
        // Memory was refused, so the page isn't given out.
        page.refuse();
        return;
    };
    match tokens.here {
        Some(token) => {
            page.point(document, token.span);
            say_token(page, document, &token);
            page.say(" can't stand here\n");
        }
        None => say_end(page, document, tokens.back(1), at),
    }
    page.expected(wanted(what, &tokens));
    if let Some(hint) = hint_of(document.text, &tokens, what) {
        say_hint(page, document, hint);
    }
}

// Points at the end of the text, and says that it ends there. The caret stands behind the token `last`, not behind blanks and comments; if there is
// no token it stands at byte `at`.
fn say_end(page: &mut Page, document: &Document, last: Option<Token>, at: usize) {
    let start = last.map_or(at, |token| token.span.end);
    page.point(document, Span { start, end: start });
    page.say("the text ends here\n");
}

// Fault S5: the bracket, `val` or operator at byte `at`, from 0, is one too many. The numbers are one more than `MOST_BRACKETS` and `MOST_OPERATORS`
// allow.
fn say_deep(page: &mut Page, document: &Document, at: usize) {
    let span = span_at(document.text, at);
    page.point(document, span);
    match document.part(span) {
        b"(" | b"val" => {
            page.say("the 201st open bracket or `val` of this expression\n");
            page.help("give an inner part a name with `def`");
        }
        _ => {
            page.say("the 4,001st operator of this expression\n");
            page.help("give parts of it names with `def`: each body counts by itself");
        }
    }
}

/// Writes the name of a file that is too long, and how many bytes it may have (`most`). The last line is left open: the caller ends it.
pub(crate) fn say_most(page: &mut Page, document: &Document, most: u64) {
    page.say(" --> ");
    page.path(document.name);
    page.say("\n");
    page.note("expected: at most ");
    page.number(most);
    page.say(" bytes");
}

/// Explains a text that is too long: how many bytes it may have at most (`most`), and how many it has.
pub(crate) fn say_long(page: &mut Page, document: &Document, most: u64) {
    say_most(page, document, most);
    page.say_number(", and these are ", document.text.len() as u64, "\n");
}

/// Writes a line that says that memory was refused while something was done. `what` is the line's end, as `the source was read as a program`.
pub(crate) fn say_refused(page: &mut Page, what: &str) {
    page.note("memory was refused while ");
    page.say(what);
    page.say("\n");
    page.help("nothing was found wrong up to there");
}
