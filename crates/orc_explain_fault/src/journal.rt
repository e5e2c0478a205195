//! Faults of a journal's text (J1 to J4).
//!
//! A function `say_..` writes what its comment names at the end of `page`, and `page.heed_search` refuses the page if a search for a name was refused
//! memory. `subject` has the files of the command line, and `document` is the journal's: its name and its text. `page.point` shows the line of a span
//! of it with carets; what is said next stands behind them.

use crate::syntax::{say_most, say_refused};
use crate::words::said_of;
use orc_journal_text::JournalFault;
use orc_lex::token::Span;
use orc_report::{Document, Near, Page, Subject};
use orc_rules::limits::{LONGEST_JOURNAL, MOST_ENTRIES};
use orc_site::read_script;
use std::alloc::Global;

/// The form of an entry `cancel`, which version 1 of journals doesn't have.
const CANCEL: &str = "cancel K";

/// What is said of a line that ends with CR and LF.
const NO_RETURNS: &str =
    "lines end with a line feed alone, and this one with a carriage return before it";

/// The words with which entries begin, each with the form of its entries as docs/orc.md, *Journals*, has it. S is the mark of the token that the
/// entry names, or the otherwise of a `right`; A and B are new marks, C is a cell, K a call, V a value and T a time. A form is shown between two
/// backquotes, so the one of `return` closes and opens them in its middle.
const FORMS: [(&[u8], &str); 16] = [
    (b"end", "end S"),
    (b"fork", "fork S A B"),
    (b"seq", "seq S A"),
    (b"other", "other S A"),
    (b"def", "def S A"),
    (b"void", "void S"),
    (b"open", "open S C A B"),
    (b"send", "send S A V"),
    (b"call", "call S K NAME(a, b)"),
    (b"return", "return K A V` or `return K halt"),
    (b"bind", "bind S C V"),
    (b"lost", "lost C"),
    (b"right", "right S A"),
    (b"publish", "publish S V"),
    (b"tick", "tick T"),
    (b"cancel", CANCEL),
];

// The bytes before the first byte of a text that is `byte`, and those behind that one. If the text has no such byte: all of it, and nothing.
fn split_at_byte(text: &[u8], byte: u8) -> (&[u8], &[u8]) {
    let end = match text.iter().position(|other| *other == byte) {
        Some(end) => end,
        None => text.len(),
    };
    let front = text.get(..end).unwrap_or(b"");
    let back = text.get(end.saturating_add(1)..).unwrap_or(b"");
    (front, back)
}

// The name of the site in the line of a `call S K NAME(..)`: the word `call`, the mark S and the number K each end at a blank. None where there is no
// name, or nothing stands behind a `(`.
fn called(line: &[u8]) -> Option<&[u8]> {
    let (_word, fields) = split_at_byte(line, b' ');
    let (_mark, fields) = split_at_byte(fields, b' ');
    let (_number, call) = split_at_byte(fields, b' ');
    let (name, arguments) = split_at_byte(call, b'(');
    if name.is_empty() || arguments.is_empty() {
        None
    } else {
        Some(name)
    }
}

/// Explains a fault of the text of the subject's journal; nothing where there is none.
pub(crate) fn say_journal(page: &mut Page, alloc: Global, subject: &Subject, fault: JournalFault) {
    let Some(document) = subject.journal else {
        return;
    };
    match fault {
        JournalFault::Header => say_header(page, &document),
        JournalFault::Line(number) => say_journal_line(page, alloc, subject, &document, number),
        JournalFault::Long => say_long_journal(page, &document),
        JournalFault::Memory => say_refused(page, "the journal was read"),
    }
}

// Fault J1: a first line that is no header.
fn say_header(page: &mut Page, document: &Document) {
    let span = document.line(1);
    page.point(document, span);
    page.say("no header\n");
    page.expected("`orc-journal 2` or `orc-journal 1`, and a line feed");
    if document.part(span).ends_with(b"\r") {
        page.help(NO_RETURNS);
    } else if !document.text.starts_with(b"orc-journal") {
        page.help("a journal is what `orc run FILE --journal` writes");
    }
}

// Fault J3: a journal of too many bytes or entries. `say_most` writes how many bytes there may be and leaves its line open; the number of entries
// ends that line.
fn say_long_journal(page: &mut Page, document: &Document) {
    say_most(page, document, LONGEST_JOURNAL as u64);
    page.say_number(" and ", MOST_ENTRIES, " entries\n");
}

// Fault J2: the line with this number, from 1, is no entry.
fn say_journal_line(
    page: &mut Page,
    alloc: Global,
    subject: &Subject,
    document: &Document,
    number: usize,
) {
    let span = document.line(number);
    let line = document.part(span);
    page.point(document, span);
    let (word, _fields) = split_at_byte(line, b' ');
    if line.is_empty() {
        page.say("an entry has to stand here: a journal has no blank lines\n");
        return;
    }
    match said_of(word, FORMS.as_slice()) {
        None => say_no_entry(page, alloc, word),
        Some(form) => say_entry(page, alloc, subject, document, span, form),
    }
    if line.ends_with(b"\r") {
        page.help(NO_RETURNS);
    }
}

// Says what is wrong with the line at `span`, which begins with the word of an entry of this form.
fn say_entry(
    page: &mut Page,
    alloc: Global,
    subject: &Subject,
    document: &Document,
    span: Span,
    form: &str,
) {
    if form == CANCEL && document.text.starts_with(b"orc-journal 1\n") {
        page.say("version 1 has no `cancel` lines\n");
    } else if span.end >= document.text.len() {
        page.say("the last line has no line feed: the journal was cut off\n");
    } else {
        say_wrong_form(page, alloc, subject, document.part(span), form);
    }
}

// Says that a line begins with `word`, which no entry has, and which word may have been meant.
fn say_no_entry(page: &mut Page, alloc: Global, word: &[u8]) {
    page.say_word("no entry is called `", word, "`");
    let meant = near_word(page, alloc, word);
    if !meant.is_empty() {
        page.say_word("; did you mean `", meant, "`?");
    }
    page.say("\n");
}

// The word nearest to this one, of those with which entries begin (`FORMS`); empty where none is near. The page is refused if the search was refused
// memory.
fn near_word(page: &mut Page, alloc: Global, word: &[u8]) -> &'static [u8] {
    let mut near = Near::new(alloc, word);
    let mut meant: &'static [u8] = b"";
    for (other, _form) in FORMS.iter() {
        // The search takes only nearer words than it took before, so the last one that it takes is the nearest.
        if near.takes(*other) {
            meant = *other;
        }
    }
    page.heed_search(&near);
    meant
}

// Says that a line, which begins with the word of an entry, has another form than `form`, or calls a site that is neither built in nor in the script.
fn say_wrong_form(page: &mut Page, alloc: Global, subject: &Subject, line: &[u8], form: &str) {
    if line.starts_with(b"call ") {
        if let Some(name) = called(line) {
            // The script was read before: only memory can be refused here.
            let Ok(answers) = read_script(alloc, subject.script_text()) else {
                page.refuse();
                return;
            };
            if answers.site_named(name).is_none() {
                page.say_word("no site is called `", name, "`: ");
                page.say(match subject.script {
                    Some(_) => "is this the script of that run?\n",
                    None => "was the journal written with a script? Give it with --script\n",
                });
                return;
            }
        }
    }
    page.say("the form is `");
    page.say(form);
    page.say("`: one space between, numbers without leading zeros\n");
}
