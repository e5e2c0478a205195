//! Faults of a script's text (L1 to L3), and the pieces of a line of a script or a test.
//!
//! `Line` cuts a line into pieces, and looks at one of them after the other. `Line::whole` reads them as the reader of scripts does, and stops at the
//! first piece that can't stand where it does: there the carets go. A function `say_..` writes what its comment names at the end of `page`. `subject`
//! has the files of the command line, and `document` is the script's, its name and its text: `page.point` shows the line of a span of it with carets,
//! and what is said next stands behind them.

use crate::signs::{NO_ORDER_MARK, ORDER_MARK};
use crate::syntax::{VALUES, say_long, say_refused};
use crate::words::{CONSTANTS, is_one_of};
use orc_lex::token::Span;
use orc_report::{Document, Fill, Page, Subject};
use orc_rules::digits::digits_at;
use orc_rules::limits::{LONGEST_SOURCE, MOST_ANSWERS, MOST_ARGUMENTS};
use orc_site::ScriptFault;
use orc_site::line::{is_built_in_name, is_reserved_word};
use std::alloc::{AllocError, Global};

/// The form of a line of a script.
const FORM: &str = "a line is `NAME(pattern, ..) = ANSWER [after N] { then ANSWER [after N] }`";

/// What a pattern may be.
const PATTERN: &str = "a pattern is a number, `true`, `false`, `signal`, or `_` for any value";

/// What an answer may be.
const ANSWER: &str = "an answer is a number, `true`, `false`, `signal`, `halt` or `never`";

/// How a comment is written in a script and in a test.
pub(crate) const COMMENT: &str = "a comment is `-- ..` to the end of the line";

/// What the number behind `after` may be: the greatest is 2^63 - 1.
const TIME: &str = "digits alone, at most 9223372036854775807";

/// What a piece of a line is.
#[derive(Clone, Copy, PartialEq, Eq)]
pub(crate) enum Kind {
    Name,
    Number,
    /// A sign, or any other character.
    Sign,
    /// The end of the line, which is behind its last piece.
    End,
}

/// A piece of a line: a name, a number or a sign, or the end, with its bytes and their places in the text.
#[derive(Clone, Copy)]
pub struct Piece<'a> {
    pub(crate) kind: Kind,
    /// The piece's bytes; none at the end of the line.
    pub text: &'a [u8],
    /// Where these bytes stand in the text.
    pub(crate) span: Span,
}

/// What is wrong with a line: mostly what had to stand where something else stands. `words` says each in words.
#[derive(Clone, Copy)]
enum Wrong {
    /// The name of a site.
    Name,
    /// The name is that of a built-in site.
    BuiltIn,
    /// The name is a reserved word.
    Reserved,
    /// The bracket that opens the patterns.
    Bracket,
    /// A pattern.
    Pattern,
    /// A comma or the closing bracket.
    Comma,
    /// The `=`.
    Assign,
    /// An answer.
    Answer,
    /// An `after` stands behind `never`, which takes none.
    NeverAfter,
    /// The number behind `after`.
    Time,
    /// A number is out of range.
    Range,
    /// `after`, `then` or the end of the line.
    More,
    /// Too many patterns.
    Patterns,
    /// Too many answers.
    Answers,
}

impl Piece<'_> {
    /// Whether the piece is this word or sign.
    pub(crate) fn is(&self, text: &[u8]) -> bool {
        self.text == text
    }
}

// The kind of the piece that stands first in `rest`, the rest of a line, which isn't empty.
fn kind_at(rest: &[u8]) -> Kind {
    match rest {
        [b'A'..=b'Z' | b'a'..=b'z', ..] => Kind::Name,
        [b'0'..=b'9', ..] | [b'-', b'0'..=b'9', ..] => Kind::Number,
        _ => Kind::Sign,
    }
}

// How many bytes the first piece of `rest` has, which is of kind `kind`. A sign has one byte, except `..`. `end` is the number of bytes behind the
// piece's first.
fn length(kind: Kind, rest: &[u8]) -> usize {
    let more = rest.get(1..).unwrap_or(b"");
    let end = match kind {
        Kind::Name => more
            .iter()
            .position(|byte| !byte.is_ascii_alphanumeric() && *byte != b'_'),
        Kind::Number => more.iter().position(|byte| !byte.is_ascii_digit()),
        _ => Some(if rest.starts_with(b"..") { 1 } else { 0 }),
    };
    match end {
        Some(end) => end.saturating_add(1),
        // The piece goes up to the end of the line.
        None => rest.len(),
    }
}

/// The number that a piece of a line spells by digits, with or without a `-` before them. None if it isn't a value: these are -2^63 to 2^63 - 1. 0
/// where the piece has no digits; what stands behind its digits is passed over.
pub fn number_of(text: &[u8]) -> Option<i64> {
    match text {
        // The sign comes before the test of the range: -2^63 is in it, and 2^63 isn't.
        [b'-', digits @ ..] => {
            let (number, _rest) = digits_at(digits)?;
            0_i64.checked_sub_unsigned(number)
        }
        _ => {
            let (number, _rest) = digits_at(text)?;
            0_i64.checked_add_unsigned(number)
        }
    }
}

/// Whether the number that a piece of a line spells is in the range of values.
pub(crate) fn is_in_range(text: &[u8]) -> bool {
    number_of(text).is_some()
}

/// A line as its pieces, and the one that is looked at: at first the first one.
#[derive(Drop)]
pub struct Line<'a> {
    /// From left to right, without blanks and the comment.
    pub pieces: Vec<Piece<'a>>,
    // The place of the piece that is looked at, from 0. Behind the last piece the end is looked at.
    at: usize,
    // What stands behind the last piece: no bytes, right behind it.
    end: Piece<'a>,
}

impl<'a> Line<'a> {
    /// The pieces of the line of these bytes of a text, up to its comment. The error is refused memory.
    pub fn new(alloc: Global, text: &'a [u8], span: Span) -> Result<Line<'a>, AllocError> {
        let mut line = Line {
            pieces: Vec::new(alloc),
            at: 0,
            end: Piece {
                kind: Kind::End,
                text: b"",
                span: Span {
                    start: span.start,
                    end: span.start,
                },
            },
        };
        line.read(text, span)?;
        Ok(line)
    }

    // Cuts the line into pieces. Blanks are none, and a `--` begins the comment.
    fn read(&mut self, text: &'a [u8], span: Span) -> Result<(), AllocError> {
        let mut at = span.start;
        // Each step goes on by a byte at least.
        for _step in span.start..span.end {
            let rest = text.get(at..span.end).unwrap_or(b"");
            match rest {
                [] | [b'-', b'-', ..] => return Ok(()),
                [b' ' | b'\t' | b'\r', ..] => at = at.saturating_add(1),
                _ => {
                    let kind = kind_at(rest);
                    let end = at.saturating_add(length(kind, rest));
                    self.pieces.push(Piece {
                        kind,
                        text: text.get(at..end).unwrap_or(b""),
                        span: Span { start: at, end },
                    })?;
                    self.end.span = Span { start: end, end };
                    at = end;
                }
            }
        }
        Ok(())
    }

    /// The piece that is looked at.
    pub(crate) fn here(&self) -> Piece<'a> {
        self.pieces.get(self.at).copied().unwrap_or(self.end)
    }

    /// The piece behind the one that is looked at, or the end.
    pub(crate) fn next(&self) -> Piece<'a> {
        let next = self.pieces.get(self.at.saturating_add(1));
        next.copied().unwrap_or(self.end)
    }

    /// Whether the piece that is looked at, a `.` or a name, touches the number before it, as in `1.5` and `3ms`.
    pub(crate) fn lengthens_number(&self) -> bool {
        let here = self.here();
        // Where the first piece is looked at, `before` is that piece itself, which doesn't end where it begins.
        match self.pieces.get(self.at.saturating_sub(1)) {
            Some(before) => {
                before.kind == Kind::Number
                    && before.span.end == here.span.start
                    && (here.kind == Kind::Name || here.text.starts_with(b"."))
            }
            None => false,
        }
    }

    /// Looks at the next piece.
    pub(crate) fn go(&mut self) {
        self.at = self.at.saturating_add(1);
    }

    // Whether the piece that is looked at is this word or sign.
    fn is_here(&self, text: &[u8]) -> bool {
        self.here().text == text
    }

    // Goes on behind this word or sign, if it is looked at; otherwise the error is `wrong`. At an error the line stays at the piece that is wrong,
    // here and in all functions below.
    fn want(&mut self, text: &[u8], wrong: Wrong) -> Result<(), Wrong> {
        if self.is_here(text) {
            self.go();
            Ok(())
        } else {
            Err(wrong)
        }
    }

    // Goes on behind a number, `true`, `false` or `signal`. The error is `wrong`, or Range for a number that is no value.
    fn literal(&mut self, wrong: Wrong) -> Result<(), Wrong> {
        let here = self.here();
        if !is_one_of(here.text, CONSTANTS.as_slice()) {
            if here.kind != Kind::Number {
                return Err(wrong);
            }
            if !is_in_range(here.text) {
                return Err(Wrong::Range);
            }
        }
        self.go();
        Ok(())
    }

    // Goes on behind the name of a site of one's own: no built-in one, and no reserved word.
    fn site(&mut self) -> Result<(), Wrong> {
        let here = self.here();
        if here.kind != Kind::Name {
            return Err(Wrong::Name);
        }
        if is_built_in_name(here.text) {
            return Err(Wrong::BuiltIn);
        }
        if is_reserved_word(here.text) {
            return Err(Wrong::Reserved);
        }
        self.go();
        Ok(())
    }

    // Goes on behind the patterns of a line and their brackets. The error is Patterns behind `MOST_ARGUMENTS` of them and a comma; else it says what
    // is wrong at the piece that is looked at.
    fn patterns(&mut self) -> Result<(), Wrong> {
        self.want(b"(", Wrong::Bracket)?;
        if self.is_here(b")") {
            self.go();
            return Ok(());
        }
        for _pattern in 0..MOST_ARGUMENTS {
            if self.is_here(b"_") {
                self.go();
            } else {
                self.literal(Wrong::Pattern)?;
            }
            if self.is_here(b")") {
                self.go();
                return Ok(());
            }
            self.want(b",", Wrong::Comma)?;
        }
        Err(Wrong::Patterns)
    }

    // Goes on behind a number of units of time, which has no sign. The error is Range for one that is too large, and else Time.
    fn time(&mut self) -> Result<(), Wrong> {
        let here = self.here();
        match here.text {
            [b'0'..=b'9', ..] if !is_in_range(here.text) => Err(Wrong::Range),
            [b'0'..=b'9', ..] => {
                self.go();
                Ok(())
            }
            _ => Err(Wrong::Time),
        }
    }

    // Goes on behind an answer with its time, if it has one. At a `never` with an `after` it goes back to the `never`, where the carets are to go.
    // The error is what is wrong at the piece that is looked at.
    fn answer(&mut self) -> Result<(), Wrong> {
        if self.is_here(b"never") {
            self.go();
            if self.is_here(b"after") {
                self.at = self.at.saturating_sub(1);
                return Err(Wrong::NeverAfter);
            }
            return Ok(());
        }
        if self.is_here(b"halt") {
            self.go();
        } else {
            self.literal(Wrong::Answer)?;
        }
        if self.is_here(b"after") {
            self.go();
            self.time()?;
        }
        Ok(())
    }

    // Goes on to the end of the line, over answers with `then` between them. The error is Answers behind `MOST_ANSWERS` of them and a `then`; else it
    // says what is wrong at the piece that is looked at.
    fn answers(&mut self) -> Result<(), Wrong> {
        for _answer in 0..MOST_ANSWERS {
            self.answer()?;
            if self.here().kind == Kind::End {
                return Ok(());
            }
            self.want(b"then", Wrong::More)?;
        }
        Err(Wrong::Answers)
    }

    // Reads the whole line as a line of a script. The error is what is wrong first; then the piece that is wrong is looked at.
    fn whole(&mut self) -> Result<(), Wrong> {
        self.site()?;
        self.patterns()?;
        self.want(b"=", Wrong::Assign)?;
        self.answers()
    }
}

// What is wrong with a line, in words. `say_wrong` puts the piece before the words of `BuiltIn` and `Reserved`, and before those of `Patterns` and
// `Answers` how many are allowed.
fn words(wrong: Wrong) -> &'static str {
    match wrong {
        Wrong::Name => "the name of a site has to stand here",
        Wrong::BuiltIn => "` is built in, and a script can't answer for it",
        Wrong::Reserved => "` is a reserved word",
        Wrong::Bracket => "`(` has to stand here",
        Wrong::Pattern => "a pattern has to stand here",
        Wrong::Comma => "`,` or `)` has to stand here",
        Wrong::Assign => "`=` has to stand here",
        Wrong::Answer => "an answer has to stand here",
        Wrong::NeverAfter => "`never` takes no `after`",
        Wrong::Time => "a number of units of time has to stand here",
        Wrong::Range => "this number is out of range",
        Wrong::More => "`after`, `then` or the end of the line has to stand here",
        Wrong::Patterns => " patterns",
        Wrong::Answers => " answers",
    }
}

/// Explains a fault of the text of the subject's script; nothing where there is none.
pub(crate) fn say_script(page: &mut Page, alloc: Global, subject: &Subject, fault: ScriptFault) {
    let Some(document) = subject.script else {
        return;
    };
    match fault {
        ScriptFault::Line(number) => say_script_line(page, alloc, &document, number),
        ScriptFault::Memory => say_refused(page, "the script was read"),
        ScriptFault::Long => say_long(page, &document, LONGEST_SOURCE as u64),
    }
}

// Fault L1: the line with this number, from 1, is no line of a script.
fn say_script_line(page: &mut Page, alloc: Global, document: &Document, number: usize) {
    let Ok(mut line) = Line::new(alloc, document.text, document.line(number)) else {
        // Memory was refused, so the page isn't given out.
        page.refuse();
        return;
    };
    // The reader of scripts has refused the line, so something is wrong.
    if let Err(wrong) = line.whole() {
        let here = line.here();
        page.point(document, here.span);
        say_wrong(page, wrong, here);
        say_advice(page, document, wrong, &line);
    }
}

// Writes what is wrong with the piece `here`, behind the carets.
fn say_wrong(page: &mut Page, wrong: Wrong, here: Piece) {
    match wrong {
        Wrong::BuiltIn | Wrong::Reserved => page.say_word("`", here.text, ""),
        Wrong::Patterns => page.say_number("over ", MOST_ARGUMENTS as u64, ""),
        Wrong::Answers => {
            page.say("over ");
            page.grouped(MOST_ANSWERS as u64);
        }
        // Before the words of all others nothing stands.
        _ => {}
    }
    page.say(words(wrong));
    page.say("\n");
}

// Writes what to do instead, by the kind of the fault and the piece that is looked at. Where a fault's own words say it already nothing follows.
fn say_advice(page: &mut Page, document: &Document, wrong: Wrong, line: &Line) {
    let here = line.here();
    match wrong {
        Wrong::Name => page.help(name_advice(document, here)),
        Wrong::BuiltIn => page.help("take another name"),
        Wrong::Bracket => say_bare_site(page, line.pieces.first().copied()),
        Wrong::Pattern => say_named(
            page,
            PATTERN,
            here,
            ": variables don't exist here, `%` would be `_`",
        ),
        Wrong::Answer => say_named(
            page,
            ANSWER,
            here,
            ": a site answers with one value, not with an expression",
        ),
        Wrong::Comma | Wrong::More if line.lengthens_number() => page.help(number_advice(here)),
        Wrong::Assign | Wrong::More => page.help(FORM),
        Wrong::Time => page.help(TIME),
        Wrong::Range => page.expected(VALUES),
        Wrong::Reserved | Wrong::Comma | Wrong::NeverAfter | Wrong::Patterns | Wrong::Answers => {}
    }
}

// What to do about the piece `here`, which stands where a site's name has to: it begins a comment of another language, or a byte order mark; else the
// form of a line is said.
fn name_advice(document: &Document, here: Piece) -> &'static str {
    match here.text {
        b"#" | b"/" => COMMENT,
        _ if here.span.start == 0 && document.text.starts_with(ORDER_MARK) => NO_ORDER_MARK,
        _ => FORM,
    }
}

/// What to do about a piece that touches the number before it.
pub(crate) fn number_advice(here: Piece) -> &'static str {
    match here.text {
        b".." => "a range stands only in a test",
        b"." => "numbers are whole",
        _ => "numbers are digits alone: a time has no unit",
    }
}

// How a site without arguments is written. `site` is the line's first piece; a line in which only the `(` is missing has one.
fn say_bare_site(page: &mut Page, site: Option<Piece>) {
    if let Some(site) = site {
        page.note("help: ");
        page.say_word("`", site.text, "()` where it has no arguments\n");
    }
}

// Writes a hint: these words, and, if the piece `here` is a name in the place of a value, also a sentence in which `%` is that name.
fn say_named(page: &mut Page, words: &str, here: Piece, sentence: &str) {
    page.note("help: ");
    page.say(words);
    if here.kind == Kind::Name {
        page.tell(sentence, &[Fill::Word(here.text)]);
    }
    page.say("\n");
}
