//! A line of a text, with carets under a part of it:
//!
//! ```text
//!  --> FILE, line 2, column 8
//!   |
//! 2 | f(1) | f(1, 2)
//!   |        ^
//! ```
//!
//! The bar `|` stands behind the gutter, which is as wide as the line's number. Columns are characters. Of a long line 100 columns are shown, at most
//! 60 of them before the place that is pointed at; `first` is how many columns are left out in front, `left_out` of the pointed column. A `Page` is
//! the text that is being written: each method writes at its end.

ghost use Rattle.std.specs.Prelude.{◌≤◌, ◌<◌, ◌^◌, ◌-◌};

use crate::document::Document;
use crate::page::Page;
use crate::place::{begins_character, characters, place_of};
use orc_lex::token::Span;

/// How many columns of a line are shown at most.
const SHOWN: u64 = 100;

/// How many columns before the place that is pointed at are shown at most.
const BEFORE: u64 = 60;

// The line that begins at the byte `start` of the text, without its LF and the blanks at its end. Empty where `start` is beyond the text's end.
fn line_from(text: &[u8], start: usize) -> &[u8] {
    let rest = text.get(start..).unwrap_or(b"");
    let end = match rest.iter().position(|byte| *byte == b'\n') {
        Some(end) => end,
        None => rest.len(),
    };
    let line = rest.get(..end).unwrap_or(rest);
    line.trim_ascii_end()
}

// Whether a byte is a blank that may stand within a line: a space, a tab or a CR.
fn is_blank(byte: u8) -> bool {
    matches!(byte, b' ' | b'\t' | b'\r')
}

/// How many columns are left out at the front of a line, so that at most 60 are shown before this column, which counts from 1.
pub fn left_out(column: u64) -> u64 {
    column.saturating_sub(BEFORE).saturating_sub(1)
}

/// How many decimal digits a number has, from 1 on; the clauses say that 10 to the power of the answer is over the number, and that no smaller answer
/// would do.
pub fn digits(number: u64) -> u64
    ensures some { 1 ≤ result }
    ensures most { number < 10 ^ result }
    ensures least { 1 < result → 10 ^ (result - 1) ≤ number }
{
    match number.checked_ilog10() {
        // The logarithm, rounded down, is one less than the digits. 0 has none, and one digit.
        Some(tens) => tens as u64 + 1,
        None => 1,
    }
}

impl Page {
    /// Writes the beginning of a line without a number: blanks as wide as the numbers of the lines that are shown, and the bar `|` that stands behind
    /// these numbers.
    pub fn margin(&mut self) {
        self.inset();
        self.say(" |");
    }

    /// Writes as many blanks as the gutter is wide: the column at the left in which the numbers of lines stand.
    pub fn inset(&mut self) {
        self.fill(' ', self.gutter);
    }

    /// Makes the gutter at the left wide enough for `number`, the greatest number of a line that will be shown. Until it is called there is room for
    /// one digit.
    pub fn widen(&mut self, number: u64) {
        self.gutter = digits(number);
    }

    /// Writes `line L` of the byte at `at`, from 0, or of the text's end where there are fewer bytes.
    pub fn line(&mut self, text: &[u8], at: usize) {
        let place = place_of(text, at.min(text.len()));
        self.say_number("line ", place.line as u64, "");
    }

    /// Writes `line L, column C` of the byte at `at`, from 0, or of the text's end where there are fewer bytes.
    pub fn place(&mut self, text: &[u8], at: usize) {
        let place = place_of(text, at.min(text.len()));
        self.say_number("line ", place.line as u64, "");
        self.say_number(", column ", place.column as u64, "");
    }

    // Writes up to 100 columns (characters) of `line` behind its `first` ones, which are left out: a blank before them, or ` ..` if columns are left
    // out. The byte at `place` is a column of its own, even in the middle of a character: a fault may be there. Blanks are counted, and written
    // before what follows them, so no line ends with one. Of a character of several bytes the first is written, as `?`.
    fn columns(&mut self, line: &[u8], first: u64, place: usize) {
        let mut blanks: u64 = 1;
        if first > 0 {
            // Columns are left out in front.
            self.say(" ..");
            blanks = 0;
        }
        let mut column: u64 = 0;
        // The last column that is shown, counted from 1.
        let last = first.saturating_add(SHOWN);
        for (at, byte) in line.iter().enumerate() {
            // Each character is one column; its further bytes are none.
            if begins_character(*byte) || at == place {
                column = column.saturating_add(1);
                if column > first && column <= last {
                    if is_blank(*byte) {
                        blanks = blanks.saturating_add(1);
                    } else {
                        self.fill(' ', blanks);
                        blanks = 0;
                        self.byte(*byte);
                    }
                }
            }
        }
        // The line has more columns than are shown.
        if column > last {
            self.fill(' ', blanks);
            self.say("..");
        }
    }

    /// Writes the line `line` of a text with its number, from 1: at most 100 of its columns, behind the `first` ones, which are left out. The byte of
    /// the line at `place`, from 0, is a column of its own, even where no character begins.
    pub fn row(&mut self, number: u64, line: &[u8], first: u64, place: usize) {
        // The numbers stand at the right of the gutter.
        self.fill(' ', self.gutter.saturating_sub(digits(number)));
        self.number(number);
        self.say(" |");
        self.columns(line, first, place);
        self.say("\n");
    }

    /// Writes carets under a part of the line that `row` has shown without its `first` columns, at least one. `part` counts the bytes of the line,
    /// and may lie behind its end. What is said next stands behind the carets.
    pub fn carets(&mut self, line: &[u8], first: u64, part: Span) {
        self.margin();
        self.say(" ");
        // Below the `..` of a line that is cut in front.
        if first > 0 {
            self.say("  ");
        }
        // Behind its end a line goes on with blanks.
        let blanks = part.start.saturating_sub(line.len()) as u64;
        // `before` is how many columns of the line stand before the part.
        let before = characters(line.get(..part.start).unwrap_or(line)) as u64;
        let before = before.saturating_add(blanks);
        self.fill(' ', before.saturating_sub(first));
        let end = part.end.min(line.len());
        // At least one caret, and none beyond the last column that is shown.
        let under = characters(line.get(part.start..end).unwrap_or(b"")) as u64;
        let room = first.saturating_add(SHOWN).saturating_sub(before);
        self.fill('^', under.min(room).max(1));
        self.say(" ");
    }

    /// Shows the line in which a span of a document begins, below the document's name, with carets under as much of the span as is in that line. What
    /// is said next stands behind the carets.
    pub fn point(&mut self, document: &Document, span: Span) {
        let text = document.text;
        let at = span.start.min(text.len());
        // The line and column of the span's first byte, both from 1, and where its line begins.
        let place = place_of(text, at);
        self.widen(place.line as u64);
        self.inset();
        self.say("--> ");
        self.path(document.name);
        self.say(", ");
        self.place(text, at);
        self.say("\n");
        self.margin();
        self.say("\n");
        // `first` is how many columns of the line are left out in front.
        let line = line_from(text, place.start);
        let first = left_out(place.column as u64);
        // `start` and `end` are the span's places in the line, in bytes.
        let start = at.saturating_sub(place.start);
        self.row(place.line as u64, line, first, start);
        // The end may lie in a later line; `carets` stops at this line's end.
        let end = span.end.saturating_sub(place.start);
        self.carets(line, first, Span { start, end });
    }
}
