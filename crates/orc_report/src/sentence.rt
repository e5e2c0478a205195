//! Sentences as data, so that they can be in a table: words with places to fill. A `Page` is the text that is being written, here at its end.

use crate::page::Page;
use orc_rules::value::Value;

/// What fills a place of a sentence.
#[derive(Clone, Copy)]
pub enum Fill<'a> {
    /// Words as they stand.
    Text(&'a str),
    /// A word of a text, of which at most 100 bytes are shown.
    Word(&'a [u8]),
    /// The name of a file.
    Path(&'a str),
    /// A number in decimal.
    Number(u64),
    /// A number below a million, with a comma behind its thousands.
    Grouped(u64),
    /// A number of things and their name, which takes an `s` unless the number is 1: `2 calls`.
    Count(u64, &'a str),
    /// A value as programs write it.
    Value(Value),
    /// A call's values in their brackets.
    Values(&'a [Value]),
    /// `line L, column C` of this byte of a text, from 0.
    Place(&'a [u8], usize),
    /// `line L` of this byte of a text, from 0.
    Line(&'a [u8], usize),
}

impl Page {
    /// Writes a sentence in ASCII, with the next fill in place of each `%`. A `%` without a fill is left out, and so is a fill without a `%`.
    pub fn tell(&mut self, sentence: &str, fills: &[Fill]) {
        // The place in `fills` of the next one.
        let mut next: usize = 0;
        for byte in sentence.as_bytes() {
            // Only a `%` is filled; any other byte stands for itself.
            if *byte != b'%' {
                self.sign(*byte as char);
            } else if let Some(fill) = fills.get(next) {
                next = next.saturating_add(1);
                match *fill {
                    Fill::Text(text) => self.say(text),
                    Fill::Word(word) => self.word(word),
                    Fill::Path(path) => self.path(path),
                    Fill::Number(number) => self.number(number),
                    Fill::Grouped(number) => self.grouped(number),
                    Fill::Count(number, name) => self.count(number, name),
                    Fill::Value(value) => self.value(value),
                    Fill::Values(values) => self.values(values),
                    Fill::Place(text, at) => self.place(text, at),
                    Fill::Line(text, at) => self.line(text, at),
                }
            }
        }
    }

    /// Writes a sentence as `tell` does, as a whole line ` = ` below what was shown.
    pub fn remark(&mut self, sentence: &str, fills: &[Fill]) {
        self.note("");
        self.tell(sentence, fills);
        self.say("\n");
    }
}
