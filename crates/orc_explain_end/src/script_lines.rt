//! Which calls the lines of a script answer.
//!
//! The table that answers the calls of a run knows no line numbers, so the script's text is read here once more, which a loaded program had read
//! without a fault.

use orc_explain_fault::{Line, number_of};
use orc_lex::token::Span;
use orc_rules::builtin::is_same;
use orc_rules::value::Value;
use std::alloc::{AllocError, Global};

/// A line of a script that answers calls.
#[derive(Clone, Copy)]
pub(crate) struct ScriptLine<'a> {
    /// The line's number, from 1.
    pub number: usize,
    /// The name of its site.
    pub name: &'a [u8],
    // Where its patterns begin among those of all lines, and how many they are.
    first: usize,
    count: usize,
}

/// The lines of a script, in their order.
#[derive(Drop)]
pub(crate) struct ScriptLines<'a> {
    pub list: Vec<ScriptLine<'a>>,
    // Those of all lines, one line behind another: a value, or None for `_`.
    patterns: Vec<Option<Value>>,
}

/// The patterns that are no numbers.
const WORDS: [(&[u8], Option<Value>); 4] = [
    (b"_", None),
    (b"true", Some(Value::Truth(true))),
    (b"false", Some(Value::Truth(false))),
    (b"signal", Some(Value::Signal)),
];

// What a pattern stands for: a value, or None for any (`Some(None)`). None where a piece of a line is no pattern, as a comma.
fn pattern_of(text: &[u8]) -> Option<Option<Value>> {
    for (word, pattern) in WORDS.iter() {
        if *word == text {
            return Some(*pattern);
        }
    }
    match text {
        [b'-' | b'0'..=b'9', ..] => Some(Some(Value::Number(number_of(text)?))),
        _ => None,
    }
}

impl<'a> ScriptLines<'a> {
    /// The lines of a script's text. The error is refused memory.
    pub(crate) fn new(alloc: Global, text: &'a [u8]) -> Result<ScriptLines<'a>, AllocError> {
        let mut lines = ScriptLines {
            list: Vec::new(alloc),
            patterns: Vec::new(alloc),
        };
        let mut start: usize = 0;
        let mut number: usize = 1;
        for (at, byte) in text.iter().enumerate() {
            if *byte == b'\n' {
                lines.read(alloc, text, Span { start, end: at }, number)?;
                start = at.saturating_add(1);
                number = number.saturating_add(1);
            }
        }
        // The last line may have no LF.
        let end = text.len();
        lines.read(alloc, text, Span { start, end }, number)?;
        Ok(lines)
    }

    // Adds the line with this number, from 1, if it is more than blanks and a comment. `span` is the line's bytes in the text.
    fn read(
        &mut self,
        alloc: Global,
        text: &'a [u8],
        span: Span,
        number: usize,
    ) -> Result<(), AllocError> {
        // The line as its pieces, without blanks and a comment; the first one is the name of a site.
        let line = Line::new(alloc, text, span)?;
        let Some(site) = line.pieces.first() else {
            return Ok(());
        };
        let name = site.text;
        let first = self.patterns.len();
        // The patterns stand behind the name and the `(`. A comma is no pattern.
        for piece in line.pieces.iter().skip(2) {
            if piece.text == b")".as_slice() {
                break;
            }
            if let Some(pattern) = pattern_of(piece.text) {
                self.patterns.push(pattern)?;
            }
        }
        let count = self.patterns.len().saturating_sub(first);
        self.list.push(ScriptLine {
            number,
            name,
            first,
            count,
        })?;
        Ok(())
    }

    /// The number, from 1, of the line at a place of the list; 0 where there is none.
    pub(crate) fn number(&self, place: usize) -> u64 {
        match self.list.get(place) {
            Some(script_line) => script_line.number as u64,
            None => 0,
        }
    }

    /// The patterns of a line.
    pub(crate) fn patterns(&self, script_line: &ScriptLine) -> &[Option<Value>] {
        let end = script_line.first.saturating_add(script_line.count);
        self.patterns.get(script_line.first..end).unwrap_or(&[])
    }

    /// Whether a line fits the calls of the site `name` with these arguments: it answers them, unless an earlier line fits them, too.
    pub(crate) fn fits(&self, script_line: &ScriptLine, name: &[u8], args: &[Value]) -> bool {
        script_line.name == name
            && script_line.count == args.len()
            && self.patterns(script_line).iter().zip(args.iter()).all(|(
                pattern,
                arg,
            )| match pattern {
                Some(value) => is_same(*value, *arg),
                None => true,
            })
    }

    /// The place in the list of the first line that fits the calls of the site `name` with the arguments `args`: the line that answers them. None
    /// where no line does.
    pub(crate) fn first(&self, name: &[u8], args: &[Value]) -> Option<usize> {
        for (place, script_line) in self.list.iter().enumerate() {
            if self.fits(script_line, name, args) {
                return Some(place);
            }
        }
        None
    }
}
