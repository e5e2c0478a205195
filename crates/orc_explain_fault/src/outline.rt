//! The outline of a test or a script: what each line is, by its first words, without a look at whether it is right. A piece is a name, a number or a
//! sign of a line (`script.rt`). A service is a site whose answers a test says.

use crate::script::{Kind, Line, Piece};
use orc_lex::token::Span;
use orc_site::split_line;
use std::alloc::{AllocError, Global};

/// What a line of a test is.
#[derive(Clone, Copy)]
pub(crate) enum Head<'a> {
    /// The line `given`: services for all cases stand below it.
    Given,
    /// The line `always`: claims on all cases stand below it.
    Always,
    /// `case` and its name.
    Case(&'a [u8]),
    /// A line with a `=`: its first piece, a site's name, and how many patterns it has, 0 where they can't be counted. Each line of a script is one.
    Service(&'a [u8], usize),
    /// Any other line.
    Claim,
}

/// A line that isn't blank, and its number, from 1.
#[derive(Clone, Copy)]
pub(crate) struct Outlined<'a> {
    pub number: usize,
    pub head: Head<'a>,
}

/// The lines of a test or a script that aren't blank, the first one first.
#[derive(Drop)]
pub(crate) struct Outline<'a> {
    pub lines: Vec<Outlined<'a>>,
}

/// How many arguments stand in the brackets behind the first of these pieces. None where it is no name, or no brackets follow it that are closed.
pub(crate) fn arguments(pieces: &[Piece]) -> Option<usize> {
    match pieces {
        // `first` is the piece behind the bracket.
        [name, open, first, rest @ ..] if name.kind == Kind::Name && open.is(b"(") => {
            if first.is(b")") {
                return Some(0);
            }
            let end = rest.iter().position(|piece| piece.is(b")"))?;
            let inner = rest.get(..end)?;
            let commas = inner.iter().filter(|piece| piece.is(b",")).count();
            Some(commas.saturating_add(1))
        }
        _ => None,
    }
}

// What a line with these pieces is; None if the line is blank. A line that has the word of a section (`given`, `always`, `case`), but not its form,
// counts as a claim.
fn head_of<'a>(pieces: &[Piece<'a>]) -> Option<Head<'a>> {
    let first = pieces.first()?;
    if pieces.iter().any(|piece| piece.is(b"=")) {
        let count = arguments(pieces).unwrap_or(0);
        return Some(Head::Service(first.text, count));
    }
    match pieces {
        [_] if first.is(b"given") => Some(Head::Given),
        [_] if first.is(b"always") => Some(Head::Always),
        [_, name] if first.is(b"case") => Some(Head::Case(name.text)),
        _ => Some(Head::Claim),
    }
}

impl<'a> Outline<'a> {
    /// The outline of the text of a test or a script. The error is refused memory.
    pub(crate) fn new(alloc: Global, text: &'a [u8]) -> Result<Outline<'a>, AllocError> {
        let mut outline = Outline {
            lines: Vec::new(alloc),
        };
        let mut rest = Some(text);
        // A turn for each line: each but the last one has a byte at least, its LF. `before` counts the lines before the one that is read.
        for before in 0..text.len().saturating_add(1) {
            let Some(lines) = rest else {
                return Ok(outline);
            };
            let (line, behind) = split_line(lines);
            outline.read(alloc, before.saturating_add(1), line)?;
            rest = behind;
        }
        Ok(outline)
    }

    // Adds the line with this number, from 1, unless it is blank. The error is refused memory.
    fn read(&mut self, alloc: Global, number: usize, text: &'a [u8]) -> Result<(), AllocError> {
        // `text` is the one line, so the span is all of it.
        let span = Span {
            start: 0,
            end: text.len(),
        };
        let line = Line::new(alloc, text, span)?;
        if let Some(head) = head_of(line.pieces.as_slice()) {
            self.lines.push(Outlined { number, head })?;
        }
        Ok(())
    }

    /// What the line with this number, from 1, is. None where it is blank, or there is no such line.
    pub(crate) fn at(&self, number: usize) -> Option<Head<'a>> {
        for line in self.lines.iter() {
            if line.number == number {
                return Some(line.head);
            }
        }
        None
    }

    /// The number of the first line of a service, or of a script's site, with this name, and how many patterns it has. None where there is none.
    pub(crate) fn service(&self, name: &[u8]) -> Option<(usize, usize)> {
        for line in self.lines.iter() {
            if let Head::Service(other, count) = line.head {
                if other == name {
                    return Some((line.number, count));
                }
            }
        }
        None
    }

    /// The line that begins the section in which the line with this number, from 1, stands: the last one before it that is `given`, `always` or a
    /// `case`. None before the first section.
    pub(crate) fn section(&self, number: usize) -> Option<Outlined<'a>> {
        let mut found = None;
        for line in self.lines.iter() {
            if line.number < number && is_section(line.head) {
                found = Some(*line);
            }
        }
        found
    }

    /// The number of the first line that begins the same section as `head`: `given`, `always`, or the `case` of one name. None if there is none, or
    /// `head` begins no section.
    pub(crate) fn first(&self, head: Head) -> Option<usize> {
        for line in self.lines.iter() {
            if are_alike(line.head, head) {
                return Some(line.number);
            }
        }
        None
    }
}

// Whether a line begins a section: `given`, `always` or a `case`.
fn is_section(head: Head) -> bool {
    matches!(head, Head::Given | Head::Always | Head::Case(_))
}

// Whether two lines begin sections of the same name: both `given`, both `always`, or cases of one name.
fn are_alike(one: Head, other: Head) -> bool {
    match (one, other) {
        (Head::Given, Head::Given) | (Head::Always, Head::Always) => true,
        (Head::Case(name), Head::Case(other)) => name == other,
        _ => false,
    }
}
