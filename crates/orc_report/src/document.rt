//! A file's name and its text, of which a page shows lines.

use orc_lex::token::Span;

/// A file: what an explanation calls it, and its bytes.
#[derive(Clone, Copy)]
pub struct Document<'a> {
    pub name: &'a str,
    pub text: &'a [u8],
}

impl<'a> Document<'a> {
    /// The bytes of the part of the text that `span` says, in bytes from 0; empty where the span goes beyond the text's end.
    pub fn part(&self, span: Span) -> &'a [u8] {
        let part = self.text.get(span.start..span.end);
        part.unwrap_or(b"")
    }

    /// The span, in bytes of the text from 0, of the line with this number, from 1, without its LF; an empty span at the text's end where there are
    /// fewer lines.
    pub fn line(&self, number: usize) -> Span {
        part_at(self.text, b'\n', number.saturating_sub(1))
    }
}

/// The span of the part with this number, from 0, of a text that `divider` bytes cut into parts, as line feeds cut a text into lines. An empty span
/// at the text's end where there are fewer parts.
pub fn part_at(text: &[u8], divider: u8, number: usize) -> Span {
    // `part` is the number of the part in which the loop is, and `start` where that part begins.
    let mut part: usize = 0;
    let mut start: usize = 0;
    for (at, byte) in text.iter().enumerate() {
        if *byte == divider {
            if part == number {
                return Span { start, end: at };
            }
            part = part.saturating_add(1);
            start = at.saturating_add(1);
        }
    }
    // No divider ends the part: it is the last one, or there are fewer parts.
    let end = text.len();
    Span {
        start: if part == number { start } else { end },
        end,
    }
}
