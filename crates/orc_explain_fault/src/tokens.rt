//! The tokens of a source before the place of a fault.

use orc_lex::lexer::{Piece, piece_at};
use orc_lex::token::{Kind, Plain, Span, Token};
use orc_report::{Document, Page};
use std::alloc::{AllocError, Global};

/// The tokens of a source up to a place, and the one that begins there.
#[derive(Drop)]
pub(crate) struct Tokens<'a> {
    /// Those before the place, from left to right.
    pub before: Vec<Token<'a>>,
    /// The token at the place. None at the end of the text, or where none begins there.
    pub here: Option<Token<'a>>,
}

impl<'a> Tokens<'a> {
    /// The tokens of a source as far as they can be read, up to the byte at `place`, from 0. The error is refused memory.
    pub(crate) fn new(
        alloc: Global,
        text: &'a [u8],
        place: usize,
    ) -> Result<Tokens<'a>, AllocError> {
        let mut tokens = Tokens {
            before: Vec::new(alloc),
            here: None,
        };
        tokens.read(text, place)?;
        Ok(tokens)
    }

    // Reads the tokens from the text's beginning up to the byte at `place`. A `Gap`, blanks or a comment, is no token. The tokens end where neither a
    // token nor a gap can be read.
    fn read(&mut self, text: &'a [u8], place: usize) -> Result<(), AllocError> {
        let mut at: usize = 0;
        // Each piece has a byte at least, so there are no more pieces than bytes.
        for _piece in 0..text.len() {
            // The text ends, or a token or a gap reaches over the place: no token begins there.
            if at >= text.len() || at > place {
                return Ok(());
            }
            match piece_at(text, at) {
                Piece::Gap(end) => at = end,
                Piece::Token(token) => {
                    if at == place {
                        self.here = Some(token);
                        return Ok(());
                    }
                    self.before.push(token)?;
                    at = token.span.end;
                }
                Piece::Unread(_) => return Ok(()),
            }
        }
        Ok(())
    }

    /// The n-th token before the place of the fault, counted back from the last one, which has number 1. None for 0, and where there are fewer.
    pub(crate) fn back(&self, n: usize) -> Option<Token<'a>> {
        let at = self.before.len().checked_sub(n)?;
        self.before.get(at).copied()
    }
}

/// Writes what kind a token is of, a name, a number or a word, and its text between backquotes; of a sign the text alone, in backquotes too.
/// `document` is the source that has the token.
pub(crate) fn say_token(page: &mut Page, document: &Document, token: &Token) {
    let before = match token.kind {
        Kind::Name(_) => "the name `",
        Kind::Plain(Plain::Number(_)) => "the number `",
        Kind::Plain(_) | Kind::Def | Kind::Val => "the word `",
        _ => "`",
    };
    page.say_word(before, document.part(token.span), "`");
}

/// The span of the token that begins at byte `at` of a text, from 0. If no token begins there, the span has this one byte, also at the text's end,
/// where the text has no byte.
pub fn span_at(text: &[u8], at: usize) -> Span {
    if at < text.len() {
        if let Piece::Token(token) = piece_at(text, at) {
            return token.span;
        }
    }
    Span {
        start: at,
        end: at.saturating_add(1),
    }
}
