//! The labels of the rows. A row is that of a span of the story: a call, a pruning or an otherwise (`Kind`), from its beginning to its end. The type
//! `Span` here is a place in the source. A `Purpose` says for what the value of a pruning is, and a `Subject` is what is drawn.

use crate::picture::Subject;
use crate::story::Kind;
use orc_lex::lexer::{Piece, piece_at};
use orc_lex::token::Span;
use orc_report::{Fill, Page};
use orc_rules::entry::Entry;
use orc_source_map::Purpose;
use std::alloc::{AllocError, Global};

/// How many columns are shown of an otherwise's left side that is longer than `LONGEST`. With `..` and ` ; ..` behind them the label has 25 columns,
/// of the 30 that a picture as text has for labels at most.
const SHOWN: usize = 18;

/// The longest left side that is shown whole, in columns.
const LONGEST: usize = 19;

/// What is needed to write labels.
#[derive(Clone, Copy)]
pub(crate) struct Texts<'s, 'a> {
    pub alloc: Global,
    pub subject: &'s Subject<'a>,
}

impl Texts<'_, '_> {
    /// The label of a span of this kind. The error is refused memory.
    pub(crate) fn label(&self, kind: Kind) -> Result<String, AllocError> {
        let mut page = Page::new(self.alloc);
        match kind {
            // The site and its arguments, as the journal has them: `at` is the place of a `call`.
            Kind::Call(called) => {
                if let Some(Entry::Call(_, _, site, args)) = self.subject.journal.get(called.at) {
                    // The journal was checked, so its sites have names.
                    let name = self.subject.answers.name(site).unwrap_or(b"?");
                    page.tell("%%", &[Fill::Word(name), Fill::Values(args.as_slice())]);
                }
            }
            // A pruning whose value no variable gets.
            Kind::Pruning(Purpose::Nothing) => page.say("_ <-"),
            Kind::Pruning(Purpose::Variable(name)) => {
                page.tell("% <-", &[Fill::Word(name.text)]);
            }
            Kind::Pruning(Purpose::Argument(place, name)) => page.tell(
                "argument % of %",
                &[Fill::Number(place as u64), Fill::Word(name.text)],
            ),
            Kind::Otherwise(place) => {
                self.left_side(&mut page, place);
                page.say(" ; ..");
            }
        }
        page.finish()
    }

    // Writes the tokens of an otherwise's left side as the source has them, with one blank for each gap between two tokens. If that is over `LONGEST`
    // columns long, its end becomes `..`.
    fn left_side(&self, page: &mut Page, place: Span) {
        let mut line = Page::new(self.alloc);
        let source = self.subject.source;
        let mut at = place.start;
        // Whether blanks or a comment stand between the last token that was written and the next one.
        let mut is_apart = false;
        // Each piece has a byte at least, so there are no more pieces than bytes.
        for _piece in 0..source.len() {
            // What is too long already is cut below.
            if at >= source.len() || at >= place.end || line.len() > LONGEST {
                break;
            }
            match piece_at(source, at) {
                Piece::Gap(end) => {
                    is_apart = line.len() > 0;
                    at = end;
                }
                Piece::Token(token) => {
                    if is_apart {
                        line.say(" ");
                    }
                    is_apart = false;
                    let Span { start, end } = token.span;
                    line.word(source.get(start..end).unwrap_or(b""));
                    at = end;
                }
                // Doesn't come: the source was read before it was run.
                Piece::Unread(_) => break,
            }
        }
        // If memory was refused to the line, it is refused to this page, too.
        page.heed(&line);
        let is_long = line.len() > LONGEST;
        if is_long {
            line.truncate(SHOWN);
        }
        page.say(line.as_str());
        if is_long {
            page.say("..");
        }
    }
}
