//! Why a text is no program.

ghost use Rattle.std.specs.Prelude.{◌≡◌, Some};
ghost use Rattle.orc_syntax.specs.Faults.{syntax_line, syntax_status};

use orc_lex::token::{Span, What};
use std::error::Error;
use std::fmt;

/// Why a text is no program, and where. Places are bytes from 0. A user sees a fault as its code, S1 to S8, with its place.
#[derive(Clone, Copy, Debug, PartialEq, Eq)]
pub enum SyntaxFault {
    /// S6: it has over `LONGEST_SOURCE` bytes.
    Long,
    /// S1: its bytes stop being UTF-8 at this place.
    Encoding(usize),
    /// S2: no token begins at this place.
    Character(usize),
    /// S3: a number outside the range of 64 signed bits.
    Number(Span),
    /// S4: the place of a token with which no program goes on, or of the text's end where the program isn't whole; and what had to stand there.
    Expected(usize, What),
    /// S5: a bracket or `val` inside `MOST_BRACKETS` others, or an operator behind `MOST_OPERATORS` others, in one definition or main expression.
    Deep(usize),
    /// S7: the place of a `{-` that isn't closed.
    Comment(usize),
    /// S8: memory was refused. This says nothing about the text.
    Memory,
}

// A fault's line: its code and its place, for `Expected` with what was wanted.
impl fmt::Display for SyntaxFault {
    ghost output = { λ f. Some (syntax_line f) };

    fn fmt<W: fmt::Write>(&self, f: &mut fmt::Formatter<W>) -> fmt::Result {
        match *self {
            SyntaxFault::Encoding(at) => write!(f, "S1 at {at}"),
            SyntaxFault::Character(at) => write!(f, "S2 at {at}"),
            SyntaxFault::Number(span) => {
                let start = span.start;
                write!(f, "S3 at {start}")
            }
            SyntaxFault::Expected(at, what) => {
                let word = what.word();
                write!(f, "S4 at {at}: {word}")
            }
            SyntaxFault::Deep(at) => write!(f, "S5 at {at}"),
            SyntaxFault::Long => write!(f, "S6"),
            SyntaxFault::Comment(at) => write!(f, "S7 at {at}"),
            SyntaxFault::Memory => write!(f, "S8"),
        }
    }
}

impl Error for SyntaxFault {}

impl SyntaxFault {
    /// The status with which a command ends at this fault: 5 where memory was refused, else 1.
    pub fn status(self) -> u8
        ensures { result ≡ syntax_status self }
    {
        match self {
            SyntaxFault::Memory => 5,
            _ => 1,
        }
    }
}
