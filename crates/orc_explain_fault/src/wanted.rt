//! What may have been meant where a token can't stand (S4).
//!
//! The place is that of the fault: `here` is the token at it, `back(1)` the one before it. An empty text stands for no token. `What` is what the
//! parser expected there. A function that gives an `Option` of a hint or of words gives None where it has nothing to say.

use crate::hint::Hint;
use crate::tokens::Tokens;
use crate::words::{is_one_of, said_of};
use orc_lex::token::{Joint, Kind, Plain, Token, What};
use orc_site::line::is_reserved_word;

/// What to write in place of an `if`.
pub(crate) const NO_IF: &str =
    "there is no `if`: `(Ift(b) >> f) | (Iff(b) >> g)` runs f where b is true and g where it is false";

/// What to write for a `val`.
const VAL: &str = "a value is named with `val x = g f`";

/// What is said of a `val` inside an expression.
const WHOLE: &str = "`val` begins a whole expression: put `( .. )` around it";

/// What is said of a `,` where none can stand.
const NO_TUPLES: &str = "there are no tuples: a `,` stands only between arguments and parameters";

/// Where a bracket was opened that isn't closed: `@` is its place.
const OPEN: &str = "the bracket that is still open stands in @";

/// Reserved words that are whole expressions.
const WORDS: [&[u8]; 4] = [b"stop", b"true", b"false", b"signal"];

/// Signs behind which something has to follow.
const SIGNS: [&[u8]; 9] = [b"|", b";", b">", b"<", b">>", b"<<", b"=", b"(", b","];

/// What stands behind the value of a `val` where its writer took it for a statement; an empty text for the end of the source.
const RESTARTS: [&[u8]; 3] = [b"", b";", b"val"];

/// Words of other languages that stand before the name of a value.
const NAMING: [&[u8]; 3] = [b"let", b"var", b"const"];

/// Words of other languages that stand before the name of a function.
const DEFINING: [&[u8]; 4] = [b"fn", b"fun", b"func", b"function"];

/// Words of other languages that stand behind a condition.
const CHOOSING: [&[u8]; 2] = [b"then", b"else"];

/// What is said of a reserved word that stands where an expression has to.
const MISPLACED: [(&[u8], &str); 2] = [
    (b"val", WHOLE),
    (
        b"def",
        "definitions stand before the main expression, not inside one",
    ),
];

/// What is said of two tokens, the second where an expression has to stand; an empty text for the beginning or the end of the source.
const PAIRS: [(&[u8], &[u8], &str); 4] = [
    (
        b"",
        b"",
        "a program is an expression, with definitions before it",
    ),
    (
        b"(",
        b")",
        "empty brackets stand only behind the name of a call",
    ),
    (
        b"(",
        b",",
        "a `,` stands only between two arguments or parameters",
    ),
    (
        b"|",
        b"|",
        "parallel is one `|`; there is no sign for \"or\" of truth values",
    ),
];

/// Pairs of signs round a name that point different ways.
const CROSSED: [(&[u8], &[u8]); 4] = [(b">", b"<"), (b">", b"<<"), (b"<", b">"), (b"<", b">>")];

// Whether the signs before and behind a name point different ways.
fn are_crossed(first: &[u8], second: &[u8]) -> bool {
    CROSSED
        .iter()
        .any(|(one, other)| *one == first && *other == second)
}

// What a table says of the tokens `first` and `second`, which follow each other in this order; None where it doesn't have them.
fn said_of_both(
    first: &[u8],
    second: &[u8],
    table: &[(&[u8], &[u8], &'static str)],
) -> Option<&'static str> {
    for (one, other, said) in table {
        if *one == first && *other == second {
            return Some(*said);
        }
    }
    None
}

// What is said of the token `here` at the place of the fault, where an expression has to stand, and the token `last` before it; or, if the table has
// no such pair, of `here` alone.
fn said_of_pair(last: &[u8], here: &[u8]) -> Option<&'static str> {
    match said_of_both(last, here, PAIRS.as_slice()) {
        Some(said) => Some(said),
        None => said_of(here, MISPLACED.as_slice()),
    }
}

// The name that a token is. None if it is no name, or there is no token.
fn name_of<'a>(token: Option<Token<'a>>) -> Option<&'a [u8]> {
    match token {
        Some(
            Token {
                kind: Kind::Name(name),
                ..
            },
        ) => Some(name),
        _ => None,
    }
}

// Whether there is a token, and it is a number.
fn is_number(token: Option<Token>) -> bool {
    match token {
        Some(
            Token {
                kind: Kind::Plain(Plain::Number(_)),
                ..
            },
        ) => true,
        _ => false,
    }
}

// A count for a walk back over tokens: how many closing brackets it has met whose opening ones it hasn't, `closed` before this token. None if this
// token opens a bracket that is still open at the place of the fault.
fn closed_before(closed: usize, kind: Kind) -> Option<usize> {
    match kind {
        Kind::Close => Some(closed.saturating_add(1)),
        Kind::Open => closed.checked_sub(1),
        _ => Some(closed),
    }
}

/// A source's text, and its tokens up to the place of the fault.
#[derive(Clone, Copy)]
struct Around<'s, 'a> {
    // The text of the source.
    text: &'a [u8],
    // Its tokens before the place of the fault, and the one at that place.
    tokens: &'s Tokens<'a>,
}

impl<'a> Around<'_, 'a> {
    // A token's text.
    fn text_of(&self, token: Token) -> &'a [u8] {
        let span = token.span;
        self.text.get(span.start..span.end).unwrap_or(b"")
    }

    // The text of the token at the place of the fault, empty at the end of the source.
    fn here(&self) -> &'a [u8] {
        match self.tokens.here {
            Some(token) => self.text_of(token),
            None => b"",
        }
    }

    // The text of the n-th token before the place of the fault, counted back from the last one, which has number 1; empty where there are fewer.
    fn back(&self, n: usize) -> &'a [u8] {
        match self.tokens.back(n) {
            Some(token) => self.text_of(token),
            None => b"",
        }
    }

    // The bracket that was opened last of those that are still open at the place of the fault. None where none is.
    fn open_bracket(&self) -> Option<Token<'a>> {
        // How many closing brackets the walk has met whose opening ones it hasn't.
        let mut closed: usize = 0;
        for token in self.tokens.before.iter().rev() {
            match closed_before(closed, token.kind) {
                Some(more) => closed = more,
                None => return Some(*token),
            }
        }
        None
    }

    // Whether a `;` (`Joint::Other`) stands behind the last `val` within the same brackets, before the place of the fault or at it: its writer took
    // the `val` for a statement that a `;` ends. The walk goes back from that place.
    fn is_val_ended(&self) -> bool {
        let mut is_ended = self.here() == b";".as_slice();
        // How many closing brackets the walk has met whose opening ones it hasn't.
        let mut closed: usize = 0;
        for token in self.tokens.before.iter().rev() {
            // The token isn't in brackets that were closed again before the place.
            if closed == 0 {
                match token.kind {
                    Kind::Val => return is_ended,
                    Kind::Joint(Joint::Other) => is_ended = true,
                    // Other tokens neither begin nor end a `val`.
                    _ => {}
                }
            }
            match closed_before(closed, token.kind) {
                Some(more) => closed = more,
                // The token opens the bracket round the place: between the two there is no `val`.
                None => return false,
            }
        }
        false
    }

    // Whether a `def` or a `val` stands anywhere before the place of the fault.
    fn has_begun(&self) -> bool {
        self.tokens
            .before
            .iter()
            .any(|token| matches!(token.kind, Kind::Def | Kind::Val))
    }

    // Whether a line ends between two tokens, of which `first` stands before `second`.
    fn is_line_between(&self, first: Token, second: Token) -> bool {
        let between = self.text.get(first.span.end..second.span.start);
        between.unwrap_or(b"").iter().any(|byte| *byte == b'\n')
    }

    // The last name before the place that has blanks or a comment and then a `(` behind it: it reads as a call, though its writer may have meant two
    // expressions. A name with a line's end before the `(` takes precedence. The name behind `def` doesn't count. None where there is no such name.
    fn loose_call(&self) -> Option<Token<'a>> {
        let mut found: Option<Token<'a>> = None;
        let mut over_lines: Option<Token<'a>> = None;
        // Whether the token in `before` follows a `def`.
        let mut is_defined = false;
        let mut before: Option<Token<'a>> = None;
        for token in self.tokens.before.iter() {
            let word = self.text_of(*token);
            if let Some(name) = before {
                let is_apart = name.span.end < token.span.start;
                if word == b"(".as_slice() && is_apart && name_of(before).is_some() && !is_defined {
                    found = before;
                    if self.is_line_between(name, *token) {
                        over_lines = before;
                    }
                }
                is_defined = self.text_of(name) == b"def".as_slice();
            }
            before = Some(*token);
        }
        over_lines.or(found)
    }

    // A hint on a word of another language, before the place of the fault or at it. None where no such word stands there.
    fn foreign_word(&self) -> Option<Hint<'a>> {
        let last = self.back(1);
        if last == b"if".as_slice() || is_one_of(self.here(), CHOOSING.as_slice()) {
            return Some(Hint::plain(NO_IF));
        }
        let name = name_of(self.tokens.here)?;
        if is_one_of(last, NAMING.as_slice()) {
            return Some(Hint::of_name(
                "a value is named with `val`: `val % = g f`, with no sign between g and f",
                name,
            ));
        }
        if is_one_of(last, DEFINING.as_slice()) {
            return Some(Hint::of_name("a definition is `def %(a, b) = ..`", name));
        }
        None
    }

    // A hint on brackets behind a reserved word that takes none, as in `stop()`: the place of the fault is at the `(`. None where it isn't.
    fn bracketed_word(&self) -> Option<Hint<'a>> {
        let last = self.back(1);
        if self.here() == b"(".as_slice() && is_one_of(last, WORDS.as_slice()) {
            return Some(Hint::of_name("`%` takes no brackets", last));
        }
        None
    }

    // A hint on the bracket that is still open where a line begins with `def`: the place of the fault is at that `def`. None where it isn't, no
    // bracket is open, or that bracket is the token right before the `def`.
    fn unclosed(&self) -> Option<Hint<'a>> {
        let here = self.tokens.here?;
        let last = self.tokens.back(1)?;
        let open = self.open_bracket()?;
        if self.here() != b"def".as_slice()
            || !self.is_line_between(last, here)
            || last.span.start == open.span.start
        {
            return None;
        }
        Some(Hint::of_place(OPEN, b"", open.span.start))
    }

    // Whether the token at the place is a `=` by which its writer meant to compare: the second of a `==`, or one behind an expression.
    fn is_equality(&self, what: What) -> bool {
        let equals = b"=".as_slice();
        self.here() == equals && (self.back(1) == equals || is_behind_expression(what))
    }

    // A hint on a word or a sign of another language. None where none stands at the place of the fault or right before it.
    fn foreign(&self, what: What) -> Option<Hint<'a>> {
        if let Some(hint) = self.foreign_word() {
            return Some(hint);
        }
        if let Some(hint) = self.bracketed_word() {
            return Some(hint);
        }
        if self.is_equality(what) {
            return Some(Hint::plain(
                "`Eq(a, b)` says whether two values are the same; `=` stands only in `def` and `val`",
            ));
        }
        None
    }

    // A hint where an expression was expected, by the token at the place and the one before it. None where nothing helpful is known.
    fn expression(&self) -> Option<Hint<'a>> {
        let last = self.back(1);
        let here = self.here();
        if is_one_of(here, RESTARTS.as_slice()) && self.is_val_ended() {
            return Some(Hint::plain(
                "nothing stands between the two parts of a `val`: `val x = g f`, without the `;`",
            ));
        }
        if let Some(words) = said_of_pair(last, here) {
            return Some(Hint::plain(words));
        }
        if let Some(hint) = self.named_operator() {
            return Some(hint);
        }
        if is_one_of(last, SIGNS.as_slice()) {
            return Some(Hint::of_name("something has to follow `%`", last));
        }
        // The text ends behind a definition or a `val`, and the main expression is missing.
        if here.is_empty() && self.has_begun() {
            return Some(self.main_expression());
        }
        None
    }

    // A hint on an operator with a name, as `>x>`, that stands before the place of the fault with nothing behind it. None where no such operator
    // stands there.
    fn named_operator(&self) -> Option<Hint<'a>> {
        let sign = self.back(1);
        let name = name_of(self.tokens.back(2))?;
        // On both sides of the name stands the same sign.
        if self.back(3) != sign {
            return None;
        }
        match sign {
            b">" => Some(Hint::of_name("something has to follow `>%>`", name)),
            b"<" => Some(Hint::of_name("something has to follow `<%<`", name)),
            // Other signs have no name between them.
            _ => None,
        }
    }

    // A hint where the text ends behind definitions or `val`s. A call may have taken up the brackets of the main expression.
    fn main_expression(&self) -> Hint<'a> {
        let Some(token) = self.loose_call() else {
            return Hint::plain(
                "after the last definition, and after the value of a `val`, an expression has to follow",
            );
        };
        let name = self.text_of(token);
        Hint::of_place(
            "`%` in # and the bracket after it were read as a call; put brackets around `%`",
            name,
            token.span.start,
        )
    }

    // Whether what stands at the place, behind a `<` or a `>`, shows that two values were to be compared, as in `a < (b)`, `a <= b` and `a < 1`.
    fn is_compared(&self) -> bool {
        match self.here() {
            b"(" | b"=" => true,
            here => is_reserved_word(here) || is_number(self.tokens.here),
        }
    }

    // A hint where a name was expected.
    fn name(&self) -> Hint<'a> {
        let here = self.here();
        // Behind a `<` or `>` a reserved word, as `true`, was meant as a value to compare: `name_words` speaks of that.
        if is_reserved_word(here) && !self.is_behind_arrow() {
            return Hint::of_name("`%` is a reserved word, so it can't be a name", here);
        }
        Hint::plain(self.name_words())
    }

    // Whether a `<` or a `>` stands right before the place of the fault.
    fn is_behind_arrow(&self) -> bool {
        match self.back(1) {
            b"<" | b">" => true,
            _ => false,
        }
    }

    // What to write where a name was expected, by the token before the place and the one at it.
    fn name_words(&self) -> &'static str {
        match self.back(1) {
            b"<" | b">" => {
                if self.is_compared() {
                    "`Lt(a, b)` says whether a is less than b; `<x<` and `>x>` are operators with a name between"
                } else {
                    "one name stands between the two signs: `f >x> g`, `f <x< g`; without a name they are `>>` and `<<`"
                }
            }
            b"(" | b"," if is_number(self.tokens.here) => {
                "a parameter is a name: there are no definitions by cases; compare with `Eq` inside the body"
            }
            b"val" => VAL,
            _ => "a definition is `def f(a) = ..`, and its parameters are names",
        }
    }

    // A hint where the second sign of `>x>` or `<x<` was expected.
    fn arrow(&self) -> Hint<'a> {
        // The token before the place is the name, and the one before that the first sign.
        if are_crossed(self.back(2), self.here()) {
            return Hint::plain(
                "both signs point the same way: `f >x> g` hands on, `f <x< g` waits for the first",
            );
        }
        Hint::plain(
            "`f >x> g` and `f <x< g` have a sign on both sides of the name; `Lt(a, b)` compares",
        )
    }

    // A hint where the `=` of a `def` or a `val` was expected. A `(` there was meant to begin the parameters of a `val`; behind a `)`, which ends
    // parameters, a `def` goes on.
    fn assign(&self) -> Hint<'a> {
        if self.here() == b"(".as_slice() {
            return Hint::plain("parameters belong to `def`: `def f(a) = ..`");
        }
        if self.back(1) == b")".as_slice() {
            return Hint::plain("a definition is `def f(a) = ..`");
        }
        Hint::plain(VAL)
    }

    // A hint where the `(` behind a definition's name was expected. The token before the place is that name.
    fn paren(&self) -> Hint<'a> {
        Hint::of_name(
            "parameters stand in brackets, and the brackets stay where there are none: `def %() = ..`",
            self.back(1),
        )
    }

    // Whether a line ends between a token and the place, or the text does.
    fn is_line_since(&self, token: Token) -> bool {
        match self.tokens.here {
            Some(here) => self.is_line_between(token, here),
            None => true,
        }
    }

    // A hint where a closing bracket was expected. If the bracket was opened in an earlier line, or the text ends or a `def` stands at the place, the
    // hint says where it was opened. `otherwise` has the words for a bracket that was opened in the same line, unless a `,` stands at the place.
    fn close(&self, otherwise: &'static str) -> Hint<'a> {
        if let Some(open) = self.open_bracket() {
            if self.is_line_since(open) || self.here() == b"def".as_slice() {
                return Hint::of_place(OPEN, b"", open.span.start);
            }
        }
        Hint::plain(match self.here() {
            b"," => NO_TUPLES,
            _ => otherwise,
        })
    }

    // Whether the number at the place has a `-` and touches the token before it, as in `3-2`: the `-` was meant to subtract.
    fn is_minus(&self) -> bool {
        match (self.tokens.back(1), self.tokens.here, self.here()) {
            (Some(last), Some(token), [b'-', ..]) => last.span.end == token.span.start,
            _ => false,
        }
    }

    // A hint where an operator or the end of the text was expected, by the token that stands there instead.
    fn end(&self) -> Hint<'a> {
        match self.here() {
            b")" => Hint::plain("this `)` closes nothing"),
            b"def" => Hint::plain("definitions stand before the main expression"),
            b"," => Hint::plain(NO_TUPLES),
            b"val" => Hint::plain(WHOLE),
            _ if self.is_minus() => Hint::plain(
                "`Sub(a, b)` is a difference: a `-` right before a digit belongs to the number",
            ),
            _ => Hint::plain(
                "between two expressions an operator is missing: `f | g` side by side, `f >> g` one after another, `f ; g` where f has no answer",
            ),
        }
    }
}

// Whether an expression ends right before the place where `what` was expected: only behind an expression the parser expects an operator, the end, or
// what closes or divides.
fn is_behind_expression(what: What) -> bool {
    match what {
        What::End | What::Close | What::CommaOrClose => true,
        _ => false,
    }
}

/// The first hint that fits at the place behind these tokens of `text`, where the parser expected `what`. None where nothing helpful is known.
pub(crate) fn hint_of<'a>(text: &'a [u8], tokens: &Tokens<'a>, what: What) -> Option<Hint<'a>> {
    let around = Around { text, tokens };
    if let Some(hint) = around.foreign(what) {
        return Some(hint);
    }
    if let Some(hint) = around.unclosed() {
        return Some(hint);
    }
    match what {
        What::Expression => around.expression(),
        What::Name => Some(around.name()),
        What::Paren => Some(around.paren()),
        What::Close => Some(around.close("between two expressions an operator is missing")),
        What::CommaOrClose => Some(around.close("between two arguments a `,` is missing")),
        What::Assign => Some(around.assign()),
        What::Arrow => Some(around.arrow()),
        What::End => Some(around.end()),
    }
}
