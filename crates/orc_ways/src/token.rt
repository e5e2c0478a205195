//! The tokens of a test's line, what one token is, and what the first tokens of some are. A *script* is a text that says what sites answer, and when.
//!
//! All readers of this crate work alike: they take tokens and hand back what they read and the tokens behind it, or None if the tokens don't begin
//! so. A `.._step` reads one item of a list: the item, whether it is the last one, and the tokens behind the sign or word that follows it.
//!
//! In contracts `Gives f result (NAME ..)` says that a function answers what the definition NAME gives for these tokens, and None where that does; f
//! turns the code's value into that of the definitions.

ghost use Rattle.std.specs.Prelude.{◌≡◌, ◌≤◌, Option, option_map, length, IfOk, IfSome, List};
ghost use Rattle.orc_rules.specs.Digits.{Gives};
ghost use Rattle.orc_ways.specs.Tokens.{token_at, cut, dots_behind, is_word, is_left, is_right, is_bar, is_dots, is_equals, ends_items, number_of, number_at, pattern_in, answer_in, site_in, name_in, behind_word, begins, opens};
ghost use Rattle.orc_ways.specs.Values.{token_of, tokens_of};

use orc_rules::value::{Answer, Value};
use orc_site::line;
use orc_site::token::{self, Token as ScriptToken, is_line_end, skip_blanks};
use std::alloc::{AllocError, Global};

/// A token of a line.
#[derive(Clone, Copy)]
pub enum Token<'a> {
    /// One that scripts have, too.
    Plain(ScriptToken<'a>),
    /// `|`
    Bar,
    /// `..`
    Dots,
}

// The token `..` and the bytes behind it, of the bytes behind a first dot; None if no second dot follows.
fn dots(behind: &[u8]) -> Option<(Token<'_>, &[u8])>
    ensures { Gives (λ x. (token_of x.0, x.1.now)) result (dots_behind behind.now) }
{
    match behind {
        [] => None,
        [c, rest @ ..] => {
            if *c == b'.' {
                Some((Token::Dots, rest))
            } else {
                None
            }
        }
    }
}

// The token with which these bytes begin, which has no blanks before it, and the bytes behind it; None if they begin with none.
#[tactic(auto, unfolding(crate::specs::Tokens::token_at))]
fn first_token(bytes: &[u8]) -> Option<(Token<'_>, &[u8])>
    ensures { Gives (λ x. (token_of x.0, x.1.now)) result (token_at bytes.now) }
{
    match bytes {
        [] => None,
        [c, rest @ ..] => {
            if *c == b'|' {
                return Some((Token::Bar, rest));
            }
            if *c == b'.' {
                return dots(rest);
            }
            // Any other token of a test is one of scripts.
            let (token, behind) = token::first_token(bytes)?;
            Some((Token::Plain(token), behind))
        }
    }
}

/// The tokens of a line, up to its comment. None where some of its text before the comment is no token. The error is refused memory.
pub fn cut_line<'a>(alloc: Global, line: &'a [u8]) -> Result<Option<Vec<Token<'a>>>, AllocError>
    ensures value { IfOk result (λ o. Gives (λ v. tokens_of v.items) o (cut line.now)) }
    ensures within { IfOk result (λ o. IfSome o (λ v. length v.items ≤ length line.now)) }
{
    let mut tokens = Vec::new(alloc);
    let mut rest = skip_blanks(line);
    // Each turn cuts off a byte at least, so there are enough turns; after the last one the line may still be at its end.
    for _ in 0..line.len() {
        // The line is at its end, or at its comment.
        if is_line_end(rest) {
            return Ok(Some(tokens));
        }
        let Some((token, behind)) = first_token(rest) else {
            return Ok(None);
        };
        tokens.push(token)?;
        rest = skip_blanks(behind);
    }
    if is_line_end(rest) {
        Ok(Some(tokens))
    } else {
        Ok(None)
    }
}

/// Whether a token is the word `word`.
pub fn is_this(token: &Token<'_>, word: &[u8]) -> bool
    ensures { result ≡ is_word word.now (token_of token.now) }
{
    match token {
        Token::Plain(token) => line::is_this(token, word),
        // `|` and `..` are no words.
        _ => false,
    }
}

/// Whether a token is `(`.
pub fn is_left_bracket(token: &Token<'_>) -> bool
    ensures { result ≡ is_left (token_of token.now) }
{
    matches!(token, Token::Plain(ScriptToken::Left))
}

/// Whether a token is `)`.
pub fn is_right_bracket(token: &Token<'_>) -> bool
    ensures { result ≡ is_right (token_of token.now) }
{
    matches!(token, Token::Plain(ScriptToken::Right))
}

/// Whether a token is `|`.
pub fn is_bar_sign(token: &Token<'_>) -> bool
    ensures { result ≡ is_bar (token_of token.now) }
{
    matches!(token, Token::Bar)
}

/// Whether a token is `..`.
pub fn is_dots_sign(token: &Token<'_>) -> bool
    ensures { result ≡ is_dots (token_of token.now) }
{
    matches!(token, Token::Dots)
}

/// Whether a token is `=`.
pub fn is_equals_sign(token: &Token<'_>) -> bool
    ensures { result ≡ is_equals (token_of token.now) }
{
    matches!(token, Token::Plain(ScriptToken::Equals))
}

/// Whether a sign behind an item of a list in brackets ends the list: true for `)`, false for a comma, None for any other token.
pub fn closes(token: &Token<'_>) -> Option<bool>
    ensures { result ≡ ends_items (token_of token.now) }
{
    match token {
        Token::Plain(ScriptToken::Right) => Some(true),
        Token::Plain(ScriptToken::Comma) => Some(false),
        _ => None,
    }
}

/// The number that a token is: digits without a sign, up to the greatest delay of a script; None for any other token.
pub fn number(token: &Token<'_>) -> Option<u64>
    ensures { result ≡ number_of (token_of token.now) }
{
    match token {
        // A token that scripts have, too: the script's own reader tells.
        Token::Plain(token) => line::delay(token),
        _ => None,
    }
}

/// The pattern that a token is, which stands in the place of a value: Some(None) for `_`, which any value fits, and Some(Some(v)) for the value v.
/// None if the token is neither.
pub fn pattern(token: &Token<'_>) -> Option<Option<Value>>
    ensures { result ≡ pattern_in (token_of token.now) }
{
    match token {
        // A token that scripts have, too: the script's own reader tells.
        Token::Plain(token) => line::pattern(token),
        _ => None,
    }
}

/// The answer that a token is: a value or `halt`. None for any other token, `never` too.
pub fn answer(token: &Token<'_>) -> Option<Answer>
    ensures { result ≡ answer_in (token_of token.now) }
{
    match token {
        // A token that scripts have, too: the script's own reader tells.
        Token::Plain(token) => line::answer(token),
        _ => None,
    }
}

/// The name that a token is, be it reserved or not; None for any other token.
pub fn name<'a>(token: &Token<'a>) -> Option<&'a [u8]>
    ensures { option_map (λ n. n.now) result ≡ name_in (token_of token.now) }
{
    match token {
        Token::Plain(ScriptToken::Name(name)) => Some(name),
        _ => None,
    }
}

/// The name of a site that a token is: a name that isn't reserved, as `def` or `true` is; None for any other token.
pub fn site_name<'a>(token: &Token<'a>) -> Option<&'a [u8]>
    ensures { option_map (λ n. n.now) result ≡ site_in (token_of token.now) }
{
    match token {
        Token::Plain(ScriptToken::Name(name)) => {
            if line::is_reserved_word(name) {
                None
            } else {
                Some(name)
            }
        }
        _ => None,
    }
}

/// Whether the first of these tokens is `(`. False if there is no token.
pub fn opens_bracket(tokens: &[Token<'_>]) -> bool
    ensures { result ≡ opens (tokens_of tokens.now) }
{
    match tokens {
        [] => false,
        [token, ..] => is_left_bracket(token),
    }
}

/// The tokens behind the word `word`, if it is the first of these tokens; None if another token, or none, comes first.
pub fn behind<'t, 'a>(word: &[u8], tokens: &'t [Token<'a>]) -> Option<&'t [Token<'a>]>
    ensures { option_map (λ rest. tokens_of rest.now) result ≡ behind_word word.now (tokens_of tokens.now) }
{
    match tokens {
        [] => None,
        [token, rest @ ..] => {
            if is_this(token, word) {
                Some(rest)
            } else {
                None
            }
        }
    }
}

/// Whether this word is the first token and no `(` follows: then it isn't the name of a site.
pub fn begins_with(word: &[u8], tokens: &[Token<'_>]) -> bool
    ensures { result ≡ begins word.now (tokens_of tokens.now) }
{
    match tokens {
        [] => false,
        [token, rest @ ..] => is_this(token, word) && !opens_bracket(rest),
    }
}

/// The number that is the first token, and the tokens behind it; None if that is no number.
pub fn number_first<'t, 'a>(tokens: &'t [Token<'a>]) -> Option<(u64, &'t [Token<'a>])>
    ensures { Gives (λ x. (x.0, tokens_of x.1.now)) result (number_at (tokens_of tokens.now)) }
{
    match tokens {
        [] => None,
        [token, rest @ ..] => Some((number(token)?, rest)),
    }
}

/// The tokens themselves. A loop that reads on and on takes its tokens from here both before it and in it: the prover then sees them in one form.
pub fn same_tokens<'t, 'a>(tokens: &'t [Token<'a>]) -> &'t [Token<'a>]
    ensures { result.now ≡ tokens.now }
{
    tokens
}
