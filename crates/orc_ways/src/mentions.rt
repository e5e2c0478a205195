//! The sites that a line names: each name that stands before brackets with up to `MOST_ARGUMENTS` arguments, whatever the line is. `same_tokens`
//! gives back what it gets, in a form that the prover knows again. A site (`SiteName`) is a name with a number of arguments: with another number it
//! is another site.
//!
//! In contracts `Gives f result (NAME ..)` says that a function answers what the definition NAME gives for these tokens, and None where that does; f
//! turns the code's value into that of the definitions.

ghost use Rattle.std.specs.Prelude.{◌≡◌, ◌∷◌, IfOk, OnOk, option_map, Some};
ghost use Rattle.orc_rules.specs.Digits.{Gives};
ghost use Rattle.orc_rules.specs.declared.limits.TheConstants.{MOST_ARGUMENTS};
ghost use Rattle.orc_ways.specs.Lines.{argument_step, arguments_from, arguments_behind, arguments_at, mention_at, with_site, with_mention, with_mentions};
ghost use Rattle.orc_ways.specs.Values.{token_of, tokens_of, sites_of};

use crate::events::number_of_site;
use crate::limits::MOST_SITES;
use crate::test::SiteName;
use crate::token::{Token, closes, is_left_bracket, is_right_bracket, name, same_tokens};
use orc_rules::limits::MOST_ARGUMENTS;
use std::alloc::AllocError;

// Reads one argument and the sign behind it: true for `)`, false for a comma, and the tokens behind that sign. None for any other
// sign, or if fewer than two tokens are left. The argument is any token: what may stand there is checked where the line is read.
fn argument_step<'t, 'a>(tokens: &'t [Token<'a>]) -> Option<(bool, &'t [Token<'a>])>
    ensures { Gives (λ x. (x.0, tokens_of x.1.now)) result (argument_step (tokens_of tokens.now)) }
{
    match tokens {
        [_, sign, rest @ ..] => Some((closes(sign)?, rest)),
        _ => None,
    }
}

// How many arguments stand before the `)`, of tokens that begin with the first argument; None if a sign is missing or they are over `MOST_ARGUMENTS`.
fn some_arguments(tokens: &[Token<'_>]) -> Option<usize>
    ensures { result ≡ arguments_from MOST_ARGUMENTS (tokens_of tokens.now) }
{
    // `rest` is what isn't read yet. `same_tokens` gives the tokens back as they are; the prover alone needs it.
    let mut rest = same_tokens(tokens);
    // `before` is how many arguments have been read.
    for before in 0..MOST_ARGUMENTS {
        let Some((is_last, behind)) = argument_step(rest) else {
            return None;
        };
        rest = same_tokens(behind);
        if is_last {
            return Some(before + 1);
        }
    }
    None
}

// How many arguments stand before the `)`, of the tokens behind the `(`: 0 for `()`. None if a sign is missing, the arguments are over
// `MOST_ARGUMENTS`, or no token is left.
fn arguments_to_bracket(tokens: &[Token<'_>]) -> Option<usize>
    ensures { result ≡ arguments_behind (tokens_of tokens.now) }
{
    match tokens {
        [] => None,
        [token, ..] => {
            if is_right_bracket(token) {
                Some(0)
            } else {
                some_arguments(tokens)
            }
        }
    }
}

// How many arguments stand in the brackets with which the tokens begin; None if they don't begin with brackets of up to `MOST_ARGUMENTS`.
fn arguments(tokens: &[Token<'_>]) -> Option<usize>
    ensures { result ≡ arguments_at (tokens_of tokens.now) }
{
    match tokens {
        [] => None,
        [token, rest @ ..] => {
            if is_left_bracket(token) {
                arguments_to_bracket(rest)
            } else {
                None
            }
        }
    }
}

// The name that the token is, and how many arguments stand in the brackets behind it; None if it is no name or no such brackets follow.
fn mention<'a>(token: &Token<'a>, behind: &[Token<'a>]) -> Option<(&'a [u8], usize)>
    ensures { Gives (λ x. (x.0.now, x.1)) result (mention_at (token_of token.now) (tokens_of behind.now)) }
{
    let name = name(token)?;
    Some((name, arguments(behind)?))
}

// Pushes a site that isn't among `sites`, with `line`, the number of the line that names it. The list may grow to one over the limit, by which the
// caller sees that there are too many. The error is refused memory.
fn add_site<'a>(
    sites: &mut Vec<SiteName<'a>>,
    line: usize,
    name: &'a [u8],
    arguments: usize,
) -> Result<(), AllocError>
    ensures { OnOk result (sites_of sites.new.items ≡ with_site (sites_of sites.old.items) line name.now arguments) }
{
    // The site is among them already, so nothing is pushed.
    if number_of_site(sites.as_slice(), name, arguments) < sites.len() {
        return Ok(());
    }
    // The one site over the limit is there already.
    if MOST_SITES < sites.len() {
        return Ok(());
    }
    sites.push(SiteName {
        name,
        arguments,
        line,
    })?;
    Ok(())
}

// Pushes the site that a token and the brackets behind it name, if they name one, with the number of its line. The error is refused memory.
fn add_first<'a>(
    sites: &mut Vec<SiteName<'a>>,
    line: usize,
    token: &Token<'a>,
    behind: &[Token<'a>],
) -> Result<(), AllocError>
    ensures { OnOk result (sites_of sites.new.items ≡ with_mention (sites_of sites.old.items) line (mention_at (token_of token.now) (tokens_of behind.now))) }
{
    match mention(token, behind) {
        Some((name, arguments)) => add_site(sites, line, name, arguments),
        None => Ok(()),
    }
}

/// Pushes the sites that a line's tokens name and that aren't among them, with the line's number. If `sites` had `MOST_SITES` + 1 at most, it still
/// has: that one more says that the line names one too many. The error is refused memory, and then some may have been pushed.
pub fn add_mentions<'a>(
    sites: &mut Vec<SiteName<'a>>,
    line: usize,
    tokens: &[Token<'a>],
) -> Result<(), AllocError>
    ensures { OnOk result (sites_of sites.new.items ≡ with_mentions (sites_of sites.old.items) line (tokens_of tokens.now)) }
{
    // From each token on, so that a site in another one's brackets counts too.
    let mut rest = tokens;
    while let [token, behind @ ..] = rest {
        add_first(sites, line, token, behind)?;
        rest = behind;
    }
    Ok(())
}
