//! The lines of services, that is, of sites whose answers the test says: `Pay(_) = 1 after 0..13 | halt then 2`. `same_tokens` gives back what it
//! gets, in a form that the prover knows again. A service has alternatives, of which a script takes one, or one for each of N calls. Each is a
//! *history*: an answer for the first call, the second one and so on. Such an answer with its range of delays, or `never`, is a `Reply`.
//!
//! In contracts `Gives f result (NAME_at ..)` says that a reader answers what the definition NAME_at gives for these tokens, and None where that
//! does; f turns the code's value into that of the definitions.

ghost use Rattle.std.specs.Prelude.{◌≡◌, IfOk, option_map, codes};
ghost use Rattle.std.specs.List.{list_all};
ghost use Rattle.orc_rules.specs.Digits.{Gives};
ghost use Rattle.orc_rules.specs.declared.limits.TheConstants.{MOST_ANSWERS};
ghost use Rattle.orc_site.specs.Reading.{then_read};
ghost use Rattle.orc_ways.specs.Tokens.{many, number_at, behind_word};
ghost use Rattle.orc_ways.specs.declared.limits.TheConstants.{MOST_ALTERNATIVES};
ghost use Rattle.orc_ways.specs.Lines.{range_to, range_at, delay_or, reply_at, reply_step, history_at, more_bars, alternative_step, alternatives_at, is_one, calls_within, are_calls, calls_at, equals_at, service_at};
ghost use Rattle.orc_ways.specs.Values.{token_of, tokens_of, histories_of, service_of};

use crate::events::more_behind;
use crate::limits::{MOST_ALTERNATIVES, MOST_CALLS};
use crate::scope::Scope;
use crate::test::{Reply, Service};
use crate::token::{
    Token, answer, behind, is_bar_sign, is_dots_sign, is_equals_sign, is_this, number,
    number_first, same_tokens, site_name,
};
use orc_rules::limits::MOST_ANSWERS;
use orc_rules::value::Answer;
use std::alloc::{AllocError, Global};

// Reads the second number of a delay's range, behind its `..`: gives the reply `answer` after `low` to this number, and the tokens behind it. None if
// no number comes or it is less than `low`.
fn range_end<'t, 'a>(
    answer: Answer,
    low: u64,
    tokens: &'t [Token<'a>],
) -> Option<(Reply, &'t [Token<'a>])>
    ensures { Gives (λ x. (x.0, tokens_of x.1.now)) result (then_read (number_at (tokens_of tokens.now)) (range_to answer low)) }
{
    let (high, rest) = number_first(tokens)?;
    if low <= high {
        Some((Reply::Between(answer, low, high), rest))
    } else {
        None
    }
}

// Reads what stands behind `low`, the first number of a delay: `..` and a second number, or nothing, and then the range is `low` alone. Gives the
// reply with `answer`, and the tokens behind it.
fn range<'t, 'a>(
    answer: Answer,
    low: u64,
    tokens: &'t [Token<'a>],
) -> Option<(Reply, &'t [Token<'a>])>
    ensures { Gives (λ x. (x.0, tokens_of x.1.now)) result (range_at answer low (tokens_of tokens.now)) }
{
    match tokens {
        // Nothing follows: the delay is `low` alone.
        [] => Some((Reply::Between(answer, low, low), tokens)),
        [token, rest @ ..] => {
            if is_dots_sign(token) {
                range_end(answer, low, rest)
            } else {
                Some((Reply::Between(answer, low, low), tokens))
            }
        }
    }
}

// Reads the `after` that may stand behind an answer, and its delay; without it the delay is 0. Gives the reply, and the tokens behind it. None if
// `after` has no such delay.
fn delayed<'t, 'a>(answer: Answer, tokens: &'t [Token<'a>]) -> Option<(Reply, &'t [Token<'a>])>
    ensures { Gives (λ x. (x.0, tokens_of x.1.now)) result (delay_or answer (tokens_of tokens.now) (behind_word (codes "after") (tokens_of tokens.now))) }
{
    match behind(b"after", tokens) {
        // No `after` follows: the answer comes at once.
        None => Some((Reply::Between(answer, 0, 0), tokens)),
        Some(rest) => {
            let (low, rest) = number_first(rest)?;
            range(answer, low, rest)
        }
    }
}

// Reads one answer with its delay, or `never`, which has none. Gives this reply, and the tokens behind it. None if neither comes first, or if the
// answer's `after` has no delay.
#[tactic(auto, unfolding(crate::specs::Lines::reply_at))]
fn reply<'t, 'a>(tokens: &'t [Token<'a>]) -> Option<(Reply, &'t [Token<'a>])>
    ensures { Gives (λ x. (x.0, tokens_of x.1.now)) result (reply_at (tokens_of tokens.now)) }
{
    match tokens {
        [] => None,
        [token, rest @ ..] => {
            if is_this(token, b"never") {
                return Some((Reply::Never, rest));
            }
            delayed(answer(token)?, rest)
        }
    }
}

// Reads one answer and the `then` behind it, if there is one. Gives the answer with its delay, true if no `then` follows, and the tokens that are
// left. None if no answer comes first, or its `after` has no delay.
fn reply_step<'t, 'a>(tokens: &'t [Token<'a>]) -> Option<(Reply, bool, &'t [Token<'a>])>
    ensures { Gives (λ x. (x.0, x.1, tokens_of x.2.now)) result (reply_step (tokens_of tokens.now)) }
{
    let (reply, rest) = reply(tokens)?;
    let (is_last, rest) = more_behind(b"then", rest);
    Some((reply, is_last, rest))
}

// Reads a history: one to `MOST_ANSWERS` answers with `then` between them, for the first call, the second one and so on. Gives the answers, and the
// tokens behind them. None for more, or if no answer comes first or behind a `then`. The error is refused memory.
fn history<'t, 'a>(
    alloc: Global,
    tokens: &'t [Token<'a>],
) -> Result<Option<(Vec<Reply>, &'t [Token<'a>])>, AllocError>
    ensures { IfOk result (λ o. Gives (λ x. (x.0.items, tokens_of x.1.now)) o (history_at (tokens_of tokens.now))) }
{
    let mut replies = Vec::new(alloc);
    // `rest` is what isn't read yet. `same_tokens` gives the tokens back as they are; the prover alone needs it.
    let mut rest = same_tokens(tokens);
    for _ in 0..MOST_ANSWERS {
        let Some((reply, is_last, behind)) = reply_step(rest) else {
            return Ok(None);
        };
        replies.push(reply)?;
        rest = same_tokens(behind);
        if is_last {
            return Ok(Some((replies, rest)));
        }
    }
    Ok(None)
}

// Whether the alternatives of a service end here. If a `|` stands first, the answer is (false, the tokens behind the `|`), and another alternative
// follows; otherwise it is (true, the same tokens).
fn more_alternatives<'t, 'a>(tokens: &'t [Token<'a>]) -> (bool, &'t [Token<'a>])
    ensures { (result.0, tokens_of result.1.now) ≡ more_bars (tokens_of tokens.now) }
{
    match tokens {
        [] => (true, tokens),
        [token, rest @ ..] => {
            if is_bar_sign(token) {
                (false, rest)
            } else {
                (true, tokens)
            }
        }
    }
}

// Reads one alternative, which is a history (answers with `then` between them), and the `|` behind it, if there is one. Gives the history, true if no
// `|` follows, and the tokens that are left. None if the tokens don't begin with a history (`history`). The error is refused memory.
fn alternative_step<'t, 'a>(
    alloc: Global,
    tokens: &'t [Token<'a>],
) -> Result<Option<(Vec<Reply>, bool, &'t [Token<'a>])>, AllocError>
    ensures { IfOk result (λ o. Gives (λ x. (x.0.items, x.1, tokens_of x.2.now)) o (alternative_step (tokens_of tokens.now))) }
{
    let Some((replies, rest)) = history(alloc, tokens)? else {
        return Ok(None);
    };
    let (is_last, rest) = more_alternatives(rest);
    Ok(Some((replies, is_last, rest)))
}

// Reads one to `MOST_ALTERNATIVES` alternatives with `|` between them, each a list of answers. Gives them, and the tokens behind them. None for more,
// or if the tokens don't begin so. The error is refused memory.
fn alternatives<'t, 'a>(
    alloc: Global,
    tokens: &'t [Token<'a>],
) -> Result<Option<(Vec<Vec<Reply>>, &'t [Token<'a>])>, AllocError>
    ensures { IfOk result (λ o. Gives (λ x. (histories_of x.0.items, tokens_of x.1.now)) o (alternatives_at (tokens_of tokens.now))) }
{
    let mut alternatives = Vec::new(alloc);
    // `rest` is what isn't read yet. `same_tokens` gives the tokens back as they are; the prover alone needs it.
    let mut rest = same_tokens(tokens);
    for _ in 0..MOST_ALTERNATIVES {
        let Some((replies, is_last, behind)) = alternative_step(alloc, rest)? else {
            return Ok(None);
        };
        alternatives.push(replies)?;
        rest = same_tokens(behind);
        if is_last {
            return Ok(Some((alternatives, rest)));
        }
    }
    Ok(None)
}

// Whether a history (the answers to the first call, the second one and so on) is one answer.
fn is_one_answer(replies: &[Reply]) -> bool
    ensures { result ≡ is_one replies.now }
{
    match replies {
        [_] => true,
        _ => false,
    }
}

// Whether each alternative of a service is one answer, without `then`.
fn are_single(alternatives: &[Vec<Reply>]) -> bool
    ensures { result ≡ list_all is_one (histories_of alternatives.now) }
{
    for replies in alternatives {
        if !is_one_answer(replies.as_slice()) {
            return false;
        }
    }
    true
}

// The N of `in each of N calls`, if it is 2 to `MOST_CALLS`; None if it isn't. A test leaves the words out for 1.
fn within_calls(number: u64) -> Option<usize>
    ensures { result ≡ calls_within number }
{
    if 2 <= number && number <= MOST_CALLS as u64 {
        Some(number as usize)
    } else {
        None
    }
}

// Whether these four tokens are the words of `in each of N calls`.
fn are_words(a: &Token<'_>, b: &Token<'_>, c: &Token<'_>, d: &Token<'_>) -> bool
    ensures { result ≡ are_calls (token_of a.now) (token_of b.now) (token_of c.now) (token_of d.now) }
{
    is_this(a, b"in") && is_this(b, b"each") && is_this(c, b"of") && is_this(d, b"calls")
}

// The N of `in each of N calls`, of the tokens behind the alternatives up to the end of the line; 1 if there are none. None if they are anything
// else, N is out of its range, or an alternative has more than one answer.
#[tactic(auto, unfolding(crate::specs::Lines::calls_at))]
fn calls(alternatives: &[Vec<Reply>], tokens: &[Token<'_>]) -> Option<usize>
    ensures { result ≡ calls_at (histories_of alternatives.now) (tokens_of tokens.now) }
{
    match tokens {
        // The words are left out: the line takes one alternative for all its calls.
        [] => Some(1),
        [a, b, c, count, d] => {
            if !are_words(a, b, c, d) {
                return None;
            }
            if !are_single(alternatives) {
                return None;
            }
            within_calls(number(count)?)
        }
        _ => None,
    }
}

// The tokens behind the `=` that is the first token; None if that is anything else.
fn behind_equals<'t, 'a>(tokens: &'t [Token<'a>]) -> Option<&'t [Token<'a>]>
    ensures { option_map (λ rest. tokens_of rest.now) result ≡ equals_at (tokens_of tokens.now) }
{
    match tokens {
        [] => None,
        [token, rest @ ..] => {
            if is_equals_sign(token) {
                Some(rest)
            } else {
                None
            }
        }
    }
}

/// The service that all tokens of a line are; None if they are no service. The error is refused memory.
#[tactic(auto, unfolding(crate::specs::Lines::service_at))]
pub fn service<'a>(alloc: Global, tokens: &[Token<'a>]) -> Result<Option<Service<'a>>, AllocError>
    ensures { IfOk result (λ o. Gives service_of o (service_at (tokens_of tokens.now))) }
{
    let [token, rest @ ..] = tokens else {
        return Ok(None);
    };
    let Some(name) = site_name(token) else {
        return Ok(None);
    };
    // In a scope without a line no name is a variable, so a service with a name in its patterns isn't read. Patterns name no site.
    let scope = Scope {
        sites: &[],
        line: &[],
    };
    let Some((patterns, rest)) = scope.slots(alloc, rest)? else {
        return Ok(None);
    };
    let Some(rest) = behind_equals(rest) else {
        return Ok(None);
    };
    let Some((alternatives, rest)) = alternatives(alloc, rest)? else {
        return Ok(None);
    };
    let Some(calls) = calls(alternatives.as_slice(), rest) else {
        return Ok(None);
    };
    Ok(Some(Service {
        name,
        patterns,
        alternatives,
        calls,
    }))
}
