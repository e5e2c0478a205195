//! Claims: what has to hold. Each reader here takes the tokens of the line from where its part begins; None says that they are no such claim.
//! `same_tokens` gives back what it gets, in a form that the prover knows again. A claim is a plain one (`Plain`) behind conditions. An event is that
//! one of its alternatives (`Simple`) happens: a publication, or what is wanted (`Wanted`) to become of a call. A `Scope` has what names are looked
//! up in: the sites that the test names, and all tokens of the line.
//!
//! In contracts `Gives f result (NAME_at ..)` says that a reader answers what the definition NAME_at gives for these tokens, and None where that
//! does; f turns the code's value into that of the definitions.

ghost use Rattle.std.specs.Prelude.{◌≡◌, IfOk, length, None, Some};
ghost use Rattle.std.specs.List.{list_all};
ghost use Rattle.orc_rules.specs.Digits.{Gives};
ghost use Rattle.orc_ways.specs.Tokens.{many};
ghost use Rattle.orc_ways.specs.Claims.{time_at, counted, is_called, is_at_once, at_most, at_most_at, at_least_at, exactly_at, bounded_at, none_at, each_at, only_at, end_in, end_at, ends_by, ends_at, ends_values, value_step, values_at, literal_step, literals_at, is_any_order, ordered, in_order_at, one_of_at, is_nothing, publishes_at, plain_at, not_at, condition_at, rest_of, conditions_at, claim_at};
ghost use Rattle.orc_ways.specs.Values.{token_of, tokens_of, sites_of, simple_of, simples_of, event_of, condition_of, conditions_of, plain_of, claim_of};

use crate::scope::Scope;
use crate::token::{
    Token, begins_with, behind, is_this, number, number_first, opens_bracket, pattern, same_tokens,
};
use orc_claims::claim::{Claim, Condition, Event, Plain, Simple, Wanted};
use orc_rules::value::Value;
use std::alloc::{AllocError, Global};

// Reads the end of a claim's line: the word `word` (`by` or `within`) and a number of units, or nothing, which is Some(None) and no bound. None for
// anything else.
#[tactic(auto, unfolding(crate::specs::Claims::time_at))]
fn time(word: &[u8], tokens: &[Token<'_>]) -> Option<Option<u64>>
    ensures { result ≡ time_at word.now (tokens_of tokens.now) }
{
    match tokens {
        [] => Some(None),
        [token, time] => {
            if is_this(token, word) {
                Some(Some(number(time)?))
            } else {
                None
            }
        }
        _ => None,
    }
}

// The claim that an event happens `low` times at least and `most` times at most, where None is no bound. `rest`, the tokens behind the event, may be
// empty, or `by` and a time up to which it is counted; the answer is None for anything else.
fn count(event: Event, low: u64, most: Option<u64>, rest: &[Token<'_>]) -> Option<Plain>
    ensures { Gives plain_of result (counted low most (event_of event, tokens_of rest.now)) }
{
    // The time up to which happenings count, and None without a bound.
    let by = time(b"by", rest)?;
    Some(Plain::Count(event, low, most, by))
}

// Whether this is the event that a call is made: `A(..)` or `A(..) called`.
fn is_call(simple: &Simple) -> bool
    ensures { result ≡ is_called (simple_of simple.now) }
{
    match simple {
        Simple::Call(_, _, wanted) => matches!(wanted, Wanted::Called),
        Simple::Published(_) => false,
    }
}

// Whether all of these are calls that are made.
fn are_calls(simples: &[Simple]) -> bool
    ensures { result ≡ list_all is_called (simples_of simples.now) }
{
    for simple in simples {
        if !is_call(simple) {
            return false;
        }
    }
    true
}

// Whether these tokens are `at once` and nothing more.
fn is_at_once_behind(tokens: &[Token<'_>]) -> bool
    ensures { result ≡ is_at_once (tokens_of tokens.now) }
{
    match tokens {
        [token, other] => is_this(token, b"at") && is_this(other, b"once"),
        _ => false,
    }
}

// The claim `at most N E` with the tokens `rest` behind it: on how often the event happens in all, or, with `at once`, on how many such calls are
// pending at one moment. Only calls can be pending, so with `at once` an event that has anything else makes no claim.
#[tactic(auto, unfolding(crate::specs::Claims::at_most))]
fn count_at_most(event: Event, most: u64, rest: &[Token<'_>]) -> Option<Plain>
    ensures { Gives plain_of result (at_most most (event_of event, tokens_of rest.now)) }
{
    if is_at_once_behind(rest) {
        if are_calls(event.alternatives.as_slice()) {
            return Some(Plain::AtOnce(event, most));
        }
        return None;
    }
    count(event, 0, Some(most), rest)
}

// The end of a run that a token names: (true, false) for `Halted`, (false, true) for `Quiet`, None for any other token.
fn end(token: &Token<'_>) -> Option<(bool, bool)>
    ensures { result ≡ end_in (token_of token.now) }
{
    if is_this(token, b"Halted") {
        Some((true, false))
    } else if is_this(token, b"Quiet") {
        Some((false, true))
    } else {
        None
    }
}

// Reads one end of a run, `Halted` or `Quiet`: gives (true, false) for `Halted` and (false, true) for `Quiet`, and the tokens behind that word. None
// for anything else.
#[tactic(auto, unfolding(crate::specs::Claims::end_at))]
fn end_first<'t, 'a>(tokens: &'t [Token<'a>]) -> Option<((bool, bool), &'t [Token<'a>])>
    ensures { Gives (λ x. (x.0, tokens_of x.1.now)) result (end_at (tokens_of tokens.now)) }
{
    match tokens {
        [] => None,
        [token, rest @ ..] => Some((end(token)?, rest)),
    }
}

// The claim that a run ends in one of the ways that are allowed: Halted if `halted`, Quiet if `quiet`. `tokens` may be empty, or `by` and a time;
// None for anything else.
fn ends_up_to(halted: bool, quiet: bool, tokens: &[Token<'_>]) -> Option<Plain>
    ensures { Gives plain_of result (ends_by (halted, quiet) (tokens_of tokens.now)) }
{
    // The time by which the run has to end, and None without a bound.
    let by = time(b"by", tokens)?;
    Some(Plain::Ends(halted, quiet, by))
}

// Reads the tokens behind `ends`: one end, or two with `or` between them, and perhaps `by` and a time. None for anything else.
#[tactic(auto, unfolding(crate::specs::Claims::ends_at))]
fn ends(tokens: &[Token<'_>]) -> Option<Plain>
    ensures { Gives plain_of result (ends_at (tokens_of tokens.now)) }
{
    // Which end the first word allows; one of the two is true.
    let ((halted, quiet), rest) = end_first(tokens)?;
    match behind(b"or", rest) {
        Some(more) => {
            let ((also_halted, also_quiet), rest) = end_first(more)?;
            ends_up_to(halted || also_halted, quiet || also_quiet, rest)
        }
        None => ends_up_to(halted, quiet, rest),
    }
}

// Whether no further value of `publishes` follows: the line ends, or the `in` of `in any order` comes.
fn ends_values_here(tokens: &[Token<'_>]) -> bool
    ensures { result ≡ ends_values (tokens_of tokens.now) }
{
    match tokens {
        [] => true,
        [token, ..] => is_this(token, b"in"),
    }
}

// Reads a value, or `_` as None: gives it, whether it is the last value of its list, and the tokens behind it. None if neither a value nor `_` comes
// first.
fn next_value<'t, 'a>(tokens: &'t [Token<'a>]) -> Option<(Option<Value>, bool, &'t [Token<'a>])>
    ensures { Gives (λ x. (x.0, x.1, tokens_of x.2.now)) result (value_step (tokens_of tokens.now)) }
{
    match tokens {
        [] => None,
        [token, rest @ ..] => Some((pattern(token)?, ends_values_here(rest), rest)),
    }
}

// Reads one or more values or `_`, which is None, up to the end of the line or an `in`: gives them, and the tokens that are left. None for anything
// else. The error is refused memory.
fn values<'t, 'a>(
    alloc: Global,
    tokens: &'t [Token<'a>],
) -> Result<Option<(Vec<Option<Value>>, &'t [Token<'a>])>, AllocError>
    ensures { IfOk result (λ o. Gives (λ x. (x.0.items, tokens_of x.1.now)) o (values_at (tokens_of tokens.now))) }
{
    let mut values = Vec::new(alloc);
    // `rest` is what isn't read yet. `same_tokens` gives the tokens back as they are; the prover alone needs it.
    let mut rest = same_tokens(tokens);
    // Each turn reads a token, so there are enough turns.
    for _ in 0..tokens.len() {
        let Some((value, is_last, behind)) = next_value(rest) else {
            return Ok(None);
        };
        values.push(value)?;
        rest = same_tokens(behind);
        if is_last {
            return Ok(Some((values, rest)));
        }
    }
    // Only reached where there is no token at all.
    Ok(None)
}

// Reads a value that isn't `_`: gives it, whether it is the last value of its list, and the tokens behind it. None if no value comes first.
fn next_literal<'t, 'a>(tokens: &'t [Token<'a>]) -> Option<(Value, bool, &'t [Token<'a>])>
    ensures { Gives (λ x. (x.0, x.1, tokens_of x.2.now)) result (literal_step (tokens_of tokens.now)) }
{
    match tokens {
        [] => None,
        [token, rest @ ..] => {
            // The first `?` is for a token that is no pattern, the second one for `_`.
            let value = pattern(token)??;
            Some((value, ends_values_here(rest), rest))
        }
    }
}

// Reads one or more values, but no `_`, up to the end of the line or an `in`: gives them, and the tokens that are left. None for anything else. The
// error is refused memory.
fn literals<'t, 'a>(
    alloc: Global,
    tokens: &'t [Token<'a>],
) -> Result<Option<(Vec<Value>, &'t [Token<'a>])>, AllocError>
    ensures { IfOk result (λ o. Gives (λ x. (x.0.items, tokens_of x.1.now)) o (literals_at (tokens_of tokens.now))) }
{
    let mut values = Vec::new(alloc);
    // `rest` is what isn't read yet. `same_tokens` gives the tokens back as they are; the prover alone needs it.
    let mut rest = same_tokens(tokens);
    // Each turn reads a token, so there are enough turns.
    for _ in 0..tokens.len() {
        let Some((value, is_last, behind)) = next_literal(rest) else {
            return Ok(None);
        };
        values.push(value)?;
        rest = same_tokens(behind);
        if is_last {
            return Ok(Some((values, rest)));
        }
    }
    // Only reached where there is no token at all.
    Ok(None)
}

// Whether these tokens are `in any order` and nothing more.
fn is_any_order_behind(tokens: &[Token<'_>]) -> bool
    ensures { result ≡ is_any_order (tokens_of tokens.now) }
{
    match tokens {
        [a, b, c] => is_this(a, b"in") && is_this(b, b"any") && is_this(c, b"order"),
        _ => false,
    }
}

// Reads the tokens behind `publishes` where they list values: in this order, or `in any order`. None for anything else. The error is refused memory.
#[tactic(auto, unfolding(crate::specs::Claims::in_order_at))]
fn values_in_order(alloc: Global, tokens: &[Token<'_>]) -> Result<Option<Plain>, AllocError>
    ensures { IfOk result (λ o. Gives plain_of o (in_order_at (tokens_of tokens.now))) }
{
    let Some((patterns, rest)) = values(alloc, tokens)? else {
        return Ok(None);
    };
    if rest.is_empty() {
        return Ok(Some(Plain::InOrder(patterns)));
    }
    if !is_any_order_behind(rest) {
        return Ok(None);
    }
    // Read once more, since without an order `_` isn't allowed.
    let Some((values, _)) = literals(alloc, tokens)? else {
        return Ok(None);
    };
    Ok(Some(Plain::InAnyOrder(values)))
}

// Reads the tokens behind `publishes one of`: values, and nothing behind them. None for anything else. The error is refused memory.
#[tactic(auto, unfolding(crate::specs::Claims::one_of_at))]
fn one_of(alloc: Global, tokens: &[Token<'_>]) -> Result<Option<Plain>, AllocError>
    ensures { IfOk result (λ o. Gives plain_of o (one_of_at (tokens_of tokens.now))) }
{
    let Some((values, rest)) = literals(alloc, tokens)? else {
        return Ok(None);
    };
    if !rest.is_empty() {
        return Ok(None);
    }
    Ok(Some(Plain::OneOf(values)))
}

// Whether these tokens are `nothing` and nothing more.
fn is_nothing_behind(tokens: &[Token<'_>]) -> bool
    ensures { result ≡ is_nothing (tokens_of tokens.now) }
{
    match tokens {
        [token] => is_this(token, b"nothing"),
        _ => false,
    }
}

// Reads the tokens behind `publishes`: `nothing`, `one of` and values, or a list of values. None for anything else. The error is refused memory.
#[tactic(auto, unfolding(crate::specs::Claims::publishes_at))]
fn publishes(alloc: Global, tokens: &[Token<'_>]) -> Result<Option<Plain>, AllocError>
    ensures { IfOk result (λ o. Gives plain_of o (publishes_at (tokens_of tokens.now))) }
{
    if is_nothing_behind(tokens) {
        // `publishes nothing` is a list of no values, in order.
        return Ok(Some(Plain::InOrder(Vec::new(alloc))));
    }
    let Some(more) = behind(b"one", tokens) else {
        return values_in_order(alloc, tokens);
    };
    // No value is written `one`, so an `of` has to follow.
    match behind(b"of", more) {
        Some(rest) => one_of(alloc, rest),
        None => Ok(None),
    }
}

// Reads the `no` that may stand before the event of a condition: false with it, true without it; and hands back the tokens of the event. A `no`
// before a bracket is a site, as `begins_with` knows, and not read.
fn happens<'t, 'a>(tokens: &'t [Token<'a>]) -> (bool, &'t [Token<'a>])
    ensures { (result.0, tokens_of result.1.now) ≡ not_at (tokens_of tokens.now) }
{
    match tokens {
        [] => (true, tokens),
        [_, rest @ ..] => {
            if begins_with(b"no", tokens) {
                (false, rest)
            } else {
                (true, tokens)
            }
        }
    }
}

// The tokens behind the first one; the empty list if there is no token.
fn rest_of_tokens<'t, 'a>(tokens: &'t [Token<'a>]) -> &'t [Token<'a>]
    ensures { tokens_of result.now ≡ rest_of (tokens_of tokens.now) }
{
    match tokens {
        [] => tokens,
        [_, rest @ ..] => rest,
    }
}

impl Scope<'_, '_> {
    // Reads the tokens behind `at most`: a number, an event, and perhaps `by` and a time, or `at once`. None for anything else. The error is refused
    // memory.
    fn at_most(self, alloc: Global, tokens: &[Token<'_>]) -> Result<Option<Plain>, AllocError>
        ensures { IfOk result (λ o. Gives plain_of o (at_most_at (sites_of self.entry.sites.now) (tokens_of self.entry.line.now) (tokens_of tokens.now))) }
    {
        // `most` is how often the event may happen at most.
        let Some((most, rest)) = number_first(tokens) else {
            return Ok(None);
        };
        let Some((event, rest)) = self.event(alloc, rest)? else {
            return Ok(None);
        };
        Ok(count_at_most(event, most, rest))
    }

    // Reads the tokens behind `at least`: a number, an event, and perhaps `by` and a time. None for anything else. The error is refused memory.
    fn at_least(self, alloc: Global, tokens: &[Token<'_>]) -> Result<Option<Plain>, AllocError>
        ensures { IfOk result (λ o. Gives plain_of o (at_least_at (sites_of self.entry.sites.now) (tokens_of self.entry.line.now) (tokens_of tokens.now))) }
    {
        // `low` is how often the event has to happen at least.
        let Some((low, rest)) = number_first(tokens) else {
            return Ok(None);
        };
        let Some((event, rest)) = self.event(alloc, rest)? else {
            return Ok(None);
        };
        Ok(count(event, low, None, rest))
    }

    // Reads the tokens behind `exactly`: a number, an event, and perhaps `by` and a time. None for anything else. The error is refused memory.
    fn exactly(self, alloc: Global, tokens: &[Token<'_>]) -> Result<Option<Plain>, AllocError>
        ensures { IfOk result (λ o. Gives plain_of o (exactly_at (sites_of self.entry.sites.now) (tokens_of self.entry.line.now) (tokens_of tokens.now))) }
    {
        let Some((number, rest)) = number_first(tokens) else {
            return Ok(None);
        };
        let Some((event, rest)) = self.event(alloc, rest)? else {
            return Ok(None);
        };
        Ok(count(event, number, Some(number), rest))
    }

    // Reads the tokens behind `at`: a claim that goes on with `most` or `least`. None for anything else. The error is refused memory.
    #[tactic(auto, unfolding(crate::specs::Claims::bounded_at))]
    fn bounded(self, alloc: Global, tokens: &[Token<'_>]) -> Result<Option<Plain>, AllocError>
        ensures { IfOk result (λ o. Gives plain_of o (bounded_at (sites_of self.entry.sites.now) (tokens_of self.entry.line.now) (tokens_of tokens.now))) }
    {
        match tokens {
            [] => Ok(None),
            [token, rest @ ..] => {
                if is_this(token, b"most") {
                    return self.at_most(alloc, rest);
                }
                if is_this(token, b"least") {
                    return self.at_least(alloc, rest);
                }
                Ok(None)
            }
        }
    }

    // Reads the tokens behind `no`: one event, perhaps with `by` and a time, or one event `after` another. None for anything else. The error is
    // refused memory.
    #[tactic(auto, unfolding(crate::specs::Claims::none_at))]
    fn none(self, alloc: Global, tokens: &[Token<'_>]) -> Result<Option<Plain>, AllocError>
        ensures { IfOk result (λ o. Gives plain_of o (none_at (sites_of self.entry.sites.now) (tokens_of self.entry.line.now) (tokens_of tokens.now))) }
    {
        let Some((event, rest)) = self.event(alloc, tokens)? else {
            return Ok(None);
        };
        let Some(more) = behind(b"after", rest) else {
            // No `after` follows. The claim is that the event happens 0 times at least and at most.
            return Ok(count(event, 0, Some(0), rest));
        };
        let Some(other) = self.last_event(alloc, more)? else {
            return Ok(None);
        };
        Ok(Some(Plain::NoneAfter(event, other)))
    }

    // Reads the tokens behind `each`: an event `then` another, perhaps `within` a time. None for anything else. The error is refused memory.
    #[tactic(auto, unfolding(crate::specs::Claims::each_at))]
    fn each(self, alloc: Global, tokens: &[Token<'_>]) -> Result<Option<Plain>, AllocError>
        ensures { IfOk result (λ o. Gives plain_of o (each_at (sites_of self.entry.sites.now) (tokens_of self.entry.line.now) (tokens_of tokens.now))) }
    {
        let Some((event, rest)) = self.event(alloc, tokens)? else {
            return Ok(None);
        };
        let Some(more) = behind(b"then", rest) else {
            return Ok(None);
        };
        let Some((other, rest)) = self.event(alloc, more)? else {
            return Ok(None);
        };
        // `within` is the greatest delay between the two events; Some(None) is no bound.
        let Some(within) = time(b"within", rest) else {
            return Ok(None);
        };
        Ok(Some(Plain::EachThen(event, other, within)))
    }

    // Reads the claim `E only after F`, which begins with its event E and no word of its own. None for anything else. The error is refused memory.
    #[tactic(auto, unfolding(crate::specs::Claims::only_at))]
    fn only(self, alloc: Global, tokens: &[Token<'_>]) -> Result<Option<Plain>, AllocError>
        ensures { IfOk result (λ o. Gives plain_of o (only_at (sites_of self.entry.sites.now) (tokens_of self.entry.line.now) (tokens_of tokens.now))) }
    {
        let Some((event, rest)) = self.event(alloc, tokens)? else {
            return Ok(None);
        };
        let Some(rest) = behind(b"only", rest) else {
            return Ok(None);
        };
        let Some(rest) = behind(b"after", rest) else {
            return Ok(None);
        };
        let Some(other) = self.last_event(alloc, rest)? else {
            return Ok(None);
        };
        Ok(Some(Plain::OnlyAfter(event, other)))
    }

    // Reads a claim without conditions. Its first word says which one it is. A claim that begins with an event is an `only after`: the event begins
    // with a site, which has a `(` behind it, or with `published`. None for anything else. The error is refused memory.
    #[tactic(auto, unfolding(crate::specs::Claims::plain_at))]
    fn plain(self, alloc: Global, tokens: &[Token<'_>]) -> Result<Option<Plain>, AllocError>
        ensures { IfOk result (λ o. Gives plain_of o (plain_at (sites_of self.entry.sites.now) (tokens_of self.entry.line.now) (tokens_of tokens.now))) }
    {
        let [token, rest @ ..] = tokens else {
            return Ok(None);
        };
        if opens_bracket(rest) {
            return self.only(alloc, tokens);
        }
        if is_this(token, b"published") {
            return self.only(alloc, tokens);
        }
        if is_this(token, b"at") {
            return self.bounded(alloc, rest);
        }
        if is_this(token, b"exactly") {
            return self.exactly(alloc, rest);
        }
        if is_this(token, b"no") {
            return self.none(alloc, rest);
        }
        if is_this(token, b"each") {
            return self.each(alloc, rest);
        }
        if is_this(token, b"ends") {
            return Ok(ends(rest));
        }
        if is_this(token, b"publishes") {
            return publishes(alloc, rest);
        }
        Ok(None)
    }

    // Reads the condition behind `if`, an event that has to happen or with `no` one that must not: gives it, and the tokens behind its `then`. None
    // for anything else. The error is refused memory.
    #[tactic(auto, unfolding(crate::specs::Claims::condition_at))]
    fn condition<'t, 'b>(
        self,
        alloc: Global,
        tokens: &'t [Token<'b>],
    ) -> Result<Option<(Condition, &'t [Token<'b>])>, AllocError>
        ensures { IfOk result (λ o. Gives (λ x. (condition_of x.0, tokens_of x.1.now)) o (condition_at (sites_of self.entry.sites.now) (tokens_of self.entry.line.now) (tokens_of tokens.now))) }
    {
        // `happens` is false if a `no` stands before the event.
        let (happens, rest) = happens(tokens);
        let Some((event, rest)) = self.event(alloc, rest)? else {
            return Ok(None);
        };
        let Some(rest) = behind(b"then", rest) else {
            return Ok(None);
        };
        Ok(Some((Condition { event, happens }, rest)))
    }

    // Reads the conditions `if E then` with which a claim begins, none or more: gives them, and the tokens behind them. None if no condition follows
    // an `if`. The error is refused memory.
    fn conditions<'t, 'b>(
        self,
        alloc: Global,
        tokens: &'t [Token<'b>],
    ) -> Result<Option<(Vec<Condition>, &'t [Token<'b>])>, AllocError>
        ensures { IfOk result (λ o. Gives (λ x. (conditions_of x.0.items, tokens_of x.1.now)) o (conditions_at (sites_of self.entry.sites.now) (tokens_of self.entry.line.now) (length (tokens_of tokens.now)) (tokens_of tokens.now))) }
    {
        let mut conditions = Vec::new(alloc);
        // `rest` is what isn't read yet. `same_tokens` gives the tokens back as they are; the prover alone needs it.
        let mut rest = same_tokens(tokens);
        // Each turn reads an `if` at least, so there are enough turns.
        for _ in 0..tokens.len() {
            if !begins_with(b"if", rest) {
                return Ok(Some((conditions, rest)));
            }
            // The condition stands behind the `if`.
            let Some((condition, behind)) = self.condition(alloc, rest_of_tokens(rest))? else {
                return Ok(None);
            };
            conditions.push(condition)?;
            rest = same_tokens(behind);
        }
        // Only reached where there is no token at all: otherwise the turns don't run out.
        Ok(Some((conditions, rest)))
    }

    /// The claim that all tokens of the line are; None if they are no claim. The error is refused memory.
    #[tactic(auto, unfolding(crate::specs::Claims::claim_at))]
    pub fn claim(self, alloc: Global) -> Result<Option<Claim>, AllocError>
        ensures { IfOk result (λ o. Gives claim_of o (claim_at (sites_of self.entry.sites.now) (tokens_of self.entry.line.now))) }
    {
        // The conditions come first, and `rest` is the claim proper.
        let Some((conditions, rest)) = self.conditions(alloc, self.line)? else {
            return Ok(None);
        };
        let Some(plain) = self.plain(alloc, rest)? else {
            return Ok(None);
        };
        Ok(Some(Claim { conditions, plain }))
    }
}
