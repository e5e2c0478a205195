//! Slots: what stands in the place of a value, which is a value, `_` or a variable. `same_tokens` gives back what it gets, in a form that the prover
//! knows again. A `Scope` has all tokens of the line, among which a variable is looked up.
//!
//! In contracts `Gives f result (NAME_at ..)` says that a reader answers what the definition NAME_at gives for these tokens, and None where that
//! does; f turns the code's value into that of the definitions.

ghost use Rattle.std.specs.Prelude.{◌≡◌, ◌<◌, length, IfOk, IfSome};
ghost use Rattle.orc_rules.specs.Digits.{Gives};
ghost use Rattle.orc_ways.specs.Claims.{place_of, follows, is_small, is_variable, variable_in, slot_of, slot_in, slot_step, slots_behind, slots_at};
ghost use Rattle.orc_rules.specs.declared.limits.TheConstants.{MOST_ARGUMENTS};
ghost use Rattle.orc_ways.specs.Tokens.{many};
ghost use Rattle.orc_ways.specs.Values.{token_of, tokens_of};

use crate::scope::Scope;
use crate::token::{
    Token, closes, is_left_bracket, is_right_bracket, is_this, name, pattern, same_tokens,
};
use orc_claims::claim::Slot;
use orc_rules::limits::MOST_ARGUMENTS;
use orc_rules::value::Value;
use std::alloc::{AllocError, Global};

// Whether a word may follow a slot (a value, `_` or a variable) in a claim. Such a word is no variable: else the `or` of `A(_) answered or B(_)`
// could be the value that is answered.
fn follows_value(name: &[u8]) -> bool
    ensures { result ≡ follows name.now }
{
    name == b"or".as_slice()
        || name == b"only".as_slice()
        || name == b"after".as_slice()
        || name == b"then".as_slice()
        || name == b"within".as_slice()
        || name == b"by".as_slice()
        || name == b"at".as_slice()
        || name == b"once".as_slice()
        || name == b"called".as_slice()
        || name == b"answered".as_slice()
        || name == b"halted".as_slice()
        || name == b"cancelled".as_slice()
}

// Whether a name begins with a small letter.
fn begins_small(name: &[u8]) -> bool
    ensures { result ≡ is_small name.now }
{
    match name {
        // No name is empty; the function has to answer for it all the same.
        [] => false,
        [c, ..] => c.is_ascii_lowercase(),
    }
}

// Whether a name may be a variable: it begins with a small letter and is no word that may follow a slot.
fn is_variable_name(name: &[u8]) -> bool
    ensures { result ≡ is_variable name.now }
{
    begins_small(name) && !follows_value(name)
}

// The place, from 0, of the first token of `line` that is the word `word`; None if no token is.
fn place_in(line: &[Token<'_>], word: &[u8]) -> Option<usize>
    ensures place { result ≡ place_of word.now (tokens_of line.now) }
    ensures within { IfSome result (λ at. at < length line.now) }
{
    for (at, token) in line.iter().enumerate() {
        if is_this(token, word) {
            return Some(at);
        }
    }
    None
}

// The slot for `pattern`, which is what scripts have in the place of a value: None is `_`, which any value fits.
fn slot_of_pattern(pattern: Option<Value>) -> Slot
    ensures { result ≡ slot_of pattern }
{
    match pattern {
        None => Slot::Any,
        Some(value) => Slot::Literal(value),
    }
}

impl Scope<'_, '_> {
    // The variable of this name; None for a name that can't be one. Its number is the place of its first token in the line, so equal names are equal
    // numbers.
    fn variable(self, name: &[u8]) -> Option<Slot>
        ensures { result ≡ variable_in (tokens_of self.entry.line.now) name.now }
    {
        if is_variable_name(name) {
            // None where the line hasn't this name: a service's patterns are read in a scope without a line, in which no name is a variable.
            let at = place_in(self.line, name)?;
            // The cast loses nothing: `Scope` says that places in the line fit 32 bits.
            Some(Slot::Variable(at as u32))
        } else {
            None
        }
    }

    /// What a token is that stands in the place of a value: a value, `_` or a variable; None for any other token. A variable is known by the place of
    /// its first token in the line.
    #[tactic(auto, unfolding(crate::specs::Claims::slot_in))]
    pub fn slot(self, token: &Token<'_>) -> Option<Slot>
        ensures { result ≡ slot_in (tokens_of self.entry.line.now) (token_of token.now) }
    {
        // `pattern` tells a value or `_`.
        if let Some(pattern) = pattern(token) {
            return Some(slot_of_pattern(pattern));
        }
        self.variable(name(token)?)
    }

    // Reads one slot (a value, `_` or a variable) and the sign behind it: the slot, true for `)` and false for a comma, and the tokens behind that
    // sign. None if the tokens don't begin with a slot and one of these signs.
    fn slot_step<'t, 'b>(self, tokens: &'t [Token<'b>]) -> Option<(Slot, bool, &'t [Token<'b>])>
        ensures { Gives (λ x. (x.0, x.1, tokens_of x.2.now)) result (slot_step (tokens_of self.entry.line.now) (tokens_of tokens.now)) }
    {
        match tokens {
            [token, sign, rest @ ..] => {
                let slot = self.slot(token)?;
                Some((slot, closes(sign)?, rest))
            }
            _ => None,
        }
    }

    // Reads one to `MOST_ARGUMENTS` slots with commas between them up to the `)`: the slots, and the tokens behind it. None if the tokens don't begin
    // so, or the slots are more. The error is refused memory. A slot is a value, `_` or a variable.
    fn some_slots<'t, 'b>(
        self,
        alloc: Global,
        tokens: &'t [Token<'b>],
    ) -> Result<Option<(Vec<Slot>, &'t [Token<'b>])>, AllocError>
        ensures { IfOk result (λ o. Gives (λ x. (x.0.items, tokens_of x.1.now)) o (many (slot_step (tokens_of self.entry.line.now)) MOST_ARGUMENTS (tokens_of tokens.now))) }
    {
        let mut slots = Vec::new(alloc);
        // `rest` is what isn't read yet. `same_tokens` gives the tokens back as they are; the prover alone needs it.
        let mut rest = same_tokens(tokens);
        for _ in 0..MOST_ARGUMENTS {
            let Some((slot, is_last, behind)) = self.slot_step(rest) else {
                return Ok(None);
            };
            slots.push(slot)?;
            rest = same_tokens(behind);
            if is_last {
                return Ok(Some((slots, rest)));
            }
        }
        Ok(None)
    }

    // Reads the slots behind a `(`, none to `MOST_ARGUMENTS`: the slots, and the tokens behind the `)`. None if the tokens don't begin so. The error
    // is refused memory. A slot is a value, `_` or a variable.
    fn slots_behind<'t, 'b>(
        self,
        alloc: Global,
        tokens: &'t [Token<'b>],
    ) -> Result<Option<(Vec<Slot>, &'t [Token<'b>])>, AllocError>
        ensures { IfOk result (λ o. Gives (λ x. (x.0.items, tokens_of x.1.now)) o (slots_behind (tokens_of self.entry.line.now) (tokens_of tokens.now))) }
    {
        match tokens {
            [] => Ok(None),
            [token, rest @ ..] => {
                if is_right_bracket(token) {
                    // `()` has no slots.
                    return Ok(Some((Vec::new(alloc), rest)));
                }
                self.some_slots(alloc, tokens)
            }
        }
    }

    /// Reads slots in brackets, none to `MOST_ARGUMENTS`: the slots, and the tokens behind the `)`. None if the tokens don't begin so. The error is
    /// refused memory. A slot is a value, `_` or a variable.
    #[tactic(auto, unfolding(crate::specs::Claims::slots_at))]
    pub fn slots<'t, 'b>(
        self,
        alloc: Global,
        tokens: &'t [Token<'b>],
    ) -> Result<Option<(Vec<Slot>, &'t [Token<'b>])>, AllocError>
        ensures { IfOk result (λ o. Gives (λ x. (x.0.items, tokens_of x.1.now)) o (slots_at (tokens_of self.entry.line.now) (tokens_of tokens.now))) }
    {
        match tokens {
            [] => Ok(None),
            [token, rest @ ..] => {
                if is_left_bracket(token) {
                    self.slots_behind(alloc, rest)
                } else {
                    Ok(None)
                }
            }
        }
    }
}
