//! Events: what may happen in a run, as claims name it. A function here reads from the front of the tokens and hands back what it read and the tokens
//! behind it, or None if the tokens don't begin so.
//! `same_tokens` gives back what it gets, in a form that the prover knows again. An event is that one of its alternatives (`Simple`) happens: a
//! publication, or what is wanted (`Wanted`) to become of a call. A `Slot` stands in the place of a value there: it is a value, `_` or a variable. A
//! `Scope` has the sites that the test names, and all tokens of the line.
//!
//! In contracts `Gives f result (NAME_at ..)` says that a reader answers what the definition NAME_at gives for these tokens, and None where that
//! does; f turns the code's value into that of the definitions.

ghost use Rattle.std.specs.Prelude.{◌≡◌, ◌≤◌, length, IfOk, option_map};
ghost use Rattle.orc_rules.specs.Digits.{Gives};
ghost use Rattle.orc_ways.specs.Tokens.{many};
ghost use Rattle.orc_ways.specs.Claims.{site_number, more_items, wanted_at, answered_at, call_at, published_at, simple_at, event_step, event_at, last_event};
ghost use Rattle.orc_ways.specs.Values.{token_of, tokens_of, sites_of, simple_of, simples_of, event_of};

use crate::scope::Scope;
use crate::test::SiteName;
use crate::token::{Token, behind, is_this, opens_bracket, same_tokens, site_name};
use orc_claims::claim::{Event, Simple, Slot, Wanted};
use std::alloc::{AllocError, Global};

/// The place, from 0, among `sites` of the site with this name and this number of arguments; the length of the list if it isn't among them.
pub fn number_of_site(sites: &[SiteName<'_>], name: &[u8], arguments: usize) -> usize
    ensures number { result ≡ site_number (sites_of sites.now) name.now arguments }
    ensures within { result ≤ length sites.now }
{
    for (at, site) in sites.iter().enumerate() {
        if site.name == name && site.arguments == arguments {
            return at;
        }
    }
    // No site has this name with so many arguments.
    sites.len()
}

/// Whether a list of items ends here. `word` is the word that stands between items. If the tokens begin with it, the answer is (false, the tokens
/// behind the word); otherwise the list ends, and the answer is (true, the same tokens).
pub fn more_behind<'t, 'b>(word: &[u8], tokens: &'t [Token<'b>]) -> (bool, &'t [Token<'b>])
    ensures { (result.0, tokens_of result.1.now) ≡ more_items word.now (tokens_of tokens.now) }
{
    match behind(word, tokens) {
        Some(rest) => (false, rest),
        None => (true, tokens),
    }
}

impl Scope<'_, '_> {
    // Reads what stands behind `answered`: a value, `_` or a variable. If there is none, any answer will do and nothing is read. Gives what is
    // wanted, and the tokens that are left.
    fn answered<'t, 'b>(self, tokens: &'t [Token<'b>]) -> (Wanted, &'t [Token<'b>])
        ensures { (result.0, tokens_of result.1.now) ≡ answered_at (tokens_of self.entry.line.now) (tokens_of tokens.now) }
    {
        match tokens {
            [] => (Wanted::Answered(Slot::Any), tokens),
            [token, rest @ ..] => match self.slot(token) {
                Some(slot) => (Wanted::Answered(slot), rest),
                None => (Wanted::Answered(Slot::Any), tokens),
            },
        }
    }

    // Reads what stands behind a call: `called`, `answered`, `halted` or `cancelled`. If it is none of these words, `called` is meant and nothing is
    // read. Gives what is wanted to become of the call, and the tokens that are left.
    #[tactic(auto, unfolding(crate::specs::Claims::wanted_at))]
    fn wanted<'t, 'b>(self, tokens: &'t [Token<'b>]) -> (Wanted, &'t [Token<'b>])
        ensures { (result.0, tokens_of result.1.now) ≡ wanted_at (tokens_of self.entry.line.now) (tokens_of tokens.now) }
    {
        match tokens {
            [] => (Wanted::Called, tokens),
            [token, rest @ ..] => {
                if is_this(token, b"called") {
                    (Wanted::Called, rest)
                } else if is_this(token, b"answered") {
                    self.answered(rest)
                } else if is_this(token, b"halted") {
                    (Wanted::Halted, rest)
                } else if is_this(token, b"cancelled") {
                    (Wanted::Cancelled, rest)
                } else {
                    (Wanted::Called, tokens)
                }
            }
        }
    }

    // Reads a call of the site that `token` names, and what becomes of it, from the `tokens` behind that name. None if `token` is no name or a
    // reserved one, or brackets with slots don't follow. The error is refused memory.
    #[tactic(auto, unfolding(crate::specs::Claims::call_at))]
    fn call<'t, 'b>(
        self,
        alloc: Global,
        token: &Token<'b>,
        tokens: &'t [Token<'b>],
    ) -> Result<Option<(Simple, &'t [Token<'b>])>, AllocError>
        ensures { IfOk result (λ o. Gives (λ x. (simple_of x.0, tokens_of x.1.now)) o (call_at (sites_of self.entry.sites.now) (tokens_of self.entry.line.now) (token_of token.now) (tokens_of tokens.now))) }
    {
        let Some(name) = site_name(token) else {
            return Ok(None);
        };
        // The slots (values, `_` or variables) in the brackets, which the arguments have to fit.
        let Some((slots, rest)) = self.slots(alloc, tokens)? else {
            return Ok(None);
        };
        // The site is one of the scope's sites, since these include those of its own line; `Scope` says that their places fit 32 bits.
        let site = number_of_site(self.sites, name, slots.len()) as u32;
        let (wanted, rest) = self.wanted(rest);
        Ok(Some((Simple::Call(site, slots, wanted), rest)))
    }

    // Reads the value, `_` or variable behind `published`, of the tokens behind that word. Gives the thing that may happen, a publication of such a
    // value, and the tokens that are left. None if there is no such value.
    #[tactic(auto, unfolding(crate::specs::Claims::published_at))]
    fn published<'t, 'b>(self, tokens: &'t [Token<'b>]) -> Option<(Simple, &'t [Token<'b>])>
        ensures { Gives (λ x. (simple_of x.0, tokens_of x.1.now)) result (published_at (tokens_of self.entry.line.now) (tokens_of tokens.now)) }
    {
        match tokens {
            [] => None,
            [token, rest @ ..] => Some((Simple::Published(self.slot(token)?), rest)),
        }
    }

    // Reads one thing that may happen, a call or a publication, and gives it with the tokens that are left. None if the tokens don't begin so. A word
    // before a bracket is a site, so that a site may be called `published`. The error is refused memory.
    #[tactic(auto, unfolding(crate::specs::Claims::simple_at))]
    fn simple<'t, 'b>(
        self,
        alloc: Global,
        tokens: &'t [Token<'b>],
    ) -> Result<Option<(Simple, &'t [Token<'b>])>, AllocError>
        ensures { IfOk result (λ o. Gives (λ x. (simple_of x.0, tokens_of x.1.now)) o (simple_at (sites_of self.entry.sites.now) (tokens_of self.entry.line.now) (tokens_of tokens.now))) }
    {
        match tokens {
            [] => Ok(None),
            [token, rest @ ..] => {
                if opens_bracket(rest) {
                    return self.call(alloc, token, rest);
                }
                if is_this(token, b"published") {
                    return Ok(self.published(rest));
                }
                Ok(None)
            }
        }
    }

    // Reads one thing that may happen and the `or` behind it, if there is one. Gives the thing, true if no `or` follows, and the tokens that are
    // left. None if the tokens don't begin with such a thing. The error is refused memory.
    fn event_step<'t, 'b>(
        self,
        alloc: Global,
        tokens: &'t [Token<'b>],
    ) -> Result<Option<(Simple, bool, &'t [Token<'b>])>, AllocError>
        ensures { IfOk result (λ o. Gives (λ x. (simple_of x.0, x.1, tokens_of x.2.now)) o (event_step (sites_of self.entry.sites.now) (tokens_of self.entry.line.now) (tokens_of tokens.now))) }
    {
        let Some((simple, rest)) = self.simple(alloc, tokens)? else {
            return Ok(None);
        };
        let (is_last, rest) = more_behind(b"or", rest);
        Ok(Some((simple, is_last, rest)))
    }

    /// Reads an event: one thing or more that may happen, with `or` between them, and the tokens behind them. None if the tokens don't begin so. The
    /// error is refused memory.
    pub fn event<'t, 'b>(
        self,
        alloc: Global,
        tokens: &'t [Token<'b>],
    ) -> Result<Option<(Event, &'t [Token<'b>])>, AllocError>
        ensures { IfOk result (λ o. Gives (λ x. (event_of x.0, tokens_of x.1.now)) o (event_at (sites_of self.entry.sites.now) (tokens_of self.entry.line.now) (tokens_of tokens.now))) }
    {
        let mut alternatives = Vec::new(alloc);
        // `rest` is what isn't read yet. `same_tokens` gives the tokens back as they are; the prover alone needs it.
        let mut rest = same_tokens(tokens);
        // Each turn reads a token at least, so there are enough turns.
        for _ in 0..tokens.len() {
            let Some((simple, is_last, behind)) = self.event_step(alloc, rest)? else {
                return Ok(None);
            };
            alternatives.push(simple)?;
            rest = same_tokens(behind);
            if is_last {
                return Ok(Some((Event { alternatives }, rest)));
            }
        }
        // Only reached where there is no token at all.
        Ok(None)
    }

    /// The event that all these tokens are; None if they begin with no event, or something stands behind it. The error is refused memory.
    pub fn last_event(
        self,
        alloc: Global,
        tokens: &[Token<'_>],
    ) -> Result<Option<Event>, AllocError>
        ensures { IfOk result (λ o. Gives event_of o (last_event (sites_of self.entry.sites.now) (tokens_of self.entry.line.now) (tokens_of tokens.now))) }
    {
        let Some((event, rest)) = self.event(alloc, tokens)? else {
            return Ok(None);
        };
        if rest.is_empty() {
            Ok(Some(event))
        } else {
            Ok(None)
        }
    }
}
