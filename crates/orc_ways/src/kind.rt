//! What a line is: the beginning of a section, a service or a claim. A service is a site whose answers the test says. A `Scope` has the tokens of the
//! line (`line`), and the sites that the test names.
//!
//! In contracts `Gives f result (NAME ..)` says that a function answers what the definition NAME gives for these tokens, and None where that does; f
//! turns the code's value into that of the definitions.

ghost use Rattle.std.specs.Prelude.{◌≡◌, IfOk, option_map};
ghost use Rattle.orc_rules.specs.Digits.{Gives};
ghost use Rattle.orc_ways.specs.Lines.{has_equals, section_in, section_at, other_at, kind_at};
ghost use Rattle.orc_ways.specs.Drafting.{kind_of};
ghost use Rattle.orc_ways.specs.Values.{token_of, tokens_of, sites_of};

use crate::scope::Scope;
use crate::services::service;
use crate::test::Service;
use crate::token::{Token, is_equals_sign, is_this, name};
use orc_claims::claim::Claim;
use std::alloc::{AllocError, Global};

/// What a line of a test is.
#[derive(Drop)]
pub enum Kind<'a> {
    /// It has no token: blanks, or a comment.
    Blank,
    /// The line `given`.
    Given,
    /// The line `always`.
    Always,
    /// `case` and this name.
    Case(&'a [u8]),
    /// A line that says how a service answers: it has a `=`.
    Service(Service<'a>),
    /// A line with a claim.
    Claim(Claim),
}

// Whether a `=` is among the tokens, wherever it stands.
fn has_equals_sign(tokens: &[Token<'_>]) -> bool
    ensures { result ≡ has_equals (tokens_of tokens.now) }
{
    for token in tokens {
        if is_equals_sign(token) {
            return true;
        }
    }
    false
}

// The section that a line of this one token begins; None for any other token.
fn one_token<'a>(token: &Token<'a>) -> Option<Kind<'a>>
    ensures { Gives kind_of result (section_in (token_of token.now)) }
{
    if is_this(token, b"given") {
        Some(Kind::Given)
    } else if is_this(token, b"always") {
        Some(Kind::Always)
    } else {
        None
    }
}

// The section that a line of these tokens begins: `given`, `always`, or `case` and a name. None for any others.
fn section<'a>(tokens: &[Token<'a>]) -> Option<Kind<'a>>
    ensures { Gives kind_of result (section_at (tokens_of tokens.now)) }
{
    match tokens {
        [token] => one_token(token),
        [token, other] => {
            if is_this(token, b"case") {
                Some(Kind::Case(name(other)?))
            } else {
                None
            }
        }
        _ => None,
    }
}

impl<'a> Scope<'_, 'a> {
    // What a line without `=` is; None if it is neither the beginning of a section nor a claim. A claim may begin with a site called `given`, since a
    // section's word is the whole line. The error is refused memory.
    fn section_or_claim(self, alloc: Global) -> Result<Option<Kind<'a>>, AllocError>
        ensures { IfOk result (λ o. Gives kind_of o (other_at (sites_of self.entry.sites.now) (tokens_of self.entry.line.now))) }
    {
        // The line's tokens are one of the section's words, or `case` and a name.
        if let Some(section) = section(self.line) {
            return Ok(Some(section));
        }
        let Some(claim) = self.claim(alloc)? else {
            return Ok(None);
        };
        Ok(Some(Kind::Claim(claim)))
    }

    /// What the line is: a service exactly if it has a `=`. None if it is no line of a test. The error is refused memory.
    #[tactic(auto, unfolding(crate::specs::Lines::kind_at))]
    pub fn kind(self, alloc: Global) -> Result<Option<Kind<'a>>, AllocError>
        ensures { IfOk result (λ o. Gives kind_of o (kind_at (sites_of self.entry.sites.now) (tokens_of self.entry.line.now))) }
    {
        if self.line.is_empty() {
            return Ok(Some(Kind::Blank));
        }
        if !has_equals_sign(self.line) {
            return self.section_or_claim(alloc);
        }
        // A line with a `=` has to be a service.
        let Some(service) = service(alloc, self.line)? else {
            return Ok(None);
        };
        Ok(Some(Kind::Service(service)))
    }
}
