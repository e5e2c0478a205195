//! The sieve: what a search keeps of what happens. The less it keeps, the fewer states there are. A `Watch` has what a claim names, and the latest
//! time that it tells apart. An `Occurrence` is a publication, or what became of a call (its `Phase`): it was made, answered, halted or cancelled. In
//! contracts `names_of` is what a sieve keeps, `sites_of` the sites that claims name, and `named` what is kept of a list; `becomes` is what became of
//! a call as claims have it.

ghost use Rattle.std.specs.Prelude.{◌≡◌, ◌∷◌, [], IfOk, option_to_list};
ghost use Rattle.orc_claims.specs.declared.happening.Occurrence.TheVariants.{Published as published};
ghost use Rattle.orc_schedules.specs.Seen.{becomes, latest_in, names_of, sites_of};
ghost use Rattle.orc_schedules.specs.Watch.{is_named, named};

use crate::counts::in_place;
use crate::watch::Watch;
use orc_claims::happening::{Occurrence, Phase};
use orc_rules::value::Value;
use orc_tally::{ClaimSite, claim_number};
use std::alloc::AllocError;

/// What a search keeps.
#[derive(Clone, Copy)]
pub(crate) enum Sieve<'a> {
    /// Publications alone, without times.
    Publications,
    /// What a claim names. The sites are those that the test names: they turn a site's number in the program's table into its number in claims.
    Named(&'a Watch, &'a [ClaimSite]),
}

impl Sieve<'_> {
    /// The latest time that the sieve tells apart: every later one counts as this one.
    pub(crate) fn latest(&self) -> u64
        ensures { result ≡ latest_in self.now }
    {
        match self {
            // 0: no times are told apart.
            Sieve::Publications => 0,
            Sieve::Named(watch, _) => watch.latest(),
        }
    }

    /// Whether the sieve keeps the publication of this value.
    pub(crate) fn keeps_value(&self, value: Value) -> bool
        ensures { result ≡ is_named (names_of self.now) (published value) }
    {
        match self {
            Sieve::Publications => true,
            Sieve::Named(watch, _) => watch.names(&Occurrence::Published(value)),
        }
    }

    /// What the sieve keeps of what became of a call, with the site's number in claims; None if it keeps nothing. `site` is the site's number in the
    /// program's table, `phase` what became of the call. The error is that no call can have so many arguments, or that the test names 2^32 sites.
    pub(crate) fn call(
        &self,
        site: u32,
        args: &[Value],
        phase: Phase,
    ) -> Result<Option<Occurrence>, AllocError>
        ensures { IfOk result (λ o. option_to_list o ≡ named (names_of self.now) (becomes (sites_of self.now) site args.now phase ∷ [])) }
    {
        match self {
            // It keeps publications alone.
            Sieve::Publications => Ok(None),
            Sieve::Named(watch, sites) => {
                // `claim_number` gives a site that isn't among them the number `sites.len()`, which has to fit 32 bits.
                if sites.len() > u32::MAX as usize {
                    return Err(AllocError);
                }
                let Some(placed) = in_place(args) else {
                    return Err(AllocError);
                };
                let number = claim_number(sites, site, args.len());
                let what = Occurrence::Call(number, placed, phase);
                if watch.names(&what) {
                    Ok(Some(what))
                } else {
                    Ok(None)
                }
            }
        }
    }
}
