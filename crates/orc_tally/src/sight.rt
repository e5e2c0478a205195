//! What claims see of a run: its happenings, with the numbers that claims have for sites. A program's table numbers sites by name, a test by name and
//! number of arguments.

ghost use Rattle.std.specs.Prelude.{◌≡◌, ◌<◌, ◌^◌, length, map, IfOk, Some};
ghost use Rattle.std.specs.List.{slice_get};
ghost use Rattle.orc_claims.specs.Happenings.{begin, told_all};
ghost use Rattle.orc_tally.specs.Sight.{number_from, renumbered};

use orc_claims::Happenings;
use orc_journal::Journal;
use orc_rules::entry::Entry;
use std::alloc::{AllocError, Global};

/// A site as claims name it. Its place in the list of those that a test names, from 0, is the number that claims have for it.
#[derive(Clone, Copy, PartialEq, Eq, Debug)]
pub struct ClaimSite {
    /// The site's number in the program's table of sites.
    pub site: u32,
    /// How many arguments the calls have that claims mean.
    pub arguments: usize,
}

/// The number that claims have for a site of the program's table with so many arguments: its place in `sites`, from 0, or `sites.len()` if it isn't
/// there.
pub fn claim_number(sites: &[ClaimSite], site: u32, arguments: usize) -> u32
    requires { length sites.now < 2 ^ 32 }
    ensures { result ≡ number_from 0 sites.now site arguments }
{
    // No `for`, since the invariant that the proof gives the loop speaks of the sites that are left.
    let mut number = 0;
    let mut rest = sites;
    loop {
        match rest {
            [] => return number,
            [known, more @ ..] => {
                if known.site == site && known.arguments == arguments {
                    return number;
                }
                number += 1;
                rest = more;
            }
        }
    }
}

// This entry; if it is a call, its site gets the number that claims have for it. Other entries name no site.
fn renumbered(sites: &[ClaimSite], entry: Entry) -> Entry
    requires { length sites.now < 2 ^ 32 }
    ensures { result ≡ renumbered sites.now entry }
{
    match entry {
        Entry::Call(token, call, site, args) => {
            let number = claim_number(sites, site, args.as_slice().len());
            Entry::Call(token, call, number, args)
        }
        other => other,
    }
}

// The entry at the place `at`, from 0. The contract asks that the journal has an entry there.
fn entry_at(journal: &Journal, at: usize) -> Entry
    requires { at < length journal.now.entries }
    ensures { slice_get journal.now.entries at ≡ Some result }
{
    match journal.get(at) {
        Some(entry) => entry,
        // The place is below the journal's length.
        None => unreachable!(),
    }
}

/// The happenings of a journal (its publications, and what became of its calls), whose sites get the numbers that claims have for them. `sites` are
/// those that a test names. The error is refused memory, also if there are 2^32 of these.
pub fn happenings_of(
    alloc: Global,
    sites: &[ClaimSite],
    journal: &Journal,
) -> Result<Happenings, AllocError>
    ensures { IfOk result (λ h. h ≡ told_all begin (map (renumbered sites.now) journal.now.entries)) }
{
    // `claim_number` may give `sites.len()`, which has to fit 32 bits.
    if sites.len() > u32::MAX as usize {
        return Err(AllocError);
    }
    let mut happenings = Happenings::new(alloc);
    for at in 0..journal.len() {
        let entry = entry_at(journal, at);
        happenings.read(&renumbered(sites, entry))?;
    }
    Ok(happenings)
}
