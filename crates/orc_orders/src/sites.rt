//! The sites of a test by their numbers in a program's table.

ghost use Rattle.std.specs.Prelude.{◌≡◌, IfOk};
ghost use Rattle.orc_ways.specs.Values.{site_of, sites_of};
ghost use Rattle.orc_orders.specs.Trials.{claim_site, claim_sites};

use orc_rules::answers::Answers;
use orc_tally::ClaimSite;
use orc_ways::test::SiteName;
use std::alloc::{AllocError, Global};

/// The number for a site that a test names and the program's table of sites doesn't have. No site has this number, since a table has fewer sites.
const NOWHERE: u32 = u32::MAX;

// A site that the claims of a test name, with its number in the program's table of sites, or `NOWHERE` if the table doesn't have it.
fn claim_site(answers: &Answers, site: &SiteName<'_>) -> ClaimSite
    ensures { result ≡ claim_site answers.now (site_of site.now) }
{
    let number = match answers.site_named(site.name) {
        Some(number) => number,
        None => NOWHERE,
    };
    ClaimSite {
        site: number,
        arguments: site.arguments,
    }
}

/// The sites that the claims of a test name, by their numbers in the program's table of sites, in the same order. One whose name the table doesn't
/// have gets 2^32 - 1, which is the number of none. The error is refused memory.
pub fn claim_sites(
    alloc: Global,
    answers: &Answers,
    sites: &[SiteName<'_>],
) -> Result<Vec<ClaimSite>, AllocError>
    ensures { IfOk result (λ v. v.items ≡ claim_sites answers.now (sites_of sites.now)) }
{
    let mut numbered = Vec::new(alloc);
    for site in sites {
        numbered.push(claim_site(answers, site))?;
    }
    Ok(numbered)
}
