//! Which services of a test no run has asked: a line that nobody calls may be mistyped. A *service* here is a line of the test that answers calls of
//! a site whose arguments its *patterns* take; one below `given` belongs to every case. A *case* says how services may answer, a *way* is one such
//! choice, written as a script, and an *order* is a number that decides whose turn comes in a run.
//!
//! The test's runs are made again with one claim for each service, which is put to the test exactly where a run asks that service. A `Page` is a text
//! that is being written.

use crate::scripts::CaseScripts;
use orc_claims::claim::{Claim, Event, Plain, Simple, Slot, Wanted};
use orc_orders::{CaseTold, Trials, try_ways};
use orc_report::Page;
use orc_tally::Told;
use orc_ways::test::{Service, ServiceLine, SiteName, Test};
use std::alloc::{AllocError, Global};
use std::thread::Threads;

/// How many ways (choices of what a case's services answer) are run between two looks at whether a service is still unasked; if none is, the other
/// ways aren't run. So many ways give several workers work, and few are run in vain.
const BATCH: usize = 64;

// The place, from 0, of a service's site among those of its test, by which claims name the site. It is always found: a test's sites are all that its
// lines name.
fn site_of(sites: &[SiteName<'_>], service: &Service<'_>) -> u32 {
    let mut place: u32 = 0;
    for site in sites {
        if site.name == service.name && site.arguments == service.patterns.len() {
            return place;
        }
        place = place.saturating_add(1);
    }
    place
}

// The claim that is put to the test where a run makes a call that the service's patterns match: that there are any number of such calls. It always
// holds; 0 is its least count, and the two None are that it has no greatest count and no time. The error is refused memory.
fn claim_of(
    alloc: Global,
    sites: &[SiteName<'_>],
    service: &Service<'_>,
) -> Result<Claim, AllocError> {
    let mut patterns = Vec::new(alloc);
    patterns.extend_from_slice(service.patterns.as_slice())?;
    let call = Simple::Call(site_of(sites, service), patterns, Wanted::Called);
    let mut alternatives = Vec::new(alloc);
    alternatives.push(call)?;
    Ok(Claim {
        conditions: Vec::new(alloc),
        plain: Plain::Count(Event { alternatives }, 0, None, None),
    })
}

// The claim of `claim_of` for each service, in the order of the services. The error is refused memory.
fn claims_of(alloc: Global, test: &Test<'_>) -> Result<Vec<Claim>, AllocError> {
    let mut claims = Vec::new(alloc);
    for line in &test.services {
        claims.push(claim_of(alloc, test.sites.as_slice(), &line.service)?)?;
    }
    Ok(claims)
}

/// Whether a service belongs to the case at this place, from 0. One below `given` belongs to every case.
pub(crate) fn is_of(line: &ServiceLine<'_>, case: usize) -> bool {
    match line.case {
        Some(own) => own == case,
        None => true,
    }
}

/// The services of a test, and for each of them, in their order, whether a run has asked it.
#[derive(Drop)]
struct Services<'s, 'a> {
    /// The lines of the services, in the order of the test.
    lines: &'s [ServiceLine<'a>],
    /// For each of these lines, whether a run has asked the service.
    asked: Vec<bool>,
}

// A place is that of a service in these lists, and a case is its place in the test, both from 0.
impl<'s, 'a> Services<'s, 'a> {
    // The services before the first run: none was asked. The error is refused memory.
    fn new(alloc: Global, lines: &'s [ServiceLine<'a>]) -> Result<Services<'s, 'a>, AllocError> {
        let mut asked = Vec::new(alloc);
        for _line in lines {
            asked.push(false)?;
        }
        Ok(Services { lines, asked })
    }

    // Whether a run has asked the service at this place, from 0. A place without a service counts as asked, so that nothing is said of it.
    fn is_asked(&self, place: usize) -> bool {
        self.asked.get(place).copied().unwrap_or(true)
    }

    // Whether a service of the case, or of `given`, wasn't asked yet.
    fn has_unasked(&self, case: usize) -> bool {
        for (place, line) in self.lines.iter().enumerate() {
            if is_of(line, case) && !self.is_asked(place) {
                return true;
            }
        }
        false
    }

    // Notes which services the runs of a case have asked: those whose claim was put to the test (`tested`). `told` has what is reported of each
    // service's claim, in the order of the services. A service of another case isn't noted.
    fn note(&mut self, case: usize, told: &[Told]) {
        for (place, line) in self.lines.iter().enumerate() {
            let is_tested = match told.get(place) {
                Some(told) => told.tested,
                None => false,
            };
            if is_of(line, case) && is_tested {
                if let Some(asked) = self.asked.get_mut(place) {
                    *asked = true;
                }
            }
        }
    }

    // Makes runs of the case at this place until each of its services was asked, or no run is left. `trials` has the source, the services' claims,
    // the orders and the limit of the runs. `scripts` has the case's ways that were tried, and `workers` threads make the runs. The error is refused
    // memory.
    fn try_case<'t, 'c, R: Threads + Sync>(
        &mut self,
        rt: &R,
        alloc: Global,
        trials: &'t Trials<'t, 'c>,
        workers: usize,
        case: usize,
        scripts: &[Vec<u8>],
    ) -> Result<(), AllocError> {
        // What is reported of each service's claim, over all runs of the case that were made so far.
        let mut told = CaseTold::new(alloc, trials.claims)?;
        for some in scripts.chunks(BATCH) {
            // Each service was asked, so the other ways need no run.
            if !self.has_unasked(case) {
                return Ok(());
            }
            // All of these runs were made before, without a fault: only memory can be refused.
            if try_ways(rt, alloc, trials, workers, some, &mut told).is_err() {
                return Err(AllocError);
            }
            self.note(case, told.told.as_slice());
        }
        Ok(())
    }

    // The text on these services: a head, and a line for each service that wasn't asked; empty if each was. The error is refused memory.
    fn text(&self, alloc: Global, test: &Test<'_>) -> Result<String, AllocError> {
        let mut page = Page::new(alloc);
        for (place, line) in self.lines.iter().enumerate() {
            if !self.is_asked(place) {
                if page.len() == 0 {
                    page.say("orc: services never asked\n");
                }
                say_service(&mut page, test, line);
            }
        }
        page.finish()
    }
}

// Writes a service as a call of its patterns, in backquotes: `Pay(_, 2)`. A pattern is a value, or `_` for any.
fn say_call(page: &mut Page, service: &Service<'_>) {
    page.say_word("`", service.name, "(");
    for (place, pattern) in service.patterns.iter().enumerate() {
        if place > 0 {
            page.say(", ");
        }
        match pattern {
            Slot::Literal(value) => page.value(*value),
            Slot::Any | Slot::Variable(_) => page.say("_"),
        }
    }
    page.say(")`");
}

// Writes the line of a service that wasn't asked, with its case if it belongs to one, and not to `given`.
fn say_service(page: &mut Page, test: &Test<'_>, line: &ServiceLine<'_>) {
    page.note("no run ");
    if let Some(case) = line.case {
        if let Some(case) = test.cases.get(case) {
            page.say_word("of case ", case.name, " ");
        }
    }
    page.say("asked ");
    say_call(page, &line.service);
    page.say("\n");
}

/// The text that names the services of a test that no run asks; empty where each is asked. `cases` has the ways that were tried, whose runs in all
/// orders are made again by `workers` threads. A service of a case is to be asked in a run of that case, and one of `given` in a run of any case. The
/// error is refused memory.
pub fn services_never_asked<R: Threads + Sync>(
    rt: &R,
    alloc: Global,
    tried: &Trials<'_, '_>,
    test: &Test<'_>,
    cases: &[CaseScripts],
    workers: usize,
) -> Result<String, AllocError> {
    let claims = claims_of(alloc, test)?;
    // What was tried, with the services' claims in place of the test's.
    let trials = Trials {
        source: tried.source,
        sites: tried.sites,
        claims: claims.as_slice(),
        orders: tried.orders,
        limit: tried.limit,
    };
    let mut services = Services::new(alloc, test.services.as_slice())?;
    for (case, scripts) in cases.iter().enumerate() {
        let scripts = scripts.scripts.as_slice();
        services.try_case(rt, alloc, &trials, workers, case, scripts)?;
    }
    services.text(alloc, test)
}
