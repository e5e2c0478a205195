//! Which services a case has: its own, and those of `given`, the section of a test for all its cases, that it doesn't override. Services are meant by
//! their places in the test's list, from 0. A service is a site whose answers the test says, with a pattern for each argument: a value, or `_` for
//! any.
//!
//! The loops take `rest`, what is left of a slice, apart from the front, as the definitions in specs/ take lists apart.
//!
//! Each place that is handed in is in the list. `service_at` would give None for another one, which would be passed over.
//!
//! In contracts `services_at services places` is the list of the services at these places.

ghost use Rattle.std.specs.Prelude.{◌≡◌, ◌++◌, IfOk, OnOk, map, option_map, slice_get};
ghost use Rattle.std.specs.List.{list_any};
ghost use Rattle.orc_ways.specs.Values.{service_of};
ghost use Rattle.orc_ways.specs.Drafting.{service_line_of, service_lines_of};
ghost use Rattle.orc_cases.specs.Services.{has_name, is_kept, is_own, is_same, kept, names, new_names, own, services_of, slot_eq, slots_eq};
ghost use Rattle.orc_cases.specs.Values.{service_there, services_at};

use orc_claims::claim::Slot;
use orc_ways::test::{Service, ServiceLine};
use std::alloc::{AllocError, Global};

// Whether two patterns are equal. A service's patterns have no variables, but the type `Slot` has them, so there is a case for two variables, too.
fn same_pattern(a: Slot, b: Slot) -> bool
    ensures { result ≡ slot_eq a b }
{
    match (a, b) {
        (Slot::Any, Slot::Any) => true,
        (Slot::Literal(v), Slot::Literal(w)) => v == w,
        (Slot::Variable(x), Slot::Variable(y)) => x == y,
        _ => false,
    }
}

// Whether two services have the same patterns, as many and in the same order.
fn same_patterns(a: &[Slot], b: &[Slot]) -> bool
    ensures { result ≡ slots_eq a.now b.now }
{
    let mut rest = a;
    let mut others = b;
    loop {
        match rest {
            [] => return others.is_empty(),
            [slot, more @ ..] => match others {
                [] => return false,
                [other, behind @ ..] => {
                    if !same_pattern(*slot, *other) {
                        return false;
                    }
                    rest = more;
                    others = behind;
                }
            },
        }
    }
}

// Whether two services have the same name and the same patterns: then one of a case overrides one of `given`.
fn is_same(a: &Service<'_>, b: &Service<'_>) -> bool
    ensures { result ≡ is_same (service_of a.now) (service_of b.now) }
{
    a.name == b.name && same_patterns(a.patterns.as_slice(), b.patterns.as_slice())
}

// Whether a service's line is one of the case at this place. `of` is the place of the line's own case, None for a line of `given`.
fn is_own(case: usize, of: Option<usize>) -> bool
    ensures { result ≡ is_own case of }
{
    match of {
        Some(place) => place == case,
        None => false,
    }
}

/// The service of the line at a place, from 0, in the list of the test; None if the list has no such place. No caller hands in such a place:
/// `case_places` finds all places.
pub(crate) fn service_at<'s, 'a>(
    services: &'s [ServiceLine<'a>],
    place: usize,
) -> Option<&'s Service<'a>>
    ensures { option_map (λ s. service_of s.now) result ≡ service_there (slice_get services.now place) }
{
    match services.get(place) {
        Some(line) => Some(&line.service),
        None => None,
    }
}

// Whether one of the services at these places has the name and the patterns of this one, and so overrides it.
fn is_overridden(services: &[ServiceLine<'_>], places: &[usize], service: &Service<'_>) -> bool
    ensures { result ≡ list_any (is_same (service_of service.now)) (services_at services.now places.now) }
{
    let mut rest = places;
    loop {
        match rest {
            [] => return false,
            [place, more @ ..] => {
                if let Some(other) = service_at(services, *place) {
                    if is_same(service, other) {
                        return true;
                    }
                }
                rest = more;
            }
        }
    }
}

// The places, in the test's list of services, of the own services of the case at place `case`, from 0; they ascend. The error is refused memory.
fn own_places(
    alloc: Global,
    services: &[ServiceLine<'_>],
    case: usize,
) -> Result<Vec<usize>, AllocError>
    ensures { IfOk result (λ places. services_at services.now places.items ≡ own case (service_lines_of services.now)) }
{
    let mut places = Vec::new(alloc);
    for (place, line) in services.iter().enumerate() {
        if is_own(case, line.case) {
            places.push(place)?;
        }
    }
    Ok(places)
}

// Whether a service's line is one of `given` that the case keeps: none of the case's own services, which are at the places `own`, has the line's name
// and patterns.
fn is_kept(services: &[ServiceLine<'_>], own: &[usize], line: &ServiceLine<'_>) -> bool
    ensures { result ≡ is_kept (services_at services.now own.now) (service_line_of line.now) }
{
    line.case.is_none() && !is_overridden(services, own, &line.service)
}

// Pushes the places of the services of `given` that none of the case's own services, which are at the places `own`, overrides. The error is refused
// memory.
fn add_kept(
    services: &[ServiceLine<'_>],
    own: &[usize],
    places: &mut Vec<usize>,
) -> Result<(), AllocError>
    ensures { OnOk result (services_at services.now places.new.items ≡ services_at services.now places.old.items ++ kept (services_at services.now own.now) (service_lines_of services.now)) }
{
    for (place, line) in services.iter().enumerate() {
        if is_kept(services, own, line) {
            places.push(place)?;
        }
    }
    Ok(())
}

/// The places, in the test's list of services, of the services of the case at place `case`, from 0: its own in their order, then those of `given`
/// that don't have the name and the patterns of one of its own. The error is refused memory.
pub(crate) fn case_places(
    alloc: Global,
    services: &[ServiceLine<'_>],
    case: usize,
) -> Result<Vec<usize>, AllocError>
    ensures { IfOk result (λ places. services_at services.now places.items ≡ services_of case (service_lines_of services.now)) }
{
    let own = own_places(alloc, services, case)?;
    let mut places = Vec::new(alloc);
    places.extend_from_slice(own.as_slice())?;
    add_kept(services, own.as_slice(), &mut places)?;
    Ok(places)
}

// Whether the name is one of `names`.
fn has_name(names: &[&[u8]], name: &[u8]) -> bool
    ensures { result ≡ has_name (map (λ n. n.now) names.now) name.now }
{
    let mut rest = names;
    loop {
        match rest {
            [] => return false,
            [other, more @ ..] => {
                if *other == name {
                    return true;
                }
                rest = more;
            }
        }
    }
}

// The names of the services at these places, in that order. The error is refused memory.
fn names_at<'a>(
    alloc: Global,
    services: &[ServiceLine<'a>],
    places: &[usize],
) -> Result<Vec<&'a [u8]>, AllocError>
    ensures { IfOk result (λ ns. map (λ n. n.now) ns.items ≡ names (services_at services.now places.now)) }
{
    let mut found: Vec<&'a [u8]> = Vec::new(alloc);
    let mut rest = places;
    loop {
        match rest {
            [] => return Ok(found),
            [place, more @ ..] => {
                if let Some(service) = service_at(services, *place) {
                    found.push(service.name)?;
                }
                rest = more;
            }
        }
    }
}

/// The names that services of the test have, but none of the services at these places, each once and in the order of the test. The error is refused
/// memory.
pub(crate) fn other_names<'a>(
    alloc: Global,
    services: &[ServiceLine<'a>],
    places: &[usize],
) -> Result<Vec<&'a [u8]>, AllocError>
    ensures { IfOk result (λ ns. map (λ n. n.now) ns.items ≡ new_names (names (services_at services.now places.now)) (map (λ l. l.service) (service_lines_of services.now))) }
{
    // The names that are not to be added: those at the places, and each other one once it was added.
    let mut seen = names_at(alloc, services, places)?;
    let mut others = Vec::new(alloc);
    let mut rest = services;
    loop {
        match rest {
            [] => return Ok(others),
            [line, more @ ..] => {
                let name = line.service.name;
                if !has_name(seen.as_slice(), name) {
                    seen.push(name)?;
                    others.push(name)?;
                }
                rest = more;
            }
        }
    }
}
