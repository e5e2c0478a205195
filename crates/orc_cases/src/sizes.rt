//! How many ways there are, counted before any is written out. The true number may be far over 2^64, so all numbers here stop at `MANY`. A way takes
//! one choice of each line of the case's services. A service has alternatives, and an answer in one of them (`Reply`) has a range of delays, or is
//! `never`.
//!
//! The loops take `rest`, what is left of a slice, apart from the front, as the definitions in specs/ take lists apart.

ghost use Rattle.std.specs.Prelude.{◌≡◌, length};
ghost use Rattle.orc_ways.specs.Values.{histories_of, service_of};
ghost use Rattle.orc_cases.specs.Choices.{answers_of};
ghost use Rattle.orc_cases.specs.Sizes.{capped, history_from, options_from, plus, service_capped, times, ways_from_size};
ghost use Rattle.orc_cases.specs.Values.{services_at};

use crate::lines::service_at;
use orc_ways::limits::MOST_WAYS;
use orc_ways::test::{Reply, Service, ServiceLine};

/// Stands for every number above `MOST_WAYS`, the most ways that a case may have.
const MANY: u64 = MOST_WAYS + 1;

// The product of two counts, or `MANY` if it is over `MOST_WAYS`.
#[tactic(auto, unfolding(crate::specs::Sizes::capped, crate::specs::Sizes::times))]
fn times(a: u64, b: u64) -> u64
    ensures { result ≡ times a b }
{
    a.saturating_mul(b).min(MANY)
}

// The sum of two counts, or `MANY` if it is over `MOST_WAYS`.
#[tactic(auto, unfolding(crate::specs::Sizes::capped, crate::specs::Sizes::plus))]
fn plus(a: u64, b: u64) -> u64
    ensures { result ≡ plus a b }
{
    a.saturating_add(b).min(MANY)
}

// How many answers a reply stands for: one for each delay of its range. `MANY` for more than `MOST_WAYS`.
#[tactic(auto, using(crate::proofs::Sizing::range_size, crate::proofs::Sizing::no_range), unfolding(crate::specs::Sizes::capped, crate::specs::Sizes::plus))]
fn reply_size(reply: Reply) -> u64
    ensures { result ≡ capped (length (answers_of reply)) }
{
    match reply {
        Reply::Never => 1,
        // Its two ends are included. No empty range is read; it would stand for no answer.
        Reply::Between(_, low, high) => { if low <= high { plus(high - low, 1) } else { 0 } }
    }
}

// How many choices one alternative, an answer for each call, stands for: the product over its answers. `MANY` for more than `MOST_WAYS`.
fn history_size(replies: &[Reply]) -> u64
    ensures { result ≡ history_from 1 replies.now }
{
    let mut size = 1;
    let mut rest = replies;
    loop {
        match rest {
            [] => return size,
            [reply, more @ ..] => {
                size = times(size, reply_size(*reply));
                rest = more;
            }
        }
    }
}

// How many choices the alternatives of a service stand for together: the sum over them. `MANY` for more than `MOST_WAYS`.
fn options_size(alternatives: &[Vec<Reply>]) -> u64
    ensures { result ≡ options_from 0 (histories_of alternatives.now) }
{
    let mut size = 0;
    let mut rest = alternatives;
    loop {
        match rest {
            [] => return size,
            [replies, more @ ..] => {
                size = plus(size, history_size(replies.as_slice()));
                rest = more;
            }
        }
    }
}

// How many choices a service has: each of its calls, or the line as a whole, takes any one of what its alternatives stand for. `MANY` for more than
// `MOST_WAYS`.
fn service_size(service: &Service<'_>) -> u64
    ensures { result ≡ service_capped (service_of service.now) }
{
    let options = options_size(service.alternatives.as_slice());
    let mut size = 1;
    // How many calls still take an alternative. A service has 1 at least, so `max` changes nothing.
    let mut left = service.calls.max(1);
    while left > 0 {
        size = times(size, options);
        left -= 1;
    }
    size
}

/// How many ways the services at these places have together; `MOST_WAYS` + 1 if there are more than `MOST_WAYS`. A place that isn't in the list
/// counts for nothing; `case_places` gives none such.
pub(crate) fn ways_size(services: &[ServiceLine<'_>], places: &[usize]) -> u64
    ensures { result ≡ ways_from_size 1 (services_at services.now places.now) }
{
    // Without a service there is one way.
    let mut size = 1;
    let mut rest = places;
    loop {
        match rest {
            [] => return size,
            [place, more @ ..] => {
                if let Some(service) = service_at(services, *place) {
                    size = times(size, service_size(service));
                }
                rest = more;
            }
        }
    }
}
