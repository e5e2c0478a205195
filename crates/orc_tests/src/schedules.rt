//! Searches through every schedule of a program for a run that breaks a claim. The rows in `outcomes` and `tests` of `checks/tables` have more such
//! searches, by the program `orc`. A *state* is what is left of the program to run, with the calls that were made and what was seen on the way.

use orc_claims::happening::{Happening, Occurrence, Phase};
use orc_load::{Loaded, load};
use orc_outcome::End;
use orc_rules::value::Value;
use orc_schedules::{ClaimSearched, Explorer, search_claim};
use orc_tally::ClaimSite;
use orc_ways::read_test;
use std::alloc::{AllocError, Global};
use std::test::Fail;

// Both waits are over at time 1. Then either number is published first.
const RACE: &[u8] = b"Rwait(1) >> 1 | Rwait(1) >> 2";

// One thing that a search sees in a run.
#[derive(Clone, Copy)]
enum Mark {
    // A wait is over, at time 1. If times make no difference to the claim, the search has time 0 in its place.
    Answer,
    // This number is published.
    Published(i64),
}

// What a search for a run that breaks the claim has to answer.
#[derive(Clone, Copy)]
enum Wanted {
    // No run breaks it.
    Holds,
    // A run that halts breaks the claim; this is all that is seen in it.
    Fails(&'static [Mark]),
    // There are more states than the search may look at.
    TooMany,
}

// Whether a search has seen this. 0 is the number that claims have for `Rwait`, the first of `WAITS`.
fn is_mark(seen: &Happening, mark: Mark) -> bool {
    match (&seen.what, mark) {
        (Occurrence::Call(0, _, Phase::Answered(_)), Mark::Answer) => seen.time <= 1,
        (Occurrence::Published(value), Mark::Published(n)) => *value == Value::Number(n),
        _ => false,
    }
}

// Whether a search has answered this.
fn is_wanted(found: &ClaimSearched, wanted: Wanted) -> bool {
    match (found, wanted) {
        (ClaimSearched::Holds(_), Wanted::Holds) => true,
        (ClaimSearched::TooMany, Wanted::TooMany) => true,
        (ClaimSearched::Fails(seen), Wanted::Fails(marks)) => {
            let happened = seen.happened.as_slice();
            seen.end == End::Halted
                && happened.len() == marks.len()
                && happened
                    .iter()
                    .zip(marks.iter())
                    .all(|(one, mark)| is_mark(one, *mark))
        }
        // Another answer, or one that no row wants.
        _ => false,
    }
}

// The site that the claims name, if they name one: `Rwait`, which is site 6, with one argument.
const WAITS: [ClaimSite; 1] = [ClaimSite {
    site: 6,
    arguments: 1,
}];

// Claims about `RACE`, how many states a search may look at, and what it has to answer. Every run of `RACE` halts at time 1, when both waits are
// over, after it has published 1 and 2 in either order. It has fewer than 1,000 states, and more than 3. A search sees in a run only what its claim
// names.
const CLAIMS: [(&[u8], usize, Wanted); 9] = [
    (
        b"always\nat most 1 Rwait(_) answered",
        1000,
        Wanted::Fails(&[Mark::Answer, Mark::Answer]),
    ),
    (b"always\nat most 2 Rwait(_) answered", 1000, Wanted::Holds),
    (
        b"always\nat most 1 Rwait(_) answered by 1",
        1000,
        Wanted::Fails(&[Mark::Answer, Mark::Answer]),
    ),
    (
        b"always\nat most 0 Rwait(_) answered by 0",
        1000,
        Wanted::Holds,
    ),
    (b"always\nends Halted by 1", 1000, Wanted::Holds),
    (b"always\nends Halted by 0", 1000, Wanted::Fails(&[])),
    (
        b"always\npublished 2 only after published 1",
        1000,
        Wanted::Fails(&[Mark::Published(2), Mark::Published(1)]),
    ),
    (
        b"always\npublished 1 only after published 2",
        1000,
        Wanted::Fails(&[Mark::Published(1), Mark::Published(2)]),
    ),
    (
        b"always\npublished 1 only after published 2",
        3,
        Wanted::TooMany,
    ),
];

// What a separate search for the first claim of a text answers, through `most` states at most and in runs of up to 1,000 entries. `race` is the
// program `RACE`. None if the text is no test with a claim.
fn searched(
    alloc: Global,
    race: &Loaded,
    text: &[u8],
    most: usize,
) -> Result<Option<ClaimSearched>, AllocError> {
    let (program, answers) = (&race.program, &race.answers);
    let Ok(test) = read_test(alloc, text, answers) else {
        return Ok(None);
    };
    let Some(claim) = test.claims.first() else {
        return Ok(None);
    };
    let sites = WAITS;
    let found = search_claim(alloc, program, answers, &sites, claim, most, 1000)?;
    Ok(Some(found))
}

// Each search answers as its row says.
#[test]
fn a_claim_is_searched_for_in_every_schedule(rt: HostRuntime) -> Result<(), Fail> {
    let alloc = rt.alloc();
    let race = load(alloc, RACE, b"").expect(&rt, "a program");
    for (text, most, wanted) in CLAIMS.iter() {
        let found = searched(alloc, &race, text, *most)?;
        assert!(rt;
            matches!(&found, Some(found) if is_wanted(found, *wanted)),
            "{text:?}"
        );
    }
    Ok(())
}

// What one explorer finds for three claims, one after another, each through 1,000 states at most and in runs of up to 1,000 entries. None if the text
// is no test with three claims, which doesn't come.
fn searched_in_turn(
    alloc: Global,
    race: &Loaded,
) -> Result<Option<[ClaimSearched; 3]>, AllocError> {
    let text =
        b"always\nat most 1 Rwait(_) answered\npublished 2 only after published 1\nat most 2 Rwait(_) answered";
    let Ok(test) = read_test(alloc, text, &race.answers) else {
        return Ok(None);
    };
    let [once, ordered, twice] = test.claims.as_slice() else {
        return Ok(None);
    };
    let sites = WAITS;
    let mut explorer = Explorer::new(alloc, &race.program, &race.answers)?;
    let first = explorer.search_claim(alloc, &sites, once, 1000, 1000)?;
    let second = explorer.search_claim(alloc, &sites, ordered, 1000, 1000)?;
    let third = explorer.search_claim(alloc, &sites, twice, 1000, 1000)?;
    Ok(Some([first, second, third]))
}

// One explorer answers what separate searches do (`CLAIMS`): what it keeps of one search doesn't change the next. Every run breaks the first claim,
// since both waits are answered; some break the second, since 2 may be published first; and none the third, since there are only two waits.
#[test]
fn one_explorer_searches_for_many_claims(rt: HostRuntime) -> Result<(), Fail> {
    let race = load(rt.alloc(), RACE, b"").expect(&rt, "a program");
    let found = searched_in_turn(rt.alloc(), &race)?;
    assert!(rt;
        matches!(&found, Some([once, ordered, twice])
            if is_wanted(once, Wanted::Fails(&[Mark::Answer, Mark::Answer]))
                && is_wanted(ordered, Wanted::Fails(&[Mark::Published(2), Mark::Published(1)]))
                && is_wanted(twice, Wanted::Holds))
    );
    Ok(())
}
