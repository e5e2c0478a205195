//! What claims see of runs, and what a tally (the counts over many runs) says of them. A *way* is one choice of how a test's services answer, an
//! *order* a number that decides whose turn comes. A *trial* is a run in one way and one order; both have numbers from 0.

use orc_claims::claim::{Claim, Plain};
use orc_claims::happening::{Happening, Occurrence, Phase};
use orc_claims::{Judged, Verdict};
use orc_journal::{Journal, Version};
use orc_rules::limits::MOST_ARGUMENTS;
use orc_rules::value::Value;
use orc_tally::{ClaimSite, Failure, Told, happenings_of, joined, noted, nothing_told};
use std::alloc::{AllocError, Global};
use std::test::Fail;

// What a run says of a claim that fails at what happens at place 3, from 0, and was put to the test: something happened that it is about.
const FAILS: Judged = Judged {
    verdict: Verdict::FailsAt(3),
    tested: true,
};

// What a run says of a claim that holds and wasn't put to the test.
const HOLDS: Judged = Judged {
    verdict: Verdict::Holds,
    tested: false,
};

// What a tally says of one claim before the first trial. The claim is `ends Halted`; what it says makes no difference here.
fn nothing(alloc: Global) -> Result<Vec<Told>, AllocError> {
    let ends = Claim {
        conditions: Vec::new(alloc),
        plain: Plain::Ends(true, false, None),
    };
    let claims = vec![in alloc; ends]?;
    nothing_told(alloc, claims.as_slice())
}

// A way counts once, however many of its orders fail, and the first of these is kept.
#[test]
fn a_way_that_fails_twice_is_one_way(rt: HostRuntime) -> Result<(), Fail> {
    let alloc = rt.alloc();
    let nothing = nothing(alloc)?;
    // Way 5 in the orders 0, 1 and 2: the claim holds in the first and fails in the others.
    let holds = noted(alloc, 5, 0, nothing.as_slice(), &[HOLDS])?;
    let fails = noted(alloc, 5, 1, holds.as_slice(), &[FAILS])?;
    let told = noted(alloc, 5, 2, fails.as_slice(), &[FAILS])?;
    let first = Failure {
        way: 5,
        order: 1,
        verdict: Verdict::FailsAt(3),
    };
    let wanted = Told {
        failing: 1,
        first: Some(first),
        tested: true,
    };
    assert_eq!(rt; told.first().copied(), Some(wanted));
    // Two tallies of a way each have two failing ways together, and the first failure of the first one.
    let twice = joined(alloc, told.as_slice(), told.as_slice())?;
    assert_eq!(rt;
        twice.first().copied(),
        Some(Told {
            failing: 2,
            first: Some(first),
            tested: true
        })
    );
    Ok(())
}

// The value that stands for each argument of a call here.
const ONE: Value = Value::Number(1);

// Site 7 as claims name it: with two arguments it has the number 0, with one argument 1.
const SITES: [ClaimSite; 2] = [
    ClaimSite {
        site: 7,
        arguments: 2,
    },
    ClaimSite {
        site: 7,
        arguments: 1,
    },
];

// The number that claims have for a site of the program's table that is called with these arguments, as the only call of a journal shows. None if the
// call isn't seen, which doesn't come.
fn number_of(alloc: Global, site: u32, arguments: &[Value]) -> Result<Option<u32>, AllocError> {
    // `push_call` requires this. No call here has so many.
    if arguments.len() > MOST_ARGUMENTS {
        return Err(AllocError);
    }
    let mut journal = Journal::new(alloc, Version::Two);
    // Token 1 makes call 1.
    journal.push_call(1, 1, site, arguments)?;
    let sites = SITES;
    let happenings = happenings_of(alloc, &sites, &journal)?;
    match happenings.as_slice() {
        [
            Happening {
                what: Occurrence::Call(number, _, Phase::Called),
                ..
            },
        ] => Ok(Some(*number)),
        _ => Ok(None),
    }
}

// Calls by their site and how many arguments they have, and the numbers that claims have for them: 2, behind the last one, for each that no claim
// names.
const NUMBERS: [(u32, usize, u32); 4] = [(7, 1, 1), (7, 2, 0), (7, 3, 2), (8, 1, 2)];

#[test]
fn a_site_has_a_number_for_each_number_of_arguments(rt: HostRuntime) -> Result<(), Fail> {
    let ones = [ONE, ONE, ONE];
    for (site, arguments, wanted) in NUMBERS.iter() {
        let number = number_of(rt.alloc(), *site, &ones[..*arguments])?;
        assert!(rt; number == Some(*wanted), "{site} {arguments}: {number:?}");
    }
    Ok(())
}
