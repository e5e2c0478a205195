//! What a search keeps of what happens for a claim, and how it judges the claim at the end of a run.

use orc_claims::claim::{Claim, Event, Plain};
use orc_claims::happening::{Happening, Occurrence, Phase};
use orc_outcome::End;
use orc_rules::answers::Answers;
use orc_rules::value::{Args, Value};
use orc_schedules::{Watch, fails_by};
use orc_ways::read_test;
use orc_ways::test::Test;
use std::alloc::{AllocError, Global};
use std::test::Fail;

// Reads a test. It is an error if the text is no test, or memory is refused.
fn test_of<'a>(alloc: Global, text: &'a [u8]) -> Result<Test<'a>, AllocError> {
    match read_test(alloc, text, &Answers::builtin(alloc)?) {
        Ok(test) => Ok(test),
        Err(_) => Err(AllocError),
    }
}

// What a search keeps for the claim of a test. None if a search can't watch for it. The errors are those of `test_of`, or that there is no claim.
fn watch_of(alloc: Global, text: &[u8]) -> Result<Option<Watch>, AllocError> {
    let test = test_of(alloc, text)?;
    match test.claims.first() {
        Some(claim) => Watch::of_claim(alloc, claim),
        None => Err(AllocError),
    }
}

// Claims, and for each the time from which on it makes no difference when something happens. It is 0 where the claim names no time. None if a search
// can't watch for the claim: it is about calls that pend at the same time, or asks for a cancel. Of `by 5` all times from 6 on are the same, and
// `within 5` tells all apart.
const LATEST: [(&[u8], Option<u64>); 7] = [
    (b"always\nat most 5 Rwait(_) at once", None),
    (
        b"always\nif no Rwait(_) cancelled then at most 1 Rwait(_)",
        None,
    ),
    (b"always\nat most 1 Rwait(_)", Some(0)),
    (b"always\nat most 1 Rwait(_) by 5", Some(6)),
    // The greatest number that a text may have, 2^63 - 1.
    (
        b"always\nat most 1 Rwait(_) by 9223372036854775807",
        Some(9_223_372_036_854_775_808),
    ),
    (b"always\nends Halted by 0", Some(1)),
    (
        b"always\neach Rwait(_) then Rwait(_) halted within 5",
        Some(u64::MAX),
    ),
];

// The time from which on it makes no difference when something happens, for a claim whose time is the greatest, 2^64 - 1. No text has such a claim.
fn latest_at_the_end(alloc: Global) -> Result<Option<u64>, AllocError> {
    let event = Event {
        alternatives: Vec::new(alloc),
    };
    // The event happens at least 0 times and at most once, up to the time 2^64 - 1.
    let claim = Claim {
        conditions: Vec::new(alloc),
        plain: Plain::Count(event, 0, Some(1), Some(u64::MAX)),
    };
    Ok(Watch::of_claim(alloc, &claim)?.map(|watch| watch.latest()))
}

#[test]
fn times_are_told_apart_up_to_the_one_behind_that_of_the_claim(
    rt: HostRuntime,
) -> Result<(), Fail> {
    for (text, wanted) in LATEST.iter() {
        let latest = watch_of(rt.alloc(), text)?.map(|watch| watch.latest());
        assert!(rt; latest == *wanted, "{text:?}: {latest:?}");
    }
    assert_eq!(rt; latest_at_the_end(rt.alloc())?, Some(u64::MAX));
    Ok(())
}

// A call of the only site that a claim names, whose number there is 0, with the argument 1; `phase` says what became of it.
fn call(phase: Phase) -> Occurrence {
    let mut args = Args::new();
    args.push(Value::Number(1));
    Occurrence::Call(0, args, phase)
}

// The claim names calls that are made or halt, and nothing else.
#[test]
fn what_conditions_name_is_kept(rt: HostRuntime) -> Result<(), Fail> {
    let text = b"always\nif Rwait(_) halted then at most 1 Rwait(_)";
    let watch = watch_of(rt.alloc(), text)?.expect(&rt, "a watch");
    assert!(rt; watch.names(&call(Phase::Called)));
    assert!(rt; watch.names(&call(Phase::Halted)));
    assert!(rt; !watch.names(&call(Phase::Answered(Value::Signal))));
    assert!(rt; !watch.names(&call(Phase::Cancelled)));
    assert!(rt; !watch.names(&Occurrence::Published(Value::Signal)));
    Ok(())
}

// Whether the first claim of a text fails in a run that ends so, at the time `now`, and calls the claim's site at the times `calls`.
fn fails(
    alloc: Global,
    text: &[u8],
    end: End,
    calls: &[u64],
    now: u64,
) -> Result<bool, AllocError> {
    let mut seen = Vec::new(alloc);
    for time in calls {
        seen.push(Happening {
            time: *time,
            what: call(Phase::Called),
        })?;
    }
    let test = test_of(alloc, text)?;
    match test.claims.first() {
        Some(claim) => fails_by(alloc, claim, end, seen.as_slice(), now),
        None => Err(AllocError),
    }
}

// Claims, the end of a run, when it calls the claim's site, its last time, and whether the claim fails in it. An end just at the time that a claim
// names is by that time. Of the calls at 2 and 4 only the first is by 3.
const ENDS: [(&[u8], End, &[u64], u64, bool); 5] = [
    (b"always\nat most 1 Rwait(_)", End::Halted, &[2], 5, false),
    (b"always\nat most 1 Rwait(_)", End::Quiet, &[2, 4], 5, true),
    (
        b"always\nat most 1 Rwait(_) by 3",
        End::Quiet,
        &[2, 4],
        5,
        false,
    ),
    (b"always\nends Halted by 20", End::Halted, &[], 20, false),
    (b"always\nends Halted by 20", End::Halted, &[], 21, true),
];

#[test]
fn a_second_call_or_a_late_end_fails_a_claim(rt: HostRuntime) -> Result<(), Fail> {
    for (text, end, calls, now, wanted) in ENDS.iter() {
        let fails = fails(rt.alloc(), text, *end, calls, *now)?;
        assert!(rt; fails == *wanted, "{text:?} with calls at {calls:?}");
    }
    Ok(())
}
