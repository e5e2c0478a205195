//! Worked cases of tests: their ways (scripts that take one alternative of each service), and how the ranges of failing ways are written. The first
//! alternative of a line is the usual one. The errors are refused memory.

use orc_cases::Ways;
use orc_rules::answers::Answers;
use orc_ways::read_test;
use std::alloc::{AllocError, Global};
use std::test::Fail;

// The ways of a text's first case. None if the text is no test, or the case has too many ways.
fn ways_of(alloc: Global, text: &[u8]) -> Result<Option<Ways>, AllocError> {
    // The built-in sites: a test needs no service for these.
    let others = Answers::builtin(alloc)?;
    match read_test(alloc, text, &others) {
        Ok(test) => Ways::of_case(alloc, &test, 0),
        Err(_) => Ok(None),
    }
}

// The scripts of the ways of a text's first case, in order, each behind a line `way`, its unusual lines, and a line `-`. Empty where `ways_of` gives
// None.
fn scripts_of(alloc: Global, text: &[u8]) -> Result<Vec<u8>, AllocError> {
    let mut told = Vec::new(alloc);
    let Some(ways) = ways_of(alloc, text)? else {
        return Ok(told);
    };
    // The scripts of all ways. `b""`: no other lines stand between those of the case's services and the lines `NAME() = halt` of the others.
    let scripts = ways.scripts(alloc, ways.count(), b"")?;
    for (number, script) in scripts.iter().enumerate() {
        told.extend_from_slice(b"way\n")?;
        told.extend_from_slice(ways.unusual(alloc, number as u64)?.as_slice())?;
        told.extend_from_slice(b"-\n")?;
        told.extend_from_slice(script.as_slice())?;
    }
    Ok(told)
}

// Tests, and the ways of their first cases, as `scripts_of` writes them: behind a line `way` the unusual lines of the way, and behind a line `-` its
// script. Those with fewer unusual lines come first, and of these those with fewer unusual calls.
const WAYS: [(&[u8], &[u8]); 4] = [
    // The three alternatives of A with the two of B make six ways.
    (
        b"case c\nA(_) = 1 | 2 | never\nB(1, true) = 4 after 3 | halt after 7\n",
        b"way\n-\nA(_) = 1\nB(1, true) = 4 after 3\n\
        way\nA(_) = 2\n-\nA(_) = 2\nB(1, true) = 4 after 3\n\
        way\nA(_) = never\n-\nA(_) = never\nB(1, true) = 4 after 3\n\
        way\nB(1, true) = halt after 7\n-\nA(_) = 1\nB(1, true) = halt after 7\n\
        way\nA(_) = 2\nB(1, true) = halt after 7\n-\nA(_) = 2\nB(1, true) = halt after 7\n\
        way\nA(_) = never\nB(1, true) = halt after 7\n-\nA(_) = never\nB(1, true) = halt after 7\n",
    ),
    // A service whose calls are answered independently of each other: its two calls make four ways, and with the two alternatives of B eight.
    (
        b"case c\nA() = 1 | 2 in each of 2 calls\nB() = 3 | 4\n",
        b"way\n-\nA() = 1 then 1\nB() = 3\n\
        way\nA() = 1 then 2\n-\nA() = 1 then 2\nB() = 3\n\
        way\nA() = 2 then 1\n-\nA() = 2 then 1\nB() = 3\n\
        way\nB() = 4\n-\nA() = 1 then 1\nB() = 4\n\
        way\nA() = 2 then 2\n-\nA() = 2 then 2\nB() = 3\n\
        way\nA() = 1 then 2\nB() = 4\n-\nA() = 1 then 2\nB() = 4\n\
        way\nA() = 2 then 1\nB() = 4\n-\nA() = 2 then 1\nB() = 4\n\
        way\nA() = 2 then 2\nB() = 4\n-\nA() = 2 then 2\nB() = 4\n",
    ),
    // Each number of a range is a way of its own. A delay of 0 isn't written.
    (
        b"case c\nA() = 1 after 0..1 then -2 after 5..6 | halt\n",
        b"way\nA() = 1 then -2 after 5\n-\nA() = 1 then -2 after 5\n\
        way\nA() = 1 then -2 after 6\n-\nA() = 1 then -2 after 6\n\
        way\nA() = 1 after 1 then -2 after 5\n-\nA() = 1 after 1 then -2 after 5\n\
        way\nA() = 1 after 1 then -2 after 6\n-\nA() = 1 after 1 then -2 after 6\n\
        way\nA() = halt\n-\nA() = halt\n",
    ),
    // Lines of `given` follow those of the case, except those that the case's own replace; a call that only another case answers halts.
    (
        b"given\nA(_) = 1\nB(_, 1) = 2\nB(_, _) = 3\ncase c\nB(_, 1) = signal\nC(-7) = false\ncase d\nD() = 1\nA(1) = 1\nE() = 4\nD(_) = 2\n",
        b"way\n-\nB(_, 1) = signal\nC(-7) = false\nA(_) = 1\nB(_, _) = 3\nD() = halt\nE() = halt\n",
    ),
];

// The first case of each text has the ways of its row, in this order.
#[test]
fn a_case_has_its_ways_in_order(rt: HostRuntime) -> Result<(), Fail> {
    for (text, wanted) in WAYS.iter() {
        let told = scripts_of(rt.alloc(), text)?;
        assert!(rt; told.as_slice() == *wanted, "{text:?}: {told:?}");
    }
    Ok(())
}

// Tests, and how many ways their first cases have: None where they are over a million. Each number of a range is an alternative of its own. The third
// has one too many, the fourth 32 to the power of 4, and the fifth 31 squared. A case without lines has one way.
const SIZES: [(&[u8], Option<u64>); 6] = [
    (b"case c\nA() = 1 after 0..9223372036854775807\n", None),
    (b"case c\nA() = 1 after 1..100\n", Some(100)),
    (b"case c\nA() = 1 after 0..1000000\n", None),
    (
        b"case c\nA() = 1 after 1..31 | 0 in each of 4 calls\n",
        None,
    ),
    (
        b"case c\nA() = 1 after 1..30 | 0 in each of 2 calls\nB() = 1\n",
        Some(961),
    ),
    (b"case c\n", Some(1)),
];

// `ways_of` gives None for a case with too many ways.
#[test]
fn a_case_has_so_many_ways(rt: HostRuntime) -> Result<(), Fail> {
    for (text, wanted) in SIZES.iter() {
        let size = ways_of(rt.alloc(), text)?.map(|ways| ways.count());
        assert!(rt; size == *wanted, "{text:?}: {size:?}");
    }
    Ok(())
}

// Whether the script `wanted` is one of these.
fn is_among(scripts: &[&[u8]], wanted: &[u8]) -> bool {
    for script in scripts {
        if *script == wanted {
            return true;
        }
    }
    false
}

// What is written of the ranges of the first way, that of number 0, if the ways with the scripts `failing` fail and no others. Empty where `ways_of`
// gives None.
fn ranges_told(alloc: Global, text: &[u8], failing: &[&[u8]]) -> Result<Vec<u8>, AllocError> {
    let Some(ways) = ways_of(alloc, text)? else {
        return Ok(Vec::new(alloc));
    };
    let scripts = ways.scripts(alloc, ways.count(), b"")?;
    let mut fails = Vec::new(alloc);
    for script in scripts.iter() {
        fails.push(is_among(failing, script.as_slice()))?;
    }
    // 0 is the number of the way whose ranges are written.
    ways.failing_ranges(alloc, 0, fails.as_slice())
}

// Tests, the scripts of ways that fail, and what is written of the ranges of the first way: consecutive numbers are one interval. If no way fails,
// nothing follows the word `after`.
const FAILING: [(&[u8], &[&[u8]], &[u8]); 5] = [
    (b"case c\nA() = 1 after 3..9\n", &[], b"A() = 1 after \n"),
    (
        b"case c\nA() = 1 after 3..9\n",
        &[b"A() = 1 after 4\n"],
        b"A() = 1 after 4\n",
    ),
    (
        b"case c\nA() = 1 after 3..9\n",
        &[
            b"A() = 1 after 3\n",
            b"A() = 1 after 4\n",
            b"A() = 1 after 5\n",
            b"A() = 1 after 9\n",
        ],
        b"A() = 1 after 3..5, 9\n",
    ),
    // Several scripts that fail may have the same number in A's line. It is written once, and so 0, 2, 3 and 7 are.
    (
        b"case c\nA() = 1 after 0..7\nB() = 1 | 2 | 3\n",
        &[
            b"A() = 1\nB() = 1\n",
            b"A() = 1\nB() = 2\n",
            b"A() = 1 after 2\nB() = 1\n",
            b"A() = 1 after 2\nB() = 3\n",
            b"A() = 1 after 3\nB() = 1\n",
            b"A() = 1 after 3\nB() = 2\n",
            b"A() = 1 after 3\nB() = 3\n",
            b"A() = 1 after 7\nB() = 1\n",
        ],
        b"A() = 1 after 0, 2..3, 7\n",
    ),
    // The greatest numbers that a text may have, which touch, too.
    (
        b"case c\nA() = 1 after 9223372036854775806..9223372036854775807\n",
        &[
            b"A() = 1 after 9223372036854775806\n",
            b"A() = 1 after 9223372036854775807\n",
        ],
        b"A() = 1 after 9223372036854775806..9223372036854775807\n",
    ),
];

#[test]
fn numbers_that_touch_are_one_interval(rt: HostRuntime) -> Result<(), Fail> {
    for (text, failing, wanted) in FAILING.iter() {
        let told = ranges_told(rt.alloc(), text, failing)?;
        assert!(rt; told.as_slice() == *wanted, "{text:?}: {told:?}");
    }
    Ok(())
}
