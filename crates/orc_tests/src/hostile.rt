//! Sites that answer late, never or wrongly, that hold their calls, and that are refused memory, on several workers. A wrong or missing answer ends
//! the run with the fault `Site` of that call, whose code is E5. A *gate* is what each call passes before it is made. A journal is *accepted* if the
//! check finds that it follows the rules.

use crate::gates::{Board, Counts, Hold, Manner, Noting, Odd, Slow, Turnstile, Twist, Twisted};
use crate::pools::{is_accepted, keeping, play};
use orc_journal::Journal;
use orc_load::load;
use orc_outcome::{End, Played};
use orc_rules::entry::Entry;
use orc_rules::value::Value;
use orc_site::{Gate, Open, Scripted};
use orc_workers::{EngineFault, run_pool};
use std::alloc::{AllocError, Global};
use std::sync::Wait;
use std::test::Fail;
use std::thread::Threads;

// The script of all runs here but those of `by_twisted`, which have none.
const NEVER: &[u8] = b"Never() = never\n";

// Makes a run with sites that differ from those of the table in this way, and gives its result. None if the text is no program. The limit of 1,000
// entries is far more than the runs have.
fn by_twisted<R: Threads + Wait + Sync, G: Gate + Sync>(
    rt: &R,
    alloc: Global,
    source: &[u8],
    twist: Twist<'_>,
    gate: &G,
    workers: usize,
) -> Option<Result<Played, EngineFault>> {
    let loaded = load(alloc, source, b"").ok()?;
    let sites = Twisted {
        scripted: Scripted::new(&loaded.answers),
        twist,
    };
    let (program, answers) = (&loaded.program, &loaded.answers);
    let options = keeping(workers, 1000);
    Some(run_pool(rt, alloc, program, answers, &sites, gate, options))
}

// Programs, and how the sites answer their call as if it were another one. `Add` and `Rwait` without arguments halt, where the table has a value; a
// later call is due at another time, and a call at the greatest time never.
const LIES: [(&[u8], Twist<'static>); 4] = [
    (b"Add(1, 1)", Twist::Value),
    (b"Rwait(1) >> 1", Twist::Value),
    (b"Rwait(1) >> 1", Twist::Time),
    (b"Rwait(1) >> 1", Twist::Never),
];

// Each run ends with the fault that call 1 was answered otherwise than the table says: `Site(1)`. The gate is open, but sites that don't go by the
// table are called all the same.
#[test]
fn answers_of_other_calls_are_found(rt: HostRuntime) {
    for (source, twist) in LIES.iter() {
        for workers in [1, 2, 4, 16] {
            let run = by_twisted(&rt, rt.alloc(), source, *twist, &Open, workers);
            assert!(rt;
                matches!(&run, Some(Err(EngineFault::Site(1)))),
                "{source:?} on {workers}"
            );
        }
    }
}

// Makes a run whose sites answer calls in this manner, and gives its result. None if the text is no program.
fn by_odd<R: Threads + Wait + Sync>(
    rt: &R,
    alloc: Global,
    source: &[u8],
    manner: Manner,
    workers: usize,
) -> Option<Result<Played, EngineFault>> {
    let loaded = load(alloc, source, NEVER).ok()?;
    let sites = Odd {
        answers: &loaded.answers,
        manner,
    };
    let (program, answers) = (&loaded.program, &loaded.answers);
    let options = keeping(workers, 100);
    Some(run_pool(rt, alloc, program, answers, &sites, &Open, options))
}

// Programs, and how the sites answer their calls. By the table `Add(1, 1)` answers 2 at once, and `Rwait` a signal after 1 or 7 units: the sites
// answer 0 or nothing in its place. In the last two rows the call of `Never` is never due.
const SILENT: [(&[u8], Manner); 6] = [
    (b"Add(1, 1)", Manner::Zero),
    (b"Add(1, 1)", Manner::Nothing),
    (b"Rwait(1) >> 1", Manner::Zero),
    (b"Rwait(1) >> 1", Manner::Nothing),
    (b"Rwait(7) | Never()", Manner::Zero),
    (b"Rwait(7) | Never()", Manner::Nothing),
];

// Each run ends with the fault that call 1 was answered otherwise than the table says, or not when it was due.
#[test]
fn calls_that_answer_zero_or_nothing_are_found(rt: HostRuntime) {
    for workers in [1, 2, 4, 16] {
        for (source, manner) in SILENT.iter() {
            let run = by_odd(&rt, rt.alloc(), source, *manner, workers);
            assert!(rt;
                matches!(&run, Some(Err(EngineFault::Site(1)))),
                "{source:?} on {workers}"
            );
        }
        // A call that is never due need not answer: the run publishes 1 and waits forever, so it is Quiet.
        let run = by_odd(&rt, rt.alloc(), b"Never() | 1", Manner::Nothing, workers);
        assert!(rt;
            matches!(&run, Some(Ok(played)) if played.summary.end == End::Quiet),
            "on {workers}"
        );
    }
}

// A call that passed the gate and was made, each once.
const MADE: Counts = Counts {
    passed: 1,
    made: 1,
    cancelled: 0,
};

// A call that passed the gate and was made, and whose cancel was reported, each once.
const MADE_AND_CANCELLED: Counts = Counts {
    passed: 1,
    made: 1,
    cancelled: 1,
};

// Whether each call of a journal passed the gate and was made once, and just those that the journal cancels were reported as cancelled, once each.
// The first loop finds that each call that the journal cancels was reported, and counts these; the second one finds that no others were.
fn are_told(board: &Board, journal: &Journal) -> bool {
    let (mut calls, mut cancels) = (0u64, 0u64);
    for at in 0..journal.len() {
        match journal.get(at) {
            Some(Entry::Call(_, _, _, _)) => calls = calls.saturating_add(1),
            Some(Entry::Cancel(number)) if board.counts(number) == MADE_AND_CANCELLED => {
                cancels = cancels.saturating_add(1);
            }
            // A cancel that wasn't reported, or more than once.
            Some(Entry::Cancel(_)) => return false,
            // Other entries bear on no call's counts.
            _ => {}
        }
    }
    // Calls are numbered from 1. `cancels` counts down: each call that was reported as cancelled takes one, so in the end none may be left.
    for number in 1..calls.saturating_add(1) {
        let counts = board.counts(number);
        if counts == MADE_AND_CANCELLED && cancels > 0 {
            cancels = cancels.saturating_sub(1);
        } else if counts != MADE {
            return false;
        }
    }
    cancels == 0
}

// Makes a run whose sites and gate note on the board what the engine reports to them. `hold` says where call 1 is held until it is cancelled, and
// `answers_late` whether a cancelled call still answers. None if the run ends with a fault, or the text is no program.
fn noted<R: Threads + Wait + Sync>(
    rt: &R,
    alloc: Global,
    source: &[u8],
    board: &Board,
    hold: Hold,
    answers_late: bool,
    workers: usize,
) -> Option<Played> {
    let loaded = load(alloc, source, NEVER).ok()?;
    let sites = Noting {
        answers: &loaded.answers,
        board,
        hold,
        answers_late,
    };
    let (program, answers) = (&loaded.program, &loaded.answers);
    let options = keeping(workers, 100_000);
    run_pool(rt, alloc, program, answers, &sites, &sites, options).ok()
}

// Whether a run, in which no call is held, halts, its journal is accepted, and its sites get each call and cancel. The board has a note for each
// call: no program of `TOLD` makes 200.
fn is_told<R: Threads + Wait + Sync>(
    rt: &R,
    alloc: Global,
    source: &[u8],
    workers: usize,
) -> Result<bool, AllocError> {
    let board = Board::new(alloc, 200)?;
    let Some(run) = noted(rt, alloc, source, &board, Hold::Nowhere, false, workers) else {
        return Ok(false);
    };
    let is_right = run.summary.end == End::Halted && is_accepted(alloc, source, NEVER, &run);
    match &run.journal {
        Some(journal) => Ok(is_right && are_told(&board, journal)),
        None => Ok(false),
    }
}

// Programs that halt, with calls of which some may be cancelled.
const TOLD: [&[u8]; 6] = [
    // In each of these three x gets the first value, and the calls that pend then are cancelled. In the third all four are due at the same time, so
    // other calls than the first may have been answered before, too.
    b"x <x< (Rwait(2) >> 20 | Rwait(1) >> 10)",
    b"x <x< (Rwait(5) | Rwait(9) | Rwait(7))",
    b"x <x< (Rwait(5) | Rwait(5) | (Rwait(5) | Rwait(5)))",
    // x gets 1 at time 1. The calls of `Never` and `Rwait(3)`, in branches of the side that is dropped then, are cancelled.
    b"x <x< (Rwait(1) >> 1 | (y <y< (Never() | Rwait(3))) | (Never() ; 2))",
    // Races one after another, nine in the first loop and five in the second. In each of them n wins, and up to two calls are cancelled.
    b"def loop(n) = Lt(n, 9) >b> (Iff(b) >> n | Ift(b) >> (x <x< (n | Never() | Rwait(5))) >> Add(n, 1) >m> loop(m))\nloop(0) | loop(4)",
    // Two races beside each other, whose calls are answered at once. Which of them are cancelled depends on the order.
    b"(x <x< (Add(1, 1) | Add(2, 2) | Add(3, 3))) | (y <y< (Add(4, 4) | Add(5, 5)))",
];

// On one worker and on several, the sites get each call and each cancel once.
#[test]
fn sites_are_told_of_each_call_and_cancel(rt: HostRuntime) -> Result<(), Fail> {
    for source in TOLD.iter() {
        for workers in [1, 2, 4, 16] {
            assert!(rt;
                is_told(&rt, rt.alloc(), source, workers)?,
                "{source:?} on {workers}"
            );
        }
    }
    Ok(())
}

// Whether a run has halted and published this number alone.
fn halts_with(played: &Played, number: i64) -> bool {
    played.summary.end == End::Halted
        && played.published.as_slice() == [Value::Number(number)].as_slice()
}

// Whether a run in which call 1 is held until its cancel is reported halts, and publishes 4 alone. The board's 20 notes are more than the runs have
// calls.
fn counts_no_more<R: Threads + Wait + Sync>(
    rt: &R,
    alloc: Global,
    source: &[u8],
    hold: Hold,
    answers_late: bool,
    workers: usize,
) -> Result<bool, AllocError> {
    let board = Board::new(alloc, 20)?;
    match noted(rt, alloc, source, &board, hold, answers_late, workers) {
        Some(run) => {
            Ok(halts_with(&run, 4) && board.held_all() && board.counts(1) == MADE_AND_CANCELLED)
        }
        None => Ok(false),
    }
}

// Programs that publish 4 alone if call 1 is held until it is cancelled: call 1 is in the branch that would publish another value.
const CANCELLED: [&[u8]; 3] = [
    // While call 1 is held the other branch publishes 4, which ends the race: so call 1 is cancelled. In the second program it is due at time 1, and
    // polled again then. In the third the 4 comes of a race inside the other one.
    b"x <x< (Add(1, 1) | Add(2, 2))",
    b"x <x< (Rwait(1) >> 1 | Rwait(1) >> 4)",
    b"x <x< (Add(1, 1) | Rwait(0) >> (y <y< (Add(2, 2) | Rwait(1))))",
];

// Where a call is held, and whether it answers once it was cancelled.
const HOLDS: [(Hold, bool); 6] = [
    (Hold::Gate, false),
    (Hold::Gate, true),
    (Hold::Call, false),
    (Hold::Call, true),
    (Hold::Poll, false),
    (Hold::Poll, true),
];

// Call 1 is held until its cancel is reported: before it passes the gate, while it is made, or while it is polled. Whether it answers then or not,
// its answer has no effect on the run.
#[test]
fn a_call_that_was_cancelled_counts_no_more(rt: HostRuntime) -> Result<(), Fail> {
    for source in CANCELLED.iter() {
        for (hold, answers_late) in HOLDS.iter() {
            // One worker could make no other call while it holds this one.
            for workers in [2, 4, 16] {
                assert!(rt;
                    counts_no_more(&rt, rt.alloc(), source, *hold, *answers_late, workers)?,
                    "{source:?} on {workers}, answers late: {answers_late}"
                );
            }
        }
    }
    Ok(())
}

// How many races come one after another.
const RACES: i64 = 3_200;

// How many calls have to come to the gate until it lets the held call go. A race has four to six calls, and two calls come before the races: so the
// held call goes on after 2,099 races at least, and, since 3,200 races have 12,800 calls at least, before the run ends.
const OPENS_AT: u64 = 12_600;

// Whether the run, whose call 1 is in a side that is dropped at once, halts and publishes `RACES` alone, and the held call 1 doesn't give up. A group
// is what runs in one side, and a word is the counter of one group. The call is held while more groups are dropped than there are words, 2,048: their
// words must become free all the same. A race has at most 25 entries, so the limit of 100,000 isn't reached.
fn takes_no_group<R: Threads + Wait + Sync>(rt: &R, alloc: Global, workers: usize) -> bool {
    let source =
        b"def loop(n) = Lt(n, 3200) >b> (Iff(b) >> n | Ift(b) >> (x <x< (n | Never() | Rwait(5))) >> Add(n, 1) >m> loop(m))
(y <y< (Add(1, 1) | Rwait(0) >> 7)) >> loop(0)";
    let Ok(loaded) = load(alloc, source, NEVER) else {
        return false;
    };
    let gate = Turnstile::new(1, 1, OPENS_AT);
    match play(rt, alloc, &loaded, &gate, workers, 100_000) {
        Ok(played) => halts_with(&played, RACES) && gate.held_all(),
        Err(_) => false,
    }
}

// The run publishes how many races there were, and the held call didn't give up.
#[test]
fn a_held_call_takes_no_group(rt: HostRuntime) {
    for workers in [2, 4, 16] {
        assert!(rt; takes_no_group(&rt, rt.alloc(), workers), "on {workers}");
    }
}

// Whether a journal has the cancel of the call with the number `wanted`, from 1.
fn cancels(journal: &Journal, wanted: u64) -> bool {
    for at in 0..journal.len() {
        if matches!(journal.get(at), Some(Entry::Cancel(number)) if number == wanted) {
            return true;
        }
    }
    false
}

// Whether a run whose sites are refused memory for one of its five calls, that with this number, ends with `Memory`. It may also halt, if another
// worker's bind has cancelled the call before the refusal is reported.
fn ends_refused<R: Threads + Wait + Sync>(
    rt: &R,
    alloc: Global,
    number: u64,
    workers: usize,
) -> bool {
    let source = b"(x <x< (Rwait(2) >> 20 | Rwait(1) >> Add(5, 5))) | (Ift(false) ; Add(1, 2))";
    let Some(Ok(run)) = by_twisted(rt, alloc, source, Twist::Refused(number), &Slow, workers) else {
        return false;
    };
    let Some(journal) = &run.journal else {
        return false;
    };
    // The refusal came too late to end the run: the call was cancelled before.
    let is_late = run.summary.end == End::Halted && cancels(journal, number);
    is_accepted(alloc, source, b"", &run) && (is_late || run.summary.end == End::Memory)
}

// Whichever of the five calls is refused memory, the run ends so, and its journal is accepted.
#[test]
fn sites_may_be_refused_memory(rt: HostRuntime) {
    for workers in [1, 2, 4, 16] {
        for number in 1..6u64 {
            assert!(rt;
                ends_refused(&rt, rt.alloc(), number, workers),
                "{number} on {workers}"
            );
        }
    }
}
