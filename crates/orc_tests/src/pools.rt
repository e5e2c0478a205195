//! Runs on several workers: what they publish and how they end, whatever their gate and sites are, and that they do what the reference engine does. A
//! *gate* is what each call passes before it is made, and may hold it; the *table* has the answers of the script and of built-in sites. A gate that
//! isn't open, or sites that don't go by the table, make the workers hold the run's tokens; otherwise `run_pool` runs the program as `run_parallel`
//! does.

use crate::gates::{Slow, Turnstile, Twist, Twisted};
use orc_engine::run_alone;
use orc_load::{Loaded, load};
use orc_orders::survey;
use orc_outcome::{End, Played};
use orc_reference::play as play_plainly;
use orc_rules::entry::State;
use orc_rules::value::Value;
use orc_site::{Gate, Open, Scripted};
use orc_verdict::check_journal;
use orc_workers::{EngineFault, RunOptions, run_pool};
use std::alloc::Global;
use std::sync::Wait;
use std::test::Fail;
use std::thread::Threads;

// The limit of the runs here: more entries than any of them has.
const LIMIT: u64 = 10_000;

/// The options of a run that keeps its journal: how many workers it has, and the most entries, cancels not counted.
pub(crate) fn keeping(workers: usize, limit: u64) -> RunOptions {
    RunOptions {
        workers,
        keeps: true,
        limit,
    }
}

/// A run with sites that answer as the table says and with this gate. It keeps its journal, which has at most `limit` entries, cancels not counted.
/// The error is the engine's.
pub(crate) fn play<R: Threads + Wait + Sync, G: Gate + Sync>(
    rt: &R,
    alloc: Global,
    loaded: &Loaded,
    gate: &G,
    workers: usize,
    limit: u64,
) -> Result<Played, EngineFault> {
    let sites = Scripted::new(&loaded.answers);
    run_pool(
        rt,
        alloc,
        &loaded.program,
        &loaded.answers,
        &sites,
        gate,
        keeping(workers, limit),
    )
}

// How often `value` is among `values`.
fn times(value: &Value, values: &[Value]) -> u64 {
    let mut times = 0u64;
    for other in values {
        if other == value {
            times = times.saturating_add(1);
        }
    }
    times
}

// Whether both lists have the same values, each as often, in any order.
fn are_same(some: &[Value], others: &[Value]) -> bool {
    for value in some {
        if times(value, some) != times(value, others) {
            return false;
        }
    }
    some.len() == others.len()
}

/// The state (Halted, Quiet, Running) in which a run's journal leaves the program. None if the check refuses it, the run has no journal, or the texts
/// are no program and script.
pub(crate) fn state_of(
    alloc: Global,
    source: &[u8],
    script: &[u8],
    played: &Played,
) -> Option<State> {
    let Some(journal) = &played.journal else {
        return None;
    };
    let Ok(loaded) = load(alloc, source, script) else {
        return None;
    };
    match check_journal(alloc, &loaded.program, &loaded.answers, journal) {
        Ok(verdict) => Some(verdict.state),
        Err(_) => None,
    }
}

/// Whether the check accepts a run's journal. False also if the run has none, or the texts are no program and script.
pub(crate) fn is_accepted(alloc: Global, source: &[u8], script: &[u8], played: &Played) -> bool {
    state_of(alloc, source, script, played).is_some()
}

// How a run ends, and at what time, in logical units. `row` is a source, its script, and the values that the run has to publish, in any order. None
// if the run publishes others, or the check refuses its journal, or the run fails, or the texts don't load.
fn end_of<R: Threads + Wait + Sync, G: Gate + Sync>(
    rt: &R,
    alloc: Global,
    row: (&[u8], &[u8], &[Value]),
    gate: &G,
    workers: usize,
) -> Option<(End, u64)> {
    let (source, script, values) = row;
    let loaded = load(alloc, source, script).ok()?;
    let played = play(rt, alloc, &loaded, gate, workers, LIMIT).ok()?;
    if is_accepted(alloc, source, script, &played)
        && are_same(played.published.as_slice(), values)
    {
        Some((played.summary.end, played.summary.now))
    } else {
        None
    }
}

// Programs with their scripts. In each order that the rules allow a program here publishes the same values, though perhaps one before another.
const ORDERED: [(&[u8], &[u8]); 8] = [
    // It publishes 1, 12 and 13.
    (b"1 | (2 | 3) >x> Add(x, 10)", b""),
    // Each call of `tree` but those with 0 makes two more, and each of the 64 with 0 publishes 0.
    (
        b"def tree(n) = Lt(0, n) >b> (Iff(b) >> n | Ift(b) >> Sub(n, 1) >m> (tree(m) | tree(m)))\ntree(6)",
        b"",
    ),
    // 20 comes at time 3, and 1 at time 7. For each of them two calls race: for 20 the one of `A` wins, for 1 the one of `B`.
    (
        b"(A() | B()) >x> (y <y< (A() | Rwait(x) >> B()))",
        b"A() = 1 after 7\nB() = 20 after 3\n",
    ),
    // The calls with 0 and 1 halt. After each of them comes a wait, and then a call with the next number. The call with 2 answers 5.
    (
        b"def retry(n) = A(n) ; Lt(n, 3) >b> Ift(b) >> Rwait(2) >> Add(n, 1) >m> retry(m)\nretry(0)",
        b"A(2) = 5 after 1\nA(_) = halt after 4\n",
    ),
    // The clock publishes the numbers from 9 down to 1, one every three units.
    (
        b"def clock(n) = Lt(0, n) >b> Ift(b) >> (n | Rwait(3) >> Sub(n, 1) >m> clock(m))\nclock(9)",
        b"",
    ),
    // x is 3 at time 9, when `A()` halts; y is 2 at time 4. So the run publishes 5 at time 9.
    (
        b"(Add(x, y) <x< (A() ; 3)) <y< Rwait(4) >> 2",
        b"A() = halt after 9\n",
    ),
    // x is lost, so the left side of `;` halts. The right side publishes 4, and waits forever for the call of `Never`.
    (
        b"(Add(x, 1) <x< stop) ; ((x <x< Never()) | 4)",
        b"Never() = never\n",
    ),
    // The first line that matches answers, so both calls give 1, and `If(true)` gives a signal: the run publishes 1.
    (
        b"val a = A()\nval b = B()\nIf(Eq(a, b)) >> 1 ; Add(a, b)",
        b"A() = 1 after 2\nA() = 9\nB() = 1 after 8\nIf(true) = signal\nIf(false) = halt\n",
    ),
];

// Whether `run_alone`, which has no workers, publishes what the reference does, in any order, ends as it does, and at the same logical time. It is
// given no order, and needn't keep its journal.
fn is_as_alone(alloc: Global, loaded: &Loaded, reference: &Played) -> bool {
    match run_alone(alloc, &loaded.program, &loaded.answers, None, false, LIMIT) {
        Ok(played) => {
            are_same(reference.published.as_slice(), played.published.as_slice())
                && played.summary.end == reference.summary.end
                && played.summary.now == reference.summary.now
        }
        Err(_) => false,
    }
}

// Whether runs on one worker and on several publish what the reference does, and end as it does and when it does. The gate `Slow` makes the workers
// hold the run's tokens. None if the program doesn't load, or the reference doesn't run it.
fn do_as_the_reference<R: Threads + Wait + Sync>(
    rt: &R,
    alloc: Global,
    source: &[u8],
    script: &[u8],
) -> Option<bool> {
    let loaded = load(alloc, source, script).ok()?;
    let reference = play_plainly(alloc, &loaded.program, &loaded.answers, LIMIT).ok()?;
    let wanted = Some((reference.summary.end, reference.summary.now));
    let row = (source, script, reference.published.as_slice());
    for workers in [1, 2, 4, 16] {
        if end_of(rt, alloc, row, &Slow, workers) != wanted {
            return Some(false);
        }
    }
    Some(is_as_alone(alloc, &loaded, &reference))
}

// The reference engine runs each program in one order. The others may take another, but come to the same values, end and time.
#[test]
fn publishes_what_the_reference_does_on_any_number_of_workers(rt: HostRuntime) {
    for (source, script) in ORDERED.iter() {
        let are_same = do_as_the_reference(&rt, rt.alloc(), source, script);
        assert!(rt; are_same == Some(true), "{source:?}");
    }
}

// A program whose calls a `Turnstile` holds, and what comes of it. It halts only if each held call is made by a worker of its own: a worker that
// holds one makes no other.
#[derive(Clone, Copy)]
struct HeldRow {
    source: &'static [u8],
    // What the program publishes, in any order.
    values: &'static [Value],
    // The logical time at which the program halts.
    now: u64,
    // The calls with the numbers from `first` to `last`, from 1, are held until `wanted` calls have come.
    first: u64,
    last: u64,
    wanted: u64,
    // On each of these numbers of workers the program is run once. None is less than the number of calls that are held at a time.
    workers: &'static [usize],
}

// What the rows of `HELD` publish, here and in the four constants below: lists of numbers.
const TWO: &[Value] = &[Value::Number(2)];

const TWO_AND_FOUR: &[Value] = &[Value::Number(2), Value::Number(4)];

const THREE_AND_SEVEN: &[Value] = &[Value::Number(3), Value::Number(7)];

const FOUR_TWOS: &[Value] = &[
    Value::Number(2),
    Value::Number(2),
    Value::Number(2),
    Value::Number(2),
];

const FOUR: &[Value] = &[
    Value::Number(3),
    Value::Number(7),
    Value::Number(11),
    Value::Number(15),
];

// Rows of programs whose calls are held. The values are the sums of the `Add`.
const HELD: [HeldRow; 8] = [
    // Both calls are held until the other one was made.
    HeldRow {
        source: b"Add(1, 2) | Add(3, 4)",
        values: THREE_AND_SEVEN,
        now: 0,
        first: 1,
        last: 2,
        wanted: 2,
        workers: &[2],
    },
    // In this row and the two below four calls stand in different brackets. Each is held until all four have come.
    HeldRow {
        source: b"Add(1, 2) | Add(3, 4) | Add(5, 6) | Add(7, 8)",
        values: FOUR,
        now: 0,
        first: 1,
        last: 4,
        wanted: 4,
        workers: &[4, 16],
    },
    HeldRow {
        source: b"Add(1, 2) | (Add(3, 4) | (Add(5, 6) | Add(7, 8)))",
        values: FOUR,
        now: 0,
        first: 1,
        last: 4,
        wanted: 4,
        workers: &[4, 16],
    },
    HeldRow {
        source: b"(Add(1, 2) | Add(3, 4)) | (Add(5, 6) | Add(7, 8))",
        values: FOUR,
        now: 0,
        first: 1,
        last: 4,
        wanted: 4,
        workers: &[4, 16],
    },
    // The four `Rwait` are due at one time. Each `Add` is held until all four are made, and so until all four answers were taken.
    HeldRow {
        source: b"(Rwait(3) | Rwait(3) | Rwait(3) | Rwait(3)) >> Add(1, 1)",
        values: FOUR_TWOS,
        now: 3,
        first: 5,
        last: 8,
        wanted: 8,
        workers: &[4],
    },
    // The right side of an otherwise starts while another call is held. Here and below call 1 has to be the leftmost call: else no third one could
    // come.
    HeldRow {
        source: b"(Ift(false) ; Add(1, 1)) | Add(2, 2)",
        values: TWO_AND_FOUR,
        now: 0,
        first: 2,
        last: 3,
        wanted: 3,
        workers: &[2],
    },
    // Time passes while a call is held. The held call is due later than the one for which it waits, or at the same time.
    HeldRow {
        source: b"Rwait(5) >> stop | Rwait(1) >> Add(1, 1)",
        values: TWO,
        now: 5,
        first: 1,
        last: 1,
        wanted: 3,
        workers: &[2],
    },
    HeldRow {
        source: b"Rwait(1) >> stop | Rwait(1) >> Add(1, 1)",
        values: TWO,
        now: 1,
        first: 1,
        last: 1,
        wanted: 3,
        workers: &[2],
    },
];

// How and when the program of a row ends on `workers` workers. None for the reasons of `end_of`, and if a call gave up waiting.
fn end_when_held<R: Threads + Wait + Sync>(
    rt: &R,
    alloc: Global,
    row: &HeldRow,
    workers: usize,
) -> Option<(End, u64)> {
    let gate = Turnstile::new(row.first, row.last, row.wanted);
    let ended = end_of(rt, alloc, (row.source, b"", row.values), &gate, workers);
    if gate.held_all() { ended } else { None }
}

// Each program halts at its time and publishes its values, and no call gives up.
#[test]
fn each_worker_makes_calls_while_others_are_held(rt: HostRuntime) {
    for row in HELD.iter() {
        let source = row.source;
        for workers in row.workers {
            let ended = end_when_held(&rt, rt.alloc(), row, *workers);
            assert!(rt;
                ended == Some((End::Halted, row.now)),
                "{source:?} on {workers}: {ended:?}"
            );
        }
    }
}

// How many values a program publishes on `workers` workers, with sites that hold each call until `workers` calls are made. None if a call gave up
// waiting, the run fails or doesn't halt, or the text is no program.
fn published_when_held<R: Threads + Wait + Sync>(
    rt: &R,
    alloc: Global,
    source: &[u8],
    workers: usize,
) -> Option<u64> {
    let loaded = load(alloc, source, b"").ok()?;
    let calls = workers as u64;
    let gate = Turnstile::new(1, calls, calls);
    let sites = Twisted {
        scripted: Scripted::new(&loaded.answers),
        twist: Twist::Held(&gate),
    };
    let (program, answers) = (&loaded.program, &loaded.answers);
    let options = RunOptions {
        workers,
        keeps: false,
        limit: LIMIT,
    };
    let played = run_pool(rt, alloc, program, answers, &sites, &Open, options).ok()?;
    if gate.held_all() && played.summary.end == End::Halted {
        Some(played.summary.published)
    } else {
        None
    }
}

// Programs, and how many calls each makes, which is also the number of workers; 16 is the most.
const CALLS: [(&[u8], usize); 3] = [
    (b"Add(1, 2) | Add(3, 4)", 2),
    (b"Add(1, 2) | Add(3, 4) | (Add(5, 6) | Add(7, 8))", 4),
    (
        b"def four(n) = Add(n, 1) | Add(n, 2) | (Add(n, 3) | Add(n, 4))\nfour(0) | four(4) | (four(8) | four(12))",
        16,
    ),
];

// Each call publishes its answer, so there are as many values as calls.
#[test]
fn sites_may_hold_their_calls(rt: HostRuntime) {
    for (source, calls) in CALLS.iter() {
        let published = published_when_held(&rt, rt.alloc(), source, *calls);
        assert!(rt;
            published == Some(*calls as u64),
            "{source:?}: {published:?}"
        );
    }
}

// A single worker waits at the gate with call 1 for a second call, which nobody else can make. It goes on when the gate gives up, here after 1,000
// looks: so the run halts all the same, and `held_all` is false.
#[test]
fn one_worker_holds_one_call(rt: HostRuntime) {
    let gate = Turnstile::that_looks(1, 2, 2, 1000);
    let row: (&[u8], &[u8], &[Value]) = (b"Add(1, 2) | Add(3, 4)", b"", THREE_AND_SEVEN);
    let ended = end_of(&rt, rt.alloc(), row, &gate, 1);
    assert!(rt;
        ended == Some((End::Halted, 0)) && !gate.held_all(),
        "{ended:?}"
    );
}

// Numbers of workers and limits of entries, of which one is out of range: there may be 1 to 16 workers, and 1 to 10,000,000 entries.
const OUT_OF_RANGE: [(usize, u64); 5] = [
    (0, 10),
    (17, 10),
    (1, 0),
    (1, 10_000_001),
    (16, 10_000_001),
];

// `run_pool`, `survey` (which makes runs in many orders, here three) and `run_alone`, which has no workers, refuse them with the fault Range. The
// last loop shows that `run_pool` accepts the ends of the ranges.
#[test]
fn refuses_workers_and_limits_out_of_range(rt: HostRuntime) {
    let alloc = rt.alloc();
    let loaded = load(alloc, b"1", b"").ok().expect(&rt, "a program");
    let (program, answers) = (&loaded.program, &loaded.answers);
    for (workers, limit) in OUT_OF_RANGE.iter() {
        let played = play(&rt, alloc, &loaded, &Open, *workers, *limit).err();
        let seen = survey(&rt, alloc, program, answers, *workers, 3, *limit).err();
        assert!(rt;
            played == Some(EngineFault::Range) && seen == Some(EngineFault::Range),
            "{workers} {limit}: {played:?} {seen:?}"
        );
    }
    for limit in [0, 10_000_001] {
        let alone = run_alone(alloc, program, answers, None, false, limit).err();
        assert!(rt; alone == Some(EngineFault::Range), "{limit}: {alone:?}");
    }
    for (workers, limit) in [(1, 1), (16, 10_000_000)] {
        assert!(rt; play(&rt, alloc, &loaded, &Slow, workers, limit).is_ok());
    }
}
