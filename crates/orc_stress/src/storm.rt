//! The storms: programs, and how their runs have to end. `Played` is a run that has ended: how (`summary`), what it published, and its journal. A
//! run's *gate* may hold each call before its site makes it.

use orc_load::{LoadFault, Loaded};
use orc_outcome::{End, Played};
use orc_rules::value::Value;
use orc_site::{Gate, Sites};
use orc_verdict::check_journal;
use orc_workers::{EngineFault, RunOptions, run_pool};
use std::alloc::Global;
use std::sync::Wait;
use std::thread::Threads;

// The script of all storms. `Ask` may sleep (`Sleepy`), which takes no logical time.
const SCRIPT: &[u8] = b"Never() = never\nSlow() = 1 after 3\nAsk() = 1\n";

/// A program, and how its runs have to end.
#[derive(Clone, Copy)]
pub struct Storm {
    /// The name by which the command line and the output call it.
    pub name: &'static str,
    /// The text of the program.
    pub source: &'static [u8],
    /// How each run has to end.
    pub end: End,
    /// How many values a run publishes.
    pub published: u64,
    /// The numbers of which each value has to be one; if the list is empty, any value will do.
    pub values: &'static [i64],
    /// The most entries of its journal, cancels not counted.
    pub limit: u64,
}

// The limit of most storms: more entries than a run of theirs has.
const LIMIT: u64 = 100_000;

// The greatest limit that there is, for loops that go on until another token wins, however long that one's thread is held up.
const GREATEST_LIMIT: u64 = 10_000_000;

/// Programs of each kind: loops, races, fallbacks, fan-outs, calls that answer later.
pub const STORMS: [Storm; 12] = [
    // A tree of calls with 2^6 leaves, each of which publishes 0 + 1.
    Storm {
        name: "fan",
        source: b"def tree(n) = Lt(0, n) >b> (Iff(b) >> Add(n, 1) | Ift(b) >> Add(n, -1) >m> (tree(m) | tree(m)))\ntree(6)",
        end: End::Halted,
        published: 64,
        values: &[1],
        limit: LIMIT,
    },
    // The same tree, whose leaves call `Slow`: each publishes its answer, 1, after three units of logical time.
    Storm {
        name: "late",
        source: b"def tree(n) = Lt(0, n) >b> (Iff(b) >> Slow() | Ift(b) >> Add(n, -1) >m> (tree(m) | tree(m)))\ntree(6)",
        end: End::Halted,
        published: 64,
        values: &[1],
        limit: LIMIT,
    },
    // Two loops of races, one of 50 rounds and one of 30: in each round `n` wins at once, and the bind cancels the calls beside it that were made.
    // Each loop publishes 50 when it ends.
    Storm {
        name: "race",
        source: b"def loop(n) = Lt(n, 50) >b> (Iff(b) >> n | Ift(b) >> (x <x< (n | Never() | Slow())) >> Add(n, 1) >m> loop(m))\nloop(0) | loop(20)",
        end: End::Halted,
        published: 2,
        values: &[50],
        limit: LIMIT,
    },
    // Two loops of fallbacks, with a race of two late calls in each round; each loop publishes 30 when it ends. Beside them is a call without an
    // answer, so that the run is quiet in the end.
    Storm {
        name: "mixed",
        source: b"def mix(n) = Lt(n, 30) >b> (Iff(b) >> n | Ift(b) >> ((Ift(false) ; (x <x< (Slow() | Slow()))) ; stop) >> Add(n, 1) >m> mix(m))\nmix(0) | mix(9) | Never()",
        end: End::Quiet,
        published: 2,
        values: &[30],
        limit: LIMIT,
    },
    // Two calls of `f`, each of which goes on to open one left side of a `;` inside the other. Each such side is a group, and `MOST_GROUPS` groups
    // may be open: so the run ends as full, before it publishes a value.
    Storm {
        name: "deep",
        source: b"def f() = Add(1, 1) >> (f() ; 1)\nf() | f()",
        end: End::Full,
        published: 0,
        values: &[],
        limit: LIMIT,
    },
    // The earlier of two answers wins: 10, at time 1.
    Storm {
        name: "first",
        source: b"x <x< (Rwait(2) >> 20 | Rwait(1) >> 10)",
        end: End::Halted,
        published: 1,
        values: &[10],
        limit: LIMIT,
    },
    // Two calls that are due at once: either answer may win.
    Storm {
        name: "either",
        source: b"x <x< (Add(0, 1) | Add(0, 2))",
        end: End::Halted,
        published: 1,
        values: &[1, 2],
        limit: LIMIT,
    },
    // More races one after another, 2,100, than the engine has words for groups, 2,048. A group is what runs in one branch, here in the right side of
    // a `<x<`. A bind kills the group of the side that it drops, and that group's word has to become free again. The last loop publishes 700. The
    // races are in three loops, since the term may get deeper with each round of a loop, and the check takes 10,000 levels.
    Storm {
        name: "kills",
        source: b"def loop(n) = Lt(n, 700) >b> (Iff(b) >> n | Ift(b) >> (x <x< (n | Never() | Rwait(5))) >> Add(n, 1) >m> loop(m))\nloop(0) >> loop(0) >> loop(0)",
        end: End::Halted,
        published: 1,
        values: &[700],
        limit: LIMIT,
    },
    // A token that loops for ever beside a call that is due: the call's answer wins.
    Storm {
        name: "loop",
        source: b"def loop() = loop()\nx <x< (loop() | Add(0, 1))",
        end: End::Halted,
        published: 1,
        values: &[1],
        limit: GREATEST_LIMIT,
    },
    // Two calls that are due at time 1: the token behind the first one loops for ever, so the other one wins.
    Storm {
        name: "clock",
        source: b"def loop() = loop()\nx <x< (Rwait(1) >> loop() | Rwait(1) >> 1)",
        end: End::Halted,
        published: 1,
        values: &[1],
        limit: GREATEST_LIMIT,
    },
    // Nearly as many groups as may be open, 1,024, stay open until the end, and others come and go beside them: 1,020 prunings wait for a call
    // without an answer, and one more is opened in each of a hundred rounds. The loop of these rounds publishes 100 when it ends.
    Storm {
        name: "standing",
        source: b"def idle(n) = Lt(0, n) >b> Ift(b) >> ((x <x< Never()) | Sub(n, 1) >m> idle(m))\ndef loop(n) = Lt(n, 100) >b> (Iff(b) >> n | Ift(b) >> (x <x< (Add(n, 0) | Never())) >> Add(n, 1) >m> loop(m))\nidle(1020) | loop(0)",
        end: End::Quiet,
        published: 1,
        values: &[100],
        limit: LIMIT,
    },
    // Two tokens loop until the limit cuts them.
    Storm {
        name: "cut",
        source: b"def loop() = loop()\nloop() | loop()",
        end: End::Limit,
        published: 0,
        values: &[],
        limit: LIMIT,
    },
];

/// 1,024 calls (4 to the power of 5) that are due at the same time.
pub const DUE: Storm = Storm {
    name: "due",
    source: b"def a() = Rwait(5) | Rwait(5) | (Rwait(5) | Rwait(5))\ndef b() = a() | a() | (a() | a())\ndef c() = b() | b() | (b() | b())\ndef d() = c() | c() | (c() | c())\nd() | d() | (d() | d())",
    end: End::Halted,
    published: 1024,
    values: &[],
    limit: LIMIT,
};

/// 256 calls (4 to the power of 4) whose site sleeps a millisecond.
pub const ASKS: Storm = Storm {
    name: "asks",
    source: b"def a() = Ask() | Ask() | (Ask() | Ask())\ndef b() = a() | a() | (a() | a())\ndef c() = b() | b() | (b() | b())\nc() | c() | (c() | c())",
    end: End::Halted,
    published: 256,
    values: &[1],
    limit: LIMIT,
};

/// One call, with nothing in parallel, whose site sleeps a second.
pub const NAP: Storm = Storm {
    name: "nap",
    source: b"Ask()",
    end: End::Halted,
    published: 1,
    values: &[1],
    limit: LIMIT,
};

/// Programs that are run only by their names.
pub const ALONE: [Storm; 3] = [DUE, ASKS, NAP];

impl Storm {
    /// A program (`source`) that makes `workers` calls in parallel, one for each worker, and publishes their answers.
    pub fn held(source: &'static [u8], workers: usize) -> Storm {
        Storm {
            name: "held",
            source,
            end: End::Halted,
            published: workers as u64,
            values: &[],
            limit: LIMIT,
        }
    }

    /// The program with the script of all storms, ready to be run. The error is refused memory, since the texts are right.
    pub fn load(&self, alloc: Global) -> Result<Loaded, LoadFault> {
        orc_load::load(alloc, self.source, SCRIPT)
    }

    // Whether a run may publish this value: one of the numbers in `values`, or any value if that list is empty.
    fn may_publish(&self, value: &Value) -> bool {
        match value {
            Value::Number(number) => self.values.is_empty() || self.values.contains(number),
            Value::Truth(_) | Value::Signal => self.values.is_empty(),
        }
    }

    /// Whether a run ended as it has to: in the right way, with so many values, and each one a value that it may publish.
    pub fn is_right(&self, played: &Played) -> bool {
        played.summary.end == self.end
            && played.summary.published == self.published
            && played.published.iter().all(|value| self.may_publish(value))
    }

    /// Whether the check accepts a run's journal. False also if the run has none, or memory is refused.
    pub fn is_accepted(&self, alloc: Global, played: &Played) -> bool {
        let Ok(loaded) = self.load(alloc) else {
            return false;
        };
        let Some(journal) = &played.journal else {
            return false;
        };
        check_journal(alloc, &loaded.program, &loaded.answers, journal).is_ok()
    }
}

/// Runs a program on `workers` workers with these sites and this gate, up to `limit` entries, and keeps the journal. The error is the engine's fault.
pub fn run<R, S, G>(
    rt: &R,
    alloc: Global,
    loaded: &Loaded,
    sites: &S,
    gate: &G,
    workers: usize,
    limit: u64,
) -> Result<Played, EngineFault>
where
    R: Threads + Wait + Sync,
    S: Sites + Sync,
    S::Call: Send,
    G: Gate + Sync,
{
    let (program, answers) = (&loaded.program, &loaded.answers);
    let options = RunOptions {
        workers,
        keeps: true,
        limit,
    };
    run_pool(rt, alloc, program, answers, sites, gate, options)
}
