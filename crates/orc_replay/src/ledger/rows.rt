//! Rows by calls of the ledger: what it writes, what comes next, and what it refuses. In contracts `P` stands for the run.

ghost use Rattle.std.specs.Prelude.{◌≡◌, true};
ghost use Rattle.orc_rules.specs.declared.limits.TheConstants.{MOST_ENTRIES};

use crate::ledger::replay::Replay;
use crate::ledger::replay_text;
use crate::stop::{Mismatch, Stop};
use orc_graph::Graph;
use orc_journal_text::{read_entry, write_journal};
use orc_ledger::{Action, Inputs, Ledger, LedgerFault, Next, ReturnFault, Run};
use orc_load::load;
use orc_rules::answers::Answers;
use orc_rules::entry::{Entry, State};
use orc_rules::limits::MOST_ENTRIES;
use orc_rules::value::{Answer, Value};
use std::alloc::{AllocError, Global};
use std::marker::Brand;

/// What a row does with a ledger (the state of a run, with its journal), or what the ledger has to say. A token marks a running part of the program;
/// its mark is its number in the journal, from 1.
#[derive(Clone, Copy)]
pub(crate) enum Step {
    /// The ledger does these entries, a line each, and writes exactly these. It does a cancel with the bind before it, so a cancel's line is only
    /// compared with the journal.
    Does(&'static str),
    /// The token with this mark waits: it can't move until a cell gets a value or is lost.
    Waits(u64),
    /// `Ledger::next`, which says what comes next in the run, gives this.
    Next(Next),
    /// The least number of a call that is due now is this; None means that no call is due.
    Due(Option<u64>),
    /// The call with this number, the answer that the ledger refuses for it, and the reason.
    Refuses(u64, Answer, ReturnFault),
    /// A pending call: its number, the time at which it was made, and its place, from 1, among the calls of its site with its arguments.
    Asked(u64, u64, u64),
    /// Whether the program's term has halted: true if it has.
    Halted(bool),
}

/// A program, the script that answers its sites (empty if it has no sites of its own), and the steps of its run.
#[derive(Clone, Copy)]
pub(crate) struct Row {
    // The text of the program.
    source: &'static str,
    // The text of the script, which says how the program's own sites answer.
    script: &'static str,
    // What the ledger has to do and say, one after another.
    steps: &'static [Step],
}

// The value that a wait (`Rwait`) returns.
const SIGNAL: Answer = Answer::Value(Value::Signal);

// What the token with the mark `serial` does next. None if no such token is there. No row has a hundred tokens, so slots from 100 on are empty.
fn next_action<P: Run>(ledger: &Ledger<P>, inputs: &Inputs<'_, P>, serial: u64) -> Option<Action> {
    // The ledger keeps each token in a slot, and has no search by marks.
    for slot in 0..100_usize {
        if let Some(token) = ledger.held(slot)
            && token.serial == serial
        {
            return Some(ledger.what(inputs, &token));
        }
    }
    None
}

// Whether the lines, each with LF, are entries of a journal, and the ledger has done them one after another. A cancel is passed over, since the
// ledger has written it with its bind.
fn does<P: Run>(replay: &mut Replay<P>, inputs: &Inputs<'_, P>, lines: &str) -> bool {
    // Lent to `read_entry`, which overwrites it.
    let mut entry = Entry::Tick(0);
    let mut rest = lines.as_bytes();
    // A line has a byte at least, so there are no more lines than bytes.
    for _line in 0..lines.len() {
        // Reads the first line of `rest` into `entry`, and gives the bytes behind that line. None: `rest` begins with no entry, which is right only
        // at its end.
        let Some(behind) = read_entry(rest, inputs.answers, &mut entry) else {
            return rest.is_empty();
        };
        // `enter` has the ledger do what the entry says.
        let is_done = matches!(entry, Entry::Cancel(_)) || replay.enter(inputs, &entry).is_ok();
        if !is_done {
            return false;
        }
        rest = behind;
    }
    rest.is_empty()
}

// Does a step of a row, or asks the ledger: true if the ledger does, says or refuses what the step wants.
fn step_holds<P: Run>(replay: &mut Replay<P>, inputs: &Inputs<'_, P>, step: &Step) -> bool {
    match *step {
        Step::Does(lines) => does(replay, inputs, lines),
        Step::Waits(serial) => {
            matches!(
                next_action(&replay.ledger, inputs, serial),
                Some(Action::Wait(_))
            )
        }
        Step::Next(next) => replay.ledger.next(inputs) == next,
        // The least number over 0: calls are numbered from 1.
        Step::Due(number) => replay.ledger.due_beyond(0) == number,
        // `returned` answers the call, or says why the ledger refuses that.
        Step::Refuses(call, answer, fault) => { replay.ledger.returned(call, answer) == Err(fault) }
        // `request` says what a pending call asks; None if the call doesn't pend.
        Step::Asked(call, made_at, nth) => match replay.ledger.request(call) {
            Some(request) => request.made_at == made_at && request.nth == nth,
            None => false,
        },
        Step::Halted(halted) => replay.ledger.has_halted() == halted,
    }
}

// Whether the journal has exactly the lines of the steps `Does`. The clause asks that the run keeps its journal. The error is refused memory.
fn has_lines<P: Run>(
    alloc: Global,
    ledger: &Ledger<P>,
    answers: &Answers,
    steps: &[Step],
) -> Result<bool, AllocError>
    requires { P.keeps ≡ true }
{
    // The text of the journal that is wanted: its first line, and the lines of the steps.
    let mut wanted = Vec::from_slice(alloc, b"orc-journal 2\n")?;
    for step in steps {
        if let Step::Does(lines) = step {
            wanted.extend_from_slice(lines.as_bytes())?;
        }
    }
    let mut text = Vec::new(alloc);
    // False if an entry has no line, since the table of sites lacks its site.
    let whole = write_journal(ledger.journal(), answers, &mut text)?;
    Ok(whole && text.as_slice() == wanted.as_slice())
}

// The first of these steps that doesn't hold, from 0, or 0 if no run can begin; the number of steps if all hold, but the journal has other lines than
// their entries. None if the steps and the journal hold. The clauses ask that graph, answers and limit are those of the run `P`, and that it keeps
// its journal.
fn wrong_step<P: Run>(
    alloc: Global,
    graph: &Graph,
    answers: &Answers,
    steps: &[Step],
) -> Option<usize>
    requires graph { graph.now ≡ P.listing }
    requires answers { answers.now.sites ≡ P.sites }
    requires limit { P.limit ≡ MOST_ENTRIES }
    requires keeps { P.keeps ≡ true }
{
    let inputs = Inputs::new(graph, answers);
    // A run that begins: token 1 on the main term.
    let Ok(mut replay) = Replay::<P>::begin(alloc, graph) else {
        return Some(0);
    };
    for (at, step) in steps.iter().enumerate() {
        if !step_holds(&mut replay, &inputs, step) {
            return Some(at);
        }
    }
    match has_lines(alloc, &replay.ledger, answers, steps) {
        Ok(true) => None,
        // The journal has other lines, or memory was refused.
        _ => Some(steps.len()),
    }
}

// The first step of a row that doesn't hold, from 0, or the number of steps if only the journal is another one; 0 also where source or script isn't
// accepted, or no graph of the program is made. None if the row holds.
fn fault_of(alloc: Global, row: &Row) -> Option<usize> {
    let Ok(loaded) = load(alloc, row.source.as_bytes(), row.script.as_bytes()) else {
        return Some(0);
    };
    let Ok(graph) = Graph::build(alloc, &loaded.program) else {
        return Some(0);
    };
    // `Brand` is a fresh name for the run, for contracts alone.
    wrong_step::<Brand>(alloc, &graph, &loaded.answers, row.steps)
}

/// Whether the ledger does what all these rows say: no row has a step that fails.
pub(crate) fn hold(alloc: Global, rows: &[Row]) -> bool {
    for row in rows {
        if fault_of(alloc, row).is_some() {
            return false;
        }
    }
    true
}

/// Tokens wait, and cells are lost. In these rows and those of `CALLS` the entries are those that Orc's rules allow of the program: a token gets the
/// next mark, a call and a cell the next number, each from 1, and of two tokens that come at once the left one has the lower mark. A line names the
/// token that moves (a `return` the call), then a cell or call and the new marks: `open 1 1 2 3` opens cell 1, with token 2 on the left and 3 on the
/// right.
pub(crate) const WAITS: [Row; 4] = [
    // Token 5 is at the call of `Add`, which waits for both cells: for the outer x, cell 1, as a, and for the inner x, cell 2. The inner x is bound
    // first, and the call still waits for the outer one.
    Row {
        source: "def g(a) = Add(a, x) <x< 1\ng(x) <x< 10",
        script: "",
        steps: &[
            // Token 1 opens cell 1, with 2 on `g(x)`, 3 on 10; 2 goes on as 4 on the body, which opens cell 2, with 5 on `Add`, 6 on 1.
            Step::Does("open 1 1 2 3\ndef 2 4\nopen 4 2 5 6\n"),
            Step::Waits(5),
            // Token 6 binds cell 2, the inner x, to 1.
            Step::Does("bind 6 2 1\n"),
            Step::Waits(5),
            // Token 3 binds cell 1, which is a, to 10. So both operands have values: call 1 gives 11, on which token 7 stands.
            Step::Does("bind 3 1 10\ncall 5 1 Add(10, 1)\nreturn 1 7 11\npublish 7 11\n"),
            Step::Halted(true),
        ],
    },
    // The cell is lost, since its right side stops. So token 3, which waits for it, ends (`void`), and the otherwise goes to its right side.
    Row {
        source: "(Add(x, 1) <x< stop) ; 7",
        script: "",
        steps: &[
            // Token 1 enters the left side of the `;` as 2, which opens cell 1, with 3 on `Add(x, 1)` and 4 on `stop`.
            Step::Does("other 1 2\nopen 2 1 3 4\n"),
            Step::Waits(3),
            // Token 5 is on the 7. The otherwise has the number 1: the mark of the token that entered its left side.
            Step::Does("end 4\nlost 1\nvoid 3\nright 1 5\n"),
            Step::Halted(false),
            // Nothing is left after that.
            Step::Does("publish 5 7\n"),
            Step::Halted(true),
        ],
    },
    // Either value of the right side may be bound: here that of its left token, 4.
    Row {
        source: "x <x< (1 | 2)",
        script: "",
        // Token 2 is on the left x, 4 on the 1, 5 on the 2, which the bind drops.
        steps: &[Step::Does("open 1 1 2 3\nfork 3 4 5\nbind 4 1 1\npublish 2 1\n")],
    },
    // The same program: here the value of the right token, 5, is bound.
    Row {
        source: "x <x< (1 | 2)",
        script: "",
        // Token 2 is on the left x, 4 on the 1, which the bind drops, and 5 on the 2.
        steps: &[Step::Does("open 1 1 2 3\nfork 3 4 5\nbind 5 1 2\npublish 2 2\n")],
    },
];

/// Calls are answered when they are due. A line names the token that moves (a `return` the call), then a cell or call and the new marks.
pub(crate) const CALLS: [Row; 6] = [
    // An answer is refused before its time, if it isn't the table's, and once the call was answered.
    Row {
        source: "(Rwait(3) >> Ift(false)) ; 9",
        script: "",
        steps: &[
            // Token 1 enters the left side of the `;` as 2, which enters that of the `>>` as 3, which makes call 1.
            Step::Does("other 1 2\nseq 2 3\ncall 3 1 Rwait(3)\n"),
            // Call 1 was made at time 0. Its place is 1, since no script answers `Rwait`.
            Step::Asked(1, 0, 1),
            // Time is 0, and the signal is due at 3.
            Step::Refuses(1, SIGNAL, ReturnFault::Wrong),
            Step::Due(None),
            Step::Next(Next::Ticks(3)),
            Step::Does("tick 3\n"),
            Step::Due(Some(1)),
            Step::Next(Next::Work),
            // `Rwait` gives a signal, never a number.
            Step::Refuses(1, Answer::Value(Value::Number(5)), ReturnFault::Wrong),
            // Token 4 is on the signal, which the `>>` takes: token 5 is on `Ift(false)`, which halts. So the 9 runs.
            Step::Does("return 1 4 signal\nsend 4 5 signal\ncall 5 2 Ift(false)\n"),
            Step::Does("return 2 halt\nright 1 6\npublish 6 9\n"),
            // Call 1 was answered above.
            Step::Refuses(1, SIGNAL, ReturnFault::Gone),
            Step::Halted(true),
        ],
    },
    // The bind by token 5 cancels the call in the right side: it is gone, so no answer is taken.
    Row {
        source: "x <x< (Rwait(0) | 1)",
        script: "",
        steps: &[
            // Token 4 makes call 1, and 5 on the value 1 binds cell 1: that cancels the call.
            Step::Does("open 1 1 2 3\nfork 3 4 5\ncall 4 1 Rwait(0)\nbind 5 1 1\ncancel 1\n"),
            Step::Refuses(1, SIGNAL, ReturnFault::Gone),
            Step::Does("publish 2 1\n"),
            Step::Halted(true),
        ],
    },
    // A call that is due isn't due any more once it was cancelled.
    Row {
        source: "x <x< (1 | Add(2, 3))",
        script: "",
        steps: &[
            // Token 4 is on the value 1, and 5 makes call 1, whose answer is due at once.
            Step::Does("open 1 1 2 3\nfork 3 4 5\ncall 5 1 Add(2, 3)\n"),
            Step::Due(Some(1)),
            // Token 4 binds cell 1, which drops the right side with the call.
            Step::Does("bind 4 1 1\ncancel 1\n"),
            Step::Due(None),
            Step::Does("publish 2 1\n"),
        ],
    },
    // Of two calls that are due the one made last may be answered first. The answers go by the order of the calls: the second one halts, and the
    // third and all later ones give 3, two units after they were made.
    Row {
        source: "Flip() | Flip() | Flip() | Flip()",
        script: "Flip() = 1 then halt then 3 after 2",
        steps: &[
            // The four calls are at tokens 6, 7, 5 and 3, from left to right.
            Step::Does("fork 1 2 3\nfork 2 4 5\nfork 4 6 7\n"),
            Step::Does("call 6 1 Flip()\ncall 7 2 Flip()\ncall 5 3 Flip()\ncall 3 4 Flip()\n"),
            Step::Asked(2, 0, 2),
            Step::Asked(4, 0, 4),
            // Call 2 halts, and call 3 gives 3 only at time 2.
            Step::Refuses(2, Answer::Value(Value::Number(1)), ReturnFault::Wrong),
            Step::Refuses(3, Answer::Value(Value::Number(3)), ReturnFault::Wrong),
            // Calls 1 and 2 are answered at time 0, 3 and 4 at time 2.
            Step::Does("return 2 halt\nreturn 1 8 1\npublish 8 1\n"),
            Step::Next(Next::Ticks(2)),
            Step::Does("tick 2\nreturn 4 9 3\nreturn 3 10 3\npublish 10 3\npublish 9 3\n"),
            Step::Halted(true),
        ],
    },
    // A sequence of answers counts for each list of arguments: each of the calls is the first with its argument. So its answer is 1, and 2 is
    // refused.
    Row {
        source: "Flip(1) | Flip(2)",
        script: "Flip(_) = 1 then 2",
        steps: &[
            Step::Does("fork 1 2 3\ncall 2 1 Flip(1)\ncall 3 2 Flip(2)\n"),
            // Both calls were made at time 0, each as the first with its argument.
            Step::Asked(1, 0, 1),
            Step::Asked(2, 0, 1),
            Step::Refuses(2, Answer::Value(Value::Number(2)), ReturnFault::Wrong),
            Step::Does("return 2 4 1\n"),
        ],
    },
    // A call that is never answered isn't due: of the two only the second one is, and then the run is quiet.
    Row {
        source: "A() | A()",
        script: "A() = never then 1",
        steps: &[
            // Call 1 is never answered, call 2 gives 1 at once.
            Step::Does("fork 1 2 3\ncall 2 1 A()\ncall 3 2 A()\n"),
            Step::Due(Some(2)),
            Step::Does("return 2 4 1\npublish 4 1\n"),
            // Call 1 still pends, and is never due: nothing comes any more, but the run hasn't halted.
            Step::Next(Next::Quiet),
            Step::Halted(false),
        ],
    },
];

// Moves the token in slot 0 until the ledger refuses a move, `limit` times at most: in these programs the token's successors stay in that slot. Gives
// how many entries the journal has then, and the reason of the refusal, Limit if no move was refused. None if the ledger can't begin, or no token is
// in slot 0 any more.
fn refused_at<P: Run>(
    alloc: Global,
    graph: &Graph,
    answers: &Answers,
    limit: usize,
) -> Option<(usize, LedgerFault)>
    requires keeps { P.keeps ≡ true }
    requires graph { graph.now ≡ P.listing }
    requires answers { answers.now.sites ≡ P.sites }
    requires limit { limit ≡ P.limit }
{
    let inputs = Inputs::new(graph, answers);
    // The range that the contract of `begin` wants.
    if limit < 1 || limit > MOST_ENTRIES as usize {
        return None;
    }
    let mut ledger = Ledger::<P>::begin(alloc, true, limit, graph.root()).ok()?;
    // Lists that `advance` writes over; they aren't read here.
    let mut scopes = Vec::new(alloc);
    let mut cancelled = Vec::new(alloc);
    for _entry in 0..limit {
        // None: slot 0 has no token.
        let token = ledger.held(0)?;
        if let Err(fault) = ledger.advance(&inputs, 0, token, &mut scopes, &mut cancelled) {
            return Some((ledger.entries(), fault));
        }
    }
    Some((ledger.entries(), LedgerFault::Limit))
}

// After how many entries, and why, the ledger refuses a move of the program of this source, without a script; `limit` is the most entries of its
// journal. None if the source isn't accepted, no graph of the program is made, or `refused_at` gives None.
fn refused(alloc: Global, source: &[u8], limit: usize) -> Option<(usize, LedgerFault)> {
    let loaded = load(alloc, source, b"").ok()?;
    let graph = Graph::build(alloc, &loaded.program).ok()?;
    refused_at::<Brand>(alloc, &graph, &loaded.answers, limit)
}

// Programs, the limits of their journals, how many entries there are when a move is refused, and why. The first enters 4,096 left sides of a `>x>`,
// the most, by a `def` and a `seq` each, and makes one `def` more; the second enters 1,023 left sides of a `;`, the most beside the program's own
// group, by two entries each. The third, the second again, is cut by its journal's limit.
const LIMITS: [(&[u8], usize, usize, LedgerFault); 3] = [
    (
        // A `def` and a `seq` for each of 4,096 left sides of a `>x>`, and one `def` more: 8,193 entries.
        b"def f() = f() >> 1\nf()",
        100_000,
        8_193,
        LedgerFault::Full,
    ),
    // A `def` and an `other` for each of 1,023 groups, and one `def` more: 2,047 entries.
    (b"def f() = f() ; 1\nf()", 100_000, 2_047, LedgerFault::Full),
    // The limit of 100 entries comes before any other.
    (b"def f() = f() ; 1\nf()", 100, 100, LedgerFault::Limit),
];

/// Whether in each row of `LIMITS` the ledger refuses the entry past the limit: after so many entries, and for this reason.
pub(crate) fn limits_refuse(alloc: Global) -> bool {
    for (source, limit, entries, fault) in LIMITS.iter() {
        if refused(alloc, source, *limit) != Some((*entries, *fault)) {
            return false;
        }
    }
    true
}

// Programs, journals that the rules allow, and where and why their replay fails: each has an entry before an `end`, a move of marks (an entry without
// a rule), without which the ledger refuses it. In the first two a side is ended before its token has made its `end`, and in the last time goes on
// before it.
const EARLY: [(&[u8], &[u8], Stop); 3] = [
    (
        // The `lost` at entry 2 comes before token 3, in the right side, has made its `end`: the side still has a member (Live).
        b"stop <x< stop",
        b"orc-journal 2\nopen 1 1 2 3\nlost 1\nend 2\n",
        Stop {
            at: 2,
            why: Mismatch::Live,
        },
    ),
    (
        // The `right` at entry 2 comes before token 2, in the left side, has made its `end`.
        b"stop ; 1",
        b"orc-journal 2\nother 1 2\nright 1 3\npublish 3 1\n",
        Stop {
            at: 2,
            why: Mismatch::Live,
        },
    ),
    (
        // The tick at entry 3 comes before token 3, on `stop`, has made its `end`: no tick comes next (Time).
        b"Rwait(1) | stop",
        b"orc-journal 2\nfork 1 2 3\ncall 2 1 Rwait(1)\ntick 1\n",
        Stop {
            at: 3,
            why: Mismatch::Time,
        },
    ),
];

/// Whether the replay of each journal of `EARLY` fails at its entry, for its reason.
pub(crate) fn marks_move_first(alloc: Global) -> bool {
    for (source, journal, stop) in EARLY.iter() {
        if replay_text(alloc, source, b"", journal) != Err(*stop) {
            return false;
        }
    }
    true
}

// Programs, scripts, journals that the rules allow, how many entries each journal has, and the state to which it leads: in each row nothing is left.
const WRITTEN: [(&[u8], &[u8], &[u8], usize, State); 3] = [
    // Each of the two values goes through the `>x>`, and is published with 10 added.
    (
        b"(1 | 2) >x> Add(x, 10)",
        b"",
        b"orc-journal 2\nseq 1 2\nfork 2 3 4\nsend 3 5 1\ncall 5 1 Add(1, 10)\nreturn 1 6 11\npublish 6 11\nsend 4 7 2\ncall 7 2 Add(2, 10)\nreturn 2 8 12\npublish 8 12\n",
        10,
        State::Halted,
    ),
    // The first two calls halt, so the run goes to the right side of an otherwise each time, until the third call answers 5.
    (
        b"Try() ; Try() ; Try() ; 0",
        b"Try() = halt then halt then 5",
        b"orc-journal 2\nother 1 2\nother 2 3\nother 3 4\ncall 4 1 Try()\nreturn 1 halt\nright 3 5\ncall 5 2 Try()\nreturn 2 halt\nright 2 6\ncall 6 3 Try()\nreturn 3 7 5\npublish 7 5\n",
        12,
        State::Halted,
    ),
    // A publication leaves the otherwise, whose group goes without an entry, and the cell is lost after it.
    (
        b"x <x< ((1 ; 2) >y> stop)",
        b"",
        b"orc-journal 2\nopen 1 1 2 3\nseq 3 4\nother 4 5\nsend 5 6 1\nend 6\nlost 1\nvoid 2\n",
        7,
        State::Halted,
    ),
];

/// Whether the ledger does each journal of `WRITTEN` to its end, with so many entries and to its state.
pub(crate) fn are_replayed(alloc: Global) -> bool {
    for (source, script, journal, entries, state) in WRITTEN.iter() {
        if replay_text(alloc, source, script, journal) != Ok((*entries, *state)) {
            return false;
        }
    }
    true
}
