//! The verdict on a whole journal. The *marked term* is what is left of the program's term after the entries that were taken. `heights` says how many
//! levels deep each of the program's terms nests, and `answers` is the table of what sites answer. A run is Quiet if it hasn't halted, no rule of Orc
//! can be used, and no tick is possible. A *cancel* is due where a `bind` has dropped a pending call.
//!
//! The depth of the term isn't computed at each entry: a bound for its levels grows by what an entry can add, and is made smaller only when it would
//! exceed the limit. `meets_and_leads` and `tests_are_right` show the prover laws of `orc_rules`; nothing runs. The first says that an entry leads
//! somewhere exactly if no reason but Deep and Memory refuses it, the second that the tests for halted, quiet and ticks are right.

ghost use Rattle.std.specs.Prelude.{◌≡◌, ◌≢◌, ◌<◌, ◌≤◌, ◌+◌, length, slice_get, Some, IfOk, IfErr, IfSome};
ghost use Rattle.orc_rules.specs.Journal.{Place};
ghost use Rattle.orc_rules.specs.Nodes.{code, definitions, source};
ghost use Rattle.orc_rules.specs.Timed.{Context};
ghost use Rattle.orc_rules.specs.Verdict.{IsAt, IsVerdict, IsFault};
ghost use Rattle.orc_rules.specs.declared.limits.TheConstants.{MOST_LEVELS};
ghost use Rattle.orc_rules.specs.declared.entry.RuleFault.TheVariants as reason;
ghost use Rattle.orc_checker.specs.Checker.{Spells, context};
ghost use Rattle.orc_verdict.specs.Deepening.{deepening};
ghost use Rattle.orc_verdict.specs.Faults.{check_line};
ghost use Rattle.orc_verdict.specs.Heights.{AreHeights, AreAtMost};
ghost use Rattle.orc_verdict.specs.Verdicts.{records_cancels, Takes, Stops, IsCutShort};

use crate::depth::{allowed_depth, depth_of};
use crate::heights::Heights;
use crate::reasons::first_reason;
use orc_checker::Marked;
use orc_journal::{Journal, Version};
use orc_rules::answers::Answers;
use orc_rules::entry::{Entry, RuleFault, State};
use orc_rules::laws::{meets_and_leads, tests_are_right};
use orc_rules::limits::MOST_LEVELS;
use orc_rules::program::Program;
use std::alloc::Global;
use std::error::Error;
use std::fmt;

/// Where a journal has brought a run.
#[derive(Clone, Copy, PartialEq, Eq, Debug)]
pub struct Verdict {
    /// Halted, Quiet or Running.
    pub state: State,
    /// The time there, in units of logical time.
    pub now: u64,
}

/// Where a journal is refused, and why.
#[derive(Clone, Copy, PartialEq, Eq, Debug)]
pub struct CheckFault {
    /// The number of the entry, from 1; one past the last where a cancel is missing, and 0 where memory was refused before the first.
    pub at: u64,
    /// The first reason.
    pub why: RuleFault,
}

// The code K, the number of the entry and the word of the reason.
impl fmt::Display for CheckFault {
    ghost output = { λ f. Some (check_line f) };

    fn fmt<W: fmt::Write>(&self, f: &mut fmt::Formatter<W>) -> fmt::Result {
        let at = self.at;
        let why = self.why.word();
        write!(f, "K at entry {at}: {why}")
    }
}

impl Error for CheckFault {}

/// What is kept of a journal while its entries are taken.
#[derive(Drop)]
pub(crate) struct Taken {
    /// The term after the entries that were taken.
    pub marked: Marked,
    /// A bound for the levels of the term.
    pub levels: usize,
}

/// How many levels an entry adds to the marked term at most, where no term of the program has more than `most`: a `def` puts a body in, a `send` a
/// `|` on top, and any other entry adds none.
pub(crate) fn deepening(most: usize, entry: &Entry) -> usize
    ensures { result ≡ deepening most entry.now }
{
    match entry {
        Entry::Def(_, _) => most,
        Entry::Send(_, _, _) => 1,
        _ => 0,
    }
}

/// The sum of a bound for the levels of a term and of the levels that are added. None if it is over `MOST_LEVELS`.
pub(crate) fn allowed(levels: usize, more: usize) -> Option<usize>
    ensures { IfSome result (λ n. (n ≡ levels + more) × (n ≤ MOST_LEVELS)) }
{
    match levels.checked_add(more) {
        Some(sum) => { if sum <= MOST_LEVELS { Some(sum) } else { None } }
        None => None,
    }
}

/// Takes an entry; `heights` are those of the program's terms, and none is over `most`. The error is the first reason why the entry is refused, and
/// Memory only where there is no other but perhaps its depth. After an error `taken` may have the entry, so the caller takes no more. By `Takes` the
/// bound holds of the term after the entry if it held of the one before.
pub(crate) fn take(
    alloc: Global,
    program: &Program,
    answers: &Answers,
    heights: &Heights,
    most: usize,
    taken: &mut Taken,
    entry: &Entry,
) -> Result<(), RuleFault>
    ensures done { IfOk result (λ _. AreHeights (code program.now) heights.now → AreAtMost heights.now most → Takes program.now answers.now entry.now taken.old.marked taken.old.levels taken.new.marked taken.new.levels) }
    ensures refused { IfErr result (λ why. AreHeights (code program.now) heights.now → Stops program.now answers.now entry.now taken.old.marked why) }
{
    // A law that the prover is shown: an entry leads somewhere exactly if no reason but Deep and Memory refuses it. Nothing runs.
    meets_and_leads();
    match taken.marked.step(program, answers, entry) {
        Ok(()) => {}
        Err(_) => {
            // The step gave one of the reasons, and the first one is asked for. An entry without any was refused for memory.
            return match first_reason(&mut taken.marked, program, answers, entry) {
                Some(why) => Err(why),
                None => Err(RuleFault::Memory),
            };
        }
    }
    // Three bounds, the cheapest first: that so far and what the entry may add; that which the marked term knows without a look at all its nodes, or
    // after one look; and the exact depth.
    match allowed(taken.levels, deepening(most, entry)) {
        Some(levels) => {
            taken.levels = levels;
            return Ok(());
        }
        None => {}
    }
    match allowed_depth(&mut taken.marked, most) {
        Some(levels) => {
            taken.levels = levels;
            return Ok(());
        }
        None => {}
    }
    match depth_of(alloc, heights, &taken.marked) {
        Ok(levels) => {
            if levels > MOST_LEVELS {
                return Err(RuleFault::Deep);
            }
            taken.levels = levels;
            Ok(())
        }
        Err(_) => Err(RuleFault::Memory),
    }
}

/// Whether a run is Halted, Quiet or Running. The term stays the same.
pub(crate) fn state_of(program: &Program, marked: &mut Marked) -> State
    ensures state { (x : Context) (p : Place) → x.definitions ≡ definitions program.now → Spells x (code program.now) marked.old p → IsAt x p result }
    ensures same { marked.new ≡ marked.old }
{
    // A law that the prover is shown: the tests for halted, quiet and ticks are right. Nothing runs.
    tests_are_right();
    if marked.has_halted() {
        return State::Halted;
    }
    if marked.is_quiet(program) {
        return State::Quiet;
    }
    State::Running
}

/// Whether cancels stand in a journal of that version.
pub(crate) fn records_cancels(version: Version) -> bool
    ensures { result ≡ records_cancels version }
{
    match version {
        Version::One => false,
        Version::Two => true,
    }
}

/// The entry of that number, from 0.
fn entry_at(journal: &Journal, at: usize) -> Entry
    requires { at < length journal.now.entries }
    ensures { slice_get journal.now.entries at ≡ Some result }
{
    match journal.get(at) {
        Some(entry) => entry,
        // By `requires` there is such an entry.
        None => unreachable!(),
    }
}

/// The verdict on a program's journal: its entries are taken one after another, and no cancel is due at the end.
/// The error is the first entry that is refused, from 1, with its first reason, or Cancel one past the last where a cancel is due there.
/// Memory is refused at 0 before the first entry, and else at an entry that meets every condition but perhaps that of its depth.
pub fn check_journal(
    alloc: Global,
    program: &Program,
    answers: &Answers,
    journal: &Journal,
) -> Result<Verdict, CheckFault>
    ensures verdict { IfOk result (λ v. IsVerdict (context program.now answers.now (records_cancels journal.now.version)) (source program.now) journal.now.entries v.state v.now) }
    ensures fault { IfErr result (λ f. f.why ≢ reason.Memory → IsFault (context program.now answers.now (records_cancels journal.now.version)) (source program.now) journal.now.entries f.at f.why) }
    ensures memory { IfErr result (λ f. f.why ≡ reason.Memory → IsCutShort (context program.now answers.now (records_cancels journal.now.version)) (source program.now) journal.now.entries f.at) }
{
    let Ok(heights) = Heights::new(alloc, program) else {
        return Err(CheckFault {
            at: 0,
            why: RuleFault::Memory,
        });
    };
    let Ok(marked) = Marked::new(alloc, program, records_cancels(journal.version())) else {
        return Err(CheckFault {
            at: 0,
            why: RuleFault::Memory,
        });
    };
    let most = heights.most();
    // The marked term is the program's main term at first.
    let levels = heights.at(program.source());
    let mut taken = Taken { marked, levels };
    for next in 0..journal.len() {
        let entry = entry_at(journal, next);
        match take(alloc, program, answers, &heights, most, &mut taken, &entry) {
            Ok(()) => {}
            Err(why) => {
                return Err(CheckFault {
                    at: next as u64 + 1,
                    why,
                });
            }
        }
    }
    match taken.marked.next_cancel() {
        Some(_) => Err(CheckFault {
            // One past the last entry.
            at: journal.next_number(),
            why: RuleFault::Cancel,
        }),
        None => {
            let state = state_of(program, &mut taken.marked);
            let now = taken.marked.now();
            Ok(Verdict { state, now })
        }
    }
}
