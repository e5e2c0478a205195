//! The loop of the reference engine: choose an entry, record it, record the cancels that it makes due, and again. A `History` is the run so far: its
//! journal, and the marked term, which is what is left of the program's term. A *cancel* is the entry which says that a bind has dropped a pending
//! call. A *side* is the right one of a `<x<`, or the left one of a `;`. A *move of marks* (`end`, `fork`, `seq`, `other`) is an entry that uses no
//! rule of Orc. A run is *quiet* if it hasn't halted and neither a rule nor a tick is possible any more.

ghost use Rattle.std.specs.Prelude.{◌≡◌, ◌+◌, ◌<◌, ◌≤◌, ◌^◌, ℕ, IfOk, OnOk};
ghost use Rattle.orc_outcome.specs.Outcome.{IsPlayed};
ghost use Rattle.orc_reference.specs.Stories.{IsReached, HasEnded, Settles};
ghost use Rattle.orc_rules.specs.Sites.{Table};

use crate::agenda::Agenda;
use crate::history::History;
use orc_checker::{Marked, Side};
use orc_outcome::{End, PlayFault, Played};
use orc_rules::answers::Answers;
use orc_rules::entry::{Entry, RuleFault};
use orc_rules::program::Program;
use std::alloc::{AllocError, Global};

/// What comes next in a run.
#[derive(Drop)]
pub(crate) enum Choice {
    /// The run goes on with this entry.
    Entry(Entry),
    /// Nothing can come next, as far as the chooser knows: no token can move, no side has halted, and no call will ever be due.
    Nothing,
}

/// What chooses the next entry: an agenda (`agenda.rt`), or the entries of a run that the search has found (`Steps` in `finder.rt`). No contract
/// depends on the choice, since `History::record` refuses an entry that the rules don't allow.
pub(crate) trait Turns {
    /// The entry that comes next, while no cancel is due. An agenda takes a move of a token, else the end of `side`, which has halted, else a return
    /// that is due now, else a tick; `Steps` takes the next entry of its run. The error is refused memory. `side` is None where no side has halted.
    fn choose(
        &mut self,
        program: &Program,
        marked: &Marked,
        side: Option<Side>,
    ) -> Result<Choice, AllocError>;

    /// Takes note of what a recorded entry has changed: new tokens, a new call, or tokens that needn't wait any more. `marked` is the term after it
    /// and after the cancels that it made due. The error is refused memory.
    fn note(&mut self, entry: &Entry, marked: &Marked) -> Result<(), AllocError>;
}

// How a run ends in which nothing can come next: halted or quiet. The fault is Broken if something can come next, and `Turns` was wrong to offer
// nothing.
fn rest(history: &mut History, program: &Program) -> Result<End, PlayFault>
    // After a journal of `turns` entries it is an end that the rules allow, within any limit that is as high.
    ensures { (t : Table) (turns limit : ℕ) → turns ≤ limit → IsReached program.now t turns history.old → IfOk result (HasEnded program.now t limit history.new) }
{
    if history.marked().has_halted() {
        return Ok(End::Halted);
    }
    if history.is_quiet(program) {
        return Ok(End::Quiet);
    }
    Err(PlayFault::Broken)
}

// How a run ends whose journal has as many entries as the limit, while an entry could come next: cut, unless it is quiet and only moves of marks are
// left.
fn cut(history: &mut History, program: &Program, limit: u64) -> End
    ensures { (t : Table) → IsReached program.now t limit history.old → HasEnded program.now t limit history.new result }
{
    if !history.is_quiet(program) {
        return End::Limit;
    }
    End::Quiet
}

// Records the cancels that are due, one after another: the run can't end before all are. The fault is Memory, or Broken where the rules refuse one.
// `Settles` says that the journal has further cancels alone then, and that none is due any more.
fn settle(history: &mut History, program: &Program, answers: &Answers) -> Result<(), PlayFault>
    ensures { OnOk result (Settles program.now answers.now history.old history.new) }
{
    // Each call is cancelled once at most, and one turn more finds that none is due. `new_call` is one more than the calls that were made.
    for _turn in 0..history.marked().new_call() {
        match history.marked().next_cancel() {
            None => return Ok(()),
            Some(call) => {
                let cancel = Entry::Cancel(call);
                match history.record(program, answers, &cancel) {
                    Ok(()) => {}
                    Err(RuleFault::Memory) => return Err(PlayFault::Memory),
                    Err(_) => return Err(PlayFault::Broken),
                }
            }
        }
    }
    // Not reached: the last turn has found none due.
    Err(PlayFault::Broken)
}

// Adds entries until nothing can come next or the journal has `limit` of them, cancels not counted. Gives how the run ended, which is Memory if
// memory was refused. The fault is Broken if the rules refuse an entry that `turns` has chosen. It is Memory if memory was refused among the cancels
// of a bind, where no run can end.
pub(crate) fn proceed<T: Turns>(
    history: &mut History,
    turns: &mut T,
    program: &Program,
    answers: &Answers,
    limit: u64,
) -> Result<End, PlayFault>
    // From a run without entries on, what is there at the end is a run of the program that ended so within the limit.
    ensures { IsReached program.now answers.now 0 history.old → IfOk result (HasEnded program.now answers.now limit history.new) }
{
    // A turn for each entry that counts.
    for _turn in 0..limit {
        // A side that has halted, whose otherwise or cell can go on. `choose` takes it once no token can move.
        let side = history.halted_side();
        let entry = match turns.choose(program, history.marked(), side) {
            Ok(Choice::Entry(entry)) => entry,
            Ok(Choice::Nothing) => return rest(history, program),
            Err(_) => return Ok(End::Memory),
        };
        match history.record(program, answers, &entry) {
            Ok(()) => {}
            Err(RuleFault::Memory) => return Ok(End::Memory),
            Err(_) => return Err(PlayFault::Broken),
        }
        settle(history, program, answers)?;
        // `turns` hears of the entry once the entry's cancels are recorded.
        if turns.note(&entry, history.marked()).is_err() {
            return Ok(End::Memory);
        }
    }
    // The limit is reached. Whether it cut the run depends on whether something could still come: the entry that is chosen isn't recorded.
    let side = history.halted_side();
    match turns.choose(program, history.marked(), side) {
        Ok(Choice::Entry(_)) => Ok(cut(history, program, limit)),
        Ok(Choice::Nothing) => rest(history, program),
        Err(_) => Ok(End::Memory),
    }
}

/// Runs a program: entries that the rules allow, one after another, until nothing can come next or the journal has `limit` of them, cancels not
/// counted. The cancels of a bind follow it at once. The journal is kept.
///
/// The fault is Memory if memory was refused before the run began, or among the cancels of a bind. It is Broken if the rules refuse an entry that the
/// engine has chosen. If memory is refused elsewhere the run ends with `End::Memory`.
pub fn play(
    alloc: Global,
    program: &Program,
    answers: &Answers,
    limit: u64,
) -> Result<Played, PlayFault>
    ensures { IfOk result (λ p. IsPlayed program.now answers.now limit p.summary p.published.items p.journal) }
{
    let Ok(mut history) = History::new(alloc, program) else {
        return Err(PlayFault::Memory);
    };
    let Ok(mut agenda) = Agenda::new(alloc) else {
        return Err(PlayFault::Memory);
    };
    let end = proceed(&mut history, &mut agenda, program, answers, limit)?;
    Ok(history.played(end))
}
