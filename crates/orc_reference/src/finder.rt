//! Searches all runs that the rules allow for one in which the wanted things happen.
//!
//! The search is depth-first: it follows one run until something happens that isn't wanted, and then goes back to the last choice. The run that it
//! finds is played again, entry by entry, so no promise on the run rests on the search, and most of the search has no contract. The *way* is the
//! entries so far. A *position* is where a run stands after them; a position that looks like one that was tried before isn't tried again. Where a
//! function has an `AllocError`, it is refused memory. The marked term (`marked`) is what is left of the program's term after the way's entries. A
//! *cancel* is the entry which says that a bind has dropped a pending call; *moves of marks* (`end`, `fork`, `seq`, `other`) are entries that use no
//! rule of Orc. A run is *quiet* if it hasn't halted and neither a rule nor a tick is possible any more.

ghost use Rattle.std.specs.Prelude.{◌≡◌, ◌⊎◌, IfOk, IfSome};
ghost use Rattle.orc_outcome.specs.Outcome.{IsPlayed};

use crate::form::{Forms, mix, mix_value};
use crate::history::History;
use crate::reference::{Choice, Turns, proceed};
use orc_checker::{Marked, Next, Side};
use orc_outcome::{End, PlayFault, Played};
use orc_rules::answers::Answers;
use orc_rules::entry::Entry;
use orc_rules::program::Program;
use orc_rules::value::{Answer, Args, Value};
use orc_term::arena::{Double, Kind, Single, Tip};
use orc_verdict::{entry_of, return_entry, side_entry, token_entry};
use std::alloc::{AllocError, Global};
use std::collections::HashMap;
use std::mem::replace;

/// What happens in a run, as an observer outside sees it, cancels aside.
#[derive(Clone, Copy)]
pub enum Happened<'e> {
    /// A site, by its number in the table, is called with these arguments.
    Called(u32, &'e Args),
    /// A call of this site with these arguments is answered, with a value or a halt.
    Answered(u32, &'e Args, Answer),
    /// The run publishes a value.
    Published(Value),
}

/// What is wanted of a run: that given things happen in it one after another, and how it ends. A number, `seen`, says how much of that has happened:
/// 0 at first, and the implementor chooses what it means.
pub trait Wanted {
    /// A number for the time `now`, the same for times that the search needn't tell apart.
    fn time(&self, now: u64) -> u64;

    /// How much has been seen once this happened, after `seen` before. None if this must not happen, so that the search leaves the run. `time` is as
    /// the function `time` gives it.
    fn after(&self, seen: usize, time: u64, happened: Happened<'_>) -> Option<usize>;

    /// Whether a run is wanted that ends like this after `seen`. `time` is as the function `time` gives it.
    fn is_met(&self, seen: usize, time: u64, end: End) -> bool;
}

// A call that was made on the way.
#[derive(Clone, Copy)]
struct Made {
    // The place of its entry in the way.
    entry: usize,
    // A hash of the site and the arguments (`mix_args`).
    called: u64,
}

// A choice on the way: the position before it, to which the search comes back.
struct Level {
    marked: Marked,
    // The entries that are still to be tried there, the next one last.
    next: Vec<Entry>,
    // How many entries the way had: it is cut back to them.
    entries: usize,
    // How many calls had been made: `Search::calls` is cut back to them.
    calls: usize,
    // A hash of how often each call had been made, as far as the answers of later calls depend on that.
    counts: u64,
    // How much of what is wanted had been seen.
    seen: usize,
}

// Written out, so that a caller's proof sees one call and not the drop of each field.
impl Drop for Level {
    fn drop(self) {
        let Level {
            marked: _,
            next: _,
            entries: _,
            calls: _,
            counts: _,
            seen: _,
        } = self;
    }
}

// How the search stands after a step.
#[derive(Clone, Copy)]
enum Progress {
    /// The way leads to what is wanted.
    Found,
    /// There may be more to try.
    More,
    /// All has been tried, and nothing found.
    Nothing,
}

// The search for a run of a program whose calls `answers` answers.
struct Search<'s> {
    alloc: Global,
    program: &'s Program,
    answers: &'s Answers,
    /// All entries of the way, with moves of marks and cancels.
    way: Vec<Entry>,
    /// The calls of the way: the one of the number k is at the place k - 1.
    calls: Vec<Made>,
    /// The choices on the way, the last one last.
    levels: Vec<Level>,
    /// The positions to which a way has led, as hashes of what they look like. The search takes two positions with equal hashes for the same one.
    known: HashMap<u64, ()>,
}

// Written out, so that a caller's proof sees one call and not the drop of each field.
impl Drop for Search<'_> {
    fn drop(self) {
        let Search {
            alloc: _,
            program: _,
            answers: _,
            way: _,
            calls: _,
            levels: _,
            known: _,
        } = self;
    }
}

// A hash of the site that is called and the arguments.
fn mix_args(site: u32, args: &Args) -> u64 {
    let mut mixed = mix(1, site as u64);
    for value in args.as_slice() {
        mixed = mix_value(mixed, *value);
    }
    mixed
}

// Whether a token's next move is a move of marks, an entry that no rule of Orc has.
fn is_of_marks(next: &Next) -> bool {
    matches!(next, Next::End | Next::Fork | Next::Seq | Next::Other)
}

impl Search<'_> {
    // The site and the arguments of a call that was made on the way, by its number from 1. None if the way has no such call.
    fn made(&self, call: u64) -> Option<(u32, &Args)> {
        let made = self.calls.get(call.saturating_sub(1) as usize)?;
        match self.way.get(made.entry) {
            Some(Entry::Call(_, _, site, args)) => Some((*site, args)),
            // Not reached: at the place `Made::entry` stands a `call`.
            _ => None,
        }
    }

    // How much has been seen once the call with this number is answered, after `seen` before. `time` is as `Wanted::time` gives it. None if that must
    // not happen. The way has the call, since it pends.
    fn answered<W: Wanted>(
        &self,
        wanted: &W,
        seen: usize,
        time: u64,
        call: u64,
        answer: Answer,
    ) -> Option<usize> {
        let (site, args) = self.made(call)?;
        wanted.after(seen, time, Happened::Answered(site, args, answer))
    }

    // How much has been seen after an entry, where `seen` was before. `time` is as `Wanted::time` gives it. None if the entry must not come. Entries
    // that nobody outside sees change nothing.
    fn seen_after<W: Wanted>(
        &self,
        wanted: &W,
        seen: usize,
        time: u64,
        entry: &Entry,
    ) -> Option<usize> {
        match entry {
            Entry::Call(_, _, site, args) => {
                wanted.after(seen, time, Happened::Called(*site, args))
            }
            Entry::Return(call, _, value) => self.answered(
                wanted,
                seen,
                time,
                *call,
                Answer::Value(*value),
            ),
            Entry::ReturnHalt(call) => self.answered(wanted, seen, time, *call, Answer::Halt),
            Entry::Publish(_, value) => wanted.after(seen, time, Happened::Published(*value)),
            _ => Some(seen),
        }
    }

    // Adds an entry to the way, and gives the hash of counts (`Level::counts`) after it. Only a call changes the hash, and only if later calls of its
    // site with its arguments are answered otherwise for it. The hash is a sum, so the order of the calls doesn't matter. The error is refused
    // memory.
    fn add(&mut self, entry: Entry, counts: u64) -> Result<u64, AllocError> {
        let mut after = counts;
        if let Entry::Call(_, _, site, args) = &entry {
            let called = mix_args(*site, args);
            // How many calls of this site with these arguments the way has already.
            let mut earlier = 0_u64;
            for made in self.calls.as_slice() {
                if made.called == called {
                    earlier = earlier.saturating_add(1);
                }
            }
            // From the number `last_answer` on, counted from 0, all these calls are answered alike. The new call has the number `earlier`.
            if earlier < self.answers.last_answer(*site, args) {
                after = counts.wrapping_add(mix(called, earlier));
            }
            self.calls.push(Made {
                entry: self.way.len(),
                called,
            })?;
        }
        self.way.push(entry)?;
        Ok(after)
    }

    // Applies an entry to a term. The rules allow the entry, so the error is refused memory alone.
    fn step(&self, marked: &mut Marked, entry: &Entry) -> Result<(), AllocError> {
        marked
            .step(self.program, self.answers, entry)
            .map_err(|_| AllocError)
    }

    // Applies an entry to a term and adds it to the way. The error is refused memory.
    fn apply(&mut self, marked: &mut Marked, entry: Entry) -> Result<(), AllocError> {
        self.step(marked, &entry)?;
        self.way.push(entry)?;
        Ok(())
    }

    // Applies the cancels that are due, and the moves of marks of all tokens from the mark `from` on, also of those that such a move makes, and adds
    // them to the way. They change nothing about what can happen else, so the search tries no other order of them. The error is refused memory.
    fn settle(&mut self, marked: &mut Marked, from: u64) -> Result<(), AllocError> {
        // Cancels come first: while one is due no token can move. Each call is cancelled once at most, so the turns suffice.
        for _turn in 0..marked.new_call() {
            match marked.next_cancel() {
                Some(call) => self.apply(marked, Entry::Cancel(call))?,
                None => break,
            }
        }
        // The end of this loop moves, since these moves bring marks. The bound only shows that the loop ends.
        for mark in from..u64::MAX {
            if mark >= marked.new_mark() {
                break;
            }
            if let Some(next) = marked.next(self.program, mark) {
                if is_of_marks(&next) {
                    // Always: only a token that waits has no entry.
                    if let Some(entry) = token_entry(marked, mark, next) {
                        self.apply(marked, entry)?;
                    }
                }
            }
        }
        Ok(())
    }

    // The entry by which a node of the marked term can go on: a token moves, or a side that has halted ends; None if it can't.
    fn entry_at(&self, marked: &Marked, kind: Kind) -> Option<Entry> {
        match kind {
            Kind::Leaf(Tip::Token(mark, _, _)) | Kind::Leaf(Tip::Bears(mark, _)) => {
                entry_of(marked, self.program, mark)
            }
            // An otherwise whose left side was entered, by its mark.
            Kind::One(Single::Entered(mark, _, _), _) => side_entry(
                marked,
                Side::Left(mark as u64),
            ),
            // An opened pruning, by its cell.
            Kind::Two(Double::Side(cell), _, _) => side_entry(marked, Side::Right(cell)),
            // Pending calls, parts that have ended, and nodes of which only the parts move.
            _ => None,
        }
    }

    // All entries that can come next, the first to be tried last: moves of tokens and sides, and returns that are due; a tick if there are none of
    // these. An empty list says that the run is quiet, since `stand` has asked before whether it has halted. The error is refused memory.
    fn entries(&self, marked: &mut Marked) -> Result<Vec<Entry>, AllocError> {
        let mut entries = Vec::new(self.alloc);
        for slot in marked.nodes() {
            if let Some(entry) = self.entry_at(marked, slot.node().kind) {
                entries.push(entry)?;
            }
        }
        // Of a call that doesn't pend `due` gives None.
        for call in 1..marked.new_call() {
            match marked.due(call) {
                Some((answer, time)) if time == marked.now() => {
                    entries.push(return_entry(marked, call, answer))?;
                }
                // The call is due later or never, or doesn't pend.
                _ => {}
            }
        }
        if entries.is_empty() {
            if let Some(time) = marked.next_due() {
                entries.push(Entry::Tick(time))?;
            }
        }
        // A level takes them from its end.
        entries.reverse();
        Ok(entries)
    }

    // A hash of what a position (where a run stands after the entries of the way) looks like: of its term, the hash of counts, how much was seen, and
    // the time as `Wanted::time` gives it.
    fn number_of(
        &self,
        marked: &Marked,
        counts: u64,
        seen: usize,
        time: u64,
    ) -> Result<u64, AllocError> {
        let mut called = Vec::new(self.alloc);
        for made in self.calls.as_slice() {
            called.push(made.called)?;
        }
        let form = Forms::new(self.alloc, self.program).of(marked, called.as_slice())?;
        Ok(mix(mix(mix(mix(1, form), counts), seen as u64), time))
    }

    // Opens a new level of choices at the position to which the way has led, unless the run ends there or a way has led there before. `marked`,
    // `counts` and `seen` are as a `Level` has them. Gives Found if the run ends there and is wanted, and otherwise More. A position is where a run
    // stands after the entries of the way. The error is refused memory.
    fn stand<W: Wanted>(
        &mut self,
        wanted: &W,
        mut marked: Marked,
        counts: u64,
        seen: usize,
    ) -> Result<Progress, AllocError> {
        let time = wanted.time(marked.now());
        if marked.has_halted() {
            return Ok(if wanted.is_met(seen, time, End::Halted) {
                Progress::Found
            } else {
                Progress::More
            });
        }
        let number = self.number_of(&marked, counts, seen, time)?;
        if self.known.contains_key(&number) {
            return Ok(Progress::More);
        }
        self.known.insert(number, ())?;
        let next = self.entries(&mut marked)?;
        if next.is_empty() {
            return Ok(if wanted.is_met(seen, time, End::Quiet) {
                Progress::Found
            } else {
                Progress::More
            });
        }
        self.levels.push(Level {
            marked,
            next,
            entries: self.way.len(),
            calls: self.calls.len(),
            counts,
            seen,
        })?;
        Ok(Progress::More)
    }

    // Tries the next entry at the last choice, or goes back to the choice before if none is left. `Nothing` says that there is no choice any more.
    // The error is refused memory.
    fn advance<W: Wanted>(&mut self, wanted: &W) -> Result<Progress, AllocError> {
        let Some(level) = self.levels.last_mut() else {
            return Ok(Progress::Nothing);
        };
        // The way is cut back to the position before the choice.
        self.way.truncate(level.entries);
        self.calls.truncate(level.calls);
        let Some(entry) = level.next.pop() else {
            let _level = self.levels.pop();
            return Ok(Progress::More);
        };
        // A copy: the level keeps its own term for the entries that are still to be tried there.
        let mut marked = level.marked.copy(self.alloc)?;
        let counts = level.counts;
        let before = level.seen;
        let time = wanted.time(marked.now());
        // None: the entry shows something that must not happen, so it isn't tried.
        let Some(seen) = self.seen_after(wanted, before, time, &entry) else {
            return Ok(Progress::More);
        };
        // The marks from here on are those that the entry brings.
        let from = marked.new_mark();
        self.step(&mut marked, &entry)?;
        let counts = self.add(entry, counts)?;
        self.settle(&mut marked, from)?;
        self.stand(wanted, marked, counts, seen)
    }

    // Searches until it has come to more than `most` positions, halted runs not counted. Gives the entries of a wanted run, or None if it found none.
    // The error is refused memory.
    fn go<W: Wanted>(&mut self, wanted: &W, most: usize) -> Result<Option<Vec<Entry>>, AllocError> {
        // True: cancels follow each bind, as the engine that plays the run again records them.
        let mut marked = Marked::new(self.alloc, self.program, true)?;
        // The moves of marks from token 1 on. Then the first position is there: no call was counted, and nothing was seen.
        self.settle(&mut marked, 1)?;
        let mut progress = self.stand(wanted, marked, 0, 0)?;
        // Each position is tried once, so the search ends; the bound only shows that the loop does.
        for _step in 0..u64::MAX {
            match progress {
                Progress::Found => return Ok(Some(replace(&mut self.way, Vec::new(self.alloc)))),
                Progress::Nothing => return Ok(None),
                Progress::More => {}
            }
            if self.known.len() > most {
                return Ok(None);
            }
            progress = self.advance(wanted)?;
        }
        Ok(None)
    }
}

// The entries of a way, to be played again, one in each turn. Its cancels are left out, since the engine records them by itself. The engine's loop
// (`proceed`) asks its `Turns`, here these, for the next entry.
#[derive(Drop)]
struct Steps {
    // The next one last.
    rest: Vec<Entry>,
}

impl Turns for Steps {
    // The next entry of the way, whatever the term looks like: the search has chosen it.
    fn choose(
        &mut self,
        _program: &Program,
        _marked: &Marked,
        _side: Option<Side>,
    ) -> Result<Choice, AllocError> {
        // Each turn takes an entry; the bound only shows that the loop ends.
        for _ in 0..u64::MAX {
            match self.rest.pop() {
                None => break,
                Some(Entry::Cancel(_)) => {}
                Some(entry) => return Ok(Choice::Entry(entry)),
            }
        }
        // The way has come to its end, where the run has halted or is quiet.
        Ok(Choice::Nothing)
    }

    fn note(&mut self, _entry: &Entry, _marked: &Marked) -> Result<(), AllocError> {
        // All entries are known from the start.
        Ok(())
    }
}

// Searches for a wanted run until it has come to more than `most` positions, as `Search::go` counts them. Gives the entries of the run, or None if it
// found none. The error is refused memory.
fn way_to<W: Wanted>(
    alloc: Global,
    program: &Program,
    answers: &Answers,
    wanted: &W,
    most: usize,
) -> Result<Option<Vec<Entry>>, AllocError> {
    let mut search = Search {
        alloc,
        program,
        answers,
        way: Vec::new(alloc),
        calls: Vec::new(alloc),
        levels: Vec::new(alloc),
        known: HashMap::new(alloc),
    };
    let way = search.go(wanted, most)?;
    Ok(way)
}

/// Searches, until it has come to more than `most` positions, halted runs not counted, for a run of a program in which the wanted things happen and
/// which ends by itself, and gives it with its journal. The contract says that it is a run of the program and ended by itself, but not that the
/// wanted things happen: a caller checks that on the journal. None if the search found no run, or one of more than `limit` entries, cancels not
/// counted.
///
/// The fault is Memory if memory was refused, or Broken if the rules refuse an entry of the run that the search found.
pub fn find<W: Wanted>(
    alloc: Global,
    program: &Program,
    answers: &Answers,
    wanted: &W,
    most: usize,
    limit: u64,
) -> Result<Option<Played>, PlayFault>
    ensures played { IfOk result (λ found. IfSome found (λ p. IsPlayed program.now answers.now limit p.summary p.published.items p.journal)) }
    ensures ended { IfOk result (λ found. IfSome found (λ p. (p.summary.end ≡ End.Halted) ⊎ (p.summary.end ≡ End.Quiet))) }
{
    let Ok(found) = way_to(alloc, program, answers, wanted, most) else {
        return Err(PlayFault::Memory);
    };
    let Some(mut way) = found else {
        return Ok(None);
    };
    // `Steps` takes entries from the end.
    way.reverse();
    // The run is played again from its beginning, so that the rules test each of its entries.
    let Ok(mut history) = History::new(alloc, program) else {
        return Err(PlayFault::Memory);
    };
    let mut steps = Steps { rest: way };
    let end = proceed(&mut history, &mut steps, program, answers, limit)?;
    match end {
        End::Halted | End::Quiet => Ok(Some(history.played(end))),
        // The run that was found has more than `limit` entries. `proceed` never answers Full.
        End::Limit | End::Full => Ok(None),
        End::Memory => Err(PlayFault::Memory),
    }
}
