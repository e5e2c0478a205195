//! Journals replayed by calls of the ledger, entry by entry.
//!
//! Of an entry the replay looks at the token, call, cell or otherwise that it names, at the value and cell that a token's move takes, and at a tick's
//! time. Once the replay is over the whole journals are compared.
//!
//! `checks/memory` refuses one request for memory in each run. The call is then made again, and has to do what it would have done at first: that
//! shows that a refused call changes nothing.

ghost use Rattle.std.specs.Prelude.{◌≡◌, true};

use crate::ledger::notes::{Notes, Side};
use crate::stop::{Mismatch, REFUSED, Stop, UNREAD};
use crate::texts::are_same;
use orc_env::StoredScope;
use orc_graph::Graph;
use orc_journal::{Journal, Version};
use orc_ledger::{
    Action, HaltFault, Halted, Inputs, Ledger, LedgerFault, Moved, Next, ReturnFault, Run,
};
use orc_rules::answers::Answers;
use orc_rules::entry::{Entry, State};
use orc_rules::limits::{MOST_ENTRIES, MOST_GROUPS};
use orc_rules::program::Program;
use orc_rules::value::{Answer, Args};
use std::alloc::Global;
use std::marker::Brand;

/// A ledger that does entries one after another, and what the replay has to note of them.
pub(crate) struct Replay<P: Run> {
    /// The state of the run, which each entry changes by a call of the ledger.
    pub ledger: Ledger<P>,
    // Where each token is, and which groups are open.
    notes: Notes,
    // Lent to the ledger's calls, in turn for the scopes of a called definition, the numbers of cancelled calls, and the arguments of a call. The
    // replay looks at none of them.
    scopes: Vec<StoredScope>,
    cancelled: Vec<u64>,
    args: Args,
}

// Written out, so that each exit of a function that has a run drops it by one call.
impl<P: Run> Drop for Replay<P> {
    fn drop(self) {
        let Replay {
            ledger,
            notes,
            scopes,
            cancelled,
            args,
        } = self;
        drop(ledger);
        drop(notes);
        drop(scopes);
        drop(cancelled);
        drop(args);
    }
}

// Whether the entry is what a token does next, which is its action `what`. The marks and numbers that the entry gives to what is new are compared
// afterwards.
fn says(what: Action, entry: &Entry) -> bool {
    match (what, entry) {
        (Action::Halt, Entry::End(_)) => true,
        (Action::Fork, Entry::Fork(_, _, _)) => true,
        (Action::Seq, Entry::Seq(_, _)) => true,
        (Action::Other, Entry::Other(_, _)) => true,
        (Action::Prune, Entry::Open(_, _, _, _)) => true,
        (Action::Def, Entry::Def(_, _)) => true,
        (Action::Void, Entry::Void(_)) => true,
        (Action::Call, Entry::Call(_, _, _, _)) => true,
        // With these three the value, and the cell of a bind, have to be the same, too.
        (Action::Publish(value), Entry::Publish(_, v)) => value == *v,
        (Action::Send(value), Entry::Send(_, _, v)) => value == *v,
        (Action::Bind(cell, value), Entry::Bind(_, c, v)) => cell == *c && value == *v,
        // Another kind of entry, or the token waits.
        _ => false,
    }
}

impl<P: Run> Replay<P> {
    /// A run that has begun: token 1 stands at the program's main term, in slot 0. The error is refused memory. The clauses ask that the graph is
    /// that of the run `P`, which keeps its journal and has the greatest limit.
    pub(crate) fn begin(alloc: Global, graph: &Graph) -> Result<Replay<P>, Mismatch>
        requires keeps { P.keeps ≡ true }
        requires graph { graph.now ≡ P.listing }
        requires limit { P.limit ≡ MOST_ENTRIES }
    {
        let ledger = Ledger::begin(alloc, true, MOST_ENTRIES as usize, graph.root())?;
        let Ok(notes) = Notes::new(alloc) else {
            return Err(Mismatch::Memory);
        };
        Ok(Replay {
            ledger,
            notes,
            scopes: Vec::new(alloc),
            cancelled: Vec::new(alloc),
            args: Args::new(),
        })
    }

    /// Has the ledger do what an entry says, by the call for its kind, and then closes the groups that end without an entry. A `cancel` is refused as
    /// Other: the ledger makes it with its bind. The error says why the entry fails. Where memory is refused nothing has changed.
    pub(crate) fn enter(&mut self, inputs: &Inputs<'_, P>, entry: &Entry) -> Result<(), Mismatch> {
        if self.notes.make_room().is_err() {
            return Err(Mismatch::Memory);
        }
        match entry {
            Entry::End(serial)
            | Entry::Fork(serial, _, _)
            | Entry::Seq(serial, _)
            | Entry::Other(serial, _)
            | Entry::Def(serial, _)
            | Entry::Void(serial)
            | Entry::Open(serial, _, _, _)
            | Entry::Send(serial, _, _)
            | Entry::Call(serial, _, _, _)
            | Entry::Bind(serial, _, _)
            | Entry::Publish(serial, _) => self.advance(inputs, *serial, entry)?,
            Entry::Return(number, _, value) => self.answer(*number, Answer::Value(*value))?,
            Entry::ReturnHalt(number) => self.answer(*number, Answer::Halt)?,
            Entry::Lost(cell) => self.halt(Side::Right(*cell))?,
            Entry::Right(number, _) => self.halt(Side::Left(*number))?,
            Entry::Tick(time) => self.tick(inputs, *time)?,
            Entry::Cancel(_) => return Err(Mismatch::Other),
        }
        self.close_published()
    }

    // Has the ledger do what an entry says, and once more if memory was refused: nothing has changed then, so the second call has to do what the
    // first one would have done.
    fn enter_again(&mut self, inputs: &Inputs<'_, P>, entry: &Entry) -> Result<(), Mismatch> {
        match self.enter(inputs, entry) {
            Err(Mismatch::Memory) => self.enter(inputs, entry),
            entered => entered,
        }
    }

    // The token with this serial makes its next move, if that is the entry: Gone if no token has this serial (its mark in the journal), Word if the
    // token does something else next.
    fn advance(
        &mut self,
        inputs: &Inputs<'_, P>,
        serial: u64,
        entry: &Entry,
    ) -> Result<(), Mismatch> {
        // The slot in which the ledger keeps the token, by the notes.
        let Some(slot) = self.notes.slot_of(serial) else {
            return Err(Mismatch::Gone);
        };
        let Some(token) = self.ledger.held(slot) else {
            return Err(Mismatch::Gone);
        };
        // The slot has a later token by now: the one that is asked for is gone.
        if token.serial != serial {
            return Err(Mismatch::Gone);
        }
        if !says(self.ledger.what(inputs, &token), entry) {
            return Err(Mismatch::Word);
        }
        // The group that the token is in before its move: the innermost open side around it, or 0, the program's own.
        let group = self.ledger.group_of_token(&token);
        let moved = self
            .ledger
            .advance(inputs, slot, token, &mut self.scopes, &mut self.cancelled)?;
        match moved {
            // A call of a site is another call of the ledger. No token comes of it, so nothing has to be noted.
            Moved::Calls => {
                self.ledger.call(inputs, slot, token, &mut self.args)?;
                Ok(())
            }
            moved => self.follow(entry, slot, group, moved),
        }
    }

    // Notes what a token's move, which wrote `entry`, has done: the tokens that came of it, a side that was entered, and groups that a publication
    // has left. The token stood in `slot` and in the group with the number `group`, and its successor, if it has one, is in the same slot.
    fn follow(
        &mut self,
        entry: &Entry,
        slot: usize,
        group: u32,
        moved: Moved,
    ) -> Result<(), Mismatch> {
        match moved {
            // One successor, in the same slot.
            Moved::On => {
                // The successor's group: the left side's own, if the token has entered an otherwise.
                let inner = self.stand(slot)?;
                match entry {
                    Entry::Other(number, _) => self.notes.open(inner, Side::Left(*number), group),
                    _ => Ok(()),
                }
            }
            // Two successors: one in the same slot, the other in the slot `right`.
            Moved::Forked(right) => {
                self.stand(slot)?;
                // The right token's group: the right side's own, if the token has opened a pruning.
                let inner = self.stand(right)?;
                match entry {
                    Entry::Open(_, cell, _, _) => self.notes.open(inner, Side::Right(*cell), group),
                    _ => Ok(()),
                }
            }
            // A `>x>` took the value: the successor, on the right side, is in the same slot.
            Moved::Sent(_) => {
                // On its way to the `>x>` the value has left the left sides of otherwises between the old token's group and the new one's.
                let outer = self.stand(slot)?;
                self.notes.leave(group, outer)
            }
            // The token has no successor.
            Moved::Gone(_) => match entry {
                // The value leaves all left sides around the token, up to the program's own group.
                Entry::Publish(_, _) => self.notes.leave(group, 0),
                // The token has ended, and has published nothing.
                _ => Ok(()),
            },
            // The token has bound this cell: all that was in its right side is gone.
            Moved::Bound(cell, _) => self.notes.drop_side(cell),
            // Not reached: `advance` itself makes the call for `Calls`, and `says` accepts no entry for a token that waits.
            Moved::Calls | Moved::Waits => Err(Mismatch::Word),
        }
    }

    // Notes that the newest token is in this slot, and gives the number of the token's group. Gone if no token is there, Other if the token's serial
    // isn't the next one.
    fn stand(&mut self, slot: usize) -> Result<u32, Mismatch> {
        let Some(token) = self.ledger.held(slot) else {
            return Err(Mismatch::Gone);
        };
        self.notes.stand(token.serial, slot)?;
        Ok(self.ledger.group_of_token(&token))
    }

    // Has the ledger halt the group with this number, and once more where memory was refused, since nothing has changed then. `enter` can't be called
    // again for that: the entry before was made.
    fn halt_again(&mut self, number: u32) -> Result<Halted, HaltFault> {
        match self.ledger.halt(number) {
            Err(HaltFault::Refused(LedgerFault::Memory)) => self.ledger.halt(number),
            halted => halted,
        }
    }

    // Closes the groups that have published and have no members left: they end without an entry. To close one may take the last member from the group
    // outside it, so the search begins again after each. No more than `MOST_GROUPS` are open, so the loop ends by `return`.
    fn close_published(&mut self) -> Result<(), Mismatch> {
        for _outwards in 0..MOST_GROUPS {
            // None: no group is left to close.
            let Some(place) = self.notes.groups.iter().position(|open| open.has_published
                && self.ledger.is_empty(open.number))
            else {
                return Ok(());
            };
            let open = self.notes.groups.swap_remove(place);
            match self.halt_again(open.number) {
                Ok(Halted::Closed(parent)) if parent == open.parent => {}
                // Refused, or another end or parent than what was noted.
                _ => return Err(Mismatch::Other),
            }
        }
        Err(Mismatch::Other)
    }

    // Halts a side, which has no members any more: a cell is lost, or the right side of an otherwise starts. Gone if the side isn't open, Live if its
    // group has members, Other if its group ends without an entry, else Limit or Memory.
    fn halt(&mut self, side: Side) -> Result<(), Mismatch> {
        let Some(place) = self.notes.groups.iter().position(|open| open.side == side) else {
            return Err(Mismatch::Gone);
        };
        match self.ledger.halt(self.notes.groups[place].number) {
            // The cell is lost. No token comes.
            Ok(Halted::Lost(_, _)) => {
                self.notes.groups.swap_remove(place);
                Ok(())
            }
            // The right side of the otherwise starts: its token is in this slot.
            Ok(Halted::Resumed(slot)) => {
                self.notes.groups.swap_remove(place);
                self.stand(slot)?;
                Ok(())
            }
            // The side had published, so its group ends without an entry, though the journal has one.
            Ok(Halted::Closed(_)) => Err(Mismatch::Other),
            Err(HaltFault::Gone) => Err(Mismatch::Gone),
            Err(HaltFault::Live) => Err(Mismatch::Live),
            Err(HaltFault::Refused(fault)) => Err(Mismatch::from(fault)),
        }
    }

    // Answers the pending call with this number, its number in the journal: with a value, on which a token stands then, or with a halt. Gone if no
    // such call pends, Wrong if the table has another answer or another due time, else Limit or Memory.
    fn answer(&mut self, number: u64, answer: Answer) -> Result<(), Mismatch> {
        match self.ledger.returned(number, answer) {
            // Answered with a value: its token is in this slot.
            Ok(Some(slot)) => {
                self.stand(slot)?;
                Ok(())
            }
            // Answered with a halt: no token comes.
            Ok(None) => Ok(()),
            Err(ReturnFault::Gone) => Err(Mismatch::Gone),
            Err(ReturnFault::Wrong) => Err(Mismatch::Wrong),
            Err(ReturnFault::Limit) => Err(Mismatch::Limit),
            Err(ReturnFault::Memory) => Err(Mismatch::Memory),
        }
    }

    // Lets the run's time go on to `wanted`, in logical units. Time if the ledger says that something else comes next, or a tick to another time.
    fn tick(&mut self, inputs: &Inputs<'_, P>, wanted: u64) -> Result<(), Mismatch> {
        let next = self.ledger.next(inputs);
        // Shows the prover the ledger's invariant, which `tick` needs; nothing runs.
        self.ledger.is_whole();
        match next {
            Next::Ticks(time) if time == wanted => {
                self.ledger.tick(time)?;
                Ok(())
            }
            _ => Err(Mismatch::Time),
        }
    }

    /// The state to which the entries have led, by the ledger: Halted, Quiet (it waits for ever), or Running.
    pub(crate) fn state(&mut self, inputs: &Inputs<'_, P>) -> State {
        if self.ledger.has_halted() {
            return State::Halted;
        }
        match self.ledger.next(inputs) {
            Next::Quiet => State::Quiet,
            Next::Work | Next::Ticks(_) => State::Running,
        }
    }

    // Has the ledger do what the entries say, up to the first one that fails. An entry whose place the ledger's journal has reached already is passed
    // over: it is a cancel, which the ledger has written with its bind. `replay_named` compares it.
    fn follow_journal(&mut self, inputs: &Inputs<'_, P>, journal: &Journal) -> Result<(), Stop> {
        for at in 0..journal.len() {
            // Not reached: there is an entry at each place before the length.
            let Some(entry) = journal.get(at) else {
                return Ok(());
            };
            // The ledger's journal hasn't reached this place: the entry is still to be made.
            if self.ledger.journal_len() <= at
                && let Err(why) = self.enter_again(inputs, &entry)
            {
                return Err(Stop {
                    // In a `Stop` entries count from 1.
                    at: at.saturating_add(1),
                    why,
                });
            }
        }
        Ok(())
    }
}

// Has a new ledger do the entries of a journal of the program with this graph. Ok, with the state to which they lead, if the ledger writes the same
// journal; the error is Other at the last entry if it writes another one. The clauses ask that graph, answers and limit are those of the run `P`, and
// that it keeps its journal.
fn replay_named<P: Run>(
    alloc: Global,
    graph: &Graph,
    answers: &Answers,
    journal: &Journal,
) -> Result<State, Stop>
    requires graph { graph.now ≡ P.listing }
    requires answers { answers.now.sites ≡ P.sites }
    requires limit { P.limit ≡ MOST_ENTRIES }
    requires keeps { P.keeps ≡ true }
{
    let inputs = Inputs::new(graph, answers);
    let mut replay = match Replay::<P>::begin(alloc, graph) {
        Ok(replay) => replay,
        Err(why) => return Err(Stop { at: 0, why }),
    };
    replay.follow_journal(&inputs, journal)?;
    let at = journal.len();
    // None: memory was refused.
    match are_same(alloc, answers, replay.ledger.journal(), journal) {
        Some(true) => Ok(replay.state(&inputs)),
        Some(false) => Err(Stop {
            at,
            why: Mismatch::Other,
        }),
        None => Err(Stop {
            at,
            why: Mismatch::Memory,
        }),
    }
}

/// Replays a journal of the second version: a ledger that begins with the program does each entry by the call for its kind. Groups that a publication
/// has left are closed as soon as they have no members. Ok, with the state to which the entries have led, if the ledger writes the same journal. An
/// entry that ends a side, or a tick, fails with Live or Time if ends of tokens or of inner sides are still to be written: the rules allow it, but
/// the ledger refuses it before these.
pub(crate) fn replay_journal(
    alloc: Global,
    program: &Program,
    answers: &Answers,
    journal: &Journal,
) -> Result<State, Stop> {
    if journal.version() != Version::Two {
        return Err(UNREAD);
    }
    let Ok(graph) = Graph::build(alloc, program) else {
        return Err(REFUSED);
    };
    // `Brand` is a fresh name for the run, for contracts alone.
    replay_named::<Brand>(alloc, &graph, answers, journal)
}
