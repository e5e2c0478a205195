//! What can come next in a run: the tokens that can move, in the order of their turns, and the calls by their due times. A token is given by its
//! mark, a call and a cell by their numbers. `marked` is the marked term, which is what is left of the program's term after the entries so far. A
//! *cell* is the variable of an opened `<x<`, and *settled* once it is bound or lost. A *side* is the right one of a `<x<`, or the left one of a `;`.
//! A *cancel* is the entry which says that a bind has dropped a pending call. The engine's loop asks its `Turns`, here an agenda, for the next entry,
//! and tells it of each that was recorded.

use crate::reference::{Choice, Turns};
use orc_checker::{Marked, Side};
use orc_rules::entry::Entry;
use orc_rules::limits::MOST_ARGUMENTS;
use orc_rules::program::Program;
use orc_verdict::{numbers_of, return_entry, side_entry, token_entry};
use std::alloc::{AllocError, Global};
use std::cmp::Reverse;
use std::collections::{BTreeMap, BinaryHeap, VecDeque};

/// A token in the queue, by its mark.
#[derive(Clone, Copy)]
struct Queued {
    token: u64,
    /// Whether the token is already in the lists of all cells for which it still waits. It is if it comes from such a list.
    listed: bool,
}

/// A queue in which tokens take their turns one after another, so that none is starved; and the calls by their due times. A token that waits is in
/// the list of each cell for which it waits, since a call can move as soon as one of its arguments is void (its cell is lost), whichever that is.
#[derive(Drop)]
pub struct Agenda {
    /// The queue of tokens that may be able to move, the next one first. A token that a bind has dropped stays in it: its turn is skipped.
    tokens: VecDeque<Queued>,
    /// For each cell the tokens that wait for it, those that began to wait first in front.
    waiting: BTreeMap<u64, Vec<u64>>,
    /// The due time and the number of each call that has one, the least first.
    due: BinaryHeap<Reverse<(u64, u64)>>,
}

impl Agenda {
    /// The agenda of a run's beginning: token 1. The error is refused memory.
    pub fn new(alloc: Global) -> Result<Agenda, AllocError> {
        let mut tokens = VecDeque::new(alloc);
        tokens.push_back(Queued {
            token: 1,
            listed: false,
        })?;
        Ok(Agenda {
            tokens,
            waiting: BTreeMap::new(alloc),
            due: BinaryHeap::new(alloc),
        })
    }

    // Puts a token into the list of each cell for which it waits. The error is refused memory.
    fn wait(&mut self, program: &Program, marked: &Marked, token: u64) -> Result<(), AllocError> {
        let alloc = *self.tokens.allocator();
        // A call waits for any of its arguments, a variable at position 0 alone.
        for position in 0..MOST_ARGUMENTS {
            if let Some(cell) = marked.awaited(program, token, position) {
                let tokens = self.waiting.entry(cell)?.or_insert(Vec::new(alloc));
                tokens.push(token)?;
            }
        }
        Ok(())
    }

    // Puts a new token at the end of the queue. The error is refused memory.
    fn join(&mut self, token: u64) -> Result<(), AllocError> {
        self.tokens.push_back(Queued {
            token,
            listed: false,
        })?;
        Ok(())
    }

    // The return of a call that is due now, of several the one with the least number, else a tick to the least due time; nothing if no pending call
    // will ever be due. A call that returns leaves `due`; one for which the time goes on stays there, for its turn.
    fn choose_call(&mut self, marked: &Marked) -> Choice {
        // Each turn but the last drops a cancelled call, so there are no more turns than calls in the queue.
        for _ in 0..self.due.len() {
            let Some(&Reverse((at, call))) = self.due.peek() else {
                break;
            };
            // None if the call was cancelled.
            let answer = marked.due(call);
            // The call is due later: the time goes on to then.
            if answer.is_some() && marked.now() < at {
                return Choice::Entry(Entry::Tick(at));
            }
            self.due.pop();
            if let Some((answer, _)) = answer {
                return Choice::Entry(return_entry(marked, call, answer));
            }
        }
        Choice::Nothing
    }

    // Puts the tokens that wait for a cell at the end of the queue, since it was bound or lost. The error is refused memory.
    fn wake(&mut self, cell: u64) -> Result<(), AllocError> {
        if let Some(tokens) = self.waiting.remove(&cell) {
            for token in tokens {
                self.tokens.push_back(Queued {
                    token,
                    listed: true,
                })?;
            }
        }
        Ok(())
    }
}

impl Turns for Agenda {
    // A move of the token whose turn it is, else the end of the halted side (`side`, if there is one), else what `choose_call` chooses. The token
    // that moves leaves the queue. The error is refused memory.
    fn choose(
        &mut self,
        program: &Program,
        marked: &Marked,
        side: Option<Side>,
    ) -> Result<Choice, AllocError> {
        // Each turn takes a token off the queue. One that waits comes back with the cell that it waits for (`wake`), one that moves is used up.
        for _ in 0..self.tokens.len() {
            let Some(turn) = self.tokens.pop_front() else {
                break;
            };
            // None if the token is gone: no cancel is due here.
            if let Some(next) = marked.next(program, turn.token) {
                match token_entry(marked, turn.token, next) {
                    Some(entry) => return Ok(Choice::Entry(entry)),
                    // It waits, and stands already in the lists of its cells.
                    None if turn.listed => {}
                    None => self.wait(program, marked, turn.token)?,
                }
            }
        }
        // No token can move, so the halted side ends: its otherwise goes to the right side, or its cell is lost.
        if let Some(side) = side {
            if let Some(entry) = side_entry(marked, side) {
                return Ok(Choice::Entry(entry));
            }
        }
        Ok(self.choose_call(marked))
    }

    // Puts new tokens and a new call into their queues, and wakes the tokens that wait for a cell which the entry has settled.
    fn note(&mut self, entry: &Entry, marked: &Marked) -> Result<(), AllocError> {
        // The numbers that the entry has brought: a mark, a second one, or a call.
        let new = numbers_of(entry);
        if let Some(mark) = new.mark {
            self.join(mark)?;
        }
        if let Some(second) = new.second {
            self.join(second)?;
        }
        if let Some(call) = new.call {
            // A call that is never due isn't put into the queue.
            if let Some((_, at)) = marked.due(call) {
                self.due.push(Reverse((at, call)))?;
            }
        }
        match entry {
            Entry::Bind(_, cell, _) | Entry::Lost(cell) => self.wake(*cell),
            // No other entry settles a cell.
            _ => Ok(()),
        }
    }
}
