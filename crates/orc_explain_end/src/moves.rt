//! What can come next in a run, and what waits. A run that its limit cut can go on; in a quiet one no entry can come. The marked term, which `replay`
//! has, knows what each token can do; a mark is the number of a token. A cell is what an opened pruning puts for its variable. The replay's trail has
//! the tokens that no entry has used up, dropped ones too, and says which otherwises were entered.

use crate::replay::Replay;
use orc_rules::entry::Entry;
use orc_rules::limits::MOST_ARGUMENTS;
use orc_rules::program::Program;
use orc_verdict::{return_entry, token_entry};
use std::alloc::{AllocError, Global};

/// How many of the entries that can come next are kept, to be shown in one line.
const KEPT: usize = 4;

/// A cell for which tokens wait.
#[derive(Clone, Copy)]
pub(crate) struct Wait {
    /// The cell's number, from 1.
    pub cell: u64,
    /// How many tokens wait for it, and the mark of the first of them, which is the least; 0 where none does.
    pub tokens: u64,
    pub first: u64,
    // The mark of the token that was counted last, 0 at first: a token on a call may wait for this cell in several arguments, and is to count once.
    last: u64,
}

/// What can come next in a run.
pub(crate) struct Moves {
    /// The first few entries that can come next: those of tokens in the order of their marks, `lost` and `right`, returns; a tick only if none of
    /// these can.
    pub entries: Vec<Entry>,
    /// How many entries can come in all.
    pub count: u64,
    /// How many tokens there are.
    pub tokens: u64,
    /// The marks of the tokens that wait for a cell, in ascending order.
    pub waiting: Vec<u64>,
    /// One for each cell, cell 1 first, also for those for which no token waits.
    pub waits: Vec<Wait>,
    /// How many right sides of prunings and left sides of otherwises are open: they haven't halted, nor has a value come out of them.
    pub sides: u64,
}

// Written out, so that a caller's proof sees one call and not the drop of each field.
impl Drop for Moves {
    fn drop(self) {
        let Moves {
            entries: _,
            count: _,
            tokens: _,
            waiting: _,
            waits: _,
            sides: _,
        } = self;
    }
}

impl Moves {
    /// What can come next where a run stands. The replay stays as it is, though it is borrowed exclusively to find the next due time. The error is
    /// refused memory.
    pub(crate) fn new(
        alloc: Global,
        program: &Program,
        replay: &mut Replay,
    ) -> Result<Moves, AllocError> {
        let mut moves = Moves {
            entries: Vec::new(alloc),
            count: 0,
            tokens: 0,
            waiting: Vec::new(alloc),
            waits: Vec::new(alloc),
            sides: 0,
        };
        for _cell in &replay.cells {
            let cell = (moves.waits.len() as u64).saturating_add(1);
            moves.waits.push(Wait {
                cell,
                tokens: 0,
                first: 0,
                last: 0,
            })?;
        }
        moves.add_tokens(program, replay)?;
        moves.add_sides(replay)?;
        moves.add_returns(replay)?;
        // Time goes on only where nothing else can happen.
        if moves.count == 0 {
            if let Some(time) = replay.marked.next_due() {
                moves.add(Entry::Tick(time))?;
            }
        }
        Ok(moves)
    }

    // Counts an entry that can come next, and keeps it if it is one of the first few. The error is refused memory.
    fn add(&mut self, entry: Entry) -> Result<(), AllocError> {
        self.count = self.count.saturating_add(1);
        if self.entries.len() < KEPT {
            self.entries.push(entry)?;
        }
        Ok(())
    }

    // Looks at each mark that the run has given so far: what its token can do, or for what it waits. Marks that no token has any more are passed
    // over. The error is refused memory.
    fn add_tokens(&mut self, program: &Program, replay: &Replay) -> Result<(), AllocError> {
        for mark in 1..replay.marked.new_mark() {
            if replay.trail.token(mark).is_some() {
                // One that was dropped with a side can do nothing.
                if let Some(next) = replay.marked.next(program, mark) {
                    self.tokens = self.tokens.saturating_add(1);
                    // The entry of the token's next move; None where the token waits for a value.
                    match token_entry(&replay.marked, mark, next) {
                        Some(entry) => self.add(entry)?,
                        None => self.wait(program, replay, mark)?,
                    }
                }
            }
        }
        Ok(())
    }

    // Notes a token that waits, and for which cells: that of its variable, or those of its call's arguments, that have no value yet. The error is
    // refused memory.
    fn wait(&mut self, program: &Program, replay: &Replay, token: u64) -> Result<(), AllocError> {
        self.waiting.push(token)?;
        // The position is that of an argument of a call, from 0; a variable has its cell at position 0.
        for position in 0..MOST_ARGUMENTS {
            if let Some(cell) = replay.marked.awaited(program, token, position) {
                self.wait_for(cell, token);
            }
        }
        Ok(())
    }

    // Counts a token among those that wait for a cell, from 1, unless it was counted already. Marks come in ascending order, so the first one is the
    // least.
    fn wait_for(&mut self, cell: u64, token: u64) {
        // Cell 1 is at place 0.
        let at = (cell as usize).saturating_sub(1);
        if let Some(wait) = self.waits.get_mut(at) {
            if wait.last != token {
                wait.last = token;
                wait.tokens = wait.tokens.saturating_add(1);
                if wait.first == 0 {
                    wait.first = token;
                }
            }
        }
    }

    // Looks at each side that hasn't ended: right sides of prunings by their cells, and left sides of otherwises by their marks. Of a side that has
    // ended, has published or was dropped the term says nothing (None). The error is refused memory.
    fn add_sides(&mut self, replay: &Replay) -> Result<(), AllocError> {
        let mut cell: u64 = 0;
        for _cell in &replay.cells {
            cell = cell.saturating_add(1);
            if let Some(has_halted) = replay.marked.right_has_halted(cell) {
                self.add_side(has_halted, Entry::Lost(cell))?;
            }
        }
        for mark in 1..replay.marked.new_mark() {
            if replay.trail.is_entered(mark) {
                if let Some(has_halted) = replay.marked.left_has_halted(mark) {
                    // An entry `right` names the otherwise and the mark of the token that it brings, which is the next new mark.
                    let entry = Entry::Right(mark, replay.marked.new_mark());
                    self.add_side(has_halted, entry)?;
                }
            }
        }
        Ok(())
    }

    // A side that has halted can end with this entry; any other one is open. The error is refused memory.
    fn add_side(&mut self, has_halted: bool, entry: Entry) -> Result<(), AllocError> {
        if has_halted {
            self.add(entry)?;
        } else {
            self.sides = self.sides.saturating_add(1);
        }
        Ok(())
    }

    // Adds the return of each pending call that is due now. The error is refused memory.
    fn add_returns(&mut self, replay: &Replay) -> Result<(), AllocError> {
        let mut call: u64 = 0;
        for made in &replay.calls {
            call = call.saturating_add(1);
            if made.is_out {
                match replay.marked.due(call) {
                    Some((answer, time)) if time == replay.marked.now() => {
                        self.add(return_entry(&replay.marked, call, answer))?;
                    }
                    // It is due later, or never.
                    _ => {}
                }
            }
        }
        Ok(())
    }
}
