//! Journals replayed by calls of the book, entry by entry. A token is out while the replay has it. The book keeps a token that waits. A token's
//! *mark*, or serial, is its number from 1. A *group* is what runs in one right side of a `<x<`, one left side of a `;`, or the whole program. A
//! *pass* stands for one record (a token, a pending call, an inner group) in its group, and the group's *word* counts its passes; an *idle* one names
//! no group, and to *leave* a pass makes it idle. A bind *kills* the groups of its cell's right side: their words are in use until all their passes
//! are left. `setup` has the program, the table of sites and the words.
//!
//! Of an entry the replay looks at the token, call, cell or otherwise that it names, and at a tick's time. The other marks and values in it are
//! compared once the replay is over, when the whole journals are (`journals.rt`).
//!
//! A replay ends at its first error, so what a refused call gives back is dropped: `?` makes a `Mismatch` of a refusal. Memory also stands for an
//! empty supply of passes: a supply has more than a run needs, except in rows that say how many.
//!
//! Loops that end by `break` go over `0..u64::MAX`, so that the prover sees an end.

ghost use Rattle.std.specs.Prelude.{◌≡◌, ◌≤◌, true, ⊤};
ghost use Rattle.orc_rules.specs.declared.limits.TheConstants.{MOST_ENTRIES};

use crate::book::held::Held;
use crate::book::passes::Passes;
use crate::book::setup::Setup;
use crate::book::sides::Side;
use crate::stop::Mismatch;
use orc_book::{Answered, Births, Book, Ended, Next, Refused, StepOut, Token};
use orc_ledger::{Action, Ledger};
use orc_log::Run;
use orc_rules::entry::Entry;
use orc_rules::value::{Answer, Args};
use orc_word::{Naming, Pass, Supply};
use std::alloc::Global;
use std::marker::Model;

/// A book that does entries one after another, and what it has given out.
pub(crate) struct Replay<P: Run + Naming> {
    // The book, which has the records of the run and writes its journal.
    pub book: Book<P>,
    // The tokens and passes that the book has given out, and what each group is.
    pub held: Held<P>,
    // Lent to the book's calls: passes for a step's new records, what came out of the last call, and the arguments of the last call of a site.
    births: Births<P>,
    step: StepOut<P>,
    args: Args,
}

// Contracts see nothing of it: no caller's proof has to carry a book.
impl<P: Run + Naming> Model for Replay<P> {
    ghost Value = { ⊤ };

    ghost view = { λ _. tt };
}

// Written out, so that each exit of a function that has a run drops it by one call.
impl<P: Run + Naming> Drop for Replay<P> {
    fn drop(self) {
        let Replay {
            book,
            held,
            births,
            step,
            args,
        } = self;
        drop(book);
        drop(held);
        drop(births);
        drop(step);
        drop(args);
    }
}

impl<P: Run + Naming> Replay<P> {
    /// A run whose first token is out, with `words` words for its groups, a journal of at most `limit` entries (cancels left out), and passes out of
    /// this supply. None where memory is refused, or the supply is empty. The journal is kept. The clauses ask that `limit` and `words` are those of
    /// `P`, which stands for the run in contracts.
    pub(crate) fn begin(
        alloc: Global,
        setup: &Setup<'_, P>,
        mut supply: Supply<P>,
        words: u32,
        limit: usize,
    ) -> Option<Replay<P>>
        requires limit { (1 ≤ limit) × (limit ≤ MOST_ENTRIES) }
        requires named { limit ≡ P.limit }
        requires keeps { P.keeps ≡ true }
        requires words { words ≡ P.table.words }
    {
        let idle = supply.take(setup.groups)?;
        // The first token is in the program's own group, whose word is 0. `true` has the book keep its journal.
        let pass = setup.groups.open(idle, 0).ok()?;
        let (book, token) = Book::<P>::new(alloc, setup.inputs, true, limit, words, pass).ok()?;
        let mut held = Held::new(alloc, Passes::new(alloc, supply), words).ok()?;
        held.stand(token).ok()?;
        Some(Replay {
            book,
            held,
            births: Births::new(alloc),
            step: StepOut::new(alloc),
            args: Args::new(),
        })
    }

    /// Has the book do what an entry says, by the call for its kind, and then leaves the passes that no record has any more. A `cancel` was made by
    /// the book with its bind, and is compared; any other entry is Other while the journal hasn't named all cancels of the last bind.
    pub(crate) fn enter(&mut self, setup: &Setup<'_, P>, entry: &Entry) -> Result<(), Mismatch> {
        if let Entry::Cancel(number) = entry {
            return self.held.cancel(*number);
        }
        if self.held.owed > 0 {
            return Err(Mismatch::Other);
        }
        match entry {
            // `number` is the call's. The mark of the token that stands on the value isn't looked at here: the whole journals are compared in the
            // end.
            Entry::Return(number, _, value) => self.answer(*number, Answer::Value(*value))?,
            Entry::ReturnHalt(number) => self.answer(*number, Answer::Halt)?,
            // `lost` ends a cell's right side. `right` ends the left side of the otherwise that `mark` names, and starts its right side.
            Entry::Lost(cell) => self.halt(setup, Side::Right(*cell))?,
            Entry::Right(mark, _) => self.halt(setup, Side::Left(*mark))?,
            Entry::Tick(time) => self.tick(setup, *time)?,
            // All others are the next move of the token with this mark.
            Entry::End(mark)
            | Entry::Void(mark)
            | Entry::Fork(mark, _, _)
            | Entry::Seq(mark, _)
            | Entry::Def(mark, _)
            | Entry::Open(mark, _, _, _)
            | Entry::Other(mark, _)
            | Entry::Send(mark, _, _)
            | Entry::Call(mark, _, _, _)
            | Entry::Bind(mark, _, _)
            | Entry::Publish(mark, _) => self.advance(setup, *mark, entry)?,
            // Not reached: a cancel was taken above.
            Entry::Cancel(_) => {}
        }
        self.settle(setup)
    }

    // The token with this mark makes its next move, by the call for this kind of entry. The error is Gone if the token isn't out. The book refuses a
    // call that isn't for that move as Wrong. The entry's other fields (`_`) aren't looked at here: the whole journals are compared in the end.
    fn advance(&mut self, setup: &Setup<'_, P>, mark: u64, entry: &Entry) -> Result<(), Mismatch> {
        let Some(token) = self.held.take(mark) else {
            return Err(Mismatch::Gone);
        };
        match entry {
            // The token is gone, and its pass has to be left.
            Entry::End(_) | Entry::Void(_) => {
                let pass = self.book.end(setup.inputs, token)?;
                self.held.drop_pass(pass)
            }
            // A token with the next mark comes in this one's place, and has its pass.
            Entry::Seq(_, _) | Entry::Def(_, _) => {
                let token = self.book.go_on(setup.inputs, token)?;
                self.held.stand(token)
            }
            // The second token gets another pass to the group. The left token has the lower mark, so it stands first.
            Entry::Fork(_, _, _) => {
                let Some(same) = self.held.passes.same(setup.groups, &token.pass) else {
                    return Err(Mismatch::Memory);
                };
                let (left, right) = self.book.fork(setup.inputs, token, same)?;
                self.held.stand(left)?;
                self.held.stand(right)
            }
            // The book has to give the call the number by which later entries name it. It writes the call's arguments over `args`, which nobody reads
            // here.
            Entry::Call(_, wanted, _, _) => {
                let number = self.book.call(setup.inputs, token, &mut self.args)?;
                if number == *wanted {
                    Ok(())
                } else {
                    Err(Mismatch::Other)
                }
            }
            // The value leaves all left sides around the token: that is noted of each from the token's group outwards, up to the program's own group,
            // whose word is 0.
            Entry::Publish(_, _) => {
                self.held.leave_sides(token.pass.group(), Some(0))?;
                let pass = self.book.publish(setup.inputs, token)?;
                self.held.drop_pass(pass)
            }
            Entry::Open(_, cell, _, _) => self.prune(setup, token, *cell),
            Entry::Other(_, _) => self.other(setup, token, mark),
            Entry::Send(_, _, _) => self.send(setup, token),
            Entry::Bind(_, cell, _) => self.bind(setup, token, *cell),
            // `enter` took all others.
            _ => Err(Mismatch::Other),
        }
    }

    // The entry `open`: `idle` opens the word of the right side's group. For that group the book holds `same`, a pass to the token's group, in which
    // the right side's group is. `cell` is the cell that the entry names.
    fn prune(&mut self, setup: &Setup<'_, P>, token: Token<P>, cell: u64) -> Result<(), Mismatch> {
        // The word of the group in which the token is.
        let around = token.pass.group();
        let Some(same) = self.held.passes.same(setup.groups, &token.pass) else {
            return Err(Mismatch::Memory);
        };
        let Some(idle) = self.held.passes.idle(setup.groups) else {
            return Err(Mismatch::Memory);
        };
        let (left, right) = self
            .book
            .prune(setup.groups, setup.inputs, token, same, idle)?;
        self.held
            .enter_side(right.pass.group(), Side::Right(cell), around)?;
        self.held.stand(left)?;
        self.held.stand(right)
    }

    // The entry `other`: an idle pass opens the word of the group of the otherwise's left side. `mark` is the token's: a later entry `right` names
    // the left side by it.
    fn other(&mut self, setup: &Setup<'_, P>, token: Token<P>, mark: u64) -> Result<(), Mismatch> {
        // The word of the group in which the token is.
        let around = token.pass.group();
        let Some(idle) = self.held.passes.idle(setup.groups) else {
            return Err(Mismatch::Memory);
        };
        let token = self.book.other(setup.groups, setup.inputs, token, idle)?;
        self.held
            .enter_side(token.pass.group(), Side::Left(mark), around)?;
        self.held.stand(token)
    }

    // The entry `send`, a publication into a `>x>`. The move needs an idle pass if the publication leaves the token's group. One is lent in any case;
    // if it isn't used it stays in `births` for the next.
    fn send(&mut self, setup: &Setup<'_, P>, token: Token<P>) -> Result<(), Mismatch> {
        // The word of the group in which the token is before the move.
        let inside = token.pass.group();
        if self.births.idle.is_empty()
            && let Some(idle) = self.held.passes.idle(setup.groups)
            && self.births.idle.push(idle).is_err()
        {
            return Err(Mismatch::Memory);
        }
        // The book adds what comes of the move to `self.step`: a new token, and maybe a pass.
        self.book.step(
            setup.groups,
            setup.inputs,
            token,
            &mut self.births,
            &mut self.step,
        )?;
        // The token on a new copy of the `>x>`'s right side. Without it the book has done something else than the entry says.
        let Some(token) = self.step.born.pop() else {
            return Err(Mismatch::Other);
        };
        // There is a pass to be left if the publication has left the token's group.
        if let Some(pass) = self.step.leave.pop() {
            self.held.leave_sides(inside, token.pass.group())?;
            self.held.drop_pass(pass)?;
        }
        self.held.stand(token)
    }

    // Answers the pending call with this number: with a value, on which a token stands then, or with a halt, after which its pass has to be left.
    fn answer(&mut self, number: u64, answer: Answer) -> Result<(), Mismatch> {
        match self.book.returned(number, answer)? {
            Answered::Token(token) => self.held.stand(token),
            Answered::Halted(pass) => self.held.drop_pass(pass),
        }
    }

    // The entry `bind`: the token's value goes to the cell, all that was in the cell's right side is dropped, and the tokens that wait for the cell
    // come out. Other if the token isn't in this cell's right side.
    fn bind(&mut self, setup: &Setup<'_, P>, token: Token<P>, cell: u64) -> Result<(), Mismatch> {
        // The word of the cell's right side, in which the token is.
        let Some(word) = self.held.right_side(token.pass.group(), cell) else {
            return Err(Mismatch::Other);
        };
        // The book adds the passes of all that goes to `leave`, and writes the numbers of the calls that go over `cancelled`.
        self.book.bind(
            setup.groups,
            setup.inputs,
            token,
            &mut self.held.leave,
            &mut self.held.cancelled,
        )?;
        self.held.kill(word);
        self.wake(cell)?;
        // As long as killed groups use few words, tokens that went with them may keep their passes.
        if self.book.dying() < self.held.most_dying() {
            return Ok(());
        }
        self.sweep(setup)
    }

    /// Has the book bind, and does nothing else for it: `leave` gets the passes that are to be left, `cancelled` has the calls that went, and no
    /// token comes out that waits for the cell. The error is the book's.
    pub(crate) fn bind_only(
        &mut self,
        setup: &Setup<'_, P>,
        token: Token<P>,
        leave: &mut Vec<Pass<P>>,
    ) -> Result<(), Refused<Token<P>>> {
        let cancelled = &mut self.held.cancelled;
        self.book
            .bind(setup.groups, setup.inputs, token, leave, cancelled)
    }

    /// Takes the tokens that the book has kept for this cell, which was bound or lost. They have their old marks and slots.
    pub(crate) fn wake(&mut self, cell: u64) -> Result<(), Mismatch> {
        if self.book.wake(cell, &mut self.step.born).is_err() {
            return Err(Mismatch::Memory);
        }
        for _ in 0..u64::MAX {
            let Some(token) = self.step.born.pop() else {
                break;
            };
            self.held.hold(token)?;
        }
        Ok(())
    }

    /// Hands the tokens that are out and wait to the book, as has to be done before time goes on. It looks only at slots into which a token has come
    /// since the last time: any other token that is out was seen not to wait, and begins to wait only as a new token.
    pub(crate) fn keep_waiting(&mut self, setup: &Setup<'_, P>) -> Result<(), Mismatch> {
        for _ in 0..u64::MAX {
            let Some(slot) = self.held.next_listed() else {
                break;
            };
            self.look_at(setup, slot)?;
        }
        Ok(())
    }

    // Looks at the token that is out in a slot, if one is. If it went with a killed group its pass has to be left, if it waits the book gets it, and
    // else it stays.
    fn look_at(&mut self, setup: &Setup<'_, P>, slot: usize) -> Result<(), Mismatch> {
        let Some(token) = self.held.lift(slot) else {
            return Ok(());
        };
        // No view: the token has no record any more, since a bind has killed its group.
        let Some(view) = self.book.view(setup.inputs, token.slot, token.serial) else {
            return self.held.drop_pass(token.pass);
        };
        // A token that can move stays out.
        if !matches!(view.what, Action::Wait(_)) {
            self.held.put_back(token);
            return Ok(());
        }
        self.book.wait(setup.inputs, token)?;
        Ok(())
    }

    // Looks at the token of each slot (`look_at`): leaves the passes of those that went with a killed group, and hands those that wait to the book.
    // This takes time for each slot, so it is put off: `bind` does it when words get few, and other calls when without it nothing comes as the entry
    // says.
    fn sweep(&mut self, setup: &Setup<'_, P>) -> Result<(), Mismatch> {
        for slot in 0..self.held.slots_used() {
            self.look_at(setup, slot)?;
        }
        self.settle(setup)
    }

    // Leaves the passes that are to be left, and closes groups that end without an entry once their last pass was left. To close a group may give the
    // pass to the group outside it, so this is repeated until no such group is there.
    fn settle(&mut self, setup: &Setup<'_, P>) -> Result<(), Mismatch> {
        for _ in 0..u64::MAX {
            if self.held.leave_all(setup.groups).is_err() {
                return Err(Mismatch::Memory);
            }
            let Some(last) = self.held.take_last(None) else {
                break;
            };
            match self.book.halt(last, &mut self.held.leave)? {
                // It is closed; its pass to the group outside it is in `leave`, for the next turn.
                Ended::Group => {}
                // It ends with an entry, which none in the journal stands for.
                _ => return Err(Mismatch::Other),
            }
        }
        Ok(())
    }

    // Halts a side: a cell is lost, or the right side of an otherwise starts. If the group still has passes, they may be those of tokens that went
    // with a killed group, so it tries once more after a sweep. Live if one is left even then, Other if the group ends without an entry.
    fn halt(&mut self, setup: &Setup<'_, P>, side: Side) -> Result<(), Mismatch> {
        let mut ready = self.held.take_last(Some(side));
        if ready.is_none() {
            self.sweep(setup)?;
            ready = self.held.take_last(Some(side));
        }
        let Some(last) = ready else {
            return Err(Mismatch::Live);
        };
        // Tokens that wait for the cell come out, or a token starts the right side. The book may add to `leave` a pass to the group outside, which it
        // held for the closed one.
        match self.book.halt(last, &mut self.held.leave)? {
            Ended::Lost(cell) => self.wake(cell),
            Ended::Token(token) => self.held.stand(token),
            _ => Err(Mismatch::Other),
        }
    }

    // Lets time go on to this time, once the book keeps all tokens that wait. If it says that something else comes next, that may be a group which
    // ends without an entry once the passes of gone tokens are left. So it tries once more after a sweep. Time if the next tick is to another time,
    // or none comes.
    fn tick(&mut self, setup: &Setup<'_, P>, time: u64) -> Result<(), Mismatch> {
        self.keep_waiting(setup)?;
        // If a tick comes next the book has made it. If something else comes nothing has changed.
        let mut has_ticked = matches!(self.book.next(setup.inputs)?, Next::Ticked);
        if !has_ticked {
            self.sweep(setup)?;
            has_ticked = matches!(self.book.next(setup.inputs)?, Next::Ticked);
        }
        if has_ticked && self.book.now() == time {
            Ok(())
        } else {
            Err(Mismatch::Time)
        }
    }

    /// Leaves all passes that can be left. If the last one to the program's own group is among them it closes that group and gives true: the run has
    /// halted. Else false: a token is out or kept, a call pends, or a group is open.
    pub(crate) fn close_run(&mut self, setup: &Setup<'_, P>) -> Result<bool, Mismatch> {
        self.sweep(setup)?;
        if self.held.passes.leave_warm(setup.groups).is_err() {
            return Err(Mismatch::Memory);
        }
        let Some(last) = self.held.take_last(Some(Side::Whole)) else {
            return Ok(false);
        };
        match self.book.halt(last, &mut self.held.leave)? {
            Ended::Run => Ok(true),
            _ => Err(Mismatch::Other),
        }
    }

    /// Whether the book keeps the token with this mark: it is there, waits, and the replay doesn't have it. False of a mark that no token has, too.
    pub(crate) fn keeps(&self, setup: &Setup<'_, P>, mark: u64) -> bool {
        let Some(slot) = self.held.slot_of(mark) else {
            return false;
        };
        match self.book.view(setup.inputs, slot, mark) {
            Some(view) => matches!(view.what, Action::Wait(_)) && !self.held.is_out(mark),
            None => false,
        }
    }

    /// The records of the run. All else is let go, part by part as in `drop`.
    pub(crate) fn into_ledger(self) -> Ledger<P> {
        let Replay {
            book,
            held,
            births,
            step,
            args,
        } = self;
        drop(held);
        drop(births);
        drop(step);
        drop(args);
        book.into_ledger()
    }
}
