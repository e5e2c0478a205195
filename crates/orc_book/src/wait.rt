//! Tokens that wait for cells: the book keeps them, and they go out again once such a cell has a value, or will never have one. A *cell* stands for
//! the x of an opened `f <x< g`. All other tokens are *out*, with workers; each has a *pass*, which stands for it in its group (what runs in one
//! right side of a `<x<`, one left side of a `;`, or the whole program). A token is found by its *slot*, the place of its record, and its *serial*,
//! its number. A slot's *mark* is the serial of the token that the book keeps there, 0 for none. `P` names the run and its table of words, for
//! contracts alone.

ghost use Rattle.std.specs.Prelude.{◌≡◌, ◌≤◌, ◌+◌, ℕ, Some, true, IfErr, IfSome, MatchOption, OnOk};
ghost use Rattle.orc_rules.specs.Nodes.{code, definitions};
ghost use Rattle.orc_frames.specs.Doing.{is_wait};
ghost use Rattle.orc_ledger_spec.specs.Doing.{what_of};
ghost use Rattle.orc_tables.specs.Steps.{group_at};
ghost use Rattle.orc_tables.specs.declared.records.Token.{Token as Its};
ghost use Rattle.orc_word.specs.declared.view.View.{View};
ghost use Rattle.orc_book.specs.Passes.{in_book, in_tokens};
ghost use Rattle.orc_book.specs.Refusals.{IsRefusedWait};
ghost use Rattle.orc_book.specs.Held.{Changes, IsUnkept, IsOut, IsMarked, HasStayed, HaveStayed, HaveWoken, AreBorn, AreUnmarked, KeepsOne, mark_at};

use crate::book::Book;
use crate::kept_tokens::Handle;
use crate::post::{keep_at, kept_in, out_in, reserve_at, wake_at};
use crate::token::{BookFault, Refused, Token, fault_of};
use orc_ledger::{Action, Inputs};
use orc_log::Run;
use orc_word::Naming;
use std::alloc::AllocError;

impl<P: Run + Naming> Book<P> {
    /// Hands a token that waits to the book, which marks it as kept, and keeps it and its pass until `wake` is called for one of its cells. Refused
    /// as Gone if the token isn't out, as Wrong if it does something else next, else as Memory; the token isn't marked then.
    ///
    /// In the contract `IsUnkept` says that `t` is the token's record and the book didn't keep the token, `KeepsOne` that one token of its group that
    /// was out is kept, `IsMarked` that the slot's mark is the token's serial now, `HasStayed` that nothing has changed but room for passes.
    pub fn wait(&mut self, inputs: &Inputs<'_, P>, token: Token<P>) -> Result<(), Refused<Token<P>>>
        ensures done { OnOk result ((t : Its) × IsUnkept self.old token.slot token.serial token.pass t × (is_wait (what_of (code P.listing) (definitions P.listing) self.old.ledger t) ≡ true) × Changes self.old.posts (group_at self.old.ledger.steps t.step) self.new.posts KeepsOne) }
        ensures ledger { self.new.ledger ≡ self.old.ledger }
        ensures marks { OnOk result (IsMarked self.old.marks token.slot token.serial self.new.marks) }
        ensures stands { self.new.stands ≡ self.old.stands }
        ensures refused { IfErr result (λ r. HasStayed self.old self.new × (r.back ≡ token)) }
        ensures why { IfErr result (λ r. IsRefusedWait P.listing self.old token r.why) }
    {
        let found = match self.find(inputs, &token) {
            Ok(found) => found,
            Err(why) => return Err(Refused { why, back: token }),
        };
        let Action::Wait(_cell) = found.what else {
            let why = BookFault::Wrong;
            return Err(Refused { why, back: token });
        };
        // How many tokens of the group the book keeps already.
        let kept = kept_in(&self.posts, found.group);
        // For the prover alone: the number of all tokens, this one too, is a `usize`, and those that are kept are fewer. So `kept + 1` doesn't
        // overflow.
        let _tokens = self.ledger.token_count();
        let handle = Handle {
            slot: token.slot,
            serial: token.serial,
        };
        // Lists the token's cells in `cells`, and *parks* the token: the ledger notes that it waits. If the book then refuses it, that does no harm.
        if let Err(fault) = self
            .ledger
            .park(inputs, token.slot, found.its, &mut self.cells)
        {
            let why = fault_of(fault);
            return Err(Refused { why, back: token });
        }
        // Room for the token's pass in the *post* of its group, which is what the book has of the group.
        let Ok(()) = reserve_at(&mut self.posts, found.group) else {
            let why = BookFault::Memory;
            return Err(Refused { why, back: token });
        };
        // The last step that can be refused: from here on the token is marked as kept.
        let Ok(()) = self.keeping.keep(self.cells.as_slice(), handle) else {
            let why = BookFault::Memory;
            return Err(Refused { why, back: token });
        };
        // The post gets the token's pass. One token of the group fewer is out, and one more is kept.
        keep_at(
            &mut self.posts,
            found.group,
            found.out - 1,
            kept + 1,
            token.pass,
        );
        Ok(())
    }

    // Lets the kept token with this slot and serial go out. None if it isn't kept, or if a bind has dropped its record and left its mark. For any
    // other token the counts and the pass below are there, but no contract says so. In the contract `HaveStayed` says that the records and the words
    // are as they were.
    fn wake_one(&mut self, handle: Handle) -> Option<Token<P>>
        ensures same { HaveStayed self.old self.new }
        ensures born { IfSome result (IsOut self.new) }
        ensures passes { (f : View → ℕ) → MatchOption result (in_book f self.new ≡ in_book f self.old) (λ k. f k.pass + in_book f self.new ≡ in_book f self.old) }
        ensures woken { MatchOption result (AreUnmarked self.old.marks self.new.marks) (λ k. (1 ≤ k.serial) × (mark_at self.old.marks k.slot ≡ k.serial) × IsMarked self.old.marks k.slot 0 self.new.marks) }
    {
        // No token has serial 0, and the ledger isn't to be asked for it.
        if handle.serial < 1 || !self.keeping.release(handle) {
            return None;
        }
        let its = self.ledger.token(handle.slot, handle.serial)?;
        let group = self.ledger.group_of_token(&its);
        // How many of the group's tokens are kept and how many are out, once this one goes out.
        let kept = kept_in(&self.posts, group).checked_sub(1)?;
        let out = out_in(&self.posts, group).checked_add(1)?;
        // Takes a pass out of the group's post, which notes that one token more is out and one fewer is kept.
        let pass = wake_at(&mut self.posts, group, out, kept)?;
        Some(self.born(handle.slot, pass))
    }

    /// To be called when a cell is bound or lost: the tokens that were kept for it go out, each once, and are added to `born`. The error is refused
    /// memory; another call lets out those that are then still kept.
    ///
    /// In the contract `HaveStayed` says that the records and the words are as they were, `HaveWoken` that each token which was added was kept and
    /// isn't any more, `AreBorn` that its record is there.
    pub fn wake(&mut self, cell: u64, born: &mut Vec<Token<P>>) -> Result<(), AllocError>
        ensures same { HaveStayed self.old self.new }
        ensures born { AreBorn born.old.items born.new.items self.new }
        ensures once { HaveWoken self.old.marks self.new.marks born.old.items born.new.items }
        ensures passes { (f : View → ℕ) → in_tokens f born.new.items + in_book f self.new ≡ in_tokens f born.old.items + in_book f self.old }
    {
        // The cell's chain lists tokens that may wait for it. No chain is longer than there are links, so each is popped.
        for _link in 0..self.keeping.len() {
            // Room for the token is made before it leaves the chain, so that a refusal loses none.
            born.try_reserve(1)?;
            let Some(handle) = self.keeping.pop(cell) else {
                break;
            };
            // None if the token is gone or is kept no more.
            if let Some(token) = self.wake_one(handle) {
                born.push_reserved(token);
            }
        }
        Ok(())
    }
}
