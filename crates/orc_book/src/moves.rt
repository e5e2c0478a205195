//! Moves of tokens that are out, within their group: a token ends, forks, or publishes for the program. A token that is *out* is with a worker, with
//! a *pass*: that stands for the token in its group (what runs in one right side of a `<x<`, one left side of a `;`, or the whole program), whose
//! *word*, an atomic counter, counts the passes. The book *keeps* the tokens that wait for a cell. `found` has what the book has found of a token:
//! its record in the ledger (`its`), what it does next, its group and how many tokens of that are out. `inputs` has the program and the table of what
//! sites answer. A *slot* is the place of a token's record. `P` names the run and its table of words, for contracts alone. In contracts `Moves` says
//! that the ledger has made the token's move: the token is gone (`moved.Gone`), or has a successor in its slot and one in another (`moved.Forked`).
//! `ks`, the calls that a bind cancels, say nothing here. A pass that is *left* is counted no more.

ghost use Rattle.std.specs.Prelude.{◌≡◌, ◌⊎◌, ℕ, List, Some, IfOk, IfErr, OnOk};
ghost use Rattle.orc_tables.specs.declared.records.Token.{Token as Its};
ghost use Rattle.orc_ledger_spec.specs.Moves.{Moves, IsHindered};
ghost use Rattle.orc_ledger_spec.specs.declared.results.Moved.TheVariants as moved;
ghost use Rattle.orc_book.specs.Held.{IsToken, IsUnkept, IsOut, KeepsWords, word_at};
ghost use Rattle.orc_tables.specs.Tokens.{IsHeld};
ghost use Rattle.orc_tables.specs.Steps.{group_at};
ghost use Rattle.orc_word.specs.Views.{group_of};
ghost use Rattle.orc_book.specs.Stepping.{ChangesOwn, LosesOne, AddsOne};
ghost use Rattle.orc_book.specs.Refusals.{is_end, is_fork, is_publication, HasFound, IsRefusedMove};

use crate::book::Book;
use crate::lookup::Found;
use crate::post::set_out;
use crate::token::{BookFault, Refused, Token, fault_of};
use orc_ledger::{Action, Inputs, Moved, stands};
use orc_log::Run;
use orc_word::{Naming, Pass};

impl<P: Run + Naming> Book<P> {
    /// Ends a token that is at `stop` or void, that is, at a variable, or at a call of a site with an argument, that will never have a value. Its
    /// pass, by which its group counted it, comes back, to be left by the caller. Refused as Gone if the token isn't out with a worker, as Wrong if
    /// it does something else next, as Full, Limit or Memory if the ledger refuses the entry for that.
    ///
    /// In the contract `KeepsWords` says that each word stands for what it did and the same tokens are kept, `IsUnkept` that `t` is the token's
    /// record and the book doesn't keep the token, `ChangesOwn` with `LosesOne` that the token's group alone has changed in the book, by one token
    /// fewer that is out.
    pub fn end(
        &mut self,
        inputs: &Inputs<'_, P>,
        token: Token<P>,
    ) -> Result<Pass<P>, Refused<Token<P>>>
        ensures done { IfOk result (λ pass. (t : Its) × (g : ℕ) × (ks : List ℕ) × IsUnkept self.old token.slot token.serial token.pass t × Moves P.listing self.old.ledger token.slot t (moved.Gone g) ks self.new.ledger) }
        ensures stands { KeepsWords self.old self.new }
        ensures posts { OnOk result (ChangesOwn self.old token self.new.posts LosesOne) }
        ensures pass { IfOk result (λ pass. pass ≡ token.pass) }
        ensures refused { IfErr result (λ r. (self.new ≡ self.old) × (r.back ≡ token)) }
        ensures why { IfErr result (λ r. IsRefusedMove P.listing self.old token is_end (IsHindered P.listing self.old.ledger) r.why) }
    {
        let found = match self.find(inputs, &token) {
            Ok(found) => found,
            Err(why) => return Err(Refused { why, back: token }),
        };
        match found.what {
            Action::Halt | Action::Void => self.end_found(inputs, token, found),
            _ => Err(Refused {
                why: BookFault::Wrong,
                back: token,
            }),
        }
    }

    // What `end` does, of a token that was looked up, with the answer `found`, and is at `stop` or void. `step` calls this function too. In the
    // contract `KeepsWords` says that each word stands for what it did and the same tokens are kept, `IsUnkept` that `t` is the token's record and
    // the book doesn't keep the token, `ChangesOwn` with `LosesOne` that the token's group alone has changed in the book, by one token fewer that is
    // out.
    #[inline(always)]
    pub(crate) fn end_found(
        &mut self,
        inputs: &Inputs<'_, P>,
        token: Token<P>,
        found: Found,
    ) -> Result<Pass<P>, Refused<Token<P>>>
        requires found { HasFound P.listing self.old token found }
        requires next { (found.what ≡ Action.Halt) ⊎ (found.what ≡ Action.Void) }
        ensures done { IfOk result (λ pass. (t : Its) × (g : ℕ) × (ks : List ℕ) × IsUnkept self.old token.slot token.serial token.pass t × Moves P.listing self.old.ledger token.slot t (moved.Gone g) ks self.new.ledger) }
        ensures stands { KeepsWords self.old self.new }
        ensures posts { OnOk result (ChangesOwn self.old token self.new.posts LosesOne) }
        ensures pass { IfOk result (λ pass. pass ≡ token.pass) }
        ensures refused { IfErr result (λ r. (self.new ≡ self.old) × (r.back ≡ token)) }
        ensures why { IfErr result (λ r. IsRefusedMove P.listing self.old token is_end (IsHindered P.listing self.old.ledger) r.why) }
    {
        // A law: it shows the prover that the journal leads to a term, which the records describe. Nothing runs. What `advance` writes into `scopes`
        // and `cancelled` isn't read.
        stands(&self.ledger);
        match self.ledger.advance(
            inputs,
            token.slot,
            found.its,
            &mut self.scopes,
            &mut self.cancelled,
        ) {
            Ok(_gone) => {
                // The answer names the token's group, which `found` has. The token was out, so `found.out`, how many of the group were, is 1 at
                // least.
                set_out(&mut self.posts, found.group, found.out - 1);
                Ok(token.pass)
            }
            Err(fault) => Err(Refused {
                why: fault_of(fault),
                back: token,
            }),
        }
    }
}

impl<P: Run + Naming> Book<P> {
    // Makes, for a worker, the token whose record is in this slot. The pass has to name the group of that record. By `requires` the slot holds a
    // token.
    pub(crate) fn born(&self, slot: usize, pass: Pass<P>) -> Token<P>
        requires held { (t : Its) × IsHeld self.now.ledger.slots slot t × (group_of pass ≡ Some (word_at self.now.posts (group_at self.now.ledger.steps t.step))) }
        ensures token { (t : Its) × IsToken self.now result.slot result.serial result.pass t }
        ensures same { (result.slot ≡ slot) × (result.pass ≡ pass) }
    {
        // By the clause *held* a token is in the slot.
        let Some(its) = self.ledger.held(slot) else {
            unreachable!()
        };
        Token {
            serial: its.serial,
            slot,
            pass,
        }
    }

    /// Forks a token at `f | g`: a token on each side is out in its place, the left one with its pass, the right one with `same`, another pass to the
    /// same group. Refused as Gone if the token isn't out with a worker, as Wrong if it does something else next, as Full if there are as many tokens
    /// and calls as there may be, as Limit or Memory if the ledger refuses the entry for that.
    ///
    /// In the contract `KeepsWords` says that each word stands for what it did and the same tokens are kept, `IsUnkept` that `t` is the token's
    /// record and the book doesn't keep the token, `ChangesOwn` with `AddsOne` that the token's group alone has changed in the book, by one token
    /// more that is out.
    pub fn fork(
        &mut self,
        inputs: &Inputs<'_, P>,
        token: Token<P>,
        same: Pass<P>,
    ) -> Result<(Token<P>, Token<P>), Refused<(Token<P>, Pass<P>)>>
        requires same { group_of same ≡ group_of token.pass }
        ensures done { IfOk result (λ two. (t : Its) × (ks : List ℕ) × IsUnkept self.old token.slot token.serial token.pass t × Moves P.listing self.old.ledger token.slot t (moved.Forked two.1.slot) ks self.new.ledger) }
        ensures stands { KeepsWords self.old self.new }
        ensures posts { OnOk result (ChangesOwn self.old token self.new.posts AddsOne) }
        ensures born { IfOk result (λ two. IsOut self.new two.0 × IsOut self.new two.1) }
        ensures same { IfOk result (λ two. (two.0.slot ≡ token.slot) × (two.0.pass ≡ token.pass) × (two.1.pass ≡ same)) }
        ensures refused { IfErr result (λ r. (self.new ≡ self.old) × (r.back.0 ≡ token) × (r.back.1 ≡ same)) }
        ensures why { IfErr result (λ r. IsRefusedMove P.listing self.old token is_fork (IsHindered P.listing self.old.ledger) r.why) }
    {
        let found = match self.find(inputs, &token) {
            Ok(found) => found,
            Err(why) => {
                let back = (token, same);
                return Err(Refused { why, back });
            }
        };
        match found.what {
            Action::Fork => self.fork_found(inputs, token, found, same),
            _ => {
                let why = BookFault::Wrong;
                let back = (token, same);
                Err(Refused { why, back })
            }
        }
    }

    // What `fork` does, of a token that was looked up, with the answer `found`, and is at `f | g`. `step` calls this function too. In the contract
    // `KeepsWords` says that each word stands for what it did and the same tokens are kept, `IsUnkept` that `t` is the token's record and the book
    // doesn't keep the token, `ChangesOwn` with `AddsOne` that the token's group alone has changed in the book, by one token more that is out.
    #[inline(always)]
    pub(crate) fn fork_found(
        &mut self,
        inputs: &Inputs<'_, P>,
        token: Token<P>,
        found: Found,
        same: Pass<P>,
    ) -> Result<(Token<P>, Token<P>), Refused<(Token<P>, Pass<P>)>>
        requires found { HasFound P.listing self.old token found }
        requires next { found.what ≡ Action.Fork }
        requires same { group_of same ≡ group_of token.pass }
        ensures done { IfOk result (λ two. (t : Its) × (ks : List ℕ) × IsUnkept self.old token.slot token.serial token.pass t × Moves P.listing self.old.ledger token.slot t (moved.Forked two.1.slot) ks self.new.ledger) }
        ensures stands { KeepsWords self.old self.new }
        ensures posts { OnOk result (ChangesOwn self.old token self.new.posts AddsOne) }
        ensures born { IfOk result (λ two. IsOut self.new two.0 × IsOut self.new two.1) }
        ensures same { IfOk result (λ two. (two.0.slot ≡ token.slot) × (two.0.pass ≡ token.pass) × (two.1.pass ≡ same)) }
        ensures refused { IfErr result (λ r. (self.new ≡ self.old) × (r.back.0 ≡ token) × (r.back.1 ≡ same)) }
        ensures why { IfErr result (λ r. IsRefusedMove P.listing self.old token is_fork (IsHindered P.listing self.old.ledger) r.why) }
    {
        // A law: it shows the prover that the journal leads to a term, which the records describe. Nothing runs.
        stands(&self.ledger);
        match self.ledger.advance(
            inputs,
            token.slot,
            found.its,
            &mut self.scopes,
            &mut self.cancelled,
        ) {
            Ok(Moved::Forked(other)) => {
                // `other` is the slot of the right side's token. For the prover alone: the number of all tokens, the new one too, is a `usize`, and
                // no more are out. So `out + 1` doesn't overflow.
                let _tokens = self.ledger.token_count();
                set_out(&mut self.posts, found.group, found.out + 1);
                let one = self.born(token.slot, token.pass);
                let two = self.born(other, same);
                Ok((one, two))
            }
            // A token at `f | g` forks, by the ledger's clause.
            Ok(_) => unreachable!(),
            Err(fault) => Err(Refused {
                why: fault_of(fault),
                back: (token, same),
            }),
        }
    }
}

impl<P: Run + Naming> Book<P> {
    /// Makes a publication of the program: nothing around the token takes its value. The token's pass, by which its group counted it, comes back, to
    /// be left by the caller. Refused as Gone if the token isn't out with a worker, as Wrong if it does something else next, as Full, Limit or Memory
    /// if the ledger refuses the entry for that.
    ///
    /// In the contract `KeepsWords` says that each word stands for what it did and the same tokens are kept, `IsUnkept` that `t` is the token's
    /// record and the book doesn't keep the token, `ChangesOwn` with `LosesOne` that the token's group alone has changed in the book, by one token
    /// fewer that is out.
    pub fn publish(
        &mut self,
        inputs: &Inputs<'_, P>,
        token: Token<P>,
    ) -> Result<Pass<P>, Refused<Token<P>>>
        ensures done { IfOk result (λ pass. (t : Its) × (g : ℕ) × (ks : List ℕ) × IsUnkept self.old token.slot token.serial token.pass t × Moves P.listing self.old.ledger token.slot t (moved.Gone g) ks self.new.ledger) }
        ensures stands { KeepsWords self.old self.new }
        ensures posts { OnOk result (ChangesOwn self.old token self.new.posts LosesOne) }
        ensures pass { IfOk result (λ pass. pass ≡ token.pass) }
        ensures refused { IfErr result (λ r. (self.new ≡ self.old) × (r.back ≡ token)) }
        ensures why { IfErr result (λ r. IsRefusedMove P.listing self.old token is_publication (IsHindered P.listing self.old.ledger) r.why) }
    {
        let found = match self.find(inputs, &token) {
            Ok(found) => found,
            Err(why) => return Err(Refused { why, back: token }),
        };
        // The value isn't used here: `advance`, below, finds it by itself.
        let Action::Publish(_value) = found.what else {
            let why = BookFault::Wrong;
            return Err(Refused { why, back: token });
        };
        // What `advance` writes into `scopes` and `cancelled` isn't read.
        match self.ledger.advance(
            inputs,
            token.slot,
            found.its,
            &mut self.scopes,
            &mut self.cancelled,
        ) {
            Ok(_gone) => {
                // The answer names the token's group, which `found` has. The token was out, so `found.out`, how many of the group were, is 1 at
                // least.
                set_out(&mut self.posts, found.group, found.out - 1);
                Ok(token.pass)
            }
            Err(fault) => Err(Refused {
                why: fault_of(fault),
                back: token,
            }),
        }
    }
}
