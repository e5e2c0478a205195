//! Tokens that go on in their group, with their pass: into the left side of a `>x>` or the body of a definition. A token that is *out* is with a
//! worker, with a *pass*: that stands for the token in its group (what runs in one right side of a `<x<`, one left side of a `;`, or the whole
//! program). The book *keeps* the tokens that wait for a cell. `found` has what the book has found of a token: its record in the ledger (`its`), and
//! what it does next. `inputs` has the program and the table of what sites answer. `P` names the run and its table of words, for contracts alone. In
//! contracts `Moves` says that the ledger has made the token's move, with the answer `moved.On`: the token's successor is in its slot, the place of
//! its record. `ks`, the calls that a bind cancels, say nothing here.

ghost use Rattle.std.specs.Prelude.{◌≡◌, ◌⊎◌, ℕ, List, IfOk, IfErr};
ghost use Rattle.orc_tables.specs.declared.records.Token.{Token as Its};
ghost use Rattle.orc_ledger_spec.specs.Moves.{Moves};
ghost use Rattle.orc_ledger_spec.specs.declared.results.Moved.TheVariants as moved;
ghost use Rattle.orc_book.specs.Held.{IsToken, IsUnkept, KeepsWords};
ghost use Rattle.orc_book.specs.Refusals.{HasFound, IsRefusedOn};

use crate::book::Book;
use crate::lookup::Found;
use crate::token::{BookFault, Refused, Token, fault_of};
use orc_ledger::{Action, Inputs, Moved, stands};
use orc_log::Run;
use orc_word::Naming;

impl<P: Run + Naming> Book<P> {
    /// Moves a token at `f >x> g`, or at a call of a definition: a token on the left side, or on the body, is out in its place, with the same pass,
    /// since it is in the same group. Refused as Gone if the token isn't out with a worker, as Wrong if it does something else next or if the call's
    /// operands don't fit (no checked program has such a call), as Full, Limit or Memory if the ledger refuses the entry for that.
    ///
    /// In the contract `KeepsWords` says that each word stands for what it did and the same tokens are kept, `IsUnkept` that `t` is the token's
    /// record and the book doesn't keep the token, and `IsRefusedOn` that the reason is one of these and holds of the token; `P.listing` is the
    /// program.
    pub fn go_on(
        &mut self,
        inputs: &Inputs<'_, P>,
        token: Token<P>,
    ) -> Result<Token<P>, Refused<Token<P>>>
        ensures done { IfOk result (λ _. (t : Its) × (ks : List ℕ) × IsUnkept self.old token.slot token.serial token.pass t × Moves P.listing self.old.ledger token.slot t moved.On ks self.new.ledger) }
        ensures stands { KeepsWords self.old self.new }
        ensures posts { self.new.posts ≡ self.old.posts }
        ensures born { IfOk result (λ b. (t : Its) × IsToken self.new b.slot b.serial b.pass t) }
        ensures same { IfOk result (λ b. (b.slot ≡ token.slot) × (b.pass ≡ token.pass)) }
        ensures refused { IfErr result (λ r. (self.new ≡ self.old) × (r.back ≡ token)) }
        ensures why { IfErr result (λ r. IsRefusedOn P.listing self.old token r.why) }
    {
        let found = match self.find(inputs, &token) {
            Ok(found) => found,
            Err(why) => return Err(Refused { why, back: token }),
        };
        match found.what {
            Action::Seq | Action::Def => self.go_on_found(inputs, token, found),
            _ => Err(Refused {
                why: BookFault::Wrong,
                back: token,
            }),
        }
    }

    // What `go_on` does, of a token that was looked up, with the answer `found`, and is at a `>x>` or a call of a definition. `step` calls this
    // function too. In the contract `KeepsWords` says that each word stands for what it did and the same tokens are kept, `IsUnkept` that `t` is the
    // token's record and the book doesn't keep the token.
    #[inline(always)]
    pub(crate) fn go_on_found(
        &mut self,
        inputs: &Inputs<'_, P>,
        token: Token<P>,
        found: Found,
    ) -> Result<Token<P>, Refused<Token<P>>>
        requires found { HasFound P.listing self.old token found }
        requires next { (found.what ≡ Action.Seq) ⊎ (found.what ≡ Action.Def) }
        ensures done { IfOk result (λ _. (t : Its) × (ks : List ℕ) × IsUnkept self.old token.slot token.serial token.pass t × Moves P.listing self.old.ledger token.slot t moved.On ks self.new.ledger) }
        ensures stands { KeepsWords self.old self.new }
        ensures posts { self.new.posts ≡ self.old.posts }
        ensures born { IfOk result (λ b. (t : Its) × IsToken self.new b.slot b.serial b.pass t) }
        ensures same { IfOk result (λ b. (b.slot ≡ token.slot) × (b.pass ≡ token.pass)) }
        ensures refused { IfErr result (λ r. (self.new ≡ self.old) × (r.back ≡ token)) }
        ensures why { IfErr result (λ r. IsRefusedOn P.listing self.old token r.why) }
    {
        // A law: it shows the prover that the journal leads to a term, which the records describe. Nothing runs.
        stands(&self.ledger);
        match self.ledger.advance(
            inputs,
            token.slot,
            found.its,
            &mut self.scopes,
            &mut self.cancelled,
        ) {
            Ok(Moved::On) => {
                // By the ledger's clause a token is in the slot still. `born` asks for one, so the prover is shown it.
                let Some(_its) = self.ledger.held(token.slot) else {
                    unreachable!()
                };
                Ok(self.born(token.slot, token.pass))
            }
            // The ledger leaves a token as it is whose call has operands that don't fit.
            Ok(_) => Err(Refused {
                why: BookFault::Wrong,
                back: token,
            }),
            Err(fault) => Err(Refused {
                why: fault_of(fault),
                back: token,
            }),
        }
    }
}
