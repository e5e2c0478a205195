//! Sub-runs come into a book. A sub-run is a run of one call of a definition that was made by itself, in parallel; the call's token waits for it. A
//! token that is *out* is with a worker, with a *pass*: that stands for the token in its group (what runs in one right side of a `<x<`, one left side
//! of a `;`, or the whole program), whose *word* counts the passes. The book *keeps* the tokens that wait for a cell. `inputs` has the program and
//! the table of what sites answer. `found` has what the book has found of the token: its record (`its`) and its group. `P` names the run and its
//! table of words, for contracts alone. A pass that is *left* is counted no more.

ghost use Rattle.std.specs.Prelude.{◌≡◌, IfOk, OnOk, IfErr};
ghost use Rattle.orc_tables.specs.declared.records.Token.{Token as Its};
ghost use Rattle.orc_ledger_spec.specs.Parts.{StandsFor, TakesIn};
ghost use Rattle.orc_book.specs.Held.{IsUnkept, KeepsWords};
ghost use Rattle.orc_book.specs.SubRuns.{HasComer, HasKept, IsKeptOut};

use crate::book::Book;
use crate::post::set_out;
use crate::token::{BookFault, Refused, Token};
use orc_ledger::{Inputs, SubRun};
use orc_ledger_spec::LedgerFault;
use orc_log::Run;
use orc_word::{Naming, Pass};

/// What a sub-run has left where its token stood.
#[derive(Drop)]
pub enum SubRunEnd<P: Naming> {
    /// A token on the value to which its call has come.
    Token(Token<P>),
    /// Nothing: the pass is to be left.
    Nobody(Pass<P>),
}

impl<P: Run + Naming> Book<P> {
    /// Merges the sub-run `part` into the run: `part` has run a call of a definition whose operands have values, and this token is at that call. The
    /// sub-run's entries are appended to the journal. If the call yields a value, a token on it is out in the token's place, with its pass; else the
    /// token is gone, and its pass is to be left by the caller.
    ///
    /// Refused as Gone where the token isn't out with a worker, as Wrong where it doesn't stand at the call of the sub-run, or the sub-run may have
    /// published something and the token is inside a side or the left side of a `>x>` (outside of them all its publications are the program's), as
    /// Limit where the limit has no room for all of the entries, and as Memory. Then nothing has changed.
    ///
    /// In the contract `KeepsWords` says that each word stands for what it did and the same tokens are kept, `IsUnkept` that `t` is the token's
    /// record and the book doesn't keep the token, `StandsFor` that the token stands at the call of the sub-run, `TakesIn` that the ledger has the
    /// sub-run's entries, `HasComer` that a token is out just if the call has a value.
    pub fn append_sub_run(
        &mut self,
        inputs: &Inputs<'_, P>,
        token: Token<P>,
        part: &SubRun<P>,
    ) -> Result<SubRunEnd<P>, Refused<Token<P>>>
        ensures done { OnOk result ((t : Its) × IsUnkept self.old token.slot token.serial token.pass t × StandsFor P.listing self.old.ledger t part.now.definition part.now.args × TakesIn self.old.ledger self.new.ledger t part.now) }
        ensures stands { KeepsWords self.old self.new }
        ensures posts { IfOk result (HasKept self.old token self.new.posts) }
        ensures born { IfOk result (HasComer self.new token.slot token.pass part.now.left) }
        ensures refused { IfErr result (λ r. (self.new ≡ self.old) × (r.back ≡ token)) }
        ensures why { IfErr result (λ r. IsKeptOut P.listing self.old token part.now r.why) }
    {
        let found = match self.find(inputs, &token) {
            Ok(found) => found,
            Err(why) => return Err(Refused { why, back: token }),
        };
        // No task: the token isn't at a call of a definition, or an argument has no value.
        let Some(task) = self.ledger.task(inputs, &found.its) else {
            let why = BookFault::Wrong;
            return Err(Refused { why, back: token });
        };
        // The sub-run is that of another call, or can't replace this one.
        if !part.is_of(&task) {
            let why = BookFault::Wrong;
            return Err(Refused { why, back: token });
        }
        // All entries are appended or none: a fault has changed nothing.
        match self.ledger.append_sub_run(token.slot, found.its, part) {
            Ok(()) => {}
            Err(LedgerFault::Limit) => {
                let why = BookFault::Limit;
                return Err(Refused { why, back: token });
            }
            Err(LedgerFault::Memory) => {
                let why = BookFault::Memory;
                return Err(Refused { why, back: token });
            }
            // A sub-run leaves one token at most where one stood, so it isn't Full. It comes without a claim (what another worker may have won
            // first), so none is lost. The ledger's clause says so.
            Err(LedgerFault::Full) => unreachable!(),
            Err(LedgerFault::Unclaimed) => unreachable!(),
        }
        // With a value, the ledger has put a token on it into the old token's slot.
        if part.has_value() {
            let born = self.born(token.slot, token.pass);
            return Ok(SubRunEnd::Token(born));
        }
        // The call has no value, so the token is gone. It was out, so `found.out`, how many of its group were, is 1 at least.
        set_out(&mut self.posts, found.group, found.out - 1);
        Ok(SubRunEnd::Nobody(token.pass))
    }
}
