//! Binds a cell: what is inside its right side goes. The word of a group has a bit *killed*, which at most one pass sets: so if two tokens of a group
//! try to bind at the same time, one of them wins. A *cell* stands for the x of an opened `f <x< g`; its right side is g. A *group* is what runs in
//! one right side of a `<x<`, one left side of a `;`, or the whole program. A token is *out* while a worker has it, and *kept* while it waits in the
//! book for a cell. `inputs` has the program and the table of what sites answer, `groups` has the words. A token's *slot* is the place of its record,
//! its *serial* its number. `P` names the run and its table of words, `J` such a table, for contracts alone. `leave` gets passes that the caller is
//! to *leave*, so that no word counts them.

ghost use Rattle.std.specs.Prelude.{◌≡◌, ◌≤◌, ◌+◌, ◌⊎◌, ℕ, IfOk, IfErr, IfSome, OnOk, OnErr, vec_len, vec_capacity};
ghost use Rattle.orc_rules.specs.Timed.{IsIn};
ghost use Rattle.orc_tables.specs.declared.records.Token.{Token as Its};
ghost use Rattle.orc_ledger_spec.specs.Moves.{Moves};
ghost use Rattle.orc_ledger_spec.specs.declared.results.Moved.TheVariants as moved;
ghost use Rattle.orc_word.specs.declared.view.View.{View};
ghost use Rattle.orc_word.specs.Views.{deeds_of, group_of};
ghost use Rattle.orc_book.specs.Held.{IsUnkept, HasWinner, records_in};
ghost use Rattle.orc_book.specs.Passes.{GivesUp, HasWon, in_book};
ghost use Rattle.orc_book.specs.Refusals.{is_bind, IsRefusedBind};
ghost use Rattle.orc_book.specs.Words.{AreThere, HaveDied};

use crate::book::Book;
use crate::settle::{bury_missing, settle_all};
use crate::token::{BookFault, Refused, Token, fault_of};
use orc_ledger::{Action, Inputs, Ledger, stands};
use orc_log::Run;
use orc_word::{Bit, Groups, Naming, Pass};
use std::alloc::AllocError;

// How many records the ledger has: tokens, pending calls and open groups (`side_count`). None where a sum overflows.
fn count_records<P: Run>(ledger: &Ledger<P>) -> Option<usize>
    ensures { IfSome result (λ count. count ≡ records_in ledger.now) }
{
    let count = ledger.token_count().checked_add(ledger.pending_count())?;
    count.checked_add(ledger.side_count())
}

// Makes room in `leave`, the passes that the caller is to leave, for one more than there are records: the book holds one pass for a record at most,
// and the token that binds has its own. The error is refused memory.
fn reserve_all<P: Run, J: Naming>(
    ledger: &Ledger<P>,
    leave: &mut Vec<Pass<J>>,
) -> Result<(), AllocError>
    ensures items { leave.new.items ≡ leave.old.items }
    ensures room { OnOk result (vec_len leave.new + records_in ledger.now + 1 ≤ vec_capacity leave.new) }
{
    // A run has far fewer records than a `usize` counts. The prover isn't told so: a sum that overflows counts as refused memory.
    let Some(count) = count_records(ledger) else {
        return Err(AllocError);
    };
    let Some(count) = count.checked_add(1) else {
        return Err(AllocError);
    };
    leave.try_reserve(count)
}

impl<P: Run + Naming> Book<P> {
    /// Binds the cell that takes what this token publishes: the records of all tokens, calls and groups inside the cell's right side go. A *pass*
    /// counts one member of a group in the group's word, an atomic counter. The token's pass wins the mark that its group is killed, a bit of that
    /// word. That pass is added to `leave`, which the caller is to leave, with the passes that the book held for tokens and calls that went. The word
    /// of a group that went stands for a killed one until its last pass is left, and holds the group's pass to the enclosing one until then. Refused
    /// as Gone if the token isn't out with a worker or the mark was set already, as Wrong if the token does something else next, as Full, Limit or
    /// Memory if the ledger refuses the entry for that or memory is refused. The pass of a refused token has won the mark only if the fault is
    /// Memory. `cancelled` is lent: after an Ok it holds the numbers of the calls that went, in rising order, and else any numbers.
    ///
    /// In the contract `Moves` says that the ledger has bound the cell `c`, `marks` has, by slots, the serials of the kept tokens, `HaveDied` says
    /// that each word stands for what it did, or for a killed group if its group went, `AreThere` that no word stands for an open group that the
    /// records haven't, `HasWon` that the token's pass has won the bit *killed* of its group's word, `HasWinner` that a pass in `leave` has,
    /// `GivesUp` that just the passes which the book and the token give up are added, `IsUnkept` that `t` is the token's record and the book doesn't
    /// keep the token.
    pub fn bind(
        &mut self,
        groups: &Groups<P>,
        inputs: &Inputs<'_, P>,
        token: Token<P>,
        leave: &mut Vec<Pass<P>>,
        cancelled: &mut Vec<u64>,
    ) -> Result<(), Refused<Token<P>>>
        ensures done { OnOk result ((t : Its) × (c : ℕ) × (g : ℕ) × IsUnkept self.old token.slot token.serial token.pass t × Moves P.listing self.old.ledger token.slot t (moved.Bound c g) cancelled.new.items self.new.ledger) }
        ensures stands { OnOk result (HaveDied self.new.ledger self.old.stands self.new.stands) }
        ensures there { OnOk result (AreThere self.new.ledger self.new.stands) }
        ensures marks { self.new.marks ≡ self.old.marks }
        ensures left { OnOk result ((won : View) × HasWon token.pass won × GivesUp leave.old.items leave.new.items (λ f. in_book f self.old + f won) (λ f. in_book f self.new)) }
        ensures lent { OnErr result (leave.new.items ≡ leave.old.items) }
        ensures won { OnOk result (HasWinner leave.new.items (group_of token.pass)) }
        ensures refused { IfErr result (λ r. (self.new ≡ self.old) × (r.back.serial ≡ token.serial) × (r.back.slot ≡ token.slot) × (group_of r.back.pass ≡ group_of token.pass)) }
        ensures mark { IfErr result (λ r. (deeds_of r.back.pass ≡ deeds_of token.pass) ⊎ ((r.why ≡ BookFault.Memory) × HasWon token.pass r.back.pass)) }
        ensures why { IfErr result (λ r. IsRefusedBind P.listing self.old token r.back.pass r.why) }
    {
        let found = match self.find(inputs, &token) {
            Ok(found) => found,
            Err(why) => return Err(Refused { why, back: token }),
        };
        // The cell and the value aren't used here: `advance`, below, finds them by itself.
        let Action::Bind(_cell, _value) = found.what else {
            let why = BookFault::Wrong;
            return Err(Refused { why, back: token });
        };
        // Nothing clears the mark again, so all refusals that can be foreseen come before it is set. `within` asks the limits for one entry more,
        // with no token, group or left side of a `>x>` more.
        if let Err(fault) = self.ledger.within(0, 0, 0) {
            return Err(Refused {
                why: fault_of(fault),
                back: token,
            });
        }
        if reserve_all(&self.ledger, leave).is_err() {
            return Err(Refused {
                why: BookFault::Memory,
                back: token,
            });
        }
        // The token is taken apart, since `mark` changes its pass: the pass has seen the bit then. `mark` gives false if the bit was set before, so
        // that another token has won.
        let Token {
            serial,
            slot,
            mut pass,
        } = token;
        if !groups.mark(&mut pass, Bit::Killed) {
            return Err(Refused {
                why: BookFault::Gone,
                back: Token { serial, slot, pass },
            });
        }
        // A law, before the move and behind it: it shows the prover that the journal leads to a term, which the records describe. Nothing runs.
        stands(&self.ledger);
        match self
            .ledger
            .advance(inputs, slot, found.its, &mut self.scopes, cancelled)
        {
            // The answer, `Moved::Bound`, has the cell and the group round the pruning; neither is needed.
            Ok(_bound) => {
                stands(&self.ledger);
                // What was in the cell's right side has gone from the records. `bury_missing` notes that the words of its groups stand for killed
                // ones, and puts each such group's pass into its word; `settle_all` moves the passes held for tokens and calls to `leave`.
                bury_missing(&self.ledger, &mut self.posts, &mut self.words);
                settle_all(&self.ledger, &mut self.posts, leave);
                leave.push_reserved(pass);
                Ok(())
            }
            Err(fault) => Err(Refused {
                why: fault_of(fault),
                back: Token { serial, slot, pass },
            }),
        }
    }
}
