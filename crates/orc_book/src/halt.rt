//! Ends a group: a worker has left the last pass that names it, so it has no members any more. A *group* is what runs in one right side of a `<x<`,
//! one left side of a `;`, or the whole program. A *pass* stands for one of its members (a token, a pending call or a group right inside it), and the
//! group's *word*, an atomic counter, counts the passes. A token is *out* while a worker has it, and *kept* while it waits in the book for a cell,
//! which stands for the x of an opened `<x<`. The ledger has the records and the journal. `leave` gets passes that the caller is to *leave*, so that
//! no word counts them. `P` names the run and its table of words, for contracts alone.

ghost use Rattle.std.specs.Prelude.{◌≡◌, ◌≤◌, ◌+◌, ◌⊎◌, ℕ, IfOk, IfErr, OnOk, OnErr, None, Some};
ghost use Rattle.orc_rules.specs.Nodes.{code};
ghost use Rattle.orc_rules.specs.Term.{Halted as HasStopped};
ghost use Rattle.orc_rules.specs.Marked.{erase};
ghost use Rattle.orc_rules.specs.Journal.{Place};
ghost use Rattle.orc_ledger_spec.specs.Answers.{IsAt};
ghost use Rattle.orc_ledger_spec.specs.Halting.{HasHalted};
ghost use Rattle.orc_ledger_spec.specs.declared.results.Halted.{Halted as ItsHalted};
ghost use Rattle.orc_book.specs.Ends.{FreesWord, HasEnded, Told, in_ended};
ghost use Rattle.orc_book.specs.Passes.{GivesUp, in_book};
ghost use Rattle.orc_book.specs.Refusals.{IsRefusedGroup, IsRefusedHalt};
ghost use Rattle.orc_book.specs.Words.{Turns, kind_at, owed_at, unused};

use crate::book::Book;
use crate::post::{hand_out_at, out_in, take_at};
use crate::token::{BookFault, Refused, Token, fault_of};
use crate::word_table::Kind;
use orc_ledger::stands;
use orc_ledger_spec::{HaltFault, Halted};
use orc_log::Run;
use orc_word::{Last, Naming, Pass};

/// What has become of a group whose last pass was left.
#[derive(Drop)]
pub enum Ended<P: Naming> {
    /// It was the program's own, and the program's term has halted.
    Run,
    /// It was the left side of an otherwise: a token on the right side is out.
    Token(Token<P>),
    /// It was the right side of this cell, which will never have a value: the caller has to call `wake` for it.
    Lost(u64),
    /// It is gone, and nothing follows: it was killed, or it was the left side of an otherwise that has published.
    Group,
}

impl<P: Run + Naming> Book<P> {
    /// Closes the group of which `last` says that its last pass was left, so that its word, the counter of its passes, is free again. If the book
    /// holds a pass to the enclosing group for it, that pass goes to the token that starts a right side, if one does, else to `leave`. The program's
    /// own group keeps its word. Refused as Gone if the word stands for no group that is there, as Live if that group still has members, as Full or
    /// Limit if the ledger refuses the entry for that, else as Memory. If refused, the records and `leave` are as they were, and `back` is `last`.
    ///
    /// In the contract `HasHalted` says that the ledger has ended the group `n`, `marks` has, by slots, the serials of the kept tokens, `FreesWord`
    /// says which word is free again, and that no other word has changed, `HasEnded` that a token that comes out has its record, `GivesUp` that just
    /// the passes which the book gives up are in `leave` or with the token that is out.
    pub fn halt(
        &mut self,
        last: Last<P>,
        leave: &mut Vec<Pass<P>>,
    ) -> Result<Ended<P>, Refused<Last<P>>>
        ensures done { IfOk result (λ e. (self.new.ledger ≡ self.old.ledger) ⊎ ((n : ℕ) × (h : ItsHalted) × HasHalted (code P.listing) self.old.ledger self.new.ledger n h)) }
        ensures word { IfOk result (λ e. FreesWord (code P.listing) self.old last.group (kind_at self.old.stands last.group) e self.new) }
        ensures marks { self.new.marks ≡ self.old.marks }
        ensures left { IfOk result (λ e. GivesUp leave.old.items leave.new.items (λ f. in_book f self.old) (λ f. in_ended f e + in_book f self.new)) }
        ensures lent { OnErr result (leave.new.items ≡ leave.old.items) }
        ensures born { IfOk result (HasEnded self.new) }
        ensures run { IfOk result (λ e. e ≡ Ended.Run → (p : Place) → IsAt P.listing P.sites self.new.ledger p → HasStopped (erase p.marked)) }
        ensures refused { IfErr result (λ r. (self.new ≡ self.old) × (r.back ≡ last)) }
        ensures why { IfErr result (λ r. IsRefusedHalt self.old.ledger (kind_at self.old.stands last.group) r.why) }
    {
        let word = last.group();
        match self.words.kind(word) {
            // The word stands for no group.
            Kind::Free => Err(Refused {
                why: BookFault::Gone,
                back: last,
            }),
            // A bind has killed the group and dropped its record, so the ledger isn't asked.
            Kind::Dying => {
                if leave.try_reserve(1).is_err() {
                    return Err(Refused {
                        why: BookFault::Memory,
                        back: last,
                    });
                }
                // The word may hold a pass of the killed group, to the group that enclosed it: `free` gives that.
                if let Some(pass) = self.words.free(word) {
                    leave.push_reserved(pass);
                }
                Ok(Ended::Group)
            }
            // The program's own group keeps its word: the run ends.
            Kind::Open(0) => {
                if self.ledger.has_halted() {
                    Ok(Ended::Run)
                } else {
                    Err(Refused {
                        why: BookFault::Live,
                        back: last,
                    })
                }
            }
            // Any other open group, by its number in the ledger.
            Kind::Open(number) => match self.halt_group(number, word, leave) {
                Ok(ended) => Ok(ended),
                Err(why) => Err(Refused { why, back: last }),
            },
        }
    }

    // Ends the group with this `number`, which has no members, and frees its `word`. If the group was the left side of an otherwise that has not
    // published, a token on the right side is out, with the group's pass to the enclosing one. Else that pass is to be left. A fault is Gone, Live,
    // Full, Limit or Memory, as `halt` says, and has changed nothing. In the contract `HasHalted` says that the ledger has ended the group as `h`
    // says, `Told` that the answer tells of that, `marks` has, by slots, the serials of the kept tokens, `Turns` says that the word is free and no
    // other word has changed, `GivesUp` that just the passes which the book gives up are in `leave` or with the token that is out.
    fn halt_group(
        &mut self,
        number: u32,
        word: u32,
        leave: &mut Vec<Pass<P>>,
    ) -> Result<Ended<P>, BookFault>
        requires stood { kind_at self.old.stands word ≡ Kind.Open number }
        requires bare { owed_at self.old.stands word ≡ None }
        ensures done { IfOk result (λ e. (h : ItsHalted) × HasHalted (code P.listing) self.old.ledger self.new.ledger number h × Told h e) }
        ensures word { OnOk result (Turns self.old.stands word unused self.new.stands) }
        ensures marks { self.new.marks ≡ self.old.marks }
        ensures left { IfOk result (λ e. GivesUp leave.old.items leave.new.items (λ f. in_book f self.old) (λ f. in_ended f e + in_book f self.new)) }
        ensures lent { OnErr result (leave.new.items ≡ leave.old.items) }
        ensures born { IfOk result (HasEnded self.new) }
        ensures side { IfOk result (λ e. e ≡ Ended.Run → ⊥) }
        ensures refused { OnErr result (self.new ≡ self.old) }
        ensures why { IfErr result (λ why. IsRefusedGroup self.old.ledger number why) }
    {
        // Room for the group's pass to the one that encloses it, before anything changes.
        if leave.try_reserve(1).is_err() {
            return Err(BookFault::Memory);
        }
        // A law: it shows the prover that the journal leads to a term, which the records describe. Nothing runs.
        stands(&self.ledger);
        match self.ledger.halt(number) {
            // The group was the right side of `cell`, which is lost now. `parent` is the number of the enclosing group.
            Ok(Halted::Lost(cell, parent)) => {
                // `close` frees the word. That of an open group holds no pass.
                self.words.close(word);
                // The group was a member of the one that encloses it, so the book holds a pass to that.
                let Some(pass) = take_at(&mut self.posts, parent) else {
                    unreachable!()
                };
                leave.push_reserved(pass);
                Ok(Ended::Lost(cell))
            }
            // The group was the left side of an otherwise that has published, so it goes without an entry.
            Ok(Halted::Closed(parent)) => {
                // Frees the group's word.
                self.words.close(word);
                // The group was a member of the one that encloses it, so the book holds a pass to that.
                let Some(pass) = take_at(&mut self.posts, parent) else {
                    unreachable!()
                };
                leave.push_reserved(pass);
                Ok(Ended::Group)
            }
            // The group was the left side of an otherwise that has not published: its right side starts.
            Ok(Halted::Resumed(slot)) => {
                // Frees the group's word.
                self.words.close(word);
                // The token on the right side is in this slot, by the ledger's clause.
                let Some(its) = self.ledger.held(slot) else {
                    unreachable!()
                };
                // The number of the enclosing group, and how many of its tokens are out.
                let group = self.ledger.group_of_token(&its);
                let out = out_in(&self.posts, group);
                // For the prover alone: the number of all tokens, the new one too, is a `usize`, and no more are out. So `out + 1` doesn't overflow.
                let _tokens = self.ledger.token_count();
                // The book held a pass for the group that has ended, a member of the enclosing one. `hand_out_at` takes that pass out for the new
                // token, and notes that one more of the enclosing group's tokens is out.
                let Some(pass) = hand_out_at(&mut self.posts, group, out + 1) else {
                    unreachable!()
                };
                Ok(Ended::Token(self.born(slot, pass)))
            }
            Err(HaltFault::Gone) => Err(BookFault::Gone),
            Err(HaltFault::Live) => Err(BookFault::Live),
            Err(HaltFault::Refused(fault)) => Err(fault_of(fault)),
        }
    }
}
