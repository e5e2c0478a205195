//! What a book answers without a move, and laws of every book. A book has the records of a run: its tokens, pending calls and groups. A *group* is
//! what runs in one right side of a `<x<`, one left side of a `;`, or the whole program. A token is found by its *slot*, the place of its record, and
//! its *serial*, its number. It is *out* while a worker has it, and *kept* while it waits in the book. A *due* call is to be answered now. `inputs`
//! has the program and the table of what sites answer. `P` names the run and its table of words, for contracts alone.

ghost use Rattle.std.specs.Prelude.{◌≡◌, ◌≤◌, ℕ, All, Some, true, IfSome, IfNone, MatchOption};
ghost use Rattle.orc_word.specs.Views.{group_of};
ghost use Rattle.orc_rules.specs.Timed.{IsIn};
ghost use Rattle.orc_tables.specs.PendingCalls.{due_of};
ghost use Rattle.orc_tables.specs.declared.records.Call.{Call as ItsCall};
ghost use Rattle.orc_indexes.specs.Same.{weight};
ghost use Rattle.orc_rules.specs.Nodes.{code, definitions};
ghost use Rattle.orc_ledger_spec.specs.Answers.{IsDueNow, Pends};
ghost use Rattle.orc_ledger_spec.specs.Doing.{what_of};
ghost use Rattle.orc_ledger_spec.specs.Offered.{NothingIsLost};
ghost use Rattle.orc_ledger_spec.specs.Requests.{IsAsked};
ghost use Rattle.orc_ledger_spec.specs.Whole.{IsWhole};
ghost use Rattle.orc_ledger.specs.Stood.{Stands};
ghost use Rattle.orc_tables.specs.PendingCalls.{IsDueBeyond, IsLeastBeyond, has_number};
ghost use Rattle.orc_tables.specs.Steps.{group_at};
ghost use Rattle.orc_tables.specs.Tokens.{IsHeld};
ghost use Rattle.orc_tables.specs.declared.records.Token.{Token as Its};
ghost use Rattle.orc_book.specs.Held.{AreHeld, passes_at, word_at};
ghost use Rattle.orc_book.specs.Looks.{needs_of};
ghost use Rattle.orc_book.specs.Words.{AreNamed};

use crate::book::Book;
use crate::post::word_in;
use orc_ledger::{Action, Inputs, Request, offered, stands};
use orc_log::Run;
use orc_rules::value::Answer;
use orc_tables::Call;
use orc_word::Naming;

/// The passes that a move needs at most, beside the token's own. A *pass* counts one member of a group; an *idle* one names no group yet.
#[derive(Clone, Copy)]
pub struct Needs {
    /// How many passes to the token's own group.
    pub same: u32,
    /// How many idle passes.
    pub idle: u32,
}

/// The passes that a token needs at most, beside its own, to do this.
pub fn needs_of(what: Action) -> Needs
    ensures { result ≡ needs_of what }
{
    match what {
        // The second token needs a pass to the group.
        Action::Fork => Needs { same: 1, idle: 0 },
        // The right side's group needs a pass to the token's group, and an idle one to be opened.
        Action::Prune => Needs { same: 1, idle: 1 },
        // The left side's group of a `;` is opened by the idle pass. A `>x>` that takes the value needs it only if the `>x>` stands in another group
        // than the token.
        Action::Other | Action::Send(_) => Needs { same: 0, idle: 1 },
        // The token ends, goes on in its group, publishes, binds, calls or waits: its own pass is enough.
        _ => Needs { same: 0, idle: 0 },
    }
}

/// What a book knows of a token. The token's group has a *word*, an atomic counter of the group's passes.
#[derive(Clone, Copy)]
pub struct TokenView {
    /// What the token does next.
    pub what: Action,
    /// The number of its group's word.
    pub word: u32,
    /// The passes that the action needs at most.
    pub needs: Needs,
}

impl<P: Run + Naming> Book<P> {
    /// What the token with this serial does next, if it is in this slot, kept by the book or out with a worker; None if it isn't there. Serials begin
    /// with 1.
    pub fn view(&self, inputs: &Inputs<'_, P>, slot: usize, serial: u64) -> Option<TokenView>
        ensures there { IfSome result (λ v. (t : Its) × IsHeld self.now.ledger.slots slot t × (t.serial ≡ serial) × (v.what ≡ what_of (code P.listing) (definitions P.listing) self.now.ledger t) × (v.word ≡ word_at self.now.posts (group_at self.now.ledger.steps t.step)) × (v.needs ≡ needs_of v.what)) }
        ensures gone { IfNone result ((t : Its) → IsHeld self.now.ledger.slots slot t → t.serial ≡ serial → ⊥) }
    {
        // No token has serial 0, and the ledger isn't to be asked for it.
        if serial < 1 {
            return None;
        }
        let its = self.ledger.token(slot, serial)?;
        let what = self.ledger.what(inputs, &its);
        let group = self.ledger.group_of_token(&its);
        Some(TokenView {
            what,
            word: word_in(&self.posts, group),
            needs: needs_of(what),
        })
    }

    /// A law, for the prover alone: the passes fit the records. Each token is kept or out, and of each record of a group, but the tokens that are
    /// out, the book holds one pass to that group. Each group has a word of its own: it stands for that group, and no other word does.
    pub fn holds(&self)
        ensures passes { AreHeld self.now.posts self.now.ledger }
        ensures words { AreNamed self.now.ledger self.now.posts self.now.stands }
    {
        // A field that is read shows the prover the type's invariant, which is these clauses.
        let _posts = &self.posts;
    }

    /// A law, for the prover alone: each pass that the book holds for a group names the word of that group.
    pub fn names(&self)
        ensures { (i : ℕ) → All (λ v. group_of v ≡ Some (word_at self.now.posts i)) (passes_at self.now.posts i) }
    {
        // `Post::names` is the law of one group's passes. The loop changes nothing.
        for post in self.posts.as_slice() {
            post.names();
        }
    }

    /// A law, for the prover alone: the journal is a timed run of Orc's rules. It leads from the program's term to one that the records describe, and
    /// the ledger offers each entry with which the journal may go on.
    pub fn is_run(&self)
        ensures whole { IsWhole P.listing P.sites self.now.ledger }
        ensures spelt { Stands P.listing P.sites self.now.ledger }
        ensures offered { NothingIsLost P.listing P.sites self.now.ledger }
    {
        // The ledger's own laws, one for each clause. Nothing runs.
        self.ledger.is_whole();
        stands(&self.ledger);
        offered(&self.ledger);
    }

    /// How many entries the run has made, the cancels left out.
    pub fn entries(&self) -> usize
        ensures { result ≡ self.now.ledger.entries }
    {
        self.ledger.entries()
    }

    /// The time, in logical units.
    pub fn now(&self) -> u64
        ensures { result ≡ self.now.ledger.now }
    {
        self.ledger.time()
    }

    /// What the call that pends with this number asks: its site, its arguments, when it was made, and which of such calls it is. None where no such
    /// call pends, and perhaps where the journal isn't kept.
    pub fn request(&self, number: u64) -> Option<Request>
        ensures { MatchOption result (P.keeps ≡ true → weight (has_number number) self.now.ledger.calls ≡ 0) (IsAsked P.listing P.sites self.now.ledger number) }
    {
        self.ledger.request(number)
    }

    /// The call with the least number of those that are due now, and the answer that the table of sites gives. None where no call is due; none is
    /// overdue either then. `&mut` is for the ledger's notes of due times, of which it drops those whose calls are gone, here and in `due_beyond`.
    pub fn due(&mut self) -> Option<(Call, Answer)>
        ensures due { MatchOption result ((c : ItsCall) (t : ℕ) → IsIn c self.old.ledger.calls → due_of c ≡ Some t → t ≤ self.old.ledger.now → ⊥) (λ d. Pends self.old.ledger d.0.number d.0 × IsDueNow P.listing P.sites self.old.ledger d.0.number d.1 × IsLeastBeyond self.old.ledger.calls 0 self.old.ledger.now d.0.number) }
        ensures same { self.new ≡ self.old }
    {
        self.ledger.due()
    }

    /// The least number over this one of a pending call that is due now; none where there is none.
    pub fn due_beyond(&mut self, number: u64) -> Option<u64>
        ensures due { MatchOption result ((k : ℕ) → IsDueBeyond self.old.ledger.calls number self.old.ledger.now k → ⊥) (IsLeastBeyond self.old.ledger.calls number self.old.ledger.now) }
        ensures same { self.new ≡ self.old }
    {
        self.ledger.due_beyond(number)
    }
}
