//! The book: the records of a run, and the passes of those that are not out with a worker. What a call may assume and must keep of the passes is its
//! type's invariant, `AreHeld` and `AreNamed` of `specs/`. A *group* is what runs in one right side of a `<x<`, one left side of a `;`, or the whole
//! program. A *slot* is the place of a token's record, and is used again; a *serial* is a token's number, and never is. A *cell* stands for the x of
//! an opened `<x<`. `inputs` has the program (its graph) and the table of what sites answer. `P` names the run and its table of words, for contracts
//! alone.

ghost use Rattle.std.specs.Prelude.{◌≡◌, ◌≤◌, true, [], Some, IfOk, IfErr, count_by};
ghost use Rattle.orc_ledger_spec.specs.Whole.{IsWhole};
ghost use Rattle.orc_rules.specs.declared.limits.TheConstants.{MOST_ENTRIES};
ghost use Rattle.orc_ledger_spec.specs.Begun.{begun};
ghost use Rattle.orc_tables.specs.declared.records.Token.{Token as Its};
ghost use Rattle.orc_word.specs.Views.{group_of};
ghost use Rattle.orc_book.specs.Held.{IsToken};
ghost use Rattle.orc_book.specs.Words.{IsOpened, is_dying};

use crate::kept_tokens::Keeping;
use crate::post::{Post, first_posts, set_out};
use crate::token::{BookFault, Refused, Token};
use crate::word_table::WordTable;
use orc_env::StoredScope;
use orc_journal::Journal;
use orc_ledger::{Inputs, Ledger};
use orc_log::Run;
use orc_word::{Naming, Pass};
use std::alloc::Global;
use std::marker::Model;

/// The records of a run: its tokens, pending calls and open groups. A *pass* counts one member of a group. The book has the pass of each record, but
/// for tokens that are *out*: a worker has theirs.
pub struct Book<P: Run + Naming> {
    // The records of the run, with its journal.
    pub(crate) ledger: Ledger<P>,
    // Gives the memory of the posts of groups that are opened.
    pub(crate) alloc: Global,
    // What the book has of each group, by the ledger's numbers of groups (0 is the program's own) up to the highest one that was given.
    pub(crate) posts: Vec<Post<P>>,
    // Which group each *word* counts. A word is an atomic counter of a group's passes.
    pub(crate) words: WordTable<P>,
    // Which tokens are kept here, and not out, while they wait for a cell.
    pub(crate) keeping: Keeping,
    // Three lists that the ledger's calls fill: new scopes of a definition's parameters, numbers of cancelled calls, cells for which a token waits.
    // What an earlier call left there is never read; they stay here so that their memory is used again.
    pub(crate) scopes: Vec<StoredScope>,
    pub(crate) cancelled: Vec<u64>,
    pub(crate) cells: Vec<u64>,
}

impl<P: Run + Naming> Model for Book<P> {
    ghost use Rattle.orc_book.specs.Held.{Held, AreHeld};
    ghost use Rattle.orc_book.specs.Words.{AreNamed};

    ghost Value = { Held };

    // What contracts see. `ledger`: the records. `posts`: by groups, what the book has of each. `stands`: by words, what each stands for. `marks`: by
    // slots, the serial of the token that the book keeps there, 0 for none.
    ghost view = { λ b. record { ledger = b.ledger; posts = b.posts.items; stands = b.words.stands; marks = b.keeping } };

    // The passes fit the records (`AreHeld`), and each open group has a word of its own, which stands for it (`AreNamed`).
    ghost invariant = { λ b. AreHeld b.posts.items b.ledger × AreNamed b.ledger b.posts.items b.words.stands };
}

// Written out, so that each exit of a function that has a book drops it by one call.
impl<P: Run + Naming> Drop for Book<P> {
    fn drop(self) {
        let Book {
            ledger,
            alloc: _,
            posts,
            words,
            keeping,
            scopes,
            cancelled,
            cells,
        } = self;
        drop(ledger);
        drop(posts);
        drop(words);
        drop(keeping);
        drop(scopes);
        drop(cancelled);
        drop(cells);
    }
}

impl<P: Run + Naming> Book<P> {
    /// A new run, with `words` words for its groups; a *word* is an atomic counter of a group's passes. `alloc` gives the memory of its lists. Token
    /// 1 is out with the caller, at the program's main term, with `pass`, which names group 0, the program's own. The journal is to have at most
    /// `limit` entries (1 to `MOST_ENTRIES`, the cancels left out); it is kept if `keeps`, and else its entries are only counted. The only fault is
    /// Memory, where memory was refused; `back` is the pass. In the contract `begun` is what the records are before the first entry, `IsToken` says
    /// that the token's record is there and its pass names its group's word, `IsOpened` that word 0 stands for group 0 and the others are free.
    pub fn new(
        alloc: Global,
        inputs: &Inputs<'_, P>,
        keeps: bool,
        limit: usize,
        words: u32,
        pass: Pass<P>,
    ) -> Result<(Book<P>, Token<P>), Refused<Pass<P>>>
        requires keeps { keeps ≡ P.keeps }
        requires limit { (1 ≤ limit) × (limit ≤ MOST_ENTRIES) }
        requires named { limit ≡ P.limit }
        requires words { words ≡ P.table.words }
        requires pass { group_of pass ≡ Some 0 }
        ensures begun { IfOk result (λ r. r.0.ledger ≡ begun limit P.listing.root) }
        ensures token { IfOk result (λ r. (t : Its) × IsToken r.0 r.1.slot r.1.serial r.1.pass t) }
        ensures stands { IfOk result (λ r. IsOpened [] 0 0 r.0.stands) }
        ensures marks { IfOk result (λ r. r.0.marks ≡ []) }
        ensures refused { IfErr result (λ r. r.back ≡ pass) }
        ensures why { IfErr result (λ r. r.why ≡ BookFault.Memory) }
    {
        // What the book has of each group: so far of group 0 alone, without a pass.
        let Ok(mut posts) = first_posts(alloc) else {
            return Err(Refused {
                why: BookFault::Memory,
                back: pass,
            });
        };
        // What each word stands for: the first for group 0, the others are free.
        let Ok(words) = WordTable::new(alloc, words) else {
            return Err(Refused {
                why: BookFault::Memory,
                back: pass,
            });
        };
        let Ok(ledger) = Ledger::<P>::begin(alloc, keeps, limit, inputs.graph.root()) else {
            return Err(Refused {
                why: BookFault::Memory,
                back: pass,
            });
        };
        // Of group 0 one token is out.
        set_out(&mut posts, 0, 1);
        let book = Book {
            ledger,
            alloc,
            posts,
            words,
            keeping: Keeping::new(alloc),
            scopes: Vec::new(alloc),
            cancelled: Vec::new(alloc),
            cells: Vec::new(alloc),
        };
        // Token 1 is in slot 0, by the ledger's `begin`. `born` makes it for the caller, from the record in that slot.
        let token = book.born(0, pass);
        Ok((book, token))
    }

    /// The journal of the run, of which `P` says that it is kept. The rest of the book is dropped, passes too: their words count them for good.
    pub fn into_journal(self) -> Journal
        requires keeps { P.keeps ≡ true }
        ensures entries { result.entries ≡ self.ledger.journal }
        ensures whole { IsWhole P.listing P.sites self.ledger }
    {
        let ledger = self.into_ledger();
        // A law: it shows the prover the clause *whole*, that the journal is a run by Orc's rules. Nothing runs.
        ledger.is_whole();
        ledger.into_journal()
    }

    /// The records of the run. The rest of the book is dropped, passes too: their words count them for good.
    pub fn into_ledger(self) -> Ledger<P>
        ensures { result ≡ self.ledger }
    {
        let Book {
            ledger,
            alloc: _,
            posts,
            words,
            keeping,
            scopes,
            cancelled,
            cells,
        } = self;
        drop(posts);
        drop(words);
        drop(keeping);
        drop(scopes);
        drop(cancelled);
        drop(cells);
        ledger
    }

    /// How many words stand for groups that a bind has killed: each does until the group's last pass is left and `halt` is called for it.
    pub fn dying(&self) -> usize
        ensures { result ≡ count_by is_dying self.now.stands }
    {
        self.words.dying()
    }
}
