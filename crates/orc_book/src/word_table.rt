//! What words stand for. A group's *word* is an atomic counter of the passes to it; here the book notes, under its lock, which group each word
//! counts. A *group* is what runs in one right side of a `<x<`, one left side of a `;`, or the whole program; a *pass* stands for one record in it: a
//! token, a pending call or a group right inside it. The ledger, which has the records, has each *open* group. It has a *killed* one no more, since a
//! bind has dropped that; but workers may still have passes to it. `P` names the table of words, for contracts alone. A pass that is *left* is
//! counted no more.

ghost use Rattle.std.specs.Prelude.{◌≡◌, Some};
ghost use Rattle.orc_book.specs.Held.{owed_to};

use crate::token::BookFault;
use orc_word::{Naming, Pass};
use slab::Slab;
use std::alloc::{AllocError, Global};
use std::marker::Model;

/// What a word holds for a killed group: the group's pass to the one that enclosed it, whose word has the number `parent`. `pass` is None if that
/// group had no pass to spare.
#[derive(Drop)]
pub(crate) struct Owed<P: Naming> {
    parent: u32,
    pass: Option<Pass<P>>,
    // A pass that is there names the word `parent`.
    ghost own: { owed_to parent pass ≡ Some parent },
}

/// What a word that isn't free stands for.
#[derive(Drop)]
pub(crate) enum Stand<P: Naming> {
    /// The open group with this number.
    Open(u32),
    /// A killed group, until its last pass is left.
    Dying(Owed<P>),
}

/// What a word stands for, without the pass that it may hold.
#[derive(Clone, Copy)]
pub(crate) enum Kind {
    /// No group.
    Free,
    /// The open group with this number.
    Open(u32),
    /// A killed group.
    Dying,
}

/// What each word stands for, by its number. A word without an entry is free; there is room for an entry of each.
#[derive(Drop)]
pub(crate) struct WordTable<P: Naming> {
    stands: Slab<Stand<P>>,
    // How many words there are.
    count: u32,
    // How many of them stand for killed groups.
    dying: usize,
}

impl<P: Naming> Model for WordTable<P> {
    ghost use Rattle.std.specs.Prelude.{◌≡◌, ◌≤◌, count_by, map};
    ghost use Rattle.orc_book.specs.Words.{Shown, is_dying, stood_of};

    // Contracts see what each word stands for, by its number (`stands`), and the number of the word that is opened next (`next`).
    ghost Value = { Shown };

    ghost view = { λ t. record { stands = map stood_of t.stands.slots; next = t.stands.vacant_key } };

    // There is room for an entry of each word, and `dying` counts those of killed groups.
    ghost invariant = { λ t. (t.count ≡ P.table.words) × (t.count ≤ t.stands.capacity) × (t.dying ≡ count_by is_dying (map stood_of t.stands.slots)) };
}

impl<P: Naming> WordTable<P> {
    ghost use Rattle.std.specs.Prelude.{◌<◌, ◌≤◌, ◌+◌, ℕ, None, IfOk, IfErr, IfSome, IsSome, [], count_by};
    ghost use Rattle.orc_word.specs.Views.{group_of};
    ghost use Rattle.orc_word.specs.declared.view.View.{View};
    ghost use Rattle.orc_book.specs.Passes.{in_words, of_owed};
    ghost use Rattle.orc_book.specs.Words.{IsOpened, Turns, HasNoWord, is_dying, kind_at, killed, owed_at, unused};

    /// So many words: the first stands for the program's own group, the others are free. The error is refused memory.
    pub(crate) fn new(alloc: Global, count: u32) -> Result<WordTable<P>, AllocError>
        requires { count ≡ P.table.words }
        ensures { IfOk result (λ t. IsOpened [] 0 0 t.stands) }
    {
        let mut stands = Slab::with_capacity(alloc, count as usize)?;
        // Group 0 is the program's own. Its word is the table's first, so it has the number 0.
        let Ok(_first) = stands.insert(Stand::Open(0)) else {
            return Err(AllocError);
        };
        Ok(WordTable {
            stands,
            count,
            dying: 0,
        })
    }

    /// The free word that `open` takes. The fault is Full if as many words are taken as there are. It is Memory if the slab's next key is past the
    /// words though one is free: the slab's contract doesn't rule that out.
    #[tactic(auto, using(crate::proofs::Entries::taken_some))]
    pub(crate) fn next(&self) -> Result<u32, BookFault>
        ensures word { IfOk result (λ word. (word ≡ self.now.next) × (word < P.table.words) × (kind_at self.now.stands word ≡ Kind.Free)) }
        ensures why { IfErr result (HasNoWord self.now.stands P.table.words) }
    {
        if self.stands.len() >= self.count as usize {
            return Err(BookFault::Full);
        }
        let key = self.stands.vacant_key();
        if key < self.count as usize {
            Ok(key as u32)
        } else {
            Err(BookFault::Memory)
        }
    }

    /// Lets the word that `next` gives, which `requires` says there is, stand for the open group with this number.
    pub(crate) fn open(&mut self, number: u32)
        requires { self.old.next < P.table.words }
        ensures { IsOpened self.old.stands self.old.next number self.new.stands }
    {
        // Both answers show the prover that the slab has room and puts the entry at `next`. Their values aren't used.
        let _room = self.stands.capacity();
        let _key = self.stands.vacant_key();
        let _word = self.stands.insert_reserved(Stand::Open(number));
    }

    /// What the word with the number `word` stands for.
    pub(crate) fn kind(&self, word: u32) -> Kind
        ensures kind { result ≡ kind_at self.now.stands word }
        ensures bare { (number : ℕ) → result ≡ Kind.Open number → owed_at self.now.stands word ≡ None }
    {
        match self.stands.get(word as usize) {
            Some(Stand::Open(number)) => Kind::Open(*number),
            Some(Stand::Dying(_)) => Kind::Dying,
            None => Kind::Free,
        }
    }

    /// Notes that the group of this word is killed: the word stands for it until its last pass is left. The word holds `pass` until then, the
    /// group's pass to the enclosing group, whose word is `parent`.
    pub(crate) fn bury(&mut self, word: u32, parent: u32, pass: Option<Pass<P>>)
        requires stood { (number : ℕ) × (kind_at self.old.stands word ≡ Kind.Open number) }
        requires pass { owed_to parent pass ≡ Some parent }
        ensures killed { Turns self.old.stands word (killed pass) self.new.stands }
        ensures held { (f : View → ℕ) → in_words f self.new.stands ≡ in_words f self.old.stands + of_owed f pass }
    {
        // Shows the prover that there are at most as many words as a `usize` counts, so that `dying` doesn't overflow.
        let _room = self.stands.capacity();
        // By `requires` the word stands for an open group.
        let Some(stand) = self.stands.get_mut(word as usize) else {
            unreachable!()
        };
        *stand = Stand::Dying(Owed { parent, pass });
        self.dying += 1;
    }

    /// Frees a word. Gives the pass that it holds: that of a killed group to the one that enclosed it. None where it holds no pass, as where it
    /// stands for an open group, or is free already.
    pub(crate) fn free(&mut self, word: u32) -> Option<Pass<P>>
        ensures pass { IfSome result (λ pass. IsSome (group_of pass)) }
        ensures owed { result ≡ owed_at self.old.stands word }
        ensures freed { Turns self.old.stands word unused self.new.stands }
    {
        match self.stands.try_remove(word as usize) {
            Some(Stand::Dying(owed)) => {
                self.dying -= 1;
                let Owed { parent: _, pass } = owed;
                pass
            }
            // The word of an open group holds no pass.
            Some(Stand::Open(_number)) => None,
            // The word was free already.
            None => None,
        }
    }

    /// Frees a word that holds no pass.
    pub(crate) fn close(&mut self, word: u32)
        requires bare { owed_at self.old.stands word ≡ None }
        ensures freed { Turns self.old.stands word unused self.new.stands }
        ensures held { (f : View → ℕ) → in_words f self.new.stands ≡ in_words f self.old.stands }
    {
        // By the clause *bare* no pass comes back.
        let _none = self.free(word);
    }

    /// How many words stand for killed groups, each until it is freed.
    pub(crate) fn dying(&self) -> usize
        ensures { result ≡ count_by is_dying self.now.stands }
    {
        self.dying
    }
}
