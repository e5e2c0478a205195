//! Opens groups: the right side of a pruning, and the left side of an otherwise. Each gets a word that is free in the book, which an idle pass opens.
//! The new group is a member of the group in which the token was: so the book holds a pass to that for it. A token that is *out* is with a worker,
//! with a *pass*: that stands for the token in its group. An *idle* pass names no group. A token is found by its *slot*, the place of its record, and
//! its *serial*, its number. `found` has what the book has found of a token: its record in the ledger (`its`), what it does next and its group. A
//! refused call gives the token and the idle pass back. `inputs` has the program and the table of what sites answer, `groups` has the words. `P`
//! names the run and its table of words, for contracts alone. In contracts `Moves` says that the ledger has made the token's move: its successor is
//! in its slot (`moved.On`), or one is there and the other in another slot (`moved.Forked`). `ks`, the calls that a bind cancels, say nothing here. A
//! pass that is *left* is counted no more.

ghost use Rattle.std.specs.Prelude.{◌≡◌, ◌≤◌, ◌+◌, ◌<◌, ℕ, List, length, true, Some, None, IfOk, OnOk, IfErr};
ghost use Rattle.orc_tables.specs.declared.records.Token.{Token as Its};
ghost use Rattle.orc_ledger_spec.specs.Moves.{Moves};
ghost use Rattle.orc_ledger_spec.specs.declared.results.Moved.TheVariants as moved;
ghost use Rattle.orc_word.specs.Views.{group_of};
ghost use Rattle.orc_book.specs.Held.{Hold, IsUnkept, IsOut, HasStayed, Changes, Same};
ghost use Rattle.orc_book.specs.Refusals.{is_prune, is_other, HasFound, IsRefusedOpening};
ghost use Rattle.orc_book.specs.Words.{OpensWord, HasNoWord};

use crate::book::Book;
use crate::lookup::Found;
use crate::post::{begin_at, grow_to, put_at, put_back_at, reserve_opening};
use crate::token::{BookFault, Refused, Token, fault_of};
use crate::word_table::WordTable;
use orc_ledger::{Action, Inputs, Moved, stands};
use orc_log::Run;
use orc_word::{Groups, Naming, Pass};

/// The number of a word that was free, and the pass that opened it and names it. A *word* is an atomic counter of a group's passes.
#[derive(Drop)]
struct Opened<P: Naming> {
    word: u32,
    pass: Pass<P>,
}

// Lets an idle pass, one that names no group, open a word that is free in the book. The fault is Full if no word is free, Memory if
// `WordTable::next` gives none though one is free, and Live if a pass still names the word.
fn open_word<P: Naming>(
    words: &WordTable<P>,
    groups: &Groups<P>,
    idle: Pass<P>,
) -> Result<Opened<P>, Refused<Pass<P>>>
    requires idle { group_of idle ≡ None }
    ensures opened { IfOk result (λ o. group_of o.pass ≡ Some o.word) }
    ensures next { IfOk result (λ o. o.word ≡ words.now.next) }
    ensures few { OnOk result (words.now.next < P.table.words) }
    ensures refused { IfErr result (λ r. r.back ≡ idle) }
    ensures why { IfErr result (λ r. HasNoWord words.now.stands P.table.words r.why) }
{
    let word = match words.next() {
        Ok(word) => word,
        Err(why) => return Err(Refused { why, back: idle }),
    };
    // `groups`, the shared words, refuse if a pass still names this one.
    match groups.open(idle, word) {
        Ok(pass) => Ok(Opened { word, pass }),
        Err(back) => Err(Refused {
            why: BookFault::Live,
            back,
        }),
    }
}

impl<P: Run + Naming> Book<P> {
    /// Opens the pruning at which this token is, `f <x< g`: a token on each side is out in its place. The left one has the token's pass, the right
    /// one has `idle`, which opens the new group's word. For the new group the book holds `same`, which names the token's group. Refused as Gone if
    /// the token isn't out, as Wrong if it does something else next, as Full if there are as many tokens and calls, or open groups, as there may be,
    /// or no word is free, as Limit if the journal has as many entries as the limit, as Live if the free word is still named, else as Memory.
    ///
    /// In the contract `IsOut` says that a token's record is there, `OpensWord` that a word which was free stands for the new group and no other word
    /// has changed, `HasStayed` that nothing has changed but room for passes.
    pub fn prune(
        &mut self,
        groups: &Groups<P>,
        inputs: &Inputs<'_, P>,
        token: Token<P>,
        same: Pass<P>,
        idle: Pass<P>,
    ) -> Result<(Token<P>, Token<P>), Refused<(Token<P>, Pass<P>, Pass<P>)>>
        requires same { group_of same ≡ group_of token.pass }
        requires idle { group_of idle ≡ None }
        ensures done { IfOk result (λ two. (t : Its) × (ks : List ℕ) × IsUnkept self.old token.slot token.serial token.pass t × Moves P.listing self.old.ledger token.slot t (moved.Forked two.1.slot) ks self.new.ledger) }
        ensures born { IfOk result (λ two. IsOut self.new two.0 × IsOut self.new two.1) }
        ensures same { IfOk result (λ two. (two.0.slot ≡ token.slot) × (two.0.pass ≡ token.pass)) }
        ensures word { IfOk result (λ two. OpensWord self.old two.1 self.new) }
        ensures refused { IfErr result (λ r. HasStayed self.old self.new × (r.back.0 ≡ token) × (r.back.1 ≡ same) × (group_of r.back.2 ≡ None)) }
        ensures why { IfErr result (λ r. IsRefusedOpening P.listing self.old token P.table.words is_prune r.why) }
    {
        let found = match self.find(inputs, &token) {
            Ok(found) => found,
            Err(why) => {
                let back = (token, same, idle);
                return Err(Refused { why, back });
            }
        };
        match found.what {
            Action::Prune => self.prune_found(groups, inputs, token, found, same, idle),
            _ => {
                let why = BookFault::Wrong;
                let back = (token, same, idle);
                Err(Refused { why, back })
            }
        }
    }

    // What `prune` does, of a token that was looked up, with the answer `found`, and is at `f <x< g`. `step` calls this function too. In the contract
    // `IsOut` says that a token's record is there, `OpensWord` that a word which was free stands for the new group and no other word has changed,
    // `HasStayed` that nothing has changed but room for passes.
    pub(crate) fn prune_found(
        &mut self,
        groups: &Groups<P>,
        inputs: &Inputs<'_, P>,
        token: Token<P>,
        found: Found,
        same: Pass<P>,
        idle: Pass<P>,
    ) -> Result<(Token<P>, Token<P>), Refused<(Token<P>, Pass<P>, Pass<P>)>>
        requires found { HasFound P.listing self.old token found }
        requires next { found.what ≡ Action.Prune }
        requires same { group_of same ≡ group_of token.pass }
        requires idle { group_of idle ≡ None }
        ensures done { IfOk result (λ two. (t : Its) × (ks : List ℕ) × IsUnkept self.old token.slot token.serial token.pass t × Moves P.listing self.old.ledger token.slot t (moved.Forked two.1.slot) ks self.new.ledger) }
        ensures born { IfOk result (λ two. IsOut self.new two.0 × IsOut self.new two.1) }
        ensures same { IfOk result (λ two. (two.0.slot ≡ token.slot) × (two.0.pass ≡ token.pass)) }
        ensures word { IfOk result (λ two. OpensWord self.old two.1 self.new) }
        ensures refused { IfErr result (λ r. HasStayed self.old self.new × (r.back.0 ≡ token) × (r.back.1 ≡ same) × (group_of r.back.2 ≡ None)) }
        ensures why { IfErr result (λ r. IsRefusedOpening P.listing self.old token P.table.words is_prune r.why) }
    {
        // Room in the ledger for an entry, a token and a group, and no left side of a `>x>`. Once the word is opened, only the ledger can refuse the
        // move, for memory.
        if let Err(fault) = self.ledger.within(1, 1, 0) {
            let back = (token, same, idle);
            return Err(Refused {
                why: fault_of(fault),
                back,
            });
        }
        // Memory for the new group's *post*, which is what the book has of the group, and for the pass that the book is to hold for the group.
        if reserve_opening(&mut self.posts, found.group).is_err() {
            let back = (token, same, idle);
            return Err(Refused {
                why: BookFault::Memory,
                back,
            });
        }
        // The idle pass opens a free word for the new group.
        let opened = match open_word(&self.words, groups, idle) {
            Ok(opened) => opened,
            Err(refused) => {
                let back = (token, same, refused.back);
                return Err(Refused {
                    why: refused.why,
                    back,
                });
            }
        };
        // A law: it shows the prover that the journal leads to a term, which the records describe. Nothing runs. What `advance` writes into `scopes`
        // and `cancelled` isn't read.
        stands(&self.ledger);
        match self.ledger.advance(
            inputs,
            token.slot,
            found.its,
            &mut self.scopes,
            &mut self.cancelled,
        ) {
            Ok(Moved::Forked(other)) => {
                // The move has put the right side's token into the slot `other`: it is in the new group.
                let Some(inner) = self.ledger.held(other) else {
                    unreachable!()
                };
                let number = self.ledger.group_of_token(&inner);
                // `grow_to` adds posts up to the new group's, if there is none yet. The post of the token's group gets the pass `same`, for the new
                // group. `begin_at` gives the new group's post its word, and notes that one token is out. `reserve_opening` has made the room for
                // posts and pass.
                grow_to(self.alloc, &mut self.posts, number);
                put_at(&mut self.posts, found.group, same);
                begin_at(&mut self.posts, number, opened.word, found.group);
                // The opened word stands for the new group from here on.
                self.words.open(number);
                let one = self.born(token.slot, token.pass);
                let two = self.born(other, opened.pass);
                Ok((one, two))
            }
            // A move at `f <x< g` has no other outcome.
            Ok(_) => unreachable!(),
            Err(fault) => {
                // The opened pass is left, and is idle again as `left.pass`. The word is free in the book still: nothing is to be closed, and
                // `left.last` is dropped.
                let left = groups.leave(opened.pass);
                Err(Refused {
                    why: fault_of(fault),
                    back: (token, same, left.pass),
                })
            }
        }
    }

    /// Enters the otherwise at which this token is, `f ; g`: a token on the left side is out in its place, with `idle`, which opens the new group's
    /// word. For the new group the book holds the token's pass. Refused as Gone if the token isn't out, as Wrong if it does something else next, as
    /// Full if there are as many open groups as there may be, or no word is free, as Limit if the journal has as many entries as the limit, as Live
    /// if the free word is still named, else as Memory.
    ///
    /// In the contract `IsOut` says that a token's record is there, `OpensWord` that a word which was free stands for the new group and no other word
    /// has changed, `HasStayed` that nothing has changed but room for passes.
    pub fn other(
        &mut self,
        groups: &Groups<P>,
        inputs: &Inputs<'_, P>,
        token: Token<P>,
        idle: Pass<P>,
    ) -> Result<Token<P>, Refused<(Token<P>, Pass<P>)>>
        requires idle { group_of idle ≡ None }
        ensures done { IfOk result (λ _. (t : Its) × (ks : List ℕ) × IsUnkept self.old token.slot token.serial token.pass t × Moves P.listing self.old.ledger token.slot t moved.On ks self.new.ledger) }
        ensures born { IfOk result (λ b. IsOut self.new b) }
        ensures same { IfOk result (λ b. b.slot ≡ token.slot) }
        ensures word { IfOk result (λ b. OpensWord self.old b self.new) }
        ensures refused { IfErr result (λ r. HasStayed self.old self.new × (r.back.0 ≡ token) × (group_of r.back.1 ≡ None)) }
        ensures why { IfErr result (λ r. IsRefusedOpening P.listing self.old token P.table.words is_other r.why) }
    {
        let found = match self.find(inputs, &token) {
            Ok(found) => found,
            Err(why) => {
                let back = (token, idle);
                return Err(Refused { why, back });
            }
        };
        match found.what {
            Action::Other => self.other_found(groups, inputs, token, found, idle),
            _ => {
                let why = BookFault::Wrong;
                let back = (token, idle);
                Err(Refused { why, back })
            }
        }
    }

    // What `other` does, of a token that was looked up, with the answer `found`, and is at `f ; g`. `step` calls this function too. In the contract
    // `IsOut` says that a token's record is there, `OpensWord` that a word which was free stands for the new group and no other word has changed,
    // `HasStayed` that nothing has changed but room for passes.
    pub(crate) fn other_found(
        &mut self,
        groups: &Groups<P>,
        inputs: &Inputs<'_, P>,
        token: Token<P>,
        found: Found,
        idle: Pass<P>,
    ) -> Result<Token<P>, Refused<(Token<P>, Pass<P>)>>
        requires found { HasFound P.listing self.old token found }
        requires next { found.what ≡ Action.Other }
        requires idle { group_of idle ≡ None }
        ensures done { IfOk result (λ _. (t : Its) × (ks : List ℕ) × IsUnkept self.old token.slot token.serial token.pass t × Moves P.listing self.old.ledger token.slot t moved.On ks self.new.ledger) }
        ensures born { IfOk result (λ b. IsOut self.new b) }
        ensures same { IfOk result (λ b. b.slot ≡ token.slot) }
        ensures word { IfOk result (λ b. OpensWord self.old b self.new) }
        ensures refused { IfErr result (λ r. HasStayed self.old self.new × (r.back.0 ≡ token) × (group_of r.back.1 ≡ None)) }
        ensures why { IfErr result (λ r. IsRefusedOpening P.listing self.old token P.table.words is_other r.why) }
    {
        // Room in the ledger for an entry and a group, and no token more. Once the word is opened, only the ledger can refuse the move, for memory.
        if let Err(fault) = self.ledger.within(0, 1, 0) {
            let back = (token, idle);
            return Err(Refused {
                why: fault_of(fault),
                back,
            });
        }
        // Memory for the new group's *post*, which is what the book has of the group, and for the pass that the book is to hold for the group.
        if reserve_opening(&mut self.posts, found.group).is_err() {
            let back = (token, idle);
            return Err(Refused {
                why: BookFault::Memory,
                back,
            });
        }
        // The idle pass opens a free word for the new group.
        let opened = match open_word(&self.words, groups, idle) {
            Ok(opened) => opened,
            Err(refused) => {
                let back = (token, refused.back);
                return Err(Refused {
                    why: refused.why,
                    back,
                });
            }
        };
        // A law: it shows the prover that the journal leads to a term, which the records describe. Nothing runs. What `advance` writes into `scopes`
        // and `cancelled` isn't read.
        stands(&self.ledger);
        match self.ledger.advance(
            inputs,
            token.slot,
            found.its,
            &mut self.scopes,
            &mut self.cancelled,
        ) {
            Ok(Moved::On) => {
                // The move has put the left side's token into the same slot: it is in the new group.
                let Some(inner) = self.ledger.held(token.slot) else {
                    unreachable!()
                };
                let number = self.ledger.group_of_token(&inner);
                // Adds posts up to the new group's, if there is none yet; `reserve_opening` has made the room.
                grow_to(self.alloc, &mut self.posts, number);
                // In the group around the otherwise one token less is out, and the book holds that token's pass there for the new group.
                put_back_at(&mut self.posts, found.group, found.out - 1, token.pass);
                // The new group's post gets its word, and notes that one token is out.
                begin_at(&mut self.posts, number, opened.word, found.group);
                // The opened word stands for the new group from here on.
                self.words.open(number);
                Ok(self.born(token.slot, opened.pass))
            }
            // A move at `f ; g` has no other outcome.
            Ok(_) => unreachable!(),
            // The opened pass is left, and is idle again as `left.pass`. The word is free in the book still: nothing is to be closed, and `left.last`
            // is dropped.
            Err(fault) => {
                let left = groups.leave(opened.pass);
                Err(Refused {
                    why: fault_of(fault),
                    back: (token, left.pass),
                })
            }
        }
    }
}
