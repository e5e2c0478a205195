//! Tokens that are out, as the book finds them. A token is *out* while a worker has it, and *kept* while it waits in the book for a cell. Its *pass*
//! stands for it in its group (what runs in one right side of a `<x<`, one left side of a `;`, or the whole program), whose *word*, an atomic
//! counter, counts the passes. `inputs` has the program and the table of what sites answer. `P` names the run and its table of words, for contracts
//! alone.

ghost use Rattle.std.specs.Prelude.{◌≡◌, IfOk, IfErr};
ghost use Rattle.orc_book.specs.Held.{IsGone};
ghost use Rattle.orc_book.specs.Refusals.{HasFound};

use crate::book::Book;
use crate::token::{BookFault, Token};
use orc_ledger::{Action, Inputs};
use orc_log::Run;
use orc_tables::Token as Record;
use orc_word::Naming;

/// What the book has found of a token that may be out.
#[derive(Clone, Copy)]
pub(crate) struct Found {
    /// The token's record in the ledger.
    pub its: Record,
    /// What the token does next.
    pub what: Action,
    /// The ledger's number of the token's group.
    pub group: u32,
    /// How many tokens of that group are out: 1 at least.
    pub out: usize,
}

impl<P: Run + Naming> Book<P> {
    /// Looks up a token that may be out with a worker: its record is there, its pass names its group's word, the book doesn't keep it, and some token
    /// of the group is out. Else the fault is Gone.
    #[inline(always)]
    pub(crate) fn find(&self, inputs: &Inputs<'_, P>, token: &Token<P>) -> Result<Found, BookFault>
        ensures found { IfOk result (HasFound P.listing self.now token.now) }
        ensures why { IfErr result (λ why. (why ≡ BookFault.Gone) × IsGone self.now token.now.slot token.now.serial token.now.pass) }
    {
        // No token has serial 0: in `keeping` it means that none is kept in the slot.
        if token.serial < 1 {
            return Err(BookFault::Gone);
        }
        // A token that the book keeps isn't out.
        if self.keeping.serial_at(token.slot) == token.serial {
            return Err(BookFault::Gone);
        }
        let Some(its) = self.ledger.token(token.slot, token.serial) else {
            return Err(BookFault::Gone);
        };
        let group = self.ledger.group_of_token(&its);
        // A *post* is what the book has of one group. Each group that has a token has one, but no proof is asked for that: without one the token
        // counts as gone.
        let Some(post) = self.posts.get(group as usize) else {
            return Err(BookFault::Gone);
        };
        // How many of the group's tokens are out.
        let out = post.out();
        if out < 1 || token.pass.group() != Some(post.word()) {
            return Err(BookFault::Gone);
        }
        let what = self.ledger.what(inputs, &its);
        Ok(Found {
            its,
            what,
            group,
            out,
        })
    }
}
