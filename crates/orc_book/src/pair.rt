//! An example of a caller: two workers with one book under a lock. The book has the records of a run and the passes of those that no worker has. A
//! *pass* stands for one record in its group (what runs in one right side of a `<x<`, one left side of a `;`, or the whole program); the group's
//! *word* counts it until it is *left*. A *cell* stands for the x of an opened `<x<`. `P` names the run and its table of words, for contracts alone.

ghost use Rattle.std.specs.Prelude.{◌≡◌};

use crate::book::Book;
use crate::token::Token;
use orc_ledger::Inputs;
use orc_log::Run;
use orc_word::{Groups, Last, Naming, Pass};
use std::alloc::Global;
use std::sync::{Mutex, Wait};
use std::thread::{Threads, join};

// Leaves a pass, if it names a group: the group's word, an atomic counter, counts it no more, which needs no lock. If the pass was the group's last,
// closes the group, which may add a pass to `more`. True if it closed one; false if the pass named no group, wasn't the last, or the book refused to
// close the group.
fn leave_one<P: Run + Naming, R: Wait>(
    rt: &R,
    groups: &Groups<P>,
    book: &Mutex<Book<P>>,
    pass: Pass<P>,
    more: &mut Vec<Pass<P>>,
) -> bool {
    if pass.group().is_none() {
        return false;
    }
    let left = groups.leave(pass);
    match left.last {
        Some(last) => close(rt, book, last, more),
        None => false,
    }
}

// Closes the group whose last pass was left. The group's pass to the one that encloses it, if the book holds one, is added to `more`. But if the
// group was the left side of a `;` whose right side starts now, the token there has that pass: it is dropped here. False if the book refuses: then
// `last` is dropped, and the group's word is never free again.
fn close<P: Run + Naming, R: Wait>(
    rt: &R,
    book: &Mutex<Book<P>>,
    last: Last<P>,
    more: &mut Vec<Pass<P>>,
) -> bool {
    book.lock(rt).halt(last, more).is_ok()
}

// Binds the cell that takes the token's value under the book's lock, and leaves the passes that come of it outside the lock. False if the book
// refuses the bind: then the token is dropped, and its pass counts for good.
fn bind_one<P: Run + Naming, R: Wait>(
    rt: &R,
    alloc: Global,
    inputs: &Inputs<'_, P>,
    groups: &Groups<P>,
    book: &Mutex<Book<P>>,
    token: Token<P>,
) -> bool {
    // The passes that the bind adds, to be left, and the numbers of the calls that it cancels, which nobody reads here.
    let mut leave = Vec::new(alloc);
    let mut cancelled = Vec::new(alloc);
    let bound = book
        .lock(rt)
        .bind(groups, inputs, token, &mut leave, &mut cancelled)
        .is_ok();
    // The passes of `more` are dropped here, so enclosing groups count them for good. A worker that goes on would leave them too.
    let mut more = Vec::new(alloc);
    while let Some(pass) = leave.pop() {
        // Whether a group was closed doesn't matter here.
        let _closed = leave_one(rt, groups, book, pass, &mut more);
    }
    bound
}

/// Asks the book for a bind of each token, at the same time, on two threads; the example is of two tokens of one group, but no clause asks for that.
/// Gives for `one` and then for `two` whether the book made its bind; the contract says nothing of the answers.
pub fn two_binds<P, R>(
    rt: &R,
    alloc: Global,
    inputs: &Inputs<'_, P>,
    groups: &Groups<P>,
    book: &Mutex<Book<P>>,
    one: Token<P>,
    two: Token<P>,
) -> (bool, bool)
where
    P: Run + Naming + Send + Sync,
    R: Threads + Wait + Sync,
{
    join(
        rt,
        move || { bind_one(rt, alloc, inputs, groups, book, one) },
        move || { bind_one(rt, alloc, inputs, groups, book, two) },
    )
}
