//! Tokens that move by `step`, in the order in which they came. None as the result of a row means that something isn't as it has to be. A *pass*
//! stands for one record (a token, a pending call, an inner group) in its group, which is what runs in one right side of a `<x<`, one left side of a
//! `;`, or the whole program; an *idle* one names no group. `births` has the passes that are lent for the records that a move brings, `out` the
//! tokens (`born`) and the passes to be left that came of moves. `setup` has the program, the table of sites and the groups' words, which count the
//! passes.

ghost use Rattle.std.specs.Prelude.{◌≡◌, true};

use crate::book::replay::Replay;
use crate::book::rows::{has_written, so};
use crate::book::setup::Setup;
use orc_book::{Births, BookFault, StepOut, Token};
use orc_ledger::Action;
use orc_log::Run;
use orc_word::Naming;
use std::alloc::Global;

// What the first moves of `(1 | 2) >x> Add(x, 10)` write: none of them, one, two, three and four.
const MOVES: [&str; 5] = [
    "",
    "seq 1 2\n",
    "seq 1 2\nfork 2 3 4\n",
    "seq 1 2\nfork 2 3 4\nsend 3 5 1\n",
    "seq 1 2\nfork 2 3 4\nsend 3 5 1\nsend 4 6 2\n",
];

// Has the token that has waited longest move by `step`, until the book refuses a move. Gives the reason. None if no token is left, or a hundred moves
// were accepted: the rows have four.
fn move_in_line<P: Run + Naming>(
    setup: &Setup<'_, P>,
    replay: &mut Replay<P>,
    births: &mut Births<P>,
    out: &mut StepOut<P>,
) -> Option<BookFault> {
    for _move in 0..100 {
        if out.born.is_empty() {
            return None;
        }
        // Tokens are added at the end, so the first one has waited longest.
        let token = out.born.remove(0);
        if let Err(refused) = replay
            .book
            .step(setup.groups, setup.inputs, token, births, out)
        {
            return Some(refused.why);
        }
    }
    None
}

// The first token needs no pass to enter a `>x>`, and is gone after that: with another pass to its group the book refuses it as Gone. The token that
// came in its place is in `out`.
fn moves_once<P: Run + Naming>(
    setup: &Setup<'_, P>,
    replay: &mut Replay<P>,
    births: &mut Births<P>,
    out: &mut StepOut<P>,
) -> Option<()> {
    let token = replay.held.take(1)?;
    let view = replay.book.view(setup.inputs, token.slot, token.serial)?;
    // The token is to enter the `>x>`. For that it needs no pass, neither to its group nor an idle one.
    so(matches!(view.what, Action::Seq) && view.needs.same == 0 && view.needs.idle == 0)?;
    let slot = token.slot;
    let double = replay.held.passes.same(setup.groups, &token.pass)?;
    replay
        .book
        .step(setup.groups, setup.inputs, token, births, out)
        .ok()?;
    let again = Token {
        serial: 1,
        slot,
        pass: double,
    };
    match replay
        .book
        .step(setup.groups, setup.inputs, again, births, out)
    {
        Ok(()) => None,
        Err(refused) => {
            so(refused.why == BookFault::Gone && out.born.len() == 1)?;
            // The second pass isn't the last one to the group: the new token has the first.
            so(
                !replay
                    .held
                    .passes
                    .leave(setup.groups, refused.back.pass)
                    .ok()?,
            )
        }
    }
}

/// The tokens of `(1 | 2) >x> Add(x, 10)` move in the order in which they came. One pass to the program's group is lent for the fork, and an idle one
/// for the publications, which don't use it, as they leave no group. The book accepts `entries` moves, an entry each, and refuses the next for the
/// reason `why`; `left` passes of the first kind (0 or 1) remain then.
pub(crate) fn makes_moves<P: Run + Naming>(
    alloc: Global,
    setup: &Setup<'_, P>,
    mut replay: Replay<P>,
    entries: usize,
    why: BookFault,
    left: usize,
) -> Option<()>
    requires { P.keeps ≡ true }
{
    let mut births = Births::new(alloc);
    let mut out = StepOut::new(alloc);
    moves_once(setup, &mut replay, &mut births, &mut out)?;
    // The token in `out`, at the fork, needs one pass to its own group.
    let token = out.born.first()?;
    let view = replay.book.view(setup.inputs, token.slot, token.serial)?;
    so(matches!(view.what, Action::Fork) && view.needs.same == 1 && view.needs.idle == 0)?;
    let same = replay.held.passes.same(setup.groups, &token.pass)?;
    births.same.push(same).ok()?;
    let idle = replay.held.passes.idle(setup.groups)?;
    births.idle.push(idle).ok()?;
    so(move_in_line(setup, &mut replay, &mut births, &mut out)? == why)?;
    so(replay.book.entries() == entries)?;
    so(births.same.len() == left && births.idle.len() == 1 && out.leave.is_empty())?;
    // `MOVES` has, at the number of moves, what these write.
    has_written(alloc, setup, replay, MOVES.get(entries)?)
}

/// A single token moves by `step` until the book is full: `entries` moves are accepted, and the next one is refused as Full and adds nothing.
pub(crate) fn goes_on_until_full<P: Run + Naming>(
    alloc: Global,
    setup: &Setup<'_, P>,
    mut replay: Replay<P>,
    entries: usize,
) -> Option<()> {
    let mut births = Births::new(alloc);
    let mut out = StepOut::new(alloc);
    let first = replay.held.take(1)?;
    out.born.push(first).ok()?;
    for _move in 0..entries {
        move_one(setup, &mut replay, &mut births, &mut out).ok()?;
    }
    so(replay.book.entries() == entries)?;
    match move_one(setup, &mut replay, &mut births, &mut out) {
        Ok(()) => None,
        Err(why) => so(why == BookFault::Full && replay.book.entries() == entries),
    }
}

// The token that came last moves, with an idle pass that it may need. The error is the book's, or Gone if no token is there.
fn move_one<P: Run + Naming>(
    setup: &Setup<'_, P>,
    replay: &mut Replay<P>,
    births: &mut Births<P>,
    out: &mut StepOut<P>,
) -> Result<(), BookFault> {
    if births.idle.is_empty()
        && let Some(idle) = replay.held.passes.idle(setup.groups)
        && births.idle.push(idle).is_err()
    {
        return Err(BookFault::Memory);
    }
    let Some(token) = out.born.pop() else {
        return Err(BookFault::Gone);
    };
    match replay
        .book
        .step(setup.groups, setup.inputs, token, births, out)
    {
        Ok(()) => Ok(()),
        Err(refused) => Err(refused.why),
    }
}
