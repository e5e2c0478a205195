//! What a row does with a token, and with passes that are to be left, which it has in its *hand*. None as the result of a function means that
//! something isn't as it has to be. A *group* is what runs in one right side of a `<x<`, one left side of a `;`, or the whole program. A *pass*
//! stands for one record (a token, a pending call, an inner group) in its group, and the group's *word* counts its passes; an *idle* one names no
//! group, and to *leave* a pass makes it idle. A token has a number (`serial`) and the place of its record (`slot`). `setup` has the program, the
//! table of sites and the words.

ghost use Rattle.std.specs.Prelude.{◌≤◌};

use crate::book::replay::Replay;
use crate::book::rows::{Step, so};
use crate::book::setup::Setup;
use orc_book::{BookFault, Ended, Refused, Token};
use orc_log::Run;
use orc_rules::value::Args;
use orc_word::{Bit, Naming, Pass};
use std::alloc::Global;

/// A call of the book for a token.
#[derive(Clone, Copy)]
pub(crate) enum Call {
    /// The token ends.
    End,
    /// It publishes a value of the program.
    Publish,
    /// It makes a call of a site.
    Site,
    /// The book keeps it.
    Wait,
    /// It binds a cell.
    Bind,
    /// It forks, with another pass to its group.
    Fork,
    /// It opens a pruning, with another pass to its group and an idle one.
    Prune,
}

/// What comes of it that a pass is left.
#[derive(Clone, Copy)]
pub(crate) enum Left {
    /// Nothing: it isn't the last one to its group.
    Nothing,
    /// It is the last one to the only killed group, which the book closes without an entry. After that no killed group uses a word.
    Killed,
    /// It is the last one to the program's own group, with which the run ends.
    Run,
    /// It is the last one of a word that stands for no group: the book refuses to close that, as Gone.
    Stranger,
}

/// What a row has in its hand.
#[derive(Drop)]
pub(crate) struct Hand<P: Naming> {
    // A token that is out, which the replay doesn't have then.
    token: Option<Token<P>>,
    // Passes that are to be left. The book adds its own to them.
    leave: Vec<Pass<P>>,
}

impl<P: Naming> Hand<P> {
    /// An empty hand.
    pub(crate) fn new(alloc: Global) -> Hand<P> {
        Hand {
            token: None,
            leave: Vec::new(alloc),
        }
    }
}

// The book's refusal of a call for this token, which comes back. Passes that were lent come back, too, and are left. None if the book makes the call.
fn refusal<P: Run + Naming>(
    setup: &Setup<'_, P>,
    replay: &mut Replay<P>,
    leave: &mut Vec<Pass<P>>,
    token: Token<P>,
    call: Call,
) -> Option<Refused<Token<P>>> {
    match call {
        Call::End => replay.book.end(setup.inputs, token).err(),
        Call::Publish => replay.book.publish(setup.inputs, token).err(),
        Call::Site => {
            // The book would write the arguments over these.
            let mut args = Args::new();
            replay.book.call(setup.inputs, token, &mut args).err()
        }
        Call::Wait => replay.book.wait(setup.inputs, token).err(),
        Call::Bind => replay.bind_only(setup, token, leave).err(),
        Call::Fork => {
            let same = replay.held.passes.same(setup.groups, &token.pass)?;
            let refused = replay.book.fork(setup.inputs, token, same).err()?;
            let why = refused.why;
            let (back, same) = refused.back;
            so(!replay.held.passes.leave(setup.groups, same).ok()?)?;
            Some(Refused { why, back })
        }
        Call::Prune => {
            let same = replay.held.passes.same(setup.groups, &token.pass)?;
            let idle = replay.held.passes.idle(setup.groups)?;
            let refused = replay
                .book
                .prune(setup.groups, setup.inputs, token, same, idle)
                .err()?;
            let why = refused.why;
            let (back, same, idle) = refused.back;
            so(idle.group().is_none())?;
            so(!replay.held.passes.leave(setup.groups, same).ok()?)?;
            so(!replay.held.passes.leave(setup.groups, idle).ok()?)?;
            Some(Refused { why, back })
        }
    }
}

// The book refuses this call for the token in the hand, for this reason. The token comes back with a pass to its group, and nothing more is to be
// left.
fn denies<P: Run + Naming>(
    setup: &Setup<'_, P>,
    replay: &mut Replay<P>,
    hand: &mut Hand<P>,
    call: Call,
    why: BookFault,
) -> Option<()> {
    let token = hand.token.take()?;
    let serial = token.serial;
    let group = token.pass.group();
    let passes = hand.leave.len();
    let refused = refusal(setup, replay, &mut hand.leave, token, call)?;
    so(refused.why == why && hand.leave.len() == passes)?;
    so(refused.back.serial == serial && refused.back.pass.group() == group)?;
    hand.token = Some(refused.back);
    Some(())
}

// Leaves the pass at this place in the hand, from 0. `left` comes of it, and the book writes no entry.
fn leaves<P: Run + Naming>(
    setup: &Setup<'_, P>,
    replay: &mut Replay<P>,
    hand: &mut Hand<P>,
    place: usize,
    left: Left,
) -> Option<()> {
    if place >= hand.leave.len() {
        return None;
    }
    let pass = hand.leave.remove(place);
    // `leave` gives true for the last pass to a group, and puts the group among `lasts`.
    let is_last = replay.held.passes.leave(setup.groups, pass).ok()?;
    if let Left::Nothing = left {
        return so(!is_last);
    }
    so(is_last)?;
    let last = replay.held.passes.lasts.pop()?;
    let entries = replay.book.entries();
    let halted = replay.book.halt(last, &mut hand.leave);
    so(replay.book.entries() == entries)?;
    match halted {
        Ok(Ended::Group) => so(matches!(left, Left::Killed) && replay.book.dying() == 0),
        Ok(Ended::Run) => so(matches!(left, Left::Run)),
        Ok(_) => None,
        Err(refused) => so(matches!(left, Left::Stranger) && refused.why == BookFault::Gone),
    }
}

// Leaves the only pass to the program's own group though the group's token, in the hand, is still there: by the word, which counts passes, that was
// the last one. The book refuses to close the group as Live, since its records have a token there. The token gets a pass that opens the group's word
// again.
fn leaves_early<P: Run + Naming>(
    setup: &Setup<'_, P>,
    replay: &mut Replay<P>,
    hand: &mut Hand<P>,
) -> Option<()>
    requires { 2 ≤ P.table.words }
{
    let Token { serial, slot, pass } = hand.token.take()?;
    // `leave` gives true for the last pass to a group, and adds the group to `lasts`.
    so(replay.held.passes.leave(setup.groups, pass).ok()?)?;
    let last = replay.held.passes.lasts.pop()?;
    let entries = replay.book.entries();
    match replay.book.halt(last, &mut hand.leave) {
        Ok(_) => return None,
        Err(refused) => {
            so(refused.why == BookFault::Live && refused.back.group() == 0)?;
        }
    }
    so(replay.book.entries() == entries && hand.leave.is_empty())?;
    // An idle pass opens the group's word, 0, again, and names the group then.
    let idle = replay.held.passes.idle(setup.groups)?;
    let pass = setup.groups.open(idle, 0).ok()?;
    hand.token = Some(Token { serial, slot, pass });
    Some(())
}

/// Does a step that is about the hand. Some if all is as the step wants. The clause asks that there are two words at least, since some rows open word
/// 1.
pub(crate) fn acts<P: Run + Naming>(
    setup: &Setup<'_, P>,
    replay: &mut Replay<P>,
    hand: &mut Hand<P>,
    step: &Step,
) -> Option<()>
    requires { 2 ≤ P.table.words }
{
    match *step {
        Step::Takes(mark) => {
            hand.token = Some(replay.held.take(mark)?);
            Some(())
        }
        Step::Holds => replay.held.hold(hand.token.take()?).ok(),
        Step::IsGone => {
            let token = hand.token.as_ref()?;
            so(
                replay
                    .book
                    .view(setup.inputs, token.slot, token.serial)
                    .is_none(),
            )
        }
        Step::Denies(call, why) => denies(setup, replay, hand, call, why),
        Step::Binds => replay
            .bind_only(setup, hand.token.take()?, &mut hand.leave)
            .ok(),
        Step::Publishes => {
            let pass = replay.book.publish(setup.inputs, hand.token.take()?).ok()?;
            hand.leave.push(pass).ok()
        }
        Step::Drops => hand.leave.push(hand.token.take()?.pass).ok(),
        Step::Wins => {
            let Token {
                serial,
                slot,
                mut pass,
            } = hand.token.take()?;
            // `mark` asks for a pass that names a group: an idle one ends the row here. The pass names the same group then.
            let group = pass.group()?;
            so(setup.groups.mark(&mut pass, Bit::Killed))?;
            so(pass.group() == Some(group))?;
            hand.token = Some(Token { serial, slot, pass });
            Some(())
        }
        Step::LeavesEarly => leaves_early(setup, replay, hand),
        Step::NamesNext => {
            let idle = replay.held.passes.idle(setup.groups)?;
            let stranger = setup.groups.open(idle, 1).ok()?;
            hand.leave.push(stranger).ok()
        }
        Step::Wakes(cell) => replay.wake(cell).ok(),
        Step::ToLeave(passes) => so(hand.leave.len() == passes),
        Step::IsOfRun => so(hand.leave.first()?.group() == Some(0)),
        Step::Leaves(place, left) => leaves(setup, replay, hand, place, left),
        // `is_so` does all others.
        _ => None,
    }
}
