//! The entries by which tokens, sides and calls go on. `marked` is the marked term, which is what is left of the program's term after the first
//! entries of a journal; a token's number is its *mark*. A *side* is the right one of an opened `<x<`, by its cell, or the left one of an entered
//! `;`, by its mark.

ghost use Rattle.std.specs.Prelude.{◌≡◌, IfSome, IfNone};
ghost use Rattle.orc_rules.specs.Journal.{Place};
ghost use Rattle.orc_rules.specs.Nodes.{Listing, code};
ghost use Rattle.orc_rules.specs.Refusal.{Fits, IsAnswer, IsAnswered, IsOnTime, IsOver};
ghost use Rattle.orc_rules.specs.Timed.{Context, IsDue};
ghost use Rattle.orc_checker.specs.Checker.{Spells};
ghost use Rattle.orc_checker.specs.Offers.{Offers};
ghost use Rattle.orc_checker.specs.declared.next.Next.TheVariants.{Wait};

use orc_checker::{Marked, Next, Side};
use orc_rules::entry::Entry;
use orc_rules::value::Answer;

/// The entry in which the token with the mark `token` does what it can do, `next`, with the next numbers for what the entry makes. None where the
/// token waits. By the contract the entry fits what the token stands on (`Fits`) if `next` is what the token can do (`Offers`).
pub fn token_entry(marked: &Marked, token: u64, next: Next) -> Option<Entry>
    ensures fits { IfSome result (λ e. (x : Context) (p : Place) → Offers x p token next → Fits x p e) }
    ensures waits { IfNone result (next ≡ Wait) }
{
    let mark = marked.new_mark();
    // The mark of a second new token. It never saturates: no run has 2^64 marks. The contract leaves new numbers open, so no proof has to exclude it.
    let second = mark.saturating_add(1);
    match next {
        Next::End => Some(Entry::End(token)),
        Next::Fork => Some(Entry::Fork(token, mark, second)),
        Next::Seq => Some(Entry::Seq(token, mark)),
        Next::Other => Some(Entry::Other(token, mark)),
        Next::Def => Some(Entry::Def(token, mark)),
        Next::Void => Some(Entry::Void(token)),
        Next::Open => Some(Entry::Open(token, marked.new_cell(), mark, second)),
        Next::Send(value) => Some(Entry::Send(token, mark, value)),
        Next::Call(site, args) => Some(Entry::Call(token, marked.new_call(), site, args)),
        Next::Bind(cell, value) => Some(Entry::Bind(token, cell, value)),
        Next::Publish(value) => Some(Entry::Publish(token, value)),
        Next::Wait => None,
    }
}

/// The entry that drops a side which has halted: `lost`, or `right` with the next mark. None where there is no such side, or it hasn't halted. By
/// `IsOver` the side has halted at each place that `marked` describes.
pub fn side_entry(marked: &Marked, side: Side) -> Option<Entry>
    ensures over { IfSome result (λ e. (x : Context) (l : Listing) (p : Place) → Spells x (code l) marked.now p → IsOver p e) }
{
    match side {
        Side::Right(cell) => {
            if !marked.right_has_halted(cell)? {
                return None;
            }
            Some(Entry::Lost(cell))
        }
        Side::Left(mark) => {
            if !marked.left_has_halted(mark)? {
                return None;
            }
            Some(Entry::Right(mark, marked.new_mark()))
        }
    }
}

/// The entry in which a call returns with an answer, with the next mark for a value. The function doesn't ask whether the call pends, has this answer
/// and is due: the caller does. Where the table gives the call this answer, the entry has the right answer; where the call is due now with it, the
/// entry is on time.
pub fn return_entry(marked: &Marked, call: u64, answer: Answer) -> Entry
    ensures answer { (x : Context) (p : Place) → IsAnswer x p call answer → IsAnswered x p result }
    ensures time { (x : Context) (p : Place) → IsDue x.sites p.calls call answer p.now → IsOnTime x p result }
{
    match answer {
        Answer::Value(value) => Entry::Return(call, marked.new_mark(), value),
        Answer::Halt => Entry::ReturnHalt(call),
    }
}
