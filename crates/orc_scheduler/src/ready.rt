//! The run queue: the tokens whose turn comes. A *token* marks a part of the program's term that runs; the ledger, which has a run's records, keeps
//! it in a *slot*. An *order* is a number from which it is drawn whose turn comes: that of a token, or of a call that came due. In contracts
//! `deque_len` is how many handles the queue has; by `HasDrawn` they are one fewer if a token was drawn, else no more than before.

ghost use Rattle.std.specs.Prelude.{◌≡◌, ◌≤◌, ◌<◌, ◌+◌, MatchOption};
ghost use Rattle.std.specs.VecDeque.{deque_len};
ghost use Rattle.orc_scheduler.specs.Stops.{HasDrawn};

use crate::order::Order;
use orc_ledger::{Ledger, Run};
use std::alloc::{AllocError, Global};
use std::collections::VecDeque;

/// A token by its slot in the ledger. The serial, which begins with 1 and is never used again, tells whether the slot still holds it.
#[derive(Clone, Copy)]
pub struct Handle {
    pub(crate) slot: usize,
    pub(crate) serial: u64,
    /// The number of moves, one after another, by which the run came to this token. In a tree of calls a token with few moves stands near the root,
    /// so that most of the work may be below it.
    pub(crate) moves: u32,
}

/// How many turns a round has. One turn of each round is that of the token which has waited longest.
const ROUND: u64 = 64;

/// The most moves of a token in one turn. The ledger may write several entries in one move.
pub(crate) const MOVES: u32 = 64;

/// The tokens whose turn comes. The one that came last goes first, so that few live at a time; but one turn in each round is that of the
/// token which has waited longest, so that none is starved. Where an order is set, it says whose turn it is.
#[derive(Drop)]
pub struct Ready {
    /// The one that has waited longest is first. A handle may be of a token that is gone.
    pub handles: VecDeque<Handle>,
    // How often `take` was called. Turns that answer a call aren't counted, nor is any turn of a run with an order.
    turns: u64,
    // Says whose turn it is in a run with an order (`--order`); None in others.
    order: Option<Order>,
}

/// Whose turn an order draws.
#[derive(Clone, Copy)]
pub(crate) enum Drawn {
    /// The token of this handle, which is in the queue no more.
    Token(Handle),
    /// The call with this number (not its place among the due ones): its turn answers it, if it isn't gone by then.
    Call(u64),
}

// The rank of the token or call at the place `at` of a draw, by which an odd order (`--order`) compares candidates. Places count from 0: first come
// the tokens of the queue `handles`, then the calls that are due.
fn rank_at<P: Run>(
    handles: &VecDeque<Handle>,
    ledger: &Ledger<P>,
    order: &Order,
    at: usize,
) -> u64 {
    // Behind the tokens: a call.
    let Some(handle) = handles.get(at) else {
        return order.rank_of_call(at.saturating_sub(handles.len()));
    };
    match ledger.held(handle.slot) {
        Some(token) => order.rank(handle.slot, token.standing),
        // The token is gone, and has the least rank.
        None => 0,
    }
}

impl Ready {
    /// No token's turn comes, and no order is set.
    pub(crate) fn new(alloc: Global) -> Ready {
        Ready {
            handles: VecDeque::new(alloc),
            turns: 0,
            order: None,
        }
    }

    /// Turns come in this order from now on. The queue stays as it is.
    pub(crate) fn follow(&mut self, order: Order)
        ensures { self.new.handles ≡ self.old.handles }
    {
        self.order = Some(order);
    }

    /// How many handles there are, those of tokens that are gone too.
    pub(crate) fn len(&self) -> usize
        ensures { result ≡ deque_len self.now.handles }
    {
        self.handles.len()
    }

    /// Makes room for one handle more. The error is refused memory.
    #[inline(always)]
    pub(crate) fn reserve(&mut self) -> Result<(), AllocError>
        ensures { deque_len self.new.handles ≡ deque_len self.old.handles }
    {
        self.handles.reserve(1)
    }

    /// Adds a token behind the others, as the newest. The error is refused memory.
    #[inline(always)]
    pub(crate) fn push(&mut self, handle: Handle) -> Result<(), AllocError> {
        match self.handles.push_back(handle) {
            Ok(()) => Ok(()),
            Err(_) => Err(AllocError),
        }
    }

    /// The token that has waited longest; None if the queue is empty.
    pub(crate) fn oldest(&self) -> Option<Handle> {
        self.handles.front().copied()
    }

    /// Drops the handle of the token that has waited longest. An empty queue stays as it is; the contract says only that the queue isn't longer.
    pub(crate) fn drop_oldest(&mut self)
        ensures { deque_len self.new.handles ≤ deque_len self.old.handles }
    {
        let _gone = self.handles.pop_front();
    }

    /// Whether a round of 64 turns has ended, and no turn of the next one has begun. So it is before the first turn, too.
    pub(crate) fn is_round_over(&self) -> bool {
        self.turns % ROUND == 0
    }

    /// The token at the place `at` of the queue, from 0 for the one that has waited longest; None if the queue is shorter.
    pub(crate) fn get(&self, at: usize) -> Option<Handle> {
        self.handles.get(at).copied()
    }

    /// The token that has waited longest goes behind the others, without a turn. An empty queue stays as it is.
    pub(crate) fn pass_oldest(&mut self)
        ensures { deque_len self.new.handles ≡ deque_len self.old.handles }
    {
        self.handles.rotate_left(self.handles.len().min(1));
    }

    /// The least number of moves that have led to one of the tokens; 0 if the queue is empty.
    pub(crate) fn fewest_moves(&self) -> u32 {
        self.handles
            .iter()
            .map(|handle| handle.moves)
            .min()
            .unwrap_or(0)
    }

    /// Takes a token out of the queue: the newest one, but once a round, and always if the tokens spread, the one that has waited longest. None if
    /// the queue is empty; that counts as a turn, too. The contract says that the queue is shorter by one if a token was taken.
    #[inline(always)]
    pub(crate) fn take(&mut self, spreads: bool) -> Option<Handle>
        ensures { MatchOption result (deque_len self.new.handles ≤ deque_len self.old.handles) (λ _. deque_len self.new.handles + 1 ≡ deque_len self.old.handles) }
    {
        // No run has 2^64 turns; the prover isn't told so, and nothing hangs on the number.
        self.turns = self.turns.wrapping_add(1);
        if spreads || self.turns % ROUND == 0 {
            self.handles.pop_front()
        } else {
            self.handles.pop_back()
        }
    }

    /// Whether an order (`--order`) says whose turn it is.
    #[inline(always)]
    pub(crate) fn is_ordered(&self) -> bool {
        self.order.is_some()
    }

    /// How many calls came due and weren't drawn for a turn yet; 0 if there is no order, since only an order draws calls.
    pub(crate) fn call_count(&self) -> usize {
        match &self.order {
            Some(order) => order.calls.len(),
            None => 0,
        }
    }

    /// Notes that the call with this number came due: it has a turn if there is an order. The error is refused memory.
    pub(crate) fn note_call(&mut self, number: u64) -> Result<(), AllocError>
        ensures { self.new.handles ≡ self.old.handles }
    {
        match &mut self.order {
            Some(order) => order.note_call(number),
            None => Ok(()),
        }
    }

    /// The token that came last, if there is an order and the token isn't *settled*: known to have a next move that somebody outside sees. None if
    /// all are settled, too.
    pub(crate) fn newest_unsettled(&self) -> Option<Handle> {
        let Some(order) = &self.order else {
            return None;
        };
        if order.settled < self.handles.len() {
            self.handles.back().copied()
        } else {
            None
        }
    }

    /// Notes that somebody outside sees the next move of the token that came last: it goes to the settled ones, which are first in the queue. Nothing
    /// happens if there is no order, or all are settled.
    pub(crate) fn settle_newest(&mut self)
        ensures { deque_len self.new.handles ≡ deque_len self.old.handles }
    {
        let Some(order) = &mut self.order else {
            return;
        };
        let count = self.handles.len();
        if order.settled < count {
            // The token takes the first place behind the settled ones, and the one that was there goes to the end.
            self.handles.swap(order.settled, count - 1);
            order.settled += 1;
        }
    }

    /// Whose turn the order draws: that of a token, which is taken out of the queue, or of a call, which is taken out of those that came due. None
    /// where there is no order, or nobody to draw.
    pub(crate) fn draw<P: Run>(&mut self, ledger: &Ledger<P>) -> Option<Drawn>
        ensures { HasDrawn result (deque_len self.old.handles) (deque_len self.new.handles) }
    {
        let Some(order) = &mut self.order else {
            return None;
        };
        let tokens = self.handles.len();
        // While a token isn't settled (known to have a next move that somebody outside sees), the newest one goes without a draw, 64 times in a row
        // at most.
        if order.goes_unseen(tokens) {
            return match self.handles.pop_back() {
                Some(handle) => Some(Drawn::Token(handle)),
                None => None,
            };
        }
        // Places count tokens first, then the calls that are due.
        let count = tokens.saturating_add(order.calls.len());
        let mut at = order.draw(count);
        // In an odd order the one with the highest rank of eight candidates has the turn. In an even one the first candidate has it.
        for _ in 0..order.rivals() {
            let rival = order.draw(count);
            let handles = &self.handles;
            if rank_at(handles, ledger, order, rival) > rank_at(handles, ledger, order, at) {
                at = rival;
            }
        }
        // Those that are settled stay in front: the last of them takes the place of one that goes. The second test always holds: it is for the
        // prover.
        if at < order.settled && order.settled <= tokens {
            order.settled -= 1;
            self.handles.swap(at, order.settled);
            at = order.settled;
        }
        match self.handles.swap_remove_back(at) {
            Some(handle) => {
                // `swap_remove_back` has moved the last token into the place of the drawn one; there are never more settled tokens than tokens.
                order.settled = order.settled.min(self.handles.len());
                Some(Drawn::Token(handle))
            }
            // No token has this place, so a call is drawn; none if there is neither token nor call.
            None => match order.take_call(at.saturating_sub(tokens)) {
                Some(number) => Some(Drawn::Call(number)),
                None => None,
            },
        }
    }
}
