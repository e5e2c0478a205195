//! The rule of a queue: the history of its pushes, pops and thefts. No value of these types is made. A *port* is who has access to a queue: its
//! owner, or a thief, who may only steal from it. Items are the tasks in the queue. `Protocol` and `Outcome` are traits of the kit's deque, by which
//! it takes a rule and says what a call tells.
ghost use Rattle.std.specs.Prelude.{true, false, []};
ghost use Rattle.orc_pool.specs.History.{Kept, view_of, IsPush, IsPop, IsTheft, WasEmpty};

use crossbeam_deque::protocol::{Outcome, Protocol};
use std::collections::LinkedList;

/// One event of a queue. A theft has the number of the port that made it: the owner's is 0, each thief has one of its own.
pub enum Event<T> {
    Pushed(T),
    Popped(T),
    Stolen(u64, T),
}

/// What a port has seen of the history, from its start on, and all that it stole, in order. `owns` is true of the owner.
pub struct View<T> {
    pub owns: bool,
    pub seen: LinkedList<Event<T>>,
    pub stolen: LinkedList<T>,
}

/// The rule: there is one history, and each port knows its part of it.
pub struct OneHistory;

// For the prover: `holds` is the rule, `first` what the owner knows at first, and `guest` what a new thief knows, both of whom have seen nothing.
impl<T> Protocol<T, View<T>> for OneHistory {
    ghost holds = { Kept };

    ghost first = { view_of true [] [] };

    ghost guest = { view_of false [] [] };
}

/// What a push tells the owner.
pub struct Pushes;

// `then` says what the owner knows after a push: behind what it has seen some thefts, and then this push.
impl<T> Outcome<T, View<T>> for Pushes {
    ghost then = { IsPush };
}

/// What a pop tells the owner, with an item and without.
pub struct Pops;

// `then` says what the owner knows after a pop of an item: some thefts more, and then this pop of the item that stood last. `empty` says what a pop
// without an item tells: the queue was empty after some thefts.
impl<T> Outcome<T, View<T>> for Pops {
    ghost then = { IsPop };

    ghost empty = { WasEmpty };
}

/// What a theft tells the thief.
pub struct Thefts;

// `then` says what the thief knows after a theft: it is a later event of the history, and its item stood first.
impl<T> Outcome<T, View<T>> for Thefts {
    ghost then = { IsTheft };
}
