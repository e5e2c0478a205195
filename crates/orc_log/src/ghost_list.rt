//! A ghost list: contracts can mention it, and it takes no memory at run time.
//!
//! A type that forgets items can still say in its contracts which they were: it keeps a [`GhostList`] of them. A ghost list has no bytes. So whoever
//! makes one picks its items in the proof, and the invariant of the type that keeps it ties them to what has happened.

ghost use Rattle.std.specs.Prelude.{◌≡◌, List};
ghost use Rattle.std.specs.Borrow.{ftrue};
ghost use Rattle.std.specs.Coded.{coded_list};

use std::marker::{Model, PhantomData, Send, Sync};

/// A list of items that contracts can mention and that no code can read.
#[derive(Drop)]
pub struct GhostList<T> {
    // Names the items' type alone.
    of: PhantomData<T>,
    pub ghost items: { List T } by { coded_list T.code },
}

impl<T> Model for GhostList<T> {
    // It owns no memory and no item.
    ghost also_owns = { λ _. ftrue };
}

// Any `T` will do for these two: there is no item that another thread could reach.
unsafe impl<T> Send for GhostList<T> {}

unsafe impl<T> Sync for GhostList<T> {}

/// A ghost list of these items, which the caller's proof picks. Nothing runs.
pub fn ghost_list_of<T>() -> GhostList<T>
    ghost items: { List T }
    ensures { result.items ≡ items }
{
    GhostList { of: PhantomData }
}
