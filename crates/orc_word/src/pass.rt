//! Passes: each is idle or names one group. A group is what runs in one right side of a `<x<`, one left side of a `;`, or the whole program. Its
//! *word*, an atomic counter, counts the passes that name it, and has two bits, which a pass may see set and may win, that is, set itself.
ghost use Rattle.std.specs.Prelude.{◌≡◌};

use crate::naming::Naming;
use crate::view::View;
use atomic_table::Seat;
use std::marker::{Model, PhantomData};

/// A pass: it is idle, or names a group, whose word counts the pass then. It can't be copied. To a contract it is its view ([`View`]).
#[derive(Drop)]
pub struct Pass<J: Naming> {
    // The number of the group that the pass names; None while it is idle.
    pub(crate) group: Option<u32>,
    // The pass's seat (`view.rt`): by it the table's rule knows the pass, with what it has seen and done.
    pub(crate) seat: Seat<(), View>,
    // Names the table in the type; it takes no memory.
    pub(crate) of: PhantomData<J>,
}

// Contracts see the view of the pass's seat: whether the pass is idle or which group it names, with what it has seen and done.
impl<J: Naming> Model for Pass<J> {
    ghost use Rattle.std.specs.Prelude.{◌≡◌, []};
    ghost use Rattle.orc_word.specs.declared.view.View.{View};
    ghost use Rattle.orc_word.specs.Words.{IsPass};

    ghost Value = { View };

    ghost view = { λ p. p.seat.me.0 };

    // The seat is one of the table that `J` names, and is idle or names a group as the field `group` says.
    ghost invariant = { λ p. (p.seat.table_id ≡ J.table) × (p.seat.me.1 ≡ []) × IsPass J.table.words p.group p.seat.me.0.stance };
}

impl<J: Naming> Pass<J> {
    ghost use Rattle.orc_word.specs.Views.{group_of};

    /// The number of the group that the pass names; None where it is idle.
    pub fn group(&self) -> Option<u32>
        ensures { result ≡ group_of self.now }
    {
        self.group
    }
}
