//! Supplies of idle passes: each worker has one, out of which it takes passes without asking the others. A *pass* is idle or names a group, whose
//! word, an atomic counter, counts it.
ghost use Rattle.std.specs.Prelude.{◌≡◌, ◌+◌, ◌<◌, None, MatchOption};
ghost use Rattle.orc_word.specs.Views.{group_of, stance_of};
ghost use Rattle.orc_word.specs.declared.view.Stance.TheVariants.{Idle};

use crate::groups::Groups;
use crate::naming::Naming;
use crate::pass::Pass;
use crate::plays::{Bound, GiveBack, PartWith, SetAside, TakeOne};
use crate::view::View;
use atomic_table::Seat;
use std::marker::{Model, PhantomData};

/// Passes that are still to be taken: each is idle, so it names no group. To a contract a supply is the number of its passes.
#[derive(Drop)]
pub struct Supply<J: Naming> {
    // How many idle passes can still be taken out.
    pub(crate) passes: u32,
    // The supply's seat (`view.rt`), by which the table's rule knows it. To take passes out splits it, and to give one back joins two.
    pub(crate) seat: Seat<(), View>,
    // Names the table in the type; it takes no memory.
    pub(crate) of: PhantomData<J>,
}

// Contracts see the number of passes.
impl<J: Naming> Model for Supply<J> {
    ghost use Rattle.std.specs.Prelude.{◌≡◌, ℕ, []};
    ghost use Rattle.orc_word.specs.declared.view.Stance.TheVariants.{Supplies};

    ghost Value = { ℕ };

    ghost view = { λ s. s.passes };

    // The seat is one of the table that `J` names, and stands for a supply of so many passes.
    ghost invariant = { λ s. (s.seat.table_id ≡ J.table) × (s.seat.me.1 ≡ []) × (s.seat.me.0.stance ≡ Supplies s.passes) };
}

impl<J: Naming> Supply<J> {
    /// Takes an idle pass out of the supply; none exactly where the supply is empty.
    pub fn take(&mut self, groups: &Groups<J>) -> Option<Pass<J>>
        ensures { MatchOption result ((self.old ≡ 0) × (self.new ≡ 0)) (λ pass. (stance_of pass ≡ Idle) × (self.old ≡ self.new + 1)) }
    {
        if self.passes == 0 {
            return None;
        }
        // The pass gets a seat of its own, split from the supply's: by a seat the table knows a pass. `TakeOne` is for the prover alone.
        let seat = groups.shared().split_seat::<TakeOne>(&mut self.seat);
        self.passes -= 1;
        Some(Pass {
            group: None,
            seat,
            of: PhantomData,
        })
    }

    /// Moves `passes` passes into a new supply; none, with nothing changed, exactly where this one has fewer. `groups` has the table of their seats.
    pub fn part(&mut self, groups: &Groups<J>, passes: u32) -> Option<Supply<J>>
        ensures { MatchOption result ((self.old < passes) × (self.new ≡ self.old)) (λ supply. (supply ≡ passes) × (self.old ≡ self.new + passes)) }
    {
        if self.passes < passes {
            return None;
        }
        let shared = groups.shared();
        // A split knows nothing but its seat's view. So the number is put into the view first, by an exchange on some word, here 0. It changes no
        // word: if it finds `aside`, it puts `aside` back.
        let aside = passes as u64;
        shared.compare_exchange::<SetAside>(&mut self.seat, 0, aside, aside);
        // The new supply's seat is split from this one's. `PartWith` and `SetAside` are types for the prover alone.
        let seat = shared.split_seat::<PartWith>(&mut self.seat);
        self.passes -= passes;
        Some(Supply {
            passes,
            seat,
            of: PhantomData,
        })
    }

    /// Takes an idle pass back into the supply, so that it can be taken out again.
    pub fn give(&mut self, groups: &Groups<J>, pass: Pass<J>)
        requires { group_of pass ≡ None }
        ensures { self.new ≡ self.old + 1 }
    {
        let Pass {
            group: _,
            seat,
            of: _,
        } = pass;
        let shared = groups.shared();
        // The pass's seat goes into the supply's. `GiveBack` and `Bound` are for the prover alone.
        shared.join_seat::<GiveBack>(&mut self.seat, seat);
        // The load, of any word, shows the prover that the supply has fewer than 2^31 passes, so that one more can be counted.
        shared.load::<Bound>(&mut self.seat, 0);
        self.passes += 1;
    }
}
