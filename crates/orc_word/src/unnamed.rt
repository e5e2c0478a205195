//! Words that have no name yet. The name, a type (`Naming`), keeps passes of one table from the words of another. A *word* is an atomic counter of
//! the passes that name its group, with two bits. A *pass* is idle or names a group; a *supply* has idle ones. A *seat* is that by which the table's
//! rule knows a pass or a supply; `seat.me` has what the seat knows, and the slots that it holds. A table of the kit may also have *slots*, places
//! for values; this one has none.
ghost use Rattle.std.specs.Prelude.{◌≡◌, ◌<◌, ◌≤◌, ◌^◌, [], IfOk};
ghost use Rattle.orc_word.specs.declared.view.Stance.TheVariants.{Supplies};
ghost use Rattle.orc_word.specs.Views.{view_of};

use crate::groups::Groups;
use crate::naming::Naming;
use crate::plays::Counts;
use crate::supply::Supply;
use crate::view::{Plan, View};
use atomic_table::{Seat, Table};
use std::alloc::{AllocError, Global};
use std::marker::PhantomData;

/// Words that have no name yet, and the supply of all their passes.
#[derive(Drop)]
pub struct Unnamed {
    // The words; the seat of the supply that has all passes; and how many these are.
    table: Table<(), View, Plan, Counts, Global>,
    seat: Seat<(), View>,
    passes: u32,
    // The seat is one of this table, and stands for a supply of all passes.
    pub ghost full: { (seat.table_id ≡ table.shared.table_id) × (seat.me.1 ≡ []) × (seat.me.0 ≡ view_of (Supplies passes) []) },
    // The table was planned for as many groups as it has words, at least one, and for these passes. It has no slot.
    pub ghost planned: { (table.shared.key.groups ≡ table.shared.table_id.words) × (table.shared.key.passes ≡ passes) × (0 < table.shared.table_id.words) × (table.shared.table_id.slots ≡ 0) },
}

impl Unnamed {
    /// The words of `groups` groups (1 to 65,536), all 0, and a supply of `passes` passes (fewer than 2^31, so that a word's count never reaches its
    /// bits). Its error is refused memory.
    pub fn new(alloc: Global, groups: u32, passes: u32) -> Result<Unnamed, AllocError>
        requires groups { (0 < groups) × (groups ≤ 65536) }
        requires passes { passes < 2 ^ 31 }
        ensures { IfOk result (λ made. (made.table.shared.table_id.words ≡ groups) × (made.passes ≡ passes)) }
    {
        let mut words = Vec::new(alloc);
        for _ in 0..groups {
            words.push(0)?;
        }
        let plan = Plan { groups, passes };
        // The table, and the seat by which its rule knows the supply of all passes.
        let (table, seat) = Table::of_words(alloc, words.as_slice(), &plan)?;
        Ok(Unnamed {
            table,
            seat,
            passes,
        })
    }

    /// The words and the supply of all their passes, under a name: a type that keeps the passes of one table from the words of another. The caller
    /// picks the name of this table.
    pub fn named<J: Naming>(self) -> (Groups<J>, Supply<J>)
        requires { self.table.shared.table_id ≡ J.table }
        ensures words { result.0.table.shared.key ≡ self.table.shared.key }
        ensures passes { result.1 ≡ self.passes }
    {
        let Unnamed {
            table,
            seat,
            passes,
        } = self;
        let groups = Groups {
            table,
            of: PhantomData,
        };
        let supply = Supply {
            passes,
            seat,
            of: PhantomData,
        };
        (groups, supply)
    }
}
