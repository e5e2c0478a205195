//! The rule of the table of words, and what each kind of exchange tells the seat that makes it. No value of these types is made.
//!
//! A *seat* is that by which the table knows a pass or a supply. `doing A B` says that the exchange adds the deeds A and changes the stance by B;
//! `seeing B` that it adds no deed. A split makes two seats of one, a join one of two. A *pass* is idle or names a group; a *supply* has idle passes,
//! to be taken out. A *word* counts the passes that name its group, and has two bits, *published* and *killed*. A seat's *stance* is which of these
//! it stands for, with the bits that it has seen and won; its *deeds* are what it did that nothing undoes. `View` has both. `Plan` says how many
//! words and passes were made.
ghost use Rattle.orc_word.specs.declared.view.Stance.TheVariants.{Supplies, Idle, Spent};
ghost use Rattle.orc_word.specs.declared.bits.Bit.TheVariants.{Published, Killed};
ghost use Rattle.std.specs.Prelude.{[], ◌++◌};
ghost use Rattle.orc_word.specs.Views.{Kept, view_of, kept_deeds, given_deeds};
ghost use Rattle.orc_word.specs.Steps.{peeked, bounded, set_aside, opened, entered, left, marked, looked, one_less, all_kept, all_given, one_more, doing, seeing, if_opened, if_found, if_ended, if_won};

use crate::view::{Plan, View};
use atomic_table::{Join, Play, Split, TableRule};

/// The rule of the table, which holds of the words and of what seats (passes and supplies) know, between any two exchanges (`Kept`). At first one
/// supply has all passes.
pub struct Counts;

impl TableRule<(), View, Plan> for Counts {
    ghost holds = { Kept };

    ghost first = { λ plan. view_of (Supplies plan.passes) [] };
}

/// A load of a word before an opening, which tells the seat of the pass nothing.
pub struct Peek;

impl Play<(), View> for Peek {
    ghost then = { seeing peeked };
}

/// A load that tells the seat of a supply that the supply has fewer than 2^31 passes.
pub struct Bound;

impl Play<(), View> for Bound {
    ghost then = { seeing bounded };
}

/// An exchange that changes no word: the stance of the supply's seat, which is what the seat stands for, notes how many passes it is about to part
/// with.
pub struct SetAside;

impl Play<(), View> for SetAside {
    ghost then = { seeing set_aside };
}

/// The opening of a group, if the word is still the one that was read. Then the pass has a deed more (`if_opened`), and names the group (`opened`).
pub struct Open;

impl Play<(), View> for Open {
    ghost then = { doing if_opened opened };
}

/// A pass enters a group, and names it (`entered`). It has a deed more where no pass named the group (`if_found`).
pub struct Enter;

impl Play<(), View> for Enter {
    ghost then = { doing if_found entered };
}

/// A pass leaves its group, and is idle (`left`). It has a deed more where it was the last that named the group (`if_ended`).
pub struct Leave;

impl Play<(), View> for Leave {
    ghost then = { doing if_ended left };
}

/// A pass reads its group's bits, and has then seen those that are set (`looked`). That is no deed.
pub struct Look;

impl Play<(), View> for Look {
    ghost then = { seeing looked };
}

/// A pass sets the bit *published*, and has seen it then (`marked`). If the bit was clear the pass has won it, which is a deed (`if_won`).
pub struct MarkPublished;

impl Play<(), View> for MarkPublished {
    ghost then = { doing (if_won Published) (marked Published) };
}

/// A pass sets the bit *killed*, and has seen it then (`marked`). If the bit was clear the pass has won it, which is a deed (`if_won`).
pub struct MarkKilled;

impl Play<(), View> for MarkKilled {
    ghost then = { doing (if_won Killed) (marked Killed) };
}

/// A split of a supply's seat, by which the table knows the supply: one pass is taken out. `left` is what the table then knows of the supply, `right`
/// of the pass; before, it knew `v` of the supply.
pub struct TakeOne;

impl Split<View> for TakeOne {
    ghost left = { λ v. view_of (one_less v.stance) (kept_deeds (one_less v.stance) v.deeds) };

    ghost right = { λ v. view_of Idle (given_deeds (one_less v.stance) v.deeds) };
}

/// A split of a supply's seat: the passes that the supply has set aside become a supply of their own. `left` is what the table then knows of the old
/// supply, `right` of the new one; before, it knew `v` of the old one.
pub struct PartWith;

impl Split<View> for PartWith {
    ghost left = { λ v. view_of (all_kept v.stance) (kept_deeds (all_kept v.stance) v.deeds) };

    ghost right = { λ v. view_of (all_given v.stance) (given_deeds (all_kept v.stance) v.deeds) };
}

/// A join of two seats: an idle pass goes back into a supply. `both` is what the table then knows of the supply, `spent` of the pass that was given
/// back; before, it knew `v` of the supply and `w` of the pass.
pub struct GiveBack;

impl Join<View> for GiveBack {
    ghost both = { λ v w. view_of (one_more v.stance) (v.deeds ++ w.deeds) };

    ghost spent = { view_of Spent [] };
}
