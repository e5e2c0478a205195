//! The words of groups, and the calls on them. A word is a 64-bit atomic: the number of passes that name the group in bits 0 to 31, then two bits. An
//! exchange answers the word as it was before. A group is named by the number of its word, from 0.
//!
//! The type after `::<` of an exchange (`Open`, `Enter`, ..) is for the prover alone: it says what the exchange tells the pass's *seat*, by which the
//! table knows the pass.
//!
//! In contracts `group_of` is the group that a pass names, `seen_of` are the bits that it has seen set, `won_of` those that it has won, and
//! `deeds_of` what it has done that nothing undoes. `Opens`, `Comes` and `Marks` say which deed a call adds. A *pass* is idle or names one group; an
//! engine has one for each token, pending call or inner group that it counts in a group. The table is one of the kit, which may also have *slots*,
//! places for values: this one has none.
ghost use Rattle.std.specs.Prelude.{◌≡◌, true, false, ℕ, List, [], ◌∷◌, ◌++◌, ◌<◌, Some, None, IsSome, MatchResult, MatchOption, cond};
ghost use Rattle.orc_word.specs.declared.view.View.{View};
ghost use Rattle.orc_word.specs.declared.view.Stance.TheVariants.{Names};
ghost use Rattle.orc_word.specs.declared.view.Deed.TheVariants.{Ended};
ghost use Rattle.orc_word.specs.Words.{no_bits, with_bit, has, Covers};
ghost use Rattle.orc_word.specs.Views.{Keeps, stance_of, group_of, seen_of, won_of, deeds_of, Opens, Comes, Marks};

use crate::bits::{Bit, Bits};
use crate::last::{Last, Left};
use crate::naming::Naming;
use crate::pass::Pass;
use crate::plays::{Counts, Enter, Leave, Look, MarkKilled, MarkPublished, Open, Peek};
use crate::view::{Plan, View};
use crate::words::Words;
use atomic_table::{Shared, Table};
use std::alloc::Global;
use std::marker::PhantomData;

/// 2^32: a word's count, the number of passes that name the group, is the remainder by this.
const COUNT: u64 = 4294967296;

/// The value of bit 32, which says that the group has published.
const PUBLISHED: u64 = 4294967296;

/// The value of bit 33, which says that the group is killed.
const KILLED: u64 = 8589934592;

/// The words of groups, one for each group, which all threads share. A group is what runs in one branch of a program, such as a right side of `<x<`.
#[derive(Drop)]
pub struct Groups<J: Naming> {
    // The words, under the rule `Counts`.
    pub(crate) table: Table<(), View, Plan, Counts, Global>,
    // Names the table in the type; it takes no memory.
    pub(crate) of: PhantomData<J>,
    // The table is the one that `J` names.
    pub ghost named: { table.shared.table_id ≡ J.table },
    // The table has a word for each group that was planned, at least one word, and no slot.
    pub ghost planned: { (table.shared.key.groups ≡ J.table.words) × (0 < J.table.words) × (J.table.slots ≡ 0) },
}

impl<J: Naming> Groups<J> {
    /// The part of the table on which threads make exchanges, each of which reads a word, and may change it, at one moment.
    pub(crate) fn shared(&self) -> &Shared<(), View, Plan, Counts>
        ensures { result.now ≡ self.now.table.shared }
    {
        &self.table.shared
    }

    /// Opens the group `group` (below the number of words), whose bits are clear then, and the idle pass names it. The opening is a deed of the pass,
    /// which nothing undoes (`Opens`).
    ///
    /// The error is the idle pass, as it was: no word is changed where the word counts a pass, or where another call changes it meanwhile.
    pub fn open(&self, idle: Pass<J>, group: u32) -> Result<Pass<J>, Pass<J>>
        requires group { group < J.table.words }
        requires idle { group_of idle ≡ None }
        ensures { MatchResult result (λ pass. (stance_of pass ≡ Names group no_bits no_bits) × Opens group (deeds_of idle) (deeds_of pass)) (λ back. back ≡ idle) }
    {
        // An idle pass names no group: `none` is None. `of` names the table in the type, and takes no memory.
        let Pass {
            group: none,
            mut seat,
            of,
        } = idle;
        let shared = &self.table.shared;
        let word = group as usize;
        // `Peek` and `Open` are for the prover alone: they say what an exchange tells the seat, by which the table knows the pass.
        let found = shared.load::<Peek>(&mut seat, word);
        // `is_left`: the word counts no pass. Only then the exchange is tried: it puts 1, which counts one pass and has no bits, in place of the word
        // that was read, bits of the last group included. It has done so if it meets, and so gives, the word that was read.
        let is_left = found % COUNT == 0;
        if is_left && shared.compare_exchange::<Open>(&mut seat, word, found, 1) == found {
            Ok(Pass {
                group: Some(group),
                seat,
                of,
            })
        } else {
            Err(Pass {
                group: none,
                seat,
                of,
            })
        }
    }

    /// The idle pass comes to name the group of `with`, whose count goes up by 1. It has seen none of the group's bits. It is a deed of the pass if
    /// no pass named the group (`Comes`).
    pub fn enter(&self, with: &Pass<J>, idle: Pass<J>) -> Pass<J>
        requires names { IsSome (group_of with.now) }
        requires idle { group_of idle ≡ None }
        ensures group { group_of result ≡ group_of with.now }
        ensures clear { (seen_of result ≡ no_bits) × (won_of result ≡ no_bits) }
        ensures deeds { Comes (group_of with.now) (deeds_of idle) (deeds_of result) }
    {
        // An idle pass names no group: `none` is None. `of` names the table in the type, and takes no memory.
        let Pass {
            group: none,
            mut seat,
            of,
        } = idle;
        // Not reached: `with` names a group, as the clause *names* asks.
        let Some(group) = with.group else {
            return Pass {
                group: none,
                seat,
                of,
            };
        };
        let shared = &self.table.shared;
        // The group's count goes up by 1; `Enter` says to the prover alone what that tells the seat. There are fewer than 2^31 passes, so the count
        // never reaches bit 32.
        shared.fetch_add::<Enter>(&mut seat, group as usize, 1);
        Pass {
            group: Some(group),
            seat,
            of,
        }
    }

    /// The pass is idle again, and its group's count goes down by 1. `last` is there exactly where the count became 0: that is a deed of the pass,
    /// which nothing undoes (`Ended`).
    pub fn leave(&self, pass: Pass<J>) -> Left<J>
        requires { IsSome (group_of pass) }
        ensures idle { group_of result.pass ≡ None }
        ensures last { MatchOption result.last (deeds_of result.pass ≡ deeds_of pass) (λ last. (deeds_of result.pass ≡ deeds_of pass ++ Ended last.group ∷ []) × (group_of pass ≡ Some last.group)) }
    {
        // `of` names the table in the type, and takes no memory.
        let Pass {
            group,
            mut seat,
            of,
        } = pass;
        // Not reached: the pass names a group, as the contract asks.
        let Some(group) = group else {
            return Left {
                pass: Pass {
                    group: None,
                    seat,
                    of,
                },
                last: None,
            };
        };
        let shared = &self.table.shared;
        // The group's count goes down by 1; `Leave` says to the prover alone what that tells the seat.
        let found = shared.fetch_sub::<Leave>(&mut seat, group as usize, 1);
        // Whether the word as it was counted this pass alone.
        let is_last = found % COUNT == 1;
        let last = if is_last {
            Some(Last {
                group,
                of: PhantomData,
            })
        } else {
            None
        };
        let pass = Pass {
            group: None,
            seat,
            of,
        };
        Left { pass, last }
    }

    /// Sets a bit of the pass's group, and says whether it was clear: the pass has won it then, which is a deed of the pass (`Marks`). False if the
    /// bit was set already, as it is to a pass that has seen it set.
    pub fn mark(&self, pass: &mut Pass<J>, bit: Bit) -> bool
        requires { IsSome (group_of pass.old) }
        ensures group { group_of pass.new ≡ group_of pass.old }
        ensures seen { seen_of pass.new ≡ with_bit bit (seen_of pass.old) }
        ensures again { has bit (seen_of pass.old) ≡ true → result ≡ false }
        ensures won { won_of pass.new ≡ cond result (with_bit bit (won_of pass.old)) (won_of pass.old) }
        ensures deeds { Marks (group_of pass.old) bit result (deeds_of pass.old) (deeds_of pass.new) }
    {
        // Not reached: the pass names a group, as the contract asks.
        let Some(group) = pass.group else {
            return false;
        };
        let shared = &self.table.shared;
        let word = group as usize;
        // The type after `::<` says to the prover alone what the exchange tells the pass's seat.
        match bit {
            Bit::Published => {
                let found = shared.fetch_or::<MarkPublished>(&mut pass.seat, word, PUBLISHED);
                // Bit 32 of the word as it was.
                found / PUBLISHED % 2 == 0
            }
            Bit::Killed => {
                let found = shared.fetch_or::<MarkKilled>(&mut pass.seat, word, KILLED);
                // Bit 33 of the word as it was.
                found / KILLED % 2 == 0
            }
        }
    }

    /// The bits of the pass's group, which the pass has seen then. They are at least those that the pass has seen set before (`Covers`).
    pub fn look(&self, pass: &mut Pass<J>) -> Bits
        requires { IsSome (group_of pass.old) }
        ensures group { group_of pass.new ≡ group_of pass.old }
        ensures seen { seen_of pass.new ≡ result }
        ensures won { won_of pass.new ≡ won_of pass.old }
        ensures deeds { deeds_of pass.new ≡ deeds_of pass.old }
        ensures covers { Covers (seen_of pass.old) result }
    {
        // Not reached: the pass names a group, as the contract asks.
        let Some(group) = pass.group else {
            return Bits {
                published: false,
                killed: false,
            };
        };
        let shared = &self.table.shared;
        // `Look` says to the prover alone what the load tells the pass's seat.
        let found = shared.load::<Look>(&mut pass.seat, group as usize);
        Bits {
            published: found / PUBLISHED % 2 == 1,
            killed: found / KILLED % 2 == 1,
        }
    }

    /// The words that the table ends with, to be read by one thread. They fit what the passes have seen and done, by the rule of the table (`Keeps`).
    pub fn close(self) -> Words
        ensures { (views : List View) × Keeps self.table.shared.key result views }
    {
        let Groups { table, of: _ } = self;
        Words {
            closed: table.close(),
        }
    }
}
