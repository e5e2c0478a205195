//! The table of steps. It tells, of a token with this innermost step, the group and the depth, what takes a publication, and whether it is inside the
//! right side of a cell. A *token* marks a part of the program's term that runs, and a *group* is what runs in a right side of a `<x<`, a left side
//! of a `;`, or the whole program. A *cell* stands for the x of an opened `f <x< g`, and the step into g names it.

ghost use Rattle.std.specs.Prelude.{◌≡◌, ◌≤◌, ◌<◌, ◌^◌, ◌++◌, ◌∷◌, [], false, length, OnOk};
ghost use Rattle.orc_tables.specs.Steps.{step_at, group_at, depth_at, taker_at, left_from, is_try as tries, HasRoom};
ghost use Rattle.orc_tables.specs.Inside.{aids, stands_inside, side_inside};
ghost use Rattle.orc_tables.specs.declared.records.Step.{Step as Its};

use crate::records::{Frame, Side, Step};
use orc_indexes::{push_within, reserve};
use std::alloc::{AllocError, Global};
use std::marker::Model;

/// The steps of a run, numbered from 1; 0 is the program as a whole. A step is the entry into the right side of a `<x<`, the left side of a `;`, or
/// the left side of a `>x>`. A publication costs the same however many otherwises (`f ; g`) are around a token: each step notes what takes it, and an
/// otherwise is marked as published only once (`leave`).
#[derive(Drop)]
pub struct Steps {
    // Step n is item n - 1.
    items: Vec<Step>,
    // Item n - 1: the number of the nearest step from step n outwards, itself included, that enters no otherwise, and so takes a publication; 0 where
    // there is none.
    takers: Vec<usize>,
}

// What contracts see of the table: the steps, and for how many more each list has room. By the invariant each step is inside an earlier one or none,
// and `takers` has the right step for each.
impl Model for Steps {
    ghost use Rattle.std.specs.Prelude.{◌-◌, vec_len, vec_capacity};
    ghost use Rattle.orc_tables.specs.Steps.{StepTable, AreLinked};

    ghost Value = { StepTable };

    ghost view = { λ s. record { items = s.items.items; room = vec_capacity s.items - vec_len s.items; taker_room = vec_capacity s.takers - vec_len s.takers } };

    ghost invariant = { λ s. AreLinked s.items.items s.takers.items };
}

// Whether what a step enters is the left side of an otherwise (`f ; g`), which passes publications on.
fn is_try(entered: Frame) -> bool
    ensures { result ≡ tries entered }
{
    match entered {
        Frame::OtherwiseLeft(_) => true,
        _ => false,
    }
}

// Whether what a step enters is the right side of the `<x<` whose cell has the number `cell`.
fn is_right_side_of(entered: Frame, cell: u64) -> bool
    ensures { result ≡ aids cell entered }
{
    match entered {
        Frame::PruneRight(other) => cell == other,
        _ => false,
    }
}

impl Steps {
    /// No steps: the program has entered no side yet.
    pub fn new(alloc: Global) -> Steps
        ensures { result.items ≡ [] }
    {
        Steps {
            items: Vec::new(alloc),
            takers: Vec::new(alloc),
        }
    }

    /// How many steps there are; the last one has this number.
    pub fn len(&self) -> usize
        ensures count { result ≡ length self.now.items }
        ensures fits { result < 2 ^ 63 }
    {
        self.items.len()
    }

    /// The step with this number. None for 0 and past the last one.
    #[inline(always)]
    pub fn at(&self, step: usize) -> Option<Step>
        ensures { result ≡ step_at self.now.items step }
    {
        if step == 0 {
            return None;
        }
        self.items.get(step - 1).copied()
    }

    /// The number of the group (the innermost right side of a `<x<` or left side of a `;`) of a token whose innermost step has the number `step`; 0,
    /// the program's own, for step 0 and past the last one.
    #[inline(always)]
    pub fn group_at(&self, step: usize) -> u32
        ensures { result ≡ group_at self.now.items step }
    {
        // Step 0 is the program as a whole, which has no item.
        if step == 0 {
            return 0;
        }
        match self.items.get(step - 1) {
            Some(last) => last.group,
            None => 0,
        }
    }

    /// How many left sides of a `>x>` are around a token whose innermost step has the number `step`, out to the innermost right side of a cell; 0 for
    /// step 0 and past the last one.
    #[inline(always)]
    pub fn depth_at(&self, step: usize) -> u32
        ensures { result ≡ depth_at self.now.items step }
    {
        // Step 0 is the program as a whole: no side is around it.
        if step == 0 {
            return 0;
        }
        match self.items.get(step - 1) {
            Some(last) => last.depth,
            None => 0,
        }
    }

    /// The number of the nearest step from step `from` outwards, that one included, that enters no otherwise, and so takes a publication; 0 where
    /// there is none.
    #[inline(always)]
    pub fn taker(&self, from: usize) -> usize
        requires { from ≤ length self.now.items }
        ensures { result ≡ taker_at self.now.items from }
    {
        // Step 0 is the program as a whole: it publishes the value, and no step takes it.
        if from == 0 {
            return 0;
        }
        self.takers[from - 1]
    }

    /// Makes room for one more step. The error is refused memory. The steps stay as they are.
    #[inline(always)]
    pub fn reserve(&mut self) -> Result<(), AllocError>
        ensures items { self.new.items ≡ self.old.items }
        ensures room { OnOk result (HasRoom self.new) }
    {
        // Both lists grow by one item with each step.
        reserve(&mut self.items)?;
        reserve(&mut self.takers)
    }

    /// Adds a step that has not published (`unmarked`), inside an earlier step or none (`within`); its number is the new `len`. There has to be room
    /// for it (`reserve`).
    #[inline(always)]
    pub fn push(&mut self, step: Step)
        requires room { HasRoom self.old }
        requires within { step.outer ≤ length self.old.items }
        requires unmarked { step.published ≡ false }
        ensures items { self.new.items ≡ self.old.items ++ step ∷ [] }
    {
        // An otherwise leaves publications to the step that takes them around it; any other step takes them itself, under the number that it gets
        // here.
        let taker = if is_try(step.entered) {
            self.taker(step.outer)
        } else {
            self.items.len() + 1
        };
        push_within(&mut self.takers, taker);
        push_within(&mut self.items, step);
    }

    /// Removes the last step; there has to be one. The caller sees to it that no token, call or group is in that step any more. The step's room is
    /// kept.
    #[inline(always)]
    pub fn drop_last(&mut self)
        requires { 1 ≤ length self.old.items }
        ensures items { (last : Its) × (self.old.items ≡ self.new.items ++ last ∷ []) }
        ensures room { HasRoom self.new }
    {
        let _taker = self.takers.pop();
        let _step = self.items.pop();
    }

    /// Marks as published each otherwise (`f ; g`) whose left side a publication leaves on its way from step `from` outwards to what takes the
    /// publication: their right sides never run. No step is removed. The loop stops at the first otherwise that is marked, since those around that
    /// one are marked, too.
    pub fn leave(&mut self, from: usize)
        requires { from ≤ length self.old.items }
        ensures { self.new.items ≡ left_from self.old.items from }
    {
        let mut at = from;
        while at != 0 {
            let mut step = self.items[at - 1];
            // The step takes the publication, or it was marked before, and so were those around it.
            if !is_try(step.entered) || step.published {
                return;
            }
            step.published = true;
            self.items[at - 1] = step;
            at = step.outer;
        }
    }

    // Whether a token whose innermost step has the number `from` is inside the right side of the `<x<` whose cell has the number `cell`, at any
    // depth.
    pub(crate) fn is_inside(&self, from: usize, cell: u64) -> bool
        ensures { result ≡ stands_inside cell self.now.items from }
    {
        let mut at = from;
        // How many steps may still follow: each has a lower number than the one inside it. It only shows the prover that the loop ends.
        let mut left = from;
        while left > 0 {
            let last = match self.at(at) {
                // The step with the number `at`. None for 0: all steps around the token were looked at.
                Some(last) => last,
                None => return false,
            };
            if is_right_side_of(last.entered, cell) {
                return true;
            }
            at = last.outer;
            left -= 1;
        }
        false
    }

    // Whether a side is inside the right side of the `<x<` whose cell has the number `cell`, or is that right side itself. `outer` is the number of
    // the step around the side's whole term.
    pub(crate) fn is_side_inside(&self, outer: usize, side: Side, cell: u64) -> bool
        ensures { result ≡ side_inside cell self.now.items outer side }
    {
        match side {
            Side::Right(other) => cell == other || self.is_inside(outer, cell),
            Side::Left(_, _, _) => self.is_inside(outer, cell),
        }
    }
}
