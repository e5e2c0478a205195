//! What takes a publication, and which otherwises (`f ; g`) it passes on its way. A *token* marks a part of the program's term that runs. A *step* is
//! the entry into the right side of a `<x<`, or into the left side of a `;` or a `>x>`. A *cell* stands for the x of an opened `f <x< g`.
//!
//! In contracts a path is what is around a token, the innermost first: `feeding` is the left side of a `>x>`, `aiding` the right side of a cell,
//! `trying` the left side of an otherwise, and `whole` nothing. `GoesTo` says that by the path this takes the publication, `IsOnWay` that the step
//! around a `>x>` that takes it is met on the way outwards, and `IsEntered` that a step enters what takes it. `seen` leaves out the otherwises that
//! have published, `crossed` lists those that a publication passes, and `Publishes` says that these are marked and nothing else changes.

ghost use Rattle.std.specs.Prelude.{◌≤◌, ℕ, length};
ghost use Rattle.orc_rules.specs.Term.{Term};
ghost use Rattle.orc_env.specs.Scopes.{Env};
ghost use Rattle.orc_frames.specs.Paths.{path, has_published};
ghost use Rattle.orc_frames.specs.Spelling.{seen};
ghost use Rattle.orc_frames.specs.Taking.{GoesTo, IsOnWay, IsEntered, crossed, Publishes};
ghost use Rattle.orc_tables.specs.Steps.{AreOutwards};

use orc_tables::{Frame, Steps};

/// What takes a publication: a value that a token would publish. Steps (entries into a side around a token) are numbered from 1; 0 is the whole
/// program.
#[derive(Clone, Copy)]
pub enum Taker {
    /// Nothing: the program publishes the value.
    Whole,
    /// A `>x>`: the number of its name, the node of its right side, the scope in which the whole `f >x> g` is, and the step around that.
    SeqLeft(u32, u32, usize, usize),
    /// A `<x<`, from whose right side the value comes: the number of the cell that gets the value, and the step around the whole `f <x< g`.
    PruneRight(u64, usize),
}

/// What takes a publication of a token whose innermost step is `from`. A step is the entry into a side. The nearest one outwards, `from` included,
/// that enters no otherwise (`f ; g`) says what takes the value: otherwises take nothing. The contract asks that there is a step `from`, unless that
/// is 0, and that the step around each step has a lower number (`AreOutwards`).
#[inline(always)]
pub fn find_taker(steps: &Steps, from: usize) -> Taker
    requires within { from ≤ length steps.now.items }
    requires outwards { AreOutwards steps.now.items }
    ensures takes { GoesTo steps.now.items from result }
    ensures way { IsOnWay steps.now.items from result }
    ensures entered { IsEntered steps.now.items result }
{
    // `taker` gives the number of that step, or 0 if nothing takes the value.
    match steps.at(steps.taker(from)) {
        Some(step) => match step.entered {
            Frame::SeqLeft(name, node, scope) => Taker::SeqLeft(name, node, scope, step.outer),
            Frame::PruneRight(cell) => Taker::PruneRight(cell, step.outer),
            // It doesn't happen: `taker` passes over the left sides of otherwises.
            Frame::OtherwiseLeft(_) => Taker::Whole,
        },
        // Step 0: nothing takes it.
        None => Taker::Whole,
    }
}

/// Marks as published each otherwise (`f ; g`) whose left side a publication passes on its way from step `from` outwards to what takes the value: the
/// right sides never run then. A step is the entry into a side. The contract asks that there is a step `from`, unless that is 0, and that the step
/// around each step has a lower number (`AreOutwards`).
pub fn leave_others(steps: &mut Steps, from: usize)
    requires within { from ≤ length steps.old.items }
    requires outwards { AreOutwards steps.old.items }
    ensures { (code : ℕ → Term) (env : ℕ → Env) → Publishes (crossed (seen (has_published steps.old.items) (path code env steps.old.items from))) steps.old.items steps.new.items }
{
    steps.leave(from);
}
