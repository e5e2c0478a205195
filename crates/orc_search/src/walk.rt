//! A walk through all parts of a term that can move, each part before its own parts and the left one first, without recursion. A `Successor` is a
//! step: what is seen of it, and the number of the term after it. A `Joint` says how two terms are joined, as by `|`.
//!
//! In contracts `smalls terms` is the list of all terms by their numbers, `Extends` says that those which were there stay, and `IsSuccessor` that a
//! numbered step is that step of the definitions.

ghost use Rattle.std.specs.Prelude.{◌≡◌, ◌<◌, ◌++◌, ◌∷◌, [], length, reverse, IfOk, OnOk};
ghost use Rattle.orc_search.specs.declared.node.Node.TheVariants.{Pair};
ghost use Rattle.orc_search.specs.declared.walk.Task.TheVariants.{Enter};
ghost use Rattle.orc_search.specs.Nodes.{smalls, Extends};
ghost use Rattle.orc_search.specs.Moving.{successor_of, IsSuccessor};
ghost use Rattle.orc_search.specs.Walks.{through, tasks_of, AreAround, GoesOn};

use crate::node::Joint;
use crate::successor::{Frame, Successor, lifted};
use crate::terms::Terms;
use std::alloc::{AllocError, Global};

/// A part of a term, at one place of it: the same term may be a part at several.
#[derive(Clone, Copy)]
pub(crate) struct Spot {
    /// Its number among the terms.
    pub(crate) at: usize,
    /// How many left sides of opened prunings stand around it, which is the number of a cell that is opened here.
    pub(crate) depth: u64,
}

/// What a walk does next: it enters a part, which this frame encloses, or it leaves the part that it is in, whose own parts it has entered. A frame
/// says what encloses a part directly, and on which side the part is.
#[derive(Clone, Copy)]
pub(crate) enum Task {
    Enter(Frame, Spot),
    Leave,
}

/// Where a walk is: the frames that enclose its part, the outermost first, and what is still to be done, the next task last.
#[derive(Drop)]
pub(crate) struct Walk {
    pub(crate) path: Vec<Frame>,
    pub(crate) todo: Vec<Task>,
}

/// What the whole term does when a part of it does `successor`, through all frames of the path, the innermost (last) first. `AreAround` asks that the
/// other parts in these frames are among the terms. The error is refused memory. The terms that were there stay, also after an error.
pub(crate) fn lifted_out(
    terms: &mut Terms,
    alloc: Global,
    path: &[Frame],
    successor: Successor,
) -> Result<Successor, AllocError>
    requires around { AreAround (length terms.old) (reverse path.now) }
    requires part { successor.to < length terms.old }
    // The result is `successor` led through all frames of the path, the last one first.
    ensures lifted { IfOk result (λ s. IsSuccessor (smalls terms.new) s (through (smalls terms.old) (reverse path.now) (successor_of (smalls terms.old) successor))) }
    ensures kept { Extends (smalls terms.old) (smalls terms.new) }
{
    let mut successor = successor;
    for i in (0..path.len()).rev() {
        successor = lifted(terms, alloc, path[i], successor)?;
    }
    Ok(successor)
}

impl Walk {
    /// A walk that has nothing to do.
    pub(crate) fn new(alloc: Global) -> Walk
        ensures path { result.path.items ≡ [] }
        ensures todo { result.todo.items ≡ [] }
    {
        Walk {
            path: Vec::new(alloc),
            todo: Vec::new(alloc),
        }
    }

    // Plans that a part, the term of the number `at` at this depth, is entered next, before all that is planned. The error is refused memory.
    fn plan(&mut self, frame: Frame, at: usize, depth: u64) -> Result<(), AllocError>
        ensures todo { OnOk result (reverse self.new.todo.items ≡ Enter frame (record { at = at; depth = depth }) ∷ reverse self.old.todo.items) }
        ensures path { self.new.path.items ≡ self.old.path.items }
    {
        self.todo.push(Task::Enter(frame, Spot { at, depth }))?;
        Ok(())
    }

    /// Plans that those parts of two joined terms that can move are entered next, the left one first. `f` and `g` are the numbers of the left and the
    /// right term, and `depth` is that of the joined term. The error is refused memory, or a depth of 2^64.
    pub(crate) fn plan_parts(
        &mut self,
        joint: Joint,
        f: usize,
        g: usize,
        depth: u64,
    ) -> Result<(), AllocError>
        ensures todo { OnOk result (reverse self.new.todo.items ≡ tasks_of depth (Pair joint f g) ++ reverse self.old.todo.items) }
        ensures path { self.new.path.items ≡ self.old.path.items }
    {
        match joint {
            // What is planned last is entered first.
            Joint::Both => {
                self.plan(Frame::Right(f), g, depth)?;
                self.plan(Frame::Left(g), f, depth)
            }
            Joint::Feeds(x) => self.plan(Frame::Feeds(x, g), f, depth),
            // A pruning that isn't opened yet moves as a whole: it opens.
            Joint::Prunes(_) => Ok(()),
            Joint::Instead => self.plan(Frame::First(g), f, depth),
            Joint::Needs => {
                // Only the left side names the pruning's cell, whose number is `depth`, so only there prunings count one more.
                let Some(deeper) = depth.checked_add(1) else {
                    return Err(AllocError);
                };
                self.plan(Frame::Side(depth, f), g, depth)?;
                self.plan(Frame::Main(g), f, deeper)
            }
        }
    }

    /// Goes on to the next part, whose frames are the path then; None once all parts have been entered. The error is refused memory.
    pub(crate) fn next(&mut self) -> Result<Option<Spot>, AllocError>
        // The successors that the walk had still to find are those of the part that it gives and those that it has still to find now. With None there
        // were none.
        ensures { IfOk result (λ o. GoesOn self.old o self.new) }
    {
        while let Some(task) = self.todo.pop() {
            match task {
                Task::Leave => {
                    // All of the part has been entered, so its frame is no longer around what comes.
                    let _left = self.path.pop();
                }
                Task::Enter(frame, spot) => {
                    self.path.push(frame)?;
                    // The parts of this one are planned behind it, so the walk leaves once it has entered them all.
                    self.todo.push(Task::Leave)?;
                    return Ok(Some(spot));
                }
            }
        }
        Ok(None)
    }
}
