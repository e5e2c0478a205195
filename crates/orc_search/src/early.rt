//! Early steps of a numbered term: a search may take them before all others, since they leave the term's other steps as they are (`Early` in
//! `specs/Early.antt`). A publication is early only if a `>x>` or a cell takes it and nothing else is left of the part. A call or an answer is early
//! only if nobody sees it, which the caller decides. All other steps are early. A `Source` is the program with the table that answers its calls. A
//! `Successor` is a step: what is seen of it (`Happening`), and the number of the term after it. A `Frame` is what encloses a part directly. A `Spot`
//! is a part with its depth: how many left sides of opened prunings stand around it.
//!
//! In contracts `smalls terms` is the list of all terms by their numbers, `own` is what the definitions let a part do by itself, `IsEarly` says that
//! a step is early, and `Extends` that all terms stay.

ghost use Rattle.std.specs.Prelude.{◌≡◌, ◌<◌, ◌++◌, ◌∷◌, [], ℕ, List, length, Some, slice_get, true, IfOk, IfSome, OnOk};
ghost use Rattle.std.specs.List.{AllZip};
ghost use Rattle.orc_rules.specs.declared.value.Value.{Value as Datum};
ghost use Rattle.orc_search.specs.declared.node.Node.TheVariants.{Pair};
ghost use Rattle.orc_search.specs.Small.{Out};
ghost use Rattle.orc_search.specs.Moves.{SmallDefinition};
ghost use Rattle.orc_search.specs.Asked.{coming_of_made};
ghost use Rattle.orc_search.specs.Moving.{happening_of, IsSuccessor};
ghost use Rattle.orc_search.specs.Nodes.{small_at, smalls, Extends};
ghost use Rattle.orc_search.specs.Own.{list_of, own};
ghost use Rattle.orc_search.specs.Parts.{is_passed, parts_of, takes_values, whole_term, AreParts, IsEarly, IsPart, Lifts};
ghost use Rattle.orc_search.specs.Programs.{small_definitions};
ghost use Rattle.orc_search.specs.Ready.{IsReady};
ghost use Rattle.orc_search.specs.States.{next_call};
ghost use Rattle.orc_search.specs.Walks.{tasks_of};

use crate::made::Made;
use crate::moves::{Source, own_step};
use crate::node::{Joint, Node};
use crate::successor::{Frame, Happening, Successor, lifted};
use crate::terms::Terms;
use crate::walk::Spot;
use std::alloc::{AllocError, Global};

/// For how many parts a list has room at first, so that for a small term it asks for memory once.
const FEW_PARTS: usize = 32;

/// What encloses a part directly.
#[derive(Clone, Copy)]
pub struct Inside {
    /// Which side of it the part is, and the number of the other side.
    frame: Frame,
    /// The place of the enclosing part in the list of parts, from 0.
    outer: usize,
}

/// A part of a term that can move.
#[derive(Clone, Copy)]
pub struct Part {
    /// Its number among the terms, and its depth.
    spot: Spot,
    /// None for the term itself.
    inside: Option<Inside>,
}

/// The parts of a term that can move, as far as they are listed yet: each behind the one that it is a part of.
#[derive(Drop)]
pub struct Parts {
    /// The number of the term.
    root: usize,
    /// The parts that are listed, the term itself first.
    list: Vec<Part>,
    /// The parts before this place have been looked at, and their own parts are listed.
    next: usize,
}

// The part at that place, from 0; None if there is none.
fn part_at(list: &Vec<Part>, at: usize) -> Option<Part>
    ensures { result ≡ slice_get list.now.items at }
{
    match list.get(at) {
        Some(part) => Some(*part),
        None => None,
    }
}

// Whether a value that is published here is taken, by a `>x>` or a cell.
fn takes_values(frame: Frame) -> bool
    ensures { result ≡ takes_values frame }
{
    match frame {
        Frame::Feeds(_, _) | Frame::Side(_, _) => true,
        _ => false,
    }
}

// Whether what encloses a part stays as it is when this happens in the part: all but a publication.
fn is_passed(happening: &Happening) -> bool
    ensures { result ≡ is_passed (happening_of happening.now) }
{
    match happening {
        Happening::Published(_) => false,
        _ => true,
    }
}

impl Parts {
    /// The term of that number, of which nothing has been looked at. The error is refused memory.
    pub fn of_term(alloc: Global, root: usize) -> Result<Parts, AllocError>
        ensures parts { IfOk result (λ p. p.list.items ≡ whole_term root ∷ []) }
        ensures root { IfOk result (λ p. p.root ≡ root) }
    {
        let mut list = Vec::new(alloc);
        list.try_reserve(FEW_PARTS)?;
        list.push(Part {
            spot: Spot { at: root, depth: 0 },
            inside: None,
        })?;
        Ok(Parts {
            root,
            list,
            next: 0,
        })
    }

    // Lists a part of the part at the place `outer`: the term of the number `at`, around which `depth` left sides of opened prunings stand. The error
    // is refused memory.
    fn add(&mut self, outer: usize, frame: Frame, at: usize, depth: u64) -> Result<(), AllocError>
        ensures added { OnOk result (self.new.list.items ≡ self.old.list.items ++ record { spot = record { at = at; depth = depth }; inside = Some (record { frame = frame; outer = outer }) } ∷ []) }
        ensures root { self.new.root ≡ self.old.root }
    {
        self.list.push(Part {
            spot: Spot { at, depth },
            inside: Some(Inside { frame, outer }),
        })?;
        Ok(())
    }

    // Lists those parts of two joined terms that can move: both of a `|` and of an opened pruning, the left one of a `>x>` and of a `;`, and none of
    // a pruning that isn't opened. `f` and `g` are the numbers of the left and the right term. The joined term is at the place `outer` of the list,
    // and `depth` is its own. The error is refused memory, or a depth of 2^64.
    fn add_parts(
        &mut self,
        outer: usize,
        joint: Joint,
        f: usize,
        g: usize,
        depth: u64,
    ) -> Result<(), AllocError>
        ensures added { OnOk result (self.new.list.items ≡ self.old.list.items ++ parts_of outer (tasks_of depth (Pair joint f g))) }
        ensures root { self.new.root ≡ self.old.root }
    {
        match joint {
            Joint::Both => {
                self.add(outer, Frame::Left(g), f, depth)?;
                self.add(outer, Frame::Right(f), g, depth)
            }
            Joint::Feeds(x) => self.add(outer, Frame::Feeds(x, g), f, depth),
            // A pruning that isn't opened yet moves as a whole.
            Joint::Prunes(_) => Ok(()),
            Joint::Instead => self.add(outer, Frame::First(g), f, depth),
            Joint::Needs => {
                // Only the left side names the pruning's cell, so only there prunings count one more.
                let Some(deeper) = depth.checked_add(1) else {
                    return Err(AllocError);
                };
                self.add(outer, Frame::Main(g), f, deeper)?;
                self.add(outer, Frame::Side(depth, f), g, depth)
            }
        }
    }

    // Counts the next part of the list, which is `part`, as looked at, and lists its own parts behind the others. The error is refused memory, or a
    // depth of 2^64. In contracts `AreParts` says that what is listed are parts of the term `root`, and `IsPart` that `part` is one.
    fn enter(&mut self, terms: &Terms, part: Part) -> Result<(), AllocError>
        requires parts { AreParts (smalls terms.now) self.old.root self.old.list.items }
        requires next { slice_get self.old.list.items self.old.next ≡ Some part }
        ensures parts { OnOk result (AreParts (smalls terms.now) self.old.root self.new.list.items) }
        ensures part { OnOk result (IsPart (smalls terms.now) self.old.root self.new.list.items part) }
        ensures root { self.new.root ≡ self.old.root }
    {
        let outer = self.next;
        // Never None: `outer` is a place in the list.
        let Some(next) = outer.checked_add(1) else {
            return Err(AllocError);
        };
        self.next = next;
        if let Some(Node::Pair(joint, f, g)) = terms.node(part.spot.at) {
            self.add_parts(outer, *joint, *f, *g, part.spot.depth)?;
        }
        Ok(())
    }

    // The step of the whole term by a step of a part that isn't a publication, so that all that encloses the part stays. The error is refused memory.
    // `AreParts` and `IsPart` ask that `part` and what is listed are parts of the term.
    fn lift(
        &self,
        terms: &mut Terms,
        alloc: Global,
        part: Part,
        step: Successor,
    ) -> Result<Successor, AllocError>
        requires parts { AreParts (smalls terms.old) self.now.root self.now.list.items }
        requires part { IsPart (smalls terms.old) self.now.root self.now.list.items part }
        requires there { step.to < length (smalls terms.old) }
        requires passed { is_passed (happening_of step.happening) ≡ true }
        // If the step of the part is early, so is the step of the whole, with the same happening.
        ensures lifts { IfOk result (λ s. Lifts (smalls terms.old) (smalls terms.new) part.spot (record { at = self.now.root; depth = 0 }) step s) }
        ensures kept { Extends (smalls terms.old) (smalls terms.new) }
    {
        // One frame further out each turn, up to the term itself; the bound shows that the loop ends.
        let mut part = part;
        let mut step = step;
        for _frame in 0..u64::MAX {
            let Some(inside) = part.inside else {
                return Ok(step);
            };
            // Never None: what encloses a part is listed before it.
            let Some(outer) = part_at(&self.list, inside.outer) else {
                return Err(AllocError);
            };
            step = lifted(terms, alloc, inside.frame, step)?;
            part = outer;
        }
        Err(AllocError)
    }

    // The early step that the whole term takes by this step of a part, if it is one: any but a publication, or a publication that a `>x>` or a cell
    // takes at once. The error is refused memory. `AreParts` and `IsPart` ask that `part` and what is listed are parts of the term.
    fn early_by(
        &self,
        terms: &mut Terms,
        alloc: Global,
        part: Part,
        step: Successor,
    ) -> Result<Option<Successor>, AllocError>
        requires root { self.now.root < length (smalls terms.old) }
        requires parts { AreParts (smalls terms.old) self.now.root self.now.list.items }
        requires part { IsPart (smalls terms.old) self.now.root self.now.list.items part }
        requires there { step.to < length (smalls terms.old) }
        // If `step` is the step of the part by itself, the answer is an early step of the whole.
        ensures early { IfOk result (λ o. IfSome o (λ s. (defs : List SmallDefinition) (ask : ℕ → List Datum → Out) → AllZip (IsSuccessor (smalls terms.old)) (step ∷ []) (own defs ask part.spot.depth (small_at (smalls terms.old) part.spot.at)) → IsEarly defs ask (smalls terms.new) self.now.root s)) }
        ensures kept { Extends (smalls terms.old) (smalls terms.new) }
    {
        if is_passed(&step.happening) {
            let lifted = self.lift(terms, alloc, part, step)?;
            return Ok(Some(lifted));
        }
        // A publication of the whole term isn't early; nor, below, one that what encloses the part only passes on.
        let Some(inside) = part.inside else {
            return Ok(None);
        };
        if !takes_values(inside.frame) {
            return Ok(None);
        }
        // Never None: what encloses a part is listed before it.
        let Some(outer) = part_at(&self.list, inside.outer) else {
            return Err(AllocError);
        };
        // Once the value is taken, nobody sees it from outside: what stands around `outer` stays.
        let taken = lifted(terms, alloc, inside.frame, step)?;
        let lifted = self.lift(terms, alloc, outer, taken)?;
        Ok(Some(lifted))
    }

    // The early step that the whole term takes if the part does `step`; None if the part does nothing by itself, or if its step isn't early. The
    // error is refused memory.
    fn early_of(
        &self,
        terms: &mut Terms,
        alloc: Global,
        part: Part,
        step: Option<Successor>,
    ) -> Result<Option<Successor>, AllocError>
        requires root { self.now.root < length (smalls terms.old) }
        requires parts { AreParts (smalls terms.old) self.now.root self.now.list.items }
        requires part { IsPart (smalls terms.old) self.now.root self.now.list.items part }
        requires there { IfSome step (λ s. s.to < length (smalls terms.old)) }
        // If `step` is what the part does by itself, the answer is an early step of the whole.
        ensures early { IfOk result (λ o. IfSome o (λ s. (defs : List SmallDefinition) (ask : ℕ → List Datum → Out) → AllZip (IsSuccessor (smalls terms.old)) (list_of step) (own defs ask part.spot.depth (small_at (smalls terms.old) part.spot.at)) → IsEarly defs ask (smalls terms.new) self.now.root s)) }
        ensures kept { Extends (smalls terms.old) (smalls terms.new) }
    {
        match step {
            Some(step) => self.early_by(terms, alloc, part, step),
            None => Ok(None),
        }
    }

    /// The next step of the term that may go first; None once all its parts have been looked at. `made` are the calls that were made before. The step
    /// is early if its happening is hidden: nobody sees it, and the calls to come are answered after it as before. The error is refused memory, or a
    /// count past its type: a call with more than `MOST_ARGUMENTS` parameters, 2^64 calls, or prunings opened in one another 2^64 deep. The terms
    /// that were there stay, also after an error. `AreParts` says that what is listed are parts of the term, and `IsReady` asks that `source` has the
    /// right number for the small term of each node of the program.
    pub fn next_early(
        &mut self,
        terms: &mut Terms,
        alloc: Global,
        source: &Source,
        made: &[Made],
    ) -> Result<Option<Successor>, AllocError>
        requires ready { IsReady (smalls terms.old) source.now }
        requires root { self.old.root < length (smalls terms.old) }
        requires parts { AreParts (smalls terms.old) self.old.root self.old.list.items }
        // It is an early step of the term by the definition `Early`, where its happening is taken to be hidden.
        ensures early { IfOk result (λ o. IfSome o (λ s. IsEarly (small_definitions source.now.program.now) (next_call (coming_of_made source.now.answers.now.sites made.now)) (smalls terms.new) self.old.root s)) }
        ensures parts { OnOk result (AreParts (smalls terms.new) self.new.root self.new.list.items) }
        ensures root { self.new.root ≡ self.old.root }
        ensures kept { Extends (smalls terms.old) (smalls terms.new) }
    {
        // A part is listed for each place in the term, so the loop ends long before its bound.
        for _part in 0..u64::MAX {
            let Some(part) = part_at(&self.list, self.next) else {
                return Ok(None);
            };
            self.enter(terms, part)?;
            let own = own_step(terms, alloc, source, made, part.spot)?;
            if let Some(early) = self.early_of(terms, alloc, part, own)? {
                return Ok(Some(early));
            }
        }
        Err(AllocError)
    }
}
