//! What happens in a part of a term, and what the whole becomes by it. Terms are named by their numbers in `Terms`. A node joins two of them by a
//! `Joint` such as `|`. A `Change` puts something for a name in a whole term, or settles a cell there.
//!
//! In contracts `smalls terms` is the list of all terms by their numbers, `Extends` says that those which were there stay, and `IsSuccessor` that a
//! numbered step is that step of the definitions.

ghost use Rattle.std.specs.Prelude.{◌≡◌, ◌<◌, length, Some, slice_get, IfOk};
ghost use Rattle.orc_rules.specs.declared.param.Param.TheVariants as param_is;
ghost use Rattle.orc_search.specs.Small.{both, feeds, set};
ghost use Rattle.orc_search.specs.Nodes.{small_at, smalls, Extends};
ghost use Rattle.orc_search.specs.Moving.{happening_of, successor_of, in_frame, whole_of, lift_of, IsAround, IsSuccessor};

use crate::change::{Change, changed};
use crate::node::{Joint, Node};
use crate::terms::Terms;
use orc_rules::param::Param;
use orc_rules::value::{Answer, Value};
use std::alloc::{AllocError, Global};

/// What a claim can see of a step. A site is its number in the table.
#[derive(Drop)]
pub enum Happening {
    /// A site is called with these arguments.
    Called(u32, Vec<Value>),
    /// A call of a site with these arguments is answered, or halts.
    Answered(u32, Vec<Value>, Answer),
    /// The term publishes a value.
    Published(Value),
    /// Nothing.
    Unseen,
}

/// What happens, and the number of the term after it.
#[derive(Drop)]
pub struct Successor {
    pub happening: Happening,
    pub to: usize,
}

/// What encloses a part directly, and the number of the other part there. There is none for parts that can't move: the right sides of `>x>` and `;`,
/// and those of a pruning that isn't opened.
#[derive(Clone, Copy)]
pub enum Frame {
    /// The part is f in `f | g`, of this g.
    Left(usize),
    /// The part is g in `f | g`, of this f.
    Right(usize),
    /// The part is f in `f >x> g`, of this x and g.
    Feeds(u32, usize),
    /// The part is f in the opened pruning `f <c< g`, of this g.
    Main(usize),
    /// The part is g in the opened pruning `f <c< g`, of this cell c and f.
    Side(u64, usize),
    /// The part is f in `f ; g`, of this g.
    First(usize),
}

/// What a step of a part does to what encloses it.
#[derive(Clone, Copy)]
pub enum Lift {
    /// It stays, with the new part.
    Stays,
    /// A `>x>` takes a published value: its x, its right side, and the value.
    Fed(u32, usize, Value),
    /// A cell takes a published value: its number, the left side of its pruning, which alone is left, and the value.
    Bound(u64, usize, Value),
    /// An otherwise passes a published value on, and its left side alone is left.
    Passed,
}

/// The same happening once more. The error is refused memory.
pub fn copy_of(alloc: Global, happening: &Happening) -> Result<Happening, AllocError>
    ensures { IfOk result (λ h. happening_of h ≡ happening_of happening.now) }
{
    match happening {
        Happening::Called(site, args) => {
            let args = Vec::from_slice(alloc, args)?;
            Ok(Happening::Called(*site, args))
        }
        Happening::Answered(site, args, answer) => {
            let args = Vec::from_slice(alloc, args)?;
            Ok(Happening::Answered(*site, args, *answer))
        }
        Happening::Published(value) => Ok(Happening::Published(*value)),
        Happening::Unseen => Ok(Happening::Unseen),
    }
}

// The node that the frame describes, with the term of the number `to` as its part.
fn whole_of(frame: Frame, to: usize) -> Node
    ensures { result ≡ whole_of frame to }
{
    match frame {
        Frame::Left(g) => Node::Pair(Joint::Both, to, g),
        Frame::Right(f) => Node::Pair(Joint::Both, f, to),
        Frame::Feeds(x, g) => Node::Pair(Joint::Feeds(x), to, g),
        Frame::Main(g) => Node::Pair(Joint::Needs, to, g),
        Frame::Side(_, f) => Node::Pair(Joint::Needs, f, to),
        Frame::First(g) => Node::Pair(Joint::Instead, to, g),
    }
}

// What this happening of a part does to what encloses it.
fn lift_of(frame: Frame, happening: &Happening) -> Lift
    ensures { result ≡ lift_of frame (happening_of happening.now) }
{
    match (frame, happening) {
        (Frame::Feeds(x, g), Happening::Published(value)) => Lift::Fed(x, g, *value),
        (Frame::Side(n, f), Happening::Published(value)) => Lift::Bound(n, f, *value),
        (Frame::First(_), Happening::Published(_)) => Lift::Passed,
        // Nothing but a publication is ever taken, and a `|` and the left side of an opened pruning pass that on, too.
        _ => Lift::Stays,
    }
}

// A `>x>` takes a value that its left side published: a copy of its right side g with the value runs beside the rest. f is what the left side has
// become. The error is refused memory.
fn fed(
    terms: &mut Terms,
    alloc: Global,
    x: u32,
    value: Value,
    f: usize,
    g: usize,
) -> Result<usize, AllocError>
    requires left { f < length terms.old }
    requires right { g < length terms.old }
    // The number is that of `(f >x> g) | g`, where the second g has the value for x.
    ensures number { IfOk result (λ to. slice_get (smalls terms.new) to ≡ Some (both (feeds (small_at (smalls terms.old) f) x (small_at (smalls terms.old) g)) (set (param_is.Is value) x (small_at (smalls terms.old) g)))) }
    ensures kept { Extends (smalls terms.old) (smalls terms.new) }
{
    let rest = terms.number_of(Node::Pair(Joint::Feeds(x), f, g))?;
    let copy = changed(terms, alloc, Change::Put(Param::Is(value), x), g)?;
    let to = terms.number_of(Node::Pair(Joint::Both, rest, copy))?;
    Ok(to)
}

/// What the enclosing term does when a part of it does `successor`: what is seen of it from there, and the number of the term after it. `frame` is
/// what encloses the part. The error is refused memory. The terms that were there stay, also after an error. `IsAround` asks that the other part in
/// `frame` is among the terms.
pub fn lifted(
    terms: &mut Terms,
    alloc: Global,
    frame: Frame,
    successor: Successor,
) -> Result<Successor, AllocError>
    requires other { IsAround (length terms.old) frame }
    requires part { successor.to < length terms.old }
    // It is the step that the definitions have for the enclosing term, `in_frame`.
    ensures lifted { IfOk result (λ s. IsSuccessor (smalls terms.new) s (in_frame (smalls terms.old) frame (successor_of (smalls terms.old) successor))) }
    ensures kept { Extends (smalls terms.old) (smalls terms.new) }
{
    match lift_of(frame, &successor.happening) {
        // The enclosing node gets the part after its step, and what happened is seen outside as it is.
        Lift::Stays => {
            let to = terms.number_of(whole_of(frame, successor.to))?;
            Ok(Successor {
                happening: successor.happening,
                to,
            })
        }
        // The `>x>` takes the value, so that nobody sees it outside.
        Lift::Fed(x, g, value) => {
            let to = fed(terms, alloc, x, value, successor.to, g)?;
            Ok(Successor {
                happening: Happening::Unseen,
                to,
            })
        }
        // The value is put for the cell in the left side f, which alone is left of the pruning.
        Lift::Bound(n, f, value) => {
            let to = changed(terms, alloc, Change::Settle(Param::Is(value), n), f)?;
            Ok(Successor {
                happening: Happening::Unseen,
                to,
            })
        }
        // The otherwise publishes what its left side does, and only that side is left.
        Lift::Passed => Ok(successor),
    }
}
