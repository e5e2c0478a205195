//! The small terms of a search, each as a numbered node whose parts are earlier nodes. In a small term calls and cells have no numbers of their own.
//! Terms share their parts, and none is ever removed. A node is a `Tip`, which has no parts, or two terms that a `Joint` such as `|` joins. A change
//! puts something for a name in a whole term, settles a cell or lets time pass; what a term becomes by it is its image. A summary says of a term
//! whether it has halted (`over`), and after how much time its first call is due (`left`).
//!
//! In contracts `smalls` is the list of all terms by their numbers, `HasParts` says that a node's parts have lower numbers, and `Extends` that the
//! terms which were there stay. A match that hands an option back as it is changes nothing: it is for the prover.

ghost use Rattle.std.specs.Prelude.{◌≡◌, ◌<◌, ◌≤◌, ◌++◌, ◌∷◌, [], List, length, Some, true, false, slice_get, IfOk, OnOk, OnErr, IfSome, IfNone, slice_index_or};
ghost use Rattle.orc_search.specs.Changes.{IsImage, IsPart};
ghost use Rattle.orc_search.specs.Nodes.{small_at, small_of_node, smalls, summary_of, tip_of, JoinsSummaries, HasParts, Extends};
ghost use Rattle.orc_search.specs.Small.{nothing};
ghost use Rattle.orc_search.specs.Successors.{sooner, time_left};

use crate::change::Change;
use crate::images::{Image, Images};
use crate::node::{Joint, Node, Summary, Tip, hash_of, is_same_node};
use crate::places::Places;
use orc_rules::value::Found;
use std::alloc::{AllocError, Global};
use std::marker::Model;

/// Small terms by their numbers, from 0. A node that is asked for again has the same number again, unless one with an equal hash came between.
pub struct Terms {
    nodes: Vec<Node>,
    // One for each node, at its place.
    summaries: Vec<Summary>,
    // Where the node last made with a hash stands. Nothing is promised of it: what is found there is compared.
    places: Places,
    // What terms became by changes.
    images: Images,
    alloc: Global,
}

// Written out, so that a caller's proof sees one call and not the drop of each field.
impl Drop for Terms {
    fn drop(self) {
        let Terms {
            nodes: _,
            summaries: _,
            places: _,
            images: _,
            alloc: _,
        } = self;
    }
}

impl Model for Terms {
    ghost use Rattle.std.specs.Prelude.{◌≡◌, List, map};
    ghost use Rattle.orc_search.specs.declared.node.Node.{Node};
    ghost use Rattle.orc_search.specs.Nodes.{smalls, summary_of, ArePartsFirst};
    ghost use Rattle.orc_search.specs.Changes.{AreImages};

    ghost Value = { List Node };

    ghost view = { λ t. t.nodes.items };

    ghost invariant = { λ t. ArePartsFirst t.nodes.items × (t.summaries.items ≡ map summary_of (smalls t.nodes.items)) × AreImages (smalls t.nodes.items) t.images };
}

// The node at that place, from 0; None if there is none.
fn node_at(nodes: &Vec<Node>, at: usize) -> Option<&Node>
    ensures there { IfSome result (λ n. slice_get nodes.now.items at ≡ Some n.now) }
    ensures none { IfNone result (slice_get nodes.now.items at ≡ None) }
{
    match nodes.get(at) {
        Some(node) => Some(node),
        None => None,
    }
}

// The summary at that place, from 0; that of `stop`, which has halted, if there is none.
fn summary_in(summaries: &Vec<Summary>, at: usize) -> Summary
    ensures { result ≡ slice_index_or summaries.now.items at (summary_of nothing) }
{
    match summaries.get(at) {
        Some(summary) => *summary,
        None => Summary {
            over: true,
            left: None,
        },
    }
}

// The summary of a term without parts. A parameter or a call that isn't made yet hasn't halted, and has no pending call.
fn tip_summary(tip: &Tip) -> Summary
    ensures { result ≡ summary_of (tip_of tip.now) }
{
    match tip {
        Tip::Nothing => Summary {
            over: true,
            left: None,
        },
        Tip::Awaits(waiting) => Summary {
            over: false,
            left: time_left(waiting.rest),
        },
        _ => Summary {
            over: false,
            left: None,
        },
    }
}

// The time that a pending call has left; None if it is never answered.
fn time_left(rest: Found) -> Option<u64>
    ensures { result ≡ time_left rest }
{
    match rest {
        Found::After(_, delay) => Some(delay),
        Found::Never => None,
    }
}

// The lesser of two times; the only one if there is one; None if there is none.
fn sooner(a: Option<u64>, b: Option<u64>) -> Option<u64>
    ensures { result ≡ sooner a b }
{
    match (a, b) {
        (None, b) => b,
        (Some(a), None) => Some(a),
        (Some(a), Some(b)) => Some(a.min(b)),
    }
}

// The summary of two terms that are joined, from their own. The contract says so of all terms that have the summaries `f` and `g`.
fn joined_summary(joint: Joint, f: Summary, g: Summary) -> Summary
    ensures { JoinsSummaries joint f g result }
{
    match joint {
        Joint::Both | Joint::Needs => Summary {
            over: f.over && g.over,
            left: sooner(f.left, g.left),
        },
        // The right side of a `>x>` hasn't begun.
        Joint::Feeds(_) => f,
        // A pruning that isn't opened hasn't halted, and nothing pends in it: neither of its sides has begun.
        Joint::Prunes(_) => Summary {
            over: false,
            left: None,
        },
        // If f has halted, the otherwise hasn't: the step to its right side comes first.
        Joint::Instead => Summary {
            over: false,
            left: f.left,
        },
    }
}

impl Terms {
    /// No terms.
    pub fn new(alloc: Global) -> Terms
        ensures { result ≡ [] }
    {
        Terms {
            nodes: Vec::new(alloc),
            summaries: Vec::new(alloc),
            places: Places::new(alloc),
            images: Images::new(alloc),
            alloc,
        }
    }

    /// How many terms there are.
    pub fn len(&self) -> usize
        ensures { result ≡ length self.now }
    {
        self.nodes.len()
    }

    /// The node of that number, whose parts have lower numbers; None if there is none.
    pub fn node(&self, at: usize) -> Option<&Node>
        ensures term { IfSome result (λ n. slice_get (smalls self.now) at ≡ Some (small_of_node (smalls self.now) n.now)) }
        ensures parts { IfSome result (λ n. HasParts at n.now) }
        ensures none { IfNone result (length self.now ≤ at) }
    {
        match node_at(&self.nodes, at) {
            Some(node) => Some(node),
            None => None,
        }
    }

    /// The summary of the term of that number: whether it has halted, and the least time that a call has left which is pending in it. If there is no
    /// such term, that of `stop`.
    pub fn summary(&self, at: usize) -> Summary
        ensures { result ≡ summary_of (small_at (smalls self.now) at) }
    {
        summary_in(&self.summaries, at)
    }

    // The summary of a node's term, from the summaries of the node's parts.
    fn summary_of(&self, node: &Node) -> Summary
        ensures { result ≡ summary_of (small_of_node (smalls self.now) node.now) }
    {
        match node {
            Node::Tip(tip) => tip_summary(tip),
            Node::Pair(joint, f, g) => {
                joined_summary(*joint, self.summary(*f), self.summary(*g))
            }
        }
    }

    // Adds a node behind the others, and gives its number. The node's parts have to be among the terms (`HasParts`). Where memory is refused nothing
    // changes.
    fn push(&mut self, node: Node) -> Result<usize, AllocError>
        requires { HasParts (length self.old) node }
        ensures number { IfOk result (λ at. at ≡ length self.old) }
        ensures added { OnOk result (self.new ≡ self.old ++ node ∷ []) }
        ensures refused { OnErr result (self.new ≡ self.old) }
    {
        let summary = self.summary_of(&node);
        // Reserved before the node is pushed: where memory is refused neither list has grown.
        self.summaries.try_reserve(1)?;
        let at = self.nodes.len();
        self.nodes.push(node)?;
        // There is room for it, which the next line shows to the prover. At run time it tests nothing.
        let pushed = self.summaries.push(summary);
        prove!(pushed.is_ok());
        Ok(at)
    }

    // Whether an equal node is at that place, from 0. The contract promises of `true` alone that the term there is that of `node`.
    fn stands_at(&self, at: usize, node: &Node) -> bool
        ensures { result ≡ true → slice_get (smalls self.now) at ≡ Some (small_of_node (smalls self.now) node.now) }
    {
        match self.node(at) {
            Some(found) => is_same_node(found, node),
            None => false,
        }
    }

    // A place where a node with this hash may stand; None if none is known.
    fn place_of(&self, hash: u64) -> Option<usize> {
        self.places.get(hash)
    }

    // Notes that a node with this hash is at that place. The error is refused memory.
    fn remember(&mut self, hash: u64, at: usize) -> Result<(), AllocError>
        ensures { self.new ≡ self.old }
    {
        self.places.insert(hash, at)
    }

    /// The number of a node's term: that of an equal node, or else of a new one. The node's parts have to be among the terms (`HasParts`). The error
    /// is refused memory. The terms that were there stay, also after an error.
    pub fn number_of(&mut self, node: Node) -> Result<usize, AllocError>
        requires { HasParts (length self.old) node }
        ensures number { IfOk result (λ at. slice_get (smalls self.new) at ≡ Some (small_of_node (smalls self.old) node)) }
        ensures kept { Extends (smalls self.old) (smalls self.new) }
    {
        let hash = hash_of(&node);
        if let Some(at) = self.place_of(hash) {
            // Another node may have this hash, so the one that is found is compared.
            if self.stands_at(at, &node) {
                return Ok(at);
            }
        }
        let at = self.push(node)?;
        self.remember(hash, at)?;
        Ok(at)
    }

    /// The number of what the term of that number becomes by a change, its image; None if no image is kept. By the contract a number that is given is
    /// right.
    pub(crate) fn image(&self, change: Change, at: usize) -> Option<usize>
        ensures { IfSome result (λ to. IsPart (smalls self.now) change false at to) }
    {
        match self.images.of(change, at) {
            Some(to) => Some(to),
            None => None,
        }
    }

    /// Called once before a change is worked out: if 65,536 images are kept or more, all of them go, which bounds their memory. Never during a
    /// change, which needs the images of its parts.
    pub(crate) fn begin_change(&mut self)
        ensures { self.new ≡ self.old }
    {
        self.images.make_room();
    }

    /// Keeps what a term becomes by a change, its image. The error is refused memory. The terms stay as they are. `IsImage` asks that `image` is
    /// right: the term of the number `from` becomes that of the number `to`.
    pub(crate) fn keep(&mut self, image: Image) -> Result<(), AllocError>
        requires { IsImage (smalls self.old) image }
        ensures { self.new ≡ self.old }
    {
        self.images.push(image)?;
        Ok(())
    }
}
