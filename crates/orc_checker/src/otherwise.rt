//! The entry `right`: the right side of an otherwise starts.
//!
//! The *marked term* is what is left of the program's term after the entries before, as numbered nodes (`nodes`); a token's number is its *mark*.
//! `flags` says of each node whether it has halted. `settle` sets the flag of a node that has halted, and of those above that halt with it; sides
//! among them become `candidates`, which the search for halted sides looks at.
//!
//! In contracts `Enters` says that the entry leads from the old state to the new one, and `IsRightlyRefused` that the fault is Memory or names a
//! condition that the entry breaks. `at nodes p i k` says that node i is of the kind k and below node p, and `NoOtherwise` that no node is the
//! otherwise.

ghost use Rattle.std.specs.Prelude.{◌≡◌, ℕ, [], IfOk, IfErr, IfSome, IfNone, OnErr};
ghost use Rattle.orc_rules.specs.Term.{Term};
ghost use Rattle.orc_term.specs.Arena.{at};
ghost use Rattle.orc_checker.specs.Checker.{Enters};
ghost use Rattle.orc_term.specs.Dropping.{AreNodesOf};
ghost use Rattle.orc_checker.specs.Refusing.{IsRightlyRefused, Lacks, NoOtherwise};
ghost use Rattle.orc_term.specs.declared.arena.Kind.TheVariants.{One as AtOne};
ghost use Rattle.orc_term.specs.declared.arena.Single.TheVariants.{Entered as IsEntered};
ghost use Rattle.orc_rules.specs.declared.entry.Entry.TheVariants as entry;
ghost use Rattle.orc_rules.specs.declared.entry.RuleFault.TheVariants as reason;
ghost use Rattle.orc_rules.specs.Sites.{Table};
ghost use Rattle.orc_rules.specs.Nodes.{Listing};

use crate::lookup::{node_by, otherwise_with};
use crate::marked::Marked;
use orc_rules::entry::RuleFault;
use orc_term::arena::{Kind, Node, Tip};
use orc_term::flags::settle;
use orc_term::room::{push_within, reserve_wake};
use orc_term::side::{drop_nodes, nodes_of};

/// Where an entered otherwise stands, and its right side, which hasn't started.
#[derive(Clone, Copy)]
pub(crate) struct Otherwise {
    /// The otherwise's node in the marked term.
    pub at: u32,
    /// The node of the marked term above `at`.
    pub parent: u32,
    /// The node of the marked term that is the left side.
    pub left: u32,
    /// The node of the program that is the right side.
    pub node: u32,
    /// The scope that says what the names mean in the right side.
    pub scope: u32,
}

impl Marked {
    /// The numbers of the nodes of the part of the marked term whose topmost node is `root`, for a caller that drops that part afterwards. The error
    /// is Memory.
    pub(crate) fn side_at(&self, root: u32) -> Result<Vec<u32>, RuleFault>
        ensures nodes { IfOk result (λ side. AreNodesOf self.now.nodes root side.items) }
        ensures refused { IfErr result (λ r. r ≡ reason.Memory) }
    {
        let alloc = self.nodes.allocator();
        match nodes_of(alloc, &self.nodes, root) {
            Ok(side) => Ok(side),
            Err(_) => Err(RuleFault::Memory),
        }
    }

    /// Where otherwise `s` stands, an entered `f ; g` whose number is the mark of the token that entered it. None if there is no such otherwise, or f
    /// has published.
    pub(crate) fn find_otherwise(&self, s: u64) -> Option<Otherwise>
        ensures there { IfSome result (λ o. at self.now.nodes o.parent o.at (AtOne (IsEntered s o.node o.scope) o.left)) }
        ensures missing { IfNone result (NoOtherwise self.now.nodes s) }
    {
        let (at, entered) = node_by(&self.nodes, &self.marks, s)?;
        // The node on which mark `s` was put is the otherwise only while the otherwise is entered and hasn't published.
        let (left, node, scope) = otherwise_with(entered.kind, s)?;
        Some(Otherwise {
            at,
            parent: entered.parent,
            left,
            node,
            scope,
        })
    }

    /// Where otherwise `s` stands. The errors: Cancel where a cancel is due, Mark where there is no such otherwise. `Lacks` in the contract says that
    /// the error is one of these two, with its cause.
    fn otherwise(&self, s: u64) -> Result<Otherwise, RuleFault>
        ensures free { IfOk result (λ _. self.now.rest.to_cancel ≡ []) }
        ensures there { IfOk result (λ o. at self.now.nodes o.parent o.at (AtOne (IsEntered s o.node o.scope) o.left)) }
        ensures refused { IfErr result (Lacks self.now (NoOtherwise self.now.nodes s)) }
    {
        // While a cancel is due no other entry is allowed, and Cancel is the first reason.
        if self.rest.has_cancels() {
            return Err(RuleFault::Cancel);
        }
        self.find_otherwise(s).ok_or(RuleFault::Mark)
    }

    /// The entry `right S A`: token `a` on the right side takes the place of otherwise `s`, whose left side is dropped. The errors: Cancel where a
    /// cancel is due, Mark where there is no otherwise `s`, Number where `a` isn't the next mark, Halted where the left side hasn't halted, and
    /// Memory. `Enters` promises that the entry leads from the old state to the new one. After an error nothing has changed, and the error is Memory
    /// or names a condition that the entry breaks.
    pub(crate) fn right(&mut self, s: u64, a: u64) -> Result<(), RuleFault>
        ensures done { IfOk result (λ _. (code : ℕ → Term) → Enters code (entry.Right s a) self.old self.new) }
        ensures refused { OnErr result (self.new ≡ self.old) }
        ensures reason { IfErr result (λ r. (l : Listing) (t : Table) → IsRightlyRefused l t (entry.Right s a) self.old r) }
    {
        // `left` is the left side's node in the marked term, `node` the right side's in the program, read in `scope`.
        let otherwise = self.otherwise(s)?;
        self.expect_mark(a)?;
        if !self.part_has_halted(otherwise.left as usize) {
            return Err(RuleFault::Halted);
        }
        // The nodes of the left side, to be dropped below.
        let side = self.side_at(otherwise.left)?;
        // Memory for what is added below comes first, so that nothing fails once the term has changed.
        reserve_wake(&mut self.nodes, &mut self.marks).map_err(|_| RuleFault::Memory)?;
        // `wake` writes the node, and notes that it has a token now, since an otherwise has none.
        self.nodes.wake(
            otherwise.at,
            Node {
                kind: Kind::Leaf(Tip::Token(a, otherwise.node, otherwise.scope)),
                parent: otherwise.parent,
            },
        );
        drop_nodes(&mut self.nodes, &side);
        // The otherwise hadn't halted. Its right side may have halted from the start, as a `stop` has: then `settle` flags the node, and those above
        // it that halt by that.
        let halted = self.halts.at(otherwise.node as usize);
        settle(
            &self.nodes,
            &mut self.flags,
            &mut self.candidates,
            otherwise.at,
            halted,
        );
        // Token `a` is on the otherwise's node.
        push_within(&mut self.marks, otherwise.at);
        Ok(())
    }
}
