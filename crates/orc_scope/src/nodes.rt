//! The nodes of terms, in which each call has its list of operands. An operand is a literal or a variable. A `TermNode` names the parts of a node,
//! and the list of a call, by their numbers. `Numbers` says which definition or site a name means.

ghost use Rattle.std.specs.Prelude.{◌≡◌, ◌++◌, ◌∷◌, [], List, length, map, IfOk, OnOk, OnErr};
ghost use Rattle.orc_rules.specs.Nodes.{HasParts, param_of, Terms as Listed};
ghost use Rattle.orc_scope.specs.Listed.{terms, term_of, HasList, HaveLists};
ghost use Rattle.orc_scope.specs.Scope.{outer_meaning, position};
ghost use Rattle.orc_scope.specs.Written.{called};

use crate::numbers::Numbers;
use orc_rules::param::{Operand, Operands};
use orc_rules::program::{TermNode, Terms};
use std::alloc::{AllocError, Global};
use std::marker::Model;

// In contracts `terms` are the terms of the nodes, in their order, `HasParts n node` says that a node's parts are among the first n nodes, and
// `HasList n node` that its list is among the first n lists. `outer_meaning` is what a name means by its places among definitions and sites, and
// `called` the call of that, or `stop`.

/// Terms of `orc_rules` that are being written out: nodes, each behind those of its parts, and the lists of operands that calls name by number.
/// Each call's list is there.
#[derive(Drop)]
pub struct Nodes {
    terms: Terms,
}

// Contracts see the nodes and the lists of operands. The list that a call's node names is there (`HaveLists`).
impl Model for Nodes {
    ghost Value = { Listed };

    ghost view = { λ n. n.terms };

    ghost invariant = { λ n. HaveLists (length n.terms.lists) n.terms.nodes };
}

impl Nodes {
    /// No nodes.
    pub fn new(alloc: Global) -> Nodes
        ensures { result ≡ record { nodes = []; lists = [] } }
    {
        Nodes {
            terms: Terms::new(alloc),
        }
    }

    /// The nodes as the terms of a program.
    pub fn finish(self) -> Terms
        ensures { result ≡ self }
    {
        self.terms
    }

    /// Adds a node, whose parts and list of operands are there. Gives its number, from 0. The error is refused memory, and then nothing changes.
    pub fn add(&mut self, node: TermNode) -> Result<usize, AllocError>
        requires parts { HasParts (length (terms self.old)) node }
        requires list { HasList (length self.old.lists) node }
        ensures number { IfOk result (λ at. at ≡ length (terms self.old)) }
        ensures added { OnOk result (terms self.new ≡ terms self.old ++ term_of self.old node ∷ []) }
        ensures refused { OnErr result (self.new ≡ self.old) }
    {
        let at = self.terms.push(node)?;
        Ok(at)
    }

    /// Adds a call of the definition or the site that this name means, with these operands, or `stop` where it means neither. Gives its number, from
    /// 0. The error is refused memory; the list of operands may be there then.
    pub fn add_call(
        &mut self,
        numbers: &Numbers,
        text: &[u8],
        operands: Operands,
    ) -> Result<usize, AllocError>
        ensures number { IfOk result (λ at. at ≡ length (terms self.old)) }
        ensures added { OnOk result (terms self.new ≡ terms self.old ++ called (outer_meaning (position numbers.now.known.definitions text.now) (position numbers.now.known.sites text.now)) (map param_of operands) ∷ []) }
    {
        let list = self.terms.push_list(operands)?;
        let at = self.add(numbers.called(text, list))?;
        Ok(at)
    }
}

/// A part that is written out. A literal or a variable gets no node of its own until it is known to be no argument of a call.
#[derive(Clone, Copy)]
pub enum Piece {
    /// A literal or a variable, without a node.
    Operand(Operand),
    /// The number of a node.
    Node(usize),
}
