//! A program's terms as numbered nodes. A node names its parts (the terms in it) by their numbers, which are all lower than its own.

ghost use Rattle.std.specs.Prelude.{◌≡◌, ℕ, ◌≤◌, ◌++◌, ◌∷◌, [], List, length, map, IfOk, OnOk, OnErr, slice_get, slice_index_or, option_map};
ghost use Rattle.orc_rules.specs.declared.limits.TheConstants.{MOST_ARGUMENTS};
ghost use Rattle.orc_rules.specs.Nodes.{node_of, unfold_node, code, HasParts, ArePartsFirst, Listing, Routine, Terms as Listed};
ghost use Rattle.orc_rules.specs.Programs.{listing, routine_of};

use crate::param::{Operand, Operands};
use std::alloc::{AllocError, Global};
use std::marker::Model;

/// One node of a program's terms: its parts by their nodes' numbers, a call's operands by the number of their list, a variable by its own number.
#[derive(Clone, Copy)]
pub enum TermNode {
    /// `stop`, which publishes nothing. It has no parts.
    Stop,
    /// A variable or a value.
    Operand(Operand),
    /// A call of a site: the site's number in the table of sites, and the list of its operands.
    Site(u32, usize),
    /// A call of a definition: the definition's number, from 0, and the list of its operands.
    Call(u32, usize),
    /// `f | g`: f and g.
    Par(usize, usize),
    /// `f >x> g`: f, x and g.
    Seq(usize, u32, usize),
    /// `f <x< g`: f, x and g.
    Prune(usize, u32, usize),
    /// `f ; g`: f and g.
    Other(usize, usize),
}

/// The nodes of terms, each behind its parts, and the lists of operands that they name. Both are numbered from 0.
#[derive(Drop)]
pub struct Terms {
    // The nodes by their numbers.
    nodes: Vec<TermNode>,
    // The lists of operands by their numbers.
    lists: Vec<Operands>,
}

// Contracts see the nodes and the lists of operands.
impl Model for Terms {
    ghost Value = { Listed };

    ghost view = { λ t. record { nodes = t.nodes.items; lists = t.lists.items } };

    ghost invariant = { λ t. ArePartsFirst t.nodes.items };
}

impl Terms {
    /// No nodes.
    pub fn new(alloc: Global) -> Terms
        ensures { result ≡ record { nodes = []; lists = [] } }
    {
        Terms {
            nodes: Vec::new(alloc),
            lists: Vec::new(alloc),
        }
    }

    /// How many nodes there are.
    pub fn len(&self) -> usize
        ensures { result ≡ length self.now.nodes }
    {
        self.nodes.len()
    }

    /// Adds a node and gives its number, from 0. The nodes that it names as its parts must be there. The error is refused memory, and then nothing
    /// changes.
    pub fn push(&mut self, node: TermNode) -> Result<usize, AllocError>
        requires { HasParts (length self.old.nodes) node }
        ensures number { IfOk result (λ at. at ≡ length self.old.nodes) }
        ensures added { OnOk result (self.new ≡ record { nodes = self.old.nodes ++ node ∷ []; lists = self.old.lists }) }
        ensures refused { OnErr result (self.new ≡ self.old) }
    {
        let at = self.nodes.len();
        self.nodes.push(node)?;
        Ok(at)
    }

    /// Adds a list of operands and gives its number among the lists, from 0. The error is refused memory, and then nothing changes.
    pub fn push_list(&mut self, operands: Operands) -> Result<usize, AllocError>
        ensures number { IfOk result (λ at. at ≡ length self.old.lists) }
        ensures added { OnOk result (self.new ≡ record { nodes = self.old.nodes; lists = self.old.lists ++ operands ∷ [] }) }
        ensures refused { OnErr result (self.new ≡ self.old) }
    {
        let at = self.lists.len();
        self.lists.push(operands)?;
        Ok(at)
    }
}

/// A definition: its parameters, as numbers of variables, and the node of its body.
#[derive(Drop)]
pub struct Definition {
    /// The variables that are its parameters, in their order.
    pub params: Vec<u32>,
    /// The number of its body's node, from 0.
    pub body: usize,
}

/// A program: its terms, its definitions and the node of its main term.
#[derive(Drop)]
pub struct Program {
    // The nodes of all its terms, and the lists of operands.
    terms: Terms,
    // The definitions by their numbers, from 0.
    definitions: Vec<Definition>,
    // The number of the main term's node.
    source: usize,
}

// Contracts see all of it as one `Listing`, whose terms are `code`, `source` and `definitions` of `specs/Nodes`. `code` gives the term of a node, and
// `unfold_node` makes it of the node (`node_of`) and the terms of its parts.
impl Model for Program {
    ghost Value = { Listing };

    ghost view = { λ p. listing p.terms p.definitions.items p.source };

    ghost invariant = { λ p. ArePartsFirst p.terms.nodes };
}

impl Program {
    /// The program of these terms and definitions, whose main term has the node `source`. A number that no node has means `stop`.
    pub fn new(terms: Terms, definitions: Vec<Definition>, source: usize) -> Program
        ensures { result ≡ listing terms definitions.items source }
    {
        Program {
            terms,
            definitions,
            source,
        }
    }

    // The node with the number `id`, from 0; `stop` if there is none. `node` gives the same, and adds the second clause of its contract.
    fn node_or_stop(&self, id: usize) -> TermNode
        ensures { result ≡ node_of self.now.nodes id }
    {
        match self.terms.nodes.get(id) {
            Some(node) => *node,
            None => TermNode::Stop,
        }
    }

    /// The node with the number `id`, from 0; `stop` if there is none. Its term is made of those of its parts.
    pub fn node(&self, id: usize) -> TermNode
        ensures node { result ≡ node_of self.now.nodes id }
        ensures term { code self.now id ≡ unfold_node (code self.now) self.now.lists result }
    {
        // For the prover: only parts that are before the node have their terms when its own is made.
        self.are_parts_first();
        self.node_or_stop(id)
    }

    /// The operands of the list with the number `list`, from 0; none if there is no such list.
    pub fn operands(&self, list: usize) -> &[Operand]
        ensures value { result.now ≡ slice_index_or self.now.lists list [] }
        ensures len { length result.now ≤ MOST_ARGUMENTS }
    {
        match self.terms.lists.get(list) {
            Some(operands) => operands.as_slice(),
            None => &[],
        }
    }

    /// How many lists of operands there are.
    pub fn list_count(&self) -> usize
        ensures { result ≡ length self.now.lists }
    {
        self.terms.lists.len()
    }

    /// The number of the main term's node, from 0. If no node has it, the main term is `stop`.
    pub fn source(&self) -> usize
        ensures { result ≡ self.now.root }
    {
        self.source
    }

    /// The definitions in the order of their numbers, which count from 0.
    pub fn definitions(&self) -> &[Definition]
        ensures { map routine_of result.now ≡ self.now.routines }
    {
        &self.definitions
    }

    /// A fact for a caller's proof: each node is behind its parts. Nothing runs.
    pub fn are_parts_first(&self)
        ensures { ArePartsFirst self.now.nodes }
    {
        // It is the type's invariant, which the prover has as soon as a field is looked at.
        let _terms = &self.terms;
    }

    /// How many nodes the terms have.
    pub fn len(&self) -> usize
        ensures { result ≡ length self.now.nodes }
    {
        self.terms.nodes.len()
    }

    /// A fact for a caller's proof: each node's term is made of those of its parts, and is `stop` if there is no node. Nothing runs.
    pub fn are_unfolded(&self)
        ensures { (i : ℕ) → code self.now i ≡ unfold_node (code self.now) self.now.lists (node_of self.now.nodes i) }
    {
        self.are_parts_first();
    }
}
