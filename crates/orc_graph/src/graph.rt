//! The graph of a program: what a run reads of it. A *node* is a term, which names its parts by the numbers of their nodes. An *operand* is a name or
//! a value; a call names the list of its operands by a number.

ghost use Rattle.std.specs.Prelude.{◌≡◌, ◌≤◌, ◌++◌, ◌∷◌, [], length, map, slice_get, slice_index_or, option_map, true, IfOk, IfErr};
ghost use Rattle.std.specs.List.{AllByRecursion};
ghost use Rattle.orc_rules.specs.Nodes.{ArePartsFirst, node_of, unfold_node, code, source, definitions};
ghost use Rattle.orc_rules.specs.Term.{call};
ghost use Rattle.orc_rules.specs.declared.param.Operand.TheVariants.{Is as operand_is};
ghost use Rattle.orc_rules.specs.declared.param.Param.TheVariants.{Is as param_is};
ghost use Rattle.orc_graph.specs.Called.{with_call, HasList};
ghost use Rattle.orc_rules.specs.declared.limits.TheConstants.{MOST_ARGUMENTS};
ghost use Rattle.orc_graph.specs.Graph.{term_node};
ghost use Rattle.orc_graph.specs.Ranges.{params_at};

use crate::definitions::Definitions;
use crate::lists::Lists;
use crate::node::Node;
use crate::numbers::{GraphFault, copied, put, short};
use orc_rules::param::{Operand, Operands};
use orc_rules::program::{Program, TermNode};
use orc_rules::value::Value;
use std::alloc::Global;
use std::marker::Model;

/// A program's terms as nodes of 24 bytes, its lists of operands, its definitions and the node of its main term, all by the same numbers as
/// in the program. Nothing of it changes once it is built.
pub struct Graph {
    // The nodes by their numbers, from 0. Each stands behind its parts.
    nodes: Vec<Node>,
    // The lists of operands of the calls.
    lists: Lists,
    // The definitions, each with the node of its body.
    definitions: Definitions,
    // The node of the main term.
    root: u32,
}

// Contracts see the same as of a program: nodes, lists, definitions (`routines`) and the main term's node. The invariant says that each node stands
// behind its parts.
impl Model for Graph {
    ghost use Rattle.std.specs.Prelude.{map};
    ghost use Rattle.orc_rules.specs.Nodes.{Listing, ArePartsFirst};
    ghost use Rattle.orc_graph.specs.Graph.{term_node};

    ghost Value = { Listing };

    ghost view = { λ g. record { nodes = map term_node g.nodes.items; lists = g.lists; routines = g.definitions; root = g.root } };

    ghost invariant = { λ g. ArePartsFirst (map term_node g.nodes.items) };
}

// Written out, so that each exit of a function that has a graph drops it by one call.
impl Drop for Graph {
    fn drop(self) {
        let Graph {
            nodes,
            lists,
            definitions,
            root: _,
        } = self;
        drop(nodes);
        drop(lists);
        drop(definitions);
    }
}

// Converts a node of a program to a graph's node, whose numbers have 32 bits. `Memory` if a number takes more.
fn short_node(node: TermNode) -> Result<Node, GraphFault>
    ensures { IfOk result (λ short. term_node short ≡ node) }
{
    Ok(match node {
        TermNode::Stop => Node::Stop,
        TermNode::Operand(Operand::Name(x)) => Node::Name(x),
        TermNode::Operand(Operand::Is(value)) => Node::Is(value),
        TermNode::Site(site, list) => Node::Site(site, short(list)?),
        TermNode::Call(definition, list) => Node::Call(definition, short(list)?),
        TermNode::Par(f, g) => Node::Par(short(f)?, short(g)?),
        TermNode::Seq(f, x, g) => Node::Seq(short(f)?, x, short(g)?),
        TermNode::Prune(f, x, g) => Node::Prune(short(f)?, x, short(g)?),
        TermNode::Other(f, g) => Node::Other(short(f)?, short(g)?),
    })
}

// The nodes of a program, in their order. `Memory` if memory is refused or a number takes more than 32 bits.
fn short_nodes(alloc: Global, program: &Program) -> Result<Vec<Node>, GraphFault>
    ensures { IfOk result (λ nodes. map term_node nodes.items ≡ program.now.nodes) }
{
    let mut nodes = Vec::new(alloc);
    for id in 0..program.len() {
        let node = short_node(program.node(id))?;
        put(&mut nodes, node)?;
    }
    Ok(nodes)
}

// The lists of operands of a program's calls, in their order. `Memory` if memory is refused or a number takes more than 32 bits.
fn lists_of(alloc: Global, program: &Program) -> Result<Lists, GraphFault>
    ensures { IfOk result (λ lists. lists ≡ program.now.lists) }
{
    let mut lists = Lists::new(alloc);
    for list in 0..program.list_count() {
        lists.push(program.operands(list))?;
    }
    Ok(lists)
}

// The definitions of a program, in their order. `Memory` if memory is refused or a number takes more than 32 bits.
fn definitions_of(alloc: Global, program: &Program) -> Result<Definitions, GraphFault>
    ensures { IfOk result (λ definitions. definitions ≡ program.now.routines) }
{
    let mut definitions = Definitions::new(alloc);
    for definition in program.definitions() {
        definitions.push(&definition.params, definition.body)?;
    }
    Ok(definitions)
}

// Values as the operands of a call. There have to be `MOST_ARGUMENTS` at most, since a call has no more.
fn operands_of(values: &[Value]) -> Operands
    requires { length values.now ≤ MOST_ARGUMENTS }
    ensures { result ≡ map operand_is values.now }
{
    let mut operands = Operands::new();
    for value in values {
        operands.push(Operand::Is(*value));
    }
    operands
}

// Whether the list of operands that a call names is there, if the graph has `lists` lists. True for a node that is no call.
fn has_list(node: Node, lists: usize) -> bool
    ensures { result ≡ true → HasList lists (term_node node) }
{
    match node {
        Node::Site(_, list) | Node::Call(_, list) => (list as usize) < lists,
        _ => true,
    }
}

impl Graph {
    /// The graph of a program: it has the same nodes, lists, definitions and main term. `Memory` is the only fault: memory was refused, or a
    /// number of the program takes more than 32 bits.
    pub fn build(alloc: Global, program: &Program) -> Result<Graph, GraphFault>
        ensures same { IfOk result (λ graph. graph ≡ program.now) }
        ensures why { IfErr result (λ fault. fault ≡ GraphFault.Memory) }
    {
        // The number of the main term's node.
        let root = short(program.source())?;
        // For the prover alone, nothing runs: each node of a program stands behind its parts. The graph's invariant says the same.
        program.are_parts_first();
        let nodes = short_nodes(alloc, program)?;
        let lists = lists_of(alloc, program)?;
        let definitions = definitions_of(alloc, program)?;
        Ok(Graph {
            nodes,
            lists,
            definitions,
            root,
        })
    }

    // Whether each list that a node names is there.
    fn have_lists(&self) -> bool
        ensures { result ≡ true → AllByRecursion (HasList (length self.now.lists)) self.now.nodes }
    {
        let lists = self.lists.len();
        for node in &self.nodes {
            if !has_list(*node, lists) {
                return false;
            }
        }
        true
    }

    /// A copy of the graph whose main term is the call of the definition with the number `definition`, from 0, with the values `args`,
    /// `MOST_ARGUMENTS` at most: one node and one list more, behind the others. `Memory` is the only fault: memory was refused, or a number would
    /// take more than 32 bits. `Memory` is also the answer for a graph in which a node names a missing list, or a definition a missing body, since
    /// the new list or node would take that number. No checked program has such a graph.
    pub fn for_call(
        &self,
        alloc: Global,
        definition: u32,
        args: &[Value],
    ) -> Result<Graph, GraphFault>
        requires { length args.now ≤ MOST_ARGUMENTS }
        ensures calls { IfOk result (λ graph. source graph ≡ call definition (map param_is args.now)) }
        ensures same { IfOk result (λ graph. definitions graph ≡ definitions self.now) }
        ensures whole { IfOk result (λ graph. graph ≡ with_call self.now definition args.now) }
        ensures why { IfErr result (λ fault. fault ≡ GraphFault.Memory) }
    {
        let len = self.len();
        if !self.have_lists() || !self.definitions.have_bodies(len) {
            return Err(GraphFault::Memory);
        }
        // The call's node and its list come last, so their numbers are how many there are now.
        let root = short(len)?;
        let list = short(self.lists.len())?;
        // Room for one node more, that of the call.
        let mut nodes = copied(alloc, &self.nodes, 1)?;
        put(&mut nodes, Node::Call(definition, list))?;
        let mut lists = self.lists.copied(alloc)?;
        lists.push(operands_of(args).as_slice())?;
        let definitions = self.definitions.copied(alloc)?;
        Ok(Graph {
            nodes,
            lists,
            definitions,
            root,
        })
    }

    /// How many nodes there are.
    pub fn len(&self) -> usize
        ensures { result ≡ length self.now.nodes }
    {
        self.nodes.len()
    }

    // The node of that number, `stop` where there is none.
    fn node_or_stop(&self, id: usize) -> Node
        ensures { term_node result ≡ node_of self.now.nodes id }
    {
        match self.nodes.get(id) {
            Some(node) => *node,
            None => Node::Stop,
        }
    }

    // A law, for the prover: each node stands behind its parts, so its term is finite. Naming a field shows the invariant; nothing runs.
    fn are_parts_first(&self)
        ensures { ArePartsFirst self.now.nodes }
    {
        let _nodes = &self.nodes;
    }

    /// The node with this number, or `stop` if there is none. `term` says that the node's term consists of the terms of its parts.
    pub fn node(&self, id: usize) -> Node
        ensures node { term_node result ≡ node_of self.now.nodes id }
        ensures term { code self.now id ≡ unfold_node (code self.now) self.now.lists (term_node result) }
    {
        // For the prover alone: the clause `term` follows from it.
        self.are_parts_first();
        self.node_or_stop(id)
    }

    /// The operands of the list with that number, `MOST_ARGUMENTS` at most; none where there is no such list.
    pub fn operands(&self, list: usize) -> &[Operand]
        ensures value { result.now ≡ slice_index_or self.now.lists list [] }
        ensures len { length result.now ≤ MOST_ARGUMENTS }
    {
        self.lists.get(list)
    }

    /// The number of the node of the main term.
    pub fn root(&self) -> u32
        ensures { result ≡ self.now.root }
    {
        self.root
    }

    /// How many definitions there are.
    pub fn definitions(&self) -> usize
        ensures { result ≡ length self.now.routines }
    {
        self.definitions.len()
    }

    /// The number of the node of the body of the definition with that number. None where there is no such definition.
    pub fn body(&self, definition: usize) -> Option<u32>
        ensures { result ≡ option_map (λ r. r.body) (slice_get self.now.routines definition) }
    {
        self.definitions.body(definition)
    }

    /// The parameters of the definition with that number, as numbers of names; none where there is no such definition.
    pub fn params(&self, definition: usize) -> &[u32]
        ensures { result.now ≡ params_at self.now.routines definition }
    {
        self.definitions.params(definition)
    }
}
