//! The definitions of a graph, which is what a run reads of a program. One list holds the parameters of all definitions, one after another; each
//! definition notes its range in that list. A *node* is a term of the program, by its number in the graph.

ghost use Rattle.std.specs.Prelude.{◌≡◌, ◌++◌, ◌∷◌, [], length, map, slice_get, option_map, true, MatchOption, IfOk, OnOk};
ghost use Rattle.std.specs.List.{AllByRecursion};
ghost use Rattle.orc_graph.specs.Called.{HasBody};
ghost use Rattle.orc_graph.specs.Ranges.{params_at};

use crate::numbers::{GraphFault, Range, copied, part, place, put, short};
use std::alloc::Global;
use std::marker::Model;

/// A definition as it is stored.
#[derive(Clone, Copy)]
pub(crate) struct Body {
    /// Its parameters: a range of `Definitions::names`.
    pub(crate) params: Range,
    /// The node of its body.
    pub(crate) node: u32,
}

/// Definitions by their numbers, from 0.
#[derive(Drop)]
pub(crate) struct Definitions {
    // The parameters of all definitions, as numbers of names.
    names: Vec<u32>,
    // The definitions by their numbers.
    bodies: Vec<Body>,
}

// Contracts see a list of definitions, each with its own list of parameters. The invariant says that each definition's range lies within `names`.
impl Model for Definitions {
    ghost use Rattle.std.specs.Prelude.{List, map, length};
    ghost use Rattle.orc_rules.specs.Nodes.{Routine};
    ghost use Rattle.orc_graph.specs.Bodies.{routine_in, AreInside};

    ghost Value = { List Routine };

    ghost view = { λ d. map (routine_in d.names.items) d.bodies.items };

    ghost invariant = { λ d. AreInside (length d.names.items) d.bodies.items };
}

// The definition with this number, from 0. None if there is no such definition.
fn body_at(bodies: &Vec<Body>, number: usize) -> Option<Body>
    ensures { result ≡ slice_get bodies.now.items number }
{
    match bodies.get(number) {
        Some(body) => Some(*body),
        None => None,
    }
}

impl Definitions {
    /// No definitions.
    pub(crate) fn new(alloc: Global) -> Definitions
        ensures { result ≡ [] }
    {
        Definitions {
            names: Vec::new(alloc),
            bodies: Vec::new(alloc),
        }
    }

    /// Adds a definition at the end: its parameters, as numbers of names, and the number of its body's node. `Memory` where memory is refused or a
    /// number takes more than 32 bits; then there is no new definition, though its parameters may be in `names`.
    pub(crate) fn push(&mut self, params: &[u32], body: usize) -> Result<(), GraphFault>
        ensures { OnOk result (self.new ≡ self.old ++ record { params = params.now; body = body } ∷ []) }
    {
        let node = short(body)?;
        // The definition's parameters go behind those of all others; the range says where they stand.
        let params = place(&mut self.names, params)?;
        put(&mut self.bodies, Body { params, node })?;
        Ok(())
    }

    /// A copy of the definitions. The error is refused memory.
    pub(crate) fn copied(&self, alloc: Global) -> Result<Definitions, GraphFault>
        ensures { IfOk result (λ definitions. definitions ≡ self.now) }
    {
        Ok(Definitions {
            // No room for more: a copy gets no new definition.
            names: copied(alloc, &self.names, 0)?,
            bodies: copied(alloc, &self.bodies, 0)?,
        })
    }

    /// Whether the body of each definition is one of the first `nodes` nodes. `nodes` is how many nodes the graph has, so that each body is a node of
    /// it.
    pub(crate) fn have_bodies(&self, nodes: usize) -> bool
        ensures { result ≡ true → AllByRecursion (HasBody nodes) self.now }
    {
        for body in &self.bodies {
            if body.node as usize >= nodes {
                return false;
            }
        }
        true
    }

    /// How many definitions there are.
    pub(crate) fn len(&self) -> usize
        ensures { result ≡ length self.now }
    {
        self.bodies.len()
    }

    /// The number of the node of the body of the definition with that number. None where there is no such definition.
    pub(crate) fn body(&self, number: usize) -> Option<u32>
        ensures { result ≡ option_map (λ r. r.body) (slice_get self.now number) }
    {
        match body_at(&self.bodies, number) {
            Some(body) => Some(body.node),
            None => None,
        }
    }

    /// The parameters of the definition with that number, as numbers of names; none where there is no such definition.
    pub(crate) fn params(&self, number: usize) -> &[u32]
        ensures { result.now ≡ params_at self.now number }
    {
        match body_at(&self.bodies, number) {
            Some(body) => part(&self.names, body.params),
            None => &[],
        }
    }
}
