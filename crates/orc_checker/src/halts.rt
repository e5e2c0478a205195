//! Which of a program's terms have halted from the start, before anything moves in them: `stop` has. The terms are numbered nodes, and f and g are
//! the numbers of a node's parts.

ghost use Rattle.std.specs.Prelude.{◌≡◌, ◌≤◌, ◌++◌, ◌∷◌, [], List, Bool, length, IfOk};
ghost use Rattle.orc_rules.specs.Nodes.{code, node_of};
ghost use Rattle.orc_term.specs.Halting.{halt_flag, node_flag, AreHalts};

use orc_rules::program::{Program, TermNode};
use orc_term::flags::flag_at;
use std::alloc::{AllocError, Global};
use std::marker::Model;

/// For each node of a program whether its term has halted.
#[derive(Drop)]
pub struct Halts {
    /// For each node whether its term has halted.
    pub(crate) flags: Vec<bool>,
    /// A flag for each node, scratch memory of `stillness`: asking whether a token can move overwrites these flags, and so needs no memory of its
    /// own.
    pub(crate) queued: Vec<bool>,
}

// In contracts a `Halts` is the list of its `flags`. The scratch flags `queued` are at least as many.
impl Model for Halts {
    ghost Value = { List Bool };

    ghost view = { λ h. h.flags.items };

    ghost invariant = { λ h. length h.flags.items ≤ length h.queued.items };
}

// Whether the term of `node`, a node of the program, has halted. `flags` has the flags of the nodes before it, and its parts, f and g, are among
// these.
fn flag_of(flags: &Vec<bool>, node: TermNode) -> bool
    ensures { result ≡ node_flag flags.now.items node }
{
    match node {
        TermNode::Stop => true,
        TermNode::Par(f, g) => flag_at(flags, f) && flag_at(flags, g),
        // g starts only when f publishes, so f alone counts.
        TermNode::Seq(f, _, _) => flag_at(flags, f),
        // An operand, a call, a `<x<` and a `;` have a step of their own still to make, or wait for it.
        _ => false,
    }
}

impl Halts {
    /// The flags of all nodes of a program: `AreHalts` says that each is true exactly if the node's term has halted. The error is refused memory.
    pub fn new(alloc: Global, program: &Program) -> Result<Halts, AllocError>
        ensures { IfOk result (λ h. AreHalts (code program.now) h) }
    {
        let mut flags = Vec::new(alloc);
        let mut queued = Vec::new(alloc);
        // Facts that the prover is shown; nothing runs. Each node stands behind its parts, so that their flags are known when its turn comes.
        program.are_unfolded();
        program.are_parts_first();
        for i in 0..program.len() {
            flags.push(flag_of(&flags, program.node(i)))?;
            queued.push(false)?;
        }
        Ok(Halts { flags, queued })
    }

    /// A copy of the flags. The error is refused memory.
    pub(crate) fn copy(&self, alloc: Global) -> Result<Halts, AllocError>
        ensures { IfOk result (λ h. h ≡ self.now) }
    {
        let flags = Vec::from_slice(alloc, &self.flags)?;
        let queued = Vec::from_slice(alloc, &self.queued)?;
        Ok(Halts { flags, queued })
    }

    /// Whether the term of the program's node of number `node` has halted before anything has happened in it, as `stop` has; true where there is no
    /// such node.
    pub fn at(&self, node: usize) -> bool
        ensures { result ≡ halt_flag self.now node }
    {
        flag_at(&self.flags, node)
    }
}
