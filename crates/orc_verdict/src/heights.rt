//! How deep a program's terms nest, in levels: a term without parts has one, any other one more than its deepest part.

ghost use Rattle.std.specs.Prelude.{◌≡◌, ◌<◌, ◌≤◌, ◌+◌, ◌^◌, ℕ, suc, max, List, IfOk};
ghost use Rattle.orc_rules.specs.Nodes.{code};
ghost use Rattle.orc_verdict.specs.Heights.{height, node_height, AreLow, AreHeights, AreAtMost};

use orc_rules::program::{Program, TermNode};
use std::alloc::{AllocError, Global};
use std::marker::Model;

/// For each node of a program how deep its term nests, in levels.
#[derive(Drop)]
pub struct Heights {
    /// By the number of a node: the levels of its term, at least 1.
    levels: Vec<usize>,
    /// No term has more levels.
    most: usize,
}

impl Model for Heights {
    ghost use Rattle.std.specs.Prelude.{ℕ, List};
    ghost use Rattle.orc_verdict.specs.Heights.{AreAtMost};

    // Contracts see the levels of each node's term.
    ghost Value = { List ℕ };

    ghost view = { λ h. h.levels.items };

    // No node's term has more than `most` levels.
    ghost invariant = { λ h. AreAtMost h.levels.items h.most };
}

// The levels of the term of node `i` of the program; 1 where there is no such node.
fn level_at(levels: &Vec<usize>, i: usize) -> usize
    ensures { result ≡ height levels.now.items i }
{
    match levels.get(i) {
        Some(level) => *level,
        None => 1,
    }
}

// One level more than the larger of the two, which fits by `requires`.
fn one_more(a: usize, b: usize) -> usize
    requires left { a + 1 < 2 ^ 64 }
    requires right { b + 1 < 2 ^ 64 }
    ensures { result ≡ suc (max a b) }
{
    a.max(b) + 1
}

// The levels of a node's term, by those of its parts, which `levels` has. By `requires` one more than those fits a `usize`.
fn level_of(levels: &Vec<usize>, node: TermNode) -> usize
    requires { AreLow levels.now.items node }
    ensures { result ≡ node_height levels.now.items node }
{
    match node {
        TermNode::Par(f, g) => one_more(level_at(levels, f), level_at(levels, g)),
        TermNode::Seq(f, _, g) => one_more(level_at(levels, f), level_at(levels, g)),
        TermNode::Prune(f, _, g) => one_more(level_at(levels, f), level_at(levels, g)),
        TermNode::Other(f, g) => one_more(level_at(levels, f), level_at(levels, g)),
        // `stop`, an operand or a call: a term without parts.
        _ => 1,
    }
}

// As many levels as the deepest term has, and at least 1.
fn most_of(levels: &Vec<usize>) -> usize
    ensures { AreAtMost levels.now.items result }
{
    let mut most = 1;
    for i in 0..levels.len() {
        most = most.max(levels[i]);
    }
    most
}

impl Heights {
    /// How deep each term of a program nests, in levels. The error is refused memory.
    pub fn new(alloc: Global, program: &Program) -> Result<Heights, AllocError>
        ensures { IfOk result (λ h. AreHeights (code program.now) h) }
    {
        let mut levels = Vec::new(alloc);
        // Facts that the prover is shown; nothing runs. Each node stands behind its parts, so that their levels are known when its turn comes.
        program.are_unfolded();
        program.are_parts_first();
        for i in 0..program.len() {
            levels.push(level_of(&levels, program.node(i)))?;
        }
        let most = most_of(&levels);
        Ok(Heights { levels, most })
    }

    /// How deep the term of that node of the program nests, in levels; 1 where there is no such node.
    pub fn at(&self, node: usize) -> usize
        ensures { result ≡ height self.now node }
    {
        level_at(&self.levels, node)
    }

    /// As many levels as the deepest term has, and at least 1.
    pub fn most(&self) -> usize
        ensures { AreAtMost self.now result }
    {
        self.most
    }
}
