//! The entries `end`, `fork`, `seq` and `other`, which only move marks: no rule of Orc is used. The term with its marks left out stays the same, so
//! the flag of the token's node stays right. The *marked term* is what is left of the program's term, as numbered nodes (`nodes`), and a token's
//! number is its *mark*. `flags` says of each node whether it has halted; `push_flag` adds that of a new node. `candidates` has the sides that may
//! have halted.
//!
//! In contracts `Enters` says that the entry leads from the old state to the new one, and `IsRightlyRefused` that the fault is Memory or names a
//! condition that the entry breaks.

ghost use Rattle.std.specs.Prelude.{◌≡◌, IfOk, IfErr, OnErr};
ghost use Rattle.orc_rules.specs.Nodes.{code};
ghost use Rattle.orc_rules.specs.Sites.{Table};
ghost use Rattle.orc_checker.specs.Checker.{Enters};
ghost use Rattle.orc_checker.specs.Refusing.{IsRightlyRefused};
ghost use Rattle.orc_rules.specs.declared.entry.Entry.TheVariants as entry;

use crate::marked::{Marked, expect_after, token_node};
use orc_rules::entry::RuleFault;
use orc_rules::program::{Program, TermNode};
use orc_term::arena::{Double, Kind, Node, Single, Tip};
use orc_term::flags::push_flag;
use orc_term::room::{fits, push_within, reserve_numbered};

impl Marked {
    /// The entry `end S`: the token with mark `s`, which stands on a `stop`, is removed. The errors: Cancel where a cancel is due, Mark where there
    /// is no token `s`, and Form where it isn't on a `stop`. `Enters` promises that the entry leads from the old state to the new one. After an error
    /// nothing has changed, and the error is Memory or names a condition that the entry breaks.
    pub(crate) fn end(&mut self, program: &Program, s: u64) -> Result<(), RuleFault>
        ensures done { IfOk result (λ _. Enters (code program.now) (entry.End s) self.old self.new) }
        ensures refused { OnErr result (self.new ≡ self.old) }
        ensures reason { IfErr result (λ r. (t : Table) → IsRightlyRefused program.now t (entry.End s) self.old r) }
    {
        // Where token `s` stands: `at` is its node in the marked term and `parent` the node above; `node` is the node of the program on which the
        // token stands, read in `scope`.
        let spot = self.spot(s)?;
        let TermNode::Stop = program.node(spot.node as usize) else {
            return Err(RuleFault::Form);
        };
        // The token's node becomes `Ended`, a `stop` without a token. Its parent stays.
        self.nodes.write_node(
            spot.at as usize,
            Node {
                kind: Kind::Leaf(Tip::Ended),
                parent: spot.parent,
            },
        );
        Ok(())
    }

    /// The entry `fork S A B`: token `s`, the one with that mark, on `f | g` gives way to token `a` on f and token `b` on g. The errors: Cancel where
    /// a cancel is due, Mark where there is no token `s`, Form where it isn't on a `|`, Number where `a` and `b` aren't the next two marks, and
    /// Memory. `Enters` promises that the entry leads from the old state to the new one. After an error nothing has changed, and the error is Memory
    /// or names a condition that the entry breaks.
    pub(crate) fn fork(
        &mut self,
        program: &Program,
        s: u64,
        a: u64,
        b: u64,
    ) -> Result<(), RuleFault>
        ensures done { IfOk result (λ _. Enters (code program.now) (entry.Fork s a b) self.old self.new) }
        ensures refused { OnErr result (self.new ≡ self.old) }
        ensures reason { IfErr result (λ r. (t : Table) → IsRightlyRefused program.now t (entry.Fork s a b) self.old r) }
    {
        // Where token `s` stands: `at` is its node in the marked term and `parent` the node above; `node` is the node of the program on which the
        // token stands, read in `scope`.
        let spot = self.spot(s)?;
        let TermNode::Par(f, g) = program.node(spot.node as usize) else {
            return Err(RuleFault::Form);
        };
        self.expect_mark(a)?;
        expect_after(a, b)?;
        // Reserves memory for two nodes and two marks, and checks that f and g fit the 32 bits in which new nodes keep them.
        reserve_numbered(&mut self.nodes, &mut self.flags, &mut self.marks, f, g).map_err(
            |_| RuleFault::Memory,
        )?;
        // The new nodes are n, for the token on f, and n + 1, for that on g.
        let n = self.nodes.next_number();
        self.nodes.write_node(
            spot.at as usize,
            Node {
                kind: Kind::Two(Double::Both, n, n + 1),
                parent: spot.parent,
            },
        );
        self.nodes.push_within(token_node(a, f as u32, spot));
        self.nodes.push_within(token_node(b, g as u32, spot));
        // The nodes on which the marks `a` and `b` are.
        push_within(&mut self.marks, n);
        push_within(&mut self.marks, n + 1);
        // `halts` says of each node of the program whether its term has halted from the start, as a `stop` has. These are the flags of the two new
        // nodes.
        let left = self.halts.at(f);
        let right = self.halts.at(g);
        push_flag(&mut self.flags, &mut self.candidates, n, left);
        push_flag(&mut self.flags, &mut self.candidates, n + 1, right);
        Ok(())
    }

    /// The entry `seq S A`: token `s`, the one with that mark, on `f >x> g` gives way to token `a` on f. The errors: Cancel where a cancel is due,
    /// Mark where there is no token `s`, Form where it isn't on a `>x>`, Number where `a` isn't the next mark, and Memory. `Enters` promises that the
    /// entry leads from the old state to the new one. After an error nothing has changed, and the error is Memory or names a condition that the entry
    /// breaks.
    pub(crate) fn seq(&mut self, program: &Program, s: u64, a: u64) -> Result<(), RuleFault>
        ensures done { IfOk result (λ _. Enters (code program.now) (entry.Seq s a) self.old self.new) }
        ensures refused { OnErr result (self.new ≡ self.old) }
        ensures reason { IfErr result (λ r. (t : Table) → IsRightlyRefused program.now t (entry.Seq s a) self.old r) }
    {
        // Where token `s` stands: `at` is its node in the marked term and `parent` the node above; `node` is the node of the program on which the
        // token stands, read in `scope`.
        let spot = self.spot(s)?;
        let TermNode::Seq(f, x, g) = program.node(spot.node as usize) else {
            return Err(RuleFault::Form);
        };
        self.expect_mark(a)?;
        // Reserves memory for the node and the mark, and checks that f and g fit the 32 bits in which nodes keep them.
        reserve_numbered(&mut self.nodes, &mut self.flags, &mut self.marks, f, g).map_err(
            |_| RuleFault::Memory,
        )?;
        // The token's node becomes the `>x>`, which keeps g and its scope: `send` adds a copy of g at each publication of f. The new node n is that
        // of the token on f.
        let n = self.nodes.next_number();
        self.nodes.write_node(
            spot.at as usize,
            Node {
                kind: Kind::One(Single::Feeds(x, g as u32, spot.scope), n),
                parent: spot.parent,
            },
        );
        self.nodes.push_within(token_node(a, f as u32, spot));
        // Mark `a` is put on node n: `marks` has the node of each mark.
        push_within(&mut self.marks, n);
        // `halts` says of each node of the program whether its term has halted from the start, as a `stop` has. That is the flag of the new node.
        let halted = self.halts.at(f);
        push_flag(&mut self.flags, &mut self.candidates, n, halted);
        Ok(())
    }

    /// The entry `other S A`: token `s`, the one with that mark, on `f ; g` (an otherwise) gives way to token `a` on f, and `s` is the otherwise's
    /// number from now on. The errors: Cancel where a cancel is due, Mark where there is no token `s`, Form where it isn't on a `;`, Number where `a`
    /// isn't the next mark, and Memory. `Enters` promises that the entry leads from the old state to the new one. After an error nothing has changed,
    /// and the error is Memory or names a condition that the entry breaks.
    pub(crate) fn other(&mut self, program: &Program, s: u64, a: u64) -> Result<(), RuleFault>
        ensures done { IfOk result (λ _. Enters (code program.now) (entry.Other s a) self.old self.new) }
        ensures refused { OnErr result (self.new ≡ self.old) }
        ensures reason { IfErr result (λ r. (t : Table) → IsRightlyRefused program.now t (entry.Other s a) self.old r) }
    {
        // Where token `s` stands: `at` is its node in the marked term and `parent` the node above; `node` is the node of the program on which the
        // token stands, read in `scope`.
        let spot = self.spot(s)?;
        let TermNode::Other(f, g) = program.node(spot.node as usize) else {
            return Err(RuleFault::Form);
        };
        self.expect_mark(a)?;
        // The node keeps the otherwise's number in 32 bits.
        fits(s as usize).map_err(|_| RuleFault::Memory)?;
        // Reserves memory for the node and the mark, and checks that f and g fit the 32 bits in which nodes keep them.
        reserve_numbered(&mut self.nodes, &mut self.flags, &mut self.marks, f, g).map_err(
            |_| RuleFault::Memory,
        )?;
        // The token's node becomes the otherwise, which keeps g and its scope: g gets a node when the right side starts (`right`). The new node n is
        // that of the token on f.
        let n = self.nodes.next_number();
        self.nodes.write_node(
            spot.at as usize,
            Node {
                kind: Kind::One(Single::Entered(s as u32, g as u32, spot.scope), n),
                parent: spot.parent,
            },
        );
        self.nodes.push_within(token_node(a, f as u32, spot));
        // Mark `a` is put on node n: `marks` has the node of each mark.
        push_within(&mut self.marks, n);
        // `halts` says of each node of the program whether its term has halted from the start, as a `stop` has. That is the flag of the new node.
        let halted = self.halts.at(f);
        push_flag(&mut self.flags, &mut self.candidates, n, halted);
        Ok(())
    }
}
