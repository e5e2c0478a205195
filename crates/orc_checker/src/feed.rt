//! The entry `send`: a publication that a `>x>` takes.
//!
//! The *marked term* is what is left of the program's term after the entries before, as numbered nodes (`nodes`); a token's number is its *mark*.
//! `flags` says of each node whether it has halted. `settle` sets the flag of a node that has halted, and of those above that halt with it; sides
//! among them become `candidates`, which the search for halted sides looks at. An *otherwise* is an entered `f ; g`, and a *scope* says what names
//! mean.
//!
//! In contracts `Enters` says that the entry leads from the old state to the new one, and `IsRightlyRefused` that the fault is Memory or names a
//! condition that the entry breaks.

ghost use Rattle.std.specs.Prelude.{◌≡◌, ◌+◌, ◌<◌, ◌≤◌, false, length, Some, IfErr, IfOk, OnErr};
ghost use Rattle.orc_rules.specs.Nodes.{code};
ghost use Rattle.orc_rules.specs.declared.entry.Entry.TheVariants as entry;
ghost use Rattle.orc_rules.specs.Sites.{Table};
ghost use Rattle.orc_checker.specs.Checker.{Enters};
ghost use Rattle.orc_checker.specs.Refusing.{IsRightlyRefused};
ghost use Rattle.orc_term.specs.Grafting.{Grafts};
ghost use Rattle.orc_checker.specs.Index.{name_of, Renames};
ghost use Rattle.orc_checker.specs.NextDue.{waits, NoMoreWait};
ghost use Rattle.orc_term.specs.Sides.{NoNewSides};
ghost use Rattle.orc_term.specs.declared.arena.Kind.TheVariants.{Leaf as AtLeaf};

use crate::marked::Marked;
use crate::pruning::{reserve_scope, scope_count};
use orc_env::{Bound, Scope, StoredScope};
use orc_rules::entry::RuleFault;
use orc_rules::program::Program;
use orc_rules::value::Value;
use orc_term::arena::{Double, Kind, Node, Single, Tip};
use orc_term::flags::{push_flag, settle};
use orc_term::nodes::Nodes;
use orc_term::room::{push_within, reserve};
use orc_term::walk::{Taker, rise, way_up};

/// Puts a new `|` above node `at` of the marked term. That node becomes the left part of the `|` and keeps its number; the right part is a new node
/// without parts, whose kind `tip` says. The caller has reserved room for the two new nodes, and node `at` has to be there. The clauses say, too,
/// that no old node becomes a side, that no node but the new one gets a name (a mark, call or cell), and, where `tip` waits for no call, that no node
/// waits which didn't before.
#[inline(always)]
fn graft(nodes: &mut Nodes, at: u32, tip: Tip)
    requires there { at < length nodes.old.items }
    requires room { 2 ≤ nodes.old.room }
    ensures grafts { Grafts nodes.old.items at tip nodes.new.items }
    ensures asked { nodes.new.asked ≡ nodes.old.asked }
    ensures len { length nodes.new.items ≡ length nodes.old.items + 2 }
    ensures calls { waits (AtLeaf tip) ≡ false → NoMoreWait nodes.old.items nodes.new.items }
    ensures sides { NoNewSides (length nodes.old.items) nodes.old.items nodes.new.items }
    ensures names { Renames (λ n i. (name_of (AtLeaf tip) ≡ Some n) × (i ≡ length nodes.old.items + 1)) nodes.old.items nodes.new.items }
{
    let parent = nodes.node_at(at as usize).parent;
    let both = nodes.next_number();
    // The right part of the `|` is the node that is pushed next.
    nodes.push_within(Node {
        kind: Kind::Two(Double::Both, at, both + 1),
        parent,
    });
    nodes.push_within(Node {
        kind: Kind::Leaf(tip),
        parent: both,
    });
    // In the node above, the `|` takes the place of node `at`, which is under the `|` from now on.
    nodes.lift(at, both);
}

impl Marked {
    /// The entry `send S A V`: token `s`, which stands on the value `v`, ends, and token `a` is on a copy of the right side of the `>x>` that takes
    /// `v`, in a new scope where x is `v`. The errors: Cancel where a cancel is due, Mark where there is no token `s`, Form where it doesn't stand on
    /// `v` or no `>x>` takes `v`, Number where `a` isn't the next mark, and Memory. `Enters` promises that the entry leads from the old state to the
    /// new one. After an error nothing has changed, and the error is Memory or names a condition that the entry breaks.
    pub(crate) fn send(
        &mut self,
        program: &Program,
        s: u64,
        a: u64,
        v: Value,
    ) -> Result<(), RuleFault>
        ensures done { IfOk result (λ _. Enters (code program.now) (entry.Send s a v) self.old self.new) }
        ensures refused { OnErr result (self.new ≡ self.old) }
        ensures reason { IfErr result (λ r. (t : Table) → IsRightlyRefused program.now t (entry.Send s a v) self.old r) }
    {
        // `bearer` says where token `s` stands: `at` is its node in the marked term, and `parent` the node above. The token has to stand on the value
        // `v`.
        let bearer = self.bearer(program, s, v)?;
        // `way_up` goes up from the token's node to what takes its publication. The node is a part of the term, so the answer isn't None.
        let Some(taker) = way_up(&self.nodes, bearer.at as usize) else {
            return Err(RuleFault::Form);
        };
        // `Fed` means that a `>x>` takes it. Refused where a pruning takes it, or nothing does.
        let Taker::Fed(at) = taker else {
            return Err(RuleFault::Form);
        };
        // `at` is the node of the `>x>`, so the next two don't refuse. It keeps x, its right side g, which is a node of the program, and the scope of
        // g.
        let Kind::One(single, _) = self.nodes.node_at(at as usize).kind else {
            return Err(RuleFault::Form);
        };
        let Single::Feeds(x, g, outer) = single else {
            return Err(RuleFault::Form);
        };
        self.expect_mark(a)?;
        // Memory for what is added below comes first, so that nothing fails once the term has changed.
        reserve(&mut self.nodes, &mut self.flags, &mut self.marks).map_err(|_| RuleFault::Memory)?;
        reserve_scope(&mut self.scopes).map_err(|_| RuleFault::Memory)?;
        // What is left of the token's node is a `stop` without a token.
        self.nodes.write_node(
            bearer.at as usize,
            Node {
                kind: Kind::Leaf(Tip::Ended),
                parent: bearer.parent,
            },
        );
        // Each otherwise between the token and the `>x>` loses its right side.
        rise(&mut self.nodes, bearer.at);
        let scope = Scope {
            name: x,
            bound: Bound::Is(v),
            outer,
        };
        push_within(&mut self.scopes, StoredScope::new(scope));
        // `graft` gives the `|` this number, and the copy of the right side the next one.
        let both = self.nodes.next_number();
        graft(
            &mut self.nodes,
            at,
            Tip::Token(a, g, scope_count(&self.scopes)),
        );
        // Token `a` is on the copy of the right side.
        push_within(&mut self.marks, both + 1);
        // The `|` hasn't halted before `settle`, since the token that publishes is below it.
        push_flag(&mut self.flags, &mut self.candidates, both, false);
        // The copy may have halted from the start, as a `stop` has.
        let halted = self.halts.at(g as usize);
        push_flag(&mut self.flags, &mut self.candidates, both + 1, halted);
        // The token's node has halted, and what is above it may have halted by that.
        settle(
            &self.nodes,
            &mut self.flags,
            &mut self.candidates,
            bearer.at,
            true,
        );
        Ok(())
    }
}
