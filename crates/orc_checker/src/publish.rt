//! The entry `publish`: a publication that nothing takes, so that the whole program publishes it.
//!
//! The *marked term* is what is left of the program's term after the entries before, as numbered nodes (`nodes`); a token's number is its *mark*.
//! `flags` says of each node whether it has halted. `settle` sets the flag of a node that has halted, and of those above that halt with it; sides
//! among them become `candidates`, which the search for halted sides looks at.
//!
//! In contracts `Enters` says that the entry leads from the old state to the new one, and `IsRightlyRefused` that the fault is Memory or names a
//! condition that the entry breaks.

ghost use Rattle.std.specs.Prelude.{◌≡◌, IfErr, IfOk, OnErr};
ghost use Rattle.orc_rules.specs.Nodes.{code};
ghost use Rattle.orc_rules.specs.Sites.{Table};
ghost use Rattle.orc_checker.specs.Checker.{Enters};
ghost use Rattle.orc_checker.specs.Refusing.{IsRightlyRefused};
ghost use Rattle.orc_rules.specs.declared.entry.Entry.TheVariants as entry;

use crate::marked::Marked;
use orc_rules::entry::RuleFault;
use orc_rules::program::Program;
use orc_rules::value::Value;
use orc_term::arena::{Kind, Node, Tip};
use orc_term::flags::settle;
use orc_term::walk::{Taker, rise, way_up};

impl Marked {
    /// The entry `publish S V`: token `s`, the one with that mark, which stands on the value `v`, ends. The errors: Cancel where a cancel is due,
    /// Mark where there is no token `s`, Form where it doesn't stand on `v`, or a `>x>` or a pruning takes its publication. `Enters` promises that
    /// the entry leads from the old state to the new one. After an error nothing has changed, and the error is Memory or names a condition that the
    /// entry breaks.
    pub(crate) fn publish(&mut self, program: &Program, s: u64, v: Value) -> Result<(), RuleFault>
        ensures done { IfOk result (λ _. Enters (code program.now) (entry.Publish s v) self.old self.new) }
        ensures refused { OnErr result (self.new ≡ self.old) }
        ensures reason { IfErr result (λ r. (t : Table) → IsRightlyRefused program.now t (entry.Publish s v) self.old r) }
    {
        // `bearer` says where token `s` stands: `at` is its node in the marked term, and `parent` the node above. The token has to stand on the value
        // `v`.
        let bearer = self.bearer(program, s, v)?;
        // `way_up` goes up from the token's node to what takes its publication. The node is a part of the term, so the answer isn't None.
        let Some(taker) = way_up(&self.nodes, bearer.at as usize) else {
            return Err(RuleFault::Form);
        };
        // `Whole` means that nothing takes it, so that the whole program publishes it. Refused where a `>x>` or a pruning takes it.
        let Taker::Whole = taker else {
            return Err(RuleFault::Form);
        };
        // What is left of the token's node is a `stop` without a token.
        self.nodes.write_node(
            bearer.at as usize,
            Node {
                kind: Kind::Leaf(Tip::Ended),
                parent: bearer.parent,
            },
        );
        // A `;` whose left side publishes never starts its right side: `rise` takes the right side from each `;` between the token and the top.
        rise(&mut self.nodes, bearer.at);
        // The token's node has halted, and what is above it may have halted by that.
        settle(
            &self.nodes,
            &mut self.flags,
            &mut self.candidates,
            bearer.at,
            true,
        );
        Ok(())
    }
}
