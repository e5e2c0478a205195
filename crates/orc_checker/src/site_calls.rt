//! The entries `call` and `return`: calls of sites, and their answers. The *marked term* is what is left of the program's term after the entries
//! before, as numbered nodes (`nodes`); a token's number is its *mark*. `settle` flags a node that has halted, and those above that halt with it;
//! sides among them become `candidates`, which the search for halted sides looks at. `rest` has the time and the calls made, and `due` notes when
//! calls are due.
//!
//! In contracts `EntersBy` says that the entry leads from the old state to the new one, and `IsRightlyRefused` that the fault is Memory or names a
//! condition that the entry breaks. `at nodes p i k` says that node i is of the kind k and below node p, `IsCall` that call k was made and is kept
//! so, and `NoCall` that no node waits for it.

ghost use Rattle.std.specs.Prelude.{◌≡◌, ℕ, [], length, suc, IfOk, IfErr, IfSome, IfNone, OnErr};
ghost use Rattle.orc_rules.specs.Term.{Term};
ghost use Rattle.orc_rules.specs.Nodes.{code};
ghost use Rattle.orc_rules.specs.declared.entry.Entry.TheVariants as entry;
ghost use Rattle.orc_rules.specs.declared.entry.RuleFault.TheVariants as reason;
ghost use Rattle.orc_term.specs.Arena.{at};
ghost use Rattle.orc_checker.specs.Calls.{IsCall};
ghost use Rattle.orc_checker.specs.Checker.{EntersBy};
ghost use Rattle.orc_checker.specs.Refusing.{IsRightlyRefused, Lacks, NoCall};
ghost use Rattle.orc_term.specs.declared.arena.Kind.TheVariants.{Leaf as AtLeaf};
ghost use Rattle.orc_term.specs.declared.arena.Tip.TheVariants.{Waits};
ghost use Rattle.orc_rules.specs.Nodes.{Listing};

use crate::lookup::waits_with;
use crate::marked::Marked;
use crate::rest::{Called, is_due_now};
use orc_calls::due_time;
use orc_env::are_arguments;
use orc_rules::answers::Answers;
use orc_rules::entry::RuleFault;
use orc_rules::program::{Program, TermNode};
use orc_rules::value::{Answer, Args, Value};
use orc_term::arena::{Kind, Node, Tip};
use orc_term::flags::settle;
use orc_term::room::{push_within, reserve_wake};

/// A call that pends.
#[derive(Clone, Copy)]
pub(crate) struct Pending {
    /// Its node in the marked term. The time at which it was made is `called.at`.
    pub at: u32,
    /// The node of the marked term above `at`.
    pub parent: u32,
    /// What is kept of the call.
    pub called: Called,
}

impl Marked {
    /// `call S K M(args)`: token `s` on a call of the site M, whose number is `site`, gives way to call `k`, which pends. The errors: Cancel where a
    /// cancel is due, Mark where there is no token `s`, Form where it isn't on a call of `site` whose arguments have the values `args`, Number where
    /// `k` isn't the next call, and Memory. `EntersBy` promises that the entry leads from the old state to the new one. After an error nothing has
    /// changed, and the error is Memory or names a condition that the entry breaks.
    pub(crate) fn call(
        &mut self,
        program: &Program,
        answers: &Answers,
        s: u64,
        k: u64,
        site: u32,
        args: &Args,
    ) -> Result<(), RuleFault>
        ensures done { IfOk result (λ _. EntersBy answers.now.sites (code program.now) (entry.Call s k site args.now) self.old self.new) }
        ensures refused { OnErr result (self.new ≡ self.old) }
        ensures reason { IfErr result (λ r. IsRightlyRefused program.now answers.now (entry.Call s k site args.now) self.old r) }
    {
        // Where token `s` stands: `at` is its node in the marked term and `parent` the node above; `node` is the node of the program on which the
        // token stands, read in `scope`.
        let spot = self.spot(s)?;
        let TermNode::Site(named, list) = program.node(spot.node as usize) else {
            return Err(RuleFault::Form);
        };
        // The call's arguments as the program has them: values and names.
        let operands = program.operands(list);
        if named != site
            || !are_arguments(
                &self.scopes,
                &self.cells,
                operands,
                args.as_slice(),
                spot.scope as usize,
            )
        {
            return Err(RuleFault::Form);
        }
        self.expect_call(k)?;
        // With the call is stored what the table says of it.
        let called = Called {
            found: self.rest.found(answers, site, args),
            at: self.rest.time(),
            node: spot.at,
        };
        // The time at which the call is due is noted for ticks. If the next line is refused the note stays, and does no harm: `next_due` drops notes
        // of nodes that don't wait.
        self.due.note(due_time(called.found, called.at), spot.at)?;
        self.rest.add(called, answers, site, args)?;
        // No flag changes: neither the token on the call nor the call that pends has halted.
        self.nodes.write_node(
            spot.at as usize,
            Node {
                kind: Kind::Leaf(Tip::Waits(k)),
                parent: spot.parent,
            },
        );
        Ok(())
    }

    /// Tests that `k`, the number of a new call, is the next one: one more than the calls that were made. The error is Number: `k` is another number.
    fn expect_call(&self, k: u64) -> Result<(), RuleFault>
        ensures next { IfOk result (λ _. k ≡ suc (length self.now.rest.calls)) }
        ensures refused { IfErr result (λ r. (r ≡ reason.Number) × (k ≡ suc (length self.now.rest.calls) → ⊥)) }
    {
        // Calls count from 1, so call k is the next one after k - 1 calls.
        if k != 0 && k - 1 == self.rest.calls_made() as u64 {
            Ok(())
        } else {
            Err(RuleFault::Number)
        }
    }

    /// Where call `k` pends: its node in the marked term, and what is kept of it. None if there was no such call, or it has returned or been dropped
    /// with the right side of a pruning, by a `bind`.
    pub(crate) fn find_call(&self, k: u64) -> Option<Pending>
        ensures there { IfSome result (λ w. at self.now.nodes w.parent w.at (AtLeaf (Waits k))) }
        ensures call { IfSome result (λ w. IsCall self.now.rest k w.called) }
        ensures missing { IfNone result (NoCall self.now.nodes k) }
    {
        let called = self.rest.call(k)?;
        let node = self.nodes.get(called.node as usize)?;
        // The node on which the call was put may have become another one since.
        if !waits_with(node.kind, k) {
            return None;
        }
        Some(Pending {
            at: called.node,
            parent: node.parent,
            called,
        })
    }

    /// Where call `k` pends. The errors: Cancel where a cancel is due, Mark where no such call pends. `Lacks` says that the error is one of these,
    /// with its cause.
    fn pending(&self, k: u64) -> Result<Pending, RuleFault>
        ensures free { IfOk result (λ _. self.now.rest.to_cancel ≡ []) }
        ensures there { IfOk result (λ w. at self.now.nodes w.parent w.at (AtLeaf (Waits k))) }
        ensures call { IfOk result (λ w. IsCall self.now.rest k w.called) }
        ensures refused { IfErr result (Lacks self.now (NoCall self.now.nodes k)) }
    {
        // While a cancel is due no other entry is allowed, and Cancel is the first reason.
        if self.rest.has_cancels() {
            return Err(RuleFault::Cancel);
        }
        self.find_call(k).ok_or(RuleFault::Mark)
    }

    // Both returns ask when the next call is due and ignore the answer: asking drops the notes of calls that pend no more, which would otherwise stay
    // until the next tick. Only their contracts need `answers`: what the table says of a call was stored when it was made.

    /// `return K A V`: call `k` returns the value `v`, and token `a` is on it. The errors: Cancel where a cancel is due, Mark where no call `k`
    /// pends, Number where `a` isn't the next mark, Answer where the table says another answer or never, Time where the answer isn't due now, and
    /// Memory. `EntersBy` promises that the entry leads from the old state to the new one. After an error nothing has changed, and the error is
    /// Memory or names a condition that the entry breaks.
    pub(crate) fn return_value(
        &mut self,
        answers: &Answers,
        k: u64,
        a: u64,
        v: Value,
    ) -> Result<(), RuleFault>
        ensures done { IfOk result (λ _. (c : ℕ → Term) → EntersBy answers.now.sites c (entry.Return k a v) self.old self.new) }
        ensures refused { OnErr result (self.new ≡ self.old) }
        ensures reason { IfErr result (λ r. (l : Listing) → IsRightlyRefused l answers.now (entry.Return k a v) self.old r) }
    {
        // Where the call pends: `at` is its node in the marked term, `parent` the node above, and `called` has what the table said of it.
        let pending = self.pending(k)?;
        self.expect_mark(a)?;
        is_due_now(pending.called, Answer::Value(v), self.rest.time())?;
        // Memory for what is added below comes first, so that nothing fails once the term has changed.
        reserve_wake(&mut self.nodes, &mut self.marks).map_err(|_| RuleFault::Memory)?;
        // `wake` writes the node, and notes that it has a token now. No flag changes: neither the call that pends nor a token on a value has halted.
        self.nodes.wake(
            pending.at,
            Node {
                kind: Kind::Leaf(Tip::Bears(a, v)),
                parent: pending.parent,
            },
        );
        // Token `a` is on the node of the call.
        push_within(&mut self.marks, pending.at);
        // Drops the notes of calls that pend no more.
        let _due = self.rest.next_due(&self.nodes, &mut self.due);
        Ok(())
    }

    /// `return K halt`: call `k` halts, and its node becomes a `stop` without a token. The errors: Cancel where a cancel is due, Mark where no call
    /// `k` pends, Answer where the table says another answer or never, and Time where the answer isn't due now. `EntersBy` promises that the entry
    /// leads from the old state to the new one. After an error nothing has changed, and the error names a condition that the entry breaks.
    pub(crate) fn return_halt(&mut self, answers: &Answers, k: u64) -> Result<(), RuleFault>
        ensures done { IfOk result (λ _. (c : ℕ → Term) → EntersBy answers.now.sites c (entry.ReturnHalt k) self.old self.new) }
        ensures refused { OnErr result (self.new ≡ self.old) }
        ensures reason { IfErr result (λ r. (l : Listing) → IsRightlyRefused l answers.now (entry.ReturnHalt k) self.old r) }
    {
        // Where the call pends: `at` is its node in the marked term, `parent` the node above, and `called` has what the table said of it.
        let pending = self.pending(k)?;
        is_due_now(pending.called, Answer::Halt, self.rest.time())?;
        self.nodes.write_node(
            pending.at as usize,
            Node {
                kind: Kind::Leaf(Tip::Ended),
                parent: pending.parent,
            },
        );
        // The node of the call has halted, and what is above it may have halted by that.
        settle(
            &self.nodes,
            &mut self.flags,
            &mut self.candidates,
            pending.at,
            true,
        );
        // Drops the notes of calls that pend no more.
        let _due = self.rest.next_due(&self.nodes, &mut self.due);
        Ok(())
    }
}
