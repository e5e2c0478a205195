//! The entries `open`, `bind` and `lost`: a pruning is opened, and its cell gets a value or never will.
//!
//! The *marked term* is what is left of the program's term after the entries before, as numbered nodes (`nodes`); a token's number is its *mark*.
//! `flags` says of each node whether it has halted. `settle` sets the flag of a node that has halted, and of those above that halt with it; sides
//! among them become `candidates`, which the search for halted sides looks at. An *otherwise* is an entered `f ; g`. A *cell* stands for the x of an
//! opened `f <x< g`: it is open at first, and then bound to a value, or lost (void). A *scope* says what names mean. A *cancel* is the entry which
//! says that a bind has dropped a pending call.
//!
//! In contracts `Enters` and `Applies` say that the entry leads from the old state to the new one, and `IsRightlyRefused` that the fault is Memory or
//! names a condition that the entry breaks. `at nodes p i k` says that node i is of the kind k and below node p, and `NoPruning` that no node is the
//! pruning.

ghost use Rattle.std.specs.Prelude.{◌≡◌, ◌+◌, ◌<◌, ◌≤◌, ◌^◌, [], length, reverse, slice_get, slice_set, true, false, vec_len, vec_capacity, IfOk, IfErr, IfSome, IfNone, OnErr};
ghost use Rattle.orc_rules.specs.Nodes.{code};
ghost use Rattle.orc_rules.specs.Sites.{Table};
ghost use Rattle.orc_checker.specs.Checker.{Applies, Enters};
ghost use Rattle.orc_term.specs.Dropping.{calls_at, AreNodesOf, AreRising};
ghost use Rattle.orc_term.specs.Arena.{at};
ghost use Rattle.orc_checker.specs.Refusing.{IsRightlyRefused, Lacks, NoPruning};
ghost use Rattle.orc_env.specs.declared.names.Bound.TheVariants.{Cell as IsCell};
ghost use Rattle.orc_term.specs.declared.arena.Double.TheVariants.{Side as IsSide};
ghost use Rattle.orc_term.specs.declared.arena.Kind.TheVariants.{Two as AtTwo};
ghost use Rattle.orc_rules.specs.declared.entry.Entry.TheVariants as entry;
ghost use Rattle.orc_rules.specs.declared.entry.RuleFault.TheVariants as reason;

use crate::lookup::{node_by, pruning_with};
use crate::marked::{Marked, Spot, expect_after, token_node};
use orc_env::{Bound, Scope, StoredScope};
use orc_rules::entry::RuleFault;
use orc_rules::program::{Program, TermNode};
use orc_rules::value::Value;
use orc_term::arena::{Double, Kind, Node, Single};
use orc_term::flags::{both, flag_at, push_flag, settle};
use orc_term::room::{fits, push_within, reserve_numbered, reserve_one};
use orc_term::side::{drop_nodes, falling_calls, nodes_of};
use orc_term::walk::{Taker, way_up};
use std::alloc::AllocError;

/// Where a pruning (`f <x< g`, opened) stands; all fields are numbers of nodes of the marked term.
#[derive(Clone, Copy)]
pub(crate) struct Pruning {
    /// The pruning itself.
    pub at: u32,
    /// The node above it.
    pub parent: u32,
    /// Its left side.
    pub left: u32,
    /// Its right side.
    pub right: u32,
}

/// Reserves memory for one more scope (a name with its meaning, behind an earlier scope), whose number has the 32 bits in which nodes keep it. The
/// error is refused memory, or that 32 bits are too few.
pub(crate) fn reserve_scope(scopes: &mut Vec<StoredScope>) -> Result<(), AllocError>
    ensures items { scopes.new.items ≡ scopes.old.items }
    ensures room { IfOk result (λ _. vec_len scopes.new < vec_capacity scopes.new) }
    ensures number { IfOk result (λ _. vec_len scopes.new + 1 < 2 ^ 32) }
{
    // Scope 0 has no record, so the new scope's number is one more than there are records.
    fits(scopes.len() + 1)?;
    reserve_one(scopes)
}

/// Reserves memory for one more scope and one more cell with its pruning. The error is refused memory, or a scope's number of over 32 bits.
fn reserve_cell(
    scopes: &mut Vec<StoredScope>,
    cells: &mut Vec<Bound>,
    prunings: &mut Vec<u32>,
) -> Result<(), AllocError>
    ensures scopes { scopes.new.items ≡ scopes.old.items }
    ensures cells { cells.new.items ≡ cells.old.items }
    ensures prunings { prunings.new.items ≡ prunings.old.items }
    ensures room { IfOk result (λ _. (vec_len scopes.new < vec_capacity scopes.new) × (vec_len cells.new < vec_capacity cells.new) × (vec_len prunings.new < vec_capacity prunings.new)) }
    ensures number { IfOk result (λ _. vec_len scopes.new + 1 < 2 ^ 32) }
{
    reserve_scope(scopes)?;
    reserve_one(cells)?;
    reserve_one(prunings)?;
    Ok(())
}

/// How many scopes have a record, which is the number of the last one: scope 0, that of the program, has none.
pub(crate) fn scope_count(scopes: &Vec<StoredScope>) -> u32
    requires { vec_len scopes.now < 2 ^ 32 }
    ensures { result ≡ length scopes.now.items }
{
    scopes.len() as u32
}

/// Writes into the table `cells` what has become of cell `c`: a value, or void if it was lost. If `c` is over the last cell's number nothing changes.
fn bind_cell(cells: &mut Vec<Bound>, c: u64, bound: Bound)
    ensures { cells.new.items ≡ slice_set cells.old.items c bound }
{
    if let Some(slot) = cells.get_mut(c as usize) {
        *slot = bound;
    }
}

impl Marked {
    /// Tests that `c`, the cell of a new pruning, is the next cell. The error is Number: `c` is another number.
    fn expect_cell(&self, c: u64) -> Result<(), RuleFault>
        ensures next { IfOk result (λ _. c ≡ length self.now.cells) }
        ensures refused { IfErr result (λ r. (r ≡ reason.Number) × (c ≡ length self.now.cells → ⊥)) }
    {
        // `cells` has an item for number 0 too, which is no cell, so its length is the next cell.
        if c == self.cells.len() as u64 {
            Ok(())
        } else {
            Err(RuleFault::Number)
        }
    }

    /// The entry `open S C A B`: token `s` on `f <x< g` gives way to token `a` on f and token `b` on g, and x is cell `c` in f, by a new scope. The
    /// errors: Cancel where a cancel is due, Mark where there is no token `s`, Form where it isn't on a `<x<`, Number where `c`, `a` or `b` isn't the
    /// next one, and Memory. `Enters` promises that the entry leads from the old state to the new one. After an error nothing has changed, and the
    /// error is Memory or names a condition that the entry breaks.
    pub(crate) fn open(
        &mut self,
        program: &Program,
        s: u64,
        c: u64,
        a: u64,
        b: u64,
    ) -> Result<(), RuleFault>
        ensures done { IfOk result (λ _. Enters (code program.now) (entry.Open s c a b) self.old self.new) }
        ensures refused { OnErr result (self.new ≡ self.old) }
        ensures reason { IfErr result (λ r. (t : Table) → IsRightlyRefused program.now t (entry.Open s c a b) self.old r) }
    {
        // Where token `s` stands: `at` is its node in the marked term and `parent` the node above; `node` is the node of the program on which the
        // token stands, read in `scope`.
        let spot = self.spot(s)?;
        let TermNode::Prune(f, x, g) = program.node(spot.node as usize) else {
            return Err(RuleFault::Form);
        };
        self.expect_cell(c)?;
        self.expect_mark(a)?;
        expect_after(a, b)?;
        // Memory for the scope and the cell, and then for two nodes and two marks. f and g have to fit the 32 bits in which new nodes keep them.
        reserve_cell(&mut self.scopes, &mut self.cells, &mut self.prunings).map_err(
            |_| RuleFault::Memory,
        )?;
        reserve_numbered(&mut self.nodes, &mut self.flags, &mut self.marks, f, g).map_err(
            |_| RuleFault::Memory,
        )?;
        // The new nodes are n, for the token on f, and n + 1, for that on g.
        let n = self.nodes.next_number();
        push_within(
            &mut self.scopes,
            StoredScope::new(Scope {
                name: x,
                bound: Bound::Cell(c),
                outer: spot.scope,
            }),
        );
        // Where the token on f stands: in the new scope.
        let inner = Spot {
            scope: scope_count(&self.scopes),
            ..spot
        };
        // Until the cell is bound or lost its item is its own number.
        push_within(&mut self.cells, Bound::Cell(c));
        self.nodes.write_node(
            spot.at as usize,
            Node {
                kind: Kind::Two(Double::Side(c), n, n + 1),
                parent: spot.parent,
            },
        );
        // The left side alone is inside the new scope.
        self.nodes.push_within(token_node(a, f as u32, inner));
        self.nodes.push_within(token_node(b, g as u32, spot));
        // The nodes on which the marks `a` and `b` are.
        push_within(&mut self.marks, n);
        push_within(&mut self.marks, n + 1);
        // `halts` says of each node of the program whether its term has halted from the start, as a `stop` has. These are the flags of the two new
        // nodes.
        let left = self.halts.at(f);
        let right = self.halts.at(g);
        push_flag(&mut self.flags, &mut self.candidates, n, left);
        push_flag(&mut self.flags, &mut self.candidates, n + 1, right);
        // A `<x<` that isn't opened hasn't halted. Once it is opened, it has halted if both sides have.
        settle(
            &self.nodes,
            &mut self.flags,
            &mut self.candidates,
            spot.at,
            both(left, right),
        );
        // The pruning of cell `c` is on the token's node.
        push_within(&mut self.prunings, spot.at);
        Ok(())
    }

    /// Tests that cell `c` is open: neither bound nor lost. The error is Mark, which means that there is no such cell, or that it is bound or lost.
    fn unbound(&self, c: u64) -> Result<(), RuleFault>
        ensures open { IfOk result (λ _. slice_get self.now.cells c ≡ Some (IsCell c)) }
        ensures refused { IfErr result (λ r. (r ≡ reason.Mark) × (slice_get self.now.cells c ≡ Some (IsCell c) → ⊥)) }
    {
        match self.cells.get(c as usize) {
            // An open cell's item is its own number. The item of number 0 is void, since there is no cell 0.
            Some(Bound::Cell(d)) if *d == c => Ok(()),
            _ => Err(RuleFault::Mark),
        }
    }

    /// What leaves the term when the right side at node `right` is dropped: its nodes, and the calls that pend in it, the greatest first. No calls
    /// where the journal doesn't record cancels. The error is Memory.
    fn leaving(&self, right: u32) -> Result<(Vec<u32>, Vec<u64>), RuleFault>
        ensures nodes { IfOk result (λ r. AreNodesOf self.now.nodes right r.0.items) }
        ensures recorded { IfOk result (λ r. self.now.rest.cancels ≡ true → AreRising (calls_at self.now.nodes r.0.items) (reverse r.1.items)) }
        ensures not_recorded { IfOk result (λ r. self.now.rest.cancels ≡ false → r.1.items ≡ []) }
        ensures refused { IfErr result (λ r. r ≡ reason.Memory) }
    {
        let alloc = self.nodes.allocator();
        let side = nodes_of(alloc, &self.nodes, right).map_err(|_| RuleFault::Memory)?;
        if self.rest.cancels {
            let calls = falling_calls(alloc, &self.nodes, &side).map_err(|_| RuleFault::Memory)?;
            Ok((side, calls))
        } else {
            Ok((side, Vec::new(alloc)))
        }
    }

    /// `bind S C V`: token `s` publishes `v` from the right side of cell `c`'s pruning. The cell becomes `v`, the right side is dropped, and, where
    /// the journal records cancels, those of its calls are due. The errors: Cancel where a cancel is due, Mark where there is no token `s` or no open
    /// cell `c`, Form where the token doesn't stand on `v` or anything else takes its publication, and Memory. `Applies` promises that the entry
    /// leads from the old state to the new one. After an error nothing has changed, and the error is Memory or names a condition that the entry
    /// breaks.
    pub(crate) fn bind(
        &mut self,
        program: &Program,
        s: u64,
        c: u64,
        v: Value,
    ) -> Result<(), RuleFault>
        ensures done { IfOk result (λ _. (t : Table) → Applies program.now t (entry.Bind s c v) self.old self.new) }
        ensures refused { OnErr result (self.new ≡ self.old) }
        ensures reason { IfErr result (λ r. (t : Table) → IsRightlyRefused program.now t (entry.Bind s c v) self.old r) }
    {
        // `bearer` says where token `s` stands: `at` is its node in the marked term. The token has to stand on the value `v`.
        let bearer = self.bearer(program, s, v)?;
        self.unbound(c)?;
        // `way_up` goes up from the token's node to what takes its publication. The node is a part of the term, so the answer isn't None.
        let Some(taker) = way_up(&self.nodes, bearer.at as usize) else {
            return Err(RuleFault::Form);
        };
        // Refused where a `>x>` takes the publication, or nothing does.
        let Taker::Bound(cell, at) = taker else {
            return Err(RuleFault::Form);
        };
        // The publication binds another cell.
        if cell != c {
            return Err(RuleFault::Form);
        }
        let pruning = self.nodes.node_at(at as usize);
        // The taker names a pruning, so this doesn't refuse.
        let Kind::Two(_, left, right) = pruning.kind else {
            return Err(RuleFault::Form);
        };
        // The token is in the right side, and so are the otherwises that it publishes through: they are dropped with it.
        let (side, calls) = self.leaving(right)?;
        // The pruning's node means just its left side from now on.
        self.nodes.write_node(
            at as usize,
            Node {
                kind: Kind::One(Single::Passed, left),
                parent: pruning.parent,
            },
        );
        drop_nodes(&mut self.nodes, &side);
        // With its token the right side hadn't halted, nor had the pruning. From now on the pruning has halted if its left side has.
        let halted = flag_at(&self.flags, left as usize);
        settle(
            &self.nodes,
            &mut self.flags,
            &mut self.candidates,
            at,
            halted,
        );
        bind_cell(&mut self.cells, c, Bound::Is(v));
        // Tokens that wait for the cell may be able to move now. Which these are isn't known, so all are asked again.
        self.nodes.forget_asked();
        // The cancels of the calls that were dropped are due now, that of the least call first. No cancel is due if the journal doesn't record them.
        self.rest.set_cancels(calls);
        Ok(())
    }

    /// Where the pruning of cell `c` stands. None if the term has no such pruning, or none any more: `NoPruning` says that no node of the term is
    /// that pruning.
    pub(crate) fn find_pruning(&self, c: u64) -> Option<Pruning>
        ensures there { IfSome result (λ o. at self.now.nodes o.parent o.at (AtTwo (IsSide c) o.left o.right)) }
        ensures missing { IfNone result (NoPruning self.now.nodes c) }
    {
        let (at, node) = node_by(&self.nodes, &self.prunings, c)?;
        // The node on which the pruning was opened may have become another one since.
        let (left, right) = pruning_with(node.kind, c)?;
        Some(Pruning {
            at,
            parent: node.parent,
            left,
            right,
        })
    }

    /// Where the pruning of cell `c` stands. The errors: Cancel where a cancel is due, Mark where there is no such pruning. `Lacks` in the contract
    /// says that the error is one of these two, with its cause.
    fn pruning(&self, c: u64) -> Result<Pruning, RuleFault>
        ensures free { IfOk result (λ _. self.now.rest.to_cancel ≡ []) }
        ensures there { IfOk result (λ o. at self.now.nodes o.parent o.at (AtTwo (IsSide c) o.left o.right)) }
        ensures refused { IfErr result (Lacks self.now (NoPruning self.now.nodes c)) }
    {
        // While a cancel is due no other entry is allowed, and Cancel is the first reason.
        if self.rest.has_cancels() {
            return Err(RuleFault::Cancel);
        }
        self.find_pruning(c).ok_or(RuleFault::Mark)
    }

    /// `lost C`: cell `c` becomes void, and the right side of its pruning is dropped. The errors: Cancel where a cancel is due, Mark where there is
    /// no such pruning or the cell is bound, Halted where the right side hasn't halted, and Memory. `program` is there for the contract alone.
    /// `Applies` promises that the entry leads from the old state to the new one. After an error nothing has changed, and the error is Memory or
    /// names a condition that the entry breaks.
    pub(crate) fn lost(&mut self, program: &Program, c: u64) -> Result<(), RuleFault>
        ensures done { IfOk result (λ _. (t : Table) → Applies program.now t (entry.Lost c) self.old self.new) }
        ensures refused { OnErr result (self.new ≡ self.old) }
        ensures reason { IfErr result (λ r. (t : Table) → IsRightlyRefused program.now t (entry.Lost c) self.old r) }
    {
        // The pruning's nodes in the marked term: the pruning itself, the node above, and both sides.
        let pruning = self.pruning(c)?;
        self.unbound(c)?;
        if !self.part_has_halted(pruning.right as usize) {
            return Err(RuleFault::Halted);
        }
        // The nodes of the right side, to be dropped below.
        let side = self.side_at(pruning.right)?;
        // The pruning's node means just its left side from now on. No flag changes: a pruning whose right side has halted has halted exactly if its
        // left side has.
        self.nodes.write_node(
            pruning.at as usize,
            Node {
                kind: Kind::One(Single::Passed, pruning.left),
                parent: pruning.parent,
            },
        );
        drop_nodes(&mut self.nodes, &side);
        bind_cell(&mut self.cells, c, Bound::Void);
        // Tokens that wait for the cell may be able to move now. Which these are isn't known, so all are asked again.
        self.nodes.forget_asked();
        Ok(())
    }
}
