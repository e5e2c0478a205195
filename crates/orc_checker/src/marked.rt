//! A marked term and what goes with it; how an entry is applied, and where the token is that it names. The term is what is left of the program's term
//! after the first entries of a journal, kept as numbered nodes. A *token* is on each part that can go on, and its number is a *mark*. A *scope* says
//! what names mean, and a *cell* is the variable of an opened `f <x< g`. The `Tip` of a node without parts says what is on it: a token on a node of
//! the program (`Token`), one on the answer of a call (`Bears`), or none.
//!
//! In contracts `Begins` and `Applies` say that the state is that of the journal's beginning, and that the entry leads from the old state to the new
//! one; `IsRightlyRefused` that the fault is Memory or names a condition that the entry breaks. `at nodes p i k` says that node i is of the kind k
//! and below node p, `Carries s` that a tip has token s, `NoToken` that no node has it, and `living_kind` 0 of a node that was dropped. `Lacks`,
//! `LacksSpot` and `LacksBearer` say that the error is one that the comment names, with its cause; `BearsValue` and `BearsOther` that the token
//! stands on this value, or doesn't; `Means` what an operand means in a scope, if each scope extends an earlier one (`AreOrdered`). `Presumes` asks
//! of a `def` that the program is closed.

ghost use Rattle.std.specs.Prelude.{◌≡◌, ℕ, suc, [], length, Some, IfOk, IfErr, IfSome, IfNone, OnErr};
ghost use Rattle.orc_rules.specs.Journal.{begin};
ghost use Rattle.orc_rules.specs.Nodes.{code, source};
ghost use Rattle.orc_env.specs.Names.{AreOrdered, Means};
ghost use Rattle.orc_env.specs.declared.names.Bound.TheVariants.{Is as IsValue};
ghost use Rattle.orc_term.specs.Arena.{at, living_kind};
ghost use Rattle.orc_checker.specs.Checker.{Applies, Begins};
ghost use Rattle.orc_term.specs.Bearers.{BearsOther, BearsValue, Carries};
ghost use Rattle.orc_checker.specs.Refusing.{IsRightlyRefused, Lacks, LacksBearer, LacksSpot, NoToken, Presumes};
ghost use Rattle.orc_rules.specs.declared.value.Value.{Value as TheValue};
ghost use Rattle.orc_rules.specs.declared.entry.RuleFault.TheVariants as reason;
ghost use Rattle.orc_term.specs.declared.arena.Kind.TheVariants.{Leaf as AtLeaf};
ghost use Rattle.orc_term.specs.declared.arena.Tip.TheVariants.{Token as IsToken};

use crate::due::Due;
use crate::halts::Halts;
use crate::lookup::{node_by, tip_with};
use crate::rest::Rest;
use orc_env::{Bound, StoredScope, meaning};
use orc_rules::answers::Answers;
use orc_rules::entry::{Entry, RuleFault};
use orc_rules::param::Operand;
use orc_rules::program::{Program, TermNode};
use orc_rules::value::Value;
use orc_term::arena::{Kind, Node, Single, Tip};
use orc_term::candidates::Candidates;
use orc_term::nodes::Nodes;
use orc_term::room::{fits, push_within};
use std::alloc::{AllocError, Global};
use std::marker::Model;

/// A marked term, with what its journal has used up so far: the checker's state at one place of a journal.
pub struct Marked {
    /// The term. Nodes that were dropped keep their numbers.
    pub(crate) nodes: Nodes,
    /// Scope n is the n-th record; scope 0 has no names.
    pub(crate) scopes: Vec<StoredScope>,
    /// What has become of each cell, by its number; a cell that is neither bound nor lost has its own number here. There is no cell 0.
    pub(crate) cells: Vec<Bound>,
    /// For each mark, the number of a token, the node of the marked term on which it was put, even if the token is gone; there is no mark 0.
    pub(crate) marks: Vec<u32>,
    /// Which terms of the program have halted, by the program's nodes.
    pub(crate) halts: Halts,
    /// Which parts of the marked term have halted, by its nodes.
    pub(crate) flags: Vec<bool>,
    /// The node on which each cell's pruning was opened; there is no cell 0.
    pub(crate) prunings: Vec<u32>,
    /// The time, the calls made, and the cancels due.
    pub(crate) rest: Rest,
    /// The sides that may have halted, so that what asks for them looks at none of the others.
    pub(crate) candidates: Candidates,
    /// The nodes that wait for calls which are due some day, so that a tick looks at none of the others.
    pub(crate) due: Due,
}

// Written out, so that a caller's proof sees one call and not the drop of each field.
impl Drop for Marked {
    fn drop(self) {
        let Marked {
            nodes: _,
            scopes: _,
            cells: _,
            marks: _,
            halts: _,
            flags: _,
            prunings: _,
            rest: _,
            candidates: _,
            due: _,
        } = self;
    }
}

// The invariant: each pending call that is ever due is noted in `due`, each side that has halted is a candidate, and each node that has a name is
// where `marks`, `prunings` and the calls say. Contracts don't see `prunings`, `candidates` and `due`.
impl Model for Marked {
    ghost use Rattle.std.specs.Prelude.{◌≡◌, length};
    ghost use Rattle.orc_checker.specs.Checker.{State};
    ghost use Rattle.orc_checker.specs.Index.{AreIndexed};
    ghost use Rattle.orc_checker.specs.NextDue.{AreNoted};
    ghost use Rattle.orc_term.specs.Sides.{AreKnown};

    ghost Value = { State };

    ghost view = { λ m. record { nodes = m.nodes.items; scopes = m.scopes.items; cells = m.cells.items; marks = m.marks.items; halts = m.halts; flags = m.flags.items; asked = m.nodes.asked; rest = m.rest } };

    ghost invariant = { λ m. AreNoted m.nodes.items m.rest.calls m.due × AreKnown m.nodes.items m.flags.items m.candidates × AreIndexed m.nodes.items (record { marks = m.marks.items; prunings = m.prunings.items; calls = m.rest.calls; cells = m.cells.items }) × (length m.prunings.items ≡ length m.cells.items) };
}

/// Where a token stands that is on a node of the program, and not on a value that a call gave.
#[derive(Clone, Copy)]
pub(crate) struct Spot {
    /// The token's node in the marked term.
    pub at: u32,
    /// The node of the marked term above `at`.
    pub parent: u32,
    /// The node of the program on which the token stands.
    pub node: u32,
    /// The scope that says what the names mean there.
    pub scope: u32,
}

/// Where a token stands, on a node of the program or on a value that a call gave.
#[derive(Clone, Copy)]
pub(crate) struct Holder {
    /// The token's node in the marked term.
    pub at: u32,
    /// The node of the marked term above `at`.
    pub parent: u32,
    /// What the token stands on: `Token` or `Bears`.
    pub tip: Tip,
}

/// A new node of the marked term below that of `spot`: token `mark`, which stands on node `node` of the program, in the scope of `spot`.
#[inline(always)]
pub(crate) fn token_node(mark: u64, node: u32, spot: Spot) -> Node
    ensures { result ≡ record { kind = AtLeaf (IsToken mark node spot.scope); parent = spot.at } }
{
    Node {
        kind: Kind::Leaf(Tip::Token(mark, node, spot.scope)),
        parent: spot.at,
    }
}

/// Tests the second new mark of an entry, `b`: it has to be the one after the first, `a`. The error is Number: `b` is another number.
#[inline(always)]
pub(crate) fn expect_after(a: u64, b: u64) -> Result<(), RuleFault>
    ensures next { IfOk result (λ _. b ≡ suc a) }
    ensures refused { IfErr result (λ r. (r ≡ reason.Number) × (b ≡ suc a → ⊥)) }
{
    // Not `a + 1`, which may overflow: a journal has any numbers of 64 bits.
    if b != 0 && b - 1 == a {
        Ok(())
    } else {
        Err(RuleFault::Number)
    }
}

/// The value that an operand is in scope `scope`, where `cells` says what has become of each cell. None if it is void, a cell that isn't bound, or a
/// name that the scope doesn't have.
#[inline(always)]
fn value_of(
    scopes: &[StoredScope],
    cells: &[Bound],
    operand: Operand,
    scope: usize,
) -> Option<Value>
    ensures value { IfSome result (λ v. Means cells.now scopes.now scope operand (IsValue v)) }
    ensures other { (v : TheValue) → (result ≡ Some v → ⊥) → Means cells.now scopes.now scope operand (IsValue v) → AreOrdered scopes.now → ⊥ }
{
    match meaning(scopes, cells, operand, scope) {
        Some(Bound::Is(v)) => Some(v),
        _ => None,
    }
}

impl Marked {
    /// The beginning of a run, at time 0: token 1 is on the whole of the program's term. `cancels` says whether the journal records the cancels of a
    /// bind. The error is refused memory.
    pub fn new(alloc: Global, program: &Program, cancels: bool) -> Result<Self, AllocError>
        ensures { IfOk result (λ m. Begins program.now cancels m (begin (source program.now))) }
    {
        // Each list gets room for all that is added below, so that nothing fails once the first node is there.
        let mut nodes = Nodes::new(alloc)?;
        let mut marks = Vec::with_capacity(alloc, 2)?;
        let mut cells = Vec::with_capacity(alloc, 1)?;
        let mut flags = Vec::with_capacity(alloc, 2)?;
        let mut prunings = Vec::with_capacity(alloc, 1)?;
        let halts = Halts::new(alloc, program)?;
        let root = program.source();
        // A token keeps a node of the program in 32 bits, so the root's number has to fit. If it doesn't, that counts as refused memory.
        fits(root)?;
        let halted = halts.at(root);
        // Node 0 is above the term, whose root is node 1, so that every node of the term has a parent.
        nodes.push_within(Node {
            kind: Kind::One(Single::Passed, 1),
            parent: 0,
        });
        nodes.push_within(Node {
            kind: Kind::Leaf(Tip::Token(1, root as u32, 0)),
            parent: 0,
        });
        // Mark 1 is on node 1, and node 0 has halted exactly if node 1 has.
        // Marks and cells count from 1, so that what is at 0 in a list stands for none.
        push_within(&mut marks, 0);
        push_within(&mut marks, 1);
        push_within(&mut cells, Bound::Void);
        push_within(&mut flags, halted);
        push_within(&mut flags, halted);
        push_within(&mut prunings, 0);
        Ok(Marked {
            nodes,
            scopes: Vec::new(alloc),
            cells,
            marks,
            halts,
            flags,
            prunings,
            rest: Rest::new(alloc, cancels),
            candidates: Candidates::new(alloc),
            due: Due::new(alloc),
        })
    }

    /// A copy of the marked term and of all that goes with it, on which an entry can be tried. The error is refused memory.
    pub fn copy(&self, alloc: Global) -> Result<Self, AllocError>
        ensures { IfOk result (λ m. m ≡ self.now) }
    {
        let nodes = self.nodes.copy(alloc)?;
        let scopes = Vec::from_slice(alloc, &self.scopes)?;
        let cells = Vec::from_slice(alloc, &self.cells)?;
        let marks = Vec::from_slice(alloc, &self.marks)?;
        let flags = Vec::from_slice(alloc, &self.flags)?;
        let prunings = Vec::from_slice(alloc, &self.prunings)?;
        let halts = self.halts.copy(alloc)?;
        let rest = self.rest.copy(alloc)?;
        let candidates = self.candidates.copy(alloc)?;
        let due = self.due.copy()?;
        Ok(Marked {
            nodes,
            scopes,
            cells,
            marks,
            halts,
            flags,
            prunings,
            rest,
            candidates,
            due,
        })
    }

    /// Applies one entry. `answers` is the table of what sites answer. After a RuleFault nothing has changed; each fault but Memory names a condition
    /// that the entry breaks, not always the first such one. Of a `def` this is promised only in a closed program, whose names are all bound and
    /// whose calls fit their definitions, as each checked program is.
    pub fn step(
        &mut self,
        program: &Program,
        answers: &Answers,
        entry: &Entry,
    ) -> Result<(), RuleFault>
        ensures done { IfOk result (λ _. Applies program.now answers.now entry.now self.old self.new) }
        ensures refused { OnErr result (self.new ≡ self.old) }
        ensures reason { IfErr result (λ r. Presumes program.now entry.now → IsRightlyRefused program.now answers.now entry.now self.old r) }
    {
        match entry {
            Entry::End(s) => self.end(program, *s),
            Entry::Fork(s, a, b) => self.fork(program, *s, *a, *b),
            Entry::Seq(s, a) => self.seq(program, *s, *a),
            Entry::Other(s, a) => self.other(program, *s, *a),
            Entry::Void(s) => self.void(program, *s),
            Entry::Open(s, c, a, b) => self.open(program, *s, *c, *a, *b),
            Entry::Send(s, a, v) => self.send(program, *s, *a, *v),
            Entry::Call(s, k, site, args) => self.call(program, answers, *s, *k, *site, args),
            Entry::Return(k, a, v) => self.return_value(answers, *k, *a, *v),
            Entry::ReturnHalt(k) => self.return_halt(answers, *k),
            Entry::Bind(s, c, v) => self.bind(program, *s, *c, *v),
            Entry::Lost(c) => self.lost(program, *c),
            Entry::Right(s, a) => self.right(*s, *a),
            Entry::Publish(s, v) => self.publish(program, *s, *v),
            Entry::Cancel(k) => self.cancel(program, *k),
            Entry::Tick(t) => self.tick(program, *t),
            Entry::Def(s, a) => self.def(program, *s, *a),
        }
    }

    /// Where the token with mark `s` stands: on a node of the program, or on a value that a call gave. None if there is no such token: no node was
    /// given this mark, or its node has become another one.
    #[inline(always)]
    fn token(&self, s: u64) -> Option<Holder>
        ensures there { IfSome result (λ t. at self.now.nodes t.parent t.at (AtLeaf t.tip)) }
        ensures carries { IfSome result (λ t. Carries s t.tip) }
        ensures missing { IfNone result (NoToken self.now.nodes s) }
    {
        let (at, node) = node_by(&self.nodes, &self.marks, s)?;
        // The node on which mark `s` was put may have become another one since.
        let tip = tip_with(node.kind, s)?;
        Some(Holder {
            at,
            parent: node.parent,
            tip,
        })
    }

    /// Where the token with mark `s` stands: on a node of the program, or on a value that a call gave. The errors: Cancel where a cancel is due, so
    /// that the next entry has to be a `cancel`; Mark where there is no such token. `Lacks` says that the error is one of these, with its cause.
    #[inline(always)]
    pub(crate) fn holder(&self, s: u64) -> Result<Holder, RuleFault>
        ensures free { IfOk result (λ _. self.now.rest.to_cancel ≡ []) }
        ensures there { IfOk result (λ t. at self.now.nodes t.parent t.at (AtLeaf t.tip)) }
        ensures carries { IfOk result (λ t. Carries s t.tip) }
        ensures refused { IfErr result (Lacks self.now (NoToken self.now.nodes s)) }
    {
        // While a cancel is due no other entry is allowed, and Cancel is the first reason.
        if self.rest.has_cancels() {
            return Err(RuleFault::Cancel);
        }
        self.token(s).ok_or(RuleFault::Mark)
    }

    /// Where the token with mark `s` stands, if it is on a node of the program. The errors: Cancel where a cancel is due, Mark where there is no such
    /// token, Form where it stands on a value that a call gave.
    #[inline(always)]
    pub(crate) fn spot(&self, s: u64) -> Result<Spot, RuleFault>
        ensures free { IfOk result (λ _. self.now.rest.to_cancel ≡ []) }
        ensures there { IfOk result (λ t. at self.now.nodes t.parent t.at (AtLeaf (IsToken s t.node t.scope))) }
        ensures refused { IfErr result (LacksSpot self.now s) }
    {
        let holder = self.holder(s)?;
        match holder.tip {
            Tip::Token(_, node, scope) => Ok(Spot {
                at: holder.at,
                parent: holder.parent,
                node,
                scope,
            }),
            // The tip is `Bears`: a holder has no other.
            _ => Err(RuleFault::Form),
        }
    }

    /// Where the token with mark `s` stands, if it is on the value `v`. The errors: Cancel where a cancel is due, Mark where there is no such token,
    /// Form where it stands on anything else.
    #[inline(always)]
    pub(crate) fn bearer(&self, program: &Program, s: u64, v: Value) -> Result<Holder, RuleFault>
        ensures free { IfOk result (λ _. self.now.rest.to_cancel ≡ []) }
        ensures there { IfOk result (λ t. at self.now.nodes t.parent t.at (AtLeaf t.tip)) }
        ensures lives { IfOk result (λ t. living_kind (AtLeaf t.tip) ≡ 1) }
        ensures carries { IfOk result (λ t. Carries s t.tip) }
        ensures bears { IfOk result (λ t. BearsValue (code program.now) self.now.cells self.now.scopes s t.tip v) }
        ensures refused { IfErr result (LacksBearer (code program.now) self.now s v) }
    {
        let holder = self.holder(s)?;
        match self.value_under(program, holder.tip) {
            // `w` is the value on which the token stands.
            Some(w) if w == v => Ok(holder),
            // It stands on another value, or on no value.
            _ => Err(RuleFault::Form),
        }
    }

    /// The value on which a token with this tip (what is on the token's node) stands. None where the token stands on anything else, and for a tip
    /// without a token.
    #[inline(always)]
    pub(crate) fn value_under(&self, program: &Program, tip: Tip) -> Option<Value>
        ensures lives { IfSome result (λ v. living_kind (AtLeaf tip) ≡ 1) }
        ensures bears { IfSome result (λ v. (s : ℕ) → Carries s tip → BearsValue (code program.now) self.now.cells self.now.scopes s tip v) }
        ensures other { (s : ℕ) (v : TheValue) → (result ≡ Some v → ⊥) → BearsOther (code program.now) self.now.cells self.now.scopes s tip v }
    {
        match tip {
            // The value is the answer of a call.
            Tip::Bears(_, v) => Some(v),
            Tip::Token(_, node, scope) => match program.node(node as usize) {
                TermNode::Operand(operand) => {
                    value_of(&self.scopes, &self.cells, operand, scope as usize)
                }
                _ => None,
            },
            _ => None,
        }
    }

    /// Tests that `a`, the mark of a new token, is the next mark. The error is Number: `a` is another number.
    #[inline(always)]
    pub(crate) fn expect_mark(&self, a: u64) -> Result<(), RuleFault>
        ensures next { IfOk result (λ _. a ≡ length self.now.marks) }
        ensures refused { IfErr result (λ r. (r ≡ reason.Number) × (a ≡ length self.now.marks → ⊥)) }
    {
        // `marks` has an item for mark 0 too, so its length is the next mark.
        if a == self.marks.len() as u64 {
            Ok(())
        } else {
            Err(RuleFault::Number)
        }
    }
}
