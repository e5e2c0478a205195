//! Writes out expressions as nodes of terms (*Written out* in docs/orc.md).
//!
//! The nodes of an expression stand in postorder, so they are written from the first to the last: each takes its parts, which were written just
//! before, from the end of a stack, and leaves what it makes of them there. A `Piece` on the stack is an operand (a literal or a variable), which has
//! no node yet, or the number of a node. `numbers` gives names their numbers. A `Part` is what stands at a node of the source's tree.

ghost use Rattle.std.specs.Prelude.{◌≡◌, ◌<◌, ◌≤◌, ◌+◌, drop, ◌∷◌, [], ℕ, List, length, map, None, IfOk, OnOk};
ghost use Rattle.orc_rules.specs.declared.limits.TheConstants.{MOST_ARGUMENTS};
ghost use Rattle.orc_lex.specs.declared.token.Span.{Span};
ghost use Rattle.orc_rules.specs.Nodes.{HasParts, param_of};
ghost use Rattle.orc_rules.specs.Term.{Term, param};
ghost use Rattle.orc_syntax.specs.Tree.{Tree, post, operation, val, call};
ghost use Rattle.orc_syntax.specs.Ast.{label, link, sort, item};
ghost use Rattle.orc_scope.specs.Written.{written, plain_term, as_param, param_or, pruned, params as params_of, prunings as prunings_of};
ghost use Rattle.orc_scope.specs.Building.{built, builds, IsSmall, AreSmall};
ghost use Rattle.orc_scope.specs.Listed.{terms, term_at, term_of, HasList};
ghost use Rattle.orc_scope.specs.Pieces.{piece_term, IsFine, parts, IsReady, Keeps, IfSides, OnNoSides, AreFew};

use crate::nodes::{Nodes, Piece};
use crate::numbers::Numbers;
use orc_rules::limits::MOST_ARGUMENTS;
use orc_rules::param::{Operand, Operands};
use orc_rules::program::TermNode;
use orc_rules::value::Value;
use orc_syntax::{Name, Node, Operator, Part, Plain};
use std::alloc::AllocError;

// In contracts `parts` are the terms of the parts on the stack, the last one first, and `built` is what a node makes of them. `IsReady` says that the
// nodes which they name are there, and `Keeps` that the nodes so far stay. `IfSides` and `OnNoSides` are the cases in which two parts were there
// and in which they weren't.

/// The nodes that were written so far, and the parts of the expression in hand that are in no other part yet.
#[derive(Drop)]
pub struct Writing {
    /// The nodes of all expressions so far.
    pub nodes: Nodes,
    /// The stack of parts of the expression that is being written, the last one written last.
    pub pieces: Vec<Piece>,
}

impl Writing {
    // Adds a node, and pushes it as a part. The clauses ask that the node's parts and its list of operands are there, and that it is no operand.
    // Nodes that were there stay (`Keeps`). The error is refused memory, here and below.
    fn join(&mut self, node: TermNode) -> Result<(), AllocError>
        requires ready { IsReady self.old }
        requires parts { HasParts (length (terms self.old.nodes)) node }
        requires list { HasList (length self.old.nodes.lists) node }
        requires whole { as_param (term_of self.old.nodes node) ≡ None }
        ensures parts { OnOk result (parts self.new ≡ term_of self.old.nodes node ∷ parts self.old) }
        ensures ready { OnOk result (IsReady self.new) }
        ensures keeps { OnOk result (Keeps (terms self.old.nodes) (terms self.new.nodes)) }
    {
        let at = self.nodes.add(node)?;
        self.pieces.push(Piece::Node(at))?;
        Ok(())
    }

    // Pushes an operand (a literal or a variable) as a part, without a node. `IsReady` says that the nodes which the parts on the stack name are
    // there.
    fn operand(&mut self, operand: Operand) -> Result<(), AllocError>
        requires { IsReady self.old }
        ensures parts { OnOk result (parts self.new ≡ param (param_of operand) ∷ parts self.old) }
        ensures ready { OnOk result (IsReady self.new) }
        ensures nodes { self.new.nodes ≡ self.old.nodes }
    {
        self.pieces.push(Piece::Operand(operand))?;
        Ok(())
    }

    // The number of a part's node, from 0. An operand (a literal or a variable) gets its node here; any other part has one, which has to be there
    // (`IsFine`).
    fn node_of(&mut self, piece: Piece) -> Result<usize, AllocError>
        requires { IsFine (terms self.old.nodes) piece }
        ensures within { IfOk result (λ at. at < length (terms self.new.nodes)) }
        ensures term { IfOk result (λ at. term_at (terms self.new.nodes) at ≡ piece_term (terms self.old.nodes) piece) }
        ensures keeps { OnOk result (Keeps (terms self.old.nodes) (terms self.new.nodes)) }
        ensures pieces { self.new.pieces ≡ self.old.pieces }
    {
        match piece {
            Piece::Operand(operand) => self.nodes.add(TermNode::Operand(operand)),
            Piece::Node(at) => Ok(at),
        }
    }

    // Takes the last two parts from the stack, and gives the numbers of their nodes, the left one first. The nodes so far stay (`Keeps`). None where
    // there are fewer, which the nodes of a tree rule out. The clauses say of both cases which parts are left (`IfSides`, `OnNoSides`).
    #[inline(always)]
    fn pop_sides(&mut self) -> Result<Option<(usize, usize)>, AllocError>
        requires { IsReady self.old }
        ensures some { IfOk result (IfSides (λ i j. parts self.old ≡ term_at (terms self.new.nodes) j ∷ term_at (terms self.new.nodes) i ∷ parts self.new)) }
        ensures within { IfOk result (IfSides (λ i j. (i < length (terms self.new.nodes)) × (j < length (terms self.new.nodes)))) }
        ensures none { IfOk result (OnNoSides (AreFew (parts self.old) × (parts self.new ≡ []))) }
        ensures ready { OnOk result (IsReady self.new) }
        ensures keeps { OnOk result (Keeps (terms self.old.nodes) (terms self.new.nodes)) }
    {
        let Some(right) = self.pieces.pop() else {
            return Ok(None);
        };
        let Some(left) = self.pieces.pop() else {
            return Ok(None);
        };
        let left_node = self.node_of(left)?;
        let right_node = self.node_of(right)?;
        Ok(Some((left_node, right_node)))
    }

    // Joins the last two parts on the stack by an operator, and pushes what that makes, which contracts call `built`: i and j are the numbers of the
    // nodes of its left and its right side.
    fn operate(&mut self, numbers: &Numbers, operator: Operator) -> Result<(), AllocError>
        requires { IsReady self.old }
        ensures parts { OnOk result (parts self.new ≡ built numbers.now.known numbers.now.names (operation (link operator.entry)) (parts self.old)) }
        ensures ready { OnOk result (IsReady self.new) }
        ensures keeps { OnOk result (Keeps (terms self.old.nodes) (terms self.new.nodes)) }
    {
        let Some((i, j)) = self.pop_sides()? else {
            // Not reached: both sides of an operator were written before it.
            return Ok(());
        };
        self.join(match operator {
            Operator::Seq(name) => TermNode::Seq(i, numbers.operator(name), j),
            Operator::Par => TermNode::Par(i, j),
            Operator::Prune(name) => TermNode::Prune(i, numbers.operator(name), j),
            Operator::Other => TermNode::Other(i, j),
        })
    }

    // The arguments of a call, which are the parts on the stack (`pieces`) from place `base` on, as operands. An argument that has a node is replaced
    // by a new variable, whose number `fresh` gives for the argument's place in the call, from 0; there are `MOST_ARGUMENTS` arguments at most.
    fn operands(&self, numbers: &Numbers, base: usize) -> Operands
        requires ready { IsReady self.now }
        requires base { base ≤ length self.now.pieces.items }
        requires few { length self.now.pieces.items ≤ base + MOST_ARGUMENTS }
        ensures { map param_of result ≡ params_of (length numbers.now.names) (map (piece_term (terms self.now.nodes)) (drop base self.now.pieces.items)) }
    {
        let mut operands = Operands::new();
        let mut at = base;
        while at < self.pieces.len() {
            operands.push(argument(self.pieces[at], numbers.fresh(at - base)));
            at += 1;
        }
        operands
    }

    // The number of the node of `root <name< piece`, where `root` is a node's number, `name` a new variable's, and `piece` the argument that the
    // variable replaces; `root` itself if the argument is an operand (a literal or a variable) and needs no pruning.
    fn pruning(&mut self, root: usize, name: u32, piece: Piece) -> Result<usize, AllocError>
        requires fine { IsFine (terms self.old.nodes) piece }
        requires within { root < length (terms self.old.nodes) }
        ensures within { IfOk result (λ at. at < length (terms self.new.nodes)) }
        ensures term { IfOk result (λ at. term_at (terms self.new.nodes) at ≡ pruned (term_at (terms self.old.nodes) root) name (piece_term (terms self.old.nodes) piece) (as_param (piece_term (terms self.old.nodes) piece))) }
        ensures keeps { OnOk result (Keeps (terms self.old.nodes) (terms self.new.nodes)) }
        ensures pieces { self.new.pieces ≡ self.old.pieces }
    {
        match piece {
            Piece::Operand(_) => Ok(root),
            Piece::Node(side) => self.nodes.add(TermNode::Prune(root, name, side)),
        }
    }

    // Puts a call, whose node has the number `call`, into the prunings of its new variables, the first argument's innermost, and gives the number of
    // the outermost one's node. The arguments are the parts on the stack from place `base` on; they stay there. So do the nodes so far (`Keeps`). The
    // clauses ask that the nodes are there, and that the arguments are `MOST_ARGUMENTS` at most: `fresh` has numbers for so many.
    fn prunings(&mut self, call: usize, numbers: &Numbers, base: usize) -> Result<usize, AllocError>
        requires ready { IsReady self.old }
        requires base { base ≤ length self.old.pieces.items }
        requires few { length self.old.pieces.items ≤ base + MOST_ARGUMENTS }
        requires within { call < length (terms self.old.nodes) }
        ensures within { IfOk result (λ at. at < length (terms self.new.nodes)) }
        ensures term { IfOk result (λ at. term_at (terms self.new.nodes) at ≡ prunings_of (length numbers.now.names) (term_at (terms self.old.nodes) call) (map (piece_term (terms self.old.nodes)) (drop base self.old.pieces.items))) }
        ensures keeps { OnOk result (Keeps (terms self.old.nodes) (terms self.new.nodes)) }
        ensures pieces { OnOk result (self.new.pieces ≡ self.old.pieces) }
    {
        let mut root = call;
        let mut at = base;
        while at < self.pieces.len() {
            let piece = self.pieces[at];
            root = self.pruning(root, numbers.fresh(at - base), piece)?;
            at += 1;
        }
        Ok(root)
    }

    // Joins the last `count` parts on the stack, the arguments, to a call of this name, and pushes it with the prunings of its new variables as one
    // part.
    fn call(&mut self, numbers: &Numbers, text: &[u8], count: usize) -> Result<(), AllocError>
        requires ready { IsReady self.old }
        requires few { count ≤ MOST_ARGUMENTS }
        ensures parts { (span : Span) → OnOk result (parts self.new ≡ built numbers.now.known numbers.now.names (call (record { text = text.now; span = span }) count) (parts self.old)) }
        ensures ready { OnOk result (IsReady self.new) }
        ensures keeps { OnOk result (Keeps (terms self.old.nodes) (terms self.new.nodes)) }
    {
        // The arguments were written before, so there are `count` pieces, and the subtraction never saturates.
        let base = self.pieces.len().saturating_sub(count);
        let operands = self.operands(numbers, base);
        let at = self.nodes.add_call(numbers, text, operands)?;
        let root = self.prunings(at, numbers, base)?;
        self.pieces.truncate(base);
        self.pieces.push(Piece::Node(root))?;
        Ok(())
    }

    // Joins the last two parts on the stack, G and F of `val x = G F`, to the pruning `F <x< G`. `bound` is the number of G's node, and `body` that
    // of F's.
    fn bind(&mut self, numbers: &Numbers, name: Name) -> Result<(), AllocError>
        requires { IsReady self.old }
        ensures parts { OnOk result (parts self.new ≡ built numbers.now.known numbers.now.names (val (label name.entry)) (parts self.old)) }
        ensures ready { OnOk result (IsReady self.new) }
        ensures keeps { OnOk result (Keeps (terms self.old.nodes) (terms self.new.nodes)) }
    {
        let Some((bound, body)) = self.pop_sides()? else {
            // Not reached: G and F were written before.
            return Ok(());
        };
        self.join(TermNode::Prune(body, numbers.variable(name.text), bound))
    }

    // Pushes a literal or `stop` as a part. Only `stop` gets a node: it is no operand.
    fn plain(&mut self, plain: Plain) -> Result<(), AllocError>
        requires { IsReady self.old }
        ensures parts { OnOk result (parts self.new ≡ plain_term plain ∷ parts self.old) }
        ensures ready { OnOk result (IsReady self.new) }
        ensures keeps { OnOk result (Keeps (terms self.old.nodes) (terms self.new.nodes)) }
    {
        match plain {
            Plain::Number(number) => self.operand(Operand::Is(Value::Number(number))),
            Plain::Truth(truth) => self.operand(Operand::Is(Value::Truth(truth))),
            Plain::Signal => self.operand(Operand::Is(Value::Signal)),
            Plain::Stop => self.join(TermNode::Stop),
        }
    }

    // Writes out one node of the source: takes its parts from the stack, and pushes what it makes of them, which contracts call `built`. A call of
    // too many arguments is left out; the check refuses it before (C8), so the clause *parts* speaks of other nodes alone (`IsSmall`).
    fn write(&mut self, numbers: &Numbers, part: Part) -> Result<(), AllocError>
        requires { IsReady self.old }
        ensures parts { IsSmall (sort part.entry) → OnOk result (parts self.new ≡ built numbers.now.known numbers.now.names (sort part.entry) (parts self.old)) }
        ensures ready { OnOk result (IsReady self.new) }
        ensures keeps { OnOk result (Keeps (terms self.old.nodes) (terms self.new.nodes)) }
    {
        match part {
            Part::Plain(plain) => self.plain(plain),
            Part::Variable(name) => self.operand(Operand::Name(numbers.variable(name.text))),
            Part::Call(name, count) if count <= MOST_ARGUMENTS => self.call(
                numbers, name.text, count,
            ),
            Part::Call(_, _) => Ok(()),
            Part::Operation(operator) => self.operate(numbers, operator),
            Part::Val(name) => self.bind(numbers, name),
        }
    }

    // Writes out nodes of the source one after another, in postorder: each finds its parts on the stack. The nodes so far stay (`Keeps`). `builds` is
    // what they make of the stack.
    fn write_all(&mut self, numbers: &Numbers, nodes: &[Node]) -> Result<(), AllocError>
        requires { IsReady self.old }
        ensures parts { AreSmall (map item nodes.now) → OnOk result (parts self.new ≡ builds numbers.now.known numbers.now.names (parts self.old) (map item nodes.now)) }
        ensures ready { OnOk result (IsReady self.new) }
        ensures keeps { OnOk result (Keeps (terms self.old.nodes) (terms self.new.nodes)) }
    {
        for node in nodes {
            self.write(numbers, node.part)?;
        }
        Ok(())
    }

    // The number of the node of the last part, which is the whole expression.
    fn root(&mut self) -> Result<usize, AllocError>
        requires { IsReady self.old }
        ensures term { (f : Term) → parts self.old ≡ f ∷ [] → IfOk result (λ at. (term_at (terms self.new.nodes) at ≡ f) × (at < length (terms self.new.nodes))) }
        ensures keeps { OnOk result (Keeps (terms self.old.nodes) (terms self.new.nodes)) }
    {
        match self.pieces.pop() {
            Some(piece) => self.node_of(piece),
            // Not reached: an expression has a node.
            None => Ok(0),
        }
    }

    /// Writes out an expression, and gives the number of its term's node, from 0. The nodes of other expressions stay. The error is refused memory.
    pub fn expression(&mut self, numbers: &Numbers, nodes: &[Node]) -> Result<usize, AllocError>
        ensures term { (t : Tree) → map item nodes.now ≡ post t → AreSmall (post t) → IfOk result (λ at. (term_at (terms self.new.nodes) at ≡ written numbers.now.known numbers.now.names t) × (at < length (terms self.new.nodes))) }
        ensures keeps { OnOk result (Keeps (terms self.old.nodes) (terms self.new.nodes)) }
    {
        self.pieces.clear();
        self.write_all(numbers, nodes)?;
        self.root()
    }
}

// A part as an operand of a call: itself where it is one (a literal or a variable), else the variable `name`.
fn argument(piece: Piece, name: u32) -> Operand
    ensures { (fs : List Term) → IsFine fs piece → param_of result ≡ param_or name (as_param (piece_term fs piece)) }
{
    match piece {
        Piece::Operand(operand) => operand,
        Piece::Node(_) => Operand::Name(name),
    }
}
