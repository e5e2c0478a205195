//! Which tokens of a marked term can move: use a rule of Orc. Moves of marks (`end`, `fork`, `seq`, `other`) use none. A *marked term* is what is
//! left of the program's term after the first entries of a journal; `nodes` are its nodes, and a *token* is on each part that can go on. A *scope*
//! says what names mean. A *cell* is the variable of an opened `<x<`: it is bound to a value, lost (void), or neither.
//!
//! A token may stand on a node of the program in whose parts a rule can be used, though they have no tokens of their own yet: `(1 | f()) >x> g` can
//! move since `1` can. So a question about a node goes down to its parts. It doesn't recur: a part has a lower number than the node, so a loop from
//! the node's number down to 0 comes to each node before its parts. `queued` flags the parts that the loop has to look at. `halts` says which of the
//! program's terms have halted: `wakes` and `can_term_move` take the flags alone, the functions below them a `Halts`, which has the memory for
//! `queued` too.
//!
//! In contracts `AreOrdered` says that each scope extends an earlier one, `AreHalts` that the flags say which of the program's terms have halted, and
//! `AreStill` that no token on a node of one of these kinds can move.

ghost use Rattle.std.specs.Prelude.{◌≡◌, ◌≤◌, ◌||◌, ℕ, true, false, List, length, is_some};
ghost use Rattle.orc_rules.specs.Idle.{is_ready, has_void};
ghost use Rattle.orc_rules.specs.Nodes.{code, definitions, param_of};
ghost use Rattle.orc_rules.specs.Term.{values_of};
ghost use Rattle.orc_env.specs.Scopes.{close_param, env_of};
ghost use Rattle.orc_term.specs.Halting.{AreHalts};
ghost use Rattle.orc_env.specs.Names.{AreOrdered};
ghost use Rattle.orc_checker.specs.Stillness.{params_in, term_moves, token_moves, AreStill, DoMove, DoMoveFrom, DoMoveOf, Wakes};

use crate::halts::Halts;
use crate::routines::definition;
use crate::void::has_void;
use orc_env::{Bound, StoredScope, meaning};
use orc_rules::laws::program_is_source;
use orc_rules::param::Operand;
use orc_rules::program::{Program, TermNode};
use orc_term::arena::{Kind, Tip};
use orc_term::flags::{flag_at, write_flag};
use orc_term::nodes::Nodes;

/// Whether a token on an operand can move in scope `scope`, where `cells` says what has become of each cell: the operand is a value or void, not an
/// unbound cell.
fn is_ready(scopes: &[StoredScope], cells: &[Bound], operand: Operand, scope: usize) -> bool
    ensures { AreOrdered scopes.now → result ≡ is_ready (close_param (env_of cells.now scopes.now scope) (param_of operand)) }
{
    match meaning(scopes, cells, operand, scope) {
        Some(Bound::Cell(_)) => false,
        // A value can be published, and a token on void can end.
        Some(_) => true,
        // A free name, which no checked program has.
        None => false,
    }
}

/// Whether all operands are values in scope `scope`, where `cells` says what has become of each cell. It recurses once an operand, `MOST_ARGUMENTS`
/// times at most.
fn are_values(scopes: &[StoredScope], cells: &[Bound], operands: &[Operand], scope: usize) -> bool
    ensures { AreOrdered scopes.now → result ≡ is_some (values_of (params_in cells.now scopes.now scope operands.now)) }
{
    match operands {
        // No operand is left: all are values.
        [] => true,
        [operand, operands @ ..] => match meaning(scopes, cells, *operand, scope) {
            Some(Bound::Is(_)) => are_values(scopes, cells, operands, scope),
            _ => false,
        },
    }
}

/// Whether a token on a call of a site with these operands can move in scope `scope`, where `cells` says what has become of each cell: all operands
/// are values, or one is void.
fn is_callable(scopes: &[StoredScope], cells: &[Bound], operands: &[Operand], scope: usize) -> bool
    ensures { AreOrdered scopes.now → result ≡ (is_some (values_of (params_in cells.now scopes.now scope operands.now)) || has_void (params_in cells.now scopes.now scope operands.now)) }
{
    are_values(scopes, cells, operands, scope) || has_void(scopes, cells, operands, scope)
}

/// Whether a node of the program can move in scope `scope` by a rule of its own, not by one of its parts. `cells` says what has become of each cell.
/// `halts` says for each node whether its term has halted. The function flags in `queued` the parts by whose moves the node can move too, and clears
/// no flag.
fn wakes(
    program: &Program,
    halts: &Vec<bool>,
    scopes: &[StoredScope],
    cells: &[Bound],
    queued: &mut Vec<bool>,
    node: usize,
    scope: usize,
) -> bool
    ensures wakes { AreHalts (code program.now) halts.now.items → AreOrdered scopes.now → Wakes (term_moves (definitions program.now) (code program.now) cells.now scopes.now scope) queued.old.items queued.new.items node result }
    ensures len { length queued.new.items ≡ length queued.old.items }
{
    // A fact that the prover is shown: each node stands behind its parts. Nothing runs.
    program.are_parts_first();
    match program.node(node) {
        // A token on a `stop` can only end, which uses no rule of Orc.
        TermNode::Stop => false,
        TermNode::Operand(operand) => is_ready(scopes, cells, operand, scope),
        TermNode::Site(_, list) => is_callable(scopes, cells, program.operands(list), scope),
        TermNode::Call(number, _) => match definition(program, number) {
            Some(_) => true,
            // No checked program calls a definition that it doesn't have.
            None => false,
        },
        // A `|` moves by its sides alone: both are flagged, and the caller looks at them.
        TermNode::Par(f, g) => {
            write_flag(queued, f, true);
            write_flag(queued, g, true);
            false
        }
        // The right side starts when the left one publishes, which is a move of the left one.
        TermNode::Seq(f, _, _) => {
            write_flag(queued, f, true);
            false
        }
        // A token on `f <x< g` can open it.
        TermNode::Prune(_, _, _) => true,
        // Once the left side has halted, the right one can start.
        TermNode::Other(f, _) => {
            write_flag(queued, f, true);
            flag_at(halts, f)
        }
    }
}

/// Whether the term at node `node` of the program can move in scope `scope`: the node itself or one of its parts. `halts` says for each node whether
/// its term has halted, and `cells` what has become of each cell. `queued` has a flag for each node of the program and is overwritten.
fn can_term_move(
    program: &Program,
    halts: &Vec<bool>,
    scopes: &[StoredScope],
    cells: &[Bound],
    queued: &mut Vec<bool>,
    node: usize,
    scope: usize,
) -> bool
    requires { length halts.now.items ≤ length queued.old.items }
    ensures moves { AreHalts (code program.now) halts.now.items → AreOrdered scopes.now → result ≡ term_moves (definitions program.now) (code program.now) cells.now scopes.now scope node }
    ensures len { length queued.new.items ≡ length queued.old.items }
{
    // An operand and a call of a site have no parts, so the answer needs no flags. Most tokens that can't move stand on one of these.
    match program.node(node) {
        TermNode::Operand(operand) => return is_ready(scopes, cells, operand, scope),
        TermNode::Site(_, list) => {
            return is_callable(scopes, cells, program.operands(list), scope);
        }
        // Any other node: `wakes` tells below, with the flags of the parts.
        _ => {}
    }
    // A law that the prover is shown; nothing runs.
    program_is_source();
    // Takes back the flags of an earlier question.
    for i in 0..node {
        write_flag(queued, i, false);
    }
    if wakes(program, halts, scopes, cells, queued, node, scope) {
        return true;
    }
    // `above` goes down: the nodes from it on have been looked at. Parts have lower numbers, so each has its flag before the loop gets to it.
    let mut above = node;
    while above > 0 {
        above -= 1;
        if !flag_at(queued, above) {
            continue;
        }
        if wakes(program, halts, scopes, cells, queued, above, scope) {
            return true;
        }
    }
    false
}

/// Whether the token on a node of this kind of the marked term can move; false where no token is on it. Of `halts` only the scratch flags `queued`
/// change.
#[inline(always)]
fn can_token_move(
    program: &Program,
    halts: &mut Halts,
    scopes: &[StoredScope],
    cells: &[Bound],
    kind: Kind,
) -> bool
    ensures moves { AreHalts (code program.now) halts.old → AreOrdered scopes.now → result ≡ token_moves (definitions program.now) (code program.now) cells.now scopes.now kind }
    ensures same { halts.new ≡ halts.old }
{
    match kind {
        Kind::Leaf(Tip::Token(_, node, scope)) => can_term_move(
            program,
            &halts.flags,
            scopes,
            cells,
            &mut halts.queued,
            node as usize,
            scope as usize,
        ),
        // The value can be published.
        Kind::Leaf(Tip::Bears(_, _)) => true,
        // A `stop` without a token, a pending call, a dropped node, or a node with parts.
        _ => false,
    }
}

/// Whether a token on one of the nodes in `list` can move. Of `halts` only scratch flags change.
fn can_listed_move(
    program: &Program,
    halts: &mut Halts,
    scopes: &[StoredScope],
    cells: &[Bound],
    nodes: &Nodes,
    list: &[u32],
) -> bool
    ensures moves { AreHalts (code program.now) halts.old → AreOrdered scopes.now → DoMoveOf (token_moves (definitions program.now) (code program.now) cells.now scopes.now) nodes.now.items list.now result }
    ensures same { halts.new ≡ halts.old }
{
    for index in 0..list.len() {
        let kind = nodes.node_at(list[index] as usize).kind;
        if can_token_move(program, halts, scopes, cells, kind) {
            return true;
        }
    }
    false
}

/// Whether a token on a node from number `first` on can move. Of `halts` only scratch flags change.
fn can_new_move(
    program: &Program,
    halts: &mut Halts,
    scopes: &[StoredScope],
    cells: &[Bound],
    nodes: &Nodes,
    first: usize,
) -> bool
    ensures moves { AreHalts (code program.now) halts.old → AreOrdered scopes.now → DoMoveFrom (token_moves (definitions program.now) (code program.now) cells.now scopes.now) nodes.now.items first result }
    ensures same { halts.new ≡ halts.old }
{
    for place in first..nodes.len() {
        let kind = nodes.node_at(place).kind;
        if can_token_move(program, halts, scopes, cells, kind) {
            return true;
        }
    }
    false
}

/// Whether some token of the marked term can move. Tokens on nodes of the kinds in `nodes.asked` aren't asked: `AreStill` says that they can't. Of
/// `halts` only scratch flags change. Of the other tokens it asks those that `to_ask` names: on the nodes of the lists `waiting` and `woken`, and on
/// the new nodes, those from number `first_new` on.
pub(crate) fn can_some_move(
    program: &Program,
    halts: &mut Halts,
    scopes: &[StoredScope],
    cells: &[Bound],
    nodes: &Nodes,
) -> bool
    ensures moves { AreHalts (code program.now) halts.old → AreOrdered scopes.now → AreStill (definitions program.now) (code program.now) cells.now scopes.now nodes.now.asked → DoMove (token_moves (definitions program.now) (code program.now) cells.now scopes.now) nodes.now.items result }
    ensures same { halts.new ≡ halts.old }
{
    let to_ask = nodes.to_ask();
    can_listed_move(program, halts, scopes, cells, nodes, to_ask.waiting)
        || can_listed_move(program, halts, scopes, cells, nodes, to_ask.woken)
        || can_new_move(program, halts, scopes, cells, nodes, to_ask.first_new)
}
