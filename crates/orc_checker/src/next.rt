//! What a token can do next. Tokens are in a *marked term*, which is what is left of the program's term after the entries before. A *cell* stands for
//! the x of an opened `f <x< g`: it is bound to a value, lost (void), or neither. A *scope* says what names mean.
//!
//! In contracts `Spells x code m p` says that the marked term m stands at the place p of a journal, `Offers` and `Allows` that the token can do this
//! next, and `AreOrdered` that each scope extends an earlier one.

ghost use Rattle.std.specs.Prelude.{◌≡◌, ◌+◌, ◌≤◌, List, length, IfSome, Some, slice_get};
ghost use Rattle.orc_rules.specs.Journal.{Place};
ghost use Rattle.orc_rules.specs.Nodes.{code, definitions};
ghost use Rattle.orc_rules.specs.Term.{Definition, site as site_of};
ghost use Rattle.orc_rules.specs.Timed.{Context};
ghost use Rattle.orc_rules.specs.declared.limits.TheConstants.{MOST_ARGUMENTS};
ghost use Rattle.orc_env.specs.Names.{AreOrdered};
ghost use Rattle.orc_env.specs.Scopes.{close, env_of};
ghost use Rattle.orc_checker.specs.Checker.{Spells};
ghost use Rattle.orc_checker.specs.Offers.{AddsValues, Allows, AwaitsAt, IsOperandAt, IsPublished, Offers};
ghost use Rattle.orc_checker.specs.Stillness.{params_in};

use crate::marked::Marked;
use crate::routines::definition;
use crate::void::has_void;
use orc_env::{Bound, StoredScope, meaning};
use orc_rules::param::Operand;
use orc_rules::program::{Program, TermNode};
use orc_rules::value::{Args, Value};
use orc_term::arena::Tip;
use orc_term::walk::{Taker, way_up};

/// What a token can do next: make the entry of that name, whose new numbers are left out here; or wait. docs/orc.md, *Journals*, lists the entries.
#[derive(Drop)]
pub enum Next {
    /// It stands on a `stop`, and ends.
    End,
    /// It stands on `f | g`, and gives way to a token on each side.
    Fork,
    /// It stands on `f >x> g`, and gives way to a token on f.
    Seq,
    /// It stands on `f ; g`, and gives way to a token on f.
    Other,
    /// It stands on a call of a definition, and gives way to a token on the body.
    Def,
    /// It stands on void, or on a call of a site with a void argument.
    Void,
    /// It stands on `f <x< g`, and gives way to a token on each side.
    Open,
    /// It publishes this value, and a `>x>` takes it.
    Send(Value),
    /// It publishes this value from the right side of this cell's pruning, which binds the cell to it.
    Bind(u64, Value),
    /// It publishes this value, and nothing takes it: so the whole program publishes it.
    Publish(Value),
    /// It calls the site of this number.
    Call(u32, Args),
    /// It waits until cells are bound or lost: `awaited` gives the cell for each position of the token's call or variable that has one.
    Wait,
}

// Adds the values that the operands have in scope `scope` to `args`, which then has `MOST_ARGUMENTS` at most; `cells` says what has become of each
// cell. The function recurses once an operand. False where an operand has no value: `args` is of no use then.
fn push_values(
    scopes: &[StoredScope],
    cells: &[Bound],
    operands: &[Operand],
    scope: usize,
    args: &mut Args,
) -> bool
    requires { length args.old + length operands.now ≤ MOST_ARGUMENTS }
    ensures { AreOrdered scopes.now → AddsValues cells.now scopes.now scope operands.now args.old args.new result }
{
    match operands {
        // No operand is left: all have values.
        [] => true,
        [operand, operands @ ..] => match meaning(scopes, cells, *operand, scope) {
            Some(Bound::Is(value)) => {
                args.push(value);
                push_values(scopes, cells, operands, scope, args)
            }
            // The operand stands for a cell that isn't bound yet, is void, or is a name that the scope doesn't have: the call can't be made now.
            Some(Bound::Cell(_)) => false,
            Some(Bound::Void) => false,
            None => false,
        },
    }
}

// What a token can do on a call of the site of number `site` with these operands (`MOST_ARGUMENTS` at most, as each call in a program has) in scope
// `scope`, where `cells` says what has become of each cell: call it, end since an argument is void, or wait for cells.
fn call_from(
    scopes: &[StoredScope],
    cells: &[Bound],
    site: u32,
    operands: &[Operand],
    scope: usize,
) -> Next
    requires { length operands.now ≤ MOST_ARGUMENTS }
    ensures { (defs : List Definition) → AreOrdered scopes.now → Allows defs (site_of site (params_in cells.now scopes.now scope operands.now)) result }
{
    let mut args = Args::new();
    if push_values(scopes, cells, operands, scope, &mut args) {
        return Next::Call(site, args);
    }
    if has_void(scopes, cells, operands, scope) {
        Next::Void
    } else {
        Next::Wait
    }
}

// What a token can do on node `node` of the program in scope `scope`, where `cells` says what has become of each cell. None on a value, since that
// depends on what takes the publication (`publication` tells it), and on a call of a definition that isn't there, which no checked program has.
fn move_from(
    program: &Program,
    scopes: &[StoredScope],
    cells: &[Bound],
    node: usize,
    scope: usize,
) -> Option<Next>
    ensures { IfSome result (λ n. AreOrdered scopes.now → Allows (definitions program.now) (close (env_of cells.now scopes.now scope) (code program.now node)) n) }
{
    match program.node(node) {
        TermNode::Stop => Some(Next::End),
        TermNode::Par(_, _) => Some(Next::Fork),
        TermNode::Seq(_, _, _) => Some(Next::Seq),
        TermNode::Other(_, _) => Some(Next::Other),
        TermNode::Prune(_, _, _) => Some(Next::Open),
        TermNode::Call(number, _) => match definition(program, number) {
            Some(_) => Some(Next::Def),
            None => None,
        },
        TermNode::Operand(operand) => match meaning(scopes, cells, operand, scope) {
            // The operand is a value.
            Some(Bound::Is(_)) => None,
            // Its cell was lost: the token ends.
            Some(Bound::Void) => Some(Next::Void),
            // Its cell is neither bound nor lost yet.
            Some(Bound::Cell(_)) => Some(Next::Wait),
            // A free name, which no checked program has.
            None => Some(Next::Wait),
        },
        TermNode::Site(site, list) => {
            Some(call_from(scopes, cells, site, program.operands(list), scope))
        }
    }
}

// The operand at place `i` of a call, from 0. None if the call has no more than `i` operands.
fn nth_of(operands: &[Operand], i: usize) -> Option<Operand>
    ensures { IfSome result (λ o. slice_get operands.now i ≡ Some o) }
{
    match operands.get(i) {
        Some(operand) => Some(*operand),
        None => None,
    }
}

// The operand of a node of the program at a position, counted from 0: a variable or a value has itself at 0, and a call of a site has its arguments.
// None at any other position and for any other node.
fn operand_at(program: &Program, node: usize, position: usize) -> Option<Operand>
    ensures { IfSome result (IsOperandAt (code program.now node) position) }
{
    match program.node(node) {
        TermNode::Operand(operand) if position == 0 => Some(operand),
        TermNode::Site(_, list) => nth_of(program.operands(list), position),
        _ => None,
    }
}

impl Marked {
    /// What the token with the mark `token` can do next. None where there is no such token, or it is on a call of a definition that isn't there (no
    /// checked program has one), or a cancel is due: then the next entry has to be that `cancel`. `Offers` promises that the entry of the answer fits
    /// here, whatever new numbers it takes.
    pub fn next(&self, program: &Program, token: u64) -> Option<Next>
        ensures { IfSome result (λ n. (x : Context) (p : Place) → x.definitions ≡ definitions program.now → Spells x (code program.now) self.now p → Offers x p token n) }
    {
        // Where the token stands: `at` is its node in the marked term, and `tip` what is on that node. The error is one of the two for which this
        // gives None.
        let holder = match self.holder(token) {
            Ok(holder) => holder,
            Err(_) => return None,
        };
        // A token on a value publishes it. What takes the publication says with which entry.
        if let Some(value) = self.value_under(program, holder.tip) {
            return self.publication(holder.at as usize, value);
        }
        match holder.tip {
            Tip::Token(_, node, scope) => {
                move_from(
                    program,
                    &self.scopes,
                    &self.cells,
                    node as usize,
                    scope as usize,
                )
            },
            // Not reached: a holder's tip is `Token` or `Bears`, and on a `Bears` there is a value.
            _ => None,
        }
    }

    // What a token at node `at` of the marked term, which stands on this value, can do: publish the value, by the entry of what takes the
    // publication. None if the node is no part of the term.
    fn publication(&self, at: usize, value: Value) -> Option<Next>
        ensures { IfSome result (IsPublished self.now.nodes at value) }
    {
        match way_up(&self.nodes, at) {
            // Nothing takes it: the whole program publishes it.
            Some(Taker::Whole) => Some(Next::Publish(value)),
            // A `>x>` takes it.
            Some(Taker::Fed(_)) => Some(Next::Send(value)),
            // The pruning of this cell takes it.
            Some(Taker::Bound(cell, _)) => Some(Next::Bind(cell, value)),
            None => None,
        }
    }

    /// The cell for which a token waits at `position`: that of an argument on a call of a site, counted from 0, and 0 on a variable. None where there
    /// is no such token or position, the operand there isn't an unbound cell, or a cancel is due.
    pub fn awaited(&self, program: &Program, token: u64, position: usize) -> Option<u64>
        ensures { IfSome result (λ c. (x : Context) (p : Place) → x.definitions ≡ definitions program.now → Spells x (code program.now) self.now p → AwaitsAt p token position c) }
    {
        // Where the token stands: `node` is the node of the program on which it stands, read in `scope`.
        let spot = match self.spot(token) {
            Ok(spot) => spot,
            Err(_) => return None,
        };
        let operand = operand_at(program, spot.node as usize, position)?;
        match meaning(&self.scopes, &self.cells, operand, spot.scope as usize) {
            Some(Bound::Cell(cell)) => Some(cell),
            // It is a value, void, or a free name: nothing is awaited at this position.
            _ => None,
        }
    }
}
